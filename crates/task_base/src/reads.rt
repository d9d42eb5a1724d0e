// The files that a command has read.
ghost use Rattle.std.specs.Prelude.{◌≡◌, ◌<◌, length, slice_index_or};
ghost use Rattle.task_base.specs.Reading.{no_reading, readings};

use rel_base::Name;
use std::marker::Model;

/// How a file is read.
#[derive(Clone, Copy, Debug, PartialEq, Eq)]
pub enum ReadAs {
    /// As a relation, which the rules on its records may refuse.
    Relation,
    /// As a text of any bytes, which the number of its bytes alone may refuse.
    Text,
}

/// The files that a command has read: relations, and behind them texts. Contracts see the list of all of them, each with how it is read.
#[derive(Drop)]
pub struct Reads<'a> {
    relations: &'a [Name],
    texts: &'a [Name],
}

impl<'a> Model for Reads<'a> {
    ghost use Rattle.std.specs.Prelude.{List};
    ghost use Rattle.task_base.specs.Reading.{Reading, readings};

    ghost Value = { List Reading };

    ghost view = { λ r. readings r.relations.now r.texts.now };
}

impl<'a> Reads<'a> {
    /// These relations, and behind them these texts.
    pub fn of(relations: &'a [Name], texts: &'a [Name]) -> Reads<'a>
        ensures { result ≡ readings relations.now texts.now }
    {
        Reads { relations, texts }
    }

    /// How many files there are.
    pub fn len(&self) -> usize
        ensures { result ≡ length self.now }
    {
        self.relations.len() + self.texts.len()
    }

    /// The name of the file at a place, and how it is read.
    pub fn at(&self, place: usize) -> (&'a Name, ReadAs)
        requires { place < length self.now }
        ensures name { result.0.now ≡ (slice_index_or self.now place no_reading).0 }
        ensures read_as { result.1 ≡ (slice_index_or self.now place no_reading).1 }
    {
        if place < self.relations.len() {
            (&self.relations[place], ReadAs::Relation)
        } else {
            (&self.texts[place - self.relations.len()], ReadAs::Text)
        }
    }
}
