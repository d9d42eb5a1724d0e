// Calls on a shelf by their kind, and which of them are to fail.
ghost use Rattle.std.specs.Prelude.{◌≡◌};
ghost use Rattle.ports.specs.Kinds.{is_due, after_begin};

use std::marker::Model;

/// A kind of call on a shelf.
#[derive(Clone, Copy, Debug, PartialEq, Eq)]
pub enum Kind {
    Open,
    Read,
    Create,
    Write,
    Close,
}

// Which calls are to fail, by kind and by number among those of the kind, from 1, and how many of
// each kind there were.
#[derive(Drop)]
pub(crate) struct ShelfCalls {
    fails: Vec<(Kind, u64)>,
    made: [u64; 5],
}

impl Model for ShelfCalls {
    ghost use Rattle.ports.specs.Kinds.{ShelfCourse};

    ghost Value = { ShelfCourse };

    ghost view = { λ c. record { fails = c.fails.items; made = c.made } };
}

impl ShelfCalls {
    ghost use Rattle.std.specs.Prelude.{replicate};

    pub(crate) fn of(fails: Vec<(Kind, u64)>) -> ShelfCalls
        ensures { result ≡ record { fails = fails.items; made = replicate 5 0 } }
    {
        ShelfCalls {
            fails,
            made: [0; 5],
        }
    }

    // Counts a call, and says whether it is to fail.
    pub(crate) fn begin(&mut self, kind: Kind) -> bool
        ensures due { result ≡ is_due kind self.old }
        ensures counted { self.new ≡ after_begin kind self.old }
    {
        let place = kind as usize;
        let number = self.made[place].saturating_add(1);
        self.made[place] = number;
        self.fails.iter().any(|f| f.0 == kind && f.1 == number)
    }
}
