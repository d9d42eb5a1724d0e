// What a run writes, made before its first byte is written.
ghost use Rattle.std.specs.Prelude.{◌≡◌};
ghost use Rattle.task_base.specs.Written.{text_alone};

use ports::Text;
use rel_base::Name;
use std::alloc::Global;
use std::marker::Model;

/// What a run writes: files, and behind them a text. Contracts see the names and the bytes.
#[derive(Drop)]
pub struct Made {
    files: Vec<(Name, Text)>,
    text: Vec<u8>,
}

impl Model for Made {
    ghost use Rattle.task_base.specs.Written.{Written};

    ghost Value = { Written };

    ghost view = { λ m. record { files = m.files.items; text = m.text.items } };
}

impl Made {
    /// These files and this text, which takes no memory.
    pub fn of(files: Vec<(Name, Text)>, text: Vec<u8>) -> Made
        ensures { result ≡ record { files = files.items; text = text.items } }
    {
        Made { files, text }
    }

    /// A text and no file, which takes no memory.
    pub fn text_alone(alloc: Global, text: Vec<u8>) -> Made
        ensures { result ≡ text_alone text.items }
    {
        Made {
            files: Vec::new(alloc),
            text,
        }
    }

    /// The files and the text, which takes no memory.
    pub fn into_parts(self) -> (Vec<(Name, Text)>, Vec<u8>)
        ensures files { result.0.items ≡ self.files }
        ensures text { result.1.items ≡ self.text }
    {
        (self.files, self.text)
    }
}
