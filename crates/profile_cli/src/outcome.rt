// How a run ends.
ghost use Rattle.std.specs.Prelude.{◌≡◌};

use rel_base::{Name, Why};

/// How a run ends.
#[derive(Drop, PartialEq, Eq)]
pub enum Outcome {
    /// The whole text was written.
    Done,
    /// The words are no command. The usage line was written.
    Usage,
    /// This file is the first that a rule refuses, at this record, counted from 1, or 0 for the file as a whole. Its line was written.
    Refused { file: Name, rec: u64, why: Why },
    /// A call on this file, or on the input where it is `-`, failed. Its line was written.
    ReadFault { file: Name },
    /// A call that writes failed. Some first bytes were written.
    WriteFault,
    /// Memory ran out. Nothing was written.
    NoMemory,
}

impl Outcome {
    ghost use Rattle.profile_cli.specs.Outcomes.{status_of};

    /// The status that the program ends with.
    pub fn status(&self) -> u8
        ensures { result ≡ status_of self.now }
    {
        match self {
            Outcome::Done => 0,
            Outcome::Usage => 2,
            Outcome::Refused { .. } => 3,
            Outcome::ReadFault { .. } => 4,
            Outcome::WriteFault => 5,
            Outcome::NoMemory => 6,
        }
    }
}
