// What applying a batch answers.
ghost use Rattle.std.specs.Prelude.{◌≡◌, ◌<◌, ◌+◌, ◌^◌};
ghost use Rattle.row_log.specs.Halting.{answer_at};

use rel_base::Why;

/// What applying a batch answers.
#[derive(Clone, Copy, Debug, PartialEq, Eq)]
pub enum Applying {
    /// All operations were applied.
    Applied {
        /// How many operations brought a row: inserts and updates.
        inserted: u32,
        /// How many operations ended a row: deletes and updates.
        deleted: u32,
    },
    /// An operation fails, and nothing changed.
    Refused {
        /// The first operation that fails, counted from 1.
        at: u64,
        /// `Missing` where its row is not live, and else `Rows` where no number is left for its new row.
        why: Why,
    },
    /// Memory ran out, and nothing changed.
    NoMemory,
}

// Why an operation was not applied.
#[derive(Clone, Copy)]
pub enum Halt {
    // It fails.
    Failed(Why),
    // Memory ran out.
    Starved,
}

impl Halt {
    // The answer to a batch whose operation at this place, counted from 0, was not applied.
    pub fn at(self, place: usize) -> Applying
        requires { place + 1 < 2 ^ 64 }
        ensures { result ≡ answer_at self place }
    {
        match self {
            Halt::Failed(why) => Applying::Refused {
                at: place as u64 + 1,
                why,
            },
            Halt::Starved => Applying::NoMemory,
        }
    }
}
