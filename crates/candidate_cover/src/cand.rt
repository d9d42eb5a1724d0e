// Candidates and their marks.
ghost use Rattle.std.specs.Prelude.{◌≡◌, false};
ghost use Rattle.candidate_cover.specs.Marks.{fresh_mark};

use rel_base::{ColSet, RowNo};

/// A left side with its marks: it is known to hold among the rows below `upto`, and someone may hold it to find out more.
#[derive(Clone, Copy, Debug, PartialEq, Eq)]
pub struct Cand {
    pub left: ColSet,
    pub upto: RowNo,
    pub held: bool,
}

/// Whether a candidate was marked, or is no longer in the cover.
#[derive(Clone, Copy, Debug, PartialEq, Eq)]
pub enum Marking {
    Marked,
    Dropped,
}

// The marks of a left side.
#[derive(Clone, Copy)]
pub(crate) struct Mark {
    pub(crate) upto: RowNo,
    pub(crate) held: bool,
}

impl Mark {
    // The marks of a new candidate.
    pub(crate) fn fresh() -> Mark
        ensures { result ≡ fresh_mark }
    {
        Mark {
            upto: RowNo::first(),
            held: false,
        }
    }

    // No longer held.
    pub(crate) fn free(self) -> Mark
        ensures { result ≡ record { upto = self.upto; held = false } }
    {
        Mark {
            upto: self.upto,
            held: false,
        }
    }

    pub(crate) fn of(self, left: ColSet) -> Cand
        ensures { result ≡ record { left = left; upto = self.upto; held = self.held } }
    {
        Cand {
            left,
            upto: self.upto,
            held: self.held,
        }
    }
}
