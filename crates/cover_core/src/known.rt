// Dependencies that were seen to hold.
ghost use Rattle.std.specs.Prelude.{◌↔◌, ◌≡◌, ◌<◌, ◌≤◌, false, length, IsTrue};
ghost use Rattle.col_set.specs.Target.{IsColumnTarget};
ghost use Rattle.candidate_cover.specs.Cands.{cands_of, width};
ghost use Rattle.cover_core.specs.Told.{Answers};

use candidate_cover::CandidateCover;
use rel_base::{Job, RowNo, Target};

/// Dependencies and keys that were seen to hold in the rows that a book had, 21 bytes each (`Book::seek`). Threads share it by
/// reference: it never changes.
#[derive(Drop)]
pub struct Known {
    pub(crate) candidates: CandidateCover,
    pub(crate) next: RowNo,
    pub(crate) live: u32,
}

impl Known {
    /// Whether it answers a job: whether the job is of as many rows below the same number, and its dependency is one of those that
    /// were seen to hold.
    ///
    /// It looks the left side up. Whoever asks for jobs in the order in which they are drawn keeps `near` from one call to the next,
    /// at first 0, so that a look-up takes a few steps; the answer does not depend on it.
    pub fn answers(&self, job: &Job, near: &mut usize) -> bool
        requires { IsColumnTarget (width self.now.candidates) job.now.target }
        ensures { IsTrue result ↔ Answers self.now job.now }
    {
        if job.to() != self.next || job.snapshot().live_count() != self.live {
            return false;
        }
        match self.candidates.upto_near(job.target(), job.left(), near) {
            Some(upto) => self.next <= upto,
            None => false,
        }
    }

    /// Whether it lists more than so many left sides for some target. It takes a step a column.
    pub fn is_long(&self, most: usize) -> bool
        ensures long { IsTrue result → (t : Target) × IsColumnTarget (width self.now.candidates) t × (most < length (cands_of self.now.candidates t)) }
        ensures short { result ≡ false → (t : Target) → IsColumnTarget (width self.now.candidates) t → length (cands_of self.now.candidates t) ≤ most }
    {
        if self.candidates.lefts(Target::RowId).len() > most {
            return true;
        }
        for column in 0..self.candidates.columns() {
            if self.candidates.lefts(Target::Col(column)).len() > most {
                return true;
            }
        }
        false
    }
}
