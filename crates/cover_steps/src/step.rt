// Calls on the shared cover, and their replies.
use rel_base::{Batch, ColSet, Covers, Job, RowNo, Target, Why};

/// A call on the shared cover.
#[derive(Drop)]
pub enum Call {
    /// Asks for a candidate to be validated.
    Draw,
    /// Says that two different rows are a witness: what they agree on does not determine the rest.
    Refute(RowNo, RowNo),
    /// Says that a job's dependency holds in the job's snapshot.
    Mark(Job),
    /// Gives a job back.
    Release(Job),
    /// Changes the rows.
    Apply(Batch),
    /// Asks for the covers.
    Settle,
}

/// What the shared cover replies.
#[derive(Drop)]
pub enum Reply {
    /// To a draw: the first candidate that is unfinished and not held, which is held from now on.
    Job(Job),
    /// To a draw: there are unfinished candidates, and all are held. The first of them.
    Busy(Target, ColSet),
    /// To a draw: each candidate is known to hold in all rows.
    Settled,
    /// To a refutation: this row is not live.
    Gone(RowNo),
    /// To a refutation: what the rows agree on refutes no candidate.
    Known,
    /// To a refutation: the witness was added.
    Booked,
    /// To a mark: the candidate is known to hold among more rows.
    Marked,
    /// To a mark or a release: the candidate is not in the cover any more.
    Dropped,
    /// To a release: the candidate is not held any more.
    Released,
    /// To a batch: how many operations brought a row, and how many ended one.
    Applied(u32, u32),
    /// To a batch: the number of the first operation that fails, and why. Nothing changed.
    Refused(u64, Why),
    /// To a settle: the covers of the rows.
    Ready(Covers),
    /// To a settle: the first unfinished candidate, and the number below which it is known to hold.
    NotYet(Target, ColSet, RowNo),
    /// To a draw, a refutation, a batch or a settle: memory ran out, and nothing changed.
    NoMemory,
}
