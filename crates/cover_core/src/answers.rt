// What calls on the book answer.
use rel_base::{ColSet, Covers, Job, RowNo, Target};

/// What a draw answers.
#[derive(Drop)]
pub enum Draw {
    /// The first candidate that is unfinished and not held, which is held from now on.
    Job(Job),
    /// There are unfinished candidates, and all are held. The first of them.
    Busy { target: Target, left: ColSet },
    /// Each candidate is known to hold in all rows.
    Settled,
}

/// What a refutation answers.
#[derive(Clone, Copy, Debug, PartialEq, Eq)]
pub enum Refutation {
    /// This row is not live; of two such rows, the first one.
    Gone(RowNo),
    /// What the rows agree on refutes no candidate.
    Known,
    /// The two rows are a witness from now on.
    Booked,
}

/// What a release answers.
#[derive(Clone, Copy, Debug, PartialEq, Eq)]
pub enum Release {
    /// The candidate is not held any more.
    Released,
    /// The candidate is not in the cover any more.
    Dropped,
}

/// What a settle answers.
#[derive(Drop)]
pub enum Settling {
    /// The covers of the rows.
    Ready(Covers),
    /// The first candidate that is not known to hold in all rows, and the number below which it is known to hold.
    NotYet {
        target: Target,
        left: ColSet,
        upto: RowNo,
    },
}
