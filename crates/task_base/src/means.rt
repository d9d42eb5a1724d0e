// What a command computes with.
use rel_base::Limits;
use std::alloc::Global;

/// What a command computes with: memory, the limits of the run, a number of workers, and the gate that each phase passes.
#[derive(Drop)]
pub struct Means<'a, G> {
    /// Where memory is taken.
    pub alloc: Global,
    /// The limits on what is read, and on the rows of a relation.
    pub limits: Limits,
    /// How many workers there are to be at most, 1 to 16.
    pub workers: u8,
    /// What each phase passes.
    pub gate: &'a G,
}
