// What a change text asks for.
use rel_base::{Batch, Why};

/// One thing that a change text asks for, in its order.
#[derive(Drop)]
pub enum Item {
    /// Batch `no`, which is to be applied. Operation k of it, from 1, is record `first` + k - 1 of the text. Where it has
    /// none, record `first` is the one that ends it.
    Batch { no: u64, first: u64, batch: Batch },
    /// Batch `no` is refused as it stands: record `rec` is at fault.
    Bad { no: u64, rec: u64, why: Why },
    /// A report of the rows as the batches so far leave them.
    Report,
}
