//! Files of comma-separated values: their records, and the relation that they hold or the rule that refuses them.
#![tactic(auto)]

mod by_threads;
mod cutting;
pub mod laws;
mod load;
mod marks;
mod parted;
mod record_reader;
mod refusal;
#[cfg(test)]
mod tests;
mod wide_records;

pub use by_threads::read_relation_by;
pub use load::{Loaded, read_relation, records};
pub use parted::{Parted, part_at_giant};
pub use record_reader::RecordReader;
pub use refusal::has_long_cell;
