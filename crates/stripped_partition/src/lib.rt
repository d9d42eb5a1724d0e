//! Stripped partitions (Huhtala, Kärkkäinen, Porkka and Toivonen, 1999): the groups of two live rows or more of a snapshot that agree on some columns.
#![tactic(auto)]

mod codes;
mod groups;
pub mod laws;
mod order;
mod partition;
mod path;
mod removed;
mod scratch;
mod tally;
mod weighing;

pub use partition::Partition;
pub use path::Path;
pub use scratch::Scratch;
pub use tally::Tally;
pub use weighing::weights;
