//! The rows of a relation under batches, each cell as a code.
#![tactic(auto)]

mod applying;
mod codes;
mod column;
mod live;
mod row_log;
mod table;

pub use applying::Applying;
pub use live::LiveCells;
pub use row_log::RowLog;
