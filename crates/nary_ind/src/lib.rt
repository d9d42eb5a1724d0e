//! Inclusions of several columns: composite foreign keys, and what looks like them.
#![tactic(auto)]

mod column_list;
mod found;
mod holding;
mod key_lists;
mod keys;
mod known;
pub mod laws;
mod level;
mod numbering;
mod search;
mod table;
mod unary;

pub use column_list::{ColumnList, MOST_WIDTH};
pub use found::ListInd;
pub use search::included_lists;
