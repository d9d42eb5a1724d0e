//! The shared base: cells, rows, relations, limits, batches, snapshots and jobs, and what they mean.
//!
//! Column sets and targets come from the crate `col_set` and are passed on here.
#![tactic(auto)]

mod append;
mod batch;
mod cell;
mod cells;
mod dependency;
mod job;
mod joining;
pub mod laws;
mod limits;
mod name;
mod nulls;
mod packed_codes;
mod relation;
mod row;
mod row_no;
mod snapshot;
mod steps;
mod why;

pub use batch::{Batch, Change, Cursor, Op, RowPlace};
pub use cell::Cell;
pub use cells::Cells;
pub use col_set::{COLUMN_PLACES, ColSet, MOST_COLUMNS, Target};
pub use dependency::{Covers, Fd, Table};
pub use job::Job;
pub use limits::{Limits, MOST_BYTES, MOST_CELL_BYTES, MOST_ROWS};
pub use name::Name;
pub use nulls::Nulls;
pub use packed_codes::{Code, CodeSlice, PackedCodes};
pub use relation::Relation;
pub use row::Row;
pub use row_no::RowNo;
pub use snapshot::{Codes, Snapshot};
pub use steps::Steps;
pub use why::Why;
