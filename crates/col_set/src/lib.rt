//! Column sets and their report order, targets of dependencies, and what a list of agree sets leaves of the candidates.
#![tactic(auto)]

mod col_set;
pub mod laws;
mod target;
#[cfg(test)]
mod tests;

pub use col_set::{COLUMN_PLACES, ColSet, ColumnIter, MOST_COLUMNS};
pub use target::Target;
