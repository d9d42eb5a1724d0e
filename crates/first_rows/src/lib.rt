//! The first row of each group of rows that agree on some columns: the rows of a projection, found by codes.
#![tactic(auto)]

mod first;
#[cfg(test)]
mod tests;

pub use first::first_rows;
