//! The split of a relation's columns into tables in Boyce-Codd normal form (the last steps of Normalize, Papenbrock and Naumann, 2017).
#![tactic(auto)]

mod dependents;
pub mod laws;
mod parted;
mod search;
mod tables;
#[cfg(test)]
mod tests;

pub use search::violation;
pub use tables::split;
