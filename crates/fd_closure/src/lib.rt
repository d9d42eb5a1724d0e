//! Closures of column sets under the minimal dependencies of a relation, and keys by them.
#![tactic(auto)]

mod block;
mod blocks;
mod group;
pub mod laws;
mod left_sides;
mod reach;
mod sides;
#[cfg(test)]
mod tests;
mod under;

pub use left_sides::LeftSides;
pub use reach::{closure, determines, shrink_key};
pub use under::closure_under;
