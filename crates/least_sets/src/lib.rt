//! The least column sets that agree sets leave: those that lie inside no agree set which lacks the target, and of which no part is such
//! a set. For a target they are the left sides of its minimal dependencies, for which row it is the minimal keys (HyFD's positive cover,
//! Papenbrock and Naumann, 2016).
#![tactic(auto)]

mod branching;
mod draft;
mod explore;
mod filing;
mod frames;
mod growth;
mod index;
mod least;
mod order;
mod outermost;
mod scans;
#[cfg(test)]
mod tests;

pub use draft::Draft;
pub use explore::least_sets_inside;
pub use growth::{changes_past, changes_with};
pub use least::{least_sets, least_sets_of_size};
