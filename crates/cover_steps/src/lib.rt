//! The shared cover as a machine: its state, its steps, what keeps it sound, and the laws over whole lists of steps; and what its steps
//! leave of the candidates, as lists.
#![tactic(auto)]

pub mod evidence;
pub mod laws;
pub mod listed;
pub mod new_lists;
pub mod recent;
pub mod seen;
mod step;
#[cfg(test)]
mod tests;

pub use step::{Call, Reply};
