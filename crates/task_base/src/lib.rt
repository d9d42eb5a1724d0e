//! What all commands share: what a command is, what it computes with, what it reads, and what was made to be written.
#![tactic(auto)]

mod made;
mod means;
mod reads;

pub use made::Made;
pub use means::Means;
pub use reads::{ReadAs, Reads};
