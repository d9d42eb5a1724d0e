//! Pairs of rows that agree on a column, from near to far, and what they agree on: where agree sets are sought before any candidate is
//! tried.
#![tactic(auto)]

mod sampling;
mod spread;
mod windows;
mod witnesses;

pub use sampling::{sampled, sampled_by};
pub use spread::neighbours;
pub use windows::window;
pub use witnesses::{push_unseen, push_witnesses};
