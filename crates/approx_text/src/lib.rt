//! The text of `approx`.
#![tactic(auto)]

mod approximating;

pub use approximating::approximate_of;
