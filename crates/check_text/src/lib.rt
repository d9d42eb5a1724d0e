//! The text of `check`.
#![tactic(auto)]

mod checking;

pub use checking::checked_of;
