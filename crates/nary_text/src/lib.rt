//! The text of `nary`.
#![tactic(auto)]

mod listing;

pub use listing::list_inclusions_of;
