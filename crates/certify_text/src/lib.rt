//! The report of a relation, and a certificate of its covers, which anyone can check.
#![tactic(auto)]

mod certifying;

pub use certifying::certified_of;
