//! Laws of tables by synthesis: what they keep of the dependencies, their normal form, their natural join and their references.
#![tactic(auto)]

pub mod laws;
