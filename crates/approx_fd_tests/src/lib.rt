//! The tests of `approx_fd`, over its public calls alone: a crate of their own, so that a change in a test proves no code again. They
//! compare it with a plain program, whose contract is the definition.
#![tactic(auto)]

pub mod plain;
#[cfg(test)]
mod tests;
