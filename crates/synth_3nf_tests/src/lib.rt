//! The tests of `synth_3nf`, over its public calls alone: a crate of their own, so that a change in a test proves no code again.
#![tactic(auto)]

#[cfg(test)]
mod tests;
