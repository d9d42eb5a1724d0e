//! The text and the files of `synthesize`.
#![tactic(auto)]

mod synthesizing;

pub use synthesizing::synthesized_of;
