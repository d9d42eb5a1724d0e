//! The text and the files of `normalize`, and the text of `demo`.
#![tactic(auto)]

mod demo;
pub mod laws;
mod normalizing;

pub use demo::{demo_relation, demo_text_of};
pub use normalizing::normalized_of;
