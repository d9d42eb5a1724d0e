//! The top call: words, files and input to what a run writes. It knows commands by what they read and may write.
#![tactic(auto)]

mod answering;
mod ending;
pub mod laws;
mod outcome;
mod reading;
mod tasks;
mod top_call;
mod writing;

pub use outcome::Outcome;
pub use top_call::run;
