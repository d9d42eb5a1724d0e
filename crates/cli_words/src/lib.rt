//! From words to what they ask for.
#![tactic(auto)]

mod command;
mod request;
mod usage;
mod words;

pub use command::request_of;
pub use request::{Names, Options, Request};
pub use usage::usage_line;
