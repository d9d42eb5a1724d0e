//! Sentences for people about files: why one was refused, and what one looks like that was meant otherwise.
//!
//! They stand on standard error, beside a proved output that they are no part of. Nothing here is claimed beyond its tests, but for the
//! count of fields.
#![tactic(auto)]

mod counting;
mod hint;
mod refusal;
mod sample;
#[cfg(test)]
mod tests;

pub use counting::field_count;
pub use hint::Hint;
pub use refusal::Refusal;
pub use sample::Sample;
