//! Projections of rows and the natural join of tables, and the law that lossless splits can be joined again (Heath, 1971).
#![tactic(auto)]

mod filled;
mod index;
pub mod laws;
mod natural_join;
mod parts;
#[cfg(test)]
mod tests;

pub use filled::Filled;
pub use natural_join::join;
pub use parts::project;
