//! The minimal keys of a table: of the distinct parts of rows on some columns.
#![tactic(auto)]

pub mod laws;
mod rounds;
#[cfg(test)]
mod tests;
mod witnessed;

pub use rounds::table_keys;
pub use witnessed::table_keys_of;
