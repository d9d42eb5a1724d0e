//! What is written of tables beside their lines: the file of each, and the minimal keys of each.
#![tactic(auto)]

mod files;
mod keys;
mod numbers;
mod sheets;
mod text;

pub use files::files_of;
pub use keys::{TableKeys, keys_of_tables};
