//! A dictionary of the cells of a column.
#![tactic(auto)]

mod dict;
mod recent;
mod table;
mod text;

pub use dict::Dict;
pub use text::Text;
