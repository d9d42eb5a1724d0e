//! Change texts: the batches of operations that are to change a relation's rows, and the reports asked for between them.
#![tactic(auto)]

mod begun;
mod cells;
mod changes;
mod entry;
mod item;
mod kind;
pub mod laws;
mod reading;
mod row_number;

pub use changes::read_changes;
pub use item::Item;
