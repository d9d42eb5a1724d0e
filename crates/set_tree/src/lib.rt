//! Column sets with values, in a prefix tree.
#![tactic(auto)]

mod node;
mod nodes;
mod set_tree;
#[cfg(test)]
mod tests;
mod walk;

pub use set_tree::SetTree;
