//! Verdicts on dependencies that are known to hold among older rows: each newer row is compared at most once.
#![tactic(auto)]

mod cache;
mod chain;
mod judge;
mod links;
mod lists;
mod newer;
mod old_groups;
mod order;
mod refined;
mod store;
mod stores;
mod verdict;
mod walk;
mod weighed;

pub use judge::validate;
pub use old_groups::OldGroups;
pub use order::{Order, first_places};
pub use store::Store;
pub use stores::{Stores, violations};
pub use verdict::Verdict;
