// What is found: dependencies and keys that hold but for a few rows.

use rel_base::{ColSet, Fd};

/// A dependency that holds where a few rows are removed, and how many these are at least.
#[derive(Clone, Copy, PartialEq, Eq)]
pub struct Approx {
    pub fd: Fd,
    pub removed: u32,
}

/// Columns that are unique where a few rows are removed, and how many these are at least.
#[derive(Clone, Copy, PartialEq, Eq, PartialOrd, Ord)]
pub struct NearKey {
    pub columns: ColSet,
    pub removed: u32,
}
