// References between tables.
use rel_base::ColSet;

/// A reference between tables, by their numbers from 1: the columns of the one that are a minimal key of the other.
#[derive(Clone, Copy, Debug, PartialEq, Eq)]
pub struct Reference {
    pub from: u32,
    pub columns: ColSet,
    pub to: u32,
}
