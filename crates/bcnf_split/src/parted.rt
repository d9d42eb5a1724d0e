// A violation of normal form, by which a table is parted.
use rel_base::ColSet;

// A column set inside a table, and what it determines there outside itself.
#[derive(Clone, Copy)]
pub(crate) struct Parting {
    pub(crate) left: ColSet,
    pub(crate) dependents: ColSet,
}
