// Room for what a call makes on its way.
use crate::groups::Groups;
use std::alloc::Global;

/// Lists that callers keep from one `Partition::refine_unordered` to the next, which writes its codes and groups there, so that no
/// call makes such lists anew, and what a call hands out is a copy that fits.
///
/// What they hold says nothing. They grow to the rows of the largest partition that is refined: 4 bytes each for its codes, and up to
/// 6 for what it splits into.
#[derive(Drop)]
pub struct Scratch {
    pub(crate) codes: Vec<u32>,
    pub(crate) groups: Groups,
}

impl Scratch {
    /// Empty lists, which take no memory.
    pub fn new(alloc: Global) -> Scratch {
        Scratch {
            codes: Vec::new(alloc),
            groups: Groups::empty(alloc),
        }
    }
}
