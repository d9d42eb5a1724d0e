//! Agree sets that were seen lately.

use rel_base::ColSet;
use std::alloc::Global;
use std::hash::{BuildHasher, BuildHasherDefault, FoldHasher};

// How many agree sets are remembered, a power of two.
const SLOTS: usize = 1 << 12;

/// Agree sets that were seen lately, so that evidence with the same one is passed over. It takes 64 KiB.
///
/// Most pairs of rows agree on what others shortly before agreed on. Each agree set has one slot of a small table, by a hash that is one
/// multiplication. No contract tells what is seen: evidence that is passed over is evidence that nobody needs, and evidence that comes
/// twice is found to be no news.
#[derive(Drop)]
pub struct Seen {
    slots: Vec<ColSet>,
}

impl Seen {
    /// None yet, which takes no memory.
    pub fn none(alloc: Global) -> Seen {
        Seen {
            slots: Vec::new(alloc),
        }
    }

    /// Whether an agree set is none of those that are remembered, as it is from then on. For want of memory nothing is remembered.
    pub fn is_new(&mut self, agree: ColSet) -> bool {
        // Each slot has a set that was seen, from the first one on.
        if self.slots.is_empty() {
            let _made = self.slots.resize(SLOTS, agree);
            return true;
        }
        match self.slots.get_mut(slot_of(agree)) {
            Some(slot) if *slot == agree => false,
            Some(slot) => {
                *slot = agree;
                true
            }
            None => true,
        }
    }
}

// The slot of an agree set.
fn slot_of(agree: ColSet) -> usize {
    let hash = BuildHasherDefault::<FoldHasher>::new().hash_one(agree);
    hash as usize & (SLOTS - 1)
}
