// What a store needs no more.
use crate::cache::{Cache, Kept, Places};
use rel_base::Snapshot;
use std::marker::Model;
use std::sync::Arc;

/// The groups of rows that a store had of the snapshot before, and that snapshot where nothing is kept of it.
///
/// There is nothing to be done with them but to let go of them, which takes time by their number: whoever had the store go over to
/// another snapshot can do that when nobody waits. Contracts see nothing of them.
#[derive(Drop)]
pub struct OldGroups {
    // Not the whole cache: its weights take a thousand bytes, and this goes from hand to hand.
    kept: Vec<Kept>,
    places: Places,
    snapshot: Option<Arc<Snapshot>>,
}

impl Model for OldGroups {
    ghost Value = { Unit {0} };

    ghost view = { λ old. tt };

    ghost invariant = { λ old. Unit {0} };
}

impl OldGroups {
    pub(crate) fn of(cache: Cache, snapshot: Option<Arc<Snapshot>>) -> OldGroups {
        let Cache { kept, places, .. } = cache;
        OldGroups {
            kept,
            places,
            snapshot,
        }
    }
}
