// What calls of the book put something else in place of.
use candidate_cover::OldList;
use rel_base::Snapshot;
use std::alloc::Global;
use std::marker::Model;
use std::sync::Arc;
use validator::OldGroups;

/// The lists of candidates that a refutation or a batch took out of a book, and of a batch also the snapshot before it and the groups
/// of its rows.
///
/// There is nothing to be done with it but to let go of it, which takes time by its size. Contracts see nothing of it.
#[derive(Drop)]
pub struct Outdated {
    lists: Vec<OldList>,
    // Behind a pointer, since each reply at a desk has room for what it brings.
    rows: Option<Box<OldRows>>,
}

// What a batch leaves of the rows before it.
#[derive(Drop)]
struct OldRows {
    groups: OldGroups,
    snapshot: Arc<Snapshot>,
}

impl Model for Outdated {
    ghost Value = { Unit {0} };

    ghost view = { λ outdated. tt };

    ghost invariant = { λ outdated. Unit {0} };
}

impl Outdated {
    // The lists.
    pub(crate) fn of(lists: Vec<OldList>) -> Outdated {
        Outdated { lists, rows: None }
    }

    // The lists, and the groups and the snapshot. Where there is no memory to keep these two, they are let go of here.
    pub(crate) fn of_batch(
        alloc: Global,
        lists: Vec<OldList>,
        groups: OldGroups,
        snapshot: Arc<Snapshot>,
    ) -> Outdated {
        let rows = Box::new(alloc, OldRows { groups, snapshot }).ok();
        Outdated { lists, rows }
    }
}
