// A list that another one took the place of.
use crate::cand_list::CandList;
use std::marker::Model;

/// The list that a target had before a new one was put in its place.
///
/// There is nothing to be done with it but to let go of it, which takes time by its length: whoever put the new list can do that when
/// nobody waits. Contracts see nothing of it.
#[derive(Drop)]
pub struct OldList {
    list: CandList,
}

impl Model for OldList {
    ghost Value = { Unit {0} };

    ghost view = { λ old. tt };

    ghost invariant = { λ old. Unit {0} };
}

impl OldList {
    pub(crate) fn of(list: CandList) -> OldList {
        OldList { list }
    }
}
