// What a search asks about left sides, and the groups that it has at hand.
ghost use Rattle.std.specs.Prelude.{◌≡◌, ◌<◌, ◌≤◌, ◌^◌, IfOk, length};
ghost use Rattle.col_set.specs.ColSet.{empty};
ghost use Rattle.col_set.specs.declared.col_set.TheConstants.{MOST_COLUMNS};
ghost use Rattle.col_set.specs.Target.{IsColumnTarget};
ghost use Rattle.stripped_partition.specs.Removed.{up_to};
ghost use Rattle.approx_fd.specs.Removal.{removed_in};

use crate::removal::removed_up_to;
use rel_base::{ColSet, Snapshot, Target};
use std::alloc::{AllocError, Global};
use std::marker::Model;
use stripped_partition::{Path, Scratch, Tally};

// The groups by left sides of a snapshot, from one left side to the next, and room to count and to refine in. At most so many rows may be
// removed. Contracts see the snapshot, that number, and the columns of the groups at hand.
#[derive(Drop)]
pub(crate) struct Search<'a> {
    pub(crate) snapshot: &'a Snapshot,
    pub(crate) order: &'a [u8],
    pub(crate) most: u32,
    pub(crate) path: Path<'a>,
    pub(crate) tally: Tally,
    pub(crate) slots: Vec<u32>,
    pub(crate) scratch: Scratch,
    pub(crate) alloc: Global,
}

impl<'a> Model for Search<'a> {
    ghost use Rattle.std.specs.Prelude.{◌≡◌, length, replicate};
    ghost use Rattle.stripped_partition.specs.Removed.{HasRoom};
    ghost use Rattle.approx_fd.specs.Search.{Searching};

    ghost Value = { Searching };

    ghost view = { λ s. record { table = s.snapshot.now; most = s.most; at = s.path.columns } };

    ghost invariant = { λ s. (s.path.table ≡ s.snapshot.now) × HasRoom s.snapshot.now s.tally × (s.slots.items ≡ replicate (length s.slots.items) 0) };
}

impl<'a> Search<'a> {
    // A search of a snapshot. The order is that in which left sides are refined, best the columns that tell most rows apart first.
    pub(crate) fn new(
        alloc: Global,
        snapshot: &'a Snapshot,
        order: &'a [u8],
        most: u32,
    ) -> Result<Search<'a>, AllocError>
        ensures { IfOk result (λ search. search ≡ record { table = snapshot.now; most = most; at = empty }) }
    {
        Ok(Search {
            snapshot,
            order,
            most,
            path: Path::new(alloc, snapshot, order)?,
            tally: Tally::new(alloc, snapshot)?,
            slots: Vec::new(alloc),
            scratch: Scratch::new(alloc),
            alloc,
        })
    }

    // How many columns the snapshot has.
    pub(crate) fn columns(&self) -> u8
        ensures value { result ≡ length self.now.table.codes }
        ensures bound { result ≤ MOST_COLUMNS }
    {
        self.snapshot.columns()
    }

    // How many rows are to be removed for a left side, where these are not too many. Its groups are at hand afterwards.
    pub(crate) fn removed(
        &mut self,
        left: ColSet,
        target: Target,
    ) -> Result<Option<u32>, AllocError>
        requires left { left < 2 ^ length self.old.table.codes }
        requires target { IsColumnTarget (length self.old.table.codes) target }
        ensures table { self.new.table ≡ self.old.table }
        ensures most { self.new.most ≡ self.old.most }
        ensures at { IfOk result (λ _. self.new.at ≡ left) }
        ensures value { IfOk result (λ found. found ≡ up_to self.old.most (removed_in self.old.table left target)) }
    {
        self.path.go_to(left)?;
        let groups = self.path.groups();
        let found = removed_up_to(groups, self.snapshot, target, self.most, &mut self.tally);
        Ok(found)
    }
}
