// The groups of rows that agree on some columns, where groups of one row are left out.
ghost use Rattle.std.specs.Prelude.{◌≡◌, ◌<◌, ◌≤◌, ◌↔◌, [], length, slice_index_or, replicate, vec_len, IfOk, OnOk, IsNone};
ghost use Rattle.std.specs.List.{All};
ghost use Rattle.col_set.specs.ColSet.{Columns, empty, with, union};
ghost use Rattle.rel_base.specs.CodeTable.{CodeTable};
ghost use Rattle.stripped_partition.specs.Stripped.{stripped, IsPartitionOf, error_of};
ghost use Rattle.stripped_partition.specs.AnyOrder.{AreGroupsBy, AreGroupsOf};
ghost use Rattle.stripped_partition.specs.Order.{IsInOrder};
ghost use Rattle.stripped_partition.specs.SplitBy.{split_by, AgreesOn};

use crate::groups::{self, Groups};
use crate::{Scratch, codes, order};
use rel_base::{RowNo, Snapshot};
use std::alloc::{AllocError, Global};
use std::marker::Model;

/// The groups of two live rows or more that agree on some columns.
///
/// Contracts see the list of the groups, each the list of its rows. It is kept flat: one list of all rows and one of the ends of the groups.
#[derive(Drop)]
pub struct Partition {
    rows: Vec<RowNo>,
    ends: Vec<u32>,
}

impl Model for Partition {
    ghost use Rattle.std.specs.Prelude.{List, ℕ};

    ghost Value = { List (List ℕ) };

    ghost use Rattle.stripped_partition.specs.Groups.{cut, IsCut};

    ghost view = { λ p. cut 0 p.rows.items p.ends.items };

    ghost invariant = { λ p. IsCut p.rows.items p.ends.items };
}

impl Partition {
    /// The partition by no column: one group of all live rows, if there are two.
    pub fn of_all(alloc: Global, snapshot: &Snapshot) -> Result<Partition, AllocError>
        ensures value { IfOk result (λ p. p ≡ stripped snapshot.now empty) }
        ensures of { IfOk result (λ p. IsPartitionOf snapshot.now p) }
    {
        let rows = codes::live_rows(alloc, snapshot)?;
        let mut ends = Vec::new(alloc);
        if rows.len() < 2 {
            let rows = Vec::new(alloc);
            return Ok(Partition { rows, ends });
        }
        ends.push(rows.len() as u32)?;
        Ok(Partition { rows, ends })
    }

    /// The partition by a column.
    pub fn of_column(
        alloc: Global,
        snapshot: &Snapshot,
        column: u8,
    ) -> Result<Partition, AllocError>
        requires { column < length snapshot.now.codes }
        ensures value { IfOk result (λ p. p ≡ stripped snapshot.now (with empty column)) }
        ensures of { IfOk result (λ p. IsPartitionOf snapshot.now p) }
    {
        Partition::of_all(alloc, snapshot)?.refine(alloc, snapshot, column)
    }

    /// The partition by the columns of this one and a further one, of the snapshot of which it was made.
    pub fn refine(
        &self,
        alloc: Global,
        snapshot: &Snapshot,
        column: u8,
    ) -> Result<Partition, AllocError>
        requires of { IsPartitionOf snapshot.now self.now }
        requires column { column < length snapshot.now.codes }
        ensures value { IfOk result (λ p. (x : Columns) → self.now ≡ stripped snapshot.now x → p ≡ stripped snapshot.now (with x column)) }
        ensures of { IfOk result (λ p. IsPartitionOf snapshot.now p) }
    {
        let codes = codes::codes_of(alloc, snapshot, column, &self.rows)?;
        let (codes, bound) = codes::dense(alloc, codes)?;
        let groups = groups::split(alloc, &self.rows, &self.ends, &codes, bound)?;
        let Groups { rows, ends } = order::in_order(alloc, groups)?;
        Ok(Partition { rows, ends })
    }

    /// What `refine` makes, with a table of slots that callers keep from one call to the next, so that a small partition is refined
    /// in time by its rows, however large the codes. The table grows to the greatest code, and is clear again after an `Ok`.
    pub fn refine_in(
        &self,
        alloc: Global,
        snapshot: &Snapshot,
        column: u8,
        slots: &mut Vec<u32>,
    ) -> Result<Partition, AllocError>
        requires of { IsPartitionOf snapshot.now self.now }
        requires column { column < length snapshot.now.codes }
        requires clear { slots.old.items ≡ replicate (vec_len slots.old) 0 }
        ensures value { IfOk result (λ p. (x : Columns) → self.now ≡ stripped snapshot.now x → p ≡ stripped snapshot.now (with x column)) }
        ensures of { IfOk result (λ p. IsPartitionOf snapshot.now p) }
        ensures clear { OnOk result (slots.new.items ≡ replicate (vec_len slots.new) 0) }
    {
        let mut scratch = Scratch::new(alloc);
        let unordered = self.refine_unordered(alloc, snapshot, column, slots, &mut scratch)?;
        unordered.ordered(alloc)
    }

    /// The groups that `refine_in` makes, in another order: the parts of a group stand where the group stood. To put many groups in
    /// order takes half the time of making them, so who needs no order refines by this, and goes on from what it made.
    ///
    /// It takes the groups of this partition in any order too. The slots are those of `refine_in`.
    pub fn refine_unordered(
        &self,
        alloc: Global,
        snapshot: &Snapshot,
        column: u8,
        slots: &mut Vec<u32>,
        scratch: &mut Scratch,
    ) -> Result<Partition, AllocError>
        requires of { AreGroupsOf snapshot.now self.now }
        requires column { column < length snapshot.now.codes }
        requires clear { slots.old.items ≡ replicate (vec_len slots.old) 0 }
        ensures groups { IfOk result (λ p. (x : Columns) → AreGroupsBy snapshot.now x self.now → AreGroupsBy snapshot.now (with x column) p) }
        ensures of { IfOk result (λ p. AreGroupsOf snapshot.now p) }
        ensures clear { OnOk result (slots.new.items ≡ replicate (vec_len slots.new) 0) }
    {
        codes::make_long(&mut scratch.codes, self.rows.len())?;
        let codes = &mut scratch.codes[..self.rows.len()];
        codes::write_codes(codes, snapshot, column, &self.rows);
        codes::make_room(slots, codes)?;
        let room = &mut scratch.groups;
        let groups = groups::split_in(alloc, room, slots, &self.rows, &self.ends, codes)?;
        Ok(Partition {
            rows: groups.rows,
            ends: groups.ends,
        })
    }

    // The groups by their least rows.
    fn ordered(self, alloc: Global) -> Result<Partition, AllocError>
        ensures { IfOk result (λ p. IsInOrder self p) }
    {
        let Partition { rows, ends } = self;
        let Groups { rows, ends } = order::in_order(alloc, Groups { rows, ends })?;
        Ok(Partition { rows, ends })
    }

    /// The partition by the columns of two partitions of one snapshot.
    pub fn product(&self, alloc: Global, other: &Partition) -> Result<Partition, AllocError>
        ensures { IfOk result (λ p. (s : CodeTable) (x y : Columns) → self.now ≡ stripped s x → other.now ≡ stripped s y → p ≡ stripped s (union x y)) }
    {
        let table = codes::group_table(alloc, &other.rows, &other.ends)?;
        let codes = codes::places_of(alloc, &table, &self.rows)?;
        let groups = groups::split(alloc, &self.rows, &self.ends, &codes, other.ends.len())?;
        let Groups { rows, ends } = order::in_order(alloc, groups)?;
        Ok(Partition { rows, ends })
    }

    /// How many groups there are.
    pub fn group_count(&self) -> usize
        ensures { result ≡ length self.now }
    {
        self.ends.len()
    }

    /// The rows of a group, ascending. The groups stand by their least rows, but for those of `refine_unordered`.
    pub fn group(&self, k: usize) -> &[RowNo]
        requires { k < length self.now }
        ensures { result.now ≡ slice_index_or self.now k [] }
    {
        let start = groups::start_of(&self.ends, k);
        let end = self.ends[k] as usize;
        &self.rows[start..end]
    }

    /// The sum of the sizes of the groups less their number.
    pub fn error_count(&self) -> u32
        ensures { result ≡ error_of self.now }
    {
        self.rows.len() as u32 - self.ends.len() as u32
    }

    /// In the first group that the column splits, its least row and the least row of it that differs from that one; of the
    /// snapshot of which the partition was made. Of groups that were never put in order it is the first as they come.
    pub fn splits_by(&self, snapshot: &Snapshot, column: u8) -> Option<(RowNo, RowNo)>
        requires of { AreGroupsOf snapshot.now self.now }
        requires column { column < length snapshot.now.codes }
        ensures value { result ≡ split_by snapshot.now column self.now }
        ensures none { IsNone result ↔ All (AgreesOn snapshot.now column) self.now }
    {
        for k in 0..self.group_count() {
            let pair = codes::first_and_differing(self.group(k), snapshot, column);
            if pair.is_some() {
                return pair;
            }
        }
        None
    }
}
