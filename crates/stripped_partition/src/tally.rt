// Slots in which codes are counted.
ghost use Rattle.std.specs.Prelude.{◌≡◌, ◌<◌, ◌≤◌, [], IfOk, length, replicate, slice_index_or};
ghost use Rattle.std.specs.List.{All};
ghost use Rattle.rel_base.specs.declared.limits.TheConstants.{MOST_ROWS};
ghost use Rattle.stripped_partition.specs.Removed.{HasRoom, outside_largest};

use crate::{codes, groups};
use rel_base::{Codes, RowNo, Snapshot};
use std::alloc::{AllocError, Global};
use std::marker::Model;

/// Room to count the codes of the rows of a group in, so that counting takes no memory.
///
/// Contracts see how many slots there are, and for how many rows there is room. It takes 4 bytes for each code up to the greatest of the
/// snapshot and for each live row.
#[derive(Drop)]
pub struct Tally {
    slots: Vec<u32>,
    codes: Vec<u32>,
}

impl Model for Tally {
    ghost use Rattle.std.specs.Prelude.{◌≡◌, length, replicate, vec_len};
    ghost use Rattle.stripped_partition.specs.Removed.{Room};

    ghost Value = { Room };

    ghost view = { λ t. record { slots = vec_len t.slots; rows = vec_len t.codes } };

    ghost invariant = { λ t. t.slots.items ≡ replicate (length t.slots.items) 0 };
}

impl Tally {
    /// Room for the groups of a snapshot. It takes a step for each code of the snapshot.
    pub fn new(alloc: Global, snapshot: &Snapshot) -> Result<Tally, AllocError>
        ensures { IfOk result (HasRoom snapshot.now) }
    {
        let mut most = 0;
        for column in 0..snapshot.columns() {
            most = most.max(greatest_in(snapshot.column(column)));
        }
        Ok(Tally {
            slots: vec![in alloc; 0; most as usize + 1]?,
            codes: vec![in alloc; 0; snapshot.live_count() as usize]?,
        })
    }

    // How many rows of a group do not have the code in a column that most of them have.
    pub(crate) fn outside_largest(
        &mut self,
        group: &[RowNo],
        snapshot: &Snapshot,
        column: u8,
    ) -> u32
        requires given { All (λ row. row < snapshot.now.to) group.now }
        requires column { column < length snapshot.now.codes }
        requires some { 0 < self.old.slots }
        requires coded { All (λ code. code < self.old.slots) (slice_index_or snapshot.now.codes column []) }
        requires room { length group.now ≤ self.old.rows }
        requires short { length group.now ≤ MOST_ROWS }
        ensures value { result ≡ outside_largest snapshot.now column group.now }
        ensures same { self.new ≡ self.old }
    {
        outside_in(&mut self.slots, &mut self.codes, group, snapshot, column)
    }
}

// The same, with slots that are clear before and after, and a list to write the codes of the rows to.
fn outside_in(
    slots: &mut [u32],
    codes: &mut [u32],
    group: &[RowNo],
    snapshot: &Snapshot,
    column: u8,
) -> u32
    requires given { All (λ row. row < snapshot.now.to) group.now }
    requires column { column < length snapshot.now.codes }
    requires some { 0 < length slots.old }
    requires coded { All (λ code. code < length slots.old) (slice_index_or snapshot.now.codes column []) }
    requires room { length group.now ≤ length codes.old }
    requires short { length group.now ≤ MOST_ROWS }
    requires clear { slots.old ≡ replicate (length slots.old) 0 }
    ensures value { result ≡ outside_largest snapshot.now column group.now }
    ensures clear { slots.new ≡ replicate (length slots.old) 0 }
{
    let codes = &mut codes[..group.len()];
    codes::write_codes(codes, snapshot, column, group);
    group.len() as u32 - groups::largest_part(slots, codes)
}

// The greatest code of a column, or 0.
fn greatest_in(codes: &Codes) -> u32
    ensures { All (λ code. code ≤ result) codes.now }
{
    let mut most = 0;
    for place in 0..codes.len() {
        most = most.max(codes.get(place));
    }
    most
}
