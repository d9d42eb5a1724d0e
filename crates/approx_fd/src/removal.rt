// How many rows are to be removed for a dependency to hold among the rest.
ghost use Rattle.std.specs.Prelude.{◌≡◌, ◌<◌, IfOk, length, true};
ghost use Rattle.col_set.specs.ColSet.{Columns};
ghost use Rattle.col_set.specs.Target.{IsColumnTarget};
ghost use Rattle.col_set.specs.declared.target.Target.TheVariants.{Col};
ghost use Rattle.rel_base.specs.RowState.{RowState, IsRowState};
ghost use Rattle.rel_base.specs.Shows.{Shows};
ghost use Rattle.stripped_partition.specs.AnyOrder.{AreGroupsBy, AreGroupsOf};
ghost use Rattle.stripped_partition.specs.Removed.{HasRoom, up_to};
ghost use Rattle.approx_fd.specs.Removal as words;
ghost use Rattle.approx_fd.specs.Removal.{removed_in};

use rel_base::{Snapshot, Target};
use std::alloc::{AllocError, Global};
use stripped_partition::{Partition, Tally};

/// The least number of rows whose removal makes the columns of a partition determine a column (the error g3 times the number of rows,
/// Kivinen and Mannila, 1995). The partition is one of this snapshot, and its groups may stand in any order.
///
/// It takes a step for each code of the snapshot, and for each row that stands in a group, and 4 bytes for each code up to the greatest and
/// for each live row. Who asks about many partitions of one snapshot takes `Partition::removed_up_to`, with a `Tally` that is made once.
///
/// An `AllocError` comes where memory is refused.
pub fn removed(
    alloc: Global,
    partition: &Partition,
    snapshot: &Snapshot,
    column: u8,
) -> Result<u32, AllocError>
    requires of { AreGroupsOf snapshot.now partition.now }
    requires column { column < length snapshot.now.codes }
    ensures by_codes { IfOk result (λ count. (x : Columns) → AreGroupsBy snapshot.now x partition.now → count ≡ removed_in snapshot.now x (Col column)) }
    ensures rows { IfOk result (λ count. (x : Columns) (r : RowState) → AreGroupsBy snapshot.now x partition.now → IsRowState r → Shows snapshot.now r → count ≡ words.removed r x (Col column)) }
{
    // `columns` is called for its clause that there are at most a million rows.
    let _bounds = snapshot.columns();
    let mut tally = Tally::new(alloc, snapshot)?;
    let count = partition.removed_up_to(snapshot, column, u32::MAX, &mut tally);
    Ok(count.unwrap_or(u32::MAX))
}

// How many rows are to be removed for the columns of a partition to determine a target, where these are no more than so many.
pub(crate) fn removed_up_to(
    partition: &Partition,
    snapshot: &Snapshot,
    target: Target,
    most: u32,
    tally: &mut Tally,
) -> Option<u32>
    requires of { AreGroupsOf snapshot.now partition.now }
    requires target { IsColumnTarget (length snapshot.now.codes) target }
    requires room { HasRoom snapshot.now tally.old }
    ensures value { (x : Columns) → AreGroupsBy snapshot.now x partition.now → result ≡ up_to most (removed_in snapshot.now x target) }
    ensures tally { tally.new ≡ tally.old }
{
    match target {
        Target::Col(column) => partition.removed_up_to(snapshot, column, most, tally),
        Target::RowId => {
            let count = partition.error_count();
            if count <= most { Some(count) } else { None }
        }
    }
}

// Whether more rows than so many are to be removed. Where the error of the partition is no more, no column is looked at.
pub(crate) fn is_above(
    partition: &Partition,
    snapshot: &Snapshot,
    target: Target,
    most: u32,
    tally: &mut Tally,
) -> bool
    requires of { AreGroupsOf snapshot.now partition.now }
    requires target { IsColumnTarget (length snapshot.now.codes) target }
    requires room { HasRoom snapshot.now tally.old }
    ensures above { (x : Columns) → AreGroupsBy snapshot.now x partition.now → result ≡ true → most < removed_in snapshot.now x target }
    ensures tally { tally.new ≡ tally.old }
{
    partition.error_count() > most
        && removed_up_to(partition, snapshot, target, most, tally).is_none()
}
