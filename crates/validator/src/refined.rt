// Partitions by column sets.
ghost use Rattle.std.specs.Prelude.{◌≡◌, ◌<◌, ◌^◌, length, IfOk};
ghost use Rattle.std.specs.Option.{ForSome};
ghost use Rattle.stripped_partition.specs.Stripped.{stripped};
ghost use Rattle.stripped_partition.specs.AnyOrder.{AreGroupsBy};
ghost use Rattle.validator.specs.Walk.{plus};

use col_set::ColSet;
use rel_base::Snapshot;
use std::alloc::{AllocError, Global};
use stripped_partition::Partition;

// A partition, the columns by which it is made, and a further column to compare its rows by, if there is one.
#[derive(Drop)]
pub(crate) struct Refined {
    pub(crate) partition: Partition,
    pub(crate) columns: ColSet,
    pub(crate) by: Option<u8>,
}

// The partition by all of these columns but the least, which is left to the comparisons.
pub(crate) fn all_but_one(
    alloc: Global,
    snapshot: &Snapshot,
    columns: ColSet,
) -> Result<Refined, AllocError>
    requires { columns < 2 ^ length snapshot.now.codes }
    ensures partition { IfOk result (λ r. AreGroupsBy snapshot.now r.columns r.partition) }
    ensures columns { IfOk result (λ r. plus r.columns r.by ≡ columns) }
    ensures by { IfOk result (λ r. ForSome r.by (λ column. column < length snapshot.now.codes)) }
{
    let Some(least) = columns.first() else {
        return Ok(Refined {
            partition: Partition::of_all(alloc, snapshot)?,
            columns,
            by: None,
        });
    };
    let wanted = columns.without(least);
    let partition = by_each(alloc, snapshot, wanted)?;
    Ok(Refined {
        partition,
        columns: wanted,
        by: Some(least),
    })
}

// The partition by these columns.
fn by_each(alloc: Global, snapshot: &Snapshot, columns: ColSet) -> Result<Partition, AllocError>
    requires { columns < 2 ^ length snapshot.now.codes }
    ensures { IfOk result (λ p. p ≡ stripped snapshot.now columns) }
{
    let mut partition = Partition::of_all(alloc, snapshot)?;
    let mut done = ColSet::empty();
    let mut left = columns;
    while let Some(column) = left.first() {
        partition = partition.refine(alloc, snapshot, column)?;
        done = done.with(column);
        left = left.without(column);
    }
    Ok(partition)
}
