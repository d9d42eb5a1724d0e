// Partitions by single columns, which several threads may make beside each other.
ghost use Rattle.std.specs.Prelude.{◌≡◌, ◌<◌, ◌≤◌, IfOk};
ghost use Rattle.std.specs.List.{All};
ghost use Rattle.validator.specs.Weighed.{IsColumn, IsWeighed};

use crate::cache::{Kept, UNKNOWN};
use col_set::ColSet;
use rayon::prelude::*;
use rel_base::{COLUMN_PLACES, MOST_COLUMNS, Snapshot};
use std::alloc::{AllocError, Global};
use std::thread::Threads;
use stripped_partition::Partition;

// With so few live rows a partition takes less time than the start of a thread.
const FEW_ROWS: u32 = 10000;

// The partition by a column, and the column's weight.
#[derive(Drop)]
pub(crate) struct Weighed {
    pub(crate) kept: Kept,
    pub(crate) column: u8,
    pub(crate) weight: u32,
}

impl Weighed {
    // The partition by a column of a snapshot.
    #[tactic(auto, using(stripped_partition::proofs::Refining::in_its_order))]
    pub(crate) fn of(alloc: Global, snapshot: &Snapshot, column: u8) -> Result<Weighed, AllocError>
        requires { IsColumn snapshot.now column }
        ensures weighed { IfOk result (IsWeighed snapshot.now) }
        ensures column { IfOk result (λ weighed. weighed.column ≡ column) }
    {
        let partition = Partition::of_column(alloc, snapshot, column)?;
        let weight = partition.error_count();
        let kept = Kept::of(alloc, partition, ColSet::empty().with(column))?;
        Ok(Weighed {
            kept,
            column,
            weight,
        })
    }
}

// Those columns from the first up to the end whose weight is not known.
pub(crate) fn unknown_of(
    alloc: Global,
    weights: &[u32; COLUMN_PLACES],
    first: u8,
    end: u8,
) -> Result<Vec<u8>, AllocError>
    requires { end ≤ MOST_COLUMNS }
    ensures { IfOk result (λ found. All (λ column. column < end) found.items) }
{
    let mut found = Vec::new(alloc);
    for column in first..end {
        if weights[column as usize] == UNKNOWN {
            found.push(column)?;
        }
    }
    Ok(found)
}

// The partitions by these columns, by so many threads at most, each of which takes columns that stand side by side.
pub(crate) fn weighed_by<R: Threads + Sync>(
    rt: &R,
    alloc: Global,
    snapshot: &Snapshot,
    columns: &[u8],
    workers: u8,
) -> Result<Vec<Weighed>, AllocError>
    requires { All (IsColumn snapshot.now) columns.now }
    ensures { IfOk result (λ made. All (IsWeighed snapshot.now) made.items) }
{
    let threads = if snapshot.live_count() > FEW_ROWS {
        workers.max(1)
    } else {
        1
    };
    let share = columns.len().div_ceil(threads as usize);
    let made: Result<Vec<Weighed>, AllocError> = columns
        .par_iter()
        .with_min_len(share)
        .map(
            move |column: &u8| -> Result<Weighed, AllocError>
                requires { IsColumn snapshot.now column.now }
                ensures { IfOk result (IsWeighed snapshot.entry.now) }
            {
                let weighed = Weighed::of(alloc, snapshot, *column)?;
                Ok(weighed)
            },
        )
        .collect(rt, alloc)?;
    made
}
