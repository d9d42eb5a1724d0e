// What pairs of rows that are near each other agree on.
ghost use Rattle.std.specs.Prelude.{◌<◌, length, IfOk};
ghost use Rattle.std.specs.List.{All};
ghost use Rattle.sampler.specs.Agreeing.{IsNear};

use crate::{neighbours, push_unseen};
use cover_steps::seen::Seen;
use negative_cover::Witness;
use rayon::prelude::*;
use rel_base::Snapshot;
use row_log::RowLog;
use std::alloc::{AllocError, Global};
use std::thread::Threads;

// So many pairs at most are for each column.
const NEIGHBOURS: u32 = 1 << 13;

// What neighbours on a column agree on, spread over all of them.
fn sampled_in(
    alloc: Global,
    rows: &RowLog,
    snapshot: &Snapshot,
    column: u8,
) -> Result<Vec<Witness>, AllocError>
    requires { column < length snapshot.now.codes }
    ensures { IfOk result (λ found. All (IsNear rows.now snapshot.now) found.items) }
{
    let mut found = Vec::new(alloc);
    let pairs = neighbours(alloc, snapshot, column, NEIGHBOURS)?;
    push_unseen(rows, pairs.as_slice(), &mut Seen::none(alloc), &mut found)?;
    Ok(found)
}

/// What neighbours agree on, on each column in turn: some eight thousand pairs a column at most, spread evenly over the rows
/// (`neighbours`).
///
/// It is where agree sets are sought before any candidate is tried. It makes no partition: it takes a step a row and column, a step a
/// pair and column to compare, and four bytes a code of one column at a time.
pub fn sampled(
    alloc: Global,
    rows: &RowLog,
    snapshot: &Snapshot,
) -> Result<Vec<Witness>, AllocError>
    ensures { IfOk result (λ found. All (IsNear rows.now snapshot.now) found.items) }
{
    let mut all = Vec::new(alloc);
    for column in 0..snapshot.columns() {
        let mut found = sampled_in(alloc, rows, snapshot, column)?;
        all.append(&mut found)?;
    }
    Ok(all)
}

// What neighbours agree on in each of these columns, by so many threads at most, each of which takes columns that stand side by side.
fn sampled_in_each<R: Threads + Sync>(
    rt: &R,
    alloc: Global,
    rows: &RowLog,
    snapshot: &Snapshot,
    columns: &[u8],
    workers: u8,
) -> Result<Vec<Vec<Witness>>, AllocError>
    requires { All (λ column. column < length snapshot.now.codes) columns.now }
    ensures { IfOk result (λ found. All (λ own. All (IsNear rows.now snapshot.now) own.items) found.items) }
{
    // Halves are halved again as long as they have as many, so there are no more shares than workers.
    let share = (columns.len() >> workers.max(1).ilog2()).max(2);
    let found: Result<Vec<Vec<Witness>>, AllocError> = columns
        .par_iter()
        .with_min_len(share)
        .map(
            move |column: &u8| -> Result<Vec<Witness>, AllocError>
                requires { column.now < length snapshot.now.codes }
                ensures { IfOk result (λ own. All (IsNear rows.entry.now snapshot.entry.now) own.items) }
            { sampled_in(alloc, rows, snapshot, *column) },
        )
        .collect(rt, alloc)?;
    found
}

/// What `sampled` finds, by so many threads at most, one of which is the caller's. Each takes columns that stand side by side.
pub fn sampled_by<R: Threads + Sync>(
    rt: &R,
    alloc: Global,
    rows: &RowLog,
    snapshot: &Snapshot,
    workers: u8,
) -> Result<Vec<Witness>, AllocError>
    ensures { IfOk result (λ found. All (IsNear rows.now snapshot.now) found.items) }
{
    let mut columns = Vec::with_capacity(alloc, snapshot.columns() as usize)?;
    for column in 0..snapshot.columns() {
        columns.push(column)?;
    }
    let each = sampled_in_each(rt, alloc, rows, snapshot, columns.as_slice(), workers)?;
    let mut all = Vec::new(alloc);
    for own in each.as_slice() {
        all.extend_from_slice(own.as_slice())?;
    }
    Ok(all)
}
