// The approximate dependencies of all columns by several threads.
ghost use Rattle.std.specs.Prelude.{◌≡◌, ◌<◌, IfOk, length};
ghost use Rattle.std.specs.List.{All, flat_map};
ghost use Rattle.col_set.specs.ColSet.{upto};
ghost use Rattle.rel_base.specs.RowState.{RowState, IsRowState};
ghost use Rattle.rel_base.specs.Shows.{Shows};
ghost use Rattle.approx_fd.specs.Approximate as words;
ghost use Rattle.approx_fd.specs.Approximate.{approximate_in, approx_to_in};
ghost use Rattle.approx_fd.specs.Sweeps.{AreFindings};

use crate::approximate::{order_of, push_all};
use crate::candidates::{Candidate, any_larger, of_column};
use crate::found::Approx;
use crate::search::Search;
use crate::seen::Seen;
use crate::sweeps::{Findings, Share};
use rayon::prelude::*;
use rel_base::Snapshot;
use std::alloc::{AllocError, Global};
use std::thread::Threads;

// The most candidates of a stretch.
const LONGEST: usize = 64;

/// What `approx` finds, by so many threads at most. In a sweep each thread takes stretches of the left sides, so what one grows spares the
/// others nothing before the next sweep; then each takes columns that stand side by side.
///
/// An `AllocError` comes where memory is refused.
pub fn approx_by<R: Threads + Sync>(
    rt: &R,
    alloc: Global,
    snapshot: &Snapshot,
    errors: u32,
    workers: u8,
) -> Result<Vec<Approx>, AllocError>
    ensures by_codes { IfOk result (λ found. found.items ≡ approximate_in errors snapshot.now) }
    ensures rows { IfOk result (λ found. (r : RowState) → IsRowState r → Shows snapshot.now r → found.items ≡ words.approximate errors r) }
{
    let order = order_of(alloc, snapshot)?;
    let order = order.as_slice();
    let all = numbers(alloc, snapshot.columns())?;
    let columns = all.as_slice();
    let known = swept_by(rt, alloc, snapshot, order, errors, columns, workers)?;
    let lists = lists_by(rt, alloc, snapshot, order, errors, columns, &known, workers)?;
    let found = joined(alloc, lists.as_slice())?;
    Ok(found)
}

// The left sides of these columns that have so many columns, in the order of candidates.
fn candidates_by<R: Threads + Sync>(
    rt: &R,
    alloc: Global,
    snapshot: &Snapshot,
    order: &[u8],
    columns: &[u8],
    seen: &Seen,
    size: u32,
    workers: u8,
) -> Result<Vec<Candidate>, AllocError>
    requires columns { All (λ column. column < length snapshot.now.codes) columns.now }
{
    let share = columns.len().div_ceil(workers.max(1) as usize);
    let lists: Result<Vec<Vec<Candidate>>, AllocError> = columns
        .par_iter()
        .with_min_len(share)
        .map(
            move |column: &u8| -> Result<Vec<Candidate>, AllocError>
                requires { column.now < length snapshot.now.codes }
            { of_column(alloc, snapshot, order, seen, size, *column) },
        )
        .collect(rt, alloc)?;
    let mut all = Vec::new(alloc);
    for list in lists?.iter() {
        all.extend_from_slice(list.as_slice())?;
    }
    par_sort_unstable(rt, all.as_mut_slice());
    Ok(all)
}

// What one thread finds of its share of the candidates.
fn found_of(
    alloc: Global,
    snapshot: &Snapshot,
    order: &[u8],
    errors: u32,
    candidates: &[Candidate],
    share: Share,
    seen: &Seen,
) -> Result<Findings, AllocError>
    ensures { IfOk result (AreFindings snapshot.now errors) }
{
    let mut search = Search::new(alloc, snapshot, order, errors)?;
    let found = search.judged_of(candidates, share, seen)?;
    Ok(found)
}

// What is found of candidates by these threads, each of which takes every stretch that comes so many stretches after its first.
fn judged_by<R: Threads + Sync>(
    rt: &R,
    alloc: Global,
    snapshot: &Snapshot,
    order: &[u8],
    errors: u32,
    candidates: &[Candidate],
    seen: &Seen,
    threads: &[u8],
) -> Result<Vec<Findings>, AllocError>
    ensures { IfOk result (λ found. All (AreFindings snapshot.now errors) found.items) }
{
    let step = threads.len();
    let stretch = candidates.len() / step.saturating_mul(16).max(1);
    let stretch = stretch.clamp(1, LONGEST);
    let found: Result<Vec<Findings>, AllocError> = threads
        .par_iter()
        .with_min_len(1)
        .map(
            move |first: &u8| -> Result<Findings, AllocError>
                ensures { IfOk result (AreFindings snapshot.entry.now errors) }
            {
                let share = Share {
                    stretch,
                    first: *first as usize,
                    step,
                };
                let own = found_of(alloc, snapshot, order, errors, candidates, share, seen)?;
                Ok(own)
            },
        )
        .collect(rt, alloc)?;
    found
}

// What sweeps by size find, as `Search::swept` does.
fn swept_by<R: Threads + Sync>(
    rt: &R,
    alloc: Global,
    snapshot: &Snapshot,
    order: &[u8],
    errors: u32,
    columns: &[u8],
    workers: u8,
) -> Result<Findings, AllocError>
    requires columns { All (λ column. column < length snapshot.now.codes) columns.now }
    ensures { IfOk result (AreFindings snapshot.now errors) }
{
    let count = snapshot.columns();
    let threads = numbers(alloc, workers.max(1))?;
    let mut seen = Seen::none(alloc, count)?;
    let mut found = Findings::none(alloc);
    for size in 0..u32::from(count) + 1 {
        let candidates = candidates_by(rt, alloc, snapshot, order, columns, &seen, size, workers)?;
        if candidates.is_empty() && !any_larger(alloc, snapshot, &seen, size)? {
            break;
        }
        let each = judged_by(
            rt,
            alloc,
            snapshot,
            order,
            errors,
            candidates.as_slice(),
            &seen,
            threads.as_slice(),
        )?;
        for more in each.iter() {
            seen.note_all(more.failures.as_slice())?;
            found.add(more)?;
        }
    }
    Ok(found)
}

// The dependencies on each of these columns.
fn lists_by<R: Threads + Sync>(
    rt: &R,
    alloc: Global,
    snapshot: &Snapshot,
    order: &[u8],
    errors: u32,
    columns: &[u8],
    known: &Findings,
    workers: u8,
) -> Result<Vec<Vec<Approx>>, AllocError>
    requires columns { All (λ column. column < length snapshot.now.codes) columns.now }
    requires known { AreFindings snapshot.now errors known.now }
    ensures { IfOk result (λ lists. flat_map (λ list. list.items) lists.items ≡ flat_map (approx_to_in errors snapshot.now) columns.now) }
{
    let share = columns.len().div_ceil(workers.max(1) as usize);
    let lists: Result<Vec<Vec<Approx>>, AllocError> = columns
        .par_iter()
        .with_min_len(share)
        .map(
            move |column: &u8| -> Result<Vec<Approx>, AllocError>
                requires column { column.now < length snapshot.now.codes }
                requires known { AreFindings snapshot.now errors known.now }
                ensures { IfOk result (λ list. list.items ≡ approx_to_in errors snapshot.entry.now column.now) }
            {
                let list = dependencies_on(alloc, snapshot, order, errors, *column, known)?;
                Ok(list)
            },
        )
        .collect(rt, alloc)?;
    lists
}

// The dependencies on a column.
fn dependencies_on(
    alloc: Global,
    snapshot: &Snapshot,
    order: &[u8],
    errors: u32,
    column: u8,
    known: &Findings,
) -> Result<Vec<Approx>, AllocError>
    requires column { column < length snapshot.now.codes }
    requires known { AreFindings snapshot.now errors known.now }
    ensures { IfOk result (λ list. list.items ≡ approx_to_in errors snapshot.now column) }
{
    let mut search = Search::new(alloc, snapshot, order, errors)?;
    let lefts = search.settled_by(column, known)?;
    let mut list = Vec::new(alloc);
    push_all(&mut list, column, lefts.as_slice())?;
    Ok(list)
}

// The numbers below one.
fn numbers(alloc: Global, count: u8) -> Result<Vec<u8>, AllocError>
    ensures { IfOk result (λ numbers. numbers.items ≡ upto count) }
{
    let mut numbers = Vec::with_capacity(alloc, count as usize)?;
    for number in 0..count {
        numbers.push(number)?;
    }
    Ok(numbers)
}

// The lists one after another.
fn joined(alloc: Global, lists: &[Vec<Approx>]) -> Result<Vec<Approx>, AllocError>
    ensures { IfOk result (λ found. found.items ≡ flat_map (λ list. list.items) lists.now) }
{
    let mut found = Vec::new(alloc);
    for list in lists {
        found.extend_from_slice(list.as_slice())?;
    }
    Ok(found)
}
