// The candidates of a pass, from which threads take.
ghost use Rattle.std.specs.Prelude.{◌≡◌, ◌≤◌, length, IfOk, IfSome};
ghost use Rattle.std.specs.List.{All};
ghost use Rattle.rel_base.specs.CodeTable.{CodeTable};
ghost use Rattle.rel_base.specs.RowState.{RowState};
ghost use Rattle.cover_core.specs.Judged.{IsAsked};

use crate::waiting::Waiting;
use std::alloc::{AllocError, Global};
use std::sync::atomic::{AtomicUsize, Ordering};
use validator::first_places;

// So many candidates at most are a share, and at most as many more that have the same first columns as the last of them.
const MOST_TAKEN: usize = 512;

// So many times each thread begins a share of a part.
const TURNS: usize = 8;

/// Candidates that threads take from, each those of a share one after another, until none is left.
#[derive(Drop)]
pub(crate) struct Queue<'a> {
    list: &'a [Waiting],
    pub(crate) shares: Vec<Share>,
    begun: AtomicUsize,
}

/// Candidates that stand side by side, so that they share groups of rows: those of a list from one place to another. One thread begins
/// them, and others help it in the end.
#[derive(Drop)]
pub(crate) struct Share {
    pub(crate) start: usize,
    pub(crate) end: usize,
    taken: AtomicUsize,
}

impl<'a> Queue<'a> {
    /// Those of a list, for so many threads.
    pub(crate) fn of(
        alloc: Global,
        list: &'a [Waiting],
        threads: usize,
    ) -> Result<Queue<'a>, AllocError>
        ensures { IfOk result (λ queue. queue.list.now ≡ list.now) }
    {
        Ok(Queue {
            list,
            shares: shares_of(alloc, list, threads.saturating_mul(TURNS))?,
            begun: AtomicUsize::new(0),
        })
    }

    /// A share that no thread has begun, or none where all are.
    pub(crate) fn begin(&self) -> Option<&Share> {
        self.shares.get(self.begun.fetch_add(1, Ordering::SeqCst))
    }

    /// A candidate of a share that no other thread has taken, or none where all are.
    pub(crate) fn take(&self, share: &Share) -> Option<Waiting>
        ensures { (r : RowState) (table : CodeTable) → All (IsAsked r table) self.now.list.now → IfSome result (IsAsked r table) }
    {
        let turn = share.taken.fetch_add(1, Ordering::SeqCst);
        let place = share.start.saturating_add(turn);
        if place < share.end && place < self.list.len() {
            Some(self.list[place])
        } else {
            None
        }
    }
}

impl Share {
    fn of(start: usize, end: usize) -> Share {
        Share {
            start,
            end,
            taken: AtomicUsize::new(0),
        }
    }
}

// A list in about so many shares, none of which is large.
fn shares_of(alloc: Global, list: &[Waiting], turns: usize) -> Result<Vec<Share>, AllocError> {
    let size = (list.len() / turns.max(1)).min(MOST_TAKEN - 1) + 1;
    let mut shares = Vec::new(alloc);
    let mut start: usize = 0;
    for _ in 1..list.len().div_ceil(size) {
        let end = cut(list, start.saturating_add(size));
        if end == list.len() {
            break;
        }
        shares.push(Share::of(start, end))?;
        start = end;
    }
    shares.push(Share::of(start, list.len()))?;
    Ok(shares)
}

// Where to cut candidates from a place on: before the next one of which the first columns are others, unless that is far. Candidates with
// the same first columns share large groups of rows, which each thread that begins some of them has to make.
fn cut(list: &[Waiting], place: usize) -> usize
    ensures { result ≤ length list.now }
{
    let start = place.min(list.len());
    let end = start.saturating_add(MOST_TAKEN).min(list.len());
    for k in start..end {
        if k == 0 || first_places(list[k].places) != first_places(list[k - 1].places) {
            return k;
        }
    }
    end
}
