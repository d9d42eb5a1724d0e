// Batches that are fed before the workers come.
ghost use Rattle.std.specs.Prelude.{◌≡◌, ◌≤◌, [], length, vec_capacity, IfOk, IfErr};
ghost use Rattle.std.specs.List.{All};
ghost use Rattle.rel_base.specs.RowState.{width};
ghost use Rattle.rel_base.specs.Batches.{IsAsWide};
ghost use Rattle.refine_pool.specs.Phases.{IsLeft, IsSoFar};

use crate::crew::Ending;
use crate::feeder::{Fed, feed};
use crate::refining::Refined;
use cover_core::{Applying, Book};
use desk::{Desk, NoMemory};
use ports::Gate;
use rel_base::Batch;
use std::alloc::Global;
use std::sync::Wait;

// So many operations are fed before the workers come, where they are a good part of the rows.
const MANY_OPERATIONS: usize = 1000;

// Of so many live rows, what a batch leaves is sought in bulk, where verdicts share groups of rows and a few new rows are compared with
// all, in far less time than candidate by candidate.
const MANY_ROWS: u32 = 5000;

/// Whether the batches are fed before the workers come: the rows are so many that what the batches leave is better sought in bulk, or
/// the batches change so many of the rows that what is checked beside them would be checked again.
pub fn are_fed_first(batches: &[Batch], book: &Book) -> bool {
    if batches.is_empty() {
        return false;
    }
    let rows = book.rows().live_len();
    if rows >= MANY_ROWS {
        return true;
    }
    let mut count = 0usize;
    for batch in batches {
        count = count.saturating_add(batch.len());
    }
    count >= MANY_OPERATIONS && count >= rows as usize / 8
}

/// Applies the batches in order, each once, at a desk that nobody shares. For want of memory it stops.
pub fn fed_alone<R: Wait, G: Gate>(
    rt: &R,
    alloc: Global,
    book: Book,
    batches: Vec<Batch>,
    replies: Vec<Applying>,
    gate: &G,
) -> Result<Refined, NoMemory<Refined>>
    requires wide { All (All (IsAsWide (width book.rows))) batches.items }
    requires room { (replies.items ≡ []) × (length batches.items ≤ vec_capacity replies) }
    ensures left { IfOk result (λ r. IsLeft book batches.items r.book r.replies.items) }
    ensures so_far { IfErr result (λ r. IsSoFar book batches.items r.0.book r.0.replies.items) }
{
    // `rows` is called for its clause that the book is sound.
    let _rows = book.rows();
    let (desk, feeder) = match Desk::open(alloc, book, 1) {
        Ok(opened) => opened,
        Err(NoMemory(book)) => return Err(NoMemory(Refined { book, replies })),
    };
    let fed = feed(rt, &desk, feeder, batches, replies, gate);
    let Fed {
        pass,
        replies,
        ending,
    } = fed;
    let book = desk.close(rt, pass);
    match ending {
        Ending::Done => Ok(Refined { book, replies }),
        Ending::NoMemory => Err(NoMemory(Refined { book, replies })),
    }
}
