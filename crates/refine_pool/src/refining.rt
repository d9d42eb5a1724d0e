// A phase: what is sought beforehand, the rounds at the desk, and what stands after it.
ghost use Rattle.std.specs.Prelude.{◌≡◌, ◌<◌, ◌≤◌, None, [], take, length, vec_capacity, IfOk, IfErr};
ghost use Rattle.std.specs.List.{All};
ghost use Rattle.rel_base.specs.RowState.{width};
ghost use Rattle.rel_base.specs.Batches.{IsAsWide};
ghost use Rattle.cover_steps.specs.Core.{first_unfinished as first_unfinished_of};
ghost use Rattle.cover_steps.specs.Sound.{Sound};
ghost use Rattle.refine_pool.specs.Phases.{KeepsWitnesses, AreThoseOf, IsSoFar, IsWhole};

use crate::bulk::{are_fed_first, fed_alone};
use crate::crew::Ending;
use crate::feeder::Fed;
use crate::preparing::{Prepared, prepare};
use crate::rounds::rounds;
use cover_core::{Applying, Book};
use desk::{Desk, NoMemory};
use ports::Gate;
use rel_base::Batch;
use std::alloc::Global;
use std::sync::Wait;
use std::thread::Threads;

/// What a phase leaves.
#[derive(Drop)]
pub struct Refined {
    /// The book, after the batches that were answered.
    pub book: Book,
    /// What each of them was answered, in order.
    pub replies: Vec<Applying>,
}

// Whether evidence is sought before the desk, by how many workers, and how many of them draw at it.
#[derive(Clone, Copy)]
struct Plan {
    workers: u32,
    drawing: u32,
    seeks: bool,
}

/// Applies the batches in order, and has so many workers draw, validate and book beside that, until each candidate is known to
/// hold in all rows.
///
/// Candidates that are held are let go of first. A book without witnesses seeks evidence before it is shared (`Book::seek`), so that
/// what is drawn then mostly holds, and is known to. That takes nearly all the time where there are no batches; the workers divide the
/// verdicts of its passes, the pairs that it compares and the lists that it makes. What is left to draw takes no verdict, so where that
/// is much and no batch comes, one of the workers draws it all: several would wait for one another at each turn.
///
/// Then one thread feeds the batches, the workers are threads of their own, and where a thread can't be started its work is done by
/// who would have started it. A batch that comes late makes candidates unfinished again, so where there are batches, as many
/// workers go on after the last of them. A worker that finds all candidates held by others compares further pairs of rows while
/// it waits, as long as that brings news. The groups of rows that the workers make stay in the book for a later phase.
///
/// Where the rows are many, five thousand, what the batches leave is sought in bulk in far less time than candidate by candidate; where
/// the batches change many rows, a thousand and an eighth of all, nothing that workers check beside them would last. There the batches
/// are fed first, the workers seek evidence in the rows that they leave, and one worker draws what is then known.
///
/// The gate is passed outside turns: by those who seek after each verdict, by each worker after a draw that answered a job, after its
/// verdict and after it was booked, and by the feeder after each batch that was answered.
///
/// For want of memory the search, the feeder or each worker of the last round gave up. The book that comes back is as good as the given
/// one, a further phase goes on from there, and the replies tell how many batches were applied or refused.
pub fn phase<R: Threads + Wait + Sync, G: Gate + Sync>(
    rt: &R,
    alloc: Global,
    book: Book,
    batches: Vec<Batch>,
    workers: u32,
    gate: &G,
) -> Result<Refined, NoMemory<Refined>>
    requires wide { All (All (IsAsWide (width book.rows))) batches.items }
    requires workers { (0 < workers) × (workers ≤ 16) }
    ensures sound { IfOk result (λ r. Sound r.book) }
    ensures witnesses { IfOk result (λ r. KeepsWitnesses book r.book) }
    ensures batches { IfOk result (λ r. AreThoseOf book.rows batches.items r.book.rows r.replies.items) }
    ensures finished { IfOk result (λ r. first_unfinished_of r.book ≡ None) }
    // for want of memory
    ensures still_sound { IfErr result (λ r. Sound r.0.book) }
    ensures still_witnesses { IfErr result (λ r. KeepsWitnesses book r.0.book) }
    ensures so_far { IfErr result (λ r. AreThoseOf book.rows (take (length r.0.replies.items) batches.items) r.0.book.rows r.0.replies.items) }
{
    let Ok(replies) = Vec::with_capacity(alloc, batches.len()) else {
        // `rows` is called for its clause that the book is sound.
        let _rows = book.rows();
        let replies = Vec::new(alloc);
        return Err(NoMemory(Refined { book, replies }));
    };
    if are_fed_first(batches.as_slice(), &book) {
        let fed = fed_alone(rt, alloc, book, batches, replies, gate)?;
        return refine_after(rt, alloc, fed.book, fed.replies, workers, gate);
    }
    let plan = Plan {
        workers,
        drawing: workers,
        seeks: book.witnesses().is_empty(),
    };
    refine(rt, alloc, book, batches, replies, plan, gate)
}

// Has the workers finish a book whose batches were fed, with these replies. They seek, and then all verdicts are known: so one of them
// draws, in less time than threads take to start.
fn refine_after<R: Threads + Wait + Sync, G: Gate + Sync>(
    rt: &R,
    alloc: Global,
    book: Book,
    replies: Vec<Applying>,
    workers: u32,
    gate: &G,
) -> Result<Refined, NoMemory<Refined>>
    requires { (0 < workers) × (workers ≤ 16) }
    ensures whole { IfOk result (λ r. IsWhole book [] r.book []) }
    ensures so_far { IfErr result (λ r. IsSoFar book [] r.0.book []) }
    ensures replies { IfOk result (λ r. r.replies ≡ replies) }
    ensures same { IfErr result (λ r. r.0.replies ≡ replies) }
{
    let (batches, none) = (Vec::new(alloc), Vec::new(alloc));
    let plan = Plan {
        workers,
        drawing: 1,
        seeks: true,
    };
    match refine(rt, alloc, book, batches, none, plan, gate) {
        Ok(Refined { book, .. }) => Ok(Refined { book, replies }),
        Err(NoMemory(Refined { book, .. })) => Err(NoMemory(Refined { book, replies })),
    }
}

// Has workers refine the book beside the batches and after them, behind a search for evidence if it seeks any.
fn refine<R: Threads + Wait + Sync, G: Gate + Sync>(
    rt: &R,
    alloc: Global,
    mut book: Book,
    batches: Vec<Batch>,
    replies: Vec<Applying>,
    plan: Plan,
    gate: &G,
) -> Result<Refined, NoMemory<Refined>>
    requires wide { All (All (IsAsWide (width book.rows))) batches.items }
    requires room { (replies.items ≡ []) × (length batches.items ≤ vec_capacity replies) }
    requires workers { (0 < plan.workers) × (plan.workers ≤ 16) }
    requires drawing { (0 < plan.drawing) × (plan.drawing ≤ 16) }
    ensures whole { IfOk result (λ r. IsWhole book batches.items r.book r.replies.items) }
    ensures so_far { IfErr result (λ r. IsSoFar book batches.items r.0.book r.0.replies.items) }
{
    let Plan {
        workers,
        drawing,
        seeks,
    } = plan;
    let Ok(prepared) = prepare(rt, &mut book, workers, gate, seeks) else {
        return Err(NoMemory(Refined { book, replies }));
    };
    let (desk, feeder) = match Desk::open(alloc, book, 2 * drawing + 1) {
        Ok(opened) => opened,
        Err(NoMemory(book)) => return Err(NoMemory(Refined { book, replies })),
    };
    let Prepared { known, mut lent } = prepared;
    let fed = rounds(
        rt,
        alloc,
        &desk,
        feeder,
        batches,
        replies,
        drawing,
        gate,
        known.as_ref(),
        lent.as_mut_slice(),
    );
    let Fed {
        pass,
        replies,
        ending,
    } = fed;
    let mut book = desk.close(rt, pass);
    book.take_back(lent);
    match ending {
        Ending::Done => Ok(Refined { book, replies }),
        Ending::NoMemory => Err(NoMemory(Refined { book, replies })),
    }
}
