// What comes before the desk.
ghost use Rattle.std.specs.Prelude.{◌≡◌, ◌<◌, ◌≤◌, IfOk, IfSome};
ghost use Rattle.cover_steps.specs.Sound.{Sound};
ghost use Rattle.cover_core.specs.Told.{IsTrueOf};
ghost use Rattle.cover_core.specs.Work.{Extends};

use cover_core::{Book, Known};
use ports::Gate;
use std::alloc::AllocError;
use std::thread::Threads;
use validator::Store;

/// What the workers are given beside the desk.
#[derive(Drop)]
pub struct Prepared {
    /// The dependencies that were seen to hold, where evidence was sought.
    pub known: Option<Known>,
    /// Stores that the book kept, a place for each worker.
    pub lent: Vec<Option<Store>>,
}

/// Lets go of all candidates, seeks evidence where it is to be sought, and has the book lend its stores.
pub fn prepare<R: Threads + Sync, G: Gate + Sync>(
    rt: &R,
    book: &mut Book,
    workers: u32,
    gate: &G,
    seeks: bool,
) -> Result<Prepared, AllocError>
    requires { (0 < workers) × (workers ≤ 16) }
    ensures known { IfOk result (λ prepared. IfSome prepared.known (IsTrueOf book.new.rows)) }
    ensures rows { book.new.rows ≡ book.old.rows }
    ensures witnesses { Extends book.old.witnesses book.new.witnesses }
    ensures sound { Sound book.new }
{
    let known = sought(rt, book, workers, gate, seeks)?;
    let lent = book.lend(workers as usize)?;
    Ok(Prepared { known, lent })
}

fn sought<R: Threads + Sync, G: Gate + Sync>(
    rt: &R,
    book: &mut Book,
    workers: u32,
    gate: &G,
    seeks: bool,
) -> Result<Option<Known>, AllocError>
    requires { (0 < workers) × (workers ≤ 16) }
    ensures known { IfOk result (λ known. IfSome known (IsTrueOf book.new.rows)) }
    ensures rows { book.new.rows ≡ book.old.rows }
    ensures witnesses { Extends book.old.witnesses book.new.witnesses }
    ensures sound { Sound book.new }
{
    if !seeks {
        book.free();
        return Ok(None);
    }
    let known = book.seek(rt, workers as u8, gate)?;
    Ok(Some(known))
}
