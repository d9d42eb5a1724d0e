// The covers after a phase, against those of a book to which the same batches are applied one after another.
use super::{book_of, run};
use cover_core::{Applying, Book, Settling};
use plain_base::{Samples, are_as_wide};
use ports::OpenGate;
use refine_pool::{NoMemory, Refined};
use rel_base::{Batch, Covers};
use std::alloc::{AllocError, Global};
use std::process::Abort;
use std::sync::Wait;
use std::test::Fail;
use std::thread::Threads;

const COLUMNS: usize = 4;

fn opened(rt: &impl Abort, alloc: Global, seed: u64) -> Result<Book, AllocError> {
    let mut samples = Samples::from_seed(seed);
    let names = samples.row(alloc, COLUMNS)?;
    let rows = samples.rows(alloc, 9, COLUMNS)?;
    book_of(rt, alloc, names, &rows)
}

fn batches(alloc: Global, seed: u64, count: u32) -> Result<Vec<Batch>, AllocError> {
    let mut samples = Samples::from_seed(seed.wrapping_add(100));
    let mut batches = Vec::new(alloc);
    for _ in 0..count {
        batches.push(samples.batch(alloc, 2, COLUMNS, 10)?)?;
    }
    Ok(batches)
}

// Applies batches one after another, once more where memory is wanting, and tells whether these are the answers.
fn apply_all(rt: &impl Abort, book: &mut Book, batches: &[Batch], wanted: &[Applying]) -> bool {
    let mut fits = batches.len() == wanted.len();
    for (batch, wanted) in batches.iter().zip(wanted) {
        fits = fits && apply(rt, book, batch) == *wanted;
    }
    fits
}

fn apply(rt: &impl Abort, book: &mut Book, batch: &Batch) -> Applying {
    assert!(rt; are_as_wide(batch, book.rows().names().len()));
    match book.apply(batch) {
        Applying::NoMemory => {
            assert!(rt; are_as_wide(batch, book.rows().names().len()));
            book.apply(batch)
        }
        answer => answer,
    }
}

fn finish(book: &mut Book) -> Result<Covers, AllocError> {
    match book.finish() {
        Ok(found) => Ok(found),
        Err(_) => book.finish(),
    }
}

fn are_same(found: &Covers, wanted: &Covers) -> bool {
    found.keys() == wanted.keys() && found.fds() == wanted.fds()
}

// Whether a book tells of these covers.
fn is_settled_with(book: &Book, wanted: &Covers) -> Result<bool, AllocError> {
    match book.settle()? {
        Settling::Ready(found) => Ok(are_same(&found, wanted)),
        Settling::NotYet { .. } => Ok(false),
    }
}

// The covers that another book finds after these batches, which it answers the same.
fn plain_covers(
    rt: &impl Abort,
    alloc: Global,
    seed: u64,
    batches: &[Batch],
    replies: &[Applying],
) -> Result<Covers, AllocError> {
    let mut plain = opened(rt, alloc, seed)?;
    assert!(rt; apply_all(rt, &mut plain, batches, replies));
    finish(&mut plain)
}

fn has_settled(rt: &impl Abort, book: &Book, wanted: &Covers) -> Result<(), AllocError> {
    let settled = is_settled_with(book, wanted)?;
    assert!(rt; settled);
    Ok(())
}

// Where memory was refused, the covers are completed first.
fn can_be_finished(rt: &impl Abort, mut book: Book, wanted: &Covers) -> Result<(), AllocError> {
    let found = finish(&mut book)?;
    assert!(rt; are_same(&found, wanted));
    Ok(())
}

// Compares what a phase leaves for want of memory with what as many batches leave in another book as were answered.
fn compare_so_far(
    rt: &impl Abort,
    alloc: Global,
    seed: u64,
    batches: &[Batch],
    refined: Refined,
) -> Result<(), AllocError> {
    let Refined { book, replies } = refined;
    let count = replies.len();
    assert!(rt; count <= batches.len());
    let wanted = plain_covers(rt, alloc, seed, &batches[..count], replies.as_slice())?;
    can_be_finished(rt, book, &wanted)
}

// Compares what a phase leaves with what these batches leave in another book.
fn compare(
    rt: &impl Abort,
    alloc: Global,
    seed: u64,
    batches: &[Batch],
    phased: Result<Refined, NoMemory<Refined>>,
) -> Result<(), AllocError> {
    match phased {
        Ok(refined) => {
            let Refined { book, replies } = refined;
            let wanted = plain_covers(rt, alloc, seed, batches, replies.as_slice())?;
            has_settled(rt, &book, &wanted)
        }
        Err(NoMemory(refined)) => compare_so_far(rt, alloc, seed, batches, refined),
    }
}

fn run_and_compare<R: Threads + Wait + Sync + Abort>(
    rt: &R,
    alloc: Global,
    seed: u64,
    count: u32,
    workers: u32,
) -> Result<(), AllocError> {
    let book = opened(rt, alloc, seed)?;
    let fed = batches(alloc, seed, count)?;
    let phased = run(rt, alloc, book, fed, workers, &OpenGate);
    let again = batches(alloc, seed, count)?;
    compare(rt, alloc, seed, again.as_slice(), phased)
}

#[test]
fn a_phase_finds_the_covers(rt: HostRuntime) -> Result<(), Fail> {
    for seed in 1..4 {
        run_and_compare(&rt, rt.alloc(), seed, 0, 2)?;
    }
    Ok(())
}

#[test]
fn a_phase_with_batches_finds_the_covers(rt: HostRuntime) -> Result<(), Fail> {
    for workers in [1, 2, 16] {
        run_and_compare(&rt, rt.alloc(), 7, 3, workers)?;
    }
    Ok(())
}
