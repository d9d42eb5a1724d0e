// What several workers find beside each other, where each pass of some candidates is shared among them.
use super::covers::{are_same, relation};
use super::{finish, refute};
use crate::judging::Beside;
use crate::{Book, Known};
use cover_steps::listed::listed;
use ports::OpenGate;
use rel_base::{Covers, Limits};
use std::alloc::{AllocError, Global};
use std::process::Abort;
use std::test::Fail;
use std::thread::Threads;

// Seeks by so many workers, once more where memory is wanting.
fn seek_beside<R: Threads + Sync>(
    rt: &R,
    book: &mut Book,
    workers: u8,
) -> Result<Known, AllocError> {
    match book.seek_beside(rt, workers, &OpenGate, 1) {
        Ok(known) => Ok(known),
        Err(_) => book.seek_beside(rt, workers, &OpenGate, 1),
    }
}

fn book(rt: &impl Abort, alloc: Global, seed: u64) -> Result<Book, AllocError> {
    Book::open(alloc, relation(rt, alloc, seed)?, Limits::standard())
}

// Whether what is left to be drawn are these covers, before it is drawn.
fn are_left(alloc: Global, book: &Book, wanted: &Covers) -> Result<bool, AllocError> {
    let found = listed(alloc, book.candidates())?;
    Ok(are_same(&found, wanted))
}

// The book that has one witness goes over its candidates by size, and compares no pairs of rows beforehand.
fn seek_and_compare<R: Threads + Sync + Abort>(
    rt: &R,
    alloc: Global,
    book: &mut Book,
    workers: u8,
    wanted: &Covers,
) -> Result<(), AllocError> {
    refute(rt, book, 1, 2)?;
    seek_beside(rt, book, workers)?;
    assert!(rt; are_left(alloc, book, wanted)?);
    Ok(())
}

// Lends the stores of so many workers, takes them back, and finishes.
fn lend_and_finish(
    rt: &impl Abort,
    book: &mut Book,
    workers: u8,
    wanted: &Covers,
) -> Result<(), AllocError> {
    let lent = book.lend(workers as usize)?;
    book.take_back(lent);
    let found = finish(book)?;
    assert!(rt; are_same(&found, wanted));
    Ok(())
}

fn compare_by<R: Threads + Sync + Abort>(
    rt: &R,
    alloc: Global,
    seed: u64,
    workers: u8,
    wanted: &Covers,
) -> Result<(), AllocError> {
    let mut other = book(rt, alloc, seed)?;
    seek_and_compare(rt, alloc, &mut other, workers, wanted)?;
    lend_and_finish(rt, &mut other, workers, wanted)
}

// The covers that one thread finds.
fn covers(rt: &impl Abort, alloc: Global, seed: u64) -> Result<Covers, AllocError> {
    let mut one = book(rt, alloc, seed)?;
    finish(&mut one)
}

fn compare<R: Threads + Sync + Abort>(rt: &R, alloc: Global, seed: u64) -> Result<(), AllocError> {
    let wanted = covers(rt, alloc, seed)?;
    for workers in [1u8, 2, 3, 16] {
        compare_by(rt, alloc, seed, workers, &wanted)?;
    }
    Ok(())
}

#[test]
fn workers_find_what_one_thread_finds(rt: HostRuntime) -> Result<(), Fail> {
    for seed in 21..25u64 {
        compare(&rt, rt.alloc(), seed)?;
    }
    Ok(())
}

// Seeks left sides by their sizes, once more where memory is wanting, in which case nothing was booked.
fn search_by_size<R: Threads + Sync>(
    rt: &R,
    alloc: Global,
    book: &mut Book,
    workers: u8,
) -> Result<(), AllocError> {
    let judges = Beside {
        rt,
        workers,
        least: 1,
    };
    match book.search_by_size(&judges, &OpenGate, Vec::new(alloc)) {
        Ok(()) => Ok(()),
        Err(_) => book.search_by_size(&judges, &OpenGate, Vec::new(alloc)),
    }
}

fn compare_sizes<R: Threads + Sync + Abort>(
    rt: &R,
    alloc: Global,
    seed: u64,
) -> Result<(), AllocError> {
    let wanted = covers(rt, alloc, seed)?;
    for workers in [1u8, 2, 16] {
        let mut other = book(rt, alloc, seed)?;
        search_by_size(rt, alloc, &mut other, workers)?;
        let found = finish(&mut other)?;
        assert!(rt; are_same(&found, &wanted));
    }
    Ok(())
}

// A book that seeks left sides by their sizes, as one of many rows does, finds what one does that compares all pairs of rows.
#[test]
fn sizes_lead_to_what_all_pairs_tell(rt: HostRuntime) -> Result<(), Fail> {
    for seed in 31..35u64 {
        compare_sizes(&rt, rt.alloc(), seed)?;
    }
    Ok(())
}
