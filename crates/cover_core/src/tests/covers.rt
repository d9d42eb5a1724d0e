// The covers of relations that are drawn, before and after batches, against the plain programs.
use super::{apply, finish, relation_with};
use crate::waiting::worth_comparing;
use crate::{Applying, Book, Settling};
use plain_base::{PlainRows, Samples, are_as_wide};
use rel_base::{Batch, Covers, Limits, Nulls, Op, Relation};
use std::alloc::{AllocError, Global};
use std::process::Abort;
use std::test::Fail;
use std::thread::Threads;

const COLUMNS: usize = 4;

// The relation of this seed.
pub(super) fn relation(rt: &impl Abort, alloc: Global, seed: u64) -> Result<Relation, AllocError> {
    wide_relation(rt, alloc, seed, 6, COLUMNS)
}

// The relation of this seed with so many rows and columns.
fn wide_relation(
    rt: &impl Abort,
    alloc: Global,
    seed: u64,
    rows: usize,
    columns: usize,
) -> Result<Relation, AllocError> {
    let mut samples = Samples::from_seed(seed);
    let names = samples.row(alloc, columns)?;
    let rows = samples.rows(alloc, rows, columns)?;
    relation_with(rt, alloc, names, &rows)
}

pub(super) fn are_same(found: &Covers, wanted: &Covers) -> bool {
    found.keys() == wanted.keys() && found.fds() == wanted.fds()
}

fn is_ready(settling: &Settling, wanted: &Covers) -> bool {
    match settling {
        Settling::Ready(found) => are_same(found, wanted),
        Settling::NotYet { .. } => false,
    }
}

// Compares the covers that a book finds with those of the same rows.
fn compare(
    rt: &impl Abort,
    alloc: Global,
    book: &mut Book,
    rows: &PlainRows,
) -> Result<(), AllocError> {
    let wanted = rows.covers(alloc)?;
    let found = finish(book)?;
    assert!(rt; are_same(&found, &wanted));
    let settling = book.settle()?;
    assert!(rt; book.settled() && is_ready(&settling, &wanted));
    Ok(())
}

// Applies a batch to both, and compares the answers.
fn change(
    rt: &impl Abort,
    alloc: Global,
    book: &mut Book,
    rows: &mut PlainRows,
    batch: &Batch,
) -> Result<(), AllocError> {
    assert!(rt; are_as_wide(batch, rows.names().len()));
    match rows.after(alloc, batch)? {
        Ok(changed) => {
            assert!(rt; matches!(apply(rt, book, batch), Applying::Applied { .. }));
            *rows = changed;
        }
        Err((place, why)) => {
            let at = place as u64;
            assert!(rt; apply(rt, book, batch) == Applying::Refused { at, why });
        }
    }
    Ok(())
}

// Compares the covers of a book with those of the same rows, and again after each of some batches.
fn follow(
    rt: &impl Abort,
    alloc: Global,
    seed: u64,
    book: &mut Book,
    rows: &mut PlainRows,
) -> Result<(), AllocError> {
    let mut samples = Samples::from_seed(seed);
    for _ in 0..6u32 {
        compare(rt, alloc, book, rows)?;
        let batch = samples.batch(alloc, 2, COLUMNS, 8)?;
        change(rt, alloc, book, rows, &batch)?;
    }
    compare(rt, alloc, book, rows)
}

fn open_and_follow<R: Abort + Threads + Sync>(
    rt: &R,
    alloc: Global,
    seed: u64,
    nulls: Nulls,
) -> Result<(), AllocError> {
    let limits = Limits::standard();
    let workers = (seed % 4) as u8;
    let read = relation(rt, alloc, seed)?;
    let mut book = Book::open_by(rt, alloc, read, limits, nulls, workers)?;
    let mut rows = PlainRows::opened(alloc, nulls, limits, relation(rt, alloc, seed)?)?;
    follow(rt, alloc, seed, &mut book, &mut rows)
}

static CASES: [(u64, Nulls); 4] = [
    (11, Nulls::Equal),
    (12, Nulls::Distinct),
    (13, Nulls::Equal),
    (14, Nulls::Distinct),
];

#[test]
fn covers_are_those_of_the_plain_programs(rt: HostRuntime) -> Result<(), Fail> {
    for case in &CASES {
        open_and_follow(&rt, rt.alloc(), case.0, case.1)?;
    }
    Ok(())
}

// Columns and rows of a relation with so many candidates that a new row is compared with all.
const MANY_COLUMNS: usize = 9;

const MANY_ROWS: usize = 10;

// The batch that inserts a row.
fn insertion(alloc: Global, seed: u64) -> Result<Batch, AllocError> {
    let row = Samples::from_seed(seed).row(alloc, MANY_COLUMNS)?;
    Batch::of(alloc, &[Op::Insert(row)])
}

// Whether the rows that came are worth comparing with all rows.
fn is_worth_comparing(alloc: Global, book: &Book) -> Result<bool, AllocError> {
    let from = worth_comparing(alloc, book.candidates(), book.rows().next())?;
    Ok(from.is_some())
}

// Compares the covers of a book with those of the same rows, before and after a row is inserted into both.
fn insert_and_compare(
    rt: &impl Abort,
    alloc: Global,
    seed: u64,
    book: &mut Book,
    rows: &mut PlainRows,
) -> Result<(), AllocError> {
    compare(rt, alloc, book, rows)?;
    let batch = insertion(alloc, seed.wrapping_add(100))?;
    change(rt, alloc, book, rows, &batch)?;
    assert!(rt; is_worth_comparing(alloc, book)?, "seed {seed}");
    compare(rt, alloc, book, rows)
}

fn many_candidates(rt: &impl Abort, alloc: Global, seed: u64) -> Result<Relation, AllocError> {
    wide_relation(rt, alloc, seed, MANY_ROWS, MANY_COLUMNS)
}

fn open_and_insert(rt: &impl Abort, alloc: Global, seed: u64) -> Result<(), AllocError> {
    let limits = Limits::standard();
    let mut book = Book::open(alloc, many_candidates(rt, alloc, seed)?, limits)?;
    let again = many_candidates(rt, alloc, seed)?;
    let mut rows = PlainRows::opened(alloc, Nulls::Equal, limits, again)?;
    insert_and_compare(rt, alloc, seed, &mut book, &mut rows)
}

#[test]
fn few_new_rows_are_compared_with_all(rt: HostRuntime) -> Result<(), Fail> {
    for seed in 21..23 {
        open_and_insert(&rt, rt.alloc(), seed)?;
    }
    Ok(())
}
