// Phases on small rows, held at their gate by turns, and the covers of relations that are drawn.
ghost use Rattle.std.specs.Prelude.{◌≡◌, true};
ghost use Rattle.std.specs.List.{All};
ghost use Rattle.rel_base.specs.Batches.{IsAsWide};

mod covers;
mod gates;
mod scripts;

use cover_core::Book;
use plain_base::{are_as_wide, relation_of};
use ports::Gate;
use refine_pool::{NoMemory, Refined, phase};
use rel_base::{Batch, ColSet, Limits, MOST_COLUMNS, Op, Row, RowNo};
use std::alloc::{AllocError, Global};
use std::process::Abort;
use std::sync::Wait;
use std::thread::Threads;

// The cells of three rows.
static LETTERS: [(&[u8], &[u8]); 3] = [(b"1", b"x"), (b"1", b"y"), (b"2", b"z")];

// A book of these rows.
fn book_of(rt: &impl Abort, alloc: Global, names: Row, rows: &[Row]) -> Result<Book, AllocError> {
    let relation = relation_of(alloc, names, rows)?;
    assert!(rt; relation.is_some());
    Book::open(alloc, relation.unwrap(), Limits::standard())
}

// The book of the columns k and v with three rows.
fn letters(rt: &impl Abort, alloc: Global) -> Result<Book, AllocError> {
    let names = Row::copied(alloc, &[b"k", b"v"])?;
    let mut rows = Vec::with_capacity(alloc, 3)?;
    for letters in &LETTERS {
        rows.push(Row::copied(alloc, &[letters.0, letters.1])?)?;
    }
    book_of(rt, alloc, names, &rows)
}

fn columns(list: &[u8]) -> ColSet {
    let mut set = ColSet::empty();
    for column in list {
        if *column < MOST_COLUMNS {
            set = set.with(*column);
        }
    }
    set
}

// The batch that inserts a row of two cells.
fn insertion(alloc: Global, k: &[u8], v: &[u8]) -> Result<Batch, AllocError> {
    let row = Row::copied(alloc, &[k, v])?;
    Batch::of(alloc, &[Op::Insert(row)])
}

// The batch that deletes a row.
fn deletion(rt: &impl Abort, alloc: Global, number: u32) -> Result<Batch, AllocError> {
    assert!(rt; 0 < number);
    Batch::of(alloc, &[Op::Delete(RowNo::of(number))])
}

fn are_all_as_wide(batches: &[Batch], width: usize) -> bool
    ensures { result ≡ true → All (All (IsAsWide width)) batches.now }
{
    for batch in batches {
        if !are_as_wide(batch, width) {
            return false;
        }
    }
    true
}

// A phase.
fn run<R: Threads + Wait + Sync + Abort, G: Gate + Sync>(
    rt: &R,
    alloc: Global,
    book: Book,
    batches: Vec<Batch>,
    workers: u32,
    gate: &G,
) -> Result<Refined, NoMemory<Refined>> {
    assert!(rt; are_all_as_wide(batches.as_slice(), book.rows().names().len()));
    assert!(rt; 0 < workers && workers <= 16);
    phase(rt, alloc, book, batches, workers, gate)
}
