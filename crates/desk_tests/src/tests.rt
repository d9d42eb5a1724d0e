// The calls of the desk on three small rows: in scripts of two passes, and by threads beside each other.
ghost use Rattle.std.specs.Prelude.{◌≡◌, ◌<◌, ◌≤◌, true, IfOk};
ghost use Rattle.rel_base.specs.RowState.{width};
ghost use Rattle.desk.specs.Desks.{opened_book, IsAt};
ghost use Rattle.desk_lock.specs.Passes.{view};

mod candidates;
mod party;
mod scripts;
mod threads;

use cover_core::Book;
use desk::{Desk, FeederPass, NoMemory};
use plain_base::relation_of;
use rel_base::{Batch, ColSet, Limits, MOST_COLUMNS, Op, Relation, Row, RowNo};
use std::alloc::{AllocError, Global};
use std::process::Abort;

// The cells of three rows.
static LETTERS: [(&[u8], &[u8]); 3] = [(b"1", b"x"), (b"1", b"y"), (b"2", b"z")];

fn letter_rows(alloc: Global) -> Result<Vec<Row>, AllocError> {
    let mut rows = Vec::with_capacity(alloc, 3)?;
    for letters in &LETTERS {
        rows.push(Row::copied(alloc, &[letters.0, letters.1])?)?;
    }
    Ok(rows)
}

// The relation of these names and rows, which are one's.
fn relation_with(
    rt: &impl Abort,
    alloc: Global,
    names: Row,
    rows: &[Row],
) -> Result<Relation, AllocError> {
    let relation = relation_of(alloc, names, rows)?;
    assert!(rt; relation.is_some());
    Ok(relation.unwrap())
}

// The book of the columns k and v with these rows.
fn letters(rt: &impl Abort, alloc: Global) -> Result<Book, AllocError> {
    let rows = letter_rows(alloc)?;
    let names = Row::copied(alloc, &[b"k", b"v"])?;
    let relation = relation_with(rt, alloc, names, &rows)?;
    Book::open(alloc, relation, Limits::standard())
}

// The desk of that book. Where memory is refused, the book comes back, and the desk is opened once more.
fn opened(rt: &impl Abort, alloc: Global, passes: u32) -> Result<(Desk, FeederPass), AllocError>
    requires { (0 < passes) × (passes ≤ 64) }
    ensures own { IfOk result (λ r. IsAt r.0 r.1.pass × ((view r.1.pass).high ≡ passes)) }
    ensures wide { IfOk result (λ r. width (opened_book r.0).rows ≡ 2) }
{
    let book = letters(rt, alloc)?;
    assert!(rt; book.rows().names().len() == 2);
    match Desk::open(alloc, book, passes) {
        Ok(both) => Ok(both),
        Err(NoMemory(again)) => Desk::open(alloc, again, passes).map_err(|_| AllocError),
    }
}

fn columns(list: &[u8]) -> ColSet {
    let mut set = ColSet::empty();
    for column in list {
        if *column < MOST_COLUMNS {
            set = set.with(*column);
        }
    }
    set
}

// The batch that inserts a row of two cells.
fn insertion(alloc: Global, k: &[u8], v: &[u8]) -> Result<Batch, AllocError> {
    let row = Row::copied(alloc, &[k, v])?;
    Batch::of(alloc, &[Op::Insert(row)])
}

// The batch that deletes a row.
fn deletion(rt: &impl Abort, alloc: Global, number: u32) -> Result<Batch, AllocError> {
    assert!(rt; 0 < number);
    Batch::of(alloc, &[Op::Delete(RowNo::of(number))])
}
