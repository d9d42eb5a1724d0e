// The calls of the book on three small rows, in scripts, and the covers of relations that are drawn.
ghost use Rattle.std.specs.Prelude.{◌≡◌, ◌<◌, true, IfOk, IfSome, IsTrue};
ghost use Rattle.rel_base.specs.JobParts.{JobParts};
ghost use Rattle.rel_base.specs.Shows.{holds_in};
ghost use Rattle.cover_steps.specs.Sound.{Fits};
ghost use Rattle.validator.specs.Verdicts.{IsFitting};

mod covers;
mod late_jobs;
mod new_rows;
mod script;
mod seeking;
mod workers;

use crate::{Applying, Book, Draw, Marking, Refutation};
use plain_base::{are_as_wide, relation_of};
use rel_base::{
    Batch, ColSet, Covers, Job, Limits, MOST_COLUMNS, Op, Relation, Row, RowNo, Steps, Target,
};
use std::alloc::{AllocError, Global};
use std::marker::Brand;
use std::process::Abort;
use std::sync::ledger::{Blank, Ledger};
use std::test::Fail;
use std::thread::join;
use validator::{Verdict, validate};

// The cells of three rows.
static LETTERS: [(&[u8], &[u8]); 3] = [(b"1", b"x"), (b"1", b"y"), (b"2", b"z")];

fn letter_rows(alloc: Global) -> Result<Vec<Row>, AllocError> {
    let mut rows = Vec::with_capacity(alloc, 3)?;
    for letters in &LETTERS {
        rows.push(Row::copied(alloc, &[letters.0, letters.1])?)?;
    }
    Ok(rows)
}

// The book of the columns k and v with these rows.
fn letters(rt: &impl Abort, alloc: Global) -> Result<Book, AllocError> {
    let rows = letter_rows(alloc)?;
    let names = Row::copied(alloc, &[b"k", b"v"])?;
    let relation = relation_with(rt, alloc, names, &rows)?;
    Book::open(alloc, relation, Limits::standard())
}

// The relation of these names and rows, which are one's.
fn relation_with(
    rt: &impl Abort,
    alloc: Global,
    names: Row,
    rows: &[Row],
) -> Result<Relation, AllocError> {
    let relation = relation_of(alloc, names, rows)?;
    assert!(rt; relation.is_some());
    Ok(relation.unwrap())
}

fn columns(list: &[u8]) -> ColSet {
    let mut set = ColSet::empty();
    for column in list {
        if *column < MOST_COLUMNS {
            set = set.with(*column);
        }
    }
    set
}

// A draw, once more where memory is wanting.
fn draw(book: &mut Book) -> Result<Draw, AllocError>
    ensures { (job : JobParts) → Fits book.old.rows job → Fits book.new.rows job }
{
    match book.draw() {
        Ok(draw) => Ok(draw),
        Err(_) => book.draw(),
    }
}

// A refutation by two rows, once more where memory is wanting.
fn refute(rt: &impl Abort, book: &mut Book, i: u32, j: u32) -> Result<Refutation, AllocError>
    ensures { (job : JobParts) → Fits book.old.rows job → Fits book.new.rows job }
{
    assert!(rt; 0 < i && 0 < j);
    let (first, second) = (RowNo::of(i), RowNo::of(j));
    assert!(rt; first != second);
    match book.refute(first, second) {
        Ok(refutation) => Ok(refutation),
        Err(_) => book.refute(first, second),
    }
}

// A batch, once more where memory is wanting.
fn apply(rt: &impl Abort, book: &mut Book, batch: &Batch) -> Applying
    ensures { (job : JobParts) → Fits book.old.rows job → Fits book.new.rows job }
{
    assert!(rt; are_as_wide(batch, book.rows().names().len()));
    match book.apply(batch) {
        Applying::NoMemory => {
            assert!(rt; are_as_wide(batch, book.rows().names().len()));
            book.apply(batch)
        }
        answer => answer,
    }
}

// Inserts a row of two cells, and tells whether the batch was applied.
fn insert(
    rt: &impl Abort,
    alloc: Global,
    book: &mut Book,
    k: &[u8],
    v: &[u8],
) -> Result<bool, AllocError>
    ensures { (job : JobParts) → Fits book.old.rows job → Fits book.new.rows job }
{
    let row = Row::copied(alloc, &[k, v])?;
    let batch = Batch::of(alloc, &[Op::Insert(row)])?;
    let wanted = Applying::Applied {
        inserted: 1,
        deleted: 0,
    };
    Ok(apply(rt, book, &batch) == wanted)
}

// A job that is drawn.
fn drawn(book: &mut Book) -> Result<Option<Job>, AllocError>
    ensures drawn { IfOk result (λ job. IfSome job (Fits book.new.rows)) }
    ensures fits { (job : JobParts) → Fits book.old.rows job → Fits book.new.rows job }
{
    match book.draw()? {
        Draw::Job(job) => Ok(Some(job)),
        _ => Ok(None),
    }
}

// Whether a job's dependency holds in its snapshot.
fn is_valid<L: Ledger>(alloc: Global, job: &Job, blank: Blank) -> Result<bool, AllocError>
    requires name { blank.name ≡ L.name }
    requires parts { blank.parts ≡ L.parts }
    requires some { 0 < L.parts }
    requires fitting { IsFitting job.now }
    ensures { IfOk result (λ valid. IsTrue valid → holds_in job.now.snapshot job.now.left job.now.target ≡ true) }
{
    let mut steps = Steps::<L>::none(blank);
    match validate(alloc, job, &mut steps)? {
        Verdict::Holds { .. } => Ok(true),
        Verdict::Broken { .. } => Ok(false),
    }
}

// Validates a job of which the dependency holds, and marks it.
fn mark(rt: &impl Abort, alloc: Global, book: &mut Book, job: &Job) -> Result<Marking, AllocError>
    requires { Fits book.old.rows job.now }
    ensures { (other : JobParts) → Fits book.old.rows other → Fits book.new.rows other }
{
    let valid = is_valid::<Brand>(alloc, job, Blank::new(1))?;
    assert!(rt; valid);
    Ok(book.mark(job))
}

// Finishes, once more where memory is wanting.
fn finish(book: &mut Book) -> Result<Covers, AllocError> {
    match book.finish() {
        Ok(found) => Ok(found),
        Err(_) => book.finish(),
    }
}

// Whether the job is of this dependency, for the rows from one number on and below another.
fn is_of(job: &Job, target: Target, left: ColSet, from: u32, to: u32) -> bool {
    job.target() == target
        && job.left() == left
        && job.from().number() == from
        && job.to().number() == to
}

// Whether the draw answers that all unfinished candidates are held, with this one first.
fn is_busy(draw: &Draw, wanted: Target, set: ColSet) -> bool {
    match draw {
        Draw::Busy { target, left } => *target == wanted && *left == set,
        _ => false,
    }
}

// A missing proof that a book may move to another thread shows at a `join`.
#[test]
fn books_move_among_threads(rt: HostRuntime) -> Result<(), Fail> {
    let alloc = rt.alloc();
    let first = letters(&rt, alloc)?;
    let second = letters(&rt, alloc)?;
    let (settled, witnesses) = join(
        &rt,
        move || first.settled(),
        move || second.witnesses().len(),
    );
    assert!(rt; !settled && witnesses == 0);
    Ok(())
}
