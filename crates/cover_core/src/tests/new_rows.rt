// Jobs of a book to which one row came after each candidate was known to hold in all rows: a step a job at most.
ghost use Rattle.std.specs.Prelude.{◌≡◌, ◌≤◌, ◌<◌, ◌+◌, true, IfOk, vec_len};
ghost use Rattle.cover_core.specs.Tests.{AreNear};

use super::{columns, finish, insert, is_busy, is_of, letters};
use crate::cursor::Cursor;
use crate::searching::first_unfinished;
use crate::{Book, Draw};
use rel_base::{Job, RowNo, Steps, Target};
use std::alloc::{AllocError, Global};
use std::marker::Brand;
use std::process::Abort;
use std::sync::ledger::{Blank, Ledger};
use std::test::Fail;
use validator::{Verdict, validate};

// Whether each candidate is known to hold among all rows but the last one at least.
fn are_near(book: &Book) -> bool
    ensures { result ≡ true → AreNear book.now }
{
    let next = book.rows().next().number();
    if next < 2 {
        return false;
    }
    let mut cursor = Cursor::start();
    first_unfinished(book.candidates(), &mut cursor, RowNo::of(next - 1)).is_none()
}

// The jobs that were drawn, each with its verdict, and the first answer that was none.
#[derive(Drop)]
struct Judged {
    jobs: Vec<(Job, Verdict)>,
    last: Option<Draw>,
}

// Draws a job of a book and validates it, unless the draw answers none.
fn judge_next<L: Ledger>(
    alloc: Global,
    book: &mut Book,
    steps: &mut Steps<L>,
    jobs: &mut Vec<(Job, Verdict)>,
) -> Result<Option<Draw>, AllocError>
    requires { AreNear book.old }
    ensures near { AreNear book.new }
    ensures steps { IfOk result (λ last. steps.new + vec_len jobs.old ≤ steps.old + vec_len jobs.new) }
{
    // `rows` is called for its clause that the book is sound.
    let _rows = book.rows();
    match book.draw()? {
        Draw::Job(job) => {
            let verdict = validate(alloc, &job, steps)?;
            jobs.push((job, verdict))?;
            Ok(None)
        }
        last => Ok(Some(last)),
    }
}

// Draws jobs of a book until a draw answers none, or so many times, and validates each.
fn judge_all<L: Ledger>(
    alloc: Global,
    book: &mut Book,
    most: u32,
    steps: &mut Steps<L>,
) -> Result<Judged, AllocError>
    requires { AreNear book.old }
    ensures { IfOk result (λ judged. steps.new ≤ steps.old + vec_len judged.jobs) }
{
    let mut jobs = Vec::new(alloc);
    for _ in 0..most {
        if let Some(last) = judge_next(alloc, book, steps, &mut jobs)? {
            return Ok(Judged {
                jobs,
                last: Some(last),
            });
        }
    }
    Ok(Judged { jobs, last: None })
}

// What `judge_all` tells, with a ledger of this blank.
fn judge_drawn<L: Ledger>(
    alloc: Global,
    book: &mut Book,
    blank: Blank,
) -> Result<Judged, AllocError>
    requires name { blank.name ≡ L.name }
    requires parts { blank.parts ≡ L.parts }
    requires some { 0 < L.parts }
    requires near { AreNear book.old }
{
    let mut steps = Steps::<L>::none(blank);
    judge_all(alloc, book, 10, &mut steps)
}

// The book of three rows, finished, with a fourth one, and what its jobs lead to.
fn judged_after(rt: &impl Abort, alloc: Global, k: &[u8], v: &[u8]) -> Result<Judged, AllocError> {
    let mut book = letters(rt, alloc)?;
    finish(&mut book)?;
    assert!(rt; insert(rt, alloc, &mut book, k, v)?);
    assert!(rt; are_near(&book));
    judge_drawn::<Brand>(alloc, &mut book, Blank::new(1))
}

// Whether the answers are the jobs of the key and of the dependency for the fourth row, with this verdict on each, and that both are
// held.
fn are_new(judged: &Judged, rows: Option<(u32, u32)>) -> bool {
    let right = columns(&[1]);
    judged.jobs.len() == 2
        && is_of(&judged.jobs[0].0, Target::RowId, right, 4, 5)
        && is_of(&judged.jobs[1].0, Target::Col(0), right, 4, 5)
        && is_judged(judged.jobs[0].1, rows)
        && is_judged(judged.jobs[1].1, rows)
        && judged
            .last
            .as_ref()
            .is_some_and(|last| is_busy(last, Target::RowId, right))
}

// Whether the verdict is that these two rows break it, or, where there are none, that it holds in all four rows.
fn is_judged(verdict: Verdict, rows: Option<(u32, u32)>) -> bool {
    match verdict {
        Verdict::Holds { to } => rows.is_none() && to.number() == 5,
        Verdict::Broken { i, j } => rows == Some((i.number(), j.number())),
    }
}

// A fourth row, and the rows that break both the key and the dependency then.
static FOURTH: [(&[u8], &[u8], Option<(u32, u32)>); 2] = [
    (b"3", b"w", None),
    (b"3", b"y", Some((2, 4))),
];

#[test]
fn a_new_row_leaves_a_step_a_job(rt: HostRuntime) -> Result<(), Fail> {
    for (k, v, rows) in &FOURTH {
        let judged = judged_after(&rt, rt.alloc(), k, v)?;
        assert!(rt; are_new(&judged, *rows));
    }
    Ok(())
}
