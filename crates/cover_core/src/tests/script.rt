// Calls on the book in a row, each with what it is to answer.
ghost use Rattle.rel_base.specs.JobParts.{JobParts};
ghost use Rattle.cover_steps.specs.Sound.{Fits};

use super::{apply, columns, draw, insert, is_busy, is_of, refute};
use crate::{Applying, Book, Draw, Refutation, Settling};
use rel_base::{Batch, Op, RowNo, Target};
use std::alloc::{AllocError, Global};
use std::process::Abort;

// What two rows tell.
#[derive(Clone, Copy)]
pub enum Told {
    News,
    Nothing,
    // That this one of them is not live.
    Dead(u32),
}

// A call, with what it is to answer.
#[derive(Clone, Copy)]
pub enum Step {
    // A row with these cells is inserted.
    Insert(&'static [u8], &'static [u8]),
    // A row is deleted.
    Delete(u32),
    // Two rows refute what they do.
    Refute(u32, u32, Told),
    // A draw answers the job for this dependency and the rows below a number.
    Draw(Target, &'static [u8], u32),
    // A draw answers that all is held, with this candidate first.
    Held(Target, &'static [u8]),
    // A settle answers that this candidate, known to hold below a number, is the first unfinished one.
    Wait(Target, &'static [u8], u32),
}

// Deletes a row, and tells whether the batch was applied.
fn delete(rt: &impl Abort, alloc: Global, book: &mut Book, number: u32) -> Result<bool, AllocError>
    ensures { (job : JobParts) → Fits book.old.rows job → Fits book.new.rows job }
{
    assert!(rt; 0 < number);
    let batch = Batch::of(alloc, &[Op::Delete(RowNo::of(number))])?;
    let wanted = Applying::Applied {
        inserted: 0,
        deleted: 1,
    };
    Ok(apply(rt, book, &batch) == wanted)
}

fn is_told(refutation: Refutation, told: Told) -> bool {
    match told {
        Told::News => refutation == Refutation::Booked,
        Told::Nothing => refutation == Refutation::Known,
        Told::Dead(number) => 0 < number && refutation == Refutation::Gone(RowNo::of(number)),
    }
}

// Whether the next draw answers this job, with all rows new.
fn draws(book: &mut Book, target: Target, left: &[u8], to: u32) -> Result<bool, AllocError>
    ensures { (job : JobParts) → Fits book.old.rows job → Fits book.new.rows job }
{
    match draw(book)? {
        Draw::Job(job) => Ok(is_of(&job, target, columns(left), 1, to)),
        _ => Ok(false),
    }
}

fn is_held(book: &mut Book, target: Target, left: &[u8]) -> Result<bool, AllocError>
    ensures { (job : JobParts) → Fits book.old.rows job → Fits book.new.rows job }
{
    let draw = draw(book)?;
    Ok(is_busy(&draw, target, columns(left)))
}

fn waits_for(book: &Book, wanted: Target, set: &[u8], number: u32) -> Result<bool, AllocError> {
    match book.settle()? {
        Settling::NotYet { target, left, upto } => {
            Ok(target == wanted && left == columns(set) && upto.number() == number)
        }
        Settling::Ready(_) => Ok(false),
    }
}

// Makes a call, and tells whether it answers what it is to.
fn answers(rt: &impl Abort, alloc: Global, book: &mut Book, step: Step) -> Result<bool, AllocError>
    ensures { (job : JobParts) → Fits book.old.rows job → Fits book.new.rows job }
{
    match step {
        Step::Insert(k, v) => insert(rt, alloc, book, k, v),
        Step::Delete(number) => delete(rt, alloc, book, number),
        Step::Refute(i, j, told) => Ok(is_told(refute(rt, book, i, j)?, told)),
        Step::Draw(target, left, to) => draws(book, target, left, to),
        Step::Held(target, left) => is_held(book, target, left),
        Step::Wait(target, left, number) => waits_for(book, target, left, number),
    }
}

// Makes these calls, one after another.
pub fn play(
    rt: &impl Abort,
    alloc: Global,
    book: &mut Book,
    steps: &[Step],
) -> Result<(), AllocError>
    ensures { (job : JobParts) → Fits book.old.rows job → Fits book.new.rows job }
{
    for (place, step) in steps.iter().enumerate() {
        let fits = answers(rt, alloc, book, *step)?;
        assert!(rt; fits, "call {place}");
    }
    Ok(())
}
