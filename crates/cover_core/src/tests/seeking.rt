// What a book seeks, and what it leaves to be drawn.
use super::covers::are_same;
use super::{drawn, finish, letters};
use crate::{Book, Known};
use ports::OpenGate;
use rel_base::{ColSet, Covers, Job, Target};
use std::alloc::{AllocError, Global};
use std::process::Abort;
use std::test::Fail;
use std::thread::Threads;

// Seeks, once more where memory is wanting.
fn seek<R: Threads + Sync>(rt: &R, book: &mut Book) -> Result<Known, AllocError> {
    match book.seek(rt, 1, &OpenGate) {
        Ok(known) => Ok(known),
        Err(_) => book.seek(rt, 1, &OpenGate),
    }
}

// Whether it answers the job of a key.
fn answers(known: &Known, job: &Job) -> bool {
    match job.target() {
        Target::RowId => known.answers(job, &mut 0),
        Target::Col(_) => false,
    }
}

// Whether the job is not of the empty set, and all its rows are new.
fn is_of_all_rows(job: &Job) -> bool {
    job.left() != ColSet::empty() && job.from().number() == 1
}

// Compares what is known with the first job that is drawn.
fn compare_with_drawn(rt: &impl Abort, book: &mut Book, known: &Known) -> Result<(), Fail> {
    let job = drawn(book)?.ok_or("no job")?;
    assert!(rt; is_of_all_rows(&job));
    assert!(rt; answers(known, &job));
    Ok(())
}

fn seek_and_compare<R: Threads + Sync + Abort>(rt: &R, book: &mut Book) -> Result<(), Fail> {
    let known = seek(rt, book)?;
    assert!(rt; !book.settled());
    compare_with_drawn(rt, book, &known)
}

// The covers that a book finds which has sought nothing.
fn wanted(rt: &impl Abort, alloc: Global) -> Result<Covers, AllocError> {
    let mut book = letters(rt, alloc)?;
    finish(&mut book)
}

// It answers the job of a key, and each candidate is left to be drawn.
#[test]
fn what_was_sought_is_told_and_left_to_be_drawn(rt: HostRuntime) -> Result<(), Fail> {
    let wanted = wanted(&rt, rt.alloc())?;
    let mut book = letters(&rt, rt.alloc())?;
    seek_and_compare(&rt, &mut book)?;
    let found = finish(&mut book)?;
    assert!(rt; are_same(&found, &wanted));
    Ok(())
}
