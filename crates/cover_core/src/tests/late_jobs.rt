// Jobs that are delivered after rows went and came.
ghost use Rattle.rel_base.specs.JobParts.{JobParts};
ghost use Rattle.cover_steps.specs.Sound.{Fits};

use super::script::{Step, Told, play};
use super::{columns, drawn, finish, is_of, letters, mark};
use crate::{Book, Marking, Release};
use rel_base::{Fd, Job, Target};
use std::alloc::{AllocError, Global};
use std::process::Abort;
use std::test::Fail;

// Finishes, and tells whether this is the one key, and this column, if there is one, determines the first, and nothing else holds.
fn ends_with(book: &mut Book, key: &[u8], left: Option<u8>) -> Result<bool, AllocError> {
    let covers = finish(book)?;
    let fds = covers.fds();
    let wanted = match left {
        Some(left) => {
            fds.len() == 1
                && fds[0]
                    == Fd {
                        left: columns(&[left]),
                        right: 0,
                    }
        }
        None => fds.is_empty(),
    };
    Ok(wanted && covers.keys() == [columns(key)].as_slice())
}

// Two rows refute the first candidate.
static BEGIN: [Step; 1] = [Step::Refute(1, 2, Told::News)];

// A new row refutes a job's candidate.
static GO: [Step; 2] = [Step::Insert(b"9", b"x"), Step::Refute(1, 4, Told::News)];

// It goes again, and the candidate comes back.
static COME_BACK: [Step; 1] = [Step::Delete(4)];

// The job's candidate is known to hold among three rows.
static END: [Step; 2] = [
    Step::Wait(Target::RowId, &[1], 4),
    Step::Refute(4, 1, Told::Dead(4)),
];

// Delivers a job after its candidate went, after it came back, again, and once more to give it back.
fn deliver_late(
    rt: &impl Abort,
    alloc: Global,
    book: &mut Book,
    job: &Job,
) -> Result<(), AllocError>
    requires { Fits book.old.rows job.now }
{
    play(rt, alloc, book, &GO)?;
    assert!(rt; mark(rt, alloc, book, job)? == Marking::Dropped);
    assert!(rt; book.release(job) == Release::Dropped);
    play(rt, alloc, book, &COME_BACK)?;
    assert!(rt; mark(rt, alloc, book, job)? == Marking::Marked);
    deliver_again(rt, alloc, book, job)
}

fn deliver_again(
    rt: &impl Abort,
    alloc: Global,
    book: &mut Book,
    job: &Job,
) -> Result<(), AllocError>
    requires { Fits book.old.rows job.now }
{
    let again = job.again()?;
    assert!(rt; mark(rt, alloc, book, &again)? == Marking::Marked);
    assert!(rt; book.release(job) == Release::Released);
    Ok(())
}

fn deliver_one(rt: &impl Abort, alloc: Global, book: &mut Book) -> Result<(), AllocError> {
    match drawn(book)? {
        Some(job) => {
            assert!(rt; is_of(&job, Target::RowId, columns(&[1]), 1, 4));
            deliver_late(rt, alloc, book, &job)
        }
        None => {
            assert!(rt; false, "no job");
            Ok(())
        }
    }
}

fn play_late(rt: &impl Abort, alloc: Global, book: &mut Book) -> Result<(), AllocError> {
    play(rt, alloc, book, &BEGIN)?;
    deliver_one(rt, alloc, book)?;
    play(rt, alloc, book, &END)?;
    assert!(rt; ends_with(book, &[1], Some(1))?);
    Ok(())
}

#[test]
fn late_jobs_are_dropped_or_marked(rt: HostRuntime) -> Result<(), Fail> {
    let mut book = letters(&rt, rt.alloc())?;
    play_late(&rt, rt.alloc(), &mut book)?;
    Ok(())
}

// The first candidate is drawn, and two rows refute it.
static DRAW: [Step; 2] = [
    Step::Draw(Target::RowId, &[], 4),
    Step::Refute(1, 2, Told::News),
];

// Two further rows refute a candidate.
static REFUTE: [Step; 1] = [Step::Refute(1, 3, Told::News)];

// All that is left is held, and then a row of a witness goes.
static LOSE: [Step; 3] = [
    Step::Held(Target::RowId, &[1]),
    Step::Delete(2),
    Step::Refute(1, 2, Told::Dead(2)),
];

// What the row that went refuted is open again.
static OPEN: [Step; 1] = [Step::Wait(Target::RowId, &[0], 1)];

// A further row comes.
static GO_ON: [Step; 3] = [
    Step::Refute(1, 3, Told::Nothing),
    Step::Insert(b"1", b"z"),
    Step::Wait(Target::RowId, &[0], 1),
];

// Marks the one job, and gives the other back.
fn deliver(
    rt: &impl Abort,
    alloc: Global,
    book: &mut Book,
    late: &Job,
    held: &Job,
) -> Result<(), AllocError>
    requires late { Fits book.old.rows late.now }
    requires held { Fits book.old.rows held.now }
{
    play(rt, alloc, book, &LOSE)?;
    assert!(rt; mark(rt, alloc, book, late)? == Marking::Marked);
    play(rt, alloc, book, &OPEN)?;
    assert!(rt; book.release(held) == Release::Released);
    Ok(())
}

// Draws the second job, and delivers both after a row went.
fn deliver_both(
    rt: &impl Abort,
    alloc: Global,
    book: &mut Book,
    late: &Job,
) -> Result<(), AllocError>
    requires { Fits book.old.rows late.now }
{
    play(rt, alloc, book, &REFUTE)?;
    match drawn(book)? {
        Some(held) => deliver(rt, alloc, book, late, &held),
        None => {
            assert!(rt; false, "no second job");
            Ok(())
        }
    }
}

fn deliver_two(rt: &impl Abort, alloc: Global, book: &mut Book) -> Result<(), AllocError> {
    match drawn(book)? {
        Some(late) => deliver_both(rt, alloc, book, &late),
        None => {
            assert!(rt; false, "no job");
            Ok(())
        }
    }
}

fn play_both(rt: &impl Abort, alloc: Global, book: &mut Book) -> Result<(), AllocError> {
    play(rt, alloc, book, &DRAW)?;
    deliver_two(rt, alloc, book)?;
    play(rt, alloc, book, &GO_ON)?;
    assert!(rt; ends_with(book, &[0, 1], None)?);
    Ok(())
}

#[test]
fn a_job_is_marked_after_a_row_of_its_witness_went(rt: HostRuntime) -> Result<(), Fail> {
    let mut book = letters(&rt, rt.alloc())?;
    play_both(&rt, rt.alloc(), &mut book)?;
    Ok(())
}
