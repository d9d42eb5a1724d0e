// The candidates of a book of two columns, as its calls tell them.
ghost use Rattle.std.specs.Prelude.{IsTrue};
ghost use Rattle.col_set.specs.Target.{IsColumnTarget};

use cover_core::{Book, Draw, Release};
use rel_base::{ColSet, Job, RowNo, Snapshot, Target};
use std::alloc::{AllocError, Global};
use std::process::Abort;
use std::sync::Arc;

// A candidate with its marks: it is known to hold below a number, and someone may hold it.
#[derive(Clone, Copy, PartialEq, Eq)]
pub struct Found {
    pub target: Target,
    pub left: ColSet,
    pub upto: u32,
    pub held: bool,
}

static TARGETS: [Target; 3] = [Target::RowId, Target::Col(0), Target::Col(1)];

// The sets of two columns in report order: bit k says whether column k is there.
static SETS: [u128; 4] = [0, 1, 2, 3];

// The jobs that draws answer, up to the first answer that is none.
fn drawn(alloc: Global, book: &mut Book) -> Result<Vec<Job>, AllocError> {
    let mut jobs = Vec::new(alloc);
    for _ in 0..20u32 {
        match book.draw()? {
            Draw::Job(job) => jobs.push(job)?,
            _ => return Ok(jobs),
        }
    }
    Ok(jobs)
}

// The job of this dependency, if it is among these.
fn among(jobs: &[Job], target: Target, left: ColSet) -> Option<&Job> {
    jobs.iter()
        .find(|job| job.target() == target && job.left() == left)
}

// Whether these columns are a candidate of the target, which is not held from now on.
fn is_listed(
    rt: &impl Abort,
    book: &mut Book,
    target: Target,
    bits: u128,
    snapshot: &Arc<Snapshot>,
) -> Result<bool, AllocError> {
    let to = book.rows().next();
    let left = ColSet::of_bits(bits);
    let job = Job::of(target, left, RowNo::first(), to, snapshot.clone()?);
    assert!(rt; book.rows().names().len() == 2 && bits < 4 && is_target(target));
    Ok(book.release(&job) == Release::Released)
}

// Whether it is one of two columns, or which row it is.
fn is_target(target: Target) -> bool
    ensures { IsTrue result → IsColumnTarget 2 target }
{
    match target {
        Target::Col(column) => column < 2,
        Target::RowId => true,
    }
}

// The candidates, by target and in report order. Their book is let go of, since to ask it holds and releases.
pub fn candidates_of(
    rt: &impl Abort,
    alloc: Global,
    mut book: Book,
) -> Result<Vec<Found>, AllocError> {
    let snapshot = book.rows().snapshot(alloc)?;
    let next = book.rows().next().number();
    let free = drawn(alloc, &mut book)?;
    let listed = listed_in(rt, alloc, &mut book, &snapshot)?;
    let unfinished = drawn(alloc, &mut book)?;
    marked(
        alloc,
        listed.as_slice(),
        next,
        free.as_slice(),
        unfinished.as_slice(),
    )
}

// The marks of each that is listed.
fn marked(
    alloc: Global,
    listed: &[(Target, ColSet)],
    next: u32,
    free: &[Job],
    unfinished: &[Job],
) -> Result<Vec<Found>, AllocError> {
    let mut found = Vec::new(alloc);
    for (target, left) in listed {
        found.push(found_of(*target, *left, next, free, unfinished))?;
    }
    Ok(found)
}

// The marks of a candidate. A job is among the free ones unless its candidate is held, and among
// the unfinished ones unless its candidate is known to hold in all rows.
fn found_of(target: Target, left: ColSet, next: u32, free: &[Job], unfinished: &[Job]) -> Found {
    let unheld = among(free, target, left).is_some();
    let job = among(unfinished, target, left);
    Found {
        target,
        left,
        upto: job.map_or(next, |job| job.from().number()),
        held: job.is_some() && !unheld,
    }
}

// What is listed. Nothing is held afterwards.
fn listed_in(
    rt: &impl Abort,
    alloc: Global,
    book: &mut Book,
    snapshot: &Arc<Snapshot>,
) -> Result<Vec<(Target, ColSet)>, AllocError> {
    let mut listed = Vec::new(alloc);
    for target in &TARGETS {
        for bits in &SETS {
            if is_listed(rt, book, *target, *bits, snapshot)? {
                listed.push((*target, ColSet::of_bits(*bits)))?;
            }
        }
    }
    Ok(listed)
}
