// A feeder and a worker, who call one after the other. Where memory is refused, each calls once more.
ghost use Rattle.std.specs.Prelude.{◌≡◌, ◌≢◌, ◌<◌, true, IfOk, IfSome, IsTrue};
ghost use Rattle.rel_base.specs.JobParts.{JobParts};
ghost use Rattle.rel_base.specs.RowState.{width};
ghost use Rattle.rel_base.specs.Shows.{holds_in};
ghost use Rattle.validator.specs.Verdicts.{IsFitting};
ghost use Rattle.cover_core.specs.Replies.{IfJob};
ghost use Rattle.desk.specs.Desks.{opened_book, IsAt, WasDrawn};
ghost use Rattle.desk_tests.specs.Tests.{AreReady};

use cover_core::{Applying, Draw, Marking, Refutation, Release, Settling};
use desk::{Desk, FeederPass, NoMemory, WorkerPass};
use plain_base::are_as_wide;
use rel_base::{Batch, ColSet, Job, RowNo, Steps, Target};
use std::alloc::{AllocError, Global};
use std::marker::Brand;
use std::process::Abort;
use std::sync::Wait;
use std::sync::ledger::{Blank, Ledger};
use validator::{Verdict, validate};

#[derive(Drop)]
pub struct Party {
    pub feeder: FeederPass,
    pub worker: WorkerPass,
    // The feeder owns the numbers below.
    pub left: u32,
    // What the worker drew, in order.
    pub jobs: Vec<Job>,
}

// Whether the job is of this dependency, with all rows below a number new.
fn is_of(job: &Job, target: Target, left: ColSet, to: u32) -> bool {
    job.target() == target
        && job.left() == left
        && job.from().number() == 1
        && job.to().number() == to
}

// Whether the draw answers that all unfinished candidates are held, with this one first.
fn is_busy(draw: &Draw, wanted: Target, set: ColSet) -> bool {
    match draw {
        Draw::Busy { target, left } => *target == wanted && *left == set,
        _ => false,
    }
}

// Whether a settle answers that this candidate, known to hold below a number, is the first unfinished one.
fn waits_for(settling: &Settling, wanted: Target, set: ColSet, number: u32) -> bool {
    match settling {
        Settling::NotYet { target, left, upto } => {
            *target == wanted && *left == set && upto.number() == number
        }
        Settling::Ready(_) => false,
    }
}

// Whether a job's dependency holds in its snapshot.
fn is_valid<L: Ledger>(alloc: Global, job: &Job, blank: Blank) -> Result<bool, AllocError>
    requires name { blank.name ≡ L.name }
    requires parts { blank.parts ≡ L.parts }
    requires some { 0 < L.parts }
    requires fitting { IsFitting job.now }
    ensures { IfOk result (λ valid. IsTrue valid → holds_in job.now.snapshot job.now.left job.now.target ≡ true) }
{
    let mut steps = Steps::<L>::none(blank);
    match validate(alloc, job, &mut steps)? {
        Verdict::Holds { .. } => Ok(true),
        Verdict::Broken { .. } => Ok(false),
    }
}

fn draw_again<R: Wait>(rt: &R, desk: &Desk, worker: &mut WorkerPass) -> Result<Draw, AllocError>
    requires { IsAt desk.now worker.old.pass }
    ensures own { IsAt desk.now worker.new.pass }
    ensures job { IfOk result (λ draw. IfJob draw (WasDrawn desk.now worker.new.pass)) }
    ensures drawn { (job : JobParts) → WasDrawn desk.now worker.old.pass job → WasDrawn desk.now worker.new.pass job }
{
    match desk.draw(rt, worker) {
        Ok(draw) => Ok(draw),
        Err(_) => desk.draw(rt, worker),
    }
}

// Whether a draw answers this job, which is kept.
pub fn draws<R: Wait>(
    rt: &R,
    desk: &Desk,
    party: &mut Party,
    target: Target,
    left: ColSet,
    to: u32,
) -> Result<bool, AllocError>
    requires { AreReady desk.now party.old.feeder.pass party.old.worker.pass party.old.left party.old.jobs.items }
    ensures { IfOk result (λ _. AreReady desk.now party.new.feeder.pass party.new.worker.pass party.new.left party.new.jobs.items) }
{
    match draw_again(rt, desk, &mut party.worker)? {
        Draw::Job(job) => {
            let fits = is_of(&job, target, left, to);
            party.jobs.push(job)?;
            Ok(fits)
        }
        _ => Ok(false),
    }
}

// Whether a draw answers that all is held, with this candidate first.
pub fn is_held<R: Wait>(
    rt: &R,
    desk: &Desk,
    party: &mut Party,
    target: Target,
    left: ColSet,
) -> Result<bool, AllocError>
    requires { AreReady desk.now party.old.feeder.pass party.old.worker.pass party.old.left party.old.jobs.items }
    ensures { IfOk result (λ _. AreReady desk.now party.new.feeder.pass party.new.worker.pass party.new.left party.new.jobs.items) }
{
    let draw = draw_again(rt, desk, &mut party.worker)?;
    Ok(is_busy(&draw, target, left))
}

// What two rows tell.
pub fn refute<R: Wait + Abort>(
    rt: &R,
    desk: &Desk,
    party: &mut Party,
    i: u32,
    j: u32,
) -> Result<Refutation, AllocError>
    requires { AreReady desk.now party.old.feeder.pass party.old.worker.pass party.old.left party.old.jobs.items }
    ensures { IfOk result (λ _. AreReady desk.now party.new.feeder.pass party.new.worker.pass party.new.left party.new.jobs.items) }
{
    assert!(rt; 0 < i && 0 < j);
    let (first, second) = (RowNo::of(i), RowNo::of(j));
    assert!(rt; first != second);
    let refutation = refute_again(rt, desk, &mut party.worker, first, second)?;
    Ok(refutation)
}

fn refute_again<R: Wait>(
    rt: &R,
    desk: &Desk,
    worker: &mut WorkerPass,
    i: RowNo,
    j: RowNo,
) -> Result<Refutation, AllocError>
    requires own { IsAt desk.now worker.old.pass }
    requires different { i ≢ j }
    ensures own { IsAt desk.now worker.new.pass }
    ensures drawn { (job : JobParts) → WasDrawn desk.now worker.old.pass job → WasDrawn desk.now worker.new.pass job }
{
    match desk.refute(rt, worker, i, j) {
        Ok(refutation) => Ok(refutation),
        Err(_) => desk.refute(rt, worker, i, j),
    }
}

// The feeder applies a batch.
pub fn apply<R: Wait + Abort>(
    rt: &R,
    desk: &Desk,
    party: &mut Party,
    batch: Batch,
) -> Result<Applying, AllocError>
    requires { AreReady desk.now party.old.feeder.pass party.old.worker.pass party.old.left party.old.jobs.items }
    ensures { IfOk result (λ _. AreReady desk.now party.new.feeder.pass party.new.worker.pass party.new.left party.new.jobs.items) }
{
    assert!(rt; are_as_wide(&batch, 2));
    match desk.apply(rt, &mut party.feeder, batch) {
        Ok(applying) => Ok(applying),
        Err(NoMemory(again)) => apply_again(rt, desk, party, again),
    }
}

fn apply_again<R: Wait + Abort>(
    rt: &R,
    desk: &Desk,
    party: &mut Party,
    batch: Batch,
) -> Result<Applying, AllocError>
    requires { AreReady desk.now party.old.feeder.pass party.old.worker.pass party.old.left party.old.jobs.items }
    ensures { IfOk result (λ _. AreReady desk.now party.new.feeder.pass party.new.worker.pass party.new.left party.new.jobs.items) }
{
    assert!(rt; are_as_wide(&batch, 2));
    match desk.apply(rt, &mut party.feeder, batch) {
        Ok(applying) => Ok(applying),
        Err(_) => Err(AllocError),
    }
}

// The feeder hires a pass, which the worker joins, so that the worker knows what the feeder did.
pub fn meet<R: Abort>(rt: &R, desk: &Desk, party: &mut Party)
    requires { AreReady desk.now party.old.feeder.pass party.old.worker.pass party.old.left party.old.jobs.items }
    ensures { AreReady desk.now party.new.feeder.pass party.new.worker.pass party.new.left party.new.jobs.items }
{
    assert!(rt; 1 < party.left);
    let at = party.left - 1;
    let messenger = desk.hire(&mut party.feeder, at);
    party.left = at;
    desk.join(&mut party.worker, messenger);
}

// A job that was drawn, once more.
fn job_again(desk: &Desk, party: &Party, place: usize) -> Result<Option<Job>, AllocError>
    requires { AreReady desk.now party.now.feeder.pass party.now.worker.pass party.now.left party.now.jobs.items }
    ensures { IfOk result (λ job. IfSome job (WasDrawn desk.now party.now.worker.pass)) }
{
    match party.jobs.get(place) {
        Some(job) => Ok(Some(job.again()?)),
        None => Ok(None),
    }
}

// Validates a job of which the dependency holds, and marks it.
pub fn mark<R: Wait + Abort>(
    rt: &R,
    alloc: Global,
    desk: &Desk,
    party: &mut Party,
    place: usize,
) -> Result<Option<Marking>, AllocError>
    requires { AreReady desk.now party.old.feeder.pass party.old.worker.pass party.old.left party.old.jobs.items }
    ensures { IfOk result (λ _. AreReady desk.now party.new.feeder.pass party.new.worker.pass party.new.left party.new.jobs.items) }
{
    match job_again(desk, party, place)? {
        Some(job) => {
            let valid = is_valid::<Brand>(alloc, &job, Blank::new(1))?;
            assert!(rt; valid);
            Ok(Some(desk.mark(rt, &mut party.worker, job)))
        }
        None => Ok(None),
    }
}

// Gives a job back.
pub fn release<R: Wait>(
    rt: &R,
    desk: &Desk,
    party: &mut Party,
    place: usize,
) -> Result<Option<Release>, AllocError>
    requires { AreReady desk.now party.old.feeder.pass party.old.worker.pass party.old.left party.old.jobs.items }
    ensures { IfOk result (λ _. AreReady desk.now party.new.feeder.pass party.new.worker.pass party.new.left party.new.jobs.items) }
{
    match job_again(desk, party, place)? {
        Some(job) => Ok(Some(desk.release(rt, &mut party.worker, job))),
        None => Ok(None),
    }
}

// Whether a settle answers that this candidate, known to hold below a number, is the first unfinished one.
pub fn waits<R: Wait>(
    rt: &R,
    desk: &Desk,
    party: &mut Party,
    target: Target,
    left: ColSet,
    number: u32,
) -> Result<bool, AllocError>
    requires { AreReady desk.now party.old.feeder.pass party.old.worker.pass party.old.left party.old.jobs.items }
    ensures { IfOk result (λ _. AreReady desk.now party.new.feeder.pass party.new.worker.pass party.new.left party.new.jobs.items) }
{
    let settling = desk.settle(rt, &mut party.worker)?;
    Ok(waits_for(&settling, target, left, number))
}
