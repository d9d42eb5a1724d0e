// Threads beside each other.
ghost use Rattle.std.specs.Prelude.{◌≡◌, ◌<◌, ◌≤◌, IfOk};
ghost use Rattle.std.specs.List.{All};
ghost use Rattle.rel_base.specs.RowState.{width};
ghost use Rattle.rel_base.specs.Batches.{IsAsWide};
ghost use Rattle.desk_lock.specs.Passes.{view};
ghost use Rattle.desk.specs.Desks.{opened_book, IsAt, WasDrawn};

use super::{deletion, opened};
use cover_core::{Applying, Book, Draw, Release};
use desk::{Desk, FeederPass, NoMemory, WorkerPass};
use plain_base::are_as_wide;
use rel_base::{Batch, Job, Snapshot};
use std::alloc::{AllocError, Global};
use std::process::Abort;
use std::sync::{Arc, Wait};
use std::test::Fail;
use std::thread::{Threads, join};

// Gives a job back, and draws.
fn release_and_draw<R: Wait>(
    rt: &R,
    desk: &Desk,
    mut worker: WorkerPass,
    job: Job,
) -> (WorkerPass, Release, Result<Draw, AllocError>)
    requires own { IsAt desk.now worker.pass }
    requires drawn { WasDrawn desk.now worker.pass job }
    ensures { IsAt desk.now result.0.pass }
{
    let release = desk.release(rt, &mut worker, job);
    let draw = desk.draw(rt, &mut worker);
    (worker, release, draw)
}

// Applies a batch, and passes a snapshot on.
fn apply_and_pass<R: Wait>(
    rt: &R,
    desk: &Desk,
    mut feeder: FeederPass,
    batch: Batch,
    snapshot: Arc<Snapshot>,
) -> (FeederPass, Result<Applying, NoMemory<Batch>>, Arc<Snapshot>)
    requires own { IsAt desk.now feeder.pass }
    requires wide { All (IsAsWide (width (opened_book desk.now).rows)) batch }
    ensures { IsAt desk.now result.0.pass }
{
    let applied = desk.apply(rt, &mut feeder, batch);
    (feeder, applied, snapshot)
}

// What the two were answered.
#[derive(Drop)]
struct Met {
    feeder: FeederPass,
    worker: WorkerPass,
    applied: Result<Applying, NoMemory<Batch>>,
    snapshot: Arc<Snapshot>,
    release: Release,
    draw: Result<Draw, AllocError>,
}

// The feeder applies a batch while the worker gives its job back and draws.
fn both<R: Threads + Wait + Sync>(
    rt: &R,
    desk: &Desk,
    feeder: FeederPass,
    worker: WorkerPass,
    batch: Batch,
    job: Job,
    snapshot: Arc<Snapshot>,
) -> Met
    requires own { IsAt desk.now feeder.pass × IsAt desk.now worker.pass }
    requires drawn { WasDrawn desk.now worker.pass job }
    requires wide { All (IsAsWide (width (opened_book desk.now).rows)) batch }
    ensures { IsAt desk.now result.feeder.pass × IsAt desk.now result.worker.pass }
{
    let ((feeder, applied, snapshot), (worker, release, draw)) = join(
        rt,
        move || -> (FeederPass, Result<Applying, NoMemory<Batch>>, Arc<Snapshot>)
            requires { IsAt desk.now feeder.pass × All (IsAsWide (width (opened_book desk.now).rows)) batch }
            ensures { IsAt desk.entry.now result.0.pass }
        { apply_and_pass(rt, desk, feeder, batch, snapshot) },
        move || -> (WorkerPass, Release, Result<Draw, AllocError>)
            requires { IsAt desk.now worker.pass × WasDrawn desk.now worker.pass job }
            ensures { IsAt desk.entry.now result.0.pass }
        { release_and_draw(rt, desk, worker, job) },
    );
    Met {
        feeder,
        worker,
        applied,
        snapshot,
        release,
        draw,
    }
}

// A job that the worker draws.
fn drawn<R: Wait>(rt: &R, desk: &Desk, worker: &mut WorkerPass) -> Result<Job, AllocError>
    requires { IsAt desk.now worker.old.pass }
    ensures own { IsAt desk.now worker.new.pass }
    ensures drawn { IfOk result (WasDrawn desk.now worker.new.pass) }
{
    match desk.draw(rt, worker)? {
        Draw::Job(job) => Ok(job),
        _ => Err(AllocError),
    }
}

// Deletes a row while the worker gives a job back that it drew.
fn meet<R: Threads + Wait + Sync + Abort>(
    rt: &R,
    alloc: Global,
    desk: &Desk,
    feeder: FeederPass,
    mut worker: WorkerPass,
) -> Result<Met, AllocError>
    requires own { IsAt desk.now feeder.pass × IsAt desk.now worker.pass }
    requires wide { width (opened_book desk.now).rows ≡ 2 }
    ensures { IfOk result (λ met. IsAt desk.now met.feeder.pass × IsAt desk.now met.worker.pass) }
{
    let batch = deletion(rt, alloc, 2)?;
    assert!(rt; are_as_wide(&batch, 2));
    let job = drawn(rt, desk, &mut worker)?;
    let snapshot = job.shared().clone()?;
    Ok(both(rt, desk, feeder, worker, batch, job, snapshot))
}

// Whether the snapshot that was passed on has all rows, and the job was given back.
fn is_answered(met: &Met) -> bool {
    met.snapshot.live_count() == 3 && met.release == Release::Released
}

// How many rows are left.
fn left_of(met: &Met) -> u32 {
    if met.applied.is_ok() { 2 } else { 3 }
}

// The book of a desk, where its two passes are joined.
fn joined<R: Wait>(rt: &R, desk: Desk, mut feeder: FeederPass, worker: WorkerPass) -> Book
    requires { IsAt desk feeder.pass × IsAt desk worker.pass }
{
    desk.join(&mut feeder, worker);
    desk.close(rt, feeder)
}

// A missing proof that a type of the calls may move to another thread shows at a `join`.
#[test]
fn passes_jobs_and_batches_move_among_threads(rt: HostRuntime) -> Result<(), Fail> {
    let (desk, mut feeder) = opened(&rt, rt.alloc(), 2)?;
    let worker = desk.hire(&mut feeder, 1);
    let met = meet(&rt, rt.alloc(), &desk, feeder, worker)?;
    assert!(rt; is_answered(&met));
    let left = left_of(&met);
    let book = joined(&rt, desk, met.feeder, met.worker);
    assert!(rt; book.rows().live_len() == left);
    Ok(())
}

// Whether a draw answers a job.
fn draws<R: Wait>(rt: &R, desk: &Desk, worker: &mut WorkerPass) -> Result<bool, AllocError>
    requires { IsAt desk.now worker.old.pass }
    ensures { IsAt desk.now worker.new.pass }
{
    let draw = desk.draw(rt, worker)?;
    Ok(matches!(draw, Draw::Job(_)))
}

#[test]
fn a_split_pass_bears_its_own_number(rt: HostRuntime) -> Result<(), Fail> {
    let (desk, mut feeder) = opened(&rt, rt.alloc(), 4)?;
    let mut worker = desk.hire(&mut feeder, 2);
    let mut other = desk.split(&mut worker, 3);
    assert!(rt; draws(&rt, &desk, &mut worker)?);
    assert!(rt; draws(&rt, &desk, &mut other)?);
    desk.join(&mut worker, other);
    let book = joined(&rt, desk, feeder, worker);
    assert!(rt; !book.settled());
    Ok(())
}
