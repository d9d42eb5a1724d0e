// Draws jobs at the desk until nothing is left, and delivers each verdict.
ghost use Rattle.std.specs.Prelude.{◌≡◌, ◌⊎◌, ◌<◌, [], true, IfOk, IfSome, IsTrue};
ghost use Rattle.std.specs.Bool.{OnTrue};
ghost use Rattle.validator.specs.Verdicts.{IsFitting};
ghost use Rattle.rel_base.specs.Shows.{holds_in};
ghost use Rattle.cover_core.specs.Told.{IsTrueOf};
ghost use Rattle.desk.specs.Desks.{opened_book, seen, IsAt, WasDrawn};
ghost use Rattle.refine_pool.specs.Crews.{OnDone, SettledAfter, WentOn};
ghost use Rattle.refine_pool.specs.Benches.{HasJob};
ghost use Rattle.refine_pool.specs.Work.{AreDifferent, IsRightOf, Serves};

use crate::bench::Bench;
use crate::crew::{Ending, Shift};
use cover_core::{Draw, Known, Refutation};
use desk::{Desk, WorkerPass};
use ports::{Gate, Point};
use rel_base::{Job, RowNo};
use std::alloc::{AllocError, Global};
use std::sync::Wait;
use std::thread::yield_now;
use validator::Store;

// The distances of windows stay below this one.
const MOST_DISTANCE: u32 = 1_000_000;

// What a worker keeps from one draw to the next.
#[derive(Drop)]
struct Hand {
    // There is one from the first job on of which the verdict was not known.
    bench: Option<Bench>,
    // A store for it, which was kept from other rows.
    spare: Option<Store>,
    // Where a verdict was last found among those that are known.
    near: usize,
    // That of its next window.
    distance: u32,
    ghost apart: { 0 < distance },
}

impl Hand {
    // What is left of it for later work.
    fn into_store(self) -> Option<Store> {
        let Hand { bench, spare, .. } = self;
        match bench {
            Some(bench) => Some(bench.into_store()),
            None => spare,
        }
    }
}

/// Draws, validates and books until a draw finds all settled, or memory is wanting. It begins with the store that it is lent, if it
/// is lent one, and leaves the one that it used.
pub fn work<R: Wait, G: Gate>(
    rt: &R,
    alloc: Global,
    desk: &Desk,
    mut pass: WorkerPass,
    who: u32,
    gate: &G,
    known: Option<&Known>,
    lent: &mut Option<Store>,
) -> Shift
    requires at { IsAt desk.now pass.pass }
    requires known { IfSome known (λ known. IsTrueOf (opened_book desk.now).rows known.now) }
    ensures own { IsAt desk.now result.pass.pass }
    ensures on { WentOn pass.pass result.pass.pass }
    ensures settled { OnDone result.ending (SettledAfter (seen pass.pass) (seen result.pass.pass)) }
{
    let mut hand = Hand {
        bench: None,
        spare: lent.take(),
        near: 0,
        distance: 1,
    };
    for _ in rt.forever() {
        let ending = match draw(rt, alloc, desk, &mut pass, &mut hand, who, gate, known) {
            Ok(false) => continue,
            Ok(true) => Ending::Done,
            Err(_) => Ending::NoMemory,
        };
        *lent = hand.into_store();
        return Shift { pass, ending };
    }
    unreachable!()
}

// Draws once, does what the answer asks for, and tells whether it was that all is settled.
fn draw<R: Wait, G: Gate>(
    rt: &R,
    alloc: Global,
    desk: &Desk,
    pass: &mut WorkerPass,
    hand: &mut Hand,
    who: u32,
    gate: &G,
    known: Option<&Known>,
) -> Result<bool, AllocError>
    requires own { IsAt desk.now pass.old.pass }
    requires known { IfSome known (λ known. IsTrueOf (opened_book desk.now).rows known.now) }
    requires bench { IfSome hand.old.bench (λ bench. WasDrawn desk.now pass.old.pass bench.job) }
    ensures own { IsAt desk.now pass.new.pass }
    ensures on { WentOn pass.old.pass pass.new.pass }
    ensures bench { IfSome hand.new.bench (λ bench. WasDrawn desk.now pass.new.pass bench.job) }
    ensures settled { IfOk result (λ settled. OnTrue settled (SettledAfter (seen pass.old.pass) (seen pass.new.pass))) }
{
    match desk.draw(rt, pass)? {
        Draw::Job(job) => {
            attend(rt, alloc, desk, pass, hand, who, gate, known, job)?;
            Ok(false)
        }
        Draw::Busy { .. } => {
            yield_now();
            look_around(rt, alloc, desk, pass, hand, who)?;
            Ok(false)
        }
        Draw::Settled => Ok(true),
    }
}

// Validates a job and books the verdict. For want of memory the job is given back.
fn attend<R: Wait, G: Gate>(
    rt: &R,
    alloc: Global,
    desk: &Desk,
    pass: &mut WorkerPass,
    hand: &mut Hand,
    who: u32,
    gate: &G,
    known: Option<&Known>,
    job: Job,
) -> Result<(), AllocError>
    requires own { IsAt desk.now pass.old.pass }
    requires drawn { WasDrawn desk.now pass.old.pass job }
    requires known { IfSome known (λ known. IsRightOf known.now job) }
    requires bench { IfSome hand.old.bench (λ bench. WasDrawn desk.now pass.old.pass bench.job) }
    requires serves { IfSome hand.old.bench (λ bench. Serves bench.job job) }
    ensures own { IsAt desk.now pass.new.pass }
    ensures on { WentOn pass.old.pass pass.new.pass }
    ensures bench { IfSome hand.new.bench (λ bench. WasDrawn desk.now pass.new.pass bench.job) }
{
    gate.at(who, Point::Drawn);
    match judge(alloc, hand, known, &job) {
        Ok(pairs) => {
            gate.at(who, Point::Judged);
            let booked = book(rt, desk, pass, job, pairs.as_slice());
            gate.at(who, Point::Booked);
            booked
        }
        Err(error) => {
            desk.release(rt, pass, job);
            Err(error)
        }
    }
}

// Whether what is known answers the job.
fn is_known(known: Option<&Known>, job: &Job, near: &mut usize) -> bool
    requires { IfSome known (λ known. IsRightOf known.now job.now) }
    ensures { IsTrue result → holds_in job.now.snapshot job.now.left job.now.target ≡ true }
{
    match known {
        Some(known) => known.answers(job, near),
        None => false,
    }
}

// Pairs of rows that break a job's dependency, and none where it holds. The bench stays as long as jobs tell of the same rows.
fn judge(
    alloc: Global,
    hand: &mut Hand,
    known: Option<&Known>,
    job: &Job,
) -> Result<Vec<(RowNo, RowNo)>, AllocError>
    requires known { IfSome known (λ known. IsRightOf known.now job.now) }
    requires fitting { IsFitting job.now }
    requires serves { IfSome hand.old.bench (λ bench. Serves bench.job job.now) }
    ensures pairs { IfOk result (λ pairs. AreDifferent pairs.items) }
    ensures none { IfOk result (λ pairs. pairs.items ≡ [] → holds_in job.now.snapshot job.now.left job.now.target ≡ true) }
    ensures bench { IfSome hand.new.bench (λ bench. (bench.job ≡ job.now) ⊎ HasJob hand.old.bench bench.job) }
{
    if is_known(known, job, &mut hand.near) {
        return Ok(Vec::new(alloc));
    }
    validate(alloc, hand, job)
}

// Pairs of rows that break a job's dependency, by a search. It stays out of the loop over draws, most of which take no search: a bench is
// moved here, which is large.
#[inline(never)]
fn validate(alloc: Global, hand: &mut Hand, job: &Job) -> Result<Vec<(RowNo, RowNo)>, AllocError>
    requires fitting { IsFitting job.now }
    requires serves { IfSome hand.old.bench (λ bench. Serves bench.job job.now) }
    ensures pairs { IfOk result (λ pairs. AreDifferent pairs.items) }
    ensures none { IfOk result (λ pairs. pairs.items ≡ [] → holds_in job.now.snapshot job.now.left job.now.target ≡ true) }
    ensures bench { IfSome hand.new.bench (λ bench. (bench.job ≡ job.now) ⊎ HasJob hand.old.bench bench.job) }
{
    let mut bench = Bench::for_job(alloc, hand.bench.take(), &mut hand.spare, job)?;
    let pairs = bench.violations(alloc, job);
    hand.bench = Some(bench);
    pairs
}

// Books a verdict: marks the job where no pair breaks its dependency, or else says what the pairs tell, and gives it back.
fn book<R: Wait>(
    rt: &R,
    desk: &Desk,
    pass: &mut WorkerPass,
    job: Job,
    pairs: &[(RowNo, RowNo)],
) -> Result<(), AllocError>
    requires own { IsAt desk.now pass.old.pass }
    requires drawn { WasDrawn desk.now pass.old.pass job }
    requires pairs { AreDifferent pairs.now }
    requires none { pairs.now ≡ [] → holds_in job.snapshot job.left job.target ≡ true }
    ensures own { IsAt desk.now pass.new.pass }
    ensures on { WentOn pass.old.pass pass.new.pass }
{
    if pairs.is_empty() {
        desk.mark(rt, pass, job);
        return Ok(());
    }
    let refuted = refute_all(rt, desk, pass, pairs);
    desk.release(rt, pass, job);
    refuted?;
    Ok(())
}

// Says what pairs of rows tell, and answers whether some of it was news.
#[inline(never)]
fn refute_all<R: Wait>(
    rt: &R,
    desk: &Desk,
    pass: &mut WorkerPass,
    pairs: &[(RowNo, RowNo)],
) -> Result<bool, AllocError>
    requires own { IsAt desk.now pass.old.pass }
    requires pairs { AreDifferent pairs.now }
    ensures own { IsAt desk.now pass.new.pass }
    ensures on { WentOn pass.old.pass pass.new.pass }
{
    let mut is_news = false;
    for pair in pairs {
        is_news |= desk.refute(rt, pass, pair.0, pair.1)? == Refutation::Booked;
    }
    Ok(is_news)
}

// Says what rows near each other tell, among those of the last job that it validated, where there was one. The next time it looks
// further, where this brought news.
#[inline(never)]
fn look_around<R: Wait>(
    rt: &R,
    alloc: Global,
    desk: &Desk,
    pass: &mut WorkerPass,
    hand: &mut Hand,
    who: u32,
) -> Result<(), AllocError>
    requires own { IsAt desk.now pass.old.pass }
    ensures own { IsAt desk.now pass.new.pass }
    ensures on { WentOn pass.old.pass pass.new.pass }
    ensures bench { hand.new.bench ≡ hand.old.bench }
{
    let distance = hand.distance;
    if distance >= MOST_DISTANCE {
        return Ok(());
    }
    let pairs = match &hand.bench {
        Some(bench) => bench.neighbours(alloc, who, distance)?,
        None => return Ok(()),
    };
    let is_news = refute_all(rt, desk, pass, pairs.as_slice())?;
    hand.distance = if is_news { distance + 1 } else { MOST_DISTANCE };
    Ok(())
}
