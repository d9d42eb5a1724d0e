// The rounds of a phase: workers beside the batches, and workers after them.
ghost use Rattle.std.specs.Prelude.{◌≡◌, ◌<◌, ◌≤◌, ◌*◌, ◌+◌, ◌++◌, ℕ, [], take, length, vec_capacity, IfSome};
ghost use Rattle.std.specs.List.{All};
ghost use denote.Param.Send.{IsSync};
ghost use Rattle.rel_base.specs.RowState.{width};
ghost use Rattle.rel_base.specs.Batches.{IsAsWide};
ghost use Rattle.cover_core.specs.Told.{IsTrueOf};
ghost use Rattle.desk_lock.specs.History.{GoesOn};
ghost use Rattle.desk_lock.specs.Views.{InHome};
ghost use Rattle.desk_lock.specs.Passes.{view};
ghost use Rattle.desk.specs.Desks.{opened_book, numbers, seen, IsAt};
ghost use Rattle.refine_pool.specs.Crews.{OnDone, Owns, IsPosted, TakesOver, WentOn, SettledLast, IsFed};

use crate::crew::{Ending, Posts, Shift, crew};
use crate::feeder::{Fed, feed};
use cover_core::{Applying, Known};
use desk::{Desk, FeederPass, WorkerPass};
use ports::Gate;
use rel_base::Batch;
use std::alloc::Global;
use std::sync::Wait;
use std::thread::{Threads, join};
use validator::Store;

// With more left sides than these for some target, turns without verdicts are for one worker.
const MANY_TURNS: usize = 64;

// Lets the workers work beside the batches, and where there are any, lets as many go on after them. It ends with want of memory
// where the feeder met it, or each worker of the last round.
pub fn rounds<R: Threads + Wait + Sync, G: Gate + Sync>(
    rt: &R,
    alloc: Global,
    desk: &Desk,
    feeder: FeederPass,
    batches: Vec<Batch>,
    replies: Vec<Applying>,
    workers: u32,
    gate: &G,
    known: Option<&Known>,
    lent: &mut [Option<Store>],
) -> Fed
    requires own { IsAt desk.now feeder.pass }
    requires numbers { Owns feeder.pass 0 (2 * workers + 1) × (numbers desk.now ≡ 2 * workers + 1) }
    requires fresh { seen feeder.pass ≡ [] }
    requires wide { All (All (IsAsWide (width (opened_book desk.now).rows))) batches.items }
    requires room { (replies.items ≡ []) × (length batches.items ≤ vec_capacity replies) }
    requires known { IfSome known (λ known. IsTrueOf (opened_book desk.now).rows known.now) }
    requires workers { (0 < workers) × (workers ≤ 16) }
    ensures own { IsAt desk.now result.pass.pass }
    ensures whole { (n : ℕ) → n < numbers desk.now → InHome (view result.pass.pass) n }
    ensures fed { IsFed desk.now result.pass.pass (take (length result.replies.items) batches.items) result.replies.items }
    ensures all { OnDone result.ending (length result.replies.items ≡ length batches.items) }
    ensures settled { OnDone result.ending (SettledLast (seen result.pass.pass)) }
{
    if batches.is_empty() {
        let hired = hands(workers, known);
        let first = 2 * workers + 1 - hired;
        return last_round(
            rt, alloc, desk, feeder, replies, first, hired, gate, known, lent,
        );
    }
    let fed = feeding_round(
        rt,
        alloc,
        desk,
        feeder,
        batches,
        replies,
        workers + 1,
        workers,
        gate,
        known,
        lent,
    );
    match fed.ending {
        Ending::Done => {
            let Fed { pass, replies, .. } = fed;
            last_round(
                rt, alloc, desk, pass, replies, 1, workers, gate, known, lent,
            )
        }
        Ending::NoMemory => fed,
    }
}

// How many of the workers are wanted where no batch comes. Where evidence was sought all verdicts are known, so what is left is turns
// alone. Many of them are made in a tenth of the time by one worker than by several, who wait for one another at each.
fn hands(workers: u32, known: Option<&Known>) -> u32
    requires { 0 < workers }
    ensures { (0 < result) × (result ≤ workers) }
{
    match known {
        Some(known) if known.is_long(MANY_TURNS) => 1,
        _ => workers,
    }
}

// Lets the workers work, with no batch to come.
fn last_round<R: Threads + Wait + Sync, G: Gate + Sync>(
    rt: &R,
    alloc: Global,
    desk: &Desk,
    mut feeder: FeederPass,
    replies: Vec<Applying>,
    first: u32,
    workers: u32,
    gate: &G,
    known: Option<&Known>,
    lent: &mut [Option<Store>],
) -> Fed
    requires own { IsAt desk.now feeder.pass }
    requires numbers { Owns feeder.pass 0 (first + workers) × (0 < first) }
    requires known { IfSome known (λ known. IsTrueOf (opened_book desk.now).rows known.now) }
    requires workers { (0 < workers) × (first + workers ≤ 64) }
    ensures own { IsAt desk.now result.pass.pass }
    ensures over { TakesOver feeder.pass result.pass.pass }
    ensures quiet { GoesOn (λ n. n ≡ 0) (seen feeder.pass) (seen result.pass.pass) }
    ensures replies { result.replies.items ≡ replies.items }
    ensures settled { OnDone result.ending (SettledLast (seen result.pass.pass)) }
{
    let worker = desk.hire(&mut feeder, first);
    let shift = crew(
        rt,
        alloc,
        desk,
        worker,
        Posts::of(first, workers),
        gate,
        known,
        lent,
    );
    let Shift { pass, ending } = shift;
    desk.join(&mut feeder, pass);
    Fed {
        pass: feeder,
        replies,
        ending,
    }
}

// Lets the workers work beside the batches.
fn feeding_round<R: Threads + Wait + Sync, G: Gate + Sync>(
    rt: &R,
    alloc: Global,
    desk: &Desk,
    mut feeder: FeederPass,
    batches: Vec<Batch>,
    replies: Vec<Applying>,
    first: u32,
    workers: u32,
    gate: &G,
    known: Option<&Known>,
    lent: &mut [Option<Store>],
) -> Fed
    requires own { IsAt desk.now feeder.pass }
    requires numbers { Owns feeder.pass 0 (first + workers) × (0 < first) }
    requires known { IfSome known (λ known. IsTrueOf (opened_book desk.now).rows known.now) }
    requires workers { (0 < workers) × (first + workers ≤ 64) }
    requires fresh { seen feeder.pass ≡ [] }
    requires wide { All (All (IsAsWide (width (opened_book desk.now).rows))) batches.items }
    requires room { (replies.items ≡ []) × (length batches.items ≤ vec_capacity replies) }
    ensures own { IsAt desk.now result.pass.pass }
    ensures numbers { Owns result.pass.pass 0 first }
    ensures over { TakesOver feeder.pass result.pass.pass }
    ensures fed { IsFed desk.now result.pass.pass (take (length result.replies.items) batches.items) result.replies.items }
    ensures all { OnDone result.ending (length result.replies.items ≡ length batches.items) }
{
    let worker = desk.hire(&mut feeder, first);
    let posts = Posts::of(first, workers);
    let (fed, shift) = join(
        rt,
        move || -> Fed
            requires { IsAt desk.now feeder.pass × (seen feeder.pass ≡ []) × All (All (IsAsWide (width (opened_book desk.now).rows))) batches.items × (replies.items ≡ []) × (length batches.items ≤ vec_capacity replies) }
            ensures { IsAt desk.entry.now result.pass.pass × WentOn feeder.pass result.pass.pass × IsFed desk.entry.now result.pass.pass (take (length result.replies.items) batches.items) result.replies.items × OnDone result.ending (length result.replies.items ≡ length batches.items) }
        { feed(rt, desk, feeder, batches, replies, gate) },
        move || -> Shift
            requires { IsSync R.row × IsSync G.row × IsAt desk.now worker.pass × IsPosted worker.pass posts × IfSome known (λ known. IsTrueOf (opened_book desk.now).rows known.now) }
            ensures { IsAt desk.entry.now result.pass.pass × TakesOver worker.pass result.pass.pass }
        { crew(rt, alloc, desk, worker, posts, gate, known, lent) },
    );
    let Fed {
        mut pass,
        replies,
        ending,
    } = fed;
    desk.join(&mut pass, shift.pass);
    Fed {
        pass,
        replies,
        ending,
    }
}
