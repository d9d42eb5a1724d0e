// As many workers as there are posts, hired by halves.
ghost use Rattle.std.specs.Prelude.{◌≡◌, ◌⊎◌, ◌≤◌, ◌+◌, IfSome};
ghost use denote.Param.Send.{IsSync};
ghost use Rattle.cover_core.specs.Told.{IsTrueOf};
ghost use Rattle.desk.specs.Desks.{opened_book, seen, IsAt};
ghost use Rattle.refine_pool.specs.declared.crew.Ending.TheVariants.{Done};
ghost use Rattle.refine_pool.specs.Crews.{IsPosted, OnDone, TakesOver, SettledAfter};

use crate::worker::work;
use cover_core::Known;
use desk::{Desk, WorkerPass};
use ports::Gate;
use std::alloc::Global;
use std::sync::Wait;
use std::thread::{Threads, join};
use validator::Store;

/// How a thread ended.
#[derive(Clone, Copy, Debug, PartialEq, Eq)]
pub enum Ending {
    /// It did all that there was to be done.
    Done,
    /// Memory ran out.
    NoMemory,
}

impl Ending {
    // Of two workers it is enough that one found all settled.
    fn or(self, other: Ending) -> Ending
        ensures { result ≡ Done → (self ≡ Done) ⊎ (other ≡ Done) }
    {
        match self {
            Ending::Done => Ending::Done,
            Ending::NoMemory => other,
        }
    }
}

/// What comes back of one worker or of many.
#[derive(Drop)]
pub struct Shift {
    pub pass: WorkerPass,
    pub ending: Ending,
}

/// The numbers from `low` to below `high`, each the place of a worker. The first of all workers has the number `first`.
#[derive(Clone, Copy)]
pub struct Posts {
    pub low: u32,
    pub high: u32,
    pub first: u32,
}

impl Posts {
    /// So many from the first on.
    pub fn of(first: u32, workers: u32) -> Posts
        requires { first + workers ≤ 64 }
        ensures { (result.low ≡ first) × (result.high ≡ first + workers) × (result.first ≡ first) }
    {
        Posts {
            low: first,
            high: first + workers,
            first,
        }
    }
}

/// A worker for each post. Their passes come back as one, and it ends well where one of them found all settled.
pub fn crew<R: Threads + Wait + Sync, G: Gate + Sync>(
    rt: &R,
    alloc: Global,
    desk: &Desk,
    mut pass: WorkerPass,
    posts: Posts,
    gate: &G,
    known: Option<&Known>,
    lent: &mut [Option<Store>],
) -> Shift
    requires own { IsAt desk.now pass.pass }
    requires posted { IsPosted pass.pass posts }
    requires known { IfSome known (λ known. IsTrueOf (opened_book desk.now).rows known.now) }
    ensures own { IsAt desk.now result.pass.pass }
    ensures over { TakesOver pass.pass result.pass.pass }
    ensures settled { OnDone result.ending (SettledAfter (seen pass.pass) (seen result.pass.pass)) }
{
    let Posts { low, high, first } = posts;
    let count = high - low;
    if count <= 1 {
        let who = low - first + 1;
        return match lent.first_mut() {
            Some(own) => work(rt, alloc, desk, pass, who, gate, known, own),
            None => work(rt, alloc, desk, pass, who, gate, known, &mut None),
        };
    }
    let middle = low + count / 2;
    let other = desk.split(&mut pass, middle);
    let lower = Posts {
        low,
        high: middle,
        first,
    };
    let upper = Posts {
        low: middle,
        high,
        first,
    };
    let few = lent.len().min((count / 2) as usize);
    let (low_lent, high_lent) = lent.split_at_mut(few);
    let (one, other) = join(
        rt,
        move || -> Shift
            requires { IsSync R.row × IsSync G.row × IsAt desk.now pass.pass × IsPosted pass.pass lower × IfSome known (λ known. IsTrueOf (opened_book desk.now).rows known.now) }
            ensures { IsAt desk.entry.now result.pass.pass × TakesOver pass.pass result.pass.pass × OnDone result.ending (SettledAfter (seen pass.pass) (seen result.pass.pass)) }
        { crew(rt, alloc, desk, pass, lower, gate, known, low_lent) },
        move || -> Shift
            requires { IsSync R.row × IsSync G.row × IsAt desk.now other.pass × IsPosted other.pass upper × IfSome known (λ known. IsTrueOf (opened_book desk.now).rows known.now) }
            ensures { IsAt desk.entry.now result.pass.pass × TakesOver other.pass result.pass.pass × OnDone result.ending (SettledAfter (seen other.pass) (seen result.pass.pass)) }
        { crew(rt, alloc, desk, other, upper, gate, known, high_lent) },
    );
    let ending = one.ending.or(other.ending);
    let mut pass = one.pass;
    desk.join(&mut pass, other.pass);
    Shift { pass, ending }
}
