// Verdicts on the candidates of a pass, by one thread or by several beside each other.
ghost use Rattle.std.specs.Prelude.{◌≡◌, ◌<◌, ◌≤◌, ◌++◌, [], length, IfOk, OnOk};
ghost use Rattle.std.specs.List.{All};
ghost use Rattle.rel_base.specs.CodeTable.{CodeTable};
ghost use Rattle.rel_base.specs.RowState.{RowState};
ghost use Rattle.cover_steps.specs.Evidences.{IsEvidence};
ghost use Rattle.cover_core.specs.Judged.{IsAsked, AreVerdicts};
ghost use Rattle.cover_core.specs.Waiting.{IsWanted};
ghost use Rattle.candidate_cover.specs.Cands.{width};
ghost use Rattle.cover_steps.specs.NewLists.{IsLeftBy};
ghost use Rattle.validator.specs.Stores.{AreOf};
ghost use denote.Param.Send.{IsSync};

use crate::queue::{Queue, Share};
use crate::sought::{Wanted, collected, collected_by};
use crate::waiting::{Waiting, count};
use candidate_cover::CandidateCover;
use cover_steps::evidence::Evidence;
use cover_steps::new_lists::{NewLists, drafted, drafted_by};
use cover_steps::recent::Recent;
use cover_steps::seen::Seen;
use least_sets::Draft;
use ports::{Gate, Point};
use rel_base::{Job, Snapshot};
use row_log::RowLog;
use sampler::{push_unseen, sampled, sampled_by};
use std::alloc::{AllocError, Global};
use std::marker::Brand;
use std::slice;
use std::sync::Arc;
use std::sync::atomic::AtomicUsize;
use std::sync::ledger::Blank;
use std::thread::{Threads, join_mut};
use validator::{Order, Store, Stores, violations};

// How many pairs of rows a pass asks for where a dependency does not hold.
const MOST_VIOLATIONS: usize = 64;

// So many candidates are validated between two passes of the gate, at most.
const PART: usize = 1 << 16;

// What a new agree set leaves takes a look at each candidate, and at so many at least.
const LOOKS_AN_AGREE_SET: usize = 1 << 13;

// The number of who seeks, at the gate.
const SEEKER: u32 = 0;

// The candidates that hold, and evidence against others: of all that was told, what had not been seen lately.
#[derive(Drop)]
pub(crate) struct Verdicts {
    pub(crate) held: Vec<Waiting>,
    pub(crate) found: Vec<Evidence>,
    pub(crate) told: usize,
    recent: Recent,
    seen: Seen,
}

impl Verdicts {
    fn none(alloc: Global) -> Verdicts
        ensures held { result.held.items ≡ [] }
        ensures found { result.found.items ≡ [] }
    {
        Verdicts {
            held: Vec::new(alloc),
            found: Vec::new(alloc),
            told: 0,
            recent: Recent::none(alloc),
            seen: Seen::none(alloc),
        }
    }
}

// Who makes the verdicts of a pass.
pub(crate) trait Judges {
    // What it needs of the threads that it has.
    ghost ready: { Type 0 };

    // Validates candidates on the stores of a snapshot of the rows. It passes over those that evidence just found refutes.
    fn judged(
        &self,
        alloc: Global,
        rows: &RowLog,
        snapshot: &Arc<Snapshot>,
        list: &[Waiting],
        stores: &mut Stores,
    ) -> Result<Verdicts, AllocError>
        requires ready { ready }
        requires same { AreOf snapshot.now.value stores.old }
        requires asked { All (IsAsked rows.now snapshot.now.value) list.now }
        ensures verdicts { IfOk result (AreVerdicts rows.now snapshot.now.value) }
        ensures same { AreOf snapshot.now.value stores.new };

    // What pairs of rows agree on that are compared before any candidate is validated.
    fn sampled(
        &self,
        alloc: Global,
        rows: &RowLog,
        snapshot: &Snapshot,
    ) -> Result<Vec<Evidence>, AllocError>
        requires ready { ready }
        ensures { IfOk result (λ found. All (IsEvidence rows.now) found.items) };

    // What is wanted of all targets, in the order of verdicts.
    fn collected(
        &self,
        alloc: Global,
        wanted: &Wanted<'_>,
        order: &Order,
    ) -> Result<Vec<Waiting>, AllocError>
        requires ready { ready }
        ensures { IfOk result (λ list. All (IsWanted wanted.now) list.items) };

    // What a draft with so many new agree sets leaves of the candidates.
    fn drafted(
        &self,
        alloc: Global,
        candidates: &CandidateCover,
        draft: &Draft,
        news: usize,
    ) -> Result<NewLists, AllocError>
        requires ready { ready }
        requires width { draft.now.width ≡ width candidates.now }
        ensures { IfOk result (IsLeftBy candidates.now draft.now.agree_sets) };
}

// The thread of the caller and no other.
#[derive(Drop)]
pub(crate) struct Alone;

impl Judges for Alone {
    ghost ready = { Unit {0} };

    fn judged(
        &self,
        alloc: Global,
        rows: &RowLog,
        snapshot: &Arc<Snapshot>,
        list: &[Waiting],
        stores: &mut Stores,
    ) -> Result<Verdicts, AllocError> {
        judged(alloc, rows, snapshot, list, &mut stores.own)
    }

    fn collected(
        &self,
        alloc: Global,
        wanted: &Wanted<'_>,
        order: &Order,
    ) -> Result<Vec<Waiting>, AllocError> {
        collected(alloc, wanted, order, &AtomicUsize::new(0))
    }

    fn sampled(
        &self,
        alloc: Global,
        rows: &RowLog,
        snapshot: &Snapshot,
    ) -> Result<Vec<Evidence>, AllocError> {
        sampled(alloc, rows, snapshot)
    }

    fn drafted(
        &self,
        alloc: Global,
        candidates: &CandidateCover,
        draft: &Draft,
        _news: usize,
    ) -> Result<NewLists, AllocError> {
        drafted(alloc, candidates, draft)
    }
}

// So many threads at most beside each other, where there is so much work at least: rows of all verdicts, or looks at candidates.
#[derive(Drop)]
pub(crate) struct Beside<'a, R> {
    pub(crate) rt: &'a R,
    pub(crate) workers: u8,
    pub(crate) least: u64,
}

impl<'a, R: Threads + Sync> Judges for Beside<'a, R> {
    ghost ready = { IsSync R.row };

    fn judged(
        &self,
        alloc: Global,
        rows: &RowLog,
        snapshot: &Arc<Snapshot>,
        list: &[Waiting],
        stores: &mut Stores,
    ) -> Result<Verdicts, AllocError> {
        if (list.len() as u64).saturating_mul(snapshot.live_count().into()) < self.least {
            return judged(alloc, rows, snapshot, list, &mut stores.own);
        }
        stores.spread(alloc, self.workers)?;
        if stores.others.is_empty() {
            return judged(alloc, rows, snapshot, list, &mut stores.own);
        }
        let queue = Queue::of(alloc, list, stores.others.len().saturating_add(1))?;
        let own = slice::from_mut(&mut stores.own);
        let others = stores.others.as_mut_slice();
        let verdicts = both_halves(self.rt, alloc, rows, snapshot, &queue, own, others)?;
        // Stores that share less, for want of memory, are as right.
        drop(stores.level(self.rt));
        Ok(verdicts)
    }

    fn collected(
        &self,
        alloc: Global,
        wanted: &Wanted<'_>,
        order: &Order,
    ) -> Result<Vec<Waiting>, AllocError> {
        let taken = AtomicUsize::new(0);
        if wanted.are_few() {
            return collected(alloc, wanted, order, &taken);
        }
        collected_by(self.rt, alloc, wanted, order, &taken, self.workers)
    }

    fn sampled(
        &self,
        alloc: Global,
        rows: &RowLog,
        snapshot: &Snapshot,
    ) -> Result<Vec<Evidence>, AllocError> {
        sampled_by(self.rt, alloc, rows, snapshot, self.workers)
    }

    fn drafted(
        &self,
        alloc: Global,
        candidates: &CandidateCover,
        draft: &Draft,
        news: usize,
    ) -> Result<NewLists, AllocError> {
        let looks = count(candidates).max(LOOKS_AN_AGREE_SET) as u64;
        if (news as u64).saturating_mul(looks) < self.least {
            return drafted(alloc, candidates, draft);
        }
        drafted_by(self.rt, alloc, candidates, draft, self.workers)
    }
}

// Validates candidates part by part, and passes the gate after each.
pub(crate) fn judged_by_parts<J: Judges, G: Gate>(
    judges: &J,
    gate: &G,
    alloc: Global,
    rows: &RowLog,
    snapshot: &Arc<Snapshot>,
    list: &[Waiting],
    stores: &mut Stores,
) -> Result<Verdicts, AllocError>
    requires ready { J.ready }
    requires same { AreOf snapshot.now.value stores.old }
    requires asked { All (IsAsked rows.now snapshot.now.value) list.now }
    ensures verdicts { IfOk result (AreVerdicts rows.now snapshot.now.value) }
    ensures same { AreOf snapshot.now.value stores.new }
{
    let mut all = Verdicts::none(alloc);
    let mut rest = list;
    while !rest.is_empty() {
        let (part, later) = rest.split_at(rest.len().min(PART));
        let judged = judges.judged(alloc, rows, snapshot, part, stores)?;
        all = together(all, judged)?;
        gate.at(SEEKER, Point::Sought { left: later.len() });
        rest = later;
    }
    Ok(all)
}

// Validates candidates one after another on a store of the snapshot.
fn judged(
    alloc: Global,
    rows: &RowLog,
    snapshot: &Arc<Snapshot>,
    list: &[Waiting],
    store: &mut Store,
) -> Result<Verdicts, AllocError>
    requires same { store.old ≡ snapshot.now.value }
    requires asked { All (IsAsked rows.now snapshot.now.value) list.now }
    ensures verdicts { IfOk result (AreVerdicts rows.now snapshot.now.value) }
    ensures store { store.new ≡ store.old }
{
    let mut all = Verdicts::none(alloc);
    judge_all(alloc, rows, snapshot, list, store, &mut all)?;
    Ok(all)
}

// Validates candidates one after another, but for those that evidence just found refutes.
fn judge_all(
    alloc: Global,
    rows: &RowLog,
    snapshot: &Arc<Snapshot>,
    list: &[Waiting],
    store: &mut Store,
    all: &mut Verdicts,
) -> Result<(), AllocError>
    requires same { store.old ≡ snapshot.now.value }
    requires asked { All (IsAsked rows.now snapshot.now.value) list.now }
    requires verdicts { AreVerdicts rows.now snapshot.now.value all.old }
    ensures verdicts { OnOk result (AreVerdicts rows.now snapshot.now.value all.new) }
    ensures store { store.new ≡ store.old }
{
    for waiting in list {
        judge_unless_told(alloc, rows, snapshot, waiting, store, all)?;
    }
    Ok(())
}

// Validates candidates that it takes from a queue, until none is left: those of shares that it begins, and then, so that none waits long for
// the last one, those of shares that others are at.
fn judged_in_turn(
    alloc: Global,
    rows: &RowLog,
    snapshot: &Arc<Snapshot>,
    queue: &Queue<'_>,
    store: &mut Store,
) -> Result<Verdicts, AllocError>
    requires same { store.old ≡ snapshot.now.value }
    requires asked { All (IsAsked rows.now snapshot.now.value) queue.now.list.now }
    ensures verdicts { IfOk result (AreVerdicts rows.now snapshot.now.value) }
    ensures store { store.new ≡ store.old }
{
    let mut all = Verdicts::none(alloc);
    for _ in 0..queue.shares.len() {
        let Some(share) = queue.begin() else {
            break;
        };
        judge_share(alloc, rows, snapshot, queue, share, store, &mut all)?;
    }
    for share in queue.shares.iter().rev() {
        judge_share(alloc, rows, snapshot, queue, share, store, &mut all)?;
    }
    Ok(all)
}

// Validates candidates of a share, until none is left that another thread has not taken.
fn judge_share(
    alloc: Global,
    rows: &RowLog,
    snapshot: &Arc<Snapshot>,
    queue: &Queue<'_>,
    share: &Share,
    store: &mut Store,
    all: &mut Verdicts,
) -> Result<(), AllocError>
    requires same { store.old ≡ snapshot.now.value }
    requires asked { All (IsAsked rows.now snapshot.now.value) queue.now.list.now }
    requires verdicts { AreVerdicts rows.now snapshot.now.value all.old }
    ensures verdicts { OnOk result (AreVerdicts rows.now snapshot.now.value all.new) }
    ensures store { store.new ≡ store.old }
{
    for _ in share.start..share.end {
        let Some(waiting) = queue.take(share) else {
            break;
        };
        judge_unless_told(alloc, rows, snapshot, &waiting, store, all)?;
    }
    Ok(())
}

// Validates a candidate, but for one that evidence just found refutes.
fn judge_unless_told(
    alloc: Global,
    rows: &RowLog,
    snapshot: &Arc<Snapshot>,
    waiting: &Waiting,
    store: &mut Store,
    all: &mut Verdicts,
) -> Result<(), AllocError>
    requires same { store.old ≡ snapshot.now.value }
    requires asked { IsAsked rows.now snapshot.now.value waiting.now }
    requires verdicts { AreVerdicts rows.now snapshot.now.value all.old }
    ensures verdicts { OnOk result (AreVerdicts rows.now snapshot.now.value all.new) }
    ensures store { store.new ≡ store.old }
{
    if !all.recent.tells(waiting.target, waiting.cand.left) {
        judge(alloc, rows, snapshot, *waiting, store, all)?;
    }
    Ok(())
}

// Validates a candidate: it is one more that holds, or there is more evidence.
fn judge(
    alloc: Global,
    rows: &RowLog,
    snapshot: &Arc<Snapshot>,
    waiting: Waiting,
    store: &mut Store,
    all: &mut Verdicts,
) -> Result<(), AllocError>
    requires same { store.old ≡ snapshot.now.value }
    requires asked { IsAsked rows.now snapshot.now.value waiting }
    requires verdicts { AreVerdicts rows.now snapshot.now.value all.old }
    ensures verdicts { OnOk result (AreVerdicts rows.now snapshot.now.value all.new) }
    ensures store { store.new ≡ store.old }
{
    let cand = waiting.cand;
    let job = Job::of(
        waiting.target,
        cand.left,
        cand.upto,
        rows.next(),
        snapshot.clone()?,
    );
    let pairs = violations::<Brand>(store, alloc, &job, MOST_VIOLATIONS, Blank::new(1))?;
    if pairs.is_empty() {
        all.held.push(waiting)?;
        return Ok(());
    }
    let known = all.found.len();
    all.told = all.told.saturating_add(pairs.len());
    push_unseen(rows, pairs.as_slice(), &mut all.seen, &mut all.found)?;
    all.recent.note(&all.found[known..]);
    Ok(())
}

// A thread for each store takes candidates from a queue. Which thread takes which is left to chance, and so is which evidence is found.
#[cycle(halves)]
fn judged_by<R: Threads + Sync>(
    rt: &R,
    alloc: Global,
    rows: &RowLog,
    snapshot: &Arc<Snapshot>,
    queue: &Queue<'_>,
    stores: &mut [Store],
) -> Result<Verdicts, AllocError>
    requires some { 0 < length stores.old }
    requires same { All (λ store. store ≡ snapshot.now.value) stores.old }
    requires asked { All (IsAsked rows.now snapshot.now.value) queue.now.list.now }
    ensures verdicts { IfOk result (AreVerdicts rows.now snapshot.now.value) }
    ensures same { All (λ store. store ≡ snapshot.now.value) stores.new }
{
    let count = stores.len();
    if count < 2 {
        return judged_in_turn(alloc, rows, snapshot, queue, &mut stores[0]);
    }
    let (first, others) = stores.split_at_mut(count / 2);
    both_halves(rt, alloc, rows, snapshot, queue, first, others)
}

// A function of its own, so that what the closures require is what it is given.
#[cycle(halves)]
fn both_halves<R: Threads + Sync>(
    rt: &R,
    alloc: Global,
    rows: &RowLog,
    snapshot: &Arc<Snapshot>,
    queue: &Queue<'_>,
    few: &mut [Store],
    others: &mut [Store],
) -> Result<Verdicts, AllocError>
    requires some { 0 < length few.old }
    requires more { 0 < length others.old }
    requires few { All (λ store. store ≡ snapshot.now.value) few.old }
    requires others { All (λ store. store ≡ snapshot.now.value) others.old }
    requires asked { All (IsAsked rows.now snapshot.now.value) queue.now.list.now }
    ensures verdicts { IfOk result (AreVerdicts rows.now snapshot.now.value) }
    ensures few { All (λ store. store ≡ snapshot.now.value) few.new }
    ensures others { All (λ store. store ≡ snapshot.now.value) others.new }
{
    let mut first = || -> Result<Verdicts, AllocError>
        requires { IsSync R.row × (0 < length few.now) × All (λ store. store ≡ snapshot.now.value) few.now × All (IsAsked rows.now snapshot.now.value) queue.now.list.now }
        ensures verdicts { IfOk result (AreVerdicts rows.entry.now snapshot.entry.now.value) }
        ensures same { All (λ store. store ≡ snapshot.entry.now.value) few.exit.now }
    { judged_by(rt, alloc, rows, snapshot, queue, few) };
    let mut second = || -> Result<Verdicts, AllocError>
        requires { IsSync R.row × (0 < length others.now) × All (λ store. store ≡ snapshot.now.value) others.now × All (IsAsked rows.now snapshot.now.value) queue.now.list.now }
        ensures verdicts { IfOk result (AreVerdicts rows.entry.now snapshot.entry.now.value) }
        ensures same { All (λ store. store ≡ snapshot.entry.now.value) others.exit.now }
    { judged_by(rt, alloc, rows, snapshot, queue, others) };
    let (first, second) = join_mut(rt, &mut first, &mut second);
    let all = together(first?, second?)?;
    Ok(all)
}

// What one half and the other half tell.
fn together(first: Verdicts, second: Verdicts) -> Result<Verdicts, AllocError>
    ensures held { IfOk result (λ all. all.held.items ≡ first.held.items ++ second.held.items) }
    ensures found { IfOk result (λ all. all.found.items ≡ first.found.items ++ second.found.items) }
{
    let mut all = first;
    all.told = all.told.saturating_add(second.told);
    let (mut more, mut others) = (second.held, second.found);
    all.held.append(&mut more)?;
    all.found.append(&mut others)?;
    Ok(all)
}
