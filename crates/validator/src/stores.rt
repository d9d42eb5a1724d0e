// Stores of one snapshot for several threads.
ghost use Rattle.std.specs.Prelude.{◌≡◌, ◌<◌, [], length, true, IfOk};
ghost use Rattle.std.specs.List.{All};
ghost use Rattle.rel_base.specs.Shows.{holds_in};
ghost use Rattle.validator.specs.Stores.{AreOf};
ghost use Rattle.validator.specs.Verdicts.{IsFitting, IsVerdict};
ghost use Rattle.validator.specs.declared.verdict.Verdict.TheVariants.{Broken};
ghost use denote.Param.Send.{IsSync};

use crate::{OldGroups, Store};
use rel_base::{Job, RowNo, Snapshot, Steps};
use std::alloc::{AllocError, Global};
use std::mem;
use std::sync::Arc;
use std::sync::ledger::{Blank, Ledger};
use std::thread::{Threads, join_mut};

// How many row numbers a store keeps, 4 bytes each; further stores have together as much again.
const ROOM: usize = 1 << 25;

/// The store of one thread, and one more of the same snapshot for each further thread that works beside it.
///
/// Each thread borrows a store as it is, so both fields can be reached, and contracts say of which snapshot they are.
#[derive(Drop)]
pub struct Stores {
    pub own: Store,
    pub others: Vec<Store>,
}

impl Stores {
    /// An empty store for a snapshot, and no other.
    pub fn of(alloc: Global, snapshot: &Arc<Snapshot>) -> Result<Stores, AllocError>
        ensures { IfOk result (AreOf snapshot.now.value) }
    {
        Ok(Stores {
            own: store_of(alloc, snapshot)?,
            others: Vec::new(alloc),
        })
    }

    /// Makes further stores until there are so many in all. They share what the own one keeps (`Store::another`), and of its room each
    /// has a part for what it makes itself.
    pub fn spread(&mut self, alloc: Global, workers: u8) -> Result<(), AllocError>
        requires { AreOf self.old.own self.old }
        ensures { AreOf self.old.own self.new }
    {
        let room = ROOM / workers.max(1) as usize;
        for _ in self.others.len().saturating_add(1)..workers as usize {
            let other = self.own.another(alloc, room)?;
            self.others.push(other)?;
        }
        Ok(())
    }

    /// Hands round what the stores keep: each shares what the others made since it was last called, as far as it lacks it and may keep so
    /// many partitions. So what one thread has made serves all that work after this call.
    ///
    /// It copies no groups, and what is shared comes on top of a store's room. It takes a look-up for each new partition and each
    /// store, those of the further stores by a thread each. What the stores made on their way and may not keep goes where there is
    /// something to share. After want of memory they are as useful as before.
    pub fn level<R: Threads + Sync>(&mut self, rt: &R) -> Result<(), AllocError>
        requires { AreOf self.old.own self.old }
        ensures { AreOf self.old.own self.new }
    {
        for k in 0..self.others.len() {
            self.own.take_over(&self.others[k])?;
        }
        levelled_by(rt, &self.own, self.others.as_mut_slice())?;
        self.own.end_levelling();
        Ok(())
    }

    /// Hands out all stores, one to each of so many places as far as they go, and keeps an empty one. After want of memory it may have
    /// lost some.
    pub fn lend(
        &mut self,
        alloc: Global,
        snapshot: &Arc<Snapshot>,
        places: usize,
    ) -> Result<Vec<Option<Store>>, AllocError>
        requires { AreOf snapshot.now.value self.old }
        ensures { AreOf snapshot.now.value self.new }
    {
        let mut lent = Vec::with_capacity(alloc, places)?;
        let empty = store_of(alloc, snapshot)?;
        let mut others = mem::replace(&mut self.others, Vec::new(alloc));
        lent.push(Some(mem::replace(&mut self.own, empty)))?;
        for _ in 1..places {
            lent.push(others.pop())?;
        }
        Ok(lent)
    }

    /// Takes back what was lent, for this snapshot, as far as there is memory for it.
    pub fn take_back(
        &mut self,
        alloc: Global,
        snapshot: &Arc<Snapshot>,
        lent: Vec<Option<Store>>,
    ) -> Result<(), AllocError>
        requires { AreOf snapshot.now.value self.old }
        ensures { AreOf snapshot.now.value self.new }
    {
        let mut is_first = true;
        for place in lent {
            if let Some(mut store) = place {
                store.renew(alloc, snapshot.clone()?);
                if is_first {
                    self.own = store;
                    is_first = false;
                } else {
                    self.others.push(store)?;
                }
            }
        }
        Ok(())
    }

    /// Goes over to another snapshot, with the own store alone (`Store::renew`).
    pub fn renew(&mut self, alloc: Global, snapshot: Arc<Snapshot>) -> OldGroups
        ensures { AreOf snapshot.value self.new }
    {
        self.others.clear();
        self.own.renew(alloc, snapshot)
    }
}

// Has each of these stores share what another one keeps, beside each other.
#[cycle(halves)]
fn levelled_by<R: Threads + Sync>(
    rt: &R,
    own: &Store,
    others: &mut [Store],
) -> Result<(), AllocError>
    requires { All (λ store. store ≡ own.now) others.old }
    ensures { All (λ store. store ≡ own.now) others.new }
{
    let count = others.len();
    if count < 2 {
        return levelled(own, others);
    }
    let (few, rest) = others.split_at_mut(count / 2);
    both_levelled(rt, own, few, rest)
}

// A function of its own, so that what the closures require is what it is given.
#[cycle(halves)]
fn both_levelled<R: Threads + Sync>(
    rt: &R,
    own: &Store,
    few: &mut [Store],
    others: &mut [Store],
) -> Result<(), AllocError>
    requires some { 0 < length few.old }
    requires more { 0 < length others.old }
    requires few { All (λ store. store ≡ own.now) few.old }
    requires others { All (λ store. store ≡ own.now) others.old }
    ensures few { All (λ store. store ≡ own.now) few.new }
    ensures others { All (λ store. store ≡ own.now) others.new }
{
    let mut first = || -> Result<(), AllocError>
        requires { IsSync R.row × All (λ store. store ≡ own.now) few.now }
        ensures { All (λ store. store ≡ own.entry.now) few.exit.now }
    { levelled_by(rt, own, few) };
    let mut second = || -> Result<(), AllocError>
        requires { IsSync R.row × All (λ store. store ≡ own.now) others.now }
        ensures { All (λ store. store ≡ own.entry.now) others.exit.now }
    { levelled_by(rt, own, others) };
    let (first, second) = join_mut(rt, &mut first, &mut second);
    first?;
    second
}

// Has each of these stores share what another one keeps, one after another.
fn levelled(own: &Store, others: &mut [Store]) -> Result<(), AllocError>
    requires { All (λ store. store ≡ own.now) others.old }
    ensures { All (λ store. store ≡ own.now) others.new }
{
    for k in 0..others.len() {
        others[k].take_over(own)?;
        others[k].end_levelling();
    }
    Ok(())
}

// An empty store for a snapshot.
fn store_of(alloc: Global, snapshot: &Arc<Snapshot>) -> Result<Store, AllocError>
    ensures { IfOk result (λ store. store ≡ snapshot.now.value) }
{
    Ok(Store::of(alloc, snapshot.clone()?, ROOM))
}

/// Pairs of rows that break a job's dependency, up to so many and each from groups of their own: what `Store::violations` finds on a
/// store of the job's snapshot, in the same time, for whoever counts no steps. The blank is for the count that is let go of.
pub fn violations<L: Ledger>(
    store: &mut Store,
    alloc: Global,
    job: &Job,
    most: usize,
    blank: Blank,
) -> Result<Vec<(RowNo, RowNo)>, AllocError>
    requires name { blank.name ≡ L.name }
    requires parts { blank.parts ≡ L.parts }
    requires some { 0 < L.parts }
    requires most { 0 < most }
    requires same { store.old ≡ job.now.snapshot }
    requires fitting { IsFitting job.now }
    ensures pairs { IfOk result (λ pairs. All (λ pair. IsVerdict job.now (Broken pair.0 pair.1)) pairs.items) }
    ensures none { IfOk result (λ pairs. pairs.items ≡ [] → holds_in job.now.snapshot job.now.left job.now.target ≡ true) }
    ensures store { store.new ≡ store.old }
{
    let mut steps = Steps::<L>::none(blank);
    let pairs = store.violations(alloc, job, most, &mut steps)?;
    Ok(pairs)
}
