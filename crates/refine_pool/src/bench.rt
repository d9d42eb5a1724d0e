// What a worker validates with.
ghost use Rattle.std.specs.Prelude.{◌≡◌, ◌≢◌, ◌<◌, ◌⊎◌, [], true, length, Some, IfOk, IfSome, IsTrue};
ghost use Rattle.std.specs.List.{All};
ghost use Rattle.rel_base.specs.Alike.{Alike};
ghost use Rattle.rel_base.specs.Shows.{holds_in};
ghost use Rattle.cover_steps.specs.Laws.{live_count};
ghost use Rattle.validator.specs.Verdicts.{IsFitting};
ghost use Rattle.refine_pool.specs.Work.{AreDifferent, Serves};

use rel_base::{Job, RowNo, Snapshot, Steps};
use sampler::window;
use std::alloc::{AllocError, Global};
use std::marker::Brand;
use std::sync::Arc;
use std::sync::ledger::{Blank, Ledger};
use validator::Store;

// How many row numbers a store keeps, 4 bytes each.
const STORE_ROOM: usize = 1 << 25;

// How many pairs of rows are asked for where a dependency does not hold.
const MOST_VIOLATIONS: usize = 64;

// How many pairs of a window are compared.
const MOST_NEIGHBOURS: usize = 64;

/// Kept partitions of the rows of a job. They serve each job on the same rows.
#[derive(Drop)]
pub struct Bench {
    job: Job,
    store: Store,
    ghost same: { store ≡ job.snapshot },
}

impl Bench {
    // A bench for the rows of this job, which outlives it, of a store that served other rows, or of an empty one.
    fn of(alloc: Global, used: Option<Store>, job: &Job) -> Result<Bench, AllocError>
        ensures { IfOk result (λ bench. bench.job ≡ job.now) }
    {
        let rows = job.shared().clone()?;
        let store = match used {
            Some(store) => renewed(alloc, store, rows),
            None => Store::of(alloc, rows, STORE_ROOM),
        };
        let job = job.again()?;
        Ok(Bench { job, store })
    }

    /// Its store, for later work.
    pub fn into_store(self) -> Store {
        let Bench { store, .. } = self;
        store
    }

    // Whether the job tells of as many rows, below the same number, as the bench is for.
    fn is_for(&self, job: &Job) -> bool
        ensures { IsTrue result → (self.now.job.to ≡ job.now.to) × (live_count self.now.job.snapshot ≡ live_count job.now.snapshot) }
    {
        let (kept, asked) = (self.job.snapshot(), job.snapshot());
        self.job.to() == job.to() && kept.live_count() == asked.live_count()
    }

    /// The bench that is kept, where it serves the job, or else one for the job's rows, of the store that was kept or is spare.
    pub fn for_job(
        alloc: Global,
        kept: Option<Bench>,
        spare: &mut Option<Store>,
        job: &Job,
    ) -> Result<Bench, AllocError>
        requires { IfSome kept (λ bench. Serves bench.job job.now) }
        ensures one { IfOk result (λ bench. (kept ≡ Some bench) ⊎ (bench.job ≡ job.now)) }
        ensures alike { IfOk result (λ bench. Alike bench.job.snapshot job.now.snapshot) }
    {
        let Some(bench) = kept else {
            return Bench::of(alloc, spare.take(), job);
        };
        if bench.is_for(job) {
            return Ok(bench);
        }
        Bench::of(alloc, Some(bench.into_store()), job)
    }

    /// Pairs of rows that break the job's dependency, from groups of their own, and none where it holds.
    pub fn violations(
        &mut self,
        alloc: Global,
        job: &Job,
    ) -> Result<Vec<(RowNo, RowNo)>, AllocError>
        requires alike { Alike self.old.job.snapshot job.now.snapshot }
        requires fitting { IsFitting job.now }
        ensures pairs { IfOk result (λ pairs. AreDifferent pairs.items) }
        ensures none { IfOk result (λ pairs. pairs.items ≡ [] → holds_in job.now.snapshot job.now.left job.now.target ≡ true) }
        ensures job { self.new.job ≡ self.old.job }
    {
        violations_on::<Brand>(&mut self.store, alloc, job, Blank::new(1))
    }

    /// Pairs of rows with the same cell in a column, so many places apart among the rows that have it.
    pub fn neighbours(
        &self,
        alloc: Global,
        who: u32,
        distance: u32,
    ) -> Result<Vec<(RowNo, RowNo)>, AllocError>
        requires { 0 < distance }
        ensures { IfOk result (λ pairs. AreDifferent pairs.items) }
    {
        let snapshot = self.job.snapshot();
        let column = (who % u32::from(snapshot.columns())) as u8;
        let mut pairs = window(alloc, snapshot, column, distance)?;
        pairs.truncate(MOST_NEIGHBOURS);
        Ok(pairs)
    }
}

// A store that goes over to these rows.
fn renewed(alloc: Global, mut store: Store, rows: Arc<Snapshot>) -> Store
    ensures { result ≡ rows.value }
{
    store.renew(alloc, rows);
    store
}

// Steps are not counted.
fn violations_on<L: Ledger>(
    store: &mut Store,
    alloc: Global,
    job: &Job,
    blank: Blank,
) -> Result<Vec<(RowNo, RowNo)>, AllocError>
    requires name { blank.name ≡ L.name }
    requires parts { blank.parts ≡ L.parts }
    requires some { 0 < L.parts }
    requires alike { Alike store.old job.now.snapshot }
    requires fitting { IsFitting job.now }
    ensures pairs { IfOk result (λ pairs. AreDifferent pairs.items) }
    ensures none { IfOk result (λ pairs. pairs.items ≡ [] → holds_in job.now.snapshot job.now.left job.now.target ≡ true) }
    ensures store { store.new ≡ store.old }
{
    let mut steps = Steps::<L>::none(blank);
    let pairs = store.violations(alloc, job, MOST_VIOLATIONS, &mut steps)?;
    Ok(pairs)
}
