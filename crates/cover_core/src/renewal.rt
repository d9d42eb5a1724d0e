// What a batch of changes makes of the book, made before the first change.
ghost use Rattle.std.specs.Prelude.{◌≡◌, ◌<◌, IfOk, IsPermutation};
ghost use Rattle.rel_base.specs.CodeTable.{IsCodeTable};
ghost use Rattle.rel_base.specs.Shows.{Shows};
ghost use Rattle.candidate_cover.specs.Cands.{width, AreLeast};
ghost use Rattle.negative_cover.specs.Witnesses.{sets_of, live_of};
ghost use Rattle.negative_cover.specs.EndedRows as rows_of;
ghost use Rattle.cover_steps.specs.NewLists.{IsLeftBy};

use candidate_cover::CandidateCover;
use cover_steps::new_lists::{NewLists, generalised};
use negative_cover::{NegativeCover, ended};
use rel_base::{Batch, RowNo, Snapshot, Steps};
use row_log::RowLog;
use std::alloc::{AllocError, Global};
use std::sync::Arc;
use std::sync::ledger::{Blank, Ledger};

// The new snapshot with two owners, the rows that end, ascending, and the new lists of candidates.
#[derive(Drop)]
pub(crate) struct Renewal {
    pub(crate) snapshot: Arc<Snapshot>,
    pub(crate) shared: Arc<Snapshot>,
    pub(crate) dead: Vec<RowNo>,
    pub(crate) new_lists: NewLists,
}

// What is to be put in place where these are the rows after the batch.
pub(crate) fn renewed_after<L: Ledger>(
    alloc: Global,
    rows: &RowLog,
    witnesses: &NegativeCover,
    candidates: &CandidateCover,
    batch: &Batch,
    blank: Blank,
) -> Result<Renewal, AllocError>
    requires name { blank.name ≡ L.name }
    requires parts { blank.parts ≡ L.parts }
    requires some { 0 < L.parts }
    requires least { AreLeast (width candidates.now) (sets_of witnesses.now) candidates.now }
    ensures snapshot { IfOk result (λ made. Shows made.snapshot.value rows.now) }
    ensures table { IfOk result (λ made. IsCodeTable made.snapshot.value) }
    ensures shared { IfOk result (λ made. made.shared.value ≡ made.snapshot.value) }
    ensures dead { IfOk result (λ made. IsPermutation (rows_of.ended batch.now) made.dead.items) }
    ensures new_lists { IfOk result (λ made. IsLeftBy candidates.now (sets_of (live_of (rows_of.ended batch.now) witnesses.now)) made.new_lists) }
{
    let snapshot = rows.snapshot(alloc)?;
    // `columns` is called for its clause on the snapshot's lists.
    let _count = snapshot.columns();
    let dead = ended(alloc, batch)?;
    let withdrawal = witnesses.withdrawal(alloc, dead.as_slice())?;
    let mut steps = Steps::<L>::none(blank);
    let new_lists = generalised(
        alloc,
        candidates,
        withdrawal.rest.as_slice(),
        withdrawal.gone.as_slice(),
        &mut steps,
    )?;
    let shared = snapshot.clone()?;
    Ok(Renewal {
        snapshot,
        shared,
        dead,
        new_lists,
    })
}
