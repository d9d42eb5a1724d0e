// The candidates of a pass.
ghost use Rattle.std.specs.Prelude.{◌≡◌, OnOk};
ghost use Rattle.std.specs.List.{All};
ghost use Rattle.col_set.specs.Target.{IsColumnTarget};
ghost use Rattle.candidate_cover.specs.Cands.{width};
ghost use Rattle.cover_core.specs.Waiting.{IsWaiting, marked_each};

use candidate_cover::{Cand, CandidateCover};
use rel_base::{RowNo, Target};
use std::alloc::{AllocError, Global};
use validator::Order;

// A candidate that waits for its verdict, the places of its columns in the order of verdicts, and about where it stands in its target's
// list.
#[derive(Clone, Copy)]
pub(crate) struct Waiting {
    pub(crate) places: u128,
    pub(crate) target: Target,
    pub(crate) near: usize,
    pub(crate) cand: Cand,
}

// How many columns the candidates of a pass have at least, and at most.
#[derive(Clone, Copy)]
pub(crate) struct Sizes {
    pub(crate) least: u32,
    pub(crate) most: u32,
}

// How many candidates there are.
pub(crate) fn count(candidates: &CandidateCover) -> usize {
    let mut count = candidates.lefts(Target::RowId).len();
    for column in 0..candidates.columns() {
        count = count.saturating_add(candidates.lefts(Target::Col(column)).len());
    }
    count
}

// Adds the unfinished candidates of a target with so many columns.
pub(crate) fn push_waiting(
    alloc: Global,
    candidates: &CandidateCover,
    target: Target,
    order: &Order,
    sizes: Sizes,
    next: RowNo,
    list: &mut Vec<Waiting>,
) -> Result<(), AllocError>
    requires target { IsColumnTarget (width candidates.now) target }
    requires waiting { All (IsWaiting candidates.now) list.old.items }
    ensures { OnOk result (All (IsWaiting candidates.now) list.new.items) }
{
    let own = candidates.of_sizes(alloc, target, sizes.least, sizes.most)?;
    // Those of these sizes stand behind those with fewer columns, one after another.
    let lefts = candidates.lefts(target);
    let first = lefts.partition_point(|left| left.len() < sizes.least);
    for (place, cand) in own.iter().enumerate() {
        if cand.upto < next {
            let places = order.places_of(cand.left);
            list.push(Waiting {
                places,
                target,
                near: first.saturating_add(place),
                cand: *cand,
            })?;
        }
    }
    Ok(())
}

// Marks candidates up to a number, one after another. Where one is not listed nothing changes.
pub(crate) fn mark_each(candidates: &mut CandidateCover, list: &[Waiting], to: RowNo)
    requires { All (λ w. IsColumnTarget (width candidates.old) w.target) list.now }
    ensures { candidates.new ≡ marked_each candidates.old list.now to }
{
    for waiting in list {
        candidates.look_near(waiting.target, waiting.near);
        candidates.mark(waiting.target, waiting.cand.left, to);
    }
}

// For so many candidates it is worth while to compare rows that came since they were validated with all rows: a row is compared with
// all others in the time in which one new row is looked up for some twenty.
const MANY_CANDIDATES: u32 = 64;

// Where many rows came, verdicts share groups of rows, and a row is compared with all others in the time of so few of them.
const VERDICTS_A_ROW: u32 = 8;

// How many unfinished candidates there are of which anything is known, and the number below which each of them is known to hold.
#[derive(Clone, Copy)]
struct Lately {
    count: u32,
    from: RowNo,
}

impl Lately {
    // With the candidates of one more target.
    fn with(
        self,
        alloc: Global,
        candidates: &CandidateCover,
        target: Target,
        next: RowNo,
    ) -> Result<Lately, AllocError>
        requires { IsColumnTarget (width candidates.now) target }
    {
        let mut lately = self;
        let own = candidates.list(alloc, target)?;
        for cand in own.as_slice() {
            if cand.upto.number() > 1 && cand.upto < next {
                lately = Lately {
                    count: lately.count.saturating_add(1),
                    from: lately.from.min(cand.upto),
                };
            }
        }
        Ok(lately)
    }
}

// The number below which each unfinished candidate is known to hold of which anything is known, where these are so many that comparing
// the rows from there on with all rows is less work than a verdict on each.
pub(crate) fn worth_comparing(
    alloc: Global,
    candidates: &CandidateCover,
    next: RowNo,
) -> Result<Option<RowNo>, AllocError> {
    let mut lately = Lately {
        count: 0,
        from: next,
    };
    lately = lately.with(alloc, candidates, Target::RowId, next)?;
    for column in 0..candidates.columns() {
        lately = lately.with(alloc, candidates, Target::Col(column), next)?;
    }
    let new = next.number().saturating_sub(lately.from.number());
    let is_worth_it = lately.count >= MANY_CANDIDATES && new <= lately.count / VERDICTS_A_ROW;
    Ok(if is_worth_it { Some(lately.from) } else { None })
}
