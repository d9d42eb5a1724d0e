// What passes over agree sets tell of columns. A step is taken for each agree set that a pass looks at.
ghost use Rattle.std.specs.Prelude.{if◌then◌else◌, ◌≡◌, ◌<◌, ◌∷◌, not, map, true, false, None, [], ℕ, List, length, IfSome};
ghost use Rattle.std.specs.List.{filter, list_any};
ghost use Rattle.col_set.specs.ColSet.{IsSubset, empty, has, minus};
ghost use Rattle.col_set.specs.Lists.{Listed};
ghost use Rattle.least_sets.specs.Branches.{covered, sees, part, parts, IsWithin, AreWithin};
ghost use Rattle.least_sets.specs.Growth.{having};

use crate::frames::Run;
use rel_base::{ColSet, MOST_COLUMNS, Steps};
use std::sync::ledger::Ledger;

// How many of the agree sets lack the column.
fn lacking_count<L: Ledger>(pending: &[ColSet], column: u8, steps: &mut Steps<L>) -> usize
    requires { column < MOST_COLUMNS }
{
    let single = ColSet::empty().with(column);
    let mut count = 0usize;
    for w in pending {
        steps.tick();
        if !single.subset_of(*w) {
            count = count.saturating_add(1);
        }
    }
    count
}

// The free columns that all of the agree sets lack. Where no more are left, it looks no further.
pub(crate) fn lacked_by_all<L: Ledger>(
    free: ColSet,
    pending: &[ColSet],
    steps: &mut Steps<L>,
) -> ColSet
    ensures low { IsSubset result free }
    ensures none { (k : ℕ) → has result k ≡ true → having k pending.now ≡ [] }
{
    let mut lacked = free;
    for w in pending {
        steps.tick();
        lacked = lacked.minus(*w);
        if lacked == ColSet::empty() {
            return lacked;
        }
    }
    lacked
}

// Of the agree sets the one that lacks the fewest of the free columns: those that it lacks.
pub(crate) fn fewest_lacked<L: Ledger>(
    free: ColSet,
    pending: &[ColSet],
    steps: &mut Steps<L>,
) -> ColSet
    requires { 0 < length pending.now }
    ensures low { IsSubset result free }
    ensures lacks { (k : ℕ) → has result k ≡ true → list_any (λ w. not (has w k)) pending.now ≡ true }
    ensures none { result ≡ empty → covered pending.now free ≡ true }
{
    steps.tick();
    let mut fewest = free.minus(pending[0]);
    let mut least = fewest.len();
    for w in pending {
        steps.tick();
        let lacked = free.minus(*w);
        let count = lacked.len();
        if count < least {
            fewest = lacked;
            least = count;
        }
    }
    fewest
}

// The one of these columns that the most of the agree sets lack.
pub(crate) fn most_lacked<L: Ledger>(
    columns: ColSet,
    pending: &[ColSet],
    steps: &mut Steps<L>,
) -> Option<u8>
    ensures some { IfSome result (λ column. has columns column ≡ true) }
    ensures bound { IfSome result (λ column. column < MOST_COLUMNS) }
    ensures none { result ≡ None → columns ≡ empty }
{
    let mut best = columns.first()?;
    let mut rest = columns.without(best);
    if rest == ColSet::empty() {
        return Some(best);
    }
    let mut most = lacking_count(pending, best, steps);
    while let Some(column) = rest.first() {
        let count = lacking_count(pending, column, steps);
        if count > most {
            best = column;
            most = count;
        }
        rest = rest.without(column);
    }
    Some(best)
}

// Those of the columns that some of the agree sets have. Where all have been seen, it looks no further.
fn seen_in<L: Ledger>(sets: &[ColSet], columns: ColSet, steps: &mut Steps<L>) -> ColSet
    ensures low { IsSubset result columns }
    ensures seen { (k : ℕ) → has result k ≡ true → sees sets.now k ≡ true }
    ensures unseen { (k : ℕ) → has columns k ≡ true → has result k ≡ false → sees sets.now k ≡ false }
{
    let mut left = columns;
    for w in sets {
        steps.tick();
        left = left.minus(*w);
        if left == ColSet::empty() {
            return columns;
        }
    }
    columns.minus(left)
}

// Those of the columns that some of the agree sets of the run have.
fn seen_in_run<L: Ledger>(own: &[ColSet], run: Run, columns: ColSet, steps: &mut Steps<L>) -> ColSet
    requires { IsWithin own.now run }
    ensures low { IsSubset result columns }
    ensures seen { (k : ℕ) → has result k ≡ true → sees (part own.now run) k ≡ true }
    ensures unseen { (k : ℕ) → has columns k ≡ true → has result k ≡ false → sees (part own.now run) k ≡ false }
{
    seen_in(&own[run.start..run.stop], columns, steps)
}

// Those of the free columns that each run has an agree set with: with each other one some chosen column keeps no agree set of its
// own, so no least set from the chosen columns on has it.
pub(crate) fn owned_columns<L: Ledger>(
    own: &[ColSet],
    runs: &[Run],
    free: ColSet,
    steps: &mut Steps<L>,
) -> ColSet
    requires { AreWithin own.now runs.now }
    ensures low { IsSubset result free }
    ensures owned { (k : ℕ) → has result k ≡ true → (vs : List ℕ) → Listed vs (parts own.now runs.now) → sees vs k ≡ true }
    ensures unowned { (k : ℕ) → has free k ≡ true → has result k ≡ false → (vs : List ℕ) × Listed vs (parts own.now runs.now) × (sees vs k ≡ false) }
{
    let mut owned = free;
    for run in runs {
        owned = seen_in_run(own, *run, owned, steps);
    }
    owned
}

// What is left of the columns after an agree set, which counts where it has the column as wanted.
fn left_after(left: ColSet, w: ColSet, column: u8, wanted: bool) -> ColSet
    requires { column < MOST_COLUMNS }
    ensures { result ≡ (if (if wanted then has w column else not (has w column)) then minus left w else left) }
{
    if w.has(column) == wanted {
        left.minus(w)
    } else {
        left
    }
}

// Those of the columns that some have of the agree sets that have the column, or of those that lack it. Where all have been seen, it
// looks no further.
pub(crate) fn seen_where<L: Ledger>(
    sets: &[ColSet],
    column: u8,
    wanted: bool,
    columns: ColSet,
    steps: &mut Steps<L>,
) -> ColSet
    requires { column < MOST_COLUMNS }
    ensures low { IsSubset result columns }
    ensures seen { (k : ℕ) → has result k ≡ true → sees (filter (λ w. if wanted then has w column else not (has w column)) sets.now) k ≡ true }
    ensures unseen { (k : ℕ) → has columns k ≡ true → has result k ≡ false → sees (filter (λ w. if wanted then has w column else not (has w column)) sets.now) k ≡ false }
{
    let mut left = columns;
    for w in sets {
        steps.tick();
        left = left_after(left, *w, column, wanted);
        if left == ColSet::empty() {
            return columns;
        }
    }
    columns.minus(left)
}

// Those of the columns that some have of the run's agree sets that have the column.
fn seen_in_run_with<L: Ledger>(
    own: &[ColSet],
    run: Run,
    column: u8,
    columns: ColSet,
    steps: &mut Steps<L>,
) -> ColSet
    requires column { column < MOST_COLUMNS }
    requires within { IsWithin own.now run }
    ensures low { IsSubset result columns }
    ensures seen { (k : ℕ) → has result k ≡ true → sees (having column (part own.now run)) k ≡ true }
    ensures unseen { (k : ℕ) → has columns k ≡ true → has result k ≡ false → sees (having column (part own.now run)) k ≡ false }
{
    seen_where(&own[run.start..run.stop], column, true, columns, steps)
}

// Those of the free columns that each run has an agree set with that has the column too.
pub(crate) fn owned_columns_with<L: Ledger>(
    own: &[ColSet],
    runs: &[Run],
    column: u8,
    free: ColSet,
    steps: &mut Steps<L>,
) -> ColSet
    requires column { column < MOST_COLUMNS }
    requires within { AreWithin own.now runs.now }
    ensures low { IsSubset result free }
    ensures owned { (k : ℕ) → has result k ≡ true → (vs : List ℕ) → Listed vs (map (having column) (parts own.now runs.now)) → sees vs k ≡ true }
    ensures unowned { (k : ℕ) → has free k ≡ true → has result k ≡ false → (vs : List ℕ) × Listed vs (map (having column) (parts own.now runs.now)) × (sees vs k ≡ false) }
{
    let mut owned = free;
    for run in runs {
        owned = seen_in_run_with(own, *run, column, owned, steps);
    }
    owned
}

// The one of the agree sets that has the column, where no other one has it.
pub(crate) fn sole_having<L: Ledger>(
    pending: &[ColSet],
    column: u8,
    steps: &mut Steps<L>,
) -> Option<ColSet>
    requires { column < MOST_COLUMNS }
    ensures { IfSome result (λ w. having column pending.now ≡ w ∷ []) }
{
    let mut sole = None;
    for w in pending {
        steps.tick();
        if w.has(column) {
            if sole.is_some() {
                return None;
            }
            sole = Some(*w);
        }
    }
    sole
}
