// The lists of agree sets that stand while branches are gone through. A step is taken for each test of an agree set.
ghost use Rattle.std.specs.Prelude.{◌≡◌, ◌≤◌, ◌<◌, ◌∷◌, ◌++◌, ◌⊎◌, ◌&&◌, [], not, map, length, take, drop, OnOk};
ghost use Rattle.std.specs.List.{filter, list_any};
ghost use Rattle.col_set.specs.ColSet.{has, inter, subset};
ghost use Rattle.least_sets.specs.Branches.{lacking, part, parts, IsWithin, AreWithin, IsEntered, pruned};
ghost use Rattle.least_sets.specs.Growth.{having};

use rel_base::{ColSet, MOST_COLUMNS, Steps};
use std::alloc::AllocError;
use std::sync::ledger::Ledger;

// Of more agree sets than these the ones that lie inside others are not looked for, which takes a step a pair.
pub(crate) const MANY: usize = 32_768;

// Where the own agree sets of one chosen column stand.
#[derive(Clone, Copy)]
pub(crate) struct Run {
    pub(crate) start: usize,
    pub(crate) stop: usize,
}

// The lists of the frames that stand, those of one behind those of another, in the same memory.
//
// A frame's lists are the ends of these: the agree sets that contain what it has chosen, and those that lack just one column of it,
// in a run for each of these columns.
#[derive(Drop)]
pub(crate) struct Frames {
    pub(crate) pending: Vec<ColSet>,
    pub(crate) own: Vec<ColSet>,
    pub(crate) runs: Vec<Run>,
}

// Moves the agree sets that have the column to the front, in their order: how many these are. Each set is written, so that what
// the column is does not decide which way the code goes.
fn move_having<L: Ledger>(sets: &mut [ColSet], column: u8, steps: &mut Steps<L>) -> usize
    requires { column < MOST_COLUMNS }
    ensures kept { take result sets.new ≡ having column sets.old }
    ensures bound { result ≤ length sets.old }
{
    let single = ColSet::empty().with(column);
    let mut kept = 0;
    for place in 0..sets.len() {
        steps.tick();
        let w = sets[place];
        sets[kept] = w;
        if single.subset_of(w) {
            kept += 1;
        }
    }
    kept
}

// Of the agree sets from a place on, keeps those that have the column.
fn keep_having<L: Ledger>(sets: &mut Vec<ColSet>, from: usize, column: u8, steps: &mut Steps<L>)
    requires column { column < MOST_COLUMNS }
    requires from { from ≤ length sets.old.items }
    ensures { sets.new.items ≡ take from sets.old.items ++ having column (drop from sets.old.items) }
{
    let kept = move_having(&mut sets[from..], column, steps);
    sets.truncate(from + kept);
}

// Adds those of the agree sets from a place on that have the column.
fn push_having<L: Ledger>(
    sets: &mut Vec<ColSet>,
    from: usize,
    column: u8,
    steps: &mut Steps<L>,
) -> Result<(), AllocError>
    requires column { column < MOST_COLUMNS }
    requires from { from ≤ length sets.old.items }
    ensures { OnOk result (sets.new.items ≡ sets.old.items ++ having column (drop from sets.old.items)) }
{
    let end = sets.len();
    sets.extend_from_within(from..)?;
    keep_having(sets, end, column, steps);
    Ok(())
}

// Adds the agree sets that lack the column.
fn push_lacking<L: Ledger>(
    found: &mut Vec<ColSet>,
    column: u8,
    sets: &[ColSet],
    steps: &mut Steps<L>,
) -> Result<(), AllocError>
    requires { column < MOST_COLUMNS }
    ensures { OnOk result (found.new.items ≡ found.old.items ++ lacking column sets.now) }
{
    let single = ColSet::empty().with(column);
    for w in sets {
        steps.tick();
        if !single.subset_of(*w) {
            found.push(*w)?;
        }
    }
    Ok(())
}

// Adds those of a run's agree sets that have the column, as a run.
fn push_run<L: Ledger>(
    own: &mut Vec<ColSet>,
    runs: &mut Vec<Run>,
    run: Run,
    column: u8,
    steps: &mut Steps<L>,
) -> Result<(), AllocError>
    requires column { column < MOST_COLUMNS }
    requires within { IsWithin own.old.items run }
    ensures own { OnOk result (own.new.items ≡ own.old.items ++ having column (part own.old.items run)) }
    ensures runs { OnOk result (runs.new.items ≡ runs.old.items ++ record { start = length own.old.items; stop = length own.new.items } ∷ []) }
{
    let start = own.len();
    own.extend_from_within(run.start..run.stop)?;
    keep_having(own, start, column, steps);
    let stop = own.len();
    runs.push(Run { start, stop })?;
    Ok(())
}

// Whether an agree set lies, as far as the free columns go, inside one of the others.
pub(crate) fn is_inside<L: Ledger>(
    others: &[ColSet],
    free: ColSet,
    w: ColSet,
    steps: &mut Steps<L>,
) -> bool
    ensures { result ≡ list_any (λ v. subset (inter w free) v) others.now }
{
    let own = w.inter(free);
    for v in others {
        steps.tick();
        if own.subset_of(*v) {
            return true;
        }
    }
    false
}

// Whether an agree set has the column, and lies inside one of the others as far as the free columns go.
fn goes<L: Ledger>(
    others: &[ColSet],
    column: u8,
    free: ColSet,
    w: ColSet,
    steps: &mut Steps<L>,
) -> bool
    requires { column < MOST_COLUMNS }
    ensures { result ≡ (has w column && list_any (λ v. subset (inter w free) v) others.now) }
{
    w.has(column) && is_inside(others, free, w, steps)
}

// Moves the agree sets but those that go to the front, in their order: how many these are.
fn move_kept<L: Ledger>(
    sets: &mut [ColSet],
    others: &[ColSet],
    column: u8,
    free: ColSet,
    steps: &mut Steps<L>,
) -> usize
    requires { column < MOST_COLUMNS }
    ensures kept { take result sets.new ≡ filter (λ w. not (has w column && list_any (λ v. subset (inter w free) v) others.now)) sets.old }
    ensures bound { result ≤ length sets.old }
{
    let mut kept = 0;
    for place in 0..sets.len() {
        let w = sets[place];
        if !goes(others, column, free, w, steps) {
            sets[kept] = w;
            kept += 1;
        }
    }
    kept
}

// Of the agree sets from a place on, keeps all but those that go.
fn keep_standing<L: Ledger>(
    sets: &mut Vec<ColSet>,
    from: usize,
    others: &[ColSet],
    column: u8,
    free: ColSet,
    steps: &mut Steps<L>,
)
    requires column { column < MOST_COLUMNS }
    requires from { from ≤ length sets.old.items }
    ensures { sets.new.items ≡ take from sets.old.items ++ filter (λ w. not (has w column && list_any (λ v. subset (inter w free) v) others.now)) (drop from sets.old.items) }
{
    let kept = move_kept(&mut sets[from..], others, column, free, steps);
    sets.truncate(from + kept);
}

impl Frames {
    // Adds the lists of the frame that chooses the column too: the pending agree sets that have it, and as own ones those of the own
    // ones that have it, run by run, and in a run of their own the pending ones that lack it.
    pub(crate) fn enter<L: Ledger>(
        &mut self,
        pending_from: usize,
        runs_from: usize,
        column: u8,
        steps: &mut Steps<L>,
    ) -> Result<(), AllocError>
        requires column { column < MOST_COLUMNS }
        requires pending_from { pending_from ≤ length self.old.pending.items }
        requires runs_from { runs_from ≤ length self.old.runs.items }
        requires within { AreWithin self.old.own.items self.old.runs.items }
        ensures pending { OnOk result (self.new.pending.items ≡ self.old.pending.items ++ having column (drop pending_from self.old.pending.items)) }
        ensures own { OnOk result (IsEntered self.old.own.items self.old.runs.items (map (having column) (parts self.old.own.items (drop runs_from self.old.runs.items)) ++ lacking column (drop pending_from self.old.pending.items) ∷ []) self.new.own.items self.new.runs.items) }
    {
        for place in runs_from..self.runs.len() {
            let run = self.runs[place];
            push_run(&mut self.own, &mut self.runs, run, column, steps)?;
        }
        let start = self.own.len();
        push_lacking(&mut self.own, column, &self.pending[pending_from..], steps)?;
        let stop = self.own.len();
        self.runs.push(Run { start, stop })?;
        push_having(&mut self.pending, pending_from, column, steps)
    }

    // Takes those of the pending agree sets out that have the column and lie, as far as the free columns go, inside one that lacks it.
    // Of too many none goes. The memory behind the own ones is used.
    pub(crate) fn prune<L: Ledger>(
        &mut self,
        pending_from: usize,
        column: u8,
        free: ColSet,
        steps: &mut Steps<L>,
    ) -> Result<(), AllocError>
        requires column { column < MOST_COLUMNS }
        requires from { pending_from ≤ length self.old.pending.items }
        ensures pending { OnOk result ((self.new.pending.items ≡ self.old.pending.items) ⊎ (self.new.pending.items ≡ take pending_from self.old.pending.items ++ pruned column free (drop pending_from self.old.pending.items))) }
        ensures own { OnOk result (self.new.own.items ≡ self.old.own.items) }
        ensures runs { OnOk result (self.new.runs.items ≡ self.old.runs.items) }
    {
        if self.pending.len() - pending_from > MANY {
            return Ok(());
        }
        let own_end = self.own.len();
        push_lacking(&mut self.own, column, &self.pending[pending_from..], steps)?;
        keep_standing(
            &mut self.pending,
            pending_from,
            &self.own[own_end..],
            column,
            free,
            steps,
        );
        self.own.truncate(own_end);
        Ok(())
    }
}
