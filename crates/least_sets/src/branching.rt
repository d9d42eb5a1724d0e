// The least column sets that no agree set contains, split by a column: those with it and those without it.
ghost use Rattle.std.specs.Option.{is_none};
ghost use Rattle.std.specs.Prelude.{◌≡◌, ◌≤◌, ◌<◌, ◌∷◌, ◌++◌, [], map, Bool, true, false, None, ℕ, List, length, take, drop, IfOk, OnOk};
ghost use Rattle.col_set.specs.ColSet.{IsSubset, empty, has, with};
ghost use Rattle.col_set.specs.Target.{IsColumnTarget};
ghost use Rattle.col_set.specs.Lists.{Listed};
ghost use Rattle.least_sets.specs.Branches.{lacking, parts, join, AreWithin, IsCut, IsOwned, IsBranch, HasBranched, HasEnded};
ghost use Rattle.least_sets.specs.Growth.{having, IsLeastAmong, ListsLeast};

use crate::frames::{Frames, Run};
use crate::outermost::outermost;
use crate::scans::{
    fewest_lacked, lacked_by_all, most_lacked, owned_columns, owned_columns_with, seen_where,
    sole_having,
};
use rel_base::{ColSet, MOST_COLUMNS, Steps, Target};
use std::alloc::{AllocError, Global};
use std::sync::ledger::{Blank, Ledger};

// Adds the chosen columns with each one more that all pending agree sets lack: no such set is refuted, and it is one of the least
// where each chosen column keeps an agree set of its own. These columns are free no longer.
fn push_ends(
    found: &mut Vec<ColSet>,
    chosen: ColSet,
    free: ColSet,
    lacked: ColSet,
) -> Result<ColSet, AllocError>
    requires { IsSubset lacked free }
    ensures low { IfOk result (λ left. IsSubset left free) }
    ensures gone { IfOk result (λ left. (k : ℕ) → has lacked k ≡ true → has left k ≡ false) }
    ensures ended { IfOk result (λ left. (ws pending own : List ℕ) → IsBranch ws chosen free pending own → 0 < length pending → ((k : ℕ) → has lacked k ≡ true → having k pending ≡ []) → ((k : ℕ) → has lacked k ≡ true → IsOwned (having k own) chosen) → HasEnded ws chosen free left pending own found.old.items found.new.items) }
{
    let mut left = free;
    let mut rest = lacked;
    while let Some(column) = rest.first() {
        found.push(chosen.with(column))?;
        left = left.without(column);
        rest = rest.without(column);
    }
    Ok(left)
}

// Adds the least sets that have the chosen columns, the column and else free ones, where just one pending agree set has the column:
// each takes one free column that this one lacks. No list is copied for them: of ten thousand rows by forty columns a quarter of the frames
// would be of this kind.
fn push_past_sole<L: Ledger>(
    found: &mut Vec<ColSet>,
    pending: &[ColSet],
    own: &[ColSet],
    runs: &[Run],
    chosen: ColSet,
    column: u8,
    free: ColSet,
    sole: ColSet,
    steps: &mut Steps<L>,
) -> Result<(), AllocError>
    requires column { column < MOST_COLUMNS }
    requires within { AreWithin own.now runs.now }
    ensures { OnOk result ((all : Bool) (ws : List ℕ) → IsCut (with chosen column) (map (having column) (parts own.now runs.now) ++ lacking column pending.now ∷ []) → IsBranch ws (with chosen column) free (sole ∷ []) (join (map (having column) (parts own.now runs.now) ++ lacking column pending.now ∷ [])) → HasBranched all ws (with chosen column) free found.old.items found.new.items) }
{
    let owned = owned_columns_with(own, runs, column, free, steps);
    let owned = seen_where(pending, column, false, owned, steps);
    let _left = push_ends(found, chosen.with(column), owned, owned.minus(sole))?;
    Ok(())
}

// Whether sets with two columns more than the chosen ones are beyond the bound, if there is one.
fn is_last(chosen: ColSet, most: Option<u32>) -> bool
    ensures { is_none most ≡ true → result ≡ false }
{
    match most {
        Some(most) => chosen.len() + 1 >= most,
        None => false,
    }
}

// Adds the least sets that have all of the chosen columns and else free ones. Where a bound on columns is given it goes no further where
// it is reached: then it adds least sets, and some may be missing.
//
// A free column with which a chosen one keeps no agree set of its own is in none of them. The column to go by is one of the fewest
// that a pending set lacks, which bounds the branches by what any order needs; at most a frame for each column stands at a time.
// The frame's pending sets are gone at the end.
fn branch<L: Ledger>(
    frames: &mut Frames,
    chosen: ColSet,
    free: ColSet,
    pending_from: usize,
    runs_from: usize,
    most: Option<u32>,
    found: &mut Vec<ColSet>,
    steps: &mut Steps<L>,
) -> Result<(), AllocError>
    requires pending_from { pending_from ≤ length frames.old.pending.items }
    requires runs_from { runs_from ≤ length frames.old.runs.items }
    requires within { AreWithin frames.old.own.items frames.old.runs.items }
    ensures pending { OnOk result (frames.new.pending.items ≡ take pending_from frames.old.pending.items) }
    ensures own { OnOk result (frames.new.own.items ≡ frames.old.own.items) }
    ensures runs { OnOk result (frames.new.runs.items ≡ frames.old.runs.items) }
    ensures found { OnOk result ((ws : List ℕ) → IsCut chosen (parts frames.old.own.items (drop runs_from frames.old.runs.items)) → IsBranch ws chosen free (drop pending_from frames.old.pending.items) (join (parts frames.old.own.items (drop runs_from frames.old.runs.items))) → HasBranched (is_none most) ws chosen free found.old.items found.new.items) }
{
    let pending = &frames.pending[pending_from..];
    if pending.is_empty() {
        found.push(chosen)?;
        return Ok(());
    }
    let owned = owned_columns(
        frames.own.as_slice(),
        &frames.runs[runs_from..],
        free,
        steps,
    );
    let lacked = lacked_by_all(owned, pending, steps);
    let left = push_ends(found, chosen, owned, lacked)?;
    if is_last(chosen, most) {
        frames.pending.truncate(pending_from);
        return Ok(());
    }
    match most_lacked(fewest_lacked(left, pending, steps), pending, steps) {
        None => {
            frames.pending.truncate(pending_from);
            Ok(())
        }
        Some(column) => {
            let rest = left.without(column);
            if let Some(sole) = sole_having(pending, column, steps) {
                let runs = &frames.runs[runs_from..];
                let own = frames.own.as_slice();
                push_past_sole(found, pending, own, runs, chosen, column, rest, sole, steps)?;
                frames.prune(pending_from, column, rest, steps)?;
                return branch(
                    frames,
                    chosen,
                    rest,
                    pending_from,
                    runs_from,
                    most,
                    found,
                    steps,
                );
            }
            let pending_end = frames.pending.len();
            let own_end = frames.own.len();
            let runs_end = frames.runs.len();
            frames.enter(pending_from, runs_from, column, steps)?;
            branch(
                frames,
                chosen.with(column),
                rest,
                pending_end,
                runs_end,
                most,
                found,
                steps,
            )?;
            frames.own.truncate(own_end);
            frames.runs.truncate(runs_end);
            frames.prune(pending_from, column, rest, steps)?;
            branch(
                frames,
                chosen,
                rest,
                pending_from,
                runs_from,
                most,
                found,
                steps,
            )
        }
    }
}

// The least sets among the columns that none of these agree sets contains, in no order; with a bound on columns, some of them: those up to
// it, and perhaps some beyond.
pub(crate) fn uncovered<L: Ledger>(
    alloc: Global,
    columns: ColSet,
    agree_sets: Vec<ColSet>,
    most: Option<u32>,
    steps: &mut Steps<L>,
) -> Result<Vec<ColSet>, AllocError>
    ensures { IfOk result (λ sets. HasBranched (is_none most) agree_sets.items empty columns [] sets.items) }
{
    let mut frames = Frames {
        pending: agree_sets,
        own: Vec::new(alloc),
        runs: Vec::new(alloc),
    };
    let mut found = Vec::new(alloc);
    branch(
        &mut frames,
        ColSet::empty(),
        columns,
        0,
        0,
        most,
        &mut found,
        steps,
    )?;
    Ok(found)
}

// The same, where nobody looks at the steps: they are counted over a blank.
pub(crate) fn uncovered_on_blank<L: Ledger>(
    alloc: Global,
    columns: ColSet,
    agree_sets: Vec<ColSet>,
    most: Option<u32>,
    blank: Blank,
) -> Result<Vec<ColSet>, AllocError>
    requires name { blank.name ≡ L.name }
    requires parts { blank.parts ≡ L.parts }
    requires some { 0 < L.parts }
    ensures { IfOk result (λ sets. HasBranched (is_none most) agree_sets.items empty columns [] sets.items) }
{
    let mut steps = Steps::<L>::none(blank);
    uncovered(alloc, columns, agree_sets, most, &mut steps)
}

// The least sets among the columns against these agree sets, in no order; with a bound on columns, some of them: those up to it, and
// perhaps some beyond.
pub(crate) fn least<L: Ledger>(
    alloc: Global,
    columns: ColSet,
    target: Target,
    agree_sets: &[ColSet],
    most: Option<u32>,
    steps: &mut Steps<L>,
) -> Result<Vec<ColSet>, AllocError>
    requires { IsColumnTarget MOST_COLUMNS target }
    ensures each { IfOk result (λ sets. (x : ℕ) → Listed x sets.items → IsLeastAmong columns agree_sets.now target x) }
    ensures all { IfOk result (λ sets. most ≡ None → ListsLeast columns agree_sets.now target sets.items) }
{
    let mut lacking = Vec::new(alloc);
    for w in agree_sets {
        steps.tick();
        if !w.has_target(target) {
            lacking.push(*w)?;
        }
    }
    let kept = outermost(alloc, columns, lacking, steps)?;
    let found = uncovered(alloc, columns, kept, most, steps)?;
    Ok(found)
}

// The same over a blank.
pub(crate) fn least_on_blank<L: Ledger>(
    alloc: Global,
    columns: ColSet,
    target: Target,
    agree_sets: &[ColSet],
    most: Option<u32>,
    blank: Blank,
) -> Result<Vec<ColSet>, AllocError>
    requires target { IsColumnTarget MOST_COLUMNS target }
    requires name { blank.name ≡ L.name }
    requires parts { blank.parts ≡ L.parts }
    requires some { 0 < L.parts }
    ensures each { IfOk result (λ sets. (x : ℕ) → Listed x sets.items → IsLeastAmong columns agree_sets.now target x) }
    ensures all { IfOk result (λ sets. most ≡ None → ListsLeast columns agree_sets.now target sets.items) }
{
    let mut steps = Steps::<L>::none(blank);
    least(alloc, columns, target, agree_sets, most, &mut steps)
}
