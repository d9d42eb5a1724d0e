// The agree sets that lie inside no other.
ghost use Rattle.std.specs.Prelude.{◌≡◌, ◌≤◌, ◌<◌, true, ℕ, length, IfOk};
ghost use Rattle.std.specs.List.{list_any};
ghost use Rattle.col_set.specs.ColSet.{IsSubset, inter, subset};
ghost use Rattle.col_set.specs.Lists.{Listed};
ghost use Rattle.least_sets.specs.Branches.{covered};

use crate::frames::{MANY, is_inside};
use crate::index::Index;
use crate::order::sorted;
use rel_base::{ColSet, Steps};
use std::alloc::{AllocError, Global};
use std::sync::ledger::Ledger;

// Of the agree sets those that lie, as far as the columns go, inside no other: the large ones are looked at first. Of too many all
// stay.
pub(crate) fn outermost<L: Ledger>(
    alloc: Global,
    columns: ColSet,
    agree_sets: Vec<ColSet>,
    steps: &mut Steps<L>,
) -> Result<Vec<ColSet>, AllocError>
    ensures real { IfOk result (λ kept. (w : ℕ) → Listed w kept.items → Listed w agree_sets.items) }
    ensures all { IfOk result (λ kept. (w : ℕ) → Listed w agree_sets.items → list_any (λ v. subset (inter w columns) v) kept.items ≡ true) }
{
    if agree_sets.len() > MANY {
        return Ok(agree_sets);
    }
    let mut rest = sorted(agree_sets);
    let mut kept = Vec::new(alloc);
    while let Some(w) = rest.pop() {
        if !is_inside(kept.as_slice(), columns, w, steps) {
            kept.push(w)?;
        }
    }
    Ok(kept)
}

// Whether an agree set lies, as far as the free columns go, inside the one of the others at a place, if there is one.
fn is_inside_one(others: &[ColSet], free: ColSet, w: ColSet, place: Option<usize>) -> bool
    ensures { result ≡ true → list_any (λ v. subset (inter w free) v) others.now ≡ true }
{
    match place {
        Some(place) if place < others.len() => w.inter(free).subset_of(others[place]),
        _ => false,
    }
}

// Where the run ends that begins at a place: before the first set that has more columns than the one before it.
fn run_end(sets: &[ColSet], place: usize) -> usize
    requires { place < length sets.now }
    ensures further { place < result }
    ensures within { result ≤ length sets.now }
{
    for end in place + 1..sets.len() {
        if sets[end].len() > sets[end - 1].len() {
            return end;
        }
    }
    sets.len()
}

// Of agree sets of which none lies inside an earlier one those that lie, as far as the columns go, inside no other.
//
// They came in runs, the large ones of each first, so one lies inside another of a later run at most: of one run all stay. The large ones
// stand first in the answer too, since another is looked for among them soon.
pub(crate) fn outermost_of_filed(
    alloc: Global,
    columns: ColSet,
    agree_sets: &[ColSet],
) -> Result<Vec<ColSet>, AllocError>
    ensures { IfOk result (λ kept. (x : ℕ) → IsSubset x columns → covered kept.items x ≡ covered agree_sets.now x) }
{
    let index = Index::of(alloc, agree_sets)?;
    let mut kept = Vec::with_capacity(alloc, agree_sets.len())?;
    let mut end = 0;
    for place in 0..agree_sets.len() {
        if place >= end {
            end = run_end(agree_sets, place);
        }
        let w = agree_sets[place];
        let around = index.place_around(w, end);
        if !is_inside_one(&agree_sets[end..], columns, w, around) {
            kept.push(w)?;
        }
    }
    Ok(kept)
}
