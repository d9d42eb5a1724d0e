// What a list of agree sets leaves, by one agree set after another.
ghost use Rattle.std.specs.Prelude.{◌≡◌, ◌≢◌, ◌≤◌, ◌<◌, ◌^◌, ◌++◌, ◌&&◌, not, ◌∷◌, [], ℕ, List, false, OnOk, IfOk};
ghost use Rattle.std.specs.List.{All, list_any};
ghost use Rattle.col_set.specs.ColSet.{has};
ghost use Rattle.col_set.specs.Target.{IsColumnTarget, has_target, is_target};
ghost use Rattle.col_set.specs.Minimal.{proper_subset};
ghost use Rattle.col_set.specs.Evidence.{refuted, least, extensions, replaced, minimal_of};

use col_set::{ColSet, MOST_COLUMNS, Target};
use std::alloc::{AllocError, Global};
use std::collections::BTreeSet;

/// Whether some agree set of the list contains x and lacks the target.
#[tactic(auto, unfolding(col_set::specs::Evidence::refuted))]
pub fn refutes(agree_sets: &[ColSet], target: Target, x: ColSet) -> bool
    requires { IsColumnTarget MOST_COLUMNS target }
    ensures { result ≡ refuted agree_sets.now target x }
{
    agree_sets.iter().any(|w| w.refutes(x, target))
}

// Whether the column is outside z and not the target.
fn is_outside(z: ColSet, target: Target, column: u8) -> bool
    requires { column < MOST_COLUMNS }
    ensures { result ≡ (not (has z column) && not (is_target column target)) }
{
    !z.has(column) && !target.is_column(column)
}

// Adds x with each one column that is outside z and not the target.
fn push_extensions(
    grown: &mut Vec<ColSet>,
    columns: u8,
    target: Target,
    z: ColSet,
    x: ColSet,
) -> Result<(), AllocError>
    requires { columns ≤ MOST_COLUMNS }
    ensures { OnOk result (grown.new.items ≡ grown.old.items ++ extensions columns target z x) }
{
    for column in 0..columns {
        if is_outside(z, target, column) {
            grown.push(x.with(column))?;
        }
    }
    Ok(())
}

#[tactic(auto, using(crate::proofs::Steps::replaced_none, crate::proofs::Steps::replaced_more))]
fn grown(
    alloc: Global,
    columns: u8,
    target: Target,
    z: ColSet,
    candidates: &[ColSet],
) -> Result<Vec<ColSet>, AllocError>
    requires { columns ≤ MOST_COLUMNS }
    ensures { IfOk result (λ sets. sets.items ≡ replaced columns target z candidates.now) }
{
    let mut sets = Vec::new(alloc);
    for x in candidates {
        if x.subset_of(z) {
            push_extensions(&mut sets, columns, target, z, *x)?;
        } else {
            sets.push(*x)?;
        }
    }
    Ok(sets)
}

// Whether a proper subset of x is among the sets.
#[tactic(auto, unfolding(col_set::specs::Minimal::proper_subset))]
fn has_smaller(sets: &[ColSet], x: ColSet) -> bool
    ensures { result ≡ list_any (λ y. proper_subset y x) sets.now }
{
    sets.iter().any(|y| y.subset_of(x) && *y != x)
}

/// Those of the sets that have no proper subset among them, in report order.
pub fn minimal_sets(alloc: Global, sets: &[ColSet]) -> Result<BTreeSet<ColSet>, AllocError>
    ensures { IfOk result (λ kept. (n : ℕ) → All (λ x. x < 2 ^ n) sets.now → kept.keys ≡ minimal_of n sets.now) }
{
    let mut kept = BTreeSet::new(alloc);
    for x in sets {
        if !has_smaller(sets, *x) {
            kept.insert(*x)?;
        }
    }
    Ok(kept)
}

fn in_order(alloc: Global, kept: BTreeSet<ColSet>) -> Result<Vec<ColSet>, AllocError>
    ensures { IfOk result (λ list. list.items ≡ kept.keys) }
{
    kept.into_iter().collect(alloc)
}

/// The candidates after a further agree set z that lacks the target.
pub fn specialise(
    alloc: Global,
    columns: u8,
    target: Target,
    z: ColSet,
    candidates: &[ColSet],
) -> Result<Vec<ColSet>, AllocError>
    requires columns { columns ≤ MOST_COLUMNS }
    requires apart { has_target z target ≡ false }
    ensures { IfOk result (λ part. (ws : List ℕ) → candidates.now ≡ least columns ws target → part.items ≡ least columns (ws ++ z ∷ []) target) }
{
    let sets = grown(alloc, columns, target, z, candidates)?;
    let kept = minimal_sets(alloc, sets.as_slice())?;
    in_order(alloc, kept)
}

/// The column sets that no agree set of the list refutes for the target, and that have no smaller such set.
pub fn least_sets(
    alloc: Global,
    columns: u8,
    target: Target,
    agree_sets: &[ColSet],
) -> Result<Vec<ColSet>, AllocError>
    requires columns { columns ≤ MOST_COLUMNS }
    requires target { IsColumnTarget MOST_COLUMNS target }
    ensures { IfOk result (λ found. found.items ≡ least columns agree_sets.now target) }
{
    let mut candidates = Vec::new(alloc);
    candidates.push(ColSet::empty())?;
    for z in agree_sets {
        if !z.has_target(target) {
            candidates = specialise(alloc, columns, target, *z, candidates.as_slice())?;
        }
    }
    Ok(candidates)
}
