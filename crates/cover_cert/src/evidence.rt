// Which witnesses a certificate needs.
ghost use Rattle.std.specs.Prelude.{◌≡◌, ◌<◌, ◌≤◌, ◌^◌, ◌↔◌, true, IfOk};
ghost use Rattle.std.specs.List.{All};
ghost use Rattle.col_set.specs.declared.col_set.TheConstants.{MOST_COLUMNS};
ghost use Rattle.col_set.specs.declared.target.Target.{Target};
ghost use Rattle.col_set.specs.ColSet.{Columns, union};
ghost use Rattle.col_set.specs.Evidence.{refuted};
ghost use Rattle.col_set.specs.Lists.{Listed};
ghost use Rattle.negative_cover.specs.Witnesses.{sets_of};
ghost use Rattle.set_tree.specs.Pairs.{keys};
ghost use Rattle.cover_cert.specs.Evidence.{IsJoined};

use col_set::ColSet;
use negative_cover::Witness;
use set_tree::SetTree;
use std::alloc::{AllocError, Global};

// The witnesses, those with the fewest columns first.
fn by_size(alloc: Global, witnesses: &[Witness]) -> Result<Vec<Witness>, AllocError>
    ensures { IfOk result (λ sorted. (w : _) → Listed w sorted.items ↔ Listed w witnesses.now) }
{
    let mut sorted = Vec::with_capacity(alloc, witnesses.len())?;
    sorted.extend_from_slice(witnesses)?;
    sorted.sort_unstable_by_key(|witness| witness.agree.len());
    Ok(sorted)
}

// Whether some of the sets lie inside this one, and have all its columns together.
fn is_joined(sets: &SetTree<()>, set: ColSet) -> bool
    ensures { result ≡ true → IsJoined (keys sets.now) set }
{
    let join = |joined: ColSet, part: ColSet, _: ()| -> ColSet
        ensures { result ≡ union joined part }
    { joined.union(part) };
    sets.any_subset_of(set) && sets.fold_subsets_of(set, ColSet::empty(), join) == set
}

/// Those of the witnesses that are needed: whatever the agree sets of all refute, theirs refute. One goes where each column that its agree set lacks is
/// lacked by a larger one, so none of the others can: an agree set that is the largest of those which lack a column refutes what no other does.
///
/// A walk over the sets inside one is made for each witness.
pub(crate) fn needed(
    alloc: Global,
    columns: u8,
    witnesses: &[Witness],
) -> Result<Vec<Witness>, AllocError>
    requires { columns ≤ MOST_COLUMNS }
    ensures among { IfOk result (λ kept. (w : _) → Listed w kept.items → Listed w witnesses.now) }
    ensures whole { IfOk result (λ kept. All (λ w. w.agree < 2 ^ columns) witnesses.now → (t : Target) (x : Columns)
        → refuted (sets_of witnesses.now) t x ≡ true → refuted (sets_of kept.items) t x ≡ true) }
{
    let all = ColSet::all(columns);
    let mut rest = by_size(alloc, witnesses)?;
    let mut kept = Vec::new(alloc);
    let mut lacking = SetTree::new(alloc);
    while let Some(witness) = rest.pop() {
        let lacks = all.minus(witness.agree);
        if !is_joined(&lacking, lacks) {
            lacking.insert(lacks, ())?;
            kept.push(witness)?;
        }
    }
    Ok(kept)
}
