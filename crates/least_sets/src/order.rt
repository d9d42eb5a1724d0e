// Many column sets in report order, by way of one list for each number of columns.
ghost use Rattle.std.specs.Prelude.{◌≡◌, ℕ, IfOk};
ghost use Rattle.col_set.specs.ColSet.{report_cmp};
ghost use Rattle.col_set.specs.Lists.{Rises};
ghost use Rattle.least_sets.specs.BySize.{first_cmp, AreSized, AreBySize};
ghost use Rattle.least_sets.specs.Drafts.{lists_behind};
ghost use Rattle.least_sets.specs.Members.{HasMembers};

use crate::filing::empty_lists;
use rel_base::{ColSet, MOST_COLUMNS};
use std::alloc::{AllocError, Global};
use std::cmp::Ordering;

// Of two sets the one that has the least column that only one of them has stands first.
fn cmp_first(x: ColSet, y: ColSet) -> Ordering
    ensures { result ≡ first_cmp x y }
{
    match x.minus(y).union(y.minus(x)).first() {
        None => Ordering::Equal,
        Some(column) => {
            if x.has(column) {
                Ordering::Less
            } else {
                Ordering::Greater
            }
        }
    }
}

// The sets with no columns, those with one, and so on.
fn by_size(alloc: Global, sets: Vec<ColSet>) -> Result<Vec<Vec<ColSet>>, AllocError>
    ensures { IfOk result (λ lists. AreBySize sets.items (lists_behind lists.items)) }
{
    let mut lists = empty_lists(alloc, MOST_COLUMNS + 1)?;
    for x in sets.as_slice() {
        lists[x.len() as usize].push(*x)?;
    }
    Ok(lists)
}

// Sets with the same number of columns in report order, each once.
fn sorted_run(alloc: Global, sets: &[ColSet]) -> Result<Vec<ColSet>, AllocError>
    ensures order { IfOk result (λ run. (n : ℕ) → AreSized n sets.now → Rises report_cmp run.items) }
    ensures members { IfOk result (λ run. HasMembers sets.now run.items) }
{
    let mut made = Vec::with_capacity(alloc, sets.len())?;
    made.extend_from_slice(sets)?;
    made.sort_unstable_by(
        |x: &ColSet, y: &ColSet| -> Ordering
            ensures { result ≡ first_cmp x.now y.now }
        { cmp_first(*x, *y) },
    );
    made.dedup();
    Ok(made)
}

// The sets in report order, each once. Sets with the same number of columns are compared by their first difference alone, which takes
// a fraction of the time of the whole order.
pub(crate) fn in_order(alloc: Global, sets: Vec<ColSet>) -> Result<Vec<ColSet>, AllocError>
    ensures order { IfOk result (λ made. Rises report_cmp made.items) }
    ensures members { IfOk result (λ made. HasMembers sets.items made.items) }
{
    let mut made = Vec::with_capacity(alloc, sets.len())?;
    let lists = by_size(alloc, sets)?;
    for list in lists.as_slice() {
        let ranked = sorted_run(alloc, list.as_slice())?;
        made.extend_from_slice(ranked.as_slice())?;
    }
    Ok(made)
}

// The sets in report order, each once, where the memory that they stand in is used.
pub(crate) fn sorted(mut sets: Vec<ColSet>) -> Vec<ColSet>
    ensures order { Rises report_cmp result.items }
    ensures members { HasMembers sets.items result.items }
{
    sets.sort_unstable();
    sets.dedup();
    sets
}
