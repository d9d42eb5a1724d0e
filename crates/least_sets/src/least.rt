// The least sets of one target by some agree sets.
ghost use Rattle.std.specs.Prelude.{◌≡◌, ◌≤◌, ◌==◌, IfOk};
ghost use Rattle.std.specs.List.{All, filter};
ghost use Rattle.col_set.specs.ColSet as words;
ghost use Rattle.col_set.specs.Target.{IsColumnTarget};
ghost use Rattle.col_set.specs.Evidence.{least, IsLeast};

use crate::branching::least_on_blank;
use crate::growth::choices;
use crate::order::in_order;
use rel_base::{ColSet, MOST_COLUMNS, Target};
use std::alloc::{AllocError, Global};
use std::marker::Brand;
use std::sync::ledger::Blank;

/// The least sets of a target of so many columns by these agree sets, in report order: the sets without the target that lie inside no
/// agree set that lacks it, and of which each proper subset does.
///
/// They are the minimal hitting sets of what the agree sets leave outside, found by branches over a column: the sets with it, and those
/// without it. A branch ends where a chosen column keeps no agree set of its own, the criticality of MMCS (Murakami and Uno, 2014), so no
/// set is found twice or is not least. That takes a microsecond or so for each set that is found where the agree sets are some thousands;
/// there is no bound by the size of what comes out alone (Fredman and Khachiyan, 1996), and the sets may be as many as half of all columns
/// choose. It takes 16 bytes for each agree set and each set found, a few times over. What to call it for: the left sides that agree sets
/// leave (HyFD, Papenbrock and Naumann, 2016), minimal keys and other borders (Gunopulos, Khardon, Mannila and Toivonen, 1997).
///
/// An `AllocError` comes where memory is refused.
pub fn least_sets(
    alloc: Global,
    columns: u8,
    target: Target,
    agree_sets: &[ColSet],
) -> Result<Vec<ColSet>, AllocError>
    requires columns { columns ≤ MOST_COLUMNS }
    requires target { IsColumnTarget columns target }
    ensures { IfOk result (λ sets. sets.items ≡ least columns agree_sets.now target) }
{
    let choices = choices(columns, target);
    let found = least_on_blank::<Brand>(alloc, choices, target, agree_sets, None, Blank::new(1))?;
    let sets = in_order(alloc, found)?;
    Ok(sets)
}

/// Those of the least sets of a target that have just so many columns, in no order, and some of them may be missing.
///
/// They are found by the same branches, which go no further than so many columns: that takes a small part of the time where most least
/// sets have more. Each set that comes is one of the least, and has so many columns. No contract says that none is missing: who needs
/// all has `least_sets`.
///
/// An `AllocError` comes where memory is refused.
pub fn least_sets_of_size(
    alloc: Global,
    columns: u8,
    target: Target,
    agree_sets: &[ColSet],
    size: u32,
) -> Result<Vec<ColSet>, AllocError>
    requires columns { columns ≤ MOST_COLUMNS }
    requires target { IsColumnTarget columns target }
    ensures least { IfOk result (λ sets. All (IsLeast columns agree_sets.now target) sets.items) }
    ensures sized { IfOk result (λ sets. All (λ x. words.size x ≡ size) sets.items) }
{
    let choices = choices(columns, target);
    let most = Some(size);
    let found = least_on_blank::<Brand>(alloc, choices, target, agree_sets, most, Blank::new(1))?;
    let sets = of_size(alloc, found.as_slice(), size)?;
    Ok(sets)
}

// Those of the sets that have so many columns.
pub(crate) fn of_size(alloc: Global, found: &[ColSet], size: u32) -> Result<Vec<ColSet>, AllocError>
    ensures { IfOk result (λ sets. sets.items ≡ filter (λ x. words.size x == size) found.now) }
{
    let mut sets = Vec::new(alloc);
    for x in found {
        if x.len() == size {
            sets.push(*x)?;
        }
    }
    Ok(sets)
}
