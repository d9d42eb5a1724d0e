// Keys by agree sets.
ghost use Rattle.std.specs.Prelude.{◌≡◌, ◌<◌, ◌≤◌, ◌^◌, ℕ, IfOk};
ghost use Rattle.key_finder.specs.Keys.{completed, keys_within};

use least_sets::least_sets;
use rel_base::{ColSet, MOST_COLUMNS, Target};
use std::alloc::{AllocError, Global};

// The number of columns up to the last one of the set.
fn reach(columns: ColSet) -> u8
    ensures bound { result ≤ MOST_COLUMNS }
    ensures within { columns < 2 ^ result }
{
    let mut reach = 0;
    let mut left = columns;
    while let Some(column) = left.first() {
        if reach <= column {
            reach = column + 1;
        }
        left = left.without(column);
    }
    reach
}

// The agree sets that lack a column of the table, each with the columns outside the table, which tell none of its rows apart.
fn completed(
    alloc: Global,
    agree_sets: &[ColSet],
    columns: ColSet,
    reach: u8,
) -> Result<Vec<ColSet>, AllocError>
    requires { reach ≤ MOST_COLUMNS }
    ensures { IfOk result (λ sets. sets.items ≡ completed reach columns agree_sets.now) }
{
    let outside = ColSet::all(reach).minus(columns);
    let mut sets = Vec::new(alloc);
    for agreed in agree_sets {
        if !columns.subset_of(*agreed) {
            sets.push(agreed.union(outside))?;
        }
    }
    Ok(sets)
}

/// The minimal keys of the table of these columns, in report order, by agree sets that leave the relation's covers, as the
/// witnesses of a finished search do. The rows are not looked at.
///
/// They are the least sets for which row it is of the agree sets, where the columns outside the table count as agreed on: these are the
/// minimal hitting sets of what the agree sets leave of the table (Demetrovics and Thi, 1987). The time is that of
/// `least_sets::least_sets`: a microsecond or so a key, where the agree sets are some thousands.
pub fn table_keys_of(
    alloc: Global,
    agree_sets: &[ColSet],
    columns: ColSet,
) -> Result<Vec<ColSet>, AllocError>
    ensures { IfOk result (λ keys. (n : ℕ) → columns < 2 ^ n → keys.items ≡ keys_within n agree_sets.now columns) }
{
    let reach = reach(columns);
    let completed = completed(alloc, agree_sets, columns, reach)?;
    let keys = least_sets(alloc, reach, Target::RowId, completed.as_slice())?;
    Ok(keys)
}
