// Sets of any number of columns, in parts of as many columns as a column set has.
ghost use Rattle.std.specs.Prelude.{◌≡◌, ◌||◌, ◌==◌, ◌<◌, ◌≤◌, ◌*◌, ℕ, false, length, replicate, IfOk};
ghost use Rattle.col_set.specs.ColSet.{Columns};
ghost use Rattle.inclusion_merge.specs.WideSet.{has_wide};

use rel_base::{COLUMN_PLACES, ColSet};
use std::alloc::{AllocError, Global};

/// How many columns a part has.
pub(crate) const PART: usize = COLUMN_PLACES;

/// How many parts sets of so many columns have.
pub(crate) fn parts_for(columns: usize) -> usize
    ensures { columns ≤ PART * result }
{
    columns.div_ceil(PART)
}

/// So many parts, all alike.
pub(crate) fn parts_of(alloc: Global, part: ColSet, count: usize) -> Result<Vec<ColSet>, AllocError>
    ensures { IfOk result (λ parts. parts.items ≡ replicate count part) }
{
    let mut parts = Vec::with_capacity(alloc, count)?;
    for _ in 0..count {
        parts.push(part)?;
    }
    Ok(parts)
}

/// Whether a set has a column.
pub(crate) fn has_wide(parts: &[ColSet], column: usize) -> bool
    requires { column < PART * length parts.now }
    ensures { result ≡ has_wide parts.now column }
{
    parts[column / PART].has((column % PART) as u8)
}

/// Adds a column to a set.
pub(crate) fn insert_wide(parts: &mut [ColSet], column: usize)
    requires { column < PART * length parts.old }
    ensures { (k : ℕ) → has_wide parts.new k ≡ (has_wide parts.old k || k == column) }
{
    let place = column / PART;
    parts[place] = parts[place].with((column % PART) as u8);
}

/// Takes all columns off a set.
pub(crate) fn clear_wide(parts: &mut [ColSet])
    ensures { (k : ℕ) → has_wide parts.new k ≡ false }
{
    for part in parts.iter_mut() {
        *part = ColSet::empty();
    }
}
