// Which inclusions are still possible.
ghost use Rattle.std.specs.Prelude.{◌≡◌, ◌≢◌, ◌&&◌, ◌<◌, ◌≤◌, ◌+◌, ◌*◌, ℕ, true, length, slice_index, IfOk, vec_len};
ghost use Rattle.col_set.specs.ColSet.{inter};
ghost use Rattle.col_set.specs.declared.col_set.TheConstants.{COLUMN_PLACES};
ghost use Rattle.inclusion_merge.specs.WideSet.{has_wide};

use crate::wide_set::{PART, has_wide, parts_for, parts_of};
use rel_base::{ColSet, MOST_COLUMNS};
use std::alloc::{AllocError, Global};

/// Which inclusions among so many columns are still possible: for each column, the set of those that it may be included in.
#[derive(Drop)]
pub(crate) struct Candidates {
    columns: usize,
    // How many parts each set has.
    parts: usize,
    kept: Vec<ColSet>,
    ghost room: { columns ≤ COLUMN_PLACES * parts },
    ghost square: { vec_len kept ≡ columns * parts },
}

impl Candidates {
    ghost use Rattle.inclusion_merge.specs.Candidates.{may};

    /// All inclusions among so many columns.
    pub(crate) fn all(alloc: Global, columns: usize) -> Result<Candidates, AllocError>
        ensures size { IfOk result (λ all. all.columns ≡ columns) }
        ensures has { IfOk result (λ all. (c d : ℕ) → c < columns → d < columns → may all c d ≡ true) }
    {
        let parts = parts_for(columns);
        let Some(count) = columns.checked_mul(parts) else {
            return Err(AllocError);
        };
        let kept = parts_of(alloc, ColSet::all(MOST_COLUMNS), count)?;
        Ok(Candidates {
            columns,
            parts,
            kept,
        })
    }

    /// How many columns there are.
    pub(crate) fn columns(&self) -> usize
        ensures { result ≡ self.now.columns }
    {
        self.columns
    }

    /// How many parts a set of these columns has.
    pub(crate) fn parts(&self) -> usize
        ensures parts { result ≡ self.now.parts }
        ensures room { self.now.columns ≤ PART * self.now.parts }
    {
        let _columns = self.columns;
        self.parts
    }

    /// Whether the first column may still be included in the second.
    pub(crate) fn has(&self, dependent: usize, referenced: usize) -> bool
        requires dependent { dependent < self.now.columns }
        requires referenced { referenced < self.now.columns }
        ensures { result ≡ may self.now dependent referenced }
    {
        has_wide(&self.kept[dependent * self.parts..], referenced)
    }

    /// The column may be included in these columns alone, of those that are left.
    pub(crate) fn keep(&mut self, dependent: usize, shared: &[ColSet])
        requires dependent { dependent < self.old.columns }
        requires shared { length shared.now ≡ self.old.parts }
        ensures columns { self.new.columns ≡ self.old.columns }
        ensures parts { self.new.parts ≡ self.old.parts }
        ensures others { (c d : ℕ) → c < self.old.columns → d < self.old.columns → c ≢ dependent → may self.new c d ≡ may self.old c d }
        ensures kept { (d : ℕ) → d < self.old.columns → may self.new dependent d ≡ (may self.old dependent d && has_wide shared.now d) }
    {
        keep_common(&mut self.kept, dependent * self.parts, shared);
    }
}

// Keeps the columns of a set that are in another too.
fn keep_common(kept: &mut [ColSet], from: usize, shared: &[ColSet])
    requires { from + length shared.now ≤ length kept.old }
    ensures before { (place : ℕ) → place < from → slice_index kept.new place ≡ slice_index kept.old place }
    ensures here { (place : ℕ) → place < length shared.now
        → slice_index kept.new (from + place) ≡ inter (slice_index kept.old (from + place)) (slice_index shared.now place) }
    ensures behind { (place : ℕ) → from + length shared.now ≤ place → slice_index kept.new place ≡ slice_index kept.old place }
{
    for place in 0..shared.len() {
        kept[from + place] = kept[from + place].inter(shared[place]);
    }
}
