// What a session keeps between its reports to find the inclusions among the columns of its relation.
ghost use Rattle.std.specs.Prelude.{◌≡◌, ◌++◌, ◌∷◌, [], ◌<◌, ◌≤◌, map, slice_index_or, IfOk, OnOk};
ghost use Rattle.std.specs.List.{filter};
ghost use Rattle.col_set.specs.ColSet.{empty, upto};
ghost use Rattle.col_set.specs.declared.col_set.TheConstants.{MOST_COLUMNS};
ghost use Rattle.rel_base.specs.Inclusion as inclusion;
ghost use Rattle.rel_base.specs.RowState as state;
ghost use Rattle.profile_text.specs.Including.{AreIncludedIn, IsIncludedIn};
ghost use Rattle.profile_text.specs.Reports.{inclusion_lines};

use rel_base::{COLUMN_PLACES, ColSet};
use report_text::Lines;
use row_log::{LiveCells, RowLog};
use std::alloc::{AllocError, Global};

/// For each two columns of a relation, by the dependent and then by the referenced one, the code of a cell by which the one was not
/// included in the other when that was last looked at.
///
/// The codes are hints: the inclusions are found right whatever they are. They take 512 bytes a column, which the first report asks for.
#[derive(Drop)]
pub(crate) struct KeptInclusions {
    hints: Vec<u32>,
}

impl KeptInclusions {
    /// Nothing was looked at yet.
    pub(crate) fn new(alloc: Global) -> KeptInclusions {
        KeptInclusions {
            hints: Vec::new(alloc),
        }
    }

    /// Adds the lines of all inclusions among the columns of these rows.
    ///
    /// It copies no cell and sorts none. For each column it takes a step a row until all its codes were met: where some cell is that of no
    /// live row, a step for each row ever given. A pair of columns whose hint is still right takes one look-up in a dictionary, and an
    /// inclusion that is looked up one for each distinct cell of the dependent column. What includes an earlier column is known with no
    /// look-up to include all that is found to be included in that column: of equal columns the first is looked up in each of the others,
    /// and each further one in the first alone. Long columns of which each is included in the next are looked up pair by pair, and so are
    /// dear where they are many. While it runs it has a set of columns for each column.
    pub(crate) fn push_inclusions(
        &mut self,
        alloc: Global,
        rows: &RowLog,
        lines: &mut Lines,
    ) -> Result<(), AllocError>
        ensures { OnOk result (lines.new ≡ lines.old ++ inclusion_lines (rows.now ∷ [])) }
    {
        let width = rows.names().len() as u8;
        let pairs = self.among(alloc, rows, width)?;
        lines.push_inclusions(&[width], &pairs)
    }

    // Every inclusion among the columns of these rows, of which there are so many.
    fn among(
        &mut self,
        alloc: Global,
        rows: &RowLog,
        width: u8,
    ) -> Result<Vec<(usize, usize)>, AllocError>
        requires width { width ≡ state.width rows.now }
        requires narrow { width ≤ MOST_COLUMNS }
        ensures { IfOk result (λ pairs. pairs.items ≡ inclusion.inclusions (inclusion.all_columns (rows.now ∷ []))) }
    {
        self.make_room(alloc, width)?;
        let live = rows.live_cells(alloc)?;
        let mut pairs = Vec::new(alloc);
        let mut earlier = Vec::new(alloc);
        for dependent in 0..width {
            let referenced = self.push_inclusions_of(
                &mut pairs, &live, width, dependent, &earlier,
            )?;
            earlier.push(referenced)?;
        }
        Ok(pairs)
    }

    // Makes a hint for each pair of so many columns, if there are none yet.
    fn make_room(&mut self, alloc: Global, width: u8) -> Result<(), AllocError> {
        let pairs = width as usize * COLUMN_PLACES;
        if self.hints.len() != pairs {
            self.hints = vec![in alloc; 0; pairs]?;
        }
        Ok(())
    }

    // Adds the inclusions of one column in the others, and gives the columns that it is included in. Those that each earlier column is
    // included in are given: where this column is included in an earlier one, it is included in those too.
    fn push_inclusions_of(
        &mut self,
        pairs: &mut Vec<(usize, usize)>,
        live: &LiveCells,
        width: u8,
        dependent: u8,
        earlier: &[ColSet],
    ) -> Result<ColSet, AllocError>
        requires width { width ≡ state.width live.now }
        requires narrow { width ≤ MOST_COLUMNS }
        requires dependent { dependent < width }
        requires earlier { AreIncludedIn (inclusion.all_columns (live.now ∷ [])) earlier.now }
        ensures pairs { OnOk result (pairs.new.items ≡ pairs.old.items
            ++ filter (λ p. inclusion.included (inclusion.all_columns (live.now ∷ [])) p.0 p.1) (map (λ d. (dependent, d)) (upto width))) }
        ensures referenced { IfOk result (λ referenced. IsIncludedIn (inclusion.all_columns (live.now ∷ [])) dependent referenced) }
    {
        let mut known = ColSet::empty();
        for referenced in 0..width {
            if self.is_included(live, width, dependent, referenced, known) {
                let further = set_at(earlier, referenced);
                known = known.with(referenced).union(further).without(dependent);
                pairs.push((dependent as usize, referenced as usize))?;
            }
        }
        Ok(known)
    }

    // Whether one column is included in another, with no look-up where that is known. Where it is not included it keeps why.
    fn is_included(
        &mut self,
        live: &LiveCells,
        width: u8,
        dependent: u8,
        referenced: u8,
        known: ColSet,
    ) -> bool
        requires width { width ≡ state.width live.now }
        requires narrow { width ≤ MOST_COLUMNS }
        requires dependent { dependent < width }
        requires referenced { referenced < width }
        requires known { IsIncludedIn (inclusion.all_columns (live.now ∷ [])) dependent known }
        ensures { result ≡ inclusion.included (inclusion.all_columns (live.now ∷ [])) dependent referenced }
    {
        if known.has(referenced) {
            return true;
        }
        if dependent == referenced {
            return false;
        }
        let pair = dependent as usize * COLUMN_PLACES + referenced as usize;
        match live.lacking(dependent, referenced, self.hint(pair)) {
            Some(code) => {
                self.keep(pair, code);
                false
            }
            None => true,
        }
    }

    // The hint of a pair.
    fn hint(&self, pair: usize) -> u32 {
        self.hints.get(pair).copied().unwrap_or(0)
    }

    // Keeps a hint of a pair.
    fn keep(&mut self, pair: usize, hint: u32) {
        if let Some(kept) = self.hints.get_mut(pair) {
            *kept = hint;
        }
    }
}

// The set of a column, and no columns for one beyond the last set.
fn set_at(sets: &[ColSet], column: u8) -> ColSet
    ensures { result ≡ slice_index_or sets.now column empty }
{
    match sets.get(column as usize) {
        Some(set) => *set,
        None => ColSet::empty(),
    }
}
