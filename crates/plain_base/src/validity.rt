// What holds among rows, by the agree sets of every two of them.
ghost use Rattle.std.specs.Prelude.{◌≡◌, ◌<◌, ◌^◌, length, map, IfOk};
ghost use Rattle.std.specs.List.{All};
ghost use Rattle.col_set.specs.Target.{IsColumnTarget};
ghost use Rattle.rel_base.specs.RowState.{IsRowState, row, width};
ghost use Rattle.rel_base.specs.Validity as validity;
ghost use Rattle.rel_base.specs.Covers as cover_words;
ghost use Rattle.rel_base.specs.Projection as projection;

use crate::{PlainRows, agree_sets, least_covers, projected};
use col_set::{ColSet, MOST_COLUMNS, Target};
use rel_base::{Covers, Row};
use std::alloc::{AllocError, Global};

impl PlainRows {
    /// Copies of the live rows, by ascending number.
    pub fn live_rows(&self, alloc: Global) -> Result<Vec<Row>, AllocError>
        ensures rows { IfOk result (λ rows. rows.items ≡ map (row self.now) self.now.live) }
        ensures wide { IfOk result (λ rows. All (λ row. length row ≡ width self.now) rows.items) }
        ensures state { IsRowState self.now }
    {
        let given = self.given();
        let mut rows = Vec::new(alloc);
        for number in self.live() {
            rows.push(given[(*number - 1) as usize].clone()?)?;
        }
        Ok(rows)
    }

    /// The agree sets of every two different live rows: of each with each later one.
    pub fn agree_sets(&self, alloc: Global) -> Result<Vec<ColSet>, AllocError>
        ensures { IfOk result (λ sets. sets.items ≡ validity.agree_sets self.now) }
    {
        let rows = self.live_rows(alloc)?;
        agree_sets(
            alloc,
            self.nulls(),
            self.names().len() as u8,
            rows.as_slice(),
        )
    }

    /// Whether these columns determine the target among the live rows.
    pub fn holds(&self, alloc: Global, x: ColSet, target: Target) -> Result<bool, AllocError>
        requires { IsColumnTarget MOST_COLUMNS target }
        ensures { IfOk result (λ holds. holds ≡ validity.holds self.now x target) }
    {
        let sets = self.agree_sets(alloc)?;
        Ok(determines(sets.as_slice(), x, target))
    }

    /// Whether these columns determine the target among the live rows with a number below this one.
    pub fn holds_below(
        &self,
        alloc: Global,
        bound: u32,
        x: ColSet,
        target: Target,
    ) -> Result<bool, AllocError>
        requires { IsColumnTarget MOST_COLUMNS target }
        ensures { IfOk result (λ holds. holds ≡ validity.holds_below bound self.now x target) }
    {
        self.below(alloc, bound)?.holds(alloc, x, target)
    }

    /// All minimal keys and minimal dependencies of the live rows.
    pub fn covers(&self, alloc: Global) -> Result<Covers, AllocError>
        ensures { IfOk result (λ found. found ≡ cover_words.covers self.now) }
    {
        let sets = self.agree_sets(alloc)?;
        least_covers(alloc, self.names().len() as u8, sets.as_slice())
    }

    /// The distinct parts of the live rows in some columns, by ascending number.
    pub fn projection(&self, alloc: Global, columns: ColSet) -> Result<Vec<Row>, AllocError>
        requires { columns < 2 ^ width self.now }
        ensures { IfOk result (λ parts. parts.items ≡ projection.projection self.now columns) }
    {
        let rows = self.live_rows(alloc)?;
        projected(alloc, columns, rows.as_slice())
    }
}

// Whether each of these agree sets that contains x contains the target.
fn determines(agree_sets: &[ColSet], x: ColSet, target: Target) -> bool
    requires { IsColumnTarget MOST_COLUMNS target }
    ensures { result ≡ validity.determined agree_sets.now x target }
{
    agree_sets
        .iter()
        .all(|w| !x.subset_of(*w) || w.has_target(target))
}
