// From a left side that fails to a greatest one that still fails.
ghost use Rattle.std.specs.Prelude.{◌≡◌, ◌<◌, ◌≤◌, ◌^◌, true, false, IfOk, length};
ghost use Rattle.col_set.specs.ColSet.{IsSubset, with};
ghost use Rattle.col_set.specs.declared.col_set.TheConstants.{MOST_COLUMNS};
ghost use Rattle.col_set.specs.Target.{IsColumnTarget, is_target};
ghost use Rattle.stripped_partition.specs.AnyOrder.{AreGroupsBy, AreGroupsOf};
ghost use Rattle.approx_fd.specs.Search.{IsFailing, IsClimb, AreOwn};

use crate::removal::is_above;
use crate::search::Search;
use rel_base::{ColSet, Target};
use std::alloc::{AllocError, Global};
use std::mem;
use stripped_partition::{Partition, Path, Scratch};

// A left side that fails, and its groups, if they are not those that the search has at hand.
#[derive(Drop)]
pub(crate) struct Climb {
    pub(crate) columns: ColSet,
    pub(crate) own: Option<Partition>,
}

impl<'a> Search<'a> {
    // A set that contains a left side which fails, and fails too, as no set does that has one column more besides the target.
    pub(crate) fn grown(&mut self, left: ColSet, target: Target) -> Result<ColSet, AllocError>
        requires left { left < 2 ^ length self.old.table.codes }
        requires target { IsColumnTarget (length self.old.table.codes) target }
        requires failing { IsFailing self.old.table self.old.most target left }
        ensures table { self.new.table ≡ self.old.table }
        ensures most { self.new.most ≡ self.old.most }
        ensures failing { IfOk result (IsFailing self.old.table self.old.most target) }
        ensures inside { IfOk result (IsSubset left) }
    {
        let climb = self.climb_from(left, target)?;
        Ok(climb.columns)
    }

    // The same with the groups by that set.
    //
    // Columns are tried one after another, those first that leave most rows together. It takes a refinement for each column.
    pub(crate) fn climb_from(&mut self, left: ColSet, target: Target) -> Result<Climb, AllocError>
        requires left { left < 2 ^ length self.old.table.codes }
        requires target { IsColumnTarget (length self.old.table.codes) target }
        requires failing { IsFailing self.old.table self.old.most target left }
        ensures table { self.new.table ≡ self.old.table }
        ensures most { self.new.most ≡ self.old.most }
        ensures climb { IfOk result (IsClimb self.new target) }
        ensures inside { IfOk result (λ climb. IsSubset left climb.columns) }
    {
        self.path.go_to(left)?;
        let mut climb = Climb {
            columns: left,
            own: None,
        };
        let order = self.order;
        for column in order.iter().rev() {
            climb = self.climbed(climb, *column, target)?;
        }
        Ok(climb)
    }

    // The climb with a column more, if it still fails then.
    fn climbed(&mut self, climb: Climb, column: u8, target: Target) -> Result<Climb, AllocError>
        requires target { IsColumnTarget (length self.old.table.codes) target }
        requires climb { IsClimb self.old target climb }
        ensures same { self.new ≡ self.old }
        ensures climb { IfOk result (IsClimb self.old target) }
        ensures inside { IfOk result (λ next. IsSubset climb.columns next.columns) }
    {
        if !is_free(column, self.columns(), climb.columns, target) {
            return Ok(climb);
        }
        let finer = self.refined(&climb, column)?;
        if is_above(&finer, self.snapshot, target, self.most, &mut self.tally) {
            return Ok(Climb {
                columns: climb.columns.with(column),
                own: Some(finer),
            });
        }
        Ok(climb)
    }

    // The groups by one column more.
    fn refined(&mut self, climb: &Climb, column: u8) -> Result<Partition, AllocError>
        requires column { column < length self.old.table.codes }
        requires climb { AreOwn self.old.table self.old.at climb.now.columns climb.now.own }
        ensures same { self.new ≡ self.old }
        ensures by { IfOk result (AreGroupsBy self.old.table (with climb.now.columns column)) }
        ensures of { IfOk result (AreGroupsOf self.old.table) }
    {
        let alloc = self.alloc;
        let snapshot = self.snapshot;
        // After want of memory some slots may hold counts, so they go with it.
        let mut slots = mem::replace(&mut self.slots, Vec::new(alloc));
        let mut scratch = mem::replace(&mut self.scratch, Scratch::new(alloc));
        let groups = groups_of(&self.path, climb);
        let finer = groups.refine_unordered(alloc, snapshot, column, &mut slots, &mut scratch)?;
        self.slots = slots;
        self.scratch = scratch;
        Ok(finer)
    }
}

// The groups of a climb: its own, or those of the path.
pub(crate) fn groups_of<'b>(path: &'b Path<'_>, climb: &'b Climb) -> &'b Partition
    requires { AreOwn path.now.table path.now.columns climb.now.columns climb.now.own }
    ensures by { AreGroupsBy path.now.table climb.now.columns result.now }
    ensures of { AreGroupsOf path.now.table result.now }
{
    match &climb.own {
        Some(groups) => groups,
        None => path.groups(),
    }
}

// Whether it is one of so many columns, and neither in the set nor the target.
fn is_free(column: u8, columns: u8, set: ColSet, target: Target) -> bool
    requires { columns ≤ MOST_COLUMNS }
    ensures within { result ≡ true → column < columns }
    ensures apart { result ≡ true → is_target column target ≡ false }
{
    column < columns && !set.has(column) && !target.is_column(column)
}
