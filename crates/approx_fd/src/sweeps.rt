// Sweeps over the left sides of all columns together, by size. What they find is a hint for the rounds of each column.
ghost use Rattle.std.specs.Prelude.{◌≡◌, ◌<◌, ◌≤◌, ◌^◌, ◌++◌, [], true, false, IfOk, OnOk, length};
ghost use Rattle.std.specs.List.{All};
ghost use Rattle.col_set.specs.declared.target.Target.TheVariants.{Col};
ghost use Rattle.col_set.specs.declared.col_set.TheConstants.{MOST_COLUMNS};
ghost use Rattle.col_set.specs.Target.{has_target};
ghost use Rattle.approx_fd.specs.Removal.{removed_in};
ghost use Rattle.approx_fd.specs.Approximate.{nearly_least};
ghost use Rattle.approx_fd.specs.Search.{IsFailing, IsCounted, AreOwn, counted};
ghost use Rattle.approx_fd.specs.Sweeps.{IsFailure, IsCount, AreFindings};

use crate::candidates::{Candidate, any_larger, of_size};
use crate::climb::{Climb, groups_of};
use crate::found::{Approx, NearKey};
use crate::removal::is_above;
use crate::search::Search;
use crate::seen::{Failure, Seen};
use rel_base::{ColSet, Fd, Target};
use std::alloc::{AllocError, Global};

// What sweeps find: sets that fail, and left sides for which few enough rows are to be removed.
#[derive(Drop)]
pub(crate) struct Findings {
    pub(crate) failures: Vec<Failure>,
    pub(crate) counts: Vec<Approx>,
}

// Which of the candidates are judged: of stretches of so many the first, and each that comes so many stretches later.
#[derive(Clone, Copy)]
pub(crate) struct Share {
    pub(crate) stretch: usize,
    pub(crate) first: usize,
    pub(crate) step: usize,
}

impl Share {
    // All of them.
    fn whole() -> Share {
        Share {
            stretch: 1,
            first: 0,
            step: 1,
        }
    }

    fn has(self, place: usize) -> bool {
        place / self.stretch.max(1) % self.step.max(1) == self.first
    }
}

impl Findings {
    pub(crate) fn none(alloc: Global) -> Findings
        ensures failures { result.failures.items ≡ [] }
        ensures counts { result.counts.items ≡ [] }
    {
        Findings {
            failures: Vec::new(alloc),
            counts: Vec::new(alloc),
        }
    }

    // Adds what others found.
    pub(crate) fn add(&mut self, more: &Findings) -> Result<(), AllocError>
        ensures failures { OnOk result (self.new.failures.items ≡ self.old.failures.items ++ more.now.failures.items) }
        ensures counts { OnOk result (self.new.counts.items ≡ self.old.counts.items ++ more.now.counts.items) }
    {
        self.failures.extend_from_slice(more.failures.as_slice())?;
        self.counts.extend_from_slice(more.counts.as_slice())?;
        Ok(())
    }
}

// Whether a set can be a left side of a column of so many.
fn is_left_side(set: ColSet, column: u8, columns: u8) -> bool
    requires { columns ≤ MOST_COLUMNS }
    ensures within { result ≡ true → set < 2 ^ columns }
    ensures lacks { result ≡ true → has_target set (Col column) ≡ false }
    ensures column { result ≡ true → column < columns }
{
    if column >= columns || set.has_target(Target::Col(column)) {
        return false;
    }
    set.subset_of(ColSet::all(columns))
}

impl<'a> Search<'a> {
    // Whether the set of a climb fails for a column.
    fn fails_for(&mut self, climb: &Climb, column: u8) -> bool
        requires column { column < length self.old.table.codes }
        requires climb { AreOwn self.old.table self.old.at climb.now.columns climb.now.own }
        ensures same { self.new ≡ self.old }
        ensures failing { result ≡ true → IsFailing self.old.table self.old.most (Col column) climb.now.columns }
    {
        // `columns` is called for its clause that there are at most 128.
        let _bounds = self.columns();
        let target = Target::Col(column);
        if climb.columns.has_target(target) {
            return false;
        }
        let groups = groups_of(&self.path, climb);
        is_above(groups, self.snapshot, target, self.most, &mut self.tally)
    }

    // Tries the set of a climb, which fails for some column, on all columns outside it.
    fn spread(
        &mut self,
        climb: &Climb,
        seen: &Seen,
        fresh: &mut Seen,
        found: &mut Findings,
    ) -> Result<(), AllocError>
        requires climb { AreOwn self.old.table self.old.at climb.now.columns climb.now.own }
        requires found { AreFindings self.old.table self.old.most found.old }
        ensures same { self.new ≡ self.old }
        ensures found { OnOk result (AreFindings self.old.table self.old.most found.new) }
    {
        let set = climb.columns;
        for column in 0..self.columns() {
            if seen.refutes(column, set) || fresh.refutes(column, set) {
                continue;
            }
            if self.fails_for(climb, column) {
                fresh.note(column, set)?;
                found.failures.push(Failure { column, set })?;
            }
        }
        Ok(())
    }

    // Judges a candidate: rows are counted, and where they are too many the left side is grown to a set that fails.
    fn judge(
        &mut self,
        candidate: Candidate,
        seen: &Seen,
        fresh: &mut Seen,
        found: &mut Findings,
    ) -> Result<(), AllocError>
        requires found { AreFindings self.old.table self.old.most found.old }
        ensures table { self.new.table ≡ self.old.table }
        ensures most { self.new.most ≡ self.old.most }
        ensures found { OnOk result (AreFindings self.old.table self.old.most found.new) }
    {
        let left = candidate.left;
        let right = candidate.column;
        if !is_left_side(left, right, self.columns()) {
            return Ok(());
        }
        if fresh.refutes(right, left) {
            return Ok(());
        }
        let target = Target::Col(right);
        match self.removed(left, target)? {
            Some(removed) => {
                let fd = Fd { left, right };
                found.counts.push(Approx { fd, removed })?;
                Ok(())
            }
            None => {
                let climb = self.climb_from(left, target)?;
                self.spread(&climb, seen, fresh, found)
            }
        }
    }

    // Judges the candidates of a share, which stand in their order. Those inside a set that fails as it has turned out are not looked at.
    pub(crate) fn judged_of(
        &mut self,
        candidates: &[Candidate],
        share: Share,
        seen: &Seen,
    ) -> Result<Findings, AllocError>
        ensures table { self.new.table ≡ self.old.table }
        ensures most { self.new.most ≡ self.old.most }
        ensures found { IfOk result (AreFindings self.old.table self.old.most) }
    {
        let mut fresh = Seen::none(self.alloc, self.columns())?;
        let mut found = Findings::none(self.alloc);
        for (place, candidate) in candidates.iter().enumerate() {
            if share.has(place) {
                self.judge(*candidate, seen, &mut fresh, &mut found)?;
            }
        }
        Ok(found)
    }

    // What sweeps by size find, until no column has a candidate left.
    //
    // A left side is judged for all its columns at once, on groups that go from one left side to the next. One that fails is grown, and
    // what comes of that is tried on the other columns too, since its groups are small by then.
    pub(crate) fn swept(&mut self) -> Result<Findings, AllocError>
        ensures table { self.new.table ≡ self.old.table }
        ensures most { self.new.most ≡ self.old.most }
        ensures found { IfOk result (AreFindings self.old.table self.old.most) }
    {
        let alloc = self.alloc;
        let snapshot = self.snapshot;
        let columns = self.columns();
        let mut seen = Seen::none(alloc, columns)?;
        let mut found = Findings::none(alloc);
        for size in 0..u32::from(columns) + 1 {
            let candidates = of_size(alloc, snapshot, self.order, &seen, size)?;
            if candidates.is_empty() && !any_larger(alloc, snapshot, &seen, size)? {
                break;
            }
            let more = self.judged_of(candidates.as_slice(), Share::whole(), &seen)?;
            seen.note_all(more.failures.as_slice())?;
            found.add(&more)?;
        }
        Ok(found)
    }

    // The sets among these that fail for a column.
    fn evidence_of(&self, failures: &[Failure], column: u8) -> Result<Vec<ColSet>, AllocError>
        requires { All (IsFailure self.now.table self.now.most) failures.now }
        ensures { IfOk result (λ sets. All (IsFailing self.now.table self.now.most (Col column)) sets.items) }
    {
        let mut sets = Vec::new(self.alloc);
        for failure in failures {
            if failure.column == column {
                sets.push(failure.set)?;
            }
        }
        Ok(sets)
    }

    // The left sides of a column among these, in report order.
    fn counts_of(&self, counts: &[Approx], column: u8) -> Result<Vec<NearKey>, AllocError>
        requires { All (IsCount self.now.table self.now.most) counts.now }
        ensures { IfOk result (λ held. All (IsCounted self.now.table self.now.most (Col column)) held.items) }
    {
        let mut held = Vec::new(self.alloc);
        for count in counts {
            if count.fd.right == column {
                held.push(NearKey {
                    columns: count.fd.left,
                    removed: count.removed,
                })?;
            }
        }
        held.sort_unstable();
        Ok(held)
    }

    // The minimal left sides of a column, by what sweeps found.
    pub(crate) fn settled_by(
        &mut self,
        column: u8,
        found: &Findings,
    ) -> Result<Vec<NearKey>, AllocError>
        requires column { column < length self.old.table.codes }
        requires found { AreFindings self.old.table self.old.most found.now }
        ensures table { self.new.table ≡ self.old.table }
        ensures most { self.new.most ≡ self.old.most }
        ensures found { IfOk result (λ found. found.items ≡ counted self.old.table (Col column) (nearly_least (length self.old.table.codes) (λ x. removed_in self.old.table x (Col column)) self.old.most (Col column))) }
    {
        let evidence = self.evidence_of(found.failures.as_slice(), column)?;
        let held = self.counts_of(found.counts.as_slice(), column)?;
        let lefts = self.settled(Target::Col(column), evidence, held)?;
        Ok(lefts)
    }
}
