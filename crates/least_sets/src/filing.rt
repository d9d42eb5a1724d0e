// Agree sets as they come in, filed by the columns that they have and by the targets for which they tell something.
ghost use Rattle.std.specs.Prelude.{if◌then◌else◌, ◌≡◌, ◌≤◌, ◌<◌, ◌∷◌, [], ◌++◌, ◌&&◌, ℕ, true, false, length, replicate, IfOk, OnOk};
ghost use Rattle.std.specs.List.{list_any};
ghost use Rattle.col_set.specs.ColSet.{empty, has, subset, union, minus};
ghost use Rattle.col_set.specs.Target.{IsColumnTarget};
ghost use Rattle.col_set.specs.declared.target.Target.{Target as TargetSpec};
ghost use Rattle.col_set.specs.declared.target.Target.TheVariants.{Col, RowId};
ghost use Rattle.col_set.specs.Evidence.{refuted};
ghost use Rattle.least_sets.specs.Drafts.{Drafted, AreFiled, AreAdded, is_news, lists_behind};

use rel_base::{ColSet, MOST_COLUMNS, Target};
use std::alloc::{AllocError, Global};
use std::marker::Model;

/// Agree sets that came in one after another, with lists of them by column and by target.
///
/// Contracts see them. For each column stand those that have it, since the sets that contain another are among those that have the
/// rarest of its columns. For each target stand those that lack it; of those noted one after another only the ones that lie inside no
/// earlier one that lacks it: where the largest come first, these are the outermost ones, and they refute all that is refuted.
#[derive(Drop)]
pub(crate) struct Filing {
    agree_sets: Vec<ColSet>,
    having: Vec<Vec<ColSet>>,
    row_id: Vec<ColSet>,
    lacking: Vec<Vec<ColSet>>,
}

impl Model for Filing {
    ghost use Rattle.std.specs.Prelude.{length};
    ghost use Rattle.least_sets.specs.Drafts.{Drafted, IsFiling, lists_behind};

    ghost Value = { Drafted };

    ghost view = { λ f. record { width = length f.having.items; agree_sets = f.agree_sets.items } };

    ghost invariant = { λ f. IsFiling (length f.having.items) f.agree_sets.items (lists_behind f.having.items) f.row_id.items (lists_behind f.lacking.items) };
}

impl Filing {
    // No agree sets yet.
    fn empty(alloc: Global, columns: u8) -> Result<Filing, AllocError>
        requires { columns ≤ MOST_COLUMNS }
        ensures { IfOk result (λ filing. filing ≡ record { width = columns; agree_sets = [] }) }
    {
        let having = empty_lists(alloc, columns)?;
        let lacking = empty_lists(alloc, columns)?;
        Ok(Filing {
            agree_sets: Vec::new(alloc),
            having,
            row_id: Vec::new(alloc),
            lacking,
        })
    }

    // These agree sets, each filed for all targets that it lacks: it takes a step a column.
    pub(crate) fn of(
        alloc: Global,
        columns: u8,
        agree_sets: &[ColSet],
    ) -> Result<Filing, AllocError>
        requires { columns ≤ MOST_COLUMNS }
        ensures { IfOk result (λ filing. filing ≡ record { width = columns; agree_sets = agree_sets.now }) }
    {
        let mut filing = Filing::empty(alloc, columns)?;
        for z in agree_sets {
            filing = filing.filed(Known::nothing(), *z)?;
        }
        Ok(filing)
    }

    // How many columns there are.
    pub(crate) fn columns(&self) -> u8
        ensures width { result ≡ self.now.width }
        ensures bound { result ≤ MOST_COLUMNS }
    {
        self.having.len() as u8
    }

    // The agree sets.
    pub(crate) fn agree_sets(&self) -> &[ColSet]
        ensures { result.now ≡ self.now.agree_sets }
    {
        self.agree_sets.as_slice()
    }

    // Agree sets that contain just what those contain that lack the target.
    pub(crate) fn outer(&self, target: Target) -> &[ColSet]
        requires { IsColumnTarget self.now.width target }
        ensures { (x : ℕ) → list_any (λ w. subset x w) result.now ≡ refuted self.now.agree_sets target x }
    {
        match target {
            Target::Col(column) => self.lacking[column as usize].as_slice(),
            Target::RowId => self.row_id.as_slice(),
        }
    }

    // For which targets an agree set that lacks them contains z. It takes a step for each agree set that has the rarest of the columns
    // of z.
    pub(crate) fn known(&self, z: ColSet) -> Known
        ensures row_id { result.row_id ≡ refuted self.now.agree_sets RowId z }
        ensures columns { (a : ℕ) → a < self.now.width → has result.columns a ≡ refuted self.now.agree_sets (Col a) z }
    {
        let columns = self.columns();
        let few = fewest_containing(
            self.agree_sets.as_slice(),
            self.having.as_slice(),
            columns,
            z,
        );
        known_by(few, columns, z)
    }

    // With one more agree set, where it is news, and whether it is: whether there is a target that it lacks and that is not known.
    pub(crate) fn noted(self, z: ColSet) -> Result<(Filing, bool), AllocError>
        ensures news { IfOk result (λ made. made.1 ≡ is_news self.width self.agree_sets z) }
        ensures filing { IfOk result (λ made. made.0 ≡ record { width = self.width; agree_sets = if made.1 then self.agree_sets ++ z ∷ [] else self.agree_sets }) }
    {
        let known = self.known(z);
        if known.has_all(ColSet::all(self.columns()).minus(z)) {
            return Ok((self, false));
        }
        let filing = self.filed(known, z)?;
        Ok((filing, true))
    }

    // With one more agree set, filed for the targets that it lacks and that are not known.
    fn filed(mut self, known: Known, z: ColSet) -> Result<Filing, AllocError>
        requires row_id { known.row_id ≡ true → refuted self.agree_sets RowId z ≡ true }
        requires columns { (a : ℕ) → a < self.width → has known.columns a ≡ true → refuted self.agree_sets (Col a) z ≡ true }
        ensures { IfOk result (λ filing. filing ≡ record { width = self.width; agree_sets = self.agree_sets ++ z ∷ [] }) }
    {
        let columns = self.columns();
        let open = ColSet::all(columns).minus(z).minus(known.columns);
        push_unless(&mut self.row_id, known.row_id, z)?;
        file(&mut self.lacking, columns, open, z)?;
        file(&mut self.having, columns, z, z)?;
        self.agree_sets.push(z)?;
        Ok(self)
    }
}

// So many empty lists.
pub(crate) fn empty_lists(alloc: Global, columns: u8) -> Result<Vec<Vec<ColSet>>, AllocError>
    ensures { IfOk result (λ lists. lists_behind lists.items ≡ replicate columns []) }
{
    let mut lists = Vec::with_capacity(alloc, columns as usize)?;
    for column in 0..columns {
        lists.push(Vec::new(alloc))?;
    }
    Ok(lists)
}

// Adds an agree set, unless it is known.
fn push_unless(sets: &mut Vec<ColSet>, known: bool, z: ColSet) -> Result<(), AllocError>
    ensures { OnOk result (sets.new.items ≡ sets.old.items ++ (if known then [] else z ∷ [])) }
{
    if !known {
        sets.push(z)?;
    }
    Ok(())
}

// Adds an agree set to the lists of these columns.
fn file(
    lists: &mut Vec<Vec<ColSet>>,
    columns: u8,
    places: ColSet,
    z: ColSet,
) -> Result<(), AllocError>
    requires few { columns ≤ MOST_COLUMNS }
    requires all { length lists.old.items ≡ columns }
    ensures { OnOk result (AreAdded columns z places (lists_behind lists.old.items) (lists_behind lists.new.items)) }
{
    for column in 0..columns {
        if places.has(column) {
            lists[column as usize].push(z)?;
        }
    }
    Ok(())
}

// Of the agree sets as few as the lists tell, with all that contain z among them: those that have the column of z that the fewest have.
fn fewest_containing<'a>(
    agree_sets: &'a [ColSet],
    by_column: &'a [Vec<ColSet>],
    columns: u8,
    z: ColSet,
) -> &'a [ColSet]
    requires few { columns ≤ MOST_COLUMNS }
    requires filed { AreFiled columns agree_sets.now (lists_behind by_column.now) }
    ensures { (t : TargetSpec) → refuted result.now t z ≡ refuted agree_sets.now t z }
{
    let mut fewest = agree_sets;
    for column in 0..columns {
        if z.has(column) {
            let having = by_column[column as usize].as_slice();
            if having.len() < fewest.len() {
                fewest = having;
            }
        }
    }
    fewest
}

// For which targets an agree set that lacks them contains a set.
#[derive(Clone, Copy)]
pub(crate) struct Known {
    pub(crate) row_id: bool,
    pub(crate) columns: ColSet,
}

impl Known {
    fn nothing() -> Known
        ensures { result ≡ record { row_id = false; columns = empty } }
    {
        Known {
            row_id: false,
            columns: ColSet::empty(),
        }
    }

    // After one more agree set that contains the set.
    fn told(self, all: ColSet, w: ColSet) -> Known
        ensures { result ≡ record { row_id = true; columns = union self.columns (minus all w) } }
    {
        Known {
            row_id: true,
            columns: self.columns.union(all.minus(w)),
        }
    }

    // Whether which row it is and these columns are among the targets.
    fn has_all(&self, columns: ColSet) -> bool
        ensures { result ≡ (self.now.row_id && subset columns self.now.columns) }
    {
        self.row_id && columns.subset_of(self.columns)
    }
}

// For which of the targets one of these agree sets that lacks the target contains z. It looks no further once that is so for all
// that z lacks.
fn known_by(agree_sets: &[ColSet], columns: u8, z: ColSet) -> Known
    requires { columns ≤ MOST_COLUMNS }
    ensures row_id { result.row_id ≡ refuted agree_sets.now RowId z }
    ensures columns { (a : ℕ) → a < columns → has result.columns a ≡ refuted agree_sets.now (Col a) z }
{
    let all = ColSet::all(columns);
    let open = all.minus(z);
    let mut known = Known {
        row_id: false,
        columns: ColSet::empty(),
    };
    for w in agree_sets {
        if !z.subset_of(*w) {
            continue;
        }
        known = known.told(all, *w);
        if known.has_all(open) {
            return Known {
                row_id: true,
                columns: known.columns,
            };
        }
    }
    known
}
