// The candidates of all targets.
ghost use Rattle.std.specs.Prelude.{if◌then◌else◌, ◌≡◌, ◌≤◌, ◌∷◌, [], ◌++◌, ℕ, List, Bool, true, false, replicate, map, None, IfOk, IfSome};
ghost use Rattle.std.specs.List.{All, find, filter};
ghost use Rattle.col_set.specs.ColSet.{empty};
ghost use Rattle.col_set.specs.Target.{IsColumnTarget, has_target};
ghost use Rattle.col_set.specs.Evidence.{least};
ghost use Rattle.col_set.specs.Lists.{Listed};
ghost use Rattle.candidate_cover.specs.Cands as words;
ghost use Rattle.candidate_cover.specs.Cands.{width, cands_of, with_list, lefts, is_listed, kept_or_fresh, marked, holding, upto_of, all_free, freed, from, IsInOrder, AreLeast};
ghost use Rattle.candidate_cover.specs.AllMarked.{marked_throughout, refreshed_throughout};
ghost use Rattle.candidate_cover.specs.Sizes.{is_between};
ghost use Rattle.candidate_cover.specs.Marks.{cand, cands};
ghost use Rattle.candidate_cover.specs.declared.cand.Cand.{Cand};
ghost use Rattle.candidate_cover.specs.declared.cand.Marking.TheVariants.{Marked, Dropped};

use crate::cand::{Cand, Marking};
use crate::cand_list::CandList;
use crate::new_list::{NewList, generalised, specialised};
use crate::old_list::OldList;
use least_sets::{Draft, least_sets_inside};
use rel_base::{ColSet, MOST_COLUMNS, RowNo, Steps, Target};
use std::alloc::{AllocError, Global};
use std::marker::Model;
use std::mem;
use std::sync::ledger::Ledger;

/// For each target, which row it is and each of the columns, its candidates with their marks, in report order.
///
/// Contracts see the lists. A candidate takes 21 bytes: its left side stands apart from its marks. A call touches the list of its target alone.
#[derive(Drop)]
pub struct CandidateCover {
    row_id: CandList,
    columns: Vec<CandList>,
}

impl Model for CandidateCover {
    ghost use Rattle.std.specs.Prelude.{◌≤◌, map, length};
    ghost use Rattle.candidate_cover.specs.Lists.{CandLists};
    ghost use Rattle.col_set.specs.declared.col_set.TheConstants.{MOST_COLUMNS};

    ghost Value = { CandLists };

    ghost use Rattle.candidate_cover.specs.Marks.{cands};

    ghost view = { λ c. record { row_id = cands c.row_id; columns = map cands c.columns.items } };

    ghost invariant = { λ c. length c.columns.items ≤ MOST_COLUMNS };
}

impl CandidateCover {
    /// For each target the empty set alone, of which nothing is known.
    pub fn new(alloc: Global, columns: u8) -> Result<CandidateCover, AllocError>
        requires { columns ≤ MOST_COLUMNS }
        ensures { IfOk result (λ cover. cover ≡ record { row_id = words.fresh empty ∷ []; columns = replicate columns (words.fresh empty ∷ []) }) }
    {
        let row_id = CandList::opening(alloc)?;
        let mut lists = Vec::with_capacity(alloc, columns as usize)?;
        for column in 0..columns {
            lists.push(CandList::opening(alloc)?)?;
        }
        Ok(CandidateCover {
            row_id,
            columns: lists,
        })
    }

    /// How many columns there are.
    pub fn columns(&self) -> u8
        ensures width { result ≡ width self.now }
        ensures bound { result ≤ MOST_COLUMNS }
    {
        self.columns.len() as u8
    }

    /// The candidates of a target in report order, with a further agree set z.
    ///
    /// Those inside z give way to their extensions by one column outside z and other than the target, of which the minimal ones
    /// are kept (Papenbrock and Naumann, 2016). Nothing changes here; `put` makes the new list the target's. It copies the
    /// target's list, and takes in addition the number of candidates inside z times that of those with one column outside it.
    pub fn specialise(
        &self,
        alloc: Global,
        target: Target,
        z: ColSet,
    ) -> Result<NewList, AllocError>
        requires { IsColumnTarget (width self.now) target }
        ensures least { IfOk result (λ new_list. (ws : List ℕ) → lefts (cands_of self.now target) ≡ least (width self.now) ws target → lefts new_list ≡ least (width self.now) (ws ++ z ∷ []) target) }
        ensures marks { IfOk result (λ new_list. new_list ≡ map (kept_or_fresh (cands_of self.now target)) (lefts new_list)) }
    {
        let columns = self.columns();
        let list = self.cand_list(target);
        let made = if z.has_target(target) {
            list.copy(alloc)?
        } else {
            specialised(alloc, columns, target, z, list)?
        };
        Ok(NewList::of(made))
    }

    /// The candidates of a target in report order, where the withdrawn agree sets have left the rest.
    ///
    /// What comes back lies inside a withdrawn set that lacks the target and inside no such set of the rest; candidates that
    /// contain one of these are dropped. Nothing changes here; `put` makes the new list the target's. It copies the target's list,
    /// compares it with each set that comes back, and takes for each withdrawn set that lies inside no other a pass over the rest;
    /// what comes back is found by branches, in a microsecond or so each. A step is one test of a column set against an agree set,
    /// in the branches too. Where each withdrawn set has the target nothing can change, and no step is taken.
    pub fn generalise<L: Ledger>(
        &self,
        alloc: Global,
        target: Target,
        rest: &[ColSet],
        withdrawn: &[ColSet],
        steps: &mut Steps<L>,
    ) -> Result<NewList, AllocError>
        requires target { IsColumnTarget (width self.now) target }
        requires least { lefts (cands_of self.now target) ≡ least (width self.now) (rest.now ++ withdrawn.now) target }
        ensures least { IfOk result (λ new_list. lefts new_list ≡ least (width self.now) rest.now target) }
        ensures marks { IfOk result (λ new_list. new_list ≡ map (kept_or_fresh (cands_of self.now target)) (lefts new_list)) }
        ensures idle { All (λ w. has_target w target ≡ true) withdrawn.now → steps.new ≡ steps.old }
    {
        let columns = self.columns();
        let sets = least_sets_inside(alloc, columns, target, rest, withdrawn, steps)?;
        let made = generalised(alloc, sets, self.cand_list(target))?;
        Ok(NewList::of(made))
    }

    /// A draft that begins with the agree sets that have left these candidates: a copy of their left sides, and lists of the agree
    /// sets by column and by target, in which each stands for every column.
    pub fn draft(&self, alloc: Global, agree_sets: Vec<ColSet>) -> Result<Draft, AllocError>
        requires { AreLeast (width self.now) agree_sets.items self.now }
        ensures { IfOk result (λ draft. draft ≡ record { width = width self.now; agree_sets = agree_sets.items }) }
    {
        let count = self.columns();
        let row_id = self.copied_lefts(alloc, Target::RowId)?;
        let mut columns = Vec::with_capacity(alloc, count as usize)?;
        for column in 0..count {
            columns.push(self.copied_lefts(alloc, Target::Col(column))?)?;
        }
        let draft = Draft::of(alloc, row_id, columns, agree_sets.as_slice())?;
        Ok(draft)
    }

    /// The candidates of a target in report order that a draft leaves, or none where these are the ones that there are. Those
    /// that stay keep their marks.
    ///
    /// Nothing changes here; `put` makes the new list the target's. The left sides are made here, from the agree sets that the
    /// draft has noted. Where they are the ones that there were, that is all; else they are sorted, and each is looked up
    /// among the candidates.
    pub fn drafted(
        &self,
        alloc: Global,
        draft: &Draft,
        target: Target,
    ) -> Result<Option<NewList>, AllocError>
        requires target { IsColumnTarget (width self.now) target }
        requires width { draft.now.width ≡ width self.now }
        ensures same { IfOk result (λ new_list. new_list ≡ None → lefts (cands_of self.now target) ≡ least (width self.now) draft.now.agree_sets target) }
        ensures least { IfOk result (λ new_list. IfSome new_list (λ cands. lefts cands ≡ least (width self.now) draft.now.agree_sets target)) }
        ensures marks { IfOk result (λ new_list. IfSome new_list (λ cands. cands ≡ map (kept_or_fresh (cands_of self.now target)) (lefts cands))) }
    {
        let list = self.cand_list(target);
        match draft.least_sets_unless(alloc, target, list.sets())? {
            None => Ok(None),
            Some(sets) => Ok(Some(NewList::of(list.with_lefts(alloc, sets)?))),
        }
    }

    /// Makes the new list the target's, and hands out the one that stood there, so that its caller chooses when to let go of it.
    pub fn put(&mut self, target: Target, new_list: NewList) -> OldList
        requires { IsColumnTarget (width self.old) target }
        ensures { self.new ≡ with_list self.old target new_list }
    {
        let list = new_list.into_list();
        match target {
            Target::Col(column) => {
                OldList::of(mem::replace(&mut self.columns[column as usize], list))
            }
            Target::RowId => OldList::of(mem::replace(&mut self.row_id, list)),
        }
    }

    /// Notes that a candidate holds among the rows below `to`, and lets go of it. Where it is not listed, nothing changes. It looks the
    /// candidate up, beginning where the last one of its target was found (`look_near`).
    pub fn mark(&mut self, target: Target, x: ColSet, to: RowNo) -> Marking
        requires { IsColumnTarget (width self.old) target }
        ensures answer { result ≡ (if is_listed (cands_of self.old target) x then Marked else Dropped) }
        ensures list { self.new ≡ with_list self.old target (marked (cands_of self.old target) x to) }
    {
        match target {
            Target::Col(column) => mark_in(&mut self.columns[column as usize], x, to),
            Target::RowId => mark_in(&mut self.row_id, x, to),
        }
    }

    /// Has the next look-up among a target's candidates begin about a place in their list, for who marks them in another order and knows
    /// where each stands. It takes a step, and any place will do: one that is right spares the search through the list, and one behind its
    /// end has the look-up begin where it would without.
    pub fn look_near(&mut self, target: Target, place: usize)
        requires { IsColumnTarget (width self.old) target }
        ensures { self.new ≡ self.old }
    {
        match target {
            Target::Col(column) => self.columns[column as usize].look_near(place),
            Target::RowId => self.row_id.look_near(place),
        }
    }

    /// Holds a candidate or lets go of it, and answers whether it is listed. Where it is not, nothing changes.
    pub fn hold(&mut self, target: Target, x: ColSet, held: bool) -> bool
        requires { IsColumnTarget (width self.old) target }
        ensures answer { result ≡ is_listed (cands_of self.old target) x }
        ensures list { self.new ≡ with_list self.old target (holding (cands_of self.old target) x held) }
    {
        match target {
            Target::Col(column) => self.columns[column as usize].hold(x, held),
            Target::RowId => self.row_id.hold(x, held),
        }
    }

    /// Lets go of all candidates. It takes a step a candidate, and no memory.
    pub fn free(&mut self)
        ensures { self.new ≡ freed self.old }
    {
        self.row_id.free();
        for column in 0..self.columns.len() {
            self.columns[column].free();
        }
    }

    /// Notes that all candidates hold among the rows below `to`, and lets go of them. It takes a step a candidate, and no memory.
    pub fn mark_all(&mut self, to: RowNo)
        ensures { self.new ≡ marked_throughout to self.old }
    {
        self.row_id.mark_all(to);
        for place in 0..self.columns.len() {
            self.columns[place].mark_all(to);
        }
    }

    /// A copy of all candidates, of which nothing is known and none of which is held.
    pub fn refreshed(&self, alloc: Global) -> Result<CandidateCover, AllocError>
        ensures { IfOk result (λ made. made ≡ refreshed_throughout self.now) }
    {
        let row_id = self.row_id.refreshed(alloc)?;
        let mut columns = Vec::with_capacity(alloc, self.columns.len())?;
        for list in self.columns.as_slice() {
            columns.push(list.refreshed(alloc)?)?;
        }
        Ok(CandidateCover { row_id, columns })
    }

    /// The row below which a candidate is known to hold, where it is listed. It looks the candidate up.
    pub fn upto(&self, target: Target, x: ColSet) -> Option<RowNo>
        requires { IsColumnTarget (width self.now) target }
        ensures listed { IfSome result (λ upto. (c : Cand) × Listed c (cands_of self.now target) × (c.left ≡ x) × (c.upto ≡ upto)) }
        ensures value { result ≡ upto_of (cands_of self.now target) x }
    {
        match self.cand_list(target).get(x) {
            Some(mark) => Some(mark.upto),
            None => None,
        }
    }

    /// The row below which a candidate is known to hold, where it is listed, for who asks for many in report order.
    ///
    /// The answer is that of `upto`, whatever `near` is. Some places about `near` are looked at first, so that where it was left by
    /// the candidate before, the next one takes a step; `near` becomes the place at which the candidate stands or would stand.
    pub fn upto_near(&self, target: Target, x: ColSet, near: &mut usize) -> Option<RowNo>
        requires { IsColumnTarget (width self.now) target }
        ensures { result ≡ upto_of (cands_of self.now target) x }
    {
        match self.cand_list(target).get_near(x, near) {
            Some(mark) => Some(mark.upto),
            None => None,
        }
    }

    /// The first candidate of a target in report order that meets the test.
    pub fn first<F: Fn(Cand) -> bool>(&self, target: Target, test: F) -> Option<Cand>
        requires target { IsColumnTarget (width self.now) target }
        requires test { F.IsAlwaysCallable test }
        ensures { (p : Cand → Bool) → ((c : Cand) (b : Bool) → F.post test c b → b ≡ p c) → result ≡ find p (cands_of self.now target) }
    {
        self.first_from(target, ColSet::empty(), test)
    }

    /// The first candidate of a target in report order, from a left side on, that meets the test.
    ///
    /// It looks up where the left side stands or would stand, and takes a step a candidate from there.
    pub fn first_from<F: Fn(Cand) -> bool>(
        &self,
        target: Target,
        left: ColSet,
        test: F,
    ) -> Option<Cand>
        requires target { IsColumnTarget (width self.now) target }
        requires test { F.IsAlwaysCallable test }
        ensures found { (p : Cand → Bool) → ((c : Cand) (b : Bool) → F.post test c b → b ≡ p c) → result ≡ find p (from left (cands_of self.now target)) }
        ensures order { IsInOrder (cands_of self.now target) }
    {
        self.cand_list(target).first_from(left, test)
    }

    /// The candidates of a target in report order.
    pub fn list(&self, alloc: Global, target: Target) -> Result<Vec<Cand>, AllocError>
        requires { IsColumnTarget (width self.now) target }
        ensures list { IfOk result (λ list. list.items ≡ cands_of self.now target) }
        ensures order { IfOk result (λ list. IsInOrder list.items) }
    {
        let list = self.cand_list(target).list(alloc)?;
        Ok(list)
    }

    /// The candidates of a target with at least and at most so many columns, in report order. It takes a step a candidate, and
    /// copies these alone.
    pub fn of_sizes(
        &self,
        alloc: Global,
        target: Target,
        least: u32,
        most: u32,
    ) -> Result<Vec<Cand>, AllocError>
        requires { IsColumnTarget (width self.now) target }
        ensures { IfOk result (λ list. list.items ≡ filter (is_between least most) (cands_of self.now target)) }
    {
        let list = self.cand_list(target).of_sizes(alloc, least, most)?;
        Ok(list)
    }

    /// The left sides of a target's candidates in report order, lent as they stand.
    pub fn lefts(&self, target: Target) -> &[ColSet]
        requires { IsColumnTarget (width self.now) target }
        ensures lefts { result.now ≡ lefts (cands_of self.now target) }
        ensures order { IsInOrder (cands_of self.now target) }
    {
        self.cand_list(target).sets()
    }

    // A copy of the left sides.
    fn copied_lefts(&self, alloc: Global, target: Target) -> Result<Vec<ColSet>, AllocError>
        requires { IsColumnTarget (width self.now) target }
        ensures { IfOk result (λ found. found.items ≡ lefts (cands_of self.now target)) }
    {
        let own = self.lefts(target);
        let mut found = Vec::with_capacity(alloc, own.len())?;
        found.extend_from_slice(own)?;
        Ok(found)
    }

    // The candidates of a target.
    fn cand_list(&self, target: Target) -> &CandList
        requires { IsColumnTarget (width self.now) target }
        ensures { cands result.now ≡ cands_of self.now target }
    {
        match target {
            Target::Col(column) => &self.columns[column as usize],
            Target::RowId => &self.row_id,
        }
    }
}

fn mark_in(list: &mut CandList, x: ColSet, to: RowNo) -> Marking
    ensures answer { result ≡ (if is_listed (cands list.old) x then Marked else Dropped) }
    ensures list { cands list.new ≡ marked (cands list.old) x to }
{
    if list.mark(x, to) {
        Marking::Marked
    } else {
        Marking::Dropped
    }
}
