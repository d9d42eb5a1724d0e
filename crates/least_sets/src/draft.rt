// Candidates while many agree sets come in, one after another.
ghost use Rattle.std.specs.List.{All};
ghost use Rattle.std.specs.Prelude.{if◌then◌else◌, ◌≡◌, ◌≤◌, ◌<◌, ◌^◌, ◌∷◌, [], ◌++◌, ℕ, List, true, false, None, length, take, IfOk, IfSome, OnOk, IsPermutation};
ghost use Rattle.col_set.specs.ColSet.{report_cmp};
ghost use Rattle.col_set.specs.Target.{IsColumnTarget, has_target};
ghost use Rattle.col_set.specs.declared.target.Target.{Target as TargetSpec};
ghost use Rattle.col_set.specs.declared.target.Target.TheVariants.{Col, RowId};
ghost use Rattle.col_set.specs.Evidence.{refuted, least, IsLeast};
ghost use Rattle.col_set.specs.ColSet as cols;
ghost use Rattle.col_set.specs.Lists.{Listed, Rises};
ghost use Rattle.least_sets.specs.Growth as words;
ghost use Rattle.least_sets.specs.Growth.{ListsLeast};
ghost use Rattle.least_sets.specs.Drafts as drafts;
ghost use Rattle.least_sets.specs.Drafts.{Drafted, AreDrafted, AreFiled, lists_behind};

use crate::branching::uncovered_on_blank;
use crate::filing::Filing;
use crate::growth::{choices, push_all_grown};
use crate::least::of_size;
use crate::order::in_order;
use crate::outermost::outermost_of_filed;
use rel_base::{ColSet, MOST_COLUMNS, Target};
use std::alloc::{AllocError, Global};
use std::marker::{Brand, Model};
use std::sync::ledger::Blank;

// Up to so many further agree sets a target's list grows past one after another; more of them, and it is made from nothing.
const FEW: usize = 350;

/// What many agree sets leave for all targets, while they come in one after another.
///
/// An agree set that comes in is only noted. A target's left sides are made when they are asked for: past a few further agree
/// sets the ones that there were grow in place, which looks at each for each agree set; past many they are made by branches on a
/// column, in a microsecond or so each, from the agree sets that lie inside no earlier one that lacks the target. Contracts see the
/// agree sets that came in. A set takes 16 bytes, and 16 more for each column that it has and each target for which it is news.
#[derive(Drop)]
pub struct Draft {
    row_id: Vec<ColSet>,
    columns: Vec<Vec<ColSet>>,
    filing: Filing,
    made: usize,
}

impl Model for Draft {
    ghost use Rattle.std.specs.Prelude.{◌≡◌, ◌≤◌, length, take};
    ghost use Rattle.least_sets.specs.Drafts.{Drafted, AreDrafted, lists_behind};

    ghost Value = { Drafted };

    ghost view = { λ d. record { width = length d.columns.items; agree_sets = d.filing.agree_sets } };

    ghost invariant = { λ d. AreDrafted (length d.columns.items) (take d.made d.filing.agree_sets) d.row_id.items (lists_behind d.columns.items) × (d.made ≤ length d.filing.agree_sets) × (d.filing.width ≡ length d.columns.items) };
}

impl Draft {
    // A draft of these lists, which takes no memory.
    fn with_filing(row_id: Vec<ColSet>, columns: Vec<Vec<ColSet>>, filing: Filing) -> Draft
        requires lists { AreDrafted (length columns.items) filing.agree_sets row_id.items (lists_behind columns.items) }
        requires width { filing.width ≡ length columns.items }
        ensures { result ≡ filing }
    {
        let made = filing.agree_sets().len();
        Draft {
            row_id,
            columns,
            filing,
            made,
        }
    }

    /// A draft that begins with agree sets, and with the least sets that they leave for which row it is and for each column, in any order.
    /// It files the agree sets, which takes a step a column for each.
    pub fn of(
        alloc: Global,
        row_id: Vec<ColSet>,
        columns: Vec<Vec<ColSet>>,
        agree_sets: &[ColSet],
    ) -> Result<Draft, AllocError>
        requires few { length columns.items ≤ MOST_COLUMNS }
        requires lists { AreDrafted (length columns.items) agree_sets.now row_id.items (lists_behind columns.items) }
        ensures { IfOk result (λ draft. draft ≡ record { width = length columns.items; agree_sets = agree_sets.now }) }
    {
        let filing = Filing::of(alloc, columns.len() as u8, agree_sets)?;
        Ok(Draft::with_filing(row_id, columns, filing))
    }

    /// How many columns there are.
    pub fn columns(&self) -> u8
        ensures width { result ≡ self.now.width }
        ensures bound { result ≤ MOST_COLUMNS }
    {
        self.filing.columns()
    }

    // The left sides of a target past all agree sets, in no order.
    fn left_sides(&self, alloc: Global, target: Target) -> Result<Vec<ColSet>, AllocError>
        requires { IsColumnTarget self.now.width target }
        ensures { IfOk result (λ sets. ListsLeast (words.choices self.now.width target) self.now.agree_sets target sets.items) }
    {
        let columns = self.filing.columns();
        let outer = self.filing.outer(target);
        let old = &self.filing.agree_sets()[..self.made];
        let news = &outer[count_old(outer, old, target)..];
        if news.len() > FEW {
            let choices = choices(columns, target);
            let kept = outermost_of_filed(alloc, choices, outer)?;
            let sets = uncovered_on_blank::<Brand>(alloc, choices, kept, None, Blank::new(1))?;
            return Ok(sets);
        }
        let own = sides_of(self.row_id.as_slice(), self.columns.as_slice(), target);
        let mut sets = Vec::with_capacity(alloc, own.len())?;
        sets.extend_from_slice(own)?;
        grow_past_all(alloc, columns, target, &mut sets, news)?;
        Ok(sets)
    }

    /// The least sets of a target that all agree sets leave, in report order, or none where these are the known ones.
    ///
    /// Where the list is as it was when the draft began, that is seen before anything is sorted. Past few further agree sets for the
    /// target the sets grow in place, which looks at each for each agree set; past many they are made from nothing, as `least_sets` does.
    pub fn least_sets_unless(
        &self,
        alloc: Global,
        target: Target,
        known: &[ColSet],
    ) -> Result<Option<Vec<ColSet>>, AllocError>
        requires target { IsColumnTarget self.now.width target }
        requires order { Rises report_cmp known.now }
        ensures same { IfOk result (λ sets. sets ≡ None → known.now ≡ least self.now.width self.now.agree_sets target) }
        ensures least { IfOk result (λ sets. IfSome sets (λ list. list.items ≡ least self.now.width self.now.agree_sets target)) }
    {
        let sets = self.left_sides(alloc, target)?;
        if sets.as_slice() == known {
            return Ok(None);
        }
        Ok(Some(in_order(alloc, sets)?))
    }

    /// Those of the least sets of a target that have just so many columns, in no order, and some of them may be missing.
    ///
    /// They are found by the branches by which all least sets are found, which go no further than so many columns: that takes a small
    /// part of the time as long as most least sets have more. No contract says that none is missing. Who validates what comes and books
    /// what that brings to light gets right what is found, and later passes find what is not.
    pub fn of_size(
        &self,
        alloc: Global,
        target: Target,
        size: u32,
    ) -> Result<Vec<ColSet>, AllocError>
        requires { IsColumnTarget self.now.width target }
        ensures least { IfOk result (λ sets. All (IsLeast self.now.width self.now.agree_sets target) sets.items) }
        ensures sized { IfOk result (λ sets. All (λ x. cols.size x ≡ size) sets.items) }
        ensures below { IfOk result (λ sets. All (λ x. x < 2 ^ self.now.width) sets.items) }
    {
        let choices = choices(self.filing.columns(), target);
        let kept = outermost_of_filed(alloc, choices, self.filing.outer(target))?;
        let most = Some(size);
        let found = uncovered_on_blank::<Brand>(alloc, choices, kept, most, Blank::new(1))?;
        let sets = of_size(alloc, found.as_slice(), size)?;
        Ok(sets)
    }

    /// The draft with a further agree set, where it is news, and whether it is: for some target that it lacks, none of those that came in
    /// and lack the target contains it. It takes a step for each agree set that has the rarest of its columns, and where it is news two
    /// steps a column.
    pub fn noted(self, z: ColSet) -> Result<(Draft, bool), AllocError>
        ensures news { IfOk result (λ made. made.1 ≡ drafts.is_news self.width self.agree_sets z) }
        ensures draft { IfOk result (λ made. made.0 ≡ record { width = self.width; agree_sets = if made.1 then self.agree_sets ++ z ∷ [] else self.agree_sets }) }
    {
        let Draft {
            row_id,
            columns,
            filing,
            made,
        } = self;
        let (filing, is_news) = filing.noted(z)?;
        let draft = Draft {
            row_id,
            columns,
            filing,
            made,
        };
        Ok((draft, is_news))
    }
}

// The list of a target.
fn sides_of<'a>(row_id: &'a [ColSet], columns: &'a [Vec<ColSet>], target: Target) -> &'a [ColSet]
    requires { IsColumnTarget (length columns.now) target }
    ensures { (ws : List ℕ) → AreDrafted (length columns.now) ws row_id.now (lists_behind columns.now) → ListsLeast (words.choices (length columns.now) target) ws target result.now }
{
    match target {
        Target::Col(column) => columns[column as usize].as_slice(),
        Target::RowId => row_id,
    }
}

// Of agree sets so many stand first that they are the old ones which lack the target, one after another, as long as they are the same.
fn count_old(agree_sets: &[ColSet], old: &[ColSet], target: Target) -> usize
    requires { IsColumnTarget MOST_COLUMNS target }
    ensures bound { result ≤ length agree_sets.now }
    ensures old { (w : ℕ) → Listed w (take result agree_sets.now) → refuted old.now target w ≡ true }
{
    let mut count = 0;
    for w in old {
        if !w.has_target(target) {
            if count >= agree_sets.len() || agree_sets[count] != *w {
                return count;
            }
            count += 1;
        }
    }
    count
}

// Lists that are made anew for each target, in the same memory.
#[derive(Drop)]
struct Scratch {
    inner: Vec<ColSet>,
    nearby: Vec<ColSet>,
    blockers: Vec<ColSet>,
}

impl Scratch {
    fn new(alloc: Global) -> Scratch {
        Scratch {
            inner: Vec::new(alloc),
            nearby: Vec::new(alloc),
            blockers: Vec::new(alloc),
        }
    }
}

// Takes the sets inside z out of the list, in which others take their places, and copies those with exactly one column outside z.
fn split_off(
    sets: &mut Vec<ColSet>,
    z: ColSet,
    inner: &mut Vec<ColSet>,
    nearby: &mut Vec<ColSet>,
) -> Result<(), AllocError>
    ensures all { OnOk result (IsPermutation sets.old.items (inner.new.items ++ sets.new.items)) }
    ensures inner { OnOk result (inner.new.items ≡ words.inside z (inner.new.items ++ sets.new.items)) }
    ensures rest { OnOk result (sets.new.items ≡ words.outside z (inner.new.items ++ sets.new.items)) }
    ensures nearby { OnOk result (nearby.new.items ≡ words.near z sets.new.items) }
{
    inner.clear();
    nearby.clear();
    let mut place = 0;
    while place < sets.len() {
        let x = sets[place];
        let out = x.minus(z);
        if out == ColSet::empty() {
            inner.push(sets.swap_remove(place))?;
        } else {
            if out.len() == 1 {
                nearby.push(x)?;
            }
            place += 1;
        }
    }
    Ok(())
}

// The least sets among the choices after a further agree set z that lacks the target.
fn grow_past(
    columns: u8,
    target: Target,
    sets: &mut Vec<ColSet>,
    z: ColSet,
    scratch: &mut Scratch,
) -> Result<(), AllocError>
    requires columns { columns ≤ MOST_COLUMNS }
    requires target { IsColumnTarget columns target }
    requires apart { has_target z target ≡ false }
    ensures { OnOk result ((ws : List ℕ) → ListsLeast (words.choices columns target) ws target sets.old.items → ListsLeast (words.choices columns target) (ws ++ z ∷ []) target sets.new.items) }
{
    split_off(sets, z, &mut scratch.inner, &mut scratch.nearby)?;
    if scratch.inner.is_empty() {
        return Ok(());
    }
    let choices = choices(columns, target);
    push_all_grown(
        sets,
        &mut scratch.blockers,
        columns,
        choices,
        z,
        scratch.inner.as_slice(),
        scratch.nearby.as_slice(),
    )
}

// Grows the sets past an agree set, which may have the target: then they stay.
fn grow_unless(
    columns: u8,
    target: Target,
    sets: &mut Vec<ColSet>,
    z: ColSet,
    scratch: &mut Scratch,
) -> Result<(), AllocError>
    requires columns { columns ≤ MOST_COLUMNS }
    requires target { IsColumnTarget columns target }
    ensures { OnOk result ((ws : List ℕ) → ListsLeast (words.choices columns target) ws target sets.old.items → ListsLeast (words.choices columns target) (ws ++ z ∷ []) target sets.new.items) }
{
    if z.has_target(target) {
        return Ok(());
    }
    grow_past(columns, target, sets, z, scratch)
}

// Grows the sets past one agree set after another.
fn grow_past_all(
    alloc: Global,
    columns: u8,
    target: Target,
    sets: &mut Vec<ColSet>,
    news: &[ColSet],
) -> Result<(), AllocError>
    requires columns { columns ≤ MOST_COLUMNS }
    requires target { IsColumnTarget columns target }
    ensures { OnOk result ((ws : List ℕ) → ListsLeast (words.choices columns target) ws target sets.old.items → ListsLeast (words.choices columns target) (ws ++ news.now) target sets.new.items) }
{
    let mut scratch = Scratch::new(alloc);
    for z in news {
        grow_unless(columns, target, sets, *z, &mut scratch)?;
    }
    Ok(())
}
