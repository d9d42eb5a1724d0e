// What a round asks of the columns, and the answers.
ghost use Rattle.std.specs.Prelude.{◌≡◌, ◌≤◌, ◌<◌, ◌*◌, ℕ, List, true, false, length, IfOk, slice_index_or};
ghost use Rattle.std.specs.List.{AllZip};
ghost use Rattle.col_set.specs.Lists.{Listed};
ghost use Rattle.inclusion_merge.specs.Asked.{AreAsked, AreWithin, PicksDependents, TellsPicked, asked_cells, cells_asked};
ghost use Rattle.inclusion_merge.specs.Candidates.{may};
ghost use Rattle.inclusion_merge.specs.Marks.{is_marked};
ghost use Rattle.inclusion_merge.specs.Sharing.{list_at, values_behind};
ghost use Rattle.inclusion_merge.specs.Values.{IsValuesOf};
ghost use Rattle.inclusion_merge.specs.WideSet.{has_wide};

use crate::candidates::Candidates;
use crate::marks::{MARKS, Marks};
use crate::merge::merged;
use crate::value::Value;
use crate::values::values_of;
use crate::wide_set::{PART, has_wide, insert_wide, parts_for, parts_of};
use rayon::prelude::*;
use rel_base::{ColSet, Row};
use std::alloc::{AllocError, Global};
use std::thread::Threads;

// How many cells of all columns a sample has, unless they are so many that each one's share would be less than the least.
const SAMPLE: usize = 2_048;

// How many cells of each column it has at least, where the column has as many.
const LEAST_SHARE: usize = 4;

/// Of which columns a round asks, and of which of their values: whether all those values of one column are values of another.
#[derive(Drop)]
pub(crate) struct Questions<'a> {
    asked: Vec<Option<&'a Row>>,
    values: Marks,
}

impl<'a> Questions<'a> {
    /// Asks of each column by a sample of all their values.
    pub(crate) fn by_sample(alloc: Global, columns: &'a [Row]) -> Result<Questions<'a>, AllocError>
        ensures { IfOk result (λ questions. cells_asked questions.asked.items ≡ columns.now) }
    {
        Ok(Questions {
            asked: all_asked(alloc, columns)?,
            values: sample_of(alloc, columns)?,
        })
    }

    /// Asks whether the first column of each of these pairs is included in the second.
    pub(crate) fn about(
        alloc: Global,
        columns: &'a [Row],
        pairs: &[(usize, usize)],
    ) -> Result<Questions<'a>, AllocError>
        requires { AreWithin (length columns.now) pairs.now }
        ensures asked { IfOk result (λ questions. AreAsked columns.now pairs.now (cells_asked questions.asked.items)) }
        ensures values { IfOk result (λ questions. PicksDependents columns.now pairs.now (is_marked questions.values)) }
    {
        let mut named = parts_of(alloc, ColSet::empty(), parts_for(columns.len()))?;
        insert_dependents(&mut named, pairs);
        let values = values_in(alloc, columns, &named)?;
        insert_referenced(&mut named, pairs);
        let asked = asked_in(alloc, columns, &named)?;
        Ok(Questions { asked, values })
    }

    /// Which columns may be included in which by what was asked, found by so many workers at most.
    pub(crate) fn answers<R: Threads + Sync>(
        &self,
        rt: &R,
        alloc: Global,
        workers: u8,
    ) -> Result<Candidates, AllocError>
        ensures size { IfOk result (λ kept. kept.columns ≡ length (cells_asked self.now.asked.items)) }
        ensures tells { IfOk result (λ kept. TellsPicked (is_marked self.now.values) (cells_asked self.now.asked.items) (may kept)) }
    {
        let lists = value_lists(rt, alloc, &self.asked, &self.values, workers)?;
        merged(alloc, &lists)
    }

    /// Of which of these columns all values are asked, if they are asked of at all.
    pub(crate) fn wholly_asked(
        &self,
        alloc: Global,
        columns: &[Row],
    ) -> Result<Vec<bool>, AllocError>
        ensures count { IfOk result (λ whole. length whole.items ≡ length columns.now) }
        ensures each { IfOk result (λ whole. (c : ℕ) → c < length columns.now → slice_index_or whole.items c false ≡ true
            → (a : List ℕ) → Listed a (list_at columns.now c) → is_marked self.now.values a ≡ true) }
    {
        let mut whole = Vec::with_capacity(alloc, columns.len())?;
        for column in columns {
            whole.push(self.values.has_all(column))?;
        }
        Ok(whole)
    }
}

fn all_asked<'a>(alloc: Global, columns: &'a [Row]) -> Result<Vec<Option<&'a Row>>, AllocError>
    ensures { IfOk result (λ asked. cells_asked asked.items ≡ columns.now) }
{
    let mut asked = Vec::with_capacity(alloc, columns.len())?;
    for column in columns {
        asked.push(Some(column))?;
    }
    Ok(asked)
}

// Cells of each column, spread over it. A value that one column brings is in the sample of each column that has it, so that the samples can be compared,
// and a column with few values has all of them in the sample: by a fixed part of all values, it might have none, and would seem to be included anywhere.
fn sample_of(alloc: Global, columns: &[Row]) -> Result<Marks, AllocError> {
    let share = (SAMPLE / columns.len().max(1)).max(LEAST_SHARE);
    let mut sample = Marks::none(alloc)?;
    for column in columns {
        insert_spread(&mut sample, column, share);
    }
    Ok(sample)
}

fn insert_spread(sample: &mut Marks, column: &Row, share: usize) {
    let step = column.len().div_ceil(share.max(1));
    for turn in 0..share {
        let place = turn.saturating_mul(step);
        if place < column.len() {
            sample.insert(column.cell(place));
        }
    }
}

fn insert_dependents(named: &mut [ColSet], pairs: &[(usize, usize)])
    requires { AreWithin (PART * length named.old) pairs.now }
    ensures { (p : ℕ × ℕ) → Listed p pairs.now → has_wide named.new p.0 ≡ true }
{
    for pair in pairs {
        insert_wide(named, pair.0);
    }
}

fn insert_referenced(named: &mut [ColSet], pairs: &[(usize, usize)])
    requires { AreWithin (PART * length named.old) pairs.now }
    ensures grows { (k : ℕ) → has_wide named.old k ≡ true → has_wide named.new k ≡ true }
    ensures has { (p : ℕ × ℕ) → Listed p pairs.now → has_wide named.new p.1 ≡ true }
{
    for pair in pairs {
        insert_wide(named, pair.1);
    }
}

// The values of these columns, or every value where they are so many that their marks would tell few values apart.
fn values_in(alloc: Global, columns: &[Row], named: &[ColSet]) -> Result<Marks, AllocError>
    requires { length columns.now ≤ PART * length named.now }
    ensures { IfOk result (λ values. (c : ℕ) → c < length columns.now → has_wide named.now c ≡ true
        → (a : List ℕ) → Listed a (list_at columns.now c) → is_marked values a ≡ true) }
{
    let mut values = Marks::none(alloc)?;
    let mut left = MARKS;
    for place in 0..columns.len() {
        if has_wide(named, place) {
            let column = &columns[place];
            if column.len() > left {
                return Marks::all(alloc);
            }
            left -= column.len();
            values.insert_cells(column);
        }
    }
    Ok(values)
}

fn asked_in<'a>(
    alloc: Global,
    columns: &'a [Row],
    named: &[ColSet],
) -> Result<Vec<Option<&'a Row>>, AllocError>
    requires { length columns.now ≤ PART * length named.now }
    ensures count { IfOk result (λ asked. length (cells_asked asked.items) ≡ length columns.now) }
    ensures each { IfOk result (λ asked. (c : ℕ) → c < length columns.now → has_wide named.now c ≡ true
        → list_at (cells_asked asked.items) c ≡ list_at columns.now c) }
{
    let mut asked = Vec::with_capacity(alloc, columns.len())?;
    for place in 0..columns.len() {
        asked.push(has_wide(named, place).then_some(&columns[place]))?;
    }
    Ok(asked)
}

// The values of each column that is asked of, made by so many workers at most: a piece of the columns is as long as one worker's share.
fn value_lists<'a, R: Threads + Sync>(
    rt: &R,
    alloc: Global,
    asked: &[Option<&'a Row>],
    values: &Marks,
    workers: u8,
) -> Result<Vec<Vec<Value<'a>>>, AllocError>
    ensures { IfOk result (λ lists. AllZip (λ column list. IsValuesOf (is_marked values.now) (asked_cells column) list) asked.now (values_behind lists.items)) }
{
    let share = asked.len().div_ceil(workers.max(1) as usize);
    let lists: Result<Vec<Vec<Value<'a>>>, AllocError> = asked
        .par_iter()
        .with_min_len(share)
        .map(
            move |column: &Option<&Row>| -> Result<Vec<Value>, AllocError>
                ensures { IfOk result (λ list. IsValuesOf (is_marked values.entry.now) (asked_cells column.now) list.items) }
            { values_of(alloc, *column, values) },
        )
        .collect(rt, alloc)?;
    lists
}
