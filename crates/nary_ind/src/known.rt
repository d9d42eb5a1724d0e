// What is known of relations before lists are sought.
ghost use Rattle.std.specs.Prelude.{◌≡◌, ◌<◌, ◌≤◌, ◌-◌, ◌==◌, not, nat_lt, length, slice_index, IfOk, OnOk};
ghost use Rattle.std.specs.List.{filter, list_all};
ghost use Rattle.col_set.specs.Listing.{Listed};
ghost use Rattle.nary_ind.specs.declared.found.Side.{Side as SideSpec};
ghost use Rattle.nary_ind.specs.ListInclusions.{are_different, differ_by_place, from_to, holds_among, is_ascending, is_formed, width_at};
ghost use Rattle.nary_ind.specs.Levels.{IsSide, is_candidate, last_column};
ghost use Rattle.nary_ind.specs.Tables.{AreUsed};
ghost use Rattle.nary_ind.specs.Keys.{AreLists};

use crate::column_list::MOST_WIDTH;
use crate::found::Side;
use crate::holding::held;
use crate::key_lists::KeyLists;
use crate::numbering::tables_of;
use crate::unary::Unary;
use row_log::RowLog;
use std::alloc::{AllocError, Global};
use std::marker::Model;
use std::thread::Threads;

/// The inclusions among the columns of relations.
///
/// Contracts see the relations.
#[derive(Drop)]
pub(crate) struct Known<'a> {
    unary: Unary<'a>,
}

impl<'a> Model for Known<'a> {
    ghost use Rattle.std.specs.Prelude.{List};
    ghost use Rattle.rel_base.specs.RowState.{RowState};

    ghost Value = { List RowState };

    ghost view = { λ k. k.unary };
}

impl<'a> Known<'a> {
    /// What is known of these relations. The inclusions among their columns are found by so many workers at most.
    pub(crate) fn of<R: Threads + Sync>(
        rt: &R,
        alloc: Global,
        relations: &'a [RowLog],
        workers: u8,
    ) -> Result<Known<'a>, AllocError>
        ensures { IfOk result (λ known. known ≡ relations.now) }
    {
        let unary = Unary::among(rt, alloc, relations, workers)?;
        Ok(Known { unary })
    }

    /// The rows as numbers, and no keys of them yet.
    pub(crate) fn lists(&self, alloc: Global) -> Result<KeyLists, AllocError>
        ensures { IfOk result (λ lists. AreLists self.now lists) }
    {
        let tables = tables_of(alloc, &self.unary)?;
        Ok(KeyLists::of(alloc, tables))
    }

    /// How many relations there are.
    pub(crate) fn len(&self) -> usize
        ensures { result ≡ length self.now }
    {
        self.unary.relations().len()
    }

    /// How many columns a relation has.
    pub(crate) fn width(&self, relation: usize) -> u8
        requires { relation < length self.now }
        ensures { result ≡ width_at self.now relation }
    {
        self.unary.relations()[relation].names().len() as u8
    }

    /// Whether an inclusion is asked for, and its last columns are included.
    pub(crate) fn is_candidate(&self, dependent: &Side, referenced: &Side) -> bool
        requires some { 0 < length dependent.now.columns }
        requires dependent { IsSide self.now (length dependent.now.columns) dependent.now }
        requires referenced { IsSide self.now (length dependent.now.columns) referenced.now }
        ensures { result ≡ is_candidate self.now dependent.now referenced.now }
    {
        if !is_formed(dependent, referenced) {
            return false;
        }
        let last = last_place(dependent);
        let into = last_place(referenced);
        let included = self.unary.has(last, into);
        included
    }

    /// Those of these lists that a dependent list is included in.
    ///
    /// It takes a search by halves for each key of the dependent list and each of the others, up to the first key that is lacking, and what it takes to make
    /// keys that are not kept.
    pub(crate) fn held(
        &self,
        alloc: Global,
        lists: &mut KeyLists,
        dependent: &Side,
        candidates: &[Side],
    ) -> Result<Vec<Side>, AllocError>
        requires lists { AreLists self.now lists.old }
        requires dependent { IsSide self.now (length dependent.now.columns) dependent.now }
        requires short { length dependent.now.columns ≤ MOST_WIDTH }
        requires used { AreUsed self.now dependent.now.rel dependent.now.columns }
        requires candidates { (i : SideSpec) → Listed i candidates.now → IsSide self.now (length dependent.now.columns) i × AreUsed self.now i.rel i.columns }
        ensures lists { OnOk result (AreLists self.now lists.new) }
        ensures held { IfOk result (λ held. held.items ≡ filter (λ i. holds_among self.now (from_to dependent.now i)) candidates.now) }
    {
        held(alloc, &self.unary, lists, dependent, candidates)
    }
}

// The relation of a side, and its last column.
fn last_place(side: &Side) -> (usize, u8)
    requires { 0 < length side.now.columns }
    ensures rel { result.0 ≡ side.now.rel }
    ensures column { result.1 ≡ last_column side.now }
{
    (side.rel, last_of(side.columns.as_slice()))
}

// The last of some columns.
fn last_of(columns: &[u8]) -> u8
    requires { 0 < length columns.now }
    ensures { result ≡ slice_index columns.now (length columns.now - 1) }
{
    columns[columns.len() - 1]
}

// Whether the inclusion of one side in another is one that is asked for.
#[tactic(auto, unfolding(crate::specs::ListInclusions::is_formed))]
fn is_formed(dependent: &Side, referenced: &Side) -> bool
    ensures { result ≡ is_formed (from_to dependent.now referenced.now) }
{
    let columns = dependent.columns.as_slice();
    let into = referenced.columns.as_slice();
    is_ascending(columns)
        && are_different(into)
        && (dependent.rel != referenced.rel || differ_by_place(columns, into))
}

// Whether each column stands before all greater ones alone.
fn is_ascending(columns: &[u8]) -> bool
    ensures { result ≡ is_ascending columns.now }
{
    match columns.split_first() {
        Some((first, rest)) => are_above(rest, *first) && is_ascending(rest),
        None => true,
    }
}

// Whether these columns all stand behind one.
fn are_above(columns: &[u8], column: u8) -> bool
    ensures { result ≡ list_all (nat_lt column) columns.now }
{
    columns.iter().all(|other| column < *other)
}

// Whether no column stands twice.
fn are_different(columns: &[u8]) -> bool
    ensures { result ≡ are_different columns.now }
{
    match columns.split_first() {
        Some((first, rest)) => lack(rest, *first) && are_different(rest),
        None => true,
    }
}

// Whether one column is none of these.
fn lack(columns: &[u8], column: u8) -> bool
    ensures { result ≡ list_all (λ other. not (column == other)) columns.now }
{
    columns.iter().all(|other| column != *other)
}

// Whether at no place both lists have the same column.
fn differ_by_place(columns: &[u8], others: &[u8]) -> bool
    ensures { result ≡ differ_by_place columns.now others.now }
{
    match (columns.split_first(), others.split_first()) {
        (Some((one, rest)), Some((other, others))) => *one != *other
            && differ_by_place(rest, others),
        _ => true,
    }
}
