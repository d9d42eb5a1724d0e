// From the lists of one width to those of the next.
ghost use Rattle.std.specs.Prelude.{◌≡◌, ◌<◌, ◌+◌, ◌++◌, [], suc, length, map, IfOk, OnOk};
ghost use Rattle.std.specs.List.{filter, flat_map};
ghost use Rattle.col_set.specs.ColSet.{upto};
ghost use Rattle.col_set.specs.Listing.{Listed};
ghost use Rattle.nary_ind.specs.declared.found.Side.{Side as SideSpec};
ghost use Rattle.nary_ind.specs.ListInclusions.{width_at};
ghost use Rattle.nary_ind.specs.Keys.{AreLists};
ghost use Rattle.nary_ind.specs.Levels.{IsGroup, IsSide, extend, grouped, grown, groups, has_some, is_candidate, next_groups, next_into};

use crate::column_list::{ColumnList, MOST_WIDTH};
use crate::found::{Group, Side};
use crate::key_lists::KeyLists;
use crate::known::Known;
use std::alloc::{AllocError, Global};

// So many inclusions of one width are listed at most. Relations without rows and columns of NULLs are included in everything: 40 such columns alone are
// in some 10^11 inclusions of four, which no memory has, and which nobody reads.
const MOST_LISTS: usize = 8_388_608;

/// The groups of no columns: of each relation the empty list, which is included in that of each.
pub(crate) fn first_level(alloc: Global, known: &Known) -> Result<Vec<Group>, AllocError>
    ensures { IfOk result (λ level. map grouped level.items ≡ groups known.now 0) }
{
    let mut level = Vec::with_capacity(alloc, known.len())?;
    for relation in 0..known.len() {
        level.push(Group {
            side: bare(relation),
            into: bare_lists(alloc, known.len())?,
        })?;
    }
    Ok(level)
}

fn bare(relation: usize) -> Side
    ensures { result ≡ record { rel = relation; columns = [] } }
{
    Side {
        rel: relation,
        columns: ColumnList::empty(),
    }
}

fn bare_lists(alloc: Global, relations: usize) -> Result<Vec<Side>, AllocError>
    ensures { IfOk result (λ lists. lists.items ≡ map (λ p. record { rel = p; columns = [] }) (upto relations)) }
{
    let mut lists = Vec::with_capacity(alloc, relations)?;
    for relation in 0..relations {
        lists.push(bare(relation))?;
    }
    Ok(lists)
}

/// The groups with one column more. Where they would list more than some eight million inclusions, that is want of memory, and they are not made.
pub(crate) fn next_level(
    alloc: Global,
    known: &Known,
    lists: &mut KeyLists,
    width: usize,
    level: &[Group],
) -> Result<Vec<Group>, AllocError>
    requires width { width < MOST_WIDTH }
    requires lists { AreLists known.now lists.old }
    requires groups { map grouped level.now ≡ groups known.now width }
    ensures lists { OnOk result (AreLists known.now lists.new) }
    ensures groups { IfOk result (λ next. map grouped next.items ≡ groups known.now (suc width)) }
{
    let mut next = Vec::new(alloc);
    let mut left = MOST_LISTS;
    for group in level {
        push_next(alloc, known, lists, width, group, &mut left, &mut next)?;
    }
    Ok(next)
}

// Takes the room for the inclusions of a group, of so many that may still be listed.
fn take_room(left: &mut usize, group: &Group) -> Result<(), AllocError> {
    match left.checked_sub(group.into.len()) {
        Some(rest) => {
            *left = rest;
            Ok(())
        }
        None => Err(AllocError),
    }
}

// Adds the groups that come of one.
fn push_next(
    alloc: Global,
    known: &Known,
    lists: &mut KeyLists,
    width: usize,
    group: &Group,
    left: &mut usize,
    next: &mut Vec<Group>,
) -> Result<(), AllocError>
    requires width { width < MOST_WIDTH }
    requires lists { AreLists known.now lists.old }
    requires group { IsGroup known.now width (grouped group.now) }
    ensures lists { OnOk result (AreLists known.now lists.new) }
    ensures groups { OnOk result (map grouped next.new.items ≡ map grouped next.old.items ++ next_groups known.now (grouped group.now)) }
{
    for column in 0..known.width(group.side.rel) {
        let more = group_with(alloc, known, lists, width, group, column)?;
        take_room(left, &more)?;
        if has_some(&more) {
            next.push(more)?;
        }
    }
    Ok(())
}

// Whether a dependent list is included in some list.
fn has_some(group: &Group) -> bool
    ensures { result ≡ has_some (grouped group.now) }
{
    !group.into.is_empty()
}

// The group of the dependent list with one column more, which may have no referenced lists.
fn group_with(
    alloc: Global,
    known: &Known,
    lists: &mut KeyLists,
    width: usize,
    group: &Group,
    column: u8,
) -> Result<Group, AllocError>
    requires width { width < MOST_WIDTH }
    requires group { IsGroup known.now width (grouped group.now) }
    requires lists { AreLists known.now lists.old }
    requires column { column < width_at known.now group.now.side.rel }
    ensures lists { OnOk result (AreLists known.now lists.new) }
    ensures group { IfOk result (λ more. grouped more ≡ (extend group.now.side column, next_into known.now (extend group.now.side column) group.now.into.items)) }
{
    let side = group.side.with(column);
    let candidates = candidates_of(alloc, known, width, &side, &group.into)?;
    if width == 0 {
        return Ok(Group {
            side,
            into: candidates,
        });
    }
    if candidates.is_empty() {
        return Ok(Group {
            side,
            into: candidates,
        });
    }
    let into = known.held(alloc, lists, &side, &candidates)?;
    Ok(Group { side, into })
}

// Of these lists with one column more, those that the dependent list may be included in, by what is known of its last column.
fn candidates_of(
    alloc: Global,
    known: &Known,
    width: usize,
    side: &Side,
    into: &[Side],
) -> Result<Vec<Side>, AllocError>
    requires width { width < MOST_WIDTH }
    requires side { IsSide known.now (suc width) side.now }
    requires into { (i : SideSpec) → Listed i into.now → IsSide known.now width i }
    ensures { IfOk result (λ found. found.items ≡ filter (is_candidate known.now side.now) (flat_map (grown known.now) into.now)) }
{
    let mut found = Vec::new(alloc);
    for list in into {
        push_candidates(known, width, side, list, &mut found)?;
    }
    Ok(found)
}

fn push_candidates(
    known: &Known,
    width: usize,
    side: &Side,
    list: &Side,
    found: &mut Vec<Side>,
) -> Result<(), AllocError>
    requires width { width < MOST_WIDTH }
    requires side { IsSide known.now (suc width) side.now }
    requires list { IsSide known.now width list.now }
    ensures { OnOk result (found.new.items ≡ found.old.items ++ filter (is_candidate known.now side.now) (grown known.now list.now)) }
{
    for column in 0..known.width(list.rel) {
        let more = list.with(column);
        if known.is_candidate(side, &more) {
            found.push(more)?;
        }
    }
    Ok(())
}
