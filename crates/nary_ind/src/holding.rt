// Which lists a dependent list is included in.
ghost use Rattle.std.specs.Prelude.{◌≡◌, ◌≤◌, length, IfOk, OnOk};
ghost use Rattle.std.specs.List.{filter};
ghost use Rattle.col_set.specs.Listing.{Listed};
ghost use Rattle.nary_ind.specs.declared.found.Side.{Side as SideSpec};
ghost use Rattle.nary_ind.specs.ListInclusions.{from_to, holds_among};
ghost use Rattle.nary_ind.specs.Levels.{IsSide};
ghost use Rattle.nary_ind.specs.Tables.{AreUsed, table_at};
ghost use Rattle.nary_ind.specs.Keys.{AreKeysIn, AreLists};

use crate::column_list::MOST_WIDTH;
use crate::found::Side;
use crate::key_lists::KeyLists;
use crate::keys::has_all;
use crate::unary::Unary;
use std::alloc::{AllocError, Global};

/// Those of these lists that a dependent list is included in, all of used columns of the relations, whose tables these are.
pub(crate) fn held(
    alloc: Global,
    unary: &Unary,
    lists: &mut KeyLists,
    dependent: &Side,
    candidates: &[Side],
) -> Result<Vec<Side>, AllocError>
    requires lists { AreLists unary.now lists.old }
    requires dependent { IsSide unary.now (length dependent.now.columns) dependent.now }
    requires short { length dependent.now.columns ≤ MOST_WIDTH }
    requires used { AreUsed unary.now dependent.now.rel dependent.now.columns }
    requires candidates { (i : SideSpec) → Listed i candidates.now → IsSide unary.now (length dependent.now.columns) i × AreUsed unary.now i.rel i.columns }
    ensures lists { OnOk result (AreLists unary.now lists.new) }
    ensures held { IfOk result (λ held. held.items ≡ filter (λ i. holds_among unary.now (from_to dependent.now i)) candidates.now) }
{
    let keys = keys_of_side(alloc, unary, lists, dependent)?;
    let mut held = Vec::new(alloc);
    for candidate in candidates {
        let is_in = is_held(alloc, unary, lists, dependent, &keys, candidate)?;
        if is_in {
            held.push(candidate.copied())?;
        }
    }
    Ok(held)
}

// A copy of the keys of a dependent list: those of other lists may take their place meanwhile.
fn keys_of_side(
    alloc: Global,
    unary: &Unary,
    lists: &mut KeyLists,
    side: &Side,
) -> Result<Vec<u128>, AllocError>
    requires lists { AreLists unary.now lists.old }
    requires side { IsSide unary.now (length side.now.columns) side.now }
    requires short { length side.now.columns ≤ MOST_WIDTH }
    requires used { AreUsed unary.now side.now.rel side.now.columns }
    ensures lists { OnOk result (AreLists unary.now lists.new) }
    ensures tables { OnOk result (lists.new.tables ≡ lists.old.tables) }
    ensures keys { IfOk result (λ keys. AreKeysIn (table_at lists.old.tables.items side.now.rel) side.now.columns keys.items) }
{
    let place = lists.place_of(alloc, side)?;
    let keys = Vec::from_slice(alloc, &lists.entry(place).keys)?;
    Ok(keys)
}

// Whether a dependent list with these keys is included in another.
fn is_held(
    alloc: Global,
    unary: &Unary,
    lists: &mut KeyLists,
    dependent: &Side,
    keys: &[u128],
    candidate: &Side,
) -> Result<bool, AllocError>
    requires lists { AreLists unary.now lists.old }
    requires dependent { IsSide unary.now (length dependent.now.columns) dependent.now }
    requires short { length dependent.now.columns ≤ MOST_WIDTH }
    requires used { AreUsed unary.now dependent.now.rel dependent.now.columns }
    requires candidate { IsSide unary.now (length dependent.now.columns) candidate.now }
    requires asked { AreUsed unary.now candidate.now.rel candidate.now.columns }
    requires keys { AreKeysIn (table_at lists.old.tables.items dependent.now.rel) dependent.now.columns keys.now }
    ensures lists { OnOk result (AreLists unary.now lists.new) }
    ensures tables { OnOk result (lists.new.tables ≡ lists.old.tables) }
    ensures held { IfOk result (λ held. held ≡ holds_among unary.now (from_to dependent.now candidate.now)) }
{
    let place = lists.place_of(alloc, candidate)?;
    let all = has_all(&lists.entry(place).keys, keys);
    Ok(all)
}
