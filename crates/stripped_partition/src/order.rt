// Groups in the order of their first rows.
ghost use Rattle.std.specs.Prelude.{◌≡◌, ◌<◌, ◌≤◌, ◌^◌, ◌%◌, [], length, map, sum_by, slice_index, slice_index_or, vec_len, IfOk, IsTrue, IsPermutation, OnOk, ◌+◌, ◌∷◌, ◌++◌};
ghost use Rattle.std.specs.List.{All};
ghost use Rattle.std.specs.List.Sorted.{IsNonDecreasing};
ghost use Rattle.col_set.specs.ColSet.{upto};
ghost use Rattle.stripped_partition.specs.Groups.{cut, IsCut, IsFlat};
ghost use Rattle.stripped_partition.specs.Order.{Ahead, IsInOrder, key_of, group_at};

use crate::groups::{Groups, start_of};
use rel_base::{MOST_ROWS, RowNo};
use std::alloc::{AllocError, Global};

// A key is a group's first row times this, and its place.
const PLACES: u64 = 1 << 32;

// The first row of a group.
fn first_of(groups: &Groups, k: usize) -> RowNo
    requires cut { IsCut groups.now.rows.items groups.now.ends.items }
    requires place { k < vec_len groups.now.ends }
    ensures { result ≡ slice_index (slice_index_or (cut 0 groups.now.rows.items groups.now.ends.items) k []) 0 }
{
    groups.rows[start_of(&groups.ends, k)]
}

// Whether each group's first row is below that of the next.
fn is_in_order(groups: &Groups) -> bool
    requires { IsCut groups.now.rows.items groups.now.ends.items }
    ensures { IsTrue result → Ahead (cut 0 groups.now.rows.items groups.now.ends.items) }
{
    let mut last = 0;
    for k in 0..groups.ends.len() {
        let first = first_of(groups, k).number();
        if first <= last {
            return false;
        }
        last = first;
    }
    true
}

// The keys of the groups, sorted.
fn sorted_keys(alloc: Global, groups: &Groups) -> Result<Vec<u64>, AllocError>
    requires { IsCut groups.now.rows.items groups.now.ends.items }
    ensures permutation { IfOk result (λ keys. IsPermutation (map (key_of (cut 0 groups.now.rows.items groups.now.ends.items)) (upto (vec_len groups.now.ends))) keys.items) }
    ensures sorted { IfOk result (λ keys. IsNonDecreasing keys.items) }
{
    let mut keys = keys_of(alloc, groups)?;
    keys.sort_unstable();
    Ok(keys)
}

// The keys of the groups.
fn keys_of(alloc: Global, groups: &Groups) -> Result<Vec<u64>, AllocError>
    requires { IsCut groups.now.rows.items groups.now.ends.items }
    ensures { IfOk result (λ keys. keys.items ≡ map (key_of (cut 0 groups.now.rows.items groups.now.ends.items)) (upto (vec_len groups.now.ends))) }
{
    let mut keys = Vec::with_capacity(alloc, groups.ends.len())?;
    for k in 0..groups.ends.len() {
        keys.push(first_of(groups, k).number() as u64 * PLACES + k as u64)?;
    }
    Ok(keys)
}

// Adds a copy of a group.
fn push_group(laid: &mut Groups, groups: &Groups, k: usize) -> Result<(), AllocError>
    requires cut { IsCut groups.now.rows.items groups.now.ends.items }
    requires place { k < vec_len groups.now.ends }
    requires short { vec_len laid.old.rows + length (slice_index_or (cut 0 groups.now.rows.items groups.now.ends.items) k []) ≤ MOST_ROWS }
    ensures rows { OnOk result (laid.new.rows.items ≡ laid.old.rows.items ++ slice_index_or (cut 0 groups.now.rows.items groups.now.ends.items) k []) }
    ensures ends { OnOk result (laid.new.ends.items ≡ laid.old.ends.items ++ (vec_len laid.old.rows + length (slice_index_or (cut 0 groups.now.rows.items groups.now.ends.items) k [])) ∷ []) }
{
    let start = start_of(&groups.ends, k);
    let end = groups.ends[k] as usize;
    laid.rows.extend_from_slice(&groups.rows[start..end])?;
    laid.ends.push(laid.rows.len() as u32)?;
    Ok(())
}

// The groups that have the places of these keys, one after another.
fn laid_out(alloc: Global, groups: &Groups, keys: &[u64]) -> Result<Groups, AllocError>
    requires cut { IsCut groups.now.rows.items groups.now.ends.items }
    requires places { All (λ key. key % 2 ^ 32 < vec_len groups.now.ends) keys.now }
    requires short { sum_by (λ key. length (group_at (cut 0 groups.now.rows.items groups.now.ends.items) key)) keys.now ≤ MOST_ROWS }
    ensures { IfOk result (λ laid. IsFlat laid.rows.items laid.ends.items (map (group_at (cut 0 groups.now.rows.items groups.now.ends.items)) keys.now)) }
{
    let mut laid = Groups {
        rows: Vec::with_capacity(alloc, groups.rows.len())?,
        ends: Vec::with_capacity(alloc, groups.ends.len())?,
    };
    for key in keys {
        push_group(&mut laid, groups, (*key % PLACES) as usize)?;
    }
    Ok(laid)
}

// The groups in the order of their first rows. It sorts them, unless they stand in order.
pub(crate) fn in_order(alloc: Global, groups: Groups) -> Result<Groups, AllocError>
    requires { IsCut groups.rows.items groups.ends.items }
    ensures cut { IfOk result (λ new. IsCut new.rows.items new.ends.items) }
    ensures order { IfOk result (λ new. IsInOrder (cut 0 groups.rows.items groups.ends.items) (cut 0 new.rows.items new.ends.items)) }
{
    if is_in_order(&groups) {
        return Ok(groups);
    }
    let keys = sorted_keys(alloc, &groups)?;
    laid_out(alloc, &groups, &keys)
}
