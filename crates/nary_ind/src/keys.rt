// The keys of rows, and whether other rows have them.
ghost use Rattle.std.specs.Prelude.{◌≡◌, ◌↔◌, ◌<◌, true, ℕ, length, slice_index, IfOk};
ghost use Rattle.std.specs.List.Sorted.{IsStrictlyIncreasing};
ghost use Rattle.col_set.specs.Listing.{Listed};
ghost use Rattle.nary_ind.specs.Keys.{AreKeyed, AreKeysIn, packed};

use crate::table::{Key, Table};
use std::alloc::{AllocError, Global};

/// The keys of all rows in these columns that are not NULL throughout, each once, ascending. It takes 16 bytes a row.
pub(crate) fn keys_of(alloc: Global, table: &Table, columns: &[u8]) -> Result<Vec<u128>, AllocError>
    requires { AreKeyed table.now columns.now }
    ensures rises { IfOk result (λ keys. IsStrictlyIncreasing keys.items) }
    ensures each { IfOk result (λ keys. AreKeysIn table.now columns.now keys.items) }
{
    let keys = keys_by_row(alloc, table, columns)?;
    Ok(distinct_in_order(keys))
}

// The keys of all rows that are not NULL throughout.
fn keys_by_row(alloc: Global, table: &Table, columns: &[u8]) -> Result<Vec<u128>, AllocError>
    requires { AreKeyed table.now columns.now }
    ensures { IfOk result (λ keys. AreKeysIn table.now columns.now keys.items) }
{
    let mut keys = Vec::with_capacity(alloc, table.rows())?;
    for row in 0..table.rows() {
        let key = packed(&table.key(columns, row));
        if key != 0 {
            keys.push(key)?;
        }
    }
    Ok(keys)
}

// Four numbers of 32 bits as one, so that numbers are equal where all four are.
fn packed(key: &Key) -> u128
    ensures { result ≡ packed key.now }
{
    let radix = 4_294_967_296;
    let first = u128::from(key[0]) * radix + u128::from(key[1]);
    let second = first * radix + u128::from(key[2]);
    second * radix + u128::from(key[3])
}

fn distinct_in_order(keys: Vec<u128>) -> Vec<u128>
    ensures rises { IsStrictlyIncreasing result.items }
    ensures each { (key : ℕ) → Listed key result.items ↔ Listed key keys.items }
{
    let mut distinct = keys;
    distinct.sort_unstable();
    distinct.dedup();
    distinct.shrink_to_fit();
    distinct
}

/// Whether all of these keys are among the first ones. It takes a search by halves for each, up to the first that is lacking.
pub(crate) fn has_all(found: &[u128], keys: &[u128]) -> bool
    requires { IsStrictlyIncreasing found.now }
    ensures { (result ≡ true) ↔ ((key : ℕ) → Listed key keys.now → Listed key found.now) }
{
    for place in 0..keys.len() {
        if !has(found, key_at(keys, place)) {
            return false;
        }
    }
    true
}

// The key at a place.
fn key_at(keys: &[u128], place: usize) -> u128
    requires { place < length keys.now }
    ensures { result ≡ slice_index keys.now place }
{
    keys[place]
}

// Whether a key is among these.
fn has(keys: &[u128], key: u128) -> bool
    requires { IsStrictlyIncreasing keys.now }
    ensures { (result ≡ true) ↔ Listed key keys.now }
{
    keys.binary_search(&key).is_ok()
}
