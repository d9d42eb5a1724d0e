// The parts of a dictionary: the map from cells to codes, and the place in it of each code's cell.
ghost use Rattle.std.specs.Prelude.{◌≡◌, ◌∷◌, [], ◌++◌, ◌+◌, ◌<◌, ◌≤◌, ◌==◌, true, false, not, length, None, OnOk, IfOk, OnErr, nat_eq, take};
ghost use Rattle.std.specs.List.{find};
ghost use Rattle.std.specs.Option.{unwrap_or};
ghost use Rattle.std.specs.Cmp.Lexicographic.{pointwise};
ghost use Rattle.indexmap.specs.IndexMap.{get, IsUnique};
ghost use Rattle.column_dict.specs.Coding as coding;
ghost use Rattle.column_dict.specs.Layout.{nowhere};

use crate::text::{Text, is_short};
use indexmap::IndexMap;
use rel_base::Nulls;
use std::alloc::{AllocError, Global};
use std::hash::{BuildHasherDefault, DefaultHasher};
use std::mem;

/// Cells by order of first sight, each with its code. The hash is SipHash with a fixed key: cells that collide are not known without a search.
pub type Known = IndexMap<Text, u32, BuildHasherDefault<DefaultHasher>>;

// The place of a fresh NULL.
const NOWHERE: u32 = u32::MAX;

// Whether each code of the cell is a fresh one.
pub fn is_fresh(nulls: Nulls, bytes: &[u8]) -> bool
    ensures { result ≡ coding.is_fresh nulls bytes.now }
{
    match nulls {
        Nulls::Equal => false,
        Nulls::Distinct => bytes.is_empty(),
    }
}

// Whether each code of the cell is that of these bytes.
pub fn is_known_as(nulls: Nulls, cell: &Text, bytes: &[u8]) -> bool
    ensures same { result ≡ true → cell.now ≡ bytes.now }
    ensures old { result ≡ true → coding.is_fresh nulls bytes.now ≡ false }
{
    cell.bytes() == bytes && !is_fresh(nulls, bytes)
}

// The code of a cell of the map.
pub fn known_code(known: &Known, cell: &Text) -> Option<u32>
    ensures code { result ≡ get (pointwise nat_eq) known.now cell.now }
    ensures unique { IsUnique (pointwise nat_eq) known.now }
{
    // `len` is called for its clause that no cell stands twice.
    let _cells = known.len();
    known.get(cell).copied()
}

// The code of the cell of these bytes, where the map has it. A long one is written into this text to be looked up, so that it takes
// memory only where it is longer than each one before.
pub fn code_in(
    known: &Known,
    scratch: &mut Text,
    alloc: Global,
    bytes: &[u8],
) -> Result<Option<u32>, AllocError>
    ensures code { IfOk result (λ code. code ≡ get (pointwise nat_eq) known.now bytes.now) }
    ensures unique { OnOk result (IsUnique (pointwise nat_eq) known.now) }
{
    if is_short(bytes) {
        let cell = Text::copied(alloc, bytes)?;
        return Ok(known_code(known, &cell));
    }
    let block = mem::replace(scratch, Text::null());
    *scratch = block.refilled(alloc, bytes)?;
    Ok(known_code(known, scratch))
}

// Gives a cell that the map lacks the next code.
pub fn add_known(known: &mut Known, places: &mut Vec<u32>, cell: Text) -> Result<u32, AllocError>
    requires absent { get (pointwise nat_eq) known.old cell ≡ None }
    requires room { length places.old.items < u32.MAX }
    requires fewer { length known.old.entries ≤ length places.old.items }
    ensures code { IfOk result (λ code. code ≡ length places.old.items) }
    ensures entries { OnOk result (known.new.entries ≡ known.old.entries ++ (cell, length places.old.items) ∷ []) }
    ensures places { OnOk result (places.new.items ≡ places.old.items ++ length known.old.entries ∷ []) }
    ensures entries_refused { OnErr result (known.new.entries ≡ known.old.entries) }
    ensures places_refused { OnErr result (places.new.items ≡ places.old.items) }
{
    let code = places.len() as u32;
    places.push(known.len() as u32)?;
    match known.insert(cell, code) {
        Ok(_) => Ok(code),
        Err(refused) => {
            places.truncate(code as usize);
            Err(AllocError::from(refused))
        }
    }
}

// Gives NULL the next code.
pub fn add_fresh(places: &mut Vec<u32>) -> Result<u32, AllocError>
    requires { length places.old.items < u32.MAX }
    ensures code { IfOk result (λ code. code ≡ length places.old.items) }
    ensures places { OnOk result (places.new.items ≡ places.old.items ++ nowhere ∷ []) }
    ensures refused { OnErr result (places.new.items ≡ places.old.items) }
{
    let code = places.len() as u32;
    places.push(NOWHERE)?;
    Ok(code)
}

// How many entries the map keeps where the codes with these places, its last ones, are dropped.
pub fn entries_left(known: &Known, dropped: &[u32]) -> usize
    ensures { result ≡ unwrap_or (find (λ p. not (p == nowhere)) dropped.now) (length known.now.entries) }
{
    match first_place(dropped) {
        Some(place) => place as usize,
        None => known.len(),
    }
}

// The first place of the map among these.
fn first_place(places: &[u32]) -> Option<u32>
    ensures { result ≡ find (λ p. not (p == nowhere)) places.now }
{
    places.iter().copied().find(|place| *place != NOWHERE)
}
