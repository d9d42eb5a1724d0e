// Lists of keys, kept as long as there is room.
ghost use Rattle.std.specs.Prelude.{◌≡◌, ◌<◌, true, Some, length, slice_get, IfOk, IfSome, OnOk};
ghost use Rattle.nary_ind.specs.Tables.{table_at};
ghost use Rattle.nary_ind.specs.Keys.{AreEntries, AreKeyed, IsEntryOf};

use crate::found::Side;
use crate::keys::keys_of;
use crate::table::Table;
use std::alloc::{AllocError, Global};
use std::collections::HashMap;

// So many keys are kept at most, and one list more: half a gigabyte.
const MOST_KEPT: usize = 33_554_432;

/// The keys of a side, ascending.
#[derive(Drop)]
pub(crate) struct Entry {
    pub(crate) side: Side,
    pub(crate) keys: Vec<u128>,
}

/// The rows of relations as numbers, and the keys of the sides that were asked for last.
#[derive(Drop)]
pub(crate) struct KeyLists {
    pub(crate) tables: Vec<Table>,
    pub(crate) entries: Vec<Entry>,
    // Where the entry of a side may stand. What it tells is compared, so nothing rests on it.
    places: HashMap<u128, usize>,
    kept: usize,
}

impl KeyLists {
    /// No keys yet, of these tables.
    pub(crate) fn of(alloc: Global, tables: Vec<Table>) -> KeyLists
        ensures entries { AreEntries result }
        ensures tables { result.tables.items ≡ tables.items }
    {
        KeyLists {
            tables,
            entries: Vec::new(alloc),
            places: HashMap::new(alloc),
            kept: 0,
        }
    }

    /// The place of the keys of a side, which are made where they are not kept. It takes a step a row and a sort to make them.
    pub(crate) fn place_of(&mut self, alloc: Global, side: &Side) -> Result<usize, AllocError>
        requires entries { AreEntries self.old }
        requires side { side.now.rel < length self.old.tables.items }
        requires keyed { AreKeyed (table_at self.old.tables.items side.now.rel) side.now.columns }
        ensures entries { OnOk result (AreEntries self.new) }
        ensures tables { OnOk result (self.new.tables ≡ self.old.tables) }
        ensures place { IfOk result (λ place. IsEntryOf self.new place side.now) }
    {
        match self.known_place(side) {
            Some(place) => Ok(place),
            None => self.add(alloc, side),
        }
    }

    /// What is kept at a place.
    pub(crate) fn entry(&self, place: usize) -> &Entry
        requires { place < length self.now.entries.items }
        ensures { slice_get self.now.entries.items place ≡ Some result.now }
    {
        &self.entries[place]
    }

    // The table of the relation at a place.
    fn table(&self, relation: usize) -> &Table
        requires { relation < length self.now.tables.items }
        ensures { slice_get self.now.tables.items relation ≡ Some result.now }
    {
        &self.tables[relation]
    }

    // The place of the keys of a side, where they are kept.
    fn known_place(&self, side: &Side) -> Option<usize>
        ensures { IfSome result (λ place. IsEntryOf self.now place side.now) }
    {
        let place = *self.places.get(&mark_of(side))?;
        if place >= self.entries.len() {
            return None;
        }
        if !are_same(&self.entry(place).side, side) {
            return None;
        }
        Some(place)
    }

    // Makes the keys of a side.
    fn add(&mut self, alloc: Global, side: &Side) -> Result<usize, AllocError>
        requires entries { AreEntries self.old }
        requires side { side.now.rel < length self.old.tables.items }
        requires keyed { AreKeyed (table_at self.old.tables.items side.now.rel) side.now.columns }
        ensures entries { OnOk result (AreEntries self.new) }
        ensures tables { OnOk result (self.new.tables ≡ self.old.tables) }
        ensures place { IfOk result (λ place. IsEntryOf self.new place side.now) }
    {
        let keys = keys_of(alloc, self.table(side.rel), side.columns.as_slice())?;
        self.make_room(alloc, keys.len());
        let place = self.entries.len();
        self.places.insert(mark_of(side), place)?;
        self.entries.push(Entry {
            side: side.copied(),
            keys,
        })?;
        Ok(place)
    }

    // Lets all keys go where too many are kept, and counts those to come.
    fn make_room(&mut self, alloc: Global, count: usize)
        requires entries { AreEntries self.old }
        ensures entries { AreEntries self.new }
        ensures tables { self.new.tables ≡ self.old.tables }
    {
        if self.kept > MOST_KEPT {
            self.entries = Vec::new(alloc);
            self.places = HashMap::new(alloc);
            self.kept = 0;
        }
        self.kept = self.kept.saturating_add(count);
    }
}

// Whether two sides are the same.
fn are_same(one: &Side, other: &Side) -> bool
    ensures { result ≡ true → one.now ≡ other.now }
{
    one.rel == other.rel && one.columns.as_slice() == other.columns.as_slice()
}

// A number for a side, by which its place is looked up.
fn mark_of(side: &Side) -> u128 {
    let mut mark = side.rel as u128;
    for column in side.columns.as_slice() {
        mark = mark.wrapping_mul(256).wrapping_add(u128::from(*column) + 1);
    }
    mark
}
