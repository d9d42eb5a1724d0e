// The rows of a table by their parts on some of its columns.
ghost use Rattle.std.specs.Prelude.{◌≡◌, ◌+◌, ◌<◌, ◌++◌, ◌∷◌, [], length, IfOk, OnOk};
ghost use Rattle.col_set.specs.ColSet.{IsSubset};
ghost use Rattle.lossless_join.specs.Indexed.{IsIndex};

use crate::Filled;
use crate::parts::{DistinctRows, no_rows, part_within};
use rel_base::{ColSet, Row};
use std::alloc::{AllocError, Global};
use std::marker::Model;

// Places of rows in a table, ascending.
#[derive(Drop)]
pub(crate) struct Places {
    places: Vec<usize>,
}

impl Model for Places {
    ghost use Rattle.std.specs.Prelude.{List, ℕ};

    ghost Value = { List ℕ };

    ghost view = { λ p. p.places.items };
}

impl Places {
    // One place.
    fn of(alloc: Global, place: usize) -> Result<Places, AllocError>
        ensures { IfOk result (λ places. places ≡ place ∷ []) }
    {
        Ok(Places {
            places: vec![in alloc; place]?,
        })
    }

    fn push(&mut self, place: usize) -> Result<(), AllocError>
        ensures { OnOk result (self.new ≡ self.old ++ place ∷ []) }
    {
        self.places.push(place)?;
        Ok(())
    }

    pub(crate) fn as_slice(&self) -> &[usize]
        ensures { result.now ≡ self.now }
    {
        self.places.as_slice()
    }
}

// The different parts, and for each the places of the rows that have it.
#[derive(Drop)]
pub(crate) struct Index {
    pub(crate) keys: DistinctRows,
    pub(crate) groups: Vec<Places>,
}

// Adds the row at this place, by its part.
fn add(
    alloc: Global,
    table: &Filled,
    columns: ColSet,
    place: usize,
    keys: &mut DistinctRows,
    groups: &mut Vec<Places>,
) -> Result<(), AllocError>
    requires columns { IsSubset columns table.now.columns }
    requires place { place < length table.now.rows }
    requires index { IsIndex table.now columns place keys.old.keys groups.old.items }
    ensures { OnOk result (IsIndex table.now columns (place + 1) keys.new.keys groups.new.items) }
{
    let part = part_within(alloc, table.columns(), table.row(place), columns)?;
    let (group, is_new) = keys.insert_full(part)?;
    if is_new {
        groups.push(Places::of(alloc, place)?)?;
    } else {
        groups[group].push(place)?;
    }
    Ok(())
}

// The index of a table's rows by their parts on these of its columns. It takes a hash of each part.
pub(crate) fn index_of(alloc: Global, table: &Filled, columns: ColSet) -> Result<Index, AllocError>
    requires { IsSubset columns table.now.columns }
    ensures { IfOk result (λ index. IsIndex table.now columns (length table.now.rows) index.keys.keys index.groups.items) }
{
    let mut keys = no_rows(alloc);
    let mut groups = Vec::new(alloc);
    for place in 0..table.rows().len() {
        add(alloc, table, columns, place, &mut keys, &mut groups)?;
    }
    Ok(Index { keys, groups })
}
