// The minimal keys of tables.
ghost use Rattle.std.specs.Prelude.{◌≡◌, ◌==◌, ◌<◌, ◌^◌, ℕ, map, not, IfOk};
ghost use Rattle.std.specs.List.{All, filter};
ghost use Rattle.rel_base.specs.declared.nulls.Nulls.TheVariants.{Equal};
ghost use Rattle.rel_base.specs.Covers.{covers, least_covers};
ghost use Rattle.rel_base.specs.RowState.{RowState, IsRowState, width};
ghost use Rattle.table_files.specs.Keys as words;

use crate::numbers::number_at;
use key_finder::table_keys_of;
use rel_base::{ColSet, Table};
use std::alloc::{AllocError, Global};

/// The minimal keys of tables, each behind its table's number: in the order of the tables, and those of one table in report order.
#[derive(Drop)]
pub struct TableKeys {
    /// All of them.
    pub all: Vec<(u32, ColSet)>,
    /// Those that are not the key that the table has.
    pub others: Vec<(u32, ColSet)>,
}

/// The minimal keys of tables, which are numbered from 1, by agree sets that leave the covers of their rows, as the witnesses of a
/// finished search do. The rows are not looked at.
///
/// What each table costs stands at `key_finder::table_keys_of`.
pub fn keys_of_tables(
    alloc: Global,
    agree_sets: &[ColSet],
    tables: &[Table],
) -> Result<TableKeys, AllocError>
    ensures all { IfOk result (λ found. (r : RowState) → IsRowState r → r.nulls ≡ Equal → covers r ≡ least_covers (width r) agree_sets.now
        → All (λ table. table.columns < 2 ^ width r) tables.now → found.all.items ≡ words.all_keys r tables.now) }
    ensures others { IfOk result (λ found. (r : RowState) → IsRowState r → r.nulls ≡ Equal → covers r ≡ least_covers (width r) agree_sets.now
        → All (λ table. table.columns < 2 ^ width r) tables.now → found.others.items ≡ words.alternates r tables.now) }
{
    let found = keys_by(alloc, agree_sets, tables)?;
    Ok(found)
}

// The keys by agree sets of so many columns.
fn keys_by(alloc: Global, agree_sets: &[ColSet], tables: &[Table]) -> Result<TableKeys, AllocError>
    ensures all { IfOk result (λ found. (n : ℕ) → All (λ table. table.columns < 2 ^ n) tables.now → found.all.items ≡ words.all_keys_within n agree_sets.now tables.now) }
    ensures others { IfOk result (λ found. (n : ℕ) → All (λ table. table.columns < 2 ^ n) tables.now → found.others.items ≡ words.alternates_within n agree_sets.now tables.now) }
{
    let mut all = Vec::new(alloc);
    let mut others = Vec::new(alloc);
    for (place, table) in tables.iter().enumerate() {
        let number = number_at(place)?;
        let keys = table_keys_of(alloc, agree_sets, table.columns)?;
        let every = keys_behind(alloc, number, keys.as_slice())?;
        let besides = other_keys(alloc, number, table.key, keys.as_slice())?;
        all.extend_from_slice(every.as_slice())?;
        others.extend_from_slice(besides.as_slice())?;
    }
    Ok(TableKeys { all, others })
}

// The keys, each behind the table's number.
fn keys_behind(
    alloc: Global,
    number: u32,
    keys: &[ColSet],
) -> Result<Vec<(u32, ColSet)>, AllocError>
    ensures { IfOk result (λ behind. behind.items ≡ map (λ key. (number, key)) keys.now) }
{
    keys.iter().copied().map(|key| (number, key)).collect(alloc)
}

// The keys but this one, each behind the table's number.
fn other_keys(
    alloc: Global,
    number: u32,
    key: ColSet,
    keys: &[ColSet],
) -> Result<Vec<(u32, ColSet)>, AllocError>
    ensures { IfOk result (λ others. others.items ≡ map (λ other. (number, other)) (filter (λ other. not (other == key)) keys.now)) }
{
    keys.iter()
        .copied()
        .filter(|other| *other != key)
        .map(|other| (number, other))
        .collect(alloc)
}
