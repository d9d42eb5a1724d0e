// References between tables by their keys.
ghost use Rattle.std.specs.Prelude.{◌≡◌, ◌+◌, IfOk};
ghost use Rattle.synth_3nf.specs.References as words;

use crate::reference::Reference;
use rel_base::{ColSet, Table};
use std::alloc::{AllocError, Global};

/// The references between tables, by the minimal keys of each: a table refers to another one by each of the other's keys whose columns
/// it has. Tables are numbered from 1, and each key stands beside its table's number. A key without columns is that of a table with one
/// row at most, to which nothing refers.
///
/// They stand in the order of the tables, and those of one table in the order of the keys. For each table all keys are looked at.
#[tactic(auto, unfolding(crate::specs::References::references))]
pub fn references(
    alloc: Global,
    tables: &[Table],
    keys: &[(u32, ColSet)],
) -> Result<Vec<Reference>, AllocError>
    ensures { IfOk result (λ found. found.items ≡ words.references tables.now keys.now) }
{
    let mut found = Vec::new(alloc);
    let mut rest = tables;
    let mut number = 0;
    while let Some((table, later)) = rest.split_first() {
        number = number_after(number)?;
        let more = references_from(alloc, keys, number, *table)?;
        found.extend_from_slice(&more)?;
        rest = later;
    }
    Ok(found)
}

// The next number. There is no memory for as many tables as would go beyond the numbers.
fn number_after(number: u32) -> Result<u32, AllocError>
    ensures { IfOk result (λ next. next ≡ number + 1) }
{
    if number < u32::MAX {
        Ok(number + 1)
    } else {
        Err(AllocError)
    }
}

// The references of the table with this number.
fn references_from(
    alloc: Global,
    keys: &[(u32, ColSet)],
    number: u32,
    table: Table,
) -> Result<Vec<Reference>, AllocError>
    ensures { IfOk result (λ found. found.items ≡ words.references_from keys.now (number, table)) }
{
    keys.iter()
        .copied()
        .filter(|key| has_key_of_other(number, table, *key))
        .map(|key| Reference {
            from: number,
            columns: key.1,
            to: key.0,
        })
        .collect(alloc)
}

// Whether the table has all columns of a key of another table, which has some.
fn has_key_of_other(number: u32, table: Table, key: (u32, ColSet)) -> bool
    ensures { result ≡ words.has_key_of_other (number, table) key }
{
    key.0 != number && key.1 != ColSet::empty() && key.1.subset_of(table.columns)
}
