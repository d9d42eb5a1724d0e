// Cells get numbers, the same in all columns of all relations.
ghost use Rattle.std.specs.Prelude.{◌≡◌, ◌<◌, Some, length, map, slice_get, IfOk, OnOk};
ghost use Rattle.rel_base.specs.Cells.{cell};
ghost use Rattle.rel_base.specs.RowState.{IsRowState, row, width};
ghost use Rattle.rel_base.specs.declared.nulls.Nulls.TheVariants.{Equal};
ghost use Rattle.nary_ind.specs.Tables.{AreTables};
ghost use Rattle.nary_ind.specs.Numbering.{AreNumbersIfUsed, AreNumbersOf, IsMore, IsTableOf, StartsWithNull};

use crate::table::Table;
use crate::unary::Unary;
use column_dict::Dict;
use rel_base::RowNo;
use row_log::RowLog;
use std::alloc::{AllocError, Global};

/// The tables of all relations. Cells are numbered by one dictionary from first sight, NULL before all others, in the columns alone that are in some
/// inclusion; the dictionary is let go at the end.
pub(crate) fn tables_of(alloc: Global, unary: &Unary) -> Result<Vec<Table>, AllocError>
    ensures { IfOk result (λ tables. AreTables unary.now tables.items) }
{
    let mut numbers = null_alone(alloc)?;
    let relations = unary.relations();
    let mut tables = Vec::with_capacity(alloc, relations.len())?;
    for relation in 0..relations.len() {
        tables.push(table_of(alloc, &mut numbers, unary, relation)?)?;
    }
    // `len` is called for its clause that no cell has two numbers.
    let _count = numbers.len();
    Ok(tables)
}

// A dictionary that knows NULL, which has the number 0.
fn null_alone(alloc: Global) -> Result<Dict, AllocError>
    ensures { IfOk result StartsWithNull }
{
    let mut numbers = Dict::new(alloc);
    numbers.code_of(&[])?;
    Ok(numbers)
}

// The table of the relation at a place.
fn table_of(
    alloc: Global,
    numbers: &mut Dict,
    unary: &Unary,
    relation: usize,
) -> Result<Table, AllocError>
    requires relation { relation < length unary.now }
    requires nulls { numbers.old.nulls ≡ Equal }
    ensures more { OnOk result (IsMore numbers.old numbers.new) }
    ensures table { IfOk result (IsTableOf numbers.new.cells unary.now relation) }
{
    let rows = &unary.relations()[relation];
    let live = live_rows(alloc, rows)?;
    let width = rows.names().len() as u8;
    let mut columns = Vec::with_capacity(alloc, width as usize)?;
    for column in 0..width {
        columns.push(numbers_if_used(alloc, numbers, unary, relation, rows, column, &live)?)?;
    }
    Ok(Table {
        rows: live.len(),
        columns,
    })
}

// The numbers of a column's cells in live rows, or none where the column is in no inclusion.
fn numbers_if_used(
    alloc: Global,
    numbers: &mut Dict,
    unary: &Unary,
    relation: usize,
    rows: &RowLog,
    column: u8,
    live: &[RowNo],
) -> Result<Vec<u32>, AllocError>
    requires column { column < width rows.now }
    requires rows { slice_get unary.now relation ≡ Some rows.now }
    requires state { IsRowState rows.now }
    requires live { live.now ≡ rows.now.live }
    requires nulls { numbers.old.nulls ≡ Equal }
    ensures more { OnOk result (IsMore numbers.old numbers.new) }
    ensures numbers { IfOk result (λ found. AreNumbersIfUsed numbers.new.cells unary.now relation column found.items) }
{
    if !unary.is_used(relation, column) {
        return Ok(Vec::new(alloc));
    }
    let found = numbers_of(alloc, numbers, rows, column, live)?;
    Ok(found)
}

// The numbers of a column's cells in these rows.
fn numbers_of(
    alloc: Global,
    numbers: &mut Dict,
    rows: &RowLog,
    column: u8,
    live: &[RowNo],
) -> Result<Vec<u32>, AllocError>
    requires column { column < width rows.now }
    requires state { IsRowState rows.now }
    requires live { live.now ≡ rows.now.live }
    requires nulls { numbers.old.nulls ≡ Equal }
    ensures more { OnOk result (IsMore numbers.old numbers.new) }
    ensures numbers { IfOk result (λ found. AreNumbersOf numbers.new.cells (map (λ number. cell (row rows.now number) column) live.now) found.items) }
{
    let mut found = Vec::with_capacity(alloc, live.len())?;
    for number in live {
        let cell = rows.cell(*number, column);
        found.push(number_of(numbers, cell.bytes())?)?;
    }
    Ok(found)
}

// The number of the cell of these bytes, a new one if it has none yet.
fn number_of(numbers: &mut Dict, bytes: &[u8]) -> Result<u32, AllocError>
    requires { numbers.old.nulls ≡ Equal }
    ensures more { OnOk result (IsMore numbers.old numbers.new) }
    ensures number { IfOk result (λ number. slice_get numbers.new.cells number ≡ Some bytes.now) }
{
    if numbers.len() == u32::MAX {
        return Err(AllocError);
    }
    numbers.code_of(bytes)
}

// The numbers of the live rows, ascending.
fn live_rows(alloc: Global, rows: &RowLog) -> Result<Vec<RowNo>, AllocError>
    ensures { IfOk result (λ live. live.items ≡ rows.now.live) }
{
    let mut live = Vec::with_capacity(alloc, rows.live_len() as usize)?;
    for number in 1..rows.next().number() {
        let row = RowNo::of(number);
        if rows.is_live(row) {
            live.push(row)?;
        }
    }
    Ok(live)
}
