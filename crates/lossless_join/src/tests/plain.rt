// The natural join by its plain definition: whether one row is in it.
ghost use Rattle.std.specs.Prelude.{◌≡◌, ◌<◌, ◌≤◌, ◌^◌, ◌↔◌, IsTrue, IfOk, length};
ghost use Rattle.std.specs.List.{All, Contains};
ghost use Rattle.col_set.specs.ColSet.{size};
ghost use Rattle.lossless_join.specs.NaturalJoin.{AreWhole, IsMatched};

use crate::Filled;
use crate::natural_join::columns_of;
use crate::parts::part_of;
use rel_base::{ColSet, Row};
use std::alloc::{AllocError, Global};

// Whether it is one of the rows.
fn is_among(rows: &[Row], row: &Row) -> bool
    ensures { IsTrue result ↔ Contains rows.now row.now }
{
    rows.contains(row)
}

// Whether the row's part on each table's columns is a row of that table.
pub fn is_matched(alloc: Global, tables: &[Filled], row: &Row) -> Result<bool, AllocError>
    requires { All (λ table. table.columns < 2 ^ length row.now) tables.now }
    ensures { IfOk result (λ matched. IsTrue matched ↔ IsMatched tables.now row.now) }
{
    for table in tables {
        let part = part_of(alloc, row, table.columns())?;
        if !is_among(table.rows(), &part) {
            return Ok(false);
        }
    }
    Ok(true)
}

// Whether the row has these columns.
pub fn is_wide(row: &Row, columns: ColSet) -> bool
    ensures { IsTrue result → columns < 2 ^ length row.now }
{
    if row.len() > 128 {
        return false;
    }
    columns.subset_of(ColSet::all(row.len() as u8))
}

// Whether each row has these columns.
pub fn are_wide(rows: &[Row], columns: ColSet) -> bool
    ensures { IsTrue result → All (λ row. columns < 2 ^ length row) rows.now }
{
    for row in rows {
        if !is_wide(row, columns) {
            return false;
        }
    }
    true
}

// Whether the row has the columns of each table.
pub fn is_wide_for(row: &Row, tables: &[Filled]) -> bool
    ensures { IsTrue result → All (λ table. table.columns < 2 ^ length row.now) tables.now }
{
    for table in tables {
        if !is_wide(row, table.columns()) {
            return false;
        }
    }
    true
}

// Whether each row has as many cells as there are columns.
pub fn are_parts(rows: &[Row], columns: ColSet) -> bool
    ensures { IsTrue result → All (λ row. length row ≡ size columns) rows.now }
{
    for row in rows {
        if row.len() != columns.len() as usize {
            return false;
        }
    }
    true
}

// Whether the tables have the first so many columns together.
pub fn are_whole(tables: &[Filled]) -> bool
    ensures { IsTrue result → AreWhole tables.now }
{
    let columns = columns_of(tables);
    columns.len() > 0 && columns == ColSet::all(columns.len() as u8)
}
