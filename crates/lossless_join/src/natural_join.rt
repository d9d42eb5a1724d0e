// The natural join, table after table.
ghost use Rattle.std.specs.Prelude.{◌≡◌, ◌<◌, ◌≤◌, ◌^◌, [], length, replicate, IfOk, OnOk};
ghost use Rattle.std.specs.List.{All};
ghost use Rattle.indexmap.specs.IndexSet.{insert_all};
ghost use Rattle.rel_base.specs.Projection.{same_row};
ghost use Rattle.lossless_join.specs.NaturalJoin as words;
ghost use Rattle.lossless_join.specs.NaturalJoin.{AreWhole, IsNaturalJoin, width_of};
ghost use Rattle.lossless_join.specs.Indexed.{IsIndex};
ghost use Rattle.lossless_join.specs.Joining as joining;

use crate::Filled;
use crate::index::{Index, index_of};
use crate::parts::{DistinctRows, listed, merged, no_rows, part_of};
use csv::ByteRecord;
use rel_base::{ColSet, MOST_COLUMNS, Row};
use std::alloc::{AllocError, Global};

// Adds the row with each of the table's rows that agrees with it on the common columns.
fn push_matches(
    alloc: Global,
    width: u8,
    row: &Row,
    table: &Filled,
    common: ColSet,
    index: &Index,
    whole: &mut DistinctRows,
) -> Result<(), AllocError>
    requires narrow { width ≤ MOST_COLUMNS }
    requires row { length row.now ≡ width }
    requires common { common < 2 ^ width }
    requires index { IsIndex table.now common (length table.now.rows) index.now.keys.keys index.now.groups.items }
    ensures { OnOk result (whole.new.keys ≡ insert_all same_row whole.old.keys (joining.matches width common table.now row.now)) }
{
    let part = part_of(alloc, row, common)?;
    let Some(group) = index.keys.get_index_of(&part) else {
        return Ok(());
    };
    for place in index.groups[group].as_slice() {
        let other = table.row(*place);
        whole.insert(merged(alloc, width, row, table.columns(), other)?)?;
    }
    Ok(())
}

// The rows with each of the table's rows that agrees with them on the columns that are joined already.
fn joined_with(
    alloc: Global,
    width: u8,
    done: ColSet,
    table: &Filled,
    rows: &[Row],
) -> Result<Vec<Row>, AllocError>
    requires narrow { width ≤ MOST_COLUMNS }
    requires done { done < 2 ^ width }
    requires wide { All (λ row. length row ≡ width) rows.now }
    ensures { IfOk result (λ whole. whole.items ≡ joining.joined_with width done table.now rows.now) }
{
    let common = done.inter(table.columns());
    let index = index_of(alloc, table, common)?;
    let mut whole = no_rows(alloc);
    for row in rows {
        push_matches(alloc, width, row, table, common, &index, &mut whole)?;
    }
    listed(alloc, whole)
}

// The columns of all tables.
pub(crate) fn columns_of(tables: &[Filled]) -> ColSet
    ensures { result ≡ words.columns_of tables.now }
{
    let mut columns = ColSet::empty();
    for table in tables {
        columns = columns.union(table.columns());
    }
    columns
}

// A row of so many NULLs.
fn blank(alloc: Global, width: u8) -> Result<Row, AllocError>
    ensures { IfOk result (λ row. row ≡ replicate width []) }
{
    let mut record = ByteRecord::with_capacity(alloc, 0, width as usize)?;
    for _column in 0..width {
        record.push_field(&[])?;
    }
    Ok(Row::of(record))
}

/// The natural join of the tables: each row over all their columns whose part on each table's columns is a row of that table.
///
/// Table after table, the rows found so far are combined with those of the table that agree with them on the common columns,
/// which are looked up by a hash. The time grows with the rows of the tables and those of each step. A row that a table has twice
/// counts once.
pub fn join(alloc: Global, tables: &[Filled]) -> Result<Vec<Row>, AllocError>
    requires { AreWhole tables.now }
    ensures { IfOk result (λ rows. IsNaturalJoin (width_of tables.now) tables.now rows.items) }
{
    let width = columns_of(tables).len() as u8;
    let mut rows = vec![in alloc; blank(alloc, width)?]?;
    let mut done = ColSet::empty();
    for table in tables {
        rows = joined_with(alloc, width, done, table, rows.as_slice())?;
        done = done.union(table.columns());
    }
    Ok(rows)
}
