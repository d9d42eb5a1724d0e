// Parts of rows, and rows put together from parts.
ghost use Rattle.std.specs.Prelude.{◌≡◌, ◌<◌, ◌≤◌, ◌^◌, ◌++◌, ◌∷◌, [], true, length, IfOk, OnOk, ℕ};
ghost use Rattle.std.specs.List.{All};
ghost use Rattle.col_set.specs.ColSet.{IsSubset, has, size};
ghost use Rattle.rel_base.specs.Projection as projections;
ghost use Rattle.lossless_join.specs.Parts.{part_cell};
ghost use Rattle.lossless_join.specs.Joining as words;
ghost use Rattle.csv.specs.Records.{fields_of, partial_of};

use csv::ByteRecord;
use indexmap::IndexSet;
use rel_base::{ColSet, MOST_COLUMNS, Row};
use std::alloc::{AllocError, Global};
use std::hash::{BuildHasherDefault, DefaultHasher};

/// Rows, each once, by order of first sight. The hash is SipHash with a fixed key: rows that collide are not known without a search.
pub(crate) type DistinctRows = IndexSet<Row, BuildHasherDefault<DefaultHasher>>;

// No rows.
pub(crate) fn no_rows(alloc: Global) -> DistinctRows
    ensures { result.keys ≡ [] }
{
    DistinctRows::with_hasher(alloc, BuildHasherDefault::new())
}

// The rows as a list.
pub(crate) fn listed(alloc: Global, rows: DistinctRows) -> Result<Vec<Row>, AllocError>
    ensures { IfOk result (λ list. list.items ≡ rows.keys) }
{
    rows.into_iter().collect(alloc)
}

// The part of a row on these columns.
pub(crate) fn part_of(alloc: Global, row: &Row, columns: ColSet) -> Result<Row, AllocError>
    requires { columns < 2 ^ length row.now }
    ensures { IfOk result (λ part. part ≡ projections.part columns row.now) }
{
    let mut record = ByteRecord::with_capacity(alloc, 0, columns.len() as usize)?;
    let mut left = columns;
    while let Some(column) = left.first() {
        record.push_field(row.cell(column as usize))?;
        left = left.without(column);
    }
    Ok(Row::of(record))
}

/// The distinct parts of these rows on some columns, first seen first.
///
/// One pass over the rows, with a hash of each part. It takes memory for the distinct parts alone, two allocations each.
pub fn project(alloc: Global, rows: &[Row], columns: ColSet) -> Result<Vec<Row>, AllocError>
    requires { All (λ row. columns < 2 ^ length row) rows.now }
    ensures { IfOk result (λ parts. parts.items ≡ projections.projected columns rows.now) }
{
    let mut parts = no_rows(alloc);
    for row in rows {
        parts.insert(part_of(alloc, row, columns)?)?;
    }
    listed(alloc, parts)
}

// The cell of a part on these columns in one of them.
pub(crate) fn cell_in(columns: ColSet, part: &Row, column: u8) -> &[u8]
    requires wide { length part.now ≡ size columns }
    requires column { has columns column ≡ true }
    requires bound { column < MOST_COLUMNS }
    ensures { result.now ≡ part_cell columns part.now column }
{
    part.cell(columns.inter(ColSet::all(column)).len() as usize)
}

// The part on some of these columns of a part on all of them.
pub(crate) fn part_within(
    alloc: Global,
    columns: ColSet,
    part: &Row,
    some: ColSet,
) -> Result<Row, AllocError>
    requires wide { length part.now ≡ size columns }
    requires inside { IsSubset some columns }
    ensures { IfOk result (λ row. row ≡ words.part_within columns some part.now) }
{
    let mut record = ByteRecord::with_capacity(alloc, 0, some.len() as usize)?;
    let mut left = some;
    while let Some(column) = left.first() {
        record.push_field(cell_in(columns, part, column))?;
        left = left.without(column);
    }
    Ok(Row::of(record))
}

// The row with the cells of a part in its columns.
pub(crate) fn merged(
    alloc: Global,
    width: u8,
    row: &Row,
    columns: ColSet,
    part: &Row,
) -> Result<Row, AllocError>
    requires narrow { width ≤ MOST_COLUMNS }
    requires row { length row.now ≡ width }
    requires wide { length part.now ≡ size columns }
    ensures { IfOk result (λ whole. whole ≡ words.merged width columns row.now part.now) }
{
    let mut record = ByteRecord::with_capacity(alloc, 0, width as usize)?;
    for column in 0..width {
        if columns.has(column) {
            record.push_field(cell_in(columns, part, column))?;
        } else {
            record.push_field(row.cell(column as usize))?;
        }
    }
    Ok(Row::of(record))
}
