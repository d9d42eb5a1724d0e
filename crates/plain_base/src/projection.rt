// The distinct parts of rows.
ghost use Rattle.std.specs.Prelude.{◌≡◌, ◌≤◌, ◌<◌, ◌^◌, length, IfOk};
ghost use Rattle.std.specs.List.{All, list_any};
ghost use Rattle.rel_base.specs.Projection as projection;

use rel_base::{ColSet, MOST_COLUMNS, Row};
use std::alloc::{AllocError, Global};

/// The distinct parts of these rows in some columns, first seen first.
///
/// Each part is compared with all that are kept, so the time grows with the square of the rows.
pub fn projected(alloc: Global, columns: ColSet, rows: &[Row]) -> Result<Vec<Row>, AllocError>
    requires narrow { All (λ row. length row ≤ MOST_COLUMNS) rows.now }
    requires inside { All (λ row. columns < 2 ^ length row) rows.now }
    ensures { IfOk result (λ parts. parts.items ≡ projection.projected columns rows.now) }
{
    let mut parts = Vec::new(alloc);
    for row in rows {
        let part = part(alloc, columns, row)?;
        if !has_row(&parts, &part) {
            parts.push(part)?;
        }
    }
    Ok(parts)
}

/// The cells of a row in these columns, ascending.
pub fn part(alloc: Global, columns: ColSet, row: &Row) -> Result<Row, AllocError>
    requires narrow { length row.now ≤ MOST_COLUMNS }
    requires inside { columns < 2 ^ length row.now }
    ensures { IfOk result (λ part. part ≡ projection.part columns row.now) }
{
    let mut cells = Vec::new(alloc);
    for column in 0..row.len() {
        if columns.has(column as u8) {
            cells.push(row.cell(column))?;
        }
    }
    Row::copied(alloc, &cells)
}

fn has_row(rows: &[Row], row: &Row) -> bool
    ensures { result ≡ list_any (λ other. projection.same_row other row.now) rows.now }
{
    rows.iter().any(|other| other == row)
}
