// The cells of a record from some field on.
ghost use Rattle.std.specs.Prelude.{◌≡◌, ◌≤◌, drop, length, IfOk};
ghost use Rattle.csv.specs.Records.{fields_of};

use csv::ByteRecord;
use rel_base::Row;
use std::alloc::{AllocError, Global};

/// Copies of the fields from this place on.
pub(crate) fn cells_from(
    alloc: Global,
    fields: &ByteRecord,
    start: usize,
) -> Result<Row, AllocError>
    ensures { IfOk result (λ row. row ≡ drop start (fields_of fields.now)) }
{
    let size = fields.as_slice().len();
    let mut cells = ByteRecord::with_capacity(alloc, size, fields.len())?;
    for place in start..fields.len() {
        cells.push_field(fields.get(place).unwrap())?;
    }
    Ok(Row::of(cells))
}
