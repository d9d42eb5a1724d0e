// The rules that refuse a record.
ghost use Rattle.std.specs.Prelude.{◌≡◌, ◌<◌, ◌≤◌, drop, length};
ghost use Rattle.csv.specs.Records.{fields_of};
ghost use Rattle.csv_load.specs.Refusal as spec;

use csv::ByteRecord;
use rel_base::{Limits, Why};

/// Why a header is refused, if it is.
pub(crate) fn header_refusal(limits: &Limits, names: &ByteRecord) -> Option<Why>
    ensures { result ≡ spec.header_refusal limits.now (fields_of names.now) }
{
    if names.len() > limits.columns as usize {
        return Some(Why::Columns);
    }
    if has_long_cell(limits.cell, names, 0) {
        return Some(Why::Cell);
    }
    None
}

/// Why record `rec`, which is row `rec` - 1, is refused, if it is. The header has `width` columns.
pub(crate) fn row_refusal(
    limits: &Limits,
    width: usize,
    rec: u64,
    cells: &ByteRecord,
) -> Option<Why>
    requires { 0 < rec }
    ensures { result ≡ spec.row_refusal limits.now width rec (fields_of cells.now) }
{
    if cells.len() != width {
        return Some(Why::Fields);
    }
    if has_long_cell(limits.cell, cells, 0) {
        return Some(Why::Cell);
    }
    if rec - 1 > limits.rows as u64 {
        return Some(Why::Rows);
    }
    None
}

/// Whether some field from this place on has more bytes than the limit.
pub fn has_long_cell(limit: u64, fields: &ByteRecord, start: usize) -> bool
    ensures { result ≡ spec.has_long_cell limit (drop start (fields_of fields.now)) }
{
    for place in start..fields.len() {
        let cell = fields.get(place).unwrap();
        if cell.len() as u64 > limit {
            return true;
        }
    }
    false
}
