// Reads one record of a change text.
ghost use Rattle.std.specs.Prelude.{◌≡◌, ◌<◌, drop, length, IfOk};
ghost use Rattle.csv.specs.Records.{fields_of};
ghost use Rattle.batch_update.specs.Entry as spec;

use crate::cells::cells_from;
use crate::entry::Entry;
use crate::kind::{Kind, kind_of};
use crate::row_number::row_number;
use csv::ByteRecord;
use csv_load::has_long_cell;
use rel_base::{Limits, Op, Why};
use std::alloc::{AllocError, Global};

/// What these fields say, for a relation of so many columns.
pub(crate) fn read_entry(
    alloc: Global,
    fields: &ByteRecord,
    columns: u8,
    limits: &Limits,
) -> Result<Entry, AllocError>
    ensures { IfOk result (λ entry. entry ≡ spec.entry_of columns limits.now (fields_of fields.now)) }
{
    let Some(first) = fields.get(0) else {
        return Ok(Entry::Malformed(Why::Kind));
    };
    by_kind(alloc, kind_of(first), fields, columns, limits)
}

// What the fields after the first say in a record of this kind.
fn by_kind(
    alloc: Global,
    kind: Option<Kind>,
    fields: &ByteRecord,
    columns: u8,
    limits: &Limits,
) -> Result<Entry, AllocError>
    requires { 0 < length (fields_of fields.now) }
    ensures { IfOk result (λ entry. entry ≡ spec.entry_by columns limits.now kind (drop 1 (fields_of fields.now))) }
{
    match kind {
        Some(Kind::Insert) => insertion(alloc, fields, columns, limits),
        Some(Kind::Delete) => Ok(deletion(fields)),
        Some(Kind::End) => Ok(alone(fields, Entry::End)),
        Some(Kind::Report) => Ok(alone(fields, Entry::Report)),
        Some(Kind::Update) => update(alloc, fields, columns, limits),
        None => Ok(Entry::Malformed(Why::Kind)),
    }
}

// `+` and the cells of a new row.
fn insertion(
    alloc: Global,
    fields: &ByteRecord,
    columns: u8,
    limits: &Limits,
) -> Result<Entry, AllocError>
    requires { 0 < length (fields_of fields.now) }
    ensures { IfOk result (λ entry. entry ≡ spec.insertion columns limits.now (drop 1 (fields_of fields.now))) }
{
    if fields.len() != columns as usize + 1 {
        return Ok(Entry::Malformed(Why::Fields));
    }
    if has_long_cell(limits.cell, fields, 1) {
        return Ok(Entry::Malformed(Why::Cell));
    }
    let cells = cells_from(alloc, fields, 1)?;
    Ok(Entry::Operation(Op::Insert(cells)))
}

// `-` and the number of a row.
fn deletion(fields: &ByteRecord) -> Entry
    requires { 0 < length (fields_of fields.now) }
    ensures { result ≡ spec.deletion (drop 1 (fields_of fields.now)) }
{
    if fields.len() != 2 {
        return Entry::Malformed(Why::Fields);
    }
    match row_number(fields.get(1).unwrap()) {
        Some(number) => Entry::Operation(Op::Delete(number)),
        None => Entry::Malformed(Why::Number),
    }
}

// `=`, the number of a row, and the cells of the new row.
fn update(
    alloc: Global,
    fields: &ByteRecord,
    columns: u8,
    limits: &Limits,
) -> Result<Entry, AllocError>
    requires { 0 < length (fields_of fields.now) }
    ensures { IfOk result (λ entry. entry ≡ spec.update columns limits.now (drop 1 (fields_of fields.now))) }
{
    if fields.len() != columns as usize + 2 {
        return Ok(Entry::Malformed(Why::Fields));
    }
    let Some(number) = row_number(fields.get(1).unwrap()) else {
        return Ok(Entry::Malformed(Why::Number));
    };
    if has_long_cell(limits.cell, fields, 2) {
        return Ok(Entry::Malformed(Why::Cell));
    }
    let cells = cells_from(alloc, fields, 2)?;
    Ok(Entry::Operation(Op::Update(number, cells)))
}

// What stands alone in its record.
fn alone(fields: &ByteRecord, entry: Entry) -> Entry
    requires { 0 < length (fields_of fields.now) }
    ensures { result ≡ spec.alone (drop 1 (fields_of fields.now)) entry }
{
    if fields.len() == 1 {
        entry
    } else {
        Entry::Malformed(Why::Fields)
    }
}
