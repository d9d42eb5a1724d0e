// The text of a table's file, written from the cells that codes stand for.
ghost use Rattle.std.specs.Prelude.{◌≡◌, ◌<◌, ◌^◌, ◌++◌, [], length, map, IfOk, OnOk};
ghost use Rattle.std.specs.List.{All};
ghost use Rattle.rel_base.specs.Cells.{cell};
ghost use Rattle.rel_base.specs.Projection.{part};
ghost use Rattle.rel_base.specs.RowState.{next, row, width};
ghost use Rattle.report_text.specs.Line.{line, text_in, AddsField, EndsLine, IsAtLine};
ghost use Rattle.report_text.specs.Tables.{table_file_text};

use crate::sheets::columns_of;
use csv::{Writer, WriterBuilder};
use rel_base::{ColSet, Row, RowNo};
use row_log::RowLog;
use std::alloc::{AllocError, Global};

// The file of a table: the names of its columns, and the parts that these rows have in them. There is room for so many bytes at first.
pub(crate) fn text_of(
    alloc: Global,
    rows: &RowLog,
    numbers: &[RowNo],
    columns: ColSet,
    room: usize,
) -> Result<Vec<u8>, AllocError>
    requires columns { columns < 2 ^ width rows.now }
    requires given { All (λ number. number < next rows.now) numbers.now }
    ensures { IfOk result (λ text. text.items ≡ table_file_text (part columns rows.now.names) (map (λ number. part columns (row rows.now number)) numbers.now)) }
{
    let list = columns_of(alloc, columns)?;
    let mut writer = writer_with(Vec::with_capacity(alloc, room)?);
    write_names(&mut writer, rows.names(), list.as_slice())?;
    for number in numbers {
        write_cells(&mut writer, rows, *number, list.as_slice())?;
    }
    written(writer)
}

// A writer into an empty text.
fn writer_with(text: Vec<u8>) -> Writer<Vec<u8>>
    requires { text.items ≡ [] }
    ensures at_line { IsAtLine result }
    ensures text { text_in result ≡ [] }
{
    WriterBuilder::new().flexible(true).from_writer(text)
}

// What was written.
fn written(writer: Writer<Vec<u8>>) -> Result<Vec<u8>, AllocError>
    ensures { IfOk result (λ text. text.items ≡ text_in writer) }
{
    writer.into_inner().map_err(|_| AllocError)
}

// A line of the cells that a row of names has in these columns.
fn write_names(writer: &mut Writer<Vec<u8>>, names: &Row, columns: &[u8]) -> Result<(), AllocError>
    requires at_line { IsAtLine writer.old }
    requires columns { All (λ column. column < length names.now) columns.now }
    ensures at_line { OnOk result (IsAtLine writer.new) }
    ensures text { OnOk result (text_in writer.new ≡ text_in writer.old ++ line (map (cell names.now) columns.now)) }
{
    for column in columns {
        write_cell(writer, names.cell(*column as usize))?;
    }
    end_line(writer)
}

// A line of the cells that a row has in these columns.
fn write_cells(
    writer: &mut Writer<Vec<u8>>,
    rows: &RowLog,
    number: RowNo,
    columns: &[u8],
) -> Result<(), AllocError>
    requires at_line { IsAtLine writer.old }
    requires given { number < next rows.now }
    requires columns { All (λ column. column < width rows.now) columns.now }
    ensures at_line { OnOk result (IsAtLine writer.new) }
    ensures text { OnOk result (text_in writer.new ≡ text_in writer.old ++ line (map (cell (row rows.now number)) columns.now)) }
{
    for column in columns {
        write_cell(writer, rows.cell(number, *column).bytes())?;
    }
    end_line(writer)
}

// A writer into a vector fails only where the vector is refused memory.
fn write_cell(writer: &mut Writer<Vec<u8>>, bytes: &[u8]) -> Result<(), AllocError>
    ensures { OnOk result (AddsField writer.old writer.new bytes.now) }
{
    writer.write_field(bytes).map_err(|_| AllocError)
}

fn end_line(writer: &mut Writer<Vec<u8>>) -> Result<(), AllocError>
    ensures { OnOk result (EndsLine writer.old writer.new) }
{
    writer.end_record().map_err(|_| AllocError)
}
