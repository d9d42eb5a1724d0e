// Lines under construction.
ghost use Rattle.std.specs.Prelude.{◌≡◌, ◌++◌, [], map, IfOk, OnOk, OnErr};
ghost use Rattle.report_text.specs.Field.{field_bytes};
ghost use Rattle.report_text.specs.Line.{line, text_in, AddsField, EndsLine, IsAtLine};

use crate::field::{Field, write_columns, write_marks};
use csv::{Writer, WriterBuilder};
use itoa::Buffer;
use rel_base::Row;
use std::alloc::{AllocError, Global};
use std::marker::Model;
use std::mem;

/// Lines of a text, added one after another. Contracts see the text so far.
///
/// Adding lines copies none of the text so far. Where memory is refused the text is lost: there are
/// no lines then, and more can be added.
#[derive(Drop)]
pub struct Lines {
    writer: Writer<Vec<u8>>,
    // The text of the last column set or list, whose memory is used again.
    columns: Vec<u8>,
    alloc: Global,
}

impl Model for Lines {
    ghost use Rattle.std.specs.Prelude.{List, ℕ};
    ghost use Rattle.report_text.specs.Line.{text_in, IsAtLine};

    ghost Value = { List ℕ };

    ghost view = { λ l. text_in l.writer };

    ghost invariant = { λ l. IsAtLine l.writer };
}

impl Lines {
    /// No lines yet, which takes no memory.
    pub fn new(alloc: Global) -> Lines
        ensures { result ≡ [] }
    {
        Lines {
            writer: new_writer(Vec::new(alloc)),
            columns: Vec::new(alloc),
            alloc,
        }
    }

    /// The text. Where memory is refused it is lost.
    pub fn into_text(self) -> Result<Vec<u8>, AllocError>
        ensures { IfOk result (λ text. text.items ≡ self) }
    {
        match self.writer.into_inner() {
            Ok(text) => Ok(text),
            Err(_) => Err(AllocError),
        }
    }

    // What new memory is asked of.
    pub(crate) fn allocator(&self) -> Global {
        self.alloc
    }

    // Takes the text out, and leaves no lines: these stand while lines are added to the text, and where memory is refused.
    pub(crate) fn take_text(&mut self) -> Result<Vec<u8>, AllocError>
        ensures text { IfOk result (λ text. text.items ≡ self.old) }
        ensures left { self.new ≡ [] }
    {
        let writer = mem::replace(&mut self.writer, new_writer(Vec::new(self.alloc)));
        writer.into_inner().map_err(|_| AllocError)
    }

    // Puts a text in the place of the lines.
    pub(crate) fn put_text(&mut self, text: Vec<u8>)
        ensures { self.new ≡ text.items }
    {
        self.writer = new_writer(text);
    }

    // Forgets all lines.
    pub(crate) fn clear(&mut self)
        ensures { self.new ≡ [] }
    {
        *self = Lines::new(self.alloc);
    }

    // Adds a line of these fields.
    pub(crate) fn push(&mut self, fields: &[Field<'_>]) -> Result<(), AllocError>
        ensures ok { OnOk result (self.new ≡ self.old ++ line (map field_bytes fields.now)) }
        ensures err { OnErr result (self.new ≡ []) }
    {
        if write_line(&mut self.writer, &mut self.columns, fields).is_err() {
            restart(self.alloc, &mut self.writer);
            return Err(AllocError);
        }
        Ok(())
    }

    // Adds a line of the cells of a row.
    pub(crate) fn push_row(&mut self, row: &Row) -> Result<(), AllocError>
        ensures ok { OnOk result (self.new ≡ self.old ++ line row.now) }
        ensures err { OnErr result (self.new ≡ []) }
    {
        if write_row(&mut self.writer, row).is_err() {
            restart(self.alloc, &mut self.writer);
            return Err(AllocError);
        }
        Ok(())
    }
}

// A writer that goes on with this text, at the start of a line.
fn new_writer(text: Vec<u8>) -> Writer<Vec<u8>>
    ensures at_line { IsAtLine result }
    ensures text { text_in result ≡ text.items }
{
    WriterBuilder::new().flexible(true).from_writer(text)
}

// Begins anew. It stays a call of its own: a function that has room for a second writer clears that room at each of its calls.
#[cold]
#[inline(never)]
fn restart(alloc: Global, writer: &mut Writer<Vec<u8>>)
    ensures at_line { IsAtLine writer.new }
    ensures text { text_in writer.new ≡ [] }
{
    *writer = new_writer(Vec::new(alloc));
}

fn write_line(
    writer: &mut Writer<Vec<u8>>,
    columns: &mut Vec<u8>,
    fields: &[Field<'_>],
) -> Result<(), AllocError>
    requires { IsAtLine writer.old }
    ensures at_line { OnOk result (IsAtLine writer.new) }
    ensures text { OnOk result
        (text_in writer.new ≡ text_in writer.old ++ line (map field_bytes fields.now)) }
{
    for field in fields {
        write_field(writer, columns, field)?;
    }
    end_line(writer)
}

fn write_row(writer: &mut Writer<Vec<u8>>, row: &Row) -> Result<(), AllocError>
    requires { IsAtLine writer.old }
    ensures at_line { OnOk result (IsAtLine writer.new) }
    ensures text { OnOk result (text_in writer.new ≡ text_in writer.old ++ line row.now) }
{
    for place in 0..row.len() {
        write_bytes(writer, row.cell(place))?;
    }
    end_line(writer)
}

fn write_field(
    writer: &mut Writer<Vec<u8>>,
    columns: &mut Vec<u8>,
    field: &Field<'_>,
) -> Result<(), AllocError>
    ensures { OnOk result (AddsField writer.old writer.new (field_bytes field.now)) }
{
    match field {
        Field::Bytes(bytes) => write_bytes(writer, bytes),
        Field::Number(number) => write_bytes(writer, Buffer::new().format(*number).as_bytes()),
        Field::Columns(set) => {
            write_columns(columns, *set)?;
            write_bytes(writer, columns.as_slice())
        }
        Field::Marks(relation, list) => {
            write_marks(columns, *relation, list)?;
            write_bytes(writer, columns.as_slice())
        }
    }
}

// A writer into a vector fails only where the vector is refused memory.
fn write_bytes(writer: &mut Writer<Vec<u8>>, bytes: &[u8]) -> Result<(), AllocError>
    ensures { OnOk result (AddsField writer.old writer.new bytes.now) }
{
    writer.write_field(bytes).map_err(|_| AllocError)
}

fn end_line(writer: &mut Writer<Vec<u8>>) -> Result<(), AllocError>
    ensures { OnOk result (EndsLine writer.old writer.new) }
{
    writer.end_record().map_err(|_| AllocError)
}
