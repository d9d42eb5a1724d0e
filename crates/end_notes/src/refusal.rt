// Why a file was refused, in words.
use rel_base::{Limits, Why};
use std::fmt;
use std::fmt::{Display, Formatter};

/// Why a file was refused, in words for people: `orders.csv, record 12: 5 fields where the header has 6`.
#[derive(Clone, Copy)]
pub struct Refusal<'a> {
    /// The file, or `-` for the input.
    pub file: &'a str,
    /// The record, counted from 1, or 0 for the file as a whole.
    pub rec: u64,
    /// The cause.
    pub why: Why,
    /// How many fields the header has, if that is known.
    pub header: Option<usize>,
    /// How many fields the record has, if that is known.
    pub fields: Option<usize>,
    /// The limits that were asked of the file.
    pub limits: Limits,
}

impl Refusal<'_> {
    // The file and the record.
    fn write_place<W: fmt::Write>(&self, f: &mut Formatter<W>) -> fmt::Result {
        let file = if self.file == "-" {
            "the input"
        } else {
            self.file
        };
        if self.rec == 0 {
            write!(f, "{file}: ")
        } else {
            write!(f, "{file}, record {}: ", self.rec)
        }
    }

    fn write_fields<W: fmt::Write>(&self, f: &mut Formatter<W>) -> fmt::Result {
        match (self.fields, self.header) {
            (Some(fields), Some(header)) => {
                write!(f, "{fields} fields where the header has {header}")
            }
            _ => f.write_str("another number of fields than the header has"),
        }
    }

    fn write_columns<W: fmt::Write>(&self, f: &mut Formatter<W>) -> fmt::Result {
        let limit = self.limits.columns;
        match self.header {
            Some(header) => write!(f, "{header} columns, and {limit} is the most"),
            None => write!(f, "more than {limit} columns"),
        }
    }
}

impl Display for Refusal<'_> {
    fn fmt<W: fmt::Write>(&self, f: &mut Formatter<W>) -> fmt::Result {
        self.write_place(f)?;
        match self.why {
            Why::NoHeader => f.write_str("no record, so there is no header"),
            Why::Columns => self.write_columns(f),
            Why::Fields => self.write_fields(f),
            Why::Cell => write!(f, "a cell of more than {} bytes", self.limits.cell),
            Why::Rows => write!(f, "more than {} rows", self.limits.rows),
            Why::Bytes => write!(f, "more than {} bytes", self.limits.bytes),
            Why::Kind => f.write_str("its first field is none that a change begins with"),
            Why::Number => f.write_str("no row number from 1 to 4294967295"),
            Why::Missing => f.write_str("a row that is not there"),
            Why::Cut => f.write_str("the text ends inside a batch"),
        }
    }
}
