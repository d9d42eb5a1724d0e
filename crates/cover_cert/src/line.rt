// What one record of a certificate says.
ghost use Rattle.std.specs.Prelude.{◌≡◌, ◌<◌, IfSome};
ghost use Rattle.csv.specs.Records.{fields_of};
ghost use Rattle.rel_base.specs.Cells as cells;
ghost use Rattle.cover_cert.specs.Lines as spec;

use crate::fields::{column_of, columns_of, number};
use csv::ByteRecord;
use rel_base::{ColSet, Fd, Target};

/// How many columns and rows a certificate says that the relation has.
#[derive(Clone, Copy)]
pub(crate) struct Shape {
    pub(crate) columns: u32,
    pub(crate) rows: u32,
}

/// Two rows, by the numbers that the text has.
#[derive(Clone, Copy)]
pub(crate) struct RowPair {
    pub(crate) first: u32,
    pub(crate) second: u32,
}

/// That columns determine a column, or are a key: then the target is which row it is.
#[derive(Clone, Copy)]
pub(crate) struct Claim {
    pub(crate) left: ColSet,
    pub(crate) target: Target,
}

/// What a record says.
#[derive(Clone, Copy)]
pub(crate) enum Line {
    Cert(Shape),
    Pair(RowPair),
    Key(ColSet),
    Fd(Fd),
    End,
}

/// What a record's first field says that it is.
#[derive(Clone, Copy)]
pub(crate) enum Kind {
    Cert,
    Pair,
    Key,
    Fd,
    End,
}

impl Kind {
    // How many fields a record of this kind has.
    fn fields(self) -> usize
        ensures { result ≡ spec.fields_in self }
    {
        match self {
            Kind::Cert | Kind::Pair | Kind::Fd => 3,
            Kind::Key => 2,
            Kind::End => 1,
        }
    }
}

// The kind of a record with this first field, if it has one.
#[tactic(auto, unfolding(crate::specs::Lines::kind_of))]
fn kind_of(word: &[u8]) -> Option<Kind>
    ensures { result ≡ spec.kind_of word.now }
{
    if word == b"cert".as_slice() {
        Some(Kind::Cert)
    } else if word == b"pair".as_slice() {
        Some(Kind::Pair)
    } else if word == b"key".as_slice() {
        Some(Kind::Key)
    } else if word == b"fd".as_slice() {
        Some(Kind::Fd)
    } else if word == b"end".as_slice() {
        Some(Kind::End)
    } else {
        None
    }
}

// The bytes of a field, or none where there is no such field.
fn cell(fields: &ByteRecord, place: usize) -> &[u8]
    ensures { result.now ≡ cells.cell (fields_of fields.now) place }
{
    match fields.get(place) {
        Some(bytes) => bytes,
        None => &[],
    }
}

/// What this record says, if it is one that a certificate may have.
#[tactic(auto, unfolding(crate::specs::Lines::line_of))]
pub(crate) fn line_of(fields: &ByteRecord) -> Option<Line>
    ensures { result ≡ spec.line_of (fields_of fields.now) }
{
    let kind = kind_of(cell(fields, 0))?;
    if fields.len() != kind.fields() {
        return None;
    }
    line_by(kind, cell(fields, 1), cell(fields, 2))
}

// What the second and the third field say in a record of this kind.
fn line_by(kind: Kind, second: &[u8], third: &[u8]) -> Option<Line>
    ensures { result ≡ spec.line_by kind second.now third.now }
{
    match kind {
        Kind::Cert => {
            let columns = number(second)?;
            let rows = number(third)?;
            Some(Line::Cert(Shape { columns, rows }))
        }
        Kind::Pair => {
            let first = number(second)?;
            let second = number(third)?;
            Some(Line::Pair(RowPair { first, second }))
        }
        Kind::Key => {
            let columns = columns_of(second)?;
            Some(Line::Key(columns))
        }
        Kind::Fd => {
            let left = columns_of(second)?;
            let right = column_of(third)?;
            Some(Line::Fd(Fd { left, right }))
        }
        Kind::End => Some(Line::End),
    }
}
