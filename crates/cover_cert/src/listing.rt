// Reads a certificate.
ghost use Rattle.std.specs.Prelude.{◌≡◌, ◌<◌, ◌≤◌, ◌+◌, ◌^◌, ◌++◌, ◌&&◌, length, IfOk, OnOk, Some, true, []};
ghost use Rattle.std.specs.List.{list_all};
ghost use Rattle.csv_load.specs.Records.{records_of};
ghost use Rattle.cover_cert.specs.Form.{Reads, ListsFew, said, shape_in, pair_in, claim_in, same_shape};

use crate::line::{Claim, Line, RowPair, Shape, line_of};
use crate::part::Part;
use csv::ByteRecord;
use csv_load::RecordReader;
use rel_base::Target;
use std::alloc::{AllocError, Global};

/// What a text in form lists, and whether it has the size that it should have.
#[derive(Drop)]
pub(crate) struct Listing {
    pub(crate) pairs: Vec<RowPair>,
    pub(crate) claims: Vec<Claim>,
    pub(crate) is_shaped: bool,
}

/// What reading a text comes to.
#[derive(Drop)]
pub(crate) enum Reading {
    Listed(Listing),
    /// This record is out of form.
    OutOfForm(u64),
}

impl Listing {
    fn new(alloc: Global) -> Listing
        ensures { (result.is_shaped ≡ true) × (result.pairs.items ≡ []) × (result.claims.items ≡ []) }
    {
        Listing {
            pairs: Vec::new(alloc),
            claims: Vec::new(alloc),
            is_shaped: true,
        }
    }

    // Adds what a line lists.
    fn push(&mut self, line: Line, wanted: Shape) -> Result<(), AllocError>
        ensures shaped { OnOk result (self.new.is_shaped ≡ (self.old.is_shaped && list_all (same_shape wanted) (shape_in (Some line)))) }
        ensures pairs { OnOk result (self.new.pairs.items ≡ self.old.pairs.items ++ pair_in (Some line)) }
        ensures claims { OnOk result (self.new.claims.items ≡ self.old.claims.items ++ claim_in (Some line)) }
    {
        match line {
            Line::Cert(shape) => {
                self.is_shaped = self.is_shaped
                    && shape.columns == wanted.columns
                    && shape.rows == wanted.rows;
            }
            Line::Pair(pair) => self.pairs.push(pair)?,
            Line::Key(left) => self.claims.push(Claim {
                left,
                target: Target::RowId,
            })?,
            Line::Fd(fd) => self.claims.push(Claim {
                left: fd.left,
                target: Target::Col(fd.right),
            })?,
            Line::End => {}
        }
        Ok(())
    }
}

/// Reads a text record by record, up to the first that is out of form. Of a record it keeps 8 bytes for a pair, and 32 for a key or a
/// dependency.
pub(crate) fn read(alloc: Global, text: &[u8], wanted: Shape) -> Result<Reading, AllocError>
    ensures reads { IfOk result (Reads wanted (said text.now)) }
    ensures few { IfOk result ListsFew }
{
    let mut reader = RecordReader::new(alloc, text);
    let mut fields = ByteRecord::new(alloc);
    let mut listing = Listing::new(alloc);
    let mut part = Part::Start;
    let mut record = 1u64;
    while reader.next(&mut fields)? {
        let Some(line) = line_of(&fields) else {
            return Ok(Reading::OutOfForm(record));
        };
        let Some(next) = part.after(&line) else {
            return Ok(Reading::OutOfForm(record));
        };
        listing.push(line, wanted)?;
        part = next;
        record += 1;
    }
    if part.is_end() {
        return Ok(Reading::Listed(listing));
    }
    Ok(Reading::OutOfForm(record))
}
