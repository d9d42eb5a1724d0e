// A file's records, and its relation.
ghost use Rattle.std.specs.Prelude.{◌≡◌, IfOk};
ghost use Rattle.csv_load.specs.Records.{records_of};
ghost use Rattle.csv_load.specs.Loaded.{ReadsAs};

use crate::record_reader::RecordReader;
use crate::refusal::{header_refusal, row_refusal};
use crate::wide_records::{giant_record, has_wide_header};
use csv::ByteRecord;
use rel_base::{Limits, Relation, Row, Why};
use std::alloc::{AllocError, Global};

/// The records of a file, in order: all leading byte order marks are taken off, and the rest is read as comma-separated values.
///
/// Each takes two allocations. `RecordReader` reads them one at a time and takes none.
pub fn records(alloc: Global, bytes: &[u8]) -> Result<Vec<Row>, AllocError>
    ensures { IfOk result (λ all. all.items ≡ records_of bytes.now) }
{
    let mut reader = RecordReader::new(alloc, bytes);
    let mut record = ByteRecord::new(alloc);
    let mut all = Vec::new(alloc);
    while reader.next(&mut record)? {
        all.push(Row::of(record.clone()?))?;
    }
    Ok(all)
}

/// What reading a relation comes to.
#[derive(Drop)]
pub enum Loaded {
    /// The relation.
    Read(Relation),
    /// The file is refused at this record, counted from 1, for this cause. Record 0 is the file as a whole.
    Refused { rec: u64, why: Why },
    /// Memory ran out.
    NoMemory,
}

/// The relation of a file: record 1 is its header, and each later record a row.
///
/// It is read once, up to the first record that a rule refuses. The limit of bytes is for the caller to watch.
pub fn read_relation(alloc: Global, bytes: &[u8], limits: &Limits) -> Loaded
    ensures { ReadsAs limits.now (records_of bytes.now) result }
{
    match try_read(alloc, bytes, limits) {
        Ok(reading) => reading,
        Err(AllocError) => Loaded::NoMemory,
    }
}

// What `read_relation` answers, with want of memory as an error.
fn try_read(alloc: Global, bytes: &[u8], limits: &Limits) -> Result<Loaded, AllocError>
    ensures { IfOk result (ReadsAs limits.now (records_of bytes.now)) }
{
    // A header that is too wide is refused before its fields take memory.
    if has_wide_header(bytes, limits.columns as usize) {
        return Ok(Loaded::Refused {
            rec: 1,
            why: Why::Columns,
        });
    }
    let mut reader = RecordReader::new(alloc, bytes);
    let mut record = ByteRecord::new(alloc);
    if !reader.next(&mut record)? {
        return Ok(Loaded::Refused {
            rec: 0,
            why: Why::NoHeader,
        });
    }
    let width = record.len();
    if let Some(why) = header_refusal(limits, &record) {
        return Ok(Loaded::Refused { rec: 1, why });
    }
    let names = Row::of(record.clone()?);
    let mut relation = Relation::without_rows(alloc, names)?;
    // Nor does a later record that is too wide take memory for its fields.
    let giant = giant_record(bytes, limits.columns as usize);
    loop {
        let rec = relation.len() as u64 + 2;
        if giant == Some(rec) {
            return Ok(Loaded::Refused {
                rec,
                why: Why::Fields,
            });
        }
        if !reader.next(&mut record)? {
            return Ok(Loaded::Read(relation));
        }
        if let Some(why) = row_refusal(limits, width, rec, &record) {
            return Ok(Loaded::Refused { rec, why });
        }
        relation = relation.with_record(&record)?;
    }
}
