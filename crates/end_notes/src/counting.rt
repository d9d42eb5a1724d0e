// How many fields a record has.
ghost use Rattle.std.specs.Prelude.{◌≡◌, ◌<◌, ◌≤◌, [], get_or, length, IfOk, IfSome, IsNone};
ghost use Rattle.csv_load.specs.Records.{records_of};

use csv::ByteRecord;
use csv_load::{RecordReader, part_at_giant};
use std::alloc::{AllocError, Global};

// A giant record with more fields than this is not read whole.
const MOST_FIELDS: usize = 4_096;

/// How many fields a record of a file has, counted from 0, if the file has so many records.
///
/// It reads the file up to there, a step a byte. Of the first giant record, of tens of thousands of fields, 4,097 are counted, and none
/// behind it are read, so that it takes no more memory than its other records and 33 KiB.
pub fn field_count(alloc: Global, bytes: &[u8], place: u64) -> Result<Option<usize>, AllocError> {
    match part_at_giant(bytes, MOST_FIELDS, false) {
        Some(parted) => counted(alloc, parted.upto, place),
        None => counted(alloc, bytes, place),
    }
}

// The same of a text without giants.
fn counted(alloc: Global, bytes: &[u8], place: u64) -> Result<Option<usize>, AllocError>
    ensures some { IfOk result (λ count. IfSome count (λ n. (place < length (records_of bytes.now)) × (n ≡ length (get_or (records_of bytes.now) place [])))) }
    ensures none { IfOk result (λ count. IsNone count → length (records_of bytes.now) ≤ place) }
{
    let mut reader = RecordReader::new(alloc, bytes);
    let mut fields = ByteRecord::new(alloc);
    for _ in 0..place {
        if !reader.next(&mut fields)? {
            return Ok(None);
        }
    }
    if reader.next(&mut fields)? {
        Ok(Some(fields.len()))
    } else {
        Ok(None)
    }
}
