// Reads the records of a file one at a time.
ghost use Rattle.std.specs.Prelude.{◌≡◌, ◌<◌, ◌∷◌, [], length, true, false, IfOk, OnOk, OnErr, IsErr};
ghost use Rattle.std.specs.Bool.{OnTrue, OnFalse};
ghost use Rattle.csv.specs.Records.{fields_of};
ghost use Rattle.csv_load.specs.Records.{records_of};

use crate::marks::after_marks;
use csv::{ByteRecord, ErrorKind, Reader, ReaderBuilder};
use std::alloc::{AllocError, Global};
use std::marker::Model;

/// Reads the records of a file one after another, each into a record that is used again.
///
/// Contracts see the records that are left, and whether want of memory stopped it.
#[derive(Drop)]
pub struct RecordReader<'t> {
    reader: Reader<&'t [u8]>,
    progress: Progress,
}

#[derive(Clone, Copy)]
enum Progress {
    Reading,
    Ended,
    Stopped,
}

impl<'t> Model for RecordReader<'t> {
    ghost use Rattle.csv_load.specs.Unread.{Unread, unread, IsBetweenRecords};

    ghost Value = { Unread };

    ghost view = { λ r. unread r.reader r.progress };

    ghost invariant = { λ r. IsBetweenRecords r.reader r.progress };
}

impl<'t> RecordReader<'t> {
    /// A reader at the start of these bytes. It takes no memory yet.
    pub fn new(alloc: Global, bytes: &'t [u8]) -> RecordReader<'t>
        ensures records { result.left ≡ records_of bytes.now }
        ensures fresh { result.stopped ≡ false }
    {
        let reader = ReaderBuilder::new()
            .has_headers(false)
            .flexible(true)
            .from_reader(alloc, after_marks(bytes));
        RecordReader {
            reader,
            progress: Progress::Reading,
        }
    }

    /// Reads the next record into `fields`, and tells whether there was one.
    pub fn next(&mut self, fields: &mut ByteRecord) -> Result<bool, AllocError>
        ensures found { IfOk result (λ found. OnTrue found (self.old.left ≡ fields_of fields.new ∷ self.new.left)) }
        ensures some { IfOk result (λ found. OnTrue found (0 < length (fields_of fields.new))) }
        ensures end { IfOk result (λ found. OnFalse found ((self.old.left ≡ []) × (self.new.left ≡ []))) }

        // After want of memory it gives nothing more.
        ensures stops { OnErr result (self.new.stopped ≡ true) }
        ensures stopped { self.old.stopped ≡ true → IsErr result }
        ensures goes_on { OnOk result (self.new.stopped ≡ false) }
    {
        match self.progress {
            Progress::Reading => {}
            Progress::Ended => return Ok(false),
            Progress::Stopped => return Err(AllocError),
        }
        match self.reader.read_byte_record(fields) {
            Ok(true) => Ok(true),
            Ok(false) => {
                self.progress = Progress::Ended;
                Ok(false)
            }
            Err(error) => {
                self.progress = Progress::Stopped;
                match error.kind() {
                    // A slice has no read that fails.
                    ErrorKind::OutOfMemory | ErrorKind::Io(_) => Err(AllocError),
                    _ => unreachable!(),
                }
            }
        }
    }
}
