// Reads a change text.
ghost use Rattle.std.specs.Prelude.{◌≡◌, ◌<◌, ◌≤◌, ◌+◌, ◌^◌, map, length, All, IfOk};
ghost use Rattle.csv_load.specs.Records.{records_of};
ghost use Rattle.batch_update.specs.Changes.{changes};
ghost use Rattle.batch_update.specs.Coming.{TakesEntries};
ghost use Rattle.batch_update.specs.Entry.{entry_of};
ghost use Rattle.batch_update.specs.Numbers.{IsNumberedTo};
ghost use Rattle.batch_update.specs.Wide.{IsWide};

use crate::begun::{Begun, Place};
use crate::item::Item;
use crate::reading::read_entry;
use csv::ByteRecord;
use csv_load::{RecordReader, part_at_giant};
use rel_base::Limits;
use std::alloc::{AllocError, Global};

/// A giant record with more fields than this is not read whole. It is malformed: an operation has at most two fields more than there are
/// columns.
const MOST_FIELDS: usize = 4_096;

/// The items of a change text for a relation of so many columns, in order.
///
/// A change text is comma-separated values, read as a file is. A record is an insert (`+` and the cells), a delete (`-` and
/// a row number), an update (`=`, a row number and the cells), the end of a batch (`!`), or, between batches, a report
/// (`?`). Batches are numbered from 1, bad ones too, and records from 1. A batch with a malformed record is bad by its first
/// one, up to the `!` that ends it; a batch that the text cuts off is bad by the text's last record.
///
/// Its only error is want of memory. The text is read once and not copied; an insert or an update takes one packed row. Where a record may
/// be a giant of tens of thousands of fields, the text is first gone through a byte at a time for such records, and no fields are kept of
/// them that say nothing. No number of a batch or a record is above the number of the text's bytes.
pub fn read_changes(
    alloc: Global,
    bytes: &[u8],
    columns: u8,
    limits: &Limits,
) -> Result<Vec<Item>, AllocError>
    ensures items { IfOk result (λ items. items.items ≡ changes bytes.now columns limits.now) }
    ensures numbers { IfOk result (λ items. All (IsNumberedTo (length bytes.now)) items.items) }
    ensures wide { IfOk result (λ items. All (IsWide columns) items.items) }
{
    let mut items = Vec::new(alloc);
    let mut so_far = SoFar {
        begun: Begun::Nothing,
        place: Place { no: 1, rec: 1 },
    };
    let mut rest = bytes;
    let mut known = false;
    // A record that is far too wide is malformed, and why is said by its first fields alone: what follows them is left out.
    while let Some(parted) = part_at_giant(rest, MOST_FIELDS, known) {
        so_far = read_part(alloc, &mut items, so_far, parted.upto, columns, limits)?;
        rest = parted.behind;
        known = true;
    }
    let SoFar { begun, place } = read_part(alloc, &mut items, so_far, rest, columns, limits)?;
    begun.cut_off(&mut items, place)?;
    Ok(items)
}

// Where a reading stands, and what has been read of the batch at hand.
#[derive(Drop)]
struct SoFar {
    begun: Begun,
    place: Place,
}

// Reads on with the records of this part of the text. The items that they complete are added to the list.
fn read_part(
    alloc: Global,
    items: &mut Vec<Item>,
    so_far: SoFar,
    part: &[u8],
    columns: u8,
    limits: &Limits,
) -> Result<SoFar, AllocError>
    requires some { 0 < so_far.place.rec }
    requires numbered { so_far.place.no ≤ so_far.place.rec }
    requires few { so_far.place.rec + length (records_of part.now) < 2 ^ 64 }
    ensures entries { IfOk result (λ next. TakesEntries items.old.items items.new.items so_far.place.no so_far.place.rec so_far.begun (map (entry_of columns limits.now) (records_of part.now)) next.place.no next.place.rec next.begun) }
    ensures count { IfOk result (λ next. next.place.rec ≡ so_far.place.rec + length (records_of part.now)) }
    ensures numbered { IfOk result (λ next. next.place.no ≤ next.place.rec) }
{
    let SoFar {
        mut begun,
        mut place,
    } = so_far;
    let mut reader = RecordReader::new(alloc, part);
    let mut fields = ByteRecord::new(alloc);
    while reader.next(&mut fields)? {
        let entry = read_entry(alloc, &fields, columns, limits)?;
        let ends = entry.is_end();
        begun = begun.after(alloc, items, place, entry)?;
        place = place.next(ends);
    }
    Ok(SoFar { begun, place })
}
