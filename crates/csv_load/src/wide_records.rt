// Records that are too wide, found without their fields.
ghost use Rattle.std.specs.Prelude.{◌≡◌, ◌<◌, ◌≤◌, true, false, IfSome, IfNone};
ghost use Rattle.csv.specs.Machine.{step, is_end, ends_with};
ghost use Rattle.csv.specs.Reading.{default_config};
ghost use Rattle.csv.specs.declared.parser.State.TheVariants as st;
ghost use Rattle.csv_load.specs.Records.{records_of};
ghost use Rattle.csv_load.specs.WideRecords.{state_of, ends_field, IsWideRecord};

use crate::marks::after_marks;

/// The bytes of a block of a text. A record without a whole block in it is shorter than two.
const BLOCK: usize = 65_536;

/// Where in a record the next byte stands.
#[derive(Clone, Copy)]
pub(crate) enum Place {
    BeforeRecord,
    BeforeField,
    InField,
    InQuotes,
    AfterQuote,
}

/// Whether the first record has more fields than this. It takes a step a byte up to the first field too many, and no memory: a record
/// that is read takes eight bytes a field and more.
///
/// It may be wider only where `true` is answered, and is wider then.
pub(crate) fn has_wide_header(bytes: &[u8], limit: usize) -> bool
    ensures { result ≡ true → IsWideRecord limit (records_of bytes.now) 1 }
{
    first_wide_record(bytes, limit, 1).is_some()
}

/// The number of the first record that has more fields than this, where the text may have one of a block and more. Like
/// `has_wide_header` it takes no memory.
///
/// It may overlook a record that is shorter than two blocks, or has few fields for its bytes: to read one takes little memory.
pub(crate) fn giant_record(bytes: &[u8], limit: usize) -> Option<u64>
    ensures { IfSome result (IsWideRecord limit (records_of bytes.now)) }
{
    if !may_have_giants(bytes) {
        return None;
    }
    first_wide_record(bytes, limit, u64::MAX)
}

/// Whether a record may go on through a whole block that is full of fields. It looks at many bytes a step.
pub(crate) fn may_have_giants(bytes: &[u8]) -> bool {
    for block in bytes.chunks_exact(BLOCK) {
        if !ends_a_record_or_no_field(block) && has_many_commas(block) {
            return true;
        }
    }
    false
}

// Whether a record ends in this block, or no field does: without a quote in it, all of it stands in quotes, or none of its line ends.
fn ends_a_record_or_no_field(block: &[u8]) -> bool {
    !block.contains(&b'"') && (block.contains(&b'\n') || block.contains(&b'\r'))
}

// Whether more than an eighth of the bytes are commas. Where fewer are, the ends of the fields, of eight bytes each, take no more than the
// block.
fn has_many_commas(block: &[u8]) -> bool {
    let mut commas: usize = 0;
    for byte in block {
        if *byte == b',' {
            commas += 1;
        }
    }
    commas > block.len() / 8
}

// The number, counted from 1, of the first record that has more fields than this, if it is one of the first `last` ones.
fn first_wide_record(bytes: &[u8], limit: usize, last: u64) -> Option<u64>
    requires { 0 < last }
    ensures wide { IfSome result (IsWideRecord limit (records_of bytes.now)) }
    ensures within { IfSome result (λ rec. rec ≤ last) }
{
    let mut place = Place::BeforeRecord;
    let mut ended: usize = 0;
    let mut rec: u64 = 1;
    for byte in after_marks(bytes) {
        if let Some((next, ends)) = after_byte(place, *byte) {
            place = next;
            if ends {
                ended += 1;
                if ended >= limit {
                    return Some(rec);
                }
            }
        } else {
            if rec >= last {
                return None;
            }
            place = Place::BeforeRecord;
            ended = 0;
            rec += 1;
        }
    }
    None
}

/// The place after a byte, and whether the byte ends a field before another. There is none where it ends the record.
pub(crate) fn after_byte(place: Place, byte: u8) -> Option<(Place, bool)>
    ensures place { IfSome result (λ after. (step default_config (state_of place) byte).0 ≡ state_of after.0) }
    ensures ends { IfSome result (λ after. ends_field (step default_config (state_of place) byte).1 ≡ after.1) }
    ensures before_field { IfSome result (λ after. after.1 ≡ true → state_of after.0 ≡ st.StartField) }
    ensures goes_on { IfSome result (λ after. is_end (step default_config (state_of place) byte).1 ≡ false) }
    ensures stops { IfNone result (is_end (step default_config (state_of place) byte).1 ≡ true) }
    ensures line_end { IfNone result (ends_with default_config.terminator byte ≡ true) }
{
    match place {
        Place::InQuotes if byte == b'"' => Some((Place::AfterQuote, false)),
        Place::InQuotes => Some((Place::InQuotes, false)),
        Place::BeforeRecord if ends_record(byte) => Some((Place::BeforeRecord, false)),
        Place::BeforeRecord | Place::BeforeField | Place::AfterQuote if byte == b'"' => {
            Some((Place::InQuotes, false))
        }
        _ if byte == b',' => Some((Place::BeforeField, true)),
        _ if ends_record(byte) => None,
        _ => Some((Place::InField, false)),
    }
}

// Whether a byte ends a record, where it stands in no quotes.
fn ends_record(byte: u8) -> bool
    ensures { result ≡ ends_with default_config.terminator byte }
{
    byte == b'\r' || byte == b'\n'
}
