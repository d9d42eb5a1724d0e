// A text that is parted at a record that is far too wide.
ghost use Rattle.std.specs.Prelude.{◌≡◌, ◌≤◌, length, take, List, ℕ, IfSome};
ghost use Rattle.rel_base.specs.Cells.{Row};
ghost use Rattle.csv_load.specs.Parting.{IsParted, IsWideIn, EndsBehind};

use crate::marks::after_marks;
use crate::wide_records::{Place, after_byte, may_have_giants};

/// Two parts of a text, of which a record has more fields than a limit.
#[derive(Clone, Copy)]
pub struct Parted<'t> {
    /// The text up to the place where that record has one field too many. What follows there is left out.
    pub upto: &'t [u8],
    /// The text behind that record.
    pub behind: &'t [u8],
}

/// Parts a text at the first record that has more fields than this, where it may have one of 64 KiB and more. To read the parts takes no
/// memory for the fields too many: a record that is read takes eight bytes a field and more.
///
/// Where `known` is set, as for the part behind another such record, it parts at every record that has more fields. Else it looks first at
/// many bytes a step, and may overlook a record that is shorter than 128 KiB, or has few fields for its bytes. It takes no memory, and
/// otherwise a step a byte up to the end of the record that it finds.
pub fn part_at_giant<'t>(bytes: &'t [u8], limit: usize, known: bool) -> Option<Parted<'t>>
    ensures { IfSome result (λ parted. IsParted limit bytes.now parted.upto.now parted.behind.now) }
{
    if !known && !may_have_giants(bytes) {
        return None;
    }
    let text = after_marks(bytes);
    let size = wide_size(text, limit)?;
    let (upto, rest) = text.split_at(size);
    let (_, behind) = rest.split_at(end_of_record(rest));
    Some(Parted { upto, behind })
}

// The bytes up to the comma after which the first record that has more fields than this has one too many.
fn wide_size(text: &[u8], limit: usize) -> Option<usize>
    ensures within { IfSome result (λ size. size ≤ length text.now) }
    ensures wide { IfSome result (λ size. IsWideIn limit (take size text.now)) }
{
    let mut place = Place::BeforeRecord;
    let mut ended: usize = 0;
    for index in 0..text.len() {
        if let Some((next, ends)) = after_byte(place, text[index]) {
            place = next;
            if ends {
                ended += 1;
                if ended >= limit {
                    return Some(index + 1);
                }
            }
        } else {
            place = Place::BeforeRecord;
            ended = 0;
        }
    }
    None
}

// The bytes of a record that goes on with a field: the byte that ends it is not one of them.
fn end_of_record(rest: &[u8]) -> usize
    ensures within { result ≤ length rest.now }
    ensures ends { (fields : Row) (field : List ℕ) → EndsBehind rest.now result fields field }
{
    let mut place = Place::BeforeField;
    for index in 0..rest.len() {
        let Some((next, _)) = after_byte(place, rest[index]) else {
            return index;
        };
        place = next;
    }
    rest.len()
}
