// Row numbers in plain decimal.
ghost use Rattle.std.specs.Prelude.{◌≡◌, ◌≤◌, length};
ghost use Rattle.batch_update.specs.RowNumber as spec;

use rel_base::RowNo;

/// The digits of the greatest row number.
const MOST_DIGITS: usize = 10;

/// The row number that these bytes write, if they are 1 to 4294967295 in decimal digits without leading zeros.
pub(crate) fn row_number(field: &[u8]) -> Option<RowNo>
    ensures { result ≡ spec.row_number field.now }
{
    if !is_short(field) {
        return None;
    }
    let value = value_of(field)?;
    numbered(value)
}

// Whether these bytes are few enough, and no 0 stands first.
fn is_short(field: &[u8]) -> bool
    ensures { result ≡ spec.is_short field.now }
{
    field.len() <= MOST_DIGITS && field.first() != Some(&b'0')
}

// The number that these bytes write, if they are digits alone. No bytes write 0.
fn value_of(field: &[u8]) -> Option<u64>
    requires { length field.now ≤ MOST_DIGITS }
    ensures { result ≡ spec.value_of field.now }
{
    let mut value = 0;
    for byte in field {
        if !byte.is_ascii_digit() {
            return None;
        }
        value = value * 10 + u64::from(*byte - b'0');
    }
    Some(value)
}

// The row with this number, if there may be one.
fn numbered(value: u64) -> Option<RowNo>
    ensures { result ≡ spec.numbered value }
{
    if value == 0 || value > u64::from(u32::MAX) {
        return None;
    }
    Some(RowNo::of(value as u32))
}
