// Places between two records, at which a text can be cut into texts that are read apart.
ghost use Rattle.std.specs.Prelude.{◌≡◌, ◌<◌, ◌≤◌, true, length, slice_index, IfSome};
ghost use Rattle.csv_load.specs.Records.{without_marks};
ghost use Rattle.csv.specs.Machine.{line_feed};
ghost use Rattle.csv.specs.declared.parser.State.TheVariants as st;
ghost use Rattle.csv_load.specs.Cuts.{IsCut, state_behind};
ghost use Rattle.csv_load.specs.WideRecords.{state_of};

use crate::marks::begins_with_mark;
use crate::wide_records::Place;

/// How many bytes of a text go before a cut from `near` on: a place behind the end of a line, between two records. There is none where
/// no record begins behind such a place.
///
/// A line that ends among quotes ends no record. So the bytes before the cut are looked at: many of them a step where none is a quote,
/// and else one after another. It takes no memory.
pub(crate) fn cut(text: &[u8], near: usize) -> Option<usize>
    requires { without_marks text.now ≡ text.now }
    ensures { IfSome result (IsCut text.now) }
{
    if let Some(size) = cut_without_quotes(text, near) {
        return Some(size);
    }
    cut_by_bytes(text, near)
}

// The cut behind the first line feed from `near` on, if it is one and no quote stands before it.
fn cut_without_quotes(text: &[u8], near: usize) -> Option<usize>
    requires { without_marks text.now ≡ text.now }
    ensures { IfSome result (IsCut text.now) }
{
    let end = line_feed_from(text, near)?;
    let (part, rest) = text.split_at(end + 1);
    if !begins_record(rest) || part.contains(&b'"') {
        return None;
    }
    Some(end + 1)
}

// The place of the first line feed from `near` on.
fn line_feed_from(text: &[u8], near: usize) -> Option<usize>
    ensures within { IfSome result (λ place. place < length text.now) }
    ensures found { IfSome result (λ place. slice_index text.now place ≡ line_feed) }
{
    for place in near..text.len() {
        if text[place] == b'\n' {
            return Some(place);
        }
    }
    None
}

// The first cut from `near` on that a reader comes to.
fn cut_by_bytes(text: &[u8], near: usize) -> Option<usize>
    requires { without_marks text.now ≡ text.now }
    ensures { IfSome result (IsCut text.now) }
{
    let mut place = Place::BeforeRecord;
    for index in 0..text.len() {
        place = place_after(place, text[index]);
        if index >= near && is_before_record(place) && begins_record(&text[index + 1..]) {
            return Some(index + 1);
        }
    }
    None
}

// The place after a byte, which is before a record also where the byte ends one.
fn place_after(place: Place, byte: u8) -> Place
    ensures { state_of result ≡ state_behind (state_of place) byte }
{
    match (place, byte) {
        (Place::InQuotes, b'"') => Place::AfterQuote,
        (Place::InQuotes, _) => Place::InQuotes,
        (Place::InField, b'"') => Place::InField,
        (_, b'"') => Place::InQuotes,
        (_, b',') => Place::BeforeField,
        (_, b'\r' | b'\n') => Place::BeforeRecord,
        _ => Place::InField,
    }
}

fn is_before_record(place: Place) -> bool
    ensures { result ≡ true → state_of place ≡ st.StartRecord }
{
    matches!(place, Place::BeforeRecord)
}

// Whether something is left of a text, and no byte order mark comes first: a reader of the rest alone would take it off.
fn begins_record(rest: &[u8]) -> bool
    ensures { result ≡ true → without_marks rest.now ≡ rest.now }
{
    !rest.is_empty() && !begins_with_mark(rest)
}
