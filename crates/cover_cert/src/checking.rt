// Whether a text is a certificate of a relation's covers.
ghost use Rattle.std.specs.Prelude.{◌≡◌, IfOk};
ghost use Rattle.rel_base.specs.RowState.{RowState, IsRowState};
ghost use Rattle.rel_base.specs.Shows.{Shows};
ghost use Rattle.cover_cert.specs.Certificates as spec;
ghost use Rattle.cover_cert.specs.Certificates.{Rows, rows_in, shape_of, answer_by, answer_in, judged};
ghost use Rattle.cover_cert.specs.Form.{IsListing, AreFew, Said, said};

use crate::agreeing::{FIRST_PAIR, agree_sets, first_odd_pair};
use crate::answer::{Answer, Flaw};
use crate::comparing::first_departure;
use crate::holding::first_failing;
use crate::line::Shape;
use crate::listing::{Listing, Reading, read};
use csv_load::part_at_giant;
use rel_base::Snapshot;
use std::alloc::{AllocError, Global};
use std::thread::Threads;

/// A giant record with more fields than this is not read whole: a record of a certificate has at most three.
const MOST_FIELDS: usize = 3;

/// Whether a text is a certificate of the covers of a snapshot's rows, or else its first flaw.
///
/// A certificate is a text of comma-separated values: `cert` with the numbers of columns and rows, `pair` lines of two row numbers, `key`
/// lines, `fd` lines, and `end`. The keys and dependencies are those that the agree sets of the pairs leave, in the order of a report, and
/// hold in the rows. So they are all minimal keys and dependencies, whoever wrote the text and however the pairs were found. The flaws are
/// asked one after another, each of the whole text.
///
/// The text is read once and not copied. It takes 8 bytes for a pair and some 60 for a key or dependency, and for each worker the least sets
/// of one target (`least_sets`) and a partition for each column of the left side at hand; in time mostly what these take, with a refinement
/// for each column that a left side has other than the one before it. Workers take targets, and then stretches of left sides.
///
/// An `AllocError` comes where memory is refused.
pub fn check<R: Threads + Sync>(
    rt: &R,
    alloc: Global,
    snapshot: &Snapshot,
    bytes: &[u8],
    workers: u8,
) -> Result<Answer, AllocError>
    ensures by_codes { IfOk result (λ answer. answer ≡ answer_in snapshot.now bytes.now) }
    ensures rows { IfOk result (λ answer. (r : RowState) → IsRowState r → Shows snapshot.now r → answer ≡ spec.answer r bytes.now) }
{
    let text = up_to_giant(bytes);
    let answer = check_text(rt, alloc, snapshot, text, workers)?;
    Ok(answer)
}

// The text, up to the first field too many of a giant record.
fn up_to_giant(bytes: &[u8]) -> &[u8]
    ensures { (rows : Rows) → answer_by rows (said result.now) ≡ answer_by rows (said bytes.now) }
{
    match part_at_giant(bytes, MOST_FIELDS, false) {
        Some(parted) => parted.upto,
        None => bytes,
    }
}

// How many columns and rows a snapshot has.
fn shape_in(snapshot: &Snapshot) -> Shape
    ensures { result ≡ shape_of (rows_in snapshot.now) }
{
    Shape {
        columns: u32::from(snapshot.columns()),
        rows: snapshot.live_count(),
    }
}

// What `check` answers of a text without giant records.
fn check_text<R: Threads + Sync>(
    rt: &R,
    alloc: Global,
    snapshot: &Snapshot,
    text: &[u8],
    workers: u8,
) -> Result<Answer, AllocError>
    ensures { IfOk result (λ answer. answer ≡ answer_in snapshot.now text.now) }
{
    match read(alloc, text, shape_in(snapshot))? {
        Reading::Listed(listing) => {
            let answer = judge(rt, alloc, snapshot, &listing, workers)?;
            Ok(answer)
        }
        Reading::OutOfForm(record) => Ok(Answer::No {
            record,
            flaw: Flaw::Form,
        }),
    }
}

// What `check` answers of a text in form.
fn judge<R: Threads + Sync>(
    rt: &R,
    alloc: Global,
    snapshot: &Snapshot,
    listing: &Listing,
    workers: u8,
) -> Result<Answer, AllocError>
    requires { AreFew listing.now.pairs.items listing.now.claims.items }
    ensures { IfOk result (λ answer. (text : Said) → IsListing (shape_of (rows_in snapshot.now)) text listing.now → answer ≡ judged (rows_in snapshot.now) text) }
{
    if !listing.is_shaped {
        return Ok(Answer::No {
            record: 1,
            flaw: Flaw::Shape,
        });
    }
    let (pairs, claims) = (listing.pairs.as_slice(), listing.claims.as_slice());
    if let Some(record) = first_odd_pair(snapshot, pairs) {
        return Ok(Answer::No {
            record,
            flaw: Flaw::Pair,
        });
    }
    let first_claim = pairs.len() as u64 + FIRST_PAIR;
    let columns = snapshot.columns();
    let sets = agree_sets(alloc, snapshot, pairs)?;
    if let Some(record) = first_departure(
        rt,
        alloc,
        columns,
        &sets,
        claims,
        first_claim,
        workers,
    )? {
        return Ok(Answer::No {
            record,
            flaw: Flaw::Least,
        });
    }
    if let Some(record) = first_failing(rt, alloc, snapshot, claims, first_claim, workers)? {
        return Ok(Answer::No {
            record,
            flaw: Flaw::Fails,
        });
    }
    Ok(Answer::Yes)
}
