// Left sides that are to be judged, of all columns together.
ghost use Rattle.std.specs.Prelude.{◌<◌, length};

use crate::seen::Seen;
use least_sets::{least_sets, least_sets_of_size};
use rel_base::{ColSet, MOST_COLUMNS, Snapshot, Target};
use std::alloc::{AllocError, Global};

// The bit of the first place.
const FIRST: u128 = 1 << 127;

// A left side that is to be judged for a column. Candidates go by the places of their columns, so that those that begin with the same
// columns stand together, and a left side stands once after another for each of its columns.
#[derive(Clone, Copy, PartialEq, Eq, PartialOrd, Ord)]
pub(crate) struct Candidate {
    // The places of the columns that it lacks, a bit each, of which the highest is that of the first place.
    lacking: u128,
    pub(crate) left: ColSet,
    pub(crate) column: u8,
}

// The places of the columns of a set in this order, a bit each.
fn places_of(order: &[u8], set: ColSet) -> u128 {
    let mut found = 0;
    let mut bit = FIRST;
    for column in order {
        if *column < MOST_COLUMNS && set.has(*column) {
            found |= bit;
        }
        bit >>= 1;
    }
    found
}

// The candidates of a column that have so many columns.
pub(crate) fn of_column(
    alloc: Global,
    snapshot: &Snapshot,
    order: &[u8],
    seen: &Seen,
    size: u32,
    column: u8,
) -> Result<Vec<Candidate>, AllocError>
    requires { column < length snapshot.now.codes }
{
    let target = Target::Col(column);
    let lefts = least_sets_of_size(alloc, snapshot.columns(), target, seen.of(column), size)?;
    let mut found = Vec::with_capacity(alloc, lefts.len())?;
    for left in lefts.iter() {
        found.push(Candidate {
            lacking: !places_of(order, *left),
            left: *left,
            column,
        })?;
    }
    Ok(found)
}

// The candidates of all columns that have so many columns, in their order.
pub(crate) fn of_size(
    alloc: Global,
    snapshot: &Snapshot,
    order: &[u8],
    seen: &Seen,
    size: u32,
) -> Result<Vec<Candidate>, AllocError> {
    let mut all = Vec::new(alloc);
    for column in 0..snapshot.columns() {
        let own = of_column(alloc, snapshot, order, seen, size, column)?;
        all.extend_from_slice(own.as_slice())?;
    }
    all.sort_unstable();
    Ok(all)
}

// Whether some candidate has more columns than so many.
pub(crate) fn any_larger(
    alloc: Global,
    snapshot: &Snapshot,
    seen: &Seen,
    size: u32,
) -> Result<bool, AllocError> {
    let columns = snapshot.columns();
    for column in 0..columns {
        let lefts = least_sets(alloc, columns, Target::Col(column), seen.of(column))?;
        if lefts.iter().any(|left| left.len() > size) {
            return Ok(true);
        }
    }
    Ok(false)
}
