// The dependencies and keys that hold but for a few rows.
ghost use Rattle.std.specs.Prelude.{◌≡◌, ◌++◌, IfOk, OnOk, length, map};
ghost use Rattle.rel_base.specs.RowState.{RowState, IsRowState};
ghost use Rattle.rel_base.specs.Shows.{Shows};
ghost use Rattle.approx_fd.specs.Approximate as words;
ghost use Rattle.approx_fd.specs.Approximate.{approximate_in, near_keys_in};

use crate::found::{Approx, NearKey};
use crate::search::Search;
use rel_base::{Fd, Snapshot, Target};
use std::alloc::{AllocError, Global};
use stripped_partition::weights;

// The columns by how many rows they leave together, those that tell most apart first.
pub(crate) fn order_of(alloc: Global, snapshot: &Snapshot) -> Result<Vec<u8>, AllocError> {
    let weights = weights(alloc, snapshot)?;
    let mut columns = Vec::with_capacity(alloc, weights.len())?;
    for column in 0..snapshot.columns() {
        if let Some(weight) = weights.get(column as usize) {
            columns.push((*weight, column))?;
        }
    }
    columns.sort_unstable();
    let mut order = Vec::with_capacity(alloc, columns.len())?;
    for column in columns.iter() {
        order.push(column.1)?;
    }
    Ok(order)
}

/// The minimal dependencies for which at most so many rows are to be removed, by right column, then by left side in report order, each
/// with how many these are (approximate dependencies by the error g3; TANE, Huhtala, Kärkkäinen, Porkka and Toivonen, 1999). Where no row
/// may be removed they are the minimal dependencies of the rows.
///
/// Left sides that evidence leaves are counted, and each that fails is grown to a greatest set that fails, which is further evidence
/// (dualize and advance, Gunopulos, Khardon, Mannila and Toivonen, 1997). That goes by size, in sweeps over the left sides of all columns,
/// and then by rounds over those of each column, in which little is left to count. A count takes a step for each row that stands in a
/// group, a left side that fails a refinement for each column. It takes what `Path` and `Tally` of `stripped_partition` take, and 32 bytes
/// or so for each set that is found, a few times over.
///
/// An `AllocError` comes where memory is refused.
pub fn approx(alloc: Global, snapshot: &Snapshot, errors: u32) -> Result<Vec<Approx>, AllocError>
    ensures by_codes { IfOk result (λ found. found.items ≡ approximate_in errors snapshot.now) }
    ensures rows { IfOk result (λ found. (r : RowState) → IsRowState r → Shows snapshot.now r → found.items ≡ words.approximate errors r) }
{
    let order = order_of(alloc, snapshot)?;
    let mut search = Search::new(alloc, snapshot, order.as_slice(), errors)?;
    let known = search.swept()?;
    let mut found = Vec::new(alloc);
    for column in 0..snapshot.columns() {
        let lefts = search.settled_by(column, &known)?;
        push_all(&mut found, column, lefts.as_slice())?;
    }
    Ok(found)
}

// Adds the dependencies of these left sides on a column.
pub(crate) fn push_all(
    found: &mut Vec<Approx>,
    column: u8,
    lefts: &[NearKey],
) -> Result<(), AllocError>
    ensures { OnOk result (found.new.items ≡ found.old.items ++ map (λ k. record { fd = record { left = k.columns; right = column }; removed = k.removed }) lefts.now) }
{
    for one in lefts {
        let fd = Fd {
            left: one.columns,
            right: column,
        };
        found.push(Approx {
            fd,
            removed: one.removed,
        })?;
    }
    Ok(())
}

/// The minimal column sets that are unique where at most so many rows are removed, in report order, each with how many these are at least.
/// Where no row may be removed they are the minimal keys of the rows. It goes by the same rounds, and counts by the error of the partition.
///
/// An `AllocError` comes where memory is refused.
pub fn near_keys(
    alloc: Global,
    snapshot: &Snapshot,
    errors: u32,
) -> Result<Vec<NearKey>, AllocError>
    ensures by_codes { IfOk result (λ found. found.items ≡ near_keys_in errors snapshot.now) }
    ensures rows { IfOk result (λ found. (r : RowState) → IsRowState r → Shows snapshot.now r → found.items ≡ words.near_keys errors r) }
{
    let order = order_of(alloc, snapshot)?;
    let mut search = Search::new(alloc, snapshot, order.as_slice(), errors)?;
    let found = search.settled(Target::RowId, Vec::new(alloc), Vec::new(alloc))?;
    Ok(found)
}
