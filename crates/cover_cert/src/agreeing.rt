// The pairs of rows that a certificate lists, and what they agree on.
ghost use Rattle.std.specs.Prelude.{◌≡◌, ◌<◌, ◌+◌, ◌^◌, not, length, true, IfOk};
ghost use Rattle.std.specs.List.{All};
ghost use Rattle.rel_base.specs.Shows.{code_agree};
ghost use Rattle.cover_cert.specs.Certificates as spec;
ghost use Rattle.cover_cert.specs.Certificates.{rows_in, agree_sets_of};
ghost use Rattle.cover_cert.specs.Comparing.{first_where};

use crate::line::RowPair;
use rel_base::{ColSet, RowNo, Snapshot};
use std::alloc::{AllocError, Global};

/// The number of the record of the first pair.
pub(crate) const FIRST_PAIR: u64 = 2;

// Whether a pair names two live rows, the lesser number first.
fn names_rows(snapshot: &Snapshot, pair: RowPair) -> bool
    ensures { result ≡ spec.names_rows (rows_in snapshot.now) pair }
{
    1 <= pair.first
        && pair.first < pair.second
        && snapshot.is_live(RowNo::of(pair.first))
        && snapshot.is_live(RowNo::of(pair.second))
}

/// The record of the first pair that does not name two rows.
pub(crate) fn first_odd_pair(snapshot: &Snapshot, pairs: &[RowPair]) -> Option<u64>
    requires { length pairs.now + 2 < 2 ^ 64 }
    ensures { result ≡ first_where (λ pair. not (spec.names_rows (rows_in snapshot.now) pair)) 2 pairs.now }
{
    for place in 0..pairs.len() {
        if !names_rows(snapshot, pairs[place]) {
            return Some(place as u64 + FIRST_PAIR);
        }
    }
    None
}

// The columns in which two rows have equal codes.
fn agree(snapshot: &Snapshot, i: RowNo, j: RowNo) -> ColSet
    requires first { i < snapshot.now.to }
    requires second { j < snapshot.now.to }
    ensures { result ≡ code_agree snapshot.now i j }
{
    let mut columns = ColSet::empty();
    for column in 0..snapshot.columns() {
        if snapshot.code(i, column) == snapshot.code(j, column) {
            columns = columns.with(column);
        }
    }
    columns
}

/// What the rows of each pair agree on.
pub(crate) fn agree_sets(
    alloc: Global,
    snapshot: &Snapshot,
    pairs: &[RowPair],
) -> Result<Vec<ColSet>, AllocError>
    requires { All (λ pair. spec.names_rows (rows_in snapshot.now) pair ≡ true) pairs.now }
    ensures { IfOk result (λ sets. sets.items ≡ agree_sets_of (rows_in snapshot.now) pairs.now) }
{
    // `columns` is called for its clause that each live row has its codes.
    let _bounds = snapshot.columns();
    let mut sets = Vec::with_capacity(alloc, pairs.len())?;
    for pair in pairs {
        let (first, second) = (RowNo::of(pair.first), RowNo::of(pair.second));
        sets.push(agree(snapshot, first, second))?;
    }
    Ok(sets)
}
