// Live rows of a snapshot.
ghost use Rattle.std.specs.Prelude.{◌≤◌, IfOk};
ghost use Rattle.negative_cover.specs.LiveRows.{AreLiveBetween};

use rel_base::{RowNo, Snapshot};
use std::alloc::{AllocError, Global};

// The numbers of the live rows from one on and below another one.
pub(crate) fn live_between(
    alloc: Global,
    snapshot: &Snapshot,
    from: RowNo,
    to: RowNo,
) -> Result<Vec<RowNo>, AllocError>
    requires { to ≤ snapshot.now.to }
    ensures { IfOk result (λ rows. AreLiveBetween snapshot.now from to rows.items) }
{
    let mut rows = Vec::new(alloc);
    for number in from.number()..to.number() {
        let row = RowNo::of(number);
        if snapshot.is_live(row) {
            rows.push(row)?;
        }
    }
    Ok(rows)
}
