// How much each column leaves together.
ghost use Rattle.std.specs.Prelude.{◌≡◌, IfOk, length, map};
ghost use Rattle.col_set.specs.ColSet.{empty, upto, with};
ghost use Rattle.stripped_partition.specs.Stripped.{error_of, stripped};

use crate::Partition;
use rel_base::Snapshot;
use std::alloc::{AllocError, Global};

/// How many rows each column does not tell apart: the error count of its stripped partition, which is the number of live rows less that
/// of the codes that they have in the column.
///
/// It takes a refinement of all live rows for each column.
pub fn weights(alloc: Global, snapshot: &Snapshot) -> Result<Vec<u32>, AllocError>
    ensures { IfOk result (λ weights. weights.items ≡ map (λ k. error_of (stripped snapshot.now (with empty k))) (upto (length snapshot.now.codes))) }
{
    let all = Partition::of_all(alloc, snapshot)?;
    let mut slots = Vec::new(alloc);
    let mut weights = Vec::with_capacity(alloc, snapshot.columns() as usize)?;
    for column in 0..snapshot.columns() {
        let groups = all.refine_in(alloc, snapshot, column, &mut slots)?;
        weights.push(groups.error_count())?;
    }
    Ok(weights)
}
