// The inclusions that are left, in order.
ghost use Rattle.std.specs.Prelude.{◌≡◌, ◌++◌, ◌<◌, IfOk, OnOk};
ghost use Rattle.std.specs.List.{filter};
ghost use Rattle.col_set.specs.ColSet.{upto};
ghost use Rattle.inclusion_merge.specs.Candidates.{is_left, pairs_among, pairs_from};

use crate::candidates::Candidates;
use std::alloc::{AllocError, Global};

/// The pairs of different columns of which the first may be included in the second, by the first, then by the second.
pub(crate) fn pairs_of(alloc: Global, kept: &Candidates) -> Result<Vec<(usize, usize)>, AllocError>
    ensures { IfOk result (λ pairs. pairs.items ≡ filter (is_left kept.now) (pairs_among kept.now.columns kept.now.columns)) }
{
    let mut pairs = Vec::new(alloc);
    for dependent in 0..kept.columns() {
        push_pairs_of(&mut pairs, kept, dependent)?;
    }
    Ok(pairs)
}

fn push_pairs_of(
    pairs: &mut Vec<(usize, usize)>,
    kept: &Candidates,
    dependent: usize,
) -> Result<(), AllocError>
    requires { dependent < kept.now.columns }
    ensures { OnOk result (pairs.new.items ≡ pairs.old.items ++ filter (is_left kept.now) (pairs_from dependent (upto kept.now.columns))) }
{
    for referenced in 0..kept.columns() {
        if is_pair(kept, dependent, referenced) {
            pairs.push((dependent, referenced))?;
        }
    }
    Ok(())
}

fn is_pair(kept: &Candidates, dependent: usize, referenced: usize) -> bool
    requires dependent { dependent < kept.now.columns }
    requires referenced { referenced < kept.now.columns }
    ensures { result ≡ is_left kept.now (dependent, referenced) }
{
    dependent != referenced && kept.has(dependent, referenced)
}
