//! The candidates as covers.

ghost use Rattle.std.specs.Prelude.{◌≡◌, ◌++◌, map, IfOk, OnOk};
ghost use Rattle.std.specs.List.{flat_map};
ghost use Rattle.col_set.specs.declared.target.Target.TheVariants.{Col, RowId};
ghost use Rattle.col_set.specs.ColSet.{upto};
ghost use Rattle.rel_base.specs.Covers.{fds_to};
ghost use Rattle.candidate_cover.specs.Cands.{cands_of, lefts, width};

use candidate_cover::CandidateCover;
use rel_base::{ColSet, Covers, Fd, Target};
use std::alloc::{AllocError, Global};

// Adds the dependencies of these left sides on a column.
fn push_fds(fds: &mut Vec<Fd>, right: u8, sets: &[ColSet]) -> Result<(), AllocError>
    ensures { OnOk result (fds.new.items ≡ fds.old.items ++ fds_to right sets.now) }
{
    for left in sets {
        fds.push(Fd { left: *left, right })?;
    }
    Ok(())
}

/// The candidates of the row's identity as keys, and those of the columns as dependencies, each in report order. It copies them.
pub fn listed(alloc: Global, candidates: &CandidateCover) -> Result<Covers, AllocError>
    ensures keys { IfOk result (λ found. found.keys ≡ lefts (cands_of candidates.now RowId)) }
    ensures fds { IfOk result (λ found. found.fds ≡ flat_map (λ a. fds_to a (lefts (cands_of candidates.now (Col a)))) (upto (width candidates.now))) }
{
    let keys = candidates.lefts(Target::RowId).to_vec(alloc)?;
    let mut fds = Vec::new(alloc);
    for column in 0..candidates.columns() {
        push_fds(&mut fds, column, candidates.lefts(Target::Col(column)))?;
    }
    Ok(Covers::of(keys, fds))
}
