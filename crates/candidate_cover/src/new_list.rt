// The candidates of one target, made anew.
ghost use Rattle.std.specs.Prelude.{◌≡◌, ◌≤◌, IfOk};
ghost use Rattle.col_set.specs.Target.{IsColumnTarget};
ghost use Rattle.candidate_cover.specs.Cands.{first_fresh};
ghost use Rattle.candidate_cover.specs.Marks.{IsGrown, IsGeneralised, cands};

use crate::cand_list::CandList;
use least_sets::{changes_past, changes_with};
use rel_base::{ColSet, MOST_COLUMNS, Target};
use std::alloc::{AllocError, Global};
use std::marker::Model;

/// The whole list of candidates of one target, made by a `CandidateCover` and to be put into it.
///
/// Contracts see the list. It takes 21 bytes a candidate.
#[derive(Drop)]
pub struct NewList {
    list: CandList,
    fresh: Option<ColSet>,
}

impl Model for NewList {
    ghost use Rattle.std.specs.Prelude.{◌≡◌, List};
    ghost use Rattle.candidate_cover.specs.declared.cand.Cand.{Cand};
    ghost use Rattle.candidate_cover.specs.Cands.{first_fresh};
    ghost use Rattle.candidate_cover.specs.Marks.{cands};

    ghost Value = { List Cand };

    ghost view = { λ p. cands p.list };

    ghost invariant = { λ p. p.fresh ≡ first_fresh (cands p.list) };
}

impl NewList {
    /// The first left side that is fresh: known to hold among no rows, and held by nobody. It takes one step.
    ///
    /// A candidate that an agree set has made is fresh, so where all candidates before a place were known to hold or held, no
    /// candidate before that place and this left side is fresh after the list was put.
    pub fn first_fresh(&self) -> Option<ColSet>
        ensures { result ≡ first_fresh self.now }
    {
        self.fresh
    }

    // The new list, which is read up to its first fresh candidate.
    pub(crate) fn of(list: CandList) -> NewList
        ensures { result ≡ cands list }
    {
        let fresh = list.first_fresh();
        NewList { list, fresh }
    }

    // The list itself.
    pub(crate) fn into_list(self) -> CandList
        ensures { cands result ≡ self }
    {
        self.list
    }
}

// The candidates after a further agree set z that lacks the target: those inside z give way to those that grow out of them.
pub(crate) fn specialised(
    alloc: Global,
    columns: u8,
    target: Target,
    z: ColSet,
    list: &CandList,
) -> Result<CandList, AllocError>
    requires columns { columns ≤ MOST_COLUMNS }
    requires target { IsColumnTarget columns target }
    ensures { IfOk result (λ made. IsGrown columns target z list.now made) }
{
    let changes = changes_past(alloc, columns, target, z, list.sets())?;
    let made = list.toggled(alloc, changes.as_slice())?;
    Ok(made)
}

// The candidates with the found sets, where those that contain one of them are dropped.
pub(crate) fn generalised(
    alloc: Global,
    found: Vec<ColSet>,
    list: &CandList,
) -> Result<CandList, AllocError>
    ensures { IfOk result (λ made. IsGeneralised found.items list.now made) }
{
    let changes = changes_with(alloc, found.as_slice(), list.sets())?;
    let made = list.toggled(alloc, changes.as_slice())?;
    Ok(made)
}
