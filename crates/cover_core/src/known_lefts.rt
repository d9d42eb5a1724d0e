// Left sides that hold in the rows before the new ones, when evidence from the new ones comes.
ghost use Rattle.std.specs.Prelude.{◌≡◌, ◌&&◌, ◌||◌, nat_lt, nat_le, OnOk, IfOk};
ghost use Rattle.std.specs.List.{All, list_any};
ghost use Rattle.col_set.specs.ColSet.{subset};
ghost use Rattle.col_set.specs.Target.{IsColumnTarget};
ghost use Rattle.candidate_cover.specs.Cands.{width};
ghost use Rattle.cover_core.specs.KnownLefts.{IsKnownLeft, AreKnownLefts, IsKnownBy};

use crate::waiting::Waiting;
use candidate_cover::{Cand, CandidateCover};
use rel_base::{ColSet, RowNo, Target};
use std::alloc::{AllocError, Global};
use validator::Order;

// Left sides of a target that are known to hold below a row number. What contains one of them holds there too (augmentation; Armstrong,
// 1974), as the candidates do that evidence brings in their place.
#[derive(Drop)]
pub(crate) struct KnownLefts {
    pub(crate) target: Target,
    pub(crate) lefts: Vec<ColSet>,
}

// The left sides of a target that are known to hold below a number. Of a target with more than so many candidates there is none.
fn known_lefts_of(
    alloc: Global,
    candidates: &CandidateCover,
    target: Target,
    from: RowNo,
    most: usize,
) -> Result<KnownLefts, AllocError>
    requires { IsColumnTarget (width candidates.now) target }
    ensures { IfOk result (AreKnownLefts candidates.now from) }
{
    let mut lefts = Vec::new(alloc);
    if candidates.lefts(target).len() <= most {
        let own = candidates.list(alloc, target)?;
        push_known_lefts(&mut lefts, own.as_slice(), from)?;
    }
    Ok(KnownLefts { target, lefts })
}

// Adds the left sides of those of the candidates that are known to hold below a number.
fn push_known_lefts(lefts: &mut Vec<ColSet>, own: &[Cand], from: RowNo) -> Result<(), AllocError>
    requires { All (IsKnownLeft own.now from) lefts.old.items }
    ensures { OnOk result (All (IsKnownLeft own.now from) lefts.new.items) }
{
    for cand in own {
        if from <= cand.upto {
            lefts.push(cand.left)?;
        }
    }
    Ok(())
}

// Those of all targets.
pub(crate) fn known_lefts(
    alloc: Global,
    candidates: &CandidateCover,
    from: RowNo,
    most: usize,
) -> Result<Vec<KnownLefts>, AllocError>
    ensures { IfOk result (λ lists. All (AreKnownLefts candidates.now from) lists.items) }
{
    let mut lists = Vec::with_capacity(alloc, candidates.columns() as usize + 1)?;
    lists.push(known_lefts_of(alloc, candidates, Target::RowId, from, most)?)?;
    for column in 0..candidates.columns() {
        let target = Target::Col(column);
        lists.push(known_lefts_of(alloc, candidates, target, from, most)?)?;
    }
    Ok(lists)
}

// Whether one of the left sides lies inside x.
fn has_inside(lefts: &[ColSet], x: ColSet) -> bool
    ensures { result ≡ list_any (λ y. subset y x) lefts.now }
{
    lefts.iter().any(|y| y.subset_of(x))
}

// Whether a candidate is unfinished and holds below a number, as its mark tells, or a left side inside it.
fn is_known(cand: Cand, from: RowNo, next: RowNo, lefts: &[ColSet]) -> bool
    ensures { result ≡ (nat_lt cand.upto next && (nat_le from cand.upto || list_any (λ y. subset y cand.left) lefts.now)) }
{
    cand.upto < next && (from <= cand.upto || has_inside(lefts, cand.left))
}

// The unfinished candidates of a target that hold below a number, as their marks tell, or left sides inside them.
pub(crate) fn known_by(
    alloc: Global,
    candidates: &CandidateCover,
    known: &KnownLefts,
    order: &Order,
    from: RowNo,
    next: RowNo,
) -> Result<Vec<Waiting>, AllocError>
    requires { IsColumnTarget (width candidates.now) known.now.target }
    ensures { IfOk result (λ found. All (IsKnownBy candidates.now from known.now) found.items) }
{
    let own = candidates.list(alloc, known.target)?;
    let mut found = Vec::new(alloc);
    for (place, cand) in own.iter().enumerate() {
        if is_known(*cand, from, next, known.lefts.as_slice()) {
            found.push(Waiting {
                places: order.places_of(cand.left),
                target: known.target,
                near: place,
                cand: *cand,
            })?;
        }
    }
    Ok(found)
}
