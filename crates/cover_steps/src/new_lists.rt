//! What agree sets leave of the candidates, as new lists which are all made before the first is put in place.

ghost use Rattle.std.specs.Prelude.{◌≡◌, ◌<◌, ◌≤◌, ◌∷◌, [], ◌++◌, ℕ, not, List, length, IfOk, IfSome};
ghost use Rattle.std.specs.List.{All, AllZip, list_any};
ghost use Rattle.col_set.specs.ColSet.{Columns};
ghost use Rattle.col_set.specs.Target.{IsColumnTarget, has_target};
ghost use Rattle.col_set.specs.Evidence.{least};
ghost use Rattle.candidate_cover.specs.Cands.{cands_of, lefts, width, AreLeast};
ghost use Rattle.cover_steps.specs.Core.{renewed, targets};
ghost use Rattle.negative_cover.specs.Concerning.{concerns, is_open, AreConcerned};
ghost use Rattle.cover_steps.specs.NewLists.{IsNewList, AreNewLists, IsLeftBy, IsPlaced};
ghost use Rattle.candidate_cover.specs.Lists.{CandLists};
ghost use denote.Param.Send.{IsSync};

use candidate_cover::{CandidateCover, NewList, OldList};
use least_sets::Draft;
use negative_cover::Concerned;
use rel_base::{ColSet, MOST_COLUMNS, Steps, Target};
use std::alloc::{AllocError, Global};
use std::sync::atomic::{AtomicUsize, Ordering};
use std::sync::ledger::Ledger;
use std::thread::{Threads, join};

/// A new list for each target that has one, and room for the lists that they take the place of.
#[derive(Drop)]
pub struct NewLists {
    /// Of the row's identity.
    pub row_id: Option<NewList>,
    /// Of each column, in order.
    pub columns: Vec<Option<NewList>>,
    /// The room: empty, with a place for each target.
    pub old: Vec<OldList>,
}

// What a further agree set leaves of a target's candidates, where it concerns the target.
fn specialised_list(
    alloc: Global,
    candidates: &CandidateCover,
    target: Target,
    agree: ColSet,
    concerned: &Concerned,
) -> Result<Option<NewList>, AllocError>
    requires { IsColumnTarget (width candidates.now) target }
    ensures { IfOk result (λ new_list. (ws : List Columns) → lefts (cands_of candidates.now target) ≡ least (width candidates.now) ws target → concerns concerned.now target ≡ is_open ws agree target → IsNewList (width candidates.now) (ws ++ agree ∷ []) candidates.now target new_list) }
{
    // `columns` is called for its clause that there are at most `MOST_COLUMNS`.
    let _count = candidates.columns();
    if !concerned.has(target) {
        return Ok(None);
    }
    Ok(Some(candidates.specialise(alloc, target, agree)?))
}

/// What a further agree set leaves, which concerns these targets. It takes time by their candidates.
pub fn specialised(
    alloc: Global,
    candidates: &CandidateCover,
    agree: ColSet,
    concerned: &Concerned,
) -> Result<NewLists, AllocError>
    ensures { IfOk result (λ new_lists. (ws : List Columns) → AreLeast (width candidates.now) ws candidates.now → AreConcerned (width candidates.now) ws agree concerned.now → IsLeftBy candidates.now (ws ++ agree ∷ []) new_lists) }
{
    let row_id = specialised_list(alloc, candidates, Target::RowId, agree, concerned)?;
    let mut columns = Vec::with_capacity(alloc, candidates.columns() as usize)?;
    for column in 0..candidates.columns() {
        let target = Target::Col(column);
        let new_list = specialised_list(alloc, candidates, target, agree, concerned)?;
        columns.push(new_list)?;
    }
    let old = Vec::with_capacity(alloc, columns.len().saturating_add(1))?;
    Ok(NewLists {
        row_id,
        columns,
        old,
    })
}

// Whether one of these agree sets lacks the target.
fn some_lacks(sets: &[ColSet], target: Target) -> bool
    requires { IsColumnTarget MOST_COLUMNS target }
    ensures { result ≡ list_any (λ z. not (has_target z target)) sets.now }
{
    sets.iter().any(|agree| !agree.has_target(target))
}

// What is left of a target's candidates by the rest of the agree sets, where one that lacks the target was withdrawn.
fn generalised_list<L: Ledger>(
    alloc: Global,
    candidates: &CandidateCover,
    target: Target,
    rest: &[ColSet],
    withdrawn: &[ColSet],
    steps: &mut Steps<L>,
) -> Result<Option<NewList>, AllocError>
    requires target { IsColumnTarget (width candidates.now) target }
    requires least { lefts (cands_of candidates.now target) ≡ least (width candidates.now) (rest.now ++ withdrawn.now) target }
    ensures { IfOk result (λ new_list. IsNewList (width candidates.now) rest.now candidates.now target new_list) }
{
    // `columns` is called for its clause that there are at most `MOST_COLUMNS`.
    let _count = candidates.columns();
    if !some_lacks(withdrawn, target) {
        return Ok(None);
    }
    Ok(Some(candidates.generalise(alloc, target, rest, withdrawn, steps)?))
}

/// What the rest of the agree sets leaves, where some were withdrawn. Each test of a column set against an agree set is a step.
pub fn generalised<L: Ledger>(
    alloc: Global,
    candidates: &CandidateCover,
    rest: &[ColSet],
    withdrawn: &[ColSet],
    steps: &mut Steps<L>,
) -> Result<NewLists, AllocError>
    requires { AreLeast (width candidates.now) (rest.now ++ withdrawn.now) candidates.now }
    ensures { IfOk result (IsLeftBy candidates.now rest.now) }
{
    let row_id = generalised_list(alloc, candidates, Target::RowId, rest, withdrawn, steps)?;
    let mut columns = Vec::with_capacity(alloc, candidates.columns() as usize)?;
    for column in 0..candidates.columns() {
        let new_list = generalised_list(
            alloc,
            candidates,
            Target::Col(column),
            rest,
            withdrawn,
            steps,
        )?;
        columns.push(new_list)?;
    }
    let old = Vec::with_capacity(alloc, columns.len().saturating_add(1))?;
    Ok(NewLists {
        row_id,
        columns,
        old,
    })
}

// What a draft leaves of the candidates of each of these targets, where it has changed them.
fn drafted_each(
    alloc: Global,
    candidates: &CandidateCover,
    draft: &Draft,
    targets: &[Target],
) -> Result<Vec<Option<NewList>>, AllocError>
    requires width { draft.now.width ≡ width candidates.now }
    requires targets { All (IsColumnTarget (width candidates.now)) targets.now }
    ensures { IfOk result (λ new_lists. AllZip (IsNewList (width candidates.now) draft.now.agree_sets candidates.now) targets.now new_lists.items) }
{
    let mut new_lists = Vec::with_capacity(alloc, targets.len())?;
    for target in targets {
        new_lists.push(candidates.drafted(alloc, draft, *target)?)?;
    }
    Ok(new_lists)
}

// The new lists of the row's identity and of the columns, and room for those that they take the place of.
fn gathered(alloc: Global, new_lists: Vec<Option<NewList>>) -> Result<NewLists, AllocError>
    requires { 0 < length new_lists.items }
    ensures { IfOk result (λ made. (n : ℕ) (ws : List Columns) (c : CandLists) → AllZip (IsNewList n ws c) (targets n) new_lists.items → AreNewLists n ws c made.row_id made.columns.items) }
{
    let mut columns = new_lists;
    let row_id = columns.remove(0);
    let old = Vec::with_capacity(alloc, columns.len().saturating_add(1))?;
    Ok(NewLists {
        row_id,
        columns,
        old,
    })
}

/// What a draft leaves, where it has changed a target's list.
pub fn drafted(
    alloc: Global,
    candidates: &CandidateCover,
    draft: &Draft,
) -> Result<NewLists, AllocError>
    requires { draft.now.width ≡ width candidates.now }
    ensures { IfOk result (IsLeftBy candidates.now draft.now.agree_sets) }
{
    let targets = targets_of(alloc, candidates.columns())?;
    gathered(alloc, drafted_each(alloc, candidates, draft, &targets)?)
}

// The row's identity and so many columns.
fn targets_of(alloc: Global, columns: u8) -> Result<Vec<Target>, AllocError>
    ensures { IfOk result (λ found. found.items ≡ targets columns) }
{
    let mut found = Vec::with_capacity(alloc, columns as usize + 1)?;
    found.push(Target::RowId)?;
    for column in 0..columns {
        found.push(Target::Col(column))?;
    }
    Ok(found)
}

// What a draft leaves of the candidates of targets that it takes one after another until all are taken, each beside the target's place.
// Others may take some beside it.
fn drafted_in_turn(
    alloc: Global,
    candidates: &CandidateCover,
    draft: &Draft,
    targets: &[Target],
    taken: &AtomicUsize,
) -> Result<Vec<(usize, Option<NewList>)>, AllocError>
    requires width { draft.now.width ≡ width candidates.now }
    requires targets { All (IsColumnTarget (width candidates.now)) targets.now }
    ensures { IfOk result (λ made. All (IsPlaced (width candidates.now) draft.now.agree_sets candidates.now targets.now) made.items) }
{
    let mut made = Vec::new(alloc);
    for _ in 0..targets.len() {
        let place = taken.fetch_add(1, Ordering::SeqCst);
        if place >= targets.len() {
            break;
        }
        let new_list = candidates.drafted(alloc, draft, targets[place])?;
        made.push((place, new_list))?;
    }
    Ok(made)
}

// What `drafted_in_turn` makes of all targets, by so many threads at most. In which order it stands is left to chance.
fn drafted_beside<R: Threads + Sync>(
    rt: &R,
    alloc: Global,
    candidates: &CandidateCover,
    draft: &Draft,
    targets: &[Target],
    taken: &AtomicUsize,
    workers: u8,
) -> Result<Vec<(usize, Option<NewList>)>, AllocError>
    requires width { draft.now.width ≡ width candidates.now }
    requires targets { All (IsColumnTarget (width candidates.now)) targets.now }
    ensures { IfOk result (λ made. All (IsPlaced (width candidates.now) draft.now.agree_sets candidates.now targets.now) made.items) }
{
    if workers < 2 {
        return drafted_in_turn(alloc, candidates, draft, targets, taken);
    }
    let few = workers / 2;
    let others = workers - few;
    let (one, other) = join(
        rt,
        move || -> Result<Vec<(usize, Option<NewList>)>, AllocError>
            requires { IsSync R.row × (draft.now.width ≡ width candidates.now) × All (IsColumnTarget (width candidates.now)) targets.now }
            ensures { IfOk result (λ made. All (IsPlaced (width candidates.entry.now) draft.entry.now.agree_sets candidates.entry.now targets.entry.now) made.items) }
        { drafted_beside(rt, alloc, candidates, draft, targets, taken, few) },
        move || -> Result<Vec<(usize, Option<NewList>)>, AllocError>
            requires { IsSync R.row × (draft.now.width ≡ width candidates.now) × All (IsColumnTarget (width candidates.now)) targets.now }
            ensures { IfOk result (λ made. All (IsPlaced (width candidates.entry.now) draft.entry.now.agree_sets candidates.entry.now targets.entry.now) made.items) }
        { drafted_beside(rt, alloc, candidates, draft, targets, taken, others) },
    );
    let mut made = one?;
    let mut more = other?;
    made.append(&mut more)?;
    Ok(made)
}

// Takes what was made at a place out of the others, if it was.
fn taken_out(made: &mut Vec<(usize, Option<NewList>)>, place: usize) -> Option<Option<NewList>>
    ensures rest { (n : ℕ) (ws : List Columns) (c : CandLists) (ts : List Target) → All (IsPlaced n ws c ts) made.old.items → All (IsPlaced n ws c ts) made.new.items }
    ensures found { (n : ℕ) (ws : List Columns) (c : CandLists) (ts : List Target) → All (IsPlaced n ws c ts) made.old.items → IfSome result (λ new_list. IsPlaced n ws c ts (place, new_list)) }
{
    for k in 0..made.len() {
        if made[k].0 == place {
            return Some(made.remove(k).1);
        }
    }
    None
}

// What a draft leaves of the candidates of each of these targets, by so many threads at most, each of which takes one target after
// another: how long one takes is not known before.
fn drafted_lists<R: Threads + Sync>(
    rt: &R,
    alloc: Global,
    candidates: &CandidateCover,
    draft: &Draft,
    targets: &[Target],
    workers: u8,
) -> Result<Vec<Option<NewList>>, AllocError>
    requires width { draft.now.width ≡ width candidates.now }
    requires targets { All (IsColumnTarget (width candidates.now)) targets.now }
    ensures { IfOk result (λ new_lists. AllZip (IsNewList (width candidates.now) draft.now.agree_sets candidates.now) targets.now new_lists.items) }
{
    let taken = AtomicUsize::new(0);
    let mut made = drafted_beside(rt, alloc, candidates, draft, targets, &taken, workers)?;
    let mut new_lists = Vec::with_capacity(alloc, targets.len())?;
    for place in 0..targets.len() {
        // All are made; which thread took which is told by nothing but the lists.
        let new_list = match taken_out(&mut made, place) {
            Some(new_list) => new_list,
            None => candidates.drafted(alloc, draft, targets[place])?,
        };
        new_lists.push(new_list)?;
    }
    Ok(new_lists)
}

/// What a draft leaves, by so many threads at most, each of which takes one target after another.
pub fn drafted_by<R: Threads + Sync>(
    rt: &R,
    alloc: Global,
    candidates: &CandidateCover,
    draft: &Draft,
    workers: u8,
) -> Result<NewLists, AllocError>
    requires { draft.now.width ≡ width candidates.now }
    ensures { IfOk result (IsLeftBy candidates.now draft.now.agree_sets) }
{
    let targets = targets_of(alloc, candidates.columns())?;
    gathered(
        alloc,
        drafted_lists(rt, alloc, candidates, draft, &targets, workers)?,
    )
}

/// Puts the new lists in place, and hands out the lists that stood there, so that the caller chooses when to let go of them. It takes no
/// memory.
pub fn put_all(candidates: &mut CandidateCover, new_lists: NewLists) -> Vec<OldList>
    requires { length new_lists.columns.items ≡ width candidates.old }
    ensures { (ws : List Columns) → IsLeftBy candidates.old ws new_lists → candidates.new ≡ renewed (width candidates.old) ws candidates.old }
{
    let NewLists {
        row_id,
        mut columns,
        mut old,
    } = new_lists;
    // `columns` is called for its clause that there are at most `MOST_COLUMNS`.
    let _count = candidates.columns();
    // There is room for each list, since whoever made the new lists made it.
    if let Some(new_list) = row_id {
        drop(old.push(candidates.put(Target::RowId, new_list)));
    }
    while let Some(new_list) = columns.pop() {
        if let Some(new_list) = new_list {
            drop(old.push(candidates.put(Target::Col(columns.len() as u8), new_list)));
        }
    }
    old
}
