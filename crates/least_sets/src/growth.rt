// How candidates grow past one more agree set, over lists of column sets.
ghost use Rattle.std.specs.Prelude.{◌≡◌, ◌≤◌, ◌<◌, ◌++◌, ◌&&◌, not, map, IfOk, OnOk};
ghost use Rattle.std.specs.List.{filter, list_any};
ghost use Rattle.col_set.specs.ColSet.{subset, has, with, report_cmp};
ghost use Rattle.col_set.specs.Target.{IsColumnTarget};
ghost use Rattle.col_set.specs.Lists.{Rises};
ghost use Rattle.least_sets.specs.Growth as words;
ghost use Rattle.least_sets.specs.Members.{HasMembers};

use crate::order::sorted;
use rel_base::{ColSet, MOST_COLUMNS, Target};
use std::alloc::{AllocError, Global};

// The first columns but the target.
pub(crate) fn choices(columns: u8, target: Target) -> ColSet
    requires columns { columns ≤ MOST_COLUMNS }
    requires target { IsColumnTarget columns target }
    ensures { result ≡ words.choices columns target }
{
    match target {
        Target::Col(column) => ColSet::all(columns).without(column),
        Target::RowId => ColSet::all(columns),
    }
}

// Whether one of the sets lies inside x.
fn has_subset(sets: &[ColSet], x: ColSet) -> bool
    ensures { result ≡ list_any (λ y. subset y x) sets.now }
{
    sets.iter().any(|y| y.subset_of(x))
}

// Makes the list that of the sets that have the column.
fn fill_having(found: &mut Vec<ColSet>, column: u8, sets: &[ColSet]) -> Result<(), AllocError>
    requires { column < MOST_COLUMNS }
    ensures { OnOk result (found.new.items ≡ words.having column sets.now) }
{
    found.clear();
    for x in sets {
        if x.has(column) {
            found.push(*x)?;
        }
    }
    Ok(())
}

// Adds each set with the column more, unless a blocker lies inside it.
fn push_grown(
    grown: &mut Vec<ColSet>,
    blockers: &[ColSet],
    column: u8,
    inside: &[ColSet],
) -> Result<(), AllocError>
    requires { column < MOST_COLUMNS }
    ensures { OnOk result (grown.new.items ≡ grown.old.items ++ words.unblocked blockers.now (map (λ c. with c column) inside.now)) }
{
    for c in inside {
        let x = c.with(column);
        if !has_subset(blockers, x) {
            grown.push(x)?;
        }
    }
    Ok(())
}

// Adds each set with the column more, where no set near by lies inside it. The blockers are made anew.
fn push_grown_by(
    grown: &mut Vec<ColSet>,
    blockers: &mut Vec<ColSet>,
    near: &[ColSet],
    column: u8,
    inside: &[ColSet],
) -> Result<(), AllocError>
    requires { column < MOST_COLUMNS }
    ensures { OnOk result (grown.new.items ≡ grown.old.items ++ words.grown_by inside.now near.now column) }
{
    fill_having(blockers, column, near)?;
    push_grown(grown, blockers.as_slice(), column, inside)
}

// Whether the column is one of these and outside z.
fn is_choice(choices: ColSet, z: ColSet, column: u8) -> bool
    requires { column < MOST_COLUMNS }
    ensures { result ≡ (has choices column && not (has z column)) }
{
    choices.has(column) && !z.has(column)
}

// Adds the sets that lie inside z, each with one column more that is outside z and among the choices. Of the candidates that
// do not lie inside z, only those with one column outside it can lie inside such a set: where one does, the set is none of
// the least. So the time grows with the number of sets inside z times that of those near by. The blockers are made anew.
pub(crate) fn push_all_grown(
    sets: &mut Vec<ColSet>,
    blockers: &mut Vec<ColSet>,
    columns: u8,
    choices: ColSet,
    z: ColSet,
    inside: &[ColSet],
    near: &[ColSet],
) -> Result<(), AllocError>
    requires { columns ≤ MOST_COLUMNS }
    ensures { OnOk result (sets.new.items ≡ sets.old.items ++ words.grown columns choices z inside.now near.now) }
{
    for column in 0..columns {
        if is_choice(choices, z, column) {
            push_grown_by(sets, blockers, near, column, inside)?;
        }
    }
    Ok(())
}

// Sets by where they stand to an agree set: inside it, or with exactly one column outside it.
#[derive(Drop)]
struct Touched {
    inside: Vec<ColSet>,
    near: Vec<ColSet>,
}

// One pass that writes nothing but what it finds.
fn touched_by(alloc: Global, z: ColSet, sets: &[ColSet]) -> Result<Touched, AllocError>
    ensures inside { IfOk result (λ found. found.inside.items ≡ words.inside z sets.now) }
    ensures near { IfOk result (λ found. found.near.items ≡ words.near z (words.outside z sets.now)) }
{
    let mut inside = Vec::new(alloc);
    let mut near = Vec::new(alloc);
    for x in sets {
        let out = x.minus(z);
        if out == ColSet::empty() {
            inside.push(*x)?;
        } else if out.len() == 1 {
            near.push(*x)?;
        }
    }
    Ok(Touched { inside, near })
}

/// What changes among the least sets of a target with a further agree set z that lacks it, in report order: those inside z, which go,
/// and those that grow out of them by one column outside z and other than the target, which come.
///
/// The sets that come are those that contain none of the others (HyFD's specialisation, Papenbrock and Naumann, 2016). It takes a
/// pass over the sets, and the number of sets inside z times that of those with one column outside it.
pub fn changes_past(
    alloc: Global,
    columns: u8,
    target: Target,
    z: ColSet,
    sets: &[ColSet],
) -> Result<Vec<ColSet>, AllocError>
    requires columns { columns ≤ MOST_COLUMNS }
    requires target { IsColumnTarget columns target }
    ensures order { IfOk result (λ changes. Rises report_cmp changes.items) }
    ensures members { IfOk result (λ changes. HasMembers (words.inside z sets.now ++ words.grown columns (words.choices columns target) z (words.inside z sets.now) (words.near z (words.outside z sets.now))) changes.items) }
{
    let touched = touched_by(alloc, z, sets)?;
    let mut changes = Vec::with_capacity(alloc, touched.inside.len())?;
    changes.extend_from_slice(touched.inside.as_slice())?;
    let mut blockers = Vec::new(alloc);
    push_all_grown(
        &mut changes,
        &mut blockers,
        columns,
        choices(columns, target),
        z,
        touched.inside.as_slice(),
        touched.near.as_slice(),
    )?;
    Ok(sorted(changes))
}

// Adds those of the sets that contain one of the found ones.
fn push_containing(
    changes: &mut Vec<ColSet>,
    sets: &[ColSet],
    found: &[ColSet],
) -> Result<(), AllocError>
    ensures { OnOk result (changes.new.items ≡ changes.old.items ++ filter (λ x. list_any (λ y. subset y x) found.now) sets.now) }
{
    for x in sets {
        if has_subset(found, *x) {
            changes.push(*x)?;
        }
    }
    Ok(())
}

/// What changes among some sets where others are found, in report order: the found sets, which come, and the sets that contain one of
/// them, which go. Each set is compared with the found ones, until one lies inside it.
pub fn changes_with(
    alloc: Global,
    found: &[ColSet],
    sets: &[ColSet],
) -> Result<Vec<ColSet>, AllocError>
    ensures order { IfOk result (λ changes. Rises report_cmp changes.items) }
    ensures members { IfOk result (λ changes. HasMembers (found.now ++ filter (λ x. list_any (λ y. subset y x) found.now) sets.now) changes.items) }
{
    let mut changes = Vec::with_capacity(alloc, found.len())?;
    changes.extend_from_slice(found)?;
    push_containing(&mut changes, sets, found)?;
    Ok(sorted(changes))
}
