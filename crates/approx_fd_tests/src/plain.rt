// Approximate dependencies by their definition: all lists that leave out some live rows are tried, and all column sets.
ghost use Rattle.std.specs.Prelude.{◌≡◌, ◌<◌, ◌≤◌, ◌^◌, nat_le, not, ◌||◌, ◌&&◌, [], IfOk, length};
ghost use Rattle.std.specs.List.{All, list_all};
ghost use Rattle.col_set.specs.ColSet.{subset};
ghost use Rattle.col_set.specs.Minimal.{proper_subset};
ghost use Rattle.col_set.specs.Target.{has_target, IsColumnTarget};
ghost use Rattle.col_set.specs.declared.col_set.TheConstants.{MOST_COLUMNS};
ghost use Rattle.rel_base.specs.Shows.{code_agree, code_sets, live_numbers};
ghost use Rattle.rel_base.specs.Validity.{determined};
ghost use Rattle.approx_fd.specs.Removal.{removed_in};
ghost use Rattle.approx_fd.specs.Approximate.{min_nearly};
ghost use Rattle.approx_fd_tests.specs.Plain.{most_of};

use rel_base::{ColSet, RowNo, Snapshot, Target};
use std::alloc::{AllocError, Global};

// The columns in which two rows have equal codes.
fn agree(snapshot: &Snapshot, i: RowNo, j: RowNo) -> ColSet
    requires first { i < snapshot.now.to }
    requires second { j < snapshot.now.to }
    ensures { result ≡ code_agree snapshot.now i j }
{
    let mut columns = ColSet::empty();
    for column in 0..snapshot.columns() {
        if snapshot.code(i, column) == snapshot.code(j, column) {
            columns = columns.with(column);
        }
    }
    columns
}

// Whether two rows agree on the target or don't on these columns.
fn goes_with(snapshot: &Snapshot, row: RowNo, other: RowNo, columns: ColSet, target: Target) -> bool
    requires row { row < snapshot.now.to }
    requires other { other < snapshot.now.to }
    requires target { IsColumnTarget MOST_COLUMNS target }
    ensures { result ≡ (not (subset columns (code_agree snapshot.now row other)) || has_target (code_agree snapshot.now row other) target) }
{
    let agreed = agree(snapshot, row, other);
    !columns.subset_of(agreed) || agreed.has_target(target)
}

// The same of a row and each of the others.
fn go_with(
    snapshot: &Snapshot,
    row: RowNo,
    others: &[RowNo],
    columns: ColSet,
    target: Target,
) -> bool
    requires row { row < snapshot.now.to }
    requires others { All (λ other. other < snapshot.now.to) others.now }
    requires target { IsColumnTarget MOST_COLUMNS target }
    ensures { result ≡ list_all (λ other. not (subset columns (code_agree snapshot.now row other)) || has_target (code_agree snapshot.now row other) target) others.now }
{
    let mut rest = others;
    while let Some((other, later)) = rest.split_first() {
        if !goes_with(snapshot, row, *other, columns, target) {
            return false;
        }
        rest = later;
    }
    true
}

// Whether the columns determine the target among these rows.
fn determine(snapshot: &Snapshot, rows: &[RowNo], columns: ColSet, target: Target) -> bool
    requires rows { All (λ row. row < snapshot.now.to) rows.now }
    requires target { IsColumnTarget MOST_COLUMNS target }
    ensures { result ≡ determined (code_sets snapshot.now rows.now) columns target }
{
    let mut rest = rows;
    while let Some((row, others)) = rest.split_first() {
        if !go_with(snapshot, *row, others, columns, target) {
            return false;
        }
        rest = others;
    }
    true
}

// How many rows can be kept at most, of these and some of the rest, so that the columns determine the target among them.
fn most_kept(
    alloc: Global,
    snapshot: &Snapshot,
    kept: &[RowNo],
    rest: &[RowNo],
    columns: ColSet,
    target: Target,
) -> Result<usize, AllocError>
    requires kept { All (λ row. row < snapshot.now.to) kept.now }
    requires rest { All (λ row. row < snapshot.now.to) rest.now }
    requires target { IsColumnTarget MOST_COLUMNS target }
    ensures { IfOk result (λ most. most ≡ most_of (λ rows. determined (code_sets snapshot.now rows) columns target) kept.now rest.now) }
{
    match rest.split_first() {
        Some((row, others)) => {
            let mut longer = Vec::new(alloc);
            longer.extend_from_slice(kept)?;
            longer.push(*row)?;
            let with = most_kept(alloc, snapshot, longer.as_slice(), others, columns, target)?;
            let without = most_kept(alloc, snapshot, kept, others, columns, target)?;
            Ok(with.max(without))
        }
        None => {
            if determine(snapshot, kept, columns, target) {
                return Ok(kept.len());
            }
            Ok(0)
        }
    }
}

// The live rows.
fn live_rows(alloc: Global, snapshot: &Snapshot) -> Result<Vec<RowNo>, AllocError>
    ensures { IfOk result (λ rows. rows.items ≡ live_numbers snapshot.now) }
{
    let mut rows = Vec::new(alloc);
    for place in 0..snapshot.to().number() - 1 {
        let row = RowNo::of(place + 1);
        if snapshot.is_live(row) {
            rows.push(row)?;
        }
    }
    Ok(rows)
}

/// The least number of rows whose removal makes the columns determine the target. It tries two lists for each row and each list of the
/// others, so it is for ten rows or so.
pub fn removed(
    alloc: Global,
    snapshot: &Snapshot,
    columns: ColSet,
    target: Target,
) -> Result<usize, AllocError>
    requires { IsColumnTarget MOST_COLUMNS target }
    ensures { IfOk result (λ count. count ≡ removed_in snapshot.now columns target) }
{
    let live = live_rows(alloc, snapshot)?;
    let most = most_kept(alloc, snapshot, &[], live.as_slice(), columns, target)?;
    Ok(live.len().saturating_sub(most))
}

// Whether the whole has each column of the part, and one more.
#[tactic(auto, unfolding(col_set::specs::Minimal::proper_subset))]
fn is_proper(part: ColSet, whole: ColSet) -> bool
    ensures { result ≡ proper_subset part whole }
{
    part.subset_of(whole) && part != whole
}

// Whether a set is a proper part of the columns, and at most so many rows are to be removed for it.
fn is_enough(
    alloc: Global,
    snapshot: &Snapshot,
    part: ColSet,
    columns: ColSet,
    target: Target,
    most: usize,
) -> Result<bool, AllocError>
    requires { IsColumnTarget MOST_COLUMNS target }
    ensures { IfOk result (λ is. is ≡ (proper_subset part columns && nat_le (removed_in snapshot.now part target) most)) }
{
    if !is_proper(part, columns) {
        return Ok(false);
    }
    let count = removed(alloc, snapshot, part, target)?;
    Ok(count <= most)
}

// How many sets of so many columns there are.
fn number_of_sets(columns: u8) -> u32
    requires { columns ≤ 8 }
    ensures { result ≡ 2 ^ columns }
{
    1 << columns
}

/// Whether the columns are one of the minimal left sides of the target for which at most so many rows are to be removed. It tries all
/// sets of columns.
pub fn is_minimal(
    alloc: Global,
    snapshot: &Snapshot,
    columns: ColSet,
    target: Target,
    most: usize,
) -> Result<bool, AllocError>
    requires target { IsColumnTarget MOST_COLUMNS target }
    requires few { length snapshot.now.codes ≤ 8 }
    ensures { IfOk result (λ is. is ≡ min_nearly (length snapshot.now.codes) (λ x. removed_in snapshot.now x target) most target columns) }
{
    if columns.has_target(target) {
        return Ok(false);
    }
    let count = removed(alloc, snapshot, columns, target)?;
    if count > most {
        return Ok(false);
    }
    for bits in 0..number_of_sets(snapshot.columns()) {
        let part = ColSet::of_bits(u128::from(bits));
        let is_smaller = is_enough(alloc, snapshot, part, columns, target, most)?;
        if is_smaller {
            return Ok(false);
        }
    }
    Ok(true)
}
