// The live rows of a snapshot, and what the codes of given rows in a column are.
ghost use Rattle.std.specs.Prelude.{◌≡◌, ◌<◌, ◌≤◌, ◌==◌, ◌++◌, ℕ, nat_lt, length, vec_len, map, count_by, slice_index, slice_index_or, cond, option_map, find, replicate, IfOk, OnOk, ◌-◌, ◌^◌};
ghost use Rattle.std.specs.List.{All, list_any};
ghost use Rattle.std.specs.List.Sorted.{IsNonDecreasing};
ghost use Rattle.rel_base.specs.CodeTable.{code_at};
ghost use Rattle.rel_base.specs.LentCodes.{lent};
ghost use Rattle.rel_base.specs.Shows.{live_numbers};
ghost use Rattle.stripped_partition.specs.Groups.{cut, IsCut};
ghost use Rattle.stripped_partition.specs.SplitBy.{least, differ};
ghost use Rattle.stripped_partition.specs.Codes.{IsRecoded, IsTable};

use rel_base::{CodeSlice, MOST_ROWS, RowNo, Snapshot};
use std::alloc::{AllocError, Global};

// No group's place.
const NO_PLACE: u32 = u32::MAX;

// The live rows, ascending.
pub(crate) fn live_rows(alloc: Global, snapshot: &Snapshot) -> Result<Vec<RowNo>, AllocError>
    ensures rows { IfOk result (λ rows. rows.items ≡ live_numbers snapshot.now) }
    ensures short { IfOk result (λ rows. vec_len rows ≤ MOST_ROWS) }
{
    let to = snapshot.to().number();
    let mut rows = Vec::with_capacity(alloc, to as usize)?;
    for number in 1..to {
        let row = RowNo::of(number);
        if snapshot.is_live(row) {
            rows.push(row)?;
        }
    }
    Ok(rows)
}

// The codes of these rows in a column.
pub(crate) fn codes_of(
    alloc: Global,
    snapshot: &Snapshot,
    column: u8,
    rows: &[RowNo],
) -> Result<Vec<u32>, AllocError>
    requires given { All (λ row. row < snapshot.now.to) rows.now }
    requires column { column < length snapshot.now.codes }
    ensures { IfOk result (λ codes. codes.items ≡ map (λ row. code_at snapshot.now row column) rows.now) }
{
    let mut codes = vec![in alloc; 0; rows.len()]?;
    write_codes(&mut codes, snapshot, column, rows);
    Ok(codes)
}

// Writes the codes of these rows in a column.
pub(crate) fn write_codes(codes: &mut [u32], snapshot: &Snapshot, column: u8, rows: &[RowNo])
    requires room { length codes.old ≡ length rows.now }
    requires given { All (λ row. row < snapshot.now.to) rows.now }
    requires column { column < length snapshot.now.codes }
    ensures { codes.new ≡ map (λ row. code_at snapshot.now row column) rows.now }
{
    let (shared, own) = snapshot.column(column).parts();
    gather(codes, shared, own, rows);
}

// Writes the codes of these rows, where those of all rows stand in two lists of which the second goes on behind the first.
fn gather(codes: &mut [u32], shared: CodeSlice<'_>, own: &[u32], rows: &[RowNo])
    requires long { length codes.old ≡ length rows.now }
    requires given { All (λ row. row ≤ length (lent shared ++ own.now)) rows.now }
    ensures { codes.new ≡ map (λ row. slice_index (lent shared.entry ++ own.now) (row - 1)) rows.now }
{
    for (k, row) in rows.iter().enumerate() {
        codes[k] = code_in(shared, own, (row.number() - 1) as usize);
    }
}

// The code at a place of two lists of which the second goes on behind the first.
fn code_in(shared: CodeSlice<'_>, own: &[u32], place: usize) -> u32
    requires { place < length (lent shared ++ own.now) }
    ensures { result ≡ slice_index (lent shared.entry ++ own.now) place }
{
    if place < shared.len() {
        shared.get(place)
    } else {
        own[place - shared.len()]
    }
}

// How many of the codes are smaller, for each of them.
fn ranks(alloc: Global, codes: &[u32]) -> Result<Vec<u32>, AllocError>
    requires { length codes.now ≤ MOST_ROWS }
    ensures { IfOk result (λ ranks. ranks.items ≡ map (λ c. count_by (λ d. nat_lt d c) codes.now) codes.now) }
{
    let mut sorted = Vec::from_slice(alloc, codes)?;
    sorted.sort_unstable();
    let mut ranks = Vec::with_capacity(alloc, codes.len())?;
    for code in codes {
        ranks.push(rank(&sorted, *code))?;
    }
    Ok(ranks)
}

// How many of the codes, which are sorted, are smaller than this one.
fn rank(sorted: &[u32], code: u32) -> u32
    requires short { length sorted.now ≤ MOST_ROWS }
    requires sorted { IsNonDecreasing sorted.now }
    ensures { result ≡ count_by (λ d. nat_lt d code) sorted.now }
{
    sorted.partition_point(|other| *other < code) as u32
}

// The greatest of the codes, or 0.
pub(crate) fn greatest_code(codes: &[u32]) -> u32
    ensures { All (λ code. code ≤ result) codes.now }
{
    codes.iter().copied().max().unwrap_or(0)
}

// Codes that are equal exactly where these are, and a bound of them that is not large for their number.
pub(crate) fn dense(alloc: Global, codes: Vec<u32>) -> Result<(Vec<u32>, usize), AllocError>
    requires { length codes.items ≤ MOST_ROWS }
    ensures { IfOk result (λ r. IsRecoded codes.items r.0.items r.1) }
{
    let greatest = greatest_code(&codes) as usize;
    if greatest / 4 < codes.len() {
        return Ok((codes, greatest + 1));
    }
    let bound = codes.len();
    let ranks = ranks(alloc, &codes)?;
    Ok((ranks, bound))
}

// Makes a list at least so long.
pub(crate) fn make_long(codes: &mut Vec<u32>, len: usize) -> Result<(), AllocError>
    ensures { OnOk result (len ≤ vec_len codes.new) }
{
    if codes.len() < len {
        codes.resize(len, 0)?;
    }
    Ok(())
}

// Makes room for a slot for each of the codes, where all slots are clear.
pub(crate) fn make_room(slots: &mut Vec<u32>, codes: &[u32]) -> Result<(), AllocError>
    requires clear { slots.old.items ≡ replicate (vec_len slots.old) 0 }
    ensures clear { slots.new.items ≡ replicate (vec_len slots.new) 0 }
    ensures room { OnOk result (IsRecoded codes.now codes.now (vec_len slots.new)) }
{
    let bound = greatest_code(codes) as usize + 1;
    if slots.len() < bound {
        slots.resize(bound, 0)?;
    }
    Ok(())
}

// Writes a place at each of these rows.
fn mark(table: &mut [u32], rows: &[RowNo], place: u32)
    requires { All (λ row. row < length table.old) rows.now }
    ensures { (i : ℕ) → i < length table.new → slice_index table.new i ≡ cond (list_any (λ row. row == i) rows.now) place (slice_index table.old i) }
{
    for row in rows {
        table[row.number() as usize] = place;
    }
}

// By row number, the place of the group that has the row.
pub(crate) fn group_table(
    alloc: Global,
    rows: &[RowNo],
    ends: &[u32],
) -> Result<Vec<u32>, AllocError>
    requires { IsCut rows.now ends.now }
    ensures { IfOk result (λ table. IsTable (cut 0 rows.now ends.now) table.items) }
{
    let greatest = greatest_row(rows);
    let mut table = vec![in alloc; NO_PLACE; greatest + 1]?;
    mark_groups(&mut table, rows, ends);
    Ok(table)
}

// The greatest number of these rows, or 0.
fn greatest_row(rows: &[RowNo]) -> usize
    ensures bound { All (λ row. row ≤ result) rows.now }
    ensures small { result < 2 ^ 32 }
{
    rows.iter().map(|row| row.number()).max().unwrap_or(0) as usize
}

// Writes each group's place at its rows.
fn mark_groups(table: &mut [u32], rows: &[RowNo], ends: &[u32])
    requires cut { IsCut rows.now ends.now }
    requires within { All (λ row. row < length table.old) rows.now }
    requires none { All (λ place. place ≡ u32.MAX) table.old }
    ensures { IsTable (cut 0 rows.now ends.now) table.new }
{
    let mut start = 0;
    for (k, end) in ends.iter().enumerate() {
        let end = *end as usize;
        mark(table, &rows[start..end], k as u32);
        start = end;
    }
}

// The places of the groups that have these rows.
pub(crate) fn places_of(
    alloc: Global,
    table: &[u32],
    rows: &[RowNo],
) -> Result<Vec<u32>, AllocError>
    ensures { IfOk result (λ places. places.items ≡ map (λ row. slice_index_or table.now row (u32.MAX)) rows.now) }
{
    let mut places = Vec::with_capacity(alloc, rows.len())?;
    for row in rows {
        let i = row.number() as usize;
        places.push(if i < table.len() { table[i] } else { NO_PLACE })?;
    }
    Ok(places)
}

// A group's first row, and the first of its rows that differs from it in a column.
pub(crate) fn first_and_differing(
    group: &[RowNo],
    snapshot: &Snapshot,
    column: u8,
) -> Option<(RowNo, RowNo)>
    requires given { All (λ row. row < snapshot.now.to) group.now }
    requires column { column < length snapshot.now.codes }
    ensures { result ≡ option_map (λ j. (least group.now, j)) (find (differ snapshot.now column (least group.now)) group.now) }
{
    let (first, others) = group.split_first()?;
    let code = snapshot.code(*first, column);
    for row in others {
        if snapshot.code(*row, column) != code {
            return Some((*first, *row));
        }
    }
    None
}
