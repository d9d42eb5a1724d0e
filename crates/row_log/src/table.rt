// The columns and the flags of the live rows.
ghost use Rattle.std.specs.Prelude.{◌≡◌, ◌≢◌, ◌<◌, ◌≤◌, ◌+◌, ◌^◌, ◌∷◌, [], ◌++◌, ℕ, true, OnOk, OnErr, IfOk, length, map, take, slice_index_or, vec_len, vec_capacity};
ghost use Rattle.std.specs.List.{All};
ghost use Rattle.rel_base.specs.Agreement.{agree};
ghost use Rattle.rel_base.specs.PackedOps as packed;
ghost use Rattle.row_log.specs.Column.{AreCodes};
ghost use Rattle.row_log.specs.Live.{AreMarked, marked_at};
ghost use Rattle.row_log.specs.Table.{row_at, HasRow, column_at, coded_cells};
ghost use denote.Param.Send.{IsSync};

use crate::column::Column;
use crate::live::MarkedCells;
use agree_sets::agree_codes;
use rel_base::{
    Batch, COLUMN_PLACES, Cells, Codes, ColSet, MOST_COLUMNS, MOST_ROWS, Nulls, RowPlace,
};
use std::alloc::{AllocError, Global};
use std::thread::{Threads, join};

// So many cells of a column are looked at to tell how long it takes.
const SAMPLE: usize = 256;

// A cell takes as long as so many bytes, where the dictionary has it and where it is new.
const KNOWN_CELL: u64 = 8;

const NEW_CELL: u64 = 64;

/// Columns of these cells, made by so many workers at most: one is the thread of the caller and no other.
///
/// Each worker takes columns that stand side by side and have about as much to be coded as those of another.
pub fn columns_by<R: Threads + Sync>(
    rt: &R,
    alloc: Global,
    nulls: Nulls,
    cells: Vec<Cells>,
    workers: u8,
) -> Result<Vec<Column>, AllocError>
    requires { All (λ each. length each ≤ MOST_ROWS) cells.items }
    ensures { IfOk result (λ columns. columns.items ≡ map (coded_cells nulls) cells.items) }
{
    if workers < 2 {
        return columns_of(alloc, nulls, cells);
    }
    let few = workers / 2;
    let others = workers - few;
    let mut cells = cells;
    let later = cells.split_off(middle(alloc, &cells))?;
    let (first, second) = join(
        rt,
        move || -> Result<Vec<Column>, AllocError>
            requires { IsSync R.row × All (λ each. length each ≤ MOST_ROWS) cells.items }
            ensures { IfOk result (λ columns. columns.items ≡ map (coded_cells nulls) cells.items) }
        { columns_by(rt, alloc, nulls, cells, few) },
        move || -> Result<Vec<Column>, AllocError>
            requires { IsSync R.row × All (λ each. length each ≤ MOST_ROWS) later.items }
            ensures { IfOk result (λ columns. columns.items ≡ map (coded_cells nulls) later.items) }
        { columns_by(rt, alloc, nulls, later, others) },
    );
    let mut columns = first?;
    let mut others = second?;
    columns.append(&mut others)?;
    Ok(columns)
}

// The place at which the columns before it have about as much to be coded as the others.
fn middle(alloc: Global, cells: &[Cells]) -> usize
    ensures { result ≤ length cells.now }
{
    let whole = cells
        .iter()
        .fold(0u64, |sum, each| sum.saturating_add(weight(alloc, each)));
    let mut left = whole / 2;
    for (place, each) in cells.iter().enumerate() {
        let own = weight(alloc, each);
        if left <= own / 2 {
            return place;
        }
        left = left.saturating_sub(own);
    }
    cells.len()
}

// How long a column takes to be coded, as it seems, in the time of a byte: where no two cells of a sample are equal most cells are new to
// the dictionary, which keeps a copy of each.
fn weight(alloc: Global, cells: &Cells) -> u64 {
    let each = if has_doubles(alloc, cells) {
        KNOWN_CELL
    } else {
        NEW_CELL
    };
    (cells.size() as u64).saturating_add((cells.len() as u64).saturating_mul(each))
}

// Whether two of some cells that are spread over the column are equal. Where memory is wanting it seems so.
fn has_doubles(alloc: Global, cells: &Cells) -> bool {
    let step = cells.len().div_ceil(SAMPLE);
    let mut sample: Vec<&[u8]> = Vec::new(alloc);
    for turn in 0..SAMPLE {
        let place = step.saturating_mul(turn);
        if place < cells.len() && sample.push(cells.get(place)).is_err() {
            return true;
        }
    }
    sample.sort_unstable();
    let mut last: Option<&[u8]> = None;
    for cell in &sample {
        if last == Some(*cell) {
            return true;
        }
        last = Some(*cell);
    }
    false
}

/// Columns of these cells, each of which are let go as soon as they are coded, so that their memory serves the dictionaries.
pub fn columns_of(alloc: Global, nulls: Nulls, cells: Vec<Cells>) -> Result<Vec<Column>, AllocError>
    requires { All (λ each. length each ≤ MOST_ROWS) cells.items }
    ensures { IfOk result (λ columns. columns.items ≡ map (coded_cells nulls) cells.items) }
{
    let mut columns = Vec::with_capacity(alloc, cells.len())?;
    for each in cells {
        columns.push(column_of(alloc, nulls, each)?)?;
    }
    Ok(columns)
}

// The column of these cells, with the lists that snapshots share.
fn column_of(alloc: Global, nulls: Nulls, cells: Cells) -> Result<Column, AllocError>
    requires { length cells ≤ MOST_ROWS }
    ensures { IfOk result (λ column. column ≡ coded_cells nulls cells) }
{
    let mut column = Column::with_room(alloc, nulls, cells.len())?;
    column.extend(&cells)?;
    column.share(alloc);
    Ok(column)
}

/// Codes the cells of one more row, which a batch keeps. After want of memory the columns, of so many rows, are as before.
pub fn push_row(
    columns: &mut [Column],
    rows: usize,
    batch: &Batch,
    row: RowPlace,
) -> Result<(), AllocError>
    requires wide { length (packed.row_at (packed.cells_of batch.now) row) ≡ length columns.old }
    requires even { All (λ c. length c.cells ≡ rows) columns.old }
    requires room { rows < MOST_ROWS }
    ensures pushed { OnOk result (HasRow columns.old (packed.row_at (packed.cells_of batch.now) row) columns.new) }
    ensures refused { OnErr result (columns.new ≡ columns.old) }
{
    for place in 0..columns.len() {
        if let Err(refused) = columns[place].push(batch.cell(row, place)) {
            truncate_rows(columns, rows);
            return Err(refused);
        }
    }
    Ok(())
}

/// Drops the rows from this place on.
pub fn truncate_rows(columns: &mut [Column], rows: usize)
    ensures { columns.new ≡ map (λ c. record { nulls = c.nulls; cells = take rows c.cells }) columns.old }
{
    for column in columns.iter_mut() {
        column.truncate(rows);
    }
}

/// The columns in which the rows at these places agree.
pub fn agreement(columns: &[Column], nulls: Nulls, i: usize, j: usize) -> ColSet
    requires narrow { length columns.now ≤ MOST_COLUMNS }
    requires read { All (λ c. c.nulls ≡ nulls) columns.now }
    requires first { All (λ c. i < length c.cells) columns.now }
    requires second { All (λ c. j < length c.cells) columns.now }
    requires apart { i ≢ j }
    ensures { result ≡ agree nulls (length columns.now) (row_at columns.now i) (row_at columns.now j) }
{
    let mut first = [0; COLUMN_PLACES];
    let mut second = [0; COLUMN_PLACES];
    for (place, column) in columns.iter().enumerate() {
        let (one, other) = column.pair(i, j);
        first[place] = one;
        second[place] = other;
    }
    agree_codes(&first[..columns.len()], &second[..columns.len()])
}

/// The codes of each column, for a snapshot.
pub fn handed_codes(alloc: Global, columns: &[Column]) -> Result<Vec<Codes>, AllocError>
    ensures long { IfOk result (λ codes. length codes.items ≡ length columns.now) }
    ensures each { IfOk result (λ codes. (j : ℕ) → j < length columns.now → AreCodes (column_at columns.now j) (slice_index_or codes.items j [])) }
{
    let mut codes = Vec::with_capacity(alloc, columns.len())?;
    for column in columns {
        codes.push(column.handed(alloc)?)?;
    }
    Ok(codes)
}

/// The cells that flagged rows have in each column.
pub fn marked_columns<'a>(
    alloc: Global,
    columns: &'a [Column],
    flags: &[bool],
) -> Result<Vec<MarkedCells<'a>>, AllocError>
    requires { All (λ c. length c.cells ≡ length flags.now) columns.now }
    ensures long { IfOk result (λ marked. length marked.items ≡ length columns.now) }
    ensures each { IfOk result (λ marked. (j : ℕ) → j < length columns.now → AreMarked (column_at columns.now j).cells flags.now (marked_at marked.items j)) }
{
    let mut marked = Vec::with_capacity(alloc, columns.len())?;
    for column in columns {
        marked.push(column.marked(alloc, flags)?)?;
    }
    Ok(marked)
}

/// Puts the codes that came since into the lists that snapshots share, where they are many.
pub fn share_codes(alloc: Global, columns: &mut Vec<Column>)
    ensures { columns.new.items ≡ columns.old.items }
{
    for place in 0..columns.len() {
        columns[place].share(alloc);
    }
}

/// Appends the flag of a live row to a list that has room.
pub fn append_live(flags: &mut Vec<bool>)
    requires { vec_len flags.old < vec_capacity flags.old }
    ensures { flags.new.items ≡ flags.old.items ++ true ∷ [] }
{
    let _ = flags.push(true);
}
