// The rows of tables, found before any of their text is made.
ghost use Rattle.std.specs.Prelude.{◌≡◌, ◌<◌, ◌^◌, ℕ, IfOk, map};
ghost use Rattle.std.specs.List.{All};
ghost use Rattle.col_set.specs.ColSet.{columns};
ghost use Rattle.rel_base.specs.declared.nulls.Nulls.TheVariants.{Equal};
ghost use Rattle.rel_base.specs.Projection.{part, projection};
ghost use Rattle.rel_base.specs.RowState.{next, row, width};
ghost use Rattle.rel_base.specs.Shows.{Shows};
ghost use Rattle.table_files.specs.Sheets.{IsSheet, table_behind};

use first_rows::first_rows;
use rayon::prelude::*;
use rel_base::{ColSet, RowNo, Snapshot, Table};
use row_log::RowLog;
use std::alloc::{AllocError, Global};
use std::thread::Threads;
use stripped_partition::Path;

// The most bytes that the files of a run may have together: 4 GiB, sixteen times the largest file that is read.
const MOST_BYTES: u64 = 1 << 32;

// The tables whose rows are found before it is looked at how many bytes they take.
const BLOCK: usize = 256;

// A table, its number, and the rows whose parts its file has.
#[derive(Drop)]
pub(crate) struct Sheet {
    pub(crate) rows: Vec<RowNo>,
    // So many bytes the cells of these rows take, with what stands behind each.
    pub(crate) bytes: u64,
    pub(crate) table: Table,
    pub(crate) number: u32,
}

// The rows of the file of a table with these columns and this key: of those with equal parts the first.
fn rows_of(
    alloc: Global,
    rows: &RowLog,
    snapshot: &Snapshot,
    columns: ColSet,
    key: ColSet,
) -> Result<Vec<RowNo>, AllocError>
    requires columns { columns < 2 ^ width rows.now }
    requires equal { rows.now.nulls ≡ Equal }
    requires shows { Shows snapshot.now rows.now }
    ensures given { IfOk result (λ found. All (λ number. number < next rows.now) found.items) }
    ensures parts { IfOk result (λ found. map (λ number. part columns (row rows.now number)) found.items ≡ projection rows.now columns) }
{
    // `names` is called for its clause that these are a row state.
    let _names = rows.names();
    // Rows that agree on the key agree on the table, so behind the key there is nothing to part.
    let order = columns_of(alloc, key)?;
    let mut path = Path::new(alloc, snapshot, order.as_slice())?;
    path.go_to(columns)?;
    let found = first_rows(alloc, snapshot, &path)?;
    Ok(found)
}

// The columns of a set, ascending.
pub(crate) fn columns_of(alloc: Global, set: ColSet) -> Result<Vec<u8>, AllocError>
    ensures list { IfOk result (λ list. list.items ≡ columns set) }
    ensures below { IfOk result (λ list. (n : ℕ) → set < 2 ^ n → All (λ column. column < n) list.items) }
{
    let list = listed(alloc, set)?;
    Ok(list)
}

fn listed(alloc: Global, set: ColSet) -> Result<Vec<u8>, AllocError>
    ensures { IfOk result (λ list. list.items ≡ columns set) }
{
    set.iter().collect(alloc)
}

// How many bytes the cells of a row take in these columns, with what stands behind each.
fn row_bytes(rows: &RowLog, number: RowNo, columns: &[u8]) -> u64
    requires given { number < next rows.now }
    requires columns { All (λ column. column < width rows.now) columns.now }
{
    let mut bytes: u64 = 0;
    for column in columns {
        bytes = bytes.saturating_add(rows.cell(number, *column).bytes().len() as u64 + 1);
    }
    bytes
}

// How many bytes those of all these rows take. Names of columns and marks of quotation are not counted.
fn bytes_of(
    alloc: Global,
    rows: &RowLog,
    numbers: &[RowNo],
    columns: ColSet,
) -> Result<u64, AllocError>
    requires given { All (λ number. number < next rows.now) numbers.now }
    requires columns { columns < 2 ^ width rows.now }
{
    let list = columns_of(alloc, columns)?;
    let mut bytes: u64 = 0;
    for number in numbers {
        bytes = bytes.saturating_add(row_bytes(rows, *number, list.as_slice()));
    }
    Ok(bytes)
}

// The sheet of a table.
fn sheet_of(
    alloc: Global,
    rows: &RowLog,
    snapshot: &Snapshot,
    number: u32,
    table: &Table,
) -> Result<Sheet, AllocError>
    requires columns { table.now.columns < 2 ^ width rows.now }
    requires equal { rows.now.nulls ≡ Equal }
    requires shows { Shows snapshot.now rows.now }
    ensures sheet { IfOk result (IsSheet rows.now) }
    ensures table { IfOk result (λ sheet. table_behind sheet ≡ (number, table.now)) }
{
    let found = rows_of(alloc, rows, snapshot, table.columns, table.key)?;
    let bytes = bytes_of(alloc, rows, found.as_slice(), table.columns)?;
    Ok(Sheet {
        rows: found,
        bytes,
        table: *table,
        number,
    })
}

// The sheets of these tables, by so many threads at most, each of which takes tables that stand side by side.
fn sheets_by<R: Threads + Sync>(
    rt: &R,
    alloc: Global,
    rows: &RowLog,
    snapshot: &Snapshot,
    numbered: &[(u32, Table)],
    workers: u8,
) -> Result<Vec<Sheet>, AllocError>
    requires columns { All (λ numbered. numbered.1.columns < 2 ^ width rows.now) numbered.now }
    requires equal { rows.now.nulls ≡ Equal }
    requires shows { Shows snapshot.now rows.now }
    ensures sheets { IfOk result (λ sheets. All (IsSheet rows.now) sheets.items) }
    ensures tables { IfOk result (λ sheets. map table_behind sheets.items ≡ numbered.now) }
{
    let share = numbered.len().div_ceil(workers.max(1) as usize);
    let made: Result<Vec<Sheet>, AllocError> = numbered
        .par_iter()
        .with_min_len(share)
        .map(
            move |numbered: &(u32, Table)| -> Result<Sheet, AllocError>
                requires columns { numbered.now.1.columns < 2 ^ width rows.now }
                requires equal { rows.now.nulls ≡ Equal }
                requires shows { Shows snapshot.now rows.now }
                ensures { IfOk result (λ sheet. IsSheet rows.entry.now sheet × (table_behind sheet ≡ numbered.now)) }
            {
                let sheet = sheet_of(alloc, rows, snapshot, numbered.0, &numbered.1)?;
                Ok(sheet)
            },
        )
        .collect(rt, alloc)?;
    made
}

// The bytes of sheets, together.
fn total(sheets: &[Sheet]) -> u64 {
    let mut bytes: u64 = 0;
    for sheet in sheets {
        bytes = bytes.saturating_add(sheet.bytes);
    }
    bytes
}

// The sheets of these tables, by so many threads at most. There is no memory for files that have more than this many bytes together, which
// is seen before the rows of all tables are found.
fn sheets_within<R: Threads + Sync>(
    rt: &R,
    alloc: Global,
    rows: &RowLog,
    numbered: &[(u32, Table)],
    workers: u8,
    most: u64,
) -> Result<Vec<Sheet>, AllocError>
    requires columns { All (λ numbered. numbered.1.columns < 2 ^ width rows.now) numbered.now }
    requires equal { rows.now.nulls ≡ Equal }
    ensures sheets { IfOk result (λ sheets. All (IsSheet rows.now) sheets.items) }
    ensures tables { IfOk result (λ sheets. map table_behind sheets.items ≡ numbered.now) }
{
    let snapshot = rows.snapshot(alloc)?;
    let mut sheets = Vec::new(alloc);
    let mut bytes: u64 = 0;
    let mut rest = numbered;
    while !rest.is_empty() {
        let (block, later) = rest.split_at(rest.len().min(BLOCK));
        let mut more = sheets_by(rt, alloc, rows, &snapshot, block, workers)?;
        bytes = bytes.saturating_add(total(&more));
        if bytes > most {
            return Err(AllocError);
        }
        sheets.append(&mut more)?;
        rest = later;
    }
    Ok(sheets)
}

// The sheets of these tables, by so many threads at most.
pub(crate) fn sheets_of<R: Threads + Sync>(
    rt: &R,
    alloc: Global,
    rows: &RowLog,
    numbered: &[(u32, Table)],
    workers: u8,
) -> Result<Vec<Sheet>, AllocError>
    requires columns { All (λ numbered. numbered.1.columns < 2 ^ width rows.now) numbered.now }
    requires equal { rows.now.nulls ≡ Equal }
    ensures sheets { IfOk result (λ sheets. All (IsSheet rows.now) sheets.items) }
    ensures tables { IfOk result (λ sheets. map table_behind sheets.items ≡ numbered.now) }
{
    sheets_within(rt, alloc, rows, numbered, workers, MOST_BYTES)
}
