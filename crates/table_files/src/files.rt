// The files of tables.
ghost use Rattle.std.specs.Prelude.{◌≡◌, ◌<◌, ◌^◌, map, IfOk};
ghost use Rattle.std.specs.List.{All, enumerate_from};
ghost use Rattle.rel_base.specs.declared.nulls.Nulls.TheVariants.{Equal};
ghost use Rattle.rel_base.specs.RowState.{width};
ghost use Rattle.table_files.specs.Files as words;
ghost use Rattle.table_files.specs.Sheets.{IsSheet, table_behind};

use crate::numbers::numbered;
use crate::sheets::{Sheet, sheets_of};
use crate::text::text_of;
use ports::Text;
use rayon::prelude::*;
use rel_base::{Name, Table};
use row_log::RowLog;
use std::alloc::{AllocError, Global};
use std::thread::Threads;

/// The files of tables, which are numbered from 1: of each the names of its columns, and then the distinct parts that the rows have in
/// them, first seen first.
///
/// The rows of a table are found by codes, by the groups of rows that agree on its key and then on its other columns; no cell is hashed,
/// and where the table has a key of all rows each row stands for itself. The text is written from the cells that the codes stand for. So
/// many workers at most do this beside each other, each for tables that stand side by side.
///
/// The bytes of all files are added up before any text is made, names and marks of quotation aside: where they are more than 4 GiB,
/// `AllocError` comes at once. Beside the texts it takes 4 bytes for each of their lines.
pub fn files_of<R: Threads + Sync>(
    rt: &R,
    alloc: Global,
    workers: u8,
    prefix: &Name,
    rows: &RowLog,
    tables: &[Table],
) -> Result<Vec<(Name, Text)>, AllocError>
    requires columns { All (λ table. table.columns < 2 ^ width rows.now) tables.now }
    requires equal { rows.now.nulls ≡ Equal }
    ensures { IfOk result (λ files. files.items ≡ map (words.table_file prefix.now rows.now) (enumerate_from 1 tables.now)) }
{
    let numbered = numbered(alloc, tables)?;
    let sheets = sheets_of(rt, alloc, rows, numbered.as_slice(), workers)?;
    let files = files_by(rt, alloc, workers, prefix, rows, sheets.as_slice())?;
    Ok(files)
}

// The name of the file of the table with this number.
fn table_name(alloc: Global, prefix: &Name, number: u32) -> Result<Name, AllocError>
    ensures { IfOk result (λ name. name ≡ words.table_name prefix.now number) }
{
    let prefix = prefix.as_str();
    Ok(Name::of(format!(in alloc; "{prefix}{number}.csv")?))
}

// The file of a sheet.
fn file_of(
    alloc: Global,
    prefix: &Name,
    rows: &RowLog,
    sheet: &Sheet,
) -> Result<(Name, Text), AllocError>
    requires { IsSheet rows.now sheet.now }
    ensures { IfOk result (λ file. file ≡ words.table_file prefix.now rows.now (table_behind sheet.now)) }
{
    let name = table_name(alloc, prefix, sheet.number)?;
    let room = sheet.bytes as usize;
    let text = text_of(
        alloc,
        rows,
        sheet.rows.as_slice(),
        sheet.table.columns,
        room,
    )?;
    Ok((name, Text::of(text)))
}

// The files of sheets, by so many threads at most, each of which takes sheets that stand side by side.
fn files_by<R: Threads + Sync>(
    rt: &R,
    alloc: Global,
    workers: u8,
    prefix: &Name,
    rows: &RowLog,
    sheets: &[Sheet],
) -> Result<Vec<(Name, Text)>, AllocError>
    requires { All (IsSheet rows.now) sheets.now }
    ensures { IfOk result (λ files. files.items ≡ map (λ sheet. words.table_file prefix.now rows.now (table_behind sheet)) sheets.now) }
{
    let share = sheets.len().div_ceil(workers.max(1) as usize);
    let made: Result<Vec<(Name, Text)>, AllocError> = sheets
        .par_iter()
        .with_min_len(share)
        .map(
            move |sheet: &Sheet| -> Result<(Name, Text), AllocError>
                requires { IsSheet rows.now sheet.now }
                ensures { IfOk result (λ file. file ≡ words.table_file prefix.entry.now rows.entry.now (table_behind sheet.now)) }
            {
                let file = file_of(alloc, prefix, rows, sheet)?;
                Ok(file)
            },
        )
        .collect(rt, alloc)?;
    made
}
