// The columns of relations, as they are kept to find the inclusions among them.
ghost use Rattle.std.specs.Prelude.{◌≡◌, ◌<◌, ◌++◌, ◌∷◌, ℕ, List, [], length, map, IfOk, OnOk};
ghost use Rattle.std.specs.List.{All, AllZip};
ghost use Rattle.col_set.specs.ColSet.{upto};
ghost use denote.Param.Send.{IsSync};
ghost use Rattle.rel_base.specs.Inclusion.{all_columns, inclusions};
ghost use Rattle.rel_base.specs.Cells.{Cell};
ghost use Rattle.rel_base.specs.RowState.{RowState, width};
ghost use Rattle.row_log.specs.Distinct.{AreDistinctCells};
ghost use Rattle.profile_text.specs.Columns.{AreColumnsOf};
ghost use Rattle.profile_text.specs.Reports.{inclusion_lines};

use inclusion_merge::included;
use rel_base::Row;
use report_text::Lines;
use row_log::RowLog;
use std::alloc::{AllocError, Global};
use std::thread::{Threads, join};

/// The columns of relations, one relation after another: of each the cells of live rows that are not NULL, each once.
///
/// It is what has to be kept of a relation to find the inclusions among its columns and those of others.
#[derive(Drop)]
pub struct Columns {
    widths: Vec<u8>,
    cells: Vec<Row>,
}

// The numbers from 0 on, so many.
fn numbers_below(alloc: Global, count: u8) -> Result<Vec<u8>, AllocError>
    ensures { IfOk result (λ numbers. numbers.items ≡ upto count) }
{
    let mut numbers = Vec::with_capacity(alloc, count as usize)?;
    for number in 0..count {
        numbers.push(number)?;
    }
    Ok(numbers)
}

// The distinct cells of each of these columns.
fn distinct_each(alloc: Global, rows: &RowLog, columns: &[u8]) -> Result<Vec<Row>, AllocError>
    requires { All (λ column. column < width rows.now) columns.now }
    ensures { IfOk result (λ found. AllZip (AreDistinctCells rows.now) columns.now found.items) }
{
    let mut found = Vec::with_capacity(alloc, columns.len())?;
    for column in columns {
        found.push(rows.distinct_cells(alloc, *column)?)?;
    }
    Ok(found)
}

// The distinct cells of each of these columns, by so many threads at most, each of which takes columns that stand side by side.
fn distinct_by<R: Threads + Sync>(
    rt: &R,
    alloc: Global,
    rows: &RowLog,
    columns: &[u8],
    workers: u8,
) -> Result<Vec<Row>, AllocError>
    requires { All (λ column. column < width rows.now) columns.now }
    ensures { IfOk result (λ found. AllZip (AreDistinctCells rows.now) columns.now found.items) }
{
    if workers < 2 || columns.len() < 2 {
        return distinct_each(alloc, rows, columns);
    }
    let (first, second) = columns.split_at(columns.len() / 2);
    let few = workers / 2;
    let others = workers - few;
    let (one, other) = join(
        rt,
        move || -> Result<Vec<Row>, AllocError>
            requires { IsSync R.row × All (λ column. column < width rows.now) first.now }
            ensures { IfOk result (λ found. AllZip (AreDistinctCells rows.entry.now) first.entry.now found.items) }
        { distinct_by(rt, alloc, rows, first, few) },
        move || -> Result<Vec<Row>, AllocError>
            requires { IsSync R.row × All (λ column. column < width rows.now) second.now }
            ensures { IfOk result (λ found. AllZip (AreDistinctCells rows.entry.now) second.entry.now found.items) }
        { distinct_by(rt, alloc, rows, second, others) },
    );
    let mut found = one?;
    let mut more = other?;
    found.append(&mut more)?;
    Ok(found)
}

impl Columns {
    /// The columns of no relation.
    pub fn new(alloc: Global) -> Columns
        ensures { AreColumnsOf [] result.widths.items result.cells.items }
    {
        Columns {
            widths: Vec::new(alloc),
            cells: Vec::new(alloc),
        }
    }

    /// Adds the columns of one more relation, as its rows are now. Their cells are copied by so many workers at most.
    pub fn push<R: Threads + Sync>(
        &mut self,
        rt: &R,
        alloc: Global,
        rows: &RowLog,
        workers: u8,
    ) -> Result<(), AllocError>
        ensures { OnOk result ((states : List RowState) → AreColumnsOf states self.old.widths.items self.old.cells.items
            → AreColumnsOf (states ++ rows.now ∷ []) self.new.widths.items self.new.cells.items) }
    {
        let width = rows.names().len() as u8;
        let numbers = numbers_below(alloc, width)?;
        let mut cells = distinct_by(rt, alloc, rows, &numbers, workers)?;
        self.cells.append(&mut cells)?;
        self.widths.push(width)?;
        Ok(())
    }

    /// How many inclusions there are among these columns, found by so many workers at most.
    pub fn count_inclusions<R: Threads + Sync>(
        &self,
        rt: &R,
        alloc: Global,
        workers: u8,
    ) -> Result<u64, AllocError>
        ensures { IfOk result (λ count. (states : List RowState) → AreColumnsOf states self.now.widths.items self.now.cells.items
            → count ≡ length (inclusions (all_columns states))) }
    {
        Ok(included(rt, alloc, &self.cells, workers)?.len() as u64)
    }

    /// Adds the lines of all inclusions among these columns, found by so many workers at most. Relations are numbered from 1, in the order in which they were added.
    pub fn push_inclusions<R: Threads + Sync>(
        &self,
        rt: &R,
        alloc: Global,
        workers: u8,
        lines: &mut Lines,
    ) -> Result<(), AllocError>
        requires { (states : List RowState) × AreColumnsOf states self.now.widths.items self.now.cells.items }
        ensures { OnOk result ((states : List RowState) → AreColumnsOf states self.now.widths.items self.now.cells.items
            → lines.new ≡ lines.old ++ inclusion_lines states) }
    {
        let pairs = included(rt, alloc, &self.cells, workers)?;
        lines.push_inclusions(&self.widths, &pairs)
    }
}
