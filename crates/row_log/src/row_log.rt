// Rows that come and go under numbers that are never given twice, coded column by column.
ghost use Rattle.std.specs.Prelude.{◌≡◌, ◌≢◌, ◌<◌, ℕ, List, true, false, IfOk, OnOk, OnErr, length, take};
ghost use Rattle.std.specs.List.{All};
ghost use Rattle.rel_base.specs.Cells.{Cell, cell};
ghost use Rattle.rel_base.specs.Relation.{IsContent};
ghost use Rattle.rel_base.specs.RowState.{RowState, IsRowState, opened, width, next, row};
ghost use Rattle.rel_base.specs.Validity.{agree_of};
ghost use Rattle.rel_base.specs.Batches.{is_live, is_full, inserted, deleted, applied};
ghost use Rattle.rel_base.specs.Batches.{IsAsWide};
ghost use Rattle.rel_base.specs.PackedOps.{cells_of, row_at, op_at, place_of, IsCursor};
ghost use Rattle.rel_base.specs.Shows.{Shows};
ghost use Rattle.rel_base.specs.declared.batch.Op.TheVariants.{Insert, Delete, Update};
ghost use Rattle.row_log.specs.Distinct.{AreDistinctCells};
ghost use Rattle.row_log.specs.Table.{AreCodedRows};
ghost use Rattle.row_log.specs.Applying.{Answers, Outcome, IsBefore, LeadsFrom, IsFrom, CameLast, IsEnded};

use crate::applying::{Applying, Halt};
use crate::column::Column;
use crate::live::LiveCells;
use crate::table::{
    agreement, append_live, columns_by, columns_of, handed_codes, marked_columns, push_row,
    share_codes, truncate_rows,
};
use column_dict::Text;
use rel_base::{
    Batch, Change, ColSet, Cursor, Limits, Nulls, Relation, Row, RowNo, RowPlace, Snapshot, Why,
};
use std::alloc::{AllocError, Global};
use std::marker::Model;
use std::sync::Arc;
use std::thread::Threads;

/// The rows of a relation under batches (DynFD, Schirmer and others, 2019).
///
/// Contracts see a row state: all rows ever given and the numbers of the live ones. Numbers are given in order and never used twice.
/// Rows are kept by column, as codes: 4 bytes a cell, one byte a row, and each distinct cell of a column once.
#[derive(Drop)]
pub struct RowLog {
    names: Row,
    columns: Vec<Column>,
    live: Vec<bool>,
    live_len: u32,
    limit: u32,
    nulls: Nulls,
    alloc: Global,
}

impl Model for RowLog {
    ghost use Rattle.std.specs.Prelude.{length};
    ghost use Rattle.rel_base.specs.RowState.{RowState};
    ghost use Rattle.row_log.specs.Table.{rows_of, live_of, IsLog};

    ghost Value = { RowState };

    ghost view = { λ l. record { names = l.names; nulls = l.nulls; limit = l.limit; given = rows_of l.columns.items (length l.live.items); live = live_of l.live.items } };

    ghost invariant = { λ l. IsLog (length l.names) l.nulls l.limit l.columns.items l.live.items l.live_len };
}

impl RowLog {
    ghost use Rattle.rel_base.specs.declared.nulls.Nulls.TheVariants.{Equal};

    /// The rows of a relation, all live, where NULL equals NULL.
    pub fn open(alloc: Global, relation: Relation, limits: Limits) -> Result<RowLog, AllocError>
        ensures { IfOk result (λ log. log ≡ opened Equal limits.rows relation) }
    {
        RowLog::open_with(alloc, relation, limits, Nulls::Equal)
    }

    /// The rows of a relation, all live, with this reading of NULL.
    ///
    /// The relation is coded column by column, which takes a step a cell. Each column's cells are let go as soon as they are coded, so that
    /// their memory serves the dictionaries. Where the relation has more rows than the limit, it is taken as it is, and no row can come.
    pub fn open_with(
        alloc: Global,
        relation: Relation,
        limits: Limits,
        nulls: Nulls,
    ) -> Result<RowLog, AllocError>
        ensures { IfOk result (λ log. log ≡ opened nulls limits.rows relation) }
    {
        let count = relation.len();
        let (names, cells) = relation.into_columns();
        let columns = columns_of(alloc, nulls, cells)?;
        RowLog::coded(alloc, names, count, columns, limits, nulls)
    }

    /// The rows of a relation as `open_with` has them, whose columns are coded beside each other by so many workers at most. One worker
    /// is the thread of the caller and no other. The codes are the same, however many there are.
    pub fn open_by<R: Threads + Sync>(
        rt: &R,
        alloc: Global,
        relation: Relation,
        limits: Limits,
        nulls: Nulls,
        workers: u8,
    ) -> Result<RowLog, AllocError>
        ensures { IfOk result (λ log. log ≡ opened nulls limits.rows relation) }
    {
        let count = relation.len();
        let (names, cells) = relation.into_columns();
        let columns = columns_by(rt, alloc, nulls, cells, workers)?;
        RowLog::coded(alloc, names, count, columns, limits, nulls)
    }

    // The log of so many rows, all live, whose columns these are.
    fn coded(
        alloc: Global,
        names: Row,
        count: usize,
        columns: Vec<Column>,
        limits: Limits,
        nulls: Nulls,
    ) -> Result<RowLog, AllocError>
        requires { (rows : List (List (List ℕ))) × AreCodedRows names nulls rows count columns.items }
        ensures { IfOk result (λ log. (rows : List (List (List ℕ))) → AreCodedRows names nulls rows count columns.items → log ≡ opened nulls limits.rows (record { names = names; rows = rows })) }
    {
        let live = vec![in alloc; true; count]?;
        Ok(RowLog {
            names,
            columns,
            live_len: live.len() as u32,
            live,
            limit: limits.rows,
            nulls,
            alloc,
        })
    }

    /// The names of the columns.
    pub fn names(&self) -> &Row
        ensures value { result.now ≡ self.now.names }
        ensures state { IsRowState self.now }
    {
        &self.names
    }

    /// How NULL is read.
    pub fn nulls(&self) -> Nulls
        ensures { result ≡ self.now.nulls }
    {
        self.nulls
    }

    /// The greatest row number that is given.
    pub fn limit(&self) -> u32
        ensures { result ≡ self.now.limit }
    {
        self.limit
    }

    /// The number that the next row gets, at most 1,000,001.
    pub fn next(&self) -> RowNo
        ensures value { result ≡ next self.now }
        ensures state { IsRowState self.now }
    {
        RowNo::of(self.live.len() as u32 + 1)
    }

    /// How many rows are live.
    pub fn live_len(&self) -> u32
        ensures value { result ≡ length self.now.live }
        ensures few { result < next self.now }
        ensures state { IsRowState self.now }
    {
        self.live_len
    }

    /// Whether the row is live: one that was never given is not.
    pub fn is_live(&self, number: RowNo) -> bool
        ensures value { result ≡ is_live self.now number }
        ensures given { result ≡ true → number < next self.now }
    {
        let place = (number.number() - 1) as usize;
        place < self.live.len() && self.live[place]
    }

    /// The columns in which two rows agree. It takes a step a column.
    pub fn agree(&self, i: RowNo, j: RowNo) -> ColSet
        requires first { i < next self.now }
        requires second { j < next self.now }
        requires apart { i ≢ j }
        ensures { result ≡ agree_of self.now i j }
    {
        agreement(
            &self.columns,
            self.nulls,
            (i.number() - 1) as usize,
            (j.number() - 1) as usize,
        )
    }

    /// The cell of a row in a column, counted from 0. Rows that are no longer live keep theirs.
    pub fn cell(&self, number: RowNo, column: u8) -> &Text
        requires given { number < next self.now }
        requires column { column < width self.now }
        ensures { result.now ≡ cell (row self.now number) column }
    {
        self.columns[column as usize].cell((number.number() - 1) as usize)
    }

    /// The cells that live rows have in a column, each once, NULL aside, in no order that is told.
    ///
    /// It takes a step a row and a distinct cell, and copies each distinct cell once.
    pub fn distinct_cells(&self, alloc: Global, column: u8) -> Result<Row, AllocError>
        requires { column < width self.now }
        ensures { IfOk result (λ cells. AreDistinctCells self.now column cells) }
    {
        self.columns[column as usize].flagged_cells(alloc, &self.live)
    }

    /// The cells that live rows have in each column, where they stand, to tell which columns are included in which.
    ///
    /// For each column it takes a byte a distinct cell, and a step a row until all its codes were met: where some cell is that of no live
    /// row, a step for each row ever given.
    pub fn live_cells<'a>(&'a self, alloc: Global) -> Result<LiveCells<'a>, AllocError>
        ensures { IfOk result (λ live. live ≡ self.now) }
    {
        let columns = marked_columns(alloc, &self.columns, &self.live)?;
        Ok(LiveCells {
            rows: self,
            columns,
        })
    }

    /// The rows at this moment, as codes.
    ///
    /// It shares the codes of older rows with the log and with other snapshots, and copies those of the last rows that came, a
    /// thousand a column at most, and a byte for each row that was ever given.
    pub fn snapshot(&self, alloc: Global) -> Result<Arc<Snapshot>, AllocError>
        ensures { IfOk result (λ snapshot. Shows snapshot.value self.now) }
    {
        let codes = handed_codes(alloc, &self.columns)?;
        let live = Vec::from_slice(alloc, &self.live)?;
        let snapshot = Snapshot::counted(codes, live, self.next(), self.live_len);
        Ok(Arc::new(alloc, snapshot)?)
    }

    /// Applies a batch, all of it or nothing.
    ///
    /// The operations are applied one after another. Where one fails or memory runs out, those before it are taken back, newest first,
    /// and so are the codes of their cells. It takes a step a cell of the batch, whatever the relation has, and once in a thousand rows
    /// that come a step a row for each column, to put their codes where snapshots share them.
    pub fn apply(&mut self, batch: &Batch) -> Applying
        requires { All (IsAsWide (width self.old)) batch.now }
        ensures { Answers self.old batch.now self.new result }
    {
        let answer = self.apply_all(batch);
        self.share();
        answer
    }

    // Applies a batch, and leaves the new codes beside those that snapshots share.
    fn apply_all(&mut self, batch: &Batch) -> Applying
        requires { All (IsAsWide (width self.old)) batch.now }
        ensures { Answers self.old batch.now self.new result }
    {
        let next = self.next().number();
        let live = self.live_len();
        let mut cursor = Cursor::start();
        for k in 0..batch.len() {
            if let Err(halt) = self.apply_one(batch, batch.change(cursor)) {
                self.take_back(batch, cursor);
                return halt.at(k);
            }
            cursor = batch.next(cursor);
        }
        let inserted = self.next().number() - next;
        Applying::Applied {
            inserted,
            deleted: live + inserted - self.live_len(),
        }
    }

    // Puts new codes where snapshots share them, if there are many.
    fn share(&mut self)
        ensures { self.new ≡ self.old }
    {
        share_codes(self.alloc, &mut self.columns);
    }

    /// Takes back the batch that was applied last: the row state before it stands again.
    ///
    /// It takes a step a cell of the batch, and no memory.
    pub fn undo(&mut self, batch: &Batch)
        requires { (r : RowState) × IsBefore batch.now self.old r }
        ensures { (r : RowState) → IsBefore batch.now self.old r → self.new ≡ r }
    {
        self.take_back(batch, batch.end());
    }

    // Applies one operation, or changes nothing.
    fn apply_one(&mut self, batch: &Batch, change: Change) -> Result<(), Halt>
        requires { IsAsWide (width self.old) (op_at (cells_of batch.now) change) }
        ensures { Outcome self.old (applied self.old (op_at (cells_of batch.now) change)) self.new result }
    {
        match change {
            Change::Insert(row) => self.insert(batch, row),
            Change::Delete(number) => self.delete(number),
            Change::Update(number, row) => self.update(number, batch, row),
        }
    }

    fn insert(&mut self, batch: &Batch, row: RowPlace) -> Result<(), Halt>
        requires { length (row_at (cells_of batch.now) row) ≡ width self.old }
        ensures { Outcome self.old (applied self.old (Insert (row_at (cells_of batch.now) row))) self.new result }
    {
        if self.is_full() {
            return Err(Halt::Failed(Why::Rows));
        }
        match self.push(batch, row) {
            Ok(()) => Ok(()),
            Err(_) => Err(Halt::Starved),
        }
    }

    fn delete(&mut self, number: RowNo) -> Result<(), Halt>
        ensures { Outcome self.old (applied self.old (Delete number)) self.new result }
    {
        if !self.is_live(number) {
            return Err(Halt::Failed(Why::Missing));
        }
        self.end(number);
        Ok(())
    }

    // The new row comes first, which is the step that can want memory.
    fn update(&mut self, number: RowNo, batch: &Batch, row: RowPlace) -> Result<(), Halt>
        requires { length (row_at (cells_of batch.now) row) ≡ width self.old }
        ensures { Outcome self.old (applied self.old (Update number (row_at (cells_of batch.now) row))) self.new result }
    {
        if !self.is_live(number) {
            return Err(Halt::Failed(Why::Missing));
        }
        self.insert(batch, row)?;
        self.end(number);
        Ok(())
    }

    // Whether no number is left.
    fn is_full(&self) -> bool
        ensures { result ≡ is_full self.now }
    {
        self.live.len() >= self.limit as usize
    }

    // A row with the next number comes.
    fn push(&mut self, batch: &Batch, row: RowPlace) -> Result<(), AllocError>
        requires wide { length (row_at (cells_of batch.now) row) ≡ width self.old }
        requires room { is_full self.old ≡ false }
        ensures pushed { OnOk result (self.new ≡ inserted self.old (row_at (cells_of batch.now) row)) }
        ensures refused { OnErr result (self.new ≡ self.old) }
    {
        self.live.reserve(1)?;
        push_row(&mut self.columns, self.live.len(), batch, row)?;
        append_live(&mut self.live);
        self.live_len += 1;
        Ok(())
    }

    // A live row ends.
    fn end(&mut self, number: RowNo)
        requires { is_live self.old number ≡ true }
        ensures { self.new ≡ deleted self.old number }
    {
        self.live[(number.number() - 1) as usize] = false;
        self.live_len -= 1;
    }

    // Takes back the operations of a batch before a place, which were applied, the last one first.
    fn take_back(&mut self, batch: &Batch, end: Cursor)
        requires cursor { IsCursor batch.now end }
        requires led { (r : RowState) × LeadsFrom (take (place_of end) batch.now) self.old r }
        ensures { (r : RowState) → LeadsFrom (take (place_of end) batch.now) self.old r → self.new ≡ r }
    {
        let mut cursor = end;
        while cursor.place() > 0 {
            cursor = batch.previous(cursor);
            self.take_back_one(batch.change(cursor));
        }
    }

    // Takes back the operation that was applied last, whatever the cells of its row.
    fn take_back_one(&mut self, change: Change)
        requires { (cells : List Cell) × (r : RowState) × IsFrom (op_at cells change) self.old r }
        ensures { (cells : List Cell) (r : RowState) → IsFrom (op_at cells change) self.old r → self.new ≡ r }
    {
        match change {
            Change::Insert(_) => self.pop(),
            Change::Delete(number) => self.revive(number),
            Change::Update(number, _) => {
                self.pop();
                self.revive(number);
            }
        }
    }

    // The row that came last goes, and its number is free again.
    fn pop(&mut self)
        requires { (r : RowState) × CameLast self.old r }
        ensures { (r : RowState) → CameLast self.old r → self.new ≡ r }
    {
        let rows = self.live.len() - 1;
        truncate_rows(&mut self.columns, rows);
        self.live.truncate(rows);
        self.live_len -= 1;
    }

    // The row that ended last is live again.
    fn revive(&mut self, number: RowNo)
        requires { (r : RowState) × IsEnded r number self.old }
        ensures { (r : RowState) → IsEnded r number self.old → self.new ≡ r }
    {
        self.live[(number.number() - 1) as usize] = true;
        self.live_len += 1;
    }
}
