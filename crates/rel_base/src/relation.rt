// A relation as it was read.
ghost use Rattle.std.specs.Prelude.{◌≡◌, ◌<◌, ◌≤◌, ◌+◌, ◌==◌, ◌++◌, ◌∷◌, ℕ, List, [], length, map, slice_index_or, IfOk};
ghost use Rattle.col_set.specs.declared.col_set.TheConstants.{MOST_COLUMNS};
ghost use Rattle.rel_base.specs.declared.limits.TheConstants.{MOST_ROWS};
ghost use Rattle.csv.specs.Records.{fields_of};
ghost use Rattle.rel_base.specs.Cells.{cell};
ghost use Rattle.rel_base.specs.Relation.{IsContent};

use crate::joining::joined_by;
use crate::row::field;
use crate::{Cells, Row};
use csv::ByteRecord;
use std::alloc::{AllocError, Global};
use std::marker::Model;
use std::thread::Threads;

/// A relation: the names of its columns, and its rows.
///
/// It has 1 to 128 columns and at most a million rows, each as wide as there are names. Contracts see the names and the list of the
/// rows. They are kept by column, packed: the bytes of the cells, and four more a cell.
#[derive(Drop)]
pub struct Relation {
    names: Row,
    columns: Vec<Cells>,
    count: usize,
}

impl Model for Relation {
    ghost use Rattle.rel_base.specs.Relation.{Content, rows_across, AreColumns};

    ghost Value = { Content };

    ghost view = { λ r. record { names = r.names; rows = rows_across r.columns.items r.count } };

    ghost invariant = { λ r. AreColumns r.names r.columns.items r.count };
}

impl Relation {
    /// The relation of these names that has no rows yet.
    pub fn without_rows(alloc: Global, names: Row) -> Result<Relation, AllocError>
        requires some { 0 < length names }
        requires narrow { length names ≤ MOST_COLUMNS }
        ensures names { IfOk result (λ relation. relation.names ≡ names) }
        ensures rows { IfOk result (λ relation. relation.rows ≡ []) }
    {
        let mut columns = Vec::with_capacity(alloc, names.len())?;
        for _place in 0..names.len() {
            columns.push(Cells::new(alloc))?;
        }
        Ok(Relation {
            names,
            columns,
            count: 0,
        })
    }

    /// The relation with one more row behind the others: the fields of this record, copied.
    pub fn with_record(self, fields: &ByteRecord) -> Result<Relation, AllocError>
        requires wide { length (fields_of fields.now) ≡ length self.names }
        requires room { length self.rows < MOST_ROWS }
        ensures names { IfOk result (λ relation. relation.names ≡ self.names) }
        ensures rows { IfOk result (λ relation. relation.rows ≡ self.rows ++ fields_of fields.now ∷ []) }
    {
        let mut columns = self.columns;
        for place in 0..columns.len() {
            columns[place].push(field(fields, place))?;
        }
        Ok(Relation {
            names: self.names,
            columns,
            count: self.count + 1,
        })
    }

    /// The relation with a copy of one more row behind the others.
    pub fn with_row(self, row: &Row) -> Result<Relation, AllocError>
        requires wide { length row.now ≡ length self.names }
        requires room { length self.rows < MOST_ROWS }
        ensures names { IfOk result (λ relation. relation.names ≡ self.names) }
        ensures rows { IfOk result (λ relation. relation.rows ≡ self.rows ++ row.now ∷ []) }
    {
        self.with_record(row.record())
    }

    /// The relation with the rows of another behind its own, put together by so many workers at most: one is the thread of the caller and
    /// no other. It goes column by column: the other's bytes are copied at once, or taken over where there are no rows yet, and let go.
    pub fn with_rows<R: Threads + Sync>(
        self,
        rt: &R,
        others: Relation,
        workers: u8,
    ) -> Result<Relation, AllocError>
        requires wide { length others.names ≡ length self.names }
        requires room { length self.rows + length others.rows ≤ MOST_ROWS }
        ensures names { IfOk result (λ relation. relation.names ≡ self.names) }
        ensures rows { IfOk result (λ relation. relation.rows ≡ self.rows ++ others.rows) }
    {
        let columns = joined_by(rt, self.columns, others.columns, workers)?;
        Ok(Relation {
            names: self.names,
            columns,
            count: self.count + others.count,
        })
    }

    /// The names of the columns.
    pub fn names(&self) -> &Row
        ensures value { result.now ≡ self.now.names }
        ensures bounds { IsContent self.now }
    {
        &self.names
    }

    /// How many rows there are.
    pub fn len(&self) -> usize
        ensures value { result ≡ length self.now.rows }
        ensures few { result ≤ MOST_ROWS }
    {
        self.count
    }

    /// Whether there are none.
    pub fn is_empty(&self) -> bool
        ensures { result ≡ (length self.now.rows == 0) }
    {
        self.count == 0
    }

    /// A copy of the row at this place.
    pub fn row(&self, alloc: Global, place: usize) -> Result<Row, AllocError>
        requires { place < length self.now.rows }
        ensures { IfOk result (λ row. row ≡ slice_index_or self.now.rows place []) }
    {
        let mut cells: Vec<&[u8]> = Vec::new(alloc);
        for column in &self.columns {
            cells.push(column.get(place))?;
        }
        Row::copied(alloc, &cells)
    }

    /// Copies of the rows, the first one first, for small relations.
    pub fn rows(&self, alloc: Global) -> Result<Vec<Row>, AllocError>
        ensures { IfOk result (λ rows. rows.items ≡ self.now.rows) }
    {
        let mut rows = Vec::new(alloc);
        for place in 0..self.len() {
            rows.push(self.row(alloc, place)?)?;
        }
        Ok(rows)
    }

    /// The names, and the cells of each column, which takes no memory.
    pub fn into_columns(self) -> (Row, Vec<Cells>)
        ensures names { result.0 ≡ self.names }
        ensures wide { length result.1.items ≡ length self.names }
        ensures cells { (j : ℕ) → j < length self.names → slice_index_or result.1.items j [] ≡ map (λ row. cell row j) self.rows }
        ensures bounds { IsContent self }
    {
        (self.names, self.columns)
    }
}
