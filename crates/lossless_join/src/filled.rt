// A table with its rows.
ghost use Rattle.std.specs.Prelude.{◌≡◌, ◌<◌, length};

use rel_base::{ColSet, Row};
use std::marker::Model;

/// Some columns of a relation, and rows that have a cell for each of them, by ascending column.
#[derive(Drop)]
pub struct Filled {
    columns: ColSet,
    rows: Vec<Row>,
}

impl Model for Filled {
    ghost use Rattle.lossless_join.specs.NaturalJoin.{TableRows, IsFilled};

    ghost Value = { TableRows };

    ghost view = { λ t. record { columns = t.columns; rows = t.rows.items } };

    ghost invariant = { λ t. IsFilled (record { columns = t.columns; rows = t.rows.items }) };
}

impl Filled {
    ghost use Rattle.col_set.specs.ColSet.{size};
    ghost use Rattle.lossless_join.specs.NaturalJoin.{IsFilled};
    ghost use Rattle.lossless_join.specs.Joining.{row_at};

    /// The table of these columns and rows, which takes no memory.
    pub fn of(columns: ColSet, rows: Vec<Row>) -> Filled
        requires { IsFilled (record { columns = columns; rows = rows.items }) }
        ensures columns { result.columns ≡ columns }
        ensures rows { result.rows ≡ rows.items }
    {
        Filled { columns, rows }
    }

    /// The columns.
    pub fn columns(&self) -> ColSet
        ensures value { result ≡ self.now.columns }
        ensures filled { IsFilled self.now }
    {
        self.columns
    }

    /// The rows, each as wide as there are columns.
    pub fn rows(&self) -> &[Row]
        ensures value { result.now ≡ self.now.rows }
        ensures filled { IsFilled self.now }
    {
        self.rows.as_slice()
    }

    // The row at a place.
    pub(crate) fn row(&self, place: usize) -> &Row
        requires { place < length self.now.rows }
        ensures value { result.now ≡ row_at self.now place }
        ensures wide { length result.now ≡ size self.now.columns }
    {
        &self.rows()[place]
    }

    /// The rows back, which takes no memory.
    pub fn into_rows(self) -> Vec<Row>
        ensures value { result.items ≡ self.rows }
        ensures filled { IsFilled self }
    {
        self.rows
    }
}
