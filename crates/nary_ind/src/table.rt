// The rows of a relation as numbers.
ghost use Rattle.std.specs.Prelude.{◌≡◌, ◌<◌, ◌≤◌, ℕ, length, slice_index};
ghost use Rattle.col_set.specs.Listing.{Listed};
ghost use Rattle.nary_ind.specs.Tables.{IsNumbered, key_in, number_in};

use crate::column_list::MOST_WIDTH;
use std::marker::Model;

/// The numbers of a row in at most four columns, with zeros behind them.
pub(crate) type Key = [u32; MOST_WIDTH];

/// The live rows of a relation as numbers of their cells, by column. A column that is not asked of has no numbers.
///
/// Contracts see how many rows there are, and the lists of numbers. It takes 4 bytes for each row and column that is asked of.
#[derive(Drop)]
pub(crate) struct Table {
    pub(crate) rows: usize,
    pub(crate) columns: Vec<Vec<u32>>,
}

impl Model for Table {
    ghost use Rattle.std.specs.Prelude.{map};
    ghost use Rattle.nary_ind.specs.Tables.{Coded};

    ghost Value = { Coded };

    ghost view = { λ t. record { rows = t.rows; columns = map (λ c. c.items) t.columns.items } };
}

impl Table {
    /// How many rows there are.
    pub(crate) fn rows(&self) -> usize
        ensures { result ≡ self.now.rows }
    {
        self.rows
    }

    /// The numbers of a row in these columns.
    pub(crate) fn key(&self, columns: &[u8], row: usize) -> Key
        requires short { length columns.now ≤ MOST_WIDTH }
        requires numbered { (c : ℕ) → Listed c columns.now → IsNumbered self.now c }
        requires row { row < self.now.rows }
        ensures { result ≡ key_in self.now columns.now row }
    {
        let mut key = [0; MOST_WIDTH];
        for place in 0..columns.len() {
            key[place] = self.number(column_at(columns, place), row);
        }
        key
    }

    // The number of the cell of a row in a column.
    fn number(&self, column: u8, row: usize) -> u32
        requires column { IsNumbered self.now column }
        requires row { row < self.now.rows }
        ensures { result ≡ number_in self.now column row }
    {
        let numbers = &self.columns[column as usize];
        numbers[row]
    }
}

// The column at a place of a list.
fn column_at(columns: &[u8], place: usize) -> u8
    requires { place < length columns.now }
    ensures { result ≡ slice_index columns.now place }
{
    columns[place]
}
