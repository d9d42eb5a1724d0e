// A short list of columns.
ghost use Rattle.std.specs.Prelude.{◌≡◌, ◌<◌, ◌≤◌, ◌++◌, ◌∷◌, [], length};

use std::marker::Model;

/// The most columns that a list has.
pub const MOST_WIDTH: usize = 4;

/// At most four columns of one relation, counted from 0, in the order in which they are named. It takes no memory.
///
/// Contracts see the list.
#[derive(Drop)]
pub struct ColumnList {
    len: u8,
    columns: [u8; MOST_WIDTH],
}

impl Model for ColumnList {
    ghost use Rattle.std.specs.Prelude.{List, ℕ, ◌≤◌, take};

    ghost Value = { List ℕ };

    ghost view = { λ l. take l.len l.columns };

    ghost invariant = { λ l. l.len ≤ 4 };
}

impl ColumnList {
    /// No columns.
    pub fn empty() -> ColumnList
        ensures { result ≡ [] }
    {
        ColumnList {
            len: 0,
            columns: [0; MOST_WIDTH],
        }
    }

    /// The columns, for a loop over them.
    pub fn as_slice(&self) -> &[u8]
        ensures value { result.now ≡ self.now }
        ensures short { length self.now ≤ MOST_WIDTH }
    {
        &self.columns[..self.len as usize]
    }

    /// A copy of the list.
    pub fn copied(&self) -> ColumnList
        ensures { result ≡ self.now }
    {
        ColumnList {
            len: self.len,
            columns: self.columns,
        }
    }

    /// The list with one more column behind the others.
    pub fn with(self, column: u8) -> ColumnList
        requires { length self < MOST_WIDTH }
        ensures { result ≡ self ++ column ∷ [] }
    {
        let mut columns = self.columns;
        columns[self.len as usize] = column;
        ColumnList {
            len: self.len + 1,
            columns,
        }
    }
}
