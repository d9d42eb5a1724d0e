// The cells that live rows have in each column, where they stand in the columns' dictionaries.
ghost use Rattle.std.specs.Prelude.{◌≡◌, ◌≢◌, ◌<◌, ◌∷◌, [], true, false, None, IfSome, slice_index_or};
ghost use Rattle.rel_base.specs.Cells.{Cell};
ghost use Rattle.rel_base.specs.Inclusion.{all_columns, included};
ghost use Rattle.rel_base.specs.RowState.{width};
ghost use Rattle.row_log.specs.Live.{HasMarked, IsLacking};

use crate::row_log::RowLog;
use column_dict::{Dict, Text};
use std::marker::Model;

/// A column's dictionary, and for each of its codes whether a flagged row has it.
#[derive(Drop)]
pub struct MarkedCells<'a> {
    pub dict: &'a Dict,
    pub used: Vec<bool>,
}

impl<'a> Model for MarkedCells<'a> {
    ghost use Rattle.std.specs.Prelude.{◌≡◌, length};
    ghost use Rattle.row_log.specs.Marked.{Marked};

    ghost Value = { Marked };

    ghost view = { λ m. record { coding = m.dict.now; used = m.used.items } };

    ghost invariant = { λ m. length m.used.items ≡ length m.dict.now.cells };
}

impl<'a> MarkedCells<'a> {
    /// A marked code whose cell is not NULL and has no marked code among the others. The hinted code is tried first.
    pub fn lacking(&self, others: &MarkedCells, hint: u32) -> Option<u32>
        ensures some { IfSome result (λ code. IsLacking self.now others.now code) }
        ensures none { result ≡ None → (a : Cell) → a ≢ [] → HasMarked self.now a → HasMarked others.now a }
    {
        if self.is_lacking(hint, others) {
            return Some(hint);
        }
        for code in 0..self.dict.len() {
            if self.is_lacking(code, others) {
                return Some(code);
            }
        }
        None
    }

    // Whether the code is marked, and its cell is not NULL and has no marked code among the others.
    fn is_lacking(&self, code: u32, others: &MarkedCells) -> bool
        ensures yes { result ≡ true → IsLacking self.now others.now code }
        ensures no { result ≡ false → slice_index_or self.now.used code false ≡ true → slice_index_or self.now.coding.cells code [] ≢ []
            → HasMarked others.now (slice_index_or self.now.coding.cells code []) }
    {
        if !self.is_marked(code) {
            return false;
        }
        let cell = self.dict.cell(code);
        !cell.is_null() && !others.has(cell)
    }

    // Whether the code is marked, which no number beyond the codes is.
    fn is_marked(&self, code: u32) -> bool
        ensures { result ≡ slice_index_or self.now.used code false }
    {
        let code = code as usize;
        code < self.used.len() && self.used[code]
    }

    // Whether a cell has a marked code. Of NULL it may say no where there are some.
    fn has(&self, cell: &Text) -> bool
        ensures yes { result ≡ true → HasMarked self.now cell.now }
        ensures no { result ≡ false → cell.now ≢ [] → HasMarked self.now cell.now → ⊥ }
    {
        match self.dict.find(cell) {
            Some(code) => self.is_marked(code),
            None => false,
        }
    }
}

/// The cells that live rows have in each column, to tell which columns are included in which.
///
/// Contracts see the rows that it was made of. It lends their dictionaries, and has a byte for each distinct cell of a column.
#[derive(Drop)]
pub struct LiveCells<'a> {
    pub(crate) rows: &'a RowLog,
    pub(crate) columns: Vec<MarkedCells<'a>>,
}

impl<'a> Model for LiveCells<'a> {
    ghost use Rattle.rel_base.specs.RowState.{RowState};
    ghost use Rattle.row_log.specs.Live.{AreLiveColumns};

    ghost Value = { RowState };

    ghost view = { λ l. l.rows.now };

    ghost invariant = { λ l. AreLiveColumns l.rows.now l.columns.items };
}

impl<'a> LiveCells<'a> {
    /// Where a column is not included in another, the code of a cell by which it is not, and else none.
    ///
    /// The cell is one that a live row has in the dependent column, is not NULL, and no live row has it in the referenced column. The
    /// code serves as the hint of a later call, on the same rows or on later ones: it is tried before all others, and any number may be
    /// given. Where the hint is right the call takes one look-up in a dictionary, and else a step for each code of the dependent column,
    /// and a look-up for each of its live cells, up to the first that is lacking. It takes no memory.
    pub fn lacking(&self, dependent: u8, referenced: u8, hint: u32) -> Option<u32>
        requires dependent { dependent < width self.now }
        requires referenced { referenced < width self.now }
        requires apart { dependent ≢ referenced }
        ensures some { IfSome result (λ code. included (all_columns (self.now ∷ [])) dependent referenced ≡ false) }
        ensures none { result ≡ None → included (all_columns (self.now ∷ [])) dependent referenced ≡ true }
    {
        self.columns[dependent as usize].lacking(&self.columns[referenced as usize], hint)
    }
}
