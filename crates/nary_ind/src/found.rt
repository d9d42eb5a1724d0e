// What is found: inclusions of lists of columns.
ghost use Rattle.std.specs.Prelude.{◌≡◌, ◌<◌, length};

use crate::column_list::{ColumnList, MOST_WIDTH};

/// An inclusion of lists: columns of one relation whose tuples are all tuples of as many columns of a relation. Relations and columns are counted from 0.
#[derive(Drop)]
pub struct ListInd {
    /// The relation of the dependent list.
    pub dep_rel: usize,
    /// The relation of the referenced list.
    pub into_rel: usize,
    /// The dependent list, ascending.
    pub dep_cols: ColumnList,
    /// The referenced list, each column beside the dependent one that is included in it.
    pub into_cols: ColumnList,
}

/// Columns of one relation: one side of an inclusion.
#[derive(Drop)]
pub(crate) struct Side {
    pub(crate) rel: usize,
    pub(crate) columns: ColumnList,
}

impl Side {
    ghost use Rattle.nary_ind.specs.Levels.{extend};

    // The same columns.
    pub(crate) fn copied(&self) -> Side
        ensures { result ≡ self.now }
    {
        Side {
            rel: self.rel,
            columns: self.columns.copied(),
        }
    }

    // These columns and one more behind them.
    pub(crate) fn with(&self, column: u8) -> Side
        requires { length self.now.columns < MOST_WIDTH }
        ensures { result ≡ extend self.now column }
    {
        Side {
            rel: self.rel,
            columns: self.columns.copied().with(column),
        }
    }
}

/// A dependent list, and the lists that it is included in.
#[derive(Drop)]
pub(crate) struct Group {
    pub(crate) side: Side,
    pub(crate) into: Vec<Side>,
}
