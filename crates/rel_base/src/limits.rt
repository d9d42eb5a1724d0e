// How large an input may be.
ghost use Rattle.std.specs.Prelude.{◌≡◌, ◌<◌, ◌≤◌};
ghost use Rattle.col_set.specs.declared.col_set.TheConstants.{MOST_COLUMNS};
ghost use Rattle.rel_base.specs.declared.limits.TheConstants.{MOST_ROWS, MOST_CELL_BYTES, MOST_BYTES};

use col_set::MOST_COLUMNS;

/// The most rows that a relation is ever given: row numbers go to here.
pub const MOST_ROWS: u32 = 1_000_000;

/// The most bytes of a cell.
pub const MOST_CELL_BYTES: u64 = 65_536;

/// The most bytes of a file or of a change text.
pub const MOST_BYTES: u64 = 268_435_456;

/// How large an input may be: columns, row numbers ever given to a relation, bytes of a cell, bytes of a file or a change text.
#[derive(Clone, Copy)]
pub struct Limits {
    /// The most columns, at least 1.
    pub columns: u8,
    /// The greatest row number.
    pub rows: u32,
    /// The most bytes of a cell.
    pub cell: u64,
    /// The most bytes of a file, or of a change text.
    pub bytes: u64,
    ghost some_columns: { 0 < columns },
    ghost few_columns: { columns ≤ MOST_COLUMNS },
    ghost few_rows: { rows ≤ MOST_ROWS },
    ghost short_cells: { cell ≤ MOST_CELL_BYTES },
    ghost few_bytes: { bytes ≤ MOST_BYTES },
}

impl Limits {
    /// The limits of the program as its users run it: 128 columns, 1000000 rows, 65536 bytes of a cell, 268435456 bytes of a text.
    pub fn standard() -> Limits
        ensures columns { result.columns ≡ 128 }
        ensures rows { result.rows ≡ 1000000 }
        ensures cell { result.cell ≡ 65536 }
        ensures bytes { result.bytes ≡ 268435456 }
    {
        Limits {
            columns: MOST_COLUMNS,
            rows: MOST_ROWS,
            cell: MOST_CELL_BYTES,
            bytes: MOST_BYTES,
        }
    }

    /// Limits that are no larger than the standard ones.
    pub fn smaller(columns: u8, rows: u32, cell: u64, bytes: u64) -> Limits
        requires some_columns { 0 < columns }
        requires few_columns { columns ≤ MOST_COLUMNS }
        requires few_rows { rows ≤ MOST_ROWS }
        requires short_cells { cell ≤ MOST_CELL_BYTES }
        requires few_bytes { bytes ≤ MOST_BYTES }
        ensures columns { result.columns ≡ columns }
        ensures rows { result.rows ≡ rows }
        ensures cell { result.cell ≡ cell }
        ensures bytes { result.bytes ≡ bytes }
    {
        Limits {
            columns,
            rows,
            cell,
            bytes,
        }
    }
}
