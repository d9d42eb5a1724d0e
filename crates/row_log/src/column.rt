// The cells of one column, as codes.
ghost use Rattle.std.specs.Prelude.{◌≡◌, ◌≢◌, ◌<◌, ◌≤◌, ◌+◌, ◌-◌, ◌↔◌, ◌∷◌, [], ◌++◌, ℕ, true, false, OnOk, OnErr, IfOk, length, map, take, slice_index, slice_index_or, slice_set, vec_len, vec_capacity};
ghost use Rattle.rel_base.specs.Agreement.{Agrees};
ghost use Rattle.rel_base.specs.LentCodes.{lent};
ghost use Rattle.row_log.specs.Column.{AreCodes};
ghost use Rattle.row_log.specs.Distinct.{AreFlaggedCells, AreUsed, unmarked};
ghost use Rattle.row_log.specs.Live.{AreMarked};

use crate::codes::{CodeList, code_in};
use crate::live::MarkedCells;
use column_dict::{Dict, Text};
use rel_base::{Cells, CodeSlice, Codes, MOST_ROWS, Nulls, Row};
use std::alloc::{AllocError, Global};
use std::marker::Model;

// After so many rows it is looked at once more what is to be expected of those that follow.
const BLOCK: usize = 16384;

/// The cells of one column, of all rows in order, as codes.
///
/// Beside the codes it is kept for each code which row brought it, so that the last rows go in the time that they took to come.
/// It costs 4 bytes a row, and some 50 bytes and the cell for each code.
#[derive(Drop)]
pub struct Column {
    dict: Dict,
    codes: CodeList,
    firsts: Vec<u32>,
}

impl Model for Column {
    ghost use Rattle.row_log.specs.Codes.{codes_of, IsCodeList};
    ghost use Rattle.row_log.specs.Column.{ColumnCells, column_of, IsKept};

    ghost Value = { ColumnCells };

    ghost view = { λ c. column_of c.dict (codes_of c.codes) };

    ghost invariant = { λ c. IsKept c.dict (codes_of c.codes) c.firsts.items × IsCodeList c.codes };
}

impl Column {
    /// A column without rows.
    pub fn new(alloc: Global, nulls: Nulls) -> Column
        ensures { result ≡ record { nulls = nulls; cells = [] } }
    {
        Column {
            dict: Dict::with_nulls(alloc, nulls),
            codes: CodeList::new(alloc),
            firsts: Vec::new(alloc),
        }
    }

    /// A column without rows, with room for the codes of so many.
    pub fn with_room(alloc: Global, nulls: Nulls, rows: usize) -> Result<Column, AllocError>
        ensures { IfOk result (λ c. c ≡ record { nulls = nulls; cells = [] }) }
    {
        let mut column = Column::new(alloc, nulls);
        column.reserve(rows)?;
        Ok(column)
    }

    // Makes room for so many more codes.
    fn reserve(&mut self, rows: usize) -> Result<(), AllocError>
        ensures { self.new ≡ self.old }
    {
        self.codes.own.reserve(rows)
    }

    /// Codes the cells of more rows. After want of memory it has those of some of them.
    pub fn extend(&mut self, cells: &Cells) -> Result<(), AllocError>
        requires { length self.old.cells + length cells.now ≤ MOST_ROWS }
        ensures { OnOk result (self.new ≡ record { nulls = self.old.nulls; cells = self.old.cells ++ cells.now }) }
    {
        for place in 0..cells.len() {
            if place % BLOCK == 0 {
                self.expect_as_before();
            }
            self.push(cells.get(place))?;
        }
        Ok(())
    }

    // Where nearly all cells that came were new, makes room in the dictionary for as many as there is room for codes.
    fn expect_as_before(&mut self)
        ensures { self.new ≡ self.old }
    {
        let rows = self.codes.own.len();
        if self.dict.len() as usize > rows - rows / 8 {
            self.dict.expect(self.codes.own.capacity() - rows);
        } else {
            self.dict.expect_known();
        }
    }

    /// Codes the cell of one more row.
    pub fn push(&mut self, bytes: &[u8]) -> Result<(), AllocError>
        requires { length self.old.cells < MOST_ROWS }
        ensures pushed { OnOk result (self.new ≡ record { nulls = self.old.nulls; cells = self.old.cells ++ bytes.now ∷ [] }) }
        ensures refused { OnErr result (self.new ≡ self.old) }
    {
        self.codes.own.reserve(1)?;
        self.firsts.reserve(1)?;
        let known = self.dict.len();
        let code = self.dict.code_of(bytes)?;
        if known < self.dict.len() {
            append(&mut self.firsts, self.codes.len() as u32);
        }
        append(&mut self.codes.own, code);
        Ok(())
    }

    /// Drops the rows from this place on, and the codes that they brought. It takes a step a row and a code dropped, and no memory.
    pub fn truncate(&mut self, rows: usize)
        ensures { self.new ≡ record { nulls = self.old.nulls; cells = take rows self.old.cells } }
    {
        // `len` is called for its clause that a code fits 32 bits.
        let _codes = self.dict.len();
        let left = codes_left(&self.firsts, rows);
        self.dict.keep(left as u32);
        self.firsts.truncate(left);
        self.codes.truncate(rows);
    }

    /// The codes of all rows, for a snapshot, which shares those of older rows.
    pub fn handed(&self, alloc: Global) -> Result<Codes, AllocError>
        ensures { IfOk result (AreCodes self.now) }
    {
        self.codes.handed(alloc)
    }

    /// Puts the codes of rows that came since into the list that snapshots share, where they are many. It takes a step a row then,
    /// once in a thousand rows that come, and stays as it is where memory is wanting.
    pub fn share(&mut self, alloc: Global)
        ensures { self.new ≡ self.old }
    {
        self.codes.share(alloc);
    }

    /// The codes of the rows at two places.
    pub fn pair(&self, i: usize, j: usize) -> (u32, u32)
        requires first { i < length self.now.cells }
        requires second { j < length self.now.cells }
        requires apart { i ≢ j }
        ensures { (result.0 ≡ result.1) ↔ Agrees self.now.nulls (slice_index_or self.now.cells i []) (slice_index_or self.now.cells j []) }
    {
        (self.codes.get(i), self.codes.get(j))
    }

    /// The cell of the row at this place.
    pub fn cell(&self, place: usize) -> &Text
        requires { place < length self.now.cells }
        ensures { result.now ≡ slice_index_or self.now.cells place [] }
    {
        self.dict.cell(self.codes.get(place))
    }

    /// The cells of the flagged rows, by the codes that they have. It takes a byte a code, and a step a row until all codes were met.
    pub fn marked<'a>(
        &'a self,
        alloc: Global,
        flags: &[bool],
    ) -> Result<MarkedCells<'a>, AllocError>
        requires { length flags.now ≡ length self.now.cells }
        ensures { IfOk result (λ marked. AreMarked self.now.cells flags.now marked) }
    {
        let (older, own) = self.codes.parts();
        let used = used_codes(alloc, older, own, flags, self.dict.len() as usize)?;
        Ok(MarkedCells {
            dict: &self.dict,
            used,
        })
    }

    /// The cells of the flagged rows, each once, NULL aside. It takes a step a code, and one a row up to the last new code.
    pub fn flagged_cells(&self, alloc: Global, flags: &[bool]) -> Result<Row, AllocError>
        requires { length flags.now ≡ length self.now.cells }
        ensures { IfOk result (λ cells. AreFlaggedCells self.now.cells flags.now cells) }
    {
        let count = self.dict.len();
        let (older, own) = self.codes.parts();
        let used = used_codes(alloc, older, own, flags, count as usize)?;
        let mut cells: Vec<&[u8]> = Vec::new(alloc);
        for code in 0..count {
            let cell = self.dict.cell(code);
            if is_wanted(used[code as usize], cell) {
                cells.push(cell.bytes())?;
            }
        }
        Row::copied(alloc, &cells)
    }
}

// Whether the code of a cell is used and the cell is not NULL.
fn is_wanted(used: bool, cell: &Text) -> bool
    ensures yes { result ≡ true → (used ≡ true) × (cell.now ≢ []) }
    ensures no { result ≡ false → used ≡ true → cell.now ≡ [] }
{
    used && !cell.is_null()
}

// For each of so many codes, whether a flagged row has it, where the rows' codes stand in two lists.
fn used_codes(
    alloc: Global,
    older: CodeSlice<'_>,
    own: &[u32],
    flags: &[bool],
    count: usize,
) -> Result<Vec<bool>, AllocError>
    requires known { (i : ℕ) → i < length (lent older ++ own.now) → slice_index (lent older ++ own.now) i < count }
    requires long { length flags.now ≡ length (lent older ++ own.now) }
    ensures long { IfOk result (λ used. length used.items ≡ count) }
    ensures used { IfOk result (λ used. AreUsed flags.now (lent older.entry ++ own.now) (length (lent older.entry ++ own.now)) used.items) }
{
    let mut used = vec![in alloc; false; count]?;
    let mut left = count;
    for (place, flag) in flags.iter().enumerate() {
        // Where codes are few, all are met long before the last row.
        if left == 0 {
            return Ok(used);
        }
        if *flag {
            left = mark(&mut used, code_in(older, own, place) as usize, left);
        }
    }
    Ok(used)
}

// Marks a code as used, and answers how many are not, of which there were so many before.
fn mark(used: &mut [bool], code: usize, left: usize) -> usize
    requires known { code < length used.old }
    requires left { left ≡ unmarked used.old }
    ensures used { used.new ≡ slice_set used.old code true }
    ensures left { result ≡ unmarked used.new }
{
    if used[code] {
        return left;
    }
    used[code] = true;
    left - 1
}

// Appends to a list that has room.
fn append(list: &mut Vec<u32>, item: u32)
    requires { vec_len list.old < vec_capacity list.old }
    ensures { list.new.items ≡ list.old.items ++ item ∷ [] }
{
    let _ = list.push(item);
}

// How many codes the rows before this place brought.
fn codes_left(firsts: &[u32], rows: usize) -> usize
    ensures some { result ≤ length firsts.now }
    ensures dropped { (c : ℕ) → result ≤ c → c < length firsts.now → rows ≤ slice_index firsts.now c }
    ensures last { 0 < result → slice_index firsts.now (result - 1) < rows }
{
    let mut left = firsts.len();
    while left > 0 && firsts[left - 1] as usize >= rows {
        left -= 1;
    }
    left
}
