// Small relations, written out or drawn.
ghost use Rattle.std.specs.Prelude.{◌≡◌, ◌<◌, ◌≤◌, true, length, IfOk, IfSome, IsSome};
ghost use Rattle.std.specs.List.{All};
ghost use Rattle.rel_base.specs.Relation.{IsContent};
ghost use Rattle.rel_base.specs.Batches.{IsAsWide};
ghost use Rattle.rel_base.specs.PackedOps.{cells_of, op_at};

use rel_base::{Batch, Change, Cursor, MOST_COLUMNS, MOST_ROWS, Op, Relation, Row, RowNo};
use std::alloc::{AllocError, Global};

/// The relation of these names and copies of these rows, or none where they are not a relation's.
pub fn relation_of(alloc: Global, names: Row, rows: &[Row]) -> Result<Option<Relation>, AllocError>
    ensures names { IfOk result (λ found. IfSome found (λ relation. relation.names ≡ names)) }
    ensures rows { IfOk result (λ found. IfSome found (λ relation. relation.rows ≡ rows.now)) }
    ensures some { IsContent (record { names = names; rows = rows.now }) → IfOk result (λ found. IsSome found) }
{
    let width = names.len();
    if width == 0
        || width > MOST_COLUMNS as usize
        || rows.len() > MOST_ROWS as usize
        || !are_wide(rows, width)
    {
        return Ok(None);
    }
    let mut relation = Relation::without_rows(alloc, names)?;
    for row in rows {
        relation = relation.with_row(row)?;
    }
    Ok(Some(relation))
}

/// Whether no operation of the batch brings a row of another width.
pub fn are_as_wide(batch: &Batch, width: usize) -> bool
    ensures { result ≡ true → All (IsAsWide width) batch.now }
{
    let mut cursor = Cursor::start();
    for _place in 0..batch.len() {
        if !is_as_wide(batch, batch.change(cursor), width) {
            return false;
        }
        cursor = batch.next(cursor);
    }
    true
}

fn is_as_wide(batch: &Batch, change: Change, width: usize) -> bool
    ensures { result ≡ true → IsAsWide width (op_at (cells_of batch.now) change) }
{
    match change {
        Change::Insert(row) => batch.row_len(row) == width,
        Change::Delete(_) => true,
        Change::Update(_, row) => batch.row_len(row) == width,
    }
}

fn are_wide(rows: &[Row], width: usize) -> bool
    ensures yes { result ≡ true → All (λ row. length row ≡ width) rows.now }
    ensures no { All (λ row. length row ≡ width) rows.now → result ≡ true }
{
    for row in rows {
        if row.len() != width {
            return false;
        }
    }
    true
}

/// Draws small relations and batches, the same ones for the same seed.
///
/// A cell is NULL or one of a few letters, so that many cells are equal.
#[derive(Drop)]
pub struct Samples {
    state: u64,
}

impl Samples {
    /// Draws from this seed.
    pub fn from_seed(seed: u64) -> Samples {
        Samples { state: seed }
    }

    /// A number below this one.
    pub fn below(&mut self, bound: u32) -> u32
        requires { 0 < bound }
        ensures { result < bound }
    {
        // The generator of Knuth's MMIX, of which the high bits are the better ones.
        self.state = self
            .state
            .wrapping_mul(6_364_136_223_846_793_005)
            .wrapping_add(1_442_695_040_888_963_407);
        (self.state >> 33) as u32 % bound
    }

    /// A row, or a column's cells.
    pub fn row(&mut self, alloc: Global, cells: usize) -> Result<Row, AllocError>
        ensures { IfOk result (λ row. length row ≡ cells) }
    {
        let letters: [&[u8]; 5] = [b"", b"a", b"b", b"ab", b"c"];
        let mut drawn = Vec::new(alloc);
        for _ in 0..cells {
            let place = self.below(5) as usize;
            drawn.push(letters[place])?;
        }
        Row::copied(alloc, &drawn)
    }

    /// So many rows.
    pub fn rows(
        &mut self,
        alloc: Global,
        count: usize,
        cells: usize,
    ) -> Result<Vec<Row>, AllocError>
        ensures count { IfOk result (λ rows. length rows.items ≡ count) }
        ensures wide { IfOk result (λ rows. All (λ row. length row ≡ cells) rows.items) }
    {
        let mut rows = Vec::new(alloc);
        for _ in 0..count {
            rows.push(self.row(alloc, cells)?)?;
        }
        Ok(rows)
    }

    /// An operation that brings a row of so many cells, or ends a row with a number up to this one, or both.
    pub fn op(&mut self, alloc: Global, cells: usize, last: u32) -> Result<Op, AllocError>
        requires { last < MOST_ROWS }
        ensures { IfOk result (λ op. IsAsWide cells op) }
    {
        let number = RowNo::of(self.below(last + 1) + 1);
        let row = self.row(alloc, cells)?;
        Ok(match self.below(3) {
            0 => Op::Insert(row),
            1 => Op::Delete(number),
            _ => Op::Update(number, row),
        })
    }

    /// A batch of so many such operations.
    pub fn batch(
        &mut self,
        alloc: Global,
        count: usize,
        cells: usize,
        last: u32,
    ) -> Result<Batch, AllocError>
        requires { last < MOST_ROWS }
        ensures { IfOk result (λ batch. All (IsAsWide cells) batch) }
    {
        let mut batch = Batch::new(alloc);
        for _ in 0..count {
            batch.push(&self.op(alloc, cells, last)?)?;
        }
        Ok(batch)
    }
}
