// Changes of a relation's rows.
ghost use Rattle.std.specs.Prelude.{◌≡◌, ◌==◌, ◌<◌, ◌+◌, ◌-◌, ◌++◌, ◌∷◌, [], List, length, slice_index_or, IfOk, OnOk, OnErr};
ghost use Rattle.rel_base.specs.declared.batch.Op.{Op};
ghost use Rattle.rel_base.specs.declared.batch.Op.TheVariants.{Insert, Delete, Update};
ghost use Rattle.rel_base.specs.PackedOps.{cells_of, step_numbers, step_cells, row_at, op_at, place_of, IsCursor};

use crate::append::append;
use crate::{Cells, Row, RowNo};
use std::alloc::{AllocError, Global};
use std::marker::Model;

// So many cells has a row of a batch at most: its width takes one byte.
const WIDEST: usize = u8::MAX as usize;

/// One change of a relation's rows.
#[derive(Drop)]
pub enum Op {
    /// A new row, which gets the next number.
    Insert(Row),
    /// The end of a live row.
    Delete(RowNo),
    /// The end of a live row, and then a new row with the next number, as one operation.
    Update(RowNo, Row),
}

// What an operation is, with the width of its row.
#[derive(Clone, Copy)]
enum Step {
    Insert(u8),
    Delete,
    Update(u8),
}

impl Step {
    // How many row numbers the operation has.
    fn numbers(self) -> usize
        ensures { result ≡ step_numbers self }
    {
        match self {
            Step::Insert(_) => 0,
            Step::Delete => 1,
            Step::Update(_) => 1,
        }
    }

    // How many cells its row has.
    fn cells(self) -> usize
        ensures { result ≡ step_cells self }
    {
        match self {
            Step::Insert(width) => width as usize,
            Step::Delete => 0,
            Step::Update(width) => width as usize,
        }
    }
}

/// Operations that are applied in order, all or none. Contracts see their list.
///
/// They are kept packed: two bytes an operation, four for the number of a row that ends, and for each cell of a new row its bytes and four
/// more. A `Cursor` reads them one after another, forward or back.
#[derive(Drop)]
pub struct Batch {
    steps: Vec<Step>,
    // The numbers of the rows that end, in the order of the operations.
    numbers: Vec<RowNo>,
    // The cells of the rows that come, in that order too.
    cells: Cells,
}

impl Model for Batch {
    ghost use Rattle.std.specs.Prelude.{List};
    ghost use Rattle.rel_base.specs.declared.batch.Op.{Op};
    ghost use Rattle.rel_base.specs.PackedOps.{ops_of, ArePackedOps};

    ghost Value = { List Op };

    ghost view = { λ b. ops_of b.steps.items b.numbers.items b.cells };

    ghost invariant = { λ b. ArePackedOps b.steps.items b.numbers.items b.cells };
}

/// A place in a batch: before one of its operations, or behind the last.
#[derive(Clone, Copy)]
pub struct Cursor {
    op: usize,
    number: usize,
    cell: usize,
}

/// Where a batch keeps the cells of a new row.
#[derive(Clone, Copy)]
pub struct RowPlace {
    first: usize,
    width: u8,
}

/// An operation of a batch, whose new row stays where the batch keeps it. Contracts see by `op_at` which one it is.
#[derive(Clone, Copy)]
pub enum Change {
    /// A new row, which gets the next number.
    Insert(RowPlace),
    /// The end of a live row.
    Delete(RowNo),
    /// The end of a live row, and then a new row with the next number.
    Update(RowNo, RowPlace),
}

impl Cursor {
    /// The place before the first operation.
    pub fn start() -> Cursor
        ensures place { place_of result ≡ 0 }
        ensures start { (ops : List Op) → IsCursor ops result }
    {
        Cursor {
            op: 0,
            number: 0,
            cell: 0,
        }
    }

    /// How many operations stand before the place.
    pub fn place(self) -> usize
        ensures { result ≡ place_of self }
    {
        self.op
    }
}

impl Batch {
    /// The batch of no operations, which takes no memory.
    pub fn new(alloc: Global) -> Batch
        ensures { result ≡ [] }
    {
        Batch {
            steps: Vec::new(alloc),
            numbers: Vec::new(alloc),
            cells: Cells::new(alloc),
        }
    }

    /// The batch of copies of these operations. It fails where `push` does.
    pub fn of(alloc: Global, ops: &[Op]) -> Result<Batch, AllocError>
        ensures { IfOk result (λ batch. batch ≡ ops.now) }
    {
        let mut batch = Batch::new(alloc);
        for op in ops {
            batch.push(op)?;
        }
        Ok(batch)
    }

    /// How many operations there are.
    pub fn len(&self) -> usize
        ensures { result ≡ length self.now }
    {
        self.steps.len()
    }

    /// Whether there are none.
    pub fn is_empty(&self) -> bool
        ensures { result ≡ (length self.now == 0) }
    {
        self.steps.is_empty()
    }

    /// Puts a copy of one more operation behind the others. Where memory is wanting they stay as they are; so they do where its row has
    /// more than 255 cells, or where the cells of all rows would have 4 GiB together.
    pub fn push(&mut self, op: &Op) -> Result<(), AllocError>
        ensures pushed { OnOk result (self.new ≡ self.old ++ op.now ∷ []) }
        ensures refused { OnErr result (self.new ≡ self.old) }
    {
        match op {
            Op::Insert(row) => self.push_insert(row),
            Op::Delete(number) => self.push_delete(*number),
            Op::Update(number, row) => self.push_update(*number, row),
        }
    }

    fn push_insert(&mut self, row: &Row) -> Result<(), AllocError>
        ensures pushed { OnOk result (self.new ≡ self.old ++ Insert row.now ∷ []) }
        ensures refused { OnErr result (self.new ≡ self.old) }
    {
        if row.len() > WIDEST {
            return Err(AllocError);
        }
        self.steps.reserve(1)?;
        self.cells.push_row(row)?;
        append(&mut self.steps, Step::Insert(row.len() as u8));
        Ok(())
    }

    fn push_delete(&mut self, number: RowNo) -> Result<(), AllocError>
        ensures pushed { OnOk result (self.new ≡ self.old ++ Delete number ∷ []) }
        ensures refused { OnErr result (self.new ≡ self.old) }
    {
        self.steps.reserve(1)?;
        self.numbers.push(number)?;
        append(&mut self.steps, Step::Delete);
        Ok(())
    }

    fn push_update(&mut self, number: RowNo, row: &Row) -> Result<(), AllocError>
        ensures pushed { OnOk result (self.new ≡ self.old ++ Update number row.now ∷ []) }
        ensures refused { OnErr result (self.new ≡ self.old) }
    {
        if row.len() > WIDEST {
            return Err(AllocError);
        }
        self.steps.reserve(1)?;
        self.numbers.reserve(1)?;
        self.cells.push_row(row)?;
        append(&mut self.numbers, number);
        append(&mut self.steps, Step::Update(row.len() as u8));
        Ok(())
    }

    /// The place behind the last operation.
    pub fn end(&self) -> Cursor
        ensures cursor { IsCursor self.now result }
        ensures place { place_of result ≡ length self.now }
    {
        Cursor {
            op: self.steps.len(),
            number: self.numbers.len(),
            cell: self.cells.len(),
        }
    }

    /// The operation behind a place. It takes one step and no memory.
    pub fn change(&self, cursor: Cursor) -> Change
        requires cursor { IsCursor self.now cursor }
        requires within { place_of cursor < length self.now }
        ensures { (d : Op) → op_at (cells_of self.now) result ≡ slice_index_or self.now (place_of cursor) d }
    {
        match self.steps[cursor.op] {
            Step::Insert(width) => Change::Insert(RowPlace {
                first: cursor.cell,
                width,
            }),
            Step::Delete => Change::Delete(self.numbers[cursor.number]),
            Step::Update(width) => Change::Update(
                self.numbers[cursor.number],
                RowPlace {
                    first: cursor.cell,
                    width,
                },
            ),
        }
    }

    /// The place one operation further.
    pub fn next(&self, cursor: Cursor) -> Cursor
        requires cursor { IsCursor self.now cursor }
        requires within { place_of cursor < length self.now }
        ensures cursor { IsCursor self.now result }
        ensures place { place_of result ≡ place_of cursor + 1 }
    {
        let step = self.steps[cursor.op];
        Cursor {
            op: cursor.op + 1,
            number: cursor.number + step.numbers(),
            cell: cursor.cell + step.cells(),
        }
    }

    /// The place one operation back.
    pub fn previous(&self, cursor: Cursor) -> Cursor
        requires cursor { IsCursor self.now cursor }
        requires within { 0 < place_of cursor }
        ensures cursor { IsCursor self.now result }
        ensures place { place_of result ≡ place_of cursor - 1 }
    {
        let op = cursor.op - 1;
        let step = self.steps[op];
        Cursor {
            op,
            number: cursor.number - step.numbers(),
            cell: cursor.cell - step.cells(),
        }
    }

    /// How many cells a new row has.
    pub fn row_len(&self, row: RowPlace) -> usize
        ensures { result ≡ length (row_at (cells_of self.now) row) }
    {
        (row.width as usize).min(self.cells.len().saturating_sub(row.first))
    }

    /// The bytes of a cell of a new row.
    pub fn cell(&self, row: RowPlace, column: usize) -> &[u8]
        requires { column < length (row_at (cells_of self.now) row) }
        ensures { result.now ≡ slice_index_or (row_at (cells_of self.now) row) column [] }
    {
        self.cells.get(row.first + column)
    }

    /// A copy of a new row.
    pub fn row(&self, alloc: Global, row: RowPlace) -> Result<Row, AllocError>
        ensures { IfOk result (λ copy. copy ≡ row_at (cells_of self.now) row) }
    {
        let mut cells: Vec<&[u8]> = Vec::new(alloc);
        for column in 0..self.row_len(row) {
            cells.push(self.cell(row, column))?;
        }
        Row::copied(alloc, &cells)
    }

    /// Copies of the operations, the first one first, for small batches.
    pub fn to_ops(&self, alloc: Global) -> Result<Vec<Op>, AllocError>
        ensures { IfOk result (λ ops. ops.items ≡ self.now) }
    {
        let mut ops = Vec::new(alloc);
        let mut cursor = Cursor::start();
        for _place in 0..self.len() {
            ops.push(self.op(alloc, self.change(cursor))?)?;
            cursor = self.next(cursor);
        }
        Ok(ops)
    }

    // A copy of an operation.
    fn op(&self, alloc: Global, change: Change) -> Result<Op, AllocError>
        ensures { IfOk result (λ op. op ≡ op_at (cells_of self.now) change) }
    {
        Ok(match change {
            Change::Insert(row) => Op::Insert(self.row(alloc, row)?),
            Change::Delete(number) => Op::Delete(number),
            Change::Update(number, row) => Op::Update(number, self.row(alloc, row)?),
        })
    }
}
