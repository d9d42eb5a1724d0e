// The rows that a batch ends.
ghost use Rattle.std.specs.Prelude.{◌≡◌, List, IfOk, IsPermutation};
ghost use Rattle.rel_base.specs.Cells.{Cell};
ghost use Rattle.rel_base.specs.PackedOps.{op_at};
ghost use Rattle.negative_cover.specs.EndedRows as spec;

use rel_base::{Batch, Change, Cursor, RowNo};
use std::alloc::{AllocError, Global};

/// The numbers of the rows that a batch deletes or updates, ascending, as `NegativeCover::withdrawal` and `NegativeCover::withdraw` look
/// the rows of witnesses up in them. It takes the time of sorting them, and 4 bytes for each.
pub fn ended(alloc: Global, batch: &Batch) -> Result<Vec<RowNo>, AllocError>
    ensures { IfOk result (λ rows. IsPermutation (spec.ended batch.now) rows.items) }
{
    let mut rows = ended_in_turn(alloc, batch)?;
    rows.sort_unstable();
    Ok(rows)
}

// The numbers that are deleted or updated, in order of the operations.
fn ended_in_turn(alloc: Global, batch: &Batch) -> Result<Vec<RowNo>, AllocError>
    ensures { IfOk result (λ rows. rows.items ≡ spec.ended batch.now) }
{
    let mut rows = Vec::new(alloc);
    let mut cursor = Cursor::start();
    for _place in 0..batch.len() {
        if let Some(row) = ended_row(batch.change(cursor)) {
            rows.push(row)?;
        }
        cursor = batch.next(cursor);
    }
    Ok(rows)
}

// The row that an operation ends, whatever the cells of its own row.
fn ended_row(change: Change) -> Option<RowNo>
    ensures { (cells : List Cell) → result ≡ spec.ended_row (op_at cells change) }
{
    match change {
        Change::Insert(_) => None,
        Change::Delete(row) => Some(row),
        Change::Update(row, _) => Some(row),
    }
}
