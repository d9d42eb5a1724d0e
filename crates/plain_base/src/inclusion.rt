// The inclusions among columns, by comparing each cell with each.
ghost use Rattle.std.specs.Prelude.{◌≡◌, ◌<◌, ◌++◌, ◌||◌, [], length, map, IfOk, OnOk};
ghost use Rattle.std.specs.List.{filter, list_all, list_any};
ghost use Rattle.col_set.specs.ColSet.{upto};
ghost use Rattle.rel_base.specs.Agreement.{same_cell};
ghost use Rattle.rel_base.specs.Inclusion as inclusion;

use rel_base::Row;
use std::alloc::{AllocError, Global};

/// All inclusions among these columns, each a list of cells: pairs of positions from 0, by the dependent and then by the referenced column.
///
/// Each cell of a column is compared with each of the others, so the time grows with the square of the cells.
pub fn inclusions(alloc: Global, columns: &[Row]) -> Result<Vec<(usize, usize)>, AllocError>
    ensures { IfOk result (λ pairs. pairs.items ≡ inclusion.inclusions columns.now) }
{
    let mut pairs = Vec::new(alloc);
    for dependent in 0..columns.len() {
        push_inclusions(&mut pairs, columns, dependent)?;
    }
    Ok(pairs)
}

// Adds the inclusions of one column in the others.
fn push_inclusions(
    pairs: &mut Vec<(usize, usize)>,
    columns: &[Row],
    dependent: usize,
) -> Result<(), AllocError>
    requires { dependent < length columns.now }
    ensures { OnOk result (pairs.new.items ≡ pairs.old.items ++ filter (λ p. inclusion.included columns.now p.0 p.1) (map (λ d. (dependent, d)) (upto (length columns.now)))) }
{
    for referenced in 0..columns.len() {
        if is_included(columns, dependent, referenced) {
            pairs.push((dependent, referenced))?;
        }
    }
    Ok(())
}

/// Whether each cell of the dependent column that is not NULL is a cell of the referenced one, which is another column.
pub fn is_included(columns: &[Row], dependent: usize, referenced: usize) -> bool
    requires dependent { dependent < length columns.now }
    requires referenced { referenced < length columns.now }
    ensures { result ≡ inclusion.included columns.now dependent referenced }
{
    dependent != referenced && are_cells_of(&columns[dependent], &columns[referenced])
}

// Whether each of these cells is NULL or a cell of the column.
fn are_cells_of(cells: &Row, column: &Row) -> bool
    ensures { result ≡ list_all (λ a. same_cell a [] || list_any (same_cell a) column.now) cells.now }
{
    for place in 0..cells.len() {
        if !is_null_or_cell_of(cells.cell(place), column) {
            return false;
        }
    }
    true
}

fn is_null_or_cell_of(cell: &[u8], column: &Row) -> bool
    ensures { result ≡ (same_cell cell.now [] || list_any (same_cell cell.now) column.now) }
{
    cell.is_empty() || has_cell(column, cell)
}

fn has_cell(column: &Row, cell: &[u8]) -> bool
    ensures { result ≡ list_any (same_cell cell.now) column.now }
{
    for place in 0..column.len() {
        if cell == column.cell(place) {
            return true;
        }
    }
    false
}
