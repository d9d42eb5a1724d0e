// The values of a column, in order.
ghost use Rattle.std.specs.Prelude.{◌≡◌, ◌↔◌, ℕ, List, IfOk};
ghost use Rattle.std.specs.List.{filter};
ghost use Rattle.col_set.specs.Lists.{Listed, Rises};
ghost use Rattle.inclusion_merge.specs.Asked.{asked_cells};
ghost use Rattle.inclusion_merge.specs.Marks.{is_marked};
ghost use Rattle.inclusion_merge.specs.Values.{IsValuesOf, is_chosen, value_cmp};

use crate::marks::Marks;
use crate::value::Value;
use rel_base::Row;
use std::alloc::{AllocError, Global};

/// The distinct cells of a column that are not NULL and in this set, in order; of no column none. No cell is copied.
pub(crate) fn values_of<'a>(
    alloc: Global,
    column: Option<&'a Row>,
    marks: &Marks,
) -> Result<Vec<Value<'a>>, AllocError>
    ensures { IfOk result (λ values. IsValuesOf (is_marked marks.now) (asked_cells column.entry) values.items) }
{
    let Some(column) = column else {
        return Ok(Vec::new(alloc));
    };
    let cells = chosen_cells(alloc, column, marks)?;
    Ok(distinct_in_order(cells))
}

fn chosen_cells<'a>(
    alloc: Global,
    column: &'a Row,
    marks: &Marks,
) -> Result<Vec<Value<'a>>, AllocError>
    ensures { IfOk result (λ values. values.items ≡ filter (is_chosen (is_marked marks.now)) column.now) }
{
    let mut values = Vec::with_capacity(alloc, column.len())?;
    for place in 0..column.len() {
        let bytes = column.cell(place);
        if is_chosen(bytes, marks) {
            values.push(Value::of(bytes))?;
        }
    }
    Ok(values)
}

fn is_chosen(bytes: &[u8], marks: &Marks) -> bool
    ensures { result ≡ is_chosen (is_marked marks.now) bytes.now }
{
    !bytes.is_empty() && marks.has(bytes)
}

fn distinct_in_order<'a>(cells: Vec<Value<'a>>) -> Vec<Value<'a>>
    ensures rises { Rises value_cmp result.items }
    ensures each { (a : List ℕ) → Listed a result.items ↔ Listed a cells.entry.items }
{
    let mut values = cells;
    values.sort_unstable();
    values.dedup();
    values.shrink_to_fit();
    values
}
