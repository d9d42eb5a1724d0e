// The fields of a line.
ghost use Rattle.std.specs.Prelude.{◌≡◌, ◌+◌, ◌++◌, OnOk};
ghost use Rattle.report_text.specs.Field.{column_mark, columns_text, marks_text};

use itoa::Buffer;
use rel_base::ColSet;
use std::alloc::AllocError;

/// A field of a line.
#[derive(Clone, Copy)]
pub(crate) enum Field<'a> {
    Bytes(&'a [u8]),
    Number(u64),
    Columns(ColSet),
    // A relation by its number, and columns of it, counted from 0.
    Marks(u64, &'a [u8]),
}

// Puts the text of a column set in the place of what `text` holds.
pub(crate) fn write_columns(text: &mut Vec<u8>, set: ColSet) -> Result<(), AllocError>
    ensures { OnOk result (text.new.items ≡ columns_text set) }
{
    text.clear();
    let Some(first) = set.first() else {
        return Ok(());
    };
    let mut number = Buffer::new();
    text.extend_from_slice(number.format(first + 1).as_bytes())?;
    let mut rest = set.without(first);
    while let Some(column) = rest.first() {
        text.push(b' ')?;
        text.extend_from_slice(number.format(column + 1).as_bytes())?;
        rest = rest.without(column);
    }
    Ok(())
}

// Puts the names of these columns of a relation in the place of what `text` holds.
pub(crate) fn write_marks(
    text: &mut Vec<u8>,
    relation: u64,
    columns: &[u8],
) -> Result<(), AllocError>
    ensures { OnOk result (text.new.items ≡ marks_text relation columns.now) }
{
    text.clear();
    let Some((first, rest)) = columns.split_first() else {
        return Ok(());
    };
    push_mark(text, relation, *first)?;
    for column in rest {
        text.push(b' ')?;
        push_mark(text, relation, *column)?;
    }
    Ok(())
}

// Adds the name of a column, which is counted from 0.
pub(crate) fn push_mark(text: &mut Vec<u8>, relation: u64, column: u8) -> Result<(), AllocError>
    ensures { OnOk result (text.new.items ≡ text.old.items ++ column_mark relation (column + 1)) }
{
    let mut number = Buffer::new();
    text.extend_from_slice(number.format(relation).as_bytes())?;
    text.push(b'.')?;
    text.extend_from_slice(number.format(u64::from(column) + 1).as_bytes())
}
