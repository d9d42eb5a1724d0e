// Inclusions between columns.
ghost use Rattle.std.specs.Prelude.{◌≡◌, ◌<◌, ◌++◌, ◌+◌, [], sum, All, IfOk, OnOk, OnErr};
ghost use Rattle.csv.specs.Records.{fields_of, partial_of};
ghost use Rattle.report_text.specs.Field.{column_mark};
ghost use Rattle.report_text.specs.Inclusions.{inclusions_text, inclusion_word, column_marks, list_inclusion_line, relation_marks};

use crate::Lines;
use crate::field::{Field, push_mark};
use csv::ByteRecord;
use rel_base::Row;
use std::alloc::{AllocError, Global};

/// Inclusions between columns, the dependent column first.
///
/// A pair names two positions, counted from 0, among the columns of relations of these widths, one
/// relation after another.
pub fn inclusions(
    alloc: Global,
    widths: &[u8],
    pairs: &[(usize, usize)],
) -> Result<Vec<u8>, AllocError>
    requires { All (λ pair. (pair.0 < sum widths.now) × (pair.1 < sum widths.now)) pairs.now }
    ensures { IfOk result (λ text. text.items ≡ inclusions_text widths.now pairs.now) }
{
    let mut lines = Lines::new(alloc);
    lines.push_inclusions(widths, pairs)?;
    lines.into_text()
}

impl Lines {
    /// Adds what `inclusions` gives.
    #[tactic(auto, unfolding(crate::specs::Inclusions::inclusions_text))]
    pub fn push_inclusions(
        &mut self,
        widths: &[u8],
        pairs: &[(usize, usize)],
    ) -> Result<(), AllocError>
        requires { All (λ pair. (pair.0 < sum widths.now) × (pair.1 < sum widths.now)) pairs.now }
        ensures ok { OnOk result (self.new ≡ self.old ++ inclusions_text widths.now pairs.now) }
        ensures err { OnErr result (self.new ≡ []) }
    {
        let Ok(marks) = column_marks(self.allocator(), widths) else {
            self.clear();
            return Err(AllocError);
        };
        for (dependent, referenced) in pairs {
            self.push(&[
                Field::Bytes(b"ind"),
                Field::Bytes(marks.cell(*dependent)),
                Field::Bytes(marks.cell(*referenced)),
            ])?;
        }
        Ok(())
    }

    /// Adds the line of an inclusion of lists: columns of one relation, and beside each of them the column of a relation that it is included in.
    ///
    /// Relations are numbered from 1, and columns are counted from 0. The names of the columns are made in memory that the next line uses again.
    pub fn push_list_inclusion(
        &mut self,
        dep_rel: u64,
        dep_cols: &[u8],
        into_rel: u64,
        into_cols: &[u8],
    ) -> Result<(), AllocError>
        ensures ok { OnOk result (self.new ≡ self.old ++ list_inclusion_line dep_rel dep_cols.now into_rel into_cols.now) }
        ensures err { OnErr result (self.new ≡ []) }
    {
        self.push(&[
            Field::Bytes(inclusion_word(dep_cols)),
            Field::Marks(dep_rel, dep_cols),
            Field::Marks(into_rel, into_cols),
        ])
    }
}

// The word of an inclusion: lists of one column are columns.
fn inclusion_word(columns: &[u8]) -> &'static [u8]
    ensures { result.now ≡ inclusion_word columns.now }
{
    match columns {
        [_] => b"ind",
        _ => b"nind",
    }
}

// What names each column of relations of these widths. Many lines name one column, so each name is
// made once.
fn column_marks(alloc: Global, widths: &[u8]) -> Result<Row, AllocError>
    ensures { IfOk result (λ marks. marks ≡ column_marks widths.now) }
{
    let mut marks = ByteRecord::new(alloc);
    let mut mark = Vec::new(alloc);
    for (place, width) in widths.iter().enumerate() {
        push_relation_marks(&mut marks, &mut mark, place as u64 + 1, *width)?;
    }
    Ok(Row::of(marks))
}

fn push_relation_marks(
    marks: &mut ByteRecord,
    mark: &mut Vec<u8>,
    relation: u64,
    width: u8,
) -> Result<(), AllocError>
    requires { partial_of marks.old ≡ [] }
    ensures partial { OnOk result (partial_of marks.new ≡ []) }
    ensures fields { OnOk result
        (fields_of marks.new ≡ fields_of marks.old ++ relation_marks (relation, width)) }
{
    for column in 0..width {
        write_mark(mark, relation, column)?;
        marks.push_field(mark.as_slice())?;
    }
    Ok(())
}

// Puts the name of a column, which is counted from 0, in the place of what `mark` holds.
fn write_mark(mark: &mut Vec<u8>, relation: u64, column: u8) -> Result<(), AllocError>
    ensures { OnOk result (mark.new.items ≡ column_mark relation (column + 1)) }
{
    mark.clear();
    push_mark(mark, relation, column)
}
