// Tables, and the files of their rows.
ghost use Rattle.std.specs.Prelude.{◌≡◌, ◌++◌, [], IfOk, OnOk, OnErr};
ghost use Rattle.std.specs.List.{flat_map};
ghost use Rattle.report_text.specs.Tables.{tables_text, table_file_text, alternate_line, alternates_of, reference_line};

use crate::Lines;
use crate::field::Field;
use rel_base::{ColSet, Row, Table};
use std::alloc::{AllocError, Global};

/// The tables that a relation is split into, numbered from 1, each followed by its other minimal
/// keys.
///
/// An alternate is the number of its table and a key; they may come in any order. One whose number
/// is no table's is left out. All alternates are looked at once for each table.
pub fn tables(
    alloc: Global,
    tables: &[Table],
    alternates: &[(u32, ColSet)],
) -> Result<Vec<u8>, AllocError>
    ensures { IfOk result (λ text. text.items ≡ tables_text tables.now alternates.now) }
{
    let mut lines = Lines::new(alloc);
    lines.push_tables(tables, alternates)?;
    lines.into_text()
}

/// The file of a table: the names of its columns as the first record, and then its rows.
pub fn table_file(alloc: Global, names: &Row, rows: &[Row]) -> Result<Vec<u8>, AllocError>
    ensures { IfOk result (λ text. text.items ≡ table_file_text names.now rows.now) }
{
    let mut lines = Lines::new(alloc);
    lines.push_table_file(names, rows)?;
    lines.into_text()
}

impl Lines {
    /// Adds what `tables` gives.
    pub fn push_tables(
        &mut self,
        tables: &[Table],
        alternates: &[(u32, ColSet)],
    ) -> Result<(), AllocError>
        ensures ok { OnOk result (self.new ≡ self.old ++ tables_text tables.now alternates.now) }
        ensures err { OnErr result (self.new ≡ []) }
    {
        for (place, table) in tables.iter().enumerate() {
            let number = place as u64 + 1;
            self.push(&[
                Field::Bytes(b"table"),
                Field::Number(number),
                Field::Columns(table.columns),
                Field::Columns(table.key),
            ])?;
            self.push_alternates(number, alternates)?;
        }
        Ok(())
    }

    /// Adds the line of a reference: a table by its number, columns of it, and the number of the table that they are a key of.
    pub fn push_reference(&mut self, from: u32, key: ColSet, into: u32) -> Result<(), AllocError>
        ensures ok { OnOk result (self.new ≡ self.old ++ reference_line from key into) }
        ensures err { OnErr result (self.new ≡ []) }
    {
        self.push(&[
            Field::Bytes(b"reference"),
            Field::Number(u64::from(from)),
            Field::Columns(key),
            Field::Number(u64::from(into)),
        ])
    }

    fn push_alternates(
        &mut self,
        number: u64,
        alternates: &[(u32, ColSet)],
    ) -> Result<(), AllocError>
        ensures ok { OnOk result (self.new
            ≡ self.old ++ flat_map alternate_line (alternates_of alternates.now number)) }
        ensures err { OnErr result (self.new ≡ []) }
    {
        for (table, key) in alternates {
            if u64::from(*table) == number {
                self.push(&[
                    Field::Bytes(b"alternate"),
                    Field::Number(number),
                    Field::Columns(*key),
                ])?;
            }
        }
        Ok(())
    }

    /// Adds what `table_file` gives.
    #[tactic(auto, unfolding(crate::specs::Tables::table_file_text))]
    pub fn push_table_file(&mut self, names: &Row, rows: &[Row]) -> Result<(), AllocError>
        ensures ok { OnOk result (self.new ≡ self.old ++ table_file_text names.now rows.now) }
        ensures err { OnErr result (self.new ≡ []) }
    {
        self.push_row(names)?;
        for row in rows {
            self.push_row(row)?;
        }
        Ok(())
    }
}
