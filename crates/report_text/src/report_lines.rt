// The report of a relation.
ghost use Rattle.std.specs.Prelude.{◌≡◌, ◌++◌, [], IfOk, OnOk, OnErr};
ghost use Rattle.std.specs.List.{enumerate_from, flat_map};
ghost use Rattle.report_text.specs.Report.{report_text, head_text, column_line, key_line, fd_line, approx_line};

use crate::Lines;
use crate::field::Field;
use crate::number_texts::NumberTexts;
use crate::plain_line::PlainLine;
use rel_base::{ColSet, Covers, Fd, Name, Row};
use std::alloc::{AllocError, Global};

/// The report of a relation: its name, the number of its columns and of its live rows, the names of
/// its columns, its minimal keys and its minimal dependencies, in the order of the covers.
pub fn report(
    alloc: Global,
    name: &Name,
    names: &Row,
    rows: u64,
    covers: &Covers,
) -> Result<Vec<u8>, AllocError>
    ensures { IfOk result (λ text. text.items ≡ report_text name.now names.now rows covers.now) }
{
    let mut lines = Lines::new(alloc);
    lines.push_report(name, names, rows, covers)?;
    lines.into_text()
}

impl Lines {
    /// Adds what `report` gives.
    #[tactic(auto, unfolding(crate::specs::Report::report_text, crate::specs::Report::head_text))]
    pub fn push_report(
        &mut self,
        name: &Name,
        names: &Row,
        rows: u64,
        covers: &Covers,
    ) -> Result<(), AllocError>
        ensures ok { OnOk result
            (self.new ≡ self.old ++ report_text name.now names.now rows covers.now) }
        ensures err { OnErr result (self.new ≡ []) }
    {
        self.push_head(name, names, rows)?;
        self.push_keys(covers.keys())?;
        self.push_fds(covers.fds())
    }

    /// Adds the lines that a report of a relation begins with: one for the relation, by its name, its columns and so many live rows, and one
    /// for each column.
    #[tactic(auto, unfolding(crate::specs::Report::head_text))]
    pub fn push_head(&mut self, name: &Name, names: &Row, rows: u64) -> Result<(), AllocError>
        ensures ok { OnOk result (self.new ≡ self.old ++ head_text name.now names.now rows) }
        ensures err { OnErr result (self.new ≡ []) }
    {
        self.push(&[
            Field::Bytes(b"relation"),
            Field::Bytes(name.bytes()),
            Field::Number(names.len() as u64),
            Field::Number(rows),
        ])?;
        self.push_columns(names)
    }

    /// Adds the line of a dependency that holds but for so many rows.
    pub fn push_approx_line(&mut self, fd: &Fd, removed: u32) -> Result<(), AllocError>
        ensures ok { OnOk result (self.new ≡ self.old ++ approx_line fd.now removed) }
        ensures err { OnErr result (self.new ≡ []) }
    {
        self.push(&[
            Field::Bytes(b"afd"),
            Field::Columns(fd.left),
            Field::Number(u64::from(fd.right) + 1),
            Field::Number(u64::from(removed)),
        ])
    }

    fn push_columns(&mut self, names: &Row) -> Result<(), AllocError>
        ensures ok { OnOk result
            (self.new ≡ self.old ++ flat_map column_line (enumerate_from 1 names.now)) }
        ensures err { OnErr result (self.new ≡ []) }
    {
        for place in 0..names.len() {
            self.push(&[
                Field::Bytes(b"column"),
                Field::Number(place as u64 + 1),
                Field::Bytes(names.cell(place)),
            ])?;
        }
        Ok(())
    }

    pub(crate) fn push_keys(&mut self, keys: &[ColSet]) -> Result<(), AllocError>
        ensures ok { OnOk result (self.new ≡ self.old ++ flat_map key_line keys.now) }
        ensures err { OnErr result (self.new ≡ []) }
    {
        let mut text = self.take_text()?;
        let numbers = NumberTexts::new();
        let mut line = PlainLine::new();
        for key in keys {
            line.write_key(&numbers, *key);
            text.extend_from_slice(line.as_slice())?;
        }
        self.put_text(text);
        Ok(())
    }

    pub(crate) fn push_fds(&mut self, fds: &[Fd]) -> Result<(), AllocError>
        ensures ok { OnOk result (self.new ≡ self.old ++ flat_map fd_line fds.now) }
        ensures err { OnErr result (self.new ≡ []) }
    {
        let mut text = self.take_text()?;
        let numbers = NumberTexts::new();
        let mut line = PlainLine::new();
        for fd in fds {
            line.write_fd(&numbers, fd);
            text.extend_from_slice(line.as_slice())?;
        }
        self.put_text(text);
        Ok(())
    }
}
