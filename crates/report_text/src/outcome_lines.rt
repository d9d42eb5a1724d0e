// What became of files and of batches.
ghost use Rattle.std.specs.Prelude.{◌≡◌, ◌++◌, [], IfOk, OnOk, OnErr};
ghost use Rattle.report_text.specs.Outcome.{file_line, fault_line, applied_line, demo_line, refused_line, refusal_line};

use crate::Lines;
use crate::field::Field;
use itoa::Buffer;
use rel_base::{Name, Why};
use std::alloc::{AllocError, Global};

/// A file was refused at a record, counted from 1, or 0 where no record is at fault.
pub fn file_line(alloc: Global, name: &Name, rec: u64, why: Why) -> Result<Vec<u8>, AllocError>
    ensures { IfOk result (λ text. text.items ≡ file_line name.now rec why) }
{
    let mut lines = Lines::new(alloc);
    lines.push_file_line(name, rec, why)?;
    lines.into_text()
}

/// A file could not be read.
pub fn fault_line(alloc: Global, name: &Name) -> Result<Vec<u8>, AllocError>
    ensures { IfOk result (λ text. text.items ≡ fault_line name.now) }
{
    let mut lines = Lines::new(alloc);
    lines.push_fault_line(name)?;
    lines.into_text()
}

/// A batch was applied: its number, how many operations of each kind it had, and how many rows live
/// after it.
pub fn applied_line(
    alloc: Global,
    batch: u32,
    inserted: u32,
    deleted: u32,
    live: u32,
) -> Result<Vec<u8>, AllocError>
    ensures { IfOk result (λ text. text.items ≡ applied_line batch inserted deleted live) }
{
    let mut lines = Lines::new(alloc);
    lines.push_applied_line(batch, inserted, deleted, live)?;
    lines.into_text()
}

/// A batch was refused: its number, and the record of the change text that is at fault.
pub fn refused_line(alloc: Global, batch: u32, rec: u64, why: Why) -> Result<Vec<u8>, AllocError>
    ensures { IfOk result (λ text. text.items ≡ refused_line batch rec why) }
{
    let mut lines = Lines::new(alloc);
    lines.push_refused_line(batch, rec, why)?;
    lines.into_text()
}

/// How many lines of each kind a normalisation of the relation of a seed writes: keys, dependencies, inclusions and tables. The
/// relation has 12 columns and 5,000 rows.
pub fn demo_line(
    alloc: Global,
    seed: u32,
    keys: u64,
    fds: u64,
    inclusions: u64,
    tables: u64,
) -> Result<Vec<u8>, AllocError>
    ensures { IfOk result (λ text. text.items ≡ demo_line seed keys fds inclusions tables) }
{
    let mut lines = Lines::new(alloc);
    lines.push(&[
        Field::Bytes(b"demo"),
        Field::Number(u64::from(seed)),
        Field::Bytes(b"12"),
        Field::Bytes(b"5000"),
        Field::Number(keys),
        Field::Number(fds),
        Field::Number(inclusions),
        Field::Number(tables),
    ])?;
    lines.into_text()
}

impl Lines {
    /// Adds what `file_line` gives.
    pub fn push_file_line(&mut self, name: &Name, rec: u64, why: Why) -> Result<(), AllocError>
        ensures ok { OnOk result (self.new ≡ self.old ++ file_line name.now rec why) }
        ensures err { OnErr result (self.new ≡ []) }
    {
        self.push_refusal(name.bytes(), rec, why)
    }

    /// Adds what `fault_line` gives.
    pub fn push_fault_line(&mut self, name: &Name) -> Result<(), AllocError>
        ensures ok { OnOk result (self.new ≡ self.old ++ fault_line name.now) }
        ensures err { OnErr result (self.new ≡ []) }
    {
        self.push(&[
            Field::Bytes(b"fault"),
            Field::Bytes(b"read"),
            Field::Bytes(name.bytes()),
        ])
    }

    /// Adds what `applied_line` gives.
    pub fn push_applied_line(
        &mut self,
        batch: u32,
        inserted: u32,
        deleted: u32,
        live: u32,
    ) -> Result<(), AllocError>
        ensures ok { OnOk result (self.new ≡ self.old ++ applied_line batch inserted deleted live) }
        ensures err { OnErr result (self.new ≡ []) }
    {
        self.push(&[
            Field::Bytes(b"applied"),
            Field::Number(u64::from(batch)),
            Field::Number(u64::from(inserted)),
            Field::Number(u64::from(deleted)),
            Field::Number(u64::from(live)),
        ])
    }

    /// Adds what `refused_line` gives.
    pub fn push_refused_line(&mut self, batch: u32, rec: u64, why: Why) -> Result<(), AllocError>
        ensures ok { OnOk result (self.new ≡ self.old ++ refused_line batch rec why) }
        ensures err { OnErr result (self.new ≡ []) }
    {
        self.push_refusal(Buffer::new().format(batch).as_bytes(), rec, why)
    }

    fn push_refusal(&mut self, what: &[u8], rec: u64, why: Why) -> Result<(), AllocError>
        ensures ok { OnOk result (self.new ≡ self.old ++ refusal_line what.now rec why) }
        ensures err { OnErr result (self.new ≡ []) }
    {
        self.push(&[
            Field::Bytes(b"refused"),
            Field::Bytes(what),
            Field::Number(rec),
            Field::Number(u64::from(why.code())),
        ])
    }
}
