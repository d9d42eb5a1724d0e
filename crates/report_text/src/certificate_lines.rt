// A certificate of covers.
ghost use Rattle.std.specs.Prelude.{◌≡◌, ◌++◌, [], IfOk, OnOk, OnErr};
ghost use Rattle.std.specs.List.{flat_map};
ghost use Rattle.report_text.specs.Certificate.{certificate_text, cert_line, pair_line, end_line};

use crate::Lines;
use crate::field::Field;
use rel_base::{Covers, RowNo};
use std::alloc::{AllocError, Global};

/// A certificate: the number of columns and of rows, pairs of rows by their numbers, and the minimal keys and dependencies in the order
/// of the covers. It takes the time of its bytes.
#[tactic(auto, unfolding(crate::specs::Certificate::certificate_text))]
pub fn certificate(
    alloc: Global,
    columns: u64,
    rows: u64,
    pairs: &[(RowNo, RowNo)],
    covers: &Covers,
) -> Result<Vec<u8>, AllocError>
    ensures { IfOk result (λ text. text.items ≡ certificate_text columns rows pairs.now covers.now) }
{
    let mut lines = Lines::new(alloc);
    lines.push_size(columns, rows)?;
    lines.push_pairs(pairs)?;
    lines.push_keys(covers.keys())?;
    lines.push_fds(covers.fds())?;
    lines.push(&[Field::Bytes(b"end")])?;
    lines.into_text()
}

impl Lines {
    fn push_size(&mut self, columns: u64, rows: u64) -> Result<(), AllocError>
        ensures ok { OnOk result (self.new ≡ self.old ++ cert_line columns rows) }
        ensures err { OnErr result (self.new ≡ []) }
    {
        self.push(&[
            Field::Bytes(b"cert"),
            Field::Number(columns),
            Field::Number(rows),
        ])
    }

    fn push_pairs(&mut self, pairs: &[(RowNo, RowNo)]) -> Result<(), AllocError>
        ensures ok { OnOk result (self.new ≡ self.old ++ flat_map pair_line pairs.now) }
        ensures err { OnErr result (self.new ≡ []) }
    {
        for pair in pairs {
            self.push(&[
                Field::Bytes(b"pair"),
                Field::Number(u64::from(pair.0.number())),
                Field::Number(u64::from(pair.1.number())),
            ])?;
        }
        Ok(())
    }
}
