// A certificate of covers.
ghost use Rattle.std.specs.Prelude.{◌≡◌, ◌≤◌, map, IfOk};
ghost use Rattle.col_set.specs.declared.col_set.TheConstants.{MOST_COLUMNS};
ghost use Rattle.cover_cert.specs.Evidence.{ordered};
ghost use Rattle.cover_cert.specs.Makes.{CertifiesAll};

use crate::evidence::needed;
use negative_cover::Witness;
use rel_base::{Covers, RowNo};
use report_text::certificate;
use std::alloc::{AllocError, Global};

// The rows of a witness, the one with the lesser number first.
fn pair_of(witness: &Witness) -> (RowNo, RowNo)
    ensures { result ≡ ordered witness.now }
{
    if witness.i.number() < witness.j.number() {
        (witness.i, witness.j)
    } else {
        (witness.j, witness.i)
    }
}

// The pairs of rows that a certificate names.
fn pairs_of(alloc: Global, witnesses: &[Witness]) -> Result<Vec<(RowNo, RowNo)>, AllocError>
    ensures { IfOk result (λ pairs. pairs.items ≡ map ordered witnesses.now) }
{
    let mut pairs = Vec::with_capacity(alloc, witnesses.len())?;
    for witness in witnesses {
        pairs.push(pair_of(witness))?;
    }
    Ok(pairs)
}

/// A certificate of the covers of so many rows with so many columns, whose witnesses leave these covers. It names the rows of as few
/// witnesses as leave them.
///
/// It takes the time of its lines, and for each witness a walk over the agree sets that lie around its own.
pub fn make(
    alloc: Global,
    columns: u8,
    rows: u32,
    witnesses: &[Witness],
    found: &Covers,
) -> Result<Vec<u8>, AllocError>
    requires { columns ≤ MOST_COLUMNS }
    ensures { IfOk result (λ text. CertifiesAll columns rows witnesses.now found.now text.items) }
{
    let kept = needed(alloc, columns, witnesses)?;
    let pairs = pairs_of(alloc, &kept)?;
    certificate(alloc, u64::from(columns), u64::from(rows), &pairs, found)
}
