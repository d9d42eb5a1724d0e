// Dependencies that are chosen.
ghost use Rattle.std.specs.Prelude.{◌≡◌, [], IfOk};
ghost use Rattle.rel_base.specs.Covers.{IsInOrder};
ghost use Rattle.synth_3nf.specs.Shorter as words;

use rel_base::{Covers, Fd};
use std::alloc::{AllocError, Global};

/// The dependencies of the covers that have at most `most` columns on the left, and no keys. They are copied.
pub fn shorter(alloc: Global, covers: &Covers, most: u8) -> Result<Covers, AllocError>
    ensures fds { IfOk result (λ chosen. chosen.fds ≡ words.shorter most covers.now.fds) }
    ensures keys { IfOk result (λ chosen. chosen.keys ≡ []) }
{
    let fds = shorter_of(alloc, covers.fds(), most)?;
    Ok(Covers::of(Vec::new(alloc), fds))
}

// Those of some dependencies.
fn shorter_of(alloc: Global, fds: &[Fd], most: u8) -> Result<Vec<Fd>, AllocError>
    ensures { IfOk result (λ chosen. chosen.items ≡ words.shorter most fds.now) }
{
    fds.iter()
        .copied()
        .filter(|fd| fd.left.len() <= u32::from(most))
        .collect(alloc)
}
