// Canonical dependencies.
ghost use Rattle.std.specs.Prelude.{◌≡◌, ◌<◌, ◌++◌, ◌∷◌, IfOk, OnOk};
ghost use Rattle.std.specs.List.{All};
ghost use Rattle.col_set.specs.declared.col_set.TheConstants.{MOST_COLUMNS};
ghost use Rattle.fd_closure.specs.Closure.{Tells};
ghost use Rattle.rel_base.specs.Covers.{IsInOrder};
ghost use Rattle.synth_3nf.specs.Canonical as words;
ghost use Rattle.synth_3nf.specs.Ending.{TellsEnd};
ghost use Rattle.synth_3nf.specs.Reached as reaching;

use crate::reach::widened;
use fd_closure::LeftSides;
use rel_base::{Covers, Fd};
use std::alloc::{AllocError, Global};

/// The dependencies that are left where each in turn is dropped that follows from the others left (a minimum cover, Maier, 1980).
///
/// While the dependencies on one column are tried, none on another column is dropped, and those on later columns are all there. So an
/// index of all left sides tells what is reached on later columns, and of the others the kept ones and those on the column itself are
/// walked. It takes the index, a look-up in it and a walk over the kept ones for each dependency, and more of both where several steps
/// are needed: about the number of dependencies by the number of kept ones.
pub fn canonical(alloc: Global, covers: &Covers) -> Result<Vec<Fd>, AllocError>
    ensures { IfOk result (λ kept. kept.items ≡ words.canonical covers.now.fds) }
{
    let sides = LeftSides::of(alloc, covers)?;
    kept_of(alloc, &sides, covers.fds())
}

// Those that are kept of the dependencies of which these are the left sides.
fn kept_of(alloc: Global, sides: &LeftSides, fds: &[Fd]) -> Result<Vec<Fd>, AllocError>
    requires told { Tells fds.now sides.now }
    requires order { IsInOrder fds.now }
    ensures { IfOk result (λ kept. kept.items ≡ words.canonical fds.now) }
{
    let mut kept = Vec::new(alloc);
    let mut rest = fds;
    while let Some((fd, later)) = rest.split_first() {
        if !follows(sides, kept.as_slice(), later, *fd) {
            kept.push(*fd)?;
        }
        rest = later;
    }
    Ok(kept)
}

// Whether a dependency follows from the kept ones and the later ones together.
fn follows(sides: &LeftSides, kept: &[Fd], later: &[Fd], fd: Fd) -> bool
    requires kept { All (λ fd. fd.right < MOST_COLUMNS) kept.now }
    requires told { TellsEnd sides.now fd.right later.now }
    requires own { fd.right < MOST_COLUMNS }
    ensures { result ≡ reaching.follows (kept.now ++ later.now) fd }
{
    if fd.left.has(fd.right) {
        return true;
    }
    let mut reached = fd.left;
    let mut next = widened(sides, kept, later, fd.right, reached);
    while next != reached {
        if next.has(fd.right) {
            return true;
        }
        reached = next;
        next = widened(sides, kept, later, fd.right, reached);
    }
    false
}
