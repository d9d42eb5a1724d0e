// What column sets reach by kept dependencies and later ones together.
ghost use Rattle.std.specs.Prelude.{◌≡◌, ◌≢◌, ◌++◌, ◌<◌, false, List};
ghost use Rattle.std.specs.List.{All};
ghost use Rattle.col_set.specs.ColSet.{Columns, IsSubset, all, has, minus};
ghost use Rattle.col_set.specs.declared.col_set.TheConstants.{MOST_COLUMNS};
ghost use Rattle.fd_closure.specs.Closure.{Tells};
ghost use Rattle.fd_closure.specs.Closure as closing;
ghost use Rattle.fd_closure.specs.Under.{IsClosed, on_columns};
ghost use Rattle.rel_base.specs.declared.dependency.Fd as dependencies;
ghost use Rattle.synth_3nf.specs.Ending.{AreFrom, IsWithLater, TellsEnd};

use fd_closure::LeftSides;
use rel_base::{ColSet, Fd, MOST_COLUMNS};

// What is reached from the start in some steps by the kept dependencies and the later ones, which are on the right column and on
// columns behind it: the later ones on columns behind it that the start allows, and then the kept
// ones in a walk. Where a dependency on
// the right column itself can be taken, the walk over the kept ones is spared.
pub(crate) fn widened(
    sides: &LeftSides,
    kept: &[Fd],
    later: &[Fd],
    right: u8,
    start: ColSet,
) -> ColSet
    requires kept { All (λ fd. fd.right < MOST_COLUMNS) kept.now }
    requires told { TellsEnd sides.now right later.now }
    requires own { right < MOST_COLUMNS }
    ensures grown { IsSubset start result }
    ensures within { (z : Columns) → IsClosed (kept.now ++ later.now) z → IsSubset start z → IsSubset result z }
    ensures settled { has start right ≡ false → result ≡ start → IsClosed (kept.now ++ later.now) start }
    ensures fewer { result ≢ start → minus (all MOST_COLUMNS) result < minus (all MOST_COLUMNS) start }
{
    let behind = with_later(sides, right, start);
    if has_left_inside(later, right, behind) {
        return behind.with(right);
    }
    let more = walked(kept, behind);
    if has_left_inside(later, right, more) {
        return more.with(right);
    }
    more
}

// What is reached, and the right column of each dependency whose left side lies in what is reached when the walk comes to it.
fn walked(fds: &[Fd], start: ColSet) -> ColSet
    ensures grown { IsSubset start result }
    ensures within { (z : Columns) → IsClosed (on_columns fds.now) z → IsSubset start z → IsSubset result z }
    ensures settled { result ≡ start → IsClosed (on_columns fds.now) start }
{
    let mut reached = start;
    for fd in fds {
        if fd.right < MOST_COLUMNS && fd.left.subset_of(reached) {
            reached = reached.with(fd.right);
        }
    }
    reached
}

// The start with each column behind the right one that has a left side inside it.
fn with_later(sides: &LeftSides, right: u8, start: ColSet) -> ColSet
    requires { right < MOST_COLUMNS }
    ensures { (fds : List dependencies.Fd) → Tells fds sides.now → IsWithLater fds right start result }
{
    let behind = ColSet::all(MOST_COLUMNS).minus(ColSet::all(right + 1));
    start.union(sides.closure(start).inter(behind))
}

// Whether one of the dependencies on this column, which stand before those on columns behind it, has a left side inside x.
fn has_left_inside(later: &[Fd], right: u8, x: ColSet) -> bool
    requires { AreFrom right later.now }
    ensures { result ≡ closing.has_left_inside later.now x right }
{
    let mut rest = later;
    while let Some((fd, others)) = rest.split_first() {
        if fd.right != right {
            return false;
        }
        if fd.left.subset_of(x) {
            return true;
        }
        rest = others;
    }
    false
}
