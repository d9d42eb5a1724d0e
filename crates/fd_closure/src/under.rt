// Closures of column sets under any list of dependencies.
ghost use Rattle.std.specs.Prelude.{◌≡◌, ◌≢◌, ◌<◌};
ghost use Rattle.col_set.specs.ColSet.{Columns, IsSubset, all, minus};
ghost use Rattle.fd_closure.specs.Under.{IsClosed, IsClosure, on_columns};

use rel_base::{ColSet, Fd, MOST_COLUMNS};

/// The columns that x determines by the listed dependencies and what follows from them: the least column set that contains x and has
/// the right column of each dependency whose left side it has.
///
/// The list may stand in any order and need be no relation's covers, as for dependencies that were chosen. It is walked again until a
/// walk adds no column, so at most once more than columns are added (the closure of Beeri and Bernstein, 1979, without their lists of
/// places); it takes no memory. On the covers of a relation `closure` finds the same in one pass. A dependency whose right side is no
/// column below `MOST_COLUMNS` adds nothing.
pub fn closure_under(fds: &[Fd], x: ColSet) -> ColSet
    ensures { IsClosure (on_columns fds.now) x result }
{
    let mut reached = x;
    let mut next = walked(fds, reached);
    while next != reached {
        reached = next;
        next = walked(fds, reached);
    }
    reached
}

// What is reached, and the right column of each dependency whose left side lies in what is reached when a walk comes to it.
fn walked(fds: &[Fd], start: ColSet) -> ColSet
    ensures grown { IsSubset start result }
    ensures within { (z : Columns) → IsClosed (on_columns fds.now) z → IsSubset start z → IsSubset result z }
    ensures settled { result ≡ start → IsClosed (on_columns fds.now) start }
    ensures fewer { result ≢ start → minus (all MOST_COLUMNS) result < minus (all MOST_COLUMNS) start }
{
    let mut reached = start;
    for fd in fds {
        if fd.right < MOST_COLUMNS && fd.left.subset_of(reached) {
            reached = reached.with(fd.right);
        }
    }
    reached
}
