// The dependencies of one column among those of all columns, in order.
ghost use Rattle.std.specs.Prelude.{◌≡◌, ◌<◌, ◌≤◌, ◌==◌, ◌&&◌, ◌||◌, nat_lt, nat_le, true, false, length, IsTrue};
ghost use Rattle.std.specs.List.Sorted.{IsPartitionPoint};
ghost use Rattle.col_set.specs.ColSet.{subset};
ghost use Rattle.fd_closure.specs.Closure as words;
ghost use Rattle.rel_base.specs.Covers.{IsInOrder};
ghost use Rattle.fd_closure.specs.Closure.{is_before, is_short};

use rel_base::{ColSet, Fd};

// Whether a left side of the column is listed inside x.
pub(crate) fn has_left_inside(fds: &[Fd], x: ColSet, column: u8) -> bool
    requires { IsInOrder fds.now }
    ensures { result ≡ words.has_left_inside fds.now x column }
{
    // Most sets that determine a column are themselves a left side of it.
    is_left_side(fds, x, column) || has_short_left_inside(fds, x, column)
}

// Whether x itself is a left side of the column.
fn is_left_side(fds: &[Fd], x: ColSet, column: u8) -> bool
    ensures { IsTrue result → words.has_left_inside fds.now x column ≡ true }
{
    let wanted = Fd {
        left: x,
        right: column,
    };
    fds.binary_search_by(|fd| fd.cmp_report(wanted)).is_ok()
}

// Where the dependencies of the column begin.
fn start_of(fds: &[Fd], column: u8) -> usize
    requires { IsInOrder fds.now }
    ensures bound { result ≤ length fds.now }
    ensures place { IsPartitionPoint (λ fd. is_before column fd ≡ true) (λ fd. is_before column fd ≡ false) fds.now result }
{
    fds.partition_point(|fd| fd.right < column)
}

// Where those of the column end that have at most so many columns on the left.
fn end_of(fds: &[Fd], column: u8, size: u32) -> usize
    requires { IsInOrder fds.now }
    ensures bound { result ≤ length fds.now }
    ensures place { IsPartitionPoint (λ fd. is_short column size fd ≡ true) (λ fd. is_short column size fd ≡ false) fds.now result }
{
    fds.partition_point(|fd| fd.right < column || fd.right == column && fd.left.len() <= size)
}

// Whether a left side of the column lies inside x, by a walk over those of at most as many columns as x has.
fn has_short_left_inside(fds: &[Fd], x: ColSet, column: u8) -> bool
    requires { IsInOrder fds.now }
    ensures { result ≡ words.has_left_inside fds.now x column }
{
    let start = start_of(fds, column);
    let end = end_of(fds, column, x.len());
    for k in start..end {
        let fd = fds[k];
        if fd.right == column && fd.left.subset_of(x) {
            return true;
        }
    }
    false
}
