// Closures of column sets.
ghost use Rattle.std.specs.Prelude.{◌≡◌};
ghost use Rattle.col_set.specs.ColSet.{IsSubset, subset};
ghost use Rattle.fd_closure.specs.Closure.{closure_of};
ghost use Rattle.fd_closure.specs.Keys.{shrunk};

use crate::group::has_left_inside;
use rel_base::{ColSet, Covers, MOST_COLUMNS};

/// The columns that x determines, by the minimal dependencies of a relation: x, and each column that has a left side inside x.
///
/// This is one pass, since every dependency that holds has a minimal left side inside its own (the closure of Normalize,
/// Papenbrock and Naumann, 2017). It takes no memory, and finds the dependencies of a column by halves: for each column outside x
/// it looks at left sides of at most as many columns as x has, up to the first that lies inside x. Of other lists of dependencies
/// `closure_under` is the closure.
pub fn closure(covers: &Covers, x: ColSet) -> ColSet
    ensures own { IsSubset x result }
    ensures value { result ≡ closure_of covers.now.fds x }
{
    let fds = covers.fds();
    let mut reached = x;
    let mut rest = ColSet::all(MOST_COLUMNS).minus(x);
    while let Some(column) = rest.first() {
        if has_left_inside(fds, x, column) {
            reached = reached.with(column);
        }
        rest = rest.without(column);
    }
    reached
}

/// Whether x determines every column of s, by the minimal dependencies of a relation.
///
/// It stops at the first column that x does not determine, and else looks at what `closure` looks at for the columns of s.
pub fn determines(covers: &Covers, x: ColSet, s: ColSet) -> bool
    ensures { result ≡ subset s (closure_of covers.now.fds x) }
{
    let fds = covers.fds();
    let mut rest = s.minus(x);
    while let Some(column) = rest.first() {
        if !has_left_inside(fds, x, column) {
            return false;
        }
        rest = rest.without(column);
    }
    true
}

/// The key of the table s: its columns are tried in descending order, and each is dropped where the rest still determines s.
///
/// It takes a call of `determines` for each column of s.
pub fn shrink_key(covers: &Covers, s: ColSet) -> ColSet
    ensures inside { IsSubset result s }
    ensures value { result ≡ shrunk (λ x. subset s (closure_of covers.now.fds x)) MOST_COLUMNS s }
{
    let mut key = s;
    for column in (0..MOST_COLUMNS).rev() {
        if key.has(column) && determines(covers, key.without(column), s) {
            key = key.without(column);
        }
    }
    key
}
