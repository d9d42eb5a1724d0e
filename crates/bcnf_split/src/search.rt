// The search for the first violation of normal form.
ghost use Rattle.std.specs.Prelude.{◌≡◌, ◌<◌, ◌↔◌, ◌&&◌, true, false, Some, IsTrue, IsNone, IfSome};
ghost use Rattle.std.specs.List.{Contains};
ghost use Rattle.col_set.specs.ColSet.{Columns, IsSubset, has, subset, report_cmp};
ghost use Rattle.std.specs.declared.cmp.Ordering.TheVariants.{Less};
ghost use Rattle.fd_closure.specs.Closure.{Tells};
ghost use Rattle.rel_base.specs.RowState.{RowState};
ghost use Rattle.bcnf_split.specs.Bcnf.{IsBcnf, IsTableOf, violates, first_violation};
ghost use Rattle.bcnf_split.specs.Search.{IsParting, IsViolation, IsFoundBy};

use crate::dependents::parting_by;
use crate::parted::Parting;
use fd_closure::LeftSides;
use rel_base::{ColSet, Covers, Fd, MOST_COLUMNS};

/// The first column set in report order that determines, inside the table s, some column outside itself and not all of s. There is
/// none exactly where s is in Boyce-Codd normal form.
///
/// The first such set is the left side of a minimal dependency, so this is one walk over the left sides of the covers, which must
/// be those of a relation. It takes no memory. A left side that is a key, or stands behind one that was found, takes a step or a
/// search by halves; each other left side inside s takes a call of `determines`.
pub fn violation(covers: &Covers, s: ColSet) -> Option<ColSet>
    ensures first { (r : RowState) → IsTableOf covers.now r s → result ≡ first_violation r s }
    ensures none { (r : RowState) → IsTableOf covers.now r s → IsNone result ↔ IsBcnf r s }
{
    first_parting(covers, None, s).map(|parting| parting.left)
}

// The first violation in report order, with what it determines in s. Closures go by the index where there is one.
pub(crate) fn first_parting(
    covers: &Covers,
    index: Option<&LeftSides>,
    s: ColSet,
) -> Option<Parting>
    requires { IfSome index (λ sides. Tells covers.now.fds sides.now) }
    ensures smaller { IfSome result (IsParting s) }
    ensures told { (r : RowState) → IsTableOf covers.now r s → IfSome result (IsViolation r s) }
    ensures first { (r : RowState) → IsTableOf covers.now r s → (x : Columns) → first_violation r s ≡ Some x → IsFoundBy x result }
{
    let fds = covers.fds();
    let mut first = None;
    for fd in fds {
        if is_ahead(covers, fd, s, &first) {
            if let Some(parting) = parting_by(covers, index, fd.left, s) {
                first = Some(parting);
            }
        }
    }
    first
}

// Whether a dependency lies inside s, and its left side stands before the violation that was found and may be one itself.
fn is_ahead(covers: &Covers, fd: &Fd, s: ColSet, first: &Option<Parting>) -> bool
    ensures inside { IsTrue result → IsSubset fd.now.left s }
    ensures before { IsTrue result → (x : Columns) → IsFoundBy x first.now → report_cmp fd.now.left x ≡ Less }
    ensures told { (r : RowState) → IsTableOf covers.now r s → has s fd.now.right ≡ true → violates r s fd.now.left ≡ true → result ≡ false → IsFoundBy fd.now.left first.now }
{
    lies_inside(fd, s) && stands_before(fd.left, first) && !is_key(covers, fd.left)
}

// Whether all columns of a dependency are in s.
fn lies_inside(fd: &Fd, s: ColSet) -> bool
    ensures only { IsTrue result → IsSubset fd.now.left s }
    ensures every { fd.now.right < MOST_COLUMNS → result ≡ (has s fd.now.right && subset fd.now.left s) }
{
    fd.right < MOST_COLUMNS && s.has(fd.right) && fd.left.subset_of(s)
}

// Whether x stands before the violation that was found, if there is one.
fn stands_before(x: ColSet, first: &Option<Parting>) -> bool
    ensures yes { IsTrue result → (y : Columns) → IsFoundBy y first.now → report_cmp x y ≡ Less }
    ensures no { result ≡ false → IsFoundBy x first.now }
{
    match first {
        Some(parting) => x < parting.left,
        None => true,
    }
}

// Whether x is one of the minimal keys.
fn is_key(covers: &Covers, x: ColSet) -> bool
    ensures { IsTrue result → Contains covers.now.keys x }
{
    covers
        .keys()
        .binary_search_by(|key| key.cmp_report(x))
        .is_ok()
}
