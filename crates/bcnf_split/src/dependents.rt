// Whether a column set violates the normal form of a table.
ghost use Rattle.std.specs.Prelude.{◌≡◌, false, IfSome, MatchOption};
ghost use Rattle.col_set.specs.ColSet.{IsSubset, subset};
ghost use Rattle.fd_closure.specs.Closure.{Tells, closure_of};
ghost use Rattle.rel_base.specs.RowState.{RowState};
ghost use Rattle.bcnf_split.specs.Bcnf.{IsTableOf, violates};
ghost use Rattle.bcnf_split.specs.Search.{IsParting, IsViolation};

use crate::parted::Parting;
use fd_closure::{LeftSides, closure, determines};
use rel_base::{ColSet, Covers};

// How a column set inside the table s parts it: where it determines some column of s outside itself, and not all of s.
pub(crate) fn parting_by(
    covers: &Covers,
    index: Option<&LeftSides>,
    left: ColSet,
    s: ColSet,
) -> Option<Parting>
    requires inside { IsSubset left s }
    requires index { IfSome index (λ sides. Tells covers.now.fds sides.now) }
    ensures left { IfSome result (λ parting. parting.left ≡ left) }
    ensures smaller { IfSome result (IsParting s) }
    ensures told { (r : RowState) → IsTableOf covers.now r s → MatchOption result (violates r s left ≡ false) (IsViolation r s) }
{
    // By the list this stops at the first column that is not determined, where the closure looks at all.
    if determines_by(covers, index, left, s) {
        return None;
    }
    let determined = s.inter(closure_by(covers, index, left));
    if determined == s || determined == left {
        return None;
    }
    Some(Parting {
        left,
        dependents: determined.minus(left),
    })
}

// What x determines, by the index where there is one.
fn closure_by(covers: &Covers, index: Option<&LeftSides>, x: ColSet) -> ColSet
    requires { IfSome index (λ sides. Tells covers.now.fds sides.now) }
    ensures own { IsSubset x result }
    ensures value { result ≡ closure_of covers.now.fds x }
{
    match index {
        Some(sides) => sides.closure(x),
        None => closure(covers, x),
    }
}

// Whether x determines every column of s, by the index where there is one.
fn determines_by(covers: &Covers, index: Option<&LeftSides>, x: ColSet, s: ColSet) -> bool
    requires { IfSome index (λ sides. Tells covers.now.fds sides.now) }
    ensures { result ≡ subset s (closure_of covers.now.fds x) }
{
    match index {
        Some(sides) => sides.determines(x, s),
        None => determines(covers, x, s),
    }
}
