// Left sides with the columns beside them, in the order of their paths.
ghost use Rattle.std.specs.Prelude.{◌≡◌, ◌++◌, ◌∷◌, [], ℕ, IfOk, OnOk};
ghost use Rattle.col_set.specs.ColSet.{Columns};
ghost use Rattle.fd_closure.specs.Closure.{has_right_inside, Tells};

use rel_base::{ColSet, Covers, MOST_COLUMNS};
use std::alloc::{AllocError, Global};
use std::cmp::Ordering;

// The left sides of the covers, each once with all columns that it determines, in the order of their paths.
pub(crate) fn sides_of(alloc: Global, covers: &Covers) -> Result<Vec<(ColSet, ColSet)>, AllocError>
    ensures { IfOk result (λ sides. Tells covers.now.fds sides.items) }
{
    let mut single = single_sides(alloc, covers)?;
    single.sort_unstable_by(|one, other| cmp_path(one.0, other.0));
    joined_sides(alloc, single.as_slice())
}

// A left side for each dependency.
fn single_sides(alloc: Global, covers: &Covers) -> Result<Vec<(ColSet, ColSet)>, AllocError>
    ensures { IfOk result (λ sides. Tells covers.now.fds sides.items) }
{
    let mut sides = Vec::with_capacity(alloc, covers.fds().len())?;
    for fd in covers.fds() {
        if fd.right < MOST_COLUMNS {
            sides.push((fd.left, ColSet::empty().with(fd.right)))?;
        }
    }
    Ok(sides)
}

// Which path stands first, over columns ascending: that of the set with the first column in which they differ.
fn cmp_path(one: ColSet, other: ColSet) -> Ordering {
    match (one.minus(other).first(), other.minus(one).first()) {
        (Some(column), Some(another)) => column.cmp(&another),
        (Some(_), None) => Ordering::Less,
        (None, Some(_)) => Ordering::Greater,
        (None, None) => Ordering::Equal,
    }
}

// The sides, with one in place of those that stand one after another and have the same columns.
fn joined_sides(
    alloc: Global,
    single: &[(ColSet, ColSet)],
) -> Result<Vec<(ColSet, ColSet)>, AllocError>
    ensures { IfOk result (λ sides. (x : Columns) (a : ℕ) → has_right_inside sides.items x a ≡ has_right_inside single.now x a) }
{
    let mut sides = Vec::new(alloc);
    for side in single {
        put_side(&mut sides, *side)?;
    }
    Ok(sides)
}

// Puts a left side behind the others, or its columns beside the last one where they are the same.
fn put_side(sides: &mut Vec<(ColSet, ColSet)>, side: (ColSet, ColSet)) -> Result<(), AllocError>
    ensures { OnOk result ((x : Columns) (a : ℕ) → has_right_inside sides.new.items x a ≡ has_right_inside (sides.old.items ++ side ∷ []) x a) }
{
    match sides.pop() {
        Some(last) if last.0 == side.0 => {
            sides.push((side.0, last.1.union(side.1)))?;
        }
        Some(last) => {
            sides.push(last)?;
            sides.push(side)?;
        }
        None => sides.push(side)?,
    }
    Ok(())
}
