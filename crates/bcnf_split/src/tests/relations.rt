// Small relations, of which each row is a number and each of its decimal digits a cell, the last one first.
ghost use Rattle.std.specs.Prelude.{◌≤◌};
ghost use Rattle.col_set.specs.Target.{IsColumnTarget};

use rel_base::{ColSet, Covers, Fd, Target};
use std::alloc::{AllocError, Global};
use std::process::Abort;

// The columns in which two rows agree.
fn agree(n: u8, mut one: u32, mut other: u32) -> ColSet
    requires { n ≤ 8 }
{
    let mut set = ColSet::empty();
    for column in 0..n {
        if one % 10 == other % 10 {
            set = set.with(column);
        }
        one /= 10;
        other /= 10;
    }
    set
}

// The agree sets of all pairs of rows.
pub fn agree_sets_of(alloc: Global, n: u8, rows: &[u32]) -> Result<Vec<ColSet>, AllocError>
    requires { n ≤ 8 }
{
    let mut sets = Vec::new(alloc);
    for j in 0..rows.len() {
        for i in 0..j {
            sets.push(agree(n, rows[i], rows[j]))?;
        }
    }
    Ok(sets)
}

// The column sets that no agree set refutes for the target, and that have no smaller such set, in report order.
fn least_sets(
    alloc: Global,
    n: u8,
    sets: &[ColSet],
    target: Target,
) -> Result<Vec<ColSet>, AllocError>
    requires few { n ≤ 8 }
    requires target { IsColumnTarget 128 target }
{
    let mut standing = Vec::new(alloc);
    for bits in 0..1u32 << n {
        let x = ColSet::of_bits(u128::from(bits));
        if !x.has_target(target) && !sets.iter().any(|w| w.refutes(x, target)) {
            standing.push(x)?;
        }
    }
    standing.sort()?;
    let mut least: Vec<ColSet> = Vec::new(alloc);
    for x in standing.as_slice() {
        if !least.iter().any(|y| y.subset_of(*x)) {
            least.push(*x)?;
        }
    }
    Ok(least)
}

// The covers that these agree sets leave.
pub fn covers_of(
    rt: &impl Abort,
    alloc: Global,
    n: u8,
    sets: &[ColSet],
) -> Result<Covers, AllocError>
    requires { n ≤ 8 }
{
    let keys = least_sets(alloc, n, sets, Target::RowId)?;
    let mut fds = Vec::new(alloc);
    for right in 0..n {
        for left in least_sets(alloc, n, sets, Target::Col(right))? {
            fds.push(Fd { left, right })?;
        }
    }
    Ok(Covers::checked(keys, fds).expect(rt, "least sets in order"))
}

// So many rows of n cells below `values`, by a generator of small numbers.
pub fn made_rows(
    alloc: Global,
    n: u8,
    count: u32,
    values: u32,
    seed: u32,
) -> Result<Vec<u32>, AllocError> {
    let mut rows = Vec::new(alloc);
    let mut state = seed % 65537;
    for _ in 0..count {
        let mut row: u32 = 0;
        for _ in 0..n {
            state = (state % 65537 * 75 + 74) % 65537;
            row = row.wrapping_mul(10).wrapping_add(state % values.max(1));
        }
        rows.push(row)?;
    }
    Ok(rows)
}
