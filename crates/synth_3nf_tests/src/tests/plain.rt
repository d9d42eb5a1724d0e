// Synthesis by its definition, with closures by all column sets.
ghost use Rattle.std.specs.Prelude.{◌≤◌};

use rel_base::{ColSet, Fd, MOST_COLUMNS, Table};
use std::alloc::{AllocError, Global};

// Whether a set has the right column of each dependency whose left side it has.
fn is_closed(fds: &[Fd], set: ColSet) -> bool {
    fds.iter()
        .all(|fd| !fd.left.subset_of(set) || has(set, fd.right))
}

pub fn has(set: ColSet, column: u8) -> bool {
    column < MOST_COLUMNS && set.has(column)
}

// The columns that each closed set of n columns around x has: with ten columns some thousand sets are looked at.
pub fn reached(fds: &[Fd], n: u8, x: ColSet) -> ColSet
    requires { n ≤ 128 }
{
    let mut common = ColSet::all(n);
    for bits in 0..1u128 << n.min(10) {
        let set = ColSet::of_bits(bits);
        if x.subset_of(set) && is_closed(fds, set) {
            common = common.inter(set);
        }
    }
    common
}

// Those of the dependencies that are not this one.
fn others(alloc: Global, fds: &[Fd], fd: Fd) -> Result<Vec<Fd>, AllocError> {
    fds.iter()
        .copied()
        .filter(|other| *other != fd)
        .collect(alloc)
}

// The dependencies less each in turn that follows from the others left.
pub fn canonical(alloc: Global, fds: &[Fd], n: u8) -> Result<Vec<Fd>, AllocError>
    requires { n ≤ 128 }
{
    let mut left: Vec<Fd> = fds.iter().copied().collect(alloc)?;
    for fd in fds {
        let rest = others(alloc, left.as_slice(), *fd)?;
        if has(reached(rest.as_slice(), n, fd.left), fd.right) {
            left = rest;
        }
    }
    Ok(left)
}

// The columns of the left side x and on the right of it.
fn columns_by(kept: &[Fd], x: ColSet) -> ColSet {
    kept.iter()
        .filter(|fd| fd.left == x)
        .fold(x, |columns, fd| columns.with(fd.right % MOST_COLUMNS))
}

// All n columns, each dropped from the last one on where the rest still reaches all.
fn whole_key(fds: &[Fd], n: u8) -> ColSet
    requires { n ≤ 128 }
{
    let mut key = ColSet::all(n);
    for column in (0..n).rev() {
        let rest = key.minus(ColSet::of_bits(1u128 << column));
        if reached(fds, n, rest) == ColSet::all(n) {
            key = rest;
        }
    }
    key
}

// A table for each left side, and the table of a key where none has columns that reach all.
fn all_tables(alloc: Global, fds: &[Fd], n: u8) -> Result<Vec<Table>, AllocError>
    requires { n ≤ 128 }
{
    let kept = canonical(alloc, fds, n)?;
    let mut lefts: Vec<ColSet> = kept.iter().map(|fd| fd.left).collect(alloc)?;
    lefts.sort_unstable_by(|one, other| one.cmp_report(*other));
    lefts.dedup();
    let mut tables = Vec::new(alloc);
    let mut is_joined = false;
    for key in lefts.as_slice() {
        let columns = columns_by(kept.as_slice(), *key);
        is_joined = is_joined || reached(fds, n, columns) == ColSet::all(n);
        tables.push(Table { columns, key: *key })?;
    }
    if !is_joined {
        let key = whole_key(fds, n);
        tables.push(Table { columns: key, key })?;
    }
    Ok(tables)
}

// The tables of dependencies of n columns.
pub fn tables(alloc: Global, fds: &[Fd], n: u8) -> Result<Vec<Table>, AllocError>
    requires { n ≤ 128 }
{
    let all = all_tables(alloc, fds, n)?;
    let mut kept = Vec::new(alloc);
    for (place, table) in all.iter().enumerate() {
        let is_inside = all.iter().enumerate().any(|(other_place, other)| {
            table.columns.subset_of(other.columns)
                && (other_place < place || other_place > place && table.columns != other.columns)
        });
        if !is_inside {
            kept.push(*table)?;
        }
    }
    Ok(kept)
}
