// Small relations, drawn at random, against the plain program.
ghost use Rattle.std.specs.Prelude.{◌≤◌, length};
ghost use Rattle.col_set.specs.declared.col_set.TheConstants.{MOST_COLUMNS};
ghost use Rattle.col_set.specs.Target.{IsColumnTarget};

use crate::plain;
use crate::tests::drawn::{Draw, snapshot_of};
use approx_fd::{approx, approx_by, near_keys};
use rel_base::{ColSet, Snapshot, Target};
use std::alloc::{AllocError, Global};
use std::process::Abort;
use std::test::Fail;
use std::thread::Threads;

// A left side with how many rows are to be removed.
type Counted = (ColSet, u32);

// Whether these left sides of a target, which stand in report order, are those of the definition.
fn are_as_defined(
    alloc: Global,
    snapshot: &Snapshot,
    target: Target,
    most: u32,
    found: &[Counted],
) -> Result<bool, AllocError>
    requires target { IsColumnTarget MOST_COLUMNS target }
    requires few { length snapshot.now.codes ≤ 8 }
{
    let mut wanted = Vec::new(alloc);
    for bits in 0..1u32 << snapshot.columns() {
        let left = ColSet::of_bits(u128::from(bits));
        if plain::is_minimal(alloc, snapshot, left, target, most as usize)? {
            let removed = plain::removed(alloc, snapshot, left, target)?;
            wanted.push((left, u32::try_from(removed).unwrap_or(u32::MAX)))?;
        }
    }
    wanted.sort_unstable();
    Ok(wanted.as_slice() == found)
}

// The left sides of a column.
fn lefts_of(
    alloc: Global,
    snapshot: &Snapshot,
    most: u32,
    column: u8,
) -> Result<Vec<Counted>, AllocError> {
    let mut lefts = Vec::new(alloc);
    for one in approx(alloc, snapshot, most)?.iter() {
        if one.fd.right == column {
            lefts.push((one.fd.left, one.removed))?;
        }
    }
    Ok(lefts)
}

// Whether the dependencies and the near keys of a relation are those of the definition.
fn is_as_defined(alloc: Global, snapshot: &Snapshot, most: u32) -> Result<bool, AllocError>
    requires { length snapshot.now.codes ≤ 8 }
{
    for column in 0..snapshot.columns() {
        let lefts = lefts_of(alloc, snapshot, most, column)?;
        if !are_as_defined(alloc, snapshot, Target::Col(column), most, lefts.as_slice())? {
            return Ok(false);
        }
    }
    let mut keys = Vec::new(alloc);
    for one in near_keys(alloc, snapshot, most)?.iter() {
        keys.push((one.columns, one.removed))?;
    }
    are_as_defined(alloc, snapshot, Target::RowId, most, keys.as_slice())
}

// A relation of four columns with so many rows, of which some are dead.
fn relation(
    alloc: Global,
    rt: &impl Abort,
    draw: &mut Draw,
    rows: usize,
) -> Result<Snapshot, AllocError> {
    let mut codes = Vec::new(alloc);
    for _ in 0..4 {
        let values = draw.below(6);
        codes.push(draw.codes(alloc, rows, values)?)?;
    }
    let mut live = Vec::new(alloc);
    for _ in 0..rows {
        live.push(draw.below(4) > 0)?;
    }
    Ok(snapshot_of(rt, codes, live))
}

// Whether the answers on a relation, by one thread and by four, are the definition's.
fn agree<R: Threads + Sync + Abort>(
    alloc: Global,
    rt: &R,
    snapshot: &Snapshot,
    most: u32,
) -> Result<bool, AllocError> {
    assert!(rt; snapshot.columns() <= 8);
    let whole = approx(alloc, snapshot, most)?;
    for workers in [1, 4] {
        let found = approx_by(rt, alloc, snapshot, most, workers)?;
        if found.as_slice() != whole.as_slice() {
            return Ok(false);
        }
    }
    is_as_defined(alloc, snapshot, most)
}

#[test]
fn small_relations_are_as_defined(rt: HostRuntime) -> Result<(), Fail> {
    let alloc = rt.alloc();
    let mut draw = Draw { state: 1 };
    for rows in 0..8 {
        for most in 0..4 {
            for _ in 0..3 {
                let snapshot = relation(alloc, &rt, &mut draw, rows)?;
                assert!(rt; agree(alloc, &rt, &snapshot, most)?);
            }
        }
    }
    Ok(())
}

#[test]
fn ten_rows_are_as_defined(rt: HostRuntime) -> Result<(), Fail> {
    let alloc = rt.alloc();
    let mut draw = Draw { state: 2 };
    for most in 0..4 {
        let snapshot = relation(alloc, &rt, &mut draw, 10)?;
        assert!(rt; agree(alloc, &rt, &snapshot, most)?);
    }
    Ok(())
}
