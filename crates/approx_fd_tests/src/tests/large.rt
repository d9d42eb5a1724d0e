// Wide relations, and one at a real size.
use crate::tests::drawn::{Draw, snapshot_of};
use approx_fd::{Approx, approx, approx_by};
use rel_base::{COLUMN_PLACES, ColSet, MOST_COLUMNS, Snapshot};
use std::alloc::{AllocError, Global};
use std::process::Abort;
use std::test::Fail;
use std::time::Instant;
use stripped_partition::weights;

// A relation with so many rows and columns, each of which has so many values.
fn relation(
    alloc: Global,
    rt: &impl Abort,
    columns: usize,
    rows: usize,
    values: u32,
) -> Result<Snapshot, AllocError> {
    let mut draw = Draw { state: 3 };
    let mut codes = Vec::new(alloc);
    for _ in 0..columns {
        codes.push(draw.codes(alloc, rows, values)?)?;
    }
    let live = vec![in alloc; true; rows]?;
    Ok(snapshot_of(rt, codes, live))
}

// Whether each column has one line, by the empty set.
fn are_empty_lefts(found: &[Approx], columns: u8) -> bool {
    for (place, one) in found.iter().enumerate() {
        if one.fd.left != ColSet::empty() || one.fd.right as usize != place {
            return false;
        }
    }
    found.len() == columns as usize
}

// Where all rows but one may be removed the empty set is enough, at once.
#[test]
fn each_column_has_a_line_where_all_rows_but_one_may_be_removed(
    rt: HostRuntime,
) -> Result<(), Fail> {
    let alloc = rt.alloc();
    let snapshot = relation(alloc, &rt, COLUMN_PLACES, 20, 3)?;
    for most in [19, 20, u32::MAX] {
        let found = approx(alloc, &snapshot, most)?;
        assert!(rt; are_empty_lefts(found.as_slice(), MOST_COLUMNS));
        let by = approx_by(&rt, alloc, &snapshot, most, 4)?;
        assert!(rt; by.as_slice() == found.as_slice());
    }
    Ok(())
}

// Of 128 columns with 20 rows each pair of columns may be a left side: the whole answer comes.
#[test]
fn all_columns_have_their_whole_answer(rt: HostRuntime) -> Result<(), Fail> {
    let alloc = rt.alloc();
    let snapshot = relation(alloc, &rt, COLUMN_PLACES, 20, 3000)?;
    for most in [0, 1] {
        let found = approx(alloc, &snapshot, most)?;
        assert!(rt; found.len() > 10_000);
        let by = approx_by(&rt, alloc, &snapshot, most, 4)?;
        assert!(rt; by.as_slice() == found.as_slice());
    }
    Ok(())
}

// Twelve columns of more and more values.
fn mixed(alloc: Global, rt: &impl Abort, rows: usize) -> Result<Snapshot, AllocError> {
    let mut draw = Draw { state: 7 };
    let mut codes = Vec::new(alloc);
    for size in 1..13u32 {
        codes.push(draw.codes(alloc, rows, (1 << size) + 1)?)?;
    }
    let live = vec![in alloc; true; rows]?;
    Ok(snapshot_of(rt, codes, live))
}

// Rows are looked at about thirty times as often as in grouping them by each column once. By rounds over each column alone that would be
// more than four hundred times.
#[test]
fn sweeps_spare_most_looks_at_rows(rt: HostRuntime) -> Result<(), Fail> {
    let alloc = rt.alloc();
    let snapshot = mixed(alloc, &rt, 20_000)?;
    let start = Instant::now(&rt)?;
    for _ in 0..10 {
        assert!(rt; weights(alloc, &snapshot)?.len() == 12);
    }
    let grouping = start.elapsed(&rt)?.as_micros();
    let start = Instant::now(&rt)?;
    let found = approx(alloc, &snapshot, 10)?;
    let searching = start.elapsed(&rt)?.as_micros();
    assert!(rt; found.len() > 1000);
    assert!(rt; searching / 12 < grouping);
    let by = approx_by(&rt, alloc, &snapshot, 10, 4)?;
    assert!(rt; by.as_slice() == found.as_slice());
    Ok(())
}
