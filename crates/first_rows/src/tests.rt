// First rows of small relations.
use crate::first_rows;
use rel_base::{Codes, ColSet, RowNo, Snapshot};
use std::alloc::{AllocError, Global};
use std::process::Abort;
use std::test::Fail;
use stripped_partition::Path;

// The snapshot of five rows of two columns, of which the fourth is dead.
fn five_rows(
    alloc: Global,
    rt: &impl Abort,
    one: [u32; 5],
    two: [u32; 5],
) -> Result<Snapshot, AllocError> {
    let codes = vec![in alloc;
        Codes::of(Vec::from_array(alloc, one)?),
        Codes::of(Vec::from_array(alloc, two)?),
    ]?;
    let live = Vec::from_array(alloc, [true, true, true, false, true])?;
    assert!(rt; codes.len() == 2 && live.len() == 5);
    assert!(rt; codes[0].len() == 5 && codes[1].len() == 5);
    Ok(Snapshot::of(codes, live, RowNo::of(6)))
}

// Whether the first rows by these columns are these.
fn are(
    alloc: Global,
    snapshot: &Snapshot,
    columns: ColSet,
    wanted: &[u32],
) -> Result<bool, AllocError> {
    let mut path = Path::new(alloc, snapshot, &[])?;
    if !columns.subset_of(ColSet::all(snapshot.columns())) {
        return Ok(false);
    }
    path.go_to(columns)?;
    let rows = first_rows(alloc, snapshot, &path)?;
    if rows.len() != wanted.len() {
        return Ok(false);
    }
    for (row, number) in rows.iter().zip(wanted) {
        if row.number() != *number {
            return Ok(false);
        }
    }
    Ok(true)
}

#[test]
fn rows_that_agree_with_no_earlier_one(rt: HostRuntime) -> Result<(), Fail> {
    let alloc = rt.alloc();
    let snapshot = five_rows(alloc, &rt, [1, 1, 0, 2, 1], [0, 0, 0, 0, 3])?;
    let none = ColSet::empty();
    assert!(rt; are(alloc, &snapshot, none, &[1])?);
    assert!(rt; are(alloc, &snapshot, none.with(0), &[1, 3])?);
    assert!(rt; are(alloc, &snapshot, none.with(1), &[1, 5])?);
    assert!(rt; are(alloc, &snapshot, none.with(0).with(1), &[1, 3, 5])?);
    Ok(())
}
