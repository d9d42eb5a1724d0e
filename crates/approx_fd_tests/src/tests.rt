mod compared;
mod drawn;
mod large;

use approx_fd::{Approx, NearKey, approx, approx_by, near_keys, removed};
use rel_base::{Codes, ColSet, Fd, RowNo, Snapshot};
use std::alloc::{AllocError, Global};
use std::process::Abort;
use std::test::Fail;
use stripped_partition::Partition;

// The set whose columns these bits are.
fn set(bits: u8) -> ColSet {
    ColSet::of_bits(u128::from(bits))
}

// A snapshot of four rows and two columns, of which some rows are live.
fn four_rows(
    alloc: Global,
    rt: &impl Abort,
    columns: [[u32; 4]; 2],
    live: [bool; 4],
) -> Result<Snapshot, AllocError> {
    let one = Codes::of(Vec::from_array(alloc, columns[0])?);
    let two = Codes::of(Vec::from_array(alloc, columns[1])?);
    let codes = vec![in alloc; one, two]?;
    let live = Vec::from_array(alloc, live)?;
    assert!(rt; codes.len() == 2 && live.len() == 4);
    assert!(rt; codes[0].len() == 4 && codes[1].len() == 4);
    Ok(Snapshot::of(codes, live, RowNo::of(5)))
}

// The rows (1, x), (1, y) and (2, z), and a dead one.
fn three_live(alloc: Global, rt: &impl Abort) -> Result<Snapshot, AllocError> {
    let columns = [[0u32, 0, 1, 0], [0u32, 1, 2, 0]];
    four_rows(alloc, rt, columns, [true, true, true, false])
}

fn fd(left: u8, right: u8, removed: u32) -> Approx {
    let fd = Fd {
        left: set(left),
        right,
    };
    Approx { fd, removed }
}

fn key(columns: u8, removed: u32) -> NearKey {
    NearKey {
        columns: set(columns),
        removed,
    }
}

// Whether the dependencies and near keys are these.
fn finds(
    alloc: Global,
    snapshot: &Snapshot,
    errors: u32,
    fds: &[Approx],
    keys: &[NearKey],
) -> Result<bool, AllocError> {
    let found = approx(alloc, snapshot, errors)?;
    let near = near_keys(alloc, snapshot, errors)?;
    Ok(found.as_slice() == fds && near.as_slice() == keys)
}

#[test]
fn one_row_may_be_removed(rt: HostRuntime) -> Result<(), Fail> {
    let alloc = rt.alloc();
    let snapshot = three_live(alloc, &rt)?;
    let fds = [fd(0, 0, 1), fd(1, 1, 1)];
    assert!(rt; finds(alloc, &snapshot, 1, &fds, &[key(1, 1), key(2, 0)])?);
    Ok(())
}

#[test]
fn no_row_and_two_rows_may_be_removed(rt: HostRuntime) -> Result<(), Fail> {
    let alloc = rt.alloc();
    let snapshot = three_live(alloc, &rt)?;
    assert!(rt; finds(alloc, &snapshot, 0, &[fd(2, 0, 0)], &[key(2, 0)])?);
    let fds = [fd(0, 0, 1), fd(0, 1, 2)];
    assert!(rt; finds(alloc, &snapshot, 2, &fds, &[key(0, 2)])?);
    assert!(rt; finds(alloc, &snapshot, u32::MAX, &fds, &[key(0, 2)])?);
    Ok(())
}

#[test]
#[tactic(auto, using(stripped_partition::proofs::Refining::partition_groups))]
fn of_a_column_s_groups_the_largest_part_stays(rt: HostRuntime) -> Result<(), Fail> {
    let alloc = rt.alloc();
    let columns = [[0u32, 0, 0, 1], [5u32, 7, 7, 7]];
    let snapshot = four_rows(alloc, &rt, columns, [true; 4])?;
    assert!(rt; snapshot.columns() == 2);
    let groups = Partition::of_column(alloc, &snapshot, 0)?;
    assert!(rt; removed(alloc, &groups, &snapshot, 1)? == 1);
    assert!(rt; removed(alloc, &groups, &snapshot, 0)? == 0);
    let all = Partition::of_all(alloc, &snapshot)?;
    assert!(rt; removed(alloc, &all, &snapshot, 0)? == 1);
    Ok(())
}

// Equal rows are no keys, whatever columns are taken, and break no dependency.
#[test]
fn equal_rows_break_no_dependency(rt: HostRuntime) -> Result<(), Fail> {
    let alloc = rt.alloc();
    let columns = [[0u32, 0, 1, 2], [4u32, 4, 6, 7]];
    let snapshot = four_rows(alloc, &rt, columns, [true; 4])?;
    assert!(rt; finds(alloc, &snapshot, 0, &[fd(2, 0, 0), fd(1, 1, 0)], &[])?);
    assert!(rt;
        finds(
            alloc,
            &snapshot,
            1,
            &[fd(2, 0, 0), fd(1, 1, 0)],
            &[key(1, 1), key(2, 1)]
        )?
    );
    Ok(())
}

#[test]
fn without_rows_and_with_one_the_empty_set_is_enough(rt: HostRuntime) -> Result<(), Fail> {
    let alloc = rt.alloc();
    let columns = [[0u32, 0, 1, 2], [4u32, 4, 6, 7]];
    let fds = [fd(0, 0, 0), fd(0, 1, 0)];
    let none = four_rows(alloc, &rt, columns, [false; 4])?;
    assert!(rt; finds(alloc, &none, 0, &fds, &[key(0, 0)])?);
    let one = four_rows(alloc, &rt, columns, [false, false, true, false])?;
    assert!(rt; finds(alloc, &one, 3, &fds, &[key(0, 0)])?);
    Ok(())
}

// A constant column is determined by the empty set.
#[test]
fn constants_need_no_column(rt: HostRuntime) -> Result<(), Fail> {
    let alloc = rt.alloc();
    let columns = [[3u32, 3, 3, 3], [0u32, 1, 2, 2]];
    let snapshot = four_rows(alloc, &rt, columns, [true; 4])?;
    assert!(rt; finds(alloc, &snapshot, 0, &[fd(0, 0, 0)], &[])?);
    assert!(rt;
        finds(
            alloc,
            &snapshot,
            2,
            &[fd(0, 0, 0), fd(0, 1, 2)],
            &[key(2, 1)]
        )?
    );
    Ok(())
}

#[test]
fn several_threads_find_the_same(rt: HostRuntime) -> Result<(), Fail> {
    let alloc = rt.alloc();
    let snapshot = three_live(alloc, &rt)?;
    let fds = [fd(0, 0, 1), fd(1, 1, 1)];
    for workers in 0..4 {
        assert!(rt; approx_by(&rt, alloc, &snapshot, 1, workers)?.as_slice() == fds.as_slice());
    }
    Ok(())
}

// A call that memory was refused to can be made again.
#[test]
fn want_of_memory_is_answered_and_tried_again(rt: HostRuntime) -> Result<(), Fail> {
    let alloc = rt.alloc();
    let snapshot = three_live(alloc, &rt)?;
    let fds = [fd(0, 0, 1), fd(1, 1, 1)];
    let found = match approx(alloc, &snapshot, 1) {
        Ok(found) => found,
        Err(_) => approx(alloc, &snapshot, 1)?,
    };
    assert!(rt; found.as_slice() == fds.as_slice());
    Ok(())
}
