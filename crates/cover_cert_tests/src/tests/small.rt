// Relations with equal rows, without rows, and of one column.
use super::{no, says};
use cover_cert::{Answer, Flaw};
use rel_base::{Codes, RowNo, Snapshot};
use std::alloc::{AllocError, Global};
use std::process::Abort;
use std::test::Fail;

// Two rows of two columns.
fn two_rows(
    alloc: Global,
    rt: &impl Abort,
    columns: [[u32; 2]; 2],
) -> Result<Snapshot, AllocError> {
    let one = Codes::of(Vec::from_array(alloc, columns[0])?);
    let two = Codes::of(Vec::from_array(alloc, columns[1])?);
    let codes = vec![in alloc; one, two]?;
    let live = Vec::from_array(alloc, [true, true])?;
    assert!(rt; codes.len() == 2 && live.len() == 2);
    assert!(rt; codes[0].len() == 2 && codes[1].len() == 2);
    Ok(Snapshot::of(codes, live, RowNo::of(3)))
}

// One column without rows.
fn no_rows(alloc: Global, rt: &impl Abort) -> Result<Snapshot, AllocError> {
    let codes = vec![in alloc; Codes::of(Vec::new(alloc))]?;
    let live: Vec<bool> = Vec::new(alloc);
    assert!(rt; codes.len() == 1 && live.is_empty());
    assert!(rt; codes[0].is_empty());
    Ok(Snapshot::of(codes, live, RowNo::first()))
}

#[test]
fn what_no_pair_refutes_is_looked_up(rt: HostRuntime) -> Result<(), Fail> {
    let alloc = rt.alloc();
    let rows = two_rows(alloc, &rt, [[0u32, 0], [0u32, 1]])?;
    let fails = b"cert,2,2\nkey,\nfd,,1\nfd,,2\nend\n";
    assert!(rt; says(&rt, alloc, &rows, fails, no(2, Flaw::Fails))?);
    let whole = b"cert,2,2\npair,1,2\nkey,2\nfd,,1\nfd,2,2\nend\n";
    assert!(rt; says(&rt, alloc, &rows, whole, no(5, Flaw::Least))?);
    let right = b"cert,2,2\npair,1,2\nkey,2\nfd,,1\nend\n";
    assert!(rt; says(&rt, alloc, &rows, right, Answer::Yes)?);
    Ok(())
}

#[test]
fn equal_rows_have_no_keys(rt: HostRuntime) -> Result<(), Fail> {
    let alloc = rt.alloc();
    let rows = two_rows(alloc, &rt, [[0u32, 0], [0u32, 0]])?;
    let right = b"cert,2,2\npair,1,2\nfd,,1\nfd,,2\nend\n";
    assert!(rt; says(&rt, alloc, &rows, right, Answer::Yes)?);
    let without = b"cert,2,2\nfd,,1\nfd,,2\nend\n";
    assert!(rt; says(&rt, alloc, &rows, without, no(2, Flaw::Least))?);
    Ok(())
}

#[test]
fn no_rows_and_one_column(rt: HostRuntime) -> Result<(), Fail> {
    let alloc = rt.alloc();
    let rows = no_rows(alloc, &rt)?;
    let right = b"cert,1,0\nkey,\nfd,,1\nend\n";
    assert!(rt; says(&rt, alloc, &rows, right, Answer::Yes)?);
    assert!(rt;
        says(
            &rt,
            alloc,
            &rows,
            b"cert,1,0\npair,1,2\nend\n",
            no(2, Flaw::Pair)
        )?
    );
    assert!(rt;
        says(
            &rt,
            alloc,
            &rows,
            b"cert,1,0\nkey,\nend\n",
            no(3, Flaw::Least)
        )?
    );
    Ok(())
}
