mod form;
mod small;

use cover_cert::{Answer, Flaw, check};
use rel_base::{Codes, RowNo, Snapshot};
use std::alloc::{AllocError, Global};
use std::process::Abort;
use std::test::Fail;
use std::thread::Threads;

// The rows (1, Berlin, 10115), (2, Berlin, 10115) and (3, Potsdam, 14467).
fn cities(alloc: Global, rt: &impl Abort) -> Result<Snapshot, AllocError> {
    let one = Codes::of(Vec::from_array(alloc, [0u32, 1, 2])?);
    let two = Codes::of(Vec::from_array(alloc, [0u32, 0, 1])?);
    let three = Codes::of(Vec::from_array(alloc, [0u32, 0, 1])?);
    let codes = vec![in alloc; one, two, three]?;
    let live = Vec::from_array(alloc, [true, true, true])?;
    assert!(rt; codes.len() == 3 && live.len() == 3);
    assert!(rt; codes[0].len() == 3 && codes[1].len() == 3);
    assert!(rt; codes[2].len() == 3);
    Ok(Snapshot::of(codes, live, RowNo::of(4)))
}

fn no(record: u64, flaw: Flaw) -> Answer {
    Answer::No { record, flaw }
}

fn says<R: Threads + Sync>(
    rt: &R,
    alloc: Global,
    snapshot: &Snapshot,
    text: &[u8],
    wanted: Answer,
) -> Result<bool, AllocError> {
    let one = check(rt, alloc, snapshot, text, 1)?;
    let several = check(rt, alloc, snapshot, text, 3)?;
    Ok(one == wanted && several == wanted)
}

const WHOLE: &[u8] = b"cert,3,3\npair,1,2\npair,1,3\nkey,1\nfd,1,2\nfd,3,2\nfd,1,3\nfd,2,3\nend\n";

#[test]
fn the_worked_certificate_is_one(rt: HostRuntime) -> Result<(), Fail> {
    let alloc = rt.alloc();
    let rows = cities(alloc, &rt)?;
    assert!(rt; says(&rt, alloc, &rows, WHOLE, Answer::Yes)?);
    Ok(())
}

#[test]
fn a_pair_too_few_leaves_other_lines(rt: HostRuntime) -> Result<(), Fail> {
    let alloc = rt.alloc();
    let rows = cities(alloc, &rt)?;
    let text = b"cert,3,3\npair,1,2\nkey,1\nfd,1,2\nfd,3,2\nfd,1,3\nfd,2,3\nend\n";
    assert!(rt; says(&rt, alloc, &rows, text, no(4, Flaw::Least))?);
    Ok(())
}

#[test]
fn a_row_that_is_not_there(rt: HostRuntime) -> Result<(), Fail> {
    let alloc = rt.alloc();
    let rows = cities(alloc, &rt)?;
    let text = b"cert,3,3\npair,1,4\npair,1,3\nkey,1\nfd,1,2\nfd,3,2\nfd,1,3\nfd,2,3\nend\n";
    assert!(rt; says(&rt, alloc, &rows, text, no(2, Flaw::Pair))?);
    let same = b"cert,3,3\npair,1,2\npair,3,3\nend\n";
    assert!(rt; says(&rt, alloc, &rows, same, no(3, Flaw::Pair))?);
    let turned = b"cert,3,3\npair,2,1\nend\n";
    assert!(rt; says(&rt, alloc, &rows, turned, no(2, Flaw::Pair))?);
    let none = b"cert,3,3\npair,0,1\nend\n";
    assert!(rt; says(&rt, alloc, &rows, none, no(2, Flaw::Pair))?);
    Ok(())
}

#[test]
fn another_size(rt: HostRuntime) -> Result<(), Fail> {
    let alloc = rt.alloc();
    let rows = cities(alloc, &rt)?;
    assert!(rt;
        says(
            &rt,
            alloc,
            &rows,
            b"cert,3,2\npair,1,4\nend\n",
            no(1, Flaw::Shape)
        )?
    );
    assert!(rt; says(&rt, alloc, &rows, b"cert,2,3\nend\n", no(1, Flaw::Shape))?);
    Ok(())
}

#[test]
fn without_an_end(rt: HostRuntime) -> Result<(), Fail> {
    let alloc = rt.alloc();
    let rows = cities(alloc, &rt)?;
    let text = b"cert,3,2\npair,1,2\npair,1,3\nkey,1\nfd,1,2\nfd,3,2\nfd,1,3\nfd,2,3\n";
    assert!(rt; says(&rt, alloc, &rows, text, no(9, Flaw::Form))?);
    Ok(())
}

#[test]
fn a_pair_may_stand_twice(rt: HostRuntime) -> Result<(), Fail> {
    let alloc = rt.alloc();
    let rows = cities(alloc, &rt)?;
    let text =
        b"cert,3,3\npair,1,2\npair,2,3\npair,1,2\nkey,1\nfd,1,2\nfd,3,2\nfd,1,3\nfd,2,3\nend\n";
    assert!(rt; says(&rt, alloc, &rows, text, Answer::Yes)?);
    Ok(())
}

#[test]
fn the_lines_are_one_sequence(rt: HostRuntime) -> Result<(), Fail> {
    let alloc = rt.alloc();
    let rows = cities(alloc, &rt)?;
    let swapped = b"cert,3,3\npair,1,2\npair,1,3\nkey,1\nfd,3,2\nfd,1,2\nfd,1,3\nfd,2,3\nend\n";
    assert!(rt; says(&rt, alloc, &rows, swapped, no(5, Flaw::Least))?);
    let doubled =
        b"cert,3,3\npair,1,2\npair,1,3\nkey,1\nfd,1,2\nfd,1,2\nfd,3,2\nfd,1,3\nfd,2,3\nend\n";
    assert!(rt; says(&rt, alloc, &rows, doubled, no(6, Flaw::Least))?);
    let short = b"cert,3,3\npair,1,2\npair,1,3\nkey,1\nfd,1,2\nfd,3,2\nfd,1,3\nend\n";
    assert!(rt; says(&rt, alloc, &rows, short, no(8, Flaw::Least))?);
    let long =
        b"cert,3,3\npair,1,2\npair,1,3\nkey,1\nfd,1,2\nfd,3,2\nfd,1,3\nfd,2,3\nfd,2,3\nend\n";
    assert!(rt; says(&rt, alloc, &rows, long, no(9, Flaw::Least))?);
    Ok(())
}

#[test]
fn each_flaw_is_asked_of_the_whole_text(rt: HostRuntime) -> Result<(), Fail> {
    let alloc = rt.alloc();
    let rows = cities(alloc, &rt)?;
    let text = b"cert,3,3\npair,1,1\nkey,1\nfd,2,03\nend\n";
    assert!(rt; says(&rt, alloc, &rows, text, no(4, Flaw::Form))?);
    let later = b"cert,3,3\nkey,2\npair,1,2\nend\n";
    assert!(rt; says(&rt, alloc, &rows, later, no(3, Flaw::Form))?);
    Ok(())
}

#[test]
fn flaws_have_numbers(rt: HostRuntime) {
    assert!(rt; Flaw::Form.code() == 21 && Flaw::Shape.code() == 22);
    assert!(rt; Flaw::Pair.code() == 23 && Flaw::Least.code() == 24);
    assert!(rt; Flaw::Fails.code() == 25);
}
