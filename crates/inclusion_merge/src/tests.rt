// Inclusions beside those that the plain program finds.
use crate::{included, open_pairs};
use plain_base::{Samples, inclusions};
use rel_base::Row;
use std::alloc::{AllocError, Global};
use std::process::Abort;
use std::test::Fail;
use std::thread::Threads;

fn compare<R: Threads + Sync + Abort>(
    rt: &R,
    alloc: Global,
    columns: &[Row],
) -> Result<(), AllocError> {
    let wanted = inclusions(alloc, columns)?;
    for workers in [1u8, 2, 16] {
        let found = included(rt, alloc, columns, workers)?;
        assert!(rt;
            found.as_slice() == wanted.as_slice(),
            "found {found:?}, and not {wanted:?}"
        );
    }
    Ok(())
}

// Columns of up to six cells, some with no cell.
#[test]
fn drawn_columns(rt: HostRuntime) -> Result<(), Fail> {
    for seed in 0..42u64 {
        let columns = Samples::from_seed(seed).rows(rt.alloc(), 6, (seed % 7) as usize)?;
        compare(&rt, rt.alloc(), &columns)?;
    }
    Ok(())
}

#[test]
fn more_columns_than_a_relation_has(rt: HostRuntime) -> Result<(), Fail> {
    let columns = Samples::from_seed(0).rows(rt.alloc(), 150, 2)?;
    compare(&rt, rt.alloc(), &columns)?;
    Ok(())
}

// Cells that only their last bytes tell apart, or their length.
#[test]
fn long_cells(rt: HostRuntime) -> Result<(), Fail> {
    let columns: [&[&[u8]]; 6] = [
        &[b"sixteen bytes, 1x", b"\0a"],
        &[b"sixteen bytes, 1x"],
        &[b"sixteen bytes, 1y"],
        &[b"sixteen bytes, 1x", b"sixteen bytes, 1y", b"\0a"],
        &[b"sixteen bytes, 1"],
        &[b"a\0", b"sixteen bytes, 1"],
    ];
    let mut copied = Vec::new(rt.alloc());
    for cells in columns {
        copied.push(Row::copied(rt.alloc(), cells)?)?;
    }
    let found = included(&rt, rt.alloc(), &copied, 1)?;
    assert!(rt; found.as_slice() == [(0, 3), (1, 0), (1, 3), (2, 3), (4, 5)].as_slice());
    Ok(())
}

// A column of these numbers.
fn numbered(alloc: Global, numbers: &[u16]) -> Result<Row, AllocError> {
    let mut bytes = Vec::new(alloc);
    for number in numbers {
        bytes.extend_from_slice(&number.to_be_bytes())?;
    }
    let mut cells = Vec::new(alloc);
    for cell in bytes.chunks(2) {
        cells.push(cell)?;
    }
    Row::copied(alloc, &cells)
}

// The first column has one value that the second lacks, and the sample has others alone.
#[test]
fn only_values_beyond_the_sample_differ(rt: HostRuntime) -> Result<(), Fail> {
    let mut all = Vec::new(rt.alloc());
    let mut most = Vec::new(rt.alloc());
    for number in 0..1_100u16 {
        all.push(number)?;
        if number != 501 {
            most.push(number)?;
        }
    }
    let mut columns = Vec::new(rt.alloc());
    columns.push(numbered(rt.alloc(), &all)?)?;
    columns.push(numbered(rt.alloc(), &most)?)?;
    let open = open_pairs(&rt, rt.alloc(), &columns, 1)?;
    assert!(rt; open.pairs.as_slice() == [(0, 1), (1, 0)].as_slice());
    let found = included(&rt, rt.alloc(), &columns, 1)?;
    assert!(rt; found.as_slice() == [(1, 0)].as_slice());
    Ok(())
}

// The multiples of a number are multiples of its divisors, among columns of which the sample has a part.
#[test]
fn multiples(rt: HostRuntime) -> Result<(), Fail> {
    let mut columns = Vec::new(rt.alloc());
    for factor in 1..=16u16 {
        let mut numbers = Vec::new(rt.alloc());
        for number in 0..300u16 {
            if number % factor == 0 {
                numbers.push(number)?;
            }
        }
        columns.push(numbered(rt.alloc(), &numbers)?)?;
    }
    compare(&rt, rt.alloc(), &columns)?;
    Ok(())
}
