// Where an allocation fails, a call is made once more, so that these tests also pass where any one fails.
use batch_update::{Item, read_changes};
use rel_base::{Limits, MOST_COLUMNS, MOST_ROWS, Op, Row};
use std::alloc::{AllocError, Global};
use std::test::Fail;

// Adds the cells of a row, each after a comma.
fn show_row(out: &mut Vec<u8>, row: &Row) -> Result<(), AllocError> {
    for place in 0..row.len() {
        out.push(b',')?;
        out.extend_from_slice(row.cell(place))?;
    }
    Ok(())
}

// Adds an operation as a change text has it, with a slash before it.
fn show_op(alloc: Global, out: &mut Vec<u8>, op: &Op) -> Result<(), AllocError> {
    match op {
        Op::Insert(row) => {
            out.extend_from_slice(b"/+")?;
            show_row(out, row)
        }
        Op::Delete(number) => {
            let text = format!(in alloc; "/-,{}", number.number())?;
            out.extend_from_slice(text.as_bytes())?;
            Ok(())
        }
        Op::Update(number, row) => {
            let text = format!(in alloc; "/=,{}", number.number())?;
            out.extend_from_slice(text.as_bytes())?;
            show_row(out, row)
        }
    }
}

// Adds an item, with a space after it.
fn show_item(alloc: Global, out: &mut Vec<u8>, item: &Item) -> Result<(), AllocError> {
    match item {
        Item::Batch { no, first, batch } => {
            let text = format!(in alloc; "{no}:{first}")?;
            out.extend_from_slice(text.as_bytes())?;
            for op in &batch.to_ops(alloc)? {
                show_op(alloc, out, op)?;
            }
        }
        Item::Bad { no, rec, why } => {
            let text = format!(in alloc; "{no}:{rec}:{why:?}")?;
            out.extend_from_slice(text.as_bytes())?;
        }
        Item::Report => out.push(b'?')?,
    }
    out.push(b' ')?;
    Ok(())
}

// The items of a change text.
fn shown_once(
    alloc: Global,
    bytes: &[u8],
    columns: u8,
    limits: &Limits,
) -> Result<Vec<u8>, AllocError> {
    let mut out = Vec::new(alloc);
    for item in &read_changes(alloc, bytes, columns, limits)? {
        show_item(alloc, &mut out, item)?;
    }
    Ok(out)
}

fn shown(alloc: Global, bytes: &[u8], columns: u8, limits: &Limits) -> Result<Vec<u8>, AllocError> {
    shown_once(alloc, bytes, columns, limits).or_else(|_| shown_once(alloc, bytes, columns, limits))
}

#[test]
fn batches_and_reports(rt: HostRuntime) -> Result<(), Fail> {
    let standard = Limits::standard();
    let cases: [(&[u8], &[u8]); 5] = [
        (b"", b""),
        (b"\xEF\xBB\xBF\xEF\xBB\xBF!\n", b"1:1 "),
        (b"+,3,w\n-,2\n!\n", b"1:1/+,3,w/-,2 "),
        (b"?\n!\n?\n+,3,w\n!\n?\n", b"? 1:2 ? 2:4/+,3,w ? "),
        (b"=,2,1,x\n!\n\n\n-,1\n!\n", b"1:1/=,2,1,x 2:3/-,1 "),
    ];
    for (bytes, wanted) in cases {
        assert_eq!(rt; shown(rt.alloc(), bytes, 2, &standard)?.as_slice(), wanted);
    }
    Ok(())
}

#[test]
fn bad_batches(rt: HostRuntime) -> Result<(), Fail> {
    let standard = Limits::standard();
    let cases: [(&[u8], &[u8]); 6] = [
        (b"+,3,w\n", b"1:1:Cut "),
        (b"+,3,w\n-,1\n?\n", b"1:3:Kind "),
        (b"+,3,w\n?\n!\n", b"1:2:Kind "),
        (b"+,1\n?\nx\n!\n?\n-,1\n!\n", b"1:1:Fields ? 2:6/-,1 "),
        (b"!\n-,1\n-,2\n", b"1:1 2:3:Cut "),
        (b"!\n-,0\n-,2\n", b"1:1 2:2:Number "),
    ];
    for (bytes, wanted) in cases {
        assert_eq!(rt; shown(rt.alloc(), bytes, 2, &standard)?.as_slice(), wanted);
    }
    Ok(())
}

#[test]
fn malformed_records(rt: HostRuntime) -> Result<(), Fail> {
    let standard = Limits::standard();
    let cases: [(&[u8], &[u8]); 9] = [
        (b"-,0\n!\n", b"1:1:Number "),
        (b"-,01\n!\n", b"1:1:Number "),
        (b"x\n!\n", b"1:1:Kind "),
        (b"+,1\n!\n", b"1:1:Fields "),
        (b"!,a\n!\n", b"1:1:Fields "),
        (b"=,0,1\n!\n", b"1:1:Fields "),
        (b"=,0,1,x\n!\n", b"1:1:Number "),
        (b"?,a\n!\n", b"1:1:Fields "),
        (b"-\n!\n", b"1:1:Fields "),
    ];
    for (bytes, wanted) in cases {
        assert_eq!(rt; shown(rt.alloc(), bytes, 2, &standard)?.as_slice(), wanted);
    }
    Ok(())
}

#[test]
fn limits_of_numbers_and_cells(rt: HostRuntime) -> Result<(), Fail> {
    let short = Limits::smaller(MOST_COLUMNS, MOST_ROWS, 1, 1_000);
    let cases: [(&[u8], &[u8]); 7] = [
        (b"-,4294967295\n!\n", b"1:1/-,4294967295 "),
        (b"-,4294967296\n!\n", b"1:1:Number "),
        (b"-,10000000000\n!\n", b"1:1:Number "),
        (b"-,1x\n!\n", b"1:1:Number "),
        (b"+,3,w\n!\n", b"1:1/+,3,w "),
        (b"+,3,ww\n!\n", b"1:1:Cell "),
        (b"=,0,1,ww\n=,1,1,ww\n!\n", b"1:1:Number "),
    ];
    for (bytes, wanted) in cases {
        assert_eq!(rt; shown(rt.alloc(), bytes, 2, &short)?.as_slice(), wanted);
    }
    Ok(())
}

// A start, then a piece so many times, and an end: twice one after the other, with two counts.
fn with_pieces_once(
    alloc: Global,
    start: &[u8],
    piece: &[u8],
    end: &[u8],
    counts: [usize; 2],
) -> Result<Vec<u8>, AllocError> {
    let mut text = Vec::new(alloc);
    for count in counts {
        text.extend_from_slice(start)?;
        for _ in 0..count {
            text.extend_from_slice(piece)?;
        }
        text.extend_from_slice(end)?;
    }
    Ok(text)
}

fn with_pieces(
    alloc: Global,
    start: &[u8],
    piece: &[u8],
    end: &[u8],
    counts: [usize; 2],
) -> Result<Vec<u8>, AllocError> {
    with_pieces_once(alloc, start, piece, end, counts).or_else(|_| with_pieces_once(
        alloc, start, piece, end, counts,
    ))
}

#[test]
fn giant_records(rt: HostRuntime) -> Result<(), Fail> {
    let standard = Limits::standard();
    let end = b"\n!\n-,1\n!\n".as_slice();
    // Behind a giant record byte order marks are bytes of a field.
    let marked = b"\r\n\xEF\xBB\xBF!\n-,7\n!\n-,1\n!\n".as_slice();
    let cases: [(&[u8], &[u8], &[u8], &[u8]); 6] = [
        (
            b"+,3,w\n+,4",
            b",",
            end,
            b"1:2:Fields 2:4/-,1 3:7:Fields 4:9/-,1 ",
        ),
        (b"x", b",\"\"", end, b"1:1:Kind 2:3/-,1 3:5:Kind 4:7/-,1 "),
        (
            b"\"=\",1",
            b",\"\n!\n,\"",
            end,
            b"1:1:Fields 2:3/-,1 3:5:Fields 4:7/-,1 ",
        ),
        (b"", b",", end, b"1:1:Kind 2:3/-,1 3:5:Kind 4:7/-,1 "),
        (
            b"?\n!",
            b",",
            marked,
            b"? 1:2:Fields 2:6/-,1 ? 3:9:Fields 4:13/-,1 ",
        ),
        (b"-", b",", b"", b"1:1:Fields "),
    ];
    for (start, piece, end, wanted) in cases {
        for counts in [
            [5, 5],
            [150_000, 150_000],
            [5_000, 150_000],
            [150_000, 5_000],
            [1_100_000, 4_096],
        ] {
            let text = with_pieces(rt.alloc(), start, piece, end, counts)?;
            let out = shown(rt.alloc(), text.as_slice(), 2, &standard)?;
            assert_eq!(rt; out.as_slice(), wanted);
        }
    }
    Ok(())
}
