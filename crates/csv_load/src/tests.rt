// Where an allocation fails, a call is made once more, so that these tests also pass where any one fails.
use crate::by_threads::{read_parts, try_parts};
use crate::cutting::cut;
use crate::marks::after_marks;
use crate::{Loaded, RecordReader, part_at_giant, read_relation, read_relation_by, records};
use csv::ByteRecord;
use rel_base::{Limits, MOST_CELL_BYTES, MOST_COLUMNS, MOST_ROWS, Row};
use std::alloc::{AllocError, Global};
use std::process::Abort;
use std::test::Fail;
use std::thread::Threads;

const CITIES: &[u8] = b"id,city,zip\n1,Berlin,10115\n2,Berlin,10115\n3,Potsdam,14467\n";

// Adds the cells of a row with bars between them, and a slash.
fn show_row(out: &mut Vec<u8>, row: &Row) -> Result<(), AllocError> {
    for place in 0..row.len() {
        if place > 0 {
            out.push(b'|')?;
        }
        out.extend_from_slice(row.cell(place))?;
    }
    out.push(b'/')?;
    Ok(())
}

// The names and rows that were read, or the record and the cause of its refusal.
fn show(alloc: Global, reading: Loaded) -> Result<Vec<u8>, AllocError> {
    let mut out = Vec::new(alloc);
    match reading {
        Loaded::Read(relation) => {
            show_row(&mut out, relation.names())?;
            for row in &relation.rows(alloc)? {
                show_row(&mut out, row)?;
            }
        }
        Loaded::Refused { rec, why } => {
            let text = format!(in alloc; "{rec} {why:?}")?;
            out.extend_from_slice(text.as_bytes())?;
        }
        Loaded::NoMemory => return Err(AllocError),
    }
    Ok(out)
}

// What a file comes to.
fn shown(alloc: Global, bytes: &[u8], limits: &Limits) -> Result<Vec<u8>, AllocError> {
    show(alloc, read_relation(alloc, bytes, limits)).or_else(|_| show(
        alloc,
        read_relation(alloc, bytes, limits),
    ))
}

// The same, where so many workers read it.
fn shown_by<R: Threads + Sync>(
    rt: &R,
    alloc: Global,
    bytes: &[u8],
    limits: &Limits,
    workers: u8,
) -> Result<Vec<u8>, AllocError> {
    show(alloc, read_parts(rt, alloc, bytes, limits, workers)).or_else(|_| show(
        alloc,
        read_parts(rt, alloc, bytes, limits, workers),
    ))
}

// All records of a text.
fn listed(alloc: Global, bytes: &[u8]) -> Result<Vec<u8>, AllocError> {
    let mut out = Vec::new(alloc);
    for row in &records(alloc, bytes)? {
        show_row(&mut out, row)?;
    }
    Ok(out)
}

// All records of a text, read one after another.
fn walked(alloc: Global, bytes: &[u8]) -> Result<Vec<u8>, AllocError> {
    let mut out = Vec::new(alloc);
    let mut reader = RecordReader::new(alloc, bytes);
    let mut fields = ByteRecord::new(alloc);
    while reader.next(&mut fields)? {
        show_row(&mut out, &Row::of(fields.clone()?))?;
    }
    // The end stays the end.
    if reader.next(&mut fields)? {
        out.clear();
    }
    Ok(out)
}

// These bytes, and then one byte so many times.
fn with_tail_once(
    alloc: Global,
    start: &[u8],
    byte: u8,
    count: usize,
) -> Result<Vec<u8>, AllocError> {
    let mut text = Vec::from_slice(alloc, start)?;
    for _ in 0..count {
        text.push(byte)?;
    }
    Ok(text)
}

fn with_tail(alloc: Global, start: &[u8], byte: u8, count: usize) -> Result<Vec<u8>, AllocError> {
    with_tail_once(alloc, start, byte, count).or_else(|_| with_tail_once(alloc, start, byte, count))
}

#[test]
fn records_of_a_text(rt: HostRuntime) -> Result<(), Fail> {
    let text = b"a,,b\n\n\"\"\n".as_slice();
    let out = listed(rt.alloc(), text).or_else(|_| listed(rt.alloc(), text))?;
    assert_eq!(rt; out.as_slice(), b"a||b//".as_slice());
    let out = walked(rt.alloc(), text).or_else(|_| walked(rt.alloc(), text))?;
    assert_eq!(rt; out.as_slice(), b"a||b//".as_slice());
    Ok(())
}

#[test]
fn relations_and_refusals(rt: HostRuntime) -> Result<(), Fail> {
    let standard = Limits::standard();
    let whole = b"id|city|zip/1|Berlin|10115/2|Berlin|10115/3|Potsdam|14467/".as_slice();
    let cases: [(&[u8], Limits, &[u8]); 16] = [
        (CITIES, standard, whole),
        (b"\xEF\xBB\xBFa,b\r\n\r\n1,\"x,y\"", standard, b"a|b/1|x,y/"),
        (
            b"\xEF\xBB\xBF\xEF\xBB\xBFa,b\r\n\r\n1,\"x,y\"",
            standard,
            b"a|b/1|x,y/",
        ),
        (b"a,b\n1,\"x,", standard, b"a|b/1|x,/"),
        (b"a,a,\n", standard, b"a|a|/"),
        (b"", standard, b"0 NoHeader"),
        (b"\xEF\xBB\xBF\n\n", standard, b"0 NoHeader"),
        (b"a,b\n1,x\n2\n", standard, b"3 Fields"),
        (
            CITIES,
            Limits::smaller(MOST_COLUMNS, MOST_ROWS, 5, 1_000),
            b"2 Cell",
        ),
        (
            CITIES,
            Limits::smaller(MOST_COLUMNS, 2, MOST_CELL_BYTES, 1_000),
            b"4 Rows",
        ),
        (CITIES, Limits::smaller(3, 3, 7, 1), whole),
        (b"a,b,c\n1\n", Limits::smaller(2, 9, 9, 9), b"1 Columns"),
        (
            b"\n\"a,\"\",\",b\"\n1,2\n",
            Limits::smaller(2, 9, 9, 99),
            b"a,\",|b\"/1|2/",
        ),
        (
            b"\n\"a\n\",\"b,\"\"\",\"c",
            Limits::smaller(2, 9, 9, 99),
            b"1 Columns",
        ),
        (b"a,b\n11\n", Limits::smaller(9, 9, 1, 9), b"2 Fields"),
        (b"a\n1\n22\n", Limits::smaller(9, 1, 1, 9), b"3 Cell"),
    ];
    for (bytes, limits, wanted) in cases {
        assert_eq!(rt; shown(rt.alloc(), bytes, &limits)?.as_slice(), wanted);
    }
    Ok(())
}

#[test]
fn cells_at_the_standard_limit(rt: HostRuntime) -> Result<(), Fail> {
    let limits = Limits::standard();
    let cases: [(&[u8], usize, &[u8]); 4] = [
        (b"a\n", 65_537, b"2 Cell"),
        (b"", 65_537, b"1 Cell"),
        (b"a,", 65_537, b"1 Cell"),
        (b"a\n,", 65_537, b"2 Fields"),
    ];
    for (start, count, wanted) in cases {
        let text = with_tail(rt.alloc(), start, b'x', count)?;
        let out = shown(rt.alloc(), text.as_slice(), &limits)?;
        assert_eq!(rt; out.as_slice(), wanted);
    }
    let text = with_tail(rt.alloc(), b"a\n", b'x', 65_536)?;
    let out = shown(rt.alloc(), text.as_slice(), &limits)?;
    assert_eq!(rt; out.len(), 65_539);
    Ok(())
}

#[test]
fn headers_at_the_standard_limit(rt: HostRuntime) -> Result<(), Fail> {
    let limits = Limits::standard();
    let text = with_tail(rt.alloc(), b"", b',', 127)?;
    let out = shown(rt.alloc(), text.as_slice(), &limits)?;
    assert_eq!(rt; out.len(), 128);
    let text = with_tail(rt.alloc(), b"", b',', 128)?;
    let out = shown(rt.alloc(), text.as_slice(), &limits)?;
    assert_eq!(rt; out.as_slice(), b"1 Columns".as_slice());
    Ok(())
}

// A start, and then a piece so many times.
fn with_pieces_once(
    alloc: Global,
    start: &[u8],
    piece: &[u8],
    count: usize,
) -> Result<Vec<u8>, AllocError> {
    let mut text = Vec::from_slice(alloc, start)?;
    for _ in 0..count {
        text.extend_from_slice(piece)?;
    }
    Ok(text)
}

fn with_pieces(
    alloc: Global,
    start: &[u8],
    piece: &[u8],
    count: usize,
) -> Result<Vec<u8>, AllocError> {
    with_pieces_once(alloc, start, piece, count).or_else(|_| with_pieces_once(
        alloc, start, piece, count,
    ))
}

#[test]
fn giant_records(rt: HostRuntime) -> Result<(), Fail> {
    let limits = Limits::standard();
    let cases: [(&[u8], &[u8], usize, &[u8]); 8] = [
        (b"a\n", b",", 1_200_000, b"2 Fields"),
        (b"a\r\n\r\n1\r\n", b",", 150_000, b"3 Fields"),
        (b"a\n\"1\n,\"\n\"\"\"\"\n", b",", 150_000, b"4 Fields"),
        (b"a\n", b"\"\n\",", 150_000, b"2 Fields"),
        (b"a,b\n1,\"\"\n\"\n\",", b"xxxx,", 30_000, b"3 Fields"),
        (b"a\n", b"xxxxxxxxx,", 30_000, b"2 Fields"),
        // An earlier record is at fault.
        (b"a,b\n1\n", b",", 150_000, b"2 Fields"),
        (b"a,b\n1,2\n3\n\"\"\n", b"\"\",", 150_000, b"3 Fields"),
    ];
    for (start, piece, count, wanted) in cases {
        let text = with_pieces(rt.alloc(), start, piece, count)?;
        assert_eq!(rt;
            shown(rt.alloc(), text.as_slice(), &limits)?.as_slice(),
            wanted
        );
    }
    Ok(())
}

// The third record of many has so many commas, and the header one.
fn with_third(alloc: Global, commas: usize) -> Result<Vec<u8>, AllocError> {
    let start = with_pieces(alloc, b"a,b\n\"\",\"\n\"\n", b",", commas)?;
    with_pieces(alloc, start.as_slice(), b"\n\"\",", 20_000)
}

#[test]
fn widths_among_quotes(rt: HostRuntime) -> Result<(), Fail> {
    let limits = Limits::standard();
    let text = with_third(rt.alloc(), 1)?;
    let out = shown(rt.alloc(), text.as_slice(), &limits)?;
    assert_eq!(rt; out.len(), 40_009);
    for commas in [2, 127, 128, 150_000] {
        let text = with_third(rt.alloc(), commas)?;
        let out = shown(rt.alloc(), text.as_slice(), &limits)?;
        assert_eq!(rt; out.as_slice(), b"3 Fields".as_slice());
    }
    Ok(())
}

#[test]
fn parted_texts(rt: HostRuntime) -> Result<(), Fail> {
    let cases: [(&[u8], usize, &[u8], &[u8]); 5] = [
        (
            b"a,b\r\n\"x\n,\",,c,d\r\ne\n",
            2,
            b"a,b\r\n\"x\n,\",,",
            b"\r\ne\n",
        ),
        (b"\xEF\xBB\xBFa,b,c", 1, b"a,", b""),
        (b"a,b\n\xEF\xBB\xBFc\n", 1, b"a,", b"\n\xEF\xBB\xBFc\n"),
        (b"\n\n,,\"\"\"\n\",x", 2, b"\n\n,,", b""),
        // No record is too wide.
        (b"a,b\nc\n", 2, b"", b""),
    ];
    for (bytes, limit, upto, behind) in cases {
        match part_at_giant(bytes, limit, true) {
            Some(parted) => {
                assert_eq!(rt; parted.upto, upto);
                assert_eq!(rt; parted.behind, behind);
            }
            None => {
                assert_eq!(rt; upto.len(), 0);
            }
        }
        // None is as long as a block.
        assert_eq!(rt; part_at_giant(bytes, limit, false).is_none(), true);
    }
    Ok(())
}

// A file is read alike by any number of workers.
fn is_read_alike<R: Threads + Sync + Abort>(
    rt: &R,
    alloc: Global,
    bytes: &[u8],
    limits: &Limits,
) -> Result<(), Fail> {
    let wanted = shown(alloc, bytes, limits)?;
    for workers in [0u8, 1, 2, 3, 4, 16] {
        let out = shown_by(rt, alloc, bytes, limits, workers)?;
        assert_eq!(rt; out.as_slice(), wanted.as_slice(), "{workers} workers");
    }
    Ok(())
}

#[test]
fn any_number_of_workers_reads_the_same(rt: HostRuntime) -> Result<(), Fail> {
    let standard = Limits::standard();
    let cases: [(&[u8], Limits); 24] = [
        (CITIES, standard),
        (b"", standard),
        (b"\n", standard),
        (b"a,b", standard),
        (b"a,b\n", standard),
        (b"\n\na\n1\n2\n3\n", standard),
        (b"a\n\n1\n\n\n2\n\n3\n\n\n\n", standard),
        (b"a,b\r1,2\r3,4\r5,6\r7,8\r9,0\r", standard),
        (b"a,b\r\n1,2\r\n3,4\r\n5,6\r\n7,8\r\n", standard),
        (b"a,b\r1,2\n3,4\r\n\r\n5,6\n7,8", standard),
        // The middle stands in quotes, and so does the end of the header's line.
        (b"a,b\n1,2\n\"\n\n\n\n\n\n\n\n\n\",3\n4,5\n", standard),
        (
            b"a\n\"\"\n\"\"\"\n\"\"\"\n\"\n\"\n\"\n\n\"\"\n\n\"\n1\n",
            standard,
        ),
        (b"\"a\n\",\"\nb\"\n1,\"2\"\n\"\n\",\"\"\n5,6\n", standard),
        (b"a,b\n1,2\n3,\"4\n5,6\n7,8\n9,0\n", standard),
        // A byte order mark at the start of the file is none of it; another belongs to its cell.
        (b"\xEF\xBB\xBFa,b\n1,2\n3,4\n5,6\n", standard),
        (b"a\n1\n2\n\xEF\xBB\xBF3\n\xEF\xBB\xBF4\n5\n6\n", standard),
        (
            b"a\n\xEF\xBB\xBF3\n\xEF\xBB\xBF4\n\xEF\xBB\xBF5\n",
            standard,
        ),
        // A rule refuses it.
        (b"a,b\n1,2\n3,4\n5,6\n7\n", standard),
        (b"a,b\n1\n3,4\n5,6\n7\n", standard),
        (b"a,b\n1,2\n3,4\n5,66\n7,8\n", Limits::smaller(2, 9, 1, 99)),
        (b"a,bb\n1,2\n3,4\n5,6\n7,8\n", Limits::smaller(2, 9, 1, 99)),
        (b"a,b,c\n1,2,3\n4,5,6\n", Limits::smaller(2, 9, 9, 99)),
        (b"a\n1\n2\n3\n4\n5\n", Limits::smaller(2, 4, 9, 99)),
        (b"a\n1\n2\n3\n4\n5\n", Limits::smaller(2, 5, 9, 99)),
    ];
    for (bytes, limits) in cases {
        is_read_alike(&rt, rt.alloc(), bytes, &limits)?;
    }
    Ok(())
}

// Whether parts of a file were read and put together.
fn is_parted<R: Threads + Sync>(
    rt: &R,
    alloc: Global,
    bytes: &[u8],
    limits: &Limits,
) -> Result<bool, AllocError> {
    Ok(try_parts(rt, alloc, bytes, limits, 4)?.is_some())
}

#[test]
fn parts_are_put_together_where_no_rule_refuses(rt: HostRuntime) -> Result<(), Fail> {
    let standard = Limits::standard();
    let cases: [(&[u8], Limits, bool); 6] = [
        (CITIES, standard, true),
        (b"a,b\r1,2\r3,4\r5,6\r", standard, true),
        (b"a,b\n1,\"\n\"\n3,\"\n\"\n5,\"\n\"\n", standard, true),
        (b"a\n1\n2\n3\n4\n5\n", Limits::smaller(2, 5, 9, 99), true),
        (b"a\n1\n2\n3\n4\n5\n", Limits::smaller(2, 4, 9, 99), false),
        (b"a\n1\n2\n3\n4,4\n5\n", standard, false),
    ];
    for (bytes, limits, wanted) in cases {
        let alloc = rt.alloc();
        let parted = is_parted(&rt, alloc, bytes, &limits).or_else(|_| is_parted(
            &rt, alloc, bytes, &limits,
        ))?;
        assert_eq!(rt; parted, wanted);
    }
    Ok(())
}

#[test]
fn cuts_between_records(rt: HostRuntime) -> Result<(), Fail> {
    let cases: [(&[u8], usize, Option<usize>); 12] = [
        (b"a,b\nc\n", 0, Some(4)),
        (b"a,b\nc\n", 3, Some(4)),
        // Nothing would be left.
        (b"a,b\nc\n", 4, None),
        (b"a,b\nc", 5, None),
        (b"", 0, None),
        (b"a,b\rc\r", 0, Some(4)),
        (b"a\r\nb", 0, Some(3)),
        (b"a\n\"\n\"\nb\n", 2, Some(6)),
        (b"\"a\"\n\"\n\"\nb\n", 0, Some(4)),
        (b"a\n\"b\nc\n", 2, None),
        (b"a\n\xEF\xBB\xBFb\nc\n", 0, Some(7)),
        (b"a\n\xEF\xBB\xBFb\n", 0, None),
    ];
    for (text, near, wanted) in cases {
        assert_eq!(rt; cut(after_marks(text), near), wanted);
    }
    Ok(())
}

// The rows of a file that several workers read.
fn row_count<R: Threads + Sync>(
    rt: &R,
    alloc: Global,
    text: &[u8],
    workers: u8,
) -> Result<usize, AllocError> {
    match read_relation_by(rt, alloc, text, &Limits::standard(), workers) {
        Loaded::Read(relation) => Ok(relation.len()),
        Loaded::Refused { .. } => Ok(0),
        Loaded::NoMemory => Err(AllocError),
    }
}

#[test]
fn a_long_file_is_read_by_several_workers(rt: HostRuntime) -> Result<(), Fail> {
    let alloc = rt.alloc();
    let text = with_pieces(alloc, b"a,b\n", b"1,\"x\n\"\n22,yy\n", 25_000)?;
    for workers in [1u8, 2, 16, 255] {
        let bytes = text.as_slice();
        let rows = row_count(&rt, alloc, bytes, workers).or_else(|_| row_count(
            &rt, alloc, bytes, workers,
        ))?;
        assert_eq!(rt; rows, 50_000);
    }
    Ok(())
}
