// Which record is the first out of form.
use super::{WHOLE, cities, no, says};
use cover_cert::{Answer, Flaw, check};
use rel_base::Snapshot;
use std::alloc::{AllocError, Global};
use std::test::Fail;
use std::thread::Threads;

// Whether the first record out of form is this one.
fn out_at<R: Threads + Sync>(
    rt: &R,
    alloc: Global,
    rows: &Snapshot,
    text: &[u8],
    record: u64,
) -> Result<bool, AllocError> {
    says(rt, alloc, rows, text, no(record, Flaw::Form))
}

#[test]
fn a_text_has_a_beginning_and_an_end(rt: HostRuntime) -> Result<(), Fail> {
    let alloc = rt.alloc();
    let rows = cities(alloc, &rt)?;
    assert!(rt; out_at(&rt, alloc, &rows, b"", 1)?);
    assert!(rt; out_at(&rt, alloc, &rows, b"end\n", 1)?);
    assert!(rt; out_at(&rt, alloc, &rows, b"cert,3,3\n", 2)?);
    assert!(rt; out_at(&rt, alloc, &rows, b"cert,3,3\nend\nend\n", 3)?);
    assert!(rt; out_at(&rt, alloc, &rows, b"cert,3,3\nend\npair,1,2\n", 3)?);
    assert!(rt; out_at(&rt, alloc, &rows, b"cert,3,3\nend,\n", 2)?);
    assert!(rt; out_at(&rt, alloc, &rows, b"cert,3,3\ncert,3,3\nend\n", 2)?);
    Ok(())
}

#[test]
fn kinds_stand_in_order(rt: HostRuntime) -> Result<(), Fail> {
    let alloc = rt.alloc();
    let rows = cities(alloc, &rt)?;
    assert!(rt; out_at(&rt, alloc, &rows, b"cert,3,3\nfd,1,2\nkey,1\nend\n", 3)?);
    assert!(rt; out_at(&rt, alloc, &rows, b"cert,3,3\nkey,1\npair,1,2\nend\n", 3)?);
    assert!(rt; out_at(&rt, alloc, &rows, b"cert,3,3\nfd,1,2\npair,1,2\nend\n", 3)?);
    assert!(rt; out_at(&rt, alloc, &rows, b"pair,1,2\ncert,3,3\nend\n", 1)?);
    assert!(rt; out_at(&rt, alloc, &rows, b"cert,3,3\nCERT,3,3\nend\n", 2)?);
    Ok(())
}

#[test]
fn numbers_are_plain(rt: HostRuntime) -> Result<(), Fail> {
    let alloc = rt.alloc();
    let rows = cities(alloc, &rt)?;
    assert!(rt; out_at(&rt, alloc, &rows, b"cert,3,3\npair,01,2\nend\n", 2)?);
    assert!(rt; out_at(&rt, alloc, &rows, b"cert,3,3\npair,+1,2\nend\n", 2)?);
    assert!(rt; out_at(&rt, alloc, &rows, b"cert,3,3\npair,,2\nend\n", 2)?);
    assert!(rt; out_at(&rt, alloc, &rows, b"cert,3,3\npair,1,12345678901\nend\n", 2)?);
    assert!(rt; out_at(&rt, alloc, &rows, b"cert,3,3\npair,1,4294967296\nend\n", 2)?);
    let most = b"cert,3,3\npair,1,4294967295\nend\n";
    assert!(rt; says(&rt, alloc, &rows, most, no(2, Flaw::Pair))?);
    assert!(rt; says(&rt, alloc, &rows, b"cert,0,0\nend\n", no(1, Flaw::Shape))?);
    Ok(())
}

#[test]
fn columns_ascend_from_1_to_128(rt: HostRuntime) -> Result<(), Fail> {
    let alloc = rt.alloc();
    let rows = cities(alloc, &rt)?;
    assert!(rt; out_at(&rt, alloc, &rows, b"cert,3,3\nkey,0\nend\n", 2)?);
    assert!(rt; out_at(&rt, alloc, &rows, b"cert,3,3\nkey,129\nend\n", 2)?);
    assert!(rt; out_at(&rt, alloc, &rows, b"cert,3,3\nkey,2 1\nend\n", 2)?);
    assert!(rt; out_at(&rt, alloc, &rows, b"cert,3,3\nkey,1 1\nend\n", 2)?);
    assert!(rt; out_at(&rt, alloc, &rows, b"cert,3,3\nkey,1  2\nend\n", 2)?);
    assert!(rt; out_at(&rt, alloc, &rows, b"cert,3,3\nkey,1 \nend\n", 2)?);
    assert!(rt; out_at(&rt, alloc, &rows, b"cert,3,3\nfd,1,0\nend\n", 2)?);
    assert!(rt; out_at(&rt, alloc, &rows, b"cert,3,3\nfd,1,129\nend\n", 2)?);
    let wide = b"cert,3,3\nkey,1 2 127 128\nfd,,128\nend\n";
    assert!(rt; says(&rt, alloc, &rows, wide, no(2, Flaw::Least))?);
    Ok(())
}

#[test]
fn records_have_their_fields(rt: HostRuntime) -> Result<(), Fail> {
    let alloc = rt.alloc();
    let rows = cities(alloc, &rt)?;
    assert!(rt; out_at(&rt, alloc, &rows, b"cert,3\nend\n", 1)?);
    assert!(rt; out_at(&rt, alloc, &rows, b"cert,3,3\npair,1,2,3\nend\n", 2)?);
    assert!(rt; out_at(&rt, alloc, &rows, b"cert,3,3\nkey\nend\n", 2)?);
    assert!(rt; out_at(&rt, alloc, &rows, b"cert,3,3\nkey,1,2\nend\n", 2)?);
    assert!(rt; out_at(&rt, alloc, &rows, b"cert,3,3\nfd,1\nend\n", 2)?);
    Ok(())
}

// The same records in other bytes: CR LF, a byte order mark, fields in quotes, and lines without a character.
#[test]
fn bytes_are_read_as_a_file_is(rt: HostRuntime) -> Result<(), Fail> {
    let alloc = rt.alloc();
    let rows = cities(alloc, &rt)?;
    let returns =
        b"cert,3,3\r\npair,1,2\r\npair,1,3\r\nkey,1\r\nfd,1,2\r\nfd,3,2\r\nfd,1,3\r\nfd,2,3\r\nend\r\n";
    assert!(rt; says(&rt, alloc, &rows, returns, Answer::Yes)?);
    let marked =
        b"\xef\xbb\xbf\"cert\",3,\"3\"\npair,1,2\n\n\npair,1,3\nkey,\"1\"\nfd,1,2\nfd,3,2\nfd,1,3\nfd,2,3\n\"end\"";
    assert!(rt; says(&rt, alloc, &rows, marked, Answer::Yes)?);
    Ok(())
}

// A record with far more fields than any has, behind a certificate or in it.
#[test]
fn a_giant_record_is_out_of_form(rt: HostRuntime) -> Result<(), Fail> {
    let alloc = rt.alloc();
    let rows = cities(alloc, &rt)?;
    let mut text: Vec<u8> = Vec::new(alloc);
    text.extend_from_slice(b"cert,3,3\npair,1,2\npair")?;
    for _ in 0..200_000 {
        text.push(b',')?;
    }
    text.extend_from_slice(b"\nend\n")?;
    let answer = check(&rt, alloc, &rows, text.as_slice(), 2)?;
    assert!(rt; answer == no(3, Flaw::Form));
    text.truncate(0);
    text.extend_from_slice(WHOLE)?;
    for _ in 0..200_000 {
        text.push(b',')?;
    }
    let behind = check(&rt, alloc, &rows, text.as_slice(), 3)?;
    assert!(rt; behind == no(10, Flaw::Form));
    Ok(())
}
