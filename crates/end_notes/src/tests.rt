use crate::{Hint, Refusal, Sample, field_count};
use rel_base::{Limits, Why};
use std::alloc::Global;
use std::test::Fail;

// What a file of these bytes looks like, that comes in pieces of two bytes.
fn hint_of(bytes: &[u8]) -> Option<Hint> {
    let mut sample = Sample::new();
    for piece in bytes.chunks(2) {
        sample.note(piece);
    }
    sample.hint()
}

#[test]
fn files_that_were_meant_otherwise(rt: HostRuntime) {
    let cases: [(&[u8], Option<Hint>); 12] = [
        (b"\x1f\x8b\x08,", Some(Hint::Gzip)),
        (b"PK\x03\x04,", Some(Hint::Zip)),
        (b"\xff\xfea\x00,\x00", Some(Hint::Utf16)),
        (b"\xfe\xff\x00a\x00,", Some(Hint::Utf16)),
        (b"sep=;\na;b\n", Some(Hint::SeparatorLine)),
        (b"a;b\n1,2;3\n", Some(Hint::Separator(b';'))),
        (b"a\tb\r\n1\t2\r\n", Some(Hint::Separator(b'\t'))),
        (b"a|b\n", Some(Hint::Separator(b'|'))),
        (b"a,b\n1,\"x\n2,y\n", Some(Hint::OpenQuote)),
        (b"a\n1\n", Some(Hint::OneColumn)),
        (b"a,b\n1,\"x\"\"\"\n", None),
        (b"", None),
    ];
    for (bytes, wanted) in cases {
        assert!(rt; hint_of(bytes) == wanted, "{wanted:?}");
    }
}

// Whether a refusal at a record reads so.
fn reads(alloc: Global, rec: u64, why: Why, wanted: &str) -> Result<bool, Fail> {
    let refusal = Refusal {
        file: "f.csv",
        rec,
        why,
        header: Some(6),
        fields: Some(5),
        limits: Limits::standard(),
    };
    Ok(format!(in alloc; "{refusal}")?.as_str() == wanted)
}

#[test]
fn refusals_in_words(rt: HostRuntime) -> Result<(), Fail> {
    let cases = [
        (0, Why::NoHeader, "f.csv: no record, so there is no header"),
        (
            1,
            Why::Columns,
            "f.csv, record 1: 6 columns, and 128 is the most",
        ),
        (
            12,
            Why::Fields,
            "f.csv, record 12: 5 fields where the header has 6",
        ),
        (
            3,
            Why::Cell,
            "f.csv, record 3: a cell of more than 65536 bytes",
        ),
        (
            1_000_002,
            Why::Rows,
            "f.csv, record 1000002: more than 1000000 rows",
        ),
        (0, Why::Bytes, "f.csv: more than 268435456 bytes"),
    ];
    for (rec, why, wanted) in cases {
        assert!(rt; reads(rt.alloc(), rec, why, wanted)?, "{wanted}");
    }
    Ok(())
}

#[test]
fn fields_are_counted(rt: HostRuntime) -> Result<(), Fail> {
    let alloc = rt.alloc();
    let text = b"a,b,c\n\n1,\"x,\ny\",2\n3\n";
    assert!(rt; field_count(alloc, text, 0)? == Some(3));
    assert!(rt; field_count(alloc, text, 1)? == Some(3));
    assert!(rt; field_count(alloc, text, 2)? == Some(1));
    assert!(rt; field_count(alloc, text, 3)? == None);
    Ok(())
}
