// What `normalize` writes, and that `demo` counts it.
use super::{Case, Outside, R, R_REPORT, Ran, SURE, is_same, run_of};
use normalize_text::demo_relation;
use rel_base::Limits;
use report_text::table_file;
use std::alloc::{AllocError, Global};
use std::process::Abort;
use std::str;
use std::sync::Wait;
use std::test::Fail;
use std::thread::Threads;

pub const R_TABLES: &[(&str, &str)] = &[
    ("t1.csv", "id,city\n1,Berlin\n2,Berlin\n3,Potsdam\n"),
    ("t2.csv", "city,zip\nBerlin,10115\nPotsdam,14467\n"),
];

pub const R_TABLE_LINES: &str = "table,1,1 2,1\ntable,2,2 3,2\nalternate,2,3\n";

pub static NORMALIZED: [Case<'static>; 6] = [
    Case {
        words: &["depprof", "normalize", "--out", "t", "r.csv"],
        files: &[("r.csv", R)],
        input: "",
        text: &[R_REPORT, R_TABLE_LINES],
        tables: R_TABLES,
        status: 0,
    },
    Case {
        words: &["depprof", "normalize", "--out=t", "q.csv"],
        files: &[("q.csv", "\"a,c\",b\n\"x\"\"y\",\n\"x\"\"y\",\n")],
        input: "",
        text: &[
            "relation,q.csv,2,2\ncolumn,1,\"a,c\"\ncolumn,2,b\n",
            "fd,,1\nfd,,2\nind,1.2,1.1\ntable,1,1 2,\n",
        ],
        tables: &[("t1.csv", "\"a,c\",b\n\"x\"\"y\",\n")],
        status: 0,
    },
    Case {
        words: &[
            "depprof",
            "normalize",
            "--workers",
            "16",
            "c.csv",
            "--out",
            "t",
        ],
        files: &[("c.csv", "a,b\n1,x\n2,x\n")],
        input: "",
        text: &[
            "relation,c.csv,2,2\ncolumn,1,a\ncolumn,2,b\n",
            "key,1\nfd,,2\ntable,1,1,1\ntable,2,2,\n",
        ],
        tables: &[("t1.csv", "a\n1\n2\n"), ("t2.csv", "b\nx\n")],
        status: 0,
    },
    Case {
        words: &["depprof", "normalize", "--out", "t", "parity.csv"],
        files: &[("parity.csv", "a,b,c\n0,0,0\n0,1,1\n1,0,1\n1,1,0\n")],
        input: "",
        text: &[
            "relation,parity.csv,3,4\ncolumn,1,a\ncolumn,2,b\ncolumn,3,c\nkey,1 2\nkey,1 3\nkey,2 3\n",
            "fd,2 3,1\nfd,1 3,2\nfd,1 2,3\nind,1.1,1.2\nind,1.1,1.3\nind,1.2,1.1\nind,1.2,1.3\nind,1.3,1.1\nind,1.3,1.2\n",
            "table,1,1 2 3,1 2\nalternate,1,1 3\nalternate,1,2 3\n",
        ],
        tables: &[("t1.csv", "a,b,c\n0,0,0\n0,1,1\n1,0,1\n1,1,0\n")],
        status: 0,
    },
    // A table's file takes the place of the file that was read.
    Case {
        words: &["depprof", "normalize", "--out", "t", "t1.csv"],
        files: &[("t1.csv", "a,b\n1,x\n2,x\n")],
        input: "",
        text: &[
            "relation,t1.csv,2,2\ncolumn,1,a\ncolumn,2,b\n",
            "key,1\nfd,,2\ntable,1,1,1\ntable,2,2,\n",
        ],
        tables: &[("t1.csv", "a\n1\n2\n"), ("t2.csv", "b\nx\n")],
        status: 0,
    },
    Case {
        words: &["depprof", "normalize", "--out", "t", "s.csv"],
        files: &[("s.csv", "a,b\n1,x\n2\n")],
        input: "",
        text: &["refused,s.csv,3,3\n"],
        tables: &[],
        status: 3,
    },
];

// How many lines begin so.
fn lines_of(text: &[u8], kind: &[u8]) -> usize {
    text.split(|byte| *byte == b'\n')
        .filter(|line| line.starts_with(kind))
        .count()
}

// The words of `normalize` over the relation of the seed 1, and those of its `demo` with one worker and more.
const NORMALIZE: &[&str] = &["depprof", "normalize", "--out", "t", "d.csv"];

static DEMOS: [&[&str]; 3] = [
    &["depprof", "demo", "--workers", "1", "1"],
    &["depprof", "demo", "--workers", "2", "1"],
    &["depprof", "demo", "--workers", "16", "1"],
];

// A file of the relation of the seed 1.
fn demo_file(alloc: Global) -> Result<Vec<u8>, AllocError> {
    let relation = demo_relation(alloc, 1)?;
    let rows = relation.rows(alloc)?;
    table_file(alloc, relation.names(), &rows)
}

// What these words come to beside these files.
fn run_beside<'a, H: Threads + Wait + Sync>(
    rt: &H,
    alloc: Global,
    words: &'a [&'a str],
    files: &'a [(&'a str, &'a str)],
) -> Result<Ran, AllocError> {
    let case = Case {
        words,
        files,
        input: "",
        text: &[],
        tables: &[],
        status: 0,
    };
    let wide = Outside {
        room: 1_000_000,
        ..SURE
    };
    run_of(rt, alloc, &case, &wide, Limits::standard())
}

// The line that `demo` is to write, where `normalize` wrote this.
fn counts_in(alloc: Global, text: &[u8]) -> Result<String, AllocError> {
    let keys = lines_of(text, b"key,");
    let fds = lines_of(text, b"fd,");
    let inds = lines_of(text, b"ind,");
    let tables = lines_of(text, b"table,");
    format!(in alloc; "demo,1,12,5000,{keys},{fds},{inds},{tables}\n")
}

// Whether these words write this text beside the files.
fn writes<'a, H: Threads + Wait + Sync>(
    rt: &H,
    alloc: Global,
    words: &'a [&'a str],
    files: &'a [(&'a str, &'a str)],
    wanted: &str,
) -> Result<bool, AllocError> {
    let done = run_beside(rt, alloc, words, files)?;
    Ok(is_same(done.text(), wanted))
}

// The line that `demo` is to write, by what `normalize` writes of these files, which has some tables.
fn wanted_line<H: Threads + Wait + Sync + Abort>(
    rt: &H,
    alloc: Global,
    files: &[(&str, &str)],
) -> Result<String, AllocError> {
    let done = run_beside(rt, alloc, NORMALIZE, files)?;
    assert!(rt; lines_of(done.text(), b"table,") > 0);
    counts_in(alloc, done.text())
}

// Asserts that `demo` counts what `normalize` writes of these files.
fn expect_counts<H: Threads + Wait + Sync + Abort>(
    rt: &H,
    alloc: Global,
    files: &[(&str, &str)],
) -> Result<(), AllocError> {
    let wanted = wanted_line(rt, alloc, files)?;
    for words in &DEMOS {
        assert!(rt; writes(rt, alloc, words, files, &wanted)?, "{words:?}");
    }
    Ok(())
}

#[test]
fn demo_counts_what_normalize_writes(rt: HostRuntime) -> Result<(), Fail> {
    let bytes = demo_file(rt.alloc())?;
    let file = str::from_utf8(&bytes)?;
    let head = "c1,c2,c3,c4,c5,c6,c7,c8,c9,c10,c11,c12\n1,8,18,13,15,51,9,5,0,1,45,1\n";
    assert!(rt; file.starts_with(head));
    expect_counts(&rt, rt.alloc(), &[("d.csv", file)])?;
    Ok(())
}
