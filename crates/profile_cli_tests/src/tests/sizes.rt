// Inputs at the limits and beyond them.
use super::beside::expect_by_any;
use super::sessions::K;
use super::{Case, Outside, R, R_REPORT, Ran, SURE, is_same, run_of};
use rel_base::{Limits, MOST_BYTES, MOST_CELL_BYTES, MOST_COLUMNS, MOST_ROWS};
use std::alloc::{AllocError, Global};
use std::process::Abort;
use std::sync::Wait;
use std::test::Fail;
use std::thread::Threads;

// Limits on columns, rows, cells and bytes, and a run under them.
struct Limited {
    limits: (u8, u32, u64, u64),
    case: Case<'static>,
}

const SESSION: &[&str] = &["depprof", "session", "k.csv"];

static LIMITED: [Limited; 14] = [
    Limited {
        limits: (MOST_COLUMNS, MOST_ROWS, MOST_CELL_BYTES, MOST_BYTES),
        case: Case {
            words: &["depprof", "profile", "e.csv"],
            files: &[("e.csv", "")],
            input: "",
            text: &["refused,e.csv,0,1\n"],
            tables: &[],
            status: 3,
        },
    },
    Limited {
        limits: (MOST_COLUMNS, MOST_ROWS, MOST_CELL_BYTES, MOST_BYTES),
        case: Case {
            words: &["depprof", "profile", "s.csv"],
            files: &[("s.csv", "a,b\n1,x\n2\n")],
            input: "",
            text: &["refused,s.csv,3,3\n"],
            tables: &[],
            status: 3,
        },
    },
    Limited {
        limits: (MOST_COLUMNS, MOST_ROWS, MOST_CELL_BYTES, 57),
        case: Case {
            words: &["depprof", "profile", "r.csv"],
            files: &[("r.csv", R)],
            input: "",
            text: &["refused,r.csv,0,6\n"],
            tables: &[],
            status: 3,
        },
    },
    Limited {
        limits: (MOST_COLUMNS, MOST_ROWS, MOST_CELL_BYTES, 58),
        case: Case {
            words: &["depprof", "profile", "r.csv"],
            files: &[("r.csv", R)],
            input: "",
            text: &[R_REPORT],
            tables: &[],
            status: 0,
        },
    },
    Limited {
        limits: (MOST_COLUMNS, MOST_ROWS, 5, MOST_BYTES),
        case: Case {
            words: &["depprof", "profile", "r.csv"],
            files: &[("r.csv", R)],
            input: "",
            text: &["refused,r.csv,2,4\n"],
            tables: &[],
            status: 3,
        },
    },
    Limited {
        limits: (MOST_COLUMNS, 2, MOST_CELL_BYTES, MOST_BYTES),
        case: Case {
            words: &["depprof", "profile", "r.csv"],
            files: &[("r.csv", R)],
            input: "",
            text: &["refused,r.csv,4,5\n"],
            tables: &[],
            status: 3,
        },
    },
    Limited {
        limits: (2, 9, 9, 99),
        case: Case {
            words: &["depprof", "profile", "x.csv"],
            files: &[("x.csv", "a,b,c\n1\n")],
            input: "",
            text: &["refused,x.csv,1,2\n"],
            tables: &[],
            status: 3,
        },
    },
    Limited {
        limits: (2, 9, 1, 99),
        case: Case {
            words: &["depprof", "profile", "x.csv"],
            files: &[("x.csv", "a,b\n11\n")],
            input: "",
            text: &["refused,x.csv,2,3\n"],
            tables: &[],
            status: 3,
        },
    },
    Limited {
        limits: (2, 1, 1, 99),
        case: Case {
            words: &["depprof", "profile", "x.csv"],
            files: &[("x.csv", "a\n1\n22\n")],
            input: "",
            text: &["refused,x.csv,3,4\n"],
            tables: &[],
            status: 3,
        },
    },
    Limited {
        limits: (MOST_COLUMNS, 3, MOST_CELL_BYTES, MOST_BYTES),
        case: Case {
            words: SESSION,
            files: K,
            input: "+,3,w\n!\n-,1\n+,3,w\n!\n",
            text: &["refused,1,1,5\nrefused,2,4,5\n"],
            tables: &[],
            status: 0,
        },
    },
    Limited {
        limits: (MOST_COLUMNS, 3, MOST_CELL_BYTES, MOST_BYTES),
        case: Case {
            words: SESSION,
            files: K,
            input: "=,9,1,x\n!\n=,1,1,x\n!\n",
            text: &["refused,1,1,9\nrefused,2,3,5\n"],
            tables: &[],
            status: 0,
        },
    },
    Limited {
        limits: (MOST_COLUMNS, MOST_ROWS, 1, MOST_BYTES),
        case: Case {
            words: SESSION,
            files: K,
            input: "+,3,ww\n!\n",
            text: &["refused,1,1,4\n"],
            tables: &[],
            status: 0,
        },
    },
    Limited {
        limits: (MOST_COLUMNS, MOST_ROWS, MOST_CELL_BYTES, 16),
        case: Case {
            words: SESSION,
            files: K,
            input: "+,3,w\n!\n+,3,w\n!\n",
            text: &["applied,1,1,0,4\napplied,2,1,0,5\n"],
            tables: &[],
            status: 0,
        },
    },
    Limited {
        limits: (MOST_COLUMNS, MOST_ROWS, MOST_CELL_BYTES, 16),
        case: Case {
            words: SESSION,
            files: K,
            input: "+,3,w\n!\n+,3,w\n!\n\n",
            text: &["refused,-,0,6\n"],
            tables: &[],
            status: 3,
        },
    },
];

// The limits of a run, which are to be no larger than the standard ones.
fn limits_of<R: Abort>(rt: &R, limited: &Limited) -> Limits {
    let (columns, rows, cell, bytes) = limited.limits;
    assert!(rt; 0 < columns);
    assert!(rt; columns <= MOST_COLUMNS);
    assert!(rt; rows <= MOST_ROWS);
    assert!(rt; cell <= MOST_CELL_BYTES);
    assert!(rt; bytes <= MOST_BYTES);
    Limits::smaller(columns, rows, cell, bytes)
}

#[test]
fn limits_hold(rt: HostRuntime) -> Result<(), Fail> {
    for limited in &LIMITED {
        let limits = limits_of(&rt, limited);
        expect_by_any(&rt, rt.alloc(), &limited.case, &SURE, limits)?;
    }
    Ok(())
}

// Adds a record of so many cells, of which the last one may differ from the others.
fn push_record(text: &mut String, cells: u8, cell: char, last: char) -> Result<(), AllocError> {
    for _ in 1..cells {
        text.push(cell)?;
        text.push(',')?;
    }
    text.push(last)?;
    text.push('\n')
}

// A header of so many columns named c, and as many rows of zeros that differ in the last column alone.
fn wide(alloc: Global, columns: u8, rows: &[char]) -> Result<String, AllocError> {
    let mut text = String::new(alloc);
    push_record(&mut text, columns, 'c', 'c')?;
    for last in rows {
        push_record(&mut text, columns, '0', *last)?;
    }
    Ok(text)
}

// Columns, the last cells of the rows, how many lines the report has, and the status.
static WIDTHS: [(u8, &[char], usize, u8); 5] = [
    (13, &[], 184, 0),
    (64, &[], 4162, 0),
    (MOST_COLUMNS, &[], 16514, 0),
    (129, &[], 1, 3),
    (65, &['1', '2'], 4163, 0),
];

// A header, the length of the cell that follows it, and the report.
static CELLS: [(&str, usize, &str); 3] = [
    (
        "a\n",
        65_536,
        "relation,w.csv,1,1\ncolumn,1,a\nkey,\nfd,,1\n",
    ),
    ("a\n", 65_537, "refused,w.csv,2,4\n"),
    ("", 65_537, "refused,w.csv,1,4\n"),
];

// What `profile` comes to over a file with this text.
fn profiled<H: Threads + Wait + Sync>(
    rt: &H,
    alloc: Global,
    text: &str,
) -> Result<Ran, AllocError> {
    let case = Case {
        words: &["depprof", "profile", "w.csv"],
        files: &[("w.csv", text)],
        input: "",
        text: &[],
        tables: &[],
        status: 0,
    };
    let outside = Outside {
        room: 1_000_000,
        ..SURE
    };
    run_of(rt, alloc, &case, &outside, Limits::standard())
}

// How many lines `profile` writes over a header of so many columns and these rows, and its status.
fn lines_of_wide<H: Threads + Wait + Sync>(
    rt: &H,
    alloc: Global,
    columns: u8,
    rows: &[char],
) -> Result<(usize, u8), AllocError> {
    let text = wide(alloc, columns, rows)?;
    let done = profiled(rt, alloc, &text)?;
    let lines = done.text().iter().filter(|byte| **byte == b'\n').count();
    Ok((lines, done.status()))
}

#[test]
fn widths_up_to_the_limit_are_reported(rt: HostRuntime) -> Result<(), Fail> {
    for (columns, rows, lines, status) in &WIDTHS {
        let came = lines_of_wide(&rt, rt.alloc(), *columns, rows)?;
        assert!(rt; came == (*lines, *status), "{columns} columns");
    }
    Ok(())
}

// This header, and a cell of so many bytes behind it.
fn with_cell(alloc: Global, header: &str, length: usize) -> Result<String, AllocError> {
    let mut text = String::from_str(alloc, header)?;
    for _ in 0..length {
        text.push('x')?;
    }
    Ok(text)
}

// Whether `profile` reports this of a header and a cell of so many bytes behind it.
fn reports_cell<H: Threads + Wait + Sync>(
    rt: &H,
    alloc: Global,
    header: &str,
    length: usize,
    report: &str,
) -> Result<bool, AllocError> {
    let text = with_cell(alloc, header, length)?;
    let done = profiled(rt, alloc, &text)?;
    Ok(is_same(done.text(), report))
}

#[test]
fn cells_up_to_the_limit_are_reported(rt: HostRuntime) -> Result<(), Fail> {
    for (header, length, report) in &CELLS {
        assert!(rt;
            reports_cell(&rt, rt.alloc(), header, *length, report)?,
            "a cell of {length} bytes"
        );
    }
    Ok(())
}
