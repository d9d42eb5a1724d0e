// What `synthesize` writes.
use super::{Case, R, R_REPORT};

// Each city has one zip and each zip one city, so two tables are enough, and the first one refers to the second.
pub const R_SYNTHESIZED: &[(&str, &str)] = &[
    ("t1.csv", "id,zip\n1,10115\n2,10115\n3,14467\n"),
    ("t2.csv", "city,zip\nBerlin,10115\nPotsdam,14467\n"),
];

pub const R_SYNTHESIZED_LINES: &str =
    "table,1,1 3,1\ntable,2,2 3,2\nalternate,2,3\nreference,1,3,2\n";

pub static SYNTHESIZED: [Case<'static>; 8] = [
    Case {
        words: &["depprof", "synthesize", "--out", "t", "r.csv"],
        files: &[("r.csv", R)],
        input: "",
        text: &[R_REPORT, R_SYNTHESIZED_LINES],
        tables: R_SYNTHESIZED,
        status: 0,
    },
    // All of these dependencies have one column on the left.
    Case {
        words: &[
            "depprof",
            "synthesize",
            "--most=1",
            "r.csv",
            "--workers=2",
            "--out=t",
        ],
        files: &[("r.csv", R)],
        input: "",
        text: &[R_REPORT, R_SYNTHESIZED_LINES],
        tables: R_SYNTHESIZED,
        status: 0,
    },
    // No dependency counts, so one table has all columns.
    Case {
        words: &[
            "depprof",
            "synthesize",
            "--out",
            "t",
            "--most",
            "0",
            "r.csv",
        ],
        files: &[("r.csv", R)],
        input: "",
        text: &[R_REPORT, "table,1,1 2 3,1 2 3\nalternate,1,1\n"],
        tables: &[("t1.csv", R)],
        status: 0,
    },
    // A constant has a table of its own, to which nothing refers.
    Case {
        words: &["depprof", "synthesize", "--out", "t", "x.csv"],
        files: &[("x.csv", "a,b\n1,x\n2,x\n")],
        input: "",
        text: &[
            "relation,x.csv,2,2\ncolumn,1,a\ncolumn,2,b\n",
            "key,1\nfd,,2\ntable,1,2,\ntable,2,1,1\n",
        ],
        tables: &[("t1.csv", "b\nx\n"), ("t2.csv", "a\n1\n2\n")],
        status: 0,
    },
    Case {
        words: &["depprof", "synthesize", "--out", "t", "parity.csv"],
        files: &[("parity.csv", "a,b,c\n0,0,0\n0,1,1\n1,0,1\n1,1,0\n")],
        input: "",
        text: &[
            "relation,parity.csv,3,4\ncolumn,1,a\ncolumn,2,b\ncolumn,3,c\nkey,1 2\nkey,1 3\nkey,2 3\n",
            "fd,2 3,1\nfd,1 3,2\nfd,1 2,3\nind,1.1,1.2\nind,1.1,1.3\nind,1.2,1.1\nind,1.2,1.3\nind,1.3,1.1\nind,1.3,1.2\n",
            "table,1,1 2 3,1 2\nalternate,1,1 3\nalternate,1,2 3\n",
        ],
        tables: &[("t1.csv", "a,b,c\n0,0,0\n0,1,1\n1,0,1\n1,1,0\n")],
        status: 0,
    },
    // Equal rows have no key, and one row is left of them.
    Case {
        words: &["depprof", "synthesize", "--out", "t", "q.csv"],
        files: &[("q.csv", "a,b\nx,\nx,\n")],
        input: "",
        text: &[
            "relation,q.csv,2,2\ncolumn,1,a\ncolumn,2,b\n",
            "fd,,1\nfd,,2\nind,1.2,1.1\ntable,1,1 2,\n",
        ],
        tables: &[("t1.csv", "a,b\nx,\n")],
        status: 0,
    },
    Case {
        words: &["depprof", "synthesize", "--out", "t", "bare.csv"],
        files: &[("bare.csv", "a,a\n")],
        input: "",
        text: &[
            "relation,bare.csv,2,0\ncolumn,1,a\ncolumn,2,a\nkey,\nfd,,1\nfd,,2\n",
            "ind,1.1,1.2\nind,1.2,1.1\ntable,1,1 2,\n",
        ],
        tables: &[("t1.csv", "a,a\n")],
        status: 0,
    },
    Case {
        words: &["depprof", "synthesize", "--out", "t", "s.csv"],
        files: &[("s.csv", "a,b\n1,x\n2\n")],
        input: "",
        text: &["refused,s.csv,3,3\n"],
        tables: &[],
        status: 3,
    },
];
