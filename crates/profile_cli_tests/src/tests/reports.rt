// What `profile` writes.
use super::{Case, R, R_REPORT};

const ONE: &str = "relation,one,1,2\ncolumn,1,a\nkey,1\n";

const BARE: &str = "relation,-x,1,0\ncolumn,1,b\nkey,\nfd,,1\n";

const DASH: &str = "relation,-,1,1\ncolumn,1,c\nkey,\nfd,,1\n";

const FILES: &[(&str, &str)] = &[("one", "a\n1\n2\n"), ("-x", "b\n"), ("-", "c\n3\n")];

pub static ONE_FILE: [Case<'static>; 10] = [
    Case {
        words: &["depprof", "profile", "r.csv"],
        files: &[("r.csv", R)],
        input: "",
        text: &[R_REPORT],
        tables: &[],
        status: 0,
    },
    Case {
        words: &["depprof", "profile", "bare.csv"],
        files: &[("bare.csv", "a,b\n")],
        input: "",
        text: &[
            "relation,bare.csv,2,0\ncolumn,1,a\ncolumn,2,b\nkey,\nfd,,1\nfd,,2\nind,1.1,1.2\nind,1.2,1.1\n",
        ],
        tables: &[],
        status: 0,
    },
    Case {
        words: &["depprof", "profile", "one.csv"],
        files: &[("one.csv", "a,b\n1,x\n")],
        input: "",
        text: &["relation,one.csv,2,1\ncolumn,1,a\ncolumn,2,b\nkey,\nfd,,1\nfd,,2\n"],
        tables: &[],
        status: 0,
    },
    Case {
        words: &["depprof", "profile", "twice.csv"],
        files: &[("twice.csv", "a,b\n1,x\n1,x\n")],
        input: "",
        text: &["relation,twice.csv,2,2\ncolumn,1,a\ncolumn,2,b\nfd,,1\nfd,,2\n"],
        tables: &[],
        status: 0,
    },
    Case {
        words: &["depprof", "profile", "parity.csv"],
        files: &[("parity.csv", "a,b,c\n0,0,0\n0,1,1\n1,0,1\n1,1,0\n")],
        input: "",
        text: &[
            "relation,parity.csv,3,4\ncolumn,1,a\ncolumn,2,b\ncolumn,3,c\nkey,1 2\nkey,1 3\nkey,2 3\n",
            "fd,2 3,1\nfd,1 3,2\nfd,1 2,3\nind,1.1,1.2\nind,1.1,1.3\nind,1.2,1.1\nind,1.2,1.3\nind,1.3,1.1\nind,1.3,1.2\n",
        ],
        tables: &[],
        status: 0,
    },
    Case {
        words: &["depprof", "profile", "w.csv"],
        files: &[("w.csv", "c,c,c\n0,0,1\n0,0,2\n")],
        input: "",
        text: &[
            "relation,w.csv,3,2\ncolumn,1,c\ncolumn,2,c\ncolumn,3,c\nkey,3\nfd,,1\nfd,,2\nind,1.1,1.2\nind,1.2,1.1\n",
        ],
        tables: &[],
        status: 0,
    },
    Case {
        words: &["depprof", "profile", "marks.csv"],
        files: &[("marks.csv", "\u{feff}\u{feff}a,b\r\n\r\n1,\"x,y\"")],
        input: "",
        text: &["relation,marks.csv,2,1\ncolumn,1,a\ncolumn,2,b\nkey,\nfd,,1\nfd,,2\n"],
        tables: &[],
        status: 0,
    },
    Case {
        words: &["depprof", "profile", "open.csv"],
        files: &[("open.csv", "a,b\n1,\"x,\n")],
        input: "",
        text: &["relation,open.csv,2,1\ncolumn,1,a\ncolumn,2,b\nkey,\nfd,,1\nfd,,2\n"],
        tables: &[],
        status: 0,
    },
    Case {
        words: &["depprof", "profile", "--nulls", "equal", "n.csv"],
        files: &[("n.csv", "a,b\n,1\n,2\n")],
        input: "",
        text: &["relation,n.csv,2,2\ncolumn,1,a\ncolumn,2,b\nkey,2\nfd,,1\nind,1.1,1.2\n"],
        tables: &[],
        status: 0,
    },
    Case {
        words: &["depprof", "profile", "--nulls", "distinct", "n.csv"],
        files: &[("n.csv", "a,b\n,1\n,2\n")],
        input: "",
        text: &[
            "relation,n.csv,2,2\ncolumn,1,a\ncolumn,2,b\nkey,1\nkey,2\nfd,2,1\nfd,1,2\nind,1.1,1.2\n",
        ],
        tables: &[],
        status: 0,
    },
];

pub static FILES_IN_ORDER: [Case<'static>; 8] = [
    Case {
        words: &["depprof", "profile", "one", "-"],
        files: FILES,
        input: "",
        text: &[ONE, DASH],
        tables: &[],
        status: 0,
    },
    Case {
        words: &["depprof", "profile", "-", "one"],
        files: FILES,
        input: "",
        text: &[DASH, ONE],
        tables: &[],
        status: 0,
    },
    Case {
        words: &["depprof", "profile", "one", "one"],
        files: FILES,
        input: "",
        text: &[ONE, ONE, "ind,1.1,2.1\nind,2.1,1.1\n"],
        tables: &[],
        status: 0,
    },
    Case {
        words: &["depprof", "profile", "--", "-x", "one", "-x"],
        files: FILES,
        input: "",
        text: &[
            BARE,
            ONE,
            BARE,
            "ind,1.1,2.1\nind,1.1,3.1\nind,3.1,1.1\nind,3.1,2.1\n",
        ],
        tables: &[],
        status: 0,
    },
    Case {
        words: &[
            "depprof",
            "profile",
            "one",
            "--workers",
            "3",
            "-",
            "--nulls",
            "distinct",
            "--",
            "-x",
        ],
        files: FILES,
        input: "",
        text: &[ONE, DASH, BARE, "ind,3.1,1.1\nind,3.1,2.1\n"],
        tables: &[],
        status: 0,
    },
    Case {
        words: &["depprof", "profile", "-", "--", "-", "one", "-"],
        files: FILES,
        input: "",
        text: &[
            DASH,
            DASH,
            ONE,
            DASH,
            "ind,1.1,2.1\nind,1.1,4.1\nind,2.1,1.1\nind,2.1,4.1\nind,4.1,1.1\nind,4.1,2.1\n",
        ],
        tables: &[],
        status: 0,
    },
    Case {
        words: &["depprof", "profile", "p", "q"],
        files: &[("p", "a\n1\n2\n"), ("q", "b\n1\n2\n3\n")],
        input: "",
        text: &[
            "relation,p,1,2\ncolumn,1,a\nkey,1\nrelation,q,1,3\ncolumn,1,b\nkey,1\nind,1.1,2.1\n",
        ],
        tables: &[],
        status: 0,
    },
    // NULL of the dependent column needs no partner.
    Case {
        words: &["depprof", "profile", "p", "q"],
        files: &[("p", "a\n1\n\"\"\n"), ("q", "b\n1\n")],
        input: "",
        text: &[
            "relation,p,1,2\ncolumn,1,a\nkey,1\nrelation,q,1,1\ncolumn,1,b\nkey,\nfd,,1\nind,1.1,2.1\nind,2.1,1.1\n",
        ],
        tables: &[],
        status: 0,
    },
];
