// What `check` and `certify` write.
use super::{Case, R, R_REPORT, SURE, is_same, run_of};
use rel_base::{Limits, MOST_CELL_BYTES, MOST_COLUMNS, MOST_ROWS};
use std::test::Fail;

const CHECK: &[&str] = &["depprof", "check", "r.csv", "c"];

pub const PROVEN: &str =
    "cert,3,3\npair,1,2\npair,1,3\nkey,1\nfd,1,2\nfd,3,2\nfd,1,3\nfd,2,3\nend\n";

const LACKS_A_PAIR: &str = "cert,3,3\npair,1,2\nkey,1\nfd,1,2\nfd,3,2\nfd,1,3\nfd,2,3\nend\n";

const NAMES_NO_ROW: &str =
    "cert,3,3\npair,1,4\npair,1,2\npair,1,3\nkey,1\nfd,1,2\nfd,3,2\nfd,1,3\nfd,2,3\nend\n";

const OF_FEWER_ROWS: &str =
    "cert,3,2\npair,1,2\npair,1,3\nkey,1\nfd,1,2\nfd,3,2\nfd,1,3\nfd,2,3\nend\n";

const WITHOUT_END: &str = "cert,3,3\npair,1,2\npair,1,3\nkey,1\nfd,1,2\nfd,3,2\nfd,1,3\nfd,2,3\n";

pub static CERTIFIED: [Case<'static>; 4] = [
    Case {
        words: &["depprof", "certify", "--out", "c", "r.csv"],
        files: &[("r.csv", R)],
        input: "",
        text: &[R_REPORT],
        tables: &[("c", PROVEN)],
        status: 0,
    },
    // The certificate takes the place of the file that was read.
    Case {
        words: &["depprof", "certify", "--workers=1", "r.csv", "--out=r.csv"],
        files: &[("r.csv", R)],
        input: "",
        text: &[R_REPORT],
        tables: &[("r.csv", PROVEN)],
        status: 0,
    },
    // Without rows no pair is there, and the empty set is all.
    Case {
        words: &["depprof", "certify", "--out", "c", "bare.csv"],
        files: &[("bare.csv", "a\n")],
        input: "",
        text: &["relation,bare.csv,1,0\ncolumn,1,a\nkey,\nfd,,1\n"],
        tables: &[("c", "cert,1,0\nkey,\nfd,,1\nend\n")],
        status: 0,
    },
    // Two equal rows are a pair, and no column set is a key.
    Case {
        words: &["depprof", "certify", "--out", "c", "twice.csv"],
        files: &[("twice.csv", "a\nx\nx\n")],
        input: "",
        text: &["relation,twice.csv,1,2\ncolumn,1,a\nfd,,1\n"],
        tables: &[("c", "cert,1,2\npair,1,2\nfd,,1\nend\n")],
        status: 0,
    },
];

pub static CERTIFICATES: [Case<'static>; 8] = [
    Case {
        words: CHECK,
        files: &[("r.csv", R), ("c", PROVEN)],
        input: "",
        text: &["yes\n"],
        tables: &[],
        status: 0,
    },
    Case {
        words: CHECK,
        files: &[("r.csv", R), ("c", LACKS_A_PAIR)],
        input: "",
        text: &["no,4,24\n"],
        tables: &[],
        status: 0,
    },
    Case {
        words: CHECK,
        files: &[
            ("r.csv", "a,b\n1,x\n1,y\n"),
            ("c", "cert,2,2\nkey,\nfd,,1\nfd,,2\nend\n"),
        ],
        input: "",
        text: &["no,2,25\n"],
        tables: &[],
        status: 0,
    },
    Case {
        words: CHECK,
        files: &[("r.csv", R), ("c", NAMES_NO_ROW)],
        input: "",
        text: &["no,2,23\n"],
        tables: &[],
        status: 0,
    },
    Case {
        words: CHECK,
        files: &[("r.csv", R), ("c", OF_FEWER_ROWS)],
        input: "",
        text: &["no,1,22\n"],
        tables: &[],
        status: 0,
    },
    Case {
        words: CHECK,
        files: &[("r.csv", R), ("c", WITHOUT_END)],
        input: "",
        text: &["no,9,21\n"],
        tables: &[],
        status: 0,
    },
    Case {
        words: CHECK,
        files: &[("r.csv", R), ("c", "")],
        input: "",
        text: &["no,1,21\n"],
        tables: &[],
        status: 0,
    },
    Case {
        words: CHECK,
        files: &[("r.csv", "a,b\n1\n"), ("c", PROVEN)],
        input: "",
        text: &["refused,r.csv,2,3\n"],
        tables: &[],
        status: 3,
    },
];

// A certificate of 23 bytes.
const SHORT: Case<'static> = Case {
    words: &["depprof", "check", "a.csv", "c"],
    files: &[("a.csv", "a\n1\n"), ("c", "cert,1,1\nkey,\nfd,,1\nend")],
    input: "",
    text: &[],
    tables: &[],
    status: 0,
};

// So many bytes as the limit of a file, and what is to be written.
static LIMITS: [(u8, u8, &str); 2] = [(23, 0, "yes\n"), (22, 3, "refused,c,0,6\n")];

#[test]
fn a_certificate_is_refused_by_its_bytes_alone(rt: HostRuntime) -> Result<(), Fail> {
    for (bytes, status, text) in &LIMITS {
        let limits = Limits::smaller(MOST_COLUMNS, MOST_ROWS, MOST_CELL_BYTES, u64::from(*bytes));
        let done = run_of(&rt, rt.alloc(), &SHORT, &SURE, limits)?;
        assert!(rt; done.status() == *status);
        assert!(rt; is_same(done.text(), text));
    }
    Ok(())
}
