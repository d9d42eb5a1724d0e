// What `approx` writes.
use super::Case;

const K: &[(&str, &str)] = &[("k.csv", "k,v\n1,x\n1,y\n2,z\n")];

const K_HEAD: &str = "relation,k.csv,2,3\ncolumn,1,k\ncolumn,2,v\n";

pub static APPROXIMATE: [Case<'static>; 4] = [
    Case {
        words: &["depprof", "approx", "--errors", "1", "k.csv"],
        files: K,
        input: "",
        text: &[K_HEAD, "afd,,1,1\nafd,1,2,1\n"],
        tables: &[],
        status: 0,
    },
    Case {
        words: &["depprof", "approx", "k.csv", "--errors=0"],
        files: K,
        input: "",
        text: &[K_HEAD, "afd,2,1,0\n"],
        tables: &[],
        status: 0,
    },
    Case {
        words: &["depprof", "approx", "--errors", "2", "k.csv"],
        files: K,
        input: "",
        text: &[K_HEAD, "afd,,1,1\nafd,,2,2\n"],
        tables: &[],
        status: 0,
    },
    Case {
        words: &["depprof", "approx", "--errors", "1000000", "bare.csv"],
        files: &[("bare.csv", "a\n")],
        input: "",
        text: &["relation,bare.csv,1,0\ncolumn,1,a\nafd,,1,0\n"],
        tables: &[],
        status: 0,
    },
];
