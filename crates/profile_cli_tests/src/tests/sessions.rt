// What a session answers to a change text.
use super::Case;

pub const K: &[(&str, &str)] = &[("k.csv", "k,v\n1,x\n1,y\n2,z\n")];

pub const K_HEAD: &str = "column,1,k\ncolumn,2,v\n";

pub const WORDS: &[&str] = &["depprof", "session", "k.csv"];

pub static BATCHES: [Case<'static>; 8] = [
    Case {
        words: WORDS,
        files: K,
        input: "",
        text: &[],
        tables: &[],
        status: 0,
    },
    Case {
        words: WORDS,
        files: K,
        input: "+,3,w\n-,9\n!\n+,4,u\n!\n-,4\n!\n",
        text: &["refused,1,2,9\napplied,2,1,0,4\napplied,3,0,1,3\n"],
        tables: &[],
        status: 0,
    },
    Case {
        words: WORDS,
        files: K,
        input: "+,9,q\n-,4\n!\n!\n",
        text: &["applied,1,1,1,3\napplied,2,0,0,3\n"],
        tables: &[],
        status: 0,
    },
    Case {
        words: WORDS,
        files: K,
        input: "+,3,w\n",
        text: &["refused,1,1,10\n"],
        tables: &[],
        status: 0,
    },
    Case {
        words: WORDS,
        files: K,
        input: "+,3,w\n?\n!\n",
        text: &["refused,1,2,7\n"],
        tables: &[],
        status: 0,
    },
    Case {
        words: WORDS,
        files: K,
        input: "-,0\n!\n-,01\n!\nx\n!\n+,1\n!\n!,a\n!\n-,3\n-,3\n!\n",
        text: &[
            "refused,1,1,8\nrefused,2,3,8\nrefused,3,5,7\nrefused,4,7,3\nrefused,5,9,3\nrefused,6,12,9\n",
        ],
        tables: &[],
        status: 0,
    },
    Case {
        words: WORDS,
        files: K,
        input: "=,9,1,x\n!\n=,0,1\n!\n=,0,1,x\n!\n",
        text: &["refused,1,1,9\nrefused,2,3,3\nrefused,3,5,8\n"],
        tables: &[],
        status: 0,
    },
    Case {
        words: WORDS,
        files: K,
        input: "-,4294967295\n!\n-,4294967296\n!\n",
        text: &["refused,1,1,9\nrefused,2,3,8\n"],
        tables: &[],
        status: 0,
    },
];

pub static REPORTS: [Case<'static>; 6] = [
    Case {
        words: WORDS,
        files: K,
        input: "?\n-,2\n!\n?\n",
        text: &[
            "relation,k.csv,2,3\n",
            K_HEAD,
            "key,2\nfd,2,1\napplied,1,0,1,2\nrelation,k.csv,2,2\n",
            K_HEAD,
            "key,1\nkey,2\nfd,2,1\nfd,1,2\n",
        ],
        tables: &[],
        status: 0,
    },
    Case {
        words: WORDS,
        files: K,
        input: "=,2,1,x\n!\n?\n",
        text: &[
            "applied,1,1,1,3\nrelation,k.csv,2,3\n",
            K_HEAD,
            "fd,2,1\nfd,1,2\n",
        ],
        tables: &[],
        status: 0,
    },
    Case {
        words: WORDS,
        files: &[("k.csv", "k,v\n1,1\n")],
        input: "?\n+,2,1\n!\n?\n",
        text: &[
            "relation,k.csv,2,1\n",
            K_HEAD,
            "key,\nfd,,1\nfd,,2\nind,1.1,1.2\nind,1.2,1.1\napplied,1,1,0,2\nrelation,k.csv,2,2\n",
            K_HEAD,
            "key,1\nfd,,2\nind,1.2,1.1\n",
        ],
        tables: &[],
        status: 0,
    },
    Case {
        words: &["depprof", "session", "--nulls", "distinct", "k.csv"],
        files: &[("k.csv", "k,v\n,1\n,2\n")],
        input: "?\n",
        text: &[
            "relation,k.csv,2,2\n",
            K_HEAD,
            "key,1\nkey,2\nfd,2,1\nfd,1,2\nind,1.1,1.2\n",
        ],
        tables: &[],
        status: 0,
    },
    Case {
        words: WORDS,
        files: &[("k.csv", "k,v\n1,2\n2,2\n")],
        input: "?\n-,2\n!\n?\n+,2,1\n!\n?\n=,3,2,3\n!\n?\n",
        text: &[
            "relation,k.csv,2,2\n",
            K_HEAD,
            "key,1\nfd,,2\nind,1.2,1.1\napplied,1,0,1,1\nrelation,k.csv,2,1\n",
            K_HEAD,
            "key,\nfd,,1\nfd,,2\napplied,2,1,0,2\nrelation,k.csv,2,2\n",
            K_HEAD,
            "key,1\nkey,2\nfd,2,1\nfd,1,2\nind,1.1,1.2\nind,1.2,1.1\napplied,3,1,1,2\nrelation,k.csv,2,2\n",
            K_HEAD,
            "key,1\nkey,2\nfd,2,1\nfd,1,2\n",
        ],
        tables: &[],
        status: 0,
    },
    // Each of three columns holds the next, and the last column equals the first.
    Case {
        words: WORDS,
        files: &[("k.csv", "k,v,w,x\n1,1,1,3\n2,2,1,2\n3,1,1,1\n")],
        input: "?\n",
        text: &[
            "relation,k.csv,4,3\n",
            K_HEAD,
            "column,3,w\ncolumn,4,x\nkey,1\nkey,4\nfd,4,1\nfd,1,2\nfd,4,2\nfd,,3\nfd,1,4\n",
            "ind,1.1,1.4\nind,1.2,1.1\nind,1.2,1.4\nind,1.3,1.1\nind,1.3,1.2\nind,1.3,1.4\nind,1.4,1.1\n",
        ],
        tables: &[],
        status: 0,
    },
];
