// What `nary` writes.
use super::Case;

const P_HEAD: &str = "relation,p.csv,2,2\ncolumn,1,a\ncolumn,2,b\n";

const TURNED: &[(&str, &str)] = &[
    ("p.csv", "a,b\n1,x\n2,y\n"),
    ("q.csv", "c,d\nx,1\ny,2\nz,3\n"),
];

pub static LISTS: [Case<'static>; 5] = [
    Case {
        words: &["depprof", "nary", "p.csv", "q.csv"],
        files: TURNED,
        input: "",
        text: &[
            P_HEAD,
            "relation,q.csv,2,3\ncolumn,1,c\ncolumn,2,d\n",
            "ind,1.1,2.2\nind,1.2,2.1\nnind,1.1 1.2,2.2 2.1\n",
        ],
        tables: &[],
        status: 0,
    },
    // The cells of two columns are there, but in no row together.
    Case {
        words: &["depprof", "nary", "--width=4", "p.csv", "q.csv"],
        files: &[("p.csv", "a,b\n1,x\n2,y\n"), ("q.csv", "c,d\ny,1\nx,2\n")],
        input: "",
        text: &[
            P_HEAD,
            "relation,q.csv,2,2\ncolumn,1,c\ncolumn,2,d\n",
            "ind,1.1,2.2\nind,1.2,2.1\nind,2.1,1.2\nind,2.2,1.1\n",
        ],
        tables: &[],
        status: 0,
    },
    // A row with a NULL has its like only where that has the NULL too.
    Case {
        words: &["depprof", "nary", "p.csv", "q.csv"],
        files: &[("p.csv", "a,b\n1,\n"), ("q.csv", "c,d\n1,2\n")],
        input: "",
        text: &[
            "relation,p.csv,2,1\ncolumn,1,a\ncolumn,2,b\nrelation,q.csv,2,1\ncolumn,1,c\ncolumn,2,d\n",
            "ind,1.1,2.1\nind,1.2,1.1\nind,1.2,2.1\nind,1.2,2.2\nind,2.1,1.1\n",
        ],
        tables: &[],
        status: 0,
    },
    // Without rows everything is included.
    Case {
        words: &["depprof", "nary", "bare.csv"],
        files: &[("bare.csv", "a,b\n")],
        input: "",
        text: &[
            "relation,bare.csv,2,0\ncolumn,1,a\ncolumn,2,b\n",
            "ind,1.1,1.2\nind,1.2,1.1\nnind,1.1 1.2,1.2 1.1\n",
        ],
        tables: &[],
        status: 0,
    },
    Case {
        words: &["depprof", "nary", "p.csv", "e.csv"],
        files: &[("p.csv", "a\n1\n"), ("e.csv", "")],
        input: "",
        text: &["refused,e.csv,0,1\n"],
        tables: &[],
        status: 3,
    },
];
