// Small files, and all that is written for them.
use csv_load::{Loaded, read_relation};
use ports::{OpenGate, Text};
use rel_base::{Limits, Name, Relation};
use std::alloc::{AllocError, Global};
use std::sync::Wait;
use std::test::Fail;
use std::thread::Threads;
use synth_text::synthesized_of;
use task_base::{Made, Means};

// A relation, the most columns on the left, and what is written: a text, and files by their names.
struct Case<'a> {
    relation: &'a str,
    text: &'a str,
    files: &'a [(&'a str, &'a str)],
    most: u8,
}

static CASES: [Case; 12] = [
    // Two tables and a reference between them.
    Case {
        most: 128,
        relation: "id,city,zip\n1,Berlin,10115\n2,Berlin,10115\n3,Potsdam,14467\n",
        text: "relation,r.csv,3,3\ncolumn,1,id\ncolumn,2,city\ncolumn,3,zip\nkey,1\nfd,1,2\nfd,3,2\nfd,1,3\nfd,2,3\ntable,1,1 3,1\ntable,2,2 3,2\nalternate,2,3\nreference,1,3,2\n",
        files: &[
            ("t1.csv", "id,zip\n1,10115\n2,10115\n3,14467\n"),
            ("t2.csv", "city,zip\nBerlin,10115\nPotsdam,14467\n"),
        ],
    },
    // A constant column makes a table of one row, to which nothing refers.
    Case {
        most: 128,
        relation: "a,b\n1,x\n2,x\n",
        text: "relation,r.csv,2,2\ncolumn,1,a\ncolumn,2,b\nkey,1\nfd,,2\ntable,1,2,\ntable,2,1,1\n",
        files: &[("t1.csv", "b\nx\n"), ("t2.csv", "a\n1\n2\n")],
    },
    // Each two columns are a key.
    Case {
        most: 128,
        relation: "a,b,c\n0,0,0\n0,1,1\n1,0,1\n1,1,0\n",
        text: "relation,r.csv,3,4\ncolumn,1,a\ncolumn,2,b\ncolumn,3,c\nkey,1 2\nkey,1 3\nkey,2 3\nfd,2 3,1\nfd,1 3,2\nfd,1 2,3\nind,1.1,1.2\nind,1.1,1.3\nind,1.2,1.1\nind,1.2,1.3\nind,1.3,1.1\nind,1.3,1.2\ntable,1,1 2 3,1 2\nalternate,1,1 3\nalternate,1,2 3\n",
        files: &[("t1.csv", "a,b,c\n0,0,0\n0,1,1\n1,0,1\n1,1,0\n")],
    },
    // One row.
    Case {
        most: 128,
        relation: "a,b\n1,x\n",
        text: "relation,r.csv,2,1\ncolumn,1,a\ncolumn,2,b\nkey,\nfd,,1\nfd,,2\ntable,1,1 2,\n",
        files: &[("t1.csv", "a,b\n1,x\n")],
    },
    // No rows.
    Case {
        most: 128,
        relation: "a,b\n",
        text: "relation,r.csv,2,0\ncolumn,1,a\ncolumn,2,b\nkey,\nfd,,1\nfd,,2\nind,1.1,1.2\nind,1.2,1.1\ntable,1,1 2,\n",
        files: &[("t1.csv", "a,b\n")],
    },
    // No dependency: one table, whose key is all of it.
    Case {
        most: 128,
        relation: "a,b\n0,0\n0,1\n1,0\n1,1\n",
        text: "relation,r.csv,2,4\ncolumn,1,a\ncolumn,2,b\nkey,1 2\nind,1.1,1.2\nind,1.2,1.1\ntable,1,1 2,1 2\n",
        files: &[("t1.csv", "a,b\n0,0\n0,1\n1,0\n1,1\n")],
    },
    // Equal rows: there is no key, and a table's columns reach all none the less.
    Case {
        most: 128,
        relation: "a,b,c\n1,x,7\n1,x,7\n2,y,7\n2,y,7\n",
        text: "relation,r.csv,3,4\ncolumn,1,a\ncolumn,2,b\ncolumn,3,c\nfd,2,1\nfd,1,2\nfd,,3\ntable,1,3,\ntable,2,1 2,1\nalternate,2,2\n",
        files: &[("t1.csv", "c\n7\n"), ("t2.csv", "a,b\n1,x\n2,y\n")],
    },
    // Columns of one name, and a cell with marks of quotation.
    Case {
        most: 128,
        relation: "a,a,a\n1,\"x,\"\"\",\n2,\"x,\"\"\",\n3,z,\n",
        text: "relation,r.csv,3,3\ncolumn,1,a\ncolumn,2,a\ncolumn,3,a\nkey,1\nfd,1,2\nfd,,3\nind,1.3,1.1\nind,1.3,1.2\ntable,1,3,\ntable,2,1 2,1\n",
        files: &[
            ("t1.csv", "a\n\"\"\n"),
            ("t2.csv", "a,a\n1,\"x,\"\"\"\n2,\"x,\"\"\"\n3,z\n"),
        ],
    },
    // Dependencies with few columns on the left alone: none, constants, one column.
    Case {
        most: 0,
        relation: "a,b,c,d\n0,0,0,5\n0,1,1,5\n1,0,1,5\n1,1,0,5\n",
        text: "relation,r.csv,4,4\ncolumn,1,a\ncolumn,2,b\ncolumn,3,c\ncolumn,4,d\nkey,1 2\nkey,1 3\nkey,2 3\nfd,2 3,1\nfd,1 3,2\nfd,1 2,3\nfd,,4\nind,1.1,1.2\nind,1.1,1.3\nind,1.2,1.1\nind,1.2,1.3\nind,1.3,1.1\nind,1.3,1.2\ntable,1,4,\ntable,2,1 2 3,1 2 3\nalternate,2,1 2\nalternate,2,1 3\nalternate,2,2 3\n",
        files: &[
            ("t1.csv", "d\n5\n"),
            ("t2.csv", "a,b,c\n0,0,0\n0,1,1\n1,0,1\n1,1,0\n"),
        ],
    },
    // Dependencies with few columns on the left alone: none, constants, one column.
    Case {
        most: 1,
        relation: "a,b,c,d\n0,0,0,5\n0,1,1,5\n1,0,1,5\n1,1,0,5\n",
        text: "relation,r.csv,4,4\ncolumn,1,a\ncolumn,2,b\ncolumn,3,c\ncolumn,4,d\nkey,1 2\nkey,1 3\nkey,2 3\nfd,2 3,1\nfd,1 3,2\nfd,1 2,3\nfd,,4\nind,1.1,1.2\nind,1.1,1.3\nind,1.2,1.1\nind,1.2,1.3\nind,1.3,1.1\nind,1.3,1.2\ntable,1,4,\ntable,2,1 2 3,1 2 3\nalternate,2,1 2\nalternate,2,1 3\nalternate,2,2 3\n",
        files: &[
            ("t1.csv", "d\n5\n"),
            ("t2.csv", "a,b,c\n0,0,0\n0,1,1\n1,0,1\n1,1,0\n"),
        ],
    },
    // Dependencies with few columns on the left alone: none, constants, one column.
    Case {
        most: 2,
        relation: "a,b,c,d\n0,0,0,5\n0,1,1,5\n1,0,1,5\n1,1,0,5\n",
        text: "relation,r.csv,4,4\ncolumn,1,a\ncolumn,2,b\ncolumn,3,c\ncolumn,4,d\nkey,1 2\nkey,1 3\nkey,2 3\nfd,2 3,1\nfd,1 3,2\nfd,1 2,3\nfd,,4\nind,1.1,1.2\nind,1.1,1.3\nind,1.2,1.1\nind,1.2,1.3\nind,1.3,1.1\nind,1.3,1.2\ntable,1,4,\ntable,2,1 2 3,1 2\nalternate,2,1 3\nalternate,2,2 3\n",
        files: &[
            ("t1.csv", "d\n5\n"),
            ("t2.csv", "a,b,c\n0,0,0\n0,1,1\n1,0,1\n1,1,0\n"),
        ],
    },
    // Two tables that refer to a third one by different keys of it.
    Case {
        most: 128,
        relation: "a,b,c,d\n1,p,u,8\n2,p,u,8\n3,q,v,8\n4,q,v,9\n5,r,w,9\n",
        text: "relation,r.csv,4,5\ncolumn,1,a\ncolumn,2,b\ncolumn,3,c\ncolumn,4,d\nkey,1\nfd,1,2\nfd,3,2\nfd,1,3\nfd,2,3\nfd,1,4\ntable,1,1 3 4,1\ntable,2,2 3,2\nalternate,2,3\nreference,1,3,2\n",
        files: &[
            ("t1.csv", "a,c,d\n1,u,8\n2,u,8\n3,v,8\n4,v,9\n5,w,9\n"),
            ("t2.csv", "b,c\np,u\nq,v\nr,w\n"),
        ],
    },
];

// The relation of a text; it is read once more where memory ran out.
fn relation(alloc: Global, text: &[u8]) -> Result<Relation, Fail> {
    let limits = Limits::standard();
    let loaded = match read_relation(alloc, text, &limits) {
        Loaded::NoMemory => read_relation(alloc, text, &limits),
        loaded => loaded,
    };
    match loaded {
        Loaded::Read(relation) => Ok(relation),
        _ => Err(Fail::from("no relation")),
    }
}

fn name(alloc: Global, word: &str) -> Result<Name, AllocError> {
    Ok(Name::of(String::from_str(alloc, word)?))
}

// What is written for a case by three workers.
fn written<R: Threads + Wait + Sync>(rt: &R, alloc: Global, case: &Case<'_>) -> Result<Made, Fail> {
    let means = Means {
        alloc,
        limits: Limits::standard(),
        workers: 3,
        gate: &OpenGate,
    };
    let relation = relation(alloc, case.relation.as_bytes())?;
    let prefix = name(alloc, "t")?;
    let file = name(alloc, "r.csv")?;
    let made = synthesized_of(rt, &means, &prefix, &file, relation, case.most)?;
    Ok(made)
}

// Whether the files are these, in this order.
fn are_files(files: &[(Name, Text)], wanted: &[(&str, &str)]) -> bool {
    if files.len() != wanted.len() {
        return false;
    }
    for (file, want) in files.iter().zip(wanted) {
        if file.0.bytes() != want.0.as_bytes() || file.1.bytes() != want.1.as_bytes() {
            return false;
        }
    }
    true
}

// Whether a case comes to what it says.
fn is_so<R: Threads + Wait + Sync>(rt: &R, alloc: Global, case: &Case<'_>) -> Result<bool, Fail> {
    let (files, text) = written(rt, alloc, case)?.into_parts();
    Ok(text.as_slice() == case.text.as_bytes() && are_files(files.as_slice(), case.files))
}

#[test]
fn small_relations(rt: HostRuntime) -> Result<(), Fail> {
    for case in &CASES {
        assert!(rt; is_so(&rt, rt.alloc(), case)?, "{}", case.relation);
    }
    Ok(())
}
