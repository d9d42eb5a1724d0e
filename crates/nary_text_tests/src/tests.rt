// Small files, and what is written for them.
ghost use Rattle.std.specs.Prelude.{◌≤◌};

use csv_load::{Loaded, read_relation};
use nary_text::list_inclusions_of;
use rel_base::{Limits, Name, Relation};
use std::alloc::{AllocError, Global};
use std::test::Fail;
use std::thread::Threads;
use task_base::Means;

// The relation of a text; it is read once more where memory ran out.
fn relation(alloc: Global, text: &[u8]) -> Result<Relation, Fail> {
    let limits = Limits::standard();
    let loaded = match read_relation(alloc, text, &limits) {
        Loaded::NoMemory => read_relation(alloc, text, &limits),
        loaded => loaded,
    };
    match loaded {
        Loaded::Read(relation) => Ok(relation),
        _ => Err(Fail::from("no relation")),
    }
}

fn name(alloc: Global, word: &str) -> Result<Name, AllocError> {
    Ok(Name::of(String::from_str(alloc, word)?))
}

// What is written for two files, p and q.
fn written<R: Threads + Sync>(
    rt: &R,
    alloc: Global,
    width: u8,
    first: &[u8],
    second: &[u8],
) -> Result<Vec<u8>, Fail>
    requires { width ≤ 4 }
{
    let mut files = Vec::new(alloc);
    files.push(name(alloc, "p")?)?;
    files.push(name(alloc, "q")?)?;
    let mut relations = Vec::new(alloc);
    relations.push(relation(alloc, first)?)?;
    relations.push(relation(alloc, second)?)?;
    let means = Means {
        alloc,
        limits: Limits::standard(),
        workers: 4,
        gate: &(),
    };
    let made = list_inclusions_of(rt, &means, width, &files, relations)?;
    let (_, text) = made.into_parts();
    Ok(text)
}

// Behind the lines of the relations come the inclusions of single columns, and then those of lists, whose referenced columns come in any order.
#[test]
fn columns_and_then_lists(rt: HostRuntime) -> Result<(), Fail> {
    let text = written(
        &rt,
        rt.alloc(),
        2,
        b"a,b\n1,x\n2,y\n",
        b"c,d\nx,1\ny,2\nz,3\n",
    )?;
    assert_eq!(rt;
        text.as_slice(),
        b"relation,p,2,2\ncolumn,1,a\ncolumn,2,b\nrelation,q,2,3\ncolumn,1,c\ncolumn,2,d\nind,1.1,2.2\nind,1.2,2.1\nnind,1.1 1.2,2.2 2.1\n".as_slice()
    );
    Ok(())
}

// Columns may be included where the pairs of their cells are not.
#[test]
fn cells_of_one_row_belong_together(rt: HostRuntime) -> Result<(), Fail> {
    let text = written(&rt, rt.alloc(), 2, b"a,b\n1,x\n2,y\n", b"c,d\ny,1\nx,2\n")?;
    assert_eq!(rt;
        text.as_slice(),
        b"relation,p,2,2\ncolumn,1,a\ncolumn,2,b\nrelation,q,2,2\ncolumn,1,c\ncolumn,2,d\nind,1.1,2.2\nind,1.2,2.1\nind,2.1,1.2\nind,2.2,1.1\n".as_slice()
    );
    Ok(())
}

// A row with one NULL counts.
#[test]
fn a_row_with_one_null_counts(rt: HostRuntime) -> Result<(), Fail> {
    let text = written(&rt, rt.alloc(), 2, b"a,b\n1,\n", b"c,d\n1,2\n")?;
    assert_eq!(rt;
        text.as_slice(),
        b"relation,p,2,1\ncolumn,1,a\ncolumn,2,b\nrelation,q,2,1\ncolumn,1,c\ncolumn,2,d\nind,1.1,2.1\nind,1.2,1.1\nind,1.2,2.1\nind,1.2,2.2\nind,2.1,1.1\n".as_slice()
    );
    Ok(())
}

// Lists of three columns come behind all lists of two.
#[test]
fn narrow_lists_come_first(rt: HostRuntime) -> Result<(), Fail> {
    let text = written(
        &rt,
        rt.alloc(),
        4,
        b"a,b,c\n1,x,7\n",
        b"d,e,f\n7,1,x\n8,2,y\n",
    )?;
    assert_eq!(rt;
        text.as_slice(),
        b"relation,p,3,1\ncolumn,1,a\ncolumn,2,b\ncolumn,3,c\nrelation,q,3,2\ncolumn,1,d\ncolumn,2,e\ncolumn,3,f\nind,1.1,2.2\nind,1.2,2.3\nind,1.3,2.1\nnind,1.1 1.2,2.2 2.3\nnind,1.1 1.3,2.2 2.1\nnind,1.2 1.3,2.3 2.1\nnind,1.1 1.2 1.3,2.2 2.3 2.1\n".as_slice()
    );
    Ok(())
}
