// Small relations, and the inclusions of lists among them as a plain program has told them.
ghost use Rattle.std.specs.Prelude.{◌≤◌};

use csv_load::{Loaded, read_relation};
use nary_ind::{ListInd, included_lists};
use rel_base::Limits;
use row_log::RowLog;
use std::alloc::{AllocError, Global};
use std::test::Fail;
use std::thread::Threads;

// The relation of a text; it is read once more where memory ran out.
fn relation(alloc: Global, text: &[u8]) -> Result<RowLog, Fail> {
    let limits = Limits::standard();
    let loaded = match read_relation(alloc, text, &limits) {
        Loaded::NoMemory => read_relation(alloc, text, &limits),
        loaded => loaded,
    };
    match loaded {
        Loaded::Read(relation) => Ok(RowLog::open(alloc, relation, limits)?),
        _ => Err(Fail::from("no relation")),
    }
}

fn push_columns(text: &mut String, relation: usize, columns: &[u8]) -> Result<(), AllocError> {
    for column in columns {
        let number = u16::from(*column) + 1;
        let place = relation.wrapping_add(1);
        write!(text, "{place}.{number} ")?;
    }
    Ok(())
}

// The inclusions as a text: relations and columns are counted from 1.
fn text_of(alloc: Global, found: &[ListInd]) -> Result<String, AllocError> {
    let mut text = String::new(alloc);
    for one in found {
        push_columns(&mut text, one.dep_rel, one.dep_cols.as_slice())?;
        text.push_str("in ")?;
        push_columns(&mut text, one.into_rel, one.into_cols.as_slice())?;
        text.push_str("/ ")?;
    }
    Ok(text)
}

// The text of the inclusions of at most so many columns; it is found once more where memory ran out.
fn found_text<R: Threads + Sync>(
    rt: &R,
    alloc: Global,
    relations: &[RowLog],
    width: u8,
) -> Result<String, AllocError>
    requires { width ≤ 4 }
{
    match included_lists(rt, alloc, relations, width, 2) {
        Ok(found) => text_of(alloc, &found),
        Err(_) => text_of(alloc, &included_lists(rt, alloc, relations, width, 2)?),
    }
}

// Referenced columns come in any order, and pairs of columns must stand in one row.
#[test]
fn referenced_columns_come_in_any_order(rt: HostRuntime) -> Result<(), Fail> {
    let alloc = rt.alloc();
    let mut relations = Vec::new(alloc);
    relations.push(relation(alloc, b"a,b\n1,x\n2,y\n")?)?;
    relations.push(relation(alloc, b"c,d\nx,1\ny,2\nz,3\n")?)?;
    let relations_text = found_text(&rt, alloc, &relations, 2)?;
    assert_eq!(rt;
        relations_text.as_str(),
        "1.1 in 2.2 / 1.2 in 2.1 / 1.1 1.2 in 2.2 2.1 / "
    );
    let mut others = Vec::new(alloc);
    others.push(relation(alloc, b"a,b\n1,x\n2,y\n")?)?;
    others.push(relation(alloc, b"c,d\ny,1\nx,2\n")?)?;
    let others_text = found_text(&rt, alloc, &others, 2)?;
    assert_eq!(rt;
        others_text.as_str(),
        "1.1 in 2.2 / 1.2 in 2.1 / 2.1 in 1.2 / 2.2 in 1.1 / "
    );
    Ok(())
}

// What has no rows is included in everything, and only that in it.
#[test]
fn relations_without_rows_are_included(rt: HostRuntime) -> Result<(), Fail> {
    let alloc = rt.alloc();
    let mut relations = Vec::new(alloc);
    relations.push(relation(alloc, b"a,b\n")?)?;
    let relations_text = found_text(&rt, alloc, &relations, 2)?;
    assert_eq!(rt;
        relations_text.as_str(),
        "1.1 in 1.2 / 1.2 in 1.1 / 1.1 1.2 in 1.2 1.1 / "
    );
    let mut others = Vec::new(alloc);
    others.push(relation(alloc, b"a,b\n")?)?;
    others.push(relation(alloc, b"c\n1\n")?)?;
    let others_text = found_text(&rt, alloc, &others, 2)?;
    assert_eq!(rt;
        others_text.as_str(),
        "1.1 in 1.2 / 1.1 in 2.1 / 1.2 in 1.1 / 1.2 in 2.1 / 1.1 1.2 in 1.2 1.1 / "
    );
    Ok(())
}

// A row with one NULL counts, and one of NULLs alone does not.
#[test]
fn nulls_in_one_place_count(rt: HostRuntime) -> Result<(), Fail> {
    let alloc = rt.alloc();
    let mut relations = Vec::new(alloc);
    relations.push(relation(alloc, b"a,b\n1,\n")?)?;
    relations.push(relation(alloc, b"c,d\n1,2\n")?)?;
    let relations_text = found_text(&rt, alloc, &relations, 2)?;
    assert_eq!(rt;
        relations_text.as_str(),
        "1.1 in 2.1 / 1.2 in 1.1 / 1.2 in 2.1 / 1.2 in 2.2 / 2.1 in 1.1 / "
    );
    let mut others = Vec::new(alloc);
    others.push(relation(alloc, b"a,b\n,\n1,2\n")?)?;
    others.push(relation(alloc, b"c,d\n1,2\n")?)?;
    let others_text = found_text(&rt, alloc, &others, 2)?;
    assert_eq!(rt;
        others_text.as_str(),
        "1.1 in 2.1 / 1.2 in 2.2 / 2.1 in 1.1 / 2.2 in 1.2 / 1.1 1.2 in 2.1 2.2 / 2.1 2.2 in 1.1 1.2 / "
    );
    Ok(())
}

// NULL is equal to NULL, in one place and in all but one.
#[test]
fn nulls_are_equal(rt: HostRuntime) -> Result<(), Fail> {
    let alloc = rt.alloc();
    let mut relations = Vec::new(alloc);
    relations.push(relation(alloc, b"a,b,c\n1,,\n2,x,\n")?)?;
    relations.push(relation(alloc, b"d,e,f\n2,x,\n1,,\n3,,y\n")?)?;
    let relations_text = found_text(&rt, alloc, &relations, 3)?;
    assert_eq!(rt;
        relations_text.as_str(),
        "1.1 in 2.1 / 1.2 in 2.2 / 1.3 in 1.1 / 1.3 in 1.2 / 1.3 in 2.1 / 1.3 in 2.2 / 1.3 in 2.3 / 2.2 in 1.2 / 1.1 1.2 in 2.1 2.2 / 1.1 1.3 in 2.1 2.3 / 1.2 1.3 in 2.2 2.3 / 1.1 1.2 1.3 in 2.1 2.2 2.3 / "
    );
    Ok(())
}

// Relations are told apart by their position, and equal rows count once.
#[test]
fn a_file_named_twice_is_two_relations(rt: HostRuntime) -> Result<(), Fail> {
    let alloc = rt.alloc();
    let mut relations = Vec::new(alloc);
    relations.push(relation(alloc, b"a,b\n1,x\n2,x\n")?)?;
    relations.push(relation(alloc, b"a,b\n1,x\n2,x\n")?)?;
    let relations_text = found_text(&rt, alloc, &relations, 2)?;
    assert_eq!(rt;
        relations_text.as_str(),
        "1.1 in 2.1 / 1.2 in 2.2 / 2.1 in 1.1 / 2.2 in 1.2 / 1.1 1.2 in 2.1 2.2 / 2.1 2.2 in 1.1 1.2 / "
    );
    let mut others = Vec::new(alloc);
    others.push(relation(alloc, b"a,b\n1,x\n1,x\n1,x\n")?)?;
    others.push(relation(alloc, b"c,d\n1,x\n1,x\n2,y\n")?)?;
    let others_text = found_text(&rt, alloc, &others, 2)?;
    assert_eq!(rt;
        others_text.as_str(),
        "1.1 in 2.1 / 1.2 in 2.2 / 1.1 1.2 in 2.1 2.2 / "
    );
    Ok(())
}

// Four columns, and one.
#[test]
fn four_columns(rt: HostRuntime) -> Result<(), Fail> {
    let alloc = rt.alloc();
    let mut relations = Vec::new(alloc);
    relations.push(relation(alloc, b"a,b,c,d\n1,2,3,4\n5,6,7,8\n")?)?;
    relations.push(relation(alloc, b"e,f,g,h,i\n4,3,2,1,9\n8,7,6,5,9\n0,0,0,0,0\n")?)?;
    let relations_text = found_text(&rt, alloc, &relations, 4)?;
    assert_eq!(rt;
        relations_text.as_str(),
        "1.1 in 2.4 / 1.2 in 2.3 / 1.3 in 2.2 / 1.4 in 2.1 / 1.1 1.2 in 2.4 2.3 / 1.1 1.3 in 2.4 2.2 / 1.1 1.4 in 2.4 2.1 / 1.2 1.3 in 2.3 2.2 / 1.2 1.4 in 2.3 2.1 / 1.3 1.4 in 2.2 2.1 / 1.1 1.2 1.3 in 2.4 2.3 2.2 / 1.1 1.2 1.4 in 2.4 2.3 2.1 / 1.1 1.3 1.4 in 2.4 2.2 2.1 / 1.2 1.3 1.4 in 2.3 2.2 2.1 / 1.1 1.2 1.3 1.4 in 2.4 2.3 2.2 2.1 / "
    );
    let mut others = Vec::new(alloc);
    others.push(relation(alloc, b"a,b\n1,x\n2,y\n")?)?;
    others.push(relation(alloc, b"a,b\n1,x\n2,y\n")?)?;
    let others_text = found_text(&rt, alloc, &others, 1)?;
    assert_eq!(rt;
        others_text.as_str(),
        "1.1 in 2.1 / 1.2 in 2.2 / 2.1 in 1.1 / 2.2 in 1.2 / "
    );
    Ok(())
}

// Cells have any bytes.
#[test]
fn cells_have_any_bytes(rt: HostRuntime) -> Result<(), Fail> {
    let alloc = rt.alloc();
    let mut relations = Vec::new(alloc);
    relations.push(relation(alloc, b"a,b\n\x00,\xff\n\xff\x00,\n")?)?;
    relations.push(relation(alloc, b"c,d\n\xff,\x00\n,\xff\x00\n\x00,\xff\n")?)?;
    let text = found_text(&rt, alloc, &relations, 2)?;
    assert_eq!(rt;
        text.as_str(),
        "1.1 in 2.2 / 1.2 in 2.1 / 1.2 in 2.2 / 2.1 in 2.2 / 1.1 1.2 in 2.2 2.1 / "
    );
    Ok(())
}

// Drawn rows, with the inclusions that a plain program told.
#[test]
fn drawn_rows(rt: HostRuntime) -> Result<(), Fail> {
    let alloc = rt.alloc();
    let mut relations = Vec::new(alloc);
    relations.push(relation(alloc, b"a,b,c\n2,2,2\n1,1,\n,1,1\n")?)?;
    relations.push(relation(
        alloc,
        b"a,b,c\n,2,1\n1,2,\n2,2,2\n,2,\n2,,2\n,2,2\n,1,1\n1,1,2\n2,1,1\n2,1,2\n,,\n1,,1\n",
    )?)?;
    let text = found_text(&rt, alloc, &relations, 3)?;
    assert_eq!(rt;
        text.as_str(),
        "1.1 in 1.2 / 1.1 in 1.3 / 1.1 in 2.1 / 1.1 in 2.2 / 1.1 in 2.3 / 1.2 in 1.1 / 1.2 in 1.3 / 1.2 in 2.1 / 1.2 in 2.2 / 1.2 in 2.3 / 1.3 in 1.1 / 1.3 in 1.2 / 1.3 in 2.1 / 1.3 in 2.2 / 1.3 in 2.3 / 2.1 in 1.1 / 2.1 in 1.2 / 2.1 in 1.3 / 2.1 in 2.2 / 2.1 in 2.3 / 2.2 in 1.1 / 2.2 in 1.2 / 2.2 in 1.3 / 2.2 in 2.1 / 2.2 in 2.3 / 2.3 in 1.1 / 2.3 in 1.2 / 2.3 in 1.3 / 2.3 in 2.1 / 2.3 in 2.2 / 1.1 1.2 in 2.1 2.2 / 1.1 1.2 in 2.1 2.3 / 1.1 1.2 in 2.2 2.1 / 1.1 1.2 in 2.2 2.3 / 1.1 1.2 in 2.3 2.1 / 1.1 1.3 in 1.3 1.1 / 1.1 1.3 in 2.1 2.2 / 1.1 1.3 in 2.1 2.3 / 1.1 1.3 in 2.2 2.1 / 1.1 1.3 in 2.3 2.1 / 1.2 1.3 in 2.1 2.2 / 1.2 1.3 in 2.1 2.3 / 1.2 1.3 in 2.2 2.1 / 1.2 1.3 in 2.3 2.1 / 1.2 1.3 in 2.3 2.2 / 2.1 2.2 in 2.2 2.1 / 2.1 2.3 in 2.2 2.1 / 2.2 2.3 in 2.1 2.2 / 1.1 1.2 1.3 in 2.1 2.3 2.2 / 1.1 1.2 1.3 in 2.2 2.3 2.1 / "
    );
    Ok(())
}
