ghost use Rattle.std.specs.Prelude.{◌≡◌, ◌≤◌};

mod plain;

use self::plain::{are_parts, are_whole, are_wide, is_matched, is_wide_for};
use crate::{Filled, join, project};
use rel_base::{ColSet, Row};
use std::alloc::{AllocError, Global};
use std::process::Abort;
use std::test::Fail;

fn row(alloc: Global, cells: &[&[u8]]) -> Result<Row, AllocError> {
    Row::copied(alloc, cells)
}

// The set of these columns.
fn set(columns: &[u8]) -> ColSet {
    let mut set = ColSet::empty();
    for column in columns {
        if *column < 128 {
            set = set.with(*column);
        }
    }
    set
}

// The distinct parts of these rows on some columns.
fn parts(
    alloc: Global,
    rt: &impl Abort,
    rows: &[Row],
    columns: ColSet,
) -> Result<Vec<Row>, AllocError> {
    assert!(rt; are_wide(rows, columns));
    project(alloc, rows, columns)
}

// The table of these columns of the rows.
fn table(
    alloc: Global,
    rt: &impl Abort,
    rows: &[Row],
    columns: ColSet,
) -> Result<Filled, AllocError> {
    let parts = parts(alloc, rt, rows, columns)?;
    assert!(rt; are_parts(parts.as_slice(), columns));
    Ok(Filled::of(columns, parts))
}

fn joined(alloc: Global, rt: &impl Abort, tables: &[Filled]) -> Result<Vec<Row>, AllocError> {
    assert!(rt; are_whole(tables));
    join(alloc, tables)
}

// Whether the two lists have the same rows, in whatever order.
fn are_same(some: &[Row], others: &[Row]) -> bool {
    some.len() == others.len() && some.iter().all(|row| others.contains(row))
}

// Whether the projections of these rows to two sets of columns join to the distinct rows.
fn joins_again(
    alloc: Global,
    rt: &impl Abort,
    rows: &[Row],
    width: u8,
    one: ColSet,
    other: ColSet,
) -> Result<bool, AllocError>
    requires { width ≤ 128 }
{
    let tables = vec![in alloc;
        table(alloc, rt, rows, one)?,
        table(alloc, rt, rows, other)?,
    ]?;
    let whole = joined(alloc, rt, tables.as_slice())?;
    let distinct = parts(alloc, rt, rows, ColSet::all(width))?;
    Ok(are_same(whole.as_slice(), distinct.as_slice()))
}

fn cities(alloc: Global) -> Result<Vec<Row>, AllocError> {
    vec![in alloc;
        row(alloc, &[b"1", b"Berlin", b"10115"])?,
        row(alloc, &[b"2", b"Berlin", b"10115"])?,
        row(alloc, &[b"3", b"Potsdam", b"14467"])?,
    ]
    .map_err(AllocError::from)
}

#[test]
fn a_projection_has_each_part_once(rt: HostRuntime) -> Result<(), Fail> {
    let alloc = rt.alloc();
    let rows = cities(alloc)?;
    let parts = parts(alloc, &rt, rows.as_slice(), set(&[1, 2]))?;
    assert!(rt; parts.len() == 2);
    assert!(rt; parts[0] == row(alloc, &[b"Berlin", b"10115"])?);
    assert!(rt; parts[1] == row(alloc, &[b"Potsdam", b"14467"])?);
    Ok(())
}

#[test]
fn tables_with_a_common_column_join_again(rt: HostRuntime) -> Result<(), Fail> {
    let alloc = rt.alloc();
    let rows = cities(alloc)?;
    assert!(rt; joins_again(alloc, &rt, rows.as_slice(), 3, set(&[0, 1]), set(&[1, 2]))?);
    assert!(rt; !joins_again(alloc, &rt, rows.as_slice(), 3, set(&[0]), set(&[1, 2]))?);
    Ok(())
}

#[test]
fn equal_rows_join_to_one(rt: HostRuntime) -> Result<(), Fail> {
    let alloc = rt.alloc();
    let rows = vec![in alloc; row(alloc, &[b"x\"y", b""])?, row(alloc, &[b"x\"y", b""])?]?;
    let tables = vec![in alloc; table(alloc, &rt, rows.as_slice(), set(&[0, 1]))?]?;
    let whole = joined(alloc, &rt, tables.as_slice())?;
    assert!(rt; whole.len() == 1);
    assert!(rt; whole[0] == rows[0]);
    Ok(())
}

#[test]
fn tables_without_a_common_column_join_to_all_pairs(rt: HostRuntime) -> Result<(), Fail> {
    let alloc = rt.alloc();
    let rows = vec![in alloc; row(alloc, &[b"1", b"x"])?, row(alloc, &[b"2", b"x"])?]?;
    assert!(rt; joins_again(alloc, &rt, rows.as_slice(), 2, set(&[0]), set(&[1]))?);
    let more = vec![in alloc; row(alloc, &[b"1", b"x"])?, row(alloc, &[b"2", b"y"])?]?;
    assert!(rt; !joins_again(alloc, &rt, more.as_slice(), 2, set(&[0]), set(&[1]))?);
    Ok(())
}

#[test]
fn a_table_alone_joins_to_itself(rt: HostRuntime) -> Result<(), Fail> {
    let alloc = rt.alloc();
    let rows = vec![in alloc;
        row(alloc, &[b"0", b"0", b"0"])?,
        row(alloc, &[b"0", b"1", b"1"])?,
        row(alloc, &[b"1", b"0", b"1"])?,
        row(alloc, &[b"1", b"1", b"0"])?,
    ]?;
    assert!(rt;
        joins_again(
            alloc,
            &rt,
            rows.as_slice(),
            3,
            set(&[0, 1, 2]),
            set(&[0, 1, 2])
        )?
    );
    assert!(rt; !joins_again(alloc, &rt, rows.as_slice(), 3, set(&[0, 1]), set(&[1, 2]))?);
    Ok(())
}

#[test]
fn one_column_and_no_rows(rt: HostRuntime) -> Result<(), Fail> {
    let alloc = rt.alloc();
    let none = Vec::new(alloc);
    assert!(rt; joins_again(alloc, &rt, none.as_slice(), 1, set(&[0]), set(&[0]))?);
    let rows = vec![in alloc;
        row(alloc, &[b""])?,
        row(alloc, &[b"a"])?,
        row(alloc, &[b""])?,
    ]?;
    assert!(rt; joins_again(alloc, &rt, rows.as_slice(), 1, set(&[0]), set(&[0]))?);
    Ok(())
}

// A row of 128 cells, all but the last alike.
fn wide_row(alloc: Global, last: &[u8]) -> Result<Row, AllocError> {
    let mut cells = Vec::new(alloc);
    for _cell in 0..127 {
        cells.push(b"a".as_slice())?;
    }
    cells.push(last)?;
    Row::copied(alloc, cells.as_slice())
}

#[test]
fn as_many_columns_as_there_may_be(rt: HostRuntime) -> Result<(), Fail> {
    let alloc = rt.alloc();
    let rows = vec![in alloc; wide_row(alloc, b"x")?, wide_row(alloc, b"y")?]?;
    let last = set(&[127]);
    let others = ColSet::all(128).minus(last);
    assert!(rt; joins_again(alloc, &rt, rows.as_slice(), 128, others, last)?);
    Ok(())
}

// Whether the join has a row exactly where the plain definition says so, for this row.
fn agrees_on(
    alloc: Global,
    rt: &impl Abort,
    tables: &[Filled],
    whole: &[Row],
    row: &Row,
) -> Result<bool, AllocError> {
    assert!(rt; is_wide_for(row, tables));
    Ok(whole.contains(row) == is_matched(alloc, tables, row)?)
}

// Whether the join and the definition agree on all rows of three columns with one of these cells in each.
fn agrees(alloc: Global, rt: &impl Abort, tables: &[Filled]) -> Result<bool, AllocError> {
    let whole = joined(alloc, rt, tables)?;
    let cells = [b"".as_slice(), b"a".as_slice(), b"b".as_slice()];
    for one in cells {
        for two in cells {
            for three in cells {
                let row = row(alloc, &[one, two, three])?;
                if !agrees_on(alloc, rt, tables, whole.as_slice(), &row)? {
                    return Ok(false);
                }
            }
        }
    }
    Ok(true)
}

#[test]
fn a_join_has_the_rows_of_the_definition(rt: HostRuntime) -> Result<(), Fail> {
    let alloc = rt.alloc();
    let rows = vec![in alloc;
        row(alloc, &[b"a", b"", b"b"])?,
        row(alloc, &[b"b", b"", b"a"])?,
        row(alloc, &[b"b", b"a", b"b"])?,
        row(alloc, &[b"", b"b", b"b"])?,
    ]?;
    let first = table(alloc, &rt, rows.as_slice(), set(&[0, 1]))?;
    let second = table(alloc, &rt, rows.as_slice(), set(&[1, 2]))?;
    let third = table(alloc, &rt, rows.as_slice(), set(&[0, 2]))?;
    let tables = vec![in alloc; first, second, third]?;
    assert!(rt; agrees(alloc, &rt, tables.as_slice())?);
    Ok(())
}
