mod plain;
mod relations;

ghost use Rattle.std.specs.Prelude.{◌≤◌};

use crate::tests::relations::{agree_sets_of, covers_of, made_rows};
use crate::{split, violation};
use rel_base::{ColSet, Covers, Fd, MOST_COLUMNS, Table};
use std::alloc::{AllocError, Global};
use std::process::Abort;
use std::test::Fail;

// The tables of the relation with these rows.
fn tables_of(rt: &impl Abort, alloc: Global, n: u8, rows: &[u32]) -> Result<Vec<Table>, AllocError>
    requires { n ≤ 8 }
{
    let sets = agree_sets_of(alloc, n, rows)?;
    let covers = covers_of(rt, alloc, n, sets.as_slice())?;
    split(alloc, &covers, n)
}

// Whether its tables are those of the plain definition.
fn is_split_as_defined(
    rt: &impl Abort,
    alloc: Global,
    n: u8,
    rows: &[u32],
) -> Result<bool, AllocError>
    requires { n ≤ 8 }
{
    let sets = agree_sets_of(alloc, n, rows)?;
    let tables = tables_of(rt, alloc, n, rows)?;
    let plainly = plain::split(alloc, sets.as_slice(), n)?;
    Ok(tables.as_slice() == plainly.as_slice())
}

// Whether the first violation of each column set is that of the plain definition.
fn is_violated_as_defined(
    rt: &impl Abort,
    alloc: Global,
    n: u8,
    rows: &[u32],
) -> Result<bool, AllocError>
    requires { n ≤ 8 }
{
    let sets = agree_sets_of(alloc, n, rows)?;
    let covers = covers_of(rt, alloc, n, sets.as_slice())?;
    for bits in 0..1u32 << n {
        let s = ColSet::of_bits(u128::from(bits));
        if violation(&covers, s) != plain::first_violation(sets.as_slice(), n, s) {
            return Ok(false);
        }
    }
    Ok(true)
}

fn table(columns: &[u8], key: &[u8]) -> Table {
    Table {
        columns: set(columns),
        key: set(key),
    }
}

fn set(columns: &[u8]) -> ColSet {
    columns
        .iter()
        .fold(ColSet::empty(), |set, column| set.with(*column % 8))
}

#[test]
fn a_city_and_its_code_become_a_table(rt: HostRuntime) -> Result<(), Fail> {
    let tables = tables_of(&rt, rt.alloc(), 3, &[111, 112, 223])?;
    let want = [table(&[0, 1], &[0]), table(&[1, 2], &[1])];
    assert!(rt; tables.as_slice() == want.as_slice());
    Ok(())
}

#[test]
fn a_table_whose_columns_in_pairs_are_keys_stays_whole(rt: HostRuntime) -> Result<(), Fail> {
    let tables = tables_of(&rt, rt.alloc(), 3, &[0, 110, 101, 11])?;
    let want = [table(&[0, 1, 2], &[0, 1])];
    assert!(rt; tables.as_slice() == want.as_slice());
    Ok(())
}

#[test]
fn a_constant_column_becomes_a_table_without_a_key(rt: HostRuntime) -> Result<(), Fail> {
    let tables = tables_of(&rt, rt.alloc(), 2, &[1, 2])?;
    let want = [table(&[0], &[0]), table(&[1], &[])];
    assert!(rt; tables.as_slice() == want.as_slice());
    Ok(())
}

#[test]
fn one_column_is_one_table(rt: HostRuntime) -> Result<(), Fail> {
    assert!(rt; tables_of(&rt, rt.alloc(), 1, &[])?.as_slice() == [table(&[0], &[])].as_slice());
    assert!(rt;
        tables_of(&rt, rt.alloc(), 1, &[1, 2])?.as_slice() == [table(&[0], &[0])].as_slice()
    );
    Ok(())
}

#[test]
fn most_columns_of_one_row_are_one_table(rt: HostRuntime) -> Result<(), Fail> {
    let mut keys = Vec::new(rt.alloc());
    keys.push(ColSet::empty())?;
    let mut fds = Vec::new(rt.alloc());
    for right in 0..MOST_COLUMNS {
        let left = ColSet::empty();
        fds.push(Fd { left, right })?;
    }
    let covers = Covers::checked(keys, fds).expect(&rt, "right columns ascend");
    let tables = split(rt.alloc(), &covers, MOST_COLUMNS)?;
    let want = [Table {
        columns: ColSet::all(MOST_COLUMNS),
        key: ColSet::empty(),
    }];
    assert!(rt; tables.as_slice() == want.as_slice());
    Ok(())
}

#[test]
fn equal_rows_are_no_hindrance(rt: HostRuntime) -> Result<(), Fail> {
    let tables = tables_of(&rt, rt.alloc(), 3, &[111, 112, 223, 223])?;
    let want = [table(&[0, 1], &[0]), table(&[1, 2], &[1])];
    assert!(rt; tables.as_slice() == want.as_slice());
    Ok(())
}

#[test]
fn small_relations_are_split_as_defined(rt: HostRuntime) -> Result<(), Fail> {
    for seed in 0..240u32 {
        let n = (seed % 5 + 1) as u8;
        let rows = made_rows(rt.alloc(), n, seed / 5 % 8, 2 + seed % 2, seed)?;
        assert!(rt;
            is_split_as_defined(&rt, rt.alloc(), n, rows.as_slice())?,
            "seed {seed}"
        );
    }
    Ok(())
}

#[test]
fn first_violations_are_those_of_the_definition(rt: HostRuntime) -> Result<(), Fail> {
    for seed in 0..80u32 {
        let rows = made_rows(rt.alloc(), 4, seed % 8, 2 + seed % 2, seed)?;
        assert!(rt;
            is_violated_as_defined(&rt, rt.alloc(), 4, rows.as_slice())?,
            "seed {seed}"
        );
    }
    Ok(())
}
