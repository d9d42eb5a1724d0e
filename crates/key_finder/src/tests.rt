mod plain;

use self::plain::{is_key, is_wide};
use crate::{table_keys, table_keys_of};
use rel_base::{Codes, ColSet, MOST_COLUMNS, RowNo, Snapshot};
use std::alloc::{AllocError, Global};
use std::process::Abort;
use std::test::Fail;

// The set whose columns these bits are.
fn set(bits: u8) -> ColSet {
    ColSet::of_bits(u128::from(bits))
}

// A snapshot of four rows and three columns, of which some rows are live.
fn four_rows(
    alloc: Global,
    rt: &impl Abort,
    columns: [[u32; 4]; 3],
    live: [bool; 4],
) -> Result<Snapshot, AllocError> {
    let one = Codes::of(Vec::from_array(alloc, columns[0])?);
    let two = Codes::of(Vec::from_array(alloc, columns[1])?);
    let three = Codes::of(Vec::from_array(alloc, columns[2])?);
    let codes = vec![in alloc; one, two, three]?;
    let live = Vec::from_array(alloc, live)?;
    assert!(rt; codes.len() == 3 && live.len() == 4);
    assert!(rt; codes[0].len() == 4 && codes[1].len() == 4);
    assert!(rt; codes[2].len() == 4);
    Ok(Snapshot::of(codes, live, RowNo::of(5)))
}

fn keys(
    alloc: Global,
    rt: &impl Abort,
    snapshot: &Snapshot,
    columns: ColSet,
) -> Result<Vec<ColSet>, AllocError> {
    assert!(rt; is_wide(snapshot, columns));
    table_keys(alloc, snapshot, columns)
}

// The rows (1, Berlin, 10115), (2, Berlin, 10115) and (3, Potsdam, 14467), and a dead one.
#[test]
fn each_of_two_columns_is_a_key(rt: HostRuntime) -> Result<(), Fail> {
    let alloc = rt.alloc();
    let columns = [[0u32, 1, 2, 0], [0u32, 0, 1, 1], [0u32, 0, 1, 2]];
    let snapshot = four_rows(alloc, &rt, columns, [true, true, true, false])?;
    let found = keys(alloc, &rt, &snapshot, set(6))?;
    assert!(rt; found.as_slice() == [set(2), set(4)].as_slice());
    let whole = keys(alloc, &rt, &snapshot, set(7))?;
    assert!(rt; whole.as_slice() == [set(1)].as_slice());
    Ok(())
}

// Each two columns of an exclusive or are a key, and one where a row ends.
#[test]
fn keys_of_an_exclusive_or(rt: HostRuntime) -> Result<(), Fail> {
    let alloc = rt.alloc();
    let columns = [[0u32, 0, 1, 1], [0u32, 1, 0, 1], [0u32, 1, 1, 0]];
    let snapshot = four_rows(alloc, &rt, columns, [true, true, true, true])?;
    let found = keys(alloc, &rt, &snapshot, set(7))?;
    assert!(rt; found.as_slice() == [set(3), set(5), set(6)].as_slice());
    let one = keys(alloc, &rt, &snapshot, set(1))?;
    assert!(rt; one.as_slice() == [set(1)].as_slice());
    Ok(())
}

// Of no row and of one the empty set is the key, and of equal rows too, which have one part.
#[test]
fn the_empty_set_is_the_key_of_one_part(rt: HostRuntime) -> Result<(), Fail> {
    let alloc = rt.alloc();
    let columns = [[0u32, 0, 0, 0], [0u32, 0, 0, 0], [0u32, 0, 0, 0]];
    let all = four_rows(alloc, &rt, columns, [true, true, true, true])?;
    assert!(rt; keys(alloc, &rt, &all, set(7))?.as_slice() == [set(0)].as_slice());
    let none = four_rows(alloc, &rt, columns, [false, false, false, false])?;
    assert!(rt; keys(alloc, &rt, &none, set(2))?.as_slice() == [set(0)].as_slice());
    Ok(())
}

// Whether the keys by agree sets are exactly those of the definition, among the sets of four columns.
fn agrees(alloc: Global, agree_sets: &[ColSet], columns: ColSet) -> Result<bool, AllocError> {
    let found = table_keys_of(alloc, agree_sets, columns)?;
    for bits in 0u8..16 {
        if found.contains(&set(bits)) != is_key(agree_sets, columns, set(bits)) {
            return Ok(false);
        }
    }
    Ok(true)
}

#[test]
fn keys_by_agree_sets_are_those_of_the_definition(rt: HostRuntime) -> Result<(), Fail> {
    let alloc = rt.alloc();
    for bits in 0u8..16 {
        let agree_sets = [set(3), set(bits), set(12), set(bits / 2 + 4)];
        assert!(rt; agrees(alloc, &agree_sets, set(15))?);
        assert!(rt; agrees(alloc, &agree_sets, set(bits))?);
    }
    Ok(())
}

// Two columns of 128 tell all rows apart only together.
#[test]
fn as_many_columns_as_there_may_be(rt: HostRuntime) -> Result<(), Fail> {
    let alloc = rt.alloc();
    let all = ColSet::all(MOST_COLUMNS);
    let agree_sets = [all.without(0), all.without(127)];
    let found = table_keys_of(alloc, &agree_sets, all)?;
    assert!(rt; found.as_slice() == [ColSet::empty().with(0).with(127)].as_slice());
    let inside = table_keys_of(alloc, &agree_sets, all.without(0))?;
    assert!(rt; inside.as_slice() == [ColSet::empty().with(127)].as_slice());
    Ok(())
}
