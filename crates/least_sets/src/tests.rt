// Least sets of many small lists of agree sets, against the plain program.
ghost use Rattle.std.specs.Prelude.{◌<◌, ◌≤◌};
ghost use Rattle.col_set.specs.Target.{IsColumnTarget};

use crate::index::Index;
use crate::{least_sets, least_sets_of_size};
use plain_base::least_sets as plain_least_sets;
use rel_base::{ColSet, MOST_COLUMNS, Target};
use std::alloc::{AllocError, Global};
use std::process::Abort;
use std::test::Fail;

fn set(columns: &[u8]) -> ColSet {
    let mut found = ColSet::empty();
    for column in columns {
        if *column < MOST_COLUMNS {
            found = found.with(*column);
        }
    }
    found
}

// Agree sets with no pattern to speak of, as sets of six columns: none, and the set of all columns, are among them.
fn some_sets(alloc: Global, count: usize, mut seed: u32) -> Result<Vec<ColSet>, AllocError>
    requires { count ≤ 1000 }
{
    let mut sets = Vec::new(alloc);
    for _ in 0..count {
        seed = seed.wrapping_mul(1664525).wrapping_add(1013904223);
        sets.push(ColSet::of_bits((seed >> 24) as u128).inter(ColSet::all(6)))?;
    }
    Ok(sets)
}

// Branches on a column make what the plain program does.
fn expect_branched(
    rt: &impl Abort,
    alloc: Global,
    columns: u8,
    target: Target,
    sets: &[ColSet],
) -> Result<(), Fail>
    requires columns { columns ≤ MOST_COLUMNS }
    requires target { IsColumnTarget columns target }
{
    let made = least_sets(alloc, columns, target, sets)?;
    let wanted = plain_least_sets(alloc, columns, target, sets)?;
    assert!(rt; made.as_slice() == wanted.as_slice());
    Ok(())
}

// For each target of that many columns.
fn expect_branched_for_all(
    rt: &impl Abort,
    alloc: Global,
    columns: u8,
    sets: &[ColSet],
) -> Result<(), Fail>
    requires { columns ≤ MOST_COLUMNS }
{
    expect_branched(rt, alloc, columns, Target::RowId, sets)?;
    for column in 0..columns {
        expect_branched(rt, alloc, columns, Target::Col(column), sets)?;
    }
    Ok(())
}

#[test]
fn branches_make_what_the_plain_program_does(rt: HostRuntime) -> Result<(), Fail> {
    let alloc = rt.alloc();
    for seed in 0..1500u32 {
        let sets = some_sets(alloc, (seed % 10) as usize, seed)?;
        expect_branched_for_all(&rt, alloc, 6, sets.as_slice())?;
    }
    Ok(())
}

// Large agree sets of nine columns, so many that branches choose several columns before one or two of the agree sets are pending.
fn large_sets(alloc: Global, mut seed: u32) -> Result<Vec<ColSet>, AllocError> {
    let mut sets = Vec::new(alloc);
    for _ in 0..24 {
        let half = ColSet::of_bits((seed >> 23) as u128);
        seed = seed.wrapping_mul(1664525).wrapping_add(1013904223);
        sets.push(half.union(ColSet::of_bits((seed >> 23) as u128)))?;
    }
    Ok(sets)
}

#[test]
fn deep_branches_make_what_the_plain_program_does(rt: HostRuntime) -> Result<(), Fail> {
    let alloc = rt.alloc();
    for seed in 0..40u32 {
        let sets = large_sets(alloc, seed.wrapping_mul(2654435761))?;
        expect_branched_for_all(&rt, alloc, 9, sets.as_slice())?;
    }
    Ok(())
}

// Agree sets of the most columns: half of them, the others with one of these, all but the last, and all but the first twice.
static WIDE: [u128; 5] = [
    0xffff_ffff_ffff_ffff,
    0xffff_ffff_ffff_ffff_0000_0000_0000_0001,
    0x7fff_ffff_ffff_ffff_ffff_ffff_ffff_ffff,
    0xffff_ffff_ffff_ffff_ffff_ffff_ffff_fffe,
    0xffff_ffff_ffff_ffff_ffff_ffff_ffff_fffe,
];

#[test]
fn branches_reach_to_the_last_column(rt: HostRuntime) -> Result<(), Fail> {
    let alloc = rt.alloc();
    let mut sets = Vec::new(alloc);
    for bits in WIDE {
        sets.push(ColSet::of_bits(bits))?;
    }
    for target in [Target::RowId, Target::Col(0), Target::Col(127)] {
        if let Target::Col(column) = target {
            assert!(rt; column < MOST_COLUMNS);
        }
        expect_branched(&rt, alloc, MOST_COLUMNS, target, sets.as_slice())?;
    }
    Ok(())
}

// The lines of the plane of seven points, as sets of them.
static LINES: [u128; 7] = [7, 25, 97, 42, 82, 76, 52];

// Agree sets that each lack one line of one of five planes leave a line of each plane to choose: seven to the fifth.
#[test]
fn planes_with_nothing_in_common_are_gone_through_apart(rt: HostRuntime) -> Result<(), Fail> {
    let alloc = rt.alloc();
    let mut sets = Vec::new(alloc);
    for line in LINES {
        let mut bits = line;
        for _ in 0..5 {
            sets.push(ColSet::all(35).minus(ColSet::of_bits(bits)))?;
            bits = bits.wrapping_mul(128);
        }
    }
    let found = least_sets(alloc, 35, Target::RowId, sets.as_slice())?;
    assert!(rt; found.len() == 16_807);
    Ok(())
}

// A set that contains another is found in whatever block it stands, and none is found before the start.
#[test]
fn a_set_around_another_is_found_in_a_later_block(rt: HostRuntime) -> Result<(), Fail> {
    let alloc = rt.alloc();
    let mut sets = vec![in alloc; set(&[0]); 1100]?;
    sets.push(set(&[1, 2, 127]))?;
    let index = Index::of(alloc, sets.as_slice())?;
    assert!(rt; index.place_around(set(&[1, 127]), 3) == Some(1097));
    assert!(rt; index.place_around(set(&[1, 127]), 1101).is_none());
    assert!(rt; index.place_around(set(&[0]), 600) == Some(0));
    assert!(rt; index.place_around(set(&[0, 1]), 0).is_none());
    Ok(())
}

// The sets with no column, with one, and so on are together all of them.
#[test]
fn sets_of_each_size_are_together_all_of_them(rt: HostRuntime) -> Result<(), Fail> {
    let alloc = rt.alloc();
    let sets = some_sets(alloc, 12, 11)?;
    let mut found = Vec::new(alloc);
    for size in 0..7 {
        let mut own = least_sets_of_size(alloc, 6, Target::Col(2), sets.as_slice(), size)?;
        found.append(&mut own)?;
    }
    found.sort_unstable();
    let wanted = least_sets(alloc, 6, Target::Col(2), sets.as_slice())?;
    assert!(rt; found.as_slice() == wanted.as_slice());
    Ok(())
}
