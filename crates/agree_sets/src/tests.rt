// The answers where each block and the rest begin and end.
ghost use Rattle.std.specs.Prelude.{◌<◌, ◌≤◌, ◌*◌};

use crate::{LANES, agree_blocks, agree_codes};
use rel_base::{COLUMN_PLACES, ColSet, MOST_COLUMNS};
use std::process::Abort;
use std::test::Fail;

#[test]
fn short_rows_agree_place_by_place(rt: HostRuntime) -> Result<(), Fail> {
    let none: [u32; 0] = [];
    assert_eq!(rt; agree_codes(&none, &none), ColSet::empty());
    assert_eq!(rt;
        agree_codes(&[7, 0, 4294967295], &[7, 1, 4294967295]),
        ColSet::empty().with(0).with(2)
    );
    Ok(())
}

#[test]
fn a_row_of_128_codes_agrees_with_itself(rt: HostRuntime) -> Result<(), Fail> {
    let row = [5u32; COLUMN_PLACES];
    let mut other = [5u32; COLUMN_PLACES];
    assert_eq!(rt; agree_codes(&row, &other), ColSet::all(MOST_COLUMNS));
    other[0] = 6;
    other[64] = 6;
    other[127] = 6;
    assert_eq!(rt;
        agree_codes(&row, &other),
        ColSet::all(MOST_COLUMNS)
            .without(0)
            .without(64)
            .without(127)
    );
    Ok(())
}

// Rows of so many blocks agree but at their last place.
fn blocks_agree_but_for_the_last_place(rt: &impl Abort, blocks: usize)
    requires some { 0 < blocks }
    requires few { LANES * blocks ≤ MOST_COLUMNS }
{
    let row = [5u32; COLUMN_PLACES];
    let mut other = [5u32; COLUMN_PLACES];
    let codes = LANES * blocks;
    other[codes - 1] = 6;
    let agree = agree_blocks(&row[..codes], &other[..codes]);
    assert!(rt; agree == ColSet::all(codes as u8 - 1));
}

#[test]
fn whole_blocks_agree_block_by_block(rt: HostRuntime) -> Result<(), Fail> {
    assert!(rt; agree_blocks(&[], &[]) == ColSet::empty());
    for blocks in 1..COLUMN_PLACES / LANES + 1 {
        blocks_agree_but_for_the_last_place(&rt, blocks);
    }
    Ok(())
}
