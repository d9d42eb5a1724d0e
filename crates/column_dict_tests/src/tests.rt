// The codes of a few cells under both readings of NULL.
use column_dict::Dict;
use rel_base::{Cell, Nulls};
use std::alloc::{AllocError, Global};
use std::process::Abort;
use std::test::Fail;

// The code of these bytes in a dictionary that is not full.
fn code_of(rt: &impl Abort, dict: &mut Dict, bytes: &[u8]) -> Result<u32, AllocError> {
    assert!(rt; dict.len() < u32::MAX, "the dictionary is full");
    dict.code_of(bytes)
}

// The code of this cell in a dictionary that is not full.
fn code(rt: &impl Abort, dict: &mut Dict, cell: &Cell) -> Result<u32, AllocError> {
    assert!(rt; dict.len() < u32::MAX, "the dictionary is full");
    dict.code(cell)
}

// Asserts that the cell of these bytes has this code.
fn has_code(rt: &impl Abort, dict: &mut Dict, bytes: &[u8], wanted: u32) -> Result<(), AllocError> {
    assert!(rt; code_of(rt, dict, bytes)? == wanted, "{bytes:?}");
    Ok(())
}

// Asserts that the cells of these bytes have these codes, one after another.
fn have_codes(rt: &impl Abort, dict: &mut Dict, cells: &[(&[u8], u32)]) -> Result<(), AllocError> {
    for (bytes, wanted) in cells {
        has_code(rt, dict, bytes, *wanted)?;
    }
    Ok(())
}

// Asserts that a cell made of these bytes has this code.
fn cell_has_code(
    rt: &impl Abort,
    alloc: Global,
    dict: &mut Dict,
    bytes: &[u8],
    wanted: u32,
) -> Result<(), AllocError> {
    let cell = Cell::copied(alloc, bytes)?;
    assert!(rt; code(rt, dict, &cell)? == wanted, "{bytes:?}");
    Ok(())
}

// Cells in their order, with the codes they have where NULL equals NULL.
static ONE_NULL: [(&[u8], u32); 3] = [(b"x", 0), (b"", 1), (b"x", 0)];

// Asserts that cells made of these bytes have these codes, one after another.
fn cells_have_codes(
    rt: &impl Abort,
    alloc: Global,
    dict: &mut Dict,
    cells: &[(&[u8], u32)],
) -> Result<(), AllocError> {
    for (bytes, wanted) in cells {
        cell_has_code(rt, alloc, dict, bytes, *wanted)?;
    }
    Ok(())
}

// Asserts that there are two codes, the second that of NULL.
fn null_is_the_second_of_two(rt: &impl Abort, dict: &Dict) {
    assert!(rt; dict.len() == 2);
    assert!(rt; dict.cell(1).is_null());
}

#[test]
fn null_has_one_code_where_null_equals_null(rt: HostRuntime) -> Result<(), Fail> {
    let mut dict = Dict::new(rt.alloc());
    assert!(rt; dict.len() == 0);
    cells_have_codes(&rt, rt.alloc(), &mut dict, &ONE_NULL)?;
    has_code(&rt, &mut dict, b"", 1)?;
    null_is_the_second_of_two(&rt, &dict);
    Ok(())
}

// Cells in their order, with the codes they have where NULL agrees with nothing.
static NULLS_APART: [(&[u8], u32); 5] = [(b"", 0), (b"x", 1), (b"", 2), (b"y", 3), (b"x", 1)];

// Cells that come after all but the first three codes are dropped.
static AFTER_THREE: [(&[u8], u32); 2] = [(b"z", 3), (b"y", 4)];

// Asserts that of four codes the first three stay.
fn first_three_are_kept(rt: &impl Abort, dict: &mut Dict) {
    assert!(rt; dict.len() == 4);
    assert!(rt; dict.cell(1).bytes() == b"x".as_slice());
    dict.keep(3);
    assert!(rt; dict.len() == 3);
    assert!(rt; dict.cell(2).is_null());
}

#[test]
fn each_null_has_a_code_of_its_own_where_null_agrees_with_nothing(
    rt: HostRuntime,
) -> Result<(), Fail> {
    let mut dict = Dict::with_nulls(rt.alloc(), Nulls::Distinct);
    have_codes(&rt, &mut dict, &NULLS_APART)?;
    first_three_are_kept(&rt, &mut dict);
    have_codes(&rt, &mut dict, &AFTER_THREE)?;
    Ok(())
}

// The cells of a dictionary, and of another one that lacks the first and has the last as its first.
static CELLS: [&[u8]; 3] = [b"x", b"", b"more than 14 bytes"];

static OTHER_CELLS: [&[u8]; 3] = [b"more than 14 bytes", b"", b"y"];

// Codes these cells.
fn code_all(rt: &impl Abort, dict: &mut Dict, cells: &[&[u8]]) -> Result<(), AllocError> {
    for bytes in cells {
        code_of(rt, dict, bytes)?;
    }
    Ok(())
}

// A dictionary of these cells.
fn dict_of(
    rt: &impl Abort,
    alloc: Global,
    nulls: Nulls,
    cells: &[&[u8]],
) -> Result<Dict, AllocError> {
    let mut dict = Dict::with_nulls(alloc, nulls);
    code_all(rt, &mut dict, cells)?;
    Ok(dict)
}

// Asserts that the dictionary of `OTHER_CELLS` finds NULL so, and of the other `CELLS` the one it has.
fn cells_are_found(rt: &impl Abort, dict: &Dict, other: &Dict, null: Option<u32>) {
    assert!(rt; dict.len() == 3);
    assert!(rt; other.len() == 3);
    assert!(rt; other.find(dict.cell(0)).is_none());
    assert!(rt; other.find(dict.cell(1)) == null);
    assert!(rt; other.find(dict.cell(2)) == Some(0));
}

// Asserts it for two dictionaries under this reading of NULL.
fn are_found_under(
    rt: &impl Abort,
    alloc: Global,
    nulls: Nulls,
    null: Option<u32>,
) -> Result<(), AllocError> {
    let dict = dict_of(rt, alloc, nulls, &CELLS)?;
    let other = dict_of(rt, alloc, nulls, &OTHER_CELLS)?;
    cells_are_found(rt, &dict, &other, null);
    Ok(())
}

#[test]
fn a_cell_of_another_dictionary_is_found(rt: HostRuntime) -> Result<(), Fail> {
    are_found_under(&rt, rt.alloc(), Nulls::Equal, Some(1))?;
    are_found_under(&rt, rt.alloc(), Nulls::Distinct, None)?;
    Ok(())
}

// Whether new cells of this length get one code after another, and keep them. They are alike but for their bytes at this place.
fn are_told_apart(dict: &mut Dict, cell: &mut [u8], place: usize) -> Result<bool, AllocError> {
    for number in 0..40u8 {
        if place < cell.len() {
            cell[place] = number;
        }
        let wanted = dict.len();
        if wanted == u32::MAX
            || dict.code_of(cell)? != wanted
            || dict.cell(wanted).bytes() != cell
        {
            return Ok(false);
        }
        let codes = dict.len();
        if codes == u32::MAX || dict.code_of(cell)? != wanted || dict.len() != codes {
            return Ok(false);
        }
    }
    Ok(true)
}

// Lengths on both sides of where the keeping of a cell changes.
static LENGTHS_APART: [usize; 9] = [1, 13, 14, 15, 24, 25, 40, 41, 300];

// Whether cells of this length are told apart.
fn length_is_told_apart(alloc: Global, dict: &mut Dict, length: usize) -> Result<bool, AllocError> {
    let mut cell = vec![in alloc; b'z'; length]?;
    are_told_apart(dict, &mut cell, length / 2)
}

#[test]
fn cells_of_any_length_are_told_apart(rt: HostRuntime) -> Result<(), Fail> {
    let mut dict = Dict::new(rt.alloc());
    for length in &LENGTHS_APART {
        assert!(rt;
            length_is_told_apart(rt.alloc(), &mut dict, *length)?,
            "{length}"
        );
    }
    Ok(())
}

// The lengths of cells of every kind of keeping, long ones among short ones.
static LENGTHS: [usize; 10] = [41, 1, 65536, 14, 15, 300, 24, 25, 40, 4096];

// A cell of this length, whose first and last bytes are those of every other.
fn cell_of(alloc: Global, length: usize, middle: u8) -> Result<Vec<u8>, AllocError> {
    let mut cell = vec![in alloc; b'z'; length]?;
    let place = length / 2;
    if place < length {
        cell[place] = middle;
    }
    Ok(cell)
}

// The code of these bytes. Where memory is wanting the dictionary is as before, and they are coded once more.
fn coded(rt: &impl Abort, dict: &mut Dict, bytes: &[u8]) -> Result<u32, AllocError> {
    let codes = dict.len();
    if let Ok(code) = code_of(rt, dict, bytes) {
        return Ok(code);
    }
    assert!(rt; dict.len() == codes, "the dictionary is not as before");
    code_of(rt, dict, bytes)
}

// Codes a cell. It has this code, and is kept under it.
fn code_kept(rt: &impl Abort, dict: &mut Dict, cell: &[u8], wanted: u32) -> Result<(), AllocError> {
    let length = cell.len();
    assert!(rt; coded(rt, dict, cell)? == wanted, "{length}");
    assert!(rt; wanted < dict.len());
    assert!(rt; dict.cell(wanted).bytes() == cell, "{length}");
    Ok(())
}

// Codes a cell of this length and middle, which has this code.
fn code_length(
    rt: &impl Abort,
    alloc: Global,
    dict: &mut Dict,
    cell: (usize, u8),
    wanted: u32,
) -> Result<(), AllocError> {
    let cell = cell_of(alloc, cell.0, cell.1)?;
    code_kept(rt, dict, &cell, wanted)
}

// Codes cells of each length, which differ from those of other middles alone in their middle. The first has the code `first`.
fn code_each_length(
    rt: &impl Abort,
    alloc: Global,
    dict: &mut Dict,
    middle: u8,
    first: u32,
) -> Result<(), AllocError> {
    let mut wanted = first;
    for length in &LENGTHS {
        code_length(rt, alloc, dict, (*length, middle), wanted)?;
        wanted = wanted.wrapping_add(1);
    }
    Ok(())
}

// The middles of the cells that come, known and new, with the code of the first of each.
static MIDDLES: [(u8, u32); 5] = [(0, 0), (1, 10), (0, 0), (2, 20), (1, 10)];

// Codes cells of each length and of these middles, one middle after another.
fn code_each_middle(
    rt: &impl Abort,
    alloc: Global,
    dict: &mut Dict,
    middles: &[(u8, u32)],
) -> Result<(), AllocError> {
    for (middle, first) in middles {
        code_each_length(rt, alloc, dict, *middle, *first)?;
    }
    Ok(())
}

// Asserts that there are so many codes.
fn are_codes(rt: &impl Abort, dict: &Dict, codes: u32) {
    assert!(rt; dict.len() == codes);
}

#[test]
fn long_cells_known_and_new_have_their_codes(rt: HostRuntime) -> Result<(), Fail> {
    let mut dict = Dict::new(rt.alloc());
    code_each_middle(&rt, rt.alloc(), &mut dict, &MIDDLES)?;
    are_codes(&rt, &dict, 30);
    Ok(())
}
