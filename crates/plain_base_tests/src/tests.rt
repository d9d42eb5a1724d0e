ghost use Rattle.std.specs.Prelude.{◌<◌, ◌≤◌};

use col_set::{ColSet, MOST_COLUMNS, Target};
use plain_base::{
    PlainRows, Samples, agree, agree_sets, are_as_wide, covers, inclusions, is_included,
    least_covers, least_sets, minimal_sets, refutes, relation_of, specialise,
};
use rel_base::{Batch, Covers, Fd, Limits, MOST_ROWS, Nulls, Op, Relation, Row, RowNo, Why};
use std::alloc::{AllocError, Global};
use std::process::Abort;
use std::test::Fail;

fn one(column: u8) -> ColSet
    requires { column < MOST_COLUMNS }
{
    ColSet::empty().with(column)
}

fn two(alloc: Global, k: &[u8], v: &[u8]) -> Result<Row, AllocError> {
    Row::copied(alloc, &[k, v])
}

// The columns k and v with the rows (1, x), (1, y) and (2, z).
fn letters(alloc: Global) -> Result<Option<Relation>, AllocError> {
    let rows = vec![in alloc;
        two(alloc, b"1", b"x")?,
        two(alloc, b"1", b"y")?,
        two(alloc, b"2", b"z")?,
    ]?;
    relation_of(alloc, two(alloc, b"k", b"v")?, &rows)
}

// The rows of `letters`, where no number above this one is given.
fn letter_rows(alloc: Global, last: u32) -> Result<PlainRows, Fail>
    requires { last ≤ MOST_ROWS }
{
    let relation = letters(alloc)?.ok_or("no relation")?;
    Ok(PlainRows::opened(
        alloc,
        Nulls::Equal,
        Limits::smaller(2, last, 9, 99),
        relation,
    )?)
}

// The agree sets of the rows 000, 011, 101 and 110: each two of them agree on one column.
#[test]
fn each_two_columns_are_a_key_of_an_exclusive_or(rt: HostRuntime) -> Result<(), Fail> {
    let alloc = rt.alloc();
    let agree_sets = [one(0), one(1), one(2), one(2), one(1), one(0)];
    let keys = least_sets(alloc, 3, Target::RowId, &agree_sets)?;
    let pairs = [one(0).with(1), one(0).with(2), one(1).with(2)];
    assert!(rt; keys.as_slice() == pairs.as_slice());
    let left_sides = least_sets(alloc, 3, Target::Col(0), &agree_sets)?;
    assert!(rt; left_sides.as_slice() == [one(1).with(2)].as_slice());
    Ok(())
}

#[test]
fn one_agree_set_refutes_and_specialises(rt: HostRuntime) -> Result<(), Fail> {
    let alloc = rt.alloc();
    assert!(rt; refutes(&[one(0)], Target::Col(1), one(0)));
    assert!(rt; !refutes(&[one(0)], Target::Col(0), one(0)));
    let agreed = one(0);
    assert!(rt; !agreed.has_target(Target::Col(1)));
    let candidates = specialise(alloc, 3, Target::Col(1), agreed, &[ColSet::empty()])?;
    assert!(rt; candidates.as_slice() == [one(2)].as_slice());
    Ok(())
}

#[test]
fn a_set_with_a_smaller_one_is_not_minimal(rt: HostRuntime) -> Result<(), Fail> {
    let kept = minimal_sets(rt.alloc(), &[one(0).with(1), one(1), one(2)])?;
    assert!(rt; kept.len() == 2 && kept.contains(&one(1)) && kept.contains(&one(2)));
    Ok(())
}

#[test]
fn rows_agree_on_equal_cells(rt: HostRuntime) -> Result<(), Fail> {
    let blank = two(rt.alloc(), b"", b"1")?;
    assert!(rt; blank.len() == 2);
    assert!(rt; agree(Nulls::Equal, 2, &blank, &blank) == one(0).with(1));
    assert!(rt; agree(Nulls::Distinct, 2, &blank, &blank) == one(1));
    Ok(())
}

#[test]
fn two_letters_agree_on_their_keys(rt: HostRuntime) -> Result<(), Fail> {
    let relation = letters(rt.alloc())?.ok_or("no relation")?;
    assert!(rt; relation.names().len() == 2);
    let rows = relation.rows(rt.alloc())?;
    let sets = agree_sets(rt.alloc(), Nulls::Equal, 2, &rows)?;
    assert!(rt; sets.as_slice() == [one(0), ColSet::empty(), ColSet::empty()].as_slice());
    Ok(())
}

// Whether these are the covers of `letters`.
fn are_covers_of_letters(found: &Covers) -> bool {
    let fds = [Fd {
        left: one(1),
        right: 0,
    }];
    found.keys() == [one(1)].as_slice() && found.fds() == fds.as_slice()
}

#[test]
fn letters_have_one_key_and_one_dependency(rt: HostRuntime) -> Result<(), Fail> {
    let relation = letters(rt.alloc())?.ok_or("no relation")?;
    let found = covers(rt.alloc(), Nulls::Equal, &relation)?;
    assert!(rt; are_covers_of_letters(&found));
    Ok(())
}

#[test]
fn agree_sets_of_letters_have_their_covers(rt: HostRuntime) -> Result<(), Fail> {
    let found = least_covers(rt.alloc(), 2, &[one(0), ColSet::empty()])?;
    assert!(rt; are_covers_of_letters(&found));
    Ok(())
}

// A column of two cells, one NULL, a column of that one's other cell and a further one, and a column of no cells.
fn three_columns(alloc: Global) -> Result<Vec<Row>, AllocError> {
    Ok(vec![in alloc;
        two(alloc, b"a", b"")?,
        two(alloc, b"b", b"a")?,
        Row::copied(alloc, &[])?,
    ]?)
}

// Asserts which of the first two of the columns is included in the other.
fn first_is_included_in_second(rt: &impl Abort, columns: &[Row]) {
    assert!(rt; columns.len() == 3);
    assert!(rt; is_included(columns, 0, 1));
    assert!(rt; !is_included(columns, 1, 0));
}

#[test]
fn inclusions_of_three_columns(rt: HostRuntime) -> Result<(), Fail> {
    let columns = three_columns(rt.alloc())?;
    let pairs = inclusions(rt.alloc(), &columns)?;
    assert!(rt; pairs.as_slice() == [(0, 1), (2, 0), (2, 1)].as_slice());
    first_is_included_in_second(&rt, &columns);
    Ok(())
}

// Asserts that these are the keys of `letters`.
fn are_keys_of_letters(rt: &impl Abort, keys: &[Row]) {
    assert!(rt; keys.len() == 2);
    assert!(rt; keys[0].len() == 1);
    assert!(rt; keys[1].len() == 1);
    assert!(rt; keys[0].cell(0) == b"1".as_slice());
    assert!(rt; keys[1].cell(0) == b"2".as_slice());
}

#[test]
fn parts_are_kept_once(rt: HostRuntime) -> Result<(), Fail> {
    let rows = letter_rows(rt.alloc(), 9)?;
    assert!(rt; rows.names().len() == 2);
    are_keys_of_letters(&rt, &rows.projection(rt.alloc(), ColSet::of_bits(1))?);
    Ok(())
}

#[test]
fn values_determine_keys(rt: HostRuntime) -> Result<(), Fail> {
    let rows = letter_rows(rt.alloc(), 9)?;
    assert!(rt; rows.holds(rt.alloc(), one(1), Target::Col(0))?);
    assert!(rt; !rows.holds(rt.alloc(), one(0), Target::Col(1))?);
    Ok(())
}

#[test]
fn one_row_has_any_key(rt: HostRuntime) -> Result<(), Fail> {
    let rows = letter_rows(rt.alloc(), 9)?;
    assert!(rt; rows.holds_below(rt.alloc(), 2, one(0), Target::RowId)?);
    assert!(rt; !rows.holds_below(rt.alloc(), 3, one(0), Target::RowId)?);
    Ok(())
}

// Whether the rows have the one key of `letters`.
fn has_key_of_letters(alloc: Global, rows: &PlainRows) -> Result<bool, AllocError> {
    Ok(rows.covers(alloc)?.keys() == [one(1)].as_slice())
}

#[test]
fn covers_of_fewer_rows(rt: HostRuntime) -> Result<(), Fail> {
    let rows = letter_rows(rt.alloc(), 9)?.below(rt.alloc(), 3)?;
    assert!(rt; rows.live() == [1u32, 2].as_slice());
    assert!(rt; has_key_of_letters(rt.alloc(), &rows)?);
    Ok(())
}

// An update, a delete and an insert.
fn changes(alloc: Global, updated: u32, deleted: u32) -> Result<Batch, AllocError>
    requires updated { 0 < updated }
    requires deleted { 0 < deleted }
{
    let mut ops = Vec::new(alloc);
    ops.push(Op::Update(RowNo::of(updated), two(alloc, b"5", b"q")?))?;
    ops.push(Op::Delete(RowNo::of(deleted)))?;
    ops.push(Op::Insert(two(alloc, b"6", b"q")?))?;
    Batch::of(alloc, &ops)
}

// What becomes of these rows by a batch of two columns.
fn outcome(
    rt: &impl Abort,
    alloc: Global,
    rows: &PlainRows,
    batch: &Batch,
) -> Result<Result<PlainRows, (usize, Why)>, AllocError> {
    assert!(rt; are_as_wide(batch, rows.names().len()));
    rows.after(alloc, batch)
}

#[test]
fn a_batch_is_applied(rt: HostRuntime) -> Result<(), Fail> {
    let rows = letter_rows(rt.alloc(), 9)?;
    let batch = changes(rt.alloc(), 2, 1)?;
    let Ok(after) = outcome(&rt, rt.alloc(), &rows, &batch)? else {
        return Err("refused".into());
    };
    assert!(rt; after.live() == [3u32, 4, 5].as_slice() && after.given().len() == 5);
    assert!(rt; after.nulls() == Nulls::Equal);
    Ok(())
}

// Whether it is the second operation that refuses a batch, since its row is missing.
fn is_second_missing(refusal: (usize, Why)) -> bool {
    refusal.0 == 2 && refusal.1 == Why::Missing
}

#[test]
fn the_first_failure_refuses_a_batch(rt: HostRuntime) -> Result<(), Fail> {
    let rows = letter_rows(rt.alloc(), 4)?;
    let batch = changes(rt.alloc(), 2, 9)?;
    let Err(refusal) = outcome(&rt, rt.alloc(), &rows, &batch)? else {
        return Err("applied".into());
    };
    assert!(rt; is_second_missing(refusal));
    assert!(rt; rows.live().len() == 3);
    Ok(())
}

#[test]
fn samples_are_drawn(rt: HostRuntime) -> Result<(), Fail> {
    let alloc = rt.alloc();
    let mut samples = Samples::from_seed(7);
    let rows = samples.rows(alloc, 4, 3)?;
    assert!(rt; relation_of(alloc, samples.row(alloc, 3)?, &rows)?.is_some());
    let batch = samples.batch(alloc, 5, 3, 9)?;
    assert!(rt; batch.len() == 5 && are_as_wide(&batch, 3));
    Ok(())
}
