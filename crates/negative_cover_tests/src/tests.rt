ghost use Rattle.std.specs.Prelude.{◌≡◌, ◌<◌, ◌≤◌, ◌+◌, IfOk, length};

use negative_cover::{Concerned, NegativeCover, Witness, all_pairs, ended};
use rel_base::{Batch, Codes, ColSet, MOST_COLUMNS, Op, Row, RowNo, Snapshot, Target};
use std::alloc::{AllocError, Global};
use std::process::Abort;
use std::test::Fail;

fn row(rt: &impl Abort, number: u32) -> RowNo {
    assert!(rt; number > 0);
    RowNo::of(number)
}

// The witness of rows 1 and 2 is the one that goes.
fn parts_with_the_second_row(
    rt: &impl Abort,
    alloc: Global,
    cover: &NegativeCover,
    dead: &[RowNo],
) -> Result<(), Fail> {
    let withdrawal = cover.withdrawal(alloc, dead)?;
    assert!(rt; withdrawal.rest.len() == 1);
    assert!(rt; withdrawal.rest[0] == ColSet::empty());
    assert!(rt; withdrawal.gone.len() == 1);
    assert!(rt; withdrawal.gone[0] == ColSet::empty().with(0));
    Ok(())
}

#[test]
fn witnesses_of_a_dead_row_are_told_apart_and_withdrawn(rt: HostRuntime) -> Result<(), Fail> {
    let first = Witness {
        i: row(&rt, 1),
        j: row(&rt, 2),
        agree: ColSet::empty().with(0),
    };
    let second = Witness {
        i: row(&rt, 1),
        j: row(&rt, 3),
        agree: ColSet::empty(),
    };
    let mut cover = NegativeCover::new(rt.alloc());
    assert!(rt; cover.is_empty());
    cover.add_all(&[first, second])?;
    assert!(rt; cover.get(0) == Some(first) && cover.get(1) == Some(second));
    let sets = cover.agree_sets(rt.alloc())?;
    assert!(rt; sets.len() == 2 && sets[0] == first.agree && sets[1] == second.agree);
    assert!(rt; second < first);
    parts_with_the_second_row(&rt, rt.alloc(), &cover, &[row(&rt, 2)])?;
    parts_with_the_second_row(&rt, rt.alloc(), &cover, &[row(&rt, 2), row(&rt, 5)])?;
    parts_with_the_second_row(&rt, rt.alloc(), &cover, &[row(&rt, 7), row(&rt, 2)])?;
    cover.withdraw(&[row(&rt, 2)]);
    assert!(rt; cover.len() == 1);
    assert!(rt; cover.get(0).is_some_and(|left| left == second));
    assert!(rt; cover.get(1).is_none());
    assert!(rt; cover.witnesses().len() == 1);
    Ok(())
}

#[test]
fn a_witness_refutes_what_its_rows_agree_on(rt: HostRuntime) -> Result<(), Fail> {
    let one = ColSet::empty().with(0);
    let mut cover = NegativeCover::new(rt.alloc());
    cover.add(Witness {
        i: row(&rt, 4),
        j: row(&rt, 2),
        agree: one,
    })?;
    let rows = Some((row(&rt, 4), row(&rt, 2)));
    assert!(rt; cover.refutes(Target::Col(1), one) == rows);
    assert!(rt; cover.refutes(Target::RowId, ColSet::empty()) == rows);
    assert!(rt; cover.refutes(Target::Col(0), one) == None);
    assert!(rt; cover.refutes(Target::Col(1), one.with(2)) == None);
    Ok(())
}

// The one witness is of two rows that agree on column 0 alone.
#[test]
fn witnesses_tell_which_targets_an_agree_set_concerns(rt: HostRuntime) -> Result<(), Fail> {
    let zero = ColSet::empty().with(0);
    let mut cover = NegativeCover::new(rt.alloc());
    cover.add(Witness {
        i: row(&rt, 1),
        j: row(&rt, 2),
        agree: zero,
    })?;
    let beside = Concerned::by(&cover, ColSet::empty().with(1), 3);
    assert!(rt; beside.row_id && beside.columns == zero.with(2));
    let inside = Concerned::by(&cover, ColSet::empty(), 3);
    assert!(rt; inside.has(Target::Col(0)) && !inside.has(Target::Col(1)));
    assert!(rt; !inside.has(Target::RowId) && !inside.is_none());
    assert!(rt; Concerned::by(&cover, zero, 3).is_none());
    Ok(())
}

#[test]
fn rows_end_that_are_deleted_or_updated(rt: HostRuntime) -> Result<(), Fail> {
    let alloc = rt.alloc();
    let mut ops = Vec::new(alloc);
    ops.push(Op::Update(row(&rt, 5), Row::copied(alloc, &[b"x"])?))?;
    ops.push(Op::Insert(Row::copied(alloc, &[b"y"])?))?;
    ops.push(Op::Delete(row(&rt, 2)))?;
    let rows = ended(alloc, &Batch::of(alloc, &ops)?)?;
    assert!(rt; rows.len() == 2);
    assert!(rt; rows[0] == row(&rt, 2) && rows[1] == row(&rt, 5));
    Ok(())
}

// Where an allocation is refused, the same call again answers as if nothing had been.
#[test]
fn want_of_memory_changes_nothing(rt: HostRuntime) -> Result<(), Fail> {
    let mut cover = NegativeCover::new(rt.alloc());
    let witness = Witness {
        i: row(&rt, 1),
        j: row(&rt, 2),
        agree: ColSet::empty().with(0),
    };
    if cover.add(witness).is_err() {
        assert!(rt; cover.is_empty());
        cover.add(witness)?;
    }
    let dead = [row(&rt, 2)];
    let withdrawal = match cover.withdrawal(rt.alloc(), &dead) {
        Ok(withdrawal) => withdrawal,
        Err(_) => cover.withdrawal(rt.alloc(), &dead)?,
    };
    assert!(rt; cover.len() == 1);
    assert!(rt; withdrawal.rest.is_empty() && withdrawal.gone.len() == 1);
    Ok(())
}

#[test]
fn late_rows_are_compared_with_all_and_no_agree_set_is_found_twice(
    rt: HostRuntime,
) -> Result<(), Fail> {
    let alloc = rt.alloc();
    let codes = vec![in alloc;
        Codes::of(vec![in alloc; 0u32, 0, 1, 0]?),
        Codes::of(vec![in alloc; 0u32, 0, 0, 0]?),
    ]?;
    let live = vec![in alloc; true, false, true, true]?;
    assert!(rt; codes.len() == 2 && live.len() == 4);
    assert!(rt; codes[0].len() == 4 && codes[1].len() == 4);
    let snapshot = Snapshot::of(codes, live, RowNo::of(5));
    let found = all_pairs(alloc, &snapshot, RowNo::of(3))?;
    assert!(rt; found.len() == 2);
    let (first, second) = (found[0], found[1]);
    assert!(rt; first.i == RowNo::of(1) && first.j == RowNo::of(3));
    assert!(rt; second.i == RowNo::of(1) && second.j == RowNo::of(4));
    assert!(rt; first.agree == ColSet::empty().with(1) && second.agree == ColSet::all(2));
    let none = all_pairs(alloc, &snapshot, RowNo::of(5))?;
    assert!(rt; none.is_empty());
    Ok(())
}

const MOST_TEST_ROWS: u32 = 1000000;

// Codes that look drawn at random, of so many values.
fn draw(codes: &mut [u32], seed: u32, values: u32)
    requires { 0 < values }
{
    let mut state = seed;
    for code in codes.iter_mut() {
        state = state.wrapping_mul(1664525).wrapping_add(1013904223);
        *code = (state >> 16) % values;
    }
}

fn drawn(alloc: Global, rows: u32, seed: u32, values: u32) -> Result<Codes, AllocError>
    requires { 0 < values }
    ensures { IfOk result (λ codes. length codes ≡ rows) }
{
    let mut codes = vec![in alloc; 0; rows as usize]?;
    draw(&mut codes, seed, values);
    Ok(Codes::of(codes))
}

// Row 2 is deleted.
fn table(alloc: Global, columns: u8, rows: u32, values: u32) -> Result<Snapshot, AllocError>
    requires columns { 0 < columns }
    requires narrow { columns ≤ MOST_COLUMNS }
    requires rows { 2 ≤ rows }
    requires few { rows ≤ MOST_TEST_ROWS }
    requires values { 0 < values }
    ensures { IfOk result (λ snapshot. snapshot.to ≡ rows + 1) }
{
    let mut codes = Vec::new(alloc);
    for column in 0..columns {
        codes.push(drawn(alloc, rows, column as u32, values)?)?;
    }
    let mut live = vec![in alloc; true; rows as usize]?;
    live[1] = false;
    Ok(Snapshot::of(codes, live, RowNo::of(rows + 1)))
}

// What two rows agree on, compared column by column.
fn agree_plainly(snapshot: &Snapshot, i: RowNo, j: RowNo) -> ColSet
    requires first { i < snapshot.now.to }
    requires second { j < snapshot.now.to }
{
    let mut agree = ColSet::empty();
    for column in 0..snapshot.columns() {
        if snapshot.code(i, column) == snapshot.code(j, column) {
            agree = agree.with(column);
        }
    }
    agree
}

// What two live rows agree on was found.
fn is_told(snapshot: &Snapshot, i: RowNo, j: RowNo, found: &[Witness]) -> bool
    requires first { i < snapshot.now.to }
    requires second { j < snapshot.now.to }
{
    if !snapshot.is_live(i) || !snapshot.is_live(j) {
        return true;
    }
    let agree = agree_plainly(snapshot, i, j);
    found.iter().any(|pair| pair.agree == agree)
}

// Each late row and each before it.
fn all_are_told(snapshot: &Snapshot, from: u32, found: &[Witness]) -> bool
    requires { 0 < from }
{
    let to = snapshot.to().number();
    for j in from..to {
        for i in 1..j {
            if !is_told(snapshot, RowNo::of(i), RowNo::of(j), found) {
                return false;
            }
        }
    }
    true
}

fn are_as_compared_plainly(rt: &impl Abort, snapshot: &Snapshot, found: &[Witness]) {
    for pair in found.iter() {
        assert!(rt; pair.i < pair.j && pair.j < snapshot.to());
        assert!(rt; pair.agree == agree_plainly(snapshot, pair.i, pair.j));
    }
}

// On both sides of whole words of columns.
#[test]
fn words_of_columns_are_compared(rt: HostRuntime) -> Result<(), Fail> {
    let alloc = rt.alloc();
    for columns in [1u8, 3, 31, 32, 33, 64, 128] {
        let snapshot = table(alloc, columns, 9, 2)?;
        for from in [1, 7] {
            let found = all_pairs(alloc, &snapshot, RowNo::of(from))?;
            assert!(rt; all_are_told(&snapshot, from, &found));
            are_as_compared_plainly(&rt, &snapshot, &found);
        }
    }
    Ok(())
}

#[test]
fn a_few_late_rows_are_compared_with_many(rt: HostRuntime) -> Result<(), Fail> {
    let alloc = rt.alloc();
    for columns in [1u8, 32, 33, 128] {
        let snapshot = table(alloc, columns, 300, 2)?;
        let found = all_pairs(alloc, &snapshot, RowNo::of(298))?;
        assert!(rt; all_are_told(&snapshot, 298, &found));
        are_as_compared_plainly(&rt, &snapshot, &found);
    }
    Ok(())
}

// More rows than one block takes.
#[test]
fn late_rows_meet_each_block_of_rows(rt: HostRuntime) -> Result<(), Fail> {
    let alloc = rt.alloc();
    let snapshot = table(alloc, 5, 1100, 3)?;
    let found = all_pairs(alloc, &snapshot, RowNo::of(1099))?;
    assert!(rt; all_are_told(&snapshot, 1099, &found));
    are_as_compared_plainly(&rt, &snapshot, &found);
    Ok(())
}
