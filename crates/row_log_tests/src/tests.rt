// The log beside the plain rows, on small drawn relations and batches.
ghost use Rattle.std.specs.Prelude.{◌≡◌, ◌≢◌, ◌<◌, length};
ghost use Rattle.rel_base.specs.RowState.{width};

use plain_base::{PlainRows, Samples, agree, are_as_wide, is_included, relation_of};
use rel_base::{Batch, Codes, ColSet, Limits, Nulls, Relation, Row, RowNo, Snapshot, Why};
use row_log::{Applying, LiveCells, RowLog};
use std::alloc::{AllocError, Global};
use std::process::Abort;
use std::test::Fail;
use std::thread::Threads;

// A relation of three columns and four rows, where they are one.
fn drawn_from(alloc: Global, samples: &mut Samples) -> Result<Option<Relation>, AllocError> {
    let names = samples.row(alloc, 3)?;
    relation_of(alloc, names, &samples.rows(alloc, 4, 3)?)
}

// Such a relation.
fn drawn(alloc: Global, seed: u64) -> Result<Relation, Fail> {
    let relation = drawn_from(alloc, &mut Samples::from_seed(seed))?;
    Ok(relation.ok_or("no relation")?)
}

// Such a relation as a log and as plain rows, where no number above 6 is given.
fn opened(alloc: Global, seed: u64, nulls: Nulls) -> Result<(RowLog, PlainRows), Fail> {
    let limits = Limits::smaller(3, 6, 9, 99);
    let log = RowLog::open_with(alloc, drawn(alloc, seed)?, limits, nulls)?;
    let rows = PlainRows::opened(alloc, nulls, limits, drawn(alloc, seed)?)?;
    Ok((log, rows))
}

fn is_same(log: &RowLog, rows: &PlainRows) -> bool {
    let given = rows.given();
    let live = rows.live();
    if log.next().number() as usize != given.len() + 1 || log.live_len() as usize != live.len() {
        return false;
    }
    for (place, row) in given.iter().enumerate() {
        let number = RowNo::of(place as u32 + 1);
        if log.is_live(number) != live.contains(&number.number())
            || !has_same_cells(log, number, row)
        {
            return false;
        }
    }
    true
}

fn has_same_cells(log: &RowLog, number: RowNo, row: &Row) -> bool {
    if number >= log.next() || row.len() != log.names().len() {
        return false;
    }
    for column in 0..log.names().len() {
        if log.cell(number, column as u8).bytes() != row.cell(column) {
            return false;
        }
    }
    true
}

// What the log answers to a batch, which is tried once more where memory ran out.
fn answer_to(rt: &impl Abort, log: &mut RowLog, batch: &Batch) -> Applying {
    assert!(rt; are_as_wide(batch, log.names().len()));
    match log.apply(batch) {
        Applying::NoMemory => {
            assert!(rt; are_as_wide(batch, log.names().len()));
            log.apply(batch)
        }
        answer => answer,
    }
}

// Whether an answer of the log is the plain one, and it has the plain rows afterwards.
fn is_plain_answer(
    log: &RowLog,
    rows: &PlainRows,
    answer: Applying,
    outcome: &Result<PlainRows, (usize, Why)>,
) -> bool {
    match (answer, outcome) {
        (Applying::Applied { .. }, Ok(after)) => is_same(log, after),
        (Applying::Refused { at, why }, Err((place, cause))) => {
            at == *place as u64 && why == *cause && is_same(log, rows)
        }
        _ => false,
    }
}

// Whether the log answers a batch so.
fn answers_the_same(
    rt: &impl Abort,
    alloc: Global,
    log: &mut RowLog,
    rows: &PlainRows,
    batch: &Batch,
) -> Result<bool, Fail> {
    assert!(rt; are_as_wide(batch, rows.names().len()));
    let outcome = rows.after(alloc, batch)?;
    let answer = answer_to(rt, log, batch);
    Ok(is_plain_answer(log, rows, answer, &outcome))
}

// Whether it does so for a drawn batch of three operations.
fn answers_a_drawn_batch(
    rt: &impl Abort,
    alloc: Global,
    log: &mut RowLog,
    rows: &PlainRows,
    seed: u64,
) -> Result<bool, Fail> {
    let batch = Samples::from_seed(seed).batch(alloc, 3, 3, 5)?;
    answers_the_same(rt, alloc, log, rows, &batch)
}

// Whether a drawn batch is applied to a drawn relation as plainly.
fn is_applied_as_plainly(rt: &impl Abort, alloc: Global, seed: u64) -> Result<bool, Fail> {
    let (mut log, rows) = opened(alloc, seed, Nulls::Equal)?;
    answers_a_drawn_batch(rt, alloc, &mut log, &rows, seed.wrapping_add(100))
}

#[test]
fn batches_are_applied_as_plainly(rt: HostRuntime) -> Result<(), Fail> {
    for seed in 0..60 {
        assert!(rt;
            is_applied_as_plainly(&rt, rt.alloc(), seed)?,
            "seed {seed}"
        );
    }
    Ok(())
}

// Applies a batch and takes it back.
fn apply_and_undo(rt: &impl Abort, log: &mut RowLog, batch: &Batch)
    ensures { log.new ≡ log.old }
{
    assert!(rt; are_as_wide(batch, log.names().len()));
    if let Applying::Applied { .. } = log.apply(batch) {
        log.undo(batch);
    }
}

// Whether two rows, by their places, agree as they plainly do.
fn agrees(log: &RowLog, rows: &PlainRows, first: usize, second: usize) -> bool {
    let given = rows.given();
    if first >= second || second >= given.len() || given.len() as u32 >= log.next().number() {
        return false;
    }
    let (i, j) = (RowNo::of(first as u32 + 1), RowNo::of(second as u32 + 1));
    given[first].len() == 3
        && given[second].len() == 3
        && log.agree(i, j) == agree(rows.nulls(), 3, &given[first], &given[second])
}

// Whether each two of the first four rows do.
fn all_agree(log: &RowLog, rows: &PlainRows) -> bool {
    for second in 1..4 {
        for first in 0..second {
            if !agrees(log, rows, first, second) {
                return false;
            }
        }
    }
    true
}

// Whether the rows of a drawn relation do.
fn drawn_rows_agree(alloc: Global, seed: u64, nulls: Nulls) -> Result<bool, Fail> {
    let (log, rows) = opened(alloc, seed, nulls)?;
    Ok(all_agree(&log, &rows))
}

#[test]
fn rows_agree_as_plainly(rt: HostRuntime) -> Result<(), Fail> {
    for nulls in [Nulls::Equal, Nulls::Distinct] {
        for seed in 0..20 {
            assert!(rt;
                drawn_rows_agree(rt.alloc(), seed, nulls)?,
                "{nulls:?}, seed {seed}"
            );
        }
    }
    Ok(())
}

// Applies a drawn batch and takes it back.
fn apply_and_undo_drawn(
    rt: &impl Abort,
    alloc: Global,
    log: &mut RowLog,
    samples: &mut Samples,
) -> Result<(), AllocError> {
    let batch = samples.batch(alloc, 2, 3, 3)?;
    apply_and_undo(rt, log, &batch);
    Ok(())
}

// Whether the log answers a drawn batch as the plain rows do.
fn answers_a_further_batch(
    rt: &impl Abort,
    alloc: Global,
    log: &mut RowLog,
    rows: &PlainRows,
    samples: &mut Samples,
) -> Result<bool, Fail> {
    let batch = samples.batch(alloc, 2, 3, 3)?;
    answers_the_same(rt, alloc, log, rows, &batch)
}

// Asserts that after a batch was taken back the rows are those from before, and a further batch is answered as plainly.
fn is_taken_back(rt: &impl Abort, alloc: Global, seed: u64) -> Result<(), Fail> {
    let (mut log, rows) = opened(alloc, seed, Nulls::Distinct)?;
    let mut samples = Samples::from_seed(seed.wrapping_add(200));
    apply_and_undo_drawn(rt, alloc, &mut log, &mut samples)?;
    assert!(rt;
        is_same(&log, &rows) && all_agree(&log, &rows),
        "seed {seed}"
    );
    assert!(rt;
        answers_a_further_batch(rt, alloc, &mut log, &rows, &mut samples)?,
        "seed {seed}"
    );
    Ok(())
}

#[test]
fn a_batch_is_taken_back_with_its_codes(rt: HostRuntime) -> Result<(), Fail> {
    for seed in 0..60 {
        is_taken_back(&rt, rt.alloc(), seed)?;
    }
    Ok(())
}

// Whether of the numbers below 6 the same are live.
fn has_live_rows(snapshot: &Snapshot, rows: &PlainRows) -> bool {
    for number in 1..6u32 {
        if snapshot.is_live(RowNo::of(number)) != rows.live().contains(&number) {
            return false;
        }
    }
    true
}

// Asserts that the snapshot is of this log and has these live rows.
fn is_snapshot_of(rt: &impl Abort, snapshot: &Snapshot, log: &RowLog, rows: &PlainRows) {
    assert!(rt; snapshot.to() == log.next());
    assert!(rt; snapshot.columns() == 3);
    assert!(rt; has_live_rows(snapshot, rows));
}

#[test]
fn a_snapshot_has_the_live_rows(rt: HostRuntime) -> Result<(), Fail> {
    let (log, rows) = opened(rt.alloc(), 7, Nulls::Equal)?;
    let snapshot = log.snapshot(rt.alloc())?;
    is_snapshot_of(&rt, &snapshot, &log, &rows);
    Ok(())
}

fn has_cell(cells: &Row, cell: &[u8]) -> bool {
    for place in 0..cells.len() {
        if cells.cell(place) == cell {
            return true;
        }
    }
    false
}

// Whether the cells are those of these parts of one cell that are not NULL.
fn are_cells_of(cells: &Row, parts: &[Row]) -> bool {
    let mut filled = 0usize;
    for part in parts {
        if part.len() != 1 {
            return false;
        }
        if !part.cell(0).is_empty() {
            if !has_cell(cells, part.cell(0)) {
                return false;
            }
            filled = filled.saturating_add(1);
        }
    }
    filled == cells.len()
}

// Whether the distinct cells of the first column are the parts of its live rows.
fn has_parts(
    rt: &impl Abort,
    alloc: Global,
    log: &RowLog,
    rows: &PlainRows,
) -> Result<bool, AllocError> {
    assert!(rt; log.names().len() == 3);
    assert!(rt; rows.names().len() == 3);
    let cells = log.distinct_cells(alloc, 0)?;
    Ok(are_cells_of(&cells, &rows.projection(alloc, ColSet::of_bits(1))?))
}

// Whether they are in a drawn relation.
fn drawn_has_parts(rt: &impl Abort, alloc: Global, seed: u64) -> Result<bool, Fail> {
    let (log, rows) = opened(alloc, seed, Nulls::Equal)?;
    Ok(has_parts(rt, alloc, &log, &rows)?)
}

#[test]
fn distinct_cells_are_the_parts_of_live_rows(rt: HostRuntime) -> Result<(), Fail> {
    for seed in 0..20 {
        assert!(rt; drawn_has_parts(&rt, rt.alloc(), seed)?, "seed {seed}");
    }
    Ok(())
}

// The cells of these rows in a column.
fn cells_in<'a>(
    alloc: Global,
    rows: &'a [Row],
    column: usize,
) -> Result<Vec<&'a [u8]>, AllocError> {
    let mut cells = Vec::new(alloc);
    for row in rows {
        if column < row.len() {
            cells.push(row.cell(column))?;
        }
    }
    Ok(cells)
}

// The cells of the live rows in a column.
fn live_column(alloc: Global, rows: &PlainRows, column: usize) -> Result<Row, AllocError> {
    let live = rows.live_rows(alloc)?;
    let cells = cells_in(alloc, &live, column)?;
    Row::copied(alloc, &cells)
}

// Whether a pair of columns is told to be an inclusion as it plainly is, with a hint kept from before, the one that it gives, and
// one that is out of range.
fn tells_inclusion(
    live: &LiveCells,
    columns: &[Row],
    dependent: u8,
    referenced: u8,
    kept: &mut u32,
) -> bool
    requires dependent { dependent < width live.now }
    requires referenced { referenced < width live.now }
    requires apart { dependent ≢ referenced }
    requires first { dependent < length columns.now }
    requires second { referenced < length columns.now }
{
    let wanted = is_included(columns, dependent as usize, referenced as usize);
    if live.lacking(dependent, referenced, u32::MAX).is_none() != wanted {
        return false;
    }
    match live.lacking(dependent, referenced, *kept) {
        Some(code) => {
            *kept = code;
            !wanted && live.lacking(dependent, referenced, code) == Some(code)
        }
        None => wanted,
    }
}

// Whether each pair of three columns is. The hints stand by pair.
fn tells_inclusions(
    alloc: Global,
    log: &RowLog,
    rows: &PlainRows,
    hints: &mut [u32; 9],
) -> Result<bool, Fail> {
    let mut columns = Vec::new(alloc);
    for column in 0..3usize {
        columns.push(live_column(alloc, rows, column)?)?;
    }
    if log.names().len() != 3 || columns.len() != 3 {
        return Ok(false);
    }
    let live = log.live_cells(alloc)?;
    for dependent in 0..3u8 {
        for referenced in 0..3u8 {
            let kept = &mut hints[dependent as usize * 3 + referenced as usize];
            if dependent != referenced
                && !tells_inclusion(&live, &columns, dependent, referenced, kept)
            {
                return Ok(false);
            }
        }
    }
    Ok(true)
}

// The plain rows after a batch that both sides apply.
fn applied_to_both(
    rt: &impl Abort,
    alloc: Global,
    log: &mut RowLog,
    rows: &PlainRows,
    batch: &Batch,
) -> Result<Option<PlainRows>, AllocError> {
    assert!(rt; are_as_wide(batch, rows.names().len()));
    let outcome = rows.after(alloc, batch)?;
    Ok(match (answer_to(rt, log, batch), outcome) {
        (Applying::Applied { .. }, Ok(after)) => Some(after),
        _ => None,
    })
}

// The plain rows after a drawn batch, where both sides apply it.
fn after_a_drawn_batch(
    rt: &impl Abort,
    alloc: Global,
    log: &mut RowLog,
    rows: &PlainRows,
    seed: u64,
) -> Result<Option<PlainRows>, AllocError> {
    let batch = Samples::from_seed(seed).batch(alloc, 2, 3, 3)?;
    applied_to_both(rt, alloc, log, rows, &batch)
}

// Asserts that inclusions are told as plainly before and after a drawn batch.
fn tells_before_and_after(
    rt: &impl Abort,
    alloc: Global,
    seed: u64,
    nulls: Nulls,
) -> Result<(), Fail> {
    let (mut log, rows) = opened(alloc, seed, nulls)?;
    let mut hints = [0; 9];
    assert!(rt;
        tells_inclusions(alloc, &log, &rows, &mut hints)?,
        "seed {seed}"
    );
    let after = after_a_drawn_batch(rt, alloc, &mut log, &rows, seed.wrapping_add(300))?;
    if let Some(after) = after {
        assert!(rt;
            tells_inclusions(alloc, &log, &after, &mut hints)?,
            "seed {seed}"
        );
    }
    Ok(())
}

#[test]
fn inclusions_are_told_as_plainly_before_and_after_a_batch(rt: HostRuntime) -> Result<(), Fail> {
    for nulls in [Nulls::Equal, Nulls::Distinct] {
        for seed in 0..12 {
            tells_before_and_after(&rt, rt.alloc(), seed, nulls)?;
        }
    }
    Ok(())
}

// Whether two lists have the same codes.
fn are_equal_codes(one: &Codes, other: &Codes) -> bool {
    if one.len() != other.len() {
        return false;
    }
    for place in 0..one.len() {
        if one.get(place) != other.get(place) {
            return false;
        }
    }
    true
}

// Whether two snapshots have the same rows under the same codes.
fn are_coded_alike(first: &Snapshot, second: &Snapshot) -> bool {
    if first.columns() != second.columns() || first.to() != second.to() {
        return false;
    }
    for column in 0..first.columns() {
        if !are_equal_codes(first.column(column), second.column(column)) {
            return false;
        }
    }
    true
}

// Whether two logs do.
fn has_same_codes(alloc: Global, one: &RowLog, other: &RowLog) -> Result<bool, AllocError> {
    let first = one.snapshot(alloc)?;
    let second = other.snapshot(alloc)?;
    Ok(are_coded_alike(&first, &second))
}

// Whether so many workers code a drawn relation as it is coded in this log.
fn is_coded_alike_by<R: Threads + Sync>(
    rt: &R,
    alloc: Global,
    one: &RowLog,
    seed: u64,
    workers: u8,
) -> Result<bool, Fail> {
    let relation = drawn(alloc, seed)?;
    let limits = Limits::standard();
    let other = RowLog::open_by(rt, alloc, relation, limits, Nulls::Distinct, workers)?;
    Ok(has_same_codes(alloc, one, &other)?)
}

#[test]
fn columns_have_the_same_codes_however_many_workers_code_them(rt: HostRuntime) -> Result<(), Fail> {
    let alloc = rt.alloc();
    for seed in 0..4u64 {
        let relation = drawn(alloc, seed)?;
        let one = RowLog::open_with(alloc, relation, Limits::standard(), Nulls::Distinct)?;
        for workers in [0u8, 1, 2, 3, 16] {
            assert!(rt;
                is_coded_alike_by(&rt, alloc, &one, seed, workers)?,
                "{workers} workers"
            );
        }
    }
    Ok(())
}
