// Scripts of two passes at one desk, with the candidates after each call.
ghost use Rattle.std.specs.Prelude.{◌≡◌, ◌<◌, IfOk};
ghost use Rattle.desk_tests.specs.Tests.{AreReady};

use super::candidates::{Found, candidates_of};
use super::party::{Party, apply, draws, is_held, mark, meet, refute, release, waits};
use super::{columns, deletion, insertion, opened};
use cover_core::{Applying, Book, Marking, Refutation, Release};
use desk::Desk;
use rel_base::{Batch, ColSet, Fd, Op, Row, RowNo, Target, Why};
use std::alloc::{AllocError, Global};
use std::process::Abort;
use std::sync::Wait;
use std::test::Fail;

// What two rows tell.
#[derive(Clone, Copy)]
enum Told {
    News,
    Nothing,
    // That this one of them is not live.
    Dead(u32),
}

// A call, with what it is to answer. The worker makes it, unless it changes the rows.
#[derive(Clone, Copy)]
enum Step {
    // A draw answers the job for this dependency and the rows below a number, with all rows new.
    Draw(Target, &'static [u8], u32),
    // A draw answers that all is held, with this candidate first.
    Held(Target, &'static [u8]),
    // Two rows refute what they do.
    Refute(u32, u32, Told),
    // The feeder inserts a row with these cells.
    Insert(&'static [u8], &'static [u8]),
    // The feeder deletes a row.
    Delete(u32),
    // The feeder inserts a row and deletes one that there is not.
    Fail,
    // The feeder hires a pass that the worker joins.
    Meet,
    // The job that was drawn first, second and so on is validated and marked.
    Mark(usize, Marking),
    // That job is given back.
    Release(usize, Release),
    // A settle answers that this candidate, known to hold below a number, is the first unfinished one.
    Wait(Target, &'static [u8], u32),
}

// A candidate: target, columns, the number below which it is known to hold, and whether it is held.
#[derive(Clone, Copy)]
struct Left(Target, &'static [u8], u32, bool);

// A call with the candidates that it leaves.
#[derive(Clone, Copy)]
struct Turn(Step, &'static [Left]);

const ROW: Target = Target::RowId;

const K: Target = Target::Col(0);

const V: Target = Target::Col(1);

static OPENED: [Left; 3] = [
    Left(ROW, &[], 1, false),
    Left(K, &[], 1, false),
    Left(V, &[], 1, false),
];

const FIRST_HELD: &[Left] = &[
    Left(ROW, &[], 1, true),
    Left(K, &[], 1, false),
    Left(V, &[], 1, false),
];

const KEY_V: &[Left] = &[Left(ROW, &[1], 1, false), Left(K, &[], 1, false)];

const KEY_V_HELD: &[Left] = &[Left(ROW, &[1], 1, true), Left(K, &[], 1, false)];

const V_TO_K: &[Left] = &[Left(ROW, &[1], 1, true), Left(K, &[1], 1, false)];

const BOTH_HELD: &[Left] = &[Left(ROW, &[1], 1, true), Left(K, &[1], 1, true)];

const AFTER_DELETION: &[Left] = &[
    Left(ROW, &[0], 1, false),
    Left(ROW, &[1], 1, true),
    Left(K, &[1], 1, true),
    Left(V, &[0], 1, false),
];

const AFTER_MARK: &[Left] = &[
    Left(ROW, &[0], 1, false),
    Left(ROW, &[1], 4, false),
    Left(K, &[1], 1, true),
    Left(V, &[0], 1, false),
];

const AFTER_RELEASE: &[Left] = &[
    Left(ROW, &[0], 1, false),
    Left(ROW, &[1], 4, false),
    Left(K, &[1], 1, false),
    Left(V, &[0], 1, false),
];

// A deletion beside a late verdict.
static BESIDE: [Turn; 15] = [
    Turn(Step::Draw(ROW, &[], 4), FIRST_HELD),
    Turn(Step::Refute(1, 2, Told::News), KEY_V),
    Turn(Step::Draw(ROW, &[1], 4), KEY_V_HELD),
    Turn(Step::Refute(1, 3, Told::News), V_TO_K),
    Turn(Step::Draw(K, &[1], 4), BOTH_HELD),
    Turn(Step::Held(ROW, &[1]), BOTH_HELD),
    Turn(Step::Delete(2), AFTER_DELETION),
    Turn(Step::Meet, AFTER_DELETION),
    Turn(Step::Refute(1, 2, Told::Dead(2)), AFTER_DELETION),
    Turn(Step::Mark(1, Marking::Marked), AFTER_MARK),
    Turn(Step::Wait(ROW, &[0], 1), AFTER_MARK),
    Turn(Step::Release(2, Release::Released), AFTER_RELEASE),
    Turn(Step::Refute(1, 3, Told::Nothing), AFTER_RELEASE),
    Turn(Step::Insert(b"1", b"z"), AFTER_RELEASE),
    Turn(Step::Wait(ROW, &[0], 1), AFTER_RELEASE),
];

const NO_K: &[Left] = &[Left(ROW, &[0, 1], 1, false)];

const BACK: &[Left] = &[Left(ROW, &[1], 1, false), Left(K, &[], 1, false)];

const BACK_MARKED: &[Left] = &[Left(ROW, &[1], 4, false), Left(K, &[], 1, false)];

// A job comes late, twice, and after its candidate went and came back.
static LATE: [Turn; 14] = [
    Turn(Step::Refute(1, 2, Told::News), KEY_V),
    Turn(Step::Draw(ROW, &[1], 4), KEY_V_HELD),
    Turn(Step::Insert(b"9", b"x"), KEY_V_HELD),
    Turn(Step::Meet, KEY_V_HELD),
    Turn(Step::Refute(1, 4, Told::News), NO_K),
    Turn(Step::Mark(0, Marking::Dropped), NO_K),
    Turn(Step::Release(0, Release::Dropped), NO_K),
    Turn(Step::Delete(4), BACK),
    Turn(Step::Meet, BACK),
    Turn(Step::Mark(0, Marking::Marked), BACK_MARKED),
    Turn(Step::Mark(0, Marking::Marked), BACK_MARKED),
    Turn(Step::Release(0, Release::Released), BACK_MARKED),
    Turn(Step::Wait(ROW, &[1], 4), BACK_MARKED),
    Turn(Step::Refute(4, 1, Told::Dead(4)), BACK_MARKED),
];

// Nothing changes where a batch is refused.
static REFUSED: [Turn; 3] = [
    Turn(Step::Refute(1, 2, Told::News), KEY_V),
    Turn(Step::Draw(ROW, &[1], 4), KEY_V_HELD),
    Turn(Step::Fail, KEY_V_HELD),
];

fn is_told(refutation: Refutation, told: Told) -> bool {
    match told {
        Told::News => refutation == Refutation::Booked,
        Told::Nothing => refutation == Refutation::Known,
        Told::Dead(number) => 0 < number && refutation == Refutation::Gone(RowNo::of(number)),
    }
}

// The batch that inserts a row and deletes one that there is not.
fn failing(alloc: Global) -> Result<Batch, AllocError> {
    let row = Row::copied(alloc, &[b"3", b"w"])?;
    let mut ops = Vec::with_capacity(alloc, 2)?;
    ops.push(Op::Insert(row))?;
    ops.push(Op::Delete(RowNo::of(9)))?;
    Batch::of(alloc, &ops)
}

// The feeder applies the step's batch, and what it is answered is compared.
fn feeds<R: Wait + Abort>(
    rt: &R,
    alloc: Global,
    desk: &Desk,
    party: &mut Party,
    step: Step,
) -> Result<bool, AllocError>
    requires { AreReady desk.now party.old.feeder.pass party.old.worker.pass party.old.left party.old.jobs.items }
    ensures { IfOk result (λ _. AreReady desk.now party.new.feeder.pass party.new.worker.pass party.new.left party.new.jobs.items) }
{
    let (batch, wanted) = batch_of(rt, alloc, step)?;
    Ok(apply(rt, desk, party, batch)? == wanted)
}

// The batch of a step, and what it is to be answered.
fn batch_of(rt: &impl Abort, alloc: Global, step: Step) -> Result<(Batch, Applying), AllocError> {
    match step {
        Step::Insert(k, v) => {
            let (inserted, deleted) = (1, 0);
            Ok((
                insertion(alloc, k, v)?,
                Applying::Applied { inserted, deleted },
            ))
        }
        Step::Delete(number) => {
            let (inserted, deleted) = (0, 1);
            Ok((
                deletion(rt, alloc, number)?,
                Applying::Applied { inserted, deleted },
            ))
        }
        _ => {
            let (at, why) = (2, Why::Missing);
            Ok((failing(alloc)?, Applying::Refused { at, why }))
        }
    }
}

// Makes a call, and tells whether it answers what it is to.
fn answers<R: Wait + Abort>(
    rt: &R,
    alloc: Global,
    desk: &Desk,
    party: &mut Party,
    step: Step,
) -> Result<bool, AllocError>
    requires { AreReady desk.now party.old.feeder.pass party.old.worker.pass party.old.left party.old.jobs.items }
    ensures { IfOk result (λ _. AreReady desk.now party.new.feeder.pass party.new.worker.pass party.new.left party.new.jobs.items) }
{
    match step {
        Step::Draw(target, left, to) => draws(rt, desk, party, target, columns(left), to),
        Step::Held(target, left) => is_held(rt, desk, party, target, columns(left)),
        Step::Refute(i, j, told) => Ok(is_told(refute(rt, desk, party, i, j)?, told)),
        Step::Meet => {
            meet(rt, desk, party);
            Ok(true)
        }
        Step::Mark(place, wanted) => Ok(mark(rt, alloc, desk, party, place)? == Some(wanted)),
        Step::Release(place, wanted) => Ok(release(rt, desk, party, place)? == Some(wanted)),
        Step::Wait(target, left, number) => {
            waits(rt, desk, party, target, columns(left), number)
        }
        _ => feeds(rt, alloc, desk, party, step),
    }
}

// Makes these calls, one after another.
fn play<R: Wait + Abort>(
    rt: &R,
    alloc: Global,
    desk: &Desk,
    party: &mut Party,
    turns: &[Turn],
) -> Result<(), AllocError>
    requires { AreReady desk.now party.old.feeder.pass party.old.worker.pass party.old.left party.old.jobs.items }
    ensures { IfOk result (λ _. AreReady desk.now party.new.feeder.pass party.new.worker.pass party.new.left party.new.jobs.items) }
{
    for (place, turn) in turns.iter().enumerate() {
        let fits = answers(rt, alloc, desk, party, turn.0)?;
        assert!(rt; fits, "call {place}");
    }
    Ok(())
}

// The book after these calls, with all passes joined.
fn book_after<R: Wait + Abort>(
    rt: &R,
    alloc: Global,
    number: u32,
    turns: &[Turn],
) -> Result<Book, AllocError> {
    let (desk, mut feeder) = opened(rt, alloc, 4)?;
    assert!(rt; 0 < number && number < 4);
    let worker = desk.hire(&mut feeder, number);
    let jobs = Vec::new(alloc);
    let mut party = Party {
        feeder,
        worker,
        left: number,
        jobs,
    };
    play(rt, alloc, &desk, &mut party, turns)?;
    let Party {
        mut feeder,
        worker,
        ..
    } = party;
    desk.join(&mut feeder, worker);
    Ok(desk.close(rt, feeder))
}

// Whether these candidates were found.
fn are_left(found: &[Found], wanted: &[Left]) -> bool {
    found.len() == wanted.len()
        && found
            .iter()
            .zip(wanted)
            .all(|(found, left)| is_left(found, left))
}

fn is_left(found: &Found, left: &Left) -> bool {
    found.target == left.0
        && found.left == columns(left.1)
        && found.upto == left.2
        && found.held == left.3
}

// Plays the calls up to each of them, and compares what candidates it leaves.
fn follow<R: Wait + Abort>(
    rt: &R,
    alloc: Global,
    number: u32,
    turns: &[Turn],
) -> Result<(), AllocError> {
    for (place, turn) in turns.iter().enumerate() {
        let book = book_after(rt, alloc, number, &turns[..place + 1])?;
        let found = candidates_of(rt, alloc, book)?;
        assert!(rt;
            are_left(found.as_slice(), turn.1),
            "candidates after call {place}"
        );
    }
    Ok(())
}

#[test]
fn each_call_leaves_these_candidates(rt: HostRuntime) -> Result<(), Fail> {
    let book = book_after(&rt, rt.alloc(), 2, &[])?;
    let found = candidates_of(&rt, rt.alloc(), book)?;
    assert!(rt; are_left(found.as_slice(), &OPENED));
    follow(&rt, rt.alloc(), 2, &BESIDE)?;
    follow(&rt, rt.alloc(), 3, &LATE)?;
    follow(&rt, rt.alloc(), 2, &REFUSED)?;
    Ok(())
}

// Whether a book finds this one key and these dependencies. It tries once more where memory is wanting.
fn finishes(mut book: Book, key: ColSet, fds: &[Fd]) -> Result<bool, AllocError> {
    let found = match book.finish() {
        Ok(found) => found,
        Err(_) => book.finish()?,
    };
    let keys = found.keys();
    Ok(keys.len() == 1 && keys[0] == key && found.fds() == fds)
}

// Whether these calls leave these candidates, one witness, and 5 as the next number.
fn leaves<R: Wait + Abort>(
    rt: &R,
    alloc: Global,
    number: u32,
    turns: &[Turn],
    wanted: &[Left],
) -> Result<bool, AllocError> {
    let book = book_after(rt, alloc, number, turns)?;
    let is_noted = book.witnesses().len() == 1 && book.rows().next().number() == 5;
    let found = candidates_of(rt, alloc, book)?;
    Ok(is_noted && are_left(found.as_slice(), wanted))
}

// Where memory is refused to a draw, a refutation or a batch, the call is made again: each answers, and all of them leave, what
// they do with memory to spare.
#[test]
fn calls_beside_a_batch_may_be_made_again(rt: HostRuntime) -> Result<(), Fail> {
    assert!(rt; leaves(&rt, rt.alloc(), 2, &BESIDE, AFTER_RELEASE)?);
    Ok(())
}

#[test]
fn calls_before_late_jobs_may_be_made_again(rt: HostRuntime) -> Result<(), Fail> {
    assert!(rt; leaves(&rt, rt.alloc(), 3, &LATE, BACK_MARKED)?);
    Ok(())
}

#[test]
fn a_closed_book_finds_its_covers(rt: HostRuntime) -> Result<(), Fail> {
    let book = book_after(&rt, rt.alloc(), 2, &BESIDE)?;
    assert!(rt; finishes(book, columns(&[0, 1]), &[])?);
    Ok(())
}

#[test]
fn a_book_finds_its_covers_after_late_jobs(rt: HostRuntime) -> Result<(), Fail> {
    let book = book_after(&rt, rt.alloc(), 3, &LATE)?;
    let (left, right) = (columns(&[1]), 0);
    assert!(rt; finishes(book, left, &[Fd { left, right }])?);
    Ok(())
}

#[test]
fn a_refused_batch_changes_nothing(rt: HostRuntime) -> Result<(), Fail> {
    let book = book_after(&rt, rt.alloc(), 2, &REFUSED)?;
    let rows = book.rows();
    assert!(rt; rows.next().number() == 4 && rows.live_len() == 3);
    assert!(rt; book.witnesses().len() == 1);
    Ok(())
}
