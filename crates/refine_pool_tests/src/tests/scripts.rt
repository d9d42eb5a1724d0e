// Phases whose workers are held at the gate: they run beside each other, and beside the batches.
use super::gates::{Hold, HoldingGate, Stop};
use super::{book_of, columns, deletion, insertion, letters, run};
use cover_core::{Applying, Book, Settling};
use ports::{OpenGate, Point};
use refine_pool::Refined;
use rel_base::{Batch, ColSet, Fd, Op, Row, RowNo};
use std::alloc::{AllocError, Global};
use std::process::Abort;
use std::sync::Wait;
use std::test::Fail;
use std::thread::Threads;

const FED: Stop = Stop {
    who: 0,
    point: Point::Fed,
};

const FIRST_DRAWN: Stop = Stop {
    who: 1,
    point: Point::Drawn,
};

const FIRST_JUDGED: Stop = Stop {
    who: 1,
    point: Point::Judged,
};

const SECOND_DRAWN: Stop = Stop {
    who: 2,
    point: Point::Drawn,
};

const SECOND_JUDGED: Stop = Stop {
    who: 2,
    point: Point::Judged,
};

// What is fed.
#[derive(Clone, Copy)]
enum Feed {
    Nothing,
    // A batch without operations.
    Empty,
    // Deletes row 2.
    Deletion,
    // Deletes row 2, inserts one, and deletes row 1.
    Three,
}

// The rows that a script begins with.
#[derive(Clone, Copy)]
enum Rows {
    // Three of two columns.
    Letters,
    // One of 64 columns.
    Wide,
}

#[derive(Clone, Copy)]
struct Script {
    rows: Rows,
    feed: Feed,
    workers: u32,
    holds: &'static [Hold],
    // Whether all who are held are sure to come: there are jobs for all of them.
    all_come: bool,
}

// Each of two workers is held at its first draws until the other has drawn as often.
static ONE_EACH: [Hold; 2] = [
    Hold {
        stop: FIRST_DRAWN,
        last: 1,
        until: SECOND_DRAWN,
        times: None,
    },
    Hold {
        stop: SECOND_DRAWN,
        last: 1,
        until: FIRST_DRAWN,
        times: None,
    },
];

static MANY_EACH: [Hold; 2] = [
    Hold {
        stop: FIRST_DRAWN,
        last: 32,
        until: SECOND_DRAWN,
        times: None,
    },
    Hold {
        stop: SECOND_DRAWN,
        last: 32,
        until: FIRST_DRAWN,
        times: None,
    },
];

static DRAWN_AFTER_FED: [Hold; 1] = [Hold {
    stop: FIRST_DRAWN,
    last: 1,
    until: FED,
    times: None,
}];

static FED_AFTER_DRAWN: [Hold; 1] = [Hold {
    stop: FED,
    last: 1,
    until: FIRST_DRAWN,
    times: None,
}];

static FED_AFTER_MANY: [Hold; 4] = [
    Hold {
        stop: FIRST_DRAWN,
        last: 8,
        until: SECOND_DRAWN,
        times: None,
    },
    Hold {
        stop: SECOND_DRAWN,
        last: 8,
        until: FIRST_DRAWN,
        times: None,
    },
    Hold {
        stop: FED,
        last: 1,
        until: FIRST_DRAWN,
        times: Some(8),
    },
    Hold {
        stop: FED,
        last: 1,
        until: SECOND_DRAWN,
        times: Some(8),
    },
];

static LATE: [Hold; 2] = [
    Hold {
        stop: FIRST_DRAWN,
        last: 1,
        until: FED,
        times: Some(2),
    },
    Hold {
        stop: SECOND_JUDGED,
        last: 1,
        until: FED,
        times: Some(3),
    },
];

// The first job is drawn before the second batch, and its verdict comes after the last one.
static SURELY_LATE: [Hold; 2] = [
    Hold {
        stop: FED,
        last: 1,
        until: FIRST_DRAWN,
        times: Some(1),
    },
    Hold {
        stop: FIRST_JUDGED,
        last: 1,
        until: FED,
        times: Some(3),
    },
];

// A row of 64 equal cells.
fn wide_row(alloc: Global) -> Result<Row, AllocError> {
    let letter: &[u8] = b"a";
    let mut cells = Vec::new(alloc);
    for _ in 0..64u32 {
        cells.push(letter)?;
    }
    Row::copied(alloc, &cells)
}

// The book of one row of 64 columns.
fn wide(rt: &impl Abort, alloc: Global) -> Result<Book, AllocError> {
    let mut rows = Vec::with_capacity(alloc, 1)?;
    rows.push(wide_row(alloc)?)?;
    book_of(rt, alloc, wide_row(alloc)?, &rows)
}

fn opened(rt: &impl Abort, alloc: Global, rows: Rows) -> Result<Book, AllocError> {
    match rows {
        Rows::Letters => letters(rt, alloc),
        Rows::Wide => wide(rt, alloc),
    }
}

fn batches(rt: &impl Abort, alloc: Global, feed: Feed) -> Result<Vec<Batch>, AllocError> {
    let mut batches = Vec::new(alloc);
    match feed {
        Feed::Nothing => {}
        Feed::Empty => batches.push(Batch::new(alloc))?,
        Feed::Deletion => batches.push(deletion(rt, alloc, 2)?)?,
        Feed::Three => {
            batches.push(deletion(rt, alloc, 2)?)?;
            batches.push(insertion(alloc, b"1", b"z")?)?;
            batches.push(deletion(rt, alloc, 1)?)?;
        }
    }
    Ok(batches)
}

// The phase of a script, and whether nobody was held too long.
fn play<R: Threads + Wait + Sync + Abort>(
    rt: &R,
    alloc: Global,
    script: Script,
) -> Result<(Refined, bool), AllocError> {
    let gate = HoldingGate::of(alloc, script.holds)?;
    let book = opened(rt, alloc, script.rows)?;
    let fed = batches(rt, alloc, script.feed)?;
    match run(rt, alloc, book, fed, script.workers, &gate) {
        Ok(refined) => {
            let have_come = gate.have_all_come() || !script.all_come;
            Ok((refined, have_come && !gate.has_run_out()))
        }
        Err(_) => Err(AllocError),
    }
}

// The phase of a script, played once more where somebody was held too long, as where memory was refused to another.
fn play_again<R: Threads + Wait + Sync + Abort>(
    rt: &R,
    alloc: Global,
    script: Script,
) -> Result<Refined, AllocError> {
    let (refined, passed) = play(rt, alloc, script)?;
    if passed {
        return Ok(refined);
    }
    let (refined, passed) = play(rt, alloc, script)?;
    assert!(rt; passed);
    Ok(refined)
}

#[test]
fn two_workers_draw_beside_each_other(rt: HostRuntime) -> Result<(), Fail> {
    let script = Script {
        rows: Rows::Letters,
        feed: Feed::Nothing,
        workers: 2,
        holds: &ONE_EACH,
        all_come: true,
    };
    let refined = play_again(&rt, rt.alloc(), script)?;
    assert!(rt; refined.book.settled() && refined.replies.is_empty());
    Ok(())
}

#[test]
fn two_workers_draw_job_after_job_beside_each_other(rt: HostRuntime) -> Result<(), Fail> {
    let script = Script {
        rows: Rows::Wide,
        feed: Feed::Nothing,
        workers: 2,
        holds: &MANY_EACH,
        all_come: true,
    };
    let refined = play_again(&rt, rt.alloc(), script)?;
    assert!(rt; refined.book.settled());
    Ok(())
}

#[test]
fn a_batch_is_fed_while_a_worker_has_a_job(rt: HostRuntime) -> Result<(), Fail> {
    let script = Script {
        rows: Rows::Letters,
        feed: Feed::Deletion,
        workers: 1,
        holds: &DRAWN_AFTER_FED,
        all_come: true,
    };
    let refined = play_again(&rt, rt.alloc(), script)?;
    assert!(rt; refined.book.settled() && refined.replies.len() == 1);
    Ok(())
}

#[test]
fn a_worker_draws_while_the_feeder_is_held(rt: HostRuntime) -> Result<(), Fail> {
    let script = Script {
        rows: Rows::Letters,
        feed: Feed::Deletion,
        workers: 1,
        holds: &FED_AFTER_DRAWN,
        all_come: true,
    };
    let refined = play_again(&rt, rt.alloc(), script)?;
    assert!(rt; refined.book.settled() && refined.replies.len() == 1);
    Ok(())
}

#[test]
fn two_workers_draw_job_after_job_beside_the_feeder(rt: HostRuntime) -> Result<(), Fail> {
    let script = Script {
        rows: Rows::Wide,
        feed: Feed::Empty,
        workers: 2,
        holds: &FED_AFTER_MANY,
        all_come: true,
    };
    let refined = play_again(&rt, rt.alloc(), script)?;
    assert!(rt; refined.book.settled() && refined.replies.len() == 1);
    Ok(())
}

// Whether a book tells of these keys and these dependencies.
fn has_covers(book: &Book, keys: &[ColSet], fds: &[Fd]) -> Result<bool, AllocError> {
    match book.settle()? {
        Settling::Ready(found) => Ok(found.keys() == keys && found.fds() == fds),
        Settling::NotYet { .. } => Ok(false),
    }
}

fn are_answers(replies: &[Applying], wanted: &[Applying]) -> bool {
    replies == wanted
}

// Whether rows 3 and 4 are left, with their covers.
fn is_left(book: &Book) -> Result<bool, AllocError> {
    let rows = book.rows();
    let (left, right) = (ColSet::empty(), 1);
    let two = rows.live_len() == 2 && rows.is_live(RowNo::of(3)) && rows.is_live(RowNo::of(4));
    Ok(two && has_covers(book, &[columns(&[0])], &[Fd { left, right }])?)
}

#[test]
fn jobs_that_come_back_after_their_rows_are_gone(rt: HostRuntime) -> Result<(), Fail> {
    let script = Script {
        rows: Rows::Letters,
        feed: Feed::Three,
        workers: 4,
        holds: &LATE,
        all_come: false,
    };
    let refined = play_again(&rt, rt.alloc(), script)?;
    let left = is_left(&refined.book)?;
    assert!(rt; left && refined.replies.len() == 3);
    Ok(())
}

#[test]
fn a_verdict_that_comes_after_all_batches(rt: HostRuntime) -> Result<(), Fail> {
    let script = Script {
        rows: Rows::Letters,
        feed: Feed::Three,
        workers: 1,
        holds: &SURELY_LATE,
        all_come: true,
    };
    let refined = play_again(&rt, rt.alloc(), script)?;
    let left = is_left(&refined.book)?;
    assert!(rt; left && refined.replies.len() == 3);
    Ok(())
}

#[test]
fn each_batch_is_answered(rt: HostRuntime) -> Result<(), Fail> {
    let alloc = rt.alloc();
    let mut ops = Vec::new(alloc);
    ops.push(Op::Insert(Row::copied(alloc, &[b"9", b"q"])?))?;
    ops.push(Op::Delete(RowNo::of(4)))?;
    let fed = vec![in alloc; Batch::of(alloc, &ops)?, Batch::new(alloc)]?;
    let book = letters(&rt, alloc)?;
    let Ok(refined) = run(&rt, alloc, book, fed, 2, &OpenGate) else {
        return Err(Fail::from(AllocError));
    };
    let first = Applying::Applied {
        inserted: 1,
        deleted: 1,
    };
    let second = Applying::Applied {
        inserted: 0,
        deleted: 0,
    };
    assert!(rt; are_answers(refined.replies.as_slice(), &[first, second]));
    Ok(())
}
