// Runs that write the same beside any number of workers.
ghost use Rattle.std.specs.Prelude.{◌<◌};

use super::reports::ONE_FILE;
use super::sessions::{BATCHES, K, K_HEAD, REPORTS, WORDS};
use super::{Case, Outside, SURE, is_whole, run_by};
use ports::{Gate, OpenGate, Point};
use rel_base::Limits;
use std::alloc::{AllocError, Global};
use std::hint::spin_loop;
use std::process::Abort;
use std::sync::Wait;
use std::sync::atomic::{AtomicBool, AtomicU32, Ordering};
use std::test::Fail;
use std::thread::Threads;

const WORKERS: [&str; 3] = ["1", "2", "16"];

fn push_word(alloc: Global, words: &mut Vec<String>, word: &str) -> Result<(), AllocError> {
    words.push(String::from_str(alloc, word)?)?;
    Ok(())
}

// A text for each of these words, and for `--workers` with this number behind the command.
fn words_with(alloc: Global, words: &[&str], workers: &str) -> Result<Vec<String>, AllocError> {
    let mut own = Vec::new(alloc);
    for (place, word) in words.iter().enumerate() {
        push_word(alloc, &mut own, word)?;
        if place == 1 {
            push_word(alloc, &mut own, "--workers")?;
            push_word(alloc, &mut own, workers)?;
        }
    }
    Ok(own)
}

// Whether a run writes what it is to, beside so many workers and by this gate.
fn writes_by<R: Threads + Wait + Sync, G: Gate + Sync>(
    rt: &R,
    alloc: Global,
    workers: &str,
    case: &Case<'_>,
    outside: &Outside,
    gate: &G,
    limits: Limits,
) -> Result<bool, AllocError>
    requires { 0 < outside.now.largest }
{
    let words = words_with(alloc, case.words, workers)?;
    let done = run_by(rt, alloc, words, case, outside, gate, limits)?;
    is_whole(alloc, case, &done)
}

// Asserts that a run writes what it is to, beside so many workers and by this gate.
fn expect_by<R: Threads + Wait + Sync + Abort, G: Gate + Sync>(
    rt: &R,
    alloc: Global,
    workers: &str,
    case: &Case<'_>,
    outside: &Outside,
    gate: &G,
    limits: Limits,
) -> Result<(), AllocError>
    requires { 0 < outside.now.largest }
{
    let whole = writes_by(rt, alloc, workers, case, outside, gate, limits)?;
    assert!(rt; whole, "{workers} workers: {:?} {}", case.words, case.input);
    Ok(())
}

// Asserts that a run writes what it is to, beside any number of workers.
pub fn expect_by_any<R: Threads + Wait + Sync + Abort>(
    rt: &R,
    alloc: Global,
    case: &Case<'_>,
    outside: &Outside,
    limits: Limits,
) -> Result<(), AllocError>
    requires { 0 < outside.now.largest }
{
    for workers in &WORKERS {
        expect_by(rt, alloc, workers, case, outside, &OpenGate, limits)?;
    }
    Ok(())
}

// A byte a call of the input, of the files and of the output.
const ONE_BYTE: Outside = Outside { largest: 1, ..SURE };

// Asserts that each of these runs writes what it is to, beside any number of workers.
fn expect_all_by_any<R: Threads + Wait + Sync + Abort>(
    rt: &R,
    alloc: Global,
    cases: &[Case<'_>],
    outside: &Outside,
) -> Result<(), AllocError>
    requires { 0 < outside.now.largest }
{
    for case in cases {
        expect_by_any(rt, alloc, case, outside, Limits::standard())?;
    }
    Ok(())
}

#[test]
fn any_number_of_workers_writes_the_same(rt: HostRuntime) -> Result<(), Fail> {
    expect_by_any(&rt, rt.alloc(), &ONE_FILE[0], &ONE_BYTE, Limits::standard())?;
    expect_all_by_any(&rt, rt.alloc(), &BATCHES, &SURE)?;
    expect_all_by_any(&rt, rt.alloc(), &REPORTS, &ONE_BYTE)?;
    Ok(())
}

// A gate that notes how many candidates were drawn before a batch was fed, and how many since.
#[derive(Drop)]
struct NotingGate {
    before: AtomicU32,
    since: AtomicU32,
    has_fed: AtomicBool,
}

impl NotingGate {
    fn new() -> NotingGate {
        NotingGate {
            before: AtomicU32::new(0),
            since: AtomicU32::new(0),
            has_fed: AtomicBool::new(false),
        }
    }
}

impl Gate for NotingGate {
    fn at(&self, _who: u32, point: Point) {
        if point == Point::Fed {
            self.has_fed.store(true, Ordering::SeqCst);
        }
        if point == Point::Drawn {
            let count = if self.has_fed.load(Ordering::SeqCst) {
                &self.since
            } else {
                &self.before
            };
            count.fetch_add(1, Ordering::SeqCst);
        }
    }
}

// Reports before, between and behind two batches, of which the first one is empty.
static PARTED: Case<'static> = Case {
    words: WORDS,
    files: K,
    input: "?\n!\n?\n+,3,w\n!\n?\n",
    text: &[
        "relation,k.csv,2,3\n",
        K_HEAD,
        "key,2\nfd,2,1\napplied,1,0,0,3\nrelation,k.csv,2,3\n",
        K_HEAD,
        "key,2\nfd,2,1\napplied,2,1,0,4\nrelation,k.csv,2,4\n",
        K_HEAD,
        "key,2\nfd,2,1\n",
    ],
    tables: &[],
    status: 0,
};

// Asserts that beside so many workers the last report draws two candidates, where the first one draws some.
fn expect_two_since<R: Threads + Wait + Sync + Abort>(
    rt: &R,
    alloc: Global,
    workers: &str,
) -> Result<(), AllocError> {
    let gate = NotingGate::new();
    expect_by(
        rt,
        alloc,
        workers,
        &PARTED,
        &SURE,
        &gate,
        Limits::standard(),
    )?;
    assert!(rt; 0 < gate.before.load(Ordering::SeqCst));
    assert!(rt; gate.since.load(Ordering::SeqCst) == 2);
    Ok(())
}

#[test]
fn a_report_goes_on_from_what_the_one_before_it_knew(rt: HostRuntime) -> Result<(), Fail> {
    for workers in &WORKERS {
        expect_two_since(&rt, rt.alloc(), workers)?;
    }
    Ok(())
}

// A held worker takes at most so many turns of the gate's own loop.
const MOST_TURNS: u32 = 100_000_000;

// A gate that notes the highest number that came, and holds the first two workers at their draws until both have drawn, if it is to.
#[derive(Drop)]
struct MeetingGate {
    holds: bool,
    first: AtomicBool,
    second: AtomicBool,
    most: AtomicU32,
}

impl MeetingGate {
    fn new(holds: bool) -> MeetingGate {
        MeetingGate {
            holds,
            first: AtomicBool::new(false),
            second: AtomicBool::new(false),
            most: AtomicU32::new(0),
        }
    }

    fn have_met(&self) -> bool {
        self.first.load(Ordering::SeqCst) && self.second.load(Ordering::SeqCst)
    }

    fn hold(&self) {
        for _ in 0..MOST_TURNS {
            if self.have_met() {
                return;
            }
            spin_loop();
        }
    }
}

impl Gate for MeetingGate {
    fn at(&self, who: u32, point: Point) {
        self.most.fetch_max(who, Ordering::SeqCst);
        if point != Point::Drawn {
            return;
        }
        match who {
            1 => self.first.store(true, Ordering::SeqCst),
            2 => self.second.store(true, Ordering::SeqCst),
            _ => {}
        }
        if self.holds {
            self.hold();
        }
    }
}

// One row of 64 equal cells: as many candidates hold.
static WIDE: Case<'static> = Case {
    words: &["depprof", "profile", "w.csv"],
    files: &[(
        "w.csv",
        "a,a,a,a,a,a,a,a,a,a,a,a,a,a,a,a,a,a,a,a,a,a,a,a,a,a,a,a,a,a,a,a,a,a,a,a,a,a,a,a,a,a,a,a,a,a,a,a,a,a,a,a,a,a,a,a,a,a,a,a,a,a,a,a\na,a,a,a,a,a,a,a,a,a,a,a,a,a,a,a,a,a,a,a,a,a,a,a,a,a,a,a,a,a,a,a,a,a,a,a,a,a,a,a,a,a,a,a,a,a,a,a,a,a,a,a,a,a,a,a,a,a,a,a,a,a,a,a\n",
    )],
    input: "",
    text: &[],
    tables: &[],
    status: 0,
};

// Asserts that a run beside so many workers is done, by this gate.
fn expect_done<R: Threads + Wait + Sync + Abort>(
    rt: &R,
    alloc: Global,
    workers: &str,
    gate: &MeetingGate,
) -> Result<(), AllocError> {
    let words = words_with(alloc, WIDE.words, workers)?;
    let outside = Outside {
        room: 100_000,
        ..SURE
    };
    let done = run_by(rt, alloc, words, &WIDE, &outside, gate, Limits::standard())?;
    assert!(rt; done.status() == 0);
    Ok(())
}

#[test]
fn as_many_workers_come_as_are_asked_for(rt: HostRuntime) -> Result<(), Fail> {
    let alone = MeetingGate::new(false);
    expect_done(&rt, rt.alloc(), "1", &alone)?;
    assert!(rt; alone.most.load(Ordering::SeqCst) == 1);
    let both = MeetingGate::new(true);
    expect_done(&rt, rt.alloc(), "2", &both)?;
    assert!(rt; both.have_met());
    assert!(rt; both.most.load(Ordering::SeqCst) == 2);
    Ok(())
}
