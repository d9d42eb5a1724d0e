// Who tells on standard error how far a run has come: by itself where that is a terminal, elsewhere where the environment asks for it.
use crate::progress::{Counts, Phase};
use std::alloc::Global;
use std::env::VarError;
use std::fmt::{Display, Formatter};
use std::rt::{Clock, Env};
use std::sync::Arc;
use std::sync::atomic::{AtomicBool, Ordering};
use std::thread::Threads;
use std::time::{Duration, Instant};
use std::{env, fmt, thread};

// The variable of the environment that asks for progress, or silences it.
const ASKED_BY: &str = "DEPPROF_PROGRESS";

// More seconds than any run takes.
const TURNS: u32 = u32::MAX;

// How many thousandths of a second the end of a line is waited for: a terminal may be stopped.
const WAITS: u32 = 50;

/// How lines are told.
#[derive(Clone, Copy, Debug, PartialEq, Eq)]
pub enum Manner {
    /// Each over the one before it, on a terminal, which standard output may share.
    Over { is_shared: bool },
    /// Each below the one before it.
    Below,
}

/// How lines are to be told, if at all, by the value of the variable: `0` silences, any other but the empty one asks, and a terminal has them
/// unasked.
pub fn manner_of(value: &str, on_terminal: Option<Manner>) -> Option<Manner> {
    match (value, on_terminal) {
        ("0", _) => None,
        (_, Some(manner)) => Some(manner),
        ("", None) => None,
        (_, None) => Some(Manner::Below),
    }
}

/// What is told, once a second, and the line that stands on the terminal.
#[derive(Drop)]
pub struct Telling {
    pub counts: Counts,
    manner: Manner,
    // Whether a line stands on the terminal, somebody is writing one or taking it away, and none is to come any more.
    is_told: AtomicBool,
    is_busy: AtomicBool,
    is_over: AtomicBool,
}

impl Telling {
    /// Nothing was counted or told yet.
    pub fn new(manner: Manner) -> Telling {
        Telling {
            counts: Counts::none(),
            manner,
            is_told: AtomicBool::new(false),
            is_busy: AtomicBool::new(false),
            is_over: AtomicBool::new(false),
        }
    }

    // Whether a line may come now: none does behind the end, nor between lines of standard output on the same terminal.
    fn is_due(&self, phase: Phase) -> bool {
        let is_between = match (self.manner, phase) {
            (Manner::Over { is_shared }, Phase::Writing { .. }) => is_shared,
            _ => false,
        };
        !is_between && !self.is_over.load(Ordering::SeqCst)
    }

    // Takes the line, if nobody else has it. Who takes it lets it go again.
    fn takes_line(&self) -> bool {
        self.is_busy
            .compare_exchange(false, true, Ordering::SeqCst, Ordering::SeqCst)
            .is_ok()
    }

    /// Tells a line, where one may come. One that can't be written is left out.
    pub fn tell(&self, rt: &impl Eprint, second: u64) {
        if !self.takes_line() {
            return;
        }
        let line = Line {
            second,
            phase: self.counts.phase(),
        };
        if self.is_due(line.phase) {
            self.is_told.store(true, Ordering::SeqCst);
            let _told = match self.manner {
                Manner::Over { .. } => eprint!(rt; "\r{line}\x1b[K"),
                Manner::Below => eprintln!(rt; "{line}"),
            };
        }
        self.is_busy.store(false, Ordering::SeqCst);
    }

    // Takes away the line that stands on the terminal, if one does. Who is writing it is waited for, but not for long.
    fn clear<R: Eprint + Clock>(&self, rt: &R) {
        if self.manner == Manner::Below {
            return;
        }
        for _ in 0..WAITS {
            if self.takes_line() {
                if self.is_told.swap(false, Ordering::SeqCst) {
                    let _cleared = eprint!(rt; "\r\x1b[K");
                }
                self.is_busy.store(false, Ordering::SeqCst);
                return;
            }
            thread::sleep(rt, Duration::from_millis(1));
        }
    }

    /// Counts bytes of standard output that are about to be written, and takes the line away where they go to the same terminal.
    pub fn before_output<R: Eprint + Clock>(&self, rt: &R, count: usize) {
        self.counts.wrote(count);
        if self.manner == (Manner::Over { is_shared: true }) {
            self.clear(rt);
        }
    }

    /// Ends the telling: no line is left on a terminal, and none comes any more.
    pub fn end<R: Eprint + Clock>(&self, rt: &R) {
        self.is_over.store(true, Ordering::SeqCst);
        self.clear(rt);
    }
}

/// Tells a line a second, for so many seconds or until the end. Without a clock it tells nothing.
pub fn tell_on<R: Eprint + Clock>(rt: &R, telling: &Telling, turns: u32) {
    let Ok(start) = Instant::now(rt) else {
        return;
    };
    for _ in 0..turns {
        thread::sleep(rt, Duration::from_secs(1));
        let Ok(elapsed) = start.elapsed(rt) else {
            return;
        };
        if telling.is_over.load(Ordering::SeqCst) {
            return;
        }
        telling.tell(rt, elapsed.as_secs());
    }
}

/// Begins to tell, in a thread of its own, so that a standard error that takes nothing holds up nobody else. Without memory or a thread, nothing is told.
pub fn begin<R>(rt: R, on_terminal: Option<Manner>) -> Option<Arc<Telling>>
where
    R: Threads + Clock + Eprint + Env + Alloc<A = Global> + Copy + Send + Drop + 'static,
{
    let manner = manner_asked(&rt, on_terminal)?;
    let telling = Arc::new(rt.alloc(), Telling::new(manner)).ok()?;
    let told = telling.clone().ok()?;
    let _running = thread::spawn(&rt, move || tell_on(&rt, &told, TURNS)).ok()?;
    Some(telling)
}

// How lines are to be told, by the environment. A value that is no text asks for them.
fn manner_asked(
    rt: &(impl Env + Alloc<A = Global>),
    on_terminal: Option<Manner>,
) -> Option<Manner> {
    match env::var(rt, ASKED_BY) {
        Ok(value) => manner_of(value.as_str(), on_terminal),
        Err(error) if error == VarError::NotUnicode => manner_of("1", on_terminal),
        Err(_) => manner_of("", on_terminal),
    }
}

// What is told in a line.
#[derive(Clone, Copy, Debug)]
pub struct Line {
    pub second: u64,
    pub phase: Phase,
}

impl Display for Line {
    fn fmt<W: fmt::Write>(&self, f: &mut Formatter<W>) -> fmt::Result {
        let second = self.second;
        write!(f, "depprof: {second} s, ")?;
        match self.phase {
            Phase::Reading { read, size } => match read.saturating_mul(100).checked_div(size) {
                Some(share) => write!(f, "reading, {} % of {}", share.min(100), Bytes(size)),
                None => write!(f, "reading, {}", Bytes(read)),
            },
            Phase::Coding { read } => write!(f, "coding {}", Bytes(read)),
            Phase::Searching { left, judged, fed } => write!(
                f,
                "searching, {left} candidates left in this pass, checked one by one: {judged}, batches: {fed}"
            ),
            Phase::Writing { written } => write!(f, "writing, {}", Bytes(written)),
        }
    }
}

// A number of bytes, in the largest unit of which there is one.
#[derive(Clone, Copy)]
struct Bytes(u64);

impl Display for Bytes {
    fn fmt<W: fmt::Write>(&self, f: &mut Formatter<W>) -> fmt::Result {
        let Bytes(count) = *self;
        if count >= 1_000_000 {
            write!(f, "{} MB", count / 1_000_000)
        } else if count >= 1_000 {
            write!(f, "{} kB", count / 1_000)
        } else {
            write!(f, "{count} bytes")
        }
    }
}
