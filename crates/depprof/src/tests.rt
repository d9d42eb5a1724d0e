use crate::file_shelf::FileShelf;
use crate::help::{Help, help_asked};
use crate::program::ended;
use crate::progress::{Counted, Counts, Phase};
use crate::streams::{StandardIn, StandardOut, read_some, write_some};
use crate::teller::{Line, Manner, Telling, manner_of, tell_on};
use crate::words::{WordsFault, end_without};
use cli_words::usage_line;
use ports::{
    Closing, Creating, Gate, Loading, OpenGate, Point, Reading, Shelf, Sink, Source, Storing,
    SureSink, Writing, load_file, store_file,
};
use profile_cli::Outcome;
use rel_base::Name;
use std::alloc::{AllocError, Global};
use std::fmt::Display;
use std::io::{Read, Write};
use std::rt::Clock;
use std::sync::atomic::{AtomicU64, Ordering};
use std::test::Fail;
use std::time::Duration;
use std::{env, fs, io};

// A path in the system's folder for such files, which no other run of the tests uses.
fn own_path(rt: &HostRuntime) -> Result<String, Fail> {
    let folder = env::temp_dir(rt)?;
    let folder = folder
        .as_path()
        .to_str()
        .ok_or("a folder whose name is no text")?;
    Ok(format!(in rt.alloc(); "{folder}/depprof-test-{}", std::process::id(rt.process()))?)
}

#[test]
fn files_are_stored_and_loaded(rt: HostRuntime) -> Result<(), Fail> {
    let alloc = rt.alloc();
    let path = own_path(&rt)?;
    let mut shelf = FileShelf::new(&rt, None);
    let stored = store_file(&mut shelf, Name::of(path.clone()?), b"id\n1\n");
    assert!(rt; stored == Storing::Stored);
    match load_file(alloc, &mut shelf, Name::of(path.clone()?), 5) {
        Loading::Loaded(bytes) => assert!(rt; bytes.as_slice() == b"id\n1\n".as_slice()),
        _ => assert!(rt; false, "the file is there"),
    }
    match load_file(alloc, &mut shelf, Name::of(path.clone()?), 4) {
        Loading::TooLong => {}
        _ => assert!(rt; false, "one byte above the limit"),
    }
    fs::remove_file(&rt, path.as_str())?;
    match load_file(alloc, &mut shelf, Name::of(path), 5) {
        Loading::Failed => {}
        _ => assert!(rt; false, "the file is gone"),
    }
    Ok(())
}

#[test]
fn an_absent_file_is_a_read_fault(rt: HostRuntime) -> Result<(), Fail> {
    let alloc = rt.alloc();
    let mut words = Vec::new(alloc);
    words.push(String::from_str(alloc, "depprof")?)?;
    words.push(String::from_str(alloc, "profile")?)?;
    words.push(String::from_str(alloc, "no-such-folder/absent.csv")?)?;
    let mut shelf = FileShelf::new(&rt, None);
    let mut input = StandardIn::new(&rt);
    let mut out = SureSink::with_room(alloc, 100)?;
    let outcome = ended(
        &rt,
        alloc,
        Ok(words),
        &mut shelf,
        &mut input,
        &mut out,
        &OpenGate,
    );
    assert!(rt; outcome.status() == 4);
    assert!(rt; out.bytes() == b"fault,read,no-such-folder/absent.csv\n".as_slice());
    Ok(())
}

// What two words ask for besides a run.
fn asked_by(alloc: Global, first: &str, second: &str) -> Result<Option<Help>, AllocError> {
    let mut words = Vec::new(alloc);
    words.push(String::from_str(alloc, "depprof")?)?;
    words.push(String::from_str(alloc, first)?)?;
    words.push(String::from_str(alloc, second)?)?;
    Ok(help_asked(words.as_slice()))
}

// Whether they ask for a page that begins so.
fn asks_for(alloc: Global, first: &str, second: &str, start: &str) -> Result<bool, AllocError> {
    Ok(match asked_by(alloc, first, second)? {
        Some(Help::Page(page)) => page.starts_with(start),
        _ => false,
    })
}

#[test]
fn words_that_ask_for_help(rt: HostRuntime) -> Result<(), Fail> {
    let alloc = rt.alloc();
    assert!(rt; asks_for(alloc, "profile", "--help", "depprof profile ")?);
    assert!(rt; asks_for(alloc, "help", "approx", "depprof approx ")?);
    assert!(rt; asks_for(alloc, "-h", "x", "depprof finds ")?);
    assert!(rt; asked_by(alloc, "--version", "")? == Some(Help::Version));
    assert!(rt; asked_by(alloc, "profile", "r.csv")? == None);
    Ok(())
}

#[test]
fn standard_output_takes_bytes(rt: HostRuntime) {
    let mut out = StandardOut::new(&rt, None);
    match out.write(b"a line of the test\n") {
        Writing::Took(count) => assert!(rt; count > 0),
        Writing::Failed => assert!(rt; false, "standard output is open"),
    }
}

#[test]
fn standard_input_comes_to_its_end(rt: HostRuntime) {
    let mut input = StandardIn::new(&rt);
    let mut buffer = [0u8; 16];
    for _ in 0..1000 {
        match input.read(&mut buffer) {
            Reading::Got(count) => assert!(rt; count <= 16),
            Reading::End => return,
            Reading::Failed => assert!(rt; false, "standard input is open"),
        }
    }
}

#[test]
fn words_that_cannot_be_gathered_are_no_command(rt: HostRuntime) -> Result<(), Fail> {
    let memory = WordsFault::from(io::Error::from(io::ErrorKind::OutOfMemory));
    let text = WordsFault::from(io::Error::from(io::ErrorKind::InvalidData));
    assert!(rt; memory == WordsFault::NoMemory && text == WordsFault::NotText);
    let mut out = SureSink::with_room(rt.alloc(), 1_000)?;
    assert!(rt; end_without(memory, &mut out) == Outcome::NoMemory);
    assert!(rt; out.bytes().is_empty());
    assert!(rt; end_without(text, &mut out) == Outcome::Usage);
    assert!(rt; out.bytes() == usage_line());
    Ok(())
}

// A writer that takes all bytes and can't hand them on.
#[derive(Drop)]
struct Unflushed;

impl Write for Unflushed {
    fn write(&mut self, bytes: &[u8]) -> io::Result<usize> {
        Ok(bytes.len())
    }

    fn flush(&mut self) -> io::Result<()> {
        Err(io::Error::from(io::ErrorKind::Other))
    }
}

// A reader and a writer of which each call fails.
#[derive(Drop)]
struct Broken;

impl Read for Broken {
    fn read(&mut self, _buffer: &mut [u8]) -> io::Result<usize> {
        Err(io::Error::from(io::ErrorKind::Other))
    }
}

impl Write for Broken {
    fn write(&mut self, _bytes: &[u8]) -> io::Result<usize> {
        Err(io::Error::from(io::ErrorKind::Other))
    }

    fn flush(&mut self) -> io::Result<()> {
        Ok(())
    }
}

#[test]
fn a_failed_call_is_told(rt: HostRuntime) {
    let mut buffer = [0u8; 4];
    let mut cause = None;
    assert!(rt; read_some(&mut Broken, &mut buffer, &mut cause) == Reading::Failed);
    assert!(rt; cause.is_some());
    assert!(rt; write_some(&mut Broken, b"a line").is_err());
    assert!(rt; write_some(&mut Unflushed, b"a line").is_err());
}

// A clock whose every reading is a second after the one before it, or that fails; a standard error that counts what it is told, or fails; and a
// standard output that takes nothing.
#[derive(Drop)]
struct Outer {
    readings: AtomicU64,
    lines: AtomicU64,
    has_clock: bool,
    takes_lines: bool,
}

impl Outer {
    fn new(has_clock: bool, takes_lines: bool) -> Outer {
        Outer {
            readings: AtomicU64::new(0),
            lines: AtomicU64::new(0),
            has_clock,
            takes_lines,
        }
    }

    fn lines(&self) -> u64 {
        self.lines.load(Ordering::SeqCst)
    }

    fn told(&self) -> io::Result<()> {
        self.lines.fetch_add(1, Ordering::SeqCst);
        if self.takes_lines {
            Ok(())
        } else {
            Err(io::Error::from(io::ErrorKind::BrokenPipe))
        }
    }
}

impl Clock for Outer {
    fn monotonic(&self) -> io::Result<Duration> {
        let second = self.readings.fetch_add(1, Ordering::SeqCst);
        if self.has_clock {
            Ok(Duration::from_secs(second))
        } else {
            Err(io::Error::from(io::ErrorKind::Unsupported))
        }
    }

    fn since_1970(&self) -> io::Result<Duration> {
        self.monotonic()
    }
}

impl Eprint for Outer {
    fn eprint<D: Display + Drop>(&self, _value: D) -> io::Result<()> {
        self.told()
    }

    fn eprintln<D: Display + Drop>(&self, _value: D) -> io::Result<()> {
        self.told()
    }
}

impl Print for Outer {
    fn print<D: Display + Drop>(&self, _value: D) -> io::Result<()> {
        self.write_all(b"")
    }

    fn println<D: Display + Drop>(&self, _value: D) -> io::Result<()> {
        self.write_all(b"")
    }

    fn write_all(&self, _bytes: &[u8]) -> io::Result<()> {
        Err(io::Error::from(io::ErrorKind::StorageFull))
    }
}

#[test]
fn an_output_that_is_full_is_told(rt: HostRuntime) -> Result<(), Fail> {
    let outer = Outer::new(true, true);
    let mut out = StandardOut::new(&outer, None);
    assert!(rt; out.write(b"a line") == Writing::Failed);
    assert!(rt; out.cause().is_some());
    let device = "/dev/full";
    if fs::metadata(&rt, device).is_ok() {
        let mut shelf = FileShelf::new(&rt, None);
        let name = Name::of(String::from_str(rt.alloc(), device)?);
        assert!(rt; store_file(&mut shelf, name, b"a line") == Storing::Failed);
        assert!(rt; shelf.cause().is_some());
    }
    Ok(())
}

// Whether there is a clock, whether lines are taken, and how many are written in five turns.
static TELLINGS: [(bool, bool, u64); 3] = [(true, true, 5), (true, false, 5), (false, true, 0)];

#[test]
fn progress_is_told_as_seconds_go_by(rt: HostRuntime) {
    for (has_clock, takes_lines, wanted) in &TELLINGS {
        let outer = Outer::new(*has_clock, *takes_lines);
        tell_on(&outer, &Telling::new(Manner::Below), 5);
        assert!(rt; outer.lines() == *wanted);
    }
}

#[test]
fn a_line_on_a_terminal_is_taken_away(rt: HostRuntime) {
    let outer = Outer::new(true, true);
    let telling = Telling::new(Manner::Over { is_shared: true });
    telling.before_output(&outer, 0);
    assert!(rt; outer.lines() == 0, "no line stands there");
    telling.tell(&outer, 1);
    assert!(rt; outer.lines() == 1);
    telling.before_output(&outer, 10);
    assert!(rt; outer.lines() == 2, "it is taken away");
    telling.tell(&outer, 2);
    assert!(rt;
        outer.lines() == 2,
        "none comes between lines of the output"
    );
    Counted(Some(&telling.counts)).at(0, Point::Fed);
    telling.tell(&outer, 3);
    assert!(rt; outer.lines() == 3);
    telling.end(&outer);
    assert!(rt; outer.lines() == 4);
    telling.tell(&outer, 4);
    assert!(rt; outer.lines() == 4, "none comes behind the end");
}

#[test]
fn progress_is_asked_for_by_the_environment_or_a_terminal(rt: HostRuntime) {
    let terminal = Some(Manner::Over { is_shared: false });
    assert!(rt; manner_of("", None) == None);
    assert!(rt; manner_of("1", None) == Some(Manner::Below));
    assert!(rt; manner_of("", terminal) == terminal);
    assert!(rt; manner_of("1", terminal) == terminal);
    assert!(rt; manner_of("0", terminal) == None && manner_of("0", None) == None);
}

// Whether this is the line of that phase.
fn is_line(alloc: Global, phase: Phase, wanted: &str) -> Result<bool, Fail> {
    let line = Line { second: 3, phase };
    Ok(format!(in alloc; "{line}")?.as_str() == wanted)
}

#[test]
fn a_line_tells_what_the_run_is_at(rt: HostRuntime) -> Result<(), Fail> {
    let alloc = rt.alloc();
    let counts = Counts::none();
    counts.opened(2_000_000);
    counts.got(500_000);
    assert!(rt; is_line(alloc, counts.phase(), "depprof: 3 s, reading, 25 % of 2 MB")?);
    counts.got(1_500_000);
    counts.closed();
    assert!(rt; is_line(alloc, counts.phase(), "depprof: 3 s, coding 2 MB")?);
    let gate = Counted(Some(&counts));
    gate.at(0, Point::Sought { left: 7 });
    gate.at(1, Point::Drawn);
    gate.at(1, Point::Judged);
    gate.at(1, Point::Booked);
    let searching =
        "depprof: 3 s, searching, 7 candidates left in this pass, checked one by one: 1, batches: 0";
    assert!(rt; is_line(alloc, counts.phase(), searching)?);
    counts.wrote(31_000);
    assert!(rt; is_line(alloc, counts.phase(), "depprof: 3 s, writing, 31 kB")?);
    counts.wrote(usize::MAX);
    gate.at(0, Point::Fed);
    assert!(rt;
        counts.phase()
            == Phase::Searching {
                left: 7,
                judged: 1,
                fed: 1
            }
    );
    Counted(None).at(1, Point::Drawn);
    assert!(rt;
        is_line(
            alloc,
            Phase::Reading { read: 12, size: 0 },
            "depprof: 3 s, reading, 12 bytes"
        )?
    );
    let most = Phase::Reading {
        read: u64::MAX,
        size: 5,
    };
    assert!(rt; is_line(alloc, most, "depprof: 3 s, reading, 100 % of 5 bytes")?);
    Ok(())
}
