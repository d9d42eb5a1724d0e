// What people are told on standard error of how a run ended. Standard output has what the definitions say, and nothing of this.
use crate::causes::{Call, Cause};
use crate::file_shelf::FileShelf;
use crate::help::{Help, VERSION};
use end_notes::{Refusal, field_count};
use ports::{Loading, load_file};
use profile_cli::Outcome;
use rel_base::{Limits, Name, Why};
use std::alloc::Global;
use std::rt::Files;
use std::{fs, io};

/// What the streams and files of a run know of its end.
#[derive(Clone, Copy)]
pub struct Sides<'s, 'r, R: Files + Alloc<A = Global>> {
    pub shelf: &'s FileShelf<'r, R>,
    pub input: Option<&'s Cause>,
    pub output: Option<&'s Cause>,
}

/// Tells people how the run ended, where that was not as it was meant, and what the files look like that may be meant otherwise.
///
/// What can't be written is left out.
pub fn tell<R: Eprint + Files + Alloc<A = Global>>(
    rt: &R,
    help: Option<Help>,
    outcome: &Outcome,
    sides: Sides<'_, '_, R>,
) {
    let _told = match help {
        Some(Help::Page(page)) => eprintln!(rt; "{page}"),
        Some(Help::Version) => eprintln!(rt; "depprof {VERSION}"),
        None => tell_end(rt, outcome, sides),
    };
}

fn tell_end<R: Eprint + Files + Alloc<A = Global>>(
    rt: &R,
    outcome: &Outcome,
    sides: Sides<'_, '_, R>,
) -> io::Result<()> {
    match outcome {
        Outcome::Done => tell_hints(rt, sides.shelf, None),
        Outcome::Usage => eprintln!(rt;
            "these words are no command: `depprof --help` explains them"
        ),
        Outcome::Refused { file, rec, why } => {
            tell_refusal(rt, file.as_str(), *rec, *why)?;
            tell_hints(rt, sides.shelf, Some(file.as_str()))
        }
        Outcome::ReadFault { file } => tell_fault(
            rt,
            input_name(file.as_str()),
            sides.shelf.cause().or(sides.input),
        ),
        Outcome::WriteFault => match sides.shelf.cause() {
            Some(cause) => tell_fault(rt, sides.shelf.written(), Some(cause)),
            None => tell_fault(rt, "standard output", sides.output),
        },
        Outcome::NoMemory => eprintln!(rt; "memory ran out: nothing was written"),
    }
}

fn input_name(file: &str) -> &str {
    if file == "-" { "standard input" } else { file }
}

fn tell_fault<R: Eprint>(rt: &R, name: &str, cause: Option<&Cause>) -> io::Result<()> {
    match cause {
        Some(Cause { call, error }) => eprintln!(rt; "{name}: {}: {error}", what_failed(*call)),
        None => eprintln!(rt; "{name}: a call on it failed"),
    }
}

fn what_failed(call: Call) -> &'static str {
    match call {
        Call::Open => "it can't be opened",
        Call::Read => "it can't be read",
        Call::Create => "it can't be made",
        Call::Write => "it can't be written",
    }
}

fn tell_refusal<R: Eprint + Files + Alloc<A = Global>>(
    rt: &R,
    file: &str,
    rec: u64,
    why: Why,
) -> io::Result<()> {
    let (header, fields) = match why {
        Why::Columns | Why::Fields => counts_of(rt, file, rec),
        _ => (None, None),
    };
    let refusal = Refusal {
        file,
        rec,
        why,
        header,
        fields,
        limits: Limits::standard(),
    };
    eprintln!(rt; "{refusal}")
}

// How many fields the header and a record of a file have, where it is one that can be read again.
fn counts_of<R: Files + Alloc<A = Global>>(
    rt: &R,
    file: &str,
    rec: u64,
) -> (Option<usize>, Option<usize>) {
    match bytes_of(rt, file) {
        Some(bytes) => (
            count_at(rt.alloc(), bytes.as_slice(), 0),
            count_at(rt.alloc(), bytes.as_slice(), rec.saturating_sub(1)),
        ),
        None => (None, None),
    }
}

fn count_at(alloc: Global, bytes: &[u8], place: u64) -> Option<usize> {
    field_count(alloc, bytes, place).ok()?
}

// The bytes of a file, if it is a plain one: what comes through a pipe is gone.
fn bytes_of<R: Files + Alloc<A = Global>>(rt: &R, file: &str) -> Option<Vec<u8>> {
    if !fs::metadata(rt, file).ok()?.is_file() {
        return None;
    }
    let name = Name::of(String::from_str(rt.alloc(), file).ok()?);
    let mut again = FileShelf::new(rt, None);
    match load_file(rt.alloc(), &mut again, name, Limits::standard().bytes) {
        Loading::Loaded(bytes) => Some(bytes),
        _ => None,
    }
}

// Tells what files look like that were read, or this one alone.
fn tell_hints<R: Eprint + Files + Alloc<A = Global>>(
    rt: &R,
    shelf: &FileShelf<'_, R>,
    only: Option<&str>,
) -> io::Result<()> {
    for (name, hint) in shelf.hints() {
        if only.is_none_or(|file| file == name.as_str()) {
            eprintln!(rt; "{}: {hint}", name.as_str())?;
        }
    }
    Ok(())
}
