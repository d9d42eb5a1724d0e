// The standard streams. They tell no content.
ghost use Rattle.std.specs.Prelude.{◌<◌, ◌≤◌, None, length, IfOk};
ghost use Rattle.ports.specs.Answers.{ReadMoves};

use crate::causes::{Call, Cause};
use crate::teller::Telling;
use ports::{Reading, Sink, Source, Writing};
use std::io;
use std::io::{Read, Write};
use std::rt::Clock;

/// Standard input.
#[derive(Drop)]
pub struct StandardIn<I: Input> {
    reader: I::Reader,
    faults: u64,
    cause: Option<Cause>,
}

impl<I: Input> StandardIn<I> {
    /// Standard input, with no fault counted.
    pub fn new(rt: &I) -> StandardIn<I> {
        StandardIn {
            reader: rt.reader(),
            faults: 0,
            cause: None,
        }
    }

    /// Why the last call that failed did.
    pub fn cause(&self) -> Option<&Cause> {
        self.cause.as_ref()
    }
}

// Reads some first bytes of those that are left: how many came, that there are none, or that the call failed, and then why.
pub(crate) fn read_some<R: Read>(
    reader: &mut R,
    buffer: &mut [u8],
    cause: &mut Option<Cause>,
) -> Reading
    ensures { ReadMoves result buffer.new None None }
{
    match reader.read(buffer) {
        Ok(0) => Reading::End,
        Ok(count) => Reading::Got(count),
        Err(error) => {
            *cause = Some(Cause {
                call: Call::Read,
                error,
            });
            Reading::Failed
        }
    }
}

impl<I: Input> Source for StandardIn<I> {
    ghost left = { λ _. None };

    ghost faults = { λ s. s.faults };

    fn read(&mut self, buffer: &mut [u8]) -> Reading {
        let answer = read_some(&mut self.reader, buffer, &mut self.cause);
        if answer == Reading::Failed {
            self.faults = self.faults.saturating_add(1);
        }
        answer
    }
}

/// Standard output.
#[derive(Drop)]
pub struct StandardOut<'r, P> {
    rt: &'r P,
    telling: Option<&'r Telling>,
    faults: u64,
    cause: Option<Cause>,
}

impl<'r, P: Print> StandardOut<'r, P> {
    /// Standard output, with no fault counted, of which progress is told where somebody tells it.
    pub fn new(rt: &'r P, telling: Option<&'r Telling>) -> StandardOut<'r, P> {
        StandardOut {
            rt,
            telling,
            faults: 0,
            cause: None,
        }
    }

    /// Why the last call that failed did.
    pub fn cause(&self) -> Option<&Cause> {
        self.cause.as_ref()
    }
}

// Writes some first bytes and flushes them in the same call, so that a failure to hand them on is told here: how many went, or why either
// failed or none were taken.
pub(crate) fn write_some<W: Write>(writer: &mut W, piece: &[u8]) -> io::Result<usize>
    ensures { IfOk result (λ count. (0 < count) × (count ≤ length piece.now)) }
{
    let count = writer.write(piece)?;
    writer.flush()?;
    if count == 0 {
        Err(io::Error::from(io::ErrorKind::WriteZero))
    } else {
        Ok(count)
    }
}

impl<P: Print + Eprint + Clock> Sink for StandardOut<'_, P> {
    ghost held = { λ _. None };

    ghost room = { λ _. None };

    ghost faults = { λ s. s.faults };

    fn write(&mut self, piece: &[u8]) -> Writing {
        if let Some(telling) = self.telling {
            telling.before_output(self.rt, piece.len());
        }
        match write_some(&mut io::writer(self.rt), piece) {
            Ok(count) => Writing::Took(count),
            Err(error) => {
                self.faults = self.faults.saturating_add(1);
                self.cause = Some(Cause {
                    call: Call::Write,
                    error,
                });
                Writing::Failed
            }
        }
    }
}
