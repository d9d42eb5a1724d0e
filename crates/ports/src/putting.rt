// A text that is written on a sink.
ghost use Rattle.std.specs.Prelude.{◌≡◌, ◌≤◌, ◌+◌};
ghost use Rattle.ports.specs.Faults.{Counts};
ghost use Rattle.ports.specs.Whole.{put_failed, Puts};

use crate::{Sink, Writing};

/// What putting a text on a sink answers.
#[derive(Clone, Copy, Debug, PartialEq, Eq)]
pub enum Putting {
    /// All bytes were appended.
    Put,
    /// A write failed, with some first bytes appended.
    Failed,
}

/// Writes all bytes on a sink. Each write is handed all that is left. It takes no memory.
pub fn put_all<O: Sink>(sink: &mut O, bytes: &[u8]) -> Putting
    ensures puts { Puts result bytes.now (O.held sink.old) (O.held sink.new) }
    ensures room { O.room sink.new ≡ O.room sink.old }
    ensures counted { Counts (put_failed result) (O.faults sink.old) (O.faults sink.new) }
    ensures once { O.faults sink.new ≤ O.faults sink.old + 1 }
{
    let mut done = 0;
    while done < bytes.len() {
        match sink.write(&bytes[done..]) {
            Writing::Took(count) => done += count,
            Writing::Failed => return Putting::Failed,
        }
    }
    Putting::Put
}
