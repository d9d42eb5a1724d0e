// The words of the command line.
ghost use Rattle.std.specs.Prelude.{◌≡◌};
ghost use Rattle.depprof.specs.Words.{end_of};
ghost use Rattle.profile_cli.specs.Ends.{IsPut};
ghost use Rattle.profile_cli.specs.Outcomes.{OnNoMemory, OnUsage};
ghost use Rattle.cli_words.specs.Usage.{usage_text};

use cli_words::usage_line;
use ports::{Sink, put_all};
use profile_cli::Outcome;
use std::alloc::{AllocError, Global};
use std::rt::Env;
use std::{env, io};

/// Why the words can't be gathered.
#[derive(Clone, Copy, Debug, PartialEq, Eq)]
pub enum WordsFault {
    /// Memory ran out.
    NoMemory,
    /// A word is not UTF-8.
    NotText,
}

impl From<io::Error> for WordsFault {
    fn from(error: io::Error) -> WordsFault {
        match error.kind() {
            io::ErrorKind::OutOfMemory => WordsFault::NoMemory,
            _ => WordsFault::NotText,
        }
    }
}

impl From<AllocError> for WordsFault {
    fn from(_error: AllocError) -> WordsFault {
        WordsFault::NoMemory
    }
}

/// The words, the program's own name first.
pub fn gathered(rt: &(impl Env + Alloc<A = Global>)) -> Result<Vec<String>, WordsFault> {
    Ok(env::args(rt)?.collect(rt.alloc())?)
}

/// Ends a run without words. Words that are no text are no command.
pub fn end_without<O: Sink>(fault: WordsFault, out: &mut O) -> Outcome
    ensures end { result ≡ end_of fault }
    ensures usage_line { OnUsage result (IsPut usage_text (O.held out.old) (O.held out.new) (O.faults out.old) (O.faults out.new)) }
    ensures no_memory { OnNoMemory result (O.held out.new ≡ O.held out.old) }
    ensures no_memory_faults { OnNoMemory result (O.faults out.new ≡ O.faults out.old) }
{
    match fault {
        WordsFault::NoMemory => Outcome::NoMemory,
        WordsFault::NotText => {
            put_all(out, usage_line());
            Outcome::Usage
        }
    }
}
