//! depprof: keys and dependencies of relations in CSV files.
#![tactic(auto)]

mod causes;
mod file_shelf;
mod help;
mod program;
mod progress;
mod streams;
mod teller;
mod telling;
#[cfg(test)]
mod tests;
mod words;

use file_shelf::FileShelf;
use help::help_asked;
use program::ended;
use progress::Counted;
use std::io::IsTerminal;
use std::process::ExitCode;
use streams::{StandardIn, StandardOut};
use teller::Manner;
use telling::{Sides, tell};
use words::gathered;

fn main(rt: HostRuntime) -> ExitCode {
    let on_terminal = rt.stderr().is_terminal().then_some(Manner::Over {
        is_shared: rt.stdout().is_terminal(),
    });
    let telling = teller::begin(rt, on_terminal);
    let telling = telling.as_deref();
    let counts = telling.map(|it| &it.counts);
    let mut shelf = FileShelf::new(&rt, counts);
    let mut input = StandardIn::new(&rt);
    let mut out = StandardOut::new(&rt, telling);
    let words = gathered(&rt);
    let help = match &words {
        Ok(words) => help_asked(words.as_slice()),
        Err(_) => None,
    };
    let outcome = ended(
        &rt,
        rt.alloc(),
        words,
        &mut shelf,
        &mut input,
        &mut out,
        &Counted(counts),
    );
    if let Some(telling) = telling {
        telling.end(&rt);
    }
    let sides = Sides {
        shelf: &shelf,
        input: input.cause(),
        output: out.cause(),
    };
    tell(&rt, help, &outcome, sides);
    ExitCode::from(outcome.status())
}
