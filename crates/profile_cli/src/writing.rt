// What was made, written.
ghost use Rattle.std.specs.Prelude.{◌≡◌};
ghost use Rattle.ports.specs.Faults.{SameFaults};
ghost use Rattle.ports.specs.Files.{Nothing};
ghost use Rattle.profile_cli.specs.Ends.{OnMade, Runs, StoresAll};
ghost use Rattle.profile_cli.specs.Outcomes.{IsWritingEnd};

use crate::Outcome;
use ports::{Putting, Shelf, Sink, Storing, Text, put_all, store_file};
use rel_base::Name;
use std::alloc::AllocError;
use task_base::Made;

// Writes the files one after another, up to the first that fails.
fn store_all<H: Shelf>(shelf: &mut H, files: Vec<(Name, Text)>) -> Storing
    requires { H.opened shelf.old ≡ Nothing }
    ensures stored { StoresAll result files.items (H.content shelf.old) (H.content shelf.new) H.write_faults H.write_last shelf.old shelf.new }
    ensures closed { H.opened shelf.new ≡ Nothing }
    ensures reads { SameFaults H.read_faults H.read_last shelf.old shelf.new }
    ensures opens { H.opens shelf.new ≡ H.opens shelf.old }
{
    for (name, text) in files {
        match store_file(shelf, name, text.bytes()) {
            Storing::Stored => {}
            Storing::Failed => return Storing::Failed,
        }
    }
    Storing::Stored
}

/// Writes all that was made, which takes no memory: the files in their order, and behind them the text.
pub(crate) fn write_made<H: Shelf, O: Sink>(
    made: Result<Made, AllocError>,
    shelf: &mut H,
    out: &mut O,
) -> Outcome
    requires { H.opened shelf.old ≡ Nothing }
    ensures runs { Runs (OnMade made) result (H.content shelf.old) (H.content shelf.new) (O.held out.old) (O.held out.new) (O.faults out.old) (O.faults out.new) H.write_faults H.write_last shelf.old shelf.new }
    ensures end { IsWritingEnd result }
    ensures room { O.room out.new ≡ O.room out.old }
    ensures closed { H.opened shelf.new ≡ Nothing }
    ensures reads { SameFaults H.read_faults H.read_last shelf.old shelf.new }
    ensures opens { H.opens shelf.new ≡ H.opens shelf.old }
{
    match made {
        Ok(made) => {
            let (files, text) = made.into_parts();
            match store_all(shelf, files) {
                Storing::Stored => match put_all(out, text.as_slice()) {
                    Putting::Put => Outcome::Done,
                    Putting::Failed => Outcome::WriteFault,
                },
                Storing::Failed => Outcome::WriteFault,
            }
        }
        Err(_) => Outcome::NoMemory,
    }
}
