// Runs over a source and a shelf that never fail, and a sink with more room than the text.
ghost use Rattle.std.specs.Prelude.{◌≡◌, ◌<◌, ℕ, List, [], Some, None, false, length, IfOk};
ghost use Rattle.ports.specs.Files.{Nothing};
ghost use Rattle.ports.specs.Lists.{look_up};
ghost use Rattle.cli_words.specs.Command as words_of;
ghost use Rattle.cli_words.specs.Command.{texts};
ghost use Rattle.profile_cli.specs.Ends.{IsInput};
ghost use Rattle.profile_cli.specs.Output.{Output, SomeOutput, output, refusal};
ghost use Rattle.profile_cli.specs.Outcomes.{IsDoneOrNoMemory, OnDone};
ghost use Rattle.profile_cli.specs.Task.{task_of};
ghost use Rattle.cli_words.specs.declared.request.Request.{Request};

use super::{file_of, is_same, words_of};
use ports::{OpenGate, SureShelf, SureSink, SureSource};
use profile_cli::{Outcome, run};
use rel_base::Limits;
use std::alloc::{AllocError, Global};
use std::process::Abort;
use std::sync::Wait;
use std::test::Fail;
use std::thread::Threads;

// Where the words are a command that writes no files, nothing is refused, and an empty sink has more room than the text, the whole text is written, unless
// memory ran out.
fn run_surely<R: Threads + Wait + Sync>(
    rt: &R,
    alloc: Global,
    words: Vec<String>,
    shelf: &mut SureShelf,
    input: &mut SureSource,
    out: &mut SureSink,
    limits: Limits,
) -> Outcome
    requires closed { shelf.old.opened ≡ Nothing }
    requires empty { out.old.store.held ≡ [] }
    requires no_fault { out.old.faults ≡ 0 }
    ensures complete { (request : Request) (bytes : List ℕ) → words_of.command (texts words.items) ≡ Some request → (task_of request).writes_files ≡ false
        → IsInput (task_of request).reads_input (Some input.old) bytes → refusal (task_of request) limits (look_up shelf.old.files) bytes ≡ None
        → ((o : Output) → output (texts words.items) limits (look_up shelf.old.files) bytes o → length o.written.text < out.old.store.room)
        → IsDoneOrNoMemory result }
    ensures written { (request : Request) (bytes : List ℕ) → words_of.command (texts words.items) ≡ Some request
        → IsInput (task_of request).reads_input (Some input.old) bytes
        → OnDone result (SomeOutput (texts words.items) limits (look_up shelf.old.files) bytes (λ o. out.new.store.held ≡ o.written.text)) }
{
    let outcome = run(rt, alloc, words, shelf, input, out, &OpenGate, limits);
    let _held = out.bytes();
    outcome
}

const N: &str = "a,b\n,1\n,2\n";

// What `profile` writes of a file with N that is named twice.
const N_REPORT: &str = concat!(
    "relation,n.csv,2,2\ncolumn,1,a\ncolumn,2,b\nkey,2\nfd,,1\n",
    "relation,n.csv,2,2\ncolumn,1,a\ncolumn,2,b\nkey,2\nfd,,1\n",
    "ind,1.1,1.2\nind,1.1,2.1\nind,1.1,2.2\nind,1.2,2.2\n",
    "ind,2.1,1.1\nind,2.1,1.2\nind,2.1,2.2\nind,2.2,1.2\n",
);

// A shelf with a file `n.csv` that holds N.
fn shelf_of_n(alloc: Global) -> Result<SureShelf, AllocError>
    ensures { IfOk result (λ shelf. shelf.opened ≡ Nothing) }
{
    let file = file_of(alloc, "n.csv", N)?;
    Ok(SureShelf::of(vec![in alloc; file]?))
}

// What these words over that file and this input come to with this sink, which is empty.
fn run_n<R: Threads + Wait + Sync>(
    rt: &R,
    alloc: Global,
    words: &[&str],
    input: &str,
    out: &mut SureSink,
) -> Result<Outcome, AllocError>
    requires empty { out.old.store.held ≡ [] }
    requires no_fault { out.old.faults ≡ 0 }
{
    let words = words_of(alloc, words)?;
    let mut shelf = shelf_of_n(alloc)?;
    let mut input = SureSource::of(Vec::from_slice(alloc, input.as_bytes())?);
    Ok(run_surely(
        rt,
        alloc,
        words,
        &mut shelf,
        &mut input,
        out,
        Limits::standard(),
    ))
}

// What a session answers to two reports of that file.
const N_ANSWERS: &str = concat!(
    "relation,n.csv,2,2\ncolumn,1,a\ncolumn,2,b\nkey,2\nfd,,1\nind,1.1,1.2\n",
    "relation,n.csv,2,2\ncolumn,1,a\ncolumn,2,b\nkey,2\nfd,,1\nind,1.1,1.2\n",
);

// Words over that file, an input, and what is written.
static WITH_ROOM: [(&[&str], &str, &str); 2] = [
    (&["depprof", "profile", "n.csv", "n.csv"], "", N_REPORT),
    (&["depprof", "session", "n.csv"], "?\n?\n", N_ANSWERS),
];

#[test]
fn a_run_with_room_is_done(rt: HostRuntime) -> Result<(), Fail> {
    for (words, input, text) in &WITH_ROOM {
        let mut out = SureSink::with_room(rt.alloc(), text.len().saturating_add(1))?;
        let outcome = run_n(&rt, rt.alloc(), words, input, &mut out)?;
        assert!(rt; outcome.status() == 0);
        assert!(rt; is_same(out.bytes(), text));
    }
    Ok(())
}
