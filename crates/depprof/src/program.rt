// What the program does with its words, its files and its streams, whatever these are.
ghost use Rattle.std.specs.Prelude.{◌≡◌, Some, None, IfOk, IfErr, IsSomeAnd};
ghost use Rattle.cli_words.specs.Command.{command, texts};
ghost use Rattle.depprof.specs.Standard.{AtStandard};
ghost use Rattle.depprof.specs.Words.{end_of};
ghost use Rattle.ports.specs.Files.{Nothing};
ghost use Rattle.profile_cli.specs.Ends.{IsWhole, OnSources};
ghost use Rattle.profile_cli.specs.Outcomes.{IfRefused, IsUsageOrNoMemory, OnDone, OnUsage};
ghost use Rattle.profile_cli.specs.Output.{SomeOutput, refusal};
ghost use Rattle.profile_cli.specs.Task.{task_of};

use crate::words::{WordsFault, end_without};
use ports::{Gate, Shelf, Sink, Source};
use profile_cli::{Outcome, run};
use rel_base::Limits;
use std::alloc::Global;
use std::sync::Wait;
use std::thread::Threads;

/// Runs the program by its words, or ends it where there are none, at the standard limits.
pub fn ended<R: Threads + Wait + Sync, H: Shelf, I: Source, O: Sink, G: Gate + Sync>(
    rt: &R,
    alloc: Global,
    words: Result<Vec<String>, WordsFault>,
    shelf: &mut H,
    input: &mut I,
    out: &mut O,
    gate: &G,
) -> Outcome
    requires { H.opened shelf.old ≡ Nothing }
    // By the standard limits, the whole output was written, or this file is the first that a rule refuses.
    ensures done { IfOk words (λ ws. OnDone result (AtStandard (λ limits. IsSomeAnd (command (texts ws.items)) (λ request. OnSources (task_of request) (H.content shelf.old) (I.left input.old) (λ files bytes.
        SomeOutput (texts ws.items) limits files bytes (λ o. (o.status ≡ 0) × IsWhole o.written (H.content shelf.old) (H.content shelf.new) (O.held out.old) (O.held out.new))))))) }
    ensures refused { IfOk words (λ ws. IfRefused result (λ file rec why. AtStandard (λ limits. IsSomeAnd (command (texts ws.items)) (λ request. OnSources (task_of request) (H.content shelf.old) (I.left input.old) (λ files bytes.
        refusal (task_of request) limits files bytes ≡ Some (file, rec, why)))))) }
    ensures usage { IfOk words (λ ws. OnUsage result (command (texts ws.items) ≡ None)) }
    ensures no_command { IfOk words (λ ws. command (texts ws.items) ≡ None → IsUsageOrNoMemory result) }
    ensures no_words { IfErr words (λ fault. result ≡ end_of fault) }
{
    match words {
        Ok(words) => run(
            rt,
            alloc,
            words,
            shelf,
            input,
            out,
            gate,
            Limits::standard(),
        ),
        Err(fault) => end_without(fault, out),
    }
}
