// From words, files and input to the text that is written, and how the run ended.
ghost use Rattle.std.specs.Prelude.{◌≡◌, ◌⊎◌, ◌<◌, ◌≤◌, ◌+◌, ℕ, List, Some, None, true, false, [], length, slice_index_or, IsSomeAnd, IfSome};
ghost use Rattle.ports.specs.Faults.{SameFaults, Rose, RoseAt};
ghost use Rattle.normalize_text.specs.Joined.{AreLosslessTables};
ghost use Rattle.ports.specs.Files.{Nothing, Files, bytes_of};
ghost use Rattle.ports.specs.Lists.{file_at};
ghost use Rattle.rel_base.specs.RowState.{opened};
ghost use Rattle.rel_base.specs.declared.nulls.Nulls.TheVariants.{Equal};
ghost use Rattle.rel_base.specs.declared.why.Why.{Why};
ghost use Rattle.report_text.specs.Outcome.{file_line, fault_line};
ghost use Rattle.cli_words.specs.Command as words_of;
ghost use Rattle.cli_words.specs.Command.{texts};
ghost use Rattle.profile_cli.specs.Contents.{file_content, first_refusal};
ghost use Rattle.profile_cli.specs.Ends.{IsFileFault, IsFileRefusal, IsInput, IsInputFault, IsInputRefusal, AreAccepted, IsPut, IsReadThrough, IsUnwritten, IsWhole, OnSources, OnTold, Runs, StopsAtFile, StopsAtSink};
ghost use Rattle.profile_cli.specs.Outcomes.{OnDone, OnUsage, IfRefused, IfReadFault, OnWriteFault, OnNoMemory, UnlessFaulted, UnlessWritten, IsDoneOrNoMemory, IsUsageOrNoMemory, IsRefusedOrNoMemory};
ghost use Rattle.profile_cli.specs.Output.{Output, SomeOutput, output, refusal};
ghost use Rattle.profile_cli.specs.Task.{files_read, task_of};
ghost use Rattle.task_base.specs.Reading.{no_reading};
ghost use Rattle.task_base.specs.Written.{Written};
ghost use Rattle.cli_words.specs.Usage.{usage_text};
ghost use Rattle.cli_words.specs.declared.request.Request.{Request};
ghost use Rattle.cli_words.specs.declared.request.Request.TheVariants.{Normalize};

use crate::Outcome;
use crate::answering::answer;
use crate::ending::{end_at_fault, refuse};
use crate::reading::{FilesRead, read_files};
use crate::tasks::{into_file, reads_of};
use cli_words::{Request, request_of, usage_line};
use ports::{Gate, Shelf, Sink, Source, put_all};
use rel_base::Limits;
use std::alloc::Global;
use std::sync::Wait;
use std::thread::Threads;
use task_base::Means;

/// Runs the command that the words are. The first word is the program's own name.
///
/// `profile FILE..` reads all files, and then writes for each of them its relation's columns, minimal keys and minimal functional dependencies, and after
/// these the inclusions among the columns of all of them.
///
/// `session FILE` reads the file and then a change text, the input, to its end, and answers its batches and requests for a report in their order.
///
/// The covers of a relation are found by a phase of as many workers as the words ask for. In a session one phase takes the batches between two reports, and
/// one more those behind the last. Each phase passes the gate.
///
/// What a command reads and writes is said by `task_of`, and what a run writes by `output`.
pub fn run<R: Threads + Wait + Sync, H: Shelf, I: Source, O: Sink, G: Gate + Sync>(
    rt: &R,
    alloc: Global,
    words: Vec<String>,
    shelf: &mut H,
    input: &mut I,
    out: &mut O,
    gate: &G,
    limits: Limits,
) -> Outcome
    requires { H.opened shelf.old ≡ Nothing }

    // The words are a command of which nothing is refused, the whole output was written, the input was read to its end if it is read at all, and no call failed.
    ensures done { OnDone result (IsSomeAnd (words_of.command (texts words.items)) (λ request. OnSources (task_of request) (H.content shelf.old) (I.left input.old) (λ files bytes.
        SomeOutput (texts words.items) limits files bytes (λ o. (o.status ≡ 0)
        × IsWhole o.written (H.content shelf.old) (H.content shelf.new) (O.held out.old) (O.held out.new))))) }
    ensures done_input { OnDone result (IsSomeAnd (words_of.command (texts words.items)) (λ request. IsReadThrough (task_of request).reads_input (I.left input.new))) }
    ensures done_faults { OnDone result (O.faults out.new ≡ O.faults out.old) }
    ensures done_writes { OnDone result (SameFaults H.write_faults H.write_last shelf.old shelf.new) }

    // The files of `normalize` hold projections of the rows, each in Boyce-Codd normal form, whose natural join is the distinct rows.
    ensures tables { (workers : ℕ) (prefix file : List ℕ) → words_of.command (texts words.items) ≡ Some (Normalize workers prefix file) → OnDone result (IfSome (H.content shelf.old) (λ files. (w : Written)
        × IsWhole w (H.content shelf.old) (H.content shelf.new) (O.held out.old) (O.held out.new) × AreLosslessTables (opened Equal limits.rows (file_content (bytes_of files file))) w.files)) }

    // Where the words are a command, nothing is refused, and no call failed on a file that it reads or writes, on the input, if it is read, or on the sink, the run is done, unless memory ran out.
    ensures complete { (request : Request) (files : Files) (bytes : List ℕ) → words_of.command (texts words.items) ≡ Some request → H.content shelf.old ≡ Some files
        → IsInput (task_of request).reads_input (I.left input.old) bytes → refusal (task_of request) limits files bytes ≡ None
        → ((place : ℕ) → place < length (task_of request).reads → RoseAt (slice_index_or (task_of request).reads place no_reading).0 H.read_faults H.read_last shelf.old shelf.new → ⊥)
        → ((task_of request).reads_input ≡ true → Rose (I.faults input.old) (I.faults input.new) → ⊥)
        → ((o : Output) (place : ℕ) → output (texts words.items) limits files bytes o → place < length o.written.files
        → RoseAt (file_at o.written.files place).0 H.write_faults H.write_last shelf.old shelf.new → ⊥)
        → (Rose (O.faults out.old) (O.faults out.new) → ⊥)
        → IsDoneOrNoMemory result }

    // The words are no command, and where they are none, nothing else is answered, unless memory ran out.
    ensures usage { OnUsage result (words_of.command (texts words.items) ≡ None) }
    ensures usage_line { OnUsage result (IsPut usage_text (O.held out.old) (O.held out.new) (O.faults out.old) (O.faults out.new)) }

    ensures no_command { words_of.command (texts words.items) ≡ None → IsUsageOrNoMemory result }

    // This file, or the input, is the first that the rules refuse, and nothing behind it was opened or read; where one is refused and no call that reads failed, nothing else is answered, unless memory ran out.
    ensures refused { IfRefused result (λ file rec why. IsSomeAnd (words_of.command (texts words.items)) (λ request. OnSources (task_of request) (H.content shelf.old) (I.left input.old) (λ files bytes.
        refusal (task_of request) limits files bytes ≡ Some (file, rec, why)))) }
    ensures refused_line { IfRefused result (λ file rec why. IsPut (file_line file rec why) (O.held out.old) (O.held out.new) (O.faults out.old) (O.faults out.new)) }
    ensures refused_at { IfRefused result (λ file rec why. IsSomeAnd (words_of.command (texts words.items)) (λ request.
        IsFileRefusal limits (H.content shelf.old) (task_of request) file rec why input.old input.new (H.opens shelf.old) (H.opens shelf.new)
        ⊎ (AreAccepted limits (H.content shelf.old) (task_of request).reads H.read_faults H.read_last shelf.old shelf.new
        × IsInputRefusal limits (task_of request).reads_input file rec why (I.left input.old) (I.left input.new)))) }
    ensures not_accepted { (request : Request) (files : Files) (bytes file : List ℕ) (rec : ℕ) (why : Why) → words_of.command (texts words.items) ≡ Some request → H.content shelf.old ≡ Some files
        → IsInput (task_of request).reads_input (I.left input.old) bytes → refusal (task_of request) limits files bytes ≡ Some (file, rec, why)
        → ((place : ℕ) → place < length (task_of request).reads → RoseAt (slice_index_or (task_of request).reads place no_reading).0 H.read_faults H.read_last shelf.old shelf.new → ⊥)
        → (first_refusal limits files (task_of request).reads ≡ None → Rose (I.faults input.old) (I.faults input.new) → ⊥)
        → IsRefusedOrNoMemory result }

    // A call on this file failed, and no file before it is refused, or a call on the input failed, and no file is refused. Nothing behind it was opened or read.
    ensures read_fault { IfReadFault result (λ file. IsSomeAnd (words_of.command (texts words.items)) (λ request.
        IsFileFault limits (H.content shelf.old) (task_of request) file H.read_faults H.read_last shelf.old shelf.new input.old input.new (H.opens shelf.old) (H.opens shelf.new)
        ⊎ (AreAccepted limits (H.content shelf.old) (task_of request).reads H.read_faults H.read_last shelf.old shelf.new
        × IsInputFault limits (task_of request).reads_input file (I.left input.old) (I.left input.new) (I.faults input.old) (I.faults input.new)))) }
    ensures fault_line { IfReadFault result (λ file. IsPut (fault_line file) (O.held out.old) (O.held out.new) (O.faults out.old) (O.faults out.new)) }

    // Nothing is refused, and a call failed on a file of the output, or on the sink: at a file those before it are whole, it is as it was or holds some first bytes, and the
    // others and the sink are as they were; at the sink all files are whole, and some first bytes of the text were put.
    ensures write_fault { OnWriteFault result (IsSomeAnd (words_of.command (texts words.items)) (λ request. OnSources (task_of request) (H.content shelf.old) (I.left input.old) (λ files bytes.
        SomeOutput (texts words.items) limits files bytes (λ o. (o.status ≡ 0)
        × (StopsAtFile o.written (H.content shelf.old) (H.content shelf.new) (O.held out.old) (O.held out.new) (O.faults out.old) (O.faults out.new) H.write_faults H.write_last shelf.old shelf.new
        ⊎ StopsAtSink o.written (H.content shelf.old) (H.content shelf.new) (O.held out.old) (O.held out.new) (O.faults out.old) (O.faults out.new) H.write_faults H.write_last shelf.old shelf.new))))) }
    ensures write_count { OnWriteFault result (Rose (O.faults out.old) (O.faults out.new) ⊎ Rose (H.write_faults shelf.old) (H.write_faults shelf.new)) }

    // Nothing was written.
    ensures no_memory { OnNoMemory result (O.held out.new ≡ O.held out.old) }
    ensures no_memory_faults { OnNoMemory result (O.faults out.new ≡ O.faults out.old) }

    // No call that reads failed where the run went on to write something else than a read fault.
    ensures reads { UnlessFaulted result (SameFaults H.read_faults H.read_last shelf.old shelf.new) }
    ensures input_reads { UnlessFaulted result (I.faults input.new ≡ I.faults input.old) }

    // Each file that the command reads is opened once at most, and none where the words are no command.
    ensures opens { H.opens shelf.new ≤ H.opens shelf.old + files_read (words_of.command (texts words.items)) }

    // The sink keeps its room, nothing is open, the files stay as they were where the whole output wasn't to be written or has none, and the input is unread unless the words are a command that reads it.
    ensures room { O.room out.new ≡ O.room out.old }
    ensures unwritten { UnlessWritten result (IsUnwritten (H.content shelf.old) (H.content shelf.new) H.write_faults H.write_last shelf.old shelf.new) }
    ensures no_files { IfSome (words_of.command (texts words.items)) (λ request. (task_of request).writes_files ≡ false → IsUnwritten (H.content shelf.old) (H.content shelf.new) H.write_faults H.write_last shelf.old shelf.new) }
    ensures closed { H.opened shelf.new ≡ Nothing }
    ensures input { IfSome (words_of.command (texts words.items)) (λ request. (task_of request).reads_input ≡ false → input.new ≡ input.old) }
    ensures no_input { words_of.command (texts words.items) ≡ None → input.new ≡ input.old }
{
    match request_of(alloc, words.as_slice()) {
        Ok(Some(request)) => {
            let means = Means {
                alloc,
                limits,
                workers: request.workers(),
                gate,
            };
            perform(rt, &means, request, shelf, input, out)
        }
        Ok(None) => {
            put_all(out, usage_line());
            Outcome::Usage
        }
        Err(_) => Outcome::NoMemory,
    }
}

// Does what a request asks for.
fn perform<R: Threads + Wait + Sync, H: Shelf, I: Source, O: Sink, G: Gate + Sync>(
    rt: &R,
    means: &Means<'_, G>,
    request: Request,
    shelf: &mut H,
    input: &mut I,
    out: &mut O,
) -> Outcome
    requires closed { H.opened shelf.old ≡ Nothing }
    requires workers { (0 < means.now.workers) × (means.now.workers ≤ 16) }
    ensures runs { Runs (OnTold (task_of request) means.now.limits (H.content shelf.old) (I.left input.old)) result
        (H.content shelf.old) (H.content shelf.new) (O.held out.old) (O.held out.new) (O.faults out.old) (O.faults out.new) H.write_faults H.write_last shelf.old shelf.new }
    ensures refused { IfRefused result (λ file rec why.
        IsFileRefusal means.now.limits (H.content shelf.old) (task_of request) file rec why input.old input.new (H.opens shelf.old) (H.opens shelf.new)
        ⊎ (AreAccepted means.now.limits (H.content shelf.old) (task_of request).reads H.read_faults H.read_last shelf.old shelf.new
        × IsInputRefusal means.now.limits (task_of request).reads_input file rec why (I.left input.old) (I.left input.new))) }
    ensures read_fault { IfReadFault result (λ file.
        IsFileFault means.now.limits (H.content shelf.old) (task_of request) file H.read_faults H.read_last shelf.old shelf.new input.old input.new (H.opens shelf.old) (H.opens shelf.new)
        ⊎ (AreAccepted means.now.limits (H.content shelf.old) (task_of request).reads H.read_faults H.read_last shelf.old shelf.new
        × IsInputFault means.now.limits (task_of request).reads_input file (I.left input.old) (I.left input.new) (I.faults input.old) (I.faults input.new))) }
    ensures reads { UnlessFaulted result (SameFaults H.read_faults H.read_last shelf.old shelf.new) }
    ensures input_reads { UnlessFaulted result (I.faults input.new ≡ I.faults input.old) }
    ensures through { OnDone result (IsReadThrough (task_of request).reads_input (I.left input.new)) }
    ensures unread { (task_of request).reads_input ≡ false → input.new ≡ input.old }
    ensures no_files { (task_of request).writes_files ≡ false → IsUnwritten (H.content shelf.old) (H.content shelf.new) H.write_faults H.write_last shelf.old shelf.new }
    ensures opens { H.opens shelf.new ≤ H.opens shelf.old + length (task_of request).reads }
    ensures room { O.room out.new ≡ O.room out.old }
    ensures closed { H.opened shelf.new ≡ Nothing }
{
    match read_files(rt, means, shelf, &reads_of(&request)) {
        FilesRead::Read(found) => answer(rt, means, &request, found, shelf, input, out),
        FilesRead::Refused { place, rec, why } => {
            refuse(means.alloc, into_file(request, place), rec, why, out)
        }
        FilesRead::Fault { place } => end_at_fault(means.alloc, into_file(request, place), out),
        FilesRead::NoMemory => Outcome::NoMemory,
    }
}
