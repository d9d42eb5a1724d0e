// How a run ends that has nothing else to write: a line on the sink, and the outcome that it goes with.
ghost use Rattle.std.specs.Prelude.{◌≡◌, IfOk};
ghost use Rattle.rel_base.specs.declared.why.Why.TheVariants.{Bytes};
ghost use Rattle.report_text.specs.Outcome.{file_line, fault_line};
ghost use Rattle.profile_cli.specs.Output as asked;
ghost use Rattle.profile_cli.specs.Ends.{EndsWith};
ghost use Rattle.profile_cli.specs.declared.outcome.Outcome.TheVariants.{Refused, ReadFault};

use crate::Outcome;
use ports::{Sink, put_all};
use rel_base::{Name, Why};
use report_text::{fault_line, file_line};
use std::alloc::{AllocError, Global};

/// Names the file that is refused. What the sink answers does not change the outcome.
pub(crate) fn refuse<O: Sink>(alloc: Global, file: Name, rec: u64, why: Why, out: &mut O) -> Outcome
    ensures ends { EndsWith result (Refused file rec why) (file_line file rec why) (O.held out.old) (O.held out.new) (O.faults out.old) (O.faults out.new) }
    ensures room { O.room out.new ≡ O.room out.old }
{
    match file_line(alloc, &file, rec, why) {
        Ok(line) => {
            put_all(out, line.as_slice());
            Outcome::Refused { file, rec, why }
        }
        Err(_) => Outcome::NoMemory,
    }
}

/// Names the file that could not be read. What the sink answers does not change the outcome.
pub(crate) fn end_at_fault<O: Sink>(alloc: Global, file: Name, out: &mut O) -> Outcome
    ensures ends { EndsWith result (ReadFault file) (fault_line file) (O.held out.old) (O.held out.new) (O.faults out.old) (O.faults out.new) }
    ensures room { O.room out.new ≡ O.room out.old }
{
    match fault_line(alloc, &file) {
        Ok(line) => {
            put_all(out, line.as_slice());
            Outcome::ReadFault { file }
        }
        Err(_) => Outcome::NoMemory,
    }
}

/// Refuses an input that is longer than the limit.
pub(crate) fn refuse_input<O: Sink>(alloc: Global, out: &mut O) -> Outcome
    ensures ends { EndsWith result (Refused asked.input_name 0 Bytes) (file_line asked.input_name 0 Bytes) (O.held out.old) (O.held out.new) (O.faults out.old) (O.faults out.new) }
    ensures room { O.room out.new ≡ O.room out.old }
{
    match input_name(alloc) {
        Ok(name) => refuse(alloc, name, 0, Why::Bytes, out),
        Err(_) => Outcome::NoMemory,
    }
}

/// Says that the input could not be read.
pub(crate) fn end_at_input_fault<O: Sink>(alloc: Global, out: &mut O) -> Outcome
    ensures ends { EndsWith result (ReadFault asked.input_name) (fault_line asked.input_name) (O.held out.old) (O.held out.new) (O.faults out.old) (O.faults out.new) }
    ensures room { O.room out.new ≡ O.room out.old }
{
    match input_name(alloc) {
        Ok(name) => end_at_fault(alloc, name, out),
        Err(_) => Outcome::NoMemory,
    }
}

// What stands for the input where a line names it.
fn input_name(alloc: Global) -> Result<Name, AllocError>
    ensures { IfOk result (λ name. name ≡ asked.input_name) }
{
    Ok(Name::of(String::from_str(alloc, "-")?))
}
