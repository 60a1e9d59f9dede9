//! The call that is the program: arguments, source and sink are given, and the answer is a status.
ghost use Rattle.std.specs.Prelude.{◌≡◌, None, map, string_bytes, IfOk, IfErr};
ghost use Rattle.omalloc.specs.Answers.{IsAccepted, IsAnswer, IsStop, IsRunAnswer, IsRefusalAnswer, IsComplete, IsArgumentsAnswer, input_of, output_of};
ghost use Rattle.omalloc.specs.Arguments.{head_of_arguments};
ghost use Rattle.omalloc.specs.Heads.{IsHead};
ghost use Rattle.omalloc.specs.Script.{IsScript};

use crate::arguments::{ArgumentsStop, read_arguments};
use crate::gate::Gate;
use crate::read::{TextStop, read};
use crate::refusal::{ArgumentRefusal, LineRefusal, Refusal};
use crate::report::{write_line, write_output};
use crate::run::run_script;
use crate::script::Script;
use crate::status::Status;
use om_io::{ReadStop, Sink, Source, WriteStop, read_all};
use om_model::Head;
use std::alloc::Global;
use std::sync::Wait;
use std::thread::Threads;

/// The head and the script of an accepted input.
#[derive(Drop)]
pub struct Prepared {
    head: Head,
    script: Script,
}

/// Reads the arguments, and where they are accepted the source to its end and the script in what was
/// read. It waits for nobody and always returns.
pub fn prepare<S: Source>(
    alloc: Global,
    arguments: &[String],
    source: &mut S,
) -> Result<Prepared, Status>
    ensures accepted { IfOk result (λ prepared. IsAccepted
        (input_of S.left S.faults (map string_bytes arguments.now) source.old source.new)
        prepared.head prepared.script) }
    ensures form { IfOk result (λ prepared. IsHead prepared.head × IsScript prepared.script) }
    ensures stopped { IfErr result (IsStop
        (input_of S.left S.faults (map string_bytes arguments.now) source.old source.new)) }
{
    let head = match read_arguments(alloc, arguments) {
        Ok(head) => head,
        Err(ArgumentsStop::NotBuilt) => {
            return Err(Status::Refused(Refusal::Argument {
                why: ArgumentRefusal::NotBuilt,
                at: 0,
            }));
        }
        Err(ArgumentsStop::Memory) => return Err(Status::Memory),
    };
    let text = match read_all(alloc, source) {
        Ok(text) => text,
        Err(ReadStop::ReadFault) => return Err(Status::ReadFault),
        Err(ReadStop::TooLong) => return Err(Status::Refused(Refusal::TooLong)),
        Err(ReadStop::Memory) => return Err(Status::Memory),
    };
    match read(alloc, text.as_slice()) {
        Ok(script) => Ok(Prepared { head, script }),
        Err(TextStop::Refused { line }) => Err(Status::Refused(Refusal::Line {
            at: line,
            why: LineRefusal::NotBuilt,
        })),
        Err(TextStop::Memory) => Err(Status::Memory),
    }
}

// Runs the script and writes the run.
fn write_run<R: Wait, K: Sink>(
    rt: &R,
    alloc: Global,
    head: &Head,
    script: &Script,
    sink: &mut K,
) -> Status
    requires head { IsHead head.now }
    requires script { IsScript script.now }
    ensures { IsRunAnswer head.now script.now
        (output_of K.written K.faults sink.old sink.new) result }
{
    let Ok(ran) = run_script(rt, alloc, head, script) else {
        return Status::Memory;
    };
    match write_output(alloc, sink, head, &ran.pool, script.name(), &ran.transcript) {
        Ok(()) if ran.faulted => Status::Faulted,
        Ok(()) => Status::Finished,
        Err(WriteStop::Failed) => Status::WriteFault,
        Err(WriteStop::Memory) => Status::Memory,
    }
}

// Writes the one line of a refusal.
fn write_refusal<K: Sink>(alloc: Global, refusal: Refusal, sink: &mut K) -> Status
    ensures { IsRefusalAnswer refusal (output_of K.written K.faults sink.old sink.new) result }
{
    match write_line(alloc, sink, refusal) {
        Ok(()) => Status::Refused(refusal),
        Err(WriteStop::Failed) => Status::WriteFault,
        Err(WriteStop::Memory) => Status::Memory,
    }
}

#[tactic(auto, using(crate::proofs::Answers::run_answer, crate::proofs::Answers::refusal_answer))]
fn answer<R: Wait, S: Source, K: Sink>(
    rt: &R,
    alloc: Global,
    arguments: &[String],
    source: &mut S,
    sink: &mut K,
) -> Status
    ensures { IsAnswer
        (input_of S.left S.faults (map string_bytes arguments.now) source.old source.new)
        (output_of K.written K.faults sink.old sink.new) result }
{
    match prepare(alloc, arguments, source) {
        Ok(prepared) => write_run(rt, alloc, &prepared.head, &prepared.script, sink),
        Err(Status::Refused(refusal)) => write_refusal(alloc, refusal, sink),
        Err(Status::ReadFault) => Status::ReadFault,
        Err(_) => Status::Memory,
    }
}

#[tactic(auto, using(crate::proofs::Answers::complete, crate::proofs::Answers::refused))]
/// The program: runs the script that the source gives, and writes what came of it, where the
/// arguments are `run`, then perhaps `-o` and option letters, then perhaps `-z` and a number of zones,
/// then perhaps `-s` and a seed or `-w` and a list of words. The gate isn't called yet.
pub fn omalloc<R: Threads + Wait + Sync, S: Source, K: Sink, G: Gate>(
    rt: &R,
    alloc: Global,
    arguments: &[String],
    source: &mut S,
    sink: &mut K,
    gate: &G,
) -> Status
    ensures answer { IsAnswer
        (input_of S.left S.faults (map string_bytes arguments.now) source.old source.new)
        (output_of K.written K.faults sink.old sink.new) result }
    ensures complete { IsComplete
        (input_of S.left S.faults (map string_bytes arguments.now) source.old source.new)
        (output_of K.written K.faults sink.old sink.new) result }
    ensures arguments { head_of_arguments (map string_bytes arguments.now) ≡ None
        → IsArgumentsAnswer result }
{
    let _ = gate;
    answer(rt, alloc, arguments, source, sink)
}
