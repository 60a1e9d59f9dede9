//! What lies between the process and the call: the arguments of the process, and the status as its
//! exit code.
ghost use Rattle.std.specs.Prelude.{◌≡◌, [], take, drop, map, string_bytes, IfOk, OnErr};
ghost use Rattle.std.specs.Process.{exit_status};
ghost use Rattle.std.specs.Vec.Iter.{into_iter_items, into_iter_len};
ghost use Rattle.omalloc.specs.Answers.{IsAnswer, WritesNothing, NothingRead, code_of, input_of, output_of};

use crate::call::omalloc;
use crate::gate::Gate;
use crate::status::Status;
use om_io::{Sink, Source};
use std::alloc::{AllocError, Global};
use std::env::Args;
use std::io;
use std::process::ExitCode;
use std::sync::Wait;
use std::thread::Threads;

// The arguments in their order, none left out.
fn listed(alloc: Global, given: Args) -> Result<Vec<String>, AllocError>
    ensures { IfOk result (λ all.
        all.items ≡ take (into_iter_len given) (into_iter_items given)) }
{
    let mut all = Vec::new(alloc);
    for argument in given {
        all.push(argument)?;
    }
    Ok(all)
}

/// The arguments of the process, the program's name first; none where one isn't text.
pub fn arguments_of(alloc: Global, given: io::Result<Args>) -> Result<Vec<String>, AllocError>
    ensures text { IfOk given (λ args. IfOk result (λ all.
        all.items ≡ take (into_iter_len args) (into_iter_items args))) }
    ensures other { OnErr given (IfOk result (λ all. all.items ≡ [])) }
{
    match given {
        Ok(args) => listed(alloc, args),
        Err(e) if e.kind() == io::ErrorKind::OutOfMemory => Err(AllocError),
        Err(_) => Ok(Vec::new(alloc)),
    }
}

// The arguments after the program's name.
fn after_name(all: &[String]) -> &[String]
    ensures { result.now ≡ drop 1 all.now }
{
    match all {
        [] => all,
        [_, arguments @ ..] => arguments,
    }
}

// The call with the arguments after the program's name.
fn call_after_name<R: Threads + Wait + Sync, S: Source, K: Sink, G: Gate>(
    rt: &R,
    alloc: Global,
    all: &[String],
    source: &mut S,
    sink: &mut K,
    gate: &G,
) -> Status
    ensures { IsAnswer
        (input_of S.left S.faults (map string_bytes (drop 1 all.now)) source.old source.new)
        (output_of K.written K.faults sink.old sink.new) result }
{
    omalloc(rt, alloc, after_name(all), source, sink, gate)
}

/// The call with these arguments, the program's name first, if memory was there for them.
pub fn call_with<R: Threads + Wait + Sync, S: Source, K: Sink, G: Gate>(
    rt: &R,
    alloc: Global,
    all: &Result<Vec<String>, AllocError>,
    source: &mut S,
    sink: &mut K,
    gate: &G,
) -> Status
    ensures called { IfOk all.now (λ given. IsAnswer
        (input_of S.left S.faults (map string_bytes (drop 1 given.items)) source.old source.new)
        (output_of K.written K.faults sink.old sink.new) result) }
    ensures short { OnErr all.now (result ≡ Status.Memory) }
    ensures nothing_read { OnErr all.now
        (NothingRead (input_of S.left S.faults [] source.old source.new)) }
    ensures nothing_written { OnErr all.now
        (WritesNothing (output_of K.written K.faults sink.old sink.new)) }
{
    match all {
        Ok(all) => call_after_name(rt, alloc, all.as_slice(), source, sink, gate),
        Err(_) => Status::Memory,
    }
}

/// The status with which the process exits.
pub fn exit_code(status: Status) -> ExitCode
    ensures { exit_status result ≡ code_of status }
{
    ExitCode::from(status.code())
}
