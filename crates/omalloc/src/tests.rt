//! Whole runs, over sources and sinks in memory. The expected texts are computed by hand.

ghost use Rattle.std.specs.Prelude.{◌≤◌};

mod blocks;
mod cache;
mod canaries;
mod delays;
mod heads;
mod limits;
mod model;
mod plain;
mod refused;
mod resizing;
mod script_run;
mod scripts;
mod steps;

use crate::call::omalloc;
use crate::gate::NoGate;
use crate::status::Status;
use om_io::{MemSink, MemSource};
use std::alloc::{AllocError, Global};
use std::process::Abort;
use std::sync::Wait;
use std::test::Fail;
use std::thread::Threads;

fn push_argument(
    alloc: Global,
    arguments: &mut Vec<String>,
    argument: &str,
) -> Result<(), AllocError> {
    arguments.push(String::from_str(alloc, argument)?)?;
    Ok(())
}

// The arguments of a line; a space more makes an empty one.
fn arguments_of(alloc: Global, line: &str) -> Result<Vec<String>, AllocError> {
    let mut arguments = Vec::new(alloc);
    for argument in line.split(' ') {
        push_argument(alloc, &mut arguments, argument)?;
    }
    Ok(arguments)
}

// A source of the text, of which each read gives up to so many bytes, and those with these numbers fail.
fn source_of(
    alloc: Global,
    text: &str,
    piece: usize,
    failing: Vec<u64>,
) -> Result<MemSource, AllocError>
    requires { 1 ≤ piece }
{
    let bytes = text.as_bytes().to_vec(alloc)?;
    Ok(MemSource::new(bytes, piece, failing))
}

// A line of arguments has this answer, and this is written.
fn gives_over<R: Abort + Threads + Wait + Sync>(
    rt: &R,
    alloc: Global,
    line: &str,
    source: &mut MemSource,
    sink: &mut MemSink,
    (status, written): (Status, &[u8]),
) -> Result<(), Fail> {
    let arguments = arguments_of(alloc, line)?;
    let answer = omalloc(rt, alloc, &arguments, source, sink, &NoGate);
    assert_eq!(rt; answer, status, "{line}");
    assert_eq!(rt; sink.bytes(), written, "{line}");
    Ok(())
}

fn gives<R: Abort + Threads + Wait + Sync>(
    rt: &R,
    alloc: Global,
    line: &str,
    text: &str,
    status: Status,
    written: &[u8],
) -> Result<(), Fail> {
    let mut source = source_of(alloc, text, 7, Vec::new(alloc))?;
    let mut sink = MemSink::new(alloc, 5, Vec::new(alloc));
    gives_over(rt, alloc, line, &mut source, &mut sink, (status, written))
}

// The output of a run of the script a: what stands from the zones on, the pool's canary with its entries, and the
// outcomes with the ending.
fn output_of(alloc: Global, head: &str, pool: &str, outcomes: &str) -> Result<String, AllocError> {
    format!(in alloc;
        "omalloc 1\nzones {head}pool 0 canary {pool}board entries 0\nscript 0 a\n{outcomes}done\n"
    )
}

fn gives_output<R: Abort + Threads + Wait + Sync>(
    rt: &R,
    alloc: Global,
    line: &str,
    text: &str,
    status: Status,
    (head, pool, outcomes): (&str, &str, &str),
) -> Result<(), Fail> {
    let written = output_of(alloc, head, pool, outcomes)?;
    gives(rt, alloc, line, text, status, written.as_bytes())
}

// The arguments and the text, the end, and the three parts of the output.
struct Case {
    line: &'static str,
    text: &'static str,
    status: Status,
    head: &'static str,
    pool: &'static str,
    outcomes: &'static str,
}

fn gives_all<R: Abort + Threads + Wait + Sync>(
    rt: &R,
    alloc: Global,
    cases: &[Case],
) -> Result<(), Fail> {
    for case in cases {
        let output = (case.head, case.pool, case.outcomes);
        gives_output(rt, alloc, case.line, case.text, case.status, output)?;
    }
    Ok(())
}

// The zones and what follows them in the head, where no letter is given and the words are those of list 0.
const LIST_0: &str = "64 pools 1 flags ------- junk 1 cache 64\nwords list 0\n";

// A block and its free.
const SCRIPT: &str = "script a\nmalloc x 100\nfree x\nend\n";
