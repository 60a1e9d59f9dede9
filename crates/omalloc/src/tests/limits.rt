//! Reads and writes that fail, and input that is too long.
use super::{SCRIPT, gives_over, source_of};
use crate::refusal::{LineRefusal, Refusal};
use crate::status::Status;
use om_io::{MemSink, MemSource};
use std::alloc::Global;
use std::process::Abort;
use std::sync::Wait;
use std::test::Fail;
use std::thread::Threads;

// What comes where the read and the write with these numbers fail, byte by byte.
fn fails<R: Abort + Threads + Wait + Sync>(
    rt: &R,
    alloc: Global,
    read: u64,
    write: u64,
    wanted: (Status, &[u8]),
) -> Result<(), Fail> {
    let mut source = source_of(alloc, SCRIPT, 1, vec![in alloc; read]?)?;
    let mut sink = MemSink::new(alloc, 1, vec![in alloc; write]?);
    gives_over(rt, alloc, "run -w 0", &mut source, &mut sink, wanted)
}

#[test]
fn failures_come_where_a_call_fails(rt: HostRuntime) -> Result<(), Fail> {
    fails(&rt, rt.alloc(), 2, 0, (Status::ReadFault, b""))?;
    fails(&rt, rt.alloc(), 0, 2, (Status::WriteFault, b"o"))
}

// So many line ends have this answer.
fn answers_long_input<R: Abort + Threads + Wait + Sync>(
    rt: &R,
    alloc: Global,
    length: usize,
    wanted: (Status, &[u8]),
) -> Result<(), Fail> {
    let bytes = vec![in alloc; b'\n'; length]?;
    let mut source = MemSource::new(bytes, 65536, Vec::new(alloc));
    let mut sink = MemSink::new(alloc, 64, Vec::new(alloc));
    gives_over(rt, alloc, "run -w 0", &mut source, &mut sink, wanted)
}

// One byte more than are read, and just so many.
#[test]
fn a_longer_input_is_refused(rt: HostRuntime) -> Result<(), Fail> {
    let too_long = Status::Refused(Refusal::TooLong);
    let refused = Status::Refused(Refusal::Line {
        at: 1,
        why: LineRefusal::NotBuilt,
    });
    answers_long_input(
        &rt,
        rt.alloc(),
        16_777_217,
        (too_long, b"refused toolong\n"),
    )?;
    let line = b"refused line 1 11 NotBuilt\n";
    answers_long_input(&rt, rt.alloc(), 16_777_216, (refused, line))
}
