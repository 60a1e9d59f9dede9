//! What is refused, and the line that tells it.
use super::{SCRIPT, gives};
use crate::refusal::{ArgumentRefusal, LineRefusal, Refusal};
use crate::status::Status;
use std::alloc::Global;
use std::process::Abort;
use std::sync::Wait;
use std::test::Fail;
use std::thread::Threads;

fn refuses_line<R: Abort + Threads + Wait + Sync>(
    rt: &R,
    alloc: Global,
    text: &str,
    at: u32,
) -> Result<(), Fail> {
    let why = LineRefusal::NotBuilt;
    let status = Status::Refused(Refusal::Line { at, why });
    let written = format!(in alloc; "refused line {at} 11 NotBuilt\n")?;
    gives(rt, alloc, "run -w 0", text, status, written.as_bytes())
}

#[test]
fn other_lines_are_refused(rt: HostRuntime) -> Result<(), Fail> {
    refuses_line(&rt, rt.alloc(), "", 1)?;
    let large = "script a\nmalloc x 18446744073709551616\nend\n";
    refuses_line(&rt, rt.alloc(), large, 2)?;
    let one_name = "script a\nmalloc x 1\nrealloc x 2\nend\n";
    refuses_line(&rt, rt.alloc(), one_name, 3)
}

fn refuses_arguments<R: Abort + Threads + Wait + Sync>(
    rt: &R,
    alloc: Global,
    line: &str,
) -> Result<(), Fail> {
    let why = ArgumentRefusal::NotBuilt;
    let status = Status::Refused(Refusal::Argument { why, at: 0 });
    gives(
        rt,
        alloc,
        line,
        SCRIPT,
        status,
        b"refused words 9 NotBuilt at 0\n",
    )
}

#[test]
fn other_arguments_are_refused(rt: HostRuntime) -> Result<(), Fail> {
    let lines = [
        "",
        "run -o",
        "run -s",
        "run -w",
        "run -s 1 -w 0",
        "run -w 0 -s 1",
        "run -w 0 -o C",
        "run -w 0 -o J",
        "run -o J -o J",
        "run -o J -s",
        "run -o X",
        "run -o D",
        "run -o RX",
        "run -o SX",
        "run -o Df",
        "run -o -",
        "run -o --",
        "run -s ",
        "run -s -1",
        "run -s +1",
        "run -s 18446744073709551616",
        "run -s 000000000000000000001",
        "run -w ",
        "run -w ,",
        "run -w 1,",
        "run -w ,1",
        "run -w 1,,2",
        "run -w 4294967296",
        "run -w 0x1",
        "run -w 0 0",
        "run -w=0",
        "run -z",
        "run -z ",
        "run -z 0",
        "run -z 65",
        "run -z -1",
        "run -z +1",
        "run -z 0x1",
        "run -z 1,2",
        "run -z 18446744073709551617",
        "run -z 000000000000000000001",
        "run -z 1 2",
        "run -z 1 -z 1",
        "run -z 1 -o G",
        "run -w 0 -z 1",
        "run -o G -z 1 -s",
        "run -o D -z 1",
        "-w 0 run",
        "Run",
        "run run",
        "stress 16 1",
    ];
    for line in lines {
        refuses_arguments(&rt, rt.alloc(), line)?;
    }
    Ok(())
}
