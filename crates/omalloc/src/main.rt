//! The program: the arguments of the process, the top call and what it is made of.
#![tactic(auto)]

mod arguments;
mod bytes;
mod call;
mod command;
mod edge;
mod gate;
mod read;
mod refusal;
mod report;
mod run;
mod script;
mod status;
#[cfg(test)]
mod tests;

use edge::{arguments_of, call_with, exit_code};
use gate::NoGate;
use om_io::{StdSink, StdSource};
use std::process::ExitCode;
use std::{env, io};

fn main(rt: HostRuntime) -> ExitCode {
    let all = arguments_of(rt.alloc(), env::args(&rt));
    let mut source = StdSource::new(rt.reader());
    let mut sink = StdSink::new(io::writer(&rt));
    let status = call_with(&rt, rt.alloc(), &all, &mut source, &mut sink, &NoGate);
    exit_code(status)
}
