//! Sources and sinks of bytes: the traits, the calls that read and write all, what meets the traits
//! in memory and over std's readers and writers, and a sink that buffers.
#![tactic(auto)]

mod buffered;
mod memory;
mod sink;
mod source;
mod standard;

pub use buffered::BufferedSink;
pub use memory::{MemSink, MemSource};
pub use sink::{Sink, WriteStop, write_all};
pub use source::{Failed, INPUT_LIMIT, ReadStop, Source, read_all};
pub use standard::{StdSink, StdSource};

#[cfg(test)]
mod tests;
