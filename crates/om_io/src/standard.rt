//! Sources and sinks over std's readers and writers. Those of a file or a terminal tell nothing of
//! their bytes, so neither does what stands over them.
ghost use Rattle.std.specs.Prelude.{◌≡◌, ◌+◌, ◌<◌, ◌≤◌, None, length, IfOk, IsErrOf, OnErr, OnOk};
ghost use Rattle.std.specs.Io.KnownBytes.{ReadConsumes, WriteAppends};
ghost use Rattle.om_io.specs.Counts.{last_number};

use super::sink::{Sink, WriteStop};
use super::source::{Failed, Source};
use std::io::{Read, Write};

/// Reads from a reader of std. It doesn't tell the bytes to come.
#[derive(Drop)]
pub struct StdSource<R> {
    inner: R,
    faults: u64,
}

impl<R: Read> StdSource<R> {
    /// No read has failed yet. Each error of the reader counts as one failure, an interrupted read
    /// too. After 2^64 - 1 of them, which can't be counted further, the reader isn't asked any more,
    /// and each read answers the end of the input.
    pub fn new(inner: R) -> Self
        ensures { ⟦<StdSource<R> as Source>⟧.faults result ≡ 0 }
    {
        StdSource { inner, faults: 0 }
    }
}

impl<R: Read> Source for StdSource<R> {
    ghost left = { λ _. None };

    ghost faults = { λ source. source.faults };

    fn read(&mut self, buf: &mut [u8]) -> Result<usize, Failed>
        requires { 0 < length buf.old }
        ensures inner { self.old.faults < last_number → ReadConsumes (R.remaining self.old.inner)
            (R.remaining self.new.inner) result buf.new }
        ensures count { IfOk result (λ n. n ≤ length buf.new) }
        ensures still { OnOk result (self.new.faults ≡ self.old.faults) }
        ensures cause { OnErr result (self.new.faults ≡ self.old.faults + 1) }
        ensures buffer { length buf.new ≡ length buf.old }
    {
        let Some(faults) = self.faults.checked_add(1) else {
            return Ok(0);
        };
        match self.inner.read(buf) {
            Ok(count) => Ok(count),
            Err(_) => {
                self.faults = faults;
                Err(Failed)
            }
        }
    }
}

/// Writes to a writer of std. It doesn't tell the bytes that it has taken.
#[derive(Drop)]
pub struct StdSink<W> {
    inner: W,
    faults: u64,
}

impl<W: Write> StdSink<W> {
    /// No write has failed yet. Each error of the writer counts as one failure, and so does a write
    /// that takes nothing. After 2^64 - 1 of them, which can't be counted further, the writer isn't
    /// asked any more, and each write answers `Memory`.
    pub fn new(inner: W) -> Self
        ensures { ⟦<StdSink<W> as Sink>⟧.faults result ≡ 0 }
    {
        StdSink { inner, faults: 0 }
    }
}

impl<W: Write> Sink for StdSink<W> {
    ghost written = { λ _. None };

    ghost faults = { λ sink. sink.faults };

    fn write(&mut self, piece: &[u8]) -> Result<usize, WriteStop>
        requires { 0 < length piece.now }
        ensures inner { WriteAppends (W.contents self.old.inner) (W.contents self.new.inner) result
            piece.now }
        ensures count { IfOk result (λ n. (1 ≤ n) × (n ≤ length piece.now)) }
        ensures still { OnOk result (self.new.faults ≡ self.old.faults) }
        ensures cause { IsErrOf result WriteStop.Failed →
            self.new.faults ≡ self.old.faults + 1 }
        ensures memory { IsErrOf result WriteStop.Memory → self.new.faults ≡ self.old.faults }
        ensures full { IsErrOf result WriteStop.Memory → self.old.faults ≡ last_number }
    {
        let Some(faults) = self.faults.checked_add(1) else {
            return Err(WriteStop::Memory);
        };
        match self.inner.write(piece) {
            Ok(count) if count > 0 => Ok(count),
            _ => {
                self.faults = faults;
                Err(WriteStop::Failed)
            }
        }
    }
}
