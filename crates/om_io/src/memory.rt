//! Sources and sinks in memory, whose pieces and failures are chosen when they are made.
ghost use Rattle.std.specs.Prelude.{◌≡◌, ◌<◌, ◌+◌, ◌≤◌, ◌↔◌, true, Some, [], ◌++◌, drop, take, length, min, is_err, if◌then◌else◌, vec_len, IfOk, IsErrOf, OnErr, OnOk};
ghost use Rattle.om_io.specs.Memory.{failures, next_fails, next_made};

use super::sink::{Sink, WriteStop};
use super::source::{Failed, Source};
use std::alloc::Global;
use std::marker::Model;

// Counts calls. Those whose numbers, from 1, are listed fail.
#[derive(Debug, Drop)]
struct Calls {
    listed: Vec<u64>,
    made: u64,
}

impl Calls {
    // Makes a call, and says whether it fails.
    #[tactic(auto, using(crate::proofs::Calls::failures_next))]
    fn next_fails(&mut self) -> bool
        ensures fails { result ≡ next_fails self.old.listed.items self.old.made }
        ensures made { self.new.made ≡ next_made self.old.made }
        ensures listed { self.new.listed.items ≡ self.old.listed.items }
        ensures count { failures self.new.listed.items self.new.made
            ≡ failures self.old.listed.items self.old.made + (if result then 1 else 0) }
    {
        let Some(number) = self.made.checked_add(1) else {
            return false;
        };
        self.made = number;
        self.listed.contains(&number)
    }
}

/// Gives bytes that it holds.
#[derive(Debug, Drop)]
pub struct MemSource {
    bytes: Vec<u8>,
    given: usize,
    piece: usize,
    calls: Calls,
}

impl Model for MemSource {
    ghost use Rattle.std.specs.Prelude.{◌≤◌, drop, vec_len};
    ghost use Rattle.om_io.specs.Memory.{Readings};

    ghost Value = { Readings };

    ghost view = { λ source. record {
      left = drop source.given source.bytes.items;
      piece = source.piece;
      listed = source.calls.listed.items;
      made = source.calls.made;
    } };

    ghost invariant = { λ source.
        (source.given ≤ vec_len source.bytes) × (1 ≤ source.piece) };
}

impl MemSource {
    /// Gives at most `piece` bytes a read. The reads whose numbers, from 1, are in `failing` fail.
    pub fn new(bytes: Vec<u8>, piece: usize, failing: Vec<u64>) -> Self
        requires { 1 ≤ piece }
        ensures { result ≡ record {
          left = bytes.items;
          piece = piece;
          listed = failing.items;
          made = 0;
        } }
    {
        MemSource {
            bytes,
            given: 0,
            piece,
            calls: Calls {
                listed: failing,
                made: 0,
            },
        }
    }
}

impl Source for MemSource {
    ghost left = { λ source. Some source.left };

    ghost faults = { λ source. failures source.listed source.made };

    fn read(&mut self, buf: &mut [u8]) -> Result<usize, Failed>
        requires { 0 < length buf.old }
        ensures fails { is_err result ≡ next_fails self.old.listed self.old.made }
        ensures exact { IfOk result (λ n.
            n ≡ min self.old.piece (min (length self.old.left) (length buf.old))) }
        ensures made { self.new.made ≡ next_made self.old.made }
        ensures piece { self.new.piece ≡ self.old.piece }
        ensures listed { self.new.listed ≡ self.old.listed }
        ensures count { IfOk result (λ n. n ≤ length buf.new) }
        ensures given { IfOk result (λ n. self.old.left ≡ take n buf.new ++ self.new.left) }
        ensures end { IfOk result (λ n. (n ≡ 0) ↔ (self.old.left ≡ [])) }
        ensures cause { OnErr result (failures self.old.listed self.old.made
            < failures self.new.listed self.new.made) }
        ensures kept { OnErr result (self.new.left ≡ self.old.left) }
        ensures still { OnOk result (failures self.new.listed self.new.made
            ≡ failures self.old.listed self.old.made) }
        ensures buffer { length buf.new ≡ length buf.old }
    {
        if self.calls.next_fails() {
            return Err(Failed);
        }
        let left = &self.bytes[self.given..];
        let count = self.piece.min(left.len()).min(buf.len());
        buf[..count].copy_from_slice(&left[..count]);
        self.given += count;
        Ok(count)
    }
}

/// Keeps the bytes that it takes.
#[derive(Debug, Drop)]
pub struct MemSink {
    bytes: Vec<u8>,
    piece: usize,
    calls: Calls,
}

impl Model for MemSink {
    ghost use Rattle.std.specs.Prelude.{◌≤◌};
    ghost use Rattle.om_io.specs.Memory.{Writings};

    ghost Value = { Writings };

    ghost view = { λ sink. record {
      taken = sink.bytes.items;
      piece = sink.piece;
      listed = sink.calls.listed.items;
      made = sink.calls.made;
    } };

    ghost invariant = { λ sink. 1 ≤ sink.piece };
}

impl MemSink {
    /// Takes at most `piece` bytes a write. The writes whose numbers, from 1, are in `failing`
    /// fail.
    pub fn new(alloc: Global, piece: usize, failing: Vec<u64>) -> Self
        requires { 1 ≤ piece }
        ensures { result ≡
            record { taken = []; piece = piece; listed = failing.items; made = 0 } }
    {
        MemSink {
            bytes: Vec::new(alloc),
            piece,
            calls: Calls {
                listed: failing,
                made: 0,
            },
        }
    }

    /// The bytes that it has taken.
    pub fn bytes(&self) -> &[u8]
        ensures { result.now ≡ self.now.taken }
    {
        self.bytes.as_slice()
    }
}

impl Sink for MemSink {
    ghost written = { λ sink. Some sink.taken };

    ghost faults = { λ sink. failures sink.listed sink.made };

    fn write(&mut self, piece: &[u8]) -> Result<usize, WriteStop>
        requires { 0 < length piece.now }
        ensures fails { (next_fails self.old.listed self.old.made ≡ true)
            ↔ IsErrOf result WriteStop.Failed }
        ensures exact { IfOk result (λ n. n ≡ min self.old.piece (length piece.now)) }
        ensures made { self.new.made ≡ next_made self.old.made }
        ensures piece { self.new.piece ≡ self.old.piece }
        ensures listed { self.new.listed ≡ self.old.listed }
        ensures count { IfOk result (λ n. (1 ≤ n) × (n ≤ length piece.now)) }
        ensures added { IfOk result (λ n. self.new.taken ≡ self.old.taken ++ take n piece.now) }
        ensures kept { OnErr result (self.new.taken ≡ self.old.taken) }
        ensures still { OnOk result (failures self.new.listed self.new.made
            ≡ failures self.old.listed self.old.made) }
        ensures cause { IsErrOf result WriteStop.Failed → failures self.old.listed self.old.made
            < failures self.new.listed self.new.made }
        ensures memory { IsErrOf result WriteStop.Memory → failures self.new.listed self.new.made
            ≡ failures self.old.listed self.old.made }
    {
        if self.calls.next_fails() {
            return Err(WriteStop::Failed);
        }
        let count = self.piece.min(piece.len());
        self.bytes.extend_from_slice(&piece[..count])?;
        Ok(count)
    }
}
