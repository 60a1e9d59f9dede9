//! Where bytes go.
ghost use Rattle.std.specs.Prelude.{◌≡◌, ℕ, ◌<◌, ◌≤◌, Option, List, length, take, IfOk, IsErrOf, OnErr, OnOk};
ghost use Rattle.om_io.specs.Sink.{Appends, Writes};

use std::alloc::AllocError;
use thiserror::Error;

/// Why a write added nothing.
#[derive(Debug, Drop, Error)]
pub enum WriteStop {
    /// The sink failed.
    #[error("the output can't be written")]
    Failed,
    /// No memory was there for the bytes.
    #[error("out of memory")]
    Memory,
}

impl From<AllocError> for WriteStop {
    ghost use Rattle.om_io.specs.declared.sink.WriteStop.TheVariants.{Memory};

    ghost from_gives = { λ _ stop. stop ≡ Memory };

    fn from(_: AllocError) -> Self {
        WriteStop::Memory
    }
}

/// Takes bytes in pieces.
pub trait Sink {
    // The bytes taken so far, where the sink tells them.
    ghost written: { Self → Option (List ℕ) };

    // How many writes have failed so far.
    ghost faults: { Self → ℕ };

    /// Adds bytes from the front of the piece, at least one, and says how many.
    fn write(&mut self, piece: &[u8]) -> Result<usize, WriteStop>
        requires { 0 < length piece.now }
        ensures count { IfOk result (λ n. (1 ≤ n) × (n ≤ length piece.now)) }
        ensures added { IfOk result (λ n.
            Appends (written self.old) (written self.new) (take n piece.now)) }
        ensures kept { OnErr result (written self.new ≡ written self.old) }
        ensures still { OnOk result (faults self.new ≡ faults self.old) }
        ensures cause { IsErrOf result WriteStop.Failed → faults self.old < faults self.new }
        ensures memory { IsErrOf result WriteStop.Memory → faults self.new ≡ faults self.old };
}

// Writes the bytes in as many pieces as the sink asks for, and says how many of them it took.
pub(crate) fn write_front<K: Sink>(sink: &mut K, bytes: &[u8]) -> (usize, Result<(), WriteStop>)
    ensures within { result.0 ≤ length bytes.now }
    ensures added { Appends (K.written sink.old) (K.written sink.new) (take result.0 bytes.now) }
    ensures all { OnOk result.1 (result.0 ≡ length bytes.now) }
    ensures part { IsErrOf result.1 WriteStop.Failed → result.0 < length bytes.now }
    ensures still { OnOk result.1 (K.faults sink.new ≡ K.faults sink.old) }
    ensures cause { IsErrOf result.1 WriteStop.Failed → K.faults sink.old < K.faults sink.new }
    ensures memory { IsErrOf result.1 WriteStop.Memory → K.faults sink.new ≡ K.faults sink.old }
{
    let mut done = 0;
    while done < bytes.len() {
        match sink.write(&bytes[done..]) {
            Ok(count) => done += count,
            Err(stop) => return (done, Err(stop)),
        }
    }
    (done, Ok(()))
}

/// Writes all the bytes, in as many pieces as the sink asks for. A failed write isn't tried again.
pub fn write_all<K: Sink>(sink: &mut K, bytes: &[u8]) -> Result<(), WriteStop>
    ensures { Writes K.written K.faults sink.old sink.new bytes.now result }
{
    write_front(sink, bytes).1
}
