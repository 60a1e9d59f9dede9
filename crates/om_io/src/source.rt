//! Where bytes come from.
ghost use Rattle.std.specs.Prelude.{◌≡◌, ℕ, ◌<◌, ◌≤◌, ◌↔◌, Option, None, Some, List, [], length, take, IfOk, IfSome, IsErr, IsErrOf, OnErr, OnOk, is_some, vec_len};
ghost use Rattle.om_io.specs.Source.{Gives, input_limit};

use std::alloc::{AllocError, Global};
use thiserror::Error;

/// The most bytes that an input may have.
pub const INPUT_LIMIT: usize = 16_777_216;

const BUFFER_SIZE: usize = 4096;

/// A read failed. What failed isn't told.
#[derive(Debug, Drop)]
pub struct Failed;

/// Why `read_all` gave up.
#[derive(Debug, Drop, Error)]
pub enum ReadStop {
    /// The source failed.
    #[error("the input can't be read")]
    ReadFault,
    /// The input has more than `INPUT_LIMIT` bytes.
    #[error("the input is too long")]
    TooLong,
    /// No memory was there for the bytes.
    #[error("out of memory")]
    Memory,
}

impl From<Failed> for ReadStop {
    ghost use Rattle.om_io.specs.declared.source.ReadStop.TheVariants.{ReadFault};

    ghost from_gives = { λ _ stop. stop ≡ ReadFault };

    fn from(_: Failed) -> Self {
        ReadStop::ReadFault
    }
}

impl From<AllocError> for ReadStop {
    ghost use Rattle.om_io.specs.declared.source.ReadStop.TheVariants.{Memory};

    ghost from_gives = { λ _ stop. stop ≡ Memory };

    fn from(_: AllocError) -> Self {
        ReadStop::Memory
    }
}

/// Gives bytes in pieces, up to an end.
pub trait Source {
    // The bytes still to come, where the source tells them.
    ghost left: { Self → Option (List ℕ) };

    // How many reads have failed so far.
    ghost faults: { Self → ℕ };

    /// Puts the next bytes at the front of the buffer, and says how many: 0 at the end of the
    /// input.
    fn read(&mut self, buf: &mut [u8]) -> Result<usize, Failed>
        requires { 0 < length buf.old }
        ensures count { IfOk result (λ n. n ≤ length buf.new) }
        ensures given { IfOk result (λ n. Gives (left self.old) (left self.new) (take n buf.new)) }
        ensures end { IfOk result (λ n.
            IfSome (left self.old) (λ bytes. (n ≡ 0) ↔ (bytes ≡ []))) }
        ensures kept { OnErr result (left self.new ≡ left self.old) }
        ensures still { OnOk result (faults self.new ≡ faults self.old) }
        ensures cause { OnErr result (faults self.old < faults self.new) }
        ensures buffer { length buf.new ≡ length buf.old };
}

/// Reads to the end of the input. Reading stops as soon as more than `INPUT_LIMIT` bytes came.
pub fn read_all<S: Source>(alloc: Global, source: &mut S) -> Result<Vec<u8>, ReadStop>
    ensures bytes { IfOk result (λ bytes.
        IfSome (S.left source.old) (λ input. bytes.items ≡ input)) }
    ensures end { OnOk result (IfSome (S.left source.old) (λ _. S.left source.new ≡ Some [])) }
    ensures within { IfOk result (λ bytes. vec_len bytes ≤ input_limit) }
    ensures limit { IfSome (S.left source.old) (λ input.
        input_limit < length input → IsErr result) }
    ensures too_long { IsErrOf result ReadStop.TooLong
        → IfSome (S.left source.old) (λ input. input_limit < length input) }
    ensures taken { (taken : List ℕ) × Gives (S.left source.old) (S.left source.new) taken }
    ensures told { is_some (S.left source.new) ≡ is_some (S.left source.old) }
    ensures still { OnOk result (S.faults source.new ≡ S.faults source.old) }
    ensures long { IsErrOf result ReadStop.TooLong → S.faults source.new ≡ S.faults source.old }
    ensures memory { IsErrOf result ReadStop.Memory →
        S.faults source.new ≡ S.faults source.old }
    ensures cause { IsErrOf result ReadStop.ReadFault →
        S.faults source.old < S.faults source.new }
{
    let mut bytes = Vec::new(alloc);
    let mut buffer = [0; BUFFER_SIZE];
    while bytes.len() <= INPUT_LIMIT {
        let count = source.read(&mut buffer)?;
        if count == 0 {
            return Ok(bytes);
        }
        bytes.extend_from_slice(&buffer[..count])?;
    }
    Err(ReadStop::TooLong)
}
