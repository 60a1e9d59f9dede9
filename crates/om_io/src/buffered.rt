//! A sink with a buffer before it, for a text that is made in small pieces.
ghost use Rattle.std.specs.Prelude.{◌≡◌, ◌≤◌, [], length, IsOk, OnOk};
ghost use Rattle.om_io.specs.Buffered.{buffer_size, meaning, Adds, HandsOn, Went};

use super::sink::{Sink, WriteStop, write_front};

// More bytes than this don't wait once they are settled.
const BUFFER_SIZE: usize = 65536;

/// Hands bytes on to a sink once they are many. Until then they wait in the buffer, to which a
/// caller adds them. The buffer is the caller's: of a struct that owns memory no proof would know
/// what the sink has become once the struct is gone.
#[derive(Drop)]
pub struct BufferedSink<'a, K> {
    sink: &'a mut K,
    /// The bytes that wait. Add to them, and then call `settle`.
    pub waiting: &'a mut Vec<u8>,
}

impl<'a, K: Sink> BufferedSink<'a, K> {
    /// What the buffer holds waits.
    pub fn new(sink: &'a mut K, waiting: &'a mut Vec<u8>) -> BufferedSink<'a, K>
        ensures same_sink { result.sink.ghost_name ≡ sink.entry.ghost_name }
        ensures same_buffer { result.waiting.ghost_name ≡ waiting.entry.ghost_name }
        ensures sink { result.sink.now ≡ sink.old }
        ensures waiting { result.waiting.now ≡ waiting.old }
    {
        BufferedSink { sink, waiting }
    }

    /// Hands on all that waits, if it is more than 65,536 bytes. After an error what the sink hasn't
    /// taken still waits.
    pub fn settle(&mut self) -> Result<(), WriteStop>
        ensures added { Adds K.written K.faults self.old self.new [] result }
        ensures kept { HandsOn (K.written self.old.sink.now) (K.written self.new.sink.now)
            self.old.waiting.now.items self.new.waiting.now.items }
        ensures short { OnOk result (length self.new.waiting.now.items ≤ buffer_size) }
        ensures few { length self.old.waiting.now.items ≤ buffer_size → IsOk result
            × (self.new.sink.now ≡ self.old.sink.now)
            × (self.new.waiting.now.items ≡ self.old.waiting.now.items) }
    {
        if self.waiting.len() > BUFFER_SIZE {
            self.flush()?;
        }
        Ok(())
    }

    /// Hands on all that waits. After an error what the sink hasn't taken still waits.
    pub fn flush(&mut self) -> Result<(), WriteStop>
        ensures added { Adds K.written K.faults self.old self.new [] result }
        ensures kept { HandsOn (K.written self.old.sink.now) (K.written self.new.sink.now)
            self.old.waiting.now.items self.new.waiting.now.items }
        ensures all { OnOk result (self.new.waiting.now.items ≡ []) }
    {
        hand_on(self.sink, self.waiting)
    }
}

/// Its bytes are those that the sink has taken, and then those that wait.
impl<K: Sink> Sink for BufferedSink<'_, K> {
    ghost written = { meaning K.written };

    ghost faults = { λ out. K.faults out.sink.now };

    fn write(&mut self, piece: &[u8]) -> Result<usize, WriteStop> {
        self.settle()?;
        self.waiting.extend_from_slice(piece)?;
        Ok(piece.len())
    }
}

// Hands on all that waits.
fn hand_on<K: Sink>(sink: &mut K, waiting: &mut Vec<u8>) -> Result<(), WriteStop>
    ensures went { Went K.written K.faults sink.old sink.new waiting.old.items waiting.new.items
        result }
    ensures kept { HandsOn (K.written sink.old) (K.written sink.new)
        waiting.old.items waiting.new.items }
    ensures all { OnOk result (waiting.new.items ≡ []) }
{
    let (count, result) = write_front(sink, waiting.as_slice());
    waiting.rotate_left(count);
    waiting.truncate(waiting.len() - count);
    result
}
