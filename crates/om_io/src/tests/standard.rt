//! Sources and sinks over std's readers and writers.
use crate::*;
use std::io::{self, ErrorKind, Read, Write};
use std::test::Fail;

/// Gives the numbers from 1 to 5, one a read, and fails once, after so many of them.
#[derive(Drop)]
struct FailsOnce {
    given: u8,
    failing: u8,
}

impl Read for FailsOnce {
    fn read(&mut self, buf: &mut [u8]) -> io::Result<usize> {
        if self.failing == self.given {
            self.failing = u8::MAX;
            return Err(io::Error::from(ErrorKind::Other));
        }
        if self.given >= 5 {
            return Ok(0);
        }
        let Some(first) = buf.first_mut() else {
            return Ok(0);
        };
        self.given += 1;
        *first = self.given;
        Ok(1)
    }
}

/// Takes a byte a write, and fails once it has taken `room` of them.
#[derive(Drop)]
struct Slow {
    taken: Vec<u8>,
    room: usize,
}

impl Write for Slow {
    fn write(&mut self, buf: &[u8]) -> io::Result<usize> {
        if self.taken.len() == self.room {
            return Err(io::Error::from(ErrorKind::Other));
        }
        let count = buf.len().min(1);
        self.taken.extend_from_slice(&buf[..count])?;
        Ok(count)
    }

    fn flush(&mut self) -> io::Result<()> {
        Ok(())
    }
}

/// Takes nothing.
#[derive(Drop)]
struct Shut;

impl Write for Shut {
    fn write(&mut self, _: &[u8]) -> io::Result<usize> {
        Ok(0)
    }

    fn flush(&mut self) -> io::Result<()> {
        Ok(())
    }
}

#[test]
fn std_reads_and_writes(rt: HostRuntime) -> Result<(), Fail> {
    let bytes = read_all(rt.alloc(), &mut StdSource::new(b"text".as_slice()))?;
    let mut written = Vec::new(rt.alloc());
    write_all(&mut StdSink::new(&mut written), bytes.as_slice())?;
    assert_eq!(rt; written.as_slice(), b"text".as_slice());
    Ok(())
}

#[test]
fn a_first_failure_is_no_end(rt: HostRuntime) -> Result<(), Fail> {
    let mut source = StdSource::new(FailsOnce {
        given: 0,
        failing: 0,
    });
    let result = read_all(rt.alloc(), &mut source);
    assert!(rt; matches!(result, Err(ReadStop::ReadFault)));
    let bytes = read_all(rt.alloc(), &mut source)?;
    assert_eq!(rt; bytes.as_slice(), [1, 2, 3, 4, 5].as_slice());
    Ok(())
}

#[test]
fn a_later_failure_is_no_end(rt: HostRuntime) -> Result<(), Fail> {
    let mut source = StdSource::new(FailsOnce {
        given: 0,
        failing: 3,
    });
    let result = read_all(rt.alloc(), &mut source);
    assert!(rt; matches!(result, Err(ReadStop::ReadFault)));
    let rest = read_all(rt.alloc(), &mut source)?;
    assert_eq!(rt; rest.as_slice(), [4, 5].as_slice());
    Ok(())
}

#[test]
fn a_short_write_is_no_whole_one(rt: HostRuntime) -> Result<(), Fail> {
    let mut writer = Slow {
        taken: Vec::new(rt.alloc()),
        room: 4,
    };
    write_all(&mut StdSink::new(&mut writer), b"text")?;
    assert_eq!(rt; writer.taken.as_slice(), b"text".as_slice());
    Ok(())
}

#[test]
fn the_writer_fails_after_three_bytes(rt: HostRuntime) -> Result<(), Fail> {
    let mut writer = Slow {
        taken: Vec::new(rt.alloc()),
        room: 3,
    };
    let result = write_all(&mut StdSink::new(&mut writer), b"text");
    assert!(rt; matches!(result, Err(WriteStop::Failed)));
    assert_eq!(rt; writer.taken.as_slice(), b"tex".as_slice());
    Ok(())
}

#[test]
fn a_writer_that_takes_nothing_fails(rt: HostRuntime) -> Result<(), Fail> {
    let result = write_all(&mut StdSink::new(Shut), b"text");
    assert!(rt; matches!(result, Err(WriteStop::Failed)));
    Ok(())
}
