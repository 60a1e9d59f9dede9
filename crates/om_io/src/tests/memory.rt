//! Sources and sinks in memory.
use crate::*;
use std::test::Fail;

#[test]
fn single_bytes_are_joined(rt: HostRuntime) -> Result<(), Fail> {
    let mut source = MemSource::new(vec![in rt.alloc(); 3, 1, 2]?, 1, Vec::new(rt.alloc()));
    let bytes = read_all(rt.alloc(), &mut source)?;
    assert_eq!(rt; bytes.as_slice(), [3, 1, 2].as_slice());
    let mut sink = MemSink::new(rt.alloc(), 1, Vec::new(rt.alloc()));
    write_all(&mut sink, bytes.as_slice())?;
    assert_eq!(rt; sink.bytes(), bytes.as_slice());
    Ok(())
}

#[test]
fn the_second_read_fails(rt: HostRuntime) -> Result<(), Fail> {
    let mut source = MemSource::new(vec![in rt.alloc(); 3, 1, 2]?, 2, vec![in rt.alloc(); 2]?);
    let result = read_all(rt.alloc(), &mut source);
    assert!(rt; matches!(result, Err(ReadStop::ReadFault)));
    // The third read gives what is left.
    let rest = read_all(rt.alloc(), &mut source)?;
    assert_eq!(rt; rest.as_slice(), [2].as_slice());
    Ok(())
}

#[test]
fn the_second_write_fails(rt: HostRuntime) -> Result<(), Fail> {
    let mut sink = MemSink::new(rt.alloc(), 2, vec![in rt.alloc(); 2]?);
    let result = write_all(&mut sink, b"text");
    assert!(rt; matches!(result, Err(WriteStop::Failed)));
    assert_eq!(rt; sink.bytes(), b"te".as_slice());
    Ok(())
}
