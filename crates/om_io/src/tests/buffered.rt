//! A text of two words that goes through a buffer. The functions are a small report, whose contracts
//! show how those of a larger one are stated.
ghost use Rattle.std.specs.Prelude.{◌≡◌, ◌++◌, OnOk, codes};
ghost use Rattle.om_io.specs.Sink.{Writes};
ghost use Rattle.om_io.specs.Buffered.{Adds};

use crate::*;
use std::alloc::{AllocError, Global};
use std::test::Fail;

fn push_word(out: &mut Vec<u8>) -> Result<(), AllocError>
    ensures { OnOk result (out.new.items ≡ out.old.items ++ codes "word") }
{
    out.extend_from_slice(b"word")
}

fn write_word<K: Sink>(out: &mut BufferedSink<'_, K>) -> Result<(), WriteStop>
    ensures { Adds K.written K.faults out.old out.new (codes "word") result }
{
    push_word(out.waiting)?;
    out.settle()
}

fn write_two<K: Sink>(out: &mut BufferedSink<'_, K>) -> Result<(), WriteStop>
    ensures { Adds K.written K.faults out.old out.new (codes "word" ++ codes "word") result }
{
    write_word(out)?;
    write_word(out)
}

fn write_text<K: Sink>(alloc: Global, sink: &mut K) -> Result<(), WriteStop>
    ensures { Writes K.written K.faults sink.old sink.new (codes "word" ++ codes "word") result }
{
    let mut waiting = Vec::new(alloc);
    let mut out = BufferedSink::new(sink, &mut waiting);
    write_two(&mut out)?;
    out.flush()
}

#[test]
fn two_words(rt: HostRuntime) -> Result<(), Fail> {
    let mut sink = MemSink::new(rt.alloc(), 7, Vec::new(rt.alloc()));
    write_text(rt.alloc(), &mut sink)?;
    assert_eq!(rt; sink.bytes(), b"wordword".as_slice());
    Ok(())
}

#[test]
fn the_second_write_fails(rt: HostRuntime) -> Result<(), Fail> {
    let mut sink = MemSink::new(rt.alloc(), 7, vec![in rt.alloc(); 2]?);
    let result = write_text(rt.alloc(), &mut sink);
    assert!(rt; matches!(result, Err(WriteStop::Failed)));
    assert_eq!(rt; sink.bytes(), b"wordwor".as_slice());
    Ok(())
}

#[test]
fn what_was_not_taken_still_waits(rt: HostRuntime) -> Result<(), Fail> {
    let mut sink = MemSink::new(rt.alloc(), 7, vec![in rt.alloc(); 2]?);
    let mut waiting = Vec::new(rt.alloc());
    let mut out = BufferedSink::new(&mut sink, &mut waiting);
    write_all(&mut out, b"two words")?;
    assert!(rt; matches!(out.flush(), Err(WriteStop::Failed)));
    assert_eq!(rt; out.waiting.as_slice(), b"ds".as_slice());
    out.flush()?;
    assert_eq!(rt; sink.bytes(), b"two words".as_slice());
    Ok(())
}

#[test]
fn many_bytes_go_on(rt: HostRuntime) -> Result<(), Fail> {
    let mut sink = MemSink::new(rt.alloc(), 10_000, Vec::new(rt.alloc()));
    let mut waiting = Vec::new(rt.alloc());
    let mut out = BufferedSink::new(&mut sink, &mut waiting);
    write_two(&mut out)?;
    let few = out.waiting.len();
    for _ in 0..65_536 {
        out.waiting.push(1)?;
    }
    out.settle()?;
    assert_eq!(rt; few, 8);
    assert_eq!(rt; waiting.len(), 0);
    assert_eq!(rt; sink.bytes().len(), 65_544);
    Ok(())
}
