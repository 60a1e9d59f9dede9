//! Canaries, over the word 0: the canary byte is 1, and a store writes the byte 7.

use super::answers_over_0;
use super::trial::{Call, answers_all, pool_over};
use om_model::{Fault, Reply};
use om_opts::Opts;
use std::alloc::Global;
use std::process::Abort;
use std::sync::Wait;
use std::test::Fail;

fn guarded_by_canaries(junk: u8) -> Opts {
    Opts {
        canary: true,
        junk,
        ..Opts::default()
    }
}

// The least offset of a canary that was changed is told, and nothing is done, so that the next free tells it again.
#[test]
fn a_write_behind_a_block_is_seen(rt: HostRuntime) -> Result<(), Fail> {
    let broken = Reply::Fault(Fault::Canary { offset: 100 });
    let calls = [
        (Call::Malloc(100), Reply::Block(0x10000)),
        (Call::Load(0x10063), Reply::Byte(0)),
        (Call::Load(0x10064), Reply::Byte(1)),
        (Call::Load(0x1007f), Reply::Byte(1)),
        (Call::Store(0x1007f), Reply::Done),
        (Call::Store(0x10064), Reply::Done),
        (Call::Free(0x10000), broken),
        (Call::Free(0x10000), broken),
        (Call::Load(0x10000), Reply::Byte(0)),
    ];
    answers_over_0(&rt, rt.alloc(), guarded_by_canaries(1), &calls)
}

// The canaries of 128 bytes are at 128 to 159, in a place of 256: the byte at 160 is none.
#[test]
fn canaries_reach_32_bytes(rt: HostRuntime) -> Result<(), Fail> {
    let calls = [
        (Call::Malloc(128), Reply::Block(0x10000)),
        (Call::Load(0x1009f), Reply::Byte(1)),
        (Call::Load(0x100a0), Reply::Byte(0xdb)),
        (Call::Store(0x100a0), Reply::Done),
        (Call::Free(0x10000), Reply::Done),
        (Call::Malloc(128), Reply::Block(0x10100)),
        (Call::Store(0x1019f), Reply::Done),
        (
            Call::Free(0x10100),
            Reply::Fault(Fault::Canary { offset: 159 }),
        ),
    ];
    answers_over_0(&rt, rt.alloc(), guarded_by_canaries(2), &calls)
}

// A block of size 0 has no canary, nor has one of whole pages; 2048 bytes with one are such a block.
#[test]
fn blocks_without_canaries(rt: HostRuntime) -> Result<(), Fail> {
    let calls = [
        (Call::Malloc(0), Reply::Block(0x10000)),
        (Call::Malloc(2048), Reply::Block(0x11000)),
        (Call::Load(0x11800), Reply::Byte(0)),
        (Call::Store(0x11800), Reply::Done),
        (Call::Free(0x11000), Reply::Done),
        (Call::Free(0x10000), Reply::Done),
        (Call::Malloc(2047), Reply::Block(0x11000)),
        (Call::Load(0x117ff), Reply::Byte(1)),
    ];
    answers_over_0(&rt, rt.alloc(), guarded_by_canaries(1), &calls)
}

// The words 6, 0, ..: the canary byte is 7, which a store writes too.
#[test]
fn the_same_byte_is_not_seen(rt: HostRuntime) -> Result<(), Fail> {
    let mut pool = pool_over(
        rt.alloc(),
        guarded_by_canaries(1),
        vec![in rt.alloc(); 6, 0, 0, 0]?,
    )?;
    let calls = [
        (Call::Malloc(100), Reply::Block(0x10000)),
        (Call::Store(0x10064), Reply::Done),
        (Call::Free(0x10000), Reply::Done),
    ];
    answers_all(&rt, &mut pool, &calls)?;
    Ok(())
}

// Each canary behind blocks of a size, each of them changed in a block of its own.
fn each_offset<R: Abort + Wait>(
    rt: &R,
    alloc: Global,
    size: u64,
    stride: u64,
    count: u64,
) -> Result<(), Fail> {
    assert!(rt; size <= 2048 && stride <= 2048 && count <= 32);
    let mut pool = pool_over(alloc, guarded_by_canaries(1), vec![in alloc; 0]?)?;
    for i in 0..count {
        let block = 0x10000 + stride * i;
        let offset = size + i;
        let calls = [
            (Call::Malloc(size), Reply::Block(block)),
            (Call::Store(block + offset), Reply::Done),
            (Call::Free(block), Reply::Fault(Fault::Canary { offset })),
        ];
        answers_all(rt, &mut pool, &calls)?;
    }
    Ok(())
}

#[test]
fn each_canary_is_looked_at(rt: HostRuntime) -> Result<(), Fail> {
    each_offset(&rt, rt.alloc(), 15, 16, 1)?;
    each_offset(&rt, rt.alloc(), 16, 32, 16)?;
    each_offset(&rt, rt.alloc(), 100, 128, 28)?;
    each_offset(&rt, rt.alloc(), 1024, 2048, 32)
}
