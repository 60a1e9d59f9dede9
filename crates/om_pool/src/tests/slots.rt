//! Places that wait in their slots: second frees, and writes after a free. A store writes the byte 7.
ghost use Rattle.std.specs.Prelude.{◌≤◌};

use super::answers_over_0;
use super::trial::{Call, answers, answers_all, pool_in, pool_over};
use om_model::{Fault, Reply};
use om_opts::Opts;
use om_words::Words;
use std::alloc::{AllocError, Global};
use std::process::Abort;
use std::sync::Wait;
use std::test::Fail;

fn checked(freecheck: bool, junk: u8) -> Opts {
    Opts {
        freecheck,
        junk,
        ..Opts::default()
    }
}

fn written(addr: u64, offset: u64) -> Reply {
    Reply::Fault(Fault::WriteAfterFree { addr, offset })
}

// Over the words 0, 1, ..: the first free takes slot 1, and another the slot 0, so that only freecheck looks at
// the place that was written.
fn freed_in_other_slot<R: Abort + Wait>(
    rt: &R,
    alloc: Global,
    opts: Opts,
    wanted: Reply,
) -> Result<(), Fail> {
    let calls = [
        (Call::Malloc(100), Reply::Block(0x11000)),
        (Call::Malloc(100), Reply::Block(0x11080)),
        (Call::Free(0x11000), Reply::Done),
        (Call::Store(0x11000), Reply::Done),
        (Call::Free(0x11080), wanted),
    ];
    let mut pool = pool_over(alloc, opts, vec![in alloc; 0, 1]?)?;
    answers_all(rt, &mut pool, &calls)?;
    Ok(())
}

#[test]
fn freecheck_looks_at_every_slot(rt: HostRuntime) -> Result<(), Fail> {
    freed_in_other_slot(&rt, rt.alloc(), checked(false, 1), Reply::Done)?;
    freed_in_other_slot(&rt, rt.alloc(), checked(true, 1), written(0x11000, 0))?;
    freed_in_other_slot(&rt, rt.alloc(), checked(true, 2), written(0x11000, 0))
}

// The least offset is told. Nothing is done, so that the block can be loaded, and the next free tells it again.
#[test]
fn a_write_is_seen_where_its_slot_is_drawn(rt: HostRuntime) -> Result<(), Fail> {
    let calls = [
        (Call::Malloc(100), Reply::Block(0x10000)),
        (Call::Malloc(100), Reply::Block(0x10080)),
        (Call::Free(0x10000), Reply::Done),
        (Call::Store(0x1007f), Reply::Done),
        (Call::Store(0x10005), Reply::Done),
        (Call::Free(0x10080), written(0x10000, 5)),
        (Call::Load(0x10080), Reply::Byte(0)),
        (Call::Free(0x10080), written(0x10000, 5)),
        (Call::Free(0x10000), Reply::Fault(Fault::DoubleFree)),
    ];
    answers_over_0(&rt, rt.alloc(), checked(false, 1), &calls)
}

// At level 0 nothing is filled, and nothing looked for.
#[test]
fn level_0_sees_no_write(rt: HostRuntime) -> Result<(), Fail> {
    let calls = [
        (Call::Malloc(100), Reply::Block(0x10000)),
        (Call::Malloc(100), Reply::Block(0x10080)),
        (Call::Free(0x10000), Reply::Done),
        (Call::Store(0x10005), Reply::Done),
        (Call::Free(0x10080), Reply::Done),
    ];
    answers_over_0(&rt, rt.alloc(), checked(true, 0), &calls)
}

// A broken canary is told before a write to a place that waits.
#[test]
fn canaries_come_first(rt: HostRuntime) -> Result<(), Fail> {
    let opts = Opts {
        canary: true,
        ..checked(true, 1)
    };
    let calls = [
        (Call::Malloc(100), Reply::Block(0x10000)),
        (Call::Malloc(100), Reply::Block(0x10080)),
        (Call::Free(0x10000), Reply::Done),
        (Call::Store(0x10000), Reply::Done),
        (Call::Store(0x100e4), Reply::Done),
        (
            Call::Free(0x10080),
            Reply::Fault(Fault::Canary { offset: 100 }),
        ),
    ];
    answers_over_0(&rt, rt.alloc(), opts, &calls)
}

fn each_byte<R: Abort + Wait>(rt: &R, alloc: Global, size: u64) -> Result<(), Fail> {
    assert!(rt; 16 <= size && size <= 2048);
    for offset in 0..size {
        let calls = [
            (Call::Malloc(size), Reply::Block(0x10000)),
            (Call::Malloc(size), Reply::Block(0x10000 + size)),
            (Call::Free(0x10000), Reply::Done),
            (Call::Store(0x10000 + offset), Reply::Done),
            (Call::Free(0x10000 + size), written(0x10000, offset)),
        ];
        let mut pool = pool_in(
            alloc,
            checked(false, 1),
            Words::listed(vec![in alloc; 0]?)?,
            1,
        )?;
        answers_all(rt, &mut pool, &calls)?;
    }
    Ok(())
}

#[test]
fn each_byte_of_a_place_is_looked_at(rt: HostRuntime) -> Result<(), Fail> {
    each_byte(&rt, rt.alloc(), 16)?;
    each_byte(&rt, rt.alloc(), 128)
}

// The words of a pool that gives so many blocks, whose frees take the slots from `first` on, and at last `last`.
fn steering(alloc: Global, blocks: u32, first: u32, last: u32) -> Result<Vec<u32>, AllocError>
    requires blocks { blocks ≤ 18 }
    requires first { first ≤ 16 }
{
    let mut words = Vec::new(alloc);
    for _ in 0..2 * blocks + 1 {
        words.push(0)?;
    }
    for i in 0..blocks {
        words.push(first + i)?;
    }
    words.push(last)?;
    Ok(words)
}

// What a second free is answered after so many others.
fn second(others: u32, seen: bool) -> Reply {
    if 16 <= others {
        Reply::Fault(Fault::AlreadyFree)
    } else if seen {
        Reply::Fault(Fault::DoubleFree)
    } else {
        Reply::Done
    }
}

// A second free after so many others: its place waits in the slot `first`, and the slot `last` is drawn.
fn freed_again<R: Abort + Wait>(
    rt: &R,
    alloc: Global,
    freecheck: bool,
    others: u32,
    first: u32,
    last: u32,
) -> Result<(), Fail> {
    assert!(rt; others <= 17 && first <= 16);
    let words = steering(alloc, others + 1, first, last)?;
    let mut pool = pool_in(alloc, checked(freecheck, 1), Words::listed(words)?, 1)?;
    for i in 0..others + 1 {
        let block = Reply::Block(0x10000 + 128 * u64::from(i));
        answers(rt, &mut pool, Call::Malloc(100), block)?;
    }
    for i in 0..others + 1 {
        let block = 0x10000 + 128 * u64::from(i);
        answers(rt, &mut pool, Call::Free(block), Reply::Done)?;
    }
    let seen = freecheck || first % 16 == last % 16;
    answers(rt, &mut pool, Call::Free(0x10000), second(others, seen))?;
    Ok(())
}

// After 1 to 17 other frees, which take the slots in turn: where the place's own slot is drawn, and where the next
// is.
#[test]
fn second_frees_are_seen_while_the_place_waits(rt: HostRuntime) -> Result<(), Fail> {
    for others in 1..18 {
        for last in others - 1..others + 1 {
            freed_again(&rt, rt.alloc(), false, others, others - 1, last)?;
            freed_again(&rt, rt.alloc(), true, others, others - 1, last)?;
        }
    }
    Ok(())
}
