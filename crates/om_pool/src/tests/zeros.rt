//! Blocks of zeros.

use super::answers_over_0;
use super::trial::Call;
use om_model::{Fault, Reply, Why};
use om_opts::Opts;
use std::test::Fail;

fn full_of_junk() -> Opts {
    Opts {
        junk: 2,
        ..Opts::default()
    }
}

// Behind the bytes that were asked for the place is full of junk.
#[test]
fn a_block_of_zeros(rt: HostRuntime) -> Result<(), Fail> {
    let calls = [
        (Call::Malloc(100), Reply::Block(0x10000)),
        (Call::Load(0x10000), Reply::Byte(0xdb)),
        (Call::Calloc(4, 4), Reply::Block(0x11000)),
        (Call::Load(0x11000), Reply::Byte(0)),
        (Call::Load(0x1100f), Reply::Byte(0)),
        (Call::Calloc(5, 4), Reply::Block(0x12000)),
        (Call::Load(0x12013), Reply::Byte(0)),
        (Call::Load(0x12014), Reply::Byte(0xdb)),
        (Call::Load(0x1201f), Reply::Byte(0xdb)),
        (Call::Calloc(3, 2001), Reply::Block(0x13000)),
        (Call::Load(0x14000), Reply::Byte(0)),
        (Call::Load(0x14772), Reply::Byte(0)),
        (Call::Load(0x14773), Reply::Byte(0xdb)),
    ];
    answers_over_0(&rt, rt.alloc(), full_of_junk(), &calls)
}

// A place that was used before is zeros again.
#[test]
fn zeros_where_a_block_was(rt: HostRuntime) -> Result<(), Fail> {
    let calls = [
        (Call::Malloc(100), Reply::Block(0x10000)),
        (Call::Store(0x10063), Reply::Done),
        (Call::Free(0x10000), Reply::Done),
        (Call::Malloc(100), Reply::Block(0x10080)),
        (Call::Free(0x10080), Reply::Done),
        (Call::Calloc(1, 100), Reply::Block(0x10000)),
        (Call::Load(0x10063), Reply::Byte(0)),
        (Call::Load(0x10064), Reply::Byte(0xdf)),
    ];
    answers_over_0(&rt, rt.alloc(), Opts::default(), &calls)
}

#[test]
fn products_that_no_zone_holds(rt: HostRuntime) -> Result<(), Fail> {
    let items = 1 << 32;
    let calls = [
        (Call::Calloc(items, items), Reply::Null(Why::Overflow)),
        (Call::Calloc(items, items - 1), Reply::Null(Why::TooLarge)),
        (Call::Calloc(0, items), Reply::Block(0x10000)),
    ];
    answers_over_0(&rt, rt.alloc(), Opts::default(), &calls)?;
    let strict = Opts {
        xmalloc: true,
        ..Opts::default()
    };
    let refused = Reply::Fault(Fault::OutOfMemory(Why::Overflow));
    answers_over_0(
        &rt,
        rt.alloc(),
        strict,
        &[(Call::Calloc(items, items), refused)],
    )
}
