//! Blocks of whole pages, over the word 0: the first goes on page 0, each other one on the lowest run.

use super::trial::{Call, Trial, answers_all, pool_in};
use super::{answers_over_0, at_level};
use om_geom::MOST_ZONES;
use om_model::{Fault, Reply, Segv, Why};
use om_opts::Opts;
use om_words::Words;
use std::alloc::{AllocError, Global};
use std::process::Abort;
use std::sync::Wait;
use std::test::Fail;

fn guarded() -> Opts {
    Opts {
        guard: true,
        ..Opts::default()
    }
}

// What no class holds has whole pages, as many as it needs, and a guard page where the option says so.
#[test]
fn sizes_take_whole_pages(rt: HostRuntime) -> Result<(), Fail> {
    let calls = [
        (Call::Malloc(2049), Reply::Block(0x10000)),
        (Call::Malloc(4096), Reply::Block(0x11000)),
        (Call::Malloc(4097), Reply::Block(0x12000)),
        (Call::Malloc(2048), Reply::Block(0x14000)),
        (Call::Malloc(131_072), Reply::Block(0x30000)),
    ];
    answers_over_0(&rt, rt.alloc(), Opts::default(), &calls)?;
    let calls = [
        (Call::Malloc(2049), Reply::Block(0x10000)),
        (Call::Malloc(4096), Reply::Block(0x12000)),
        (Call::Malloc(4097), Reply::Block(0x14000)),
        (Call::Malloc(2048), Reply::Block(0x17000)),
        (Call::Malloc(126_976), Reply::Block(0x30000)),
    ];
    answers_over_0(&rt, rt.alloc(), guarded(), &calls)
}

// A zone has 32 pages, and the guard is one of them.
#[test]
fn what_no_zone_holds_is_too_large(rt: HostRuntime) -> Result<(), Fail> {
    let large = Reply::Null(Why::TooLarge);
    let calls = [
        (Call::Malloc(131_073), large),
        (Call::Malloc(u64::MAX), large),
        (Call::Malloc(131_072), Reply::Block(0x10000)),
    ];
    answers_over_0(&rt, rt.alloc(), Opts::default(), &calls)?;
    let calls = [
        (Call::Malloc(131_072), large),
        (Call::Malloc(126_977), large),
        (Call::Malloc(126_976), Reply::Block(0x10000)),
    ];
    answers_over_0(&rt, rt.alloc(), guarded(), &calls)
}

#[test]
fn nulls_for_size_are_faults_where_asked(rt: HostRuntime) -> Result<(), Fail> {
    let opts = Opts {
        xmalloc: true,
        ..Opts::default()
    };
    let calls = [(
        Call::Malloc(131_073),
        Reply::Fault(Fault::OutOfMemory(Why::TooLarge)),
    )];
    answers_over_0(&rt, rt.alloc(), opts, &calls)
}

// One byte beyond the data pages is on the guard, and the page behind the guard is not held.
#[test]
fn a_guard_stops_each_access(rt: HostRuntime) -> Result<(), Fail> {
    let barred = Reply::Fault(Fault::Segmentation(Segv::Guard));
    let bogus = Reply::Fault(Fault::Bogus);
    let calls = [
        (Call::Malloc(5000), Reply::Block(0x10000)),
        (Call::Store(0x11fff), Reply::Done),
        (Call::Store(0x12000), barred),
        (Call::Load(0x12fff), barred),
        (Call::Load(0x13000), Reply::Miss),
        (Call::Free(0x12000), bogus),
        (Call::Free(0x11000), bogus),
        (Call::Free(0x10001), bogus),
        (Call::Free(0x10000), Reply::Done),
        (Call::Free(0x10000), bogus),
        (Call::Free(0x12000), bogus),
        (Call::Load(0x12000), Reply::Byte(0)),
    ];
    answers_over_0(&rt, rt.alloc(), guarded(), &calls)
}

#[test]
fn free_pages_can_be_shut(rt: HostRuntime) -> Result<(), Fail> {
    let shut = Reply::Fault(Fault::Segmentation(Segv::Protected));
    let opts = Opts {
        unmap: true,
        ..Opts::default()
    };
    let calls = [
        (Call::Malloc(5000), Reply::Block(0x10000)),
        (Call::Free(0x10000), Reply::Done),
        (Call::Load(0x10000), shut),
        (Call::Store(0x11fff), shut),
        (Call::Malloc(4096), Reply::Block(0x10000)),
        (Call::Load(0x10000), Reply::Byte(0xdf)),
        (Call::Load(0x11000), shut),
    ];
    answers_over_0(&rt, rt.alloc(), opts, &calls)
}

// The first byte, the last of 2048, the one behind it, and the last of the data pages, before and after the free.
fn junk_of<R: Abort + Wait>(
    rt: &R,
    alloc: Global,
    junk: u8,
    fresh: u8,
    front: u8,
    rest: u8,
) -> Result<(), Fail> {
    let calls = [
        (Call::Malloc(5000), Reply::Block(0x10000)),
        (Call::Load(0x10000), Reply::Byte(fresh)),
        (Call::Load(0x11fff), Reply::Byte(fresh)),
        (Call::Free(0x10000), Reply::Done),
        (Call::Load(0x10000), Reply::Byte(front)),
        (Call::Load(0x107ff), Reply::Byte(front)),
        (Call::Load(0x10800), Reply::Byte(rest)),
        (Call::Load(0x11fff), Reply::Byte(rest)),
    ];
    answers_over_0(rt, alloc, at_level(junk), &calls)
}

#[test]
fn junk_of_pages_at_each_level(rt: HostRuntime) -> Result<(), Fail> {
    junk_of(&rt, rt.alloc(), 0, 0, 0, 0)?;
    junk_of(&rt, rt.alloc(), 1, 0, 0xdf, 0)?;
    junk_of(&rt, rt.alloc(), 2, 0xdb, 0xdf, 0xdf)
}

fn over_0_in<R: Abort + Wait>(
    rt: &R,
    alloc: Global,
    opts: Opts,
    zones: u32,
    calls: &[(Call, Reply)],
) -> Result<(), Fail> {
    assert!(rt; 1 <= zones && zones <= MOST_ZONES);
    let words = Words::listed(vec![in alloc; 0]?)?;
    let mut pool: Trial = pool_in(alloc, opts, words, zones)?;
    answers_all(rt, &mut pool, calls)?;
    Ok(())
}

// Two runs of 3 pages are free in the end of zone 0 and of zone 1, but no run of 4.
#[test]
fn no_run_crosses_a_zone(rt: HostRuntime) -> Result<(), Fail> {
    let calls = [
        (Call::Malloc(118_784), Reply::Block(0x10000)),
        (Call::Malloc(118_784), Reply::Block(0x30000)),
        (Call::Malloc(16_384), Reply::Null(Why::NoRun)),
        (Call::Malloc(12_288), Reply::Block(0x2d000)),
        (Call::Malloc(12_288), Reply::Block(0x4d000)),
        (Call::Malloc(16), Reply::Null(Why::NoRun)),
    ];
    over_0_in(&rt, rt.alloc(), Opts::default(), 2, &calls)
}

// The pages that a freed block leaves are given again, the lowest run that is long enough.
#[test]
fn the_lowest_run_is_taken(rt: HostRuntime) -> Result<(), Fail> {
    let calls = [
        (Call::Malloc(4096), Reply::Block(0x10000)),
        (Call::Malloc(4096), Reply::Block(0x11000)),
        (Call::Malloc(8192), Reply::Block(0x12000)),
        (Call::Malloc(4096), Reply::Block(0x14000)),
        (Call::Free(0x10000), Reply::Done),
        (Call::Free(0x12000), Reply::Done),
        (Call::Malloc(8192), Reply::Block(0x12000)),
        (Call::Malloc(4096), Reply::Block(0x10000)),
    ];
    over_0_in(&rt, rt.alloc(), Opts::default(), 1, &calls)
}

// The cache keeps 2 pages: a run of 3 is let go as one, and a run of 2 stays.
#[test]
fn a_run_is_kept_or_let_go_as_one(rt: HostRuntime) -> Result<(), Fail> {
    let opts = Opts {
        cache: 2,
        ..Opts::default()
    };
    let calls = [
        (Call::Malloc(8192), Reply::Block(0x10000)),
        (Call::Malloc(12_288), Reply::Block(0x12000)),
        (Call::Free(0x12000), Reply::Done),
        (Call::Load(0x12000), Reply::Miss),
        (Call::Load(0x14fff), Reply::Miss),
        (Call::Free(0x10000), Reply::Done),
        (Call::Load(0x11fff), Reply::Byte(0)),
        (Call::Free(0x10000), Reply::Fault(Fault::Bogus)),
    ];
    over_0_in(&rt, rt.alloc(), opts, 1, &calls)
}
