ghost use Rattle.std.specs.Prelude.{◌≤◌};

mod blocks;
mod canaries;
mod judges;
mod lawful;
mod slots;
mod trial;
mod zeros;

use super::*;
use om_geom::MOST_ZONES;
use om_model::{Entry, Fault, Journal, Move, Reply, Segv, slow};
use om_opts::Opts;
use om_words::Words;
use std::alloc::{AllocError, Global};
use std::process::Abort;
use std::sync::Wait;
use std::test::Fail;
use trial::{Call, Trial, answers, answers_all, pool_in, pool_over};

// A pool that draws one word again and again.
fn pool_of(alloc: Global, opts: Opts, word: u32) -> Result<Trial, Fail> {
    pool_over(alloc, opts, vec![in alloc; word]?)
}

// Over the word 0 alone, places and pages are taken one behind the other.
fn answers_over_0<R: Abort + Wait>(
    rt: &R,
    alloc: Global,
    opts: Opts,
    calls: &[(Call, Reply)],
) -> Result<(), Fail> {
    let mut pool = pool_of(alloc, opts, 0)?;
    answers_all(rt, &mut pool, calls)?;
    Ok(())
}

// A pool over the words 5, 5, ..: the canary byte is 6, and the block goes on page 5, at place 5.
#[test]
fn words_choose_page_and_place(rt: HostRuntime) -> Result<(), Fail> {
    let mut pool = pool_of(rt.alloc(), Opts::default(), 5)?;
    assert_eq!(rt; pool.canary(), 6);
    answers(&rt, &mut pool, Call::Malloc(100), Reply::Block(0x15280))?;
    assert_eq!(rt; slow::picked_place(&[], 5, 128, 5), Some(5));
    Ok(())
}

fn first_block_in<R: Abort + Wait>(
    rt: &R,
    alloc: Global,
    zones: u32,
    address: u64,
) -> Result<(), Fail> {
    assert!(rt; 1 <= zones && zones <= MOST_ZONES);
    let words = Words::listed(vec![in alloc; 101]?)?;
    let mut pool = pool_in(alloc, Opts::default(), words, zones)?;
    answers(rt, &mut pool, Call::Malloc(100), Reply::Block(address))?;
    Ok(())
}

// The word 101 names zone 3, counted round, and page 5 there.
#[test]
fn zones_are_counted_round(rt: HostRuntime) -> Result<(), Fail> {
    for (zones, address) in [(1, 0x15280), (2, 0x35280), (64, 0x75280)] {
        first_block_in(&rt, rt.alloc(), zones, address)?;
    }
    Ok(())
}

// Every free takes slot 0, so a second free is seen.
#[test]
fn a_double_free_is_seen(rt: HostRuntime) -> Result<(), Fail> {
    let calls = [
        (Call::Malloc(100), Reply::Block(0x10000)),
        (Call::Free(0x10000), Reply::Done),
        (Call::Free(0x10000), Reply::Fault(Fault::DoubleFree)),
    ];
    answers_over_0(&rt, rt.alloc(), Opts::default(), &calls)
}

// The words 1, 0, 0, 1, 2: the second free draws a slot that doesn't hold the place.
fn freed_twice<R: Abort + Wait>(
    rt: &R,
    alloc: Global,
    freecheck: bool,
    wanted: Reply,
) -> Result<(), Fail> {
    let opts = Opts {
        freecheck,
        ..Opts::default()
    };
    let calls = [
        (Call::Malloc(100), Reply::Block(0x10000)),
        (Call::Free(0x10000), Reply::Done),
        (Call::Free(0x10000), wanted),
    ];
    let mut pool = pool_over(alloc, opts, vec![in alloc; 1, 0, 0, 1, 2]?)?;
    answers_all(rt, &mut pool, &calls)?;
    Ok(())
}

#[test]
fn freecheck_sees_every_slot(rt: HostRuntime) -> Result<(), Fail> {
    freed_twice(&rt, rt.alloc(), false, Reply::Done)?;
    freed_twice(&rt, rt.alloc(), true, Reply::Fault(Fault::DoubleFree))
}

// With canaries a place of 128 bytes has no room for a block of 128.
#[test]
fn canaries_take_the_next_class(rt: HostRuntime) -> Result<(), Fail> {
    let opts = Opts {
        canary: true,
        ..Opts::default()
    };
    let calls = [
        (Call::Malloc(128), Reply::Block(0x10000)),
        (Call::Malloc(128), Reply::Block(0x10100)),
    ];
    answers_over_0(&rt, rt.alloc(), opts, &calls)
}

// Two blocks fill a page, so the blocks lie one behind the other.
fn fill<R: Abort + Wait>(rt: &R, pool: &mut Trial, blocks: u32) -> Result<(), AllocError> {
    for i in 0..blocks {
        let block = Reply::Block(0x10000 + 2048 * u64::from(i));
        answers(rt, pool, Call::Malloc(2048), block)?;
    }
    Ok(())
}

fn free_all<R: Abort + Wait>(rt: &R, pool: &mut Trial, blocks: u32) -> Result<(), AllocError> {
    for i in 0..blocks {
        let call = Call::Free(0x10000 + 2048 * u64::from(i));
        answers(rt, pool, call, Reply::Done)?;
    }
    Ok(())
}

fn releases<R: Abort>(rt: &R, entry: &Entry, wanted: Option<Move>) {
    if let Entry::Call(call) = entry {
        assert_eq!(rt; call.release, wanted);
    }
}

// Entry number `at` releases so, and no other entry releases.
fn release_once<R: Abort>(rt: &R, journal: &Journal, at: usize, released: Move) {
    for (i, entry) in journal.as_slice().iter().enumerate() {
        let wanted = if i == at { Some(released) } else { None };
        releases(rt, entry, wanted);
    }
}

// The block that is freed waits, and the one before it becomes free. So the last free but one
// leaves one free page more than the cache keeps.
fn judge_release<R: Abort + Wait>(rt: &R, pool: &mut Trial, cache: u32) -> Result<(), AllocError>
    requires { cache ≤ 256 }
{
    let blocks = 2 * cache + 4;
    fill(rt, pool, blocks)?;
    free_all(rt, pool, blocks)?;
    let released = Move {
        zone: cache / 32,
        version: cache % 32 + 3,
        first: cache % 32,
        count: 1,
    };
    release_once(rt, pool.journal(), 2 * blocks as usize - 2, released);
    let gone = Call::Free(0x10000 + 4096 * u64::from(cache));
    answers(rt, pool, gone, Reply::Miss)
}

fn release_past<R: Abort + Wait>(rt: &R, alloc: Global, cache: u32) -> Result<(), Fail>
    requires { cache ≤ 256 }
{
    let opts = Opts {
        cache,
        ..Opts::default()
    };
    let mut pool = pool_of(alloc, opts, 0)?;
    judge_release(rt, &mut pool, cache)?;
    Ok(())
}

#[test]
fn one_page_more_than_the_cache_is_released(rt: HostRuntime) -> Result<(), Fail> {
    release_past(&rt, rt.alloc(), 0)?;
    release_past(&rt, rt.alloc(), 1)?;
    release_past(&rt, rt.alloc(), 64)?;
    release_past(&rt, rt.alloc(), 256)
}

#[test]
fn bytes_of_a_block(rt: HostRuntime) -> Result<(), Fail> {
    let calls = [
        (Call::Malloc(100), Reply::Block(0x10000)),
        (Call::Load(0x10000), Reply::Byte(0)),
        (Call::Free(0x10000), Reply::Done),
        (Call::Load(0x1007f), Reply::Byte(0xdf)),
    ];
    answers_over_0(&rt, rt.alloc(), Opts::default(), &calls)
}

fn at_level(junk: u8) -> Opts {
    Opts {
        junk,
        ..Opts::default()
    }
}

#[test]
fn bytes_of_a_block_full_of_junk(rt: HostRuntime) -> Result<(), Fail> {
    let calls = [
        (Call::Malloc(100), Reply::Block(0x10000)),
        (Call::Load(0x1007f), Reply::Byte(0xdb)),
        (Call::Store(0x10063), Reply::Done),
        (Call::Load(0x10063), Reply::Byte(7)),
    ];
    answers_over_0(&rt, rt.alloc(), at_level(2), &calls)
}

#[test]
fn blocks_of_size_0_have_no_bytes(rt: HostRuntime) -> Result<(), Fail> {
    let barred = Reply::Fault(Fault::Segmentation(Segv::Protected));
    let calls = [
        (Call::Malloc(0), Reply::Block(0x10000)),
        (Call::Malloc(0), Reply::Block(0x10010)),
        (Call::Load(0x10000), barred),
        (Call::Store(0x10fff), barred),
    ];
    answers_over_0(&rt, rt.alloc(), Opts::default(), &calls)
}

// A block's first byte and the last of its place; the same byte when the place waits, and its
// neighbour's first; the page when it is free, where a block was and where none was.
fn junk_of<R: Abort + Wait>(
    rt: &R,
    alloc: Global,
    junk: u8,
    fresh: u8,
    freed: u8,
) -> Result<(), Fail> {
    let calls = [
        (Call::Malloc(100), Reply::Block(0x10000)),
        (Call::Malloc(100), Reply::Block(0x10080)),
        (Call::Malloc(2048), Reply::Block(0x11000)),
        (Call::Load(0x10000), Reply::Byte(fresh)),
        (Call::Load(0x1007f), Reply::Byte(fresh)),
        (Call::Free(0x10000), Reply::Done),
        (Call::Load(0x1007f), Reply::Byte(freed)),
        (Call::Load(0x10080), Reply::Byte(fresh)),
        (Call::Free(0x10080), Reply::Done),
        (Call::Free(0x11000), Reply::Done),
        (Call::Load(0x1007f), Reply::Byte(freed)),
        (Call::Load(0x10100), Reply::Byte(0)),
    ];
    answers_over_0(rt, alloc, at_level(junk), &calls)
}

#[test]
fn junk_at_each_level(rt: HostRuntime) -> Result<(), Fail> {
    junk_of(&rt, rt.alloc(), 0, 0, 0)?;
    junk_of(&rt, rt.alloc(), 1, 0, 0xdf)?;
    junk_of(&rt, rt.alloc(), 2, 0xdb, 0xdf)
}

// Page 0 is held alone.
#[test]
fn bytes_at_the_edges_of_a_page(rt: HostRuntime) -> Result<(), Fail> {
    let calls = [
        (Call::Malloc(100), Reply::Block(0x10000)),
        (Call::Store(0xffff), Reply::Miss),
        (Call::Store(0x10000), Reply::Done),
        (Call::Store(0x10fff), Reply::Done),
        (Call::Store(0x11000), Reply::Miss),
        (Call::Load(0xffff), Reply::Miss),
        (Call::Load(0x10000), Reply::Byte(7)),
        (Call::Load(0x10001), Reply::Byte(0)),
        (Call::Load(0x10ffe), Reply::Byte(0)),
        (Call::Load(0x10fff), Reply::Byte(7)),
        (Call::Load(0x11000), Reply::Miss),
    ];
    answers_over_0(&rt, rt.alloc(), Opts::default(), &calls)
}

// No free page is kept. The second free evicts the place of page 0, which is released.
#[test]
fn a_released_page_comes_back_as_zeros(rt: HostRuntime) -> Result<(), Fail> {
    let opts = Opts {
        cache: 0,
        ..Opts::default()
    };
    let calls = [
        (Call::Malloc(100), Reply::Block(0x10000)),
        (Call::Malloc(2048), Reply::Block(0x11000)),
        (Call::Store(0x10800), Reply::Done),
        (Call::Free(0x10000), Reply::Done),
        (Call::Free(0x11000), Reply::Done),
        (Call::Load(0x10800), Reply::Miss),
        (Call::Malloc(100), Reply::Block(0x10000)),
        (Call::Load(0x10000), Reply::Byte(0)),
        (Call::Load(0x10800), Reply::Byte(0)),
    ];
    answers_over_0(&rt, rt.alloc(), opts, &calls)
}
