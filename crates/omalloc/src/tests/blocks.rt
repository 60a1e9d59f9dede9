//! Blocks of whole pages: sizes, guards, what is kept and released, holes, and the last zone. The outputs are worked
//! out by hand.
use super::{Case, LIST_0, gives_all, gives_output};
use crate::status::Status;
use std::alloc::Global;
use std::process::Abort;
use std::sync::Wait;
use std::test::Fail;
use std::thread::Threads;

const GUARDED: &str = "64 pools 1 flags --G---- junk 1 cache 64\nwords list 0\n";

const ONE_ZONE: &str = "1 pools 1 flags ------- junk 1 cache 64\nwords list 0\n";

// A block of 20 pages leaves no room for another in the only zone. A block that is freed stays with the pool, and
// serves the next one. A zone that is too full is passed over. Word 31 starts at the last bit, where two pages
// don't fit.
const RUNS: [Case; 4] = [
    Case {
        line: "run -z 1 -w 0",
        text: "script a\nmalloc x 81920\nmalloc y 81920\nend\n",
        status: Status::Finished,
        head: ONE_ZONE,
        pool: "01 entries 2
0 1 0 malloc 81920 @0x0 = block 0x10000 w 0 claim 0@1 0+20
0 2 0 malloc 81920 @0x0 = null norun w 0 look 0@1
",
        outcomes: "1 block 0x10000\n2 null norun\nfinished\n",
    },
    Case {
        line: "run -z 1 -w 0",
        text: "script a\nmalloc x 131072\nfree x\nmalloc y 131072\nend\n",
        status: Status::Finished,
        head: ONE_ZONE,
        pool: "01 entries 3
0 1 0 malloc 131072 @0x0 = block 0x10000 w 0 claim 0@1 0+32
0 2 0 free 0x10000 = done
0 3 0 malloc 131072 @0x0 = block 0x10000 w 0
",
        outcomes: "1 block 0x10000\n2 done\n3 block 0x10000\nfinished\n",
    },
    Case {
        line: "run -w 0",
        text: "script a\nmalloc a 2048\nmalloc b 2049\nmalloc c 131072\nmalloc d 131073\nend\n",
        status: Status::Finished,
        head: LIST_0,
        pool: "01 entries 4
0 1 0 malloc 2048 @0x0 = block 0x10000 w 0 0 claim 0@1 0+1
0 2 0 malloc 2049 @0x0 = block 0x11000 w 0 claim 0@2 1+1
0 3 0 malloc 131072 @0x0 = block 0x30000 w 0 look 0@2 claim 1@1 0+32
0 4 0 malloc 131073 @0x0 = null toolarge
",
        outcomes: "1 block 0x10000\n2 block 0x11000\n3 block 0x30000\n4 null toolarge\nfinished\n",
    },
    Case {
        line: "run -w 31",
        text: "script a\nmalloc p 8192\nend\n",
        status: Status::Finished,
        head: "64 pools 1 flags ------- junk 1 cache 64\nwords list 31\n",
        pool: "20 entries 1\n0 1 0 malloc 8192 @0x0 = block 0x10000 w 31 claim 0@1 0+2\n",
        outcomes: "1 block 0x10000\nfinished\n",
    },
];

#[test]
fn runs_are_found(rt: HostRuntime) -> Result<(), Fail> {
    gives_all(&rt, rt.alloc(), &RUNS)
}

// A guard follows the data, and counts among the pages of a block. It isn't filled, and can be touched once the
// block is freed.
const GUARDS: [Case; 3] = [
    Case {
        line: "run -o G -w 0",
        text: "script a\nmalloc x 4096\nload x 4095\nstore x 4096 1\nend\n",
        status: Status::Faulted,
        head: GUARDED,
        pool: "01 entries 3
0 1 0 malloc 4096 @0x0 = block 0x10000 w 0 claim 0@1 0+2
0 2 0 load 0x10fff = byte 00
0 3 0 store 0x11000 01 = fault segmentation fault guard
",
        outcomes: "1 block 0x10000\n2 byte 00\n3 fault segmentation fault guard\nfaulted 3\n",
    },
    Case {
        line: "run -o G -w 0",
        text: "script a\nmalloc x 126976\nmalloc y 126977\nload x 126976\nend\n",
        status: Status::Faulted,
        head: GUARDED,
        pool: "01 entries 3
0 1 0 malloc 126976 @0x0 = block 0x10000 w 0 claim 0@1 0+32
0 2 0 malloc 126977 @0x0 = null toolarge
0 3 0 load 0x2f000 = fault segmentation fault guard
",
        outcomes: "1 block 0x10000\n2 null toolarge\n3 fault segmentation fault guard\nfaulted 3\n",
    },
    Case {
        line: "run -o GJ -w 0",
        text: "script a\nmalloc x 4096\nload x 4095\nfree x\nload x 4095\nload x 4096\nend\n",
        status: Status::Finished,
        head: "64 pools 1 flags --G---- junk 2 cache 64\nwords list 0\n",
        pool: "01 entries 5
0 1 0 malloc 4096 @0x0 = block 0x10000 w 0 claim 0@1 0+2
0 2 0 load 0x10fff = byte db
0 3 0 free 0x10000 = done
0 4 0 load 0x10fff = byte df
0 5 0 load 0x11000 = byte 00
",
        outcomes: "1 block 0x10000\n2 byte db\n3 done\n4 byte df\n5 byte 00\nfinished\n",
    },
];

#[test]
fn guards_follow(rt: HostRuntime) -> Result<(), Fail> {
    gives_all(&rt, rt.alloc(), &GUARDS)
}

// At level 1 the first 2,048 bytes of a freed block are filled, and at level 0 none. Free pages can be read, but not
// under U. A second free finds a free page, or one that the pool gave up.
const FREED: [Case; 6] = [
    Case {
        line: "run -w 0",
        text: "script a\nmalloc x 4096\nfree x\nload x 2047\nload x 2048\nend\n",
        status: Status::Finished,
        head: LIST_0,
        pool: "01 entries 4
0 1 0 malloc 4096 @0x0 = block 0x10000 w 0 claim 0@1 0+1
0 2 0 free 0x10000 = done
0 3 0 load 0x107ff = byte df
0 4 0 load 0x10800 = byte 00
",
        outcomes: "1 block 0x10000\n2 done\n3 byte df\n4 byte 00\nfinished\n",
    },
    Case {
        line: "run -o U -w 0",
        text: "script a\nmalloc x 4096\nfree x\nload x 0\nload x 2048\nend\n",
        status: Status::Faulted,
        head: "64 pools 1 flags ----U-- junk 1 cache 64\nwords list 0\n",
        pool: "01 entries 3
0 1 0 malloc 4096 @0x0 = block 0x10000 w 0 claim 0@1 0+1
0 2 0 free 0x10000 = done
0 3 0 load 0x10000 = fault segmentation fault protected
",
        outcomes: "1 block 0x10000\n2 done\n3 fault segmentation fault protected\nfaulted 3\n",
    },
    Case {
        line: "run -o Uf -w 0",
        text: "script a\nmalloc x 4096\nfree x\nload x 0\nload x 2048\nend\n",
        status: Status::Finished,
        head: LIST_0,
        pool: "01 entries 4
0 1 0 malloc 4096 @0x0 = block 0x10000 w 0 claim 0@1 0+1
0 2 0 free 0x10000 = done
0 3 0 load 0x10000 = byte df
0 4 0 load 0x10800 = byte 00
",
        outcomes: "1 block 0x10000\n2 done\n3 byte df\n4 byte 00\nfinished\n",
    },
    // A free page serves a small block too, under U as well, and keeps its bytes.
    Case {
        line: "run -o Uj -w 0",
        text: "script a\nmalloc x 4096\nstore x 5 7\nfree x\nmalloc y 16\nload x 5\nend\n",
        status: Status::Finished,
        head: "64 pools 1 flags ----U-- junk 0 cache 64\nwords list 0\n",
        pool: "01 entries 5
0 1 0 malloc 4096 @0x0 = block 0x10000 w 0 claim 0@1 0+1
0 2 0 store 0x10005 07 = done
0 3 0 free 0x10000 = done
0 4 0 malloc 16 @0x0 = block 0x10000 w 0 0
0 5 0 load 0x10005 = byte 07
",
        outcomes: "1 block 0x10000\n2 done\n3 done\n4 block 0x10000\n5 byte 07\nfinished\n",
    },
    Case {
        line: "run -w 0",
        text: "script a\nmalloc x 8192\nfree x\nfree x\nend\n",
        status: Status::Faulted,
        head: LIST_0,
        pool: "01 entries 3
0 1 0 malloc 8192 @0x0 = block 0x10000 w 0 claim 0@1 0+2
0 2 0 free 0x10000 = done
0 3 0 free 0x10000 = fault bogus pointer (double free?)
",
        outcomes: "1 block 0x10000\n2 done\n3 fault bogus pointer (double free?)\nfaulted 3\n",
    },
    Case {
        line: "run -o <<<<<<< -w 0",
        text: "script a\nmalloc x 8192\nfree x\nfree x\nend\n",
        status: Status::Faulted,
        head: "64 pools 1 flags ------- junk 1 cache 0\nwords list 0\n",
        pool: "01 entries 3
0 1 0 malloc 8192 @0x0 = block 0x10000 w 0 claim 0@1 0+2
0 2 0 free 0x10000 = done release 0@2 0+2
0 3 0 free 0x10000 = miss
",
        outcomes: "1 block 0x10000\n2 done\n3 fault bogus pointer (double free?)\nfaulted 3\n",
    },
];

#[test]
fn freed_pages_are_filled_and_shut(rt: HostRuntime) -> Result<(), Fail> {
    gives_all(&rt, rt.alloc(), &FREED)
}

// One block of this size, and its reply with what was drawn and claimed.
fn sizes<R: Abort + Threads + Wait + Sync>(
    rt: &R,
    alloc: Global,
    letters: &str,
    head: &str,
    cases: &[(u64, &str, &str)],
) -> Result<(), Fail> {
    let line = format!(in alloc; "run -o {letters} -w 0")?;
    for (size, reply, parts) in cases {
        let text = format!(in alloc; "script a\nmalloc x {size}\nend\n")?;
        let pool = format!(in alloc; "01 entries 1\n0 1 0 malloc {size} @0x0 = {reply}{parts}\n")?;
        let outcomes = format!(in alloc; "1 {reply}\nfinished\n")?;
        let output = (head, pool.as_str(), outcomes.as_str());
        gives_output(
            rt,
            alloc,
            line.as_str(),
            text.as_str(),
            Status::Finished,
            output,
        )?;
    }
    Ok(())
}

const SIZES: [(u64, &str, &str); 8] = [
    (2048, "block 0x10000", " w 0 0 claim 0@1 0+1"),
    (2049, "block 0x10000", " w 0 claim 0@1 0+1"),
    (4096, "block 0x10000", " w 0 claim 0@1 0+1"),
    (4097, "block 0x10000", " w 0 claim 0@1 0+2"),
    (126977, "block 0x10000", " w 0 claim 0@1 0+32"),
    (131072, "block 0x10000", " w 0 claim 0@1 0+32"),
    (131073, "null toolarge", ""),
    (18446744073709551615, "null toolarge", ""),
];

const SIZES_WITH_GUARD: [(u64, &str, &str); 8] = [
    (2048, "block 0x10000", " w 0 0 claim 0@1 0+1"),
    (2049, "block 0x10000", " w 0 claim 0@1 0+2"),
    (4096, "block 0x10000", " w 0 claim 0@1 0+2"),
    (4097, "block 0x10000", " w 0 claim 0@1 0+3"),
    (126976, "block 0x10000", " w 0 claim 0@1 0+32"),
    (126977, "null toolarge", ""),
    (131072, "null toolarge", ""),
    (131073, "null toolarge", ""),
];

#[test]
fn sizes_at_the_edges(rt: HostRuntime) -> Result<(), Fail> {
    sizes(&rt, rt.alloc(), "", LIST_0, &SIZES)?;
    sizes(&rt, rt.alloc(), "G", GUARDED, &SIZES_WITH_GUARD)
}

// Two blocks of two pages, with a guard behind each or none. The letters with the flags and the cache, the pages of
// each block with the address of the second, and what the two frees release.
fn caches<R: Abort + Threads + Wait + Sync>(
    rt: &R,
    alloc: Global,
    (letters, flags, cache): (&str, &str, u32),
    (pages, second): (u32, &str),
    (first_gone, second_gone): (&str, &str),
) -> Result<(), Fail> {
    let line = format!(in alloc; "run -o {letters} -w 0")?;
    let head = format!(in alloc; "64 pools 1 flags {flags} junk 1 cache {cache}\nwords list 0\n")?;
    let pool = format!(in alloc;
        "01 entries 4
0 1 0 malloc 8192 @0x0 = block 0x10000 w 0 claim 0@1 0+{pages}
0 2 0 malloc 8192 @0x0 = block {second} w 0 claim 0@2 {pages}+{pages}
0 3 0 free 0x10000 = done{first_gone}
0 4 0 free {second} = done{second_gone}
"
    )?;
    let outcomes = format!(in alloc;
        "1 block 0x10000\n2 block {second}\n3 done\n4 done\nfinished\n"
    )?;
    let text = "script a\nmalloc a 8192\nmalloc b 8192\nfree a\nfree b\nend\n";
    let output = (head.as_str(), pool.as_str(), outcomes.as_str());
    gives_output(rt, alloc, line.as_str(), text, Status::Finished, output)
}

// A run is kept or released as a whole, the guard with it.
#[test]
fn the_cache_bounds_whole_runs(rt: HostRuntime) -> Result<(), Fail> {
    let none = "-------";
    let two = (2, "0x12000");
    let alloc = rt.alloc();
    let both = (" release 0@3 0+2", " release 0@4 2+2");
    caches(&rt, alloc, ("<<<<<<<", none, 0), two, both)?;
    caches(&rt, alloc, ("<<<<<<", none, 1), two, both)?;
    caches(
        &rt,
        alloc,
        ("<<<<<", none, 2),
        two,
        ("", " release 0@3 2+2"),
    )?;
    caches(&rt, alloc, ("<<<<", none, 4), two, ("", ""))?;
    let guard = "--G----";
    let three = (3, "0x13000");
    let both = (" release 0@3 0+3", " release 0@4 3+3");
    caches(&rt, alloc, ("G<<<<<", guard, 2), three, both)?;
    caches(
        &rt,
        alloc,
        ("G<<<<", guard, 4),
        three,
        ("", " release 0@3 3+3"),
    )?;
    caches(&rt, alloc, ("G<<<", guard, 8), three, ("", ""))
}

// A run that stays leaves room for no more, though a part of it would fit; a block takes a part of a run, and the
// rest of it serves another.
const KEPT: [Case; 2] = [
    Case {
        line: "run -o c<<<<<<-- -w 0",
        text: "script a\nmalloc p 8192\nfree p\nmalloc q 4096\nfree q\nend\n",
        status: Status::Finished,
        head: "64 pools 1 flags ------- junk 1 cache 1\nwords list 0\n",
        pool: "01 entries 4
0 1 0 malloc 8192 @0x0 = block 0x10000 w 0 claim 0@1 0+2
0 2 0 free 0x10000 = done release 0@2 0+2
0 3 0 malloc 4096 @0x0 = block 0x10000 w 0 claim 0@3 0+1
0 4 0 free 0x10000 = done
",
        outcomes: "1 block 0x10000\n2 done\n3 block 0x10000\n4 done\nfinished\n",
    },
    Case {
        line: "run -w 0",
        text: "script a\nmalloc p 12288\nfree p\nmalloc q 4096\nmalloc r 8192\nmalloc s 4096\nend\n",
        status: Status::Finished,
        head: LIST_0,
        pool: "01 entries 5
0 1 0 malloc 12288 @0x0 = block 0x10000 w 0 claim 0@1 0+3
0 2 0 free 0x10000 = done
0 3 0 malloc 4096 @0x0 = block 0x10000 w 0
0 4 0 malloc 8192 @0x0 = block 0x11000 w 0
0 5 0 malloc 4096 @0x0 = block 0x13000 w 0 claim 0@2 3+1
",
        outcomes: "1 block 0x10000\n2 done\n3 block 0x10000\n4 block 0x11000\n5 block 0x13000\nfinished\n",
    },
];

#[test]
fn kept_runs_serve(rt: HostRuntime) -> Result<(), Fail> {
    gives_all(&rt, rt.alloc(), &KEPT)
}

const HOLES: &str = "script a
malloc a 12288
malloc b 4096
malloc c 8192
malloc d 106496
free a
free c
malloc e 16384
malloc f 8192
malloc g 8192
malloc h 4096
malloc i 4096
end
";

const HOLES_OUTCOMES: &str = "1 block 0x10000
2 block 0x13000
3 block 0x14000
4 block 0x16000
5 done
6 done
7 null norun
8 block 0x10000
9 block 0x14000
10 block 0x12000
11 null norun
finished
";

// The only zone is full but for holes of three pages and two. Four pages lie nowhere. Two take the first hole and
// leave one page of it, so two more take the second hole. The holes are the pool's free pages, or the zone's.
const IN_HOLES: [Case; 2] = [
    Case {
        line: "run -z 1 -w 0",
        text: HOLES,
        status: Status::Finished,
        head: ONE_ZONE,
        pool: "01 entries 11
0 1 0 malloc 12288 @0x0 = block 0x10000 w 0 claim 0@1 0+3
0 2 0 malloc 4096 @0x0 = block 0x13000 w 0 claim 0@2 3+1
0 3 0 malloc 8192 @0x0 = block 0x14000 w 0 claim 0@3 4+2
0 4 0 malloc 106496 @0x0 = block 0x16000 w 0 claim 0@4 6+26
0 5 0 free 0x10000 = done
0 6 0 free 0x14000 = done
0 7 0 malloc 16384 @0x0 = null norun w 0 look 0@4
0 8 0 malloc 8192 @0x0 = block 0x10000 w 0
0 9 0 malloc 8192 @0x0 = block 0x14000 w 0
0 10 0 malloc 4096 @0x0 = block 0x12000 w 0
0 11 0 malloc 4096 @0x0 = null norun w 0 look 0@4
",
        outcomes: HOLES_OUTCOMES,
    },
    Case {
        line: "run -o <<<<<<< -z 1 -w 0",
        text: HOLES,
        status: Status::Finished,
        head: "1 pools 1 flags ------- junk 1 cache 0\nwords list 0\n",
        pool: "01 entries 11
0 1 0 malloc 12288 @0x0 = block 0x10000 w 0 claim 0@1 0+3
0 2 0 malloc 4096 @0x0 = block 0x13000 w 0 claim 0@2 3+1
0 3 0 malloc 8192 @0x0 = block 0x14000 w 0 claim 0@3 4+2
0 4 0 malloc 106496 @0x0 = block 0x16000 w 0 claim 0@4 6+26
0 5 0 free 0x10000 = done release 0@5 0+3
0 6 0 free 0x14000 = done release 0@6 4+2
0 7 0 malloc 16384 @0x0 = null norun w 0 look 0@6
0 8 0 malloc 8192 @0x0 = block 0x10000 w 0 claim 0@7 0+2
0 9 0 malloc 8192 @0x0 = block 0x14000 w 0 claim 0@8 4+2
0 10 0 malloc 4096 @0x0 = block 0x12000 w 0 claim 0@9 2+1
0 11 0 malloc 4096 @0x0 = null norun w 0 look 0@9
",
        outcomes: HOLES_OUTCOMES,
    },
];

#[test]
fn holes_are_found(rt: HostRuntime) -> Result<(), Fail> {
    gives_all(&rt, rt.alloc(), &IN_HOLES)
}

// Words 2016 and 2047 name bits 0 and 31 of zone 63. The search goes on with zone 0, no run goes past the end of the
// arena, and what lies behind it is on no page. In an arena of two zones word 2047 names bit 31 of zone 1. Free pages
// at the end of one zone and the start of the next are no run.
const LAST_ZONE: [Case; 4] = [
    Case {
        line: "run -w 2016",
        text: "script a\nmalloc x 131072\nmalloc y 4096\nend\n",
        status: Status::Finished,
        head: "64 pools 1 flags ------- junk 1 cache 64\nwords list 2016\n",
        pool: "e8 entries 2
0 1 0 malloc 131072 @0x0 = block 0x7f0000 w 2016 claim 63@1 0+32
0 2 0 malloc 4096 @0x0 = block 0x10000 w 2016 look 63@1 claim 0@1 0+1
",
        outcomes: "1 block 0x7f0000\n2 block 0x10000\nfinished\n",
    },
    Case {
        line: "run -z 64 -w 2047",
        text: "script a\nmalloc x 4096\nmalloc y 8192\nload x 4095\nload x 4096\nend\n",
        status: Status::Faulted,
        head: "64 pools 1 flags ------- junk 1 cache 64\nwords list 2047\n",
        pool: "08 entries 4
0 1 0 malloc 4096 @0x0 = block 0x80f000 w 2047 claim 63@1 31+1
0 2 0 malloc 8192 @0x0 = block 0x7f0000 w 2047 claim 63@2 0+2
0 3 0 load 0x80ffff = byte 00
0 4 0 load 0x810000 = miss
",
        outcomes: "1 block 0x80f000\n2 block 0x7f0000\n3 byte 00\n4 fault segmentation fault unmapped\nfaulted 4\n",
    },
    Case {
        line: "run -o G -z 2 -w 2047",
        text: "script a\nmalloc x 126976\nmalloc y 126976\nmalloc z 1\nend\n",
        status: Status::Finished,
        head: "2 pools 1 flags --G---- junk 1 cache 64\nwords list 2047\n",
        pool: "08 entries 3
0 1 0 malloc 126976 @0x0 = block 0x30000 w 2047 claim 1@1 0+32
0 2 0 malloc 126976 @0x0 = block 0x10000 w 2047 look 1@1 claim 0@1 0+32
0 3 0 malloc 1 @0x0 = null norun w 2047 2047 look 1@1 0@1
",
        outcomes: "1 block 0x30000\n2 block 0x10000\n3 null norun\nfinished\n",
    },
    Case {
        line: "run -z 2 -w 0",
        text: "script a\nmalloc a 126976\nmalloc b 4096\nmalloc c 4096\nfree b\nfree c\nmalloc d 8192\nend\n",
        status: Status::Finished,
        head: "2 pools 1 flags ------- junk 1 cache 64\nwords list 0\n",
        pool: "01 entries 6
0 1 0 malloc 126976 @0x0 = block 0x10000 w 0 claim 0@1 0+31
0 2 0 malloc 4096 @0x0 = block 0x2f000 w 0 claim 0@2 31+1
0 3 0 malloc 4096 @0x0 = block 0x30000 w 0 look 0@2 claim 1@1 0+1
0 4 0 free 0x2f000 = done
0 5 0 free 0x30000 = done
0 6 0 malloc 8192 @0x0 = block 0x31000 w 0 look 0@2 claim 1@2 1+2
",
        outcomes: "1 block 0x10000\n2 block 0x2f000\n3 block 0x30000\n4 done\n5 done\n6 block 0x31000\nfinished\n",
    },
];

#[test]
fn the_last_zone_is_the_end(rt: HostRuntime) -> Result<(), Fail> {
    gives_all(&rt, rt.alloc(), &LAST_ZONE)
}
