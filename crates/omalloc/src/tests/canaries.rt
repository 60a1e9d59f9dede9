//! Canaries behind small blocks, over the words of list 0: the canary byte is 1. The outputs are worked out by hand.
ghost use Rattle.std.specs.Prelude.{◌≤◌, ◌<◌, ◌^◌};

use super::{Case, LIST_0, gives_all, gives_output};
use crate::status::Status;
use std::alloc::{AllocError, Global};
use std::process::Abort;
use std::sync::Wait;
use std::test::Fail;
use std::thread::Threads;

const WITH_CANARIES: &str = "64 pools 1 flags C------ junk 1 cache 64\nwords list 0\n";

// A changed byte is found up to 32 bytes behind the block. The byte after these isn't looked at, and the canary's own
// byte is no change. Where one is found the word of the free is drawn, and nothing else is done.
const CHANGED: [Case; 4] = [
    Case {
        line: "run -o C -w 0",
        text: "script a\nmalloc x 100\nstore x 100 7\nfree x\nend\n",
        status: Status::Faulted,
        head: WITH_CANARIES,
        pool: "01 entries 3
0 1 0 malloc 100 @0x0 = block 0x10000 w 0 0 claim 0@1 0+1
0 2 0 store 0x10064 07 = done
0 3 0 free 0x10000 = fault canary corrupted 100 w 0
",
        outcomes: "1 block 0x10000\n2 done\n3 fault canary corrupted 100\nfaulted 3\n",
    },
    Case {
        line: "run -o C -w 0",
        text: "script a\nmalloc x 100\nstore x 100 1\nfree x\nend\n",
        status: Status::Finished,
        head: WITH_CANARIES,
        pool: "01 entries 3
0 1 0 malloc 100 @0x0 = block 0x10000 w 0 0 claim 0@1 0+1
0 2 0 store 0x10064 01 = done
0 3 0 free 0x10000 = done w 0
",
        outcomes: "1 block 0x10000\n2 done\n3 done\nfinished\n",
    },
    Case {
        line: "run -o C -w 0",
        text: "script a\nmalloc x 128\nstore x 160 7\nstore x 159 7\nfree x\nend\n",
        status: Status::Faulted,
        head: WITH_CANARIES,
        pool: "01 entries 4
0 1 0 malloc 128 @0x0 = block 0x10000 w 0 0 claim 0@1 0+1
0 2 0 store 0x100a0 07 = done
0 3 0 store 0x1009f 07 = done
0 4 0 free 0x10000 = fault canary corrupted 159 w 0
",
        outcomes: "1 block 0x10000\n2 done\n3 done\n4 fault canary corrupted 159\nfaulted 4\n",
    },
    Case {
        line: "run -o C -w 0",
        text: "script a\nmalloc x 128\nstore x 160 7\nfree x\nend\n",
        status: Status::Finished,
        head: WITH_CANARIES,
        pool: "01 entries 3
0 1 0 malloc 128 @0x0 = block 0x10000 w 0 0 claim 0@1 0+1
0 2 0 store 0x100a0 07 = done
0 3 0 free 0x10000 = done w 0
",
        outcomes: "1 block 0x10000\n2 done\n3 done\nfinished\n",
    },
];

#[test]
fn changes_within_reach_are_found(rt: HostRuntime) -> Result<(), Fail> {
    gives_all(&rt, rt.alloc(), &CHANGED)
}

// Blocks that differ by one byte in their class: 2,048 bytes with a canary are a block of pages, which has none.
const CLASSES: [Case; 3] = [
    Case {
        line: "run -o C -w 0",
        text: "script a\nmalloc a 2047\nmalloc b 2048\nload a 2047\nstore b 2048 7\nfree b\nstore a 2047 7\nfree a\nend\n",
        status: Status::Faulted,
        head: WITH_CANARIES,
        pool: "01 entries 7
0 1 0 malloc 2047 @0x0 = block 0x10000 w 0 0 claim 0@1 0+1
0 2 0 malloc 2048 @0x0 = block 0x11000 w 0 claim 0@2 1+1
0 3 0 load 0x107ff = byte 01
0 4 0 store 0x11800 07 = done
0 5 0 free 0x11000 = done
0 6 0 store 0x107ff 07 = done
0 7 0 free 0x10000 = fault canary corrupted 2047 w 0
",
        outcomes: "1 block 0x10000
2 block 0x11000
3 byte 01
4 done
5 done
6 done
7 fault canary corrupted 2047
faulted 7
",
    },
    // A block of 0 bytes has none, and its page can't be touched.
    Case {
        line: "run -o C -w 0",
        text: "script a\nmalloc a 0\nmalloc b 16\nfree a\nload b 15\nload b 16\nload b 32\nend\n",
        status: Status::Finished,
        head: WITH_CANARIES,
        pool: "01 entries 6
0 1 0 malloc 0 @0x0 = block 0x10000 w 0 0 claim 0@1 0+1
0 2 0 malloc 16 @0x0 = block 0x11000 w 0 0 claim 0@2 1+1
0 3 0 free 0x10000 = done w 0
0 4 0 load 0x1100f = byte 00
0 5 0 load 0x11010 = byte 01
0 6 0 load 0x11020 = byte 00
",
        outcomes: "1 block 0x10000\n2 block 0x11000\n3 done\n4 byte 00\n5 byte 01\n6 byte 00\nfinished\n",
    },
    // Junk fills the whole place, and canaries come over it; the freed place is junk alone. Word 5 gives the byte 6.
    Case {
        line: "run -o CJ -w 5",
        text: "script a\nmalloc x 128\nload x 127\nload x 128\nload x 159\nload x 160\nfree x\nload x 128\nend\n",
        status: Status::Finished,
        head: "64 pools 1 flags C------ junk 2 cache 64\nwords list 5\n",
        pool: "06 entries 7
0 1 0 malloc 128 @0x0 = block 0x15500 w 5 5 claim 0@1 5+1
0 2 0 load 0x1557f = byte db
0 3 0 load 0x15580 = byte 06
0 4 0 load 0x1559f = byte 06
0 5 0 load 0x155a0 = byte db
0 6 0 free 0x15500 = done w 5
0 7 0 load 0x15580 = byte df
",
        outcomes: "1 block 0x15500
2 byte db
3 byte 06
4 byte 06
5 byte db
6 done
7 byte df
finished
",
    },
];

#[test]
fn small_blocks_have_canaries(rt: HostRuntime) -> Result<(), Fail> {
    gives_all(&rt, rt.alloc(), &CLASSES)
}

// Two blocks are next to each other, and each has its canaries: the second is whole though the first isn't.
#[test]
fn the_neighbour_is_whole(rt: HostRuntime) -> Result<(), Fail> {
    let output = (
        WITH_CANARIES,
        "01 entries 5
0 1 0 malloc 100 @0x0 = block 0x10000 w 0 0 claim 0@1 0+1
0 2 0 malloc 100 @0x0 = block 0x10080 w 0 0
0 3 0 store 0x1007f 07 = done
0 4 0 free 0x10080 = done w 0
0 5 0 free 0x10000 = fault canary corrupted 127 w 0
",
        "1 block 0x10000\n2 block 0x10080\n3 done\n4 done\n5 fault canary corrupted 127\nfaulted 5\n",
    );
    let text = "script a\nmalloc x 100\nmalloc y 100\nstore x 127 7\nfree y\nfree x\nend\n";
    gives_output(
        &rt,
        rt.alloc(),
        "run -o C -w 0",
        text,
        Status::Faulted,
        output,
    )
}

const ONE_ZONE: &str = "1 pools 1 flags C------ junk 1 cache 64\nwords list 0\n";

// Byte 0 is written at the offset in a block of the size, and its free tells it.
fn finds_at<R: Abort + Threads + Wait + Sync>(
    rt: &R,
    alloc: Global,
    size: u64,
    offset: u64,
) -> Result<(), Fail> {
    assert!(rt; offset <= 2048);
    let text = format!(in alloc; "script a\nmalloc x {size}\nstore x {offset} 0\nfree x\nend\n")?;
    let fault = format!(in alloc; "fault canary corrupted {offset}")?;
    let pool = format!(in alloc;
        "01 entries 3
0 1 0 malloc {size} @0x0 = block 0x10000 w 0 0 claim 0@1 0+1
0 2 0 store 0x{:x} 00 = done
0 3 0 free 0x10000 = {fault} w 0
",
        65536 + offset
    )?;
    let outcomes = format!(in alloc; "1 block 0x10000\n2 done\n3 {fault}\nfaulted 3\n")?;
    let output = (ONE_ZONE, pool.as_str(), outcomes.as_str());
    let line = "run -o C -z 1 -w 0";
    gives_output(rt, alloc, line, text.as_str(), Status::Faulted, output)
}

// Each size with the first byte behind it that isn't looked at: of the next place, or past the reach.
const REACHES: [(u64, u64); 5] = [(1, 16), (16, 32), (100, 128), (1024, 1056), (2047, 2048)];

#[test]
fn each_canary_is_looked_at(rt: HostRuntime) -> Result<(), Fail> {
    for (size, behind) in REACHES {
        for offset in size..behind {
            finds_at(&rt, rt.alloc(), size, offset)?;
        }
    }
    Ok(())
}

// The lines of a script, of its journal and of its transcript.
#[derive(Drop)]
struct Lines {
    script: String,
    entries: String,
    outcomes: String,
}

fn no_lines(alloc: Global) -> Lines {
    Lines {
        script: String::new(alloc),
        entries: String::new(alloc),
        outcomes: String::new(alloc),
    }
}

// Adds a command, its entry from the operation on to the reply and its words, and its outcome.
fn push_lines(
    alloc: Global,
    lines: &mut Lines,
    number: u64,
    (command, op, reply, words): (&str, &str, &str, &str),
) -> Result<(), AllocError> {
    let line = format!(in alloc; "{command}\n")?;
    lines.script.push_str(line.as_str())?;
    let line = format!(in alloc; "0 {number} 0 {op} = {reply}{words}\n")?;
    lines.entries.push_str(line.as_str())?;
    let line = format!(in alloc; "{number} {reply}\n")?;
    lines.outcomes.push_str(line.as_str())
}

// A block of the size at an address, then its first canary, or where there is none its last byte, and its free.
fn push_block(
    alloc: Global,
    lines: &mut Lines,
    canary: bool,
    size: u64,
    address: u64,
    words: (&str, &str),
) -> Result<(), AllocError>
    requires least { 1 ≤ size }
    requires greatest { size ≤ 2048 }
    requires address { address < 2 ^ 32 }
{
    let (malloc_words, free_words) = words;
    let command = format!(in alloc; "malloc x {size}")?;
    let op = format!(in alloc; "malloc {size} @0x0")?;
    let reply = format!(in alloc; "block 0x{address:x}")?;
    let malloc = (command.as_str(), op.as_str(), reply.as_str(), malloc_words);
    push_lines(alloc, lines, 3 * size - 2, malloc)?;
    if canary {
        let behind = address + size;
        let command = format!(in alloc; "load x {size}")?;
        let op = format!(in alloc; "load 0x{behind:x}")?;
        let load = (command.as_str(), op.as_str(), "byte 01", "");
        push_lines(alloc, lines, 3 * size - 1, load)?;
    } else {
        let last = size - 1;
        let command = format!(in alloc; "store x {last} 7")?;
        let op = format!(in alloc; "store 0x{:x} 07", address + last)?;
        let store = (command.as_str(), op.as_str(), "done", "");
        push_lines(alloc, lines, 3 * size - 1, store)?;
    }
    let op = format!(in alloc; "free 0x{address:x}")?;
    push_lines(
        alloc,
        lines,
        3 * size,
        ("free x", op.as_str(), "done", free_words),
    )
}

// The least and the greatest size of a class, the class, the first byte of its page, and the claim of that. Each class
// comes with the page that the one before the last had.
type Sizes = (u64, u64, u64, u64, &'static str);

const SIZES: [Sizes; 8] = [
    (1, 16, 16, 0x10000, " claim 0@1 0+1"),
    (17, 32, 32, 0x11000, " claim 0@2 1+1"),
    (33, 64, 64, 0x10000, ""),
    (65, 128, 128, 0x11000, ""),
    (129, 256, 256, 0x10000, ""),
    (257, 512, 512, 0x11000, ""),
    (513, 1024, 1024, 0x10000, ""),
    (1025, 2048, 2048, 0x11000, ""),
];

const SIZES_WITH_CANARIES: [Sizes; 8] = [
    (1, 15, 16, 0x10000, " claim 0@1 0+1"),
    (16, 31, 32, 0x11000, " claim 0@2 1+1"),
    (32, 63, 64, 0x10000, ""),
    (64, 127, 128, 0x11000, ""),
    (128, 255, 256, 0x10000, ""),
    (256, 511, 512, 0x11000, ""),
    (512, 1023, 1024, 0x10000, ""),
    (1024, 2047, 2048, 0x11000, ""),
];

// A block of each size after the other. The place that was freed last waits, so a class has the first two places of its
// page in turn.
fn push_sizes(
    rt: &impl Abort,
    alloc: Global,
    lines: &mut Lines,
    canary: bool,
    sizes: &[Sizes],
) -> Result<(), Fail> {
    for (least, greatest, class, page, claim) in sizes {
        assert!(rt; *least >= 1 && *greatest <= 2048 && *class <= 2048 && *page <= 0x11000);
        for size in *least..=*greatest {
            let address = *page + *class * ((size - *least) % 2);
            let first = if size == *least { *claim } else { "" };
            let words = format!(in alloc; " w 0 0{first}")?;
            push_block(
                alloc,
                lines,
                canary,
                size,
                address,
                (words.as_str(), " w 0"),
            )?;
        }
    }
    Ok(())
}

fn gives_lines<R: Abort + Threads + Wait + Sync>(
    rt: &R,
    alloc: Global,
    (line, head): (&str, &str),
    lines: &Lines,
) -> Result<(), Fail> {
    let text = format!(in alloc; "script a\n{}end\n", lines.script.as_str())?;
    let pool = format!(in alloc; "01 entries 6144\n{}", lines.entries.as_str())?;
    let outcomes = format!(in alloc; "{}finished\n", lines.outcomes.as_str())?;
    let output = (head, pool.as_str(), outcomes.as_str());
    gives_output(rt, alloc, line, text.as_str(), Status::Finished, output)
}

#[test]
fn every_size_without_canaries(rt: HostRuntime) -> Result<(), Fail> {
    let mut lines = no_lines(rt.alloc());
    push_sizes(&rt, rt.alloc(), &mut lines, false, &SIZES)?;
    gives_lines(&rt, rt.alloc(), ("run -w 0", LIST_0), &lines)
}

// 2,048 bytes are a block of pages, which has none, on the page that is free then.
#[test]
fn every_size_with_canaries(rt: HostRuntime) -> Result<(), Fail> {
    let mut lines = no_lines(rt.alloc());
    push_sizes(&rt, rt.alloc(), &mut lines, true, &SIZES_WITH_CANARIES)?;
    push_block(rt.alloc(), &mut lines, false, 2048, 0x10000, (" w 0", ""))?;
    gives_lines(&rt, rt.alloc(), ("run -o C -w 0", WITH_CANARIES), &lines)
}
