//! Whole runs of scripts, with outputs that are worked out by hand.
use super::{Case, LIST_0, SCRIPT, gives_all};
use crate::status::Status;
use std::test::Fail;

// ChaCha8's words for seed 7 and pool 0 begin with 0x2c44ba73, 0xc39ca672, 0xea9d9d65, 0x7747b002.
const BLOCKS: [Case; 4] = [
    Case {
        line: "run -w 0",
        text: SCRIPT,
        status: Status::Finished,
        head: LIST_0,
        pool: "01 entries 2
0 1 0 malloc 100 @0x0 = block 0x10000 w 0 0 claim 0@1 0+1
0 2 0 free 0x10000 = done w 0
",
        outcomes: "1 block 0x10000\n2 done\nfinished\n",
    },
    Case {
        line: "run -s 7",
        text: SCRIPT,
        status: Status::Finished,
        head: "64 pools 1 flags ------- junk 1 cache 64\nwords seed 7\n",
        pool: "9f entries 2
0 1 0 malloc 100 @0x0 = block 0x682280 w 3281823346 3936197989 claim 51@1 18+1
0 2 0 free 0x682280 = done w 2001186818
",
        outcomes: "1 block 0x682280\n2 done\nfinished\n",
    },
    // Two blocks on a page.
    Case {
        line: "run -w 5",
        text: "script a\nmalloc x 100\nmalloc y 100\nend\n",
        status: Status::Finished,
        head: "64 pools 1 flags ------- junk 1 cache 64\nwords list 5\n",
        pool: "06 entries 2
0 1 0 malloc 100 @0x0 = block 0x15280 w 5 5 claim 0@1 5+1
0 2 0 malloc 100 @0x0 = block 0x15300 w 5 5
",
        outcomes: "1 block 0x15280\n2 block 0x15300\nfinished\n",
    },
    // A block of size 0 is protected.
    Case {
        line: "run -w 0",
        text: "script a\nmalloc x 0\nmalloc y 0\nload y 0\nend\n",
        status: Status::Faulted,
        head: LIST_0,
        pool: "01 entries 3
0 1 0 malloc 0 @0x0 = block 0x10000 w 0 0 claim 0@1 0+1
0 2 0 malloc 0 @0x0 = block 0x10010 w 0 0
0 3 0 load 0x10010 = fault segmentation fault protected
",
        outcomes: "1 block 0x10000\n2 block 0x10010\n3 fault segmentation fault protected\nfaulted 3\n",
    },
];

#[test]
fn blocks_are_given(rt: HostRuntime) -> Result<(), Fail> {
    gives_all(&rt, rt.alloc(), &BLOCKS)
}

// A fresh page has zeros. At level 1 the whole place is filled when it is freed, and at level 2 also when it is
// allocated. A variable without a value is 0, and an offset of 2^64 - 1 leads to the byte before, which no pool
// has.
const BYTES: [Case; 4] = [
    Case {
        line: "run -w 0",
        text: "script a\nmalloc x 100\nload x 0\nfree x\nload x 127\nend\n",
        status: Status::Finished,
        head: LIST_0,
        pool: "01 entries 4
0 1 0 malloc 100 @0x0 = block 0x10000 w 0 0 claim 0@1 0+1
0 2 0 load 0x10000 = byte 00
0 3 0 free 0x10000 = done w 0
0 4 0 load 0x1007f = byte df
",
        outcomes: "1 block 0x10000\n2 byte 00\n3 done\n4 byte df\nfinished\n",
    },
    Case {
        line: "run -o J -w 0",
        text: "script a\nmalloc x 100\nload x 127\nstore x 99 7\nload x 99\nend\n",
        status: Status::Finished,
        head: "64 pools 1 flags ------- junk 2 cache 64\nwords list 0\n",
        pool: "01 entries 4
0 1 0 malloc 100 @0x0 = block 0x10000 w 0 0 claim 0@1 0+1
0 2 0 load 0x1007f = byte db
0 3 0 store 0x10063 07 = done
0 4 0 load 0x10063 = byte 07
",
        outcomes: "1 block 0x10000\n2 byte db\n3 done\n4 byte 07\nfinished\n",
    },
    Case {
        line: "run -w 0",
        text: "script a\nload n 0\nend\n",
        status: Status::Faulted,
        head: LIST_0,
        pool: "01 entries 1\n0 1 0 load 0x0 = miss\n",
        outcomes: "1 fault segmentation fault unmapped\nfaulted 1\n",
    },
    Case {
        line: "run -w 0",
        text: "script a\nmalloc x 16\nstore x 18446744073709551615 7\nend\n",
        status: Status::Faulted,
        head: LIST_0,
        pool: "01 entries 2
0 1 0 malloc 16 @0x0 = block 0x10000 w 0 0 claim 0@1 0+1
0 2 0 store 0xffff 07 = miss
",
        outcomes: "1 block 0x10000\n2 fault segmentation fault unmapped\nfaulted 2\n",
    },
];

#[test]
fn bytes_are_read(rt: HostRuntime) -> Result<(), Fail> {
    gives_all(&rt, rt.alloc(), &BYTES)
}
