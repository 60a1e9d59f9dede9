//! Whole runs with blocks of zeros and blocks that come to another size, with outputs that are worked out by hand.
use super::{Case, LIST_0, gives_all};
use crate::status::Status;
use std::test::Fail;

const LIST_0_ALWAYS: &str = "64 pools 1 flags ---R--- junk 1 cache 64\nwords list 0\n";

const LIST_0_CANARY: &str = "64 pools 1 flags C------ junk 1 cache 64\nwords list 0\n";

// Junk fills a fresh block, and what calloc gives is zeros all the same. A product of 2^64 is too large for any block,
// and 0 items are a block of size 0.
const ZEROS: [Case; 2] = [
    Case {
        line: "run -o J -w 0",
        text: "script a
malloc x 100
load x 0
calloc y 4 4
load y 0
malloc p 4096
load p 4095
end
",
        status: Status::Finished,
        head: "64 pools 1 flags ------- junk 2 cache 64\nwords list 0\n",
        pool: "01 entries 6
0 1 0 malloc 100 @0x0 = block 0x10000 w 0 0 claim 0@1 0+1
0 2 0 load 0x10000 = byte db
0 3 0 calloc 4 4 @0x0 = block 0x11000 w 0 0 claim 0@2 1+1
0 4 0 load 0x11000 = byte 00
0 5 0 malloc 4096 @0x0 = block 0x12000 w 0 claim 0@3 2+1
0 6 0 load 0x12fff = byte db
",
        outcomes: "1 block 0x10000
2 byte db
3 block 0x11000
4 byte 00
5 block 0x12000
6 byte db
finished
",
    },
    Case {
        line: "run -w 0",
        text: "script a
calloc x 18446744073709551615 1
calloc x 4294967296 4294967296
calloc x 0 18446744073709551615
load x 0
end
",
        status: Status::Faulted,
        head: LIST_0,
        pool: "01 entries 4
0 1 0 calloc 18446744073709551615 1 @0x0 = null toolarge
0 2 0 calloc 4294967296 4294967296 @0x0 = null overflow
0 3 0 calloc 0 18446744073709551615 @0x0 = block 0x10000 w 0 0 claim 0@1 0+1
0 4 0 load 0x10000 = fault segmentation fault protected
",
        outcomes: "1 null toolarge
2 null overflow
3 block 0x10000
4 fault segmentation fault protected
faulted 4
",
    },
];

#[test]
fn blocks_of_zeros(rt: HostRuntime) -> Result<(), Fail> {
    gives_all(&rt, rt.alloc(), &ZEROS)
}

// A small block stays in its class, moves to another, and comes to size 0, where the place that left the slot leaves
// page 0 free. A page block grows over claimed pages, shrinks, and grows over the pages that it gave up.
const WAYS: [Case; 1] = [Case {
    line: "run -w 0",
    text: "script a
malloc x 100
realloc x x 120
realloc x x 200
realloc x x 0
realloc y n 50
malloc p 8192
realloc p p 12288
realloc p p 4000
realloc p p 8192
calloc q 4294967296 4294967296
end
",
    status: Status::Finished,
    head: LIST_0,
    pool: "01 entries 10
0 1 0 malloc 100 @0x0 = block 0x10000 w 0 0 claim 0@1 0+1
0 2 0 realloc 0x10000 120 @0x0 = block 0x10000
0 3 0 realloc 0x10000 200 @0x0 = block 0x11000 w 0 0 0 claim 0@2 1+1
0 4 0 realloc 0x11000 0 @0x0 = block 0x12000 w 0 0 0 claim 0@3 2+1
0 5 0 malloc 50 @0x0 = block 0x10000 w 0 0
0 6 0 malloc 8192 @0x0 = block 0x13000 w 0 claim 0@4 3+2
0 7 0 realloc 0x13000 12288 @0x0 = block 0x13000 claim 0@5 5+1
0 8 0 realloc 0x13000 4000 @0x0 = block 0x13000
0 9 0 realloc 0x13000 8192 @0x0 = block 0x13000
0 10 0 calloc 4294967296 4294967296 @0x0 = null overflow
",
    outcomes: "1 block 0x10000
2 block 0x10000
3 block 0x11000
4 block 0x12000
5 block 0x10000
6 block 0x13000
7 block 0x13000
8 block 0x13000
9 block 0x13000
10 null overflow
finished
",
}];

// With R a block moves though it could stay. What is copied ends with the lesser of the two sizes: the 9 behind the new
// end isn't, nor the 7 that was written past the old one. The word of the slot is drawn before those of the place.
const MOVES: [Case; 3] = [
    Case {
        line: "run -o R -w 0",
        text: "script a\nmalloc x 100\nrealloc x x 100\nend\n",
        status: Status::Finished,
        head: LIST_0_ALWAYS,
        pool: "01 entries 2
0 1 0 malloc 100 @0x0 = block 0x10000 w 0 0 claim 0@1 0+1
0 2 0 realloc 0x10000 100 @0x0 = block 0x10080 w 0 0 0
",
        outcomes: "1 block 0x10000\n2 block 0x10080\nfinished\n",
    },
    Case {
        line: "run -w 0",
        text: "script a
malloc x 40
store x 39 9
realloc x x 16
load x 15
store x 16 7
realloc y x 200
load y 16
end
",
        status: Status::Finished,
        head: LIST_0,
        pool: "01 entries 7
0 1 0 malloc 40 @0x0 = block 0x10000 w 0 0 claim 0@1 0+1
0 2 0 store 0x10027 09 = done
0 3 0 realloc 0x10000 16 @0x0 = block 0x11000 w 0 0 0 claim 0@2 1+1
0 4 0 load 0x1100f = byte 00
0 5 0 store 0x11010 07 = done
0 6 0 realloc 0x11000 200 @0x0 = block 0x12000 w 0 0 0 claim 0@3 2+1
0 7 0 load 0x12010 = byte 00
",
        outcomes: "1 block 0x10000
2 done
3 block 0x11000
4 byte 00
5 done
6 block 0x12000
7 byte 00
finished
",
    },
    Case {
        line: "run -w 0,1,2,3,4,5",
        text: "script a\nmalloc x 100\nrealloc y x 200\nfree x\nend\n",
        status: Status::Finished,
        head: "64 pools 1 flags ------- junk 1 cache 64\nwords list 0,1,2,3,4,5\n",
        pool: "01 entries 3
0 1 0 malloc 100 @0x0 = block 0x11100 w 1 2 claim 0@1 1+1
0 2 0 realloc 0x11100 200 @0x0 = block 0x14500 w 3 4 5 claim 0@2 4+1
0 3 0 free 0x11100 = done w 0
",
        outcomes: "1 block 0x11100\n2 block 0x14500\n3 done\nfinished\n",
    },
];

#[test]
fn blocks_are_resized(rt: HostRuntime) -> Result<(), Fail> {
    gives_all(&rt, rt.alloc(), &WAYS)?;
    gives_all(&rt, rt.alloc(), &MOVES)
}

// A page block grows over the pages behind it where all of them are free, and moves where one is held by another block,
// or where some are free and others not the pool's.
const BEHIND: [Case; 3] = [
    Case {
        line: "run -w 0",
        text: "script a\nmalloc x 4096\nmalloc y 8192\nfree y\nrealloc x x 12288\nend\n",
        status: Status::Finished,
        head: LIST_0,
        pool: "01 entries 4
0 1 0 malloc 4096 @0x0 = block 0x10000 w 0 claim 0@1 0+1
0 2 0 malloc 8192 @0x0 = block 0x11000 w 0 claim 0@2 1+2
0 3 0 free 0x11000 = done
0 4 0 realloc 0x10000 12288 @0x0 = block 0x10000
",
        outcomes: "1 block 0x10000\n2 block 0x11000\n3 done\n4 block 0x10000\nfinished\n",
    },
    Case {
        line: "run -w 0",
        text: "script a
malloc x 4096
store x 4095 7
malloc y 8192
realloc z x 8192
load z 4095
load z 4096
load x 2047
load x 4095
end
",
        status: Status::Finished,
        head: LIST_0,
        pool: "01 entries 8
0 1 0 malloc 4096 @0x0 = block 0x10000 w 0 claim 0@1 0+1
0 2 0 store 0x10fff 07 = done
0 3 0 malloc 8192 @0x0 = block 0x11000 w 0 claim 0@2 1+2
0 4 0 realloc 0x10000 8192 @0x0 = block 0x13000 w 0 claim 0@3 3+2
0 5 0 load 0x13fff = byte 07
0 6 0 load 0x14000 = byte 00
0 7 0 load 0x107ff = byte df
0 8 0 load 0x10fff = byte 07
",
        outcomes: "1 block 0x10000
2 done
3 block 0x11000
4 block 0x13000
5 byte 07
6 byte 00
7 byte df
8 byte 07
finished
",
    },
    Case {
        line: "run -w 0",
        text: "script a\nmalloc x 4096\nmalloc y 8192\nfree y\nrealloc x x 16384\nend\n",
        status: Status::Finished,
        head: LIST_0,
        pool: "01 entries 4
0 1 0 malloc 4096 @0x0 = block 0x10000 w 0 claim 0@1 0+1
0 2 0 malloc 8192 @0x0 = block 0x11000 w 0 claim 0@2 1+2
0 3 0 free 0x11000 = done
0 4 0 realloc 0x10000 16384 @0x0 = block 0x13000 w 0 claim 0@3 3+4
",
        outcomes: "1 block 0x10000\n2 block 0x11000\n3 done\n4 block 0x13000\nfinished\n",
    },
];

// The guard comes nearer with the end, and the pages behind it are free, or are given up.
const SHRINKS: [Case; 2] = [
    Case {
        line: "run -o G -w 0",
        text: "script a\nmalloc x 12288\nrealloc x x 4096\nload x 8192\nload x 4096\nend\n",
        status: Status::Faulted,
        head: "64 pools 1 flags --G---- junk 1 cache 64\nwords list 0\n",
        pool: "01 entries 4
0 1 0 malloc 12288 @0x0 = block 0x10000 w 0 claim 0@1 0+4
0 2 0 realloc 0x10000 4096 @0x0 = block 0x10000
0 3 0 load 0x12000 = byte 00
0 4 0 load 0x11000 = fault segmentation fault guard
",
        outcomes: "1 block 0x10000
2 block 0x10000
3 byte 00
4 fault segmentation fault guard
faulted 4
",
    },
    Case {
        line: "run -o G<<<<<<< -w 0",
        text: "script a\nmalloc x 12288\nrealloc x x 4096\nload x 8192\nend\n",
        status: Status::Faulted,
        head: "64 pools 1 flags --G---- junk 1 cache 0\nwords list 0\n",
        pool: "01 entries 3
0 1 0 malloc 12288 @0x0 = block 0x10000 w 0 claim 0@1 0+4
0 2 0 realloc 0x10000 4096 @0x0 = block 0x10000 release 0@2 2+2
0 3 0 load 0x12000 = miss
",
        outcomes: "1 block 0x10000
2 block 0x10000
3 fault segmentation fault unmapped
faulted 3
",
    },
];

#[test]
fn page_blocks_are_resized(rt: HostRuntime) -> Result<(), Fail> {
    gives_all(&rt, rt.alloc(), &BEHIND)?;
    gives_all(&rt, rt.alloc(), &SHRINKS)
}

// With address 0 it is a malloc, but an overflow is told before the address is looked at. After a null the old block is
// as it was, by whatever variable still has it; one that was resized for itself is lost to the script.
const NULLS: [Case; 4] = [
    Case {
        line: "run -w 0",
        text: "script a\nreallocarray x n 4 25\nreallocarray x x 3 40\nend\n",
        status: Status::Finished,
        head: LIST_0,
        pool: "01 entries 2
0 1 0 malloc 100 @0x0 = block 0x10000 w 0 0 claim 0@1 0+1
0 2 0 reallocarray 0x10000 3 40 @0x0 = block 0x10000
",
        outcomes: "1 block 0x10000\n2 block 0x10000\nfinished\n",
    },
    Case {
        line: "run -w 0",
        text: "script a
reallocarray y n 4294967296 4294967296
malloc x 16
free x
reallocarray y x 4294967296 4294967296
end
",
        status: Status::Finished,
        head: LIST_0,
        pool: "01 entries 4
0 1 0 reallocarray 0x0 4294967296 4294967296 @0x0 = null overflow
0 2 0 malloc 16 @0x0 = block 0x10000 w 0 0 claim 0@1 0+1
0 3 0 free 0x10000 = done w 0
0 4 0 reallocarray 0x10000 4294967296 4294967296 @0x0 = null overflow
",
        outcomes: "1 null overflow\n2 block 0x10000\n3 done\n4 null overflow\nfinished\n",
    },
    Case {
        line: "run -w 0",
        text: "script a
malloc x 16
store x 0 7
realloc y x 131073
load x 0
realloc x x 131073
free x
end
",
        status: Status::Finished,
        head: LIST_0,
        pool: "01 entries 5
0 1 0 malloc 16 @0x0 = block 0x10000 w 0 0 claim 0@1 0+1
0 2 0 store 0x10000 07 = done
0 3 0 realloc 0x10000 131073 @0x0 = null toolarge
0 4 0 load 0x10000 = byte 07
0 5 0 realloc 0x10000 131073 @0x0 = null toolarge
",
        outcomes: "1 block 0x10000
2 done
3 null toolarge
4 byte 07
5 null toolarge
6 done
finished
",
    },
    // The words of a moving realloc are spent: that of the slot, and those of the place or the run.
    Case {
        line: "run -z 1 -w 0",
        text: "script a
malloc x 100
malloc y 126976
realloc z x 200
realloc z y 131072
free x
load y 126975
end
",
        status: Status::Finished,
        head: "1 pools 1 flags ------- junk 1 cache 64\nwords list 0\n",
        pool: "01 entries 6
0 1 0 malloc 100 @0x0 = block 0x10000 w 0 0 claim 0@1 0+1
0 2 0 malloc 126976 @0x0 = block 0x11000 w 0 claim 0@2 1+31
0 3 0 realloc 0x10000 200 @0x0 = null norun w 0 0 0 look 0@2
0 4 0 realloc 0x11000 131072 @0x0 = null norun w 0 look 0@2
0 5 0 free 0x10000 = done w 0
0 6 0 load 0x2ffff = byte 00
",
        outcomes: "1 block 0x10000
2 block 0x11000
3 null norun
4 null norun
5 done
6 byte 00
finished
",
    },
];

#[test]
fn nulls_keep_the_block(rt: HostRuntime) -> Result<(), Fail> {
    gives_all(&rt, rt.alloc(), &NULLS)
}

// A realloc of a place that waits is a double free whatever word comes, and draws none; that of a page that was given
// up is a bogus pointer. Under C it looks at the canaries, and writes those of the new size where the block stays.
const MISUSE: [Case; 4] = [
    Case {
        line: "run -w 0,0,0,3,7",
        text: "script a\nmalloc x 100\nfree x\nrealloc x x 100\nend\n",
        status: Status::Faulted,
        head: "64 pools 1 flags ------- junk 1 cache 64\nwords list 0,0,0,3,7\n",
        pool: "01 entries 3
0 1 0 malloc 100 @0x0 = block 0x10000 w 0 0 claim 0@1 0+1
0 2 0 free 0x10000 = done w 3
0 3 0 realloc 0x10000 100 @0x0 = fault double free
",
        outcomes: "1 block 0x10000\n2 done\n3 fault double free\nfaulted 3\n",
    },
    Case {
        line: "run -o <<<<<<< -w 0",
        text: "script a\nmalloc x 4096\nfree x\nrealloc y x 1\nend\n",
        status: Status::Faulted,
        head: "64 pools 1 flags ------- junk 1 cache 0\nwords list 0\n",
        pool: "01 entries 3
0 1 0 malloc 4096 @0x0 = block 0x10000 w 0 claim 0@1 0+1
0 2 0 free 0x10000 = done release 0@2 0+1
0 3 0 realloc 0x10000 1 @0x0 = miss
",
        outcomes: "1 block 0x10000\n2 done\n3 fault bogus pointer (double free?)\nfaulted 3\n",
    },
    Case {
        line: "run -o C -w 0",
        text: "script a\nmalloc x 100\nstore x 100 7\nrealloc x x 3000\nend\n",
        status: Status::Faulted,
        head: LIST_0_CANARY,
        pool: "01 entries 3
0 1 0 malloc 100 @0x0 = block 0x10000 w 0 0 claim 0@1 0+1
0 2 0 store 0x10064 07 = done
0 3 0 realloc 0x10000 3000 @0x0 = fault canary corrupted 100
",
        outcomes: "1 block 0x10000\n2 done\n3 fault canary corrupted 100\nfaulted 3\n",
    },
    Case {
        line: "run -o C -w 0",
        text: "script a
malloc x 90
realloc x x 100
store x 95 7
realloc x x 80
load x 95
store x 80 7
free x
end
",
        status: Status::Faulted,
        head: LIST_0_CANARY,
        pool: "01 entries 7
0 1 0 malloc 90 @0x0 = block 0x10000 w 0 0 claim 0@1 0+1
0 2 0 realloc 0x10000 100 @0x0 = block 0x10000
0 3 0 store 0x1005f 07 = done
0 4 0 realloc 0x10000 80 @0x0 = block 0x10000
0 5 0 load 0x1005f = byte 01
0 6 0 store 0x10050 07 = done
0 7 0 free 0x10000 = fault canary corrupted 80 w 0
",
        outcomes: "1 block 0x10000
2 block 0x10000
3 done
4 block 0x10000
5 byte 01
6 done
7 fault canary corrupted 80
faulted 7
",
    },
];

#[test]
fn misuse_is_seen(rt: HostRuntime) -> Result<(), Fail> {
    gives_all(&rt, rt.alloc(), &MISUSE)
}
