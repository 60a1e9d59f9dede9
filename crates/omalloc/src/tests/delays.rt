//! Freed places that wait: a second free, and a write after the free. The outputs are worked out by hand; the tables of
//! the repository's own checks have more of them.
use super::{Case, LIST_0, gives_all};
use crate::status::Status;
use std::test::Fail;

const WITH_F: &str = "64 pools 1 flags -F--U-- junk 1 cache 64\nwords list 0\n";

const LIST_0_1: &str = "64 pools 1 flags ------- junk 1 cache 64\nwords list 0,1\n";

const WITH_F_0_1: &str = "64 pools 1 flags -F--U-- junk 1 cache 64\nwords list 0,1\n";

const THRICE: &str = "script a\nmalloc x 100\nfree x\nfree x\nfree x\nend\n";

// A second free is seen where the drawn slot has the place, and under F in any case. One that draws another slot changes
// nothing, and one of a place that left its slot draws no word. Once the place serves another block, that one is freed,
// and its own free is told.
const SECOND_FREES: [Case; 6] = [
    Case {
        line: "run -o F -w 0",
        text: "script a\nmalloc x 100\nfree x\nfree x\nend\n",
        status: Status::Faulted,
        head: WITH_F,
        pool: "01 entries 3
0 1 0 malloc 100 @0x0 = block 0x10000 w 0 0 claim 0@1 0+1
0 2 0 free 0x10000 = done w 0
0 3 0 free 0x10000 = fault double free w 0
",
        outcomes: "1 block 0x10000\n2 done\n3 fault double free\nfaulted 3\n",
    },
    Case {
        line: "run -w 0",
        text: THRICE,
        status: Status::Faulted,
        head: LIST_0,
        pool: "01 entries 3
0 1 0 malloc 100 @0x0 = block 0x10000 w 0 0 claim 0@1 0+1
0 2 0 free 0x10000 = done w 0
0 3 0 free 0x10000 = fault double free w 0
",
        outcomes: "1 block 0x10000\n2 done\n3 fault double free\nfaulted 3\n",
    },
    Case {
        line: "run -w 0,1",
        text: THRICE,
        status: Status::Faulted,
        head: LIST_0_1,
        pool: "01 entries 4
0 1 0 malloc 100 @0x0 = block 0x11000 w 1 0 claim 0@1 1+1
0 2 0 free 0x11000 = done w 1
0 3 0 free 0x11000 = done w 0
0 4 0 free 0x11000 = fault double free w 1
",
        outcomes: "1 block 0x11000\n2 done\n3 done\n4 fault double free\nfaulted 4\n",
    },
    Case {
        line: "run -o F -w 0,1",
        text: THRICE,
        status: Status::Faulted,
        head: WITH_F_0_1,
        pool: "01 entries 3
0 1 0 malloc 100 @0x0 = block 0x11000 w 1 0 claim 0@1 1+1
0 2 0 free 0x11000 = done w 1
0 3 0 free 0x11000 = fault double free w 0
",
        outcomes: "1 block 0x11000\n2 done\n3 fault double free\nfaulted 3\n",
    },
    Case {
        line: "run -w 0",
        text: "script a\nmalloc x 100\nmalloc y 100\nfree x\nfree y\nfree x\nend\n",
        status: Status::Faulted,
        head: LIST_0,
        pool: "01 entries 5
0 1 0 malloc 100 @0x0 = block 0x10000 w 0 0 claim 0@1 0+1
0 2 0 malloc 100 @0x0 = block 0x10080 w 0 0
0 3 0 free 0x10000 = done w 0
0 4 0 free 0x10080 = done w 0
0 5 0 free 0x10000 = fault chunk is already free
",
        outcomes: "1 block 0x10000
2 block 0x10080
3 done
4 done
5 fault chunk is already free
faulted 5
",
    },
    Case {
        line: "run -o F -w 0",
        text: "script a\nmalloc x 100\nmalloc y 100\nfree x\nfree y\nmalloc z 100\nfree x\nfree z\nend\n",
        status: Status::Faulted,
        head: WITH_F,
        pool: "01 entries 7
0 1 0 malloc 100 @0x0 = block 0x10000 w 0 0 claim 0@1 0+1
0 2 0 malloc 100 @0x0 = block 0x10080 w 0 0
0 3 0 free 0x10000 = done w 0
0 4 0 free 0x10080 = done w 0
0 5 0 malloc 100 @0x0 = block 0x10000 w 0 0
0 6 0 free 0x10000 = done w 0
0 7 0 free 0x10000 = fault double free w 0
",
        outcomes: "1 block 0x10000
2 block 0x10080
3 done
4 done
5 block 0x10000
6 done
7 fault double free
faulted 7
",
    },
];

// A block is freed whose page is free by then, or serves blocks of another class.
const STALE_FREES: [Case; 2] = [
    Case {
        line: "run -w 0",
        text: "script a\nmalloc a 100\nmalloc x 100\nfree a\nfree x\nmalloc t 40\nfree t\nfree x\nend\n",
        status: Status::Faulted,
        head: LIST_0,
        pool: "01 entries 7
0 1 0 malloc 100 @0x0 = block 0x10000 w 0 0 claim 0@1 0+1
0 2 0 malloc 100 @0x0 = block 0x10080 w 0 0
0 3 0 free 0x10000 = done w 0
0 4 0 free 0x10080 = done w 0
0 5 0 malloc 40 @0x0 = block 0x11000 w 0 0 claim 0@2 1+1
0 6 0 free 0x11000 = done w 0
0 7 0 free 0x10080 = fault bogus pointer (double free?)
",
        outcomes: "1 block 0x10000
2 block 0x10080
3 done
4 done
5 block 0x11000
6 done
7 fault bogus pointer (double free?)
faulted 7
",
    },
    Case {
        line: "run -w 0",
        text: "script a\nmalloc a 100\nmalloc x 100\nfree a\nfree x\nmalloc t 40\nfree t\nmalloc y 2048\nfree x\nend\n",
        status: Status::Faulted,
        head: LIST_0,
        pool: "01 entries 8
0 1 0 malloc 100 @0x0 = block 0x10000 w 0 0 claim 0@1 0+1
0 2 0 malloc 100 @0x0 = block 0x10080 w 0 0
0 3 0 free 0x10000 = done w 0
0 4 0 free 0x10080 = done w 0
0 5 0 malloc 40 @0x0 = block 0x11000 w 0 0 claim 0@2 1+1
0 6 0 free 0x11000 = done w 0
0 7 0 malloc 2048 @0x0 = block 0x10000 w 0 0
0 8 0 free 0x10080 = fault modified chunk-pointer
",
        outcomes: "1 block 0x10000
2 block 0x10080
3 done
4 done
5 block 0x11000
6 done
7 block 0x10000
8 fault modified chunk-pointer
faulted 8
",
    },
];

#[test]
fn stale_frees(rt: HostRuntime) -> Result<(), Fail> {
    gives_all(&rt, rt.alloc(), &STALE_FREES)
}

#[test]
fn second_frees(rt: HostRuntime) -> Result<(), Fail> {
    gives_all(&rt, rt.alloc(), &SECOND_FREES)
}

// A write to a waiting place is told by the next free of a small block that draws its slot, and under F by the next of
// all. The first of the changed bytes is told. A canary of the block that is freed comes before.
const WRITES: [Case; 4] = [
    Case {
        line: "run -w 0",
        text: "script a\nmalloc x 100\nmalloc y 100\nfree x\nstore x 127 1\nstore x 5 1\nfree y\nend\n",
        status: Status::Faulted,
        head: LIST_0,
        pool: "01 entries 6
0 1 0 malloc 100 @0x0 = block 0x10000 w 0 0 claim 0@1 0+1
0 2 0 malloc 100 @0x0 = block 0x10080 w 0 0
0 3 0 free 0x10000 = done w 0
0 4 0 store 0x1007f 01 = done
0 5 0 store 0x10005 01 = done
0 6 0 free 0x10080 = fault write after free 0x10000 5 w 0
",
        outcomes: "1 block 0x10000
2 block 0x10080
3 done
4 done
5 done
6 fault write after free 0x10000 5
faulted 6
",
    },
    Case {
        line: "run -o F -w 0,1",
        text: "script a\nmalloc x 100\nmalloc y 100\nfree x\nstore x 0 0\nfree y\nend\n",
        status: Status::Faulted,
        head: WITH_F_0_1,
        pool: "01 entries 5
0 1 0 malloc 100 @0x0 = block 0x11000 w 1 0 claim 0@1 1+1
0 2 0 malloc 100 @0x0 = block 0x11080 w 1 0
0 3 0 free 0x11000 = done w 1
0 4 0 store 0x11000 00 = done
0 5 0 free 0x11080 = fault write after free 0x11000 0 w 0
",
        outcomes: "1 block 0x11000
2 block 0x11080
3 done
4 done
5 fault write after free 0x11000 0
faulted 5
",
    },
    Case {
        line: "run -w 0,1",
        text: "script a\nmalloc x 100\nmalloc y 100\nfree x\nstore x 0 0\nfree y\nend\n",
        status: Status::Finished,
        head: LIST_0_1,
        pool: "01 entries 5
0 1 0 malloc 100 @0x0 = block 0x11000 w 1 0 claim 0@1 1+1
0 2 0 malloc 100 @0x0 = block 0x11080 w 1 0
0 3 0 free 0x11000 = done w 1
0 4 0 store 0x11000 00 = done
0 5 0 free 0x11080 = done w 0
",
        outcomes: "1 block 0x11000\n2 block 0x11080\n3 done\n4 done\n5 done\nfinished\n",
    },
    Case {
        line: "run -o S -w 0",
        text: "script a\nmalloc x 100\nmalloc y 100\nfree x\nstore x 5 1\nstore y 100 7\nfree y\nend\n",
        status: Status::Faulted,
        head: "64 pools 1 flags CFG-U-- junk 2 cache 0\nwords list 0\n",
        pool: "01 entries 6
0 1 0 malloc 100 @0x0 = block 0x10000 w 0 0 claim 0@1 0+1
0 2 0 malloc 100 @0x0 = block 0x10080 w 0 0
0 3 0 free 0x10000 = done w 0
0 4 0 store 0x10005 01 = done
0 5 0 store 0x100e4 07 = done
0 6 0 free 0x10080 = fault canary corrupted 100 w 0
",
        outcomes: "1 block 0x10000
2 block 0x10080
3 done
4 done
5 done
6 fault canary corrupted 100
faulted 6
",
    },
];

// The free of a block of pages looks at no slot, and nobody looks at a place that left its slot, be it free or in use
// again.
const UNSEEN: [Case; 2] = [
    Case {
        line: "run -o F -w 0",
        text: "script a\nmalloc x 100\nmalloc p 4096\nmalloc y 100\nfree x\nstore x 0 1\nfree p\nfree y\nend\n",
        status: Status::Faulted,
        head: WITH_F,
        pool: "01 entries 7
0 1 0 malloc 100 @0x0 = block 0x10000 w 0 0 claim 0@1 0+1
0 2 0 malloc 4096 @0x0 = block 0x11000 w 0 claim 0@2 1+1
0 3 0 malloc 100 @0x0 = block 0x10080 w 0 0
0 4 0 free 0x10000 = done w 0
0 5 0 store 0x10000 01 = done
0 6 0 free 0x11000 = done
0 7 0 free 0x10080 = fault write after free 0x10000 0 w 0
",
        outcomes: "1 block 0x10000
2 block 0x11000
3 block 0x10080
4 done
5 done
6 done
7 fault write after free 0x10000 0
faulted 7
",
    },
    Case {
        line: "run -o F -w 0",
        text: "script a\nmalloc x 100\nmalloc y 100\nmalloc z 100\nfree x\nfree y\nstore x 5 1\nfree z\nload x 5\nend\n",
        status: Status::Finished,
        head: WITH_F,
        pool: "01 entries 8
0 1 0 malloc 100 @0x0 = block 0x10000 w 0 0 claim 0@1 0+1
0 2 0 malloc 100 @0x0 = block 0x10080 w 0 0
0 3 0 malloc 100 @0x0 = block 0x10100 w 0 0
0 4 0 free 0x10000 = done w 0
0 5 0 free 0x10080 = done w 0
0 6 0 store 0x10005 01 = done
0 7 0 free 0x10100 = done w 0
0 8 0 load 0x10005 = byte 01
",
        outcomes: "1 block 0x10000
2 block 0x10080
3 block 0x10100
4 done
5 done
6 done
7 done
8 byte 01
finished
",
    },
];

#[test]
fn writes_nobody_looks_for(rt: HostRuntime) -> Result<(), Fail> {
    gives_all(&rt, rt.alloc(), &UNSEEN)
}

#[test]
fn writes_after_a_free(rt: HostRuntime) -> Result<(), Fail> {
    gives_all(&rt, rt.alloc(), &WRITES)
}
