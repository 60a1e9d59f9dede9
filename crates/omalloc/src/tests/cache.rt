//! The free pages that a pool keeps and gives up.
use super::gives_output;
use crate::status::Status;
use std::alloc::Global;
use std::process::Abort;
use std::sync::Wait;
use std::test::Fail;
use std::thread::Threads;

// Two blocks fill a page. Each free takes slot 0, so it lets go the block that was freed before: pages 0
// and 1 become free with the frees of c and e. The letters, the cache, and what these two release.
fn caches<R: Abort + Threads + Wait + Sync>(
    rt: &R,
    alloc: Global,
    letters: &str,
    cache: u32,
    first: &str,
    second: &str,
) -> Result<(), Fail> {
    let line = format!(in alloc; "run -o {letters} -w 0")?;
    let head = format!(in alloc; "64 pools 1 flags ------- junk 1 cache {cache}\nwords list 0\n")?;
    let pool = format!(in alloc;
        "01 entries 10
0 1 0 malloc 2048 @0x0 = block 0x10000 w 0 0 claim 0@1 0+1
0 2 0 malloc 2048 @0x0 = block 0x10800 w 0 0
0 3 0 malloc 2048 @0x0 = block 0x11000 w 0 0 claim 0@2 1+1
0 4 0 malloc 2048 @0x0 = block 0x11800 w 0 0
0 5 0 malloc 2048 @0x0 = block 0x12000 w 0 0 claim 0@3 2+1
0 6 0 free 0x10000 = done w 0
0 7 0 free 0x10800 = done w 0
0 8 0 free 0x11000 = done w 0{first}
0 9 0 free 0x11800 = done w 0
0 10 0 free 0x12000 = done w 0{second}
"
    )?;
    let outcomes = "1 block 0x10000
2 block 0x10800
3 block 0x11000
4 block 0x11800
5 block 0x12000
6 done
7 done
8 done
9 done
10 done
finished
";
    let text = "script a
malloc a 2048
malloc b 2048
malloc c 2048
malloc d 2048
malloc e 2048
free a
free b
free c
free d
free e
end
";
    let output = (head.as_str(), pool.as_str(), outcomes);
    gives_output(rt, alloc, line.as_str(), text, Status::Finished, output)
}

#[test]
fn the_cache_bounds_the_free_pages(rt: HostRuntime) -> Result<(), Fail> {
    caches(
        &rt,
        rt.alloc(),
        "<<<<<<<",
        0,
        " release 0@4 0+1",
        " release 0@5 1+1",
    )?;
    caches(&rt, rt.alloc(), "<<<<<<", 1, "", " release 0@4 1+1")?;
    caches(&rt, rt.alloc(), "", 64, "", "")?;
    caches(&rt, rt.alloc(), ">>", 256, "", "")
}
