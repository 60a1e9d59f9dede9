ghost use Rattle.std.specs.Prelude.{◌≡◌};

use super::*;
use om_geom::{Class, Page};
use std::marker::Send;
use std::test::Fail;

fn moves<T: Send>(value: T) -> T
    ensures { result ≡ value }
{
    value
}

#[test]
fn runs_at_the_end_of_a_zone(rt: HostRuntime) -> Result<(), Fail> {
    let mut table = moves(PageTable::new(rt.alloc(), 2)?);
    table.add_run(Page(28), 8);
    assert_eq!(rt; table.free_count(), 8);
    assert_eq!(rt; table.take_run(33), None);
    assert_eq!(rt; table.take_run(5), None);
    assert_eq!(rt; table.free_count(), 8);
    assert_eq!(rt; table.take_run(3), Some(Page(28)));
    assert_eq!(rt; table.take_run(2), Some(Page(32)));
    assert_eq!(rt; table.take_run(1), Some(Page(31)));
    assert_eq!(rt; table.take_run(2), Some(Page(34)));
    assert_eq!(rt; table.take_run(1), None);
    Ok(())
}

#[test]
fn a_block_with_its_guard(rt: HostRuntime) -> Result<(), Fail> {
    let mut table = PageTable::new(rt.alloc(), 1)?;
    table.add_run(Page(28), 4);
    table.set_block(Page(29), 2, true);
    let first = Page(29);
    let block = PageKind::Block { first, pages: 2 };
    for (page, want) in [
        (27, PageKind::Absent),
        (28, PageKind::Free),
        (29, block),
        (30, block),
        (31, PageKind::Guard { first }),
        (32, PageKind::Absent),
        (u32::MAX, PageKind::Absent),
    ] {
        assert_eq!(rt; table.find(Page(page)), want, "page {page}");
    }
    assert_eq!(rt; table.free_count(), 1);
    Ok(())
}

#[test]
fn a_page_that_comes_and_goes(rt: HostRuntime) -> Result<(), Fail> {
    let mut table = PageTable::new(rt.alloc(), 1)?;
    table.add_run(Page(0), 2);
    table.set_chunk(Page(0), Class(16));
    assert_eq!(rt; table.find(Page(0)), PageKind::Chunk(Class(16)));
    assert_eq!(rt; table.take_run(2), None);
    table.give_run(Page(0), 1);
    assert_eq!(rt; table.free_count(), 2);
    table.drop_run(Page(0), 1);
    assert_eq!(rt; table.find(Page(0)), PageKind::Absent);
    assert_eq!(rt; table.free_count(), 1);
    assert_eq!(rt; table.take_run(1), Some(Page(1)));
    let block = PageKind::Block {
        first: Page(1),
        pages: 1,
    };
    assert_eq!(rt; table.find(Page(1)), block);
    Ok(())
}
