ghost use Rattle.std.specs.Prelude.{◌≡◌, ◌+◌, ◌*◌, ◌^◌, ◌<◌, ◌≤◌, true, false, slice_set, length, IfOk, IfSome, IfNone};
ghost use Rattle.std.specs.Option.{option_map};
ghost use Rattle.om_geom.specs.Addresses.{bit_of};
ghost use Rattle.om_geom.specs.Numbers.{zone_pages, most_zones};
ghost use Rattle.om_pages.specs.FreeRuns.{lowest_run};
ghost use Rattle.om_pages.specs.Kinds.{is_absent, is_free, is_held};
ghost use Rattle.om_pages.specs.Tables.{no_pages, kind_of, free_count, with_run, with_block, block_pages, AreAll};
ghost use Rattle.om_pages.specs.declared.kind.PageKind.TheVariants.{Absent, Free, Chunk};

use crate::kind::PageKind;
use crate::runs::{kind_of, lowest_run};
use om_geom::{Class, Page, ZONE_PAGES};
use std::alloc::{AllocError, Global};
use std::marker::Model;
use std::mem;

/// What each page of an arena is to one pool.
#[derive(Drop)]
pub struct PageTable {
    // One for each page of the arena, by the page's number.
    kinds: Vec<PageKind>,
    // How many of them are free.
    free: u32,
}

impl Model for PageTable {
    ghost use Rattle.std.specs.Prelude.{◌≡◌, ◌*◌, ◌≤◌, List, length};
    ghost use Rattle.om_geom.specs.Numbers.{zone_pages, most_zones};
    ghost use Rattle.om_pages.specs.declared.kind.PageKind.{PageKind};
    ghost use Rattle.om_pages.specs.Tables.{free_count};

    ghost Value = { List PageKind };

    ghost view = { λ t. t.kinds.items };

    ghost invariant = { λ t. (length t.kinds.items ≤ zone_pages * most_zones)
        × (t.free ≡ free_count t.kinds.items) };
}

impl PageTable {
    /// A table for the pages of an arena of this many zones, none of which is held.
    pub fn new(alloc: Global, zones: u32) -> Result<PageTable, AllocError>
        requires few_zones { zones ≤ most_zones }
        ensures { IfOk result (λ table. table ≡ no_pages zones) }
    {
        let count = ZONE_PAGES * zones;
        let kinds = vec![in alloc; PageKind::Absent; count as usize]?;
        Ok(PageTable { kinds, free: 0 })
    }

    /// What a page is. A page outside the arena is absent.
    pub fn find(&self, page: Page) -> PageKind
        ensures { result ≡ kind_of self.now page.0 }
    {
        kind_of(&self.kinds, page.0 as usize)
    }

    /// How many pages are free.
    pub fn free_count(&self) -> u32
        ensures count { result ≡ free_count self.now }
        ensures few { result ≤ zone_pages * most_zones }
    {
        self.free
    }

    /// Makes the lowest run of `n` free pages of one zone a page block without a guard, and gives its
    /// first page; none exactly where there is no such run.
    pub fn take_run(&mut self, n: u32) -> Option<Page>
        requires { 1 ≤ n }
        ensures first { option_map (λ page. page.0) result ≡ lowest_run self.old n }
        ensures free { IfSome result (λ page. AreAll is_free self.old page.0 n) }
        ensures one_zone { IfSome result (λ page. bit_of page.0 + n ≤ zone_pages) }
        ensures taken { IfSome result (λ page. self.new ≡ with_block self.old page.0 n false) }
        ensures none { IfNone result (self.new ≡ self.old) }
    {
        if n > self.free {
            return None;
        }
        let first = Page(lowest_run(&self.kinds, n)?);
        self.set_run(first.0 as usize, n, PageKind::Block { first, pages: n });
        Some(first)
    }

    /// Makes `n` held pages free.
    pub fn give_run(&mut self, first: Page, n: u32)
        requires { AreAll is_held self.old first.0 n }
        ensures { self.new ≡ with_run self.old first.0 n Free }
    {
        self.set_run(first.0 as usize, n, PageKind::Free);
    }

    /// Makes `n` absent pages free.
    pub fn add_run(&mut self, first: Page, n: u32)
        requires { AreAll is_absent self.old first.0 n }
        ensures { self.new ≡ with_run self.old first.0 n Free }
    {
        self.set_run(first.0 as usize, n, PageKind::Free);
    }

    /// Makes `n` free pages absent.
    pub fn drop_run(&mut self, first: Page, n: u32)
        requires { AreAll is_free self.old first.0 n }
        ensures { self.new ≡ with_run self.old first.0 n Absent }
    {
        self.set_run(first.0 as usize, n, PageKind::Absent);
    }

    /// Makes a held page a chunk page of the class.
    pub fn set_chunk(&mut self, page: Page, class: Class)
        requires { AreAll is_held self.old page.0 1 }
        ensures { self.new ≡ with_run self.old page.0 1 (Chunk class) }
    {
        self.set_run(page.0 as usize, 1, PageKind::Chunk(class));
    }

    /// Makes `pages` held pages the data pages of a page block, and with `guard` the page behind them,
    /// which is held too, its guard.
    pub fn set_block(&mut self, first: Page, pages: u32, guard: bool)
        requires { AreAll is_held self.old first.0 (block_pages pages guard) }
        ensures { self.new ≡ with_block self.old first.0 pages guard }
    {
        let begin = first.0 as usize;
        self.set_run(begin, pages, PageKind::Block { first, pages });
        if guard {
            self.set_run(begin + pages as usize, 1, PageKind::Guard { first });
        }
    }
}

impl PageTable {
    // Makes `n` pages be of the kind.
    fn set_run(&mut self, first: usize, n: u32, kind: PageKind)
        requires few { first < 2 ^ 33 }
        requires there { AreAll (λ other. true) self.old first n }
        ensures { self.new ≡ with_run self.old first n kind }
    {
        for i in 0..n as usize {
            self.set(first + i, kind);
        }
    }

    // Makes one page be of the kind, and keeps the count.
    fn set(&mut self, page: usize, kind: PageKind)
        requires { page < length self.old }
        ensures { self.new ≡ slice_set self.old page kind }
    {
        let before = mem::replace(&mut self.kinds[page], kind);
        if before.is_free() {
            self.free -= 1;
        }
        if kind.is_free() {
            self.free += 1;
        }
    }
}
