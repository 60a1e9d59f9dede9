//! How a live block comes to a new size: whether it stays at its address, and what it has there then.
ghost use Rattle.std.specs.Prelude.{◌≡◌, ◌+◌, ◌-◌, ◌*◌, ◌<◌, ◌≤◌, ◌^◌, IsSome, Some, length};
ghost use Rattle.std.specs.List.{list_all, list_any, range_with_len};
ghost use Rattle.std.specs.Option.{option_map};
ghost use Rattle.om_chunk.specs.Pages.{place_in};
ghost use Rattle.om_geom.specs.Addresses.{page_at};
ghost use Rattle.om_geom.specs.Numbers.{most_zones, zone_pages};
ghost use Rattle.om_model.specs.Pool.Resizing.{fits_in_zone};
ghost use Rattle.om_model.specs.Pool.Rules.{canary_byte, size_class};
ghost use Rattle.om_model.specs.Pool.Rules as model;
ghost use Rattle.om_pages.specs.Kinds.{is_free, is_held};
ghost use Rattle.om_pages.specs.Tables as table;
ghost use Rattle.om_pool.specs.Chunks.{HoldsPlace};
ghost use Rattle.om_pool.specs.HoldingsView.{rules_in, tables_in, IsSameBut};
ghost use Rattle.om_pool.specs.Malloc.{IsOwnRun};
ghost use Rattle.om_pool.specs.Resizing.{chunk_stayed, pages_grown, pages_grown_over, pages_shrunk, pages_stayed, IsNextRun};
ghost use Rattle.om_pool.specs.TableSteps.{IsTied};
ghost use Rattle.om_pool.specs.Ways.{way_by, way_by_class, way_by_pages, way_in, way_over};

use crate::blocks::Request;
use crate::holdings::{Holdings, page_at};
use om_frame::Bundle;
use om_geom::{Addr, Class, PAGE_SIZE, Page, ZONE_PAGES, addr_of, class_of, pages_of};
use om_model::Block;
use om_pages::PageKind;

/// How a block comes to a new size. It stays as it is; it gives its last pages up; free pages of the pool
/// join it; pages are claimed for it, or else it moves; it moves.
#[derive(Clone, Copy)]
pub(crate) enum Way {
    Stays,
    Shrinks,
    Grows,
    Claims,
    Moves,
}

impl Holdings {
    /// How the block comes to the size.
    pub(crate) fn way(&self, block: Block, size: u64) -> Way
        requires { page_at block.address < zone_pages * most_zones }
        ensures { way_in result ≡ way_by (rules_in self.now) (tables_in self.now) block size }
    {
        if self.opts.always_move {
            return Way::Moves;
        }
        let old = class_of(block.size, self.opts.canary);
        let new = class_of(size, self.opts.canary);
        self.way_by_class(block, size, old, new)
    }

    // By the class of the old size and that of the new one, where they have one.
    fn way_by_class(&self, block: Block, size: u64, old: Option<Class>, new: Option<Class>) -> Way
        requires { page_at block.address < zone_pages * most_zones }
        ensures { way_in result
            ≡ way_by_class (rules_in self.now) (tables_in self.now) block size
            (option_map (λ class. class.0) old) (option_map (λ class. class.0) new) }
    {
        match (old, new) {
            (Some(old), Some(new)) if new.0 == old.0 => Way::Stays,
            (None, None) => self.way_by_pages(block, size),
            _ => Way::Moves,
        }
    }

    fn way_by_pages(&self, block: Block, size: u64) -> Way
        requires { page_at block.address < zone_pages * most_zones }
        ensures { way_in result
            ≡ way_by_pages (rules_in self.now) (tables_in self.now) block size }
    {
        let old = pages_of(block.size);
        let new = pages_of(size);
        if new == old {
            Way::Stays
        } else if new < old {
            Way::Shrinks
        } else if self.fits_in_zone(block, size) {
            let after = page_at(block.address) + self.block_pages(block.size);
            self.way_over(after as u32, (new - old) as u32)
        } else {
            Way::Moves
        }
    }

    // Whether the block would still be a run of one zone.
    fn fits_in_zone(&self, block: Block, size: u64) -> bool
        ensures { result ≡ fits_in_zone (rules_in self.now) block size }
    {
        let pages = u64::from(ZONE_PAGES);
        page_at(block.address) % pages + self.block_pages(size) <= pages
    }

    // The pages of a page block and its guard.
    fn block_pages(&self, size: u64) -> u64
        ensures value { result ≡ model.block_pages (rules_in self.now) size }
        ensures few { result < 2 ^ 63 }
    {
        pages_of(size) + u64::from(self.opts.guard)
    }

    // How a block comes to have `n` pages besides, from the first on.
    fn way_over(&self, first: u32, n: u32) -> Way
        requires { first + n < 2 ^ 32 }
        ensures { way_in result
            ≡ way_over (tables_in self.now) (record { first = first; count = n }) }
    {
        if self.are_free(first, n) {
            Way::Grows
        } else if self.holds_some(first, n) {
            Way::Moves
        } else {
            Way::Claims
        }
    }

    fn are_free(&self, first: u32, n: u32) -> bool
        requires { first + n < 2 ^ 32 }
        ensures { result ≡ list_all (λ page. is_free (table.kind_of self.now.pages page))
            (range_with_len first n) }
    {
        (first..first + n).all(|page| matches!(self.pages.find(Page(page)), PageKind::Free))
    }

    fn holds_some(&self, first: u32, n: u32) -> bool
        requires { first + n < 2 ^ 32 }
        ensures { result ≡ list_any (λ page. is_held (table.kind_of self.now.pages page))
            (range_with_len first n) }
    {
        (first..first + n).any(|page| !matches!(self.pages.find(Page(page)), PageKind::Absent))
    }

    /// A chunk stays: its place gets the size and the site of the block, and the canaries behind it are
    /// written anew.
    pub(crate) fn keep_chunk(&mut self, block: Block, class: Class, canary: u8)
        requires class { size_class (rules_in self.old) block.size ≡ Some class.0 }
        requires byte { canary ≡ canary_byte (rules_in self.old) }
        requires place { IsSome (place_in self.old.chunks.pages block.address) }
        requires bytes { HoldsPlace self.old.shelf
            (record { address = block.address; class = class.0 }) }
        ensures tables { tables_in self.new
            ≡ chunk_stayed (rules_in self.old) block (tables_in self.old) }
        ensures same { IsSameBut self.old self.new }
    {
        self.chunks
            .set_live(Addr(block.address), block.size, block.site);
        self.write_canaries(block, class, canary);
    }

    /// A page block stays, and what was asked for it is this now.
    pub(crate) fn keep_block(&mut self, first: Page, request: Request)
        requires { first.0 < length self.old.blocks }
        ensures tables { tables_in self.new ≡ pages_stayed (tables_in self.old) first.0 request }
        ensures same { IsSameBut self.old self.new }
    {
        self.blocks.set(first, request);
    }

    /// A page block of `old` data pages gives up the last ones, which become free, and keeps `new`.
    pub(crate) fn shrink_block(&mut self, first: Page, old: u32, new: u32, request: Request)
        requires fewer { new < old }
        requires few { old ≤ zone_pages }
        requires run { IsOwnRun self.old (table.block_pages old self.old.opts.guard) first.0 }
        ensures tables { tables_in self.new
            ≡ pages_shrunk (rules_in self.old) (tables_in self.old) first.0 old new request }
        ensures same { IsSameBut self.old self.new }
    {
        self.set_block(first, new, request);
        let kept = self.with_guard(new);
        self.free_pages(Page(first.0 + kept), old - new);
    }

    /// A page block of `old` data pages grows over the pages after it, which are held, and has `new` then.
    pub(crate) fn grow_block(&mut self, first: Page, old: u32, new: u32, request: Request)
        requires more { old < new }
        requires few { new ≤ zone_pages }
        requires run { IsOwnRun self.old (table.block_pages new self.old.opts.guard) first.0 }
        ensures tables { tables_in self.new
            ≡ pages_grown (rules_in self.old) (tables_in self.old) first.0 old new request }
        ensures same { IsSameBut self.old self.new }
    {
        self.set_block(first, new, request);
        let behind = addr_of(first).0 + u64::from(PAGE_SIZE * old);
        self.fill_fresh(Addr(behind), PAGE_SIZE * (new - old));
    }

    /// The same over the pages after it that were claimed, whose frames come with them.
    pub(crate) fn grow_claimed(
        &mut self,
        first: Page,
        old: u32,
        new: u32,
        frames: Bundle,
        request: Request,
    )
        requires more { old < new }
        requires few { new ≤ zone_pages }
        requires tied { IsTied self.old.zones (tables_in self.old) }
        requires run { IsOwnRun self.old (table.block_pages old self.old.opts.guard) first.0 }
        requires next { IsNextRun self.old first.0 old new frames }
        ensures tables { tables_in self.new
            ≡ pages_grown_over (rules_in self.old) (tables_in self.old) first.0 old new request }
        ensures same { IsSameBut self.old self.new }
    {
        let after = first.0 + self.with_guard(old);
        self.add_pages(Page(after), new - old, frames);
        self.grow_block(first, old, new, request);
    }
}
