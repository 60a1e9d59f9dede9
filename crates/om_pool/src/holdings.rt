//! What a pool holds: the tables that stand for its state, with the options and the source of its words.
ghost use Rattle.std.specs.Prelude.{◌≡◌, ◌+◌, ◌*◌, ◌<◌, ◌≤◌, ◌^◌, true, IsTrue, IsSome, IfSome, length, Some, None, OnOk, IfOk};
ghost use Rattle.om_chunk.specs.Pages as chunks;
ghost use Rattle.om_chunk.specs.Picks.{place_on, IsFreeOn};
ghost use Rattle.om_delay.specs.Slots.{no_slots};
ghost use Rattle.om_frame.specs.Frames.{zero_frames, AreHeld};
ghost use Rattle.om_frame.specs.Memory.{no_pages};
ghost use Rattle.om_geom.specs.Addresses.{page_at};
ghost use Rattle.om_geom.specs.Classes.{is_class, places_of};
ghost use Rattle.om_geom.specs.Numbers.{zone_pages, most_zones};
ghost use Rattle.om_model.specs.Pool.Picks.{place_address};
ghost use Rattle.om_model.specs.Pool.Rules.{word_at};
ghost use Rattle.om_pages.specs.FreeRuns.{lowest_run};
ghost use Rattle.om_pages.specs.Kinds.{is_absent, is_free, is_held};
ghost use Rattle.om_pages.specs.Tables as table;
ghost use Rattle.om_pool.specs.Asking.{one_page};
ghost use Rattle.om_pool.specs.Blocks.{no_requests};
ghost use Rattle.om_pool.specs.HoldingsView.{rules_in, tables_in, with_drawn, IsSameBut};
ghost use Rattle.om_pool.specs.Malloc.{TakesRun};
ghost use Rattle.om_pool.specs.PoolView.{rules_by};
ghost use Rattle.om_pool.specs.TableSteps.{claimed_run, fresh_page, freed_place, freed_run, gone_run, is_surplus_by, live_place, page_goes, with_page_block, FreshPlace, IsTied, OwnPlace};

use crate::blocks::{BlockTable, Request};
use om_chunk::{ChunkPages, Picked};
use om_delay::Slots;
use om_frame::{Bundle, Shelf};
use om_geom::{Addr, Class, FIRST_ADDRESS, PAGE_SIZE, Page, addr_of, stride};
use om_opts::Opts;
use om_pages::PageTable;
use om_words::Words;
use std::alloc::{AllocError, Global};

/// The rules and the tables of a pool. The page table says what each page is, the chunk pages what each
/// of their places has, the block table what was asked for the page block that begins at a page, and the
/// shelf has the bytes of the held pages; a slot has the bytes of a delayed place, or nothing.
#[derive(Drop)]
pub(crate) struct Holdings {
    pub(crate) opts: Opts,
    pub(crate) zones: u32,
    pub(crate) words: Words,
    pub(crate) pages: PageTable,
    pub(crate) chunks: ChunkPages,
    pub(crate) blocks: BlockTable,
    pub(crate) slots: Slots,
    pub(crate) shelf: Shelf,
}

impl Holdings {
    /// Nothing is held, and no more words are drawn than were.
    pub(crate) fn new(
        alloc: Global,
        opts: Opts,
        words: Words,
        zones: u32,
    ) -> Result<Holdings, AllocError>
        requires some_zone { 1 ≤ zones }
        requires few_zones { zones ≤ most_zones }
        ensures rules { IfOk result (λ own. rules_in own ≡ rules_by opts zones words.source) }
        ensures zones { IfOk result (λ own. own.zones ≡ zones) }
        ensures pages { IfOk result (λ own. own.pages ≡ table.no_pages zones) }
        ensures chunks { IfOk result (λ own. own.chunks.pages ≡ chunks.no_pages zones) }
        ensures blocks { IfOk result (λ own. own.blocks ≡ no_requests zones) }
        ensures slots { IfOk result (λ own. own.slots ≡ no_slots) }
        ensures drawn { IfOk result (λ own. own.words.place ≡ words.place) }
        ensures memory { IfOk result (λ own. own.shelf ≡ no_pages zones) }
    {
        Ok(Holdings {
            opts,
            zones,
            words,
            pages: PageTable::new(alloc, zones)?,
            chunks: ChunkPages::new(alloc, zones)?,
            blocks: BlockTable::new(alloc, zones)?,
            slots: Slots::new(),
            shelf: Shelf::new(alloc, zones)?,
        })
    }

    /// Makes room for a chunk page.
    pub(crate) fn reserve(&mut self) -> Result<(), AllocError>
        ensures room { OnOk result (1 ≤ self.new.chunks.spare) }
        ensures rules { rules_in self.new ≡ rules_in self.old }
        ensures tables { tables_in self.new ≡ tables_in self.old }
        ensures drawn { self.new.words ≡ self.old.words }
    {
        self.chunks.reserve()
    }

    /// The next word of the pool.
    pub(crate) fn draw(&mut self) -> u32
        requires { self.old.words.place < 2 ^ 63 }
        ensures word { result ≡ word_at (rules_in self.old) self.old.words.place }
        ensures same { self.new ≡ with_drawn 1 self.old }
    {
        self.words.draw()
    }

    /// The place that the pool itself has for a chunk: on the open page that the first word chooses, or
    /// else on the lowest free page, which becomes a chunk page. The second word chooses the place.
    pub(crate) fn own_place(&mut self, class: Class, first: u32, second: u32) -> Option<Picked>
        requires class { IsTrue (is_class class.0) }
        requires room { 1 ≤ self.old.chunks.spare }
        requires tied { IsTied self.old.zones (tables_in self.old) }
        ensures found { OwnPlace (tables_in self.old) (tables_in self.new) class.0 first second
            result }
        ensures room { result ≡ None → self.old.chunks.spare ≤ self.new.chunks.spare }
        ensures free { IfSome result
            (λ found. IsFreeOn self.new.chunks.pages class.0 found.page.0 found.place) }
        ensures same { IsSameBut self.old self.new }
    {
        match self.chunks.pick(class, first, second) {
            Some(found) => Some(found),
            None => self.fresh_place(class, second),
        }
    }

    fn fresh_place(&mut self, class: Class, word: u32) -> Option<Picked>
        requires class { IsTrue (is_class class.0) }
        requires room { 1 ≤ self.old.chunks.spare }
        requires tied { IsTied self.old.zones (tables_in self.old) }
        ensures found { FreshPlace (tables_in self.old) (tables_in self.new) class.0 word result
            (lowest_run self.old.pages 1) }
        ensures room { result ≡ None → self.old.chunks.spare ≤ self.new.chunks.spare }
        ensures free { IfSome result
            (λ found. IsFreeOn self.new.chunks.pages class.0 found.page.0 found.place) }
        ensures same { IsSameBut self.old self.new }
    {
        let page = self.pages.take_run(1)?;
        Some(self.open_page(page, class, word))
    }

    /// Makes a claimed page, whose frame comes with it, a chunk page, and picks a place there.
    pub(crate) fn claimed_place(
        &mut self,
        page: Page,
        frames: Bundle,
        class: Class,
        word: u32,
    ) -> Picked
        requires class { IsTrue (is_class class.0) }
        requires room { 1 ≤ self.old.chunks.spare }
        requires tied { IsTied self.old.zones (tables_in self.old) }
        requires new { table.AreAll is_absent self.old.pages page.0 1 }
        requires frames { frames ≡ zero_frames page.0 1 }
        ensures tables { tables_in self.new
            ≡ fresh_page (claimed_run (tables_in self.old) (one_page page.0)) page.0 class.0 }
        ensures page { result.page ≡ page }
        ensures place { place_on self.new.chunks.pages page.0 word ≡ Some result.place }
        ensures free { IsFreeOn self.new.chunks.pages class.0 page.0 result.place }
        ensures same { IsSameBut self.old self.new }
    {
        self.add_pages(page, 1, frames);
        self.open_page(page, class, word)
    }

    /// Takes claimed pages, whose frames come with them. They are free then.
    pub(crate) fn add_pages(&mut self, first: Page, n: u32, frames: Bundle)
        requires tied { IsTied self.old.zones (tables_in self.old) }
        requires new { table.AreAll is_absent self.old.pages first.0 n }
        requires frames { frames ≡ zero_frames first.0 n }
        ensures tables { tables_in self.new
            ≡ claimed_run (tables_in self.old) (record { first = first.0; count = n }) }
        ensures chunks { self.new.chunks ≡ self.old.chunks }
        ensures requests { self.new.blocks ≡ self.old.blocks }
        ensures same { IsSameBut self.old self.new }
    {
        self.pages.add_run(first, n);
        self.shelf.add(frames);
    }

    // Makes a held page on which nothing lies a chunk page, and picks a place there.
    fn open_page(&mut self, page: Page, class: Class, word: u32) -> Picked
        requires class { IsTrue (is_class class.0) }
        requires room { 1 ≤ self.old.chunks.spare }
        requires held { table.AreAll is_held self.old.pages page.0 1 }
        requires there { page.0 < length self.old.chunks.pages }
        requires none { chunks.page_in self.old.chunks.pages page.0 ≡ None }
        ensures tables { tables_in self.new ≡ fresh_page (tables_in self.old) page.0 class.0 }
        ensures page { result.page ≡ page }
        ensures place { place_on self.new.chunks.pages page.0 word ≡ Some result.place }
        ensures free { IsFreeOn self.new.chunks.pages class.0 page.0 result.place }
        ensures same { IsSameBut self.old self.new }
    {
        self.pages.set_chunk(page, class);
        self.chunks.add_page(page, class);
        let place = self.chunks.pick_on(page, word);
        Picked { page, place }
    }

    /// The lowest run of `n` free pages that the pool itself has. It is marked as taken.
    pub(crate) fn own_run(&mut self, n: u32) -> Option<Page>
        requires some { 1 ≤ n }
        ensures found { TakesRun (tables_in self.old) (tables_in self.new) n result }
        ensures same { IsSameBut self.old self.new }
    {
        self.pages.take_run(n)
    }

    /// How many pages a block of so many data pages has, with its guard where guards are on.
    pub(crate) fn with_guard(&self, pages: u32) -> u32
        requires { pages ≤ zone_pages }
        ensures { result ≡ table.block_pages pages self.now.opts.guard }
    {
        if self.opts.guard { pages + 1 } else { pages }
    }

    /// Makes held pages those of a block of so many data pages, with its guard where guards are on, and
    /// keeps what was asked for it.
    pub(crate) fn set_block(&mut self, first: Page, pages: u32, request: Request)
        requires held { table.AreAll is_held self.old.pages first.0
            (table.block_pages pages self.old.opts.guard) }
        requires there { first.0 < length self.old.blocks }
        ensures tables { tables_in self.new ≡ with_page_block (tables_in self.old) first.0 pages
            self.old.opts.guard request }
        ensures same { IsSameBut self.old self.new }
    {
        self.pages.set_block(first, pages, self.opts.guard);
        self.blocks.set(first, request);
    }

    /// Makes held pages free.
    pub(crate) fn free_pages(&mut self, first: Page, n: u32)
        requires held { table.AreAll is_held self.old.pages first.0 n }
        ensures tables { tables_in self.new
            ≡ freed_run (tables_in self.old) (record { first = first.0; count = n }) }
        ensures same { IsSameBut self.old self.new }
    {
        self.pages.give_run(first, n);
    }

    /// Puts a block on the place that was picked. Gives its address.
    pub(crate) fn settle(&mut self, picked: Picked, class: Class, size: u64, site: u64) -> u64
        requires class { IsTrue (is_class class.0) }
        requires page { picked.page.0 < zone_pages * most_zones }
        requires free { IsFreeOn self.old.chunks.pages class.0 picked.page.0 picked.place }
        ensures address { result ≡ place_address picked.page.0 class.0 picked.place }
        ensures tables { tables_in self.new ≡ live_place (tables_in self.old) result size site }
        ensures same { IsSameBut self.old self.new }
    {
        let address = place_start(picked, class);
        self.chunks.set_live(Addr(address), size, site);
        address
    }

    /// Makes a place free, and its page where it was the last one there. Whether it was.
    pub(crate) fn set_free(&mut self, address: u64) -> bool
        requires place { IsSome (chunks.place_in self.old.chunks.pages address) }
        requires held { table.AreAll is_held self.old.pages (page_at address) 1 }
        requires low { page_at address < zone_pages * most_zones }
        ensures goes { result ≡ page_goes (tables_in self.old) address }
        ensures tables { tables_in self.new ≡ freed_place (tables_in self.old) address }
        ensures same { IsSameBut self.old self.new }
    {
        let last = self.chunks.set_free(Addr(address));
        if last {
            self.pages.give_run(Page(page_at(address) as u32), 1);
        }
        last
    }

    /// Whether more pages are free than the pool keeps.
    pub(crate) fn is_surplus(&self) -> bool
        ensures { result ≡ is_surplus_by (rules_in self.now) (tables_in self.now) }
    {
        self.pages.free_count() > self.opts.cache
    }

    /// Takes free pages out, and gives their frames.
    pub(crate) fn leave(&mut self, first: Page, n: u32) -> Bundle
        requires few { n ≤ zone_pages }
        requires free { table.AreAll is_free self.old.pages first.0 n }
        requires held { AreHeld self.old.shelf first.0 n }
        ensures frames { result ≡ zero_frames first.0 n }
        ensures tables { tables_in self.new
            ≡ gone_run (tables_in self.old) (record { first = first.0; count = n }) }
        ensures same { IsSameBut self.old self.new }
    {
        self.pages.drop_run(first, n);
        self.shelf.remove(first, n)
    }
}

// The first byte of a place.
fn place_start(picked: Picked, class: Class) -> u64
    requires page { picked.page.0 < zone_pages * most_zones }
    requires class { IsTrue (is_class class.0) }
    requires place { picked.place < places_of class.0 }
    ensures { result ≡ place_address picked.page.0 class.0 picked.place }
{
    addr_of(picked.page).0 + u64::from(picked.place) * u64::from(stride(class))
}

/// The page on which an address of the arena lies.
pub(crate) fn page_at(address: u64) -> u64
    ensures { result ≡ page_at address }
{
    address.saturating_sub(FIRST_ADDRESS) / u64::from(PAGE_SIZE)
}
