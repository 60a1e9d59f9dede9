ghost use Rattle.std.specs.Prelude.{◌≡◌, ◌+◌, ◌*◌, ◌%◌, ◌<◌, ◌≤◌, ◌↔◌, true, IsTrue, IsSome, IfSome, IfOk, OnOk, IsOk, MatchOption, Some, None, length, is_some, is_none, slice_get, slice_set};
ghost use Rattle.std.specs.Option.{option_map};
ghost use Rattle.om_geom.specs.Addresses.{page_at};
ghost use Rattle.om_geom.specs.Classes.{is_class, places_of};
ghost use Rattle.om_geom.specs.Numbers.{most_zones, zone_pages, first_address};
ghost use Rattle.om_chunk.specs.Pages.{no_pages, page_in, page_with, offset_of, place_in, with_page, with_place, page_kept, page_left, with_freed};
ghost use Rattle.om_chunk.specs.OpenSets.{IsUnusedOf};
ghost use Rattle.om_chunk.specs.Picks.{open_pages, has_free_place, is_open, place_on, picked_page, picked, IsFreeOn};
ghost use Rattle.om_chunk.specs.Places.{state_of};
ghost use Rattle.om_chunk.specs.declared.place.Place.TheVariants.{Live, Delayed, Free};

use crate::open::OpenPages;
use crate::page::{MOST_PLACES, PagePlaces};
use crate::place::{Place, PlaceState, state_of};
use om_geom::{Addr, Class, FIRST_ADDRESS, PAGE_SIZE, Page, ZONE_PAGES};
use std::alloc::{AllocError, Global};
use std::marker::Model;

/// A place of a page, counted from 0.
#[derive(Clone, Copy, Debug, PartialEq, Eq)]
pub struct Picked {
    pub page: Page,
    pub place: u32,
}

/// The chunk pages of one pool, and what each of their places has.
#[derive(Drop)]
pub struct ChunkPages {
    alloc: Global,
    // One for each page of the arena, by the page's number.
    pages: Vec<Option<PagePlaces>>,
    // The chunk pages that have a free place.
    listed: OpenPages,
    // For the places of one page more.
    room: Option<Vec<Place>>,
}

impl Model for ChunkPages {
    ghost use Rattle.std.specs.Prelude.{◌≡◌, ◌*◌, ◌≤◌, List, [], length, if◌then◌else◌, is_some, IfSome, vec_capacity};
    ghost use Rattle.om_geom.specs.Numbers.{zone_pages, most_zones};
    ghost use Rattle.om_chunk.specs.OpenSets.{AreOpen};
    ghost use Rattle.om_chunk.specs.Pages.{PageList};

    ghost Value = { PageList };

    ghost view = { λ c. record {
      pages = c.pages.items;
      spare = if is_some c.room then 1 else 0;
    } };

    ghost invariant = { λ c. (length c.pages.items ≤ zone_pages * most_zones)
        × IfSome c.room (λ room. (room.items ≡ []) × (256 ≤ vec_capacity room))
        × AreOpen c.pages.items c.listed };
}

impl ChunkPages {
    /// For an arena of this many zones. No page is here yet, and there is no room for one.
    pub fn new(alloc: Global, zones: u32) -> Result<ChunkPages, AllocError>
        requires few_zones { zones ≤ most_zones }
        ensures { IfOk result (λ chunks. chunks.pages ≡ no_pages zones) }
    {
        let count = (ZONE_PAGES * zones) as usize;
        let listed = OpenPages::new(alloc, count)?;
        let mut pages = Vec::with_capacity(alloc, count)?;
        for _ in 0..count {
            pages.push(None)?;
        }
        Ok(ChunkPages {
            alloc,
            pages,
            listed,
            room: None,
        })
    }

    /// Makes room for one page more, where there is none. After want of memory the pages are as before.
    pub fn reserve(&mut self) -> Result<(), AllocError>
        ensures pages { self.new.pages ≡ self.old.pages }
        ensures room { OnOk result (1 ≤ self.new.spare) }
        ensures spare { self.old.spare ≤ self.new.spare }
        ensures made { 1 ≤ self.old.spare → IsOk result }
    {
        if self.room.is_none() {
            self.room = Some(Vec::with_capacity(self.alloc, MOST_PLACES)?);
        }
        Ok(())
    }

    /// Makes a page a chunk page of the class, with all places free. Takes no memory: the room was made
    /// before.
    pub fn add_page(&mut self, page: Page, class: Class)
        requires room { 1 ≤ self.old.spare }
        requires there { page.0 < length self.old.pages }
        requires fresh { page_in self.old.pages page.0 ≡ None }
        requires class { IsTrue (is_class class.0) }
        ensures pages { self.new.pages ≡ with_page self.old.pages page.0 class.0 }
        ensures spare { self.old.spare ≤ self.new.spare + 1 }
    {
        if let Some(room) = self.room.take() {
            self.pages[page.0 as usize] = Some(PagePlaces::new(room, class));
            self.listed.set(class, page.0, true);
        }
    }

    /// Of the pages of the class that have a free place, in ascending order, the one that the first word
    /// chooses; and on it the first free place in cyclic order from the one that the second word chooses.
    /// None exactly where no page of the class has a free place.
    pub fn pick(&self, class: Class, w1: u32, w2: u32) -> Option<Picked>
        requires { IsTrue (is_class class.0) }
        ensures value { result ≡ picked self.now.pages class.0 w1 w2 }
        ensures some { IsSome result ↔ (0 < length (open_pages self.now.pages class.0)) }
        ensures free { IfSome result
            (λ found. IsFreeOn self.now.pages class.0 found.page.0 found.place) }
    {
        let page = self.picked_page(class, w1)?;
        let place = self.place_on(page, w2)?;
        Some(Picked {
            page: Page(page),
            place,
        })
    }

    /// The first free place of the page in cyclic order from the one that the word chooses.
    pub fn pick_on(&self, page: Page, w2: u32) -> u32
        requires { has_free_place (page_in self.now.pages page.0) ≡ true }
        ensures value { place_on self.now.pages page.0 w2 ≡ Some result }
        ensures free { IfSome (page_in self.now.pages page.0)
            (λ there. IsFreeOn self.now.pages there.class page.0 result) }
    {
        match self.place_on(page.0, w2) {
            Some(place) => place,
            None => unreachable!(),
        }
    }

    /// What an address of a chunk page shows: the place that begins there, or that none begins there.
    pub fn state(&self, addr: Addr) -> PlaceState
        requires { IsSome (page_with self.now.pages addr.0) }
        ensures { result ≡ state_of (place_in self.now.pages addr.0) }
    {
        let page = self.page(page_at(addr));
        state_of(page.and_then(|page| page.place_at(offset_of(addr))))
    }

    /// The class of a page.
    pub fn class_at(&self, page: Page) -> Class
        requires { IsSome (page_in self.now.pages page.0) }
        ensures value { option_map (λ there. there.class) (page_in self.now.pages page.0)
            ≡ Some result.0 }
        ensures class { IsTrue (is_class result.0) }
    {
        match self.page(page.0 as usize) {
            Some(there) => there.class(),
            None => unreachable!(),
        }
    }

    /// Makes the place that begins at the address live, with this size and site.
    pub fn set_live(&mut self, addr: Addr, size: u64, site: u64)
        requires { IsSome (place_in self.old.pages addr.0) }
        ensures pages { self.new.pages ≡ with_place self.old.pages addr.0 (Live size site) }
        ensures spare { self.old.spare ≤ self.new.spare }
    {
        self.set(addr, Place::Live { size, site });
    }

    /// Makes the place that begins at the address delayed.
    pub fn set_delayed(&mut self, addr: Addr)
        requires { IsSome (place_in self.old.pages addr.0) }
        ensures pages { self.new.pages ≡ with_place self.old.pages addr.0 Delayed }
        ensures spare { self.old.spare ≤ self.new.spare }
    {
        self.set(addr, Place::Delayed);
    }

    /// Makes the place that begins at the address free. True exactly where its page then has no live or
    /// delayed place; the page is then gone from here.
    pub fn set_free(&mut self, addr: Addr) -> bool
        requires { IsSome (place_in self.old.pages addr.0) }
        ensures last { result ≡ is_none (page_left self.old.pages addr.0) }
        ensures pages { self.new.pages ≡ with_freed self.old.pages addr.0 }
        ensures spare { self.old.spare ≤ self.new.spare }
    {
        self.set(addr, Place::Free);
        self.drop_unused(page_at(addr))
    }
}

impl ChunkPages {
    fn page(&self, page: usize) -> Option<&PagePlaces>
        ensures { option_map (λ there. there.now) result ≡ page_in self.now.pages page }
    {
        self.pages.get(page)?.as_ref()
    }

    // The class of a page, where no place of it is live or delayed.
    fn unused_class(&self, page: usize) -> Option<Class>
        ensures { MatchOption result (page_kept self.now.pages page ≡ page_in self.now.pages page)
            (λ class. IsUnusedOf class.0 (page_in self.now.pages page)) }
    {
        match self.page(page) {
            Some(there) if there.is_unused() => Some(there.class()),
            _ => None,
        }
    }

    // A page goes on which no place is live or delayed. Whether it went.
    fn drop_unused(&mut self, page: usize) -> bool
        requires { IsSome (page_in self.old.pages page) }
        ensures gone { result ≡ is_none (page_kept self.old.pages page) }
        ensures pages { self.new.pages
            ≡ slice_set self.old.pages page (page_kept self.old.pages page) }
        ensures spare { self.old.spare ≡ self.new.spare }
    {
        match self.unused_class(page) {
            Some(class) => {
                self.pages[page] = None;
                self.listed.set(class, page as u32, false);
                true
            }
            None => false,
        }
    }

    // Makes the place that begins at the address be so.
    fn set(&mut self, addr: Addr, place: Place)
        requires { IsSome (place_in self.old.pages addr.0) }
        ensures pages { self.new.pages ≡ with_place self.old.pages addr.0 place }
        ensures spare { self.old.spare ≡ self.new.spare }
    {
        let at = page_at(addr);
        if let Some(page) = &mut self.pages[at] {
            page.set(offset_of(addr), place);
            let class = page.class();
            let free = page.has_free();
            self.listed.set(class, at as u32, free);
        }
    }

    fn picked_page(&self, class: Class, word: u32) -> Option<u32>
        requires { IsTrue (is_class class.0) }
        ensures { result ≡ picked_page self.now.pages class.0 word }
    {
        self.listed.pick(class, word)
    }

    fn place_on(&self, page: u32, word: u32) -> Option<u32>
        ensures value { result ≡ place_on self.now.pages page word }
        ensures some { is_some result ≡ has_free_place (page_in self.now.pages page) }
        ensures free { IfSome result (λ place. IfSome (page_in self.now.pages page)
            (λ there. IsFreeOn self.now.pages there.class page place)) }
    {
        self.page(page as usize)?.picked_place(word)
    }
}

// The page on which an address of the arena lies.
fn page_at(addr: Addr) -> usize
    requires { first_address ≤ addr.0 }
    ensures { result ≡ page_at addr.0 }
{
    ((addr.0 - FIRST_ADDRESS) / u64::from(PAGE_SIZE)) as usize
}

// How many bytes behind its page's first one an address of the arena is.
fn offset_of(addr: Addr) -> u32
    requires { first_address ≤ addr.0 }
    ensures { result ≡ offset_of addr.0 }
{
    ((addr.0 - FIRST_ADDRESS) % u64::from(PAGE_SIZE)) as u32
}

#[cfg(test)]
mod tests;
