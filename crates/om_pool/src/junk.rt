//! Junk: bytes that tell a reader of fresh or freed memory what it is.
ghost use Rattle.std.specs.Prelude.{ℕ, ◌≡◌, ◌*◌, ◌<◌, ◌≤◌, IsTrue};
ghost use Rattle.om_geom.specs.Addresses.{address_of};
ghost use Rattle.om_geom.specs.Classes.{is_class};
ghost use Rattle.om_geom.specs.Numbers.{most_zones, page_size, zone_pages};
ghost use Rattle.om_frame.specs.Memory.{is_held_at, IsHeldPart};
ghost use Rattle.om_model.specs.Pool.Junk.{extent_of_place, fills_freed, freed_len};
ghost use Rattle.om_pool.specs.Chunks.{HoldsPlace};
ghost use Rattle.om_pool.specs.HoldingsView.{rules_in, tables_in, IsSameBut};
ghost use Rattle.om_pool.specs.TableSteps.{filled_by, freed_filled, freed_pages_filled, fresh_filled};

use crate::holdings::Holdings;
use om_delay::FREED_BYTE;
use om_geom::{Addr, Class, PAGE_SIZE, Page, addr_of, stride};
use om_model::Place;

/// What an allocated block is filled with.
const FRESH_BYTE: u8 = 0xdb;

/// So many bytes of a freed page block are filled at junk level 1.
const FREED_FRONT: u32 = 2048;

impl Holdings {
    /// Fills the `len` bytes of a block that was just allocated, at junk level 2.
    pub(crate) fn fill_fresh(&mut self, at: Addr, len: u32)
        requires bytes { IsHeldPart self.old.shelf at.0 len }
        ensures tables { tables_in self.new ≡ fresh_filled (rules_in self.old)
            (record { first = at.0; len = len }) (tables_in self.old) }
        ensures held { (address : ℕ) → is_held_at self.new.shelf address
            ≡ is_held_at self.old.shelf address }
        ensures same { IsSameBut self.old self.new }
    {
        if self.opts.junk == 2 {
            self.fill(at, len, FRESH_BYTE);
        }
    }

    /// Whether a freed place is filled: at junk levels 1 and 2.
    pub(crate) fn fills_freed(&self) -> bool
        ensures { result ≡ fills_freed (rules_in self.now) }
    {
        self.opts.junk == 1 || self.opts.junk == 2
    }

    /// Fills a freed place, at junk levels 1 and 2.
    pub(crate) fn fill_freed(&mut self, place: Place)
        requires class { IsTrue (is_class place.class) }
        requires bytes { HoldsPlace self.old.shelf place }
        ensures tables { tables_in self.new
            ≡ freed_filled (rules_in self.old) place (tables_in self.old) }
        ensures same { IsSameBut self.old self.new }
    {
        if self.fills_freed() {
            self.fill(Addr(place.address), stride(Class(place.class)), FREED_BYTE);
        }
    }

    /// Fills the first 2048 bytes of a freed block at junk level 1, and all its data pages at level 2.
    pub(crate) fn fill_freed_pages(&mut self, first: Page, pages: u32)
        requires there { first.0 < zone_pages * most_zones }
        requires few { pages ≤ zone_pages }
        requires some { 1 ≤ pages }
        requires bytes { IsHeldPart self.old.shelf (address_of first.0) (page_size * pages) }
        ensures tables { tables_in self.new
            ≡ freed_pages_filled (rules_in self.old) first.0 pages (tables_in self.old) }
        ensures same { IsSameBut self.old self.new }
    {
        let len = freed_len(self.opts.junk, pages);
        self.fill(addr_of(first), len, FREED_BYTE);
    }

    /// Writes the byte to `len` places.
    pub(crate) fn fill(&mut self, at: Addr, len: u32, byte: u8)
        requires bytes { IsHeldPart self.old.shelf at.0 len }
        ensures tables { tables_in self.new
            ≡ filled_by byte (record { first = at.0; len = len }) (tables_in self.old) }
        ensures held { (address : ℕ) → is_held_at self.new.shelf address
            ≡ is_held_at self.old.shelf address }
        ensures same { IsSameBut self.old self.new }
    {
        self.shelf.fill(at, len, byte);
    }
}

// How many bytes of a freed block of so many data pages are filled, from its first on.
fn freed_len(level: u8, pages: u32) -> u32
    requires few { pages ≤ zone_pages }
    requires some { 1 ≤ pages }
    ensures value { result ≡ freed_len level pages }
    ensures within { result ≤ page_size * pages }
{
    match level {
        1 => FREED_FRONT,
        2 => PAGE_SIZE * pages,
        _ => 0,
    }
}
