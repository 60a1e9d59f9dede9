//! The slots of a pool: a freed place enters one, and those that wait there are looked at.
ghost use Rattle.std.specs.Prelude.{◌≡◌, ◌<◌, ◌||◌, IsSome, IsTrue};
ghost use Rattle.om_chunk.specs.Pages as chunks;
ghost use Rattle.om_delay.specs.Changes.{AreHeldSlots};
ghost use Rattle.om_delay.specs.Slots.{begins_at, slot_at, slot_count};
ghost use Rattle.om_geom.specs.Classes.{is_class};
ghost use Rattle.om_model.specs.Pool.Junk.{extent_of_place};
ghost use Rattle.om_model.specs.Pool.WriteAfterFree.{written_in};
ghost use Rattle.om_pool.specs.HoldingsView.{rules_in, tables_in, IsSameBut};
ghost use Rattle.om_pool.specs.TableSteps.{delayed_place};

use crate::holdings::Holdings;
use om_delay::Changed;
use om_geom::{Addr, Class, Extent, stride};
use om_model::Place;

impl Holdings {
    /// A live place waits in the slot, and what the slot had is given back.
    pub(crate) fn delay(&mut self, place: Place, slot: u32) -> Option<Extent>
        requires slot { slot < slot_count }
        requires class { IsTrue (is_class place.class) }
        requires place { IsSome (chunks.place_in self.old.chunks.pages place.address) }
        ensures before { result ≡ slot_at self.old.slots slot }
        ensures tables { tables_in self.new ≡ delayed_place (tables_in self.old) slot place }
        ensures same { IsSameBut self.old self.new }
    {
        self.chunks.set_delayed(Addr(place.address));
        self.slots.swap(slot, extent_of(place))
    }

    /// Whether a second free of a waiting place is seen: under freecheck always, and otherwise where the
    /// slot has it.
    pub(crate) fn sees_again(&self, slot: u32, address: u64) -> bool
        requires { slot < slot_count }
        ensures { result ≡ (self.now.opts.freecheck
            || begins_at address (slot_at self.now.slots slot)) }
    {
        self.opts.freecheck || begins_at(self.slots.holds(slot), address)
    }

    /// The place that was written while it waits, and where: under freecheck of all slots, otherwise of
    /// the one. At junk level 0 there is none.
    pub(crate) fn written_late(&self, slot: u32) -> Option<Changed>
        requires slot { slot < slot_count }
        requires held { AreHeldSlots self.now.shelf self.now.slots }
        ensures { result ≡ written_in (rules_in self.now) self.now.shelf self.now.slots slot }
    {
        if !self.fills_freed() {
            None
        } else if self.opts.freecheck {
            self.slots.check_all(&self.shelf)
        } else {
            self.slots.check(&self.shelf, slot)
        }
    }
}

// The bytes of a place.
fn extent_of(place: Place) -> Extent
    requires { IsTrue (is_class place.class) }
    ensures { result ≡ extent_of_place place }
{
    Extent {
        first: place.address,
        len: u64::from(stride(Class(place.class))),
    }
}

// Whether a slot with these bytes has the place that begins at the address.
fn begins_at(waiting: Option<Extent>, address: u64) -> bool
    ensures { result ≡ begins_at address waiting }
{
    match waiting {
        Some(bytes) => bytes.first == address,
        None => false,
    }
}
