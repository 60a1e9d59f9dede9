ghost use Rattle.std.specs.Prelude.{◌≡◌, ◌<◌, length, IfSome};
ghost use Rattle.om_delay.specs.Slots.{begins_at, first_slot_with, no_slots, slot_at, slot_count};
ghost use Rattle.om_delay.specs.Slots.{with_slot};

use om_geom::{Addr, Extent};
use std::marker::Model;

/// How many slots a pool has.
pub const SLOT_COUNT: usize = 16;

/// The slots of a pool. Each has the extent of a delayed place, which isn't used again while it is
/// there, or nothing.
#[derive(Drop)]
pub struct Slots {
    pub(crate) items: [Option<Extent>; SLOT_COUNT],
}

impl Model for Slots {
    ghost use Rattle.std.specs.Prelude.{◌≡◌, List, length, Option};
    ghost use Rattle.om_delay.specs.Slots.{slot_count};
    ghost use Rattle.om_geom.specs.declared.address.Extent.{Extent};

    ghost Value = { List (Option Extent) };

    ghost view = { λ slots. slots.items };

    ghost invariant = { λ slots. length slots.items ≡ slot_count };
}

/// All slots are empty.
impl Default for Slots {
    ghost is_default = { λ slots. slots ≡ no_slots };

    fn default() -> Slots {
        Slots::new()
    }
}

impl Slots {
    /// All slots are empty.
    pub fn new() -> Slots
        ensures { result ≡ no_slots }
    {
        Slots {
            items: [None; SLOT_COUNT],
        }
    }

    /// What the slot has.
    pub fn holds(&self, slot: u32) -> Option<Extent>
        requires { slot < slot_count }
        ensures { result ≡ slot_at self.now slot }
    {
        self.items[slot as usize]
    }

    /// The first slot that has a place which begins at the address; none exactly where no slot has
    /// one.
    pub fn has(&self, addr: Addr) -> Option<u32>
        ensures { result ≡ first_slot_with self.now addr.0 }
    {
        let slot = first_at(&self.items, addr)?;
        Some(slot as u32)
    }

    /// Puts a place into the slot, and gives back what the slot had.
    pub fn swap(&mut self, slot: u32, extent: Extent) -> Option<Extent>
        requires { slot < slot_count }
        ensures before { result ≡ slot_at self.old slot }
        ensures after { self.new ≡ with_slot self.old slot extent }
    {
        self.items[slot as usize].replace(extent)
    }
}

// The number of the first that has a place which begins at the address.
fn first_at(slots: &[Option<Extent>], addr: Addr) -> Option<usize>
    ensures value { result ≡ first_slot_with slots.now addr.0 }
    ensures within { IfSome result (λ slot. slot < length slots.now) }
{
    slots.iter().position(|slot| begins_at(*slot, addr))
}

// Whether the slot has a place that begins at the address.
fn begins_at(slot: Option<Extent>, addr: Addr) -> bool
    ensures { result ≡ begins_at addr.0 slot }
{
    slot.is_some_and(|extent| extent.first == addr.0)
}
