ghost use Rattle.std.specs.Prelude.{◌≡◌, ◌<◌};
ghost use Rattle.om_delay.specs.Changes.{changed_at, changed_in, changed_of, first_changed};
ghost use Rattle.om_delay.specs.Changes.{AreHeldSlots, IsHeldSlot};
ghost use Rattle.om_delay.specs.Slots.{slot_count};
ghost use Rattle.om_frame.specs.Memory.{IsHeldPart};

use crate::slots::Slots;
use om_frame::Shelf;
use om_geom::{Addr, Extent};

/// The byte with which a place is filled when it is freed, as OpenBSD's malloc(3) does.
pub const FREED_BYTE: u8 = 0xdf;

/// The first byte of a delayed place that isn't `FREED_BYTE`.
#[derive(Clone, Copy, Debug, PartialEq, Eq)]
pub struct Changed {
    /// The address of the place's first byte.
    pub addr: u64,
    /// How far the first changed byte stands from there.
    pub offset: u64,
}

impl Slots {
    /// The first changed byte of the place in the slot. None exactly where the slot is empty, or all
    /// bytes of its place are `FREED_BYTE`.
    pub fn check(&self, shelf: &Shelf, slot: u32) -> Option<Changed>
        requires slot { slot < slot_count }
        requires held { AreHeldSlots shelf.now self.now }
        ensures { result ≡ changed_at shelf.now self.now slot }
    {
        changed_of(shelf, self.holds(slot))
    }

    /// The same of the first slot, in order, whose place was changed.
    pub fn check_all(&self, shelf: &Shelf) -> Option<Changed>
        requires held { AreHeldSlots shelf.now self.now }
        ensures { result ≡ first_changed shelf.now self.now }
    {
        for slot in &self.items {
            if let Some(changed) = changed_of(shelf, *slot) {
                return Some(changed);
            }
        }
        None
    }
}

// The first changed byte of what a slot has.
fn changed_of(shelf: &Shelf, slot: Option<Extent>) -> Option<Changed>
    requires { IsHeldSlot shelf.now slot }
    ensures { result ≡ changed_of shelf.now slot }
{
    changed_in(shelf, slot?)
}

// The first changed byte of a place.
fn changed_in(shelf: &Shelf, extent: Extent) -> Option<Changed>
    requires { IsHeldPart shelf.now extent.first extent.len }
    ensures { result ≡ changed_in shelf.now extent }
{
    shelf.fits();
    let offset = shelf.all_equal(Addr(extent.first), extent.len as u32, FREED_BYTE)?;
    Some(Changed {
        addr: extent.first,
        offset: u64::from(offset),
    })
}
