ghost use Rattle.std.specs.Prelude.{◌≡◌, ◌+◌, ◌<◌, ◌≤◌, IfOk};
ghost use Rattle.om_delay.specs.Changes.{AreHeldSlots};
ghost use Rattle.om_frame.specs.Frames.{zero_frames};
ghost use Rattle.om_frame.specs.Memory.{IsHeldPart};

use super::*;
use om_frame::{Bundle, Frame, Shelf};
use om_geom::{Addr, Extent, Page};
use std::alloc::{AllocError, Global};
use std::test::Fail;

// The bytes of the pages 1 and 2, from the first to the one past their end.
const START: u64 = 69_632;

const END: u64 = 77_824;

// A place of 16 bytes that lies on both pages.
const MIDDLE: u64 = 73_720;

// One of the last 16 bytes.
const LAST: u64 = 77_808;

fn two_frames(alloc: Global) -> Result<Bundle, AllocError>
    ensures { IfOk result (λ bundle. bundle ≡ zero_frames 1 2) }
{
    let mut bundle = Bundle::empty();
    bundle.push(Frame::zeroed(alloc, Page(1))?);
    bundle.push(Frame::zeroed(alloc, Page(2))?);
    Ok(bundle)
}

fn held_pages(alloc: Global) -> Result<Shelf, AllocError>
    ensures { IfOk result (λ shelf. IsHeldPart shelf 69632 8192) }
{
    let mut shelf = Shelf::new(alloc, 1)?;
    shelf.add(two_frames(alloc)?);
    Ok(shelf)
}

fn write(shelf: &mut Shelf, at: u64, len: u32, byte: u8)
    requires held { IsHeldPart shelf.old 69632 8192 }
    requires low { 69632 ≤ at }
    requires high { at + len ≤ 77824 }
    ensures { IsHeldPart shelf.new 69632 8192 }
{
    shelf.fill(Addr(at), len, byte);
}

// All bytes are as they are when a place is freed.
fn freed_pages(alloc: Global) -> Result<Shelf, AllocError>
    ensures { IfOk result (λ shelf. IsHeldPart shelf 69632 8192) }
{
    let mut shelf = held_pages(alloc)?;
    write(&mut shelf, START, 8192, FREED_BYTE);
    Ok(shelf)
}

// The first, the fifth and the last slot have places.
fn three_places(shelf: &Shelf) -> Slots
    requires { IsHeldPart shelf.now 69632 8192 }
    ensures { AreHeldSlots shelf.now result }
{
    let mut slots = Slots::new();
    slots.swap(0, place(START));
    slots.swap(4, place(MIDDLE));
    slots.swap(15, place(LAST));
    slots
}

fn place(first: u64) -> Extent
    ensures { result ≡ record { first = first; len = 16 } }
{
    Extent { first, len: 16 }
}

#[test]
fn places_enter_slots_and_leave_them(rt: HostRuntime) -> Result<(), Fail> {
    let mut slots = Slots::default();
    for (slot, first, before) in [
        (7, 96, None),
        (3, 160, None),
        (15, 96, None),
        (3, 176, Some(160)),
    ] {
        let left = slots.swap(slot, place(first));
        assert_eq!(rt; left, before.map(place), "slot {slot}");
    }
    for (slot, first) in [(0, None), (3, Some(176)), (7, Some(96)), (15, Some(96))] {
        assert_eq!(rt; slots.holds(slot), first.map(place), "slot {slot}");
    }
    for (addr, slot) in [
        (96, Some(7)),
        (176, Some(3)),
        (160, None),
        (97, None),
        (0, None),
    ] {
        assert_eq!(rt; slots.has(Addr(addr)), slot, "at {addr}");
    }
    Ok(())
}

fn changed(addr: u64, offset: u64) -> Option<Changed> {
    Some(Changed { addr, offset })
}

#[test]
fn the_first_changed_byte_is_told(rt: HostRuntime) -> Result<(), Fail> {
    for (at, other, slot, in_slot, in_all) in [
        (
            START + 3,
            START + 2,
            0,
            changed(START, 2),
            changed(START, 2),
        ),
        (START, MIDDLE + 9, 4, changed(MIDDLE, 9), changed(START, 0)),
        (LAST, MIDDLE + 15, 15, changed(LAST, 0), changed(MIDDLE, 15)),
        (
            END - 1,
            START + 16,
            15,
            changed(LAST, 15),
            changed(LAST, 15),
        ),
        (MIDDLE - 1, MIDDLE + 16, 4, None, None),
        (START, START + 1, 1, None, changed(START, 0)),
    ] {
        let mut shelf = freed_pages(rt.alloc())?;
        write(&mut shelf, at, 1, 0xdb);
        write(&mut shelf, other, 1, 0);
        let slots = three_places(&shelf);
        assert_eq!(rt;
            slots.check(&shelf, slot),
            in_slot,
            "slot {slot}, {at}, {other}"
        );
        assert_eq!(rt; slots.check_all(&shelf), in_all, "all slots, {at}, {other}");
    }
    Ok(())
}
