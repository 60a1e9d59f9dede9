//! Well-formed states: what is in use shares no byte, begins where it may, lies on held pages, and is alike on
//! each page; each block lies in one zone; the held pages ascend in the arena, and memory has their bytes.
ghost use Rattle.std.specs.Prelude.{◌≡◌, ℕ, ◌*◌, ◌<◌, ◌↔◌, true, length, IsTrue, IfOk};
ghost use Rattle.std.specs.List.{AllByRecursion, list_all};
ghost use Rattle.om_geom.specs.Addresses.{shares_byte};
ghost use Rattle.om_geom.specs.Classes.{is_class};
ghost use Rattle.om_geom.specs.Numbers.{zone_pages};
ghost use Rattle.om_model.specs.Output.Head.{rules_of};
ghost use Rattle.om_model.specs.Pool.InUse.{touches};
ghost use Rattle.om_delay.specs.Slots.{slot_count};
ghost use Rattle.om_model.specs.Pool.State.{holds};
ghost use Rattle.om_model.specs.Pool.WellFormed.{EachPair, AreApart, AreAlike, AgreeOnPages, BeginsRight, FitsZone, HasBytes, LiesOn, IsWellFormed};
ghost use Rattle.om_model.specs.Slow.{kind_in};

use super::in_use::{Kind, Use, first_byte, kind_of, page_of, touches, uses};
use super::malloc::{is_too_large, pages_for};
use super::picks::starts_place;
use super::state::{State, is_held};
use crate::block::{Block, Place};
use crate::content::Head;
use om_delay::SLOT_COUNT;
use om_geom::{PAGE_SIZE, ZONE_PAGES, is_class};
use std::alloc::AllocError;

impl State {
    /// Whether the state is a well-formed one. The number of slots is always right.
    pub fn is_well_formed(&self, head: &Head, pool: u32) -> Result<bool, AllocError>
        ensures { IfOk result (λ is. IsTrue is ↔
            IsWellFormed (rules_of head.now pool) self.now) }
    {
        slots_fit(&self.slots);
        let used = uses(head, pool, self)?;
        let held = ascend(&self.held);
        let bytes = has_its_bytes(head.zones, self);
        let places = self.delayed()?;
        let classes = have_classes(&places);
        let zoned = are_zoned(head, pool, &self.live);
        let placed = are_placed(&used);
        let lie = lie_on(head, pool, self, &used);
        Ok(are_all([held, bytes, classes, zoned, placed, lie]))
    }
}

// A law of the type: it brings the number of slots into a proof, and computes nothing.
fn slots_fit(_slots: &[Option<Place>; SLOT_COUNT])
    ensures { length _slots.now ≡ slot_count }
{}

fn are_all(tests: [bool; 6]) -> bool
    ensures { result ≡ list_all (λ test. test) tests }
{
    tests.iter().all(|test| *test)
}

fn has_bytes(state: &State, page: usize) -> bool
    ensures { IsTrue result ↔ HasBytes state.now page }
{
    let bytes = if is_held(&state.held, page as u64) {
        PAGE_SIZE as usize
    } else {
        0
    };
    state.memory.page_len(page) == bytes
}

// Whether each page of memory has its bytes.
fn have_bytes(state: &State) -> bool
    ensures { IsTrue result ↔
        ((page : ℕ) → page < length state.now.memory → HasBytes state.now page) }
{
    for page in 0..state.memory.len() {
        if !has_bytes(state, page) {
            return false;
        }
    }
    true
}

// Whether the held pages lie in the arena, and memory has as many pages as this.
fn are_in_memory(zones: u32, state: &State) -> bool
    ensures { IsTrue result ↔
        (AllByRecursion (λ page. page < zone_pages * zones) state.now.held
        × (length state.now.memory ≡ zone_pages * zones)) }
{
    let pages = u64::from(ZONE_PAGES) * u64::from(zones);
    are_in_arena(zones, &state.held) && state.memory.len() as u64 == pages
}

// Whether besides each page of memory has its bytes.
fn has_its_bytes(zones: u32, state: &State) -> bool
    ensures { IsTrue result ↔
        (AllByRecursion (λ page. page < zone_pages * zones) state.now.held
        × (length state.now.memory ≡ zone_pages * zones)
        × ((page : ℕ) → HasBytes state.now page)) }
{
    are_in_memory(zones, state) && have_bytes(state)
}

fn are_placed(used: &[Use]) -> bool
    ensures { IsTrue result ↔
        (AllByRecursion (λ one. BeginsRight (one.extent).first one.kind) used.now
        × EachPair AreApart used.now × EachPair AgreeOnPages used.now) }
{
    begin_right(used) && are_apart(used) && agree_on_pages(used)
}

fn are_above(page: u32, others: &[u32]) -> bool
    ensures { IsTrue result ↔ AllByRecursion (λ other. page < other) others.now }
{
    others.iter().all(|other| page < *other)
}

fn ascend(pages: &[u32]) -> bool
    ensures { IsTrue result ↔ EachPair (λ page other. page < other) pages.now }
{
    let Some((page, others)) = pages.split_first() else {
        return true;
    };
    are_above(*page, others) && ascend(others)
}

fn are_in_arena(zones: u32, pages: &[u32]) -> bool
    ensures { IsTrue result ↔ AllByRecursion (λ page. page < zone_pages * zones) pages.now }
{
    let end = u64::from(ZONE_PAGES) * u64::from(zones);
    pages.iter().all(|page| u64::from(*page) < end)
}

fn have_classes(places: &[Place]) -> bool
    ensures { IsTrue result ↔
        AllByRecursion (λ place. IsTrue (is_class place.class)) places.now }
{
    places.iter().all(|place| is_class(place.class))
}

// Whether the block isn't too large, and lies in one zone with its guard.
fn fits_zone(head: &Head, pool: u32, block: Block) -> bool
    ensures { IsTrue result ↔ FitsZone (rules_of head.now pool) block }
{
    let bit = page_of(u128::from(block.address)) % u64::from(ZONE_PAGES);
    let pages = pages_for(head, pool, block.size);
    !is_too_large(head, pool, block.size) && bit + pages <= u64::from(ZONE_PAGES)
}

fn are_zoned(head: &Head, pool: u32, live: &[Block]) -> bool
    ensures { IsTrue result ↔ AllByRecursion (FitsZone (rules_of head.now pool)) live.now }
{
    live.iter().all(|block| fits_zone(head, pool, *block))
}

// A chunk begins where a place does, and what has whole pages at the first byte of a page.
fn begins_right(one: &Use) -> bool
    ensures { IsTrue result ↔ BeginsRight (one.now.extent).first one.now.kind }
{
    match kind_of(one) {
        Kind::Chunk(class) => starts_place(class, one.first),
        _ => one.first == first_byte(page_of(one.first)),
    }
}

fn begin_right(used: &[Use]) -> bool
    ensures { IsTrue result ↔
        AllByRecursion (λ one. BeginsRight (one.extent).first one.kind) used.now }
{
    let Some((one, others)) = used.split_first() else {
        return true;
    };
    begins_right(one) && begin_right(others)
}

fn shares_byte(one: &Use, other: &Use) -> bool
    ensures { result ≡ shares_byte one.now.extent other.now.extent }
{
    one.first.max(other.first) < (one.first + one.len).min(other.first + other.len)
}

fn are_two_apart(one: &Use, other: &Use) -> bool
    ensures { IsTrue result ↔ AreApart one.now other.now }
{
    !shares_byte(one, other)
}

fn is_apart_from(one: &Use, others: &[Use]) -> bool
    ensures { IsTrue result ↔ AllByRecursion (AreApart one.now) others.now }
{
    let Some((other, others)) = others.split_first() else {
        return true;
    };
    are_two_apart(one, other) && is_apart_from(one, others)
}

fn are_apart(used: &[Use]) -> bool
    ensures { IsTrue result ↔ EachPair AreApart used.now }
{
    let Some((one, others)) = used.split_first() else {
        return true;
    };
    is_apart_from(one, others) && are_apart(others)
}

// Whether the byte with this number is on a held page; none is above those that an address can name.
fn holds_byte(head: &Head, pool: u32, state: &State, byte: u128) -> bool
    ensures { result ≡ holds (rules_of head.now pool) state.now byte }
{
    head.fits();
    if byte < 18_446_744_073_709_551_616 {
        state.holds(head.zones, byte as u64)
    } else {
        false
    }
}

// Whether every byte is on a held page.
fn lies_on(head: &Head, pool: u32, state: &State, one: &Use) -> bool
    ensures { IsTrue result ↔ LiesOn (rules_of head.now pool) state.now one.now }
{
    for i in 0..one.len {
        if !holds_byte(head, pool, state, one.first + i) {
            return false;
        }
    }
    true
}

fn lie_on(head: &Head, pool: u32, state: &State, used: &[Use]) -> bool
    ensures { IsTrue result ↔
        AllByRecursion (LiesOn (rules_of head.now pool) state.now) used.now }
{
    let Some((one, others)) = used.split_first() else {
        return true;
    };
    lies_on(head, pool, state, one) && lie_on(head, pool, state, others)
}

// Places of one class, or page blocks and their guards.
fn are_alike(kind: Kind, other: Kind) -> bool
    ensures { IsTrue result ↔ AreAlike (kind_in kind) (kind_in other) }
{
    match kind {
        Kind::Chunk(class) => match other {
            Kind::Chunk(other) => class == other,
            _ => false,
        },
        _ => !matches!(other, Kind::Chunk(_)),
    }
}

// Whether a page is touched by both.
fn share_a_page(one: &Use, other: &Use) -> bool
    ensures { IsTrue result ↔ ((page : ℕ)
        × (touches page one.now ≡ true) × (touches page other.now ≡ true)) }
{
    let last = page_of(one.first + one.len);
    for page in page_of(one.first)..last + 1 {
        if touches(page, one) && touches(page, other) {
            return true;
        }
    }
    false
}

// What touches one page is alike.
fn two_agree(one: &Use, other: &Use) -> bool
    ensures { IsTrue result ↔ AgreeOnPages one.now other.now }
{
    are_alike(kind_of(one), kind_of(other)) || !share_a_page(one, other)
}

fn agrees_with(one: &Use, others: &[Use]) -> bool
    ensures { IsTrue result ↔ AllByRecursion (AgreeOnPages one.now) others.now }
{
    let Some((other, others)) = others.split_first() else {
        return true;
    };
    two_agree(one, other) && agrees_with(one, others)
}

fn agree_on_pages(used: &[Use]) -> bool
    ensures { IsTrue result ↔ EachPair AgreeOnPages used.now }
{
    let Some((one, others)) = used.split_first() else {
        return true;
    };
    agrees_with(one, others) && agree_on_pages(others)
}
