//! Picks: on which page a chunk goes, and at which place of the page; and on which run a page block goes.
ghost use Rattle.std.specs.Prelude.{◌≡◌, ◌-◌, ◌^◌, ◌<◌, ◌&&◌, IsTrue, IfOk};
ghost use Rattle.std.specs.List.{find, list_all, list_any, range_with_len};
ghost use Rattle.om_geom.specs.Classes.{is_class, places_of};
ghost use Rattle.om_model.specs.Pool.InUse.{touches, is_free_page};
ghost use Rattle.om_model.specs.Pool.Picks.{place_address, starts_place, is_free_place, is_chunk_of, is_chunk_page, is_open_page, open_pages, own_page, picked_place, is_free_run, own_run};
ghost use Rattle.om_model.specs.Pool.State.{is_held};
ghost use Rattle.om_model.specs.Slow.{kind_in};

use super::in_use::{
    Kind, Use, address_of, first_byte, is_begun, is_free_page, kind_of, page_of, stride_of, touches,
};
use super::state::is_held;
use om_geom::{Class, PAGE_SIZE, ZONE_PAGES, places, stride};
use std::alloc::{AllocError, Global};

/// The first byte of a place of a chunk page.
pub fn place_address(page: u32, class: u32, place: u32) -> u64
    requires { IsTrue (is_class class) }
    ensures { result ≡ place_address page class place }
{
    address_of(page) + u64::from(place) * u64::from(stride(Class(class)))
}

/// Whether the address is that of a place of its page, where this is a chunk page of the class.
pub(super) fn starts_place(class: u32, address: u128) -> bool
    requires { address < 2 ^ 66 }
    ensures { result ≡ starts_place class address }
{
    let stride = u128::from(stride_of(class));
    let offset = address.saturating_sub(first_byte(page_of(address)));
    offset % stride == 0 && offset / stride < u128::from(PAGE_SIZE) / stride
}

fn is_free_place(used: &[Use], page: u32, class: u32, place: u32) -> bool
    requires { IsTrue (is_class class) }
    ensures { result ≡ is_free_place used.now page class place }
{
    !is_begun(used, place_address(page, class, place))
}

fn is_chunk_of(class: u32, kind: Kind) -> bool
    ensures { result ≡ is_chunk_of class (kind_in kind) }
{
    match kind {
        Kind::Chunk(other) => other == class,
        _ => false,
    }
}

fn is_chunk_on(page: u32, class: u32, one: &Use) -> bool
    ensures { result ≡ (touches page one.now && is_chunk_of class one.now.kind) }
{
    touches(u64::from(page), one) && is_chunk_of(class, kind_of(one))
}

fn is_chunk_page(used: &[Use], page: u32, class: u32) -> bool
    ensures { result ≡ is_chunk_page used.now class page }
{
    used.iter().any(|one| is_chunk_on(page, class, one))
}

fn has_free_place(used: &[Use], page: u32, class: u32) -> bool
    requires { IsTrue (is_class class) }
    ensures { result ≡ list_any (is_free_place used.now page class)
        (range_with_len 0 (places_of class)) }
{
    (0..places(Class(class))).any(|place| is_free_place(used, page, class, place))
}

fn is_open_page(used: &[Use], page: u32, class: u32) -> bool
    requires { IsTrue (is_class class) }
    ensures { result ≡ is_open_page used.now class page }
{
    is_chunk_page(used, page, class) && has_free_place(used, page, class)
}

/// The chunk pages of the class that have a free place, in ascending order.
pub fn open_pages(
    alloc: Global,
    used: &[Use],
    held: &[u32],
    class: u32,
) -> Result<Vec<u32>, AllocError>
    requires { IsTrue (is_class class) }
    ensures { IfOk result (λ pages. pages.items ≡ open_pages used.now held.now class) }
{
    held.iter()
        .copied()
        .filter(|page| is_open_page(used, *page, class))
        .collect(alloc)
}

fn lowest_free(used: &[Use], held: &[u32]) -> Option<u32>
    ensures { result ≡ find (is_free_page used.now) held.now }
{
    held.iter()
        .copied()
        .find(|page| is_free_page(used, u64::from(*page)))
}

/// The page that the pool itself has for a chunk: of the open pages the one that the word chooses, or
/// else the lowest free page.
#[tactic(auto, unfolding(crate::specs::Pool::Picks::own_page))]
pub fn own_page(
    alloc: Global,
    used: &[Use],
    held: &[u32],
    class: u32,
    word: u32,
) -> Result<Option<u32>, AllocError>
    requires { IsTrue (is_class class) }
    ensures { IfOk result (λ page. page ≡ own_page used.now held.now class word) }
{
    let pages = open_pages(alloc, used, held, class)?;
    if pages.is_empty() {
        Ok(lowest_free(used, held))
    } else {
        Ok(pages.get(word as usize % pages.len()).copied())
    }
}

/// The first free place of the page in cyclic order from the one that the word chooses.
#[tactic(auto, unfolding(crate::specs::Pool::Picks::picked_place))]
pub fn picked_place(used: &[Use], page: u32, class: u32, word: u32) -> Option<u32>
    requires { IsTrue (is_class class) }
    ensures { result ≡ picked_place used.now page class word }
{
    let count = places(Class(class));
    let start = word % count;
    (start..count)
        .chain(0..start)
        .find(|place| is_free_place(used, page, class, *place))
}

fn are_free(used: &[Use], held: &[u32], first: u64, end: u64) -> bool
    ensures { result ≡ list_all (λ page. is_held held.now page && is_free_page used.now page)
        (range_with_len first (end - first)) }
{
    (first..end).all(|page| is_held(held, page) && is_free_page(used, page))
}

/// Whether so many pages of one zone from this one on are each held and free.
pub(super) fn is_free_run(used: &[Use], held: &[u32], count: u64, first: u64) -> bool
    requires few { count < 2 ^ 63 }
    requires first { first < 2 ^ 63 }
    ensures { result ≡ is_free_run used.now held.now count first }
{
    let pages = u64::from(ZONE_PAGES);
    first % pages + count <= pages && are_free(used, held, first, first + count)
}

/// The lowest run of so many free pages of one zone.
#[tactic(auto, unfolding(crate::specs::Pool::Picks::own_run))]
pub fn own_run(used: &[Use], held: &[u32], count: u64) -> Option<u32>
    requires { count < 2 ^ 63 }
    ensures { result ≡ own_run used.now held.now count }
{
    held.iter()
        .copied()
        .find(|first| is_free_run(used, held, count, u64::from(*first)))
}
