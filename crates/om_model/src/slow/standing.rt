//! What stands at an address.
ghost use Rattle.std.specs.Prelude.{◌≡◌, IfOk};
ghost use Rattle.std.specs.Option.{option_map};
ghost use Rattle.om_model.specs.Output.Head.{rules_of};
ghost use Rattle.om_model.specs.Pool.Standing.{block_at, delayed_at, in_pages, at_place, on_page, standing};
ghost use Rattle.om_model.specs.Slow.{kind_in, standing_in};

use super::in_use::{Kind, page_kind, uses};
use super::picks::starts_place;
use super::state::{State, page_at};
use crate::block::{Block, Place};
use crate::content::Head;
use std::alloc::AllocError;

/// Nothing of this pool; a free page; a page block at its first byte or at another; a guard; or on a chunk
/// page the first byte of a place, which is delayed, live or free, or another byte.
#[derive(Clone, Copy)]
pub enum Standing {
    NotHeld,
    FreePage,
    PageBlock(Block),
    InPageBlock,
    OnGuard,
    LivePlace(Place, Block),
    DelayedPlace(Place),
    FreePlace,
    Unaligned,
}

fn block_at(state: &State, address: u64) -> Option<Block>
    ensures { result ≡ block_at state.now address }
{
    state
        .live
        .iter()
        .copied()
        .find(|block| block.address == address)
}

fn delayed_at(state: &State, address: u64) -> Result<Option<Place>, AllocError>
    ensures { IfOk result (λ found. found ≡ delayed_at state.now address) }
{
    let places = state.delayed()?;
    Ok(
        places
            .iter()
            .copied()
            .find(|place| place.address == address),
    )
}

fn in_pages(found: Option<Block>) -> Standing
    ensures { standing_in result ≡ in_pages found }
{
    match found {
        Some(block) => Standing::PageBlock(block),
        None => Standing::InPageBlock,
    }
}

fn at_place(class: u32, address: u64, live: Option<Block>, delayed: Option<Place>) -> Standing
    ensures { standing_in result ≡ at_place class address live delayed }
{
    match delayed {
        Some(place) => Standing::DelayedPlace(place),
        None => match live {
            Some(block) => Standing::LivePlace(Place { address, class }, block),
            None => Standing::FreePlace,
        },
    }
}

fn on_page(state: &State, address: u64, kind: Option<Kind>) -> Result<Standing, AllocError>
    ensures { IfOk result (λ standing. standing_in standing ≡
        on_page state.now address (option_map kind_in kind)) }
{
    let class = match kind {
        None => return Ok(Standing::FreePage),
        Some(Kind::Pages) => return Ok(in_pages(block_at(state, address))),
        Some(Kind::Guard) => return Ok(Standing::OnGuard),
        Some(Kind::Chunk(class)) => class,
    };
    if starts_place(class, u128::from(address)) {
        let delayed = delayed_at(state, address)?;
        Ok(at_place(class, address, block_at(state, address), delayed))
    } else {
        Ok(Standing::Unaligned)
    }
}

/// What stands at the address.
pub fn stands_at(
    head: &Head,
    pool: u32,
    state: &State,
    address: u64,
) -> Result<Standing, AllocError>
    ensures { IfOk result (λ stands. standing_in stands ≡
        standing (rules_of head.now pool) state.now address) }
{
    if state.holds(head.zones, address) {
        let used = uses(head, pool, state)?;
        on_page(state, address, page_kind(&used, page_at(address)))
    } else {
        Ok(Standing::NotHeld)
    }
}
