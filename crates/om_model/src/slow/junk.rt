//! What a block's bytes are filled with when it is allocated, when it grows in place, and when it is freed.
ghost use Rattle.std.specs.Prelude.{◌≡◌, ◌^◌, ◌<◌};
ghost use Rattle.om_model.specs.Output.Head.{rules_of};
ghost use Rattle.om_model.specs.Pool.Junk.{data_extent, fills_freed, freed_len, with_fresh_junk, with_new_data, with_freed_place, with_freed_pages};
ghost use Rattle.om_model.specs.Pool.InUse.{data_of};
ghost use Rattle.om_model.specs.Pool.State.{filled_with};

use super::in_use::{Use, data_of, use_of_place};
use super::rules::size_class;
use super::state::State;
use crate::block::{Block, Place};
use crate::content::Head;
use om_delay::FREED_BYTE;
use om_geom::{PAGE_SIZE, pages_of};

/// What fresh memory is filled with.
pub(super) const FRESH: u8 = 0xdb;

// So many bytes of a freed page block are filled at level 1.
const FREED_FRONT: u128 = 2048;

// The bytes that a block has: its whole place, or its data pages.
fn use_of(head: &Head, pool: u32, block: Block) -> Use
    ensures { result.extent ≡ data_extent (rules_of head.now pool) block }
{
    match size_class(head, block.size) {
        Some(class) => use_of_place(Place {
            address: block.address,
            class,
        }),
        None => data_of(block),
    }
}

fn filled(mut state: State, one: &Use, byte: u8) -> State
    ensures { result ≡ filled_with byte one.now.extent state }
{
    state.memory.fill(one.first, one.len, byte);
    state
}

/// The state once a new block is filled.
#[tactic(auto, unfolding(crate::specs::Pool::Junk::with_fresh_junk))]
pub(super) fn with_fresh_junk(head: &Head, pool: u32, block: Block, state: State) -> State
    ensures { result ≡ with_fresh_junk (rules_of head.now pool) block state }
{
    if head.opts.junk == 2 {
        filled(state, &use_of(head, pool, block), FRESH)
    } else {
        state
    }
}

/// The state once the data pages behind the old ones are filled.
#[tactic(auto, unfolding(crate::specs::Pool::Junk::with_new_data))]
pub(super) fn with_new_data(
    head: &Head,
    pool: u32,
    block: Block,
    size: u64,
    mut state: State,
) -> State
    ensures { result ≡ with_new_data (rules_of head.now pool) block size state }
{
    if head.opts.junk == 2 {
        let old = pages_of(block.size);
        let more = pages_of(size).saturating_sub(old);
        let first = u128::from(block.address) + u128::from(PAGE_SIZE) * u128::from(old);
        let len = u128::from(PAGE_SIZE) * u128::from(more);
        state.memory.fill(first, len, FRESH);
    }
    state
}

/// Whether a freed place is filled.
pub(super) fn fills_freed(head: &Head, pool: u32) -> bool
    ensures { result ≡ fills_freed (rules_of head.now pool) }
{
    head.opts.junk == 1 || head.opts.junk == 2
}

/// The state once a freed place is filled.
#[tactic(auto, unfolding(crate::specs::Pool::Junk::with_freed_place))]
pub(super) fn with_freed_place(head: &Head, pool: u32, place: Place, state: State) -> State
    ensures { result ≡ with_freed_place (rules_of head.now pool) place state }
{
    if fills_freed(head, pool) {
        filled(state, &use_of_place(place), FREED_BYTE)
    } else {
        state
    }
}

// How many bytes of a freed block of so many data pages are filled, from its first on.
fn freed_len(level: u8, pages: u64) -> u128
    ensures value { result ≡ freed_len level pages }
    ensures few { result < 2 ^ 80 }
{
    match level {
        1 => FREED_FRONT,
        2 => u128::from(PAGE_SIZE) * u128::from(pages),
        _ => 0,
    }
}

/// The state once a freed page block is filled.
#[tactic(auto, unfolding(crate::specs::Pool::Junk::with_freed_pages))]
pub(super) fn with_freed_pages(head: &Head, pool: u32, block: Block, mut state: State) -> State
    ensures { result ≡ with_freed_pages (rules_of head.now pool) block state }
{
    let len = freed_len(head.opts.junk, pages_of(block.size));
    state
        .memory
        .fill(u128::from(block.address), len, FREED_BYTE);
    state
}
