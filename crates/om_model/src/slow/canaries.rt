//! Canaries: bytes behind a small block, which are looked at before it is freed.
ghost use Rattle.std.specs.Prelude.{◌≡◌, ◌+◌, ◌^◌, ◌<◌, ◌≤◌, IfOk};
ghost use Rattle.om_words.specs.PlannedWords.{HasWords};
ghost use Rattle.om_model.specs.Output.Head.{rules_of};
ghost use Rattle.om_model.specs.Pool.Canaries.{broken_canary, canaries, canary_count, with_canaries};

use super::rules::{canary_byte, size_class};
use super::state::State;
use crate::block::Block;
use crate::content::Head;
use std::alloc::AllocError;

const CANARY_REACH: u64 = 32;

// How many stand behind a block of the size, by its class.
fn canary_count(head: &Head, pool: u32, size: u64, class: Option<u32>) -> u64
    ensures count { result ≡ canary_count (rules_of head.now pool) size class }
    ensures few { result ≤ 32 }
    ensures within { 0 < result → size + result < 2 ^ 32 }
{
    match class {
        Some(class) if head.opts.canary && 0 < size => {
            CANARY_REACH.min(u64::from(class).saturating_sub(size))
        }
        _ => 0,
    }
}

/// The state once the canaries of a new block are written.
#[tactic(auto, unfolding(crate::specs::Pool::Canaries::with_canaries))]
pub(super) fn with_canaries(head: &Head, pool: u32, block: Block, mut state: State) -> State
    requires words { HasWords head.now.plan }
    ensures { result ≡ with_canaries (rules_of head.now pool) block state }
{
    let first = u128::from(block.address) + u128::from(block.size);
    let count = canary_count(head, pool, block.size, size_class(head, block.size));
    state
        .memory
        .fill(first, u128::from(count), canary_byte(head, pool));
    state
}

/// How far from the block's first byte the first canary stands that is another byte now.
pub(super) fn broken_canary(
    head: &Head,
    pool: u32,
    state: &State,
    block: Block,
) -> Result<Option<u64>, AllocError>
    requires words { HasWords head.now.plan }
    ensures { IfOk result (λ broken. broken ≡
        broken_canary (rules_of head.now pool) state.now block) }
{
    let first = u128::from(block.address) + u128::from(block.size);
    let count = canary_count(head, pool, block.size, size_class(head, block.size));
    let found = state
        .memory
        .first_other(first, u128::from(count), canary_byte(head, pool))?;
    match found {
        Some(i) => Ok(Some(block.size + i as u64)),
        None => Ok(None),
    }
}
