//! The step of an allocation of zeros: so many items of a size.
ghost use Rattle.std.specs.Prelude.{◌≡◌, ◌-◌, ◌^◌, ◌<◌, IfOk};
ghost use Rattle.om_words.specs.PlannedWords.{HasWords};
ghost use Rattle.om_model.specs.Output.Head.{rules_of};
ghost use Rattle.om_model.specs.Pool.Calloc.{zeroed_at, zeroed, zeroed_block, calloc_wish, calloc};
ghost use Rattle.om_model.specs.Slow.{wish_in, IsSmallClaim};

use super::malloc::{Placed, block_placed, is_too_large, placing, too_large, words_for};
use super::product::{overflow, product};
use super::state::State;
use super::steps::{Step, Wish};
use crate::content::Head;
use crate::entry::Move;
use std::alloc::AllocError;

// The block's first bytes are zeros.
fn zeroed_at(address: Option<u64>, size: u64, mut state: State) -> State
    ensures { result ≡ zeroed_at address size state }
{
    if let Some(address) = address {
        state.memory.fill(u128::from(address), u128::from(size), 0);
    }
    state
}

fn zeroed(size: u64, placed: Placed) -> Placed
    ensures { result ≡ zeroed size placed }
{
    let address = placed.address;
    Placed {
        address,
        next: zeroed_at(address, size, placed.next),
    }
}

fn zeroed_block(
    head: &Head,
    pool: u32,
    state: &State,
    size: u64,
    site: u64,
    claim: Option<Move>,
) -> Result<Step, AllocError>
    requires words { HasWords head.now.plan }
    requires few { state.now.drawn < 2 ^ 63 - 1 }
    requires claim { IsSmallClaim claim }
    ensures { IfOk result (λ step. step ≡
        zeroed_block (rules_of head.now pool) state.now size site claim) }
{
    if is_too_large(head, pool, size) {
        return too_large(head, pool, state);
    }
    let placed = zeroed(size, placing(head, pool, state, size, site, claim)?);
    Ok(block_placed(head, pool, words_for(head, pool, size), placed))
}

impl State {
    /// What an allocation of zeros asks of the zones.
    pub fn calloc_wish(
        &self,
        head: &Head,
        pool: u32,
        count: u64,
        size: u64,
    ) -> Result<Wish, AllocError>
        requires words { HasWords head.now.plan }
        requires few { self.now.drawn < 2 ^ 63 }
        ensures { IfOk result (λ wish. wish_in wish ≡
            calloc_wish (rules_of head.now pool) self.now count size) }
    {
        match product(count, size) {
            Some(size) => self.malloc_wish(head, pool, size),
            None => Ok(Wish::Nothing),
        }
    }

    /// The step of an allocation of zeros, given the claim that the zones answered.
    pub fn calloc(
        &self,
        head: &Head,
        pool: u32,
        count: u64,
        size: u64,
        site: u64,
        claim: Option<Move>,
    ) -> Result<Step, AllocError>
        requires words { HasWords head.now.plan }
        requires few { self.now.drawn < 2 ^ 63 - 1 }
        requires claim { IsSmallClaim claim }
        ensures { IfOk result (λ step. step ≡
            calloc (rules_of head.now pool) self.now count size site claim) }
    {
        match product(count, size) {
            Some(size) => zeroed_block(head, pool, self, size, site, claim),
            None => overflow(head, pool, self),
        }
    }
}
