//! The step of an allocation.
ghost use Rattle.std.specs.Prelude.{◌≡◌, ◌+◌, ◌-◌, ◌^◌, ◌<◌, IsTrue, IfOk, IfSome};
ghost use Rattle.om_geom.specs.Classes.{is_class};
ghost use Rattle.om_words.specs.PlannedWords.{HasWords};
ghost use Rattle.om_model.specs.Output.Head.{rules_of};
ghost use Rattle.om_model.specs.Pool.Malloc.{pages_for, words_for, is_too_large, page_by_class, page_for, placing_wish, address_on, placed_on, placed_by_claim, placing, malloc_wish, block_or_null, block_placed, malloc};
ghost use Rattle.om_model.specs.Pool.Steps.{unchanged, null_or_fault};
ghost use Rattle.om_model.specs.Slow.{searching, wish_in, IsSmallClaim};
ghost use Rattle.om_model.specs.declared.reply.Why.TheVariants.{TooLarge};

use super::canaries::with_canaries;
use super::in_use::{address_of, uses};
use super::junk::with_fresh_junk;
use super::picks::{own_page, own_run, picked_place, place_address};
use super::rules::{block_pages, size_class, word_at};
use super::state::State;
use super::steps::{Search, Step, Wish, null_or_fault, searching, unchanged};
use crate::block::Block;
use crate::content::Head;
use crate::entry::Move;
use crate::reply::{Reply, Why};
use om_geom::ZONE_PAGES;
use std::alloc::AllocError;
use std::marker::Model;

/// The pages of a zone that a block needs.
pub(super) fn pages_for(head: &Head, pool: u32, size: u64) -> u64
    ensures { result ≡ pages_for (rules_of head.now pool) size }
{
    match size_class(head, size) {
        Some(_) => 1,
        None => block_pages(head, size),
    }
}

/// The words that the placing of a block draws.
pub(super) fn words_for(head: &Head, pool: u32, size: u64) -> u32
    ensures { result ≡ words_for (rules_of head.now pool) size }
{
    match size_class(head, size) {
        Some(_) => 2,
        None => 1,
    }
}

/// Whether no zone has room for so many bytes.
pub(super) fn is_too_large(head: &Head, pool: u32, size: u64) -> bool
    ensures { result ≡ is_too_large (rules_of head.now pool) size }
{
    size_class(head, size).is_none() && block_pages(head, size) > u64::from(ZONE_PAGES)
}

// The page or the run that the pool has, by the next word.
fn page_by_class(
    head: &Head,
    pool: u32,
    state: &State,
    size: u64,
    class: Option<u32>,
) -> Result<Option<u32>, AllocError>
    requires words { HasWords head.now.plan }
    requires few { state.now.drawn < 2 ^ 63 }
    requires class { IfSome class (λ c. IsTrue (is_class c)) }
    ensures { IfOk result (λ page. page ≡
        page_by_class (rules_of head.now pool) state.now size class) }
{
    let used = uses(head, pool, state)?;
    match class {
        Some(class) => {
            let word = word_at(head, pool, state.drawn);
            own_page(state.alloc, &used, &state.held, class, word)
        }
        None => Ok(own_run(&used, &state.held, block_pages(head, size))),
    }
}

fn page_for(head: &Head, pool: u32, state: &State, size: u64) -> Result<Option<u32>, AllocError>
    requires words { HasWords head.now.plan }
    requires few { state.now.drawn < 2 ^ 63 }
    ensures { IfOk result (λ page. page ≡ page_for (rules_of head.now pool) state.now size) }
{
    page_by_class(head, pool, state, size, size_class(head, size))
}

/// The null, or the fault in its place, of what no zone has room for.
pub(super) fn too_large(head: &Head, pool: u32, state: &State) -> Result<Step, AllocError>
    ensures { IfOk result (λ step. step ≡
        unchanged state.now (null_or_fault (rules_of head.now pool) TooLarge)) }
{
    unchanged(state, null_or_fault(head, pool, Why::TooLarge))
}

/// The search by which a block is placed. Zones are searched only where the pool has no page or run for it.
pub(super) fn placing_search(
    head: &Head,
    pool: u32,
    state: &State,
    size: u64,
) -> Result<Option<Search>, AllocError>
    requires words { HasWords head.now.plan }
    requires few { state.now.drawn < 2 ^ 63 }
    ensures { IfOk result (λ search. searching search ≡
        placing_wish (rules_of head.now pool) state.now size) }
{
    let word = word_at(head, pool, state.drawn);
    let count = pages_for(head, pool, size);
    match page_for(head, pool, state, size)? {
        Some(_) => Ok(None),
        None => Ok(Some(Search { count, word })),
    }
}

/// Where a block was placed, or that no run was found for it, and the state after it.
#[derive(Drop)]
pub(super) struct Placed {
    pub(super) address: Option<u64>,
    pub(super) next: State,
}

impl Model for Placed {
    ghost use Rattle.om_model.specs.Pool.Malloc;

    ghost Value = { Malloc.Placed };

    ghost view = { λ p. record { address = p.address; next = p.next } };
}

// A chunk at the free place that the word chooses, a page block at the first byte of its run.
#[tactic(auto, unfolding(crate::specs::Pool::Malloc::address_on))]
fn address_on(
    head: &Head,
    pool: u32,
    state: &State,
    page: u32,
    word: u32,
    class: Option<u32>,
) -> Result<u64, AllocError>
    requires { IfSome class (λ c. IsTrue (is_class c)) }
    ensures { IfOk result (λ address. address ≡
        address_on (rules_of head.now pool) state.now page word class) }
{
    let used = uses(head, pool, state)?;
    match class {
        Some(class) => {
            let place = picked_place(&used, page, class, word).unwrap_or(0);
            Ok(place_address(page, class, place))
        }
        None => Ok(address_of(page)),
    }
}

fn placed_on(
    head: &Head,
    pool: u32,
    mut state: State,
    page: u32,
    word: u32,
    size: u64,
    site: u64,
) -> Result<Placed, AllocError>
    requires { HasWords head.now.plan }
    ensures { IfOk result (λ placed. placed ≡
        placed_on (rules_of head.now pool) state page word size site) }
{
    let address = address_on(head, pool, &state, page, word, size_class(head, size))?;
    let block = Block {
        address,
        size,
        site,
    };
    state.live.push(block)?;
    Ok(Placed {
        address: Some(address),
        next: with_canaries(head, pool, block, with_fresh_junk(head, pool, block, state)),
    })
}

// On the claimed pages, which join the held ones.
fn placed_by_claim(
    head: &Head,
    pool: u32,
    state: State,
    claim: Option<Move>,
    word: u32,
    size: u64,
    site: u64,
) -> Result<Placed, AllocError>
    requires words { HasWords head.now.plan }
    requires claim { IsSmallClaim claim }
    ensures { IfOk result (λ placed. placed ≡
        placed_by_claim (rules_of head.now pool) state claim word size site) }
{
    let Some(found) = claim else {
        return Ok(Placed {
            address: None,
            next: state,
        });
    };
    let first = ZONE_PAGES * found.zone + found.first;
    let next = state.with_pages(first, found.count)?;
    placed_on(head, pool, next, first, word, size, site)
}

/// The placing of a block. The second word is that of a chunk's place.
pub(super) fn placing(
    head: &Head,
    pool: u32,
    state: &State,
    size: u64,
    site: u64,
    claim: Option<Move>,
) -> Result<Placed, AllocError>
    requires words { HasWords head.now.plan }
    requires few { state.now.drawn < 2 ^ 63 - 1 }
    requires claim { IsSmallClaim claim }
    ensures { IfOk result (λ placed. placed ≡
        placing (rules_of head.now pool) state.now size site claim) }
{
    let own = page_for(head, pool, state, size)?;
    let word = word_at(head, pool, state.drawn + 1);
    let mut next = state.copy()?;
    next.drawn += u64::from(words_for(head, pool, size));
    match own {
        Some(page) => placed_on(head, pool, next, page, word, size, site),
        None => placed_by_claim(head, pool, next, claim, word, size, site),
    }
}

fn block_or_null(head: &Head, pool: u32, address: Option<u64>) -> Reply
    ensures { result ≡ block_or_null (rules_of head.now pool) address }
{
    match address {
        Some(address) => Reply::Block(address),
        None => null_or_fault(head, pool, Why::NoRun),
    }
}

/// The step of a block that was placed by so many words, or for which no run was found.
pub(super) fn block_placed(head: &Head, pool: u32, words: u32, placed: Placed) -> Step
    ensures { result ≡ block_placed (rules_of head.now pool) words placed }
{
    Step {
        reply: block_or_null(head, pool, placed.address),
        words,
        release: None,
        next: placed.next,
    }
}

impl State {
    /// What an allocation asks of the zones.
    pub fn malloc_wish(&self, head: &Head, pool: u32, size: u64) -> Result<Wish, AllocError>
        requires words { HasWords head.now.plan }
        requires few { self.now.drawn < 2 ^ 63 }
        ensures { IfOk result (λ wish. wish_in wish ≡
            malloc_wish (rules_of head.now pool) self.now size) }
    {
        if is_too_large(head, pool, size) {
            Ok(Wish::Nothing)
        } else {
            Ok(searching(placing_search(head, pool, self, size)?))
        }
    }

    /// The step of an allocation, given the claim that the zones answered.
    pub fn malloc(
        &self,
        head: &Head,
        pool: u32,
        size: u64,
        site: u64,
        claim: Option<Move>,
    ) -> Result<Step, AllocError>
        requires words { HasWords head.now.plan }
        requires few { self.now.drawn < 2 ^ 63 - 1 }
        requires claim { IsSmallClaim claim }
        ensures { IfOk result (λ step. step ≡
            malloc (rules_of head.now pool) self.now size site claim) }
    {
        if is_too_large(head, pool, size) {
            return too_large(head, pool, self);
        }
        let placed = placing(head, pool, self, size, site, claim)?;
        Ok(block_placed(head, pool, words_for(head, pool, size), placed))
    }
}
