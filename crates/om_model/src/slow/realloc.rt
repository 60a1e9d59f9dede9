//! The step of a realloc, by what stands at the address and how the block there comes to its new size.
ghost use Rattle.std.specs.Prelude.{◌≡◌, ◌-◌, ◌^◌, ◌<◌, ◌≤◌, IfOk};
ghost use Rattle.om_geom.specs.Numbers.{most_zones};
ghost use Rattle.om_words.specs.PlannedWords.{HasWords};
ghost use Rattle.om_model.specs.Output.Head.{rules_of};
ghost use Rattle.om_model.specs.Pool.Canaries.{broken_canary};
ghost use Rattle.om_model.specs.Pool.Realloc.{with_size, resized, block_kept, stayed, shrunk, grown, claimed_unless, realloc_by, realloc_block, unless_broken, realloc, wish_by, block_wish, realloc_wish_at, realloc_wish, reallocarray_wish, reallocarray};
ghost use Rattle.om_model.specs.Pool.Resizing.{pages_after, way};
ghost use Rattle.om_model.specs.Pool.Standing.{LivePlace};
ghost use Rattle.om_model.specs.Slow.{resize_in, standing_in, told_in, wish_in, IsSmallClaim, IsSmallRun};

use super::canaries::{broken_canary, with_canaries};
use super::free::{Freed, free_at, kept_or_let_go, without_block};
use super::junk::with_new_data;
use super::malloc::{is_too_large, too_large};
use super::moving::{Resize, moves_checked, moving_search};
use super::product::{overflow, product};
use super::resizing::{Way, last_pages, pages_after, way_to};
use super::standing::{Standing, stands_at};
use super::state::State;
use super::steps::{Answers, Step, Wish, searching, unchanged};
use crate::block::{Block, Place};
use crate::content::Head;
use crate::reply::{Fault, Reply};
use std::alloc::AllocError;

// ---- a block that keeps its address

fn with_size(asked: Resize) -> Block
    ensures { result ≡ with_size (resize_in asked) }
{
    Block {
        address: asked.block.address,
        size: asked.size,
        site: asked.site,
    }
}

// The block has the new size and site.
fn resized(state: &State, asked: Resize) -> Result<State, AllocError>
    ensures { IfOk result (λ next. next ≡ resized (resize_in asked) state.now) }
{
    let mut next = without_block(state, asked.block.address)?;
    next.live.push(with_size(asked))?;
    Ok(next)
}

// No word is drawn.
fn block_kept(block: Block, left: Freed) -> Step
    ensures { result ≡ block_kept block left }
{
    Step {
        reply: Reply::Block(block.address),
        words: 0,
        release: left.release,
        next: left.next,
    }
}

fn stayed(head: &Head, pool: u32, state: &State, asked: Resize) -> Result<Step, AllocError>
    requires { HasWords head.now.plan }
    ensures { IfOk result (λ step. step ≡
        stayed (rules_of head.now pool) state.now (resize_in asked)) }
{
    let next = with_canaries(head, pool, with_size(asked), resized(state, asked)?);
    Ok(block_kept(
        asked.block,
        Freed {
            release: None,
            next,
        },
    ))
}

fn shrunk(head: &Head, pool: u32, state: &State, asked: Resize) -> Result<Step, AllocError>
    ensures { IfOk result (λ step. step ≡
        shrunk (rules_of head.now pool) state.now (resize_in asked)) }
{
    let run = last_pages(head, pool, asked.block, asked.size);
    let left = kept_or_let_go(head, pool, resized(state, asked)?, run)?;
    Ok(block_kept(asked.block, left))
}

fn grown(head: &Head, pool: u32, state: &State, asked: Resize) -> Result<Step, AllocError>
    ensures { IfOk result (λ step. step ≡
        grown (rules_of head.now pool) state.now (resize_in asked)) }
{
    let grown = resized(state, asked)?;
    let next = with_new_data(head, pool, asked.block, asked.size, grown);
    Ok(block_kept(
        asked.block,
        Freed {
            release: None,
            next,
        },
    ))
}

// ---- a live block, by its way

// With the pages behind it, where none of them was taken.
fn claimed_unless(
    head: &Head,
    pool: u32,
    state: &State,
    asked: Resize,
    answers: Answers,
) -> Result<Step, AllocError>
    requires words { HasWords head.now.plan }
    requires few { state.now.drawn < 2 ^ 63 - 2 }
    requires claim { IsSmallClaim answers.claim }
    requires run { IsSmallRun (pages_after (rules_of head.now pool) asked.block asked.size) }
    ensures { IfOk result (λ step. step ≡ claimed_unless answers.taken (rules_of head.now pool)
        state.now (resize_in asked) answers.claim) }
{
    if answers.taken.is_some() {
        return moves_checked(head, pool, state, asked, answers.claim);
    }
    let run = pages_after(head, pool, asked.block, asked.size);
    let claimed = state
        .copy()?
        .with_pages(run.first as u32, run.count as u32)?;
    grown(head, pool, &claimed, asked)
}

fn realloc_by(
    head: &Head,
    pool: u32,
    state: &State,
    asked: Resize,
    answers: Answers,
) -> Result<Step, AllocError>
    requires words { HasWords head.now.plan }
    requires few { state.now.drawn < 2 ^ 63 - 2 }
    requires claim { IsSmallClaim answers.claim }
    requires block { asked.block.address < 2 ^ 32 }
    ensures { IfOk result (λ step. step ≡
        realloc_by (way (rules_of head.now pool) state.now asked.block asked.size)
        (rules_of head.now pool) state.now (resize_in asked) (told_in answers)) }
{
    match way_to(head, pool, state, asked.block, asked.size)? {
        Way::Stays => stayed(head, pool, state, asked),
        Way::Shrinks => shrunk(head, pool, state, asked),
        Way::Grows => grown(head, pool, state, asked),
        Way::Claims => claimed_unless(head, pool, state, asked, answers),
        Way::Moves => moves_checked(head, pool, state, asked, answers.claim),
    }
}

fn realloc_block(
    head: &Head,
    pool: u32,
    state: &State,
    asked: Resize,
    answers: Answers,
) -> Result<Step, AllocError>
    requires words { HasWords head.now.plan }
    requires few { state.now.drawn < 2 ^ 63 - 2 }
    requires claim { IsSmallClaim answers.claim }
    requires block { asked.block.address < 2 ^ 32 }
    ensures { IfOk result (λ step. step ≡ realloc_block (rules_of head.now pool) state.now
        (resize_in asked) (told_in answers)) }
{
    if is_too_large(head, pool, asked.size) {
        too_large(head, pool, state)
    } else {
        realloc_by(head, pool, state, asked, answers)
    }
}

// ---- by what stands at the address

// A chunk whose canaries are whole.
fn realloc_chunk(
    head: &Head,
    pool: u32,
    state: &State,
    asked: Resize,
    answers: Answers,
) -> Result<Step, AllocError>
    requires words { HasWords head.now.plan }
    requires few { state.now.drawn < 2 ^ 63 - 2 }
    requires claim { IsSmallClaim answers.claim }
    requires block { asked.block.address < 2 ^ 32 }
    ensures { IfOk result (λ step. step ≡
        unless_broken (broken_canary (rules_of head.now pool) state.now asked.block) state.now
        (realloc_block (rules_of head.now pool) state.now (resize_in asked) (told_in answers))) }
{
    match broken_canary(head, pool, state, asked.block)? {
        Some(offset) => unchanged(state, Reply::Fault(Fault::Canary { offset })),
        None => realloc_block(head, pool, state, asked, answers),
    }
}

// ---- what it asks of the zones

fn wish_by(
    head: &Head,
    pool: u32,
    state: &State,
    block: Block,
    place: Option<Place>,
    size: u64,
) -> Result<Wish, AllocError>
    requires words { HasWords head.now.plan }
    requires few { state.now.drawn < 2 ^ 63 - 1 }
    ensures { IfOk result (λ wish. wish_in wish ≡
        wish_by (way (rules_of head.now pool) state.now block size)
        (rules_of head.now pool) state.now block place size) }
{
    match way_to(head, pool, state, block, size)? {
        Way::Claims => {
            let run = pages_after(head, pool, block, size);
            let otherwise = moving_search(head, pool, state, place, size)?;
            Ok(Wish::At(run, otherwise))
        }
        Way::Moves => Ok(searching(moving_search(head, pool, state, place, size)?)),
        Way::Stays | Way::Shrinks | Way::Grows => Ok(Wish::Nothing),
    }
}

fn block_wish(
    head: &Head,
    pool: u32,
    state: &State,
    block: Block,
    place: Option<Place>,
    size: u64,
) -> Result<Wish, AllocError>
    requires words { HasWords head.now.plan }
    requires few { state.now.drawn < 2 ^ 63 - 1 }
    ensures { IfOk result (λ wish. wish_in wish ≡
        block_wish (rules_of head.now pool) state.now block place size) }
{
    if is_too_large(head, pool, size) {
        Ok(Wish::Nothing)
    } else {
        wish_by(head, pool, state, block, place, size)
    }
}

fn chunk_wish(
    head: &Head,
    pool: u32,
    state: &State,
    block: Block,
    place: Place,
    size: u64,
) -> Result<Wish, AllocError>
    requires words { HasWords head.now.plan }
    requires few { state.now.drawn < 2 ^ 63 - 1 }
    ensures { IfOk result (λ wish. wish_in wish ≡
        realloc_wish_at (rules_of head.now pool) state.now size (LivePlace place block)) }
{
    if broken_canary(head, pool, state, block)?.is_some() {
        Ok(Wish::Nothing)
    } else {
        block_wish(head, pool, state, block, Some(place), size)
    }
}

fn realloc_wish_at(
    head: &Head,
    pool: u32,
    state: &State,
    size: u64,
    stands: Standing,
) -> Result<Wish, AllocError>
    requires words { HasWords head.now.plan }
    requires few { state.now.drawn < 2 ^ 63 - 1 }
    ensures { IfOk result (λ wish. wish_in wish ≡
        realloc_wish_at (rules_of head.now pool) state.now size (standing_in stands)) }
{
    match stands {
        Standing::PageBlock(block) => block_wish(head, pool, state, block, None, size),
        Standing::LivePlace(place, block) => chunk_wish(head, pool, state, block, place, size),
        _ => Ok(Wish::Nothing),
    }
}

impl State {
    /// What a realloc of an address, not 0, asks of the zones.
    pub fn realloc_wish(
        &self,
        head: &Head,
        pool: u32,
        address: u64,
        size: u64,
    ) -> Result<Wish, AllocError>
        requires words { HasWords head.now.plan }
        requires few { self.now.drawn < 2 ^ 63 - 1 }
        ensures { IfOk result (λ wish. wish_in wish ≡
            realloc_wish (rules_of head.now pool) self.now address size) }
    {
        let stands = stands_at(head, pool, self, address)?;
        realloc_wish_at(head, pool, self, size, stands)
    }

    /// The same of a reallocarray: the product is looked at before the address.
    pub fn reallocarray_wish(
        &self,
        head: &Head,
        pool: u32,
        address: u64,
        count: u64,
        size: u64,
    ) -> Result<Wish, AllocError>
        requires words { HasWords head.now.plan }
        requires few { self.now.drawn < 2 ^ 63 - 1 }
        ensures { IfOk result (λ wish. wish_in wish ≡
            reallocarray_wish (rules_of head.now pool) self.now address count size) }
    {
        match product(count, size) {
            Some(size) => self.realloc_wish(head, pool, address, size),
            None => Ok(Wish::Nothing),
        }
    }

    /// The step of a realloc of an address, not 0, given what the zones answered.
    pub fn realloc(
        &self,
        head: &Head,
        pool: u32,
        address: u64,
        size: u64,
        site: u64,
        answers: Answers,
    ) -> Result<Step, AllocError>
        requires words { HasWords head.now.plan }
        requires few { self.now.drawn < 2 ^ 63 - 2 }
        requires few_zones { head.now.zones ≤ most_zones }
        requires claim { IsSmallClaim answers.claim }
        ensures { IfOk result (λ step. step ≡
            realloc (rules_of head.now pool) self.now address size site (told_in answers)) }
    {
        let stands = stands_at(head, pool, self, address)?;
        match stands {
            Standing::PageBlock(block) => {
                let asked = Resize {
                    block,
                    place: None,
                    size,
                    site,
                };
                realloc_block(head, pool, self, asked, answers)
            }
            Standing::LivePlace(place, block) => {
                let asked = Resize {
                    block,
                    place: Some(place),
                    size,
                    site,
                };
                realloc_chunk(head, pool, self, asked, answers)
            }
            Standing::DelayedPlace(_) => unchanged(self, Reply::Fault(Fault::DoubleFree)),
            _ => free_at(head, pool, self, address, stands),
        }
    }

    /// The step of a reallocarray, but of address 0 only where the product has no number of 64 bits.
    pub fn reallocarray(
        &self,
        head: &Head,
        pool: u32,
        address: u64,
        count: u64,
        size: u64,
        site: u64,
        answers: Answers,
    ) -> Result<Step, AllocError>
        requires words { HasWords head.now.plan }
        requires few { self.now.drawn < 2 ^ 63 - 2 }
        requires few_zones { head.now.zones ≤ most_zones }
        requires claim { IsSmallClaim answers.claim }
        ensures { IfOk result (λ step. step ≡ reallocarray (rules_of head.now pool) self.now
            address count size site (told_in answers)) }
    {
        match product(count, size) {
            Some(size) => self.realloc(head, pool, address, size, site, answers),
            None => overflow(head, pool, self),
        }
    }
}
