//! The step of a free, by what stands at the address.
ghost use Rattle.std.specs.Prelude.{◌≡◌, ◌^◌, ◌<◌, IfOk};
ghost use Rattle.om_delay.specs.Slots.{slot_count};
ghost use Rattle.om_words.specs.PlannedWords.{HasWords};
ghost use Rattle.om_model.specs.Output.Head.{rules_of};
ghost use Rattle.om_model.specs.Pool.Free.{is_surplus, kept_or_let_go, evicted, without_block, drawn_slot, slot_of, into_slot, put_off, moved_to_slot, done_with, delay, delay_unless, first_misuse, misuse, told, slot_holds, freed_again, without_page_block, free_at, free};
ghost use Rattle.om_model.specs.Slow.{run_in, standing_in};

use super::canaries::broken_canary;
use super::in_use::{free_pages, is_free_page, uses};
use super::junk::{with_freed_pages, with_freed_place};
use super::rules::{block_pages, word_at};
use super::standing::{Standing, stands_at};
use super::state::{State, page_at};
use super::steps::{Run, Step, unchanged};
use super::write_after_free::written_late;
use crate::block::{Block, Place};
use crate::content::Head;
use crate::reply::{Fault, Reply};
use om_delay::{Changed, SLOT_COUNT};
use std::alloc::AllocError;
use std::marker::Model;

/// A state after pages became free, and the run that was let go.
#[derive(Drop)]
pub(super) struct Freed {
    pub(super) release: Option<Run>,
    pub(super) next: State,
}

impl Model for Freed {
    ghost use Rattle.std.specs.Option.{option_map};
    ghost use Rattle.om_model.specs.Pool.Free;
    ghost use Rattle.om_model.specs.Slow.{run_in};

    ghost Value = { Free.Freed };

    ghost view = { λ l. record { release = option_map run_in l.release; next = l.next } };
}

// More pages are free than the pool keeps.
fn is_surplus(head: &Head, pool: u32, state: &State) -> Result<bool, AllocError>
    ensures { IfOk result (λ is. is ≡ is_surplus (rules_of head.now pool) state.now) }
{
    let used = uses(head, pool, state)?;
    let pages = free_pages(state.alloc, &used, &state.held)?;
    Ok(pages.len() > head.opts.cache as usize)
}

/// A run that became free is let go where it is surplus.
#[tactic(auto, unfolding(crate::specs::Pool::Free::kept_or_let_go))]
pub(super) fn kept_or_let_go(
    head: &Head,
    pool: u32,
    state: State,
    run: Run,
) -> Result<Freed, AllocError>
    ensures { IfOk result (λ left. left ≡
        kept_or_let_go (rules_of head.now pool) state (run_in run)) }
{
    if is_surplus(head, pool, &state)? {
        Ok(Freed {
            release: Some(run),
            next: state.without_pages(run)?,
        })
    } else {
        Ok(Freed {
            release: None,
            next: state,
        })
    }
}

// After a place left its slot, its page becomes free where nothing touches it any more.
fn evicted(head: &Head, pool: u32, state: State, slot: Option<Place>) -> Result<Freed, AllocError>
    ensures { IfOk result (λ left. left ≡ evicted (rules_of head.now pool) state slot) }
{
    if let Some(place) = slot {
        let first = page_at(place.address);
        let used = uses(head, pool, &state)?;
        if is_free_page(&used, first) {
            return kept_or_let_go(head, pool, state, Run { first, count: 1 });
        }
    }
    Ok(Freed {
        release: None,
        next: state,
    })
}

/// The block at the address is live no longer.
pub(super) fn without_block(state: &State, address: u64) -> Result<State, AllocError>
    ensures { IfOk result (λ next. next ≡ without_block state.now address) }
{
    let mut next = state.copy()?;
    next.live = state
        .live
        .iter()
        .copied()
        .filter(|block| block.address != address)
        .collect(state.alloc)?;
    Ok(next)
}

/// The slot that the next word chooses.
pub(super) fn drawn_slot(head: &Head, pool: u32, state: &State) -> usize
    requires words { HasWords head.now.plan }
    requires few { state.now.drawn < 2 ^ 63 }
    ensures value { result ≡ drawn_slot (rules_of head.now pool) state.now }
    ensures within { result < slot_count }
{
    word_at(head, pool, state.drawn) as usize % SLOT_COUNT
}

fn into_slot(state: &State, slot: usize, place: Place) -> Result<State, AllocError>
    requires { slot < slot_count }
    ensures { IfOk result (λ next. next ≡ into_slot state.now slot place) }
{
    let mut next = without_block(state, place.address)?;
    next.slots[slot] = Some(place);
    Ok(next)
}

fn put_off(
    head: &Head,
    pool: u32,
    state: &State,
    slot: usize,
    place: Place,
) -> Result<State, AllocError>
    requires { slot < slot_count }
    ensures { IfOk result (λ next. next ≡
        put_off (rules_of head.now pool) state.now slot place) }
{
    let next = into_slot(state, slot, place)?;
    Ok(with_freed_place(head, pool, place, next))
}

fn slot_of(state: &State, slot: usize) -> Option<Place>
    requires { slot < slot_count }
    ensures { result ≡ slot_of state.now slot }
{
    state.slots[slot]
}

/// A place is put off to the slot, and what this had is evicted.
pub(super) fn moved_to_slot(
    head: &Head,
    pool: u32,
    state: &State,
    slot: usize,
    place: Place,
) -> Result<Freed, AllocError>
    requires { slot < slot_count }
    ensures { IfOk result (λ left. left ≡
        moved_to_slot (rules_of head.now pool) state.now slot place) }
{
    let next = put_off(head, pool, state, slot, place)?;
    evicted(head, pool, next, slot_of(state, slot))
}

// Done, by so many words.
fn done_with(words: u32, left: Freed) -> Step
    ensures { result ≡ done_with words left }
{
    Step {
        reply: Reply::Done,
        words,
        release: left.release,
        next: left.next,
    }
}

// A live place is put off to the slot that is drawn.
#[tactic(auto, unfolding(crate::specs::Pool::Free::delay))]
fn delay(head: &Head, pool: u32, state: &State, place: Place) -> Result<Step, AllocError>
    requires words { HasWords head.now.plan }
    requires few { state.now.drawn < 2 ^ 63 }
    ensures { IfOk result (λ step. step ≡ delay (rules_of head.now pool) state.now place) }
{
    let slot = drawn_slot(head, pool, state);
    let mut next = state.copy()?;
    next.drawn += 1;
    let left = moved_to_slot(head, pool, &next, slot, place)?;
    Ok(done_with(1, left))
}

// A broken canary, and where there is none a write after free.
fn first_misuse(broken: Option<u64>, changed: Option<Changed>) -> Option<Fault>
    ensures { result ≡ first_misuse broken changed }
{
    match (broken, changed) {
        (Some(offset), _) => Some(Fault::Canary { offset }),
        (None, Some(Changed { addr, offset })) => Some(Fault::WriteAfterFree { addr, offset }),
        (None, None) => None,
    }
}

// The misuse that the free of a live place tells.
fn misuse(head: &Head, pool: u32, state: &State, block: Block) -> Result<Option<Fault>, AllocError>
    requires words { HasWords head.now.plan }
    requires few { state.now.drawn < 2 ^ 63 }
    ensures { IfOk result (λ found. found ≡ misuse (rules_of head.now pool) state.now block) }
{
    let broken = broken_canary(head, pool, state, block)?;
    let changed = written_late(head, pool, state, drawn_slot(head, pool, state))?;
    Ok(first_misuse(broken, changed))
}

/// It is told; nothing changes but that the slot's word is drawn.
pub(super) fn told(state: &State, fault: Fault) -> Result<Step, AllocError>
    requires { state.now.drawn < 2 ^ 63 }
    ensures { IfOk result (λ step. step ≡ told state.now fault) }
{
    let mut next = state.copy()?;
    next.drawn += 1;
    Ok(Step {
        reply: Reply::Fault(fault),
        words: 1,
        release: None,
        next,
    })
}

fn delay_unless(
    head: &Head,
    pool: u32,
    found: Option<Fault>,
    state: &State,
    place: Place,
) -> Result<Step, AllocError>
    requires words { HasWords head.now.plan }
    requires few { state.now.drawn < 2 ^ 63 }
    ensures { IfOk result (λ step. step ≡
        delay_unless found (rules_of head.now pool) state.now place) }
{
    match found {
        Some(fault) => told(state, fault),
        None => delay(head, pool, state, place),
    }
}

fn slot_holds(slot: Option<Place>, address: u64) -> bool
    ensures { result ≡ slot_holds slot address }
{
    match slot {
        Some(place) => place.address == address,
        None => false,
    }
}

// A delayed place is freed again. Without freecheck this is seen only where the drawn slot holds it.
#[tactic(auto, unfolding(crate::specs::Pool::Free::freed_again))]
fn freed_again(head: &Head, pool: u32, state: &State, address: u64) -> Result<Step, AllocError>
    requires words { HasWords head.now.plan }
    requires few { state.now.drawn < 2 ^ 63 }
    ensures { IfOk result (λ step. step ≡
        freed_again (rules_of head.now pool) state.now address) }
{
    let slot = drawn_slot(head, pool, state);
    let seen = head.opts.freecheck || slot_holds(slot_of(state, slot), address);
    let mut next = state.copy()?;
    next.drawn += 1;
    Ok(Step {
        reply: if seen {
            Reply::Fault(Fault::DoubleFree)
        } else {
            Reply::Done
        },
        words: 1,
        release: None,
        next,
    })
}

/// A page block leaves the live blocks, and its bytes are filled: its pages with the guard are a run that becomes free.
pub(super) fn without_page_block(
    head: &Head,
    pool: u32,
    state: &State,
    block: Block,
) -> Result<Freed, AllocError>
    ensures { IfOk result (λ left. left ≡
        without_page_block (rules_of head.now pool) state.now block) }
{
    let left = without_block(state, block.address)?;
    let next = with_freed_pages(head, pool, block, left);
    let run = Run {
        first: page_at(block.address),
        count: block_pages(head, block.size),
    };
    kept_or_let_go(head, pool, next, run)
}

/// The free of an address, by what stands there.
pub(super) fn free_at(
    head: &Head,
    pool: u32,
    state: &State,
    address: u64,
    stands: Standing,
) -> Result<Step, AllocError>
    requires words { HasWords head.now.plan }
    requires few { state.now.drawn < 2 ^ 63 }
    ensures { IfOk result (λ step. step ≡
        free_at (rules_of head.now pool) state.now address (standing_in stands)) }
{
    match stands {
        Standing::NotHeld => unchanged(state, Reply::Miss),
        Standing::PageBlock(block) => {
            let left = without_page_block(head, pool, state, block)?;
            Ok(done_with(0, left))
        }
        Standing::FreePage | Standing::InPageBlock | Standing::OnGuard => {
            unchanged(state, Reply::Fault(Fault::Bogus))
        }
        Standing::Unaligned => unchanged(state, Reply::Fault(Fault::ModifiedPointer)),
        Standing::FreePlace => unchanged(state, Reply::Fault(Fault::AlreadyFree)),
        Standing::DelayedPlace(_) => freed_again(head, pool, state, address),
        Standing::LivePlace(place, block) => {
            let found = misuse(head, pool, state, block)?;
            delay_unless(head, pool, found, state, place)
        }
    }
}

impl State {
    /// The step of a free.
    pub fn free(&self, head: &Head, pool: u32, address: u64) -> Result<Step, AllocError>
        requires words { HasWords head.now.plan }
        requires few { self.now.drawn < 2 ^ 63 }
        ensures { IfOk result (λ step. step ≡ free (rules_of head.now pool) self.now address) }
    {
        let stands = stands_at(head, pool, self, address)?;
        free_at(head, pool, self, address, stands)
    }
}
