//! A block that moves to a new size: it is placed like any other block, its bytes are copied, and the old block leaves
//! as in a free.
ghost use Rattle.std.specs.Prelude.{◌≡◌, ◌-◌, ◌^◌, ◌<◌, IfOk};
ghost use Rattle.om_words.specs.PlannedWords.{HasWords};
ghost use Rattle.om_model.specs.Output.Head.{rules_of};
ghost use Rattle.om_model.specs.Pool.Realloc.{slot_words, late_misuse, slot_drawn, with_copy, left_for, moved_where, moved, moves_checked, moving_wish};
ghost use Rattle.om_model.specs.Slow.{resize_in, searching, IsSmallClaim};

use super::free::{Freed, drawn_slot, moved_to_slot, told, without_page_block};
use super::malloc::{Placed, block_placed, placing, placing_search, words_for};
use super::state::State;
use super::steps::{Search, Step};
use super::write_after_free::written_late;
use crate::block::{Block, Place};
use crate::content::Head;
use crate::entry::Move;
use crate::reply::{Fault, Reply};
use std::alloc::AllocError;

/// A live block, and the size and the site that it is to have. A chunk has its place, and a page block none.
#[derive(Clone, Copy)]
pub(super) struct Resize {
    pub(super) block: Block,
    pub(super) place: Option<Place>,
    pub(super) size: u64,
    pub(super) site: u64,
}

// The words that are drawn for its slot.
fn slot_words(place: Option<Place>) -> u32
    ensures { result ≡ slot_words place }
{
    match place {
        Some(_) => 1,
        None => 0,
    }
}

// A write after free is told before it moves.
fn late_misuse(
    head: &Head,
    pool: u32,
    state: &State,
    place: Option<Place>,
) -> Result<Option<Fault>, AllocError>
    requires words { HasWords head.now.plan }
    requires few { state.now.drawn < 2 ^ 63 }
    ensures { IfOk result (λ found. found ≡
        late_misuse (rules_of head.now pool) state.now place) }
{
    match place {
        Some(_) => {
            let changed = written_late(head, pool, state, drawn_slot(head, pool, state))?;
            Ok(changed.map(|changed| Fault::WriteAfterFree {
                addr: changed.addr,
                offset: changed.offset,
            }))
        }
        None => Ok(None),
    }
}

// The state from which it is placed anew.
fn slot_drawn(state: &State, place: Option<Place>) -> Result<State, AllocError>
    requires { state.now.drawn < 2 ^ 63 }
    ensures { IfOk result (λ next. next ≡ slot_drawn state.now place) }
{
    let mut next = state.copy()?;
    next.drawn += u64::from(slot_words(place));
    Ok(next)
}

// What both sizes have in common is copied.
fn with_copy(mut state: State, block: Block, size: u64, to: u64) -> Result<State, AllocError>
    ensures { IfOk result (λ next. next ≡ with_copy block size to state) }
{
    let from = u128::from(block.address);
    let len = u128::from(block.size.min(size));
    state.memory.copy_bytes(from, u128::from(to), len)?;
    Ok(state)
}

// The old block leaves the next state as in a free, a place for the slot that is drawn in the first.
fn left_for(
    head: &Head,
    pool: u32,
    state: &State,
    asked: Resize,
    next: &State,
) -> Result<Freed, AllocError>
    requires words { HasWords head.now.plan }
    requires few { state.now.drawn < 2 ^ 63 }
    ensures { IfOk result (λ left. left ≡
        left_for (rules_of head.now pool) state.now asked.block asked.place next.now) }
{
    match asked.place {
        Some(place) => {
            let slot = drawn_slot(head, pool, state);
            moved_to_slot(head, pool, next, slot, place)
        }
        None => without_page_block(head, pool, next, asked.block),
    }
}

// By where the new block was placed.
fn moved_where(
    head: &Head,
    pool: u32,
    state: &State,
    asked: Resize,
    words: u32,
    placed: Placed,
) -> Result<Step, AllocError>
    requires words { HasWords head.now.plan }
    requires few { state.now.drawn < 2 ^ 63 }
    ensures { IfOk result (λ step. step ≡ moved_where (rules_of head.now pool) state.now
        (resize_in asked) words placed placed.address) }
{
    let Some(to) = placed.address else {
        return Ok(block_placed(head, pool, words, placed));
    };
    let next = with_copy(placed.next, asked.block, asked.size, to)?;
    let left = left_for(head, pool, state, asked, &next)?;
    Ok(Step {
        reply: Reply::Block(to),
        words,
        release: left.release,
        next: left.next,
    })
}

fn moved(
    head: &Head,
    pool: u32,
    state: &State,
    asked: Resize,
    claim: Option<Move>,
) -> Result<Step, AllocError>
    requires words { HasWords head.now.plan }
    requires few { state.now.drawn < 2 ^ 63 - 2 }
    requires claim { IsSmallClaim claim }
    ensures { IfOk result (λ step. step ≡
        moved (rules_of head.now pool) state.now (resize_in asked) claim) }
{
    let from = slot_drawn(state, asked.place)?;
    let placed = placing(head, pool, &from, asked.size, asked.site, claim)?;
    let words = slot_words(asked.place) + words_for(head, pool, asked.size);
    moved_where(head, pool, state, asked, words, placed)
}

/// It moves where no write after free is told.
pub(super) fn moves_checked(
    head: &Head,
    pool: u32,
    state: &State,
    asked: Resize,
    claim: Option<Move>,
) -> Result<Step, AllocError>
    requires words { HasWords head.now.plan }
    requires few { state.now.drawn < 2 ^ 63 - 2 }
    requires claim { IsSmallClaim claim }
    ensures { IfOk result (λ step. step ≡
        moves_checked (rules_of head.now pool) state.now (resize_in asked) claim) }
{
    match late_misuse(head, pool, state, asked.place)? {
        Some(fault) => told(state, fault),
        None => moved(head, pool, state, asked, claim),
    }
}

/// The search by which it is placed anew. Where a misuse is told, nothing is asked.
pub(super) fn moving_search(
    head: &Head,
    pool: u32,
    state: &State,
    place: Option<Place>,
    size: u64,
) -> Result<Option<Search>, AllocError>
    requires words { HasWords head.now.plan }
    requires few { state.now.drawn < 2 ^ 63 - 1 }
    ensures { IfOk result (λ search. searching search ≡
        moving_wish (rules_of head.now pool) state.now place size) }
{
    match late_misuse(head, pool, state, place)? {
        Some(_) => Ok(None),
        None => {
            let from = slot_drawn(state, place)?;
            placing_search(head, pool, &from, size)
        }
    }
}
