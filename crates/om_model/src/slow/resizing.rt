//! How a live block comes to a new size.
ghost use Rattle.std.specs.Prelude.{◌≡◌, ◌+◌, ◌-◌, ◌^◌, ◌<◌, IfOk};
ghost use Rattle.std.specs.List.{list_any, range_with_len};
ghost use Rattle.om_model.specs.Output.Head.{rules_of};
ghost use Rattle.om_model.specs.Pool.Resizing.{last_pages, pages_after, fits_in_zone, holds_some, way_over, way_by_pages, way_by_class, way};
ghost use Rattle.om_model.specs.Pool.State.{is_held};
ghost use Rattle.om_model.specs.Slow.{run_in, way_in};

use super::in_use::uses;
use super::picks::is_free_run;
use super::rules::{block_pages, size_class};
use super::state::{State, is_held, page_at};
use super::steps::Run;
use crate::block::Block;
use crate::content::Head;
use om_geom::{ZONE_PAGES, pages_of};
use std::alloc::AllocError;

/// It stays where it is, shrinks, grows over free pages of the pool, claims the pages behind it, or moves.
#[derive(Clone, Copy)]
pub enum Way {
    Stays,
    Shrinks,
    Grows,
    Claims,
    Moves,
}

/// The pages of its extent that a page block doesn't need any more.
pub(super) fn last_pages(head: &Head, pool: u32, block: Block, size: u64) -> Run
    ensures { run_in result ≡ last_pages (rules_of head.now pool) block size }
{
    Run {
        first: page_at(block.address) + block_pages(head, size),
        count: pages_of(block.size).saturating_sub(pages_of(size)),
    }
}

/// The pages behind its whole extent that it needs besides.
pub(super) fn pages_after(head: &Head, pool: u32, block: Block, size: u64) -> Run
    ensures value { run_in result ≡ pages_after (rules_of head.now pool) block size }
    ensures few { result.first + result.count < 2 ^ 63 }
{
    Run {
        first: page_at(block.address) + block_pages(head, block.size),
        count: pages_of(size).saturating_sub(pages_of(block.size)),
    }
}

// With these it is still a run of one zone.
fn fits_in_zone(head: &Head, pool: u32, block: Block, size: u64) -> bool
    ensures { result ≡ fits_in_zone (rules_of head.now pool) block size }
{
    let pages = u64::from(ZONE_PAGES);
    page_at(block.address) % pages + block_pages(head, size) <= pages
}

fn is_some_held(held: &[u32], first: u64, end: u64) -> bool
    ensures { result ≡ list_any (is_held held.now) (range_with_len first (end - first)) }
{
    (first..end).any(|page| is_held(held, page))
}

fn holds_some(state: &State, run: Run) -> bool
    requires { run.first + run.count < 2 ^ 63 }
    ensures { result ≡ holds_some state.now (run_in run) }
{
    is_some_held(&state.held, run.first, run.first + run.count)
}

// How it comes to have the pages behind it.
fn way_over(head: &Head, pool: u32, state: &State, run: Run) -> Result<Way, AllocError>
    requires { run.first + run.count < 2 ^ 63 }
    ensures { IfOk result (λ way. way_in way ≡
        way_over (rules_of head.now pool) state.now (run_in run)) }
{
    let used = uses(head, pool, state)?;
    if is_free_run(&used, &state.held, run.count, run.first) {
        Ok(Way::Grows)
    } else if holds_some(state, run) {
        Ok(Way::Moves)
    } else {
        Ok(Way::Claims)
    }
}

fn way_by_pages(
    head: &Head,
    pool: u32,
    state: &State,
    block: Block,
    size: u64,
) -> Result<Way, AllocError>
    ensures { IfOk result (λ way. way_in way ≡
        way_by_pages (rules_of head.now pool) state.now block size) }
{
    let old = pages_of(block.size);
    let new = pages_of(size);
    if new == old {
        Ok(Way::Stays)
    } else if new < old {
        Ok(Way::Shrinks)
    } else if fits_in_zone(head, pool, block, size) {
        way_over(head, pool, state, pages_after(head, pool, block, size))
    } else {
        Ok(Way::Moves)
    }
}

// By the class of the old size and that of the new one, where they have one.
fn way_by_class(
    head: &Head,
    pool: u32,
    state: &State,
    block: Block,
    size: u64,
    old: Option<u32>,
    new: Option<u32>,
) -> Result<Way, AllocError>
    ensures { IfOk result (λ way. way_in way ≡
        way_by_class (rules_of head.now pool) state.now block size old new) }
{
    match (old, new) {
        (Some(old), Some(new)) if new == old => Ok(Way::Stays),
        (None, None) => way_by_pages(head, pool, state, block, size),
        _ => Ok(Way::Moves),
    }
}

/// How the block comes to the size.
pub(super) fn way_to(
    head: &Head,
    pool: u32,
    state: &State,
    block: Block,
    size: u64,
) -> Result<Way, AllocError>
    ensures { IfOk result (λ found. way_in found ≡
        way (rules_of head.now pool) state.now block size) }
{
    if head.opts.always_move {
        return Ok(Way::Moves);
    }
    let old = size_class(head, block.size);
    let new = size_class(head, size);
    way_by_class(head, pool, state, block, size, old, new)
}
