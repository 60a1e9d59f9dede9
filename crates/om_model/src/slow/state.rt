//! The state of a pool: the pages that it holds, its live blocks, its slots, how many words it has drawn, and its
//! memory.
ghost use Rattle.std.specs.Prelude.{◌≡◌, ◌+◌, ◌-◌, ◌^◌, ◌<◌, ◌&&◌, ◌++◌, nat_le, nat_lt, filter, IfOk};
ghost use Rattle.std.specs.List.{range_with_len};
ghost use Rattle.om_geom.specs.Addresses.{is_in_arena, page_at};
ghost use Rattle.om_model.specs.Output.Head.{rules_of};
ghost use Rattle.om_model.specs.Pool.State.{opening, delayed, is_held, with_run, without_run, with_pages, without_pages};
ghost use Rattle.om_model.specs.Pool.Runs.{is_page_of};
ghost use Rattle.om_model.specs.Slow.{run_in};

use super::in_use::page_of;
use super::memory::Memory;
use super::steps::Run;
use crate::block::{Block, Place};
use crate::content::Head;
use om_delay::SLOT_COUNT;
use om_geom::{FIRST_ADDRESS, PAGE_SIZE, ZONE_PAGES};
use std::alloc::{AllocError, Global};
use std::marker::Model;

/// A pool's state.
#[derive(Drop)]
pub struct State {
    pub alloc: Global,
    /// The held pages, in ascending order.
    pub held: Vec<u32>,
    pub live: Vec<Block>,
    /// Each has a delayed place or nothing.
    pub slots: [Option<Place>; SLOT_COUNT],
    /// How many random words are drawn.
    pub drawn: u64,
    pub memory: Memory,
}

impl Model for State {
    ghost use Rattle.om_model.specs.Pool.State;

    ghost Value = { State.State };

    ghost view = { λ s. record {
      held = s.held.items;
      live = s.live.items;
      slots = s.slots;
      drawn = s.drawn;
      memory = s.memory;
    } };
}

impl State {
    /// The state at the start, where nothing is held. The first word is drawn for the canary byte.
    pub fn opening(alloc: Global, head: &Head, pool: u32) -> Result<State, AllocError>
        ensures { IfOk result (λ state. state ≡ opening (rules_of head.now pool)) }
    {
        Ok(State {
            alloc,
            held: Vec::new(alloc),
            live: Vec::new(alloc),
            slots: [None; SLOT_COUNT],
            drawn: 1,
            memory: Memory::new(alloc, head.zones)?,
        })
    }

    /// The same state once more.
    pub fn copy(&self) -> Result<State, AllocError>
        ensures { IfOk result (λ state. state ≡ self.now) }
    {
        Ok(State {
            alloc: self.alloc,
            held: Vec::from_slice(self.alloc, &self.held)?,
            live: Vec::from_slice(self.alloc, &self.live)?,
            slots: self.slots,
            drawn: self.drawn,
            memory: self.memory.copy()?,
        })
    }

    /// The delayed places, in the order of their slots.
    pub fn delayed(&self) -> Result<Vec<Place>, AllocError>
        ensures { IfOk result (λ places. places.items ≡ delayed self.now.slots) }
    {
        self.slots
            .iter()
            .filter_map(|slot| *slot)
            .collect(self.alloc)
    }

    /// The pages of a run join the held ones, with zeros as their bytes.
    pub(super) fn with_pages(mut self, first: u32, count: u32) -> Result<State, AllocError>
        requires { first + count < 2 ^ 32 }
        ensures { IfOk result (λ state. state ≡
            with_pages (record { first = first; count = count }) self) }
    {
        self.held = with_run(self.alloc, first, count, &self.held)?;
        self.memory.add_zeros(first, count)?;
        Ok(self)
    }

    /// The pages of a run leave with their bytes.
    pub(super) fn without_pages(mut self, run: Run) -> Result<State, AllocError>
        ensures { IfOk result (λ state. state ≡ without_pages (run_in run) self) }
    {
        self.held = without_run(self.alloc, run, &self.held)?;
        self.memory.remove(run.first, run.count);
        Ok(self)
    }

    /// Whether the address is on a held page of an arena of so many zones.
    pub fn holds(&self, zones: u32, address: u64) -> bool
        ensures { result ≡ (is_in_arena address zones
            && is_held self.now.held (page_at address)) }
    {
        is_in_arena(zones, address) && is_held(&self.held, page_at(address))
    }
}

/// The page on which an address of the arena lies.
pub(super) fn page_at(address: u64) -> u64
    ensures { result ≡ page_at address }
{
    page_of(u128::from(address))
}

fn is_in_arena(zones: u32, address: u64) -> bool
    ensures { result ≡ is_in_arena address zones }
{
    let pages = u64::from(ZONE_PAGES) * u64::from(zones);
    FIRST_ADDRESS <= address && address < FIRST_ADDRESS + u64::from(PAGE_SIZE) * pages
}

pub(super) fn is_held(held: &[u32], page: u64) -> bool
    ensures { result ≡ is_held held.now page }
{
    held.iter().any(|other| page == u64::from(*other))
}

// The pages below the first, those from the first to the end, and those from the end on.
fn parted(alloc: Global, first: u32, end: u32, held: &[u32]) -> Result<Vec<u32>, AllocError>
    ensures { IfOk result (λ pages. pages.items ≡ filter (λ page. nat_lt page first) held.now
        ++ range_with_len first (end - first) ++ filter (λ page. nat_le end page) held.now) }
{
    held.iter()
        .copied()
        .filter(|page| *page < first)
        .chain(first..end)
        .chain(held.iter().copied().filter(|page| end <= *page))
        .collect(alloc)
}

// The held pages with those of a run, in ascending order again.
fn with_run(alloc: Global, first: u32, count: u32, held: &[u32]) -> Result<Vec<u32>, AllocError>
    requires { first + count < 2 ^ 32 }
    ensures { IfOk result (λ pages. pages.items ≡
        with_run (record { first = first; count = count }) held.now) }
{
    parted(alloc, first, first + count, held)
}

fn is_page_of(run: Run, page: u32) -> bool
    ensures { result ≡ is_page_of (run_in run) page }
{
    run.first <= u64::from(page) && u128::from(page) < u128::from(run.first) + u128::from(run.count)
}

// The held pages but those of a run.
fn without_run(alloc: Global, run: Run, held: &[u32]) -> Result<Vec<u32>, AllocError>
    ensures { IfOk result (λ pages. pages.items ≡ without_run (run_in run) held.now) }
{
    held.iter()
        .copied()
        .filter(|page| !is_page_of(run, *page))
        .collect(alloc)
}
