//! A page block comes to a new size at its address. No word is drawn, and nothing is entered into the journal here.
ghost use Rattle.om_pool.specs.PoolView.{claim_moves};
ghost use Rattle.std.specs.Prelude.{◌≡◌, ◌+◌, ◌≤◌, None};
ghost use Rattle.om_geom.specs.Numbers.{most_zones};
ghost use Rattle.om_model.specs.Pool.Free.{kept_or_let_go};
ghost use Rattle.om_model.specs.Pool.Realloc.{grown, resized, stayed};
ghost use Rattle.om_model.specs.Pool.Resizing.{Stays, Shrinks, Grows, Claims, last_pages};
ghost use Rattle.om_model.specs.Pool.Rules.{canary_byte};
ghost use Rattle.om_model.specs.Pool.State.{State};
ghost use Rattle.om_pool.specs.HoldingsView.{rules_in, tables_in, IsSameBut};
ghost use Rattle.om_pool.specs.InPlace.{resize_to, ClaimsAfter, ComesBy, HasWayUnderway, StandsWith};
ghost use Rattle.om_pool.specs.Leaving.{LeavesTo};
ghost use Rattle.om_pool.specs.Tables.{StandFor};
ghost use Rattle.om_pool.specs.Underway.{HasComeTo};

use crate::blocks::Request;
use crate::holdings::{Holdings, page_at};
use crate::pool_core::Core;
use om_broker::{Broker, ClaimAt};
use om_geom::{Page, ZONE_PAGES, Zone, class_of, pages_of};
use om_model::{Block, Look, Move};
use std::sync::Wait;

/// What became of a block that was to grow over claimed pages: it grew over those of the claim, or one of them was
/// found held at the look.
#[derive(Drop)]
pub(crate) enum Growth {
    Grown(Move),
    Taken(Look),
}

impl Core {
    /// A page block gives up its last pages. They are kept, or let go as one where they are surplus.
    pub(crate) fn shrink<R: Wait, B: Broker>(
        &mut self,
        rt: &R,
        broker: &mut B,
        block: Block,
        size: u64,
        site: u64,
    ) -> Option<Move>
        requires come { HasWayUnderway B.Broker self.old broker.old block size Shrinks }
        ensures left { (state : State) → HasComeTo B.Broker self.old broker.old state
            → ComesBy (rules_in self.old.state) state block size Shrinks
            → LeavesTo B.Broker self.old self.new broker.old broker.new state
            (kept_or_let_go (rules_in self.old.state) (resized (resize_to block size site) state)
            (last_pages (rules_in self.old.state) block size)) result }
        ensures same { self.new ≡ record self.old { state = self.new.state } }
    {
        let first = Page(page_at(block.address) as u32);
        let old = pages_of(block.size) as u32;
        let new = pages_of(size) as u32;
        let request = Request { size, site };
        self.state.shrink_block(first, old, new, request);
        let kept = self.state.with_guard(new);
        self.keep_or_release(rt, broker, Page(first.0 + kept), old - new)
    }

    /// A page block grows over the pages after it, if they can be claimed.
    pub(crate) fn claim_after<R: Wait, B: Broker>(
        &mut self,
        rt: &R,
        broker: &mut B,
        block: Block,
        size: u64,
        site: u64,
    ) -> Growth
        requires come { HasWayUnderway B.Broker self.old broker.old block size Claims }
        requires moves { claim_moves ≤ B.moves_left broker.old }
        ensures grown { (state : State) → HasComeTo B.Broker self.old broker.old state
            → ComesBy (rules_in self.old.state) state block size Claims
            → ClaimsAfter B.Broker self.old self.new broker.old broker.new state block size site
            result }
        ensures same { self.new ≡ record self.old { state = self.new.state } }
    {
        let first = Page(page_at(block.address) as u32);
        let old = pages_of(block.size) as u32;
        let new = pages_of(size) as u32;
        let after = first.0 + self.state.with_guard(old);
        let zone = Zone(after / ZONE_PAGES);
        match broker.claim_at(rt, zone, after % ZONE_PAGES, new - old) {
            ClaimAt::Claimed { at, frames } => {
                let request = Request { size, site };
                self.state.grow_claimed(first, old, new, frames, request);
                Growth::Grown(at)
            }
            ClaimAt::Taken(look) => Growth::Taken(look),
        }
    }
}

impl Holdings {
    /// A block stays as it is. Canaries are written anew behind a chunk.
    pub(crate) fn stay(&mut self, block: Block, size: u64, site: u64, canary: u8)
        requires few { self.old.zones ≤ most_zones }
        requires byte { canary ≡ canary_byte (rules_in self.old) }
        requires stands { (state : State) × StandsWith (rules_in self.old) (tables_in self.old) state
            block size Stays }
        ensures stands { (state : State)
            → StandsWith (rules_in self.old) (tables_in self.old) state block size Stays
            → StandFor (rules_in self.old) (tables_in self.new)
            (stayed (rules_in self.old) state (resize_to block size site)).next }
        ensures same { IsSameBut self.old self.new }
    {
        let address = block.address;
        match class_of(size, self.opts.canary) {
            Some(class) => {
                let block = Block {
                    address,
                    size,
                    site,
                };
                self.keep_chunk(block, class, canary);
            }
            None => self.keep_block(Page(page_at(address) as u32), Request { size, site }),
        }
    }

    /// A page block grows over the pages after it, which are free pages of the pool.
    pub(crate) fn grow(&mut self, block: Block, size: u64, site: u64)
        requires few { self.old.zones ≤ most_zones }
        requires stands { (state : State) × StandsWith (rules_in self.old) (tables_in self.old) state
            block size Grows }
        ensures stands { (state : State)
            → StandsWith (rules_in self.old) (tables_in self.old) state block size Grows
            → StandFor (rules_in self.old) (tables_in self.new)
            (grown (rules_in self.old) state (resize_to block size site)).next }
        ensures same { IsSameBut self.old self.new }
    {
        let first = Page(page_at(block.address) as u32);
        let old = pages_of(block.size) as u32;
        let new = pages_of(size) as u32;
        let request = Request { size, site };
        self.grow_block(first, old, new, request);
    }
}
