//! The leaving of a block: a place waits in a slot and is filled, a page block is filled and its pages become
//! free. Neither draws a word, and neither is entered into the journal here.
ghost use Rattle.std.specs.Prelude.{◌≡◌, ◌+◌, ◌<◌, ◌≤◌};
ghost use Rattle.om_delay.specs.Slots.{slot_count};
ghost use Rattle.om_geom.specs.Addresses.{bit_of};
ghost use Rattle.om_geom.specs.Numbers.{zone_pages};
ghost use Rattle.om_model.specs.Pool.Free.{kept_or_let_go, moved_to_slot, without_page_block};
ghost use Rattle.om_model.specs.Pool.State.{State};
ghost use Rattle.om_model.specs.declared.block.Block.{Block};
ghost use Rattle.om_pages.specs.Kinds.{is_free};
ghost use Rattle.om_pages.specs.Tables.{AreAll};
ghost use Rattle.om_pool.specs.HoldingsView.{rules_in};
ghost use Rattle.om_pool.specs.Leaving.{HasBlockUnderway, HasPlaceUnderway, IsPagesOf, IsPlaceOf, LeavesTo};
ghost use Rattle.om_pool.specs.Underway.{HasComeTo, IsUnderway};

use crate::holdings::page_at;
use crate::pool_core::Core;
use om_broker::Broker;
use om_geom::{Page, pages_of};
use om_model::{Block, Move, Place};
use std::sync::Wait;

impl Core {
    /// A live place enters the slot and is filled, and what the slot had is evicted: where its page has
    /// nothing left, it becomes free.
    pub(crate) fn move_to_slot<R: Wait, B: Broker>(
        &mut self,
        rt: &R,
        broker: &mut B,
        place: Place,
        slot: u32,
    ) -> Option<Move>
        requires slot { slot < slot_count }
        requires come { HasPlaceUnderway B.Broker self.old broker.old place }
        ensures left { (state : State) → HasComeTo B.Broker self.old broker.old state
            → (block : Block) → IsPlaceOf (rules_in self.old.state) state place block
            → LeavesTo B.Broker self.old self.new broker.old broker.new state
            (moved_to_slot (rules_in self.old.state) state slot place) result }
        ensures same { self.new ≡ record self.old { state = self.new.state } }
    {
        let before = self.state.delay(place, slot);
        self.state.fill_freed(place);
        let gone = before?;
        if !self.state.set_free(gone.first) {
            return None;
        }
        self.keep_or_release(rt, broker, Page(page_at(gone.first) as u32), 1)
    }

    /// A page block leaves and is filled. Its pages become free, with its guard.
    pub(crate) fn leave_block<R: Wait, B: Broker>(
        &mut self,
        rt: &R,
        broker: &mut B,
        block: Block,
    ) -> Option<Move>
        requires come { HasBlockUnderway B.Broker self.old broker.old block }
        ensures left { (state : State) → HasComeTo B.Broker self.old broker.old state
            → IsPagesOf (rules_in self.old.state) state block
            → LeavesTo B.Broker self.old self.new broker.old broker.new state
            (without_page_block (rules_in self.old.state) state block) result }
        ensures same { self.new ≡ record self.old { state = self.new.state } }
    {
        let first = Page(page_at(block.address) as u32);
        let pages = pages_of(block.size) as u32;
        let n = self.state.with_guard(pages);
        self.state.fill_freed_pages(first, pages);
        self.state.free_pages(first, n);
        self.keep_or_release(rt, broker, first, n)
    }

    /// Pages became free. They stay, or are let go as one where they are surplus.
    pub(crate) fn keep_or_release<R: Wait, B: Broker>(
        &mut self,
        rt: &R,
        broker: &mut B,
        first: Page,
        n: u32,
    ) -> Option<Move>
        requires some { 1 ≤ n }
        requires one_zone { bit_of first.0 + n ≤ zone_pages }
        requires come { IsUnderway B.Broker self.old broker.old }
        requires free { AreAll is_free self.old.state.pages first.0 n }
        ensures left { (state : State) → HasComeTo B.Broker self.old broker.old state
            → LeavesTo B.Broker self.old self.new broker.old broker.new state
            (kept_or_let_go (rules_in self.old.state) state
            (record { first = first.0; count = n })) result }
        ensures same { self.new ≡ record self.old { state = self.new.state } }
    {
        if !self.state.is_surplus() {
            return None;
        }
        let frames = self.state.leave(first, n);
        Some(broker.release(rt, frames))
    }
}
