//! The moving of a live block: another one is placed, what both sizes have in common is copied, and the old one
//! leaves. Nothing is entered into the journal here.
ghost use Rattle.om_pool.specs.PoolView.{claim_moves};
ghost use Rattle.std.specs.Prelude.{◌≡◌, ◌-◌, ◌^◌, ◌<◌, ◌≤◌, false, length, Some, None, IsSome};
ghost use Rattle.om_model.specs.Pool.Malloc.{is_too_large};
ghost use Rattle.om_model.specs.Pool.Standing.{block_at};
ghost use Rattle.om_model.specs.Pool.State.{State};
ghost use Rattle.om_pool.specs.CoreKept.{IsLookRoom};
ghost use Rattle.om_pool.specs.HoldingsView.{rules_in};
ghost use Rattle.om_pool.specs.Moving.{moving_by, resize_in, resize_of, Copies, HasLiveUnderway, MovesTo, StandsAs, StandsUnderway};
ghost use Rattle.om_pool.specs.Underway.{HasComeTo};

use crate::free::slot_by;
use crate::malloc::block_or_null;
use crate::placing::Placing;
use crate::pool_core::Core;
use om_broker::Broker;
use om_delay::Changed;
use om_geom::Addr;
use om_model::{Block, Drawn, Fault, LookList, Move, Place, Reply};
use std::sync::Wait;

/// What the call of a moving block answers, the words that it drew, and what the zones answered.
#[derive(Drop)]
pub(crate) struct Moving {
    pub(crate) reply: Reply,
    pub(crate) words: Drawn,
    pub(crate) looks: LookList,
    pub(crate) claim: Option<Move>,
    pub(crate) release: Option<Move>,
}

/// A live block to which another size is given. A chunk has its place.
#[derive(Clone, Copy)]
pub(crate) struct Live {
    pub(crate) block: Block,
    pub(crate) place: Option<Place>,
}

impl Core {
    /// The live block gets another size and site at another address.
    pub(crate) fn relocate<R: Wait, B: Broker>(
        &mut self,
        rt: &R,
        broker: &mut B,
        live: Live,
        size: u64,
        site: u64,
    ) -> Moving
        requires come { StandsUnderway B.Broker self.old broker.old live.block live.place }
        requires fits { is_too_large (rules_in self.old.state) size ≡ false }
        requires page { 1 ≤ self.old.state.chunks.spare }
        requires looks { IsSome self.old.room }
        requires empty { IsLookRoom self.old.room }
        requires drawn { self.old.state.words.place < 2 ^ 63 - 2 }
        requires moves { claim_moves ≤ B.moves_left broker.old }
        ensures moved { (state : State) → HasComeTo B.Broker self.old broker.old state
            → StandsAs (rules_in self.old.state) state live.block live.place
            → MovesTo B.Broker (rules_in self.old.state) self.new broker.old broker.new state
            (resize_in live size site) result }
        ensures empty { IsLookRoom self.new.room }
        ensures same { self.new ≡ record self.old {
          state = self.new.state;
          room = self.new.room;
        } }
    {
        let Live { block, place } = live;
        match place {
            Some(place) => self.move_chunk(rt, broker, block, place, size, site),
            None => self.move_pages(rt, broker, block, size, site),
        }
    }

    // Places a block of so many bytes, and copies to it those that it has in common with the old one.
    fn place_copy<R: Wait, B: Broker>(
        &mut self,
        rt: &R,
        broker: &mut B,
        block: Block,
        size: u64,
        site: u64,
        words: Drawn,
    ) -> Placing
        requires come { HasLiveUnderway B.Broker self.old broker.old block }
        requires fits { is_too_large (rules_in self.old.state) size ≡ false }
        requires page { 1 ≤ self.old.state.chunks.spare }
        requires looks { IsSome self.old.room }
        requires empty { IsLookRoom self.old.room }
        requires drawn { self.old.state.words.place < 2 ^ 63 - 1 }
        requires few { length words ≤ 2 }
        requires moves { claim_moves ≤ B.moves_left broker.old }
        ensures copies { (state : State) → HasComeTo B.Broker self.old broker.old state
            → block_at state block.address ≡ Some block
            → Copies B.Broker self.old self.new broker.old broker.new state block size site words
            result }
        ensures empty { IsLookRoom self.new.room }
        ensures same { self.new ≡ record self.old {
          state = self.new.state;
          room = self.new.room;
        } }
    {
        let placing = self.place_block(rt, broker, size, site, words);
        let Some(to) = placing.address else {
            return placing;
        };
        let len = block.size.min(size) as u32;
        self.state.shelf.copy(Addr(block.address), Addr(to), len);
        placing
    }

    // A chunk moves. The word for its slot is drawn first, and a write after free is told.
    fn move_chunk<R: Wait, B: Broker>(
        &mut self,
        rt: &R,
        broker: &mut B,
        block: Block,
        place: Place,
        size: u64,
        site: u64,
    ) -> Moving
        requires come { StandsUnderway B.Broker self.old broker.old block (Some place) }
        requires fits { is_too_large (rules_in self.old.state) size ≡ false }
        requires page { 1 ≤ self.old.state.chunks.spare }
        requires looks { IsSome self.old.room }
        requires empty { IsLookRoom self.old.room }
        requires drawn { self.old.state.words.place < 2 ^ 63 - 2 }
        requires moves { claim_moves ≤ B.moves_left broker.old }
        ensures moved { (state : State) → HasComeTo B.Broker self.old broker.old state
            → StandsAs (rules_in self.old.state) state block (Some place)
            → MovesTo B.Broker (rules_in self.old.state) self.new broker.old broker.new state
            (resize_of block (Some place) size site) result }
        ensures empty { IsLookRoom self.new.room }
        ensures same { self.new ≡ record self.old {
          state = self.new.state;
          room = self.new.room;
        } }
    {
        let word = self.state.draw();
        let slot = slot_by(word);
        if let Some(Changed { addr, offset }) = self.state.written_late(slot) {
            return Moving {
                reply: Reply::Fault(Fault::WriteAfterFree { addr, offset }),
                words: Drawn::one(word),
                looks: LookList::empty(self.alloc),
                claim: None,
                release: None,
            };
        }
        let placing = self.place_copy(rt, broker, block, size, site, Drawn::one(word));
        if placing.address.is_none() {
            return answer_by(self.state.opts.xmalloc, placing, None);
        }
        let release = self.move_to_slot(rt, broker, place, slot);
        answer_by(self.state.opts.xmalloc, placing, release)
    }

    // A block of whole pages moves.
    fn move_pages<R: Wait, B: Broker>(
        &mut self,
        rt: &R,
        broker: &mut B,
        block: Block,
        size: u64,
        site: u64,
    ) -> Moving
        requires come { StandsUnderway B.Broker self.old broker.old block None }
        requires fits { is_too_large (rules_in self.old.state) size ≡ false }
        requires page { 1 ≤ self.old.state.chunks.spare }
        requires looks { IsSome self.old.room }
        requires empty { IsLookRoom self.old.room }
        requires drawn { self.old.state.words.place < 2 ^ 63 - 2 }
        requires moves { claim_moves ≤ B.moves_left broker.old }
        ensures moved { (state : State) → HasComeTo B.Broker self.old broker.old state
            → StandsAs (rules_in self.old.state) state block None
            → MovesTo B.Broker (rules_in self.old.state) self.new broker.old broker.new state
            (resize_of block None size site) result }
        ensures empty { IsLookRoom self.new.room }
        ensures same { self.new ≡ record self.old {
          state = self.new.state;
          room = self.new.room;
        } }
    {
        let placing = self.place_copy(rt, broker, block, size, site, Drawn::empty());
        if placing.address.is_none() {
            return answer_by(self.state.opts.xmalloc, placing, None);
        }
        let release = self.leave_block(rt, broker, block);
        answer_by(self.state.opts.xmalloc, placing, release)
    }
}

// What the call answers once the block was placed, or no run was found for it.
fn answer_by(xmalloc: bool, placing: Placing, release: Option<Move>) -> Moving
    ensures { result ≡ moving_by xmalloc placing release }
{
    Moving {
        reply: block_or_null(xmalloc, placing.address),
        words: placing.words,
        looks: placing.looks,
        claim: placing.claim,
        release,
    }
}
