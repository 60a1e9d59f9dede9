//! Realloc of an address: a live block gets another size, where it is or at another address.
ghost use Rattle.om_pool.specs.PoolView.{call_moves};
ghost use Rattle.std.specs.Prelude.{◌≡◌, ◌*◌, ◌-◌, ◌^◌, ◌<◌, ◌≤◌, false, [], ◌∷◌, ◌++◌, length};
ghost use Rattle.om_model.specs.Pool.Malloc.{is_too_large};
ghost use Rattle.om_model.specs.Pool.Resizing.{Claims, Moves};
ghost use Rattle.om_model.specs.declared.entry.Entry.TheVariants.{Call};
ghost use Rattle.om_pool.specs.CoreKept.{core_state, IsBackedCore, IsCore, HasRoom};
ghost use Rattle.om_pool.specs.HoldingsView.{rules_in};
ghost use Rattle.om_pool.specs.Unasked.{unasked_entry};
ghost use Rattle.om_pool.specs.Realloc.{moving_entry, grown_entry, FindsBlock, FindsIfFits, IsAsk, IsResizable, IsToResize, Reallocs, ReallocsArray};

use crate::calloc::product;
use crate::in_place::Growth;
use crate::malloc::null_or_fault;
use crate::moving::{Live, Moving};
use crate::pool_core::Core;
use crate::resizing::Way;
use crate::standing::Standing;
use om_broker::Broker;
use om_geom::Class;
use om_model::{CallEntry, Drawn, Fault, Look, LookList, Move, Op, Reply, Who, Why};
use std::sync::Wait;

/// Who asks for another size of a block, as what this is entered, and the size and the site that the block is to
/// have.
#[derive(Clone, Copy)]
pub(crate) struct Ask {
    pub(crate) who: Who,
    pub(crate) op: Op,
    pub(crate) size: u64,
    pub(crate) site: u64,
}

impl Core {
    // The live block at the address to which the size can be given, or else what is answered.
    fn resizable(&self, address: u64, size: u64) -> Result<Live, Reply>
        requires kept { IsCore self.now }
        ensures { FindsBlock self.now address size result }
    {
        match self.state.standing(address) {
            Standing::PageBlock { block } => self.if_fits(Live { block, place: None }, size),
            Standing::LivePlace { place, block } => {
                match self
                    .state
                    .broken_canary(block, Class(place.class), self.canary)
                {
                    Some(offset) => Err(Reply::Fault(Fault::Canary { offset })),
                    None => self.if_fits(
                        Live {
                            block,
                            place: Some(place),
                        },
                        size,
                    ),
                }
            }
            Standing::DelayedPlace { .. } => Err(Reply::Fault(Fault::DoubleFree)),
            Standing::NotHeld => Err(Reply::Miss),
            Standing::FreePage | Standing::InPageBlock | Standing::OnGuard => {
                Err(Reply::Fault(Fault::Bogus))
            }
            Standing::Unaligned => Err(Reply::Fault(Fault::ModifiedPointer)),
            Standing::FreePlace => Err(Reply::Fault(Fault::AlreadyFree)),
        }
    }

    // The live block, or that the size is too large.
    fn if_fits(&self, live: Live, size: u64) -> Result<Live, Reply>
        ensures { FindsIfFits (rules_in self.now.state) live size result }
    {
        if self.state.is_too_large(size) {
            Err(null_or_fault(self.state.opts.xmalloc, Why::TooLarge))
        } else {
            Ok(live)
        }
    }

    /// Gives another size to the block at an address, as realloc(3).
    pub(crate) fn realloc<R: Wait, B: Broker>(
        &mut self,
        rt: &R,
        broker: &mut B,
        ask: Ask,
        address: u64,
    ) -> Reply
        requires kept { IsCore self.old }
        requires backed { IsBackedCore B.Broker self.old broker.old }
        requires room { HasRoom self.old }
        requires moves { call_moves ≤ B.moves_left broker.old }
        requires op { IsAsk self.old ask address }
        ensures { Reallocs B.Broker self.old self.new broker.old broker.new ask address result }
    {
        match self.resizable(address, ask.size) {
            Ok(live) => self.resize(rt, broker, ask, live),
            Err(reply) => {
                self.enter_unasked(ask.who, ask.op, reply, Drawn::empty(), None);
                reply
            }
        }
    }

    /// Gives another size, that of `count` items of `size` bytes each, to the block at an address, as
    /// reallocarray(3).
    pub(crate) fn reallocarray<R: Wait, B: Broker>(
        &mut self,
        rt: &R,
        broker: &mut B,
        who: Who,
        address: u64,
        count: u64,
        size: u64,
        site: u64,
    ) -> Reply
        requires kept { IsCore self.old }
        requires backed { IsBackedCore B.Broker self.old broker.old }
        requires room { HasRoom self.old }
        requires moves { call_moves ≤ B.moves_left broker.old }
        requires overflows { address ≡ 0 → 2 ^ 64 ≤ count * size }
        ensures { ReallocsArray B.Broker self.old self.new broker.old broker.new who address count
            size site result }
    {
        let op = Op::Reallocarray {
            addr: address,
            count,
            size,
            site,
        };
        let Some(size) = product(count, size) else {
            return self.refuse(who, op, Why::Overflow);
        };
        let ask = Ask {
            who,
            op,
            size,
            site,
        };
        self.realloc(rt, broker, ask, address)
    }

    // By the way in which the block comes to the size.
    fn resize<R: Wait, B: Broker>(&mut self, rt: &R, broker: &mut B, ask: Ask, live: Live) -> Reply
        requires kept { IsCore self.old }
        requires backed { IsBackedCore B.Broker self.old broker.old }
        requires room { HasRoom self.old }
        requires moves { call_moves ≤ B.moves_left broker.old }
        requires op { IsAsk self.old ask live.block.address }
        requires is { IsResizable self.old live.block.address ask.size live }
        ensures { Reallocs B.Broker self.old self.new broker.old broker.new ask
            live.block.address result }
    {
        let block = live.block;
        match self.state.way(block, ask.size) {
            Way::Stays => {
                self.state.stay(block, ask.size, ask.site, self.canary);
                self.enter_kept(ask, block.address, None)
            }
            Way::Shrinks => {
                let release = self.shrink(rt, broker, block, ask.size, ask.site);
                self.enter_kept(ask, block.address, release)
            }
            Way::Grows => {
                self.state.grow(block, ask.size, ask.site);
                self.enter_kept(ask, block.address, None)
            }
            Way::Claims => self.claim_or_move(rt, broker, ask, live),
            Way::Moves => self.move_block(rt, broker, ask, live),
        }
    }

    // The pages after the block are claimed, and where one of them is held it moves.
    fn claim_or_move<R: Wait, B: Broker>(
        &mut self,
        rt: &R,
        broker: &mut B,
        ask: Ask,
        live: Live,
    ) -> Reply
        requires kept { IsCore self.old }
        requires backed { IsBackedCore B.Broker self.old broker.old }
        requires room { HasRoom self.old }
        requires moves { call_moves ≤ B.moves_left broker.old }
        requires is { IsToResize self.old ask live Claims }
        ensures { Reallocs B.Broker self.old self.new broker.old broker.new ask
            live.block.address result }
    {
        match self.claim_after(rt, broker, live.block, ask.size, ask.site) {
            Growth::Grown(claim) => self.enter_grown(ask, live.block.address, claim),
            Growth::Taken(look) => {
                let moving = self.relocate(rt, broker, live, ask.size, ask.site);
                let reply = moving.reply;
                self.enter_moving(ask, moving, Some(look));
                reply
            }
        }
    }

    // Adds the entry of a call whose block grew over claimed pages.
    fn enter_grown(&mut self, ask: Ask, address: u64, claim: Move) -> Reply
        requires short { length self.old.journal.items < 2 ^ 32 - 1 }
        requires room { 1 ≤ self.old.journal.spare }
        ensures reply { result ≡ Reply.Block address }
        ensures added { self.new.journal.items ≡ self.old.journal.items
            ++ Call (grown_entry ask result claim) ∷ [] }
        ensures same { self.new ≡ record self.old { journal = self.new.journal } }
    {
        let reply = Reply::Block(address);
        let looks = LookList::empty(self.alloc);
        self.enter(CallEntry {
            who: ask.who,
            op: ask.op,
            reply,
            words: Drawn::empty(),
            looks,
            taken: None,
            claim: Some(claim),
            release: None,
        });
        reply
    }

    // Adds the entry of a call whose block keeps its address.
    fn enter_kept(&mut self, ask: Ask, address: u64, release: Option<Move>) -> Reply
        requires short { length self.old.journal.items < 2 ^ 32 - 1 }
        requires room { 1 ≤ self.old.journal.spare }
        ensures reply { result ≡ Reply.Block address }
        ensures added { self.new.journal.items ≡ self.old.journal.items
            ++ Call (unasked_entry ask.who ask.op result [] release) ∷ [] }
        ensures same { self.new ≡ record self.old { journal = self.new.journal } }
    {
        let reply = Reply::Block(address);
        self.enter_unasked(ask.who, ask.op, reply, Drawn::empty(), release);
        reply
    }

    // The block moves.
    fn move_block<R: Wait, B: Broker>(
        &mut self,
        rt: &R,
        broker: &mut B,
        ask: Ask,
        live: Live,
    ) -> Reply
        requires kept { IsCore self.old }
        requires backed { IsBackedCore B.Broker self.old broker.old }
        requires room { HasRoom self.old }
        requires moves { call_moves ≤ B.moves_left broker.old }
        requires is { IsToResize self.old ask live Moves }
        ensures { Reallocs B.Broker self.old self.new broker.old broker.new ask
            live.block.address result }
    {
        let moving = self.relocate(rt, broker, live, ask.size, ask.site);
        let reply = moving.reply;
        self.enter_moving(ask, moving, None);
        reply
    }

    // Adds the entry of a call that moved a block, or tried to.
    fn enter_moving(&mut self, ask: Ask, moving: Moving, taken: Option<Look>)
        requires short { length self.old.journal.items < 2 ^ 32 - 1 }
        requires room { 1 ≤ self.old.journal.spare }
        ensures added { self.new.journal.items ≡ self.old.journal.items
            ++ Call (moving_entry ask moving taken) ∷ [] }
        ensures same { self.new ≡ record self.old { journal = self.new.journal } }
    {
        self.enter(CallEntry {
            who: ask.who,
            op: ask.op,
            reply: moving.reply,
            words: moving.words,
            looks: moving.looks,
            taken,
            claim: moving.claim,
            release: moving.release,
        });
    }
}
