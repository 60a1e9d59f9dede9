//! Free of an address, by what stands there.
ghost use Rattle.std.specs.Prelude.{◌≡◌, ◌-◌, ◌%◌, ◌^◌, ◌<◌, ◌≤◌, [], ◌∷◌, ◌++◌, None, length, false, if◌then◌else◌};
ghost use Rattle.om_delay.specs.Slots.{slot_count};
ghost use Rattle.om_model.specs.Pool.Free.{freed_again, told};
ghost use Rattle.om_model.specs.Pool.Steps.{unchanged};
ghost use Rattle.om_model.specs.declared.entry.Entry.TheVariants.{Call};
ghost use Rattle.om_pool.specs.CoreKept.{core_state, view_of, IsBackedCore, IsCore, HasRoom};
ghost use Rattle.om_pool.specs.Free.{FreeIs, Frees, IsBlockAt, IsLiveAt, IsWholeAt};
ghost use Rattle.om_pool.specs.HoldingsView.{rules_in};
ghost use Rattle.om_pool.specs.PoolView.{says_no_run, UsesBroker};
ghost use Rattle.om_pool.specs.Unasked.{unasked_entry, IsQuiet};

use crate::pool_core::Core;
use crate::standing::Standing;
use om_broker::Broker;
use om_delay::{Changed, SLOT_COUNT};
use om_geom::Class;
use om_model::{Block, Drawn, Fault, Move, Op, Place, Reply, Who};
use std::sync::Wait;

impl Core {
    /// Frees an address, as free(3).
    pub(crate) fn free<R: Wait, B: Broker>(
        &mut self,
        rt: &R,
        broker: &mut B,
        who: Who,
        address: u64,
    ) -> Reply
        requires kept { IsCore self.old }
        requires backed { IsBackedCore B.Broker self.old broker.old }
        requires room { HasRoom self.old }
        ensures kept { IsCore self.new }
        ensures backed { IsBackedCore B.Broker self.new broker.new }
        ensures uses { UsesBroker B.Broker (view_of self.old broker.old)
            (view_of self.new broker.new) result }
        ensures taken { Frees self.old self.new who address result }
    {
        match self.state.standing(address) {
            Standing::NotHeld => self.answer(who, address, Reply::Miss),
            Standing::PageBlock { block } => self.free_block(rt, broker, who, address, block),
            Standing::FreePage | Standing::InPageBlock | Standing::OnGuard => {
                self.answer(who, address, Reply::Fault(Fault::Bogus))
            }
            Standing::Unaligned => self.answer(who, address, Reply::Fault(Fault::ModifiedPointer)),
            Standing::FreePlace => self.answer(who, address, Reply::Fault(Fault::AlreadyFree)),
            Standing::DelayedPlace { .. } => self.free_again(who, address),
            Standing::LivePlace { place, block } => {
                self.free_place(rt, broker, who, address, place, block)
            }
        }
    }

    // An answer that draws no word and changes nothing.
    fn answer(&mut self, who: Who, address: u64, reply: Reply) -> Reply
        requires kept { IsCore self.old }
        requires room { HasRoom self.old }
        requires is { FreeIs self.old address (unchanged (core_state self.old) reply) }
        ensures kept { IsCore self.new }
        ensures reply { result ≡ reply }
        ensures quiet { IsQuiet self.old self.new who (Op.Free address) result }
        ensures taken { Frees self.old self.new who address result }
    {
        self.enter_free(who, address, reply, Drawn::empty(), None);
        reply
    }

    // The place is delayed already.
    fn free_again(&mut self, who: Who, address: u64) -> Reply
        requires kept { IsCore self.old }
        requires room { HasRoom self.old }
        requires is { FreeIs self.old address
            (freed_again (rules_in self.old.state) (core_state self.old) address) }
        ensures kept { IsCore self.new }
        ensures reply { says_no_run result ≡ false }
        ensures quiet { IsQuiet self.old self.new who (Op.Free address) result }
        ensures taken { Frees self.old self.new who address result }
    {
        let word = self.state.draw();
        let reply = reply_again(self.state.sees_again(slot_by(word), address));
        self.enter_free(who, address, reply, Drawn::one(word), None);
        reply
    }

    // A live place. Where a canary behind its block was changed, that is told, and nothing else is done.
    fn free_place<R: Wait, B: Broker>(
        &mut self,
        rt: &R,
        broker: &mut B,
        who: Who,
        address: u64,
        place: Place,
        block: Block,
    ) -> Reply
        requires kept { IsCore self.old }
        requires backed { IsBackedCore B.Broker self.old broker.old }
        requires room { HasRoom self.old }
        requires live { IsLiveAt self.old address place block }
        ensures kept { IsCore self.new }
        ensures backed { IsBackedCore B.Broker self.new broker.new }
        ensures uses { UsesBroker B.Broker (view_of self.old broker.old)
            (view_of self.new broker.new) result }
        ensures taken { Frees self.old self.new who address result }
    {
        let class = Class(place.class);
        match self.state.broken_canary(block, class, self.canary) {
            Some(offset) => self.tell(who, address, Fault::Canary { offset }),
            None => self.delay(rt, broker, who, address, place),
        }
    }

    // A misuse was found. The word of the slot is drawn still.
    fn tell(&mut self, who: Who, address: u64, fault: Fault) -> Reply
        requires kept { IsCore self.old }
        requires room { HasRoom self.old }
        requires known { says_no_run (Reply.Fault fault) ≡ false }
        requires is { FreeIs self.old address (told (core_state self.old) fault) }
        ensures kept { IsCore self.new }
        ensures reply { says_no_run result ≡ false }
        ensures quiet { IsQuiet self.old self.new who (Op.Free address) result }
        ensures taken { Frees self.old self.new who address result }
    {
        let word = self.state.draw();
        let reply = Reply::Fault(fault);
        self.enter_free(who, address, reply, Drawn::one(word), None);
        reply
    }

    // A live place, behind whose block no canary was changed, is put off: it enters the slot that a word
    // chooses, and what the slot had is evicted. Where a waiting place was written, that is told, and
    // nothing else is done.
    fn delay<R: Wait, B: Broker>(
        &mut self,
        rt: &R,
        broker: &mut B,
        who: Who,
        address: u64,
        place: Place,
    ) -> Reply
        requires kept { IsCore self.old }
        requires backed { IsBackedCore B.Broker self.old broker.old }
        requires room { HasRoom self.old }
        requires whole { IsWholeAt self.old address place }
        ensures kept { IsCore self.new }
        ensures backed { IsBackedCore B.Broker self.new broker.new }
        ensures uses { UsesBroker B.Broker (view_of self.old broker.old)
            (view_of self.new broker.new) result }
        ensures taken { Frees self.old self.new who address result }
    {
        let word = self.state.draw();
        let slot = slot_by(word);
        if let Some(Changed { addr, offset }) = self.state.written_late(slot) {
            let reply = Reply::Fault(Fault::WriteAfterFree { addr, offset });
            self.enter_free(who, address, reply, Drawn::one(word), None);
            return reply;
        }
        let release = self.move_to_slot(rt, broker, place, slot);
        self.enter_free(who, address, Reply::Done, Drawn::one(word), release);
        Reply::Done
    }

    // The pages of a page block become free, with its guard. Where they are surplus they are let go.
    fn free_block<R: Wait, B: Broker>(
        &mut self,
        rt: &R,
        broker: &mut B,
        who: Who,
        address: u64,
        block: Block,
    ) -> Reply
        requires kept { IsCore self.old }
        requires backed { IsBackedCore B.Broker self.old broker.old }
        requires room { HasRoom self.old }
        requires block { IsBlockAt self.old address block }
        ensures kept { IsCore self.new }
        ensures backed { IsBackedCore B.Broker self.new broker.new }
        ensures uses { UsesBroker B.Broker (view_of self.old broker.old)
            (view_of self.new broker.new) result }
        ensures taken { Frees self.old self.new who address result }
    {
        let release = self.leave_block(rt, broker, block);
        self.enter_free(who, address, Reply::Done, Drawn::empty(), release);
        Reply::Done
    }

    fn enter_free(
        &mut self,
        who: Who,
        address: u64,
        reply: Reply,
        words: Drawn,
        release: Option<Move>,
    )
        requires short { length self.old.journal.items < 2 ^ 32 - 1 }
        requires room { 1 ≤ self.old.journal.spare }
        ensures added { self.new.journal.items ≡ self.old.journal.items
            ++ Call (unasked_entry who (Op.Free address) reply words release) ∷ [] }
        ensures same { self.new ≡ record self.old { journal = self.new.journal } }
    {
        self.enter_unasked(who, Op::Free { addr: address }, reply, words, release);
    }
}

/// The slot that a word chooses.
pub(crate) fn slot_by(word: u32) -> u32
    ensures slot { result ≡ word % slot_count }
    ensures low { result < slot_count }
{
    word % SLOT_COUNT as u32
}

// What a second free of a delayed place is answered.
fn reply_again(seen: bool) -> Reply
    ensures { result ≡ (if seen then Reply.Fault Fault.DoubleFree else Reply.Done) }
{
    if seen {
        Reply::Fault(Fault::DoubleFree)
    } else {
        Reply::Done
    }
}
