//! Allocation as in malloc(3).
ghost use Rattle.std.specs.Prelude.{◌≡◌, ◌-◌, ◌^◌, ◌<◌, ◌≤◌, [], ◌∷◌, ◌++◌, length};
ghost use Rattle.om_model.specs.Pool.Malloc.{is_too_large};
ghost use Rattle.om_model.specs.Pool.Steps.{null_or_fault_by};
ghost use Rattle.om_model.specs.declared.entry.Entry.TheVariants.{Call};
ghost use Rattle.om_pool.specs.CoreKept.{core_view, view_of, IsBackedCore, IsCore, HasRoom};
ghost use Rattle.om_pool.specs.HoldingsView.{rules_in};
ghost use Rattle.om_pool.specs.Malloc.{refusal, reply_for, IsRefused, Mallocs};
ghost use Rattle.om_pool.specs.Placing.{placing_entry};
ghost use Rattle.om_pool.specs.PoolView.{call_moves, Takes, UsesBroker};
ghost use Rattle.om_pool.specs.Unasked.{IsQuiet};

use crate::holdings::Holdings;
use crate::placing::Placing;
use crate::pool_core::Core;
use om_broker::Broker;
use om_geom::{ZONE_PAGES, class_of, pages_of};
use om_model::{CallEntry, Drawn, Fault, Op, Reply, Who, Why};
use std::sync::Wait;

impl Core {
    /// Allocates, as in malloc(3), `size` bytes.
    pub(crate) fn malloc<R: Wait, B: Broker>(
        &mut self,
        rt: &R,
        broker: &mut B,
        who: Who,
        size: u64,
        site: u64,
    ) -> Reply
        requires kept { IsCore self.old }
        requires backed { IsBackedCore B.Broker self.old broker.old }
        requires room { HasRoom self.old }
        requires moves { call_moves ≤ B.moves_left broker.old }
        ensures kept { IsCore self.new }
        ensures backed { IsBackedCore B.Broker self.new broker.new }
        ensures uses { UsesBroker B.Broker (view_of self.old broker.old)
            (view_of self.new broker.new) result }
        ensures taken { Mallocs self.old self.new who size site result }
    {
        if self.state.is_too_large(size) {
            return self.refuse(who, Op::Malloc { size, site }, Why::TooLarge);
        }
        let placing = self.place_block(rt, broker, size, site, Drawn::empty());
        let reply = block_or_null(self.state.opts.xmalloc, placing.address);
        self.enter_placing(who, Op::Malloc { size, site }, reply, placing);
        reply
    }

    /// An allocation that asks for nothing, since no zone holds its size, or no number. No word is drawn.
    pub(crate) fn refuse(&mut self, who: Who, op: Op, why: Why) -> Reply
        requires kept { IsCore self.old }
        requires room { HasRoom self.old }
        requires refused { IsRefused self.old op why }
        ensures kept { IsCore self.new }
        ensures reply { result ≡ null_or_fault_by self.old.state.opts.xmalloc why }
        ensures quiet { IsQuiet self.old self.new who op result }
        ensures taken { Takes (core_view self.old) (core_view self.new) who op result
            (λ answers. refusal self.old why) }
    {
        let reply = null_or_fault(self.state.opts.xmalloc, why);
        self.enter_unasked(who, op, reply, Drawn::empty(), None);
        reply
    }

    /// Adds the entry of a call that placed a block.
    pub(crate) fn enter_placing(&mut self, who: Who, op: Op, reply: Reply, placing: Placing)
        requires short { length self.old.journal.items < 2 ^ 32 - 1 }
        requires room { 1 ≤ self.old.journal.spare }
        ensures added { self.new.journal.items ≡ self.old.journal.items
            ++ Call (placing_entry who op reply placing) ∷ [] }
        ensures same { self.new ≡ record self.old { journal = self.new.journal } }
    {
        self.enter(CallEntry {
            who,
            op,
            reply,
            words: placing.words,
            looks: placing.looks,
            taken: None,
            claim: placing.claim,
            release: None,
        });
    }
}

impl Holdings {
    /// Whether a block of so many bytes has no class, and with its guard more pages than a zone.
    pub(crate) fn is_too_large(&self, size: u64) -> bool
        ensures { result ≡ is_too_large (rules_in self.now) size }
    {
        match class_of(size, self.opts.canary) {
            Some(_) => false,
            None => pages_of(size) + u64::from(self.opts.guard) > u64::from(ZONE_PAGES),
        }
    }
}

/// The block's address, or that no run was found for it.
pub(crate) fn block_or_null(xmalloc: bool, address: Option<u64>) -> Reply
    ensures { result ≡ reply_for xmalloc address }
{
    match address {
        Some(address) => Reply::Block(address),
        None => null_or_fault(xmalloc, Why::NoRun),
    }
}

/// A null is a fault where the option says so.
pub(crate) fn null_or_fault(xmalloc: bool, why: Why) -> Reply
    ensures { result ≡ null_or_fault_by xmalloc why }
{
    if xmalloc {
        Reply::Fault(Fault::OutOfMemory(why))
    } else {
        Reply::Null(why)
    }
}
