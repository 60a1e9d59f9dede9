//! The core of a pool: what it holds, and its journal.
ghost use Rattle.std.specs.Prelude.{◌≡◌, ◌-◌, ◌^◌, ◌<◌, ◌≤◌, [], ◌∷◌, ◌++◌, length, IfOk, OnOk};
ghost use Rattle.om_geom.specs.Numbers.{most_zones};
ghost use Rattle.om_model.specs.Pool.State.{opening};
ghost use Rattle.om_pool.specs.CoreKept.{core_state, IsCore, HasRoom};
ghost use Rattle.om_pool.specs.HoldingsView.{rules_in};
ghost use Rattle.om_pool.specs.PoolView.{rules_by};
ghost use Rattle.om_pool.specs.Unasked.{unasked_entry};

use crate::holdings::Holdings;
use om_geom::MOST_ZONES;
use om_model::{CallEntry, Drawn, Entry, Journal, LookList, Move, Op, Reply, Who};
use om_opts::Opts;
use om_words::Words;
use std::alloc::{AllocError, Global};

#[derive(Drop)]
pub(crate) struct Core {
    pub(crate) alloc: Global,
    pub(crate) state: Holdings,
    /// What the first word gave.
    pub(crate) canary: u8,
    /// An empty list with room for a look at each zone, until a search fills it.
    pub(crate) room: Option<LookList>,
    pub(crate) journal: Journal,
}

impl Core {
    /// A core that holds nothing. The canary byte takes the first word.
    pub(crate) fn new(
        alloc: Global,
        opts: Opts,
        mut words: Words,
        zones: u32,
    ) -> Result<Core, AllocError>
        requires first { words.place ≡ 0 }
        requires some_zone { 1 ≤ zones }
        requires few_zones { zones ≤ most_zones }
        ensures kept { IfOk result IsCore }
        ensures rules { IfOk result (λ core. rules_in core.state
            ≡ rules_by opts zones words.source) }
        ensures state { IfOk result (λ core. core_state core
            ≡ opening (rules_by opts zones words.source)) }
        ensures entries { IfOk result (λ core. core.journal.items ≡ []) }
    {
        let word = words.draw();
        Ok(Core {
            alloc,
            state: Holdings::new(alloc, opts, words, zones)?,
            canary: (word % 255 + 1) as u8,
            room: None,
            journal: Journal::new(alloc),
        })
    }

    /// Makes room for what one call may add.
    pub(crate) fn reserve(&mut self) -> Result<(), AllocError>
        requires kept { IsCore self.old }
        requires short { length self.old.journal.items < 2 ^ 32 - 1 }
        ensures kept { IsCore self.new }
        ensures room { OnOk result (HasRoom self.new) }
        ensures rules { rules_in self.new.state ≡ rules_in self.old.state }
        ensures entries { self.new.journal.items ≡ self.old.journal.items }
    {
        self.journal.reserve()?;
        self.state.reserve()?;
        if self.room.is_none() {
            self.room = Some(LookList::with_room(self.alloc, MOST_ZONES)?);
        }
        Ok(())
    }

    /// Adds the entry of a call to the journal.
    pub(crate) fn enter(&mut self, entry: CallEntry)
        requires short { length self.old.journal.items < 2 ^ 32 - 1 }
        requires room { 1 ≤ self.old.journal.spare }
        ensures added { self.new.journal.items ≡ self.old.journal.items ++ Entry.Call entry ∷ [] }
        ensures same { self.new ≡ record self.old { journal = self.new.journal } }
    {
        self.journal.push(Entry::Call(entry));
    }

    /// Adds the entry of a call that asked the zones for nothing.
    pub(crate) fn enter_unasked(
        &mut self,
        who: Who,
        op: Op,
        reply: Reply,
        words: Drawn,
        release: Option<Move>,
    )
        requires short { length self.old.journal.items < 2 ^ 32 - 1 }
        requires room { 1 ≤ self.old.journal.spare }
        ensures added { self.new.journal.items ≡ self.old.journal.items
            ++ Entry.Call (unasked_entry who op reply words release) ∷ [] }
        ensures same { self.new ≡ record self.old { journal = self.new.journal } }
    {
        let looks = LookList::empty(self.alloc);
        self.enter(CallEntry {
            who,
            op,
            reply,
            words,
            looks,
            taken: None,
            claim: None,
            release,
        });
    }
}
