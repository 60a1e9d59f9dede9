//! The calls of a pool.
ghost use Rattle.std.specs.Prelude.{◌≡◌, ◌*◌, ◌-◌, ◌^◌, ◌<◌, ◌≤◌, [], length, IfOk, IfErr, IsTrue, OnOk};
ghost use Rattle.om_geom.specs.Numbers.{most_zones, zone_pages};
ghost use Rattle.om_model.specs.Pool.Access.{load, store};
ghost use Rattle.om_model.specs.Pool.Calloc.{calloc};
ghost use Rattle.om_model.specs.Pool.Free.{free};
ghost use Rattle.om_model.specs.Pool.Malloc.{malloc};
ghost use Rattle.om_model.specs.Pool.Realloc.{realloc, reallocarray};
ghost use Rattle.om_model.specs.Pool.Rules.{canary_byte};
ghost use Rattle.om_model.specs.Pool.State.{opening};
ghost use Rattle.om_pool.specs.PoolView.{call_moves, rules_by, HasMade, HasWhole, IsAlone, IsAsBefore, IsKeptWhereDenied, IsRun, Takes, UsesBroker};

use crate::pool_core::Core;
use crate::realloc::Ask;
use om_broker::Broker;
use om_geom::Addr;
use om_model::{Journal, Op, Reply, Who};
use om_opts::Opts;
use om_words::Words;
use std::alloc::{AllocError, Global};
use std::marker::Model;
use std::sync::Wait;

/// A pool over a broker, of which it claims its pages. Its journal has every call, and each call is answered by
/// the rules of malloc(3) in this profile.
#[derive(Drop)]
pub struct Pool<B: Broker> {
    core: Core,
    broker: B,
}

impl<B: Broker> Model for Pool<B> {
    ghost use Rattle.om_pool.specs.PoolView.{PoolView};
    ghost use Rattle.om_pool.specs.CoreKept.{view_of, IsBackedCore, IsCore};

    ghost Value = { PoolView B };

    ghost view = { λ p. view_of p.core p.broker };

    ghost invariant = { λ p. IsCore p.core × IsBackedCore B.Broker p.core p.broker };
}

/// There was no memory for a pool. The broker comes back.
#[derive(Drop)]
pub struct NoPool<B: Broker> {
    pub broker: B,
}

impl<B: Broker> Pool<B> {
    /// A pool that holds nothing, in an arena of so many zones. It draws the first of the words for the canary
    /// byte.
    pub fn start(
        alloc: Global,
        opts: Opts,
        words: Words,
        zones: u32,
        broker: B,
    ) -> Result<Pool<B>, NoPool<B>>
        requires first { words.place ≡ 0 }
        requires some_zone { 1 ≤ zones }
        requires few_zones { zones ≤ most_zones }
        requires arena { B.zones (B.arena broker) ≡ zones }
        requires fresh { B.made broker [] [] }
        ensures rules { IfOk result (λ pool. pool.rules ≡ rules_by opts zones words.source) }
        ensures state { IfOk result (λ pool. pool.state
            ≡ opening (rules_by opts zones words.source)) }
        ensures entries { IfOk result (λ pool. pool.journal.items ≡ []) }
        ensures broker { IfOk result (λ pool. pool.broker ≡ broker) }
        ensures back { IfErr result (λ no. no.broker ≡ broker) }
        ensures run { IfOk result IsRun }
        ensures made { IfOk result (HasMade B.Broker) }
    {
        match Core::new(alloc, opts, words, zones) {
            Ok(core) => Ok(Pool { core, broker }),
            Err(_) => Err(NoPool { broker }),
        }
    }

    /// Makes room for a call. After want of memory the pool is as before.
    pub fn reserve(&mut self) -> Result<(), AllocError>
        requires { length self.old.journal.items < 2 ^ 32 - 1 }
        ensures room { OnOk result (1 ≤ self.new.spare) }
        ensures same { IsAsBefore self.old self.new }
        ensures run { IsRun self.new }
        ensures made { HasMade B.Broker self.new }
        ensures pages { length self.new.state.held ≤ zone_pages * self.new.rules.zones }
    {
        self.core.reserve()
    }

    /// Allocates `size` bytes, as malloc(3): a block's address, or null, or the fault in its place.
    pub fn malloc<R: Wait>(&mut self, rt: &R, who: Who, size: u64, site: u64) -> Reply
        requires room { 1 ≤ self.old.spare }
        requires short { length self.old.journal.items < 2 ^ 32 - 1 }
        requires own { who.hop ≡ 0 }
        requires moves { call_moves ≤ B.moves_left self.old.broker }
        ensures taken { Takes self.old self.new who (Op.Malloc size site) result
            (λ answers. malloc self.old.rules self.old.state size site answers.claim) }
        ensures denied { IsKeptWhereDenied self.old self.new result }
        ensures uses { UsesBroker B.Broker self.old self.new result }
        ensures before { IsRun self.old }
        ensures run { IsRun self.new }
        ensures made { HasMade B.Broker self.new }
    {
        self.core.malloc(rt, &mut self.broker, who, size, site)
    }

    /// Allocates, as in calloc(3), `count` items of `size` bytes each: as malloc does their bytes, and all of
    /// these are zeros. Where so many bytes have no number of 64 bits, that is null at once, without a word.
    pub fn calloc<R: Wait>(&mut self, rt: &R, who: Who, count: u64, size: u64, site: u64) -> Reply
        requires room { 1 ≤ self.old.spare }
        requires short { length self.old.journal.items < 2 ^ 32 - 1 }
        requires own { who.hop ≡ 0 }
        requires moves { call_moves ≤ B.moves_left self.old.broker }
        ensures taken { Takes self.old self.new who (Op.Calloc count size site) result
            (λ answers. calloc self.old.rules self.old.state count size site answers.claim) }
        ensures denied { IsKeptWhereDenied self.old self.new result }
        ensures uses { UsesBroker B.Broker self.old self.new result }
        ensures before { IsRun self.old }
        ensures run { IsRun self.new }
        ensures made { HasMade B.Broker self.new }
    {
        self.core
            .calloc(rt, &mut self.broker, who, count, size, site)
    }

    /// Gives `size` bytes to the block at an address other than 0, as realloc(3), and answers where it is then. It
    /// stays where its place or its data pages do; it gives up its last pages; it grows over the pages after it,
    /// which are free pages of the pool or claimed; or it moves, with the bytes that both sizes have in common,
    /// and the old block leaves as in a free. Under always_move it moves each time. An address that can't be
    /// freed is answered as by free, and a delayed place is always a double free; a null or a fault keeps the
    /// block, its size and all bytes.
    pub fn realloc<R: Wait>(&mut self, rt: &R, who: Who, addr: Addr, size: u64, site: u64) -> Reply
        requires room { 1 ≤ self.old.spare }
        requires short { length self.old.journal.items < 2 ^ 32 - 1 }
        requires moves { call_moves ≤ B.moves_left self.old.broker }
        requires not_0 { 1 ≤ addr.0 }
        ensures taken { Takes self.old self.new who (Op.Realloc addr.0 size site) result
            (λ answers. realloc self.old.rules self.old.state addr.0 size site answers) }
        ensures denied { IsKeptWhereDenied self.old self.new result }
        ensures uses { UsesBroker B.Broker self.old self.new result }
        ensures before { IsRun self.old }
        ensures run { IsRun self.new }
        ensures made { HasMade B.Broker self.new }
    {
        let op = Op::Realloc {
            addr: addr.0,
            size,
            site,
        };
        let ask = Ask {
            who,
            op,
            size,
            site,
        };
        self.core.realloc(rt, &mut self.broker, ask, addr.0)
    }

    /// Gives as many bytes as `count` items of `size` bytes each to the block at an address, as realloc does.
    /// Where so many bytes have no number of 64 bits, that is null at once, before the address is looked at, and
    /// at address 0 that alone can be asked.
    pub fn reallocarray<R: Wait>(
        &mut self,
        rt: &R,
        who: Who,
        addr: Addr,
        count: u64,
        size: u64,
        site: u64,
    ) -> Reply
        requires room { 1 ≤ self.old.spare }
        requires short { length self.old.journal.items < 2 ^ 32 - 1 }
        requires moves { call_moves ≤ B.moves_left self.old.broker }
        requires overflows { addr.0 ≡ 0 → 2 ^ 64 ≤ count * size }
        ensures taken { Takes self.old self.new who (Op.Reallocarray addr.0 count size site) result
            (λ answers. reallocarray self.old.rules self.old.state addr.0 count size site
            answers) }
        ensures denied { IsKeptWhereDenied self.old self.new result }
        ensures uses { UsesBroker B.Broker self.old self.new result }
        ensures before { IsRun self.old }
        ensures run { IsRun self.new }
        ensures made { HasMade B.Broker self.new }
    {
        self.core
            .reallocarray(rt, &mut self.broker, who, addr.0, count, size, site)
    }

    /// Frees an address. A live place is delayed in the slot that a word chooses; the pages of a page
    /// block become free at once. Pages that become free stay, or are released as one where more pages
    /// are free than the pool keeps. A misuse that is seen is answered with its fault, and only the word
    /// is spent: a second free; a changed canary behind the block, with its offset; a delayed place that
    /// was written after its free, with its address and the offset. Under freecheck every delayed place
    /// is looked at, otherwise the one in the drawn slot. Address 0 is a miss as any address outside the
    /// arena is: that free(3) does nothing there is the caller's matter.
    pub fn free<R: Wait>(&mut self, rt: &R, who: Who, addr: Addr) -> Reply
        requires room { 1 ≤ self.old.spare }
        requires short { length self.old.journal.items < 2 ^ 32 - 1 }
        ensures taken { Takes self.old self.new who (Op.Free addr.0) result
            (λ answers. free self.old.rules self.old.state addr.0) }
        ensures denied { IsKeptWhereDenied self.old self.new result }
        ensures uses { UsesBroker B.Broker self.old self.new result }
        ensures before { IsRun self.old }
        ensures run { IsRun self.new }
        ensures made { HasMade B.Broker self.new }
    {
        self.core.free(rt, &mut self.broker, who, addr.0)
    }

    /// Reads the byte at an address, be it in a block, between blocks, freed or on a free page. No
    /// byte of a page of blocks of size 0 or of a guard can be read, nor one of a free page under unmap.
    pub fn load(&mut self, who: Who, addr: Addr) -> Reply
        requires room { 1 ≤ self.old.spare }
        requires short { length self.old.journal.items < 2 ^ 32 - 1 }
        ensures taken { Takes self.old self.new who (Op.Load addr.0) result
            (λ answers. load self.old.rules self.old.state addr.0) }
        ensures denied { IsKeptWhereDenied self.old self.new result }
        ensures broker { self.new.broker ≡ self.old.broker }
        ensures uses { UsesBroker B.Broker self.old self.new result }
        ensures before { IsRun self.old }
        ensures run { IsRun self.new }
        ensures made { HasMade B.Broker self.new }
    {
        self.core.load(who, addr.0)
    }

    /// Writes one byte, wherever one can be read.
    pub fn store(&mut self, who: Who, addr: Addr, byte: u8) -> Reply
        requires room { 1 ≤ self.old.spare }
        requires short { length self.old.journal.items < 2 ^ 32 - 1 }
        ensures taken { Takes self.old self.new who (Op.Store addr.0 byte) result
            (λ answers. store self.old.rules self.old.state addr.0 byte) }
        ensures denied { IsKeptWhereDenied self.old self.new result }
        ensures broker { self.new.broker ≡ self.old.broker }
        ensures uses { UsesBroker B.Broker self.old self.new result }
        ensures before { IsRun self.old }
        ensures run { IsRun self.new }
        ensures made { HasMade B.Broker self.new }
    {
        self.core.store(who, addr.0, byte)
    }

    /// What the pool has done.
    pub fn journal(&self) -> &Journal
        ensures journal { result.now ≡ self.now.journal }
        ensures run { IsRun self.now }
        ensures made { HasMade B.Broker self.now }
        ensures alone { HasWhole B.Broker self.now → IsAlone self.now }
    {
        &self.core.journal
    }

    /// The byte that is written behind small blocks where canaries are on.
    pub fn canary(&self) -> u8
        ensures { result ≡ canary_byte self.now.rules }
    {
        self.core.canary
    }
}
