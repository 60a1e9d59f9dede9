//! A pool alone in its arena. A call asserts that the answer is the one that is wanted.
ghost use Rattle.std.specs.Prelude.{◌≡◌, ◌≤◌};
ghost use Rattle.om_geom.specs.Numbers.{most_zones};

use crate::Pool;
use om_broker::LoneBroker;
use om_geom::{Addr, MOST_ZONES};
use om_model::{Journal, Reply, Who};
use om_opts::Opts;
use om_words::Words;
use std::alloc::{AllocError, Global};
use std::marker::Model;
use std::process::Abort;
use std::sync::Wait;
use std::test::Fail;

#[derive(Drop)]
pub(super) struct Trial {
    pool: Pool<LoneBroker>,
}

impl Model for Trial {
    ghost use Rattle.std.specs.Prelude.{◌≡◌, ◌+◌, ◌*◌, ◌≤◌, length};
    ghost use Rattle.om_broker.specs.Lone.{Lone, lone_share};
    ghost use Rattle.om_geom.specs.Numbers.{most_zones};
    ghost use Rattle.om_pool.specs.PoolView.{call_moves, PoolView};

    ghost Value = { PoolView Lone };

    ghost view = { λ t. t.pool };

    ghost invariant = { λ t. ((t.pool.rules).zones ≤ most_zones)
        × (lone_share ≤ (t.pool.broker).left + length (t.pool.state).held
        + call_moves * length (t.pool.journal).items) };
}

/// Over a list of words.
pub(super) fn pool_over(alloc: Global, opts: Opts, words: Vec<u32>) -> Result<Trial, Fail> {
    let words = Words::listed(words)?;
    Ok(pool_by(alloc, opts, words)?)
}

/// Over the words that the plan gives to pool 0.
pub(super) fn pool_by(alloc: Global, opts: Opts, words: Words) -> Result<Trial, AllocError>
    requires { words.place ≡ 0 }
{
    pool_in(alloc, opts, words, MOST_ZONES)
}

/// Alone in an arena of so many zones.
pub(super) fn pool_in(
    alloc: Global,
    opts: Opts,
    words: Words,
    zones: u32,
) -> Result<Trial, AllocError>
    requires first { words.place ≡ 0 }
    requires some { 1 ≤ zones }
    requires few { zones ≤ most_zones }
{
    let broker = LoneBroker::new(alloc, zones)?;
    match Pool::start(alloc, opts, words, zones, broker) {
        Ok(pool) => Ok(Trial { pool }),
        Err(_) => Err(AllocError),
    }
}

impl Trial {
    pub(super) fn journal(&self) -> &Journal {
        self.pool.journal()
    }

    pub(super) fn canary(&self) -> u8 {
        self.pool.canary()
    }

    pub(super) fn malloc<R: Abort + Wait>(
        &mut self,
        rt: &R,
        size: u64,
    ) -> Result<Reply, AllocError> {
        assert!(rt; self.pool.journal().len() < 2_000);
        self.pool.reserve()?;
        Ok(self.pool.malloc(rt, who(), size, 0))
    }

    pub(super) fn calloc<R: Abort + Wait>(
        &mut self,
        rt: &R,
        count: u64,
        size: u64,
    ) -> Result<Reply, AllocError> {
        assert!(rt; self.pool.journal().len() < 2_000);
        self.pool.reserve()?;
        Ok(self.pool.calloc(rt, who(), count, size, 0))
    }

    pub(super) fn free<R: Abort + Wait>(
        &mut self,
        rt: &R,
        address: u64,
    ) -> Result<Reply, AllocError> {
        assert!(rt; self.pool.journal().len() < 2_000);
        self.pool.reserve()?;
        Ok(self.pool.free(rt, who(), Addr(address)))
    }

    pub(super) fn load<R: Abort>(&mut self, rt: &R, address: u64) -> Result<Reply, AllocError> {
        assert!(rt; self.pool.journal().len() < 2_000);
        self.pool.reserve()?;
        Ok(self.pool.load(who(), Addr(address)))
    }

    pub(super) fn store<R: Abort>(
        &mut self,
        rt: &R,
        address: u64,
        byte: u8,
    ) -> Result<Reply, AllocError> {
        assert!(rt; self.pool.journal().len() < 2_000);
        self.pool.reserve()?;
        Ok(self.pool.store(who(), Addr(address), byte))
    }
}

fn who() -> Who
    ensures { result.hop ≡ 0 }
{
    Who {
        caller: 0,
        command: 0,
        hop: 0,
    }
}

/// A call on a pool: a size, a count and a size, or an address. A store writes the byte 7.
#[derive(Clone, Copy)]
pub(super) enum Call {
    Malloc(u64),
    Calloc(u64, u64),
    Free(u64),
    Load(u64),
    Store(u64),
}

fn answer<R: Abort + Wait>(rt: &R, pool: &mut Trial, call: Call) -> Result<Reply, AllocError> {
    match call {
        Call::Malloc(size) => pool.malloc(rt, size),
        Call::Calloc(count, size) => pool.calloc(rt, count, size),
        Call::Free(address) => pool.free(rt, address),
        Call::Load(address) => pool.load(rt, address),
        Call::Store(address) => pool.store(rt, address, 7),
    }
}

/// The call is answered so.
pub(super) fn answers<R: Abort + Wait>(
    rt: &R,
    pool: &mut Trial,
    call: Call,
    wanted: Reply,
) -> Result<(), AllocError> {
    let reply = answer(rt, pool, call)?;
    assert_eq!(rt; reply, wanted);
    Ok(())
}

/// Each of the calls is answered so.
pub(super) fn answers_all<R: Abort + Wait>(
    rt: &R,
    pool: &mut Trial,
    calls: &[(Call, Reply)],
) -> Result<(), AllocError> {
    for (call, wanted) in calls {
        answers(rt, pool, *call, *wanted)?;
    }
    Ok(())
}
