//! Allocation as in calloc(3): a block as malloc gives it, and zeros.
ghost use Rattle.std.specs.Prelude.{◌≡◌, ◌*◌, ◌≤◌, IfSome};
ghost use Rattle.om_frame.specs.Memory.{IsHeldPart};
ghost use Rattle.om_geom.specs.Numbers.{page_size, zone_pages};
ghost use Rattle.om_model.specs.Pool.Product.{product};
ghost use Rattle.om_pool.specs.Calloc.{zeros_filled, Callocs};
ghost use Rattle.om_pool.specs.CoreKept.{view_of, IsBackedCore, IsCore, HasRoom};
ghost use Rattle.om_pool.specs.HoldingsView.{tables_in, IsSameBut};
ghost use Rattle.om_pool.specs.PoolView.{call_moves, UsesBroker};

use crate::holdings::Holdings;
use crate::malloc::block_or_null;
use crate::pool_core::Core;
use om_broker::Broker;
use om_geom::Addr;
use om_model::{Drawn, Op, Reply, Who, Why};
use std::sync::Wait;

impl Core {
    /// Allocates, as in calloc(3), `count` items of `size` bytes each, all of them zeros.
    pub(crate) fn calloc<R: Wait, B: Broker>(
        &mut self,
        rt: &R,
        broker: &mut B,
        who: Who,
        count: u64,
        size: u64,
        site: u64,
    ) -> Reply
        requires kept { IsCore self.old }
        requires backed { IsBackedCore B.Broker self.old broker.old }
        requires room { HasRoom self.old }
        requires moves { call_moves ≤ B.moves_left broker.old }
        ensures kept { IsCore self.new }
        ensures backed { IsBackedCore B.Broker self.new broker.new }
        ensures uses { UsesBroker B.Broker (view_of self.old broker.old)
            (view_of self.new broker.new) result }
        ensures taken { Callocs self.old self.new who count size site result }
    {
        let op = Op::Calloc { count, size, site };
        let Some(bytes) = product(count, size) else {
            return self.refuse(who, op, Why::Overflow);
        };
        if self.state.is_too_large(bytes) {
            return self.refuse(who, op, Why::TooLarge);
        }
        let placing = self.place_block(rt, broker, bytes, site, Drawn::empty());
        self.state.zero(placing.address, bytes);
        let reply = block_or_null(self.state.opts.xmalloc, placing.address);
        self.enter_placing(who, op, reply, placing);
        reply
    }
}

impl Holdings {
    // Zeros the first bytes of the block that was placed at the address, if any was.
    fn zero(&mut self, address: Option<u64>, size: u64)
        requires few { size ≤ page_size * zone_pages }
        requires bytes { IfSome address (λ at. IsHeldPart self.old.shelf at size) }
        ensures tables { tables_in self.new ≡ zeros_filled address size (tables_in self.old) }
        ensures same { IsSameBut self.old self.new }
    {
        if let Some(address) = address {
            self.fill(Addr(address), size as u32, 0);
        }
    }
}

/// So many items of a size; none where that has no number of 64 bits.
pub(crate) fn product(count: u64, size: u64) -> Option<u64>
    ensures { result ≡ product count size }
{
    count.checked_mul(size)
}
