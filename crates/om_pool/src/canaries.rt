//! Canaries: bytes behind a small block, by which a write past its end is seen.
ghost use Rattle.std.specs.Prelude.{◌≡◌, ◌+◌, ◌<◌, ◌≤◌, Some};
ghost use Rattle.om_model.specs.Pool.Canaries.{broken_in, canary_count};
ghost use Rattle.om_model.specs.Pool.Rules.{canary_byte, size_class};
ghost use Rattle.om_pool.specs.Chunks.{HoldsPlace};
ghost use Rattle.om_pool.specs.HoldingsView.{rules_in, tables_in, IsSameBut};
ghost use Rattle.om_pool.specs.TableSteps.{canaries_filled};

use crate::holdings::Holdings;
use om_geom::{Addr, Class};
use om_model::Block;

/// So many bytes are looked at behind a block, at most.
const CANARY_REACH: u64 = 32;

impl Holdings {
    /// Writes the canaries behind a block of the class.
    pub(crate) fn write_canaries(&mut self, block: Block, class: Class, canary: u8)
        requires class { size_class (rules_in self.old) block.size ≡ Some class.0 }
        requires byte { canary ≡ canary_byte (rules_in self.old) }
        requires bytes { HoldsPlace self.old.shelf
            (record { address = block.address; class = class.0 }) }
        ensures tables { tables_in self.new
            ≡ canaries_filled (rules_in self.old) block (tables_in self.old) }
        ensures same { IsSameBut self.old self.new }
    {
        let count = self.canary_count(block.size, class);
        if 0 < count {
            let behind = self.behind(block, class, count);
            self.shelf.fill(behind, count, canary);
        }
    }

    /// How far from the block's first byte the first canary stands that was changed.
    pub(crate) fn broken_canary(&self, block: Block, class: Class, canary: u8) -> Option<u64>
        requires class { size_class (rules_in self.now) block.size ≡ Some class.0 }
        requires byte { canary ≡ canary_byte (rules_in self.now) }
        requires bytes { HoldsPlace self.now.shelf
            (record { address = block.address; class = class.0 }) }
        ensures { result ≡ broken_in (rules_in self.now) self.now.shelf block }
    {
        let count = self.canary_count(block.size, class);
        if count == 0 {
            return None;
        }
        let behind = self.behind(block, class, count);
        let found = self.shelf.all_equal(behind, count, canary)?;
        Some(block.size + u64::from(found))
    }

    // The address behind the block, whose place has room for so many canaries.
    fn behind(&self, block: Block, class: Class, count: u32) -> Addr
        requires class { size_class (rules_in self.now) block.size ≡ Some class.0 }
        requires room { block.size + count ≤ class.0 }
        requires bytes { HoldsPlace self.now.shelf
            (record { address = block.address; class = class.0 }) }
        ensures { result.0 ≡ block.address + block.size }
    {
        self.shelf.fits();
        Addr(block.address + block.size)
    }

    // How many stand behind a block of the size.
    fn canary_count(&self, size: u64, class: Class) -> u32
        ensures value { result ≡ canary_count (rules_in self.now) size (Some class.0) }
        ensures within { 0 < result → size + result ≤ class.0 }
    {
        if self.opts.canary && 0 < size {
            CANARY_REACH.min(u64::from(class.0).saturating_sub(size)) as u32
        } else {
            0
        }
    }
}
