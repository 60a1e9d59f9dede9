//! Load and store of one byte.
ghost use Rattle.std.specs.Prelude.{◌≡◌, true, if◌then◌else◌};
ghost use Rattle.om_frame.specs.Memory.{byte_at, is_held_at, with_byte};
ghost use Rattle.om_model.specs.Pool.Access.{bar_of, Plain, Shut};
ghost use Rattle.om_pool.specs.Access.{load_reply, store_reply, stored, Loads, Stores};
ghost use Rattle.om_pool.specs.ByTables.{barred_by, barred_on};
ghost use Rattle.om_pool.specs.CoreKept.{IsCore, HasRoom};
ghost use Rattle.om_pool.specs.HoldingsView.{rules_in, tables_in, IsSameBut};
ghost use Rattle.om_pool.specs.TableSteps.{IsTied};
ghost use Rattle.om_pool.specs.Unasked.{IsQuiet};

use crate::holdings::Holdings;
use crate::pool_core::Core;
use om_geom::{Addr, page_of};
use om_model::{Drawn, Fault, Op, Reply, Segv, Who};
use om_pages::PageKind;

impl Core {
    /// Reads the byte at an address.
    pub(crate) fn load(&mut self, who: Who, address: u64) -> Reply
        requires kept { IsCore self.old }
        requires room { HasRoom self.old }
        ensures kept { IsCore self.new }
        ensures taken { Loads self.old self.new who address result }
        ensures quiet { IsQuiet self.old self.new who (Op.Load address) result }
    {
        let reply = self.state.load(address);
        self.enter_unasked(who, Op::Load { addr: address }, reply, Drawn::empty(), None);
        reply
    }

    /// Writes the byte at an address.
    pub(crate) fn store(&mut self, who: Who, address: u64, byte: u8) -> Reply
        requires kept { IsCore self.old }
        requires room { HasRoom self.old }
        ensures kept { IsCore self.new }
        ensures taken { Stores self.old self.new who address byte result }
        ensures quiet { IsQuiet self.old self.new who (Op.Store address byte) result }
    {
        let reply = self.state.store(address, byte);
        let op = Op::Store {
            addr: address,
            byte,
        };
        self.enter_unasked(who, op, reply, Drawn::empty(), None);
        reply
    }
}

impl Holdings {
    fn load(&self, address: u64) -> Reply
        requires { IsTied self.now.zones (tables_in self.now) }
        ensures { result ≡ load_reply (tables_in self.now) address
            (barred_by (rules_in self.now) (tables_in self.now) address) }
    {
        match self.bar(address) {
            Some(bar) => bar,
            None => Reply::Byte(self.read(address)),
        }
    }

    fn store(&mut self, address: u64, byte: u8) -> Reply
        requires { IsTied self.old.zones (tables_in self.old) }
        ensures reply { result
            ≡ store_reply (barred_by (rules_in self.old) (tables_in self.old) address) }
        ensures tables { tables_in self.new ≡ stored (tables_in self.old) address byte
            (barred_by (rules_in self.old) (tables_in self.old) address) }
        ensures same { IsSameBut self.old self.new }
    {
        if let Some(bar) = self.bar(address) {
            return bar;
        }
        self.write(address, byte);
        Reply::Done
    }

    // What is answered where the byte at the address can't be touched.
    fn bar(&self, address: u64) -> Option<Reply>
        requires { IsTied self.now.zones (tables_in self.now) }
        ensures { result ≡ barred_by (rules_in self.now) (tables_in self.now) address }
    {
        match page_of(Addr(address), self.zones) {
            Some(page) => self.bar_on(self.pages.find(page)),
            None => Some(Reply::Miss),
        }
    }

    // The same of an address on a page of the kind. No byte of blocks of size 0 or of a guard can be touched,
    // nor one of a free page where unmap is on.
    fn bar_on(&self, kind: PageKind) -> Option<Reply>
        ensures { result ≡ barred_on (rules_in self.now) kind }
    {
        match kind {
            PageKind::Absent => Some(Reply::Miss),
            PageKind::Guard { .. } => Some(Reply::Fault(Fault::Segmentation(Segv::Guard))),
            PageKind::Free => bar_if(self.opts.unmap),
            PageKind::Chunk(class) => bar_if(class.0 == 0),
            PageKind::Block { .. } => None,
        }
    }

    fn read(&self, address: u64) -> u8
        requires { is_held_at self.now.shelf address ≡ true }
        ensures { result ≡ byte_at self.now.shelf address }
    {
        self.shelf.part(Addr(address), 1)[0]
    }

    fn write(&mut self, address: u64, byte: u8)
        requires { is_held_at self.old.shelf address ≡ true }
        ensures memory { self.new.shelf ≡ with_byte self.old.shelf address byte }
        ensures same { self.new ≡ record self.old { shelf = self.new.shelf } }
    {
        self.shelf.part_mut(Addr(address), 1)[0] = byte;
    }
}

// What is answered where a page is shut.
fn bar_if(shut: bool) -> Option<Reply>
    ensures { result ≡ bar_of (if shut then Shut else Plain) }
{
    if shut {
        Some(Reply::Fault(Fault::Segmentation(Segv::Protected)))
    } else {
        None
    }
}
