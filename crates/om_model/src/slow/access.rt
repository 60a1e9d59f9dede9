//! The steps of a load and a store, by the state of the page that holds the byte.
ghost use Rattle.std.specs.Prelude.{◌≡◌, IfOk};
ghost use Rattle.std.specs.Option.{option_map};
ghost use Rattle.om_model.specs.Output.Head.{rules_of};
ghost use Rattle.om_model.specs.Pool.Access.{state_by_kind, bar_of, barred, load, store};
ghost use Rattle.om_model.specs.Slow.{kind_in, page_state_in};

use super::in_use::{Kind, page_kind, uses};
use super::state::{State, page_at};
use super::steps::{Step, unchanged};
use crate::content::Head;
use crate::reply::{Fault, Reply, Segv};
use std::alloc::AllocError;

/// How the bytes of a held page may be touched: read and written, or not at all.
#[derive(Clone, Copy, Debug, PartialEq, Eq)]
pub enum PageState {
    Plain,
    Shut,
    Guarding,
}

fn state_by_kind(head: &Head, pool: u32, kind: Option<Kind>) -> PageState
    ensures { page_state_in result ≡
        state_by_kind (rules_of head.now pool) (option_map kind_in kind) }
{
    match kind {
        Some(Kind::Chunk(0)) => PageState::Shut,
        Some(Kind::Chunk(_)) => PageState::Plain,
        Some(Kind::Pages) => PageState::Plain,
        Some(Kind::Guard) => PageState::Guarding,
        None if head.opts.unmap => PageState::Shut,
        None => PageState::Plain,
    }
}

fn bar_of(page: PageState) -> Option<Reply>
    ensures { result ≡ bar_of (page_state_in page) }
{
    match page {
        PageState::Plain => None,
        PageState::Shut => Some(Reply::Fault(Fault::Segmentation(Segv::Protected))),
        PageState::Guarding => Some(Reply::Fault(Fault::Segmentation(Segv::Guard))),
    }
}

/// What is answered where the byte can't be touched; none where it can.
pub fn barred(
    head: &Head,
    pool: u32,
    state: &State,
    address: u64,
) -> Result<Option<Reply>, AllocError>
    ensures { IfOk result (λ bar. bar ≡ barred (rules_of head.now pool) state.now address) }
{
    if !state.holds(head.zones, address) {
        return Ok(Some(Reply::Miss));
    }
    let used = uses(head, pool, state)?;
    let kind = page_kind(&used, page_at(address));
    Ok(bar_of(state_by_kind(head, pool, kind)))
}

impl State {
    /// The step of a load.
    pub fn load(&self, head: &Head, pool: u32, address: u64) -> Result<Step, AllocError>
        ensures { IfOk result (λ step. step ≡ load (rules_of head.now pool) self.now address) }
    {
        match barred(head, pool, self, address)? {
            Some(bar) => unchanged(self, bar),
            None => unchanged(self, Reply::Byte(self.memory.byte_at(u128::from(address)))),
        }
    }

    /// The step of a store.
    pub fn store(&self, head: &Head, pool: u32, address: u64, byte: u8) -> Result<Step, AllocError>
        ensures { IfOk result (λ step. step ≡
            store (rules_of head.now pool) self.now address byte) }
    {
        if let Some(bar) = barred(head, pool, self, address)? {
            return unchanged(self, bar);
        }
        let mut next = self.copy()?;
        next.memory.write(u128::from(address), byte);
        Ok(Step {
            reply: Reply::Done,
            words: 0,
            release: None,
            next,
        })
    }
}
