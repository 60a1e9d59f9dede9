//! What a step asks of the zones, and what it does.
ghost use Rattle.std.specs.Prelude.{◌≡◌, IfOk};
ghost use Rattle.om_model.specs.Output.Head.{rules_of};
ghost use Rattle.om_model.specs.Pool.Steps.{unchanged, null_or_fault};
ghost use Rattle.om_model.specs.Slow.{searching, wish_in};

use super::state::State;
use crate::content::Head;
use crate::entry::Move;
use crate::looks::Look;
use crate::reply::{Fault, Reply, Why};
use std::alloc::AllocError;
use std::marker::Model;

/// Neighbouring pages.
#[derive(Clone, Copy, Debug, PartialEq, Eq)]
pub struct Run {
    pub first: u64,
    pub count: u64,
}

/// A search for so many pages by a random word.
#[derive(Clone, Copy)]
pub struct Search {
    pub count: u64,
    pub word: u32,
}

/// What is asked of the zones: nothing; a search; or a claim of a given run, and the search, if any, that is
/// made where a page of it is held.
#[derive(Clone, Copy)]
pub enum Wish {
    Nothing,
    Search(Search),
    At(Run, Option<Search>),
}

/// What the zones answered: the claim, and the look at which a claim at a given run found a page held.
#[derive(Clone, Copy)]
pub struct Answers {
    pub claim: Option<Move>,
    pub taken: Option<Look>,
}

/// What a step does.
#[derive(Drop)]
pub struct Step {
    pub reply: Reply,
    /// How many words are drawn.
    pub words: u32,
    /// The pages that are released.
    pub release: Option<Run>,
    /// The state after it.
    pub next: State,
}

impl Model for Step {
    ghost use Rattle.std.specs.Option.{option_map};
    ghost use Rattle.om_model.specs.Pool.Steps;
    ghost use Rattle.om_model.specs.Slow.{run_in};

    ghost Value = { Steps.Step };

    ghost view = { λ s. record {
      reply = s.reply;
      words = s.words;
      release = option_map run_in s.release;
      next = s.next;
    } };
}

/// A search, or nothing.
pub(super) fn searching(search: Option<Search>) -> Wish
    ensures { wish_in result ≡ searching search }
{
    match search {
        Some(search) => Wish::Search(search),
        None => Wish::Nothing,
    }
}

/// An answer that draws no word and changes nothing.
pub(super) fn unchanged(state: &State, reply: Reply) -> Result<Step, AllocError>
    ensures { IfOk result (λ step. step ≡ unchanged state.now reply) }
{
    Ok(Step {
        reply,
        words: 0,
        release: None,
        next: state.copy()?,
    })
}

/// A null, or where the option says so the fault in its place.
pub(super) fn null_or_fault(head: &Head, pool: u32, why: Why) -> Reply
    ensures { result ≡ null_or_fault (rules_of head.now pool) why }
{
    if head.opts.xmalloc {
        Reply::Fault(Fault::OutOfMemory(why))
    } else {
        Reply::Null(why)
    }
}
