use crate::drawn::Drawn;
use crate::looks::{Look, LookList};
use crate::operation::{Op, Who};
use crate::reply::Reply;
use std::marker::Model;

/// A claim or a release: the zone, the version that it gave the zone, the first bit and the number
/// of pages.
#[derive(Clone, Copy, Debug, PartialEq, Eq)]
pub struct Move {
    pub zone: u32,
    pub version: u32,
    pub first: u32,
    pub count: u32,
}

/// A move and the pool that made it.
#[derive(Clone, Copy, Debug, PartialEq, Eq)]
pub struct ZoneMove {
    pub pool: u32,
    /// Whether it is a claim. Else it is a release.
    pub claims: bool,
    pub made: Move,
    /// The word by which a claim searched. A claim at a given place and a release have none.
    pub search: Option<u32>,
}

/// One call on a pool: who made it, what was asked and answered, the words that were drawn, and
/// what the zones answered.
#[derive(Drop)]
pub struct CallEntry {
    pub who: Who,
    pub op: Op,
    pub reply: Reply,
    pub words: Drawn,
    /// The zones that a claim passed over, in order.
    pub looks: LookList,
    /// The look at which a claim at a given place found a page held.
    pub taken: Option<Look>,
    pub claim: Option<Move>,
    pub release: Option<Move>,
}

impl Model for CallEntry {
    ghost use Rattle.om_model.specs.Data.CallEntry;

    ghost Value = { CallEntry.CallEntry };

    // The room that the list of looks has is forgotten.
    ghost view = { λ c. record {
      who = c.who;
      op = c.op;
      reply = c.reply;
      words = c.words;
      looks = c.looks.items;
      taken = c.taken;
      claim = c.claim;
      release = c.release;
    } };
}

/// What an entry says of its call and of the answer.
#[derive(Clone, Copy, Debug, PartialEq, Eq)]
pub struct Asked {
    pub command: u32,
    /// The phase in which the entry stands.
    pub phase: u32,
    pub hop: u64,
    pub op: Op,
    pub reply: Reply,
}

/// An entry of a pool's journal: a call, or the beginning of a phase.
#[derive(Drop)]
pub enum Entry {
    Call(CallEntry),
    Phase(u32),
}
