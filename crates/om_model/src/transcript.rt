ghost use Rattle.std.specs.Prelude.{◌≡◌, ◌-◌, ◌^◌, ◌<◌, ◌==◌, [], ◌∷◌, ◌++◌, length, Some, slice_get, OnOk, OnErr};
ghost use Rattle.std.specs.List.{AllByRecursion};
ghost use Rattle.std.specs.Slice.Iter.{iter_rest};
ghost use Rattle.om_model.specs.Data.Ranges.{FitsOutcome};

use crate::ranges::outcome_fits;
use crate::reply::Outcome;
use std::alloc::{AllocError, Global};
use std::marker::Model;
use std::slice;

/// The outcomes of a script's commands, from the first on.
#[derive(Drop)]
pub struct Transcript {
    outcomes: Vec<Outcome>,
}

impl Model for Transcript {
    ghost use Rattle.std.specs.Prelude.{List, ◌^◌, ◌<◌, vec_len};
    ghost use Rattle.std.specs.List.{AllByRecursion};
    ghost use Rattle.om_model.specs.Data.Ranges.{FitsOutcome};
    ghost use Rattle.om_model.specs.declared.reply.Outcome.{Outcome};

    ghost Value = { List Outcome };

    ghost view = { λ t. t.outcomes.items };

    ghost invariant = { λ t.
        (vec_len t.outcomes < 2 ^ 32) × AllByRecursion FitsOutcome t.outcomes.items };
}

impl Transcript {
    /// No outcomes yet. Room is taken from this allocator later.
    pub fn new(alloc: Global) -> Transcript
        ensures { result ≡ [] }
    {
        Transcript {
            outcomes: Vec::new(alloc),
        }
    }

    /// Adds the outcome of the next command. After want of memory the list is as before.
    pub fn push(&mut self, outcome: Outcome) -> Result<(), AllocError>
        requires { length self.old < 2 ^ 32 - 1 }
        ensures ok { OnOk result (self.new ≡ self.old ++ outcome ∷ []) }
        ensures err { OnErr result (self.new ≡ self.old) }
    {
        outcome_fits(outcome);
        self.outcomes.push(outcome)?;
        Ok(())
    }

    /// How many commands were done.
    pub fn len(&self) -> u32
        ensures { result ≡ length self.now }
    {
        self.outcomes.len() as u32
    }

    /// Whether no command was done.
    pub fn is_empty(&self) -> bool
        ensures { result ≡ (length self.now == 0) }
    {
        self.outcomes.is_empty()
    }

    /// A law of the type: every number in it is one that its type holds.
    pub fn fits(&self)
        ensures { AllByRecursion FitsOutcome self.now }
    {
        let _outcomes = &self.outcomes;
    }

    /// The outcome of command `i + 1`.
    pub fn outcome(&self, i: u32) -> &Outcome
        requires { i < length self.now }
        ensures { slice_get self.now i ≡ Some result.now }
    {
        &self.outcomes[i as usize]
    }

    /// The outcomes, from that of command 1 on.
    pub fn iter(&self) -> slice::Iter<'_, Outcome>
        ensures items { iter_rest result ≡ self.now }
        ensures few { length (iter_rest result) < 2 ^ 32 }
    {
        self.outcomes.iter()
    }

    /// The outcomes as a slice.
    pub fn as_slice(&self) -> &[Outcome]
        ensures items { result.now ≡ self.now }
        ensures few { length result.now < 2 ^ 32 }
    {
        &self.outcomes
    }
}

/// The transcripts of all scripts, in the order of their numbers.
#[derive(Drop)]
pub struct TranscriptList {
    transcripts: Vec<Transcript>,
}
