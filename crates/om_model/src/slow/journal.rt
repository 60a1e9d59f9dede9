//! Lawful journals: each call has the reply, the words and the release of its step, and the zones answered as
//! they may.
ghost use Rattle.std.specs.Prelude.{◌≡◌, ◌-◌, ◌^◌, ◌<◌, ◌≤◌, ◌==◌, ◌&&◌, ◌↔◌, IsSome, IsTrue, IfOk, OnOk, IfSome, ◌++◌};
ghost use Rattle.std.specs.List.{range_with_len};
ghost use Rattle.std.specs.Option.{is_some, option_map};
ghost use Rattle.om_geom.specs.Numbers.{most_zones};
ghost use Rattle.om_words.specs.PlannedWords.{HasWords};
ghost use Rattle.om_model.specs.Output.Head.{rules_of};
ghost use Rattle.om_model.specs.Pool.Product.{product};
ghost use Rattle.om_model.specs.Pool.Realloc.{realloc, reallocarray};
ghost use Rattle.om_model.specs.Pool.State.{opening};
ghost use Rattle.om_model.specs.Pool.Journal.{wish_of, step_unless, step_of, GivesUp, Agrees, IsLawfulCall, IsLawfulEntry, after, state_from, IsLawfulFrom, phases_in, phase_numbers, IsLawful};
ghost use Rattle.om_model.specs.Slow.{run_in, told_in, wish_in, IsSmallClaim};
ghost use Rattle.om_model.specs.declared.entry.Entry.TheVariants.{Call};

use super::answers::{are_same, is_inside, is_run, may_answer};
use super::product::product;
use super::rules::words_from;
use super::state::State;
use super::steps::{Answers, Run, Step, Wish};
use crate::content::Head;
use crate::entry::{CallEntry, Entry, Move};
use crate::journal::Journal;
use crate::operation::Op;
use std::alloc::{AllocError, Global};

// Whether the move gives up the run, inside its zone.
fn gives_up(run: Option<Run>, release: Option<Move>) -> bool
    ensures { IsTrue result ↔ GivesUp (option_map run_in run) release }
{
    match release {
        Some(found) => match run {
            Some(run) => is_inside(found) && is_run(found, run),
            None => false,
        },
        None => run.is_none(),
    }
}

// Whether the entry has the reply, the words and the release of the step.
fn agrees(
    head: &Head,
    pool: u32,
    state: &State,
    entry: &CallEntry,
    step: &Step,
) -> Result<bool, AllocError>
    requires words { HasWords head.now.plan }
    requires few { state.now.drawn < 2 ^ 63 - 2 ^ 32 }
    ensures { IfOk result (λ is. IsTrue is ↔
        Agrees (rules_of head.now pool) state.now entry.now step.now) }
{
    let words = words_from(state.alloc, head, pool, state.drawn, step.words)?;
    let drawn = are_same(entry.words.as_slice(), &words);
    let given_up = gives_up(step.release, entry.release);
    Ok(entry.reply == step.reply && drawn && given_up)
}

impl State {
    /// What an operation asks of the zones.
    pub fn wish_of(&self, head: &Head, pool: u32, op: Op) -> Result<Wish, AllocError>
        requires words { HasWords head.now.plan }
        requires few { self.now.drawn < 2 ^ 63 - 1 }
        ensures { IfOk result (λ wish. wish_in wish ≡
            wish_of (rules_of head.now pool) self.now op) }
    {
        match op {
            Op::Malloc { size, .. } => self.malloc_wish(head, pool, size),
            Op::Calloc { count, size, .. } => self.calloc_wish(head, pool, count, size),
            Op::Realloc { addr, size, .. } => self.realloc_wish(head, pool, addr, size),
            Op::Reallocarray {
                addr,
                count,
                size,
                ..
            } => self.reallocarray_wish(head, pool, addr, count, size),
            Op::Free { .. } | Op::Load { .. } | Op::Store { .. } => Ok(Wish::Nothing),
        }
    }

    // A realloc of address 0 is entered as a malloc.
    fn realloc_step(
        &self,
        head: &Head,
        pool: u32,
        address: u64,
        size: u64,
        site: u64,
        answers: Answers,
    ) -> Result<Option<Step>, AllocError>
        requires words { HasWords head.now.plan }
        requires few { self.now.drawn < 2 ^ 63 - 2 }
        requires few_zones { head.now.zones ≤ most_zones }
        requires claim { IsSmallClaim answers.claim }
        ensures { IfOk result (λ step. step ≡ step_unless (address == 0)
            (realloc (rules_of head.now pool) self.now address size site (told_in answers))) }
    {
        if address == 0 {
            return Ok(None);
        }
        Ok(Some(self.realloc(head, pool, address, size, site, answers)?))
    }

    // So is a reallocarray whose product has a number of 64 bits.
    fn reallocarray_step(
        &self,
        head: &Head,
        pool: u32,
        address: u64,
        count: u64,
        size: u64,
        site: u64,
        answers: Answers,
    ) -> Result<Option<Step>, AllocError>
        requires words { HasWords head.now.plan }
        requires few { self.now.drawn < 2 ^ 63 - 2 }
        requires few_zones { head.now.zones ≤ most_zones }
        requires claim { IsSmallClaim answers.claim }
        ensures { IfOk result (λ step. step ≡
            step_unless ((address == 0) && is_some (product count size))
            (reallocarray (rules_of head.now pool) self.now address count size site
            (told_in answers))) }
    {
        if address == 0 && product(count, size).is_some() {
            return Ok(None);
        }
        Ok(Some(self.reallocarray(head, pool, address, count, size, site, answers)?))
    }

    /// What it does, given what the zones answered; none for an operation that is entered as another.
    pub fn step(
        &self,
        head: &Head,
        pool: u32,
        op: Op,
        answers: Answers,
    ) -> Result<Option<Step>, AllocError>
        requires words { HasWords head.now.plan }
        requires few { self.now.drawn < 2 ^ 63 - 2 }
        requires few_zones { head.now.zones ≤ most_zones }
        requires claim { IsSmallClaim answers.claim }
        ensures { IfOk result (λ step. step ≡
            step_of (rules_of head.now pool) self.now op (told_in answers)) }
    {
        let claim = answers.claim;
        match op {
            Op::Malloc { size, site } => Ok(Some(self.malloc(head, pool, size, site, claim)?)),
            Op::Calloc { count, size, site } => {
                Ok(Some(self.calloc(head, pool, count, size, site, claim)?))
            }
            Op::Realloc { addr, size, site } => {
                self.realloc_step(head, pool, addr, size, site, answers)
            }
            Op::Reallocarray {
                addr,
                count,
                size,
                site,
            } => self.reallocarray_step(head, pool, addr, count, size, site, answers),
            Op::Free { addr } => Ok(Some(self.free(head, pool, addr)?)),
            Op::Load { addr } => Ok(Some(self.load(head, pool, addr)?)),
            Op::Store { addr, byte } => Ok(Some(self.store(head, pool, addr, byte)?)),
        }
    }

    /// The state after the entry, where it is lawful.
    pub fn follow(&self, head: &Head, pool: u32, entry: &Entry) -> Result<Option<State>, AllocError>
        requires words { HasWords head.now.plan }
        requires few { self.now.drawn < 2 ^ 63 - 2 ^ 32 }
        requires some_zone { 1 ≤ head.now.zones }
        requires few_zones { head.now.zones ≤ most_zones }
        ensures lawful { IfOk result (λ next. IsSome next ↔
            IsLawfulEntry (rules_of head.now pool) self.now entry.now) }
        ensures next { IfOk result (λ next. IfSome next (λ state. state ≡
            after (rules_of head.now pool) self.now entry.now)) }
    {
        match entry {
            Entry::Call(call) => self.follow_call(head, pool, call),
            Entry::Phase(_) => Ok(Some(self.copy()?)),
        }
    }

    fn follow_call(
        &self,
        head: &Head,
        pool: u32,
        entry: &CallEntry,
    ) -> Result<Option<State>, AllocError>
        requires words { HasWords head.now.plan }
        requires few { self.now.drawn < 2 ^ 63 - 2 ^ 32 }
        requires some_zone { 1 ≤ head.now.zones }
        requires few_zones { head.now.zones ≤ most_zones }
        ensures lawful { IfOk result (λ next. IsSome next ↔
            IsLawfulCall (rules_of head.now pool) self.now entry.now) }
        ensures next { IfOk result (λ next. IfSome next (λ state. state ≡
            after (rules_of head.now pool) self.now (Call entry.now))) }
    {
        let wish = self.wish_of(head, pool, entry.op)?;
        let may = may_answer(head, pool, self, wish, entry)?;
        if !may {
            return Ok(None);
        }
        let answers = Answers {
            claim: entry.claim,
            taken: entry.taken,
        };
        let Some(step) = self.step(head, pool, entry.op, answers)? else {
            return Ok(None);
        };
        let is = agrees(head, pool, self, entry, &step)?;
        if is { Ok(Some(step.next)) } else { Ok(None) }
    }

    /// The state after the entries of the journal, where they are lawful.
    pub fn follow_all(
        &self,
        head: &Head,
        pool: u32,
        journal: &Journal,
    ) -> Result<Option<State>, AllocError>
        requires words { HasWords head.now.plan }
        requires few { self.now.drawn < 2 ^ 62 }
        requires some_zone { 1 ≤ head.now.zones }
        requires few_zones { head.now.zones ≤ most_zones }
        ensures lawful { IfOk result (λ next. IsSome next ↔
            IsLawfulFrom (rules_of head.now pool) self.now journal.now.items) }
        ensures next { IfOk result (λ next. IfSome next (λ state. state ≡
            state_from (rules_of head.now pool) self.now journal.now.items)) }
    {
        let mut state = self.copy()?;
        for entry in journal.as_slice() {
            match state.follow(head, pool, entry)? {
                Some(next) => state = next,
                None => return Ok(None),
            }
        }
        Ok(Some(state))
    }
}

// Whether the calls are lawful, from the opening state on.
fn are_lawful(alloc: Global, head: &Head, pool: u32, journal: &Journal) -> Result<bool, AllocError>
    requires words { HasWords head.now.plan }
    requires some_zone { 1 ≤ head.now.zones }
    requires few_zones { head.now.zones ≤ most_zones }
    ensures { IfOk result (λ lawful. IsTrue lawful ↔ IsLawfulFrom
        (rules_of head.now pool) (opening (rules_of head.now pool)) journal.now.items) }
{
    let opening = State::opening(alloc, head, pool)?;
    let last = opening.follow_all(head, pool, journal)?;
    Ok(last.is_some())
}

/// Whether the journal is a lawful one of the pool with this number.
pub fn is_lawful(
    alloc: Global,
    head: &Head,
    pool: u32,
    journal: &Journal,
) -> Result<bool, AllocError>
    requires words { HasWords head.now.plan }
    requires some_zone { 1 ≤ head.now.zones }
    requires few_zones { head.now.zones ≤ most_zones }
    ensures { IfOk result (λ lawful. IsTrue lawful ↔
        IsLawful (rules_of head.now pool) journal.now.items) }
{
    let lawful = are_lawful(alloc, head, pool, journal)?;
    let entered = phase_numbers(alloc, journal)?;
    let counted = counted(alloc, entered.len() as u64)?;
    Ok(lawful && are_counted(&entered, &counted))
}

/// The numbers of the phases that the journal enters.
pub(super) fn phase_numbers(alloc: Global, journal: &Journal) -> Result<Vec<u64>, AllocError>
    ensures { IfOk result (λ phases. phases.items ≡ phase_numbers journal.now.items) }
{
    let mut phases = Vec::new(alloc);
    for entry in journal.as_slice() {
        push_phase(&mut phases, entry)?;
    }
    Ok(phases)
}

fn push_phase(phases: &mut Vec<u64>, entry: &Entry) -> Result<(), AllocError>
    ensures { OnOk result (phases.new.items ≡ phases.old.items ++ phases_in entry.now) }
{
    if let Entry::Phase(number) = entry {
        phases.push(u64::from(*number))?;
    }
    Ok(())
}

/// The numbers from 1 on.
pub(super) fn counted(alloc: Global, count: u64) -> Result<Vec<u64>, AllocError>
    ensures { IfOk result (λ numbers. numbers.items ≡ range_with_len 1 count) }
{
    let mut numbers = Vec::new(alloc);
    for i in 0..count {
        numbers.push(i + 1)?;
    }
    Ok(numbers)
}

pub(super) fn are_counted(entered: &[u64], counted: &[u64]) -> bool
    ensures { IsTrue result ↔ (entered.now ≡ counted.now) }
{
    entered == counted
}
