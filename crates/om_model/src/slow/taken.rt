//! The looks at which claims at given runs found a page held, each with its run.
ghost use Rattle.std.specs.Prelude.{◌≡◌, ◌++◌, ◌-◌, ◌^◌, ◌<◌, ◌≤◌, ◌↔◌, IsSome, IfOk, OnOk, IfSome};
ghost use Rattle.om_geom.specs.Numbers.{most_zones};
ghost use Rattle.om_words.specs.PlannedWords.{HasWords};
ghost use Rattle.om_model.specs.Output.Head.{rules_of};
ghost use Rattle.om_model.specs.Pool.Journal.{IsLawfulFrom};
ghost use Rattle.om_model.specs.Pool.State.{opening};
ghost use Rattle.om_model.specs.Pool.Taken.{taken_at, taken_in, taken_of};
ghost use Rattle.om_model.specs.Slow.{wish_in};

use super::state::State;
use super::steps::{Run, Wish};
use crate::content::Head;
use crate::entry::Entry;
use crate::journal::Journal;
use crate::looks::Look;
use std::alloc::{AllocError, Global};
use std::marker::Model;

/// A look at which some page of the run was found held.
#[derive(Drop)]
pub(super) struct TakenLook {
    pub(super) run: Run,
    pub(super) look: Look,
}

impl Model for TakenLook {
    ghost use Rattle.om_model.specs.Pool.Taken;
    ghost use Rattle.om_model.specs.Slow.{run_in};

    ghost Value = { Taken.TakenLook };

    ghost view = { λ t. record { run = run_in t.run; look = t.look } };
}

fn push_at(taken: &mut Vec<TakenLook>, wish: Wish, look: Look) -> Result<(), AllocError>
    ensures { OnOk result (taken.new.items ≡ taken.old.items ++ taken_at (wish_in wish) look) }
{
    if let Wish::At(run, _) = wish {
        taken.push(TakenLook { run, look })?;
    }
    Ok(())
}

fn push_taken(
    taken: &mut Vec<TakenLook>,
    head: &Head,
    pool: u32,
    state: &State,
    entry: &Entry,
) -> Result<(), AllocError>
    requires words { HasWords head.now.plan }
    requires few { state.now.drawn < 2 ^ 63 - 1 }
    ensures { OnOk result (taken.new.items ≡
        taken.old.items ++ taken_in (rules_of head.now pool) state.now entry.now) }
{
    let Entry::Call(call) = entry else {
        return Ok(());
    };
    let Some(look) = call.taken else {
        return Ok(());
    };
    let wish = state.wish_of(head, pool, call.op)?;
    push_at(taken, wish, look)
}

/// Those of the pool's journal, where its calls are lawful.
pub(super) fn taken_of(
    alloc: Global,
    head: &Head,
    pool: u32,
    journal: &Journal,
) -> Result<Option<Vec<TakenLook>>, AllocError>
    requires words { HasWords head.now.plan }
    requires some_zone { 1 ≤ head.now.zones }
    requires few_zones { head.now.zones ≤ most_zones }
    ensures lawful { IfOk result (λ taken. IsSome taken ↔ IsLawfulFrom
        (rules_of head.now pool) (opening (rules_of head.now pool)) journal.now.items) }
    ensures taken { IfOk result (λ taken. IfSome taken (λ looks. looks.items ≡
        taken_of (rules_of head.now pool) journal.now.items)) }
{
    let mut taken = Vec::new(alloc);
    let mut state = State::opening(alloc, head, pool)?;
    for entry in journal.as_slice() {
        push_taken(&mut taken, head, pool, &state, entry)?;
        match state.follow(head, pool, entry)? {
            Some(next) => state = next,
            None => return Ok(None),
        }
    }
    Ok(Some(taken))
}
