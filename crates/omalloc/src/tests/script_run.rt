//! The run of a script in plain form, given the last reply to each of its calls.
ghost use Rattle.std.specs.Prelude.{◌≡◌, ◌+◌, ◌-◌, ◌^◌, ◌<◌, ◌≤◌, ◌↔◌, length, map, slice_index, IsTrue, IfOk};
ghost use Rattle.std.specs.List.{list_any};
ghost use Rattle.om_model.specs.Data.Room.{entries_of};
ghost use Rattle.om_model.specs.Scripts.Calls.{AreCalls, last_reply};
ghost use Rattle.om_model.specs.Scripts.Outcomes.{is_fault};
ghost use Rattle.om_model.specs.Slow.{answers_in};
ghost use Rattle.omalloc.specs.Script.{IsScript};
ghost use Rattle.omalloc.specs.ScriptRun.{op_of, given, assigned, run_from, script_run, IsCourse, IsEnded, IsScriptRun};

use crate::command::Command;
use crate::run::{at_offset, free_op, given, is_fault, outcome_of, realloc_op, reallocarray_op};
use crate::script::Script;
use om_model::slow::{self, Answered};
use om_model::{Call, Journal, Op, Outcome, Reply};
use std::alloc::{AllocError, Global};

/// Whether a caller's script has run as the journals and its outcomes tell. There must be a pool: the
/// calls and the replies to them are read from the pools' journals.
pub fn is_script_run(
    alloc: Global,
    pools: u32,
    caller: u32,
    script: &Script,
    journals: &[Journal],
    outcomes: &[Outcome],
) -> Result<bool, AllocError>
    requires script { IsScript script.now }
    requires pools { 1 ≤ pools }
    ensures { IfOk result (λ is. IsTrue is ↔ IsScriptRun pools caller
        (length script.now.names) script.now.commands (entries_of journals.now) outcomes.now) }
{
    let read = slow::calls_read(alloc, pools, caller, journals)?;
    is_run_with(alloc, pools, caller, script, &read, journals, outcomes)
}

// Whether the script has run with these calls and the replies to each.
fn is_run_with(
    alloc: Global,
    pools: u32,
    caller: u32,
    script: &Script,
    answered: &[Answered],
    journals: &[Journal],
    outcomes: &[Outcome],
) -> Result<bool, AllocError>
    requires { IsScript script.now }
    ensures { IfOk result (λ is. IsTrue is ↔ (
        IsCourse (length script.now.names) script.now.commands
        (answers_in answered.now) outcomes.now
        × IsEnded script.now.commands outcomes.now
        × AreCalls pools caller (answers_in answered.now) (entries_of journals.now))) }
{
    let commands = script.commands();
    let is_course = is_course(
        alloc,
        script.variables() as u32,
        commands,
        answered,
        outcomes,
    )?;
    let stand = slow::are_calls(alloc, pools, caller, answered, journals)?;
    Ok(is_course && is_ended(commands, outcomes) && stand)
}

// Whether these are the calls and the outcomes of a script with so many variables, by the last replies.
fn is_course(
    alloc: Global,
    variables: u32,
    commands: &[Command],
    answered: &[Answered],
    outcomes: &[Outcome],
) -> Result<bool, AllocError>
    requires { length commands.now < 2 ^ 32 - 1 }
    ensures { IfOk result (λ is. IsTrue is ↔
        IsCourse variables commands.now (answers_in answered.now) outcomes.now) }
{
    let replies = last_replies(alloc, answered)?;
    let calls = calls_of(alloc, answered)?;
    let (made, told) = script_run(alloc, variables, commands, &replies)?;
    Ok(are_same_calls(&made, &calls) && are_same_outcomes(&told, outcomes))
}

fn last_replies(alloc: Global, answered: &[Answered]) -> Result<Vec<Reply>, AllocError>
    ensures { IfOk result (λ replies. replies.items
        ≡ map (λ a. last_reply a.1) (answers_in answered.now)) }
{
    let mut replies = Vec::new(alloc);
    for one in answered {
        replies.push(last_reply(&one.replies))?;
    }
    Ok(replies)
}

fn last_reply(replies: &[Reply]) -> Reply
    ensures { result ≡ last_reply replies.now }
{
    replies.last().copied().unwrap_or(Reply::Miss)
}

fn calls_of(alloc: Global, answered: &[Answered]) -> Result<Vec<Call>, AllocError>
    ensures { IfOk result (λ calls. calls.items ≡ map (λ a. a.0) (answers_in answered.now)) }
{
    let mut calls = Vec::new(alloc);
    for one in answered {
        calls.push(one.call)?;
    }
    Ok(calls)
}

fn are_same_calls(calls: &[Call], others: &[Call]) -> bool
    ensures { IsTrue result ↔ (calls.now ≡ others.now) }
{
    calls == others
}

fn are_same_outcomes(outcomes: &[Outcome], others: &[Outcome]) -> bool
    ensures { IsTrue result ↔ (outcomes.now ≡ others.now) }
{
    outcomes == others
}

// Whether each command has its outcome, or the run ended at a fault.
fn is_ended(commands: &[Command], outcomes: &[Outcome]) -> bool
    ensures { IsTrue result ↔ IsEnded commands.now outcomes.now }
{
    outcomes.len() == commands.len() || has_fault(outcomes)
}

fn has_fault(outcomes: &[Outcome]) -> bool
    ensures { result ≡ list_any is_fault outcomes.now }
{
    outcomes.iter().any(|outcome| is_fault(*outcome))
}

/// The calls that a script of so many variables makes, and its outcomes.
pub fn script_run(
    alloc: Global,
    variables: u32,
    commands: &[Command],
    replies: &[Reply],
) -> Result<(Vec<Call>, Vec<Outcome>), AllocError>
    requires { length commands.now < 2 ^ 32 - 1 }
    ensures { IfOk result (λ ran. record { calls = ran.0.items; outcomes = ran.1.items }
        ≡ script_run variables commands.now replies.now) }
{
    let mut values = vec![in alloc; 0u64; variables as usize]?;
    run_from(alloc, 1, &mut values, commands, replies)
}

// The run of the commands from that of the number on.
fn run_from(
    alloc: Global,
    number: u32,
    values: &mut Vec<u64>,
    commands: &[Command],
    replies: &[Reply],
) -> Result<(Vec<Call>, Vec<Outcome>), AllocError>
    requires { number + length commands.now < 2 ^ 32 }
    ensures { IfOk result (λ ran. record { calls = ran.0.items; outcomes = ran.1.items }
        ≡ run_from number values.old.items commands.now replies.now) }
{
    let Some((command, commands)) = commands.split_first() else {
        return Ok((Vec::new(alloc), Vec::new(alloc)));
    };
    let Some(op) = op_of(values, *command) else {
        let (calls, mut outcomes) = run_from(alloc, number + 1, values, commands, replies)?;
        outcomes.insert(0, Outcome::Done)?;
        return Ok((calls, outcomes));
    };
    let Some((reply, replies)) = replies.split_first() else {
        return Ok((Vec::new(alloc), Vec::new(alloc)));
    };
    let outcome = outcome_of(op, *reply);
    let (mut calls, mut outcomes) = if is_fault(outcome) {
        (Vec::new(alloc), Vec::new(alloc))
    } else {
        assign(values, *command, outcome);
        run_from(alloc, number + 1, values, commands, replies)?
    };
    outcomes.insert(0, outcome)?;
    calls.insert(
        0,
        Call {
            command: number,
            phase: 0,
            op,
        },
    )?;
    Ok((calls, outcomes))
}

// What a variable has.
fn value_of(values: &[u64], var: u32) -> u64
    ensures { result ≡ slice_index values.now var }
{
    values.get(var as usize).copied().unwrap_or(0)
}

// The call that a command makes; a free of 0 makes none.
fn op_of(values: &[u64], command: Command) -> Option<Op>
    ensures { result ≡ op_of values.now command }
{
    match command {
        Command::Malloc { size, site, .. } => Some(Op::Malloc { size, site }),
        Command::Calloc {
            count,
            size,
            site,
            ..
        } => Some(Op::Calloc { count, size, site }),
        Command::Realloc {
            from,
            size,
            site,
            ..
        } => Some(realloc_op(value_of(values, from), size, site)),
        Command::Reallocarray {
            from,
            count,
            size,
            site,
            ..
        } => Some(reallocarray_op(value_of(values, from), count, size, site)),
        Command::Free { var } => free_op(value_of(values, var)),
        Command::Load { var, off } => Some(Op::Load {
            addr: at_offset(value_of(values, var), off),
        }),
        Command::Store { var, off, byte } => Some(Op::Store {
            addr: at_offset(value_of(values, var), off),
            byte,
        }),
    }
}

// The variables after a command that met no fault.
fn assign(values: &mut Vec<u64>, command: Command, outcome: Outcome)
    ensures { values.new.items ≡ assigned values.old.items command outcome }
{
    match command {
        Command::Malloc { var, .. }
        | Command::Calloc { var, .. }
        | Command::Realloc { var, .. }
        | Command::Reallocarray { var, .. } => {
            if (var as usize) < values.len() {
                values[var as usize] = given(outcome);
            }
        }
        Command::Free { .. } | Command::Load { .. } | Command::Store { .. } => {}
    }
}
