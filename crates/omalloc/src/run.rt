//! A script on a pool of its own.
ghost use Rattle.std.specs.Prelude.{◌≡◌, ◌+◌, ◌*◌, ◌<◌, ◌≤◌, ◌==◌, [], length, slice_index, vec_len, Some, None, IfOk, IfSome, if◌then◌else◌};
ghost use Rattle.std.specs.List.{list_any};
ghost use Rattle.om_geom.specs.Numbers.{most_zones, zone_pages};
ghost use Rattle.om_model.specs.Scripts.Outcomes.{missed, outcome_of, is_fault};
ghost use Rattle.om_pool.specs.PoolView.{rules_by};
ghost use Rattle.omalloc.specs.ScriptRun.{at_offset, given, realloc_op, reallocarray_op, op_of, assigned};
ghost use Rattle.omalloc.specs.Heads.{IsHead};
ghost use Rattle.omalloc.specs.Run.{who_of, HasMoves, IsAsked, IsCall, IsCommandRun, RanAlone};
ghost use Rattle.omalloc.specs.Script.{IsScript, IsCommand, most_commands};

use crate::command::Command;
use crate::script::Script;
use om_broker::LoneBroker;
use om_geom::Addr;
use om_model::{Fault, Head, Op, Outcome, Reply, Segv, Transcript, Who};
use om_opts::Opts;
use om_pool::Pool;
use om_words::Words;
use std::alloc::{AllocError, Global};
use std::sync::Wait;

/// A pool after a script, and the outcomes of the script's commands.
#[derive(Drop)]
pub struct Ran {
    /// The pool after the script.
    pub pool: Pool<LoneBroker>,
    /// What became of the commands that were done.
    pub transcript: Transcript,
    /// A command met a fault.
    pub faulted: bool,
}

// The fault where no pool has the address.
fn missed(op: Op) -> Fault
    ensures { result ≡ missed op }
{
    match op {
        Op::Load { .. } | Op::Store { .. } => Fault::Segmentation(Segv::Unmapped),
        _ => Fault::Bogus,
    }
}

// The outcome of a call, by its last reply.
pub(crate) fn outcome_of(op: Op, reply: Reply) -> Outcome
    ensures { result ≡ outcome_of op reply }
{
    match reply {
        Reply::Block(address) => Outcome::Block(address),
        Reply::Null(why) => Outcome::Null(why),
        Reply::Done => Outcome::Done,
        Reply::Byte(byte) => Outcome::Byte(byte),
        Reply::Miss => Outcome::Fault(missed(op)),
        Reply::Fault(fault) => Outcome::Fault(fault),
    }
}

// The number that an allocation leaves in its variable.
pub(crate) fn given(outcome: Outcome) -> u64
    ensures { result ≡ given outcome }
{
    match outcome {
        Outcome::Block(address) => address,
        _ => 0,
    }
}

pub(crate) fn is_fault(outcome: Outcome) -> bool
    ensures { result ≡ is_fault outcome }
{
    matches!(outcome, Outcome::Fault(_))
}

// The address so many bytes behind another.
pub(crate) fn at_offset(addr: u64, off: u64) -> u64
    ensures { result ≡ at_offset addr off }
{
    addr.wrapping_add(off)
}

// The only script's command with this number, which asks the only pool.
fn who_of(number: u32) -> Who
    ensures { result ≡ who_of number }
{
    Who {
        caller: 0,
        command: number,
        hop: 0,
    }
}

// What the variable at this place has.
fn value_of(values: &[u64], var: u32) -> u64
    requires { var < length values.now }
    ensures { result ≡ slice_index values.now var }
{
    values[var as usize]
}

// The call of a realloc: of malloc for address 0.
pub(crate) fn realloc_op(addr: u64, size: u64, site: u64) -> Op
    ensures { result ≡ realloc_op addr size site }
{
    if addr == 0 {
        Op::Malloc { size, site }
    } else {
        Op::Realloc { addr, size, site }
    }
}

// That of a reallocarray: of malloc for address 0, where the product doesn't overflow.
pub(crate) fn reallocarray_op(addr: u64, count: u64, size: u64, site: u64) -> Op
    ensures { result ≡ reallocarray_op addr count size site }
{
    match count.checked_mul(size) {
        Some(size) if addr == 0 => Op::Malloc { size, site },
        _ => Op::Reallocarray {
            addr,
            count,
            size,
            site,
        },
    }
}

// That of a free: none for address 0.
pub(crate) fn free_op(addr: u64) -> Option<Op>
    ensures { result ≡ (if addr == 0 then None else Some (Op.Free addr)) }
{
    if addr == 0 {
        None
    } else {
        Some(Op::Free { addr })
    }
}

// The call that a command makes.
fn op_of(values: &[u64], command: Command) -> Option<Op>
    requires { IsCommand (length values.now) command }
    ensures op { result ≡ op_of values.now command }
    ensures asked { IfSome result IsAsked }
{
    match command {
        Command::Malloc { size, site, .. } => Some(Op::Malloc { size, site }),
        Command::Calloc {
            count,
            size,
            site,
            ..
        } => Some(Op::Calloc { count, size, site }),
        Command::Realloc {
            from,
            size,
            site,
            ..
        } => Some(realloc_op(value_of(values, from), size, site)),
        Command::Reallocarray {
            from,
            count,
            size,
            site,
            ..
        } => Some(reallocarray_op(value_of(values, from), count, size, site)),
        Command::Free { var } => free_op(value_of(values, var)),
        Command::Load { var, off } => {
            let addr = at_offset(value_of(values, var), off);
            Some(Op::Load { addr })
        }
        Command::Store { var, off, byte } => {
            let addr = at_offset(value_of(values, var), off);
            Some(Op::Store { addr, byte })
        }
    }
}

// The variables after a command that met no fault.
fn assign(values: &mut Vec<u64>, command: Command, outcome: Outcome)
    requires { IsCommand (vec_len values.old) command }
    ensures { values.new.items ≡ assigned values.old.items command outcome }
{
    match command {
        Command::Malloc { var, .. }
        | Command::Calloc { var, .. }
        | Command::Realloc { var, .. }
        | Command::Reallocarray { var, .. } => values[var as usize] = given(outcome),
        Command::Free { .. } | Command::Load { .. } | Command::Store { .. } => {}
    }
}

// Asks the pool.
fn ask<R: Wait>(rt: &R, pool: &mut Pool<LoneBroker>, number: u32, op: Op) -> Reply
    requires room { 1 ≤ pool.old.spare }
    requires short { length pool.old.journal.items < most_commands }
    requires zones { pool.old.rules.zones ≤ most_zones }
    requires held { length pool.old.state.held ≤ zone_pages * pool.old.rules.zones }
    requires moves { HasMoves pool.old }
    requires asked { IsAsked op }
    ensures called { IsCall number op pool.old.journal.items pool.new.journal.items
        (outcome_of op result) }
    ensures rules { pool.new.rules ≡ pool.old.rules }
    ensures entries { length pool.new.journal.items ≤ length pool.old.journal.items + 1 }
    ensures moves { HasMoves pool.new }
{
    let who = who_of(number);
    match op {
        Op::Malloc { size, site } => pool.malloc(rt, who, size, site),
        Op::Calloc { count, size, site } => pool.calloc(rt, who, count, size, site),
        Op::Realloc { addr, size, site } => pool.realloc(rt, who, Addr(addr), size, site),
        Op::Reallocarray {
            addr,
            count,
            size,
            site,
        } => pool.reallocarray(rt, who, Addr(addr), count, size, site),
        Op::Free { addr } => pool.free(rt, who, Addr(addr)),
        Op::Load { addr } => pool.load(who, Addr(addr)),
        Op::Store { addr, byte } => pool.store(who, Addr(addr), byte),
    }
}

// Makes the call of the only script's command with this number on the only pool.
fn call<R: Wait>(
    rt: &R,
    pool: &mut Pool<LoneBroker>,
    number: u32,
    op: Op,
) -> Result<Outcome, AllocError>
    requires short { length pool.old.journal.items < most_commands }
    requires zones { pool.old.rules.zones ≤ most_zones }
    requires moves { HasMoves pool.old }
    requires asked { IsAsked op }
    ensures called { IfOk result (λ outcome. IsCall number op
        pool.old.journal.items pool.new.journal.items outcome) }
    ensures rules { pool.new.rules ≡ pool.old.rules }
    ensures entries { length pool.new.journal.items ≤ length pool.old.journal.items + 1 }
    ensures moves { HasMoves pool.new }
{
    pool.reserve()?;
    let reply = ask(rt, pool, number, op);
    Ok(outcome_of(op, reply))
}

// One command of the only script, asked of the only pool.
fn run_command<R: Wait>(
    rt: &R,
    pool: &mut Pool<LoneBroker>,
    values: &mut Vec<u64>,
    number: u32,
    command: Command,
) -> Result<Outcome, AllocError>
    requires short { length pool.old.journal.items < most_commands }
    requires zones { pool.old.rules.zones ≤ most_zones }
    requires moves { HasMoves pool.old }
    requires form { IsCommand (vec_len values.old) command }
    ensures ran { IfOk result (λ outcome. IsCommandRun number command
        values.old.items values.new.items pool.old.journal.items pool.new.journal.items outcome) }
    ensures rules { pool.new.rules ≡ pool.old.rules }
    ensures entries { length pool.new.journal.items ≤ length pool.old.journal.items + 1 }
    ensures moves { HasMoves pool.new }
    ensures variables { vec_len values.new ≡ vec_len values.old }
{
    let Some(op) = op_of(values, command) else {
        return Ok(Outcome::Done);
    };
    let outcome = call(rt, pool, number, op)?;
    assign(values, command, outcome);
    Ok(outcome)
}

// A pool of so many zones, which it has to itself.
fn new_pool(
    alloc: Global,
    opts: Opts,
    words: Words,
    zones: u32,
) -> Result<Pool<LoneBroker>, AllocError>
    requires first { words.place ≡ 0 }
    requires some_zone { 1 ≤ zones }
    requires few_zones { zones ≤ most_zones }
    ensures rules { IfOk result (λ pool. pool.rules ≡ rules_by opts zones words.source) }
    ensures entries { IfOk result (λ pool. pool.journal.items ≡ []) }
    ensures moves { IfOk result HasMoves }
{
    let broker = LoneBroker::new(alloc, zones)?;
    match Pool::start(alloc, opts, words, zones, broker) {
        Ok(pool) => Ok(pool),
        Err(_) => Err(AllocError),
    }
}

/// Runs the script on a new pool, by the options and the words of the head.
pub fn run_script<R: Wait>(
    rt: &R,
    alloc: Global,
    head: &Head,
    script: &Script,
) -> Result<Ran, AllocError>
    requires head { IsHead head.now }
    requires script { IsScript script.now }
    ensures ran { IfOk result (λ ran. RanAlone head.now script.now ran.pool ran.transcript) }
    ensures faulted { IfOk result (λ ran. ran.faulted ≡ list_any is_fault ran.transcript) }
{
    let words = head.plan.words(alloc, 0)?;
    let mut pool = new_pool(alloc, head.opts, words, head.zones)?;
    let mut values = vec![in alloc; 0u64; script.variables()]?;
    let mut transcript = Transcript::new(alloc);
    for (i, command) in script.commands().iter().enumerate() {
        let outcome = run_command(rt, &mut pool, &mut values, i as u32 + 1, *command)?;
        transcript.push(outcome)?;
        if is_fault(outcome) {
            return Ok(Ran {
                pool,
                transcript,
                faulted: true,
            });
        }
    }
    Ok(Ran {
        pool,
        transcript,
        faulted: false,
    })
}
