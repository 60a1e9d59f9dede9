//! Calls of a script: how they stand in the journals, and how they are read from them.
ghost use Rattle.std.specs.Prelude.{◌≡◌, ◌+◌, ◌-◌, ◌%◌, ◌<◌, ◌≤◌, ◌↔◌, ◌++◌, List, [], ◌∷◌, map, slice_index_or, IsTrue, IfOk, OnOk};
ghost use Rattle.std.specs.List.{flat_map, AllByRecursion};
ghost use Rattle.om_model.specs.Data.Room.{entries_of};
ghost use Rattle.om_model.specs.Pool.WellFormed.{EachPair};
ghost use Rattle.om_model.specs.Scripts.Calls.{IsSearch, IsAnswered, CallerBelow, asked_in, seen_of, seen_from, seen_in, AreCalls, OnlyCallers};
ghost use Rattle.om_model.specs.Slow.{answered_in, answers_in, begun_by, reply_to, replies_to, seen_at};
ghost use Rattle.om_model.specs.declared.entry.Entry.{Entry};
ghost use Rattle.om_model.specs.declared.operation.Call.{Call};
ghost use Rattle.om_model.specs.declared.reply.Reply.{Reply};

use super::journal::{are_counted, counted, phase_numbers};
use crate::entry::{Asked, CallEntry, Entry};
use crate::journal::Journal;
use crate::operation::{Call, Op};
use crate::reply::Reply;
use std::alloc::{AllocError, Global};

/// A call of a script, and the replies of the pools that it asked.
#[derive(Drop)]
pub struct Answered {
    pub call: Call,
    pub replies: Vec<Reply>,
}

// Whether a call with an address may have had these replies from so many pools.
fn is_search(pools: u32, replies: &[Reply]) -> bool
    ensures { IsTrue result ↔ IsSearch pools replies.now }
{
    let Some((reply, others)) = replies.split_first() else {
        return false;
    };
    let misses = matches!(reply, Reply::Miss);
    if others.is_empty() {
        !misses || pools == 1
    } else {
        misses && 1 < pools && is_search(pools - 1, others)
    }
}

// Whether a call may have had these replies.
fn is_answered(pools: u32, op: Op, replies: &[Reply]) -> bool
    ensures { IsTrue result ↔ IsAnswered pools op replies.now }
{
    match op {
        Op::Malloc { .. } | Op::Calloc { .. } => replies.len() == 1,
        _ => is_search(pools, replies),
    }
}

// Whether each call may have had its replies.
fn are_answered(pools: u32, answered: &[Answered]) -> bool
    ensures { IsTrue result ↔
        AllByRecursion (λ a. IsAnswered pools (a.0).op a.1) (answers_in answered.now) }
{
    for one in answered {
        if !is_answered(pools, one.call.op, &one.replies) {
            return false;
        }
    }
    true
}

// What the pool's journal should show of the call.
fn push_asked(
    asked: &mut Vec<Asked>,
    pools: u32,
    caller: u32,
    pool: u32,
    answered: &Answered,
) -> Result<(), AllocError>
    requires { 1 ≤ pools }
    ensures { OnOk result (asked.new.items ≡ asked.old.items ++
        asked_in pools caller pool (answered_in answered.now)) }
{
    let call = answered.call;
    for (hop, reply) in answered.replies.iter().enumerate() {
        if (u128::from(caller) + hop as u128) % u128::from(pools) == u128::from(pool) {
            asked.push(Asked {
                command: call.command,
                phase: call.phase,
                hop: hop as u64,
                op: call.op,
                reply: *reply,
            })?;
        }
    }
    Ok(())
}

// What the pool's journal should show of all calls.
fn asked_in(
    alloc: Global,
    pools: u32,
    caller: u32,
    pool: u32,
    answered: &[Answered],
) -> Result<Vec<Asked>, AllocError>
    requires { 1 ≤ pools }
    ensures { IfOk result (λ asked. asked.items ≡
        flat_map (asked_in pools caller pool) (answers_in answered.now)) }
{
    let mut asked = Vec::new(alloc);
    for one in answered {
        push_asked(&mut asked, pools, caller, pool, one)?;
    }
    Ok(asked)
}

// What the entry of a call in this phase shows of the caller.
fn push_seen(
    seen: &mut Vec<Asked>,
    caller: u32,
    phase: u32,
    call: &CallEntry,
) -> Result<(), AllocError>
    ensures { OnOk result (seen.new.items ≡ seen.old.items ++ seen_of caller phase call.now) }
{
    if call.who.caller == caller {
        seen.push(Asked {
            command: call.who.command,
            phase,
            hop: u64::from(call.who.hop),
            op: call.op,
            reply: call.reply,
        })?;
    }
    Ok(())
}

// What an entry in this phase shows of the caller. The phase of the next one.
fn push_entry(
    seen: &mut Vec<Asked>,
    caller: u32,
    phase: u32,
    entry: &Entry,
) -> Result<u32, AllocError>
    ensures { IfOk result (λ next. (rest : List Entry) →
        seen.old.items ++ seen_from caller phase (entry.now ∷ rest)
        ≡ seen.new.items ++ seen_from caller next rest) }
{
    match entry {
        Entry::Call(call) => {
            push_seen(seen, caller, phase, call)?;
            Ok(phase)
        }
        Entry::Phase(number) => Ok(*number),
    }
}

// What a journal shows of the caller.
fn seen_in(alloc: Global, caller: u32, journal: &Journal) -> Result<Vec<Asked>, AllocError>
    ensures { IfOk result (λ seen. seen.items ≡ seen_in caller journal.now.items) }
{
    let mut seen = Vec::new(alloc);
    let mut phase = 0;
    for entry in journal.as_slice() {
        phase = push_entry(&mut seen, caller, phase, entry)?;
    }
    Ok(seen)
}

// What a pool's journal shows of the caller; a pool without a journal shows nothing.
fn seen_at(
    alloc: Global,
    caller: u32,
    pool: u32,
    journals: &[Journal],
) -> Result<Vec<Asked>, AllocError>
    ensures { IfOk result (λ seen. seen.items ≡
        seen_in caller (slice_index_or (entries_of journals.now) pool [])) }
{
    match journals.get(pool as usize) {
        Some(journal) => seen_in(alloc, caller, journal),
        None => Ok(Vec::new(alloc)),
    }
}

fn show_same(seen: &[Asked], asked: &[Asked]) -> bool
    ensures { IsTrue result ↔ (seen.now ≡ asked.now) }
{
    seen == asked
}

// Whether the pool's journal shows the calls of the caller, and nothing else of it.
fn stand_in(
    alloc: Global,
    pools: u32,
    caller: u32,
    pool: u32,
    answered: &[Answered],
    journals: &[Journal],
) -> Result<bool, AllocError>
    requires { 1 ≤ pools }
    ensures { IfOk result (λ stand. IsTrue stand ↔
        (seen_in caller (slice_index_or (entries_of journals.now) pool [])
        ≡ flat_map (asked_in pools caller pool) (answers_in answered.now))) }
{
    let seen = seen_at(alloc, caller, pool, journals)?;
    let asked = asked_in(alloc, pools, caller, pool, answered)?;
    Ok(show_same(&seen, &asked))
}

/// Whether a caller's calls with the replies to each stand in the journals, and nothing else of it does.
pub fn are_calls(
    alloc: Global,
    pools: u32,
    caller: u32,
    answered: &[Answered],
    journals: &[Journal],
) -> Result<bool, AllocError>
    ensures { IfOk result (λ are. IsTrue are ↔
        AreCalls pools caller (answers_in answered.now) (entries_of journals.now)) }
{
    if !are_answered(pools, answered) {
        return Ok(false);
    }
    for pool in 0..pools {
        if !stand_in(alloc, pools, caller, pool, answered, journals)? {
            return Ok(false);
        }
    }
    Ok(true)
}

// The calls begin in the caller's own pool.
fn calls_begun(alloc: Global, seen: &[Asked]) -> Result<Vec<Call>, AllocError>
    ensures { IfOk result (λ calls. calls.items ≡ flat_map begun_by seen.now) }
{
    let mut calls = Vec::new(alloc);
    for asked in seen {
        push_begun(&mut calls, asked)?;
    }
    Ok(calls)
}

fn push_begun(calls: &mut Vec<Call>, asked: &Asked) -> Result<(), AllocError>
    ensures { OnOk result (calls.new.items ≡ calls.old.items ++ begun_by asked.now) }
{
    if asked.hop == 0 {
        calls.push(Call {
            command: asked.command,
            phase: asked.phase,
            op: asked.op,
        })?;
    }
    Ok(())
}

fn push_replies(
    replies: &mut Vec<Reply>,
    command: u32,
    hop: u64,
    seen: &[Asked],
) -> Result<(), AllocError>
    ensures { OnOk result (replies.new.items ≡ replies.old.items ++
        flat_map (reply_to command hop) seen.now) }
{
    for asked in seen {
        push_reply(replies, command, hop, asked)?;
    }
    Ok(())
}

fn push_reply(
    replies: &mut Vec<Reply>,
    command: u32,
    hop: u64,
    asked: &Asked,
) -> Result<(), AllocError>
    ensures { OnOk result (replies.new.items ≡ replies.old.items ++
        reply_to command hop asked.now) }
{
    if asked.hop == hop && asked.command == command {
        replies.push(asked.reply)?;
    }
    Ok(())
}

// The pool that is asked after so many others.
fn pool_after(pools: u32, caller: u32, hop: u32) -> u32
    requires { 1 ≤ pools }
    ensures { result ≡ (caller + hop) % pools }
{
    ((u64::from(caller) + u64::from(hop)) % u64::from(pools)) as u32
}

// The replies to the command, pool by pool from that of the caller on.
fn replies_to(
    alloc: Global,
    pools: u32,
    caller: u32,
    command: u32,
    journals: &[Journal],
) -> Result<Vec<Reply>, AllocError>
    requires { 1 ≤ pools }
    ensures { IfOk result (λ replies. replies.items ≡
        replies_to pools caller (seen_at caller (entries_of journals.now)) command) }
{
    let mut replies = Vec::new(alloc);
    for hop in 0..pools {
        let pool = pool_after(pools, caller, hop);
        let seen = seen_at(alloc, caller, pool, journals)?;
        push_replies(&mut replies, command, u64::from(hop), &seen)?;
    }
    Ok(replies)
}

/// The calls of a caller with the replies to each, as the journals show them. If any calls with ascending
/// commands stand in the journals, they are these.
pub fn calls_read(
    alloc: Global,
    pools: u32,
    caller: u32,
    journals: &[Journal],
) -> Result<Vec<Answered>, AllocError>
    requires { 1 ≤ pools }
    ensures { IfOk result (λ read. (answered : List (Call × List Reply))
        → EachPair (λ a b. a.command < b.command) (map (λ a. a.0) answered)
        → AreCalls pools caller answered (entries_of journals.now)
        → answered ≡ answers_in read.items) }
{
    let seen = seen_at(alloc, caller, caller % pools, journals)?;
    let calls = calls_begun(alloc, &seen)?;
    let mut read = Vec::new(alloc);
    for call in &calls {
        let replies = replies_to(alloc, pools, caller, call.command, journals)?;
        read.push(Answered {
            call: *call,
            replies,
        })?;
    }
    Ok(read)
}

fn is_below(callers: u32, entry: &Entry) -> bool
    ensures { IsTrue result ↔ CallerBelow callers entry.now }
{
    match entry {
        Entry::Call(made) => made.who.caller < callers,
        Entry::Phase(_) => true,
    }
}

// Whether no entry has another caller than so many.
fn are_below(callers: u32, journal: &Journal) -> bool
    ensures { IsTrue result ↔ AllByRecursion (CallerBelow callers) journal.now.items }
{
    for entry in journal.as_slice() {
        if !is_below(callers, entry) {
            return false;
        }
    }
    true
}

/// Whether no entry has another caller than the scripts, and the journal enters the phases of the run.
pub fn only_callers(
    alloc: Global,
    scripts: u32,
    phases: u32,
    journal: &Journal,
) -> Result<bool, AllocError>
    ensures { IfOk result (λ only. IsTrue only ↔ OnlyCallers scripts phases journal.now.items) }
{
    let entered = phase_numbers(alloc, journal)?;
    let counted = counted(alloc, u64::from(phases.saturating_sub(1)))?;
    Ok(are_counted(&entered, &counted) && are_below(scripts, journal))
}
