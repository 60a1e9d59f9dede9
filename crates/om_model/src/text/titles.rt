ghost use Rattle.std.specs.Prelude.{◌≡◌, ◌++◌, ◌<◌, map, length, codes, decimal, OnOk, IfSome};
ghost use Rattle.std.specs.List.{flat_map, join_with_byte, position};
ghost use Rattle.om_model.specs.Output.Text.{head_lines, flag, flags_text, plan_text, byte_text, ending_line, ended_line, warned_line, numbered_line};
ghost use Rattle.om_model.specs.Scripts.Outcomes.{is_fault};

use super::answers::push_outcome;
use super::numbers::{push_byte, push_decimal};
use crate::content::Head;
use crate::reply::Outcome;
use crate::transcript::Transcript;
use om_opts::Opts;
use om_words::{WordList, WordPlan};
use std::alloc::AllocError;

/// Adds the lines above the pools.
pub fn push_head(out: &mut Vec<u8>, head: &Head) -> Result<(), AllocError>
    ensures { OnOk result (out.new.items ≡ out.old.items ++
        flat_map ended_line (head_lines head.now)) }
{
    out.extend_from_slice(b"omalloc 1\n")?;
    push_options(out, head.zones, head.opts)?;
    push_plan(out, &head.plan)?;
    push_warnings(out, head.warned.as_slice())
}

// The line of the zones and the options.
fn push_options(out: &mut Vec<u8>, zones: u32, opts: Opts) -> Result<(), AllocError>
    ensures { OnOk result (out.new.items ≡ out.old.items ++
        ended_line (codes "zones " ++ decimal zones ++ codes " pools " ++ decimal opts.pools
        ++ codes " flags " ++ flags_text opts ++ codes " junk " ++ decimal opts.junk
        ++ codes " cache " ++ decimal opts.cache)) }
{
    push_counts(out, zones, opts.pools)?;
    push_flags(out, opts)?;
    push_levels(out, opts.junk, opts.cache)
}

fn push_counts(out: &mut Vec<u8>, zones: u32, pools: u32) -> Result<(), AllocError>
    ensures { OnOk result (out.new.items ≡ out.old.items ++
        (codes "zones " ++ decimal zones ++ codes " pools " ++ decimal pools)) }
{
    out.extend_from_slice(b"zones ")?;
    push_decimal(out, u64::from(zones))?;
    out.extend_from_slice(b" pools ")?;
    push_decimal(out, u64::from(pools))
}

fn flag(on: bool, letter: u8) -> u8
    ensures { result ≡ flag on letter }
{
    if on { letter } else { b'-' }
}

// The letters of the options that are on.
fn push_flags(out: &mut Vec<u8>, opts: Opts) -> Result<(), AllocError>
    ensures { OnOk result (out.new.items ≡ out.old.items ++
        (codes " flags " ++ flags_text opts)) }
{
    out.extend_from_slice(b" flags ")?;
    out.extend_from_slice(&[
        flag(opts.canary, b'C'),
        flag(opts.freecheck, b'F'),
        flag(opts.guard, b'G'),
        flag(opts.always_move, b'R'),
        flag(opts.unmap, b'U'),
        flag(opts.xmalloc, b'X'),
        flag(opts.dump, b'D'),
    ])
}

fn push_levels(out: &mut Vec<u8>, junk: u8, cache: u32) -> Result<(), AllocError>
    ensures { OnOk result (out.new.items ≡ out.old.items ++
        ended_line (codes " junk " ++ decimal junk ++ codes " cache " ++ decimal cache)) }
{
    out.extend_from_slice(b" junk ")?;
    push_decimal(out, u64::from(junk))?;
    out.extend_from_slice(b" cache ")?;
    push_decimal(out, u64::from(cache))?;
    out.push(b'\n')?;
    Ok(())
}

// The line of the words.
fn push_plan(out: &mut Vec<u8>, plan: &WordPlan) -> Result<(), AllocError>
    ensures { OnOk result (out.new.items ≡ out.old.items ++
        ended_line (codes "words " ++ plan_text plan.now)) }
{
    out.extend_from_slice(b"words ")?;
    push_source(out, plan)?;
    out.push(b'\n')?;
    Ok(())
}

fn push_source(out: &mut Vec<u8>, plan: &WordPlan) -> Result<(), AllocError>
    ensures { OnOk result (out.new.items ≡ out.old.items ++ plan_text plan.now) }
{
    match plan {
        WordPlan::Listed(list) => {
            out.extend_from_slice(b"list ")?;
            push_listed(out, list)
        }
        WordPlan::Seeded(seed) => {
            out.extend_from_slice(b"seed ")?;
            push_decimal(out, *seed)
        }
    }
}

// The words, with commas between them.
fn push_listed(out: &mut Vec<u8>, list: &WordList) -> Result<(), AllocError>
    ensures { OnOk result (out.new.items ≡ out.old.items ++
        join_with_byte 44 (map decimal list.now)) }
{
    if list.len() == 0 {
        return Ok(());
    }
    push_decimal(out, u64::from(list.word(0)))?;
    for i in 1..list.len() {
        out.push(b',')?;
        push_decimal(out, u64::from(list.word(i)))?;
    }
    Ok(())
}

// A line for each byte that has no meaning.
fn push_warnings(out: &mut Vec<u8>, warned: &[u8]) -> Result<(), AllocError>
    ensures { OnOk result (out.new.items ≡ out.old.items ++ flat_map warned_line warned.now) }
{
    for byte in warned {
        push_warning(out, *byte)?;
    }
    Ok(())
}

fn push_warning(out: &mut Vec<u8>, byte: u8) -> Result<(), AllocError>
    ensures { OnOk result (out.new.items ≡ out.old.items ++ warned_line byte) }
{
    out.extend_from_slice(b"warning unknown option 0x")?;
    push_byte(out, byte)?;
    out.push(b'\n')?;
    Ok(())
}

/// Adds the title of a pool, with its canary byte and how many entries its journal has.
pub fn push_pool_title(
    out: &mut Vec<u8>,
    pool: u32,
    canary: u8,
    entries: u32,
) -> Result<(), AllocError>
    ensures { OnOk result (out.new.items ≡ out.old.items ++
        ended_line (codes "pool " ++ decimal pool ++ codes " canary " ++ byte_text canary
        ++ codes " entries " ++ decimal entries)) }
{
    out.extend_from_slice(b"pool ")?;
    push_decimal(out, u64::from(pool))?;
    out.extend_from_slice(b" canary ")?;
    push_byte(out, canary)?;
    out.extend_from_slice(b" entries ")?;
    push_decimal(out, u64::from(entries))?;
    out.push(b'\n')?;
    Ok(())
}

/// Adds the title of the board, with how many entries it has.
pub fn push_board_title(out: &mut Vec<u8>, entries: u64) -> Result<(), AllocError>
    ensures { OnOk result (out.new.items ≡ out.old.items ++
        ended_line (codes "board entries " ++ decimal entries)) }
{
    out.extend_from_slice(b"board entries ")?;
    push_decimal(out, entries)?;
    out.push(b'\n')?;
    Ok(())
}

/// Adds the title of the script with that number.
pub fn push_script_title(out: &mut Vec<u8>, number: u64, name: &[u8]) -> Result<(), AllocError>
    ensures { OnOk result (out.new.items ≡ out.old.items ++
        ended_line (codes "script " ++ decimal number ++ codes " " ++ name.now)) }
{
    out.extend_from_slice(b"script ")?;
    push_decimal(out, number)?;
    out.extend_from_slice(b" ")?;
    out.extend_from_slice(name)?;
    out.push(b'\n')?;
    Ok(())
}

/// Adds the line of the command with that number, from 1 on.
pub fn push_outcome_line(out: &mut Vec<u8>, number: u32, outcome: Outcome) -> Result<(), AllocError>
    ensures { OnOk result (out.new.items ≡ out.old.items ++ numbered_line (number, outcome)) }
{
    push_decimal(out, u64::from(number))?;
    out.extend_from_slice(b" ")?;
    push_outcome(out, outcome)?;
    out.push(b'\n')?;
    Ok(())
}

/// The place of the first outcome that is a fault, from 0 on.
pub fn first_fault(outcomes: &Transcript) -> Option<u32>
    ensures { result ≡ position is_fault outcomes.now }
{
    fault_in(outcomes.as_slice()).map(|place| place as u32)
}

fn fault_in(outcomes: &[Outcome]) -> Option<usize>
    ensures place { result ≡ position is_fault outcomes.now }
    ensures within { IfSome result (λ place. place < length outcomes.now) }
{
    outcomes
        .iter()
        .position(|outcome| matches!(outcome, Outcome::Fault(_)))
}

/// Adds the last line of a script, of which the outcome at this place is the first fault.
pub fn push_ending(out: &mut Vec<u8>, fault: Option<u32>) -> Result<(), AllocError>
    ensures { OnOk result (out.new.items ≡ out.old.items ++ ended_line (ending_line fault)) }
{
    match fault {
        None => out.extend_from_slice(b"finished")?,
        Some(place) => {
            out.extend_from_slice(b"faulted ")?;
            push_decimal(out, u64::from(place) + 1)?;
        }
    }
    out.push(b'\n')?;
    Ok(())
}
