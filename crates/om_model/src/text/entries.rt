ghost use Rattle.std.specs.Prelude.{◌≡◌, ◌<◌, ◌++◌, codes, decimal, take, length, OnOk, Option};
ghost use Rattle.std.specs.List.{flat_map};
ghost use Rattle.std.specs.Option.{option_map_or};
ghost use Rattle.om_model.specs.Output.Text.{hex, who_text, word_text, words_text, look_text, looks_text, taken_text, move_text, claim_text, release_text, call_text, entry_text, entry_line, board_entry_text, posted_line};

use super::answers::{push_op, push_reply};
use super::numbers::{push_decimal, push_hex};
use crate::board::BoardEntry;
use crate::drawn::Drawn;
use crate::entry::{CallEntry, Entry, Move};
use crate::looks::{Look, LookList};
use crate::operation::Who;
use std::alloc::AllocError;

// The numbers of who made a call.
fn push_who(out: &mut Vec<u8>, who: Who) -> Result<(), AllocError>
    ensures { OnOk result (out.new.items ≡ out.old.items ++
        (decimal who.caller ++ codes " " ++ decimal who.command ++ codes " "
        ++ decimal who.hop)) }
{
    push_decimal(out, u64::from(who.caller))?;
    out.extend_from_slice(b" ")?;
    push_decimal(out, u64::from(who.command))?;
    out.extend_from_slice(b" ")?;
    push_decimal(out, u64::from(who.hop))
}

fn push_word(out: &mut Vec<u8>, word: u32) -> Result<(), AllocError>
    ensures { OnOk result (out.new.items ≡ out.old.items ++ word_text word) }
{
    out.extend_from_slice(b" ")?;
    push_decimal(out, u64::from(word))
}

fn push_words(out: &mut Vec<u8>, words: &Drawn) -> Result<(), AllocError>
    ensures { OnOk result (out.new.items ≡ out.old.items ++ words_text words.now) }
{
    if words.is_empty() {
        return Ok(());
    }
    out.extend_from_slice(b" w")?;
    for word in words.as_slice() {
        push_word(out, *word)?;
    }
    Ok(())
}

fn push_look(out: &mut Vec<u8>, look: Look) -> Result<(), AllocError>
    ensures { OnOk result (out.new.items ≡ out.old.items ++ look_text look) }
{
    out.extend_from_slice(b" ")?;
    push_decimal(out, u64::from(look.zone))?;
    out.extend_from_slice(b"@")?;
    push_decimal(out, u64::from(look.version))
}

fn push_taken(out: &mut Vec<u8>, taken: Option<Look>) -> Result<(), AllocError>
    ensures { OnOk result (out.new.items ≡ out.old.items ++ taken_text taken) }
{
    let Some(look) = taken else {
        return Ok(());
    };
    out.extend_from_slice(b" taken")?;
    push_look(out, look)
}

fn push_looks(out: &mut Vec<u8>, looks: &LookList) -> Result<(), AllocError>
    ensures { OnOk result (out.new.items ≡ out.old.items ++ looks_text looks.now.items) }
{
    if looks.is_empty() {
        return Ok(());
    }
    out.extend_from_slice(b" look")?;
    for look in looks.as_slice() {
        push_look(out, *look)?;
    }
    Ok(())
}

/// Adds the zone, the version, the first bit and the number of pages, as ` 3@1 5+1`.
pub fn push_move(out: &mut Vec<u8>, made: Move) -> Result<(), AllocError>
    ensures { OnOk result (out.new.items ≡ out.old.items ++ move_text made) }
{
    out.extend_from_slice(b" ")?;
    push_decimal(out, u64::from(made.zone))?;
    out.extend_from_slice(b"@")?;
    push_decimal(out, u64::from(made.version))?;
    out.extend_from_slice(b" ")?;
    push_decimal(out, u64::from(made.first))?;
    out.extend_from_slice(b"+")?;
    push_decimal(out, u64::from(made.count))
}

fn push_claim(out: &mut Vec<u8>, claim: Option<Move>) -> Result<(), AllocError>
    ensures { OnOk result (out.new.items ≡ out.old.items ++ claim_text claim) }
{
    let Some(made) = claim else {
        return Ok(());
    };
    out.extend_from_slice(b" claim")?;
    push_move(out, made)
}

fn push_release(out: &mut Vec<u8>, release: Option<Move>) -> Result<(), AllocError>
    ensures { OnOk result (out.new.items ≡ out.old.items ++ release_text release) }
{
    let Some(made) = release else {
        return Ok(());
    };
    out.extend_from_slice(b" release")?;
    push_move(out, made)
}

#[tactic(auto, unfolding(crate::specs::Output::Text::call_text))]
fn push_call(out: &mut Vec<u8>, call: &CallEntry) -> Result<(), AllocError>
    ensures { OnOk result (out.new.items ≡ out.old.items ++ call_text call.now) }
{
    push_who(out, call.who)?;
    out.extend_from_slice(b" ")?;
    push_op(out, call.op)?;
    out.extend_from_slice(b" = ")?;
    push_reply(out, call.reply)?;
    push_words(out, &call.words)?;
    push_taken(out, call.taken)?;
    push_looks(out, &call.looks)?;
    push_claim(out, call.claim)?;
    push_release(out, call.release)
}

fn push_phase(out: &mut Vec<u8>, number: u32) -> Result<(), AllocError>
    ensures { OnOk result (out.new.items ≡ out.old.items ++ (codes "phase " ++ decimal number)) }
{
    out.extend_from_slice(b"phase ")?;
    push_decimal(out, u64::from(number))
}

fn push_entry(out: &mut Vec<u8>, entry: &Entry) -> Result<(), AllocError>
    ensures { OnOk result (out.new.items ≡ out.old.items ++ entry_text entry.now) }
{
    match entry {
        Entry::Call(call) => push_call(out, call),
        Entry::Phase(number) => push_phase(out, *number),
    }
}

/// Adds the line of a call or of a phase.
pub fn push_entry_line(out: &mut Vec<u8>, entry: &Entry) -> Result<(), AllocError>
    ensures { OnOk result (out.new.items ≡ out.old.items ++ entry_line entry.now) }
{
    push_entry(out, entry)?;
    out.push(b'\n')?;
    Ok(())
}

// The script and the command that used the cell.
fn push_user(out: &mut Vec<u8>, caller: u32, command: u32) -> Result<(), AllocError>
    ensures { OnOk result (out.new.items ≡ out.old.items ++
        (decimal caller ++ codes " " ++ decimal command)) }
{
    push_decimal(out, u64::from(caller))?;
    out.extend_from_slice(b" ")?;
    push_decimal(out, u64::from(command))
}

fn push_posted(out: &mut Vec<u8>, cell: u32, value: u64) -> Result<(), AllocError>
    ensures { OnOk result (out.new.items ≡ out.old.items ++
        (codes " post " ++ decimal cell ++ codes " " ++ hex value ++ codes " = done")) }
{
    out.extend_from_slice(b" post ")?;
    push_decimal(out, u64::from(cell))?;
    out.extend_from_slice(b" ")?;
    push_hex(out, value)?;
    out.extend_from_slice(b" = done")
}

fn push_value(out: &mut Vec<u8>, value: u64) -> Result<(), AllocError>
    ensures { OnOk result (out.new.items ≡ out.old.items ++ (codes " = value " ++ hex value)) }
{
    out.extend_from_slice(b" = value ")?;
    push_hex(out, value)
}

fn push_taking(out: &mut Vec<u8>, cell: u32, value: Option<u64>) -> Result<(), AllocError>
    ensures { OnOk result (out.new.items ≡ out.old.items ++
        (codes " take " ++ decimal cell ++ option_map_or (λ taken. codes " = value "
        ++ hex taken) value (codes " = empty"))) }
{
    out.extend_from_slice(b" take ")?;
    push_decimal(out, u64::from(cell))?;
    match value {
        Some(value) => push_value(out, value),
        None => out.extend_from_slice(b" = empty"),
    }
}

#[tactic(auto, unfolding(crate::specs::Output::Text::board_entry_text))]
fn push_board_entry(out: &mut Vec<u8>, entry: BoardEntry) -> Result<(), AllocError>
    ensures { OnOk result (out.new.items ≡ out.old.items ++ board_entry_text entry) }
{
    match entry {
        BoardEntry::Post {
            caller,
            command,
            cell,
            value,
        } => {
            push_user(out, caller, command)?;
            push_posted(out, cell, value)
        }
        BoardEntry::Take {
            caller,
            command,
            cell,
            value,
        } => {
            push_user(out, caller, command)?;
            push_taking(out, cell, value)
        }
        BoardEntry::Phase(number) => push_phase(out, number),
    }
}

/// Adds the line of what was done to a cell of the board, or of a phase.
pub fn push_board_line(out: &mut Vec<u8>, entry: BoardEntry) -> Result<(), AllocError>
    ensures { OnOk result (out.new.items ≡ out.old.items ++ posted_line entry) }
{
    push_board_entry(out, entry)?;
    out.push(b'\n')?;
    Ok(())
}
