//! The output text of a whole content.
ghost use Rattle.std.specs.Prelude.{◌≡◌, ◌++◌, ◌^◌, ◌≤◌, length, IfOk, OnOk};
ghost use Rattle.std.specs.List.{flat_map, enumerate_from};
ghost use Rattle.om_words.specs.PlannedWords.{HasWords};
ghost use Rattle.om_model.specs.Data.Room.{entries_of};
ghost use Rattle.om_model.specs.Output.Text.{board_lines, ended_line, entry_line, posted_line, numbered_line, pool_text, script_text, text_of};

use super::rules::canary_byte;
use crate::board::BoardEntry;
use crate::content::{Head, Told};
use crate::journal::Journal;
use crate::text;
use crate::transcript::Transcript;
use std::alloc::{AllocError, Global};

fn push_entries(out: &mut Vec<u8>, journal: &Journal) -> Result<(), AllocError>
    ensures { OnOk result (out.new.items ≡ out.old.items ++
        flat_map entry_line journal.now.items) }
{
    for entry in journal.as_slice() {
        text::push_entry_line(out, entry)?;
    }
    Ok(())
}

fn push_pool(out: &mut Vec<u8>, head: &Head, pool: u32, journal: &Journal) -> Result<(), AllocError>
    requires { HasWords head.now.plan }
    ensures { OnOk result (out.new.items ≡ out.old.items ++
        pool_text head.now (pool, journal.now.items)) }
{
    text::push_pool_title(out, pool, canary_byte(head, pool), journal.len())?;
    push_entries(out, journal)
}

fn push_pools(out: &mut Vec<u8>, head: &Head, journals: &[Journal]) -> Result<(), AllocError>
    requires words { HasWords head.now.plan }
    requires few { length journals.now ≤ 2 ^ 32 }
    ensures { OnOk result (out.new.items ≡ out.old.items ++
        flat_map (pool_text head.now) (enumerate_from 0 (entries_of journals.now))) }
{
    for (pool, journal) in journals.iter().enumerate() {
        push_pool(out, head, pool as u32, journal)?;
    }
    Ok(())
}

fn push_posts(out: &mut Vec<u8>, board: &[BoardEntry]) -> Result<(), AllocError>
    ensures { OnOk result (out.new.items ≡ out.old.items ++ flat_map posted_line board.now) }
{
    for entry in board {
        text::push_board_line(out, *entry)?;
    }
    Ok(())
}

fn push_board(out: &mut Vec<u8>, board: &[BoardEntry]) -> Result<(), AllocError>
    ensures { OnOk result (out.new.items ≡ out.old.items ++
        flat_map ended_line (board_lines board.now)) }
{
    text::push_board_title(out, board.len() as u64)?;
    push_posts(out, board)
}

fn push_outcomes(out: &mut Vec<u8>, outcomes: &Transcript) -> Result<(), AllocError>
    ensures { OnOk result (out.new.items ≡ out.old.items ++
        flat_map numbered_line (enumerate_from 1 outcomes.now)) }
{
    for (i, outcome) in outcomes.as_slice().iter().enumerate() {
        text::push_outcome_line(out, i as u32 + 1, *outcome)?;
    }
    Ok(())
}

fn push_script(out: &mut Vec<u8>, number: u64, told: &Told) -> Result<(), AllocError>
    ensures { OnOk result (out.new.items ≡ out.old.items ++ script_text (number, told.now)) }
{
    text::push_script_title(out, number, &told.name)?;
    push_outcomes(out, &told.outcomes)?;
    text::push_ending(out, text::first_fault(&told.outcomes))
}

fn push_scripts(out: &mut Vec<u8>, scripts: &[Told]) -> Result<(), AllocError>
    ensures { OnOk result (out.new.items ≡ out.old.items ++
        flat_map script_text (enumerate_from 0 scripts.now)) }
{
    for (number, told) in scripts.iter().enumerate() {
        push_script(out, number as u64, told)?;
    }
    Ok(())
}

/// The whole output that tells the journals of the pools, the board and the scripts under this head.
pub fn text_of(
    alloc: Global,
    head: &Head,
    journals: &[Journal],
    board: &[BoardEntry],
    scripts: &[Told],
) -> Result<Vec<u8>, AllocError>
    requires words { HasWords head.now.plan }
    requires few { length journals.now ≤ 2 ^ 32 }
    ensures { IfOk result (λ text. text.items ≡ text_of (record {
      head = head.now;
      journals = entries_of journals.now;
      board = board.now;
      transcripts = scripts.now;
    })) }
{
    let mut out = Vec::new(alloc);
    text::push_head(&mut out, head)?;
    push_pools(&mut out, head, journals)?;
    push_board(&mut out, board)?;
    push_scripts(&mut out, scripts)?;
    out.extend_from_slice(b"done\n")?;
    Ok(out)
}
