//! The moves of the zones, as they stand in all journals.
ghost use Rattle.std.specs.Prelude.{◌≡◌, ℕ, ◌+◌, ◌++◌, ◌^◌, ◌<◌, length, IfOk, OnOk};
ghost use Rattle.om_model.specs.Data.Room.{entries_of};
ghost use Rattle.om_model.specs.Output.Head.{rules_of};
ghost use Rattle.om_model.specs.Zones.Moves.{size_asked, pages_sought, search_word, moves_of_call, moves_of_entry, moves_of, moves_from};

use super::malloc::{pages_for, words_for};
use super::product::product;
use crate::content::Head;
use crate::entry::{CallEntry, Entry, ZoneMove};
use crate::journal::Journal;
use crate::operation::Op;
use std::alloc::{AllocError, Global};

/// The moves of all journals, that of pool 0 first.
pub fn moves_of(
    alloc: Global,
    head: &Head,
    journals: &[Journal],
) -> Result<Vec<ZoneMove>, AllocError>
    requires { length journals.now < 2 ^ 32 }
    ensures { IfOk result (λ moves.
        moves.items ≡ moves_from (rules_of head.now) 0 (entries_of journals.now)) }
{
    moves_from(alloc, head, 0, journals)
}

// The moves of these journals, of which the first is that of the pool.
fn moves_from(
    alloc: Global,
    head: &Head,
    pool: u32,
    journals: &[Journal],
) -> Result<Vec<ZoneMove>, AllocError>
    requires { pool + length journals.now < 2 ^ 32 }
    ensures { IfOk result (λ moves.
        moves.items ≡ moves_from (rules_of head.now) pool (entries_of journals.now)) }
{
    let Some((journal, journals)) = journals.split_first() else {
        return Ok(Vec::new(alloc));
    };
    let mut moves = moves_in(alloc, head, pool, journal)?;
    let others = moves_from(alloc, head, pool + 1, journals)?;
    moves.extend_from_slice(&others)?;
    Ok(moves)
}

// The moves of the pool's journal.
fn moves_in(
    alloc: Global,
    head: &Head,
    pool: u32,
    journal: &Journal,
) -> Result<Vec<ZoneMove>, AllocError>
    ensures { IfOk result (λ moves.
        moves.items ≡ moves_of (rules_of head.now pool) pool journal.now.items) }
{
    let mut moves = Vec::new(alloc);
    for entry in journal.as_slice() {
        push_entry(&mut moves, head, pool, entry)?;
    }
    Ok(moves)
}

fn push_entry(
    moves: &mut Vec<ZoneMove>,
    head: &Head,
    pool: u32,
    entry: &Entry,
) -> Result<(), AllocError>
    ensures { OnOk result (moves.new.items ≡
        moves.old.items ++ moves_of_entry (rules_of head.now pool) pool entry.now) }
{
    match entry {
        Entry::Call(call) => push_moves(moves, head, pool, call),
        Entry::Phase(_) => Ok(()),
    }
}

fn push_moves(
    moves: &mut Vec<ZoneMove>,
    head: &Head,
    pool: u32,
    call: &CallEntry,
) -> Result<(), AllocError>
    ensures { OnOk result (moves.new.items ≡
        moves.old.items ++ moves_of_call (rules_of head.now pool) pool call.now) }
{
    if let Some(made) = call.claim {
        moves.push(ZoneMove {
            pool,
            claims: true,
            made,
            search: search_word(head, pool, call),
        })?;
    }
    if let Some(made) = call.release {
        moves.push(ZoneMove {
            pool,
            claims: false,
            made,
            search: None,
        })?;
    }
    Ok(())
}

// The size of the block that an operation asks for; none where a product has no number of 64 bits.
fn size_asked(op: Op) -> Option<u64>
    ensures { result ≡ size_asked op }
{
    match op {
        Op::Malloc { size, .. } | Op::Realloc { size, .. } => Some(size),
        Op::Calloc { count, size, .. } | Op::Reallocarray { count, size, .. } => {
            product(count, size)
        }
        Op::Free { .. } | Op::Load { .. } | Op::Store { .. } => None,
    }
}

/// The word by which a call of the pool searches.
pub(super) fn search_word(head: &Head, pool: u32, call: &CallEntry) -> Option<u32>
    ensures { result ≡ search_word (rules_of head.now pool) call.now }
{
    let size = size_asked(call.op)?;
    let words = call.words.as_slice();
    let first = words
        .len()
        .saturating_sub(words_for(head, pool, size) as usize);
    words.get(first).copied()
}

/// The pages that a call of the pool seeks.
pub(super) fn pages_sought(head: &Head, pool: u32, op: Op) -> u64
    ensures { result ≡ pages_sought (rules_of head.now pool) op }
{
    match size_asked(op) {
        Some(size) => pages_for(head, pool, size),
        None => 0,
    }
}
