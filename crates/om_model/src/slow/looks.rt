//! Looks: what a claim says of the zones that it passed over or of a page that it found held, and the versions that a
//! journal names.
ghost use Rattle.std.specs.Prelude.{◌≡◌, ◌↔◌, ◌-◌, ◌≤◌, IsTrue, IsSomeAnd, IfOk, OnOk, ◌++◌, map};
ghost use Rattle.std.specs.List.{AllByRecursion, flat_map, list_any, range_with_len};
ghost use Rattle.std.specs.Option.{is_some, option_to_list};
ghost use Rattle.om_geom.specs.Addresses.{bit_of};
ghost use Rattle.om_geom.specs.Numbers.{most_zones};
ghost use Rattle.om_words.specs.PlannedWords.{HasWords};
ghost use Rattle.om_model.specs.Zones.Looks.{IsTrueLook, HasTrueLooks, IsTrueTaken, named_by_look, named_by_move, named_in, ComesAfter, Rises, AreLooks};
ghost use Rattle.om_model.specs.Zones.Order.{owner};
ghost use Rattle.om_model.specs.Output.Head.{rules_of};
ghost use Rattle.om_model.specs.Pool.Journal.{IsLawfulFrom};
ghost use Rattle.om_model.specs.Pool.State.{opening};
ghost use Rattle.om_model.specs.declared.entry.Entry.TheVariants.{Call};

use super::moves::{pages_sought, search_word};
use super::order::{fit_at, last_version, owner};
use super::taken::{TakenLook, taken_of};
use crate::content::Head;
use crate::entry::{CallEntry, Entry, Move, ZoneMove};
use crate::journal::Journal;
use crate::looks::{Look, Named};
use om_geom::ZONE_PAGES;
use std::alloc::{AllocError, Global};

/// Whether the zone has had the version of the look, and so many pages didn't fit there then, searched
/// by the word.
pub fn is_true_look(moves: &[ZoneMove], count: u64, word: u32, look: Look) -> bool
    ensures { IsTrue result ↔ IsTrueLook moves.now count word look }
{
    let version = u64::from(look.version);
    version <= last_version(moves, look.zone)
        && fit_at(moves, look.zone, version, count, word).is_none()
}

// Whether each of the looks, by the word that was searched by, is true.
fn are_true_looks(moves: &[ZoneMove], count: u64, word: Option<u32>, looks: &[Look]) -> bool
    ensures { IsTrue result ↔ AllByRecursion
        (λ look. IsSomeAnd word (λ w. IsTrueLook moves.now count w look)) looks.now }
{
    let Some((look, others)) = looks.split_first() else {
        return true;
    };
    word.is_some_and(|word| is_true_look(moves, count, word, *look))
        && are_true_looks(moves, count, word, others)
}

// Whether each look at a zone that the search of the pool's call passed over is true.
fn has_true_looks(head: &Head, pool: u32, moves: &[ZoneMove], entry: &Entry) -> bool
    ensures { IsTrue result ↔ HasTrueLooks (rules_of head.now pool) moves.now entry.now }
{
    let Entry::Call(call) = entry else {
        return true;
    };
    let word = search_word(head, pool, call);
    let count = pages_sought(head, pool, call.op);
    are_true_looks(moves, count, word, call.looks.as_slice())
}

fn are_true(head: &Head, pool: u32, moves: &[ZoneMove], journal: &Journal) -> bool
    ensures { IsTrue result ↔
        AllByRecursion (HasTrueLooks (rules_of head.now pool) moves.now) journal.now.items }
{
    for entry in journal.as_slice() {
        if !has_true_looks(head, pool, moves, entry) {
            return false;
        }
    }
    true
}

fn was_owned(moves: &[ZoneMove], zone: u32, version: u64, page: u128) -> bool
    ensures { result ≡ is_some (owner moves.now zone version (bit_of page)) }
{
    let bit = (page % u128::from(ZONE_PAGES)) as u64;
    owner(moves, zone, version, bit).is_some()
}

// Whether some of these pages of the zone had an owner after so many moves.
fn was_some_owned(moves: &[ZoneMove], zone: u32, version: u64, first: u128, end: u128) -> bool
    ensures { result ≡ list_any (λ page. is_some (owner moves.now zone version (bit_of page)))
        (range_with_len first (end - first)) }
{
    (first..end).any(|page| was_owned(moves, zone, version, page))
}

// Whether the zone has had the version of the look, and some page of the run was held then.
fn is_true_taken(moves: &[ZoneMove], taken: &TakenLook) -> bool
    ensures { IsTrue result ↔ IsTrueTaken moves.now taken.now.run taken.now.look }
{
    let look = taken.look;
    let version = u64::from(look.version);
    let first = u128::from(taken.run.first);
    let end = first + u128::from(taken.run.count);
    version <= last_version(moves, look.zone)
        && was_some_owned(moves, look.zone, version, first, end)
}

fn are_true_taken(moves: &[ZoneMove], taken: &[TakenLook]) -> bool
    ensures { IsTrue result ↔
        AllByRecursion (λ found. IsTrueTaken moves.now found.run found.look) taken.now }
{
    let Some((found, others)) = taken.split_first() else {
        return true;
    };
    is_true_taken(moves, found) && are_true_taken(moves, others)
}

fn named_by_look(look: Look) -> Named
    ensures { result ≡ named_by_look look }
{
    Named {
        zone: look.zone,
        version: look.version,
        moves: false,
    }
}

fn named_by_move(made: Move) -> Named
    ensures { result ≡ named_by_move made }
{
    Named {
        zone: made.zone,
        version: made.version,
        moves: true,
    }
}

fn push_taken(named: &mut Vec<Named>, taken: Option<Look>) -> Result<(), AllocError>
    ensures { OnOk result (named.new.items ≡ named.old.items ++
        map named_by_look (option_to_list taken)) }
{
    if let Some(look) = taken {
        named.push(named_by_look(look))?;
    }
    Ok(())
}

fn push_looks(named: &mut Vec<Named>, looks: &[Look]) -> Result<(), AllocError>
    ensures { OnOk result (named.new.items ≡ named.old.items ++ map named_by_look looks.now) }
{
    for look in looks {
        named.push(named_by_look(*look))?;
    }
    Ok(())
}

fn push_move(named: &mut Vec<Named>, made: Option<Move>) -> Result<(), AllocError>
    ensures { OnOk result (named.new.items ≡ named.old.items ++
        map named_by_move (option_to_list made)) }
{
    if let Some(made) = made {
        named.push(named_by_move(made))?;
    }
    Ok(())
}

fn push_call(named: &mut Vec<Named>, call: &CallEntry) -> Result<(), AllocError>
    ensures { OnOk result (named.new.items ≡ named.old.items ++ named_in (Call call.now)) }
{
    push_taken(named, call.taken)?;
    push_looks(named, call.looks.as_slice())?;
    push_move(named, call.claim)?;
    push_move(named, call.release)?;
    Ok(())
}

fn push_named(named: &mut Vec<Named>, entry: &Entry) -> Result<(), AllocError>
    ensures { OnOk result (named.new.items ≡ named.old.items ++ named_in entry.now) }
{
    match entry {
        Entry::Call(call) => push_call(named, call),
        Entry::Phase(_) => Ok(()),
    }
}

// What the journal names, in the order in which it came about.
fn named_in(alloc: Global, journal: &Journal) -> Result<Vec<Named>, AllocError>
    ensures { IfOk result (λ named. named.items ≡ flat_map named_in journal.now.items) }
{
    let mut named = Vec::new(alloc);
    for entry in journal.as_slice() {
        push_named(&mut named, entry)?;
    }
    Ok(named)
}

// Whether the later is not below the earlier of the same zone, and a move's is above it.
fn comes_after(earlier: Named, later: Named) -> bool
    ensures { IsTrue result ↔ ComesAfter earlier later }
{
    if earlier.zone != later.zone {
        true
    } else if later.moves {
        earlier.version < later.version
    } else {
        earlier.version <= later.version
    }
}

fn all_come_after(earlier: Named, later: &[Named]) -> bool
    ensures { IsTrue result ↔ AllByRecursion (ComesAfter earlier) later.now }
{
    for named in later {
        if !comes_after(earlier, *named) {
            return false;
        }
    }
    true
}

// Whether each is followed only by what comes after it.
fn rises(named: &[Named]) -> bool
    ensures { IsTrue result ↔ Rises named.now }
{
    let Some((earlier, later)) = named.split_first() else {
        return true;
    };
    all_come_after(*earlier, later) && rises(later)
}

/// Whether the looks of the pool's journal are true and the versions that it names rise, where the moves are
/// those of all journals. Which run a claim was made at stands in the pool's states, which lawful calls alone
/// tell: so the calls must be lawful too.
pub fn are_looks(
    alloc: Global,
    head: &Head,
    pool: u32,
    moves: &[ZoneMove],
    journal: &Journal,
) -> Result<bool, AllocError>
    requires words { HasWords head.now.plan }
    requires some_zone { 1 ≤ head.now.zones }
    requires few_zones { head.now.zones ≤ most_zones }
    ensures { IfOk result (λ are. IsTrue are ↔
        (IsLawfulFrom (rules_of head.now pool) (opening (rules_of head.now pool)) journal.now.items
        × AreLooks (rules_of head.now pool) moves.now journal.now.items)) }
{
    let Some(taken) = taken_of(alloc, head, pool, journal)? else {
        return Ok(false);
    };
    let named = named_in(alloc, journal)?;
    Ok(are_true(head, pool, moves, journal) && are_true_taken(moves, &taken) && rises(&named))
}
