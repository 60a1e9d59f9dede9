//! Zone order: which pool has a bit after how many moves, and whether the moves are in order.
ghost use Rattle.std.specs.Prelude.{not, ◌≡◌, ℕ, ◌+◌, ◌-◌, ◌≤◌, ◌↔◌, count_by, IsTrue, IfSome};
ghost use Rattle.std.specs.List.{find, list_all, range_with_len};
ghost use Rattle.std.specs.Option.{is_some};
ghost use Rattle.om_geom.specs.Fit.{is_clear_run, is_in_run};
ghost use Rattle.om_model.specs.Zones.Order.{is_at, last_version, owner_after, owner, fit_at, HadOwner, IsNumbered};
ghost use Rattle.om_model.specs.Zones.Order.{IsLawfulClaim, IsLawfulRelease, IsLawfulMove, IsZoneOrder};

use crate::entry::{Move, ZoneMove};
use om_geom::ZONE_PAGES;

/// How many moves the zone has.
pub fn last_version(moves: &[ZoneMove], zone: u32) -> u64
    ensures { result ≡ last_version moves.now zone }
{
    moves.iter().filter(|m| m.made.zone == zone).count() as u64
}

// The move that made the version of the zone.
fn move_at(moves: &[ZoneMove], zone: u32, version: u64) -> Option<ZoneMove>
    ensures { result ≡ find (is_at zone version) moves.now }
{
    moves.iter().copied().find(|m| is_at(m, zone, version))
}

fn is_at(m: &ZoneMove, zone: u32, version: u64) -> bool
    ensures { result ≡ is_at zone version m.now }
{
    m.made.zone == zone && u64::from(m.made.version) == version
}

fn is_in_run(made: Move, bit: u64) -> bool
    ensures { result ≡ is_in_run made.first made.count bit }
{
    u64::from(made.first) <= bit && bit < u64::from(made.first) + u64::from(made.count)
}

// The pool that has the bit after the move, given the one before.
fn owner_after(found: Option<ZoneMove>, bit: u64, before: Option<u32>) -> Option<u32>
    ensures { result ≡ owner_after found bit before }
{
    match found {
        Some(m) if is_in_run(m.made, bit) => m.claims.then_some(m.pool),
        _ => before,
    }
}

/// The pool that has the bit of the zone after so many of its moves.
pub fn owner(moves: &[ZoneMove], zone: u32, version: u64, bit: u64) -> Option<u32>
    ensures { result ≡ owner moves.now zone version bit }
{
    let mut holder = None;
    for i in 0..version {
        holder = owner_after(move_at(moves, zone, i + 1), bit, holder);
    }
    holder
}

// Whether so many bits from the first on are there, and were clear after so many moves of the zone.
fn is_clear(moves: &[ZoneMove], zone: u32, version: u64, count: u64, first: u32) -> bool
    ensures { result ≡
        is_clear_run (λ bit. is_some (owner moves.now zone version bit)) count first }
{
    let pages = u64::from(ZONE_PAGES);
    count <= pages
        && u64::from(first) + count <= pages
        && are_clear(moves, zone, version, first, first + count as u32)
}

fn are_clear(moves: &[ZoneMove], zone: u32, version: u64, first: u32, end: u32) -> bool
    ensures { result ≡ list_all (λ bit. not (is_some (owner moves.now zone version bit)))
        (range_with_len first (end - first)) }
{
    (first..end).all(|bit| owner(moves, zone, version, u64::from(bit)).is_none())
}

/// Where so many pages fitted in the zone after so many of its moves, for a search by the word.
pub fn fit_at(moves: &[ZoneMove], zone: u32, version: u64, count: u64, word: u32) -> Option<u32>
    ensures { result ≡ fit_at moves.now zone version count word }
{
    let start = word % ZONE_PAGES;
    (start..ZONE_PAGES)
        .chain(0..start)
        .find(|first| is_clear(moves, zone, version, count, *first))
}

// Whether each bit of the move had this owner before it, or none.
fn had_owner(moves: &[ZoneMove], m: ZoneMove, holder: Option<u32>) -> bool
    ensures { IsTrue result ↔ HadOwner moves.now m holder }
{
    let before = version_before(m);
    for i in 0..m.made.count {
        let bit = u64::from(m.made.first) + u64::from(i);
        if owner(moves, m.made.zone, before, bit) != holder {
            return false;
        }
    }
    true
}

// The version of the zone before the move.
fn version_before(m: ZoneMove) -> u64
    ensures { result ≡ m.made.version - 1 }
{
    u64::from(m.made.version).saturating_sub(1)
}

// Whether a claim by a search takes the first fit.
fn is_first_fit(moves: &[ZoneMove], m: ZoneMove) -> bool
    ensures { IsTrue result ↔ IfSome m.search (λ word.
        fit_at moves.now m.made.zone (m.made.version - 1) m.made.count word ≡ Some m.made.first) }
{
    let Some(word) = m.search else {
        return true;
    };
    let fit = fit_at(
        moves,
        m.made.zone,
        version_before(m),
        u64::from(m.made.count),
        word,
    );
    fit == Some(m.made.first)
}

fn is_lawful_claim(moves: &[ZoneMove], m: ZoneMove) -> bool
    ensures { IsTrue result ↔ IsLawfulClaim moves.now m }
{
    had_owner(moves, m, None) && is_first_fit(moves, m)
}

fn is_lawful_release(moves: &[ZoneMove], m: ZoneMove) -> bool
    ensures { IsTrue result ↔ IsLawfulRelease moves.now m }
{
    had_owner(moves, m, Some(m.pool))
}

fn is_lawful_move(moves: &[ZoneMove], m: ZoneMove) -> bool
    ensures { IsTrue result ↔ IsLawfulMove moves.now m }
{
    if m.claims {
        is_lawful_claim(moves, m)
    } else {
        is_lawful_release(moves, m)
    }
}

fn count_at(moves: &[ZoneMove], zone: u32, version: u64) -> usize
    ensures { result ≡ count_by (is_at zone version) moves.now }
{
    moves.iter().filter(|m| is_at(m, zone, version)).count()
}

// Whether the zone's moves have the versions 1, 2, .., each once.
fn is_numbered(moves: &[ZoneMove], zone: u32) -> bool
    ensures { IsTrue result ↔ IsNumbered moves.now zone }
{
    for i in 0..last_version(moves, zone) {
        if count_at(moves, zone, i + 1) != 1 {
            return false;
        }
    }
    true
}

fn is_in_order(moves: &[ZoneMove], m: ZoneMove) -> bool
    ensures { IsTrue result ↔ (IsNumbered moves.now m.made.zone × IsLawfulMove moves.now m) }
{
    is_numbered(moves, m.made.zone) && is_lawful_move(moves, m)
}

/// Whether the moves are in order: those of each zone have the versions 1, 2, .., each once, a claim takes
/// the first run that is clear from its word's bit on, and a release gives up bits of its own pool.
pub fn is_zone_order(moves: &[ZoneMove]) -> bool
    ensures { IsTrue result ↔ IsZoneOrder moves.now }
{
    for m in moves {
        if !is_in_order(moves, *m) {
            return false;
        }
    }
    true
}
