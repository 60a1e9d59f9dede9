//! What the plain forms of the definitions say of a journal.
ghost use Rattle.std.specs.Prelude.{◌≡◌};
ghost use Rattle.om_words.specs.PlannedWords.{HasWords};

use om_geom::MOST_ZONES;
use om_model::{Head, Journal, ZoneMove, slow};
use om_opts::Opts;
use om_words::WordPlan;
use std::alloc::{AllocError, Global};
use std::process::Abort;
use std::slice;

// The head of an arena of 64 zones.
pub(super) fn head_of(alloc: Global, opts: Opts, plan: WordPlan) -> Head
    ensures plan { result.plan ≡ plan }
    ensures zones { result.zones ≡ 64 }
{
    Head {
        opts,
        zones: MOST_ZONES,
        plan,
        warned: Vec::new(alloc),
    }
}

pub(super) fn judge_lawful<R: Abort>(
    rt: &R,
    alloc: Global,
    head: &Head,
    journal: &Journal,
    wanted: bool,
) -> Result<(), AllocError>
    requires words { HasWords head.now.plan }
    requires zones { head.now.zones ≡ 64 }
{
    let lawful = slow::is_lawful(alloc, head, 0, journal)?;
    assert_eq!(rt; lawful, wanted);
    Ok(())
}

// The state that a lawful journal leaves is well formed, and isn't where no page is held.
pub(super) fn judge_left<R: Abort>(
    rt: &R,
    alloc: Global,
    head: &Head,
    journal: &Journal,
) -> Result<(), AllocError>
    requires words { HasWords head.now.plan }
    requires zones { head.now.zones ≡ 64 }
{
    let left = slow::State::opening(alloc, head, 0)?.follow_all(head, 0, journal)?;
    match left {
        Some(state) => judge_state(rt, alloc, head, state),
        None => {
            assert!(rt; false);
            Ok(())
        }
    }
}

fn judge_state<R: Abort>(
    rt: &R,
    alloc: Global,
    head: &Head,
    mut state: slow::State,
) -> Result<(), AllocError> {
    assert!(rt; state.is_well_formed(head, 0)?);
    state.held = Vec::new(alloc);
    assert!(rt; !state.is_well_formed(head, 0)?);
    Ok(())
}

// The moves are in the zones' order, and aren't where one is told twice.
pub(super) fn judge_order<R: Abort>(rt: &R, moves: &mut Vec<ZoneMove>) -> Result<(), AllocError> {
    assert!(rt; slow::is_zone_order(moves));
    if let Some(first) = moves.first().copied() {
        moves.push(first)?;
        assert!(rt; !slow::is_zone_order(moves));
    }
    Ok(())
}

pub(super) fn moves_of(
    alloc: Global,
    head: &Head,
    journal: &Journal,
) -> Result<Vec<ZoneMove>, AllocError> {
    slow::moves_of(alloc, head, slice::from_ref(journal))
}

// The looks of a journal are true, where the moves are its own.
pub(super) fn judge_moves<R: Abort>(
    rt: &R,
    alloc: Global,
    head: &Head,
    journal: &Journal,
) -> Result<(), AllocError>
    requires words { HasWords head.now.plan }
    requires zones { head.now.zones ≡ 64 }
{
    let mut moves = moves_of(alloc, head, journal)?;
    assert!(rt; slow::are_looks(alloc, head, 0, &moves, journal)?);
    judge_order(rt, &mut moves)
}

// The versions of two zones, and the bits of which the last page of zone 0 is one.
pub(super) fn judge_full_zone<R: Abort>(rt: &R, moves: &[ZoneMove]) {
    assert_eq!(rt; moves.len(), 33);
    assert_eq!(rt; slow::last_version(moves, 0), 32);
    assert_eq!(rt; slow::last_version(moves, 1), 1);
    assert_eq!(rt; slow::owner(moves, 0, 31, 31), None);
    assert_eq!(rt; slow::owner(moves, 0, 32, 31), Some(0));
    assert_eq!(rt; slow::fit_at(moves, 0, 31, 1, 0), Some(31));
    assert_eq!(rt; slow::fit_at(moves, 0, 32, 1, 0), None);
}

// Without the last claim in zone 0 it had not so many versions as the look says.
pub(super) fn judge_short<R: Abort>(
    rt: &R,
    alloc: Global,
    head: &Head,
    moves: &[ZoneMove],
    journal: &Journal,
) -> Result<(), AllocError>
    requires words { HasWords head.now.plan }
    requires zones { head.now.zones ≡ 64 }
{
    assert!(rt; slow::are_looks(alloc, head, 0, moves, journal)?);
    let fewer = moves.get(..31).unwrap_or(&[]);
    assert!(rt; !slow::are_looks(alloc, head, 0, fewer, journal)?);
    Ok(())
}
