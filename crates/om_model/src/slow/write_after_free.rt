//! A write after free: a byte of a delayed place that isn't the one with which its free filled it.
ghost use Rattle.std.specs.Prelude.{◌≡◌, ◌<◌, IfOk};
ghost use Rattle.std.specs.Option.{option_map};
ghost use Rattle.om_delay.specs.Changes.{changed_of, first_changed};
ghost use Rattle.om_delay.specs.Slots.{slot_count};
ghost use Rattle.om_model.specs.Output.Head.{rules_of};
ghost use Rattle.om_model.specs.Pool.Junk.{extent_of_place};
ghost use Rattle.om_model.specs.Pool.WriteAfterFree.{slot_extents, written_late};

use super::in_use::use_of_place;
use super::junk::fills_freed;
use super::state::State;
use crate::block::Place;
use crate::content::Head;
use om_delay::{Changed, FREED_BYTE};
use std::alloc::AllocError;

// The first byte of the place in a slot that was written.
fn written_in(state: &State, slot: Option<Place>) -> Result<Option<Changed>, AllocError>
    ensures { IfOk result (λ found. found ≡
        changed_of state.now.memory (option_map extent_of_place slot)) }
{
    match slot {
        Some(place) => {
            let bytes = use_of_place(place);
            let found = state
                .memory
                .first_other(bytes.first, bytes.len, FREED_BYTE)?;
            Ok(found.map(|offset| Changed {
                addr: place.address,
                offset: offset as u64,
            }))
        }
        None => Ok(None),
    }
}

// That of the first slot that has one.
#[tactic(auto, using(crate::proofs::LateWrites::none_at))]
fn first_written(state: &State, slots: &[Option<Place>]) -> Result<Option<Changed>, AllocError>
    ensures { IfOk result (λ found. found ≡
        first_changed state.now.memory (slot_extents slots.now)) }
{
    for slot in slots {
        let found = written_in(state, *slot)?;
        if found.is_some() {
            return Ok(found);
        }
    }
    Ok(None)
}

/// The place that was written while it waits, and where: of all slots under freecheck, otherwise of one.
pub(super) fn written_late(
    head: &Head,
    pool: u32,
    state: &State,
    slot: usize,
) -> Result<Option<Changed>, AllocError>
    requires { slot < slot_count }
    ensures { IfOk result (λ found. found ≡
        written_late (rules_of head.now pool) state.now slot) }
{
    if !fills_freed(head, pool) {
        Ok(None)
    } else if head.opts.freecheck {
        first_written(state, &state.slots)
    } else {
        written_in(state, state.slots[slot])
    }
}
