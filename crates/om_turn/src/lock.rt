//! The lock, its passes, and how the first pass is made and the last one used up.
ghost use Rattle.std.specs.Prelude.{◌≡◌, [], ◌∷◌, IfOk, IfErr};
ghost use Rattle.om_turn.specs.Views.{first_view, IsWhole};
ghost use Rattle.om_turn.specs.Locks.{view, first_state, IsPassOf, IsClosed};

use crate::journaled::Journaled;
use crate::rule::{Terms, Turns};
use crate::view::View;
use atomic_table::{Badge, Table};
use std::alloc::Global;
use std::snapshot::Snapshot;

/// A value behind a ticket lock.
#[derive(Drop)]
pub struct TurnLock<S: Journaled> {
    pub(crate) table: Table<Option<S>, View<S::Entry>, Terms<S>, Turns<S>, Global>,
}

/// The right to a number of turns, with what was seen and added in turns so far. Outside a turn it
/// holds no slot.
#[derive(Drop)]
pub struct Pass<E> {
    pub(crate) left: u32,
    pub(crate) badge: Badge<View<E>>,
}

/// There was no memory. The value comes back.
#[derive(Drop)]
pub struct NoRoom<S> {
    pub state: S,
}

fn first_of<S>(mut slots: Vec<Option<S>>) -> S
    requires { (x : S) × (slots.items ≡ Some x ∷ []) }
    ensures { slots.items ≡ Some result ∷ [] }
{
    let Some(Some(state)) = slots.pop() else {
        unreachable!()
    };
    slots.destroy_empty();
    state
}

impl<S: Journaled> TurnLock<S> {
    /// A lock for this many turns, and its first pass, which has them all and is the chief.
    pub fn new(
        alloc: Global,
        state: S,
        turns: u32,
    ) -> Result<(TurnLock<S>, Pass<S::Entry>), NoRoom<S>>
        ensures lock { IfOk result (λ r. (first_state r.0 ≡ state) × IsPassOf r.0 r.1) }
        ensures pass { IfOk result (λ r. view r.1 ≡ first_view turns) }
        ensures err { IfErr result (λ r. r.state ≡ state) }
    {
        let terms = Terms {
            turns,
            state: Snapshot::of(&state),
        };
        let Ok(mut slots) = Vec::with_capacity(alloc, 1) else {
            return Err(NoRoom { state });
        };
        slots.push_reserved(Some(state));
        match Table::new(alloc, &[0, 0], slots, &terms) {
            Ok((table, seat)) => Ok((
                TurnLock { table },
                Pass {
                    left: turns,
                    badge: seat.into_badge(),
                },
            )),
            Err(refused) => Err(NoRoom {
                state: first_of(refused.slots),
            }),
        }
    }

    /// Gives the value back. It is what the first value became by all entries that the pass holds, each
    /// at its place.
    pub fn close(self, mut pass: Pass<S::Entry>) -> S
        requires lock { IsPassOf self pass }
        requires whole { IsWhole (view pass) }
        ensures { IsClosed S.Journaled self pass result }
    {
        let TurnLock { table } = self;
        let mut closed = table.close_with(pass.take_seat());
        let home = closed.take(0);
        closed.free();
        let Some(state) = home else { unreachable!() };
        state
    }
}
