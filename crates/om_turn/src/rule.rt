//! The rule of the table of words and slots.
use crate::journaled::Journaled;
use crate::view::View;
use atomic_table::{Seat, TableRule};
use std::marker::PhantomData;
use std::snapshot::Snapshot;

/// The next ticket to draw.
pub const TICKET: usize = 0;

/// The ticket that is served.
pub const SERVING: usize = 1;

/// With what a lock was made.
#[derive(Drop)]
pub struct Terms<S> {
    pub turns: u32,
    pub state: Snapshot<S>,
}

pub struct Turns<S> {
    marker: PhantomData<S>,
}

impl<S: Journaled> TableRule<Option<S>, View<S::Entry>, Terms<S>> for Turns<S> {
    ghost use Rattle.om_turn.specs.Views.{first_view};
    ghost use Rattle.om_turn.specs.Rule.{Kept};

    ghost holds = { λ key. Kept S.stands_for S.name S.common S.marks key.state.value key.turns };

    ghost first = { λ key. first_view key.turns };
}

pub type Chair<S> = Seat<Option<S>, View<<S as Journaled>::Entry>>;
