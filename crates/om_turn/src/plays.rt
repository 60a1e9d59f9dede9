//! What each step tells. These types are for the proofs alone.
ghost use Rattle.std.specs.Prelude.{ℕ, Option, None};
ghost use Rattle.om_turn.specs.Steps.{drew, looked, passed_on, passed_some, told, minted};
ghost use Rattle.om_turn.specs.Views.{parted, part, joined, spent_view};

use crate::journaled::Journaled;
use crate::view::View;
use atomic_table::{Join, Play, Split};
use std::marker::{Brand, PhantomData};

/// The value with which a lock was made.
pub trait Origin<S> {
    ghost origin: { Option S };
}

impl<S> Origin<S> for Brand {
    ghost origin = { None };
}

/// The entry that a turn adds, if it adds one: what `leave_as` is told, for proofs alone. A caller passes `Brand`
/// and picks the entry in its proof.
pub trait Adding<E> {
    ghost added: { Option E };
}

impl<E> Adding<E> for Brand {
    ghost added = { None };
}

/// The seat of a pass, and the turns that it hands over.
pub trait Handing {
    ghost seat: { ℕ };

    ghost turns: { ℕ };
}

impl Handing for Brand {
    ghost seat = { 0 };

    ghost turns = { 0 };
}

// Kind 1, draw: a turn begins.
pub struct Draw;

impl<S, E> Play<Option<S>, View<E>> for Draw {
    ghost then = { drew };
}

// Kind 2, look: no event. Where the ticket is served, it takes the slot.
pub struct Look<O> {
    marker: PhantomData<O>,
}

impl<S: Journaled, O: Origin<S>> Play<Option<S>, View<S::Entry>> for Look<O> {
    ghost then = { looked S.stands_for S.name S.common S.marks O.origin };
}

// Kind 5, pass on: the turn ends, and its entry stands in the history. It gives the slot back.
pub struct PassOn<O> {
    marker: PhantomData<O>,
}

impl<S, E, O: Adding<E>> Play<Option<S>, View<E>> for PassOn<O> {
    ghost then = { passed_on O.added };
}

// The same, where some entry that the turn may add is added, or none.
pub struct PassOnSome<O> {
    marker: PhantomData<O>,
}

impl<S: Journaled, O: Origin<S>> Play<Option<S>, View<S::Entry>> for PassOnSome<O> {
    ghost then = { passed_some S.stands_for S.name S.common S.marks O.origin };
}

// Kind 6, split: no event.
pub struct Part<O> {
    marker: PhantomData<O>,
}

impl<E, O: Handing> Split<View<E>> for Part<O> {
    ghost left = { parted O.turns };

    ghost right = { part O.seat O.turns };
}

// Kind 6, the load of serving before a split: no event. It tells that the new mark is new.
pub struct Mint<O> {
    marker: PhantomData<O>,
}

impl<S, E, O: Handing> Play<Option<S>, View<E>> for Mint<O> {
    ghost then = { minted O.seat };
}

// Kind 6, join: no event.
pub struct Pair;

impl<E> Join<View<E>> for Pair {
    ghost both = { joined };

    ghost spent = { spent_view };
}

// Kind 6, the load of serving after a join: no event. It tells what was seen.
pub struct Tell;

impl<S, E> Play<Option<S>, View<E>> for Tell {
    ghost then = { told };
}
