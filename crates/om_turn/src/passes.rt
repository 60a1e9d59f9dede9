//! How passes are split and joined.
ghost use Rattle.std.specs.Prelude.{◌≡◌, ℕ, ◌≤◌, [], ◌∷◌};
ghost use Rattle.std.specs.List.{Contains};
ghost use Rattle.om_turn.specs.declared.view.Stage.TheVariants.{Outside};
ghost use Rattle.om_turn.specs.Entries.{times, mark};
ghost use Rattle.om_turn.specs.Views.{parted, part, IsWhole, HoldsAll, AreApart};
ghost use Rattle.om_turn.specs.Locks.{view, IsPassOf, IsSeatOf, IsNow, IsJoined, IsSeatOfPass, HasSeat};

use crate::journaled::Journaled;
use crate::lock::{Pass, TurnLock};
use crate::plays::{Handing, Mint, Pair, Part, Tell};
use crate::rule::{Chair, SERVING};
use crate::view::View;
use atomic_table::{Badge, Seat};
use std::marker::Brand;
use std::mem::replace;

impl<E> Pass<E> {
    /// The number of turns that are left.
    pub fn left(&self) -> u32
        ensures { result ≡ self.now.left }
    {
        self.left
    }

    // The seat of the pass. The pass has none until it is given back.
    pub(crate) fn take_seat<S>(&mut self) -> Seat<Option<S>, View<E>>
        requires { self.old.badge.views ≡ view self.old ∷ [] }
        ensures seat { IsSeatOfPass self.old result }
        ensures left { self.new.left ≡ self.old.left }
    {
        replace(&mut self.badge, Badge::blank()).into_seat()
    }

    pub(crate) fn give_seat<S>(&mut self, seat: Seat<Option<S>, View<E>>)
        requires { seat.me.1 ≡ [] }
        ensures seat { HasSeat self.new seat }
        ensures left { self.new.left ≡ self.old.left }
    {
        self.badge = seat.into_badge();
    }
}

impl<S: Journaled> TurnLock<S> {
    /// Hands turns over to a new pass, which has seen as much and holds no entry. If it has turns it has
    /// one mark, which no pass had before.
    pub fn split(&self, pass: &mut Pass<S::Entry>, turns: u32) -> Pass<S::Entry>
        requires lock { IsPassOf self.now pass.old }
        requires left { turns ≤ pass.old.left }
        ensures lock { IsPassOf self.now pass.new × IsPassOf self.now result }
        ensures kept { view pass.new ≡ parted turns (view pass.old) }
        ensures handed { (seat : ℕ) × (view result ≡ part seat turns (view pass.old)) }
        ensures apart { AreApart (view result) (view pass.old) }
    {
        let mut seat = pass.take_seat();
        self.mint::<Brand>(&mut seat);
        let other = self.cut::<Brand>(&mut seat, turns);
        pass.left -= turns;
        pass.give_seat(seat);
        other
    }

    fn mint<O: Handing>(&self, seat: &mut Chair<S>)
        requires seat { IsSeatOf self.now seat.old × (O.seat ≡ seat.old.id) }
        requires outside { seat.old.me.0.stage ≡ Outside }
        ensures same { IsNow seat.old seat.new seat.old.me }
        ensures new { ¬ Contains seat.old.me.0.marks (mark seat.old.id seat.old.me.0.splits) }
    {
        self.table.shared.load::<Mint<O>>(seat, SERVING);
    }

    fn cut<O: Handing>(&self, seat: &mut Chair<S>, turns: u32) -> Pass<S::Entry>
        requires seat { IsSeatOf self.now seat.old × (O.seat ≡ seat.old.id) }
        requires outside { seat.old.me.0.stage ≡ Outside }
        requires turns { (turns ≤ seat.old.me.0.left) × (O.turns ≡ turns) }
        ensures kept { IsNow seat.old seat.new (parted turns seat.old.me.0, seat.old.me.1) }
        ensures lock { IsPassOf self.now result }
        ensures handed { view result ≡ part seat.old.id turns seat.old.me.0 }
    {
        let other = self.table.shared.split_seat::<Part<O>>(seat);
        Pass {
            left: turns,
            badge: other.into_badge(),
        }
    }

    /// Puts the turns, the entries, the marks and the sight of the other pass to those of this one.
    pub fn join(&self, pass: &mut Pass<S::Entry>, mut other: Pass<S::Entry>)
        requires lock { IsPassOf self.now pass.old × IsPassOf self.now other }
        ensures lock { IsPassOf self.now pass.new }
        ensures view { IsJoined (view pass.old) (view other) (view pass.new) }
        ensures whole { IsWhole (view pass.new) → HoldsAll (view pass.new) }
        ensures apart { (m : ℕ) → times m (view pass.new).marks ≤ 1 }
    {
        let mut seat = pass.take_seat();
        let others = other.take_seat();
        self.table.shared.join_seat::<Pair>(&mut seat, others);
        self.table.shared.load::<Tell>(&mut seat, SERVING);
        pass.left += other.left;
        pass.give_seat(seat);
    }
}
