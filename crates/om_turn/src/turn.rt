//! A turn: how a pass enters, and how it leaves.
ghost use Rattle.std.specs.Prelude.{◌≡◌, ◌≢◌, ℕ, ◌<◌, [], ◌∷◌, Option, Some, None};
ghost use Rattle.std.specs.Borrow.{sem};
ghost use Rattle.om_turn.specs.declared.view.Stage.TheVariants.{Waiting, Served};
ghost use Rattle.om_turn.specs.Views.{passed, IsWhole, HoldsAll};
ghost use Rattle.om_turn.specs.Steps.{IsShown, Passed};

use crate::journaled::Journaled;
use crate::lock::{Pass, TurnLock};
use crate::plays::{Adding, Draw, Look, Origin, PassOn, PassOnSome};
use crate::rule::{Chair, SERVING, TICKET};
use crate::view::View;
use atomic_table::Seat;
use std::hint::spin_loop;
use std::marker::Brand;
use std::sync::Wait;
use std::thread;

// How often the pass whose turn is next looks before it lets other threads run.
const SPINS: u32 = 64;

// A served pass, whose slot is out and empty.
struct Ticket<S, E> {
    left: u32,
    seat: Seat<Option<S>, View<E>>,
    ghost empty: { seat.me.1 ≡ (0, None) ∷ [] },
    ghost served: { (seat.me.0.stage ≡ Served) × (left ≡ seat.me.0.left) },
}

/// One turn. Nobody else has the value until it is left.
pub struct Held<'a, S: Journaled> {
    pass: &'a mut Pass<S::Entry>,
    lock: &'a TurnLock<S>,
    ticket: Ticket<S, S::Entry>,
    state: S,
}

// Lets the processor or other threads go on, while `ahead` passes come first.
fn pause(ahead: u64, spins: &mut u32) {
    if ahead > 1 || *spins >= SPINS {
        thread::yield_now();
    } else {
        *spins += 1;
        spin_loop();
    }
}

impl<S: Journaled> TurnLock<S> {
    ghost use Rattle.om_turn.specs.Locks.{view, first_state, IsPassOf, IsTurnOf, IsSeatOf, IsNow};
    ghost use Rattle.om_turn.specs.Locks.{IsEntered, turn_view, HasBecome, IsServedAt, MayLeaveAt};

    /// Waits until the pass is served, and gives the value with all that was entered so far.
    pub fn enter<'a, R: Wait>(&'a self, rt: &R, pass: &'a mut Pass<S::Entry>) -> Held<'a, S>
        requires lock { IsPassOf self.now pass.old }
        requires left { 0 < pass.old.left }
        ensures pass { result.pass.ghost_name ≡ pass.entry.ghost_name }
        ensures lock { IsTurnOf self.now result }
        ensures view { IsEntered (view pass.old) (turn_view result) }
        ensures shown { IsShown S.common S.marks (turn_view result) }
        ensures state { HasBecome S.Journaled self.now (turn_view result).seen result.state }
    {
        let left = pass.left - 1;
        let mut seat = pass.take_seat();
        let ticket = self.table.shared.fetch_add::<Draw>(&mut seat, TICKET, 1);
        self.wait_for(rt, &mut seat, ticket);
        // Kind 3, slot out: the value leaves the slot, which the pass holds from now on.
        let home = self.table.shared.exchange(&mut seat, 0, None);
        let Some(state) = home else { unreachable!() };
        Held {
            pass,
            lock: self,
            ticket: Ticket { left, seat },
            state,
        }
    }

    fn wait_for<R: Wait>(&self, rt: &R, seat: &mut Chair<S>, ticket: u64)
        requires seat { IsSeatOf self.now seat.old }
        requires waiting { (seat.old.me.0.stage ≡ Waiting) × (ticket ≡ seat.old.me.0.ticket) }
        ensures seat { (seat.new.table_id ≡ seat.old.table_id) × (seat.new.id ≡ seat.old.id) }
        ensures served { IsServedAt S.Journaled self.now seat.old.me seat.new.me }
    {
        let mut spins = 0;
        for _ in rt.forever() {
            let serving = self.look::<Brand>(seat);
            if serving == ticket {
                return;
            }
            pause(ticket.wrapping_sub(serving), &mut spins);
        }
        unreachable!()
    }

    fn look<O: Origin<S>>(&self, seat: &mut Chair<S>) -> u64
        requires seat { IsSeatOf self.now seat.old × (O.origin ≡ Some (first_state self.now)) }
        requires waiting { seat.old.me.0.stage ≡ Waiting }
        ensures seat { (seat.new.table_id ≡ seat.old.table_id) × (seat.new.id ≡ seat.old.id) }
        ensures served { result ≡ seat.old.me.0.ticket
            → IsServedAt S.Journaled self.now seat.old.me seat.new.me }
        ensures waits { result ≢ seat.old.me.0.ticket → seat.new.me ≡ seat.old.me }
    {
        self.table.shared.load::<Look<O>>(seat, SERVING)
    }

    // Kind 4, slot in: the value goes back into the slot that the pass still holds.
    fn put_back(&self, seat: &mut Chair<S>, state: S)
        requires seat { IsSeatOf self.now seat.old }
        requires empty { seat.old.me.1 ≡ (0, None) ∷ [] }
        ensures { IsNow seat.old seat.new (seat.old.me.0, (0, Some state) ∷ []) }
    {
        let was = self.table.shared.exchange(seat, 0, Some(state));
        let None = was else { unreachable!() };
    }

    fn pass_on<O: Adding<S::Entry>>(&self, seat: &mut Chair<S>)
        requires seat { IsSeatOf self.now seat.old }
        requires served { seat.old.me.0.stage ≡ Served }
        requires lawful { (x : S) × (seat.old.me.1 ≡ (0, Some x) ∷ [])
            × MayLeaveAt S.Journaled self.now seat.old.me.0 x O.added }
        ensures seat { IsNow seat.old seat.new (passed O.added seat.old.me.0, []) }
        ensures whole { IsWhole seat.new.me.0 → HoldsAll seat.new.me.0 }
    {
        self.table.shared.fetch_add::<PassOn<O>>(seat, SERVING, 1);
    }

    fn pass_on_some<O: Origin<S>>(&self, seat: &mut Chair<S>)
        requires seat { IsSeatOf self.now seat.old × (O.origin ≡ Some (first_state self.now)) }
        requires served { seat.old.me.0.stage ≡ Served }
        requires lawful { (x : S) × (added : Option S.Entry)
            × (seat.old.me.1 ≡ (0, Some x) ∷ [])
            × MayLeaveAt S.Journaled self.now seat.old.me.0 x added }
        ensures seat { (seat.new.table_id ≡ seat.old.table_id) × (seat.new.id ≡ seat.old.id) }
        ensures passed { (x : S) → seat.old.me.1 ≡ (0, Some x) ∷ []
            → Passed (MayLeaveAt S.Journaled self.now seat.old.me.0 x) seat.old.me seat.new.me }
    {
        self.table
            .shared
            .fetch_add::<PassOnSome<O>>(seat, SERVING, 1);
    }
}

impl<'a, S: Journaled> Held<'a, S> {
    ghost use Rattle.om_turn.specs.Lends.{LendsState};
    ghost use Rattle.om_turn.specs.Locks.{view, IsPassOf, IsTurnOf, turn_view, MayLeave};

    /// The value.
    pub fn state(&mut self) -> &mut S
        ensures* writes_back { sem 𝓛
            (LendsState S.row S.Entry.row S.Name.row S.Journaled self.entry result) }
        ensures value { result.now ≡ self.old.state }
    {
        &mut self.state
    }

    /// Ends the turn, in which one entry was added, or none. `A` says which, for proofs alone.
    pub fn leave_as<A: Adding<S::Entry>>(self)
        requires turn { IsTurnOf self.lock.now self }
        requires lawful { MayLeave S.Journaled self A.added }
        ensures pass { IsPassOf self.entry.lock.now self.exit.0.now }
        ensures added { view self.exit.0.now ≡ passed A.added (turn_view self.entry) }
        ensures whole { IsWhole (view self.exit.0.now) → HoldsAll (view self.exit.0.now) }
    {
        let Held {
            pass,
            lock,
            ticket,
            state,
        } = self;
        let Ticket { left, mut seat } = ticket;
        lock.put_back(&mut seat, state);
        lock.pass_on::<A>(&mut seat);
        pass.left = left;
        pass.give_seat(seat);
    }

    /// The same, where it doesn't matter which of several entries that fit is meant.
    pub fn leave(self)
        requires turn { IsTurnOf self.lock.now self }
        requires lawful { (added : Option S.Entry) × MayLeave S.Journaled self added }
        ensures pass { IsPassOf self.entry.lock.now self.exit.0.now }
        ensures added { (added : Option S.Entry) × MayLeave S.Journaled self.entry added
            × (view self.exit.0.now ≡ passed added (turn_view self.entry)) }
        ensures whole { IsWhole (view self.exit.0.now) → HoldsAll (view self.exit.0.now) }
    {
        let Held {
            pass,
            lock,
            ticket,
            state,
        } = self;
        let Ticket { left, mut seat } = ticket;
        lock.put_back(&mut seat, state);
        lock.pass_on_some::<Brand>(&mut seat);
        pass.left = left;
        pass.give_seat(seat);
    }
}
