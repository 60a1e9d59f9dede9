//! A list of numbers behind the lock, to which threads add.
ghost use Rattle.std.specs.Prelude.{◌≡◌, ◌+◌, ◌<◌, [], ◌∷◌, ◌++◌, length, IfOk, OnErr};
ghost use Rattle.om_turn.specs.Views.{IsWhole};
ghost use Rattle.om_turn.specs.Locks.{view, first_state, IsPassOf};
ghost use Rattle.om_turn.specs.Shares.{IsReady, IsSamePart};
ghost use Rattle.std.specs.Thread.{IsSync};

use crate::{Journaled, Pass, TurnLock};
use std::alloc::{AllocError, Global};
use std::marker::{Brand, Model};
use std::sync::{Arc, Wait};
use std::test::*;
use std::thread;
use std::thread::Threads;

#[derive(Drop)]
pub struct Numbers {
    items: Vec<u32>,
}

impl Model for Numbers {
    ghost use Rattle.std.specs.Prelude.{ℕ, List};

    ghost Value = { List ℕ };

    ghost view = { λ n. n.items.items };
}

impl Journaled for Numbers {
    ghost use Rattle.std.specs.Prelude.{◌≡◌, true, []};

    type Entry = u32;

    type Name = ();

    ghost stands_for = { λ numbers entries. numbers ≡ entries };

    ghost name = { λ _. tt };

    ghost common = { λ _. true };

    ghost marks = { λ _. [] };
}

impl Numbers {
    fn new(alloc: Global) -> Numbers
        ensures { result ≡ [] }
    {
        Numbers {
            items: Vec::new(alloc),
        }
    }

    fn len(&self) -> usize
        ensures { result ≡ length self.now }
    {
        self.items.len()
    }

    fn push(&mut self, x: u32) -> Result<(), AllocError>
        ensures ok { IfOk result (λ _. self.new ≡ self.old ++ x ∷ []) }
        ensures err { OnErr result (self.new ≡ self.old) }
    {
        self.items.push(x)?;
        Ok(())
    }
}

// Adds a number in one turn, and gives its place.
fn add<R: Wait>(
    rt: &R,
    lock: &TurnLock<Numbers>,
    pass: &mut Pass<u32>,
    x: u32,
) -> Result<usize, AllocError>
    requires lock { IsPassOf lock.now pass.old × (first_state lock.now ≡ []) }
    requires left { 0 < pass.old.left }
    ensures left { pass.new.left + 1 ≡ pass.old.left }
    ensures part { IsSamePart lock.now pass.old pass.new }
    ensures held { IfOk result (λ k.
        (view pass.new).held ≡ (view pass.old).held ++ (k, x) ∷ []) }
{
    let mut held = lock.enter(rt, pass);
    let place = held.state().len();
    match held.state().push(x) {
        Ok(()) => {
            held.leave_as::<Brand>();
            Ok(place)
        }
        Err(error) => {
            held.leave();
            Err(error)
        }
    }
}

// Adds the numbers from `from` on, as many as the pass has turns, and gives their places.
fn add_all<R: Wait>(
    rt: &R,
    alloc: Global,
    lock: &TurnLock<Numbers>,
    pass: &mut Pass<u32>,
    from: u32,
) -> Result<Vec<usize>, AllocError>
    requires { IsReady lock.now [] pass.old from }
    ensures { IsSamePart lock.now pass.old pass.new }
{
    let mut places = Vec::new(alloc);
    for number in from..from + pass.left() {
        places.push(add(rt, lock, pass, number)?)?;
    }
    Ok(places)
}

// The same, with a pass that comes back, and the places if memory was enough.
fn worked<R: Wait>(
    rt: &R,
    alloc: Global,
    lock: &TurnLock<Numbers>,
    mut pass: Pass<u32>,
    from: u32,
) -> (Pass<u32>, Option<Vec<usize>>)
    requires { IsReady lock.now [] pass from }
    ensures { IsSamePart lock.now pass result.0 }
{
    let places = add_all(rt, alloc, lock, &mut pass, from).ok();
    (pass, places)
}

// Shares the turns among two threads.
fn two<R: Threads + Wait + Sync>(
    rt: &R,
    alloc: Global,
    lock: &TurnLock<Numbers>,
    mut pass: Pass<u32>,
    from: u32,
) -> (Pass<u32>, Option<(Vec<usize>, Vec<usize>)>)
    requires { IsReady lock.now [] pass from }
    ensures { IsSamePart lock.now pass result.0 }
{
    let half = pass.left() / 2;
    let other = lock.split(&mut pass, half);
    let middle = from + pass.left();
    let ((mut pass, a), (other, b)) = thread::join(
        rt,
        || -> (Pass<u32>, Option<Vec<usize>>)
            requires { IsReady lock.now [] pass from }
            ensures { IsSamePart lock.entry.now pass result.0 }
        { worked(rt, alloc, lock, pass, from) },
        || -> (Pass<u32>, Option<Vec<usize>>)
            requires { IsReady lock.now [] other middle }
            ensures { IsSamePart lock.entry.now other result.0 }
        { worked(rt, alloc, lock, other, middle) },
    );
    lock.join(&mut pass, other);
    (pass, both(a, b))
}

fn both<A: Drop, B: Drop>(a: Option<A>, b: Option<B>) -> Option<(A, B)> {
    Some((a?, b?))
}

fn opened(alloc: Global, turns: u32) -> Result<(TurnLock<Numbers>, Pass<u32>), AllocError>
    ensures ready { IfOk result (λ r. IsPassOf r.0 r.1 × (first_state r.0 ≡ [])) }
    ensures turns { IfOk result (λ r. (r.1.left ≡ turns) × IsWhole (view r.1)) }
{
    match TurnLock::new(alloc, Numbers::new(alloc), turns) {
        Ok(made) => Ok(made),
        Err(_) => Err(AllocError),
    }
}

#[test]
fn two_threads_add_each_number_at_its_place(rt: HostRuntime) -> Result<(), Fail> {
    let (lock, pass) = opened(rt.alloc(), 1000)?;
    let (pass, places) = two(&rt, rt.alloc(), &lock, pass, 0);
    let Some((first, second)) = places else {
        return Err(AllocError.into());
    };
    let numbers = lock.close(pass);
    assert_eq!(rt; numbers.items.len(), 1000);
    assert_eq!(rt; first.len(), 500);
    assert_eq!(rt; second.len(), 500);
    let mut number = 0u32;
    for place in first.iter().chain(second.iter()) {
        assert_eq!(rt; numbers.items.get(*place).copied(), Some(number));
        number = number.wrapping_add(1);
    }
    Ok(())
}

// Shares the turns among four threads. Whether memory was enough.
fn four<R: Threads + Wait + Sync>(
    rt: &R,
    alloc: Global,
    lock: &TurnLock<Numbers>,
    mut pass: Pass<u32>,
    from: u32,
) -> (Pass<u32>, bool)
    requires { IsReady lock.now [] pass from }
    ensures { IsSamePart lock.now pass result.0 }
{
    let half = pass.left() / 2;
    let other = lock.split(&mut pass, half);
    let middle = from + pass.left();
    let ((mut pass, a), (other, b)) = thread::join(
        rt,
        || -> (Pass<u32>, Option<(Vec<usize>, Vec<usize>)>)
            requires { IsSync R.row × IsReady lock.now [] pass from }
            ensures { IsSamePart lock.entry.now pass result.0 }
        { two(rt, alloc, lock, pass, from) },
        || -> (Pass<u32>, Option<(Vec<usize>, Vec<usize>)>)
            requires { IsSync R.row × IsReady lock.now [] other middle }
            ensures { IsSamePart lock.entry.now other result.0 }
        { two(rt, alloc, lock, other, middle) },
    );
    lock.join(&mut pass, other);
    (pass, a.is_some() && b.is_some())
}

// Shares the turns among eight threads.
fn eight<R: Threads + Wait + Sync>(
    rt: &R,
    alloc: Global,
    lock: &TurnLock<Numbers>,
    mut pass: Pass<u32>,
    from: u32,
) -> (Pass<u32>, bool)
    requires { IsReady lock.now [] pass from }
    ensures { IsSamePart lock.now pass result.0 }
{
    let half = pass.left() / 2;
    let other = lock.split(&mut pass, half);
    let middle = from + pass.left();
    let ((mut pass, a), (other, b)) = thread::join(
        rt,
        || -> (Pass<u32>, bool)
            requires { IsSync R.row × IsReady lock.now [] pass from }
            ensures { IsSamePart lock.entry.now pass result.0 }
        { four(rt, alloc, lock, pass, from) },
        || -> (Pass<u32>, bool)
            requires { IsSync R.row × IsReady lock.now [] other middle }
            ensures { IsSamePart lock.entry.now other result.0 }
        { four(rt, alloc, lock, other, middle) },
    );
    lock.join(&mut pass, other);
    (pass, a && b)
}

#[test]
fn eight_threads_add_each_number_once_and_in_order(rt: HostRuntime) -> Result<(), Fail> {
    let (lock, pass) = opened(rt.alloc(), 80_000)?;
    let (pass, done) = eight(&rt, rt.alloc(), &lock, pass, 0);
    assert!(rt; done);
    let numbers = lock.close(pass);
    let mut next = [0u32; 8];
    for number in &numbers.items {
        let thread = (*number / 10_000) as usize;
        assert_eq!(rt; next.get(thread).copied(), Some(*number % 10_000));
        if let Some(count) = next.get_mut(thread) {
            *count = *number % 10_000 + 1;
        }
    }
    assert!(rt; next == [10_000; 8]);
    Ok(())
}

// A value whose drop is counted. Its turns add nothing.
#[derive(Drop)]
struct Counted {
    shared: Arc<u8>,
}

impl Journaled for Counted {
    ghost use Rattle.std.specs.Prelude.{◌≡◌, true, []};

    type Entry = ();

    type Name = ();

    ghost stands_for = { λ _ entries. entries ≡ [] };

    ghost name = { λ _. tt };

    ghost common = { λ _. true };

    ghost marks = { λ _. [] };
}

// One turn that adds nothing. The number of counts while it lasts.
fn look<R: Wait>(rt: &R, lock: &TurnLock<Counted>, pass: &mut Pass<()>) -> usize
    requires lock { IsPassOf lock.now pass.old }
    requires left { 0 < pass.old.left }
    ensures { IsPassOf lock.now pass.new }
{
    let mut held = lock.enter(rt, pass);
    let count = Arc::strong_count(&held.state().shared);
    held.leave();
    count
}

#[test]
fn a_value_is_dropped_once(rt: HostRuntime) -> Result<(), Fail> {
    let shared = Arc::new(rt.alloc(), 7u8)?;
    let value = Counted {
        shared: Arc::try_clone(&shared)?,
    };
    let Ok((lock, mut pass)) = TurnLock::new(rt.alloc(), value, 3) else {
        return Err(AllocError.into());
    };
    let part = lock.split(&mut pass, 1);
    assert_eq!(rt; look(&rt, &lock, &mut pass), 2);
    assert!(rt; pass.left() == 1 && part.left() == 1);
    drop(part);
    drop(lock);
    assert_eq!(rt; Arc::strong_count(&shared), 1);
    Ok(())
}
