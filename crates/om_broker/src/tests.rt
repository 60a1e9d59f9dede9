//! Claims and releases of a broker that is alone, as tables.
ghost use Rattle.std.specs.Prelude.{◌≡◌, ◌+◌, ◌≤◌};

use crate::{Broker, Claim, ClaimAt, LoneBroker};
use om_geom::Zone;
use om_model::{Look, LookList, Move};
use std::alloc::{AllocError, Global};
use std::marker::{Model, Send};
use std::process::Abort;
use std::sync::Wait;
use std::test::Fail;

// A broker, and how many calls it may still be asked for.
#[derive(Drop)]
struct Trial {
    broker: LoneBroker,
    room: u32,
}

impl Model for Trial {
    ghost use Rattle.std.specs.Prelude.{◌≡◌, ◌*◌, ◌≤◌, length};
    ghost use Rattle.om_geom.specs.Numbers.{most_zones};
    ghost use Rattle.om_broker.specs.Having.{KeepsSight};
    ghost use Rattle.om_broker.specs.Lone.{Lone};
    ghost use Rattle.om_broker.specs.ZoneStand.{HasMade};

    ghost Value = { Lone };

    ghost view = { λ t. t.broker };

    ghost invariant = { λ t. (33 * t.room ≤ t.broker.left)
        × (length (t.broker.table).bits ≤ most_zones) × KeepsSight (HasMade t.broker.table) };
}

// A broker may move to another thread.
fn moves<T: Send>(value: T) -> T
    ensures { result ≡ value }
{
    value
}

#[derive(Clone, Copy)]
enum Ask {
    /// So many pages, by a word.
    Claim(u32, u32),
    /// The same, and they are given back at once.
    Borrow(u32, u32),
    /// So many pages of a zone, from the first on.
    At(u32, u32, u32),
}

#[derive(Clone, Copy, Debug, PartialEq, Eq)]
enum Answer {
    Moved(Move),
    /// The looks were so many, the last at a zone with this version.
    NoRun(u32, u32),
    Taken(Look),
}

impl Trial {
    fn new(alloc: Global, zones: u32) -> Result<Trial, AllocError>
        requires some { 1 ≤ zones }
        requires few { zones ≤ 64 }
    {
        let broker = moves(LoneBroker::new(alloc, zones)?);
        Ok(Trial { broker, room: 1000 })
    }

    fn claim<R: Abort + Wait>(
        &mut self,
        rt: &R,
        alloc: Global,
        n: u32,
        word: u32,
    ) -> Result<Answer, AllocError>
        requires some { 1 ≤ n }
        requires few { n ≤ 32 }
    {
        assert!(rt; self.room > 0);
        let mut looks = LookList::with_room(alloc, 64)?;
        self.room -= 1;
        match self.broker.claim(rt, n, word, &mut looks) {
            Claim::Claimed { at, .. } => Ok(Answer::Moved(at)),
            Claim::NoRun => Ok(no_run(&looks)),
        }
    }

    fn borrow<R: Abort + Wait>(
        &mut self,
        rt: &R,
        alloc: Global,
        n: u32,
        word: u32,
    ) -> Result<Answer, AllocError>
        requires some { 1 ≤ n }
        requires few { n ≤ 32 }
    {
        assert!(rt; self.room > 0);
        let mut looks = LookList::with_room(alloc, 64)?;
        self.room -= 1;
        match self.broker.claim(rt, n, word, &mut looks) {
            Claim::Claimed { frames, .. } => Ok(Answer::Moved(self.broker.release(rt, frames))),
            Claim::NoRun => Ok(no_run(&looks)),
        }
    }

    fn claim_at<R: Abort + Wait>(&mut self, rt: &R, zone: u32, first: u32, n: u32) -> Answer
        requires some { 1 ≤ n }
        requires inside { first + n ≤ 32 }
    {
        assert!(rt; zone < self.broker.zones());
        assert!(rt; self.room > 0);
        self.room -= 1;
        match self.broker.claim_at(rt, Zone(zone), first, n) {
            ClaimAt::Claimed { at, .. } => Answer::Moved(at),
            ClaimAt::Taken(look) => Answer::Taken(look),
        }
    }

    fn ask<R: Abort + Wait>(
        &mut self,
        rt: &R,
        alloc: Global,
        ask: Ask,
    ) -> Result<Answer, AllocError> {
        match ask {
            Ask::Claim(n, word) => {
                assert!(rt; 1 <= n);
                assert!(rt; n <= 32);
                self.claim(rt, alloc, n, word)
            }
            Ask::Borrow(n, word) => {
                assert!(rt; 1 <= n);
                assert!(rt; n <= 32);
                self.borrow(rt, alloc, n, word)
            }
            Ask::At(zone, first, n) => {
                assert!(rt; 1 <= n);
                assert!(rt; n <= 32);
                assert!(rt; first <= 32 - n);
                Ok(self.claim_at(rt, zone, first, n))
            }
        }
    }
}

fn no_run(looks: &LookList) -> Answer {
    let count = looks.len();
    if count == 0 {
        return Answer::NoRun(0, 0);
    }
    Answer::NoRun(count, looks.look(count - 1).version)
}

fn moved(zone: u32, version: u32, first: u32, count: u32) -> Answer {
    Answer::Moved(Move {
        zone,
        version,
        first,
        count,
    })
}

fn taken(zone: u32, version: u32) -> Answer {
    Answer::Taken(Look { zone, version })
}

fn answers_all<R: Abort + Wait>(
    rt: &R,
    alloc: Global,
    zones: u32,
    asks: &[(Ask, Answer)],
) -> Result<(), Fail>
    requires some { 1 ≤ zones }
    requires few { zones ≤ 64 }
{
    let mut trial = Trial::new(alloc, zones)?;
    for (ask, wanted) in asks {
        let answer = trial.ask(rt, alloc, *ask)?;
        assert_eq!(rt; answer, *wanted);
    }
    Ok(())
}

#[test]
fn one_zone(rt: HostRuntime) -> Result<(), Fail> {
    let asks = [
        (Ask::Borrow(32, 7), moved(0, 2, 0, 32)),
        (Ask::Claim(2, 31), moved(0, 3, 0, 2)),
        (Ask::At(0, 4, 3), moved(0, 4, 4, 3)),
        (Ask::At(0, 1, 2), taken(0, 4)),
        (Ask::At(0, 3, 2), taken(0, 4)),
        (Ask::Claim(2, 1), moved(0, 5, 2, 2)),
        (Ask::Claim(26, 0), Answer::NoRun(1, 5)),
        (Ask::Borrow(25, 9), moved(0, 7, 7, 25)),
        (Ask::Claim(25, 0), moved(0, 8, 7, 25)),
        (Ask::Claim(1, 3), Answer::NoRun(1, 8)),
    ];
    answers_all(&rt, rt.alloc(), 1, &asks)
}

#[test]
fn many_zones(rt: HostRuntime) -> Result<(), Fail> {
    let asks = [
        (Ask::Claim(32, 32 * 63 + 5), moved(63, 1, 0, 32)),
        (Ask::Claim(1, 32 * 63 + 5), moved(0, 1, 5, 1)),
        (Ask::Borrow(1, 32 * 64 + 5), moved(0, 3, 6, 1)),
        (Ask::At(63, 31, 1), taken(63, 1)),
        (Ask::At(62, 31, 1), moved(62, 1, 31, 1)),
        (Ask::Claim(32, 32 * 62), moved(1, 1, 0, 32)),
    ];
    answers_all(&rt, rt.alloc(), 64, &asks)
}
