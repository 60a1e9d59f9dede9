//! A broker that has its arena to itself.
ghost use Rattle.std.specs.Prelude.{◌≡◌, ◌≤◌, [], IfOk, length};
ghost use Rattle.om_geom.specs.Numbers.{most_zones};
ghost use Rattle.om_broker.specs.Claims.{one_more_ask};
ghost use Rattle.om_broker.specs.Lone.{lone_share};
ghost use Rattle.om_broker.specs.ZoneStand.{HasMade};

use crate::broker::{Broker, Claim, ClaimAt};
use crate::home::{all_frames, take_home};
use crate::zones::Zones;
use om_frame::{Bundle, Shelf};
use om_geom::{Page, ZONE_PAGES, Zone};
use om_model::{LookList, Move};
use std::alloc::{AllocError, Global};
use std::marker::Model;
use std::sync::Wait;

/// The moves that a `LoneBroker` begins with.
pub const LONE_SHARE: u32 = 1 << 26;

/// A broker for one pool, which has its arena to itself.
#[derive(Drop)]
pub struct LoneBroker {
    zones: Zones,
    // The frames of the pages that are not held.
    home: Shelf,
    // The moves that are left: each page that is held keeps one back for its release.
    left: u32,
    asks: u64,
}

impl Model for LoneBroker {
    ghost use Rattle.om_broker.specs.Lone.{IsLone, Lone};

    ghost Value = { Lone };

    ghost view = { λ b. record {
      table = b.zones;
      home = b.home;
      left = b.left;
      asks = b.asks;
    } };

    ghost invariant = { λ b. IsLone (record {
      table = b.zones;
      home = b.home;
      left = b.left;
      asks = b.asks;
    }) };
}

impl LoneBroker {
    /// A broker of an arena of 1 to 64 zones, all of whose pages are free. All frames are made here.
    pub fn new(alloc: Global, zones: u32) -> Result<LoneBroker, AllocError>
        requires some { 1 ≤ zones }
        requires few { zones ≤ most_zones }
        ensures arena { IfOk result (λ broker. length (broker.table).bits ≡ zones) }
        ensures made { IfOk result (λ broker. HasMade broker.table [] []) }
        ensures moves { IfOk result (λ broker. broker.left ≡ lone_share) }
        ensures asks { IfOk result (λ broker. broker.asks ≡ 0) }
    {
        Ok(LoneBroker {
            zones: Zones::new(alloc, zones)?,
            home: all_frames(alloc, zones)?,
            left: LONE_SHARE,
            asks: 0,
        })
    }

    /// How many zones the arena has.
    #[cfg(test)]
    pub(crate) fn zones(&self) -> u32
        ensures { result ≡ length (self.now.table).bits }
    {
        self.zones.len()
    }
}

impl Broker for LoneBroker {
    /// How many zones the arena has.
    type Arena = u32;

    ghost arena = { λ b. length (b.table).bits };

    ghost zones = { λ count. count };

    ghost share = { λ _. lone_share };

    ghost part = { λ _. lone_share };

    ghost moves_left = { λ b. b.left };

    ghost asks = { λ b. b.asks };

    ghost made = { λ b moves sight. HasMade b.table moves sight };

    ghost whole_order = { λ b moves sight made whole. (made.stands).order };

    ghost whole_sight = { λ b moves sight made whole. made.left };

    fn claim<R: Wait>(&mut self, _rt: &R, n: u32, word: u32, looks: &mut LookList) -> Claim {
        self.asks = count_ask(self.asks);
        match self.zones.claim(n, word, looks) {
            Some(at) => {
                self.left -= n + 1;
                let frames = self.home.remove(Page(ZONE_PAGES * at.zone + at.first), n);
                Claim::Claimed { at, frames }
            }
            None => Claim::NoRun,
        }
    }

    fn claim_at<R: Wait>(&mut self, _rt: &R, zone: Zone, first: u32, n: u32) -> ClaimAt {
        self.asks = count_ask(self.asks);
        match self.zones.claim_at(zone.0, first, n) {
            Ok(at) => {
                self.left -= n + 1;
                let frames = self.home.remove(Page(ZONE_PAGES * zone.0 + first), n);
                ClaimAt::Claimed { at, frames }
            }
            Err(look) => ClaimAt::Taken(look),
        }
    }

    fn release<R: Wait>(&mut self, _rt: &R, frames: Bundle) -> Move {
        let n = frames.len();
        let page = take_home(&mut self.home, frames).0;
        self.left += n - 1;
        self.zones.release(page / ZONE_PAGES, page % ZONE_PAGES, n)
    }
}

// The count stays at its type's end.
fn count_ask(asks: u64) -> u64
    ensures { result ≡ one_more_ask asks }
{
    asks.saturating_add(1)
}
