//! What every broker promises.
ghost use Rattle.std.specs.Prelude.{◌≡◌, ℕ, ◌+◌, ◌<◌, ◌≤◌, List, [], ◌∷◌, length};
ghost use Rattle.std.specs.List.{AllByRecursion};
ghost use Rattle.om_geom.specs.Numbers.{zone_pages};
ghost use Rattle.om_model.specs.Pool.Journal.{NamesSearched};
ghost use Rattle.om_model.specs.Zones.Order.{IsZoneOrder};
ghost use Rattle.om_model.specs.declared.entry.ZoneMove.{ZoneMove};
ghost use Rattle.om_broker.specs.Claims.{one_more_ask, Finds, Spends, moves_of_claim, ShowsSearch, FindsAt, SpendsAt, moves_of_claim_at, ShowsPlace, AreZeros, HasFrames, IsGivenBack, ShowsNothingElse, Adds};
ghost use Rattle.om_broker.specs.Sights.{Seen, IsLeft, released};

use om_frame::Bundle;
use om_geom::Zone;
use om_model::{Look, LookList, Move};
use std::sync::Wait;

/// What a search for pages was answered.
#[derive(Drop)]
pub enum Claim {
    /// The claim, and the frames of its pages, filled with zeros.
    Claimed { at: Move, frames: Bundle },
    /// No zone had such a run.
    NoRun,
}

/// What a claim at a given place was answered.
#[derive(Drop)]
pub enum ClaimAt {
    /// The claim, and the frames of its pages, filled with zeros.
    Claimed { at: Move, frames: Bundle },
    /// A page of the run was held at this look.
    Taken(Look),
}

/// Claims pages of an arena and gives them back. Each move spends of a share, so that no version of a zone
/// runs out. No call takes memory.
pub trait Broker: Drop {
    /// What names an arena. It is plain data.
    type Arena;

    // No call changes it.
    ghost arena: { Self → Self.Arena };

    // How many zones the arena has.
    ghost zones: { Self.Arena → ℕ };

    // The moves of all its brokers together.
    ghost share: { Self.Arena → ℕ };

    // How many of these moves the broker was given.
    ghost part: { Self → ℕ };

    // How many of them are left to it.
    ghost moves_left: { Self → ℕ };

    // How often it was asked for pages.
    ghost asks: { Self → ℕ };

    // It has made these moves, and seen this.
    ghost made: { Self → List ZoneMove → List Seen → Type 0 };

    /// Claims `n` neighbouring pages of one zone, by a word: its upper bits name the zone where the search
    /// begins, its lowest five the first page that is tried. `looks` gets a look at each zone that was passed
    /// over, each of them made in this call.
    fn claim<R: Wait>(&mut self, rt: &R, n: u32, word: u32, looks: &mut LookList) -> Claim
        requires some { 1 ≤ n }
        requires few { n ≤ zone_pages }
        requires moves { n + 1 ≤ moves_left self.old }
        requires none_yet { looks.old.items ≡ [] }
        requires room { zones (arena self.old) ≤ looks.old.spare }
        ensures arena { arena self.new ≡ arena self.old }
        ensures part { part self.new ≡ part self.old }
        ensures asks { asks self.new ≡ one_more_ask (asks self.old) }
        ensures spare { looks.old.spare ≤ looks.new.spare + length looks.new.items }
        ensures named { NamesSearched (zones (arena self.old)) word looks.new.items }
        ensures found { Finds (zones (arena self.old)) n word (length looks.new.items) result }
        ensures spent { Spends (moves_left self.old) (moves_left self.new) n result }
        ensures made { Adds made self.old self.new (moves_of_claim word result)
            (ShowsSearch n word looks.new.items result) };

    /// Claims `n` pages of the zone, from page `first` of the zone on.
    fn claim_at<R: Wait>(&mut self, rt: &R, zone: Zone, first: u32, n: u32) -> ClaimAt
        requires some { 1 ≤ n }
        requires inside { first + n ≤ zone_pages }
        requires there { zone.0 < zones (arena self.old) }
        requires moves { n + 1 ≤ moves_left self.old }
        ensures arena { arena self.new ≡ arena self.old }
        ensures part { part self.new ≡ part self.old }
        ensures asks { asks self.new ≡ one_more_ask (asks self.old) }
        ensures found { FindsAt zone.0 first n result }
        ensures spent { SpendsAt (moves_left self.old) (moves_left self.new) n result }
        ensures made { Adds made self.old self.new (moves_of_claim_at result)
            (ShowsPlace first n result) };

    /// Gives pages back, with their frames. It pays with the moves that stood for the pages.
    fn release<R: Wait>(&mut self, rt: &R, frames: Bundle) -> Move
        requires zeros { AreZeros frames }
        requires has { HasFrames (made self.old) frames }
        ensures arena { arena self.new ≡ arena self.old }
        ensures part { part self.new ≡ part self.old }
        ensures asks { asks self.new ≡ asks self.old }
        ensures back { IsGivenBack frames result }
        ensures moves { moves_left self.new + 1 ≡ moves_left self.old + length frames }
        ensures made { Adds made self.old self.new (released result ∷ []) ShowsNothingElse };

    // Where the broker has its whole arena to itself, its moves are in zone order, and all that it has seen
    // is what they leave.
    ghost whole_order: { (b : Self) (moves : List ZoneMove) (sight : List Seen)
        → made b moves sight → part b ≡ share (arena b) → IsZoneOrder moves };

    ghost whole_sight: { (b : Self) (moves : List ZoneMove) (sight : List Seen)
        → made b moves sight → part b ≡ share (arena b)
        → AllByRecursion (IsLeft moves) sight };
}
