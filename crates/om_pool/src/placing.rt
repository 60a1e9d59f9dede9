//! The placing of a block: on a place or a run that the pool has, or on claimed pages.
ghost use Rattle.om_pool.specs.PoolView.{claim_moves};
ghost use Rattle.std.specs.Prelude.{◌≡◌, ◌+◌, ◌*◌, ◌-◌, ◌^◌, ◌<◌, ◌≤◌, false, length, Some, None, IsSome, IfSome};
ghost use Rattle.om_chunk.specs.Picks.{IsFreeOn};
ghost use Rattle.om_geom.specs.Addresses.{address_of};
ghost use Rattle.om_geom.specs.Numbers.{most_zones, zone_pages};
ghost use Rattle.om_model.specs.Pool.Malloc.{is_too_large};
ghost use Rattle.om_model.specs.Pool.Picks.{place_address};
ghost use Rattle.om_model.specs.Pool.Rules.{canary_byte, size_class};
ghost use Rattle.om_model.specs.Pool.Runs.{run_of};
ghost use Rattle.om_model.specs.Pool.State.{State};
ghost use Rattle.om_pages.specs.Tables as table;
ghost use Rattle.om_pool.specs.Asking.{claim_in, IsAsked};
ghost use Rattle.om_pool.specs.Chunks.{HoldsPage};
ghost use Rattle.om_pool.specs.CoreKept.{IsLookRoom};
ghost use Rattle.om_pool.specs.HoldingsView.{rules_in, tables_in, IsSameBut};
ghost use Rattle.om_pool.specs.Malloc.{IsFor, IsOwnPlace, IsOwnRun, PlacesBlock, PlacesClaimed, PutsBlock, PutsClaimed};
ghost use Rattle.om_pool.specs.Placing.{Places};
ghost use Rattle.om_pool.specs.TableSteps.{block_on_pages, settled, IsTied};
ghost use Rattle.om_pool.specs.Underway.{HasComeTo, IsUnderway};

use crate::blocks::Request;
use crate::holdings::Holdings;
use crate::pool_core::Core;
use om_broker::{Broker, Claim};
use om_chunk::Picked;
use om_geom::{Addr, Class, PAGE_SIZE, Page, ZONE_PAGES, addr_of, class_of, pages_of, stride};
use om_model::{Block, Drawn, LookList, Move};
use std::sync::Wait;

/// Where a block was placed, or none where no run was found for it; the words that its call has drawn so far;
/// and what the zones answered.
#[derive(Drop)]
pub(crate) struct Placing {
    pub(crate) address: Option<u64>,
    pub(crate) words: Drawn,
    pub(crate) looks: LookList,
    pub(crate) claim: Option<Move>,
}

/// What the broker answered, if it was asked, and the looks at the zones that a search passed over.
#[derive(Drop)]
pub(crate) struct Search {
    answer: Option<Claim>,
    looks: LookList,
}

impl Core {
    /// Places a block of so many bytes, and adds what it draws to the words of its call. Nothing is entered
    /// into the journal.
    pub(crate) fn place_block<R: Wait, B: Broker>(
        &mut self,
        rt: &R,
        broker: &mut B,
        size: u64,
        site: u64,
        words: Drawn,
    ) -> Placing
        requires come { IsUnderway B.Broker self.old broker.old }
        requires fits { is_too_large (rules_in self.old.state) size ≡ false }
        requires page { 1 ≤ self.old.state.chunks.spare }
        requires looks { IsSome self.old.room }
        requires empty { IsLookRoom self.old.room }
        requires drawn { self.old.state.words.place < 2 ^ 63 - 1 }
        requires few { length words ≤ 2 }
        requires moves { claim_moves ≤ B.moves_left broker.old }
        ensures placed { (state : State) → HasComeTo B.Broker self.old broker.old state
            → Places B.Broker self.old self.new broker.old broker.new state size site words result }
        ensures empty { IsLookRoom self.new.room }
        ensures same { self.new ≡ record self.old {
          state = self.new.state;
          room = self.new.room;
        } }
    {
        match class_of(size, self.state.opts.canary) {
            Some(class) => self.place_chunk(rt, broker, size, site, words, class),
            None => self.place_pages(rt, broker, size, site, words),
        }
    }

    // Places a chunk of the class, by two words.
    fn place_chunk<R: Wait, B: Broker>(
        &mut self,
        rt: &R,
        broker: &mut B,
        size: u64,
        site: u64,
        mut words: Drawn,
        class: Class,
    ) -> Placing
        requires come { IsUnderway B.Broker self.old broker.old }
        requires class { size_class (rules_in self.old.state) size ≡ Some class.0 }
        requires page { 1 ≤ self.old.state.chunks.spare }
        requires looks { IsSome self.old.room }
        requires empty { IsLookRoom self.old.room }
        requires drawn { self.old.state.words.place < 2 ^ 63 - 1 }
        requires few { length words ≤ 2 }
        requires moves { claim_moves ≤ B.moves_left broker.old }
        ensures placed { (state : State) → HasComeTo B.Broker self.old broker.old state
            → Places B.Broker self.old self.new broker.old broker.new state size site words result }
        ensures empty { IsLookRoom self.new.room }
        ensures same { self.new ≡ record self.old {
          state = self.new.state;
          room = self.new.room;
        } }
    {
        let first = self.state.draw();
        let second = self.state.draw();
        words.push(first);
        words.push(second);
        let own = self.state.own_place(class, first, second);
        let search = self.ask(rt, broker, own.is_some(), 1, first);
        let claim = claim_in(&search.answer);
        let address = self
            .state
            .place(own, search.answer, class, second, size, site, self.canary);
        Placing {
            address,
            words,
            looks: search.looks,
            claim,
        }
    }

    // Places a block of whole pages, with its guard where guards are on, by one word.
    fn place_pages<R: Wait, B: Broker>(
        &mut self,
        rt: &R,
        broker: &mut B,
        size: u64,
        site: u64,
        mut words: Drawn,
    ) -> Placing
        requires come { IsUnderway B.Broker self.old broker.old }
        requires class { size_class (rules_in self.old.state) size ≡ None }
        requires fits { is_too_large (rules_in self.old.state) size ≡ false }
        requires looks { IsSome self.old.room }
        requires empty { IsLookRoom self.old.room }
        requires drawn { self.old.state.words.place < 2 ^ 63 - 1 }
        requires few { length words ≤ 2 }
        requires moves { claim_moves ≤ B.moves_left broker.old }
        ensures placed { (state : State) → HasComeTo B.Broker self.old broker.old state
            → Places B.Broker self.old self.new broker.old broker.new state size site words result }
        ensures empty { IsLookRoom self.new.room }
        ensures same { self.new ≡ record self.old {
          state = self.new.state;
          room = self.new.room;
        } }
    {
        let pages = pages_of(size) as u32;
        let n = self.state.with_guard(pages);
        let word = self.state.draw();
        words.push(word);
        let own = self.state.own_run(n);
        let search = self.ask(rt, broker, own.is_some(), n, word);
        let claim = claim_in(&search.answer);
        let request = Request { size, site };
        let address = self.state.put(own, search.answer, pages, request);
        Placing {
            address,
            words,
            looks: search.looks,
            claim,
        }
    }

    // Asks for so many pages only where the pool has none.
    fn ask<R: Wait, B: Broker>(
        &mut self,
        rt: &R,
        broker: &mut B,
        has: bool,
        n: u32,
        word: u32,
    ) -> Search
        requires room { IsSome self.old.room }
        requires empty { IsLookRoom self.old.room }
        requires zones { B.zones (B.arena broker.old) ≤ most_zones }
        requires some { 1 ≤ n }
        requires few { n ≤ zone_pages }
        requires moves { n + 1 ≤ B.moves_left broker.old }
        ensures asked { IsAsked B.Broker has broker.old broker.new n word result.looks.items
            result.answer }
        ensures empty { IsLookRoom self.new.room }
        ensures same { self.new ≡ record self.old { room = self.new.room } }
    {
        if has {
            return Search {
                answer: None,
                looks: LookList::empty(self.alloc),
            };
        }
        self.search(rt, broker, n, word)
    }

    // Asks the broker for so many pages by the word. The room for looks is used up where a zone was passed over.
    fn search<R: Wait, B: Broker>(&mut self, rt: &R, broker: &mut B, n: u32, word: u32) -> Search
        requires room { IsSome self.old.room }
        requires empty { IsLookRoom self.old.room }
        requires zones { B.zones (B.arena broker.old) ≤ most_zones }
        requires some { 1 ≤ n }
        requires few { n ≤ zone_pages }
        requires moves { n + 1 ≤ B.moves_left broker.old }
        ensures asked { IsAsked B.Broker false broker.old broker.new n word result.looks.items
            result.answer }
        ensures empty { IsLookRoom self.new.room }
        ensures same { self.new ≡ record self.old { room = self.new.room } }
    {
        let mut looks = match self.room.take() {
            Some(looks) => looks,
            None => unreachable!(),
        };
        let answer = Some(broker.claim(rt, n, word, &mut looks));
        if looks.is_empty() {
            self.room = Some(looks);
            let looks = LookList::empty(self.alloc);
            return Search { answer, looks };
        }
        Search { answer, looks }
    }
}

impl Holdings {
    // Puts a block on the pool's own place, or on one of the claimed page. None where there is neither.
    fn place(
        &mut self,
        own: Option<Picked>,
        answer: Option<Claim>,
        class: Class,
        word: u32,
        size: u64,
        site: u64,
        canary: u8,
    ) -> Option<u64>
        requires class { size_class (rules_in self.old) size ≡ Some class.0 }
        requires canary { canary ≡ canary_byte (rules_in self.old) }
        requires room { own ≡ None → 1 ≤ self.old.chunks.spare }
        requires own { IfSome own (IsOwnPlace self.old class.0) }
        requires zones { self.old.zones ≤ most_zones }
        requires tied { own ≡ None → IsTied self.old.zones (tables_in self.old) }
        requires page { IsFor self.old.zones (tables_in self.old) 1 answer }
        ensures placed { PlacesBlock (rules_in self.old) (tables_in self.old)
            (tables_in self.new) class.0 word size site result own answer }
        ensures same { IsSameBut self.old self.new }
    {
        match own {
            Some(found) => Some(self.settle_filled(found, class, size, site, canary)),
            None => self.place_claimed(answer, class, word, size, site, canary),
        }
    }

    fn place_claimed(
        &mut self,
        answer: Option<Claim>,
        class: Class,
        word: u32,
        size: u64,
        site: u64,
        canary: u8,
    ) -> Option<u64>
        requires class { size_class (rules_in self.old) size ≡ Some class.0 }
        requires canary { canary ≡ canary_byte (rules_in self.old) }
        requires room { 1 ≤ self.old.chunks.spare }
        requires zones { self.old.zones ≤ most_zones }
        requires tied { IsTied self.old.zones (tables_in self.old) }
        requires page { IsFor self.old.zones (tables_in self.old) 1 answer }
        ensures placed { PlacesClaimed (rules_in self.old) (tables_in self.old)
            (tables_in self.new) class.0 word size site result answer }
        ensures same { IsSameBut self.old self.new }
    {
        match answer {
            Some(Claim::Claimed { at, frames }) => {
                let page = first_page(at);
                let found = self.claimed_place(page, frames, class, word);
                Some(self.settle_filled(found, class, size, site, canary))
            }
            _ => None,
        }
    }

    // Puts a block on the place, fills it by the junk level, and writes its canaries. Gives its address.
    fn settle_filled(
        &mut self,
        picked: Picked,
        class: Class,
        size: u64,
        site: u64,
        canary: u8,
    ) -> u64
        requires class { size_class (rules_in self.old) size ≡ Some class.0 }
        requires canary { canary ≡ canary_byte (rules_in self.old) }
        requires page { picked.page.0 < zone_pages * most_zones }
        requires held { HoldsPage self.old.shelf picked.page.0 }
        requires free { IsFreeOn self.old.chunks.pages class.0 picked.page.0 picked.place }
        ensures address { result ≡ place_address picked.page.0 class.0 picked.place }
        ensures tables { tables_in self.new
            ≡ settled (rules_in self.old) (tables_in self.old) result class.0 size site }
        ensures same { IsSameBut self.old self.new }
    {
        let address = self.settle(picked, class, size, site);
        self.fill_fresh(Addr(address), stride(class));
        let block = Block {
            address,
            size,
            site,
        };
        self.write_canaries(block, class, canary);
        address
    }

    // Puts a page block on the pool's own run, or on the claimed one. None where there is neither.
    fn put(
        &mut self,
        own: Option<Page>,
        answer: Option<Claim>,
        pages: u32,
        request: Request,
    ) -> Option<u64>
        requires some { 1 ≤ pages }
        requires few { pages ≤ zone_pages }
        requires own { IfSome own (λ first.
            IsOwnRun self.old (table.block_pages pages self.old.opts.guard) first.0) }
        requires zones { self.old.zones ≤ most_zones }
        requires tied { own ≡ None → IsTied self.old.zones (tables_in self.old) }
        requires run { IsFor self.old.zones (tables_in self.old)
            (table.block_pages pages self.old.opts.guard) answer }
        ensures placed { PutsBlock (rules_in self.old) (tables_in self.old) (tables_in self.new)
            pages request result own answer }
        ensures same { IsSameBut self.old self.new }
    {
        match own {
            Some(first) => Some(self.put_on(first, pages, request)),
            None => self.put_claimed(answer, pages, request),
        }
    }

    fn put_claimed(&mut self, answer: Option<Claim>, pages: u32, request: Request) -> Option<u64>
        requires some { 1 ≤ pages }
        requires few { pages ≤ zone_pages }
        requires zones { self.old.zones ≤ most_zones }
        requires tied { IsTied self.old.zones (tables_in self.old) }
        requires run { IsFor self.old.zones (tables_in self.old)
            (table.block_pages pages self.old.opts.guard) answer }
        ensures placed { PutsClaimed (rules_in self.old) (tables_in self.old) (tables_in self.new)
            pages request result answer }
        ensures same { IsSameBut self.old self.new }
    {
        match answer {
            Some(Claim::Claimed { at, frames }) => {
                let first = first_page(at);
                self.add_pages(first, at.count, frames);
                Some(self.put_on(first, pages, request))
            }
            _ => None,
        }
    }

    // Puts a page block on held pages, and fills it by the junk level. Gives its address.
    fn put_on(&mut self, first: Page, pages: u32, request: Request) -> u64
        requires some { 1 ≤ pages }
        requires few { pages ≤ zone_pages }
        requires run { IsOwnRun self.old (table.block_pages pages self.old.opts.guard) first.0 }
        ensures address { result ≡ address_of first.0 }
        ensures tables { tables_in self.new
            ≡ block_on_pages (rules_in self.old) (tables_in self.old) first.0 pages request }
        ensures same { IsSameBut self.old self.new }
    {
        self.set_block(first, pages, request);
        let at = addr_of(first);
        self.fill_fresh(at, PAGE_SIZE * pages);
        at.0
    }
}

// The first page of a claim.
fn first_page(at: Move) -> Page
    requires { (run_of at).first < zone_pages * most_zones }
    ensures { result.0 ≡ (run_of at).first }
{
    Page(ZONE_PAGES * at.zone + at.first)
}

// The move of a claim.
fn claim_in(answer: &Option<Claim>) -> Option<Move>
    ensures { result ≡ claim_in answer.now }
{
    match answer {
        Some(Claim::Claimed { at, .. }) => Some(*at),
        _ => None,
    }
}
