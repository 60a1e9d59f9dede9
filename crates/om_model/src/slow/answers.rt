//! What the zones may answer.
ghost use Rattle.std.specs.Prelude.{◌≡◌, ℕ, ◌+◌, ◌^◌, ◌<◌, ◌≤◌, ◌↔◌, false, [], length, map, None, IsSomeAnd, IsTrue, IfOk};
ghost use Rattle.std.specs.List.{range_with_len};
ghost use Rattle.om_geom.specs.Addresses.{zone_of};
ghost use Rattle.om_geom.specs.Fit.{searched_zone};
ghost use Rattle.om_geom.specs.Numbers.{zone_pages};
ghost use Rattle.om_model.specs.Output.Head.{rules_of};
ghost use Rattle.om_model.specs.Pool.Journal.{NamesSearched, IsFresh, IsFound, EndsSearch, IsGiven, MayAnswer, answers_of};
ghost use Rattle.om_model.specs.Pool.Runs.{run_of};
ghost use Rattle.om_model.specs.Pool.State.{is_held};
ghost use Rattle.om_model.specs.Pool.Steps.{At};
ghost use Rattle.om_model.specs.Slow.{run_in, searching, wish_in};

use super::state::{State, is_held};
use super::steps::{Run, Search, Wish};
use crate::content::Head;
use crate::entry::{CallEntry, Move};
use crate::looks::LookList;
use om_geom::ZONE_PAGES;
use std::alloc::{AllocError, Global};

// The zone to which a search by the word comes after so many.
fn searched_zone(zones: u32, word: u32, i: u32) -> u32
    requires { 1 ≤ zones }
    ensures { result ≡ searched_zone zones word i }
{
    ((u64::from(word / ZONE_PAGES) + u64::from(i)) % u64::from(zones)) as u32
}

fn searched_zones(alloc: Global, zones: u32, word: u32, count: u32) -> Result<Vec<u32>, AllocError>
    requires { 1 ≤ zones }
    ensures { IfOk result (λ searched. searched.items ≡
        map (searched_zone zones word) (range_with_len 0 count)) }
{
    (0..count)
        .map(|i| searched_zone(zones, word, i))
        .collect(alloc)
}

fn named_zones(alloc: Global, looks: &LookList) -> Result<Vec<u32>, AllocError>
    ensures { IfOk result (λ named. named.items ≡ map (λ look. look.zone) looks.now.items) }
{
    looks.iter().map(|look| look.zone).collect(alloc)
}

/// Whether both have the same numbers.
pub(super) fn are_same(some: &[u32], others: &[u32]) -> bool
    ensures { IsTrue result ↔ (some.now ≡ others.now) }
{
    some == others
}

fn names_searched(
    alloc: Global,
    zones: u32,
    word: u32,
    looks: &LookList,
) -> Result<bool, AllocError>
    requires { 1 ≤ zones }
    ensures { IfOk result (λ named. IsTrue named ↔ NamesSearched zones word looks.now.items) }
{
    let named = named_zones(alloc, looks)?;
    let searched = searched_zones(alloc, zones, word, looks.len())?;
    Ok(are_same(&named, &searched))
}

// Whether the pool holds none of so many pages.
fn is_new(state: &State, first: u64, count: u32) -> bool
    requires { first < 2 ^ 63 }
    ensures { IsTrue result ↔ ((page : ℕ) → first ≤ page → page < first + count
        → is_held state.now.held page ≡ false) }
{
    for i in 0..count {
        if is_held(&state.held, first + u64::from(i)) {
            return false;
        }
    }
    true
}

/// Whether all of its pages are of its zone.
pub(super) fn is_inside(made: Move) -> bool
    ensures { IsTrue result ↔ (made.first + made.count ≤ zone_pages) }
{
    u64::from(made.first) + u64::from(made.count) <= u64::from(ZONE_PAGES)
}

fn first_page(made: Move) -> u64
    ensures { result ≡ (run_of made).first }
{
    u64::from(ZONE_PAGES) * u64::from(made.zone) + u64::from(made.first)
}

// The claim lies in its zone, on pages that the pool doesn't hold.
fn is_fresh(state: &State, found: Move) -> bool
    ensures { IsTrue result ↔ IsFresh state.now found }
{
    is_inside(found) && is_new(state, first_page(found), found.count)
}

fn is_found(
    head: &Head,
    pool: u32,
    state: &State,
    count: u64,
    word: u32,
    passed: u32,
    found: Move,
) -> bool
    requires { 1 ≤ head.now.zones }
    ensures { IsTrue result ↔
        IsFound (rules_of head.now pool) state.now count word passed found }
{
    passed < head.zones
        && found.zone == searched_zone(head.zones, word, passed)
        && u64::from(found.count) == count
        && is_fresh(state, found)
}

// Where the search ends: at the claim, or after every zone.
fn ends_search(
    head: &Head,
    pool: u32,
    state: &State,
    count: u64,
    word: u32,
    passed: u32,
    claim: Option<Move>,
) -> bool
    requires { 1 ≤ head.now.zones }
    ensures { IsTrue result ↔
        EndsSearch (rules_of head.now pool) state.now count word passed claim }
{
    match claim {
        Some(found) => is_found(head, pool, state, count, word, passed, found),
        None => passed == head.zones,
    }
}

// Where nothing is asked there is no answer.
fn answers_nothing(entry: &CallEntry) -> bool
    ensures { IsTrue result ↔ ((entry.now.claim ≡ None) × (entry.now.looks ≡ [])) }
{
    entry.claim.is_none() && entry.looks.is_empty()
}

fn answers_search(
    head: &Head,
    pool: u32,
    state: &State,
    search: Search,
    entry: &CallEntry,
) -> Result<bool, AllocError>
    requires { 1 ≤ head.now.zones }
    ensures { IfOk result (λ may. IsTrue may ↔
        (NamesSearched head.now.zones search.word entry.now.looks
        × EndsSearch (rules_of head.now pool) state.now search.count search.word
        (length entry.now.looks) entry.now.claim)) }
{
    let Search { count, word } = search;
    let named = names_searched(state.alloc, head.zones, word, &entry.looks)?;
    let passed = entry.looks.len();
    let ends = ends_search(head, pool, state, count, word, passed, entry.claim);
    Ok(named && ends)
}

// Whether the zones may answer a search, or nothing, so, but for what a claim at a given run found.
fn answers_untaken(
    head: &Head,
    pool: u32,
    state: &State,
    search: Option<Search>,
    entry: &CallEntry,
) -> Result<bool, AllocError>
    requires { 1 ≤ head.now.zones }
    ensures { IfOk result (λ may. IsTrue may ↔
        MayAnswer (rules_of head.now pool) state.now (searching search)
        (record { claim = entry.now.claim; looks = entry.now.looks; taken = None })) }
{
    match search {
        Some(search) => answers_search(head, pool, state, search, entry),
        None => Ok(answers_nothing(entry)),
    }
}

/// Whether these are the pages of the move.
pub(super) fn is_run(found: Move, run: Run) -> bool
    ensures { IsTrue result ↔ (run_of found ≡ run_in run) }
{
    first_page(found) == run.first && u64::from(found.count) == run.count
}

// The claim stands at the given run.
fn is_given(state: &State, run: Run, found: Move) -> bool
    ensures { IsTrue result ↔ IsGiven state.now (run_in run) found }
{
    is_run(found, run) && is_fresh(state, found)
}

// A claim at the run was made, and no zone was searched.
fn answers_given(state: &State, run: Run, entry: &CallEntry) -> bool
    ensures { IsTrue result ↔ ((entry.now.looks ≡ [])
        × IsSomeAnd entry.now.claim (IsGiven state.now (run_in run))) }
{
    match entry.claim {
        Some(found) => entry.looks.is_empty() && is_given(state, run, found),
        None => false,
    }
}

fn is_zone_of(zone: u32, run: Run) -> bool
    ensures { IsTrue result ↔ (zone ≡ zone_of run.first) }
{
    u64::from(zone) == run.first / u64::from(ZONE_PAGES)
}

// A claim at the run, or a look at which a page of it was held, and then what is answered otherwise.
fn answers_at(
    head: &Head,
    pool: u32,
    state: &State,
    run: Run,
    otherwise: Option<Search>,
    entry: &CallEntry,
) -> Result<bool, AllocError>
    requires { 1 ≤ head.now.zones }
    ensures { IfOk result (λ may. IsTrue may ↔
        MayAnswer (rules_of head.now pool) state.now (At (run_in run) (searching otherwise))
        (answers_of entry.now)) }
{
    match entry.taken {
        Some(look) => {
            let may = answers_untaken(head, pool, state, otherwise, entry)?;
            Ok(is_zone_of(look.zone, run) && may)
        }
        None => Ok(answers_given(state, run, entry)),
    }
}

// The same where no claim at a given run is asked for: no look at one is answered.
fn answers_no_run(
    head: &Head,
    pool: u32,
    state: &State,
    search: Option<Search>,
    entry: &CallEntry,
) -> Result<bool, AllocError>
    requires { 1 ≤ head.now.zones }
    ensures { IfOk result (λ may. IsTrue may ↔
        MayAnswer (rules_of head.now pool) state.now (searching search) (answers_of entry.now)) }
{
    let may = answers_untaken(head, pool, state, search, entry)?;
    Ok(may && entry.taken.is_none())
}

/// Whether the zones may answer so.
pub(super) fn may_answer(
    head: &Head,
    pool: u32,
    state: &State,
    wish: Wish,
    entry: &CallEntry,
) -> Result<bool, AllocError>
    requires { 1 ≤ head.now.zones }
    ensures { IfOk result (λ may. IsTrue may ↔
        MayAnswer (rules_of head.now pool) state.now (wish_in wish) (answers_of entry.now)) }
{
    match wish {
        Wish::Nothing => answers_no_run(head, pool, state, None, entry),
        Wish::Search(search) => answers_no_run(head, pool, state, Some(search), entry),
        Wish::At(run, otherwise) => answers_at(head, pool, state, run, otherwise, entry),
    }
}
