//! The steps of a pool and its states in plain form, on cases that are worked by hand.
ghost use Rattle.om_words.specs.PlannedWords.{HasWords};
ghost use Rattle.om_model.specs.Slow.{IsSmallClaim};

use super::model::head_of;
use om_model::slow::{self, Kind, Run, Standing, State, Step, Use};
use om_model::{Fault, Head, Move, Reply, Why};
use om_opts::Opts;
use std::alloc::Global;
use std::process::Abort;
use std::test::Fail;

// An allocation of a size, for which the zones give the first of these pages and so many, or a free.
#[derive(Clone, Copy)]
enum Ask {
    Malloc(u64, Option<(u8, u8)>),
    Free(u64),
}

// What is asked, the reply and the release, then the pages that are held and how many blocks are live.
type Case = (Ask, Reply, Option<Run>, &'static [u32], usize);

// A claim in zone 0.
fn claim_of(pages: Option<(u8, u8)>) -> Option<Move>
    ensures { IsSmallClaim result }
{
    let (first, count) = pages?;
    Some(Move {
        zone: 0,
        version: 1,
        first: u32::from(first),
        count: u32::from(count),
    })
}

fn step_of(rt: &impl Abort, head: &Head, state: &State, ask: Ask) -> Result<Step, Fail>
    requires { HasWords head.now.plan }
{
    assert!(rt; state.drawn < 1_000);
    match ask {
        Ask::Malloc(size, pages) => Ok(state.malloc(head, 0, size, 0, claim_of(pages))?),
        Ask::Free(address) => Ok(state.free(head, 0, address)?),
    }
}

fn judge_state(rt: &impl Abort, state: &State, held: &[u32], live: usize) {
    assert_eq!(rt; state.held.as_slice(), held);
    assert_eq!(rt; state.live.len(), live);
}

fn take_step(rt: &impl Abort, head: &Head, state: &mut State, case: &Case) -> Result<(), Fail>
    requires { HasWords head.now.plan }
{
    let step = step_of(rt, head, state, case.0)?;
    *state = step.next;
    assert_eq!(rt; step.reply, case.1);
    assert_eq!(rt; step.release, case.2);
    judge_state(rt, state, case.3, case.4);
    Ok(())
}

fn take_steps(rt: &impl Abort, head: &Head, state: &mut State, cases: &[Case]) -> Result<(), Fail>
    requires { HasWords head.now.plan }
{
    for case in cases {
        take_step(rt, head, state, case)?;
    }
    Ok(())
}

// The steps from the opening state on, over two words by turns.
fn take_all(
    rt: &impl Abort,
    alloc: Global,
    opts: Opts,
    words: (u32, u32),
    cases: &[Case],
) -> Result<(), Fail> {
    let head = head_of(alloc, opts, words.0, words.1)?;
    let mut state = State::opening(alloc, &head, 0)?;
    take_steps(rt, &head, &mut state, cases)
}

// With the word 0 alone a block goes on the claimed page, at its first place, and every free takes slot 0.
const OVER_THE_WORD_0: [Case; 6] = [
    (
        Ask::Malloc(100, Some((0, 1))),
        Reply::Block(0x10000),
        None,
        &[0],
        1,
    ),
    (Ask::Free(0x20000), Reply::Miss, None, &[0], 1),
    (
        Ask::Free(0x10008),
        Reply::Fault(Fault::ModifiedPointer),
        None,
        &[0],
        1,
    ),
    (
        Ask::Free(0x10080),
        Reply::Fault(Fault::AlreadyFree),
        None,
        &[0],
        1,
    ),
    (Ask::Free(0x10000), Reply::Done, None, &[0], 0),
    (
        Ask::Free(0x10000),
        Reply::Fault(Fault::DoubleFree),
        None,
        &[0],
        0,
    ),
];

#[test]
fn steps_over_the_word_0(rt: HostRuntime) -> Result<(), Fail> {
    take_all(&rt, rt.alloc(), Opts::default(), (0, 0), &OVER_THE_WORD_0)
}

// The second free takes slot 0 too, and the page of the place that leaves it becomes free.
const TWO_PAGES: [Case; 4] = [
    (
        Ask::Malloc(2048, Some((0, 1))),
        Reply::Block(0x10000),
        None,
        &[0],
        1,
    ),
    (
        Ask::Malloc(100, Some((1, 1))),
        Reply::Block(0x11000),
        None,
        &[0, 1],
        2,
    ),
    (Ask::Free(0x10000), Reply::Done, None, &[0, 1], 1),
    (
        Ask::Free(0x11000),
        Reply::Done,
        Some(Run { first: 0, count: 1 }),
        &[1],
        0,
    ),
];

#[test]
fn no_free_page_is_kept(rt: HostRuntime) -> Result<(), Fail> {
    let opts = Opts {
        cache: 0,
        ..Opts::default()
    };
    take_all(&rt, rt.alloc(), opts, (0, 0), &TWO_PAGES)
}

// The first free takes slot 1 and the second slot 0, which doesn't hold the place: only with these options
// that is seen, and a null is a fault.
const FREED_TWICE: [Case; 4] = [
    (
        Ask::Malloc(100, Some((1, 1))),
        Reply::Block(0x11000),
        None,
        &[1],
        1,
    ),
    (Ask::Free(0x11000), Reply::Done, None, &[1], 0),
    (Ask::Free(0x11000), Reply::Done, None, &[1], 0),
    (
        Ask::Malloc(16, None),
        Reply::Null(Why::NoRun),
        None,
        &[1],
        0,
    ),
];

const FREED_TWICE_CHECKED: [Case; 4] = [
    (
        Ask::Malloc(100, Some((1, 1))),
        Reply::Block(0x11000),
        None,
        &[1],
        1,
    ),
    (Ask::Free(0x11000), Reply::Done, None, &[1], 0),
    (
        Ask::Free(0x11000),
        Reply::Fault(Fault::DoubleFree),
        None,
        &[1],
        0,
    ),
    (
        Ask::Malloc(16, None),
        Reply::Fault(Fault::OutOfMemory(Why::NoRun)),
        None,
        &[1],
        0,
    ),
];

#[test]
fn another_slot_holds_the_place(rt: HostRuntime) -> Result<(), Fail> {
    let checked = Opts {
        freecheck: true,
        xmalloc: true,
        ..Opts::default()
    };
    take_all(&rt, rt.alloc(), Opts::default(), (0, 1), &FREED_TWICE)?;
    take_all(&rt, rt.alloc(), checked, (0, 1), &FREED_TWICE_CHECKED)
}

// Two pages and the guard behind them. What is freed at once leaves the pool, and a larger one never came.
const GUARDED: [Case; 5] = [
    (
        Ask::Malloc(32 * 4096, Some((4, 3))),
        Reply::Null(Why::TooLarge),
        None,
        &[],
        0,
    ),
    (
        Ask::Malloc(5000, Some((4, 3))),
        Reply::Block(0x14000),
        None,
        &[4, 5, 6],
        1,
    ),
    (
        Ask::Free(0x15000),
        Reply::Fault(Fault::Bogus),
        None,
        &[4, 5, 6],
        1,
    ),
    (
        Ask::Free(0x16000),
        Reply::Fault(Fault::Bogus),
        None,
        &[4, 5, 6],
        1,
    ),
    (Ask::Free(0x17000), Reply::Miss, None, &[4, 5, 6], 1),
];

const GUARDED_FREE: [Case; 1] = [(
    Ask::Free(0x14000),
    Reply::Done,
    Some(Run { first: 4, count: 3 }),
    &[],
    0,
)];

#[test]
fn a_block_of_two_pages(rt: HostRuntime) -> Result<(), Fail> {
    let opts = Opts {
        guard: true,
        cache: 2,
        ..Opts::default()
    };
    let head = head_of(rt.alloc(), opts, 7, 0)?;
    let mut state = State::opening(rt.alloc(), &head, 0)?;
    take_steps(&rt, &head, &mut state, &GUARDED)?;
    assert!(rt; state.is_well_formed(&head, 0)?);
    let stands = slow::stands_at(&head, 0, &state, 0x16000)?;
    assert!(rt; matches!(stands, Standing::OnGuard));
    take_steps(&rt, &head, &mut state, &GUARDED_FREE)
}

// Word 5 chooses place 5 of a page of class 128.
const ON_PAGE_5: [Case; 1] = [(
    Ask::Malloc(100, Some((5, 1))),
    Reply::Block(0x15280),
    None,
    &[5],
    1,
)];

fn judge_uses(rt: &impl Abort, used: &[Use]) {
    assert!(rt; slow::is_begun(used, 0x15280));
    assert!(rt; !slow::is_begun(used, 0x15281));
    assert!(rt; slow::is_free_page(used, 4));
    assert!(rt; !slow::is_free_page(used, 5));
    assert!(rt; matches!(slow::page_kind(used, 5), Some(Kind::Chunk(128))));
    assert!(rt; slow::page_kind(used, 6).is_none());
    assert_eq!(rt; slow::picked_place(used, 5, 128, 37), Some(6));
}

fn judge_own_page(rt: &impl Abort, alloc: Global, used: &[Use], held: &[u32]) -> Result<(), Fail> {
    assert_eq!(rt; slow::own_page(alloc, used, held, 128, 9)?, Some(5));
    assert_eq!(rt; slow::own_page(alloc, used, held, 16, 9)?, None);
    Ok(())
}

#[test]
fn a_block_on_page_5(rt: HostRuntime) -> Result<(), Fail> {
    let head = head_of(rt.alloc(), Opts::default(), 5, 5)?;
    let mut state = State::opening(rt.alloc(), &head, 0)?;
    take_steps(&rt, &head, &mut state, &ON_PAGE_5)?;
    let used = slow::uses(&head, 0, &state)?;
    judge_uses(&rt, &used);
    judge_own_page(&rt, rt.alloc(), &used, &state.held)
}

// A block that is live twice shares its bytes, and one on a page that isn't held lies nowhere.
fn judge_states(rt: &impl Abort, head: &Head, state: &mut State) -> Result<(), Fail> {
    assert!(rt; state.is_well_formed(head, 0)?);
    assert!(rt; !state.live.is_empty());
    state.live.push(state.live[0])?;
    assert!(rt; !state.is_well_formed(head, 0)?);
    assert!(rt; state.live.pop().is_some());
    assert!(rt; state.is_well_formed(head, 0)?);
    assert!(rt; state.held.pop().is_some());
    assert!(rt; !state.is_well_formed(head, 0)?);
    Ok(())
}

#[test]
fn states_are_judged(rt: HostRuntime) -> Result<(), Fail> {
    let head = head_of(rt.alloc(), Opts::default(), 5, 5)?;
    let mut state = State::opening(rt.alloc(), &head, 0)?;
    take_steps(&rt, &head, &mut state, &ON_PAGE_5)?;
    judge_states(&rt, &head, &mut state)
}
