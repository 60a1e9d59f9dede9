//! The journals of pools are lawful, by the plain forms of the definitions.
ghost use Rattle.om_words.specs.PlannedWords.{HasWords};

use super::judges::{
    head_of, judge_full_zone, judge_lawful, judge_left, judge_moves, judge_order, judge_short,
    moves_of,
};
use super::trial::{Trial, pool_by};
use super::{fill, pool_of};
use om_model::Reply;
use om_opts::{Opts, parse};
use om_words::{WordList, WordPlan, Words};
use std::alloc::{AllocError, Global};
use std::process::Abort;
use std::sync::Wait;
use std::test::Fail;

// One of the addresses.
fn some_address(addresses: &[u64], choice: u32) -> u64 {
    let count = addresses.len().max(1);
    addresses
        .get(choice as usize / 8 % count)
        .copied()
        .unwrap_or(0)
}

// Mostly the address that was given last and isn't freed, and now and then another or one inside a
// place.
fn address_to_free(addresses: &mut Vec<u64>, choice: u32) -> u64 {
    match choice % 8 {
        6 => some_address(addresses, choice),
        7 => some_address(addresses, choice) ^ 8,
        _ => addresses.pop().unwrap_or(0),
    }
}

fn reply_to<R: Abort + Wait>(
    rt: &R,
    pool: &mut Trial,
    choice: u32,
    addresses: &mut Vec<u64>,
) -> Result<Reply, AllocError> {
    match choice % 8 {
        0 => pool.malloc(rt, 2000),
        1 => pool.calloc(rt, 20, 100),
        2 => pool.malloc(rt, u64::from(choice) / 8 % 20_000),
        3 => pool.store(rt, some_address(addresses, choice), 7),
        4 => pool.load(rt, some_address(addresses, choice) | 64),
        _ => pool.free(rt, address_to_free(addresses, choice)),
    }
}

// So many calls, chosen by words of their own.
fn ask_often<R: Abort + Wait>(
    rt: &R,
    alloc: Global,
    pool: &mut Trial,
    calls: u32,
) -> Result<(), Fail> {
    let mut choices = Words::seeded(7, 1);
    let mut addresses = Vec::new(alloc);
    for _ in 0..calls {
        assert!(rt; choices.place() < 1_000);
        let choice = choices.draw();
        let reply = reply_to(rt, pool, choice, &mut addresses)?;
        if let Reply::Block(address) = reply {
            addresses.push(address)?;
        }
    }
    Ok(())
}

// The first word gives the canary byte.
fn judge_canary<R: Abort>(
    rt: &R,
    alloc: Global,
    plan: &WordPlan,
    pool: &Trial,
) -> Result<(), AllocError>
    requires { HasWords plan.now }
{
    let mut words = plan.words(alloc, 0)?;
    assert_eq!(rt; u32::from(pool.canary()), words.draw() % 255 + 1);
    Ok(())
}

// The journal of so many calls is lawful under the words that the pool drew, and not under others.
fn judge<R: Abort + Wait>(
    rt: &R,
    alloc: Global,
    opts: Opts,
    plan: WordPlan,
    others: WordPlan,
) -> Result<(), Fail>
    requires words { HasWords plan }
    requires others { HasWords others }
{
    let mut pool = pool_by(alloc, opts, plan.words(alloc, 0)?)?;
    ask_often(rt, alloc, &mut pool, 100)?;
    judge_canary(rt, alloc, &plan, &pool)?;
    let journal = pool.journal();
    assert_eq!(rt; journal.len(), 100);
    let head = head_of(alloc, opts, plan);
    judge_lawful(rt, alloc, &head, journal, true)?;
    judge_left(rt, alloc, &head, journal)?;
    judge_moves(rt, alloc, &head, journal)?;
    let head = head_of(alloc, opts, others);
    judge_lawful(rt, alloc, &head, journal, false)?;
    Ok(())
}

#[test]
fn journals_are_lawful(rt: HostRuntime) -> Result<(), Fail> {
    let words = vec![in rt.alloc(); 70, 1_000_000_007, 0, 2_718_281_828, 5]?;
    let listed = WordPlan::Listed(WordList::new(words));
    judge(
        &rt,
        rt.alloc(),
        Opts::default(),
        listed,
        WordPlan::Seeded(0),
    )?;
    let seeded = WordPlan::Seeded(0);
    judge(
        &rt,
        rt.alloc(),
        Opts::default(),
        seeded,
        WordPlan::Seeded(1),
    )
}

fn options_of(alloc: Global, letters: &[u8]) -> Result<Opts, AllocError> {
    Ok(parse(alloc, letters)?.opts())
}

#[test]
fn strict_journals_are_lawful(rt: HostRuntime) -> Result<(), Fail> {
    for (seed, letters) in ["CX", "F<<<<<<<", "GUJ<<<<", "S"].iter().enumerate() {
        let opts = options_of(rt.alloc(), letters.as_bytes())?;
        let seeded = WordPlan::Seeded(seed as u64);
        judge(&rt, rt.alloc(), opts, seeded, WordPlan::Seeded(9))?;
    }
    Ok(())
}

// With the word 0 alone the pages of zone 0 are taken one after the other, and the next is looked for
// there first.
#[test]
fn a_full_zone_is_looked_at(rt: HostRuntime) -> Result<(), Fail> {
    let mut pool = pool_of(rt.alloc(), Opts::default(), 0)?;
    fill(&rt, &mut pool, 66)?;
    let journal = pool.journal();
    let plan = WordPlan::Listed(WordList::new(vec![in rt.alloc(); 0]?));
    let head = head_of(rt.alloc(), Opts::default(), plan);
    let mut moves = moves_of(rt.alloc(), &head, journal)?;
    judge_full_zone(&rt, &moves);
    judge_short(&rt, rt.alloc(), &head, &moves, journal)?;
    judge_order(&rt, &mut moves)?;
    Ok(())
}
