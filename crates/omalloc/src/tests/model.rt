//! Journals and texts in plain form, and the lists of the data, on cases that are worked by hand.
ghost use Rattle.std.specs.Prelude.{IfOk};
ghost use Rattle.om_words.specs.PlannedWords.{HasWords};

use om_model::{
    BoardEntry, CallEntry, Drawn, Entry, Head, Journal, Look, LookList, Move, Op, Outcome, Reply,
    Told, Transcript, Who, blocks_are_apart, slow, steps_keep_well_formed,
};
use om_opts::Opts;
use om_words::{WordList, WordPlan};
use std::alloc::Global;
use std::process::Abort;
use std::test::Fail;

fn looks_are_kept(rt: &impl Abort, alloc: Global) -> Result<(), Fail> {
    let mut looks = LookList::with_room(alloc, 1)?;
    assert!(rt; looks.is_empty());
    looks.push(Look {
        zone: 3,
        version: 7,
    });
    assert_eq!(rt; looks.len(), 1);
    assert_eq!(rt; looks.look(0).version, 7);
    Ok(())
}

fn words_are_kept(rt: &impl Abort) {
    let mut words = Drawn::empty();
    words.push(5);
    assert_eq!(rt; words.len(), 1);
    assert_eq!(rt; words.word(0), 5);
}

fn entries_are_kept(rt: &impl Abort, alloc: Global) -> Result<(), Fail> {
    let mut journal = Journal::new(alloc);
    journal.reserve()?;
    journal.push(Entry::Phase(1));
    assert_eq!(rt; journal.len(), 1);
    assert!(rt; matches!(journal.entry(0), Entry::Phase(1)));
    Ok(())
}

fn outcomes_are_kept(rt: &impl Abort, alloc: Global) -> Result<(), Fail> {
    let mut transcript = Transcript::new(alloc);
    transcript.push(Outcome::Done)?;
    assert_eq!(rt; transcript.len(), 1);
    assert!(rt; matches!(transcript.outcome(0), Outcome::Done));
    Ok(())
}

#[test]
fn lists_keep_their_items(rt: HostRuntime) -> Result<(), Fail> {
    looks_are_kept(&rt, rt.alloc())?;
    words_are_kept(&rt);
    entries_are_kept(&rt, rt.alloc())?;
    outcomes_are_kept(&rt, rt.alloc())?;
    blocks_are_apart();
    steps_keep_well_formed();
    Ok(())
}

// An arena of one zone, and the two words of a list.
pub(super) fn head_of(alloc: Global, opts: Opts, first: u32, second: u32) -> Result<Head, Fail>
    ensures { IfOk result (λ head. HasWords head.plan) }
{
    Ok(Head {
        opts,
        zones: 1,
        plan: WordPlan::Listed(WordList::new(vec![in alloc; first, second]?)),
        warned: Vec::new(alloc),
    })
}

// The claim of page 0.
const CLAIM: Option<Move> = Some(Move {
    zone: 0,
    version: 1,
    first: 0,
    count: 1,
});

// An entry of script 0 that passes over no zone and releases nothing.
fn called(
    alloc: Global,
    (command, hop): (u32, u32),
    op: Op,
    reply: Reply,
    words: Drawn,
    claim: Option<Move>,
) -> Entry {
    Entry::Call(CallEntry {
        who: Who {
            caller: 0,
            command,
            hop,
        },
        op,
        reply,
        words,
        looks: LookList::empty(alloc),
        taken: None,
        claim,
        release: None,
    })
}

const MALLOC: Op = Op::Malloc { size: 100, site: 0 };

const FREE: Op = Op::Free { addr: 0x10000 };

const GIVEN: Reply = Reply::Block(0x10000);

// Makes room for the entry, and adds it.
fn add(rt: &impl Abort, journal: &mut Journal, entry: Entry) -> Result<(), Fail> {
    assert!(rt; journal.len() < 1_000);
    journal.reserve()?;
    journal.push(entry);
    Ok(())
}

// Over the word 0 alone an allocation claims page 0, and the free draws so many words.
fn journal_of(rt: &impl Abort, alloc: Global, free_words: Drawn) -> Result<Journal, Fail> {
    let mut journal = Journal::new(alloc);
    add(rt, &mut journal, Entry::Phase(1))?;
    let given = called(alloc, (1, 0), MALLOC, GIVEN, Drawn::two(0, 0), CLAIM);
    add(rt, &mut journal, given)?;
    let freed = called(alloc, (1, 0), FREE, Reply::Done, free_words, None);
    add(rt, &mut journal, freed)?;
    Ok(journal)
}

fn judge_journal(
    rt: &impl Abort,
    alloc: Global,
    free_words: Drawn,
    lawful: bool,
) -> Result<(), Fail> {
    let head = head_of(alloc, Opts::default(), 0, 0)?;
    assert_eq!(rt; head.zones, 1);
    let journal = journal_of(rt, alloc, free_words)?;
    assert_eq!(rt; slow::is_lawful(alloc, &head, 0, &journal)?, lawful);
    Ok(())
}

// The free that says that it drew no word isn't lawful.
#[test]
fn journals_are_judged(rt: HostRuntime) -> Result<(), Fail> {
    judge_journal(&rt, rt.alloc(), Drawn::one(0), true)?;
    judge_journal(&rt, rt.alloc(), Drawn::empty(), false)
}

const TEXT: &[u8] = b"omalloc 1
zones 1 pools 1 flags ------- junk 1 cache 64
words list 0,0
pool 0 canary 01 entries 3
phase 1
0 1 0 malloc 100 @0x0 = block 0x10000 w 0 0 claim 0@1 0+1
0 1 0 free 0x10000 = done w 0
board entries 2
0 1 post 3 0xff = done
0 2 take 3 = empty
script 0 a
1 block 0x10000
2 done
finished
done
";

const BOARD: [BoardEntry; 2] = [
    BoardEntry::Post {
        caller: 0,
        command: 1,
        cell: 3,
        value: 255,
    },
    BoardEntry::Take {
        caller: 0,
        command: 2,
        cell: 3,
        value: None,
    },
];

fn told(alloc: Global) -> Result<Told, Fail> {
    let mut outcomes = Transcript::new(alloc);
    outcomes.push(Outcome::Block(0x10000))?;
    outcomes.push(Outcome::Done)?;
    Ok(Told {
        name: b"a".to_vec(alloc)?,
        outcomes,
    })
}

#[test]
fn a_block_and_its_free(rt: HostRuntime) -> Result<(), Fail> {
    let opts = Opts {
        pools: 1,
        ..Opts::default()
    };
    let head = head_of(rt.alloc(), opts, 0, 0)?;
    let journals = [journal_of(&rt, rt.alloc(), Drawn::one(0))?];
    let scripts = [told(rt.alloc())?];
    let text = slow::text_of(rt.alloc(), &head, &journals, &BOARD, &scripts)?;
    assert_eq!(rt; text.as_slice(), TEXT);
    Ok(())
}

fn asked(alloc: Global, at: (u32, u32), op: Op, reply: Reply) -> Entry {
    called(alloc, at, op, reply, Drawn::empty(), None)
}

// Pool 0 gives the block, and misses the free in phase 1.
fn first_journal(rt: &impl Abort, alloc: Global) -> Result<Journal, Fail> {
    let mut journal = Journal::new(alloc);
    add(rt, &mut journal, asked(alloc, (1, 0), MALLOC, GIVEN))?;
    add(rt, &mut journal, Entry::Phase(1))?;
    add(rt, &mut journal, asked(alloc, (2, 0), FREE, Reply::Miss))?;
    Ok(journal)
}

// Pool 1 answers the free, in the phase given.
fn second_journal(rt: &impl Abort, alloc: Global, phase: u32) -> Result<Journal, Fail> {
    let mut journal = Journal::new(alloc);
    add(rt, &mut journal, Entry::Phase(phase))?;
    add(rt, &mut journal, asked(alloc, (2, 1), FREE, Reply::Done))?;
    Ok(journal)
}

#[test]
fn callers_are_below(rt: HostRuntime) -> Result<(), Fail> {
    let journal = first_journal(&rt, rt.alloc())?;
    for (callers, pools, only) in [(1, 2, true), (0, 2, false), (1, 1, false)] {
        let are = slow::only_callers(rt.alloc(), callers, pools, &journal)?;
        assert_eq!(rt; are, only);
    }
    Ok(())
}

// What is read stands in the journals, but not where the free is answered in another phase.
fn judge_calls(
    rt: &impl Abort,
    alloc: Global,
    journals: &[Journal],
    stand: bool,
) -> Result<(), Fail> {
    let read = slow::calls_read(alloc, 2, 0, journals)?;
    assert_eq!(rt; read.len(), 2);
    for (answered, replies) in read.iter().zip([1, 2]) {
        assert_eq!(rt; answered.replies.len(), replies);
    }
    assert_eq!(rt; slow::are_calls(alloc, 2, 0, &read, journals)?, stand);
    Ok(())
}

fn judge_phase(rt: &impl Abort, alloc: Global, phase: u32, stand: bool) -> Result<(), Fail> {
    let first = first_journal(rt, alloc)?;
    let second = second_journal(rt, alloc, phase)?;
    judge_calls(rt, alloc, &[first, second], stand)
}

#[test]
fn a_free_is_answered_by_the_next_pool(rt: HostRuntime) -> Result<(), Fail> {
    judge_phase(&rt, rt.alloc(), 1, true)?;
    judge_phase(&rt, rt.alloc(), 2, false)
}
