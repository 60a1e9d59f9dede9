//! Whole runs, judged and written by the plain forms of the definitions.
ghost use Rattle.om_words.specs.PlannedWords.{HasWords};
ghost use Rattle.omalloc.specs.Heads.{IsHead};
ghost use Rattle.omalloc.specs.Script.{IsScript};

use super::script_run::is_script_run;
use super::{arguments_of, gives};
use crate::arguments::read_arguments;
use crate::read::read;
use crate::run::{Ran, run_script};
use crate::script::Script;
use crate::status::Status;
use om_io::INPUT_LIMIT;
use om_model::{Head, Journal, Outcome, Told, Transcript, slow};
use om_words::Words;
use std::alloc::{AllocError, Global};
use std::process::Abort;
use std::slice;
use std::sync::Wait;
use std::test::Fail;
use std::thread::Threads;

// Commands over four names. A block that is freed is mostly followed by another, and else by a second free some
// time. Fresh blocks are read at the end of their place, or written, under canaries over one of these; so are those of 1
// to 16 pages.
fn lines_of(alloc: Global, choice: u32) -> Result<String, AllocError> {
    let name = choice % 4;
    let byte = choice % 256;
    let large = 4096 * (choice / 64 % 16 + 1) - byte;
    match choice / 4 % 16 {
        0 => format!(in alloc; "free v{name}\n"),
        1..=7 => format!(in alloc;
            "free v{name}\nmalloc v{name} 2048\nstore v{name} 2047 {byte}\n"
        ),
        8..=10 => format!(in alloc; "malloc v{name} 100\nload v{name} 127\n"),
        11 => format!(in alloc; "malloc v{name} 100\nstore v{name} 127 {byte}\n"),
        12 => format!(in alloc; "malloc v{name} {large}\nload v{name} 2048\n"),
        _ => format!(in alloc; "free v{name}\nmalloc v{name} {large}\nstore v{name} 2048 {byte}\n"),
    }
}

// Commands over four names, each of which has a live block or 0: it comes to another size, of up to 3,000 bytes or up to
// 16 pages, and its last byte is written, or it is freed and followed by another. None of them faults.
fn resizing_lines_of(alloc: Global, choice: u32) -> Result<String, AllocError> {
    let name = choice % 4;
    let byte = choice % 256;
    let last = choice / 64 % 3_000;
    let small = last + 1;
    let large = 4096 * (choice / 64 % 16 + 1) - byte;
    match choice / 4 % 8 {
        0 => format!(in alloc; "free v{name}\ncalloc v{name} 16 {small}\nload v{name} {last}\n"),
        1..=2 => format!(in alloc;
            "realloc v{name} v{name} {large}\nload v{name} 0\nstore v{name} 2048 {byte}\n"
        ),
        3..=5 => format!(in alloc;
            "realloc v{name} v{name} {small}\nload v{name} 0\nstore v{name} {last} {byte}\n"
        ),
        6 => format!(in alloc; "reallocarray v{name} v{name} 3 {small}\nload v{name} {last}\n"),
        _ => format!(in alloc; "free v{name}\nmalloc v{name} {large}\nstore v{name} 2048 {byte}\n"),
    }
}

// A script of commands that the words of a seed choose.
fn script_text(
    rt: &impl Abort,
    alloc: Global,
    seed: u64,
    steps: u32,
    resizing: bool,
) -> Result<String, Fail> {
    let mut choices = Words::seeded(seed, 1);
    let mut text = String::from_str(alloc, "script plain\n")?;
    for _ in 0..steps {
        assert!(rt; choices.place() < 1_000);
        let choice = choices.draw();
        let lines = if resizing {
            resizing_lines_of(alloc, choice)?
        } else {
            lines_of(alloc, choice)?
        };
        text.push_str(lines.as_str())?;
    }
    text.push_str("end\n")?;
    Ok(text)
}

fn outcomes_of(alloc: Global, transcript: &Transcript) -> Result<Vec<Outcome>, AllocError> {
    let mut outcomes = Vec::new(alloc);
    for i in 0..transcript.len() {
        outcomes.push(*transcript.outcome(i))?;
    }
    Ok(outcomes)
}

// The outcomes are those of a run of the script with this journal, and without the last one they
// aren't.
fn judge_script(
    rt: &impl Abort,
    alloc: Global,
    script: &Script,
    journal: &Journal,
    transcript: &Transcript,
) -> Result<(), Fail>
    requires { IsScript script.now }
{
    let mut outcomes = outcomes_of(alloc, transcript)?;
    let journals = slice::from_ref(journal);
    assert!(rt; is_script_run(alloc, 1, 0, script, journals, &outcomes)?);
    assert!(rt; slow::only_callers(alloc, 1, 1, journal)?);
    assert!(rt; outcomes.pop().is_some());
    assert!(rt; !is_script_run(alloc, 1, 0, script, journals, &outcomes)?);
    Ok(())
}

// The journal is a run of one pool under the head: lawful to its end, which leaves a well-formed state, with
// its moves in order and true looks.
fn judge_pool(rt: &impl Abort, alloc: Global, head: &Head, journal: &Journal) -> Result<(), Fail>
    requires { IsHead head.now }
{
    assert!(rt; slow::is_lawful(alloc, head, 0, journal)?);
    match slow::State::opening(alloc, head, 0)?.follow_all(head, 0, journal)? {
        Some(state) => assert!(rt; state.is_well_formed(head, 0)?),
        None => assert!(rt; false),
    }
    let moves = slow::moves_of(alloc, head, slice::from_ref(journal))?;
    assert!(rt; slow::is_zone_order(&moves));
    assert!(rt; slow::are_looks(alloc, head, 0, &moves, journal)?);
    Ok(())
}

fn told_of(alloc: Global, script: &Script, outcomes: Transcript) -> Result<Told, AllocError> {
    Ok(Told {
        name: script.name().to_vec(alloc)?,
        outcomes,
    })
}

// The output that tells the journal of the only pool and the only script.
fn text_of(alloc: Global, head: &Head, journal: &Journal, told: Told) -> Result<Vec<u8>, AllocError>
    requires { HasWords head.now.plan }
{
    slow::text_of(alloc, head, slice::from_ref(journal), &[], &[told])
}

// The output of the script's run under the head, which is judged first.
fn output_of_run<R: Abort + Wait>(
    rt: &R,
    alloc: Global,
    head: &Head,
    script: &Script,
) -> Result<Vec<u8>, Fail>
    requires head { IsHead head.now }
    requires script { IsScript script.now }
{
    let Ran {
        pool,
        transcript,
        ..
    } = run_script(rt, alloc, head, script)?;
    judge_script(rt, alloc, script, pool.journal(), &transcript)?;
    judge_pool(rt, alloc, head, pool.journal())?;
    let told = told_of(alloc, script, transcript)?;
    Ok(text_of(alloc, head, pool.journal(), told)?)
}

// The output for the arguments of a line and a text, by the plain forms.
fn plain_output<R: Abort + Wait>(
    rt: &R,
    alloc: Global,
    line: &str,
    text: &str,
) -> Result<Vec<u8>, Fail> {
    assert!(rt; text.len() <= INPUT_LIMIT);
    let arguments = arguments_of(alloc, line)?;
    let head = read_arguments(alloc, &arguments)?;
    let script = read(alloc, text.as_bytes())?;
    output_of_run(rt, alloc, &head, &script)
}

// The program writes what the plain forms write, and ends so.
fn writes_text_the_same<R: Abort + Threads + Wait + Sync>(
    rt: &R,
    alloc: Global,
    line: &str,
    text: &str,
    status: Status,
) -> Result<(), Fail> {
    let written = plain_output(rt, alloc, line, text)?;
    gives(rt, alloc, line, text, status, &written)
}

fn writes_the_same<R: Abort + Threads + Wait + Sync>(
    rt: &R,
    alloc: Global,
    seed: u64,
    line: &str,
    status: Status,
) -> Result<(), Fail> {
    let text = script_text(rt, alloc, seed, 40, false)?;
    writes_text_the_same(rt, alloc, line, text.as_str(), status)
}

fn resizes_the_same<R: Abort + Threads + Wait + Sync>(
    rt: &R,
    alloc: Global,
    seed: u64,
    line: &str,
) -> Result<(), Fail> {
    let text = script_text(rt, alloc, seed, 40, true)?;
    writes_text_the_same(rt, alloc, line, text.as_str(), Status::Finished)
}

#[test]
fn the_plain_forms_resize_the_same(rt: HostRuntime) -> Result<(), Fail> {
    resizes_the_same(&rt, rt.alloc(), 6, "run -s 8")?;
    resizes_the_same(&rt, rt.alloc(), 7, "run -o GJR -s 9")?;
    resizes_the_same(&rt, rt.alloc(), 8, "run -o CF<<<< -z 8 -s 10")?;
    resizes_the_same(&rt, rt.alloc(), 9, "run -o GUj -z 8 -w 31,7,2")
}

#[test]
fn the_plain_forms_write_the_same(rt: HostRuntime) -> Result<(), Fail> {
    writes_the_same(&rt, rt.alloc(), 0, "run -w 0", Status::Faulted)?;
    writes_the_same(&rt, rt.alloc(), 1, "run -w 0,1,5", Status::Faulted)?;
    writes_the_same(
        &rt,
        rt.alloc(),
        2,
        "run -o <<<<<<<QJ -s 7",
        Status::Finished,
    )?;
    writes_the_same(&rt, rt.alloc(), 3, "run -s 3", Status::Finished)?;
    writes_the_same(
        &rt,
        rt.alloc(),
        5,
        "run -o GU<<< -z 4 -s 4",
        Status::Finished,
    )?;
    writes_the_same(
        &rt,
        rt.alloc(),
        1,
        "run -o GJ -z 1 -w 31,7",
        Status::Faulted,
    )?;
    writes_the_same(&rt, rt.alloc(), 3, "run -o C -s 3", Status::Faulted)?;
    writes_the_same(
        &rt,
        rt.alloc(),
        12,
        "run -o CJ< -z 4 -s 4",
        Status::Finished,
    )
}
