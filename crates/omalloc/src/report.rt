//! The output of a run. Lines wait in a buffer until they are many, so that memory doesn't grow
//! with the output.
ghost use Rattle.std.specs.Prelude.{◌≡◌, ◌++◌, OnOk};
ghost use Rattle.std.specs.List.{flat_map, enumerate_from};
ghost use Rattle.om_io.specs.Buffered.{Adds};
ghost use Rattle.om_io.specs.Sink.{Writes};
ghost use Rattle.om_model.specs.Output.Head.{rules_of};
ghost use Rattle.om_model.specs.Output.Ranges.{IsInRange};
ghost use Rattle.om_model.specs.Output.Text.{head_lines, ended_line, entry_line, numbered_line, text_of};
ghost use Rattle.om_pool.specs.PoolView.{IsRun, IsAlone};
ghost use Rattle.omalloc.specs.Refusal.{refusal_line};
ghost use Rattle.omalloc.specs.Report.{content, front_of, back_of, title_of, titles_of, end_of};

use crate::refusal::{Refusal, push_refusal_line};
use om_broker::LoneBroker;
use om_io::{BufferedSink, Sink, WriteStop, write_all};
use om_model::{Entry, Head, Journal, Outcome, Transcript, text};
use om_pool::Pool;
use std::alloc::{AllocError, Global};

fn write_entry<K: Sink>(out: &mut BufferedSink<'_, K>, entry: &Entry) -> Result<(), WriteStop>
    ensures { Adds K.written K.faults out.old out.new (entry_line entry.now) result }
{
    text::push_entry_line(out.waiting, entry)?;
    out.settle()
}

fn write_outcome<K: Sink>(
    out: &mut BufferedSink<'_, K>,
    number: u32,
    outcome: Outcome,
) -> Result<(), WriteStop>
    ensures { Adds K.written K.faults out.old out.new (numbered_line (number, outcome)) result }
{
    text::push_outcome_line(out.waiting, number, outcome)?;
    out.settle()
}

fn write_entries<K: Sink>(out: &mut BufferedSink<'_, K>, journal: &Journal) -> Result<(), WriteStop>
    ensures { Adds K.written K.faults out.old out.new
        (flat_map entry_line journal.now.items) result }
{
    for entry in journal.as_slice() {
        write_entry(out, entry)?;
    }
    Ok(())
}

fn write_outcomes<K: Sink>(
    out: &mut BufferedSink<'_, K>,
    transcript: &Transcript,
) -> Result<(), WriteStop>
    ensures { Adds K.written K.faults out.old out.new
        (flat_map numbered_line (enumerate_from 1 transcript.now)) result }
{
    for (i, outcome) in transcript.as_slice().iter().enumerate() {
        write_outcome(out, i as u32 + 1, *outcome)?;
    }
    Ok(())
}

fn write_head<K: Sink>(out: &mut BufferedSink<'_, K>, head: &Head) -> Result<(), WriteStop>
    ensures { Adds K.written K.faults out.old out.new
        (flat_map ended_line (head_lines head.now)) result }
{
    text::push_head(out.waiting, head)?;
    Ok(())
}

// Adds the title of the pool.
#[tactic(auto, unfolding(crate::specs::Report::title_of))]
fn push_title(waiting: &mut Vec<u8>, head: &Head, pool: &Pool<LoneBroker>) -> Result<(), AllocError>
    requires { pool.now.rules ≡ rules_of head.now 0 }
    ensures { OnOk result (waiting.new.items
        ≡ waiting.old.items ++ title_of head.now pool.now.journal.items) }
{
    let _ = head;
    text::push_pool_title(waiting, 0, pool.canary(), pool.journal().len())
}

fn write_title<K: Sink>(
    out: &mut BufferedSink<'_, K>,
    head: &Head,
    pool: &Pool<LoneBroker>,
) -> Result<(), WriteStop>
    requires { pool.now.rules ≡ rules_of head.now 0 }
    ensures { Adds K.written K.faults out.old out.new
        (title_of head.now pool.now.journal.items) result }
{
    push_title(out.waiting, head, pool)?;
    Ok(())
}

// Writes the head and the pool.
fn write_front<K: Sink>(
    out: &mut BufferedSink<'_, K>,
    head: &Head,
    pool: &Pool<LoneBroker>,
) -> Result<(), WriteStop>
    requires { pool.now.rules ≡ rules_of head.now 0 }
    ensures { Adds K.written K.faults out.old out.new
        (front_of head.now pool.now.journal.items) result }
{
    write_head(out, head)?;
    write_title(out, head, pool)?;
    write_entries(out, pool.journal())
}

// Adds the title of the board, on which nothing is, and of the script.
fn push_titles(waiting: &mut Vec<u8>, name: &[u8]) -> Result<(), AllocError>
    ensures { OnOk result (waiting.new.items ≡ waiting.old.items ++ titles_of name.now) }
{
    text::push_board_title(waiting, 0)?;
    text::push_script_title(waiting, 0, name)
}

fn write_titles<K: Sink>(out: &mut BufferedSink<'_, K>, name: &[u8]) -> Result<(), WriteStop>
    ensures { Adds K.written K.faults out.old out.new (titles_of name.now) result }
{
    push_titles(out.waiting, name)?;
    Ok(())
}

// Adds how the script ended, and the last line.
fn push_end(waiting: &mut Vec<u8>, transcript: &Transcript) -> Result<(), AllocError>
    ensures { OnOk result (waiting.new.items ≡ waiting.old.items ++ end_of transcript.now) }
{
    text::push_ending(waiting, text::first_fault(transcript))?;
    waiting.extend_from_slice(b"done\n")
}

fn write_end<K: Sink>(
    out: &mut BufferedSink<'_, K>,
    transcript: &Transcript,
) -> Result<(), WriteStop>
    ensures { Adds K.written K.faults out.old out.new (end_of transcript.now) result }
{
    push_end(out.waiting, transcript)?;
    Ok(())
}

// Writes the board and the script.
fn write_back<K: Sink>(
    out: &mut BufferedSink<'_, K>,
    name: &[u8],
    transcript: &Transcript,
) -> Result<(), WriteStop>
    ensures { Adds K.written K.faults out.old out.new (back_of name.now transcript.now) result }
{
    write_titles(out, name)?;
    write_outcomes(out, transcript)?;
    write_end(out, transcript)
}

// Every number that is told is one that its type holds.
fn numbers_fit(head: &Head, journal: &Journal, _name: &[u8], transcript: &Transcript)
    ensures { IsInRange (content head.now journal.now.items _name.now transcript.now) }
{
    head.fits();
    journal.fits();
    transcript.fits();
}

fn write_text<K: Sink>(
    out: &mut BufferedSink<'_, K>,
    head: &Head,
    pool: &Pool<LoneBroker>,
    name: &[u8],
    transcript: &Transcript,
) -> Result<(), WriteStop>
    requires { pool.now.rules ≡ rules_of head.now 0 }
    ensures { Adds K.written K.faults out.old out.new
        (text_of (content head.now pool.now.journal.items name.now transcript.now)) result }
{
    write_front(out, head, pool)?;
    write_back(out, name, transcript)
}

/// Writes the whole output of the one pool under a head and a script with this transcript.
pub(crate) fn write_output<K: Sink>(
    alloc: Global,
    sink: &mut K,
    head: &Head,
    pool: &Pool<LoneBroker>,
    name: &[u8],
    transcript: &Transcript,
) -> Result<(), WriteStop>
    requires { pool.now.rules ≡ rules_of head.now 0 }
    ensures written { Writes K.written K.faults sink.old sink.new
        (text_of (content head.now pool.now.journal.items name.now transcript.now)) result }
    ensures numbers { IsInRange
        (content head.now pool.now.journal.items name.now transcript.now) }
    ensures run { IsRun pool.now × IsAlone pool.now }
{
    numbers_fit(head, pool.journal(), name, transcript);
    let mut waiting = Vec::new(alloc);
    let mut out = BufferedSink::new(sink, &mut waiting);
    write_text(&mut out, head, pool, name, transcript)?;
    out.flush()
}

/// Writes the one line of a refusal.
pub(crate) fn write_line<K: Sink>(
    alloc: Global,
    sink: &mut K,
    refusal: Refusal,
) -> Result<(), WriteStop>
    ensures { Writes K.written K.faults sink.old sink.new (refusal_line refusal) result }
{
    let mut line = Vec::new(alloc);
    push_refusal_line(&mut line, refusal)?;
    write_all(sink, line.as_slice())
}
