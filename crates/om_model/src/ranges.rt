//! Laws of the types: a number is one that its type holds. A call brings the law into a proof, and
//! computes nothing.
ghost use Rattle.std.specs.Prelude.{IfSome};
ghost use Rattle.std.specs.List.{AllByRecursion};
ghost use Rattle.om_words.specs.declared.plan.WordPlan.TheVariants.{Seeded};
ghost use Rattle.om_model.specs.declared.entry.Entry.TheVariants.{Phase};
ghost use Rattle.om_model.specs.Output.Ranges.{FitsOptions, FitsPlan};
ghost use Rattle.om_model.specs.Data.Ranges.{IsByte, IsU32, FitsWho, FitsOp, FitsReply, FitsLook, FitsMove, FitsOutcome};
ghost use Rattle.om_model.specs.Data.Ranges.{FitsCall, FitsEntry};

use crate::entry::{CallEntry, Entry, Move};
use crate::looks::Look;
use crate::operation::{Op, Who};
use crate::reply::{Outcome, Reply};
use om_opts::Opts;
use om_words::WordPlan;

pub(crate) fn look_fits(_look: Look)
    ensures { FitsLook _look }
{}

pub(crate) fn outcome_fits(_outcome: Outcome)
    ensures { FitsOutcome _outcome }
{}

pub(crate) fn entry_fits(entry: &Entry)
    ensures { FitsEntry entry.now }
{
    match entry {
        Entry::Call(call) => call_fits(call),
        Entry::Phase(number) => phase_fits(*number),
    }
}

fn phase_fits(_number: u32)
    ensures { FitsEntry (Phase _number) }
{}

fn call_fits(call: &CallEntry)
    ensures { FitsCall call.now }
{
    call.words.fits();
    call.looks.fits();
    asked_fits(call.who, call.op, call.reply);
    answered_fits(call.taken, call.claim, call.release);
}

fn asked_fits(_who: Who, _op: Op, _reply: Reply)
    ensures who { FitsWho _who }
    ensures op { FitsOp _op }
    ensures reply { FitsReply _reply }
{}

fn answered_fits(_taken: Option<Look>, _claim: Option<Move>, _release: Option<Move>)
    ensures taken { IfSome _taken FitsLook }
    ensures claim { IfSome _claim FitsMove }
    ensures release { IfSome _release FitsMove }
{}

pub(crate) fn words_fit(words: &[u32])
    ensures { AllByRecursion IsU32 words.now }
{
    let _count = words.len();
}

pub(crate) fn options_fit(_opts: Opts, _zones: u32)
    ensures options { FitsOptions _opts }
    ensures zones { IsU32 _zones }
{}

pub(crate) fn plan_fits(plan: &WordPlan)
    ensures { FitsPlan plan.now }
{
    match plan {
        WordPlan::Listed(list) => list.fits(),
        WordPlan::Seeded(seed) => seed_fits(*seed),
    }
}

fn seed_fits(_seed: u64)
    ensures { FitsPlan (Seeded _seed) }
{}

pub(crate) fn bytes_fit(bytes: &[u8])
    ensures { AllByRecursion IsByte bytes.now }
{
    let _count = bytes.len();
}
