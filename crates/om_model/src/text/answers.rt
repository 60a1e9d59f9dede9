ghost use Rattle.std.specs.Prelude.{◌≡◌, ◌++◌, codes, OnOk};
ghost use Rattle.om_model.specs.Output.Text.{hex, byte_text, why_text, segv_text, fault_text, op_text, reply_text, outcome_text};

use super::numbers::{push_byte, push_decimal, push_hex, push_site};
use crate::operation::Op;
use crate::reply::{Fault, Outcome, Reply, Segv, Why};
use std::alloc::AllocError;

fn push_why(out: &mut Vec<u8>, why: Why) -> Result<(), AllocError>
    ensures { OnOk result (out.new.items ≡ out.old.items ++ why_text why) }
{
    match why {
        Why::Overflow => out.extend_from_slice(b"overflow"),
        Why::TooLarge => out.extend_from_slice(b"toolarge"),
        Why::NoRun => out.extend_from_slice(b"norun"),
    }
}

fn push_segv(out: &mut Vec<u8>, segv: Segv) -> Result<(), AllocError>
    ensures { OnOk result (out.new.items ≡ out.old.items ++ segv_text segv) }
{
    match segv {
        Segv::Guard => out.extend_from_slice(b"guard"),
        Segv::Protected => out.extend_from_slice(b"protected"),
        Segv::Unmapped => out.extend_from_slice(b"unmapped"),
    }
}

/// Adds the text of a fault, as `fault double free`.
#[tactic(auto, unfolding(crate::specs::Output::Text::fault_text))]
pub fn push_fault(out: &mut Vec<u8>, fault: Fault) -> Result<(), AllocError>
    ensures { OnOk result (out.new.items ≡ out.old.items ++ fault_text fault) }
{
    match fault {
        Fault::DoubleFree => out.extend_from_slice(b"fault double free"),
        Fault::AlreadyFree => out.extend_from_slice(b"fault chunk is already free"),
        Fault::Bogus => out.extend_from_slice(b"fault bogus pointer (double free?)"),
        Fault::ModifiedPointer => out.extend_from_slice(b"fault modified chunk-pointer"),
        Fault::Canary { offset } => {
            out.extend_from_slice(b"fault canary corrupted ")?;
            push_decimal(out, offset)
        }
        Fault::WriteAfterFree { addr, offset } => {
            out.extend_from_slice(b"fault write after free ")?;
            push_hex(out, addr)?;
            out.extend_from_slice(b" ")?;
            push_decimal(out, offset)
        }
        Fault::OutOfMemory(why) => {
            out.extend_from_slice(b"fault out of memory ")?;
            push_why(out, why)
        }
        Fault::Segmentation(segv) => {
            out.extend_from_slice(b"fault segmentation fault ")?;
            push_segv(out, segv)
        }
    }
}

/// Adds what a pool was asked, as `malloc 100 @0x0`.
#[tactic(auto, unfolding(crate::specs::Output::Text::op_text))]
pub fn push_op(out: &mut Vec<u8>, op: Op) -> Result<(), AllocError>
    ensures { OnOk result (out.new.items ≡ out.old.items ++ op_text op) }
{
    match op {
        Op::Malloc { size, site } => {
            out.extend_from_slice(b"malloc ")?;
            push_decimal(out, size)?;
            push_site(out, site)
        }
        Op::Calloc { count, size, site } => {
            out.extend_from_slice(b"calloc ")?;
            push_decimal(out, count)?;
            out.extend_from_slice(b" ")?;
            push_decimal(out, size)?;
            push_site(out, site)
        }
        Op::Realloc { addr, size, site } => {
            out.extend_from_slice(b"realloc ")?;
            push_hex(out, addr)?;
            out.extend_from_slice(b" ")?;
            push_decimal(out, size)?;
            push_site(out, site)
        }
        Op::Reallocarray {
            addr,
            count,
            size,
            site,
        } => {
            out.extend_from_slice(b"reallocarray ")?;
            push_hex(out, addr)?;
            out.extend_from_slice(b" ")?;
            push_decimal(out, count)?;
            out.extend_from_slice(b" ")?;
            push_decimal(out, size)?;
            push_site(out, site)
        }
        Op::Free { addr } => {
            out.extend_from_slice(b"free ")?;
            push_hex(out, addr)
        }
        Op::Load { addr } => {
            out.extend_from_slice(b"load ")?;
            push_hex(out, addr)
        }
        Op::Store { addr, byte } => {
            out.extend_from_slice(b"store ")?;
            push_hex(out, addr)?;
            out.extend_from_slice(b" ")?;
            push_byte(out, byte)
        }
    }
}

fn push_block(out: &mut Vec<u8>, address: u64) -> Result<(), AllocError>
    ensures { OnOk result (out.new.items ≡ out.old.items ++ codes "block " ++ hex address) }
{
    out.extend_from_slice(b"block ")?;
    push_hex(out, address)
}

fn push_null(out: &mut Vec<u8>, why: Why) -> Result<(), AllocError>
    ensures { OnOk result (out.new.items ≡ out.old.items ++ codes "null " ++ why_text why) }
{
    out.extend_from_slice(b"null ")?;
    push_why(out, why)
}

fn push_loaded(out: &mut Vec<u8>, byte: u8) -> Result<(), AllocError>
    ensures { OnOk result (out.new.items ≡ out.old.items ++ codes "byte " ++ byte_text byte) }
{
    out.extend_from_slice(b"byte ")?;
    push_byte(out, byte)
}

/// Adds what a pool answered, as `block 0x10000`.
#[tactic(auto, unfolding(crate::specs::Output::Text::reply_text))]
pub fn push_reply(out: &mut Vec<u8>, reply: Reply) -> Result<(), AllocError>
    ensures { OnOk result (out.new.items ≡ out.old.items ++ reply_text reply) }
{
    match reply {
        Reply::Block(address) => push_block(out, address),
        Reply::Null(why) => push_null(out, why),
        Reply::Done => out.extend_from_slice(b"done"),
        Reply::Byte(byte) => push_loaded(out, byte),
        Reply::Miss => out.extend_from_slice(b"miss"),
        Reply::Fault(fault) => push_fault(out, fault),
    }
}

/// Adds what became of a command.
#[tactic(auto, unfolding(crate::specs::Output::Text::outcome_text))]
pub fn push_outcome(out: &mut Vec<u8>, outcome: Outcome) -> Result<(), AllocError>
    ensures { OnOk result (out.new.items ≡ out.old.items ++ outcome_text outcome) }
{
    match outcome {
        Outcome::Block(address) => push_block(out, address),
        Outcome::Null(why) => push_null(out, why),
        Outcome::Done => out.extend_from_slice(b"done"),
        Outcome::Byte(byte) => push_loaded(out, byte),
        Outcome::Value(value) => {
            out.extend_from_slice(b"value ")?;
            push_hex(out, value)
        }
        Outcome::Empty => out.extend_from_slice(b"empty"),
        Outcome::Phase => out.extend_from_slice(b"phase"),
        Outcome::Fault(fault) => push_fault(out, fault),
    }
}
