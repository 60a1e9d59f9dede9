//! What is refused, and how it is told.
ghost use Rattle.std.specs.Prelude.{◌≡◌, ◌++◌, OnOk};
ghost use Rattle.omalloc.specs.Refusal.{argument_number, argument_name, line_number, line_name, refusal_text, refusal_line};

use om_model::text::push_decimal;
use std::alloc::AllocError;

/// Why an argument is refused.
#[derive(Clone, Copy, Debug, PartialEq, Eq)]
pub enum ArgumentRefusal {
    /// The arguments ask for what isn't built, or are of no accepted form.
    NotBuilt,
}

impl ArgumentRefusal {
    fn number(self) -> u32
        ensures { result ≡ argument_number self }
    {
        match self {
            ArgumentRefusal::NotBuilt => 9,
        }
    }

    fn name(self) -> &'static [u8]
        ensures { result.now ≡ argument_name self }
    {
        match self {
            ArgumentRefusal::NotBuilt => b"NotBuilt".as_slice(),
        }
    }
}

/// Why a line is refused.
#[derive(Clone, Copy, Debug, PartialEq, Eq)]
pub enum LineRefusal {
    /// The line is of no accepted form, or too many commands or names are before it.
    NotBuilt,
}

impl LineRefusal {
    fn number(self) -> u32
        ensures { result ≡ line_number self }
    {
        match self {
            LineRefusal::NotBuilt => 11,
        }
    }

    fn name(self) -> &'static [u8]
        ensures { result.now ≡ line_name self }
    {
        match self {
            LineRefusal::NotBuilt => b"NotBuilt".as_slice(),
        }
    }
}

/// What is refused.
#[derive(Clone, Copy, Debug, PartialEq, Eq)]
pub enum Refusal {
    /// An argument: why, and its place.
    Argument { why: ArgumentRefusal, at: u32 },
    /// A line of the text, the first that is refused, from 1 on.
    Line { at: u32, why: LineRefusal },
    /// The input has more than `om_io::INPUT_LIMIT` bytes.
    TooLong,
}

fn push_argument(out: &mut Vec<u8>, why: ArgumentRefusal, at: u32) -> Result<(), AllocError>
    ensures { OnOk result (out.new.items
        ≡ out.old.items ++ refusal_text (Refusal.Argument why at)) }
{
    out.extend_from_slice(b"refused words ")?;
    push_decimal(out, u64::from(why.number()))?;
    out.extend_from_slice(b" ")?;
    out.extend_from_slice(why.name())?;
    out.extend_from_slice(b" at ")?;
    push_decimal(out, u64::from(at))
}

fn push_line(out: &mut Vec<u8>, at: u32, why: LineRefusal) -> Result<(), AllocError>
    ensures { OnOk result (out.new.items ≡ out.old.items ++ refusal_text (Refusal.Line at why)) }
{
    out.extend_from_slice(b"refused line ")?;
    push_decimal(out, u64::from(at))?;
    out.extend_from_slice(b" ")?;
    push_decimal(out, u64::from(why.number()))?;
    out.extend_from_slice(b" ")?;
    out.extend_from_slice(why.name())?;
    Ok(())
}

fn push_refusal(out: &mut Vec<u8>, refusal: Refusal) -> Result<(), AllocError>
    ensures { OnOk result (out.new.items ≡ out.old.items ++ refusal_text refusal) }
{
    match refusal {
        Refusal::Argument { why, at } => push_argument(out, why, at),
        Refusal::Line { at, why } => push_line(out, at, why),
        Refusal::TooLong => out.extend_from_slice(b"refused toolong"),
    }
}

/// Adds the line of a refusal.
pub(crate) fn push_refusal_line(out: &mut Vec<u8>, refusal: Refusal) -> Result<(), AllocError>
    ensures { OnOk result (out.new.items ≡ out.old.items ++ refusal_line refusal) }
{
    push_refusal(out, refusal)?;
    out.push(b'\n')?;
    Ok(())
}
