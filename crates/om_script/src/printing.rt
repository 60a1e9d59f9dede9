//! The canonical text of scripts.

ghost use Rattle.std.specs.Prelude.{◌≡◌, ◌++◌, ◌∷◌, [], ◌<◌, false, Ok, map, length, decimal, IfOk, OnOk};
ghost use Rattle.std.specs.List.{AllByRecursion, join_with_byte};
ghost use Rattle.std.specs.Fmt.{digits, digit_glyph};
ghost use Rattle.om_script.specs.Accepted.{name_at, IsCommand, IsScript};
ghost use Rattle.om_script.specs.Canonical.{hex, site_word, words_for, script_text, canonical};
ghost use Rattle.om_script.specs.Parts.{part_word, IsPart};
ghost use Rattle.om_script.specs.Scripts.{scripts_in};

use crate::command::Command;
use crate::script::{Script, Scripts};
use itoa::Buffer;
use std::alloc::{AllocError, Global};

/// A word behind the first of a printed command.
#[derive(Clone, Copy, Debug, PartialEq, Eq)]
pub enum Part {
    /// The name of the variable in this place.
    Name(u32),
    Decimal(u64),
    Hex(u64),
    Site(u64),
}

// The last digit comes behind those of the number without it.
fn push_hex_digits(out: &mut Vec<u8>, number: u64) -> Result<(), AllocError>
    ensures { OnOk result (out.new.items ≡ out.old.items ++ digits 16 false number) }
{
    if number >= 16 {
        push_hex_digits(out, number / 16)?;
    }
    out.push(hex_digit((number % 16) as u8))?;
    Ok(())
}

fn hex_digit(value: u8) -> u8
    requires { value < 16 }
    ensures { result ≡ digit_glyph false value }
{
    if value < 10 {
        b'0' + value
    } else {
        b'a' + (value - 10)
    }
}

// Adds a number in hexadecimal.
fn push_hex(out: &mut Vec<u8>, number: u64) -> Result<(), AllocError>
    ensures { OnOk result (out.new.items ≡ out.old.items ++ hex number) }
{
    out.extend_from_slice(b"0x")?;
    push_hex_digits(out, number)
}

// Adds a number in decimal.
fn push_decimal(out: &mut Vec<u8>, number: u64) -> Result<(), AllocError>
    ensures { OnOk result (out.new.items ≡ out.old.items ++ decimal number) }
{
    let mut digits = Buffer::new();
    out.extend_from_slice(digits.format(number).as_bytes())
}

// Adds a site.
fn push_site(out: &mut Vec<u8>, site: u64) -> Result<(), AllocError>
    ensures { OnOk result (out.new.items ≡ out.old.items ++ site_word site) }
{
    out.push(b'@')?;
    push_hex(out, site)
}

// Adds the name of a variable.
fn push_name(out: &mut Vec<u8>, script: &Script, var: u32) -> Result<(), AllocError>
    requires { var < length script.now.names }
    ensures { OnOk result (out.new.items ≡ out.old.items ++ name_at script.now.names var) }
{
    out.extend_from_slice(script.name_of(var).as_bytes())
}

// Adds a word.
fn push_part(out: &mut Vec<u8>, script: &Script, part: Part) -> Result<(), AllocError>
    requires { IsPart (length script.now.names) part }
    ensures { OnOk result (out.new.items ≡ out.old.items ++ part_word script.now.names part) }
{
    match part {
        Part::Name(var) => push_name(out, script, var),
        Part::Decimal(number) => push_decimal(out, number),
        Part::Hex(number) => push_hex(out, number),
        Part::Site(site) => push_site(out, site),
    }
}

// Adds a keyword and the words behind it, one space between two.
fn push_words(
    out: &mut Vec<u8>,
    script: &Script,
    keyword: &[u8],
    parts: &[Part],
) -> Result<(), AllocError>
    requires { AllByRecursion (IsPart (length script.now.names)) parts.now }
    ensures { OnOk result (out.new.items ≡ out.old.items
        ++ join_with_byte 32 (keyword.now ∷ map (part_word script.now.names) parts.now)) }
{
    out.extend_from_slice(keyword)?;
    for part in parts {
        out.push(b' ')?;
        push_part(out, script, *part)?;
    }
    Ok(())
}

// Adds the words of a command.
fn push_command(out: &mut Vec<u8>, script: &Script, command: Command) -> Result<(), AllocError>
    requires { IsCommand (length script.now.names) command }
    ensures { OnOk result (out.new.items ≡ out.old.items
        ++ join_with_byte 32 (words_for script.now.names command)) }
{
    match command {
        Command::Malloc { var, size, site } => {
            let parts = [Part::Name(var), Part::Decimal(size), Part::Site(site)];
            push_words(out, script, b"malloc", &parts)
        }
        Command::Calloc {
            var,
            count,
            size,
            site,
        } => {
            let parts = [
                Part::Name(var),
                Part::Decimal(count),
                Part::Decimal(size),
                Part::Site(site),
            ];
            push_words(out, script, b"calloc", &parts)
        }
        Command::Realloc {
            var,
            from,
            size,
            site,
        } => {
            let parts = [
                Part::Name(var),
                Part::Name(from),
                Part::Decimal(size),
                Part::Site(site),
            ];
            push_words(out, script, b"realloc", &parts)
        }
        Command::Reallocarray {
            var,
            from,
            count,
            size,
            site,
        } => {
            let parts = [
                Part::Name(var),
                Part::Name(from),
                Part::Decimal(count),
                Part::Decimal(size),
                Part::Site(site),
            ];
            push_words(out, script, b"reallocarray", &parts)
        }
        Command::Free { var } => {
            let parts = [Part::Name(var)];
            push_words(out, script, b"free", &parts)
        }
        Command::Load { var, off } => {
            let parts = [Part::Name(var), Part::Decimal(off)];
            push_words(out, script, b"load", &parts)
        }
        Command::Store { var, off, byte } => {
            let parts = [
                Part::Name(var),
                Part::Decimal(off),
                Part::Decimal(u64::from(byte)),
            ];
            push_words(out, script, b"store", &parts)
        }
        Command::Let { var, value } => {
            let parts = [Part::Name(var), Part::Hex(value)];
            push_words(out, script, b"let", &parts)
        }
        Command::Add { var, from, off } => {
            let parts = [Part::Name(var), Part::Name(from), Part::Decimal(off)];
            push_words(out, script, b"add", &parts)
        }
        Command::Post { cell, var } => {
            let parts = [Part::Decimal(u64::from(cell)), Part::Name(var)];
            push_words(out, script, b"post", &parts)
        }
        Command::Take { var, cell } => {
            let parts = [Part::Name(var), Part::Decimal(u64::from(cell))];
            push_words(out, script, b"take", &parts)
        }
        Command::Phase => push_words(out, script, b"phase", &[]),
    }
}

// Adds the lines of a script.
fn push_script(out: &mut Vec<u8>, script: &Script) -> Result<(), AllocError>
    requires { IsScript script.now }
    ensures { OnOk result (out.new.items ≡ out.old.items ++ script_text script.now) }
{
    out.extend_from_slice(b"script ")?;
    out.extend_from_slice(script.name().as_bytes())?;
    out.push(b'\n')?;
    for command in script.commands() {
        push_command(out, script, *command)?;
        out.push(b'\n')?;
    }
    out.extend_from_slice(b"end\n")?;
    Ok(())
}

/// The canonical text of the scripts. What it says is read as these scripts.
pub fn print(alloc: Global, scripts: &Scripts) -> Result<Vec<u8>, AllocError>
    ensures text { IfOk result (λ text. text.items ≡ canonical scripts.now) }
    ensures again { IfOk result (λ text. scripts_in text.items ≡ Ok scripts.now) }
{
    let mut out = Vec::new(alloc);
    for script in scripts.scripts() {
        push_script(&mut out, script)?;
    }
    Ok(out)
}
