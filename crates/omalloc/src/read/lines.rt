//! Lines and their fields: slices of the text, cut and judged one by one.

ghost use Rattle.std.specs.Prelude.{◌≡◌, ◌<◌, ◌≤◌, [], ◌∷◌, length, IfSome, MatchOption};
ghost use Rattle.std.specs.List.{list_all};
ghost use Rattle.std.specs.Option.{option_map, option_copied};
ghost use Rattle.omalloc.specs.AcceptedInput.{text_lines, fields_of, fields_behind, only_number, two_numbers, asked_of, title_of, has_two_names, line_with, line_from, line_of};
ghost use Rattle.om_model.specs.Scripts.Names.{is_letter, is_name_byte, is_name};

use crate::bytes::{cut_at, first_place, is_digit, number_to};
use crate::script::Request;

/// The first line and the text after it; none where nothing is left.
#[tactic(auto, using(crate::proofs::Cuts::line_found, crate::proofs::Cuts::line_whole))]
pub fn next_line(text: &[u8]) -> Option<(&[u8], &[u8])>
    ensures lines { MatchOption result (text_lines text.now ≡ [])
        (λ cut. text_lines text.now ≡ cut.0.now ∷ text_lines cut.1.now) }
    ensures shorter { IfSome result (λ cut. length cut.1.now < length text.now) }
{
    if text.is_empty() {
        return None;
    }
    match first_place(text, b'\n') {
        None => Some((text, b"".as_slice())),
        Some(i) => Some((&text[..i], &text[i + 1..])),
    }
}

/// The first field, and what follows the space after it.
fn cut_field(line: &[u8]) -> (&[u8], Option<&[u8]>)
    ensures { MatchOption result.1 (fields_of line.now ≡ result.0.now ∷ [])
        (λ rest. fields_of line.now ≡ result.0.now ∷ fields_of rest.now) }
{
    cut_at(line, b' ')
}

fn is_letter(b: u8) -> bool
    ensures { result ≡ is_letter b }
{
    b.is_ascii_lowercase()
}

fn is_name_byte(b: u8) -> bool
    ensures { result ≡ is_name_byte b }
{
    is_letter(b) || is_digit(b) || b == b'_'
}

fn are_name_bytes(field: &[u8]) -> bool
    ensures { result ≡ list_all is_name_byte field.now }
{
    field.iter().all(|b| is_name_byte(*b))
}

fn is_name(field: &[u8]) -> bool
    ensures { result ≡ is_name field.now }
{
    match field.first() {
        None => false,
        Some(first) => { is_letter(*first) && field.len() <= 16 && are_name_bytes(field) }
    }
}

/// The script's name, where the line is `script NAME`.
#[tactic(auto, using(crate::proofs::Cuts::title_long))]
pub fn title_of(line: &[u8]) -> Option<&[u8]>
    ensures { option_copied result ≡ title_of (fields_of line.now) }
{
    let (keyword, rest) = cut_field(line);
    let (name, more) = cut_field(rest?);
    match more {
        None => named(keyword, name),
        Some(_) => None,
    }
}

fn named<'a>(keyword: &[u8], name: &'a [u8]) -> Option<&'a [u8]>
    ensures { option_copied result ≡ title_of (keyword.now ∷ name.now ∷ []) }
{
    if keyword == b"script".as_slice() && is_name(name) {
        Some(name)
    } else {
        None
    }
}

// The number up to the greatest that is the only field.
#[tactic(auto, using(crate::proofs::Cuts::number_long))]
fn only_number(greatest: u64, fields: &[u8]) -> Option<u64>
    ensures number { result ≡ only_number greatest (fields_of fields.now) }
    ensures bound { IfSome result (λ number. number ≤ greatest) }
{
    let (field, more) = cut_field(fields);
    match more {
        None => number_to(greatest, field),
        Some(_) => None,
    }
}

// The numbers up to these two that are the only fields.
fn two_numbers(greatest: u64, last: u64, fields: &[u8]) -> Option<(u64, u64)>
    ensures numbers { result ≡ two_numbers greatest last (fields_of fields.now) }
    ensures bound { IfSome result (λ numbers. numbers.1 ≤ last) }
{
    let (field, more) = cut_field(fields);
    let first = number_to(greatest, field)?;
    let second = only_number(last, more?)?;
    Some((first, second))
}

// What a keyword asks with nothing behind the names.
fn asked_alone(keyword: &[u8]) -> Option<Request>
    ensures { result ≡ asked_of keyword.now [] }
{
    if keyword == b"free".as_slice() {
        Some(Request::Free)
    } else {
        None
    }
}

// What a keyword asks with these fields behind the names.
#[tactic(auto, using(crate::proofs::Cuts::free_long))]
fn asked_with(keyword: &[u8], fields: &[u8]) -> Option<Request>
    ensures { result ≡ asked_of keyword.now (fields_of fields.now) }
{
    if keyword == b"malloc".as_slice() {
        Some(Request::Malloc(only_number(u64::MAX, fields)?))
    } else if keyword == b"calloc".as_slice() {
        let (count, size) = two_numbers(u64::MAX, u64::MAX, fields)?;
        Some(Request::Calloc(count, size))
    } else if keyword == b"realloc".as_slice() {
        Some(Request::Realloc(only_number(u64::MAX, fields)?))
    } else if keyword == b"reallocarray".as_slice() {
        let (count, size) = two_numbers(u64::MAX, u64::MAX, fields)?;
        Some(Request::Reallocarray(count, size))
    } else if keyword == b"load".as_slice() {
        Some(Request::Load(only_number(u64::MAX, fields)?))
    } else if keyword == b"store".as_slice() {
        let (off, byte) = two_numbers(u64::MAX, u64::from(u8::MAX), fields)?;
        Some(Request::Store(off, byte as u8))
    } else {
        None
    }
}

/// A line of a script between the first and the last.
pub struct Line<'a> {
    /// The variable that it is for.
    pub name: &'a [u8],
    /// The variable whose block it resizes.
    pub from: Option<&'a [u8]>,
    pub request: Request,
}

// Behind the keyword stand two names.
fn has_two_names(keyword: &[u8]) -> bool
    ensures { result ≡ has_two_names keyword.now }
{
    keyword == b"realloc".as_slice() || keyword == b"reallocarray".as_slice()
}

// The line with these names, by what stands behind them.
fn line_with<'a>(
    keyword: &[u8],
    name: &'a [u8],
    from: Option<&'a [u8]>,
    fields: Option<&[u8]>,
) -> Option<Line<'a>>
    ensures { option_map (λ line. record {
      name = line.name.now;
      from = option_copied line.from;
      request = line.request;
    }) result
        ≡ line_with keyword.now name.now (option_copied from.entry)
        (fields_behind (option_copied fields.entry)) }
{
    let request = match fields {
        None => asked_alone(keyword)?,
        Some(fields) => asked_with(keyword, fields)?,
    };
    Some(Line {
        name,
        from,
        request,
    })
}

// The line whose second name is the first of these fields.
fn line_from<'a>(keyword: &[u8], name: &'a [u8], fields: &'a [u8]) -> Option<Line<'a>>
    ensures { option_map (λ line. record {
      name = line.name.now;
      from = option_copied line.from;
      request = line.request;
    }) result
        ≡ line_from keyword.now name.now (fields_of fields.now) }
{
    let (from, more) = cut_field(fields);
    if !is_name(from) {
        return None;
    }
    line_with(keyword, name, Some(from), more)
}

/// What a line says, where it is a command's.
pub fn line_of(line: &[u8]) -> Option<Line<'_>>
    ensures { option_map (λ line. record {
      name = line.name.now;
      from = option_copied line.from;
      request = line.request;
    }) result
        ≡ line_of (fields_of line.now) }
{
    let (keyword, rest) = cut_field(line);
    let (name, more) = cut_field(rest?);
    if !is_name(name) {
        return None;
    }
    if has_two_names(keyword) {
        line_from(keyword, name, more?)
    } else {
        line_with(keyword, name, None, more)
    }
}
