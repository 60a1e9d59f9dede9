//! Lines and words: slices of the text, cut one by one.

ghost use Rattle.std.specs.Prelude.{◌≡◌, ◌<◌, ◌≤◌, ◌==◌, [], ◌∷◌, length, false, IfSome, MatchOption, slice_get};
ghost use Rattle.std.specs.List.{position};
ghost use Rattle.std.specs.Option.{option_copied};
ghost use Rattle.om_script.specs.Lines.{text_lines, is_blank, is_allowed, is_ascii_line, without_comment, words_in};
ghost use Rattle.om_script.specs.Keywords.{fit, any_word, is_too_large, is_no_cell, word_at};

use crate::keyword::Kind;

fn first_place(text: &[u8], byte: u8) -> Option<usize>
    ensures { result ≡ position (λ b. b == byte) text.now }
{
    text.iter().position(|b| *b == byte)
}

/// The first line and the text after it; none where nothing is left.
#[tactic(auto, using(crate::proofs::Cuts::line_found, crate::proofs::Cuts::line_whole))]
pub fn next_line(text: &[u8]) -> Option<(&[u8], &[u8])>
    ensures lines { MatchOption result (text_lines text.now ≡ [])
        (λ cut. text_lines text.now ≡ cut.0.now ∷ text_lines cut.1.now) }
    ensures shorter { IfSome result (λ cut. length cut.1.now < length text.now) }
{
    if text.is_empty() {
        return None;
    }
    match first_place(text, b'\n') {
        None => Some((text, b"".as_slice())),
        Some(i) => Some((&text[..i], &text[i + 1..])),
    }
}

fn is_blank(b: u8) -> bool
    ensures { result ≡ is_blank b }
{
    b == b'\t' || b == b'\r' || b == b' '
}

fn is_allowed(b: u8) -> bool
    ensures { result ≡ is_allowed b }
{
    b == b'\t' || b == b'\r' || (32 <= b && b <= 126)
}

/// The line has no byte but blanks and printed ones.
pub fn is_ascii_line(line: &[u8]) -> bool
    ensures { result ≡ is_ascii_line line.now }
{
    line.iter().all(|b| is_allowed(*b))
}

/// The line up to its comment.
pub fn without_comment(line: &[u8]) -> &[u8]
    ensures { result.now ≡ without_comment line.now }
{
    match first_place(line, b'#') {
        None => line,
        Some(i) => &line[..i],
    }
}

// What follows the blanks at the front.
fn behind_blanks(text: &[u8]) -> &[u8]
    ensures words { words_in result.now ≡ words_in text.now }
    ensures front { IfSome (slice_get result.now 0) (λ b. is_blank b ≡ false) }
    ensures shorter { length result.now ≤ length text.now }
{
    let mut rest = text;
    while let [first, more @ ..] = rest {
        if !is_blank(*first) {
            return rest;
        }
        rest = more;
    }
    rest
}

fn first_blank(text: &[u8]) -> Option<usize>
    ensures { result ≡ position is_blank text.now }
{
    text.iter().position(|b| is_blank(*b))
}

/// The first word and the text after it; none where no word is left.
pub fn next_word(text: &[u8]) -> Option<(&[u8], &[u8])>
    ensures words { MatchOption result (words_in text.now ≡ [])
        (λ cut. words_in text.now ≡ cut.0.now ∷ words_in cut.1.now) }
    ensures shorter { IfSome result (λ cut. length cut.1.now < length text.now) }
{
    let text = behind_blanks(text);
    if text.is_empty() {
        return None;
    }
    match first_blank(text) {
        None => Some((text, b"".as_slice())),
        Some(i) => Some((&text[..i], &text[i..])),
    }
}

/// Each word is of the kind in its place, and none is missing or left over.
pub fn fit(kinds: &[Kind], words: &[u8]) -> bool
    ensures { result ≡ fit kinds.now (words_in words.now) }
{
    let mut rest = words;
    for kind in kinds {
        match next_word(rest) {
            None => {
                if !kind.may_miss() {
                    return false;
                }
            }
            Some((word, more)) => {
                if !kind.is_of(word) {
                    return false;
                }
                rest = more;
            }
        }
    }
    next_word(rest).is_none()
}

/// Some word is a number that is too large for its kind.
#[tactic(auto, using(crate::proofs::WordSteps::none_passes_of))]
pub fn has_too_large(kinds: &[Kind], words: &[u8]) -> bool
    ensures { result ≡ any_word is_too_large kinds.now (words_in words.now) }
{
    let mut rest = words;
    for kind in kinds {
        let Some((word, more)) = next_word(rest) else {
            return false;
        };
        if kind.is_too_large(word) {
            return true;
        }
        rest = more;
    }
    false
}

/// Some word is a cell of which there is none.
#[tactic(auto, using(crate::proofs::WordSteps::none_passes_of))]
pub fn has_no_cell(kinds: &[Kind], words: &[u8]) -> bool
    ensures { result ≡ any_word is_no_cell kinds.now (words_in words.now) }
{
    let mut rest = words;
    for kind in kinds {
        let Some((word, more)) = next_word(rest) else {
            return false;
        };
        if kind.is_no_cell(word) {
            return true;
        }
        rest = more;
    }
    false
}

/// The word with this number, from 0 on, where there is one.
#[tactic(auto, using(crate::proofs::WordSteps::get_behind, crate::proofs::WordSteps::get_none))]
pub fn find_word(words: &[u8], number: usize) -> Option<&[u8]>
    ensures { option_copied result ≡ slice_get (words_in words.now) number }
{
    match next_word(words) {
        None => None,
        Some((word, more)) => {
            if number == 0 {
                Some(word)
            } else {
                find_word(more, number - 1)
            }
        }
    }
}

/// The same, and no byte where there is none.
#[tactic(auto, using(crate::proofs::WordSteps::word_some, crate::proofs::WordSteps::word_none))]
pub fn word_at(words: &[u8], number: usize) -> &[u8]
    ensures { result.now ≡ word_at (words_in words.now) number }
{
    match find_word(words, number) {
        None => b"".as_slice(),
        Some(word) => word,
    }
}
