//! What the reading of lines and of arguments shares: cuts at a byte, and digits.

ghost use Rattle.std.specs.Prelude.{◌≡◌, ◌^◌, ◌<◌, ◌≤◌, ◌==◌, [], ◌∷◌, length, min, IfSome, MatchOption, IsTrue};
ghost use Rattle.std.specs.List.{list_all, position, slice_split};
ghost use Rattle.omalloc.specs.AcceptedInput.{number_of, number_to};
ghost use Rattle.om_model.specs.Scripts.Names.{is_digit};

/// The place of the first such byte.
pub(crate) fn first_place(text: &[u8], byte: u8) -> Option<usize>
    ensures { result ≡ position (λ b. b == byte) text.now }
{
    text.iter().position(|b| *b == byte)
}

/// What stands before the first such byte, and what stands after it.
pub(crate) fn cut_at(text: &[u8], byte: u8) -> (&[u8], Option<&[u8]>)
    ensures parts { let parts = slice_split (λ b. b == byte) in
        MatchOption result.1 (parts text.now ≡ result.0.now ∷ [])
        (λ rest. parts text.now ≡ result.0.now ∷ parts rest.now) }
    ensures shorter { IfSome result.1 (λ rest. length rest.now < length text.now) }
{
    match first_place(text, byte) {
        None => (text, None),
        Some(i) => (&text[..i], Some(&text[i + 1..])),
    }
}

pub(crate) fn is_digit(b: u8) -> bool
    ensures { result ≡ is_digit b }
{
    b.is_ascii_digit()
}

fn are_digits(word: &[u8]) -> bool
    ensures { result ≡ list_all is_digit word.now }
{
    word.iter().all(|b| is_digit(*b))
}

// The number that the digits stand for, and the cap for each greater one.
fn capped_number(digits: &[u8], cap: u128) -> u128
    requires digits { IsTrue (list_all is_digit digits.now) }
    requires cap { cap ≤ 2 ^ 64 }
    ensures { result ≡ min (number_of digits.now) cap }
{
    let mut number = 0;
    for b in digits {
        number = (10 * number + (*b as u128 - 48)).min(cap);
    }
    number
}

/// The number up to the greatest that one or more digits stand for.
pub(crate) fn number_to(greatest: u64, text: &[u8]) -> Option<u64>
    ensures number { result ≡ number_to greatest text.now }
    ensures bound { IfSome result (λ number. number ≤ greatest) }
{
    if text.is_empty() || !are_digits(text) {
        return None;
    }
    let greatest = u128::from(greatest);
    let number = capped_number(text, greatest + 1);
    if number <= greatest {
        Some(number as u64)
    } else {
        None
    }
}
