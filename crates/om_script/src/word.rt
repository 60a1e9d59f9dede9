//! The forms of words, and the numbers that they stand for.

ghost use Rattle.std.specs.Prelude.{◌≡◌, ◌+◌, ◌^◌, ◌<◌, ◌≤◌, nat_le, length, drop, min, IsTrue};
ghost use Rattle.std.specs.List.{list_all};
ghost use Rattle.std.specs.Char.{digit_value};
ghost use Rattle.std.specs.Str.Parse.{digits_value};
ghost use Rattle.om_script.specs.Words.{is_digit, is_letter, is_name_byte, is_name, is_hex_digit, is_decimal, is_hex, is_number, is_site, value_of, site_value};

fn is_digit(b: u8) -> bool
    ensures { result ≡ is_digit b }
{
    b.is_ascii_digit()
}

fn is_letter(b: u8) -> bool
    ensures { result ≡ is_letter b }
{
    b.is_ascii_lowercase()
}

fn is_name_byte(b: u8) -> bool
    ensures { result ≡ is_name_byte b }
{
    is_letter(b) || is_digit(b) || b == b'_'
}

fn are_name_bytes(word: &[u8]) -> bool
    ensures { result ≡ list_all is_name_byte word.now }
{
    word.iter().all(|b| is_name_byte(*b))
}

/// A small letter, and at most 15 small letters, digits and underscores.
pub fn is_name(word: &[u8]) -> bool
    ensures { result ≡ is_name word.now }
{
    match word.first() {
        None => false,
        Some(first) => { is_letter(*first) && word.len() <= 16 && are_name_bytes(word) }
    }
}

fn is_hex_digit(b: u8) -> bool
    ensures { result ≡ is_hex_digit b }
{
    is_digit(b) || (b'a' <= b && b <= b'f') || (b'A' <= b && b <= b'F')
}

fn are_digits(word: &[u8]) -> bool
    ensures { result ≡ list_all is_digit word.now }
{
    word.iter().all(|b| is_digit(*b))
}

fn are_hex_digits(word: &[u8]) -> bool
    ensures { result ≡ list_all is_hex_digit word.now }
{
    word.iter().all(|b| is_hex_digit(*b))
}

fn is_decimal(word: &[u8]) -> bool
    ensures { result ≡ is_decimal word.now }
{
    !word.is_empty() && are_digits(word)
}

fn is_hex(word: &[u8]) -> bool
    ensures { result ≡ is_hex word.now }
{
    word.starts_with(b"0x") && word.len() >= 3 && are_hex_digits(&word[2..])
}

/// Decimal digits, or `0x` and hexadecimal digits.
pub fn is_number(word: &[u8]) -> bool
    ensures { result ≡ is_number word.now }
{
    is_decimal(word) || is_hex(word)
}

/// `@` and a number.
pub fn is_site(word: &[u8]) -> bool
    ensures { result ≡ is_site word.now }
{
    match word {
        [] => false,
        [first, number @ ..] => *first == b'@' && is_number(number),
    }
}

// The value of a digit or a letter, and 36 for any other byte.
fn digit_value(b: u8) -> u8
    ensures { result ≡ digit_value b }
{
    match b {
        b'0'..=b'9' => b - b'0',
        b'A'..=b'Z' => b - b'A' + 10,
        b'a'..=b'z' => b - b'a' + 10,
        _ => 36,
    }
}

// What decimal digits stand for, and the cap for all that is more.
#[tactic(auto, using(crate::proofs::Digits::decimal_step))]
fn capped_decimal(digits: &[u8], cap: u128) -> u128
    requires { cap ≤ 2 ^ 64 }
    ensures { result ≡ min (digits_value 10 digits.now) cap }
{
    let mut value = 0;
    for b in digits {
        value = (value * 10 + u128::from(digit_value(*b))).min(cap);
    }
    value
}

// Likewise for hexadecimal digits.
#[tactic(auto, using(crate::proofs::Digits::hex_step))]
fn capped_hex(digits: &[u8], cap: u128) -> u128
    requires { cap ≤ 2 ^ 64 }
    ensures { result ≡ min (digits_value 16 digits.now) cap }
{
    let mut value = 0;
    for b in digits {
        value = (value * 16 + u128::from(digit_value(*b))).min(cap);
    }
    value
}

// What the word stands for, and the cap for all that is more.
fn capped_value(word: &[u8], cap: u128) -> u128
    requires { cap ≤ 2 ^ 64 }
    ensures { result ≡ min (value_of word.now) cap }
{
    if is_hex(word) {
        capped_hex(&word[2..], cap)
    } else {
        capped_decimal(word, cap)
    }
}

/// The word stands for more than this.
pub fn is_value_above(word: &[u8], greatest: u64) -> bool
    ensures { result ≡ nat_le (greatest + 1) (value_of word.now) }
{
    let greatest = u128::from(greatest);
    capped_value(word, greatest + 1) > greatest
}

/// The number behind the `@` is more than this.
pub fn is_site_above(word: &[u8], greatest: u64) -> bool
    ensures { result ≡ nat_le (greatest + 1) (site_value word.now) }
{
    is_value_above(behind_at(word), greatest)
}

/// The number that the word stands for.
pub fn value_of(word: &[u8]) -> u64
    requires { value_of word.now < 2 ^ 64 }
    ensures { result ≡ value_of word.now }
{
    capped_value(word, 1 << 64) as u64
}

/// The number behind the `@`.
pub fn site_value(word: &[u8]) -> u64
    requires { site_value word.now < 2 ^ 64 }
    ensures { result ≡ site_value word.now }
{
    value_of(behind_at(word))
}

fn behind_at(word: &[u8]) -> &[u8]
    ensures { result.now ≡ drop 1 word.now }
{
    match word {
        [] => word,
        [_, rest @ ..] => rest,
    }
}
