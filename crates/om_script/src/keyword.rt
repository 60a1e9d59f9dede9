//! The words that a line may begin with, and the kinds of the words behind them.

ghost use Rattle.std.specs.Prelude.{◌≡◌};
ghost use Rattle.om_script.specs.Keywords.{keyword_of, kinds_of, kinds_behind, is_of_kind, may_miss, is_too_large, is_no_cell};

use crate::word::{is_name, is_number, is_site, is_site_above, is_value_above};

/// What a command asks.
#[derive(Clone, Copy, Debug, PartialEq, Eq)]
pub enum Verb {
    Malloc,
    Calloc,
    Realloc,
    Reallocarray,
    Free,
    Load,
    Store,
    Let,
    Add,
    Post,
    Take,
    Phase,
}

/// The first word of a line.
#[derive(Clone, Copy, Debug, PartialEq, Eq)]
pub enum Keyword {
    Script,
    End,
    Command(Verb),
}

/// What a word behind the first may be.
#[derive(Clone, Copy, Debug, PartialEq, Eq)]
pub enum Kind {
    /// The name of a script or a variable.
    Name,
    /// A number up to 2^64 - 1.
    Number,
    /// A number up to 255.
    Byte,
    /// A number up to 63.
    Cell,
    /// `@` and a number up to 2^64 - 1. It may be missing.
    Site,
}

/// The keyword that a word is, if it is one.
pub fn keyword_of(word: &[u8]) -> Option<Keyword>
    ensures { result ≡ keyword_of word.now }
{
    if word == b"script".as_slice() {
        Some(Keyword::Script)
    } else if word == b"end".as_slice() {
        Some(Keyword::End)
    } else if word == b"malloc".as_slice() {
        Some(Keyword::Command(Verb::Malloc))
    } else if word == b"calloc".as_slice() {
        Some(Keyword::Command(Verb::Calloc))
    } else if word == b"realloc".as_slice() {
        Some(Keyword::Command(Verb::Realloc))
    } else if word == b"reallocarray".as_slice() {
        Some(Keyword::Command(Verb::Reallocarray))
    } else if word == b"free".as_slice() {
        Some(Keyword::Command(Verb::Free))
    } else if word == b"load".as_slice() {
        Some(Keyword::Command(Verb::Load))
    } else if word == b"store".as_slice() {
        Some(Keyword::Command(Verb::Store))
    } else if word == b"let".as_slice() {
        Some(Keyword::Command(Verb::Let))
    } else if word == b"add".as_slice() {
        Some(Keyword::Command(Verb::Add))
    } else if word == b"post".as_slice() {
        Some(Keyword::Command(Verb::Post))
    } else if word == b"take".as_slice() {
        Some(Keyword::Command(Verb::Take))
    } else if word == b"phase".as_slice() {
        Some(Keyword::Command(Verb::Phase))
    } else {
        None
    }
}

impl Verb {
    /// The kinds of the words behind it.
    pub fn kinds(self) -> &'static [Kind]
        ensures { result.now ≡ kinds_of self }
    {
        match self {
            Verb::Malloc => &[Kind::Name, Kind::Number, Kind::Site],
            Verb::Calloc => &[Kind::Name, Kind::Number, Kind::Number, Kind::Site],
            Verb::Realloc => &[Kind::Name, Kind::Name, Kind::Number, Kind::Site],
            Verb::Reallocarray => &[
                Kind::Name,
                Kind::Name,
                Kind::Number,
                Kind::Number,
                Kind::Site,
            ],
            Verb::Free => &[Kind::Name],
            Verb::Load => &[Kind::Name, Kind::Number],
            Verb::Store => &[Kind::Name, Kind::Number, Kind::Byte],
            Verb::Let => &[Kind::Name, Kind::Number],
            Verb::Add => &[Kind::Name, Kind::Name, Kind::Number],
            Verb::Post => &[Kind::Cell, Kind::Name],
            Verb::Take => &[Kind::Name, Kind::Cell],
            Verb::Phase => &[],
        }
    }
}

impl Keyword {
    /// The kinds of the words behind it.
    pub fn kinds(self) -> &'static [Kind]
        ensures { result.now ≡ kinds_behind self }
    {
        match self {
            Keyword::Script => &[Kind::Name],
            Keyword::End => &[],
            Keyword::Command(verb) => verb.kinds(),
        }
    }
}

impl Kind {
    /// The word has the form of this kind, however large a number it is.
    pub fn is_of(self, word: &[u8]) -> bool
        ensures { result ≡ is_of_kind self word.now }
    {
        match self {
            Kind::Name => is_name(word),
            Kind::Site => is_site(word),
            Kind::Number | Kind::Byte | Kind::Cell => is_number(word),
        }
    }

    /// A word of this kind may be missing.
    pub fn may_miss(self) -> bool
        ensures { result ≡ may_miss self }
    {
        match self {
            Kind::Site => true,
            Kind::Name | Kind::Number | Kind::Byte | Kind::Cell => false,
        }
    }

    /// The word is a number that no such word may be.
    pub fn is_too_large(self, word: &[u8]) -> bool
        ensures { result ≡ is_too_large self word.now }
    {
        match self {
            Kind::Name => false,
            Kind::Site => is_site_above(word, u64::MAX),
            Kind::Number | Kind::Cell => is_value_above(word, u64::MAX),
            Kind::Byte => is_value_above(word, 255),
        }
    }

    /// The word is a cell's number, and there is no such cell.
    pub fn is_no_cell(self, word: &[u8]) -> bool
        ensures { result ≡ is_no_cell self word.now }
    {
        match self {
            Kind::Cell => is_value_above(word, 63),
            Kind::Name | Kind::Number | Kind::Byte | Kind::Site => false,
        }
    }
}
