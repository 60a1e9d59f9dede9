ghost use Rattle.std.specs.Prelude.{◌≡◌, ◌<◌, ◌≤◌, ◌==◌, [], ◌∷◌, ◌++◌, length, slice_get};
ghost use Rattle.std.specs.List.{AllByRecursion};
ghost use Rattle.std.specs.Slice.Iter.{iter_rest};
ghost use Rattle.om_model.specs.Data.Ranges.{IsU32};

use crate::ranges::words_fit;
use std::marker::Model;
use std::slice;

/// The words that one call drew. There is room for 4, of which a call takes at most three.
#[derive(Drop)]
pub struct Drawn {
    words: [u32; 4],
    len: u32,
}

impl Model for Drawn {
    ghost use Rattle.std.specs.Prelude.{List, ℕ, take, ◌≤◌};

    ghost Value = { List ℕ };

    ghost view = { λ d. take d.len d.words };

    ghost invariant = { λ d. d.len ≤ 4 };
}

impl Drawn {
    /// No words.
    pub fn empty() -> Drawn
        ensures { result ≡ [] }
    {
        Drawn {
            words: [0; 4],
            len: 0,
        }
    }

    /// One word.
    pub fn one(word: u32) -> Drawn
        ensures { result ≡ word ∷ [] }
    {
        let mut words = Drawn::empty();
        words.push(word);
        words
    }

    /// Two words, in this order.
    pub fn two(first: u32, second: u32) -> Drawn
        ensures { result ≡ first ∷ second ∷ [] }
    {
        let mut words = Drawn::one(first);
        words.push(second);
        words
    }

    /// Adds the next word.
    pub fn push(&mut self, word: u32)
        requires { length self.old < 4 }
        ensures { self.new ≡ self.old ++ word ∷ [] }
    {
        self.words[self.len as usize] = word;
        self.len += 1;
    }

    /// How many words there are.
    pub fn len(&self) -> u32
        ensures len { result ≡ length self.now }
        ensures bound { result ≤ 4 }
    {
        self.len
    }

    /// Whether there is no word.
    pub fn is_empty(&self) -> bool
        ensures { result ≡ (length self.now == 0) }
    {
        self.len == 0
    }

    /// The words in the order in which they were drawn.
    pub fn word(&self, i: u32) -> u32
        requires { i < length self.now }
        ensures { slice_get self.now i ≡ Some result }
    {
        self.words[i as usize]
    }

    /// A law of the type: there are at most 4 words, and each has 32 bits.
    pub fn fits(&self)
        ensures few { length self.now ≤ 4 }
        ensures words { AllByRecursion IsU32 self.now }
    {
        let _few = self.len();
        words_fit(self.as_slice());
    }

    /// The words, from the first on.
    pub fn iter(&self) -> slice::Iter<'_, u32>
        ensures { iter_rest result ≡ self.now }
    {
        self.as_slice().iter()
    }

    /// The words as a slice.
    pub fn as_slice(&self) -> &[u32]
        ensures { result.now ≡ self.now }
    {
        &self.words[..self.len as usize]
    }
}
