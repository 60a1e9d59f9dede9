ghost use Rattle.std.specs.Prelude.{◌≡◌, ◌^◌, ◌<◌, length, slice_index, IfOk};
ghost use Rattle.std.specs.List.{AllByRecursion};

use std::alloc::{AllocError, Global};
use std::marker::Model;

/// Words in the order in which they are drawn.
#[derive(Debug, Drop)]
pub struct WordList {
    words: Vec<u32>,
}

impl Model for WordList {
    ghost use Rattle.std.specs.Prelude.{List, ℕ};

    ghost Value = { List ℕ };

    ghost view = { λ list. list.words.items };
}

impl WordList {
    /// These words, in their order.
    pub fn new(list: Vec<u32>) -> WordList
        ensures { result ≡ list.items }
    {
        WordList { words: list }
    }

    /// How many words there are.
    pub fn len(&self) -> u64
        ensures { result ≡ length self.now }
    {
        self.words.len() as u64
    }

    /// Word `i`, from 0.
    pub fn word(&self, i: u64) -> u32
        requires { i < length self.now }
        ensures { result ≡ slice_index self.now i }
    {
        self.words[i as usize]
    }

    /// A law of the type: each word has 32 bits.
    pub fn fits(&self)
        ensures { AllByRecursion (λ word. word < 2 ^ 32) self.now }
    {
        words_fit(self.words.as_slice());
    }

    pub(crate) fn copy(&self, alloc: Global) -> Result<WordList, AllocError>
        ensures { IfOk result (λ list. list ≡ self.now) }
    {
        Ok(WordList::new(Vec::from_slice(alloc, self.words.as_slice())?))
    }
}

fn words_fit(words: &[u32])
    ensures { AllByRecursion (λ word. word < 2 ^ 32) words.now }
{
    let _count = words.len();
}
