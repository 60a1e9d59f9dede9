ghost use Rattle.std.specs.Prelude.{◌≡◌, ◌<◌, ◌≤◌, IsTrue, false, IfOk, length, replicate, slice_set};
ghost use Rattle.om_geom.specs.Classes.{is_class};
ghost use Rattle.om_chunk.specs.OpenSets.{class_index, chosen_page, flags_of, with_flag};

use om_geom::Class;
use std::alloc::{AllocError, Global};
use std::marker::Model;

/// How many classes there are.
const CLASSES: usize = 9;

/// For each class the pages that have a free place.
#[derive(Drop)]
pub(crate) struct OpenPages {
    // In ascending order of the classes.
    sets: Vec<PageSet>,
}

impl Model for OpenPages {
    ghost use Rattle.std.specs.Prelude.{◌≡◌, List, Bool, length};

    ghost Value = { List (List Bool) };

    ghost view = { λ o. o.sets.items };

    ghost invariant = { λ o. length o.sets.items ≡ 9 };
}

impl OpenPages {
    /// None yet, of so many pages of the arena.
    pub(crate) fn new(alloc: Global, count: usize) -> Result<OpenPages, AllocError>
        ensures { IfOk result (λ opened. opened ≡ replicate 9 (replicate count false)) }
    {
        let mut sets = Vec::with_capacity(alloc, CLASSES)?;
        for _ in 0..CLASSES {
            sets.push(PageSet::new(alloc, count)?)?;
        }
        Ok(OpenPages { sets })
    }

    /// Notes whether a page of the class has a free place.
    pub(crate) fn set(&mut self, class: Class, page: u32, free: bool)
        requires class { IsTrue (is_class class.0) }
        requires there { page < length (flags_of self.old class.0) }
        ensures { self.new ≡ with_flag self.old class.0 page free }
    {
        self.sets[class_index(class)].set(page, free);
    }

    /// Of the pages of the class that have a free place, in ascending order, the one that the word
    /// chooses.
    pub(crate) fn pick(&self, class: Class, word: u32) -> Option<u32>
        requires { IsTrue (is_class class.0) }
        ensures { result ≡ chosen_page (flags_of self.now class.0) word }
    {
        self.sets[class_index(class)].pick(word)
    }
}

/// Some of the arena's pages.
#[derive(Drop)]
struct PageSet {
    // For each page of the arena, whether it is one of them.
    flags: Vec<bool>,
    // These in ascending order, with room for all.
    pages: Vec<u32>,
}

impl Model for PageSet {
    ghost use Rattle.std.specs.Prelude.{◌≡◌, ◌≤◌, List, Bool, length, vec_capacity};
    ghost use Rattle.om_chunk.specs.OpenSets.{flagged_pages};

    ghost Value = { List Bool };

    ghost view = { λ s. s.flags.items };

    ghost invariant = { λ s. (s.pages.items ≡ flagged_pages s.flags.items)
        × (length s.flags.items ≤ vec_capacity s.pages) };
}

impl PageSet {
    // None of so many.
    fn new(alloc: Global, count: usize) -> Result<PageSet, AllocError>
        ensures { IfOk result (λ set. set ≡ replicate count false) }
    {
        let pages = Vec::with_capacity(alloc, count)?;
        let flags = vec![in alloc; false; count]?;
        Ok(PageSet { flags, pages })
    }

    fn set(&mut self, page: u32, flag: bool)
        requires { page < length self.old }
        ensures { self.new ≡ slice_set self.old page flag }
    {
        let at = page as usize;
        if self.flags[at] == flag {
            return;
        }
        self.flags[at] = flag;
        match self.pages.binary_search(&page) {
            Ok(i) => {
                self.pages.remove(i);
            }
            Err(i) => {
                let _room = self.pages.insert(i, page);
            }
        }
    }

    fn pick(&self, word: u32) -> Option<u32>
        ensures { result ≡ chosen_page self.now word }
    {
        let count = self.pages.len();
        if count == 0 {
            None
        } else {
            self.pages.get(word as usize % count).copied()
        }
    }
}

// Which of the nine classes it is, in ascending order.
fn class_index(class: Class) -> usize
    requires { IsTrue (is_class class.0) }
    ensures value { result ≡ class_index class.0 }
    ensures few { result < 9 }
{
    match class.0 {
        0 => 0,
        16 => 1,
        32 => 2,
        64 => 3,
        128 => 4,
        256 => 5,
        512 => 6,
        1024 => 7,
        _ => 8,
    }
}
