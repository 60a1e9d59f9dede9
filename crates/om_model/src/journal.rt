ghost use Rattle.std.specs.Prelude.{◌≡◌, ◌+◌, ◌-◌, ◌^◌, ◌<◌, ◌≤◌, ◌==◌, [], ◌∷◌, ◌++◌, length, Some, slice_get, OnOk};
ghost use Rattle.std.specs.Slice.Iter.{iter_rest};
ghost use Rattle.om_model.specs.Data.Ranges.{FitsJournal};

use crate::entry::Entry;
use crate::ranges::entry_fits;
use std::alloc::{AllocError, Global};
use std::marker::Model;
use std::slice;

/// The journal of a pool: every call and phase, in their order.
#[derive(Drop)]
pub struct Journal {
    entries: Vec<Entry>,
}

impl Model for Journal {
    ghost use Rattle.std.specs.Prelude.{◌-◌, ◌^◌, ◌<◌, vec_len, vec_capacity};
    ghost use Rattle.om_model.specs.Data.Room.{Entries};
    ghost use Rattle.om_model.specs.Data.Ranges.{FitsJournal};

    ghost Value = { Entries };

    ghost view = { λ j. record {
      items = j.entries.items;
      spare = vec_capacity j.entries - vec_len j.entries;
    } };

    ghost invariant = { λ j. (vec_len j.entries < 2 ^ 32) × FitsJournal j.entries.items };
}

impl Journal {
    /// No entries yet. Room is taken from this allocator later.
    pub fn new(alloc: Global) -> Journal
        ensures { result.items ≡ [] }
    {
        Journal {
            entries: Vec::new(alloc),
        }
    }

    /// Makes room for an entry.
    pub fn reserve(&mut self) -> Result<(), AllocError>
        requires { length self.old.items < 2 ^ 32 - 1 }
        ensures items { self.new.items ≡ self.old.items }
        ensures room { OnOk result (1 ≤ self.new.spare) }
        ensures spare { self.old.spare ≤ self.new.spare }
    {
        self.entries.reserve(1)
    }

    /// Takes no memory: the room was made before.
    pub fn push(&mut self, entry: Entry)
        requires short { length self.old.items < 2 ^ 32 - 1 }
        requires room { 1 ≤ self.old.spare }
        ensures items { self.new.items ≡ self.old.items ++ entry ∷ [] }
        ensures spare { self.old.spare ≤ self.new.spare + 1 }
    {
        entry_fits(&entry);
        self.entries.push_reserved(entry);
    }

    /// How many entries there are.
    pub fn len(&self) -> u32
        ensures len { result ≡ length self.now.items }
    {
        self.entries.len() as u32
    }

    /// Whether there is no entry.
    pub fn is_empty(&self) -> bool
        ensures { result ≡ (length self.now.items == 0) }
    {
        self.entries.is_empty()
    }

    /// A law of the type: every number in it is one that its type holds, and no entry has more than 4 words.
    pub fn fits(&self)
        ensures { FitsJournal self.now.items }
    {
        let _entries = &self.entries;
    }

    /// Entry `i`, from 0.
    pub fn entry(&self, i: u32) -> &Entry
        requires { i < length self.now.items }
        ensures { slice_get self.now.items i ≡ Some result.now }
    {
        &self.entries[i as usize]
    }

    /// The entries, from the first on.
    pub fn iter(&self) -> slice::Iter<'_, Entry>
        ensures items { iter_rest result ≡ self.now.items }
        ensures few { length (iter_rest result) < 2 ^ 32 }
    {
        self.entries.iter()
    }

    /// The entries as a slice.
    pub fn as_slice(&self) -> &[Entry]
        ensures items { result.now ≡ self.now.items }
        ensures few { length result.now < 2 ^ 32 }
    {
        &self.entries
    }
}
