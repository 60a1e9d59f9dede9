ghost use Rattle.std.specs.Prelude.{◌≡◌, ◌+◌, ◌-◌, ◌^◌, ◌<◌, ◌≤◌, ◌==◌, [], ◌∷◌, ◌++◌, length, Some, slice_get, IfOk};
ghost use Rattle.std.specs.List.{AllByRecursion};
ghost use Rattle.std.specs.Slice.Iter.{iter_rest};
ghost use Rattle.om_model.specs.Data.Ranges.{FitsLook};

use crate::ranges::look_fits;
use std::alloc::{AllocError, Global};
use std::marker::Model;
use std::slice;

/// A zone at a version: the bits that are held after that move. Version 0 has all bits clear.
#[derive(Clone, Copy, Debug, PartialEq, Eq)]
pub struct Look {
    pub zone: u32,
    pub version: u32,
}

/// A version that an entry names for a zone, by a look or by a move.
#[derive(Clone, Copy, Debug, PartialEq, Eq)]
pub struct Named {
    pub zone: u32,
    pub version: u32,
    /// Whether a move names it.
    pub moves: bool,
}

/// The looks of one call, in order.
#[derive(Drop)]
pub struct LookList {
    looks: Vec<Look>,
}

impl Model for LookList {
    ghost use Rattle.std.specs.Prelude.{◌-◌, ◌^◌, ◌<◌, vec_len, vec_capacity};
    ghost use Rattle.std.specs.List.{AllByRecursion};
    ghost use Rattle.om_model.specs.Data.Ranges.{FitsLook};
    ghost use Rattle.om_model.specs.Data.Room.{Looks};

    ghost Value = { Looks };

    ghost view = { λ l. record {
      items = l.looks.items;
      spare = vec_capacity l.looks - vec_len l.looks;
    } };

    ghost invariant = { λ l. (vec_len l.looks < 2 ^ 32) × AllByRecursion FitsLook l.looks.items };
}

impl LookList {
    /// No looks, and no room for any.
    pub fn empty(alloc: Global) -> LookList
        ensures { result.items ≡ [] }
    {
        LookList {
            looks: Vec::new(alloc),
        }
    }

    /// An empty list with room for `n` looks.
    pub fn with_room(alloc: Global, n: u32) -> Result<LookList, AllocError>
        ensures items { IfOk result (λ list. list.items ≡ []) }
        ensures room { IfOk result (λ list. n ≤ list.spare) }
    {
        Ok(LookList {
            looks: Vec::with_capacity(alloc, n as usize)?,
        })
    }

    /// Takes no memory: the room was made before.
    pub fn push(&mut self, look: Look)
        requires short { length self.old.items < 2 ^ 32 - 1 }
        requires room { 1 ≤ self.old.spare }
        ensures items { self.new.items ≡ self.old.items ++ look ∷ [] }
        ensures spare { self.old.spare ≤ self.new.spare + 1 }
    {
        look_fits(look);
        self.looks.push_reserved(look);
    }

    /// How many looks there are.
    pub fn len(&self) -> u32
        ensures len { result ≡ length self.now.items }
    {
        self.looks.len() as u32
    }

    /// Whether there is no look.
    pub fn is_empty(&self) -> bool
        ensures { result ≡ (length self.now.items == 0) }
    {
        self.looks.is_empty()
    }

    /// The looks in the order in which they were taken.
    pub fn look(&self, i: u32) -> Look
        requires { i < length self.now.items }
        ensures { slice_get self.now.items i ≡ Some result }
    {
        self.looks[i as usize]
    }

    /// A law of the type: each look names a zone and a version of 32 bits.
    pub fn fits(&self)
        ensures { AllByRecursion FitsLook self.now.items }
    {
        let _looks = &self.looks;
    }

    /// The looks, from the first on.
    pub fn iter(&self) -> slice::Iter<'_, Look>
        ensures items { iter_rest result ≡ self.now.items }
        ensures few { length (iter_rest result) < 2 ^ 32 }
    {
        self.looks.iter()
    }

    /// The looks as a slice.
    pub fn as_slice(&self) -> &[Look]
        ensures items { result.now ≡ self.now.items }
        ensures few { length result.now < 2 ^ 32 }
    {
        &self.looks
    }
}
