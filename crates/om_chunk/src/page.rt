ghost use Rattle.std.specs.Prelude.{◌≡◌, ◌<◌, ◌≤◌, IsTrue, IsSome, [], length, slice_set, vec_capacity, is_some, IfSome};
ghost use Rattle.om_geom.specs.Classes.{is_class};
ghost use Rattle.om_chunk.specs.Places.{ChunkPage, fresh_page, has_free, is_unused, is_free_place, picked_place, place_at, with_place_at, IsFreeIn};

use crate::place::Place;
use om_geom::{Class, places, stride};
use std::marker::Model;
use std::mem;

/// The most places that a page has.
pub(crate) const MOST_PLACES: usize = 256;

/// A chunk page: its class, and what each of its places has.
#[derive(Drop)]
pub(crate) struct PagePlaces {
    class: Class,
    // How many places are free.
    free: usize,
    places: Vec<Place>,
}

impl Model for PagePlaces {
    ghost use Rattle.std.specs.Prelude.{◌≡◌, count_by};
    ghost use Rattle.om_chunk.specs.Places.{ChunkPage, is_free, IsFormed};

    ghost Value = { ChunkPage };

    ghost view = { λ p. record { class = p.class.0; places = p.places.items } };

    ghost invariant = { λ p. IsFormed (record { class = p.class.0; places = p.places.items })
        × (p.free ≡ count_by is_free p.places.items) };
}

impl PagePlaces {
    /// A page of the class with all places free, in this room.
    pub(crate) fn new(mut room: Vec<Place>, class: Class) -> PagePlaces
        requires class { IsTrue (is_class class.0) }
        requires empty { room.items ≡ [] }
        requires room { MOST_PLACES ≤ vec_capacity room }
        ensures { result ≡ fresh_page class.0 }
    {
        let count = places(class) as usize;
        match room.resize(count, Place::Free) {
            Ok(()) => {}
            Err(_) => unreachable!(),
        }
        PagePlaces {
            class,
            free: count,
            places: room,
        }
    }

    pub(crate) fn class(&self) -> Class
        ensures value { result.0 ≡ self.now.class }
        ensures class { IsTrue (is_class result.0) }
    {
        self.class
    }

    pub(crate) fn has_free(&self) -> bool
        ensures { result ≡ has_free self.now }
    {
        self.free > 0
    }

    /// Whether no place is live or delayed.
    pub(crate) fn is_unused(&self) -> bool
        ensures { result ≡ is_unused self.now }
    {
        self.free == self.places.len()
    }

    /// The place that begins so many bytes behind the page's first one.
    pub(crate) fn place_at(&self, offset: u32) -> Option<Place>
        ensures { result ≡ place_at self.now offset }
    {
        let bytes = stride(self.class);
        if offset % bytes == 0 {
            self.places.get((offset / bytes) as usize).copied()
        } else {
            None
        }
    }

    /// Makes the place that begins at the offset be so.
    pub(crate) fn set(&mut self, offset: u32, place: Place)
        requires { IsSome (place_at self.old offset) }
        ensures { self.new ≡ with_place_at self.old offset place }
    {
        let at = (offset / stride(self.class)) as usize;
        self.set_place(at, place);
    }

    // Makes place `at` be so, and keeps the count.
    fn set_place(&mut self, at: usize, place: Place)
        requires { at < length self.old.places }
        ensures { self.new ≡ record self.old { places = slice_set self.old.places at place } }
    {
        let before = mem::replace(&mut self.places[at], place);
        if before.is_free() {
            self.free -= 1;
        }
        if place.is_free() {
            self.free += 1;
        }
    }

    /// The first free place in cyclic order from the one that the word chooses; none exactly where no
    /// place is free.
    pub(crate) fn picked_place(&self, word: u32) -> Option<u32>
        ensures value { result ≡ picked_place self.now word }
        ensures some { is_some result ≡ has_free self.now }
        ensures free { IfSome result (λ place. IsFreeIn self.now place) }
    {
        let _class = &self.class;
        self.first_free(word)
    }

    // The search alone, since `picked_place` says more of what it finds.
    fn first_free(&self, word: u32) -> Option<u32>
        ensures { result ≡ picked_place self.now word }
    {
        let count = places(self.class);
        let start = word % count;
        (start..count)
            .chain(0..start)
            .find(|place| self.is_free_place(*place))
    }

    fn is_free_place(&self, place: u32) -> bool
        ensures { result ≡ is_free_place self.now place }
    {
        matches!(self.places.get(place as usize), Some(Place::Free))
    }
}
