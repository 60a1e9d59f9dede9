ghost use Rattle.std.specs.Prelude.{◌≡◌, ◌≤◌, ◌<◌, ◌==◌, [], ◌∷◌, ◌++◌, length, drop, slice_get};
ghost use Rattle.om_geom.specs.Numbers.{zone_pages};
ghost use Rattle.om_frame.specs.Frames.{next_page, AreNeighbours};

use crate::frame::Frame;
use om_geom::ZONE_PAGES;
use std::marker::Model;

/// How many frames a bundle has place for.
const PLACES: usize = ZONE_PAGES as usize;

/// At most as many frames as a zone has pages, those of neighbouring pages, in ascending order. What moves
/// between a zone and a pool.
#[derive(Drop)]
pub struct Bundle {
    frames: [Option<Frame>; PLACES],
    len: u32,
}

impl Model for Bundle {
    ghost use Rattle.std.specs.Prelude.{List};
    ghost use Rattle.om_frame.specs.Frames.{PageBytes};
    ghost use Rattle.om_frame.specs.Packed.{packed, IsPacked};

    ghost Value = { List PageBytes };

    ghost view = { λ b. packed b.frames };

    ghost invariant = { λ b. IsPacked b.frames b.len };
}

impl Bundle {
    /// No frames.
    pub fn empty() -> Bundle
        ensures { result ≡ [] }
    {
        Bundle {
            frames: Default::default(),
            len: 0,
        }
    }

    /// Adds the frame of the next page; any page is the next where there is no frame yet.
    pub fn push(&mut self, frame: Frame)
        requires few { length self.old < zone_pages }
        requires next { frame.page ≡ next_page self.old frame.page }
        ensures { self.new ≡ self.old ++ frame ∷ [] }
    {
        self.frames[self.len as usize] = Some(frame);
        self.len += 1;
    }

    /// Takes the frame of the lowest page; none exactly where there is no frame.
    pub fn take_first(&mut self) -> Option<Frame>
        ensures frame { result ≡ slice_get self.old 0 }
        ensures rest { self.new ≡ drop 1 self.old }
    {
        let first = self.frames[0].take();
        if first.is_some() {
            self.frames.rotate_left(1);
            self.len -= 1;
        }
        first
    }

    /// How many frames there are.
    pub fn len(&self) -> u32
        ensures len { result ≡ length self.now }
        ensures few { result ≤ zone_pages }
    {
        self.len
    }

    /// Whether there is no frame.
    pub fn is_empty(&self) -> bool
        ensures { result ≡ (length self.now == 0) }
    {
        self.len == 0
    }

    /// A law of the type: the pages are neighbours, in ascending order.
    pub fn are_neighbours(&self)
        ensures { AreNeighbours self.now }
    {
        let _frames = &self.frames;
    }
}
