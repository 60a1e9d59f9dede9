ghost use Rattle.std.specs.Prelude.{◌≡◌, ◌+◌, ◌*◌, ◌≤◌, ◌<◌, true, false, [], length, slice_set, All, IfOk};
ghost use Rattle.std.specs.Borrow.{sem};
ghost use Rattle.om_geom.specs.Addresses.{page_at};
ghost use Rattle.om_geom.specs.Numbers.{page_size, zone_pages, most_zones, first_address};
ghost use Rattle.om_frame.specs.Memory.{no_pages, offset_at, bytes_at, copied, is_held, ShareNoByte, IsPage, IsHeldPart};
ghost use Rattle.om_frame.specs.Frames.{with_frames, without_pages, zero_frame, zero_frames, AreHeld};
ghost use Rattle.om_frame.specs.Lending.{LendsPart};

use crate::block::copy_bytes;
use crate::bundle::Bundle;
use crate::frame::Frame;
use om_geom::{Addr, FIRST_ADDRESS, PAGE_SIZE, Page, ZONE_PAGES};
use std::alloc::{AllocError, Global};
use std::marker::Model;
use std::mem;

/// The frames of one pool: a map from pages to their bytes.
#[derive(Drop)]
pub struct Shelf {
    // One for each page of the arena, by the page's number. It is empty where the page isn't held.
    blocks: Vec<Vec<u8>>,
    // What is lent where no byte is asked for.
    nothing: Vec<u8>,
    alloc: Global,
}

impl Model for Shelf {
    ghost use Rattle.std.specs.Prelude.{ℕ, ◌*◌, ◌≤◌, List, length};
    ghost use Rattle.om_geom.specs.Numbers.{zone_pages, most_zones};
    ghost use Rattle.om_frame.specs.Blocks.{memory_of, AreBlocks};

    ghost Value = { List (List ℕ) };

    ghost view = { λ s. memory_of s.blocks.items };

    ghost invariant = { λ s.
        (length s.blocks.items ≤ zone_pages * most_zones) × AreBlocks s.blocks.items };
}

impl Shelf {
    /// A shelf for the pages of an arena of this many zones, none of which is there yet.
    pub fn new(alloc: Global, zones: u32) -> Result<Shelf, AllocError>
        requires some_zone { 1 ≤ zones }
        requires few_zones { zones ≤ most_zones }
        ensures { IfOk result (λ shelf. shelf ≡ no_pages zones) }
    {
        let count = (ZONE_PAGES * zones) as usize;
        let mut blocks = Vec::with_capacity(alloc, count)?;
        for _ in 0..count {
            blocks.push(Vec::new(alloc))?;
        }
        Ok(Shelf {
            blocks,
            nothing: Vec::new(alloc),
            alloc,
        })
    }

    /// Takes frames of pages that aren't there yet.
    pub fn add(&mut self, bundle: Bundle)
        requires there { All (λ frame. frame.page < length self.old) bundle }
        requires new { All (λ frame. is_held self.old frame.page ≡ false) bundle }
        ensures { self.new ≡ with_frames self.old bundle }
    {
        let mut bundle = bundle;
        while let Some(frame) = bundle.take_first() {
            self.put(frame);
        }
    }

    /// Gives the frames of `n` neighbouring pages, filled with zeros.
    pub fn remove(&mut self, first: Page, n: u32) -> Bundle
        requires few { n ≤ zone_pages }
        requires there { AreHeld self.old first.0 n }
        ensures frames { result ≡ zero_frames first.0 n }
        ensures rest { self.new ≡ without_pages self.old first.0 n }
    {
        let mut bundle = Bundle::empty();
        for i in 0..n {
            bundle.push(self.take_page(first.0 as usize + i as usize));
        }
        bundle
    }

    /// The bytes from an address on, as many as asked for, all on one page.
    pub fn part(&self, at: Addr, len: u32) -> &[u8]
        requires held { IsHeldPart self.now at.0 len }
        requires one_page { offset_at at.0 + len ≤ page_size }
        ensures { result.now ≡ bytes_at self.now at.0 len }
    {
        if len == 0 {
            return &[];
        }
        let (page, from) = locate(at);
        &self.blocks[page][from..from + len as usize]
    }

    /// The same bytes, to be written.
    pub fn part_mut(&mut self, at: Addr, len: u32) -> &mut [u8]
        requires held { IsHeldPart self.old at.0 len }
        requires one_page { offset_at at.0 + len ≤ page_size }
        ensures* writes_back { sem 𝓛 (LendsPart self.entry at.0 len result) }
        ensures bytes { result.now ≡ bytes_at self.old at.0 len }
    {
        if len == 0 {
            return self.nothing.slice_mut(0..0);
        }
        let (page, from) = locate(at);
        let block = &mut self.blocks[page];
        block.slice_mut(from..from + len as usize)
    }
}

impl Shelf {
    /// A law of the type: the arena has at most `MOST_ZONES` zones, and a page has its bytes or none.
    pub fn fits(&self)
        ensures few { length self.now ≤ zone_pages * most_zones }
        ensures pages { All IsPage self.now }
    {
        let _blocks = &self.blocks;
    }

    // The bytes of one part come to another.
    pub(crate) fn copy_part(&mut self, from: Addr, to: Addr, len: u32)
        requires some { 0 < len }
        requires source { IsHeldPart self.old from.0 len }
        requires target { IsHeldPart self.old to.0 len }
        requires source_page { offset_at from.0 + len ≤ page_size }
        requires target_page { offset_at to.0 + len ≤ page_size }
        requires apart { ShareNoByte from.0 to.0 len }
        ensures { self.new ≡ copied self.old from.0 to.0 len }
    {
        copy_bytes(&mut self.blocks, locate(from), locate(to), len as usize);
    }

    // One page gets its frame.
    fn put(&mut self, frame: Frame)
        requires { frame.page < length self.old }
        ensures { self.new ≡ slice_set self.old frame.page frame.bytes }
    {
        let Frame { page, block } = frame;
        self.blocks[page.0 as usize] = block;
    }

    // One page's frame leaves, filled with zeros.
    fn take_page(&mut self, page: usize) -> Frame
        requires { is_held self.old page ≡ true }
        ensures frame { result ≡ zero_frame page }
        ensures rest { self.new ≡ slice_set self.old page [] }
    {
        let none = Vec::new(self.alloc);
        let mut frame = Frame {
            page: Page(page as u32),
            block: mem::replace(&mut self.blocks[page], none),
        };
        frame.zero();
        frame
    }
}

/// The page of an address of the arena, and the number of its byte there.
fn locate(at: Addr) -> (usize, usize)
    requires { first_address ≤ at.0 }
    ensures page { result.0 ≡ page_at at.0 }
    ensures offset { result.1 ≡ offset_at at.0 }
{
    let byte = at.0 - FIRST_ADDRESS;
    let size = u64::from(PAGE_SIZE);
    ((byte / size) as usize, (byte % size) as usize)
}
