//! Memory: the bytes of each page of an arena, none for a page that isn't held.
ghost use Rattle.std.specs.Prelude.{◌≡◌, ◌==◌, not, ◌*◌, ◌+◌, ◌^◌, ◌<◌, [], length, replicate, slice_index, slice_set, IfOk, IfSome, OnOk};
ghost use Rattle.std.specs.List.{position_from};
ghost use Rattle.om_frame.specs.Frames.{with_frames, without_pages, zero_frames, zeros};
ghost use Rattle.om_frame.specs.Memory.{no_pages, page_bytes, offset_at, byte_at, bytes_at, first_other, with_byte, with_bytes, filled, copied};

use super::in_use::page_of;
use om_geom::{FIRST_ADDRESS, PAGE_SIZE, ZONE_PAGES};
use std::alloc::{AllocError, Global};
use std::marker::Model;

/// The bytes of each page, by the page's number.
#[derive(Drop)]
pub struct Memory {
    alloc: Global,
    pages: Vec<Vec<u8>>,
}

impl Model for Memory {
    ghost use Rattle.std.specs.Prelude.{ℕ, List};
    ghost use Rattle.om_frame.specs.Blocks.{memory_of};

    ghost Value = { List (List ℕ) };

    ghost view = { λ m. memory_of m.pages.items };
}

impl Memory {
    /// Of an arena of so many zones, while no page is held.
    pub(super) fn new(alloc: Global, zones: u32) -> Result<Memory, AllocError>
        ensures { IfOk result (λ memory. memory ≡ no_pages zones) }
    {
        let mut pages = Vec::new(alloc);
        for _ in 0..u64::from(ZONE_PAGES) * u64::from(zones) {
            pages.push(Vec::new(alloc))?;
        }
        Ok(Memory { alloc, pages })
    }

    /// The same memory once more.
    pub(super) fn copy(&self) -> Result<Memory, AllocError>
        ensures { IfOk result (λ memory. memory ≡ self.now) }
    {
        let mut pages = Vec::new(self.alloc);
        for page in &self.pages {
            pages.push(Vec::from_slice(self.alloc, page)?)?;
        }
        Ok(Memory {
            alloc: self.alloc,
            pages,
        })
    }

    // Gives a page of the arena these bytes.
    fn set_page(&mut self, page: u128, bytes: Vec<u8>)
        ensures { self.new ≡ slice_set self.old page bytes.items }
    {
        if page < self.pages.len() as u128 {
            self.pages[page as usize] = bytes;
        }
    }

    /// So many pages get zeros.
    pub(super) fn add_zeros(&mut self, first: u32, count: u32) -> Result<(), AllocError>
        ensures { OnOk result (self.new ≡ with_frames self.old (zero_frames first count)) }
    {
        for i in 0..count {
            let bytes = page_of_zeros(self.alloc)?;
            self.set_page(u128::from(first) + u128::from(i), bytes);
        }
        Ok(())
    }

    /// So many pages lose their bytes.
    pub(super) fn remove(&mut self, first: u64, count: u64)
        ensures { self.new ≡ without_pages self.old first count }
    {
        for i in 0..count {
            let none = Vec::new(self.alloc);
            self.set_page(u128::from(first) + u128::from(i), none);
        }
    }

    /// How many pages there are, held or not.
    pub(super) fn len(&self) -> usize
        ensures { result ≡ length self.now }
    {
        self.pages.len()
    }

    /// How many bytes the page has.
    pub(super) fn page_len(&self, page: usize) -> usize
        ensures { result ≡ length (page_bytes self.now page) }
    {
        if page < self.pages.len() {
            self.pages[page].len()
        } else {
            0
        }
    }

    /// The byte at the address.
    pub(super) fn byte_at(&self, address: u128) -> u8
        requires { address < 2 ^ 70 }
        ensures { result ≡ byte_at self.now address }
    {
        let page = page_of(address) as usize;
        if page < self.pages.len() {
            byte_of(&self.pages[page], offset_of(address))
        } else {
            0
        }
    }

    /// How far from the address, among so many bytes, the first stands that isn't the one given.
    pub(super) fn first_other(
        &self,
        address: u128,
        len: u128,
        byte: u8,
    ) -> Result<Option<usize>, AllocError>
        requires start { address < 2 ^ 66 }
        requires few { len < 2 ^ 66 }
        ensures other { IfOk result (λ found. found ≡ first_other self.now address len byte) }
        ensures within { IfOk result (λ found. IfSome found (λ i. i < len)) }
    {
        let bytes = self.bytes_at(address, len)?;
        Ok(first_other_in(&bytes, byte))
    }

    fn bytes_at(&self, address: u128, len: u128) -> Result<Vec<u8>, AllocError>
        requires start { address < 2 ^ 66 }
        requires few { len < 2 ^ 66 }
        ensures bytes { IfOk result (λ bytes. bytes.items ≡ bytes_at self.now address len) }
        ensures long { IfOk result (λ bytes. length bytes.items ≡ len) }
    {
        let mut bytes = Vec::new(self.alloc);
        for i in 0..len {
            bytes.push(self.byte_at(address + i))?;
        }
        Ok(bytes)
    }

    /// Writes the byte at the address.
    pub(super) fn write(&mut self, address: u128, byte: u8)
        requires { address < 2 ^ 70 }
        ensures { self.new ≡ with_byte self.old address byte }
    {
        let page = page_of(address) as usize;
        if page < self.pages.len() {
            put(&mut self.pages[page], offset_of(address), byte);
        }
    }

    /// Writes the byte so many times, from the address on.
    pub(super) fn fill(&mut self, address: u128, len: u128, byte: u8)
        requires start { address < 2 ^ 66 }
        requires few { len < 2 ^ 66 }
        ensures { self.new ≡ filled self.old address len byte }
    {
        for i in 0..len {
            self.write(address + i, byte);
        }
    }

    // Writes the bytes, the first at the address and each other one at the next address.
    fn write_all(&mut self, address: u128, bytes: &[u8])
        requires { address < 2 ^ 66 }
        ensures { self.new ≡ with_bytes self.old address bytes.now }
    {
        let mut at = address;
        for byte in bytes {
            self.write(at, *byte);
            at += 1;
        }
    }

    /// Copies so many bytes from one address to another.
    pub(super) fn copy_bytes(&mut self, from: u128, to: u128, len: u128) -> Result<(), AllocError>
        requires from { from < 2 ^ 66 }
        requires to { to < 2 ^ 66 }
        requires few { len < 2 ^ 66 }
        ensures { OnOk result (self.new ≡ copied self.old from to len) }
    {
        let bytes = self.bytes_at(from, len)?;
        self.write_all(to, &bytes);
        Ok(())
    }
}

// Where the first byte stands that isn't the one given.
fn first_other_in(bytes: &[u8], byte: u8) -> Option<usize>
    ensures value { result ≡ position_from (λ other. not (other == byte)) 0 bytes.now }
    ensures within { IfSome result (λ i. i < length bytes.now) }
{
    bytes.iter().position(|other| *other != byte)
}

// Nothing is written behind the end, and zero is read there.
fn put(bytes: &mut Vec<u8>, offset: usize, byte: u8)
    ensures { bytes.new.items ≡ slice_set bytes.old.items offset byte }
{
    if offset < bytes.len() {
        bytes[offset] = byte;
    }
}

fn byte_of(bytes: &[u8], offset: usize) -> u8
    ensures { result ≡ slice_index bytes.now offset }
{
    if offset < bytes.len() {
        bytes[offset]
    } else {
        0
    }
}

fn page_of_zeros(alloc: Global) -> Result<Vec<u8>, AllocError>
    ensures { IfOk result (λ bytes. bytes.items ≡ zeros) }
{
    let mut bytes = Vec::new(alloc);
    bytes.resize(PAGE_SIZE as usize, 0)?;
    Ok(bytes)
}

// The number of the byte on its page.
fn offset_of(address: u128) -> usize
    ensures { result ≡ offset_at address }
{
    (address.saturating_sub(u128::from(FIRST_ADDRESS)) % u128::from(PAGE_SIZE)) as usize
}
