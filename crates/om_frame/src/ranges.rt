ghost use Rattle.std.specs.Prelude.{◌≡◌, ◌+◌, ◌<◌, ◌≤◌, ◌==◌, ◌&&◌, not, true, length, IfSome};
ghost use Rattle.std.specs.List.{fold, position_from};
ghost use Rattle.om_geom.specs.Numbers.{page_size, first_address};
ghost use Rattle.om_frame.specs.Memory.{offset_at, filled, copied, first_other, ShareNoByte, IsHeldPart};

use crate::shelf::Shelf;
use om_geom::{Addr, FIRST_ADDRESS, PAGE_SIZE};

impl Shelf {
    /// Writes one byte to all of the `len` places from an address on, across pages.
    pub fn fill(&mut self, at: Addr, len: u32, byte: u8)
        requires { IsHeldPart self.old at.0 len }
        ensures { self.new ≡ filled self.old at.0 len byte }
    {
        self.fits();
        let mut done = 0;
        while done < len {
            let here = Addr(at.0 + u64::from(done));
            let piece = piece_len(here, len - done);
            self.part_mut(here, piece).fill(byte);
            done += piece;
        }
    }

    /// Writes the `len` bytes from one address on to another, across pages. The two parts share no byte.
    pub fn copy(&mut self, from: Addr, to: Addr, len: u32)
        requires source { IsHeldPart self.old from.0 len }
        requires target { IsHeldPart self.old to.0 len }
        requires apart { ShareNoByte from.0 to.0 len }
        ensures { self.new ≡ copied self.old from.0 to.0 len }
    {
        self.fits();
        let mut done = 0;
        while done < len {
            let source = Addr(from.0 + u64::from(done));
            let target = Addr(to.0 + u64::from(done));
            let piece = piece_len(source, piece_len(target, len - done));
            self.copy_part(source, target, piece);
            done += piece;
        }
    }

    /// How far the first byte that differs stands from an address, among `len` bytes; none exactly where all are
    /// equal to the one given.
    pub fn all_equal(&self, at: Addr, len: u32, byte: u8) -> Option<u32>
        requires { IsHeldPart self.now at.0 len }
        ensures { result ≡ first_other self.now at.0 len byte }
    {
        self.fits();
        let mut done = 0;
        while done < len {
            let here = Addr(at.0 + u64::from(done));
            let piece = piece_len(here, len - done);
            if let Some(offset) = first_other_in(self.part(here, piece), byte) {
                return Some(done + offset as u32);
            }
            done += piece;
        }
        None
    }
}

/// Where the first byte stands that isn't the one given.
fn first_other_in(bytes: &[u8], byte: u8) -> Option<usize>
    ensures value { result ≡ position_from (λ other. not (other == byte)) 0 bytes.now }
    ensures within { IfSome result (λ offset. offset < length bytes.now) }
{
    if are_all(bytes, byte) {
        return None;
    }
    bytes.iter().position(|other| *other != byte)
}

// Whether all bytes are the one given. No byte ends the loop, so many are compared at once.
fn are_all(bytes: &[u8], byte: u8) -> bool
    ensures { result ≡ fold (λ equal other. equal && (other == byte)) true bytes.now }
{
    bytes
        .iter()
        .fold(true, |equal, other| equal & (*other == byte))
}

/// How many of `len` bytes from an address of the arena on are on its page.
fn piece_len(at: Addr, len: u32) -> u32
    requires arena { first_address ≤ at.0 }
    requires some { 0 < len }
    ensures some { 0 < result }
    ensures within { result ≤ len }
    ensures one_page { offset_at at.0 + result ≤ page_size }
{
    let offset = (at.0 - FIRST_ADDRESS) % u64::from(PAGE_SIZE);
    len.min(PAGE_SIZE - offset as u32)
}
