ghost use Rattle.std.specs.Prelude.{◌≡◌, ◌+◌, ◌<◌, ◌≤◌, IfOk};
ghost use Rattle.om_geom.specs.Numbers.{page_size};
ghost use Rattle.om_frame.specs.Memory.{offset_at, ShareNoByte, IsHeldPart};
ghost use Rattle.om_frame.specs.Frames.{zero_frames};

use super::*;
use om_geom::{Addr, Page};
use std::alloc::{AllocError, Global};
use std::marker::Send;
use std::test::Fail;

// The bytes of the pages 1 and 2.
const FIRST: u64 = 69_632;

const SECOND: u64 = 73_728;

const END: u64 = 77_824;

fn two_frames(alloc: Global) -> Result<Bundle, AllocError>
    ensures { IfOk result (λ bundle. bundle ≡ zero_frames 1 2) }
{
    let mut bundle = Bundle::empty();
    bundle.push(Frame::zeroed(alloc, Page(1))?);
    bundle.push(Frame::zeroed(alloc, Page(2))?);
    Ok(bundle)
}

fn shelf_with(alloc: Global, bundle: Bundle) -> Result<Shelf, AllocError>
    requires { bundle ≡ zero_frames 1 2 }
    ensures { IfOk result (λ shelf. IsHeldPart shelf 69632 8192) }
{
    let mut shelf = Shelf::new(alloc, 1)?;
    shelf.add(bundle);
    Ok(shelf)
}

fn read(shelf: &Shelf, at: u64) -> u8
    requires held { IsHeldPart shelf.now 69632 8192 }
    requires low { 69632 ≤ at }
    requires high { at < 77824 }
{
    shelf.part(Addr(at), 1)[0]
}

fn write(shelf: &mut Shelf, at: u64, byte: u8)
    requires held { IsHeldPart shelf.old 69632 8192 }
    requires low { 69632 ≤ at }
    requires high { at < 77824 }
    ensures { IsHeldPart shelf.new 69632 8192 }
{
    shelf.part_mut(Addr(at), 1)[0] = byte;
}

fn fill(shelf: &mut Shelf, at: u64, len: u32, byte: u8)
    requires held { IsHeldPart shelf.old 69632 8192 }
    requires low { 69632 ≤ at }
    requires high { at + len ≤ 77824 }
    ensures { IsHeldPart shelf.new 69632 8192 }
{
    shelf.fill(Addr(at), len, byte);
}

fn other(shelf: &Shelf, at: u64, len: u32, byte: u8) -> Option<u32>
    requires held { IsHeldPart shelf.now 69632 8192 }
    requires low { 69632 ≤ at }
    requires high { at + len ≤ 77824 }
{
    shelf.all_equal(Addr(at), len, byte)
}

fn two_pages(alloc: Global) -> Result<Shelf, AllocError>
    ensures { IfOk result (λ shelf. IsHeldPart shelf 69632 8192) }
{
    shelf_with(alloc, two_frames(alloc)?)
}

#[test]
fn bytes_at_the_edges_of_a_page(rt: HostRuntime) -> Result<(), Fail> {
    let mut shelf = two_pages(rt.alloc())?;
    write(&mut shelf, FIRST, 1);
    write(&mut shelf, SECOND - 1, 2);
    write(&mut shelf, SECOND, 3);
    write(&mut shelf, END - 1, 4);
    for (at, want) in [
        (FIRST, 1),
        (FIRST + 1, 0),
        (SECOND - 2, 0),
        (SECOND - 1, 2),
        (SECOND, 3),
        (SECOND + 1, 0),
        (END - 2, 0),
        (END - 1, 4),
    ] {
        assert_eq!(rt; read(&shelf, at), want, "at {at}");
    }
    Ok(())
}

#[test]
fn whole_pages_and_empty_parts(rt: HostRuntime) -> Result<(), Fail> {
    let mut shelf = two_pages(rt.alloc())?;
    assert_eq!(rt; shelf.part(Addr(FIRST), 4096).len(), 4096);
    assert_eq!(rt; shelf.part_mut(Addr(SECOND), 4096).len(), 4096);
    assert!(rt; shelf.part(Addr(0), 0).is_empty());
    assert!(rt; shelf.part_mut(Addr(u64::MAX), 0).is_empty());
    shelf.fill(Addr(u64::MAX), 0, 1);
    shelf.copy(Addr(u64::MAX), Addr(0), 0);
    shelf.copy(Addr(FIRST), Addr(FIRST), 0);
    assert_eq!(rt; shelf.all_equal(Addr(END), 0, 1), None);
    Ok(())
}

#[test]
fn ranges_across_the_end_of_a_page(rt: HostRuntime) -> Result<(), Fail> {
    let mut shelf = two_pages(rt.alloc())?;
    fill(&mut shelf, SECOND - 8, 16, 5);
    assert_eq!(rt; other(&shelf, SECOND - 8, 16, 5), None);
    assert_eq!(rt; other(&shelf, SECOND - 9, 17, 5), Some(0));
    assert_eq!(rt; other(&shelf, SECOND - 8, 17, 5), Some(16));
    assert_eq!(rt; other(&shelf, FIRST, 4096, 0), Some(4088));
    write(&mut shelf, SECOND + 2, 6);
    write(&mut shelf, SECOND + 4, 6);
    assert_eq!(rt; other(&shelf, SECOND - 8, 16, 5), Some(10));
    Ok(())
}

// Nine bytes on the first page.
fn write_row(shelf: &mut Shelf)
    requires { IsHeldPart shelf.old 69632 12288 }
    ensures { IsHeldPart shelf.new 69632 12288 }
{
    shelf
        .part_mut(Addr(FIRST + 10), 9)
        .copy_from_slice(&[1, 2, 3, 4, 5, 6, 7, 8, 9]);
}

fn copy(shelf: &mut Shelf, from: u64, to: u64, len: u32)
    requires held { IsHeldPart shelf.old 69632 12288 }
    requires low_from { 69632 ≤ from }
    requires low_to { 69632 ≤ to }
    requires high_from { from + len ≤ 81920 }
    requires high_to { to + len ≤ 81920 }
    requires apart { ShareNoByte from to len }
    ensures { IsHeldPart shelf.new 69632 12288 }
{
    shelf.copy(Addr(from), Addr(to), len);
}

fn bytes_at(shelf: &Shelf, at: u64, len: u32) -> &[u8]
    requires held { IsHeldPart shelf.now 69632 12288 }
    requires low { 69632 ≤ at }
    requires high { at + len ≤ 81920 }
    requires one_page { offset_at at + len ≤ page_size }
{
    shelf.part(Addr(at), len)
}

fn three_pages(alloc: Global) -> Result<Shelf, AllocError>
    ensures { IfOk result (λ shelf. IsHeldPart shelf 69632 12288) }
{
    let mut bundle = two_frames(alloc)?;
    bundle.push(Frame::zeroed(alloc, Page(3))?);
    let mut shelf = Shelf::new(alloc, 1)?;
    shelf.add(bundle);
    Ok(shelf)
}

#[test]
fn copies_on_a_page_and_across_page_ends(rt: HostRuntime) -> Result<(), Fail> {
    let mut shelf = three_pages(rt.alloc())?;
    write_row(&mut shelf);
    copy(&mut shelf, FIRST + 10, SECOND - 4, 9);
    copy(&mut shelf, SECOND - 4, END - 6, 9);
    copy(&mut shelf, END - 6, FIRST + 40, 9);
    copy(&mut shelf, FIRST + 40, FIRST + 36, 4);
    copy(&mut shelf, FIRST + 40, FIRST + 49, 9);
    for (at, want) in [
        (FIRST + 9, &[0, 1, 2, 3, 4, 5, 6, 7, 8, 9, 0][..]),
        (SECOND - 5, &[0, 1, 2, 3, 4]),
        (SECOND, &[5, 6, 7, 8, 9, 0]),
        (END - 7, &[0, 1, 2, 3, 4, 5, 6]),
        (END, &[7, 8, 9, 0]),
        (FIRST + 35, &[0, 1, 2, 3, 4, 1, 2, 3, 4, 5, 6, 7, 8, 9]),
        (FIRST + 49, &[1, 2, 3, 4, 5, 6, 7, 8, 9, 0]),
    ] {
        assert_eq!(rt; bytes_at(&shelf, at, want.len() as u32), want, "at {at}");
    }
    Ok(())
}

#[test]
fn frames_come_back_as_zeros(rt: HostRuntime) -> Result<(), Fail> {
    let mut shelf = two_pages(rt.alloc())?;
    fill(&mut shelf, FIRST, 8192, 7);
    let bundle = shelf.remove(Page(1), 2);
    assert_eq!(rt; bundle.len(), 2);
    let again = shelf_with(rt.alloc(), bundle)?;
    assert_eq!(rt; other(&again, FIRST, 8192, 0), None);
    Ok(())
}

#[test]
fn frames_leave_a_bundle_in_ascending_order(rt: HostRuntime) -> Result<(), Fail> {
    let mut bundle = two_frames(rt.alloc())?;
    assert_eq!(rt;
        bundle.take_first().map(|frame| frame.page()),
        Some(Page(1))
    );
    bundle.push(Frame::zeroed(rt.alloc(), Page(3))?);
    assert_eq!(rt;
        bundle.take_first().map(|frame| frame.page()),
        Some(Page(2))
    );
    assert_eq!(rt;
        bundle.take_first().map(|frame| frame.page()),
        Some(Page(3))
    );
    assert!(rt; bundle.take_first().is_none());
    assert!(rt; bundle.is_empty());
    Ok(())
}

fn moves<T: Send>(value: T) -> T
    ensures { result ≡ value }
{
    value
}

#[test]
fn shelves_and_frames_may_go_to_another_thread(rt: HostRuntime) -> Result<(), Fail> {
    let shelf = moves(two_pages(rt.alloc())?);
    let bundle = moves(two_frames(rt.alloc())?);
    assert_eq!(rt; bundle.len(), 2);
    assert_eq!(rt; read(&shelf, FIRST), 0);
    Ok(())
}
