ghost use Rattle.std.specs.Prelude.{◌≡◌, is_some};
ghost use Rattle.om_chunk.specs.Pages.{page_in, page_with, place_in};
ghost use Rattle.om_chunk.specs.Picks.{has_free_place};

use super::*;
use om_geom::class_of;
use std::process::Abort;
use std::test::Fail;

// A call. A class is given by a size that it holds.
#[derive(Clone, Copy, Debug)]
enum Call {
    Add(Page, u64),
    Pick(u64, u32, u32),
    PickOn(Page, u32),
    State(Addr),
    ClassAt(Page),
    SetLive(Addr),
    SetDelayed(Addr),
    SetFree(Addr),
}

#[derive(Clone, Copy, Debug, PartialEq, Eq)]
enum Answer {
    Done,
    NonePicked,
    Picked(Page, u32),
    Place(u32),
    Shows(PlaceState),
    Class(Class),
    // Whether it was the page's last live or delayed place.
    Last(bool),
    // The call's conditions don't hold.
    NotAllowed,
}

impl ChunkPages {
    fn has_page(&self, page: Page) -> bool
        ensures { result ≡ is_some (page_in self.now.pages page.0) }
    {
        self.page(page.0 as usize).is_some()
    }

    fn has_free_on(&self, page: Page) -> bool
        ensures { result ≡ has_free_place (page_in self.now.pages page.0) }
    {
        match self.page(page.0 as usize) {
            Some(there) => there.has_free(),
            None => false,
        }
    }

    fn has_page_with(&self, addr: Addr) -> bool
        ensures { result ≡ is_some (page_with self.now.pages addr.0) }
    {
        addr.0 >= FIRST_ADDRESS && self.page(page_at(addr)).is_some()
    }

    fn has_place(&self, addr: Addr) -> bool
        ensures { result ≡ is_some (place_in self.now.pages addr.0) }
    {
        if addr.0 < FIRST_ADDRESS {
            return false;
        }
        match self.page(page_at(addr)) {
            Some(page) => page.place_at(offset_of(addr)).is_some(),
            None => false,
        }
    }
}

fn add(chunks: &mut ChunkPages, page: Page, size: u64) -> Result<Answer, AllocError> {
    let class = match class_of(size, false) {
        Some(class) => class,
        None => return Ok(Answer::NotAllowed),
    };
    chunks.reserve()?;
    if chunks.has_page(page) || page.0 as usize >= chunks.pages.len() {
        return Ok(Answer::NotAllowed);
    }
    chunks.add_page(page, class);
    Ok(Answer::Done)
}

fn pick(chunks: &ChunkPages, size: u64, w1: u32, w2: u32) -> Answer {
    match class_of(size, false) {
        Some(class) => match chunks.pick(class, w1, w2) {
            Some(found) => Answer::Picked(found.page, found.place),
            None => Answer::NonePicked,
        },
        None => Answer::NotAllowed,
    }
}

fn set(chunks: &mut ChunkPages, call: Call, addr: Addr) -> Answer {
    if !chunks.has_place(addr) {
        return Answer::NotAllowed;
    }
    match call {
        Call::SetFree(_) => return Answer::Last(chunks.set_free(addr)),
        Call::SetDelayed(_) => chunks.set_delayed(addr),
        _ => chunks.set_live(addr, 9, 7),
    }
    Answer::Done
}

fn make(chunks: &mut ChunkPages, call: Call) -> Result<Answer, AllocError> {
    let seen = match call {
        Call::Add(page, size) => add(chunks, page, size)?,
        Call::Pick(size, w1, w2) => pick(chunks, size, w1, w2),
        Call::PickOn(page, w2) if chunks.has_free_on(page) => {
            Answer::Place(chunks.pick_on(page, w2))
        }
        Call::State(addr) if chunks.has_page_with(addr) => Answer::Shows(chunks.state(addr)),
        Call::ClassAt(page) if chunks.has_page(page) => Answer::Class(chunks.class_at(page)),
        Call::SetLive(addr) | Call::SetDelayed(addr) | Call::SetFree(addr) => {
            set(chunks, call, addr)
        }
        _ => Answer::NotAllowed,
    };
    Ok(seen)
}

// Makes the calls in turn, in an arena of one zone.
fn run<R: Abort>(rt: &R, alloc: Global, calls: &[(Call, Answer)]) -> Result<(), Fail> {
    let mut chunks = ChunkPages::new(alloc, 1)?;
    for (call, want) in calls {
        assert_eq!(rt; make(&mut chunks, *call)?, *want, "at {call:?}");
    }
    Ok(())
}

// The address so many bytes behind a page's first one.
fn at(page: u32, offset: u32) -> Addr {
    Addr(FIRST_ADDRESS + u64::from(PAGE_SIZE) * u64::from(page) + u64::from(offset))
}

// Pages 1, 3 and 5 have two places each, and 3 goes and comes again with 256.
#[test]
fn open_pages_in_ascending_order(rt: HostRuntime) -> Result<(), Fail> {
    let (one, three, five) = (Page(1), Page(3), Page(5));
    let calls = [
        (Call::Pick(2048, 0, 0), Answer::NonePicked),
        (Call::Add(three, 2048), Answer::Done),
        (Call::Add(five, 2048), Answer::Done),
        (Call::Add(one, 2048), Answer::Done),
        (Call::Pick(2048, 2, 3), Answer::Picked(five, 1)),
        (Call::Pick(2048, 4, 0), Answer::Picked(three, 0)),
        (Call::SetLive(at(3, 0)), Answer::Done),
        (Call::Pick(2048, 4, 0), Answer::Picked(three, 1)),
        (Call::SetLive(at(3, 2048)), Answer::Done),
        (Call::Pick(2048, 4, 0), Answer::Picked(one, 0)),
        (Call::Pick(2048, 3, 0), Answer::Picked(five, 0)),
        (Call::PickOn(one, 5), Answer::Place(1)),
        (Call::SetDelayed(at(3, 0)), Answer::Done),
        (Call::SetFree(at(3, 2048)), Answer::Last(false)),
        (Call::Pick(2048, 4, 0), Answer::Picked(three, 1)),
        (Call::SetFree(at(3, 0)), Answer::Last(true)),
        (Call::Pick(2048, 3, 0), Answer::Picked(five, 0)),
        (Call::Add(three, 9), Answer::Done),
        (Call::ClassAt(three), Answer::Class(Class(16))),
        (Call::Pick(9, 7, 300), Answer::Picked(three, 44)),
        (Call::Pick(2048, 3, 0), Answer::Picked(five, 0)),
    ];
    run(&rt, rt.alloc(), &calls)
}

// A page of class 0 has 256 places, 16 bytes apart.
#[test]
fn states_of_places(rt: HostRuntime) -> Result<(), Fail> {
    let page = Page(31);
    let live = PlaceState::Live { size: 9, site: 7 };
    let calls = [
        (Call::Add(page, 0), Answer::Done),
        (Call::Pick(0, 5, 511), Answer::Picked(page, 255)),
        (Call::SetLive(at(31, 4080)), Answer::Done),
        (Call::Pick(0, 5, 511), Answer::Picked(page, 0)),
        (Call::State(at(31, 4080)), Answer::Shows(live)),
        (
            Call::State(at(31, 4081)),
            Answer::Shows(PlaceState::Unaligned),
        ),
        (Call::State(at(31, 4064)), Answer::Shows(PlaceState::Free)),
        (Call::SetDelayed(at(31, 4080)), Answer::Done),
        (
            Call::State(at(31, 4080)),
            Answer::Shows(PlaceState::Delayed),
        ),
        (Call::SetFree(at(31, 4080)), Answer::Last(true)),
        (Call::State(at(31, 4080)), Answer::NotAllowed),
        (Call::ClassAt(page), Answer::NotAllowed),
        (Call::Pick(0, 5, 511), Answer::NonePicked),
    ];
    run(&rt, rt.alloc(), &calls)
}
