//! Home: the frames of the pages that nobody holds. A frame is moved, and never copied.
ghost use Rattle.std.specs.Prelude.{◌≡◌, ◌*◌, ◌<◌, ◌≤◌, false, All, IfOk, drop, length, take};
ghost use Rattle.om_broker.specs.Claims.{AreZeros, first_page};
ghost use Rattle.om_frame.specs.Frames.{with_frames, zero_frames};
ghost use Rattle.om_frame.specs.Memory.{is_held, no_pages};
ghost use Rattle.om_geom.specs.Numbers.{zone_pages, most_zones};

use om_frame::{Bundle, Frame, Shelf};
use om_geom::{Page, ZONE_PAGES};
use std::alloc::{AllocError, Global};

/// A frame for each page of an arena of this many zones, as zeros.
pub(crate) fn all_frames(alloc: Global, zones: u32) -> Result<Shelf, AllocError>
    requires some { 1 ≤ zones }
    requires few { zones ≤ most_zones }
    ensures { IfOk result (λ home.
        home ≡ with_frames (no_pages zones) (zero_frames 0 (zone_pages * zones))) }
{
    let mut home = Shelf::new(alloc, zones)?;
    for zone in 0..zones {
        home.add(zone_frames(alloc, zone)?);
    }
    Ok(home)
}

fn zone_frames(alloc: Global, zone: u32) -> Result<Bundle, AllocError>
    requires { zone < most_zones }
    ensures { IfOk result (λ bundle. bundle ≡ zero_frames (zone_pages * zone) zone_pages) }
{
    let mut bundle = Bundle::empty();
    for i in 0..ZONE_PAGES {
        bundle.push(Frame::zeroed(alloc, Page(ZONE_PAGES * zone + i))?);
    }
    Ok(bundle)
}

/// Moves the frames home, and gives the page of the first.
pub(crate) fn take_home(home: &mut Shelf, frames: Bundle) -> Page
    requires zeros { AreZeros frames }
    requires there { All (λ frame. frame.page < length home.old) frames }
    requires new { All (λ frame. is_held home.old frame.page ≡ false) frames }
    ensures page { result.0 ≡ first_page frames }
    ensures home { home.new ≡ with_frames home.old frames }
{
    let mut others = frames;
    let (page, first) = split_first(&mut others);
    home.add(first);
    home.add(others);
    page
}

// The first frame, alone in its bundle, and its page.
fn split_first(frames: &mut Bundle) -> (Page, Bundle)
    ensures page { result.0.0 ≡ first_page frames.old }
    ensures first { result.1 ≡ take 1 frames.old }
    ensures others { frames.new ≡ drop 1 frames.old }
{
    let mut first = Bundle::empty();
    match frames.take_first() {
        Some(frame) => {
            let page = frame.page();
            first.push(frame);
            (page, first)
        }
        None => (Page(0), first),
    }
}
