//! Addresses, size classes and the choice of a run of bits. Nothing here takes memory.
#![tactic(auto)]

mod address;
mod class;
mod runs;

pub use address::{
    Addr, Extent, FIRST_ADDRESS, MOST_ZONES, PAGE_SIZE, Page, ZONE_PAGES, Zone, addr_of, page_of,
};
pub use class::{Class, LARGEST_CLASS, class_of, is_class, pages_of, places, stride};
pub use runs::{clear_run, fit, set_run};
