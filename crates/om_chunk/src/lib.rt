//! What each place of a pool's chunk pages has, and the choice of a free place. Only `ChunkPages::new`
//! and `ChunkPages::reserve` take memory.
#![tactic(auto)]

mod open;
mod page;
mod pages;
mod place;

pub use pages::{ChunkPages, Picked};
pub use place::PlaceState;
