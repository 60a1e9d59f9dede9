//! Frames of the bytes of a page, and shelves that hold them and lend their bytes. Only `Frame::zeroed` and
//! `Shelf::new` take memory.
#![tactic(auto)]

mod block;
mod bundle;
mod frame;
mod ranges;
mod shelf;

pub use bundle::Bundle;
pub use frame::Frame;
pub use shelf::Shelf;

#[cfg(test)]
mod tests;
