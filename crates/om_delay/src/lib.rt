//! The slots of a pool, in which freed places are delayed, and the search for bytes of theirs that
//! were changed. No call takes memory.
#![tactic(auto)]

mod check;
mod slots;
#[cfg(test)]
mod tests;

pub use check::{Changed, FREED_BYTE};
pub use slots::{SLOT_COUNT, Slots};
