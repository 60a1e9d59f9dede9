//! The allocator of one pool.
#![tactic(auto)]

mod access;
mod blocks;
mod calloc;
mod calls;
mod canaries;
mod free;
mod holdings;
mod in_place;
mod junk;
mod leaving;
mod malloc;
mod moving;
mod placing;
mod pool_core;
mod realloc;
mod resizing;
mod slots;
mod standing;

pub use calls::{NoPool, Pool};

#[cfg(test)]
mod tests;
