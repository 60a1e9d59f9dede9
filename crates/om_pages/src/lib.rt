//! What each page of an arena is to one pool, and the choice of a run of free pages. Only
//! `PageTable::new` takes memory.
#![tactic(auto)]

mod kind;
mod runs;
mod table;

pub use kind::PageKind;
pub use table::PageTable;

#[cfg(test)]
mod tests;
