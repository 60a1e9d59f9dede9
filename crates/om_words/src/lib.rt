//! The words that a pool draws: those of a list again and again, or ChaCha8's under a key of a seed and
//! the pool's number.
#![tactic(auto)]

mod draw;
mod list;
mod plan;

pub use draw::{NoWords, Words};
pub use list::WordList;
pub use plan::WordPlan;
