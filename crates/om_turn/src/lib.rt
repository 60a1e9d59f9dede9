//! A value behind a ticket lock, whose history every thread that entered can prove.
#![tactic(auto)]

mod journaled;
mod lock;
mod passes;
mod plays;
mod rule;
#[cfg(test)]
mod tests;
mod turn;
mod view;

pub use journaled::Journaled;
pub use lock::{NoRoom, Pass, TurnLock};
pub use plays::Adding;
pub use turn::Held;
pub use view::{Stage, View};
