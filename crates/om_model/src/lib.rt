//! The data of a run: operations, replies, the journal of a pool, the transcript of a script. The
//! definitions of what a lawful run is stand in `specs/`, and contracts cite them.
#![tactic(auto)]

mod block;
mod board;
mod content;
mod drawn;
mod entry;
mod journal;
mod laws;
mod looks;
mod operation;
mod ranges;
mod reply;
pub mod slow;
pub mod text;
mod transcript;

pub use block::{Block, Place};
pub use board::{Board, BoardEntry, CELL_COUNT};
pub use content::{Head, Told};
pub use drawn::Drawn;
pub use entry::{Asked, CallEntry, Entry, Move, ZoneMove};
pub use journal::Journal;
pub use laws::{blocks_are_apart, blocks_are_freed_once, steps_keep_well_formed};
pub use looks::{Look, LookList, Named};
pub use operation::{Call, Op, Who};
pub use reply::{Fault, Outcome, Reply, Segv, Why};
pub use transcript::{Transcript, TranscriptList};
