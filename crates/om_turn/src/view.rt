//! What a pass knows.
use std::collections::LinkedList;

/// Where a pass stands: used up by a join, in no turn, with a ticket that isn't served yet, or served.
pub enum Stage {
    Spent,
    Outside,
    Waiting,
    Served,
}

/// What a pass knows. No value of it is made.
pub struct View<E> {
    /// The turns of the lock, of all passes together.
    pub share: u64,
    /// The turns that this pass has left.
    pub left: u64,
    /// The turns that were taken with it, or with passes joined into it.
    pub taken: u64,
    pub stage: Stage,
    /// The ticket that it drew last.
    pub ticket: u64,
    /// The entries that it has seen: a beginning of the history.
    pub seen: LinkedList<E>,
    /// What a pass that was just joined into it had seen.
    pub also: LinkedList<E>,
    /// The entries that it added, each with its place in the history, from 0.
    pub held: LinkedList<(u64, E)>,
    pub marks: LinkedList<u64>,
    /// How often it was split.
    pub splits: u64,
    pub chief: bool,
}
