/// How many cells a board has.
pub const CELL_COUNT: usize = 64;

/// An entry of the board: a number put into a cell, a number taken out of one, or the beginning of a
/// phase.
#[derive(Clone, Copy, Debug, PartialEq, Eq)]
pub enum BoardEntry {
    Post {
        caller: u32,
        command: u32,
        cell: u32,
        value: u64,
    },
    Take {
        caller: u32,
        command: u32,
        cell: u32,
        value: Option<u64>,
    },
    Phase(u32),
}

/// The board on which scripts hand numbers to each other: its cells, and what was done to them.
#[derive(Drop)]
pub struct Board {
    cells: [Option<u64>; CELL_COUNT],
    entries: Vec<BoardEntry>,
}
