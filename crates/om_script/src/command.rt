/// A command of a script. A variable is its place in the list of the script's names.
#[derive(Clone, Copy, Debug, PartialEq, Eq)]
pub enum Command {
    /// The variable becomes the block, or 0 where the answer is null.
    Malloc {
        var: u32,
        size: u64,
        site: u64,
    },
    /// Likewise for so many items of a size.
    Calloc {
        var: u32,
        count: u64,
        size: u64,
        site: u64,
    },
    /// The variable becomes the block that `from` holds, at its new size, or 0 where the answer is null.
    Realloc {
        var: u32,
        from: u32,
        size: u64,
        site: u64,
    },
    /// Likewise for so many items of a size.
    Reallocarray {
        var: u32,
        from: u32,
        count: u64,
        size: u64,
        site: u64,
    },
    /// Frees what the variable holds.
    Free {
        var: u32,
    },
    /// Reads the byte so many bytes behind what the variable holds.
    Load {
        var: u32,
        off: u64,
    },
    /// Writes a byte there.
    Store {
        var: u32,
        off: u64,
        byte: u8,
    },
    /// The variable becomes the value.
    Let {
        var: u32,
        value: u64,
    },
    /// The variable becomes what `from` holds and so much more.
    Add {
        var: u32,
        from: u32,
        off: u64,
    },
    /// The cell gets what the variable holds.
    Post {
        cell: u32,
        var: u32,
    },
    /// The variable becomes what the cell holds, or 0 where it is empty.
    Take {
        var: u32,
        cell: u32,
    },
    /// The next commands belong to the next phase.
    Phase,
}
