/// Why an allocation was answered with null.
#[derive(Clone, Copy, Debug, PartialEq, Eq)]
pub enum Why {
    /// The product of count and size is above 2^64 - 1.
    Overflow,
    /// The pages of the block and its guard are more than a zone has.
    TooLarge,
    /// No zone had a run of clear pages of that length.
    NoRun,
}

/// Why an address may not be read or written.
#[derive(Clone, Copy, Debug, PartialEq, Eq)]
pub enum Segv {
    /// A guard page, behind a block of pages.
    Guard,
    /// A page that is kept from being touched: of blocks of size 0, or a free one under unmap.
    Protected,
    /// A page of no pool.
    Unmapped,
}

/// A misuse that was caught, or a null that ends the script. A fault ends one script.
#[derive(Clone, Copy, Debug, PartialEq, Eq)]
pub enum Fault {
    /// The place is delayed already.
    DoubleFree,
    /// The place is neither live nor delayed.
    AlreadyFree,
    /// The address is inside a page block, on a guard or on a free page, or on no page of any pool.
    Bogus,
    /// The address isn't the first byte of a place.
    ModifiedPointer,
    /// The least offset at which a canary byte was changed.
    Canary { offset: u64 },
    /// A delayed place, and the least offset at which it was written.
    WriteAfterFree { addr: u64, offset: u64 },
    /// A null, where the options make a fault of it.
    OutOfMemory(Why),
    /// A read or write where none is allowed.
    Segmentation(Segv),
}

/// What a pool answers. `Miss` says that the address isn't this pool's.
#[derive(Clone, Copy, Debug, PartialEq, Eq)]
pub enum Reply {
    /// The address of the block's first byte.
    Block(u64),
    Null(Why),
    /// The call did what was asked, and has nothing to show.
    Done,
    /// The byte that was read.
    Byte(u8),
    Miss,
    Fault(Fault),
}

/// What became of a command of a script.
#[derive(Clone, Copy, Debug, PartialEq, Eq)]
pub enum Outcome {
    /// The address of the block's first byte.
    Block(u64),
    Null(Why),
    Done,
    /// The byte that was read.
    Byte(u8),
    /// The value that a variable was given.
    Value(u64),
    /// The cell had nothing to take.
    Empty,
    /// The next commands belong to the next phase.
    Phase,
    /// The fault that ended the script.
    Fault(Fault),
}
