/// Who made a call: the script's number, the number of its command from 1 on, and how many pools
/// were asked before this one.
#[derive(Clone, Copy, Debug, PartialEq, Eq)]
pub struct Who {
    pub caller: u32,
    pub command: u32,
    pub hop: u32,
}

/// What a pool is asked, as in malloc(3). Sizes are in bytes, and a site is the place in the
/// caller's program, 0 where none was given.
#[derive(Clone, Copy, Debug, PartialEq, Eq)]
pub enum Op {
    Malloc {
        size: u64,
        site: u64,
    },
    Calloc {
        count: u64,
        size: u64,
        site: u64,
    },
    Realloc {
        addr: u64,
        size: u64,
        site: u64,
    },
    Reallocarray {
        addr: u64,
        count: u64,
        size: u64,
        site: u64,
    },
    Free {
        addr: u64,
    },
    Load {
        addr: u64,
    },
    Store {
        addr: u64,
        byte: u8,
    },
}

/// A call that a script makes, by the number of its command from 1 on and the phase of this.
#[derive(Clone, Copy, Debug, PartialEq, Eq)]
pub struct Call {
    pub command: u32,
    pub phase: u32,
    pub op: Op,
}
