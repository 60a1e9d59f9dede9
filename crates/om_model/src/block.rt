/// A live block: what was handed out and hasn't come back. The size is the one that was asked.
#[derive(Clone, Copy, Debug, PartialEq, Eq)]
pub struct Block {
    pub address: u64,
    pub size: u64,
    pub site: u64,
}

/// A place of a chunk page: its first byte, and the page's class.
#[derive(Clone, Copy, Debug, PartialEq, Eq)]
pub struct Place {
    pub address: u64,
    pub class: u32,
}
