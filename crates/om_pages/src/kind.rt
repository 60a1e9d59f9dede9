ghost use Rattle.std.specs.Prelude.{◌≡◌};
ghost use Rattle.om_pages.specs.Kinds.{is_free};

use om_geom::{Class, Page};

/// What a page is to a pool.
#[derive(Clone, Copy, Debug, PartialEq, Eq)]
pub enum PageKind {
    /// The pool doesn't hold the page.
    Absent,
    /// It is held, and nothing lies on it.
    Free,
    /// It has the places of one size class.
    Chunk(Class),
    /// It is one of a block's data pages: `first` is where they begin, and `pages` how many they are.
    Block { first: Page, pages: u32 },
    /// It is the guard behind the data pages of the block that begins at `first`.
    Guard { first: Page },
}

impl PageKind {
    /// Whether the page is held and nothing lies on it.
    pub(crate) fn is_free(self) -> bool
        ensures { result ≡ is_free self }
    {
        matches!(self, PageKind::Free)
    }
}
