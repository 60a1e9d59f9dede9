ghost use Rattle.std.specs.Prelude.{◌≡◌, IfOk};
ghost use Rattle.om_frame.specs.Frames.{zero_frame};

use om_geom::{PAGE_SIZE, Page};
use std::alloc::{AllocError, Global};
use std::marker::Model;

/// How many bytes a page has.
const PAGE_BYTES: usize = PAGE_SIZE as usize;

/// The bytes of one page. A frame is moved and never copied.
#[derive(Drop)]
pub struct Frame {
    pub(crate) page: Page,
    pub(crate) block: Vec<u8>,
}

impl Model for Frame {
    ghost use Rattle.std.specs.Prelude.{◌≡◌, length};
    ghost use Rattle.om_geom.specs.Numbers.{page_size};
    ghost use Rattle.om_frame.specs.Frames.{PageBytes};

    ghost Value = { PageBytes };

    ghost view = { λ f. record { page = f.page.0; bytes = f.block.items } };

    ghost invariant = { λ f. length f.block.items ≡ page_size };
}

impl Frame {
    /// A page whose bytes are zeros.
    pub fn zeroed(alloc: Global, page: Page) -> Result<Frame, AllocError>
        ensures { IfOk result (λ frame. frame ≡ zero_frame page.0) }
    {
        let mut block = Vec::with_capacity(alloc, PAGE_BYTES)?;
        block.resize(PAGE_BYTES, 0)?;
        Ok(Frame { page, block })
    }

    /// The page that the bytes are of.
    pub fn page(&self) -> Page
        ensures { result.0 ≡ self.now.page }
    {
        self.page
    }

    /// Makes all bytes zeros.
    pub fn zero(&mut self)
        ensures { self.new ≡ zero_frame self.old.page }
    {
        self.block.fill(0);
    }
}
