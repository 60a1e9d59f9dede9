//! What was asked for the page blocks of a pool.
ghost use Rattle.std.specs.Prelude.{◌≡◌, ◌<◌, ◌≤◌, length, slice_set, IfOk};
ghost use Rattle.om_geom.specs.Numbers.{most_zones};
ghost use Rattle.om_pool.specs.Blocks.{no_requests, request_at};

use om_geom::{Page, ZONE_PAGES};
use std::alloc::{AllocError, Global};
use std::marker::Model;

/// How many bytes were asked for, and the site that asked.
#[derive(Clone, Copy)]
pub(crate) struct Request {
    pub(crate) size: u64,
    pub(crate) site: u64,
}

/// What stands at a page where no block has begun yet.
const NO_REQUEST: Request = Request { size: 0, site: 0 };

/// What was asked for the block that begins at a page. What stands at other pages means nothing.
#[derive(Drop)]
pub(crate) struct BlockTable {
    // One for each page of the arena, by the page's number.
    requests: Vec<Request>,
}

impl Model for BlockTable {
    ghost use Rattle.std.specs.Prelude.{List};
    ghost use Rattle.om_pool.specs.declared.blocks.Request.{Request};

    ghost Value = { List Request };

    ghost view = { λ t. t.requests.items };
}

impl BlockTable {
    /// A table for the pages of an arena of this many zones. No block has begun yet.
    pub(crate) fn new(alloc: Global, zones: u32) -> Result<BlockTable, AllocError>
        requires few_zones { zones ≤ most_zones }
        ensures { IfOk result (λ table. table ≡ no_requests zones) }
    {
        let count = ZONE_PAGES * zones;
        let requests = vec![in alloc; NO_REQUEST; count as usize]?;
        Ok(BlockTable { requests })
    }

    /// What was asked for the block that begins at the page.
    pub(crate) fn find(&self, first: Page) -> Request
        ensures { result ≡ request_at self.now first.0 }
    {
        match self.requests.get(first.0 as usize) {
            Some(request) => *request,
            None => NO_REQUEST,
        }
    }

    /// A block begins at the page.
    pub(crate) fn set(&mut self, first: Page, request: Request)
        requires { first.0 < length self.old }
        ensures { self.new ≡ slice_set self.old first.0 request }
    {
        self.requests[first.0 as usize] = request;
    }
}
