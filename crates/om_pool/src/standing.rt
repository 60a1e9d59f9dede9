//! What stands at an address.
ghost use Rattle.std.specs.Prelude.{◌≡◌, ◌*◌, ◌<◌, ◌≤◌, IsSome};
ghost use Rattle.om_chunk.specs.Pages.{page_with, place_in};
ghost use Rattle.om_geom.specs.Addresses.{page_at};
ghost use Rattle.om_geom.specs.Numbers.{first_address, most_zones, zone_pages};
ghost use Rattle.om_pages.specs.Tables.{kind_of};
ghost use Rattle.om_pool.specs.ByTables.{at_block_of, at_place_of, standing_by, standing_on};
ghost use Rattle.om_pool.specs.HoldingsView.{tables_in};
ghost use Rattle.om_pool.specs.TableSteps.{IsTied};

use crate::blocks::Request;
use crate::holdings::Holdings;
use om_chunk::PlaceState;
use om_geom::{Addr, Class, Page, addr_of, page_of};
use om_model::{Block, Place};
use om_pages::PageKind;

/// What stands at an address. On a chunk page it is the first byte of a place, or another byte. A page block
/// begins at the first byte of its first page.
#[derive(Clone, Copy)]
pub(crate) enum Standing {
    NotHeld,
    FreePage,
    PageBlock { block: Block },
    InPageBlock,
    OnGuard,
    LivePlace { place: Place, block: Block },
    DelayedPlace { place: Place },
    FreePlace,
    Unaligned,
}

impl Holdings {
    /// What stands at the address.
    pub(crate) fn standing(&self, address: u64) -> Standing
        requires { IsTied self.now.zones (tables_in self.now) }
        ensures { result ≡ standing_by self.now.zones (tables_in self.now) address }
    {
        match page_of(Addr(address), self.zones) {
            Some(page) => self.standing_on(address, page),
            None => Standing::NotHeld,
        }
    }

    // The address is on the page.
    fn standing_on(&self, address: u64, page: Page) -> Standing
        requires tied { IsTied self.now.zones (tables_in self.now) }
        requires low { first_address ≤ address }
        requires page { page.0 ≡ page_at address }
        requires there { page.0 < zone_pages * most_zones }
        ensures { result
            ≡ standing_on (tables_in self.now) address (kind_of self.now.pages page.0) }
    {
        match self.pages.find(page) {
            PageKind::Absent => Standing::NotHeld,
            PageKind::Free => Standing::FreePage,
            PageKind::Chunk(class) => self.at_place(address, class),
            PageKind::Block { first, .. } => self.at_block(address, page, first),
            PageKind::Guard { .. } => Standing::OnGuard,
        }
    }

    // The address is on a chunk page of the class.
    fn at_place(&self, address: u64, class: Class) -> Standing
        requires { IsSome (page_with self.now.chunks.pages address) }
        ensures { result
            ≡ at_place_of class.0 address (place_in self.now.chunks.pages address) }
    {
        let class = class.0;
        let place = Place { address, class };
        match self.chunks.state(Addr(address)) {
            PlaceState::Live { size, site } => Standing::LivePlace {
                place,
                block: Block {
                    address,
                    size,
                    site,
                },
            },
            PlaceState::Delayed => Standing::DelayedPlace { place },
            PlaceState::Free => Standing::FreePlace,
            PlaceState::Unaligned => Standing::Unaligned,
        }
    }

    // The address is on a data page of the block that begins at the first page.
    fn at_block(&self, address: u64, page: Page, first: Page) -> Standing
        requires page { page.0 ≡ page_at address }
        requires there { page.0 < zone_pages * most_zones }
        ensures { result ≡ at_block_of self.now.blocks address first }
    {
        if page == first && addr_of(page).0 == address {
            let Request { size, site } = self.blocks.find(first);
            Standing::PageBlock {
                block: Block {
                    address,
                    size,
                    site,
                },
            }
        } else {
            Standing::InPageBlock
        }
    }
}
