ghost use Rattle.std.specs.Prelude.{◌≡◌, ◌*◌, ◌<◌, ◌≤◌, IfSome};
ghost use Rattle.std.specs.Option.{option_map};
ghost use Rattle.om_geom.specs.Addresses.{address_of, page_of, page_at};
ghost use Rattle.om_geom.specs.Numbers.{zone_pages, most_zones};

/// The bytes of a page.
pub const PAGE_SIZE: u32 = 4096;

/// The pages of a zone.
pub const ZONE_PAGES: u32 = 32;

/// The most zones that an arena has.
pub const MOST_ZONES: u32 = 64;

/// The address of the arena's first byte.
pub const FIRST_ADDRESS: u64 = 65536;

/// An address: of a byte of the arena, or any other number.
#[derive(Clone, Copy, Debug, PartialEq, Eq, PartialOrd, Ord, Hash)]
pub struct Addr(pub u64);

/// A page of the arena, counted from 0.
#[derive(Clone, Copy, Debug, PartialEq, Eq, PartialOrd, Ord, Hash)]
pub struct Page(pub u32);

/// A zone of 32 pages, counted from 0.
#[derive(Clone, Copy, Debug, PartialEq, Eq, PartialOrd, Ord, Hash)]
pub struct Zone(pub u32);

/// The bytes from the address `first` on, `len` of them.
#[derive(Clone, Copy, Debug, PartialEq, Eq, PartialOrd, Ord, Hash)]
pub struct Extent {
    pub first: u64,
    pub len: u64,
}

/// The address of the first byte of a page.
pub fn addr_of(page: Page) -> Addr
    requires { page.0 < zone_pages * most_zones }
    ensures { result.0 ≡ address_of page.0 }
{
    Addr(FIRST_ADDRESS + u64::from(PAGE_SIZE) * u64::from(page.0))
}

/// The page that an address is on, none outside the arena of this many zones.
pub fn page_of(addr: Addr, zones: u32) -> Option<Page>
    requires some_zone { 1 ≤ zones }
    requires few_zones { zones ≤ most_zones }
    ensures value { option_map (λ page. page.0) result ≡ page_of addr.0 zones }
    ensures page { IfSome result (λ page. page.0 ≡ page_at addr.0) }
    ensures within { IfSome result (λ page. page.0 < zone_pages * zones) }
{
    if addr.0 < FIRST_ADDRESS {
        return None;
    }
    let page = (addr.0 - FIRST_ADDRESS) / u64::from(PAGE_SIZE);
    if page < u64::from(ZONE_PAGES) * u64::from(zones) {
        Some(Page(page as u32))
    } else {
        None
    }
}

#[cfg(test)]
mod tests {
    use super::*;

    #[test]
    fn first_and_last_bytes(rt: HostRuntime) {
        assert_eq!(rt; addr_of(Page(0)), Addr(65_536));
        assert_eq!(rt; addr_of(Page(1)), Addr(69_632));
        assert_eq!(rt; page_of(Addr(69_631), 1), Some(Page(0)));
        assert_eq!(rt; page_of(Addr(65_535), 1), None);
        assert_eq!(rt; page_of(Addr(196_607), 1), Some(Page(31)));
        assert_eq!(rt; page_of(Addr(196_608), 1), None);
    }
}
