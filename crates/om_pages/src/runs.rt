ghost use Rattle.std.specs.Prelude.{◌≡◌, ◌+◌, ◌*◌, ◌≤◌, ◌^◌, length};
ghost use Rattle.std.specs.List.{list_all, range_with_len};
ghost use Rattle.om_geom.specs.Numbers.{zone_pages, most_zones};
ghost use Rattle.om_pages.specs.FreeRuns.{is_free_run, lowest_run};
ghost use Rattle.om_pages.specs.Kinds.{is_free};
ghost use Rattle.om_pages.specs.Tables.{kind_of};

use crate::kind::PageKind;
use om_geom::ZONE_PAGES;

/// What a page is, by its number.
pub(crate) fn kind_of(kinds: &[PageKind], page: usize) -> PageKind
    ensures { result ≡ kind_of kinds.now page }
{
    match kinds.get(page) {
        Some(kind) => *kind,
        None => PageKind::Absent,
    }
}

/// The first page of the lowest run of `n` free pages; none where there is no such run.
pub(crate) fn lowest_run(kinds: &[PageKind], n: u32) -> Option<u32>
    requires { length kinds.now ≤ zone_pages * most_zones }
    ensures { result ≡ lowest_run kinds.now n }
{
    (0..kinds.len() as u32).find(|first| is_free_run(kinds, n, *first))
}

// Whether the `n` pages from the first on are free pages of one zone.
fn is_free_run(kinds: &[PageKind], n: u32, first: u32) -> bool
    ensures { result ≡ is_free_run kinds.now n first }
{
    if n > ZONE_PAGES - first % ZONE_PAGES {
        return false;
    }
    are_free(kinds, n as usize, first as usize)
}

fn are_free(kinds: &[PageKind], n: usize, first: usize) -> bool
    requires { first + n ≤ 2 ^ 33 }
    ensures { result ≡ list_all (λ page. is_free (kind_of kinds.now page))
        (range_with_len first n) }
{
    (first..first + n).all(|page| kind_of(kinds, page).is_free())
}
