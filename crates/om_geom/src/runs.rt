ghost use Rattle.std.specs.Prelude.{◌≡◌, ℕ, ◌+◌, ◌-◌, ◌^◌, ◌<◌, ◌≤◌, false, ◌&&◌, ◌||◌, not, IfSome};
ghost use Rattle.om_geom.specs.Fit.{fit_of, has_bit, is_clear_run, is_in_run};
ghost use Rattle.om_geom.specs.Numbers.{zone_pages};

use crate::address::ZONE_PAGES;

/// Of a zone's bits, one for each page, the first place of a run of `n` clear ones, in cyclic order
/// from `start`; none where there is no such run. A run doesn't go past bit 31.
pub fn fit(bits: u32, n: u32, start: u32) -> Option<u32>
    requires some_bit { 1 ≤ n }
    requires few_bits { n ≤ zone_pages }
    requires start { start < zone_pages }
    ensures value { result ≡ fit_of (has_bit bits) n start }
    ensures within { IfSome result (λ p. p + n ≤ zone_pages) }
    ensures clear { IfSome result (λ p.
        (i : ℕ) → p ≤ i → i < p + n → has_bit bits i ≡ false) }
{
    first_clear_run(bits, n, start)
}

/// The bits with those from `first` on set, `n` of them.
pub fn set_run(bits: u32, first: u32, n: u32) -> u32
    requires some_bit { 1 ≤ n }
    requires within { first + n ≤ zone_pages }
    ensures bits { (i : ℕ) → i < zone_pages →
        has_bit result i ≡ (has_bit bits i || is_in_run first n i) }
{
    bits | run_mask(first, n)
}

/// The bits with those from `first` on cleared, `n` of them.
pub fn clear_run(bits: u32, first: u32, n: u32) -> u32
    requires some_bit { 1 ≤ n }
    requires within { first + n ≤ zone_pages }
    ensures bits { (i : ℕ) → i < zone_pages
        → has_bit result i ≡ (has_bit bits i && not (is_in_run first n i)) }
{
    bits & !run_mask(first, n)
}

// The search alone, since `fit` says more of what it finds.
fn first_clear_run(bits: u32, n: u32, start: u32) -> Option<u32>
    requires few_bits { n ≤ zone_pages }
    requires start { start < zone_pages }
    ensures { result ≡ fit_of (has_bit bits) n start }
{
    (start..ZONE_PAGES)
        .chain(0..start)
        .find(|first| is_clear(bits, n, *first))
}

fn is_clear(bits: u32, n: u32, first: u32) -> bool
    requires { n ≤ zone_pages }
    ensures { result ≡ is_clear_run (has_bit bits) n first }
{
    if first > ZONE_PAGES - n {
        return false;
    }
    bits & run_mask(first, n) == 0
}

/// The number whose set bits are those of the run.
fn run_mask(first: u32, n: u32) -> u32
    requires { first + n ≤ zone_pages }
    ensures { result ≡ 2 ^ (first + n) - 2 ^ first }
{
    let above = 1u64 << (first + n);
    let below = 1u64 << first;
    (above - below) as u32
}

#[cfg(test)]
mod tests {
    use super::*;

    #[test]
    fn runs_in_cyclic_order(rt: HostRuntime) {
        assert_eq!(rt; fit(0, 1, 5), Some(5));
        assert_eq!(rt; fit(0, 2, 31), Some(0));
        assert_eq!(rt; fit(u32::MAX, 1, 0), None);
        assert_eq!(rt; fit(1, 1, 0), Some(1));
        assert_eq!(rt; fit(1, 32, 3), None);
        assert_eq!(rt; fit(0, 32, 3), Some(0));
    }

    #[test]
    fn runs_set_and_cleared(rt: HostRuntime) {
        assert_eq!(rt; set_run(1, 4, 2), 49);
        assert_eq!(rt; set_run(0, 0, 32), u32::MAX);
        assert_eq!(rt; clear_run(255, 4, 2), 207);
        assert_eq!(rt; clear_run(u32::MAX, 31, 1), 2_147_483_647);
    }
}
