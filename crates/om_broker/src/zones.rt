//! The zones of an arena that one broker has to itself.
ghost use Rattle.std.specs.Prelude.{◌≡◌, ℕ, ◌+◌, ◌-◌, ◌^◌, ◌<◌, ◌≤◌, true, false, [], length, Some, None, IfOk, IfErr, IfSome, IfNone, replicate, slice_index, slice_set};
ghost use Rattle.om_geom.specs.Fit.{has_bit, is_clear_run};
ghost use Rattle.om_geom.specs.Numbers.{zone_pages, most_zones};
ghost use Rattle.om_broker.specs.Zones.{ZoneTable, ArePassed, AreFree, ClaimGives, HasHeld, IsClaimed, IsFoundIn, IsReleased, is_bit_held, version_of};

use om_geom::{ZONE_PAGES, clear_run, fit, set_run};
use om_model::{Look, LookList, Move};
use std::alloc::{AllocError, Global};
use std::marker::Model;

/// A zone has 32 pages, a bit for each, and a version that counts its moves.
#[derive(Drop)]
pub(crate) struct Zones {
    bits: Vec<u32>,
    versions: Vec<u32>,
}

/// A free page of a zone from which enough others are free.
#[derive(Clone, Copy)]
struct Found {
    zone: u32,
    first: u32,
}

impl Model for Zones {
    ghost use Rattle.std.specs.Prelude.{◌≡◌, ◌≤◌, vec_len};
    ghost use Rattle.om_geom.specs.Numbers.{most_zones};
    ghost use Rattle.om_broker.specs.Zones.{ZoneTable};

    ghost Value = { ZoneTable };

    ghost view = { λ z. record { bits = z.bits.items; versions = z.versions.items } };

    ghost invariant = { λ z. (vec_len z.bits ≡ vec_len z.versions)
        × (1 ≤ vec_len z.bits) × (vec_len z.bits ≤ most_zones) };
}

impl Zones {
    /// All pages free, and no moves yet.
    pub(crate) fn new(alloc: Global, zones: u32) -> Result<Zones, AllocError>
        requires some { 1 ≤ zones }
        requires few { zones ≤ most_zones }
        ensures bits { IfOk result (λ table. table.bits ≡ replicate zones 0) }
        ensures versions { IfOk result (λ table. table.versions ≡ replicate zones 0) }
    {
        let bits = vec![in alloc; 0; zones as usize]?;
        let versions = vec![in alloc; 0; zones as usize]?;
        Ok(Zones { bits, versions })
    }

    /// Takes `n` neighbouring pages of one zone, by a word: its upper bits name the zone where the
    /// search begins, its lowest five the first page that is tried. `looks` gets a look at each
    /// zone that was passed over. None where no zone has such pages. Takes no memory.
    pub(crate) fn claim(&mut self, n: u32, word: u32, looks: &mut LookList) -> Option<Move>
        requires some { 1 ≤ n }
        requires few { n ≤ zone_pages }
        requires none_yet { looks.old.items ≡ [] }
        requires room { length self.old.bits ≤ looks.old.spare }
        requires versions { (zone : ℕ) → version_of self.old zone < 2 ^ 32 - 1 }
        ensures passed { ArePassed self.old n word looks.new.items }
        ensures claim { ClaimGives self.old self.new n word (length looks.new.items) result }
        ensures spare { looks.old.spare ≤ looks.new.spare + length looks.new.items }
    {
        let found = self.search(n, word, looks)?;
        Some(self.take(found.zone, found.first, n))
    }

    /// Takes `n` pages of the zone, from the first on. The error is a look at a zone where a page
    /// of them is held.
    pub(crate) fn claim_at(&mut self, zone: u32, first: u32, n: u32) -> Result<Move, Look>
        requires some { 1 ≤ n }
        requires within { first + n ≤ zone_pages }
        requires zone { zone < length self.old.bits }
        requires version { version_of self.old zone < 2 ^ 32 - 1 }
        ensures free { IfOk result (λ _. AreFree self.old zone first n) }
        ensures claimed { IfOk result (IsClaimed self.old self.new zone first n) }
        ensures held { IfErr result (λ _. HasHeld (is_bit_held self.old zone) first n) }
        ensures look { IfErr result (λ look.
            look ≡ record { zone = zone; version = version_of self.old zone }) }
        ensures stays { IfErr result (λ _. self.new ≡ self.old) }
    {
        if !is_free(self.bits[zone as usize], first, n) {
            let version = self.versions[zone as usize];
            return Err(Look { zone, version });
        }
        Ok(self.take(zone, first, n))
    }

    /// Gives up `n` pages of the zone, from the first on.
    pub(crate) fn release(&mut self, zone: u32, first: u32, n: u32) -> Move
        requires some { 1 ≤ n }
        requires within { first + n ≤ zone_pages }
        requires zone { zone < length self.old.bits }
        requires version { version_of self.old zone < 2 ^ 32 - 1 }
        ensures { IsReleased self.old self.new zone first n result }
    {
        let bits = clear_run(self.bits[zone as usize], first, n);
        self.put(bits, zone, first, n)
    }

    fn search(&self, n: u32, word: u32, looks: &mut LookList) -> Option<Found>
        requires some { 1 ≤ n }
        requires few { n ≤ zone_pages }
        requires none_yet { looks.old.items ≡ [] }
        requires room { length self.now.bits ≤ looks.old.spare }
        ensures passed { ArePassed self.now n word looks.new.items }
        ensures none { IfNone result (length looks.new.items ≡ length self.now.bits) }
        ensures found { IfSome result (λ found.
            IsFoundIn self.now n word (length looks.new.items) found.zone found.first) }
        ensures spare { looks.old.spare ≤ looks.new.spare + length looks.new.items }
    {
        let zones = self.bits.len() as u32;
        for i in 0..zones {
            let zone = (word / ZONE_PAGES + i) % zones;
            if let Some(first) = fit(self.bits[zone as usize], n, word % ZONE_PAGES) {
                return Some(Found { zone, first });
            }
            let version = self.versions[zone as usize];
            looks.push(Look { zone, version });
        }
        None
    }

    fn take(&mut self, zone: u32, first: u32, n: u32) -> Move
        requires some { 1 ≤ n }
        requires within { first + n ≤ zone_pages }
        requires zone { zone < length self.old.bits }
        requires version { version_of self.old zone < 2 ^ 32 - 1 }
        ensures { IsClaimed self.old self.new zone first n result }
    {
        let bits = set_run(self.bits[zone as usize], first, n);
        self.put(bits, zone, first, n)
    }

    // Writes the bits of the zone, and counts the move.
    fn put(&mut self, bits: u32, zone: u32, first: u32, count: u32) -> Move
        requires zone { zone < length self.old.bits }
        requires version { version_of self.old zone < 2 ^ 32 - 1 }
        ensures made { result
            ≡ record {
              zone = zone;
              version = version_of self.old zone + 1;
              first = first;
              count = count;
            } }
        ensures bits { self.new.bits ≡ slice_set self.old.bits zone bits }
        ensures versions { self.new.versions
            ≡ slice_set self.old.versions zone (version_of self.old zone + 1) }
    {
        let version = self.versions[zone as usize] + 1;
        self.bits[zone as usize] = bits;
        self.versions[zone as usize] = version;
        Move {
            zone,
            version,
            first,
            count,
        }
    }

    /// How many zones there are.
    #[cfg(test)]
    pub(crate) fn len(&self) -> u32
        ensures { result ≡ length self.now.bits }
    {
        self.bits.len() as u32
    }
}

/// Whether none of the `n` bits from the first on is set.
fn is_free(bits: u32, first: u32, n: u32) -> bool
    requires some { 1 ≤ n }
    requires within { first + n ≤ zone_pages }
    ensures free { result ≡ true
        → ((bit : ℕ) → first ≤ bit → bit < first + n → has_bit bits bit ≡ false) }
    ensures held { result ≡ false → HasHeld (has_bit bits) first n }
{
    clear_run(bits, first, n) == bits
}
