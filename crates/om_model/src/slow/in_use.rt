//! What is in use in a pool: extents with kinds. They decide what a page is.
ghost use Rattle.std.specs.Prelude.{◌≡◌, ◌^◌, ◌<◌, ◌++◌, map, IfOk, OnOk};
ghost use Rattle.std.specs.List.{flat_map, list_any};
ghost use Rattle.std.specs.Option.{option_map};
ghost use Rattle.om_geom.specs.Addresses.{address_of, page_at};
ghost use Rattle.om_geom.specs.Classes.{stride_of};
ghost use Rattle.om_model.specs.Output.Head.{rules_of};
ghost use Rattle.om_model.specs.Pool.InUse.{Pages, use_of_place, data_of, uses_of_pages, uses_of_block, uses, touches, page_kind, is_free_page, free_pages, begins_at};
ghost use Rattle.om_model.specs.Slow.{kind_in};

use super::rules::size_class;
use super::state::State;
use crate::block::{Block, Place};
use crate::content::Head;
use om_geom::{FIRST_ADDRESS, PAGE_SIZE, pages_of};
use std::alloc::{AllocError, Global};
use std::marker::Model;

/// What an extent is used for: a chunk of a class, the data pages of a block, or the guard behind them.
#[derive(Clone, Copy)]
pub enum Kind {
    Chunk(u32),
    Pages,
    Guard,
}

/// So many bytes from the first on.
#[derive(Drop)]
pub struct Use {
    pub(super) first: u128,
    pub(super) len: u128,
    kind: Kind,
}

impl Model for Use {
    ghost use Rattle.std.specs.Prelude.{◌^◌, ◌<◌};
    ghost use Rattle.om_model.specs.Pool.InUse;
    ghost use Rattle.om_model.specs.Slow.{kind_in};

    ghost Value = { InUse.Use };

    ghost view = { λ u. record {
      extent = record { first = u.first; len = u.len };
      kind = kind_in u.kind;
    } };

    ghost invariant = { λ u. (u.first < 2 ^ 66) × (u.len < 2 ^ 66) };
}

/// The bytes from one place of a class to the next.
pub(super) fn stride_of(class: u32) -> u32
    ensures { result ≡ stride_of class }
{
    if class == 0 { 16 } else { class }
}

/// A place in use.
pub(super) fn use_of_place(place: Place) -> Use
    ensures { result ≡ use_of_place place }
{
    Use {
        first: u128::from(place.address),
        len: u128::from(stride_of(place.class)),
        kind: Kind::Chunk(place.class),
    }
}

/// The data pages of a block.
pub(super) fn data_of(block: Block) -> Use
    ensures { result ≡ record { extent = data_of block; kind = Pages } }
{
    Use {
        first: u128::from(block.address),
        len: u128::from(PAGE_SIZE) * u128::from(pages_of(block.size)),
        kind: Kind::Pages,
    }
}

// The data pages, and where guards are on the guard behind them.
fn push_pages(used: &mut Vec<Use>, head: &Head, pool: u32, block: Block) -> Result<(), AllocError>
    ensures { OnOk result (used.new.items ≡ used.old.items ++
        uses_of_pages (rules_of head.now pool) block) }
{
    let data = data_of(block);
    let behind = data.first + data.len;
    used.push(data)?;
    if head.opts.guard {
        used.push(Use {
            first: behind,
            len: u128::from(PAGE_SIZE),
            kind: Kind::Guard,
        })?;
    }
    Ok(())
}

fn push_block(used: &mut Vec<Use>, head: &Head, pool: u32, block: Block) -> Result<(), AllocError>
    ensures { OnOk result (used.new.items ≡ used.old.items ++
        uses_of_block (rules_of head.now pool) block) }
{
    match size_class(head, block.size) {
        Some(class) => {
            let address = block.address;
            used.push(use_of_place(Place { address, class }))?;
            Ok(())
        }
        None => push_pages(used, head, pool, block),
    }
}

fn push_live(used: &mut Vec<Use>, head: &Head, pool: u32, live: &[Block]) -> Result<(), AllocError>
    ensures { OnOk result (used.new.items ≡ used.old.items ++
        flat_map (uses_of_block (rules_of head.now pool)) live.now) }
{
    for block in live {
        push_block(used, head, pool, *block)?;
    }
    Ok(())
}

fn push_delayed(used: &mut Vec<Use>, places: &[Place]) -> Result<(), AllocError>
    ensures { OnOk result (used.new.items ≡ used.old.items ++ map use_of_place places.now) }
{
    for place in places {
        used.push(use_of_place(*place))?;
    }
    Ok(())
}

/// What is in use.
pub fn uses(head: &Head, pool: u32, state: &State) -> Result<Vec<Use>, AllocError>
    ensures { IfOk result (λ used. used.items ≡ uses (rules_of head.now pool) state.now) }
{
    let mut used = Vec::new(state.alloc);
    push_live(&mut used, head, pool, &state.live)?;
    push_delayed(&mut used, &state.delayed()?)?;
    Ok(used)
}

/// The address of the first byte of a page.
pub(super) fn address_of(page: u32) -> u64
    ensures { result ≡ address_of page }
{
    first_byte(u64::from(page)) as u64
}

/// The same for pages with greater numbers.
pub(super) fn first_byte(page: u64) -> u128
    ensures { result ≡ address_of page }
{
    u128::from(FIRST_ADDRESS) + u128::from(PAGE_SIZE) * u128::from(page)
}

/// The page of the arena on which a byte lies.
pub(super) fn page_of(byte: u128) -> u64
    requires { byte < 2 ^ 70 }
    ensures { result ≡ page_at byte }
{
    (byte.saturating_sub(u128::from(FIRST_ADDRESS)) / u128::from(PAGE_SIZE)) as u64
}

/// Whether some byte of the page is in use so.
pub(super) fn touches(page: u64, one: &Use) -> bool
    ensures { result ≡ touches page one.now }
{
    let start = first_byte(page);
    let end = start + u128::from(PAGE_SIZE);
    start.max(one.first) < end.min(one.first + one.len)
}

/// What a held page is; none for a free page.
pub fn page_kind(used: &[Use], page: u64) -> Option<Kind>
    ensures { option_map kind_in result ≡ page_kind used.now page }
{
    used.iter().find(|one| touches(page, one)).map(kind_of)
}

fn is_touched(used: &[Use], page: u64) -> bool
    ensures { result ≡ list_any (touches page) used.now }
{
    used.iter().any(|one| touches(page, one))
}

/// Whether nothing in use touches the page.
pub fn is_free_page(used: &[Use], page: u64) -> bool
    ensures { result ≡ is_free_page used.now page }
{
    !is_touched(used, page)
}

/// The held pages that nothing in use touches.
pub fn free_pages(alloc: Global, used: &[Use], held: &[u32]) -> Result<Vec<u32>, AllocError>
    ensures { IfOk result (λ pages. pages.items ≡ free_pages used.now held.now) }
{
    held.iter()
        .copied()
        .filter(|page| is_free_page(used, u64::from(*page)))
        .collect(alloc)
}

/// Whether something in use begins at the address.
pub fn is_begun(used: &[Use], address: u64) -> bool
    ensures { result ≡ list_any (begins_at address) used.now }
{
    used.iter().any(|one| begins_at(address, one))
}

fn begins_at(address: u64, one: &Use) -> bool
    ensures { result ≡ begins_at address one.now }
{
    one.first == u128::from(address)
}

/// What it is used for.
pub(super) fn kind_of(one: &Use) -> Kind
    ensures { kind_in result ≡ one.now.kind }
{
    one.kind
}
