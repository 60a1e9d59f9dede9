//! So many items of a size.
ghost use Rattle.std.specs.Prelude.{◌≡◌, IfOk};
ghost use Rattle.om_model.specs.Output.Head.{rules_of};
ghost use Rattle.om_model.specs.Pool.Product.{product, overflow};

use super::state::State;
use super::steps::{Step, null_or_fault, unchanged};
use crate::content::Head;
use crate::reply::Why;
use std::alloc::AllocError;

/// Their size in bytes; none where that has no number of 64 bits.
pub(super) fn product(count: u64, size: u64) -> Option<u64>
    ensures { result ≡ product count size }
{
    count.checked_mul(size)
}

/// The null, or the fault in its place, of a product that has no number.
pub(super) fn overflow(head: &Head, pool: u32, state: &State) -> Result<Step, AllocError>
    ensures { IfOk result (λ step. step ≡ overflow (rules_of head.now pool) state.now) }
{
    unchanged(state, null_or_fault(head, pool, Why::Overflow))
}
