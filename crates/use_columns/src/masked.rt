//! The values of a column that a mask selects: their sum, minimum and maximum.
ghost use Rattle.std.specs.Prelude.{◌≡◌, ◌^◌, ◌<◌, ℕ, List, [], ◌∷◌, ◌++◌, Some, sum, length};
ghost use Rattle.use_columns.specs.Columns.{AreEnds};
ghost use Rattle.vortex_buffer.specs.Kept.{kept_by};

use std::alloc::Allocator;
use vortex_buffer::{BitBuffer, Buffer};

/// Returns the sum of the values that are valid: those whose bit is true. The column must have
/// fewer than `2^32` values.
pub fn masked_sum<A: Allocator + Clone>(values: &Buffer<u32, A>, valid: &BitBuffer<A>) -> u64
    requires same_len { length valid.now.bits ≡ length values.now.list }
    requires few { length values.now.list < 2 ^ 32 }
    ensures { result ≡ sum (kept_by valid.now.bits values.now.list) }
{
    let items = values.as_slice();
    let mut sum = 0;
    for place in valid.set_indices() {
        sum += u64::from(items[place]);
    }
    sum
}

/// Returns the least and the greatest of the valid values; `None` if there are none.
pub fn masked_min_max<A: Allocator + Clone>(
    values: &Buffer<u32, A>,
    valid: &BitBuffer<A>,
) -> Option<(u32, u32)>
    requires same_len { length valid.now.bits ≡ length values.now.list }
    ensures { AreEnds (kept_by valid.now.bits values.now.list) result }
{
    let items = values.as_slice();
    let mut ends = None;
    for place in valid.set_indices() {
        ends = Some(widened(ends, items[place]));
    }
    ends
}

/// Returns the least and the greatest of the numbers with these ends and of one more number.
fn widened(ends: Option<(u32, u32)>, value: u32) -> (u32, u32)
    ensures { (xs : List ℕ) → AreEnds xs ends → AreEnds (xs ++ value ∷ []) (Some result) }
{
    match ends {
        None => (value, value),
        Some((low, high)) => (low.min(value), high.max(value)),
    }
}
