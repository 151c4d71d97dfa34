//! Walks that are counted: callers that need no proof of their own.
ghost use Rattle.std.specs.Prelude.{◌≡◌, length};
ghost use Rattle.vortex_buffer.specs.Bits.{count};
ghost use Rattle.vortex_buffer.specs.Runs.{runs};
ghost use Rattle.vortex_buffer.specs.View.{bits_of};

use std::alloc::Allocator;
use vortex_buffer::{BitBuffer, BitBufferView};

/// How many indices a walk over the true bits of a view gives.
pub fn count_places(view: BitBufferView<'_>) -> usize
    ensures { result ≡ count (bits_of view.entry) }
{
    view.set_indices().count()
}

/// How many runs a walk over the true bits of a view gives.
pub fn count_runs(view: BitBufferView<'_>) -> usize
    ensures { result ≡ length (runs (bits_of view.entry)) }
{
    view.set_slices().count()
}

/// How many indices a walk over the true bits of a set gives.
pub fn count_set_places<A: Allocator + Clone>(set: &BitBuffer<A>) -> usize
    ensures { result ≡ count set.now.bits }
{
    set.set_indices().count()
}

/// How many runs a walk over the true bits of a set gives.
pub fn count_set_runs<A: Allocator + Clone>(set: &BitBuffer<A>) -> usize
    ensures { result ≡ length (runs set.now.bits) }
{
    set.set_slices().count()
}
