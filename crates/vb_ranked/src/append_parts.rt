//! The bits of a view, appended in parts.
ghost use Rattle.std.specs.Prelude.{◌≡◌, ◌+◌, ◌≤◌, length, OnOk};
ghost use Rattle.vb_set.specs.OpenSet.{AddsBits, KeepsStart, NeedsBits};
ghost use Rattle.vb_set.specs.View.{bits_of};

use std::alloc::Allocator;
use vb_set::{BitBufferMut, BitBufferView, Result};

/// The number of bits that are appended at once: [`append_view`](BitBufferMut::append_view) of at
/// most this number keeps the capacity if that is large enough.
const PART_BITS: usize = 512;

/// Does the same as [`append_view`](BitBufferMut::append_view), but reserves the capacity first. If
/// the capacity is large enough already, it does not change, for any number of bits.
pub(crate) fn append_parts<A: Allocator + Clone>(
    set: &mut BitBufferMut<A>,
    bits: BitBufferView<'_>,
) -> Result<()>
    ensures ok { OnOk result (AddsBits (bits_of bits.entry) set.old set.new) }
    ensures grows { KeepsStart set.old set.new }
    ensures stays { length set.old.bits + length (bits_of bits.entry) ≤ set.old.room
        → set.new.room ≡ set.old.room }
    ensures needs { NeedsBits (length (bits_of bits.entry)) result set.old set.new }
{
    set.reserve(bits.len())?;
    // This shows the prover that the bits are in bounds of the bytes.
    let _bytes = set.as_slice();
    for part in 0..bits.len().div_ceil(PART_BITS) {
        let start = PART_BITS * part;
        let end = start.saturating_add(PART_BITS).min(bits.len());
        set.append_view(bits.slice(start..end))?;
    }
    Ok(())
}
