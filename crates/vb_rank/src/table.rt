//! The table of counts of a list of bits.
ghost use Rattle.std.specs.Prelude.{◌≡◌, length, IfOk, IsOkUnless};
ghost use Rattle.vb_bits.specs.Bits.{bits};
ghost use Rattle.vb_bits.specs.InBytes.{InBytes};
ghost use Rattle.vb_bits.specs.Fills.{Fills};
ghost use Rattle.vb_rank.specs.Tables.{block_counts, blocks};
ghost use Rattle.vb_view.specs.View.{bits_of};

use crate::size::BLOCK_BITS;
use std::alloc::Allocator;
use vb_core::{BufferError, Result};
use vb_count::count_ones;
use vb_view::BitBufferView;

/// Returns a table with one entry for each block of 512 bits: the number of set bits before the
/// block.
///
/// Allocates once, `bits.len().div_ceil(512)` items of a `usize`, and not at all for no bits.
/// Returns `OutOfMemory` if that fails, and no other error. Counts the bits of the blocks once.
pub fn table_of<A: Allocator>(alloc: A, bits: BitBufferView<'_>) -> Result<Vec<usize, A>>
    ensures table { IfOk result (λ t. t.items ≡ block_counts (bits_of bits.entry)) }
    ensures size { IfOk result (λ t. length t.items ≡ blocks (length (bits_of bits.entry))) }
    ensures refused { IsOkUnless result BufferError.OutOfMemory }
{
    let mut table = Vec::from_elem(alloc, 0, bits.len().div_ceil(BLOCK_BITS))?;
    write_block_counts(
        bits.inner(),
        bits.offset(),
        bits.len(),
        table.as_mut_slice(),
    );
    Ok(table)
}

/// Writes the number of set bits before each block of 512 bits of the window to the front of
/// `table`, one item for each block, up to the length of `table`. Returns the number of items
/// written; the items after them are unchanged. The window is the `len` bits from bit `offset` on.
///
/// The window must be in the bytes, and `offset + len` must fit in a `usize`. Counts the bits of
/// the blocks once, and does not allocate.
pub fn write_block_counts(bytes: &[u8], offset: usize, len: usize, table: &mut [usize]) -> usize
    requires window { InBytes bytes.now offset len }
    ensures fills { Fills (block_counts (bits bytes.now offset len)) table.old table.new result }
    ensures whole { length table.old ≡ blocks len
        → table.new ≡ block_counts (bits bytes.now offset len) }
{
    let written = len.div_ceil(BLOCK_BITS).min(table.len());
    let mut before = 0;
    for block in 0..written {
        table[block] = before;
        let start = BLOCK_BITS * block;
        before += count_ones(bytes, offset + start, (len - start).min(BLOCK_BITS));
    }
    written
}
