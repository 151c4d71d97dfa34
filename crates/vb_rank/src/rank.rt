//! The number of set bits before an index, over a table.
ghost use Rattle.std.specs.Prelude.{◌≡◌, ◌+◌, ◌*◌, ◌^◌, ◌<◌, ◌≤◌, length, take};
ghost use Rattle.vb_bits.specs.Bits.{bits, count};
ghost use Rattle.vb_bits.specs.InBytes.{InBytes};
ghost use Rattle.vb_count.specs.Looks.{LooksAtMost};
ghost use Rattle.vb_rank.specs.Tables.{blocks, ProbesAtMost, IsTableOf};

use crate::count::count_in_block;
use crate::probe::Probe;
use crate::size::BLOCK_BITS;
use vb_count::Glance;

/// Returns the number of set bits among the first `i` bits of the window, which is the `len` bits
/// from bit `offset` on.
///
/// The window must be in the bytes of `src`, `offset + len` must fit in a `usize`, and `i` must be
/// at most `len`. The table must have exactly `len.div_ceil(512)` entries. The result is right if
/// entry `j` is the number of set bits among the first `512 * j` bits of the window, as in the
/// table that [`table_of`](crate::table_of) builds; with other entries it is unspecified.
///
/// A look is a read of up to 64 bytes of `src`, and a probe is the read of an entry. Whatever the
/// entries are, the call makes at most 16 looks and at most one probe.
pub fn rank_by<G: Glance, T: Probe>(
    src: &mut G,
    offset: usize,
    len: usize,
    table: &mut T,
    i: usize,
) -> usize
    requires window { InBytes (G.seen src.old).bytes offset len }
    requires size { length (T.seen table.old).entries ≡ blocks len }
    requires within { i ≤ len }
    ensures value { IsTableOf (T.seen table.old) (bits (G.seen src.old).bytes offset len)
        → result ≡ count (take i (bits (G.seen src.old).bytes offset len)) }
    ensures looks { LooksAtMost 16 (G.seen src.old) (G.seen src.new) }
    ensures probes { ProbesAtMost 1 (T.seen table.old) (T.seen table.new) }
{
    if i == 0 {
        return 0;
    }
    // The block of the last of these bits: it has an entry even if `i` is the whole length.
    let block = (i - 1) / BLOCK_BITS;
    let before = table.entry(block);
    rank_from(src, offset, block, before, i)
}

/// Returns the number of set bits among the `i` bits from bit `offset` on. `before` is the number
/// of set bits before block `block` of these bits; with another number the result is unspecified.
/// The bits must be in the bytes of `src`, `offset + i` must fit in a `usize`, and the bits must
/// end in the block or where it begins. Makes at most 16 looks.
#[inline(always)]
pub fn rank_from<G: Glance>(
    src: &mut G,
    offset: usize,
    block: usize,
    before: usize,
    i: usize,
) -> usize
    requires window { InBytes (G.seen src.old).bytes offset i }
    requires begins { BLOCK_BITS * block ≤ i }
    requires ends { i ≤ BLOCK_BITS * block + BLOCK_BITS }
    ensures value { before ≡ count (bits (G.seen src.old).bytes offset (BLOCK_BITS * block))
        → result ≡ count (bits (G.seen src.old).bytes offset i) }
    ensures looks { LooksAtMost 16 (G.seen src.old) (G.seen src.new) }
{
    let at = BLOCK_BITS * block;
    before.wrapping_add(count_in_block(src, offset + at, i - at))
}
