//! Ranks and selects by groups, over any source of their counts.
ghost use Rattle.std.specs.Prelude.{◌≡◌, ℕ, Bool, true, false, List, ◌+◌, ◌-◌, ◌*◌, ◌/◌, ◌%◌, ◌^◌};
ghost use Rattle.std.specs.Prelude.{◌<◌, ◌≤◌, length, min, take};
ghost use Rattle.std.specs.Int.{div_ceil};
ghost use Rattle.vb_bits.specs.Bits.{bits, count, Selects};
ghost use Rattle.vb_bits.specs.InBytes.{InBytes};
ghost use Rattle.vb_directory.specs.Counts.{AreCounts, numbers_for, counts_before};
ghost use Rattle.vb_count.specs.Looks.{LooksAtMost};
ghost use Rattle.vb_count.specs.Hits.{hits};
ghost use Rattle.vb_rank.specs.Tables.{blocks, block_counts, binary_digits, BeginsBefore, Rises};
ghost use Rattle.vb_rank.specs.Tables.{ProbesExactly, ProbesAtMost};

use crate::probe_groups::{Befores, ProbeGroups, Withins};
use crate::size::{GROUP_BITS, GROUP_BLOCKS};
use vb_count::Glance;
use vb_rank::{BLOCK_BITS, find_block, rank_from, select_from};

/// Returns the number of set bits among the first `i` bits of the window, which is the `len` bits
/// from bit `offset` on. `i` must be above 0, and the counts must be those of the window.
///
/// Makes at most 16 looks at bits. Makes no probe if the window is a single block, which has no
/// bits before it; else one or two, those of `ones_before` for the block of bit `i - 1`.
pub(crate) fn rank_in_groups<G: Glance, S: ProbeGroups>(
    src: &mut G,
    offset: usize,
    len: usize,
    groups: &mut S,
    i: usize,
) -> usize
    requires window { InBytes (G.seen src.old).bytes offset len }
    requires counts { AreCounts (bits (G.seen src.old).bytes offset len)
        (S.seen groups.old).entries }
    requires some { 0 < i }
    requires within { i ≤ len }
    ensures value { result ≡ count (take i (bits (G.seen src.old).bytes offset len)) }
    ensures looks { LooksAtMost 16 (G.seen src.old) (G.seen src.new) }
    ensures single_block { len ≤ BLOCK_BITS
        → ProbesExactly 0 (S.seen groups.old) (S.seen groups.new) }
    ensures first_group { BLOCK_BITS < len → i ≤ GROUP_BITS
        → ProbesExactly 1 (S.seen groups.old) (S.seen groups.new) }
    ensures first_block { BLOCK_BITS < len → (i - 1) / BLOCK_BITS % GROUP_BLOCKS ≡ 0
        → ProbesExactly 1 (S.seen groups.old) (S.seen groups.new) }
    ensures others { GROUP_BITS < i → 0 < (i - 1) / BLOCK_BITS % GROUP_BLOCKS
        → ProbesExactly 2 (S.seen groups.old) (S.seen groups.new) }
    ensures probes { ProbesAtMost 2 (S.seen groups.old) (S.seen groups.new) }
{
    if len <= BLOCK_BITS {
        return rank_from(src, offset, 0, 0, i);
    }
    // The block of the last of these bits, as in `rank_by`.
    let block = (i - 1) / BLOCK_BITS;
    let before = ones_before(groups, len, block);
    rank_from(src, offset, block, before, i)
}

/// Returns the number of set bits before block `block` of `len` bits. Makes one probe for a block
/// of the first group, since no bits are before that group; one for the first block of a later
/// group, which has no number of its own; and two for any other block.
fn ones_before<S: ProbeGroups>(groups: &mut S, len: usize, block: usize) -> usize
    requires block { BLOCK_BITS * block < len }
    requires size { length (S.seen groups.old).entries ≡ numbers_for len }
    ensures value { (l : List Bool) → AreCounts l (S.seen groups.old).entries → length l ≡ len
        → result ≡ count (take (BLOCK_BITS * block) l) }
    ensures first_group { block < GROUP_BLOCKS
        → ProbesExactly 1 (S.seen groups.old) (S.seen groups.new) }
    ensures first_block { block % GROUP_BLOCKS ≡ 0
        → ProbesExactly 1 (S.seen groups.old) (S.seen groups.new) }
    ensures others { GROUP_BLOCKS ≤ block → 0 < block % GROUP_BLOCKS
        → ProbesExactly 2 (S.seen groups.old) (S.seen groups.new) }
    ensures probes { ProbesAtMost 2 (S.seen groups.old) (S.seen groups.new) }
{
    if block < GROUP_BLOCKS {
        return groups.within_first(block);
    }
    let (group, place) = (block / GROUP_BLOCKS, block % GROUP_BLOCKS);
    let before = groups.before(group);
    if place == 0 {
        return before;
    }
    before.wrapping_add(groups.within(group, place))
}

/// Returns the index of the `n`-th bit of the window that is `value`; `None` if there are at most
/// `n`. The window must not be empty, and the counts must be those of it. Searches the counts for
/// the block of the bit, and then the block. Makes at most 16 looks, and at most as many probes as
/// `select_by`.
pub(crate) fn select_in_groups<G: Glance, S: ProbeGroups>(
    src: &mut G,
    offset: usize,
    len: usize,
    groups: &mut S,
    n: usize,
    value: bool,
) -> Option<usize>
    requires window { InBytes (G.seen src.old).bytes offset len }
    requires some { 0 < len }
    requires counts { AreCounts (bits (G.seen src.old).bytes offset len)
        (S.seen groups.old).entries }
    ensures place { Selects (hits value (bits (G.seen src.old).bytes offset len)) n result }
    ensures looks { LooksAtMost 16 (G.seen src.old) (G.seen src.new) }
    ensures probes { ProbesAtMost (binary_digits (blocks len + 1))
        (S.seen groups.old) (S.seen groups.new) }
{
    let found = find_in_groups(groups, len, n, value);
    select_from(src, offset, len, found, n, value)
}

/// Does [`find_block`] for the table of `len` bits, from their counts by groups: searches for the
/// group of the bit first, and then for its block in the group. A single block needs no search.
fn find_in_groups<S: ProbeGroups>(
    groups: &mut S,
    len: usize,
    n: usize,
    value: bool,
) -> (usize, usize)
    requires some { 0 < len }
    requires size { length (S.seen groups.old).entries ≡ numbers_for len }
    ensures within { BLOCK_BITS * result.0 < len }
    ensures low { result.1 ≤ n }
    ensures block { (l : List Bool) → length l ≡ len → AreCounts l (S.seen groups.old).entries
        → Rises BLOCK_BITS true (block_counts l) → Rises BLOCK_BITS false (block_counts l)
        → BeginsBefore BLOCK_BITS value (block_counts l) n result.0 result.1 }
    ensures probes { ProbesExactly (binary_digits (div_ceil len GROUP_BITS - 1)
        + binary_digits
        (min (blocks len - GROUP_BLOCKS * (result.0 / GROUP_BLOCKS)) GROUP_BLOCKS - 1))
        (S.seen groups.old) (S.seen groups.new) }
    ensures most { ProbesAtMost (binary_digits (blocks len + 1))
        (S.seen groups.old) (S.seen groups.new) }
{
    if len <= BLOCK_BITS {
        return (0, 0);
    }
    let (group, before) = find_group(groups, len, n, value);
    let blocks = (len - GROUP_BITS * group)
        .div_ceil(BLOCK_BITS)
        .min(GROUP_BLOCKS);
    let level = Withins { group, blocks };
    let (block, more) = find_block(groups, &level, blocks, BLOCK_BITS, n - before, value);
    (GROUP_BLOCKS * group + block, before + more)
}

/// Does [`find_block`] for the counts before the groups. A single group needs no search.
fn find_group<S: ProbeGroups>(groups: &mut S, len: usize, n: usize, value: bool) -> (usize, usize)
    requires some { 0 < len }
    requires size { length (S.seen groups.old).entries ≡ numbers_for len }
    ensures within { GROUP_BITS * result.0 < len }
    ensures low { result.1 ≤ n }
    ensures block { Rises GROUP_BITS value (counts_before (S.seen groups.old).entries)
        → BeginsBefore GROUP_BITS value (counts_before (S.seen groups.old).entries) n
        result.0 result.1 }
    ensures probes { ProbesExactly (binary_digits (div_ceil len GROUP_BITS - 1))
        (S.seen groups.old) (S.seen groups.new) }
{
    if len <= GROUP_BITS {
        return (0, 0);
    }
    let size = len.div_ceil(GROUP_BITS);
    find_block(groups, &Befores, size, GROUP_BITS, n, value)
}
