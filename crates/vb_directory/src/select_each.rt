//! Eight selects at once, by groups, over any source of their counts.
ghost use Rattle.std.specs.Prelude.{◌≡◌, ℕ, Bool, true, false, List, Option, ◌+◌, ◌-◌, ◌*◌, ◌^◌};
ghost use Rattle.std.specs.Prelude.{◌<◌, ◌≤◌, length, min, slice_index, slice_index_or};
ghost use Rattle.std.specs.Int.{div_ceil};
ghost use Rattle.vb_bits.specs.Bits.{bits, Selects};
ghost use Rattle.vb_bits.specs.InBytes.{InBytes};
ghost use Rattle.vb_directory.specs.Counts.{AreCounts, numbers_for};
ghost use Rattle.vb_count.specs.Looks.{LooksAtMost};
ghost use Rattle.vb_count.specs.Hits.{hits};
ghost use Rattle.vb_rank.specs.Tables.{blocks, block_counts, binary_digits, BeginsBefore, Rises};
ghost use Rattle.vb_rank.specs.Tables.{ProbesAtMost};

use crate::probe_groups::{Befores, ProbeGroups, Withins};
use crate::size::{GROUP_BITS, GROUP_BLOCKS};
use vb_count::Glance;
use vb_rank::{BLOCK_BITS, LANES, find_blocks, select_each_from};

/// Does `select_in_groups` for eight selects: makes at most 136 looks, and at most eight times the
/// probes of one select.
pub(crate) fn select_each_in_groups<G: Glance, S: ProbeGroups>(
    src: &mut G,
    offset: usize,
    len: usize,
    groups: &mut S,
    ns: &[usize; LANES],
    value: bool,
) -> [Option<usize>; LANES]
    requires window { InBytes (G.seen src.old).bytes offset len }
    requires some { 0 < len }
    requires counts { AreCounts (bits (G.seen src.old).bytes offset len)
        (S.seen groups.old).entries }
    ensures place { (k : ℕ) (d : Option ℕ) → k < LANES
        → Selects (hits value (bits (G.seen src.old).bytes offset len)) (slice_index ns.now k)
        (slice_index_or result k d) }
    ensures looks { LooksAtMost 136 (G.seen src.old) (G.seen src.new) }
    ensures probes { ProbesAtMost (LANES * binary_digits (blocks len + 1))
        (S.seen groups.old) (S.seen groups.new) }
{
    let (blocks, befores) = find_each_in_groups(groups, len, ns, value);
    select_each_from(src, offset, len, &blocks, &befores, ns, value)
}

/// Does `find_in_groups` for eight selects: searches for the groups of all side by side, and then
/// for their blocks.
#[inline(never)]
fn find_each_in_groups<S: ProbeGroups>(
    groups: &mut S,
    len: usize,
    ns: &[usize; LANES],
    value: bool,
) -> ([usize; LANES], [usize; LANES])
    requires some { 0 < len }
    requires size { length (S.seen groups.old).entries ≡ numbers_for len }
    ensures within { (k : ℕ) → k < LANES → BLOCK_BITS * slice_index result.0 k < len }
    ensures low { (k : ℕ) → k < LANES → slice_index result.1 k ≤ slice_index ns.now k }
    ensures block { (l : List Bool) → length l ≡ len → AreCounts l (S.seen groups.old).entries
        → Rises BLOCK_BITS true (block_counts l) → Rises BLOCK_BITS false (block_counts l)
        → (k : ℕ) → k < LANES → BeginsBefore BLOCK_BITS value (block_counts l)
        (slice_index ns.now k) (slice_index result.0 k) (slice_index result.1 k) }
    ensures probes { ProbesAtMost (LANES * binary_digits (blocks len + 1))
        (S.seen groups.old) (S.seen groups.new) }
{
    let size = len.div_ceil(GROUP_BITS);
    let (group, before) = find_blocks(
        groups,
        &[Befores; LANES],
        [size; LANES],
        size,
        GROUP_BITS,
        ns,
        value,
    );
    let (levels, sizes, rest) = inside_groups(len, &group, &before, ns);
    let most = len.div_ceil(BLOCK_BITS).min(GROUP_BLOCKS);
    let (block, more) = find_blocks(groups, &levels, sizes, most, BLOCK_BITS, &rest, value);
    among_all(&group, &before, &block, &more)
}

/// Returns the input of the search within the groups: for each select the blocks of its group as a
/// level, the number of these blocks, and the rest of its rank.
#[inline(always)]
fn inside_groups(
    len: usize,
    group: &[usize; LANES],
    before: &[usize; LANES],
    ns: &[usize; LANES],
) -> ([Withins; LANES], [usize; LANES], [usize; LANES])
    requires within { (k : ℕ) → k < LANES → GROUP_BITS * slice_index group.now k < len }
    requires low { (k : ℕ) → k < LANES → slice_index before.now k ≤ slice_index ns.now k }
    ensures levels { (k : ℕ) (d : Withins) → k < LANES → (slice_index_or result.0 k d).group
        ≡ slice_index group.now k }
    ensures parts { (k : ℕ) (d : Withins) → k < LANES → (slice_index_or result.0 k d).blocks
        ≡ slice_index result.1 k }
    ensures sizes { (k : ℕ) → k < LANES → slice_index result.1 k ≡ min (div_ceil
        (len - GROUP_BITS * slice_index group.now k) BLOCK_BITS) GROUP_BLOCKS }
    ensures rest { (k : ℕ) → k < LANES → slice_index result.2 k
        ≡ slice_index ns.now k - slice_index before.now k }
{
    let mut levels = [Withins {
        group: 0,
        blocks: 0,
    }; LANES];
    let mut sizes = [0; LANES];
    let mut rest = [0; LANES];
    for k in 0..LANES {
        let blocks = (len - GROUP_BITS * group[k])
            .div_ceil(BLOCK_BITS)
            .min(GROUP_BLOCKS);
        levels[k] = Withins {
            group: group[k],
            blocks,
        };
        sizes[k] = blocks;
        rest[k] = ns[k] - before[k];
    }
    (levels, sizes, rest)
}

/// Returns the number of each block among the blocks of all groups, and the number of bits of the
/// searched value before it.
#[inline(always)]
fn among_all(
    group: &[usize; LANES],
    before: &[usize; LANES],
    block: &[usize; LANES],
    more: &[usize; LANES],
) -> ([usize; LANES], [usize; LANES])
    requires blocks { (k : ℕ) → k < LANES
        → GROUP_BLOCKS * slice_index group.now k + slice_index block.now k < 2 ^ 64 }
    requires befores { (k : ℕ) → k < LANES
        → slice_index before.now k + slice_index more.now k < 2 ^ 64 }
    ensures blocks { (k : ℕ) → k < LANES → slice_index result.0 k
        ≡ GROUP_BLOCKS * slice_index group.now k + slice_index block.now k }
    ensures befores { (k : ℕ) → k < LANES → slice_index result.1 k
        ≡ slice_index before.now k + slice_index more.now k }
{
    let (mut blocks, mut befores) = ([0; LANES], [0; LANES]);
    for k in 0..LANES {
        blocks[k] = GROUP_BLOCKS * group[k] + block[k];
        befores[k] = before[k] + more[k];
    }
    (blocks, befores)
}
