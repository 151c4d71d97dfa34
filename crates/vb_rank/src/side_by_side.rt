//! Searches for eight selects side by side: for their blocks, and for the bits in these.
ghost use Rattle.std.specs.Prelude.{◌≡◌, ℕ, List, Option, ◌+◌, ◌-◌, ◌*◌, ◌/◌, ◌%◌, ◌^◌, ◌<◌, ◌≤◌};
ghost use Rattle.std.specs.Prelude.{length, slice_index, slice_index_or, slice_range, true, false};
ghost use Rattle.vb_bits.specs.Bits.{bits, Selects};
ghost use Rattle.vb_bits.specs.InBytes.{InBytes};
ghost use Rattle.vb_count.specs.Looks.{LooksAtMost};
ghost use Rattle.vb_count.specs.Hits.{hits};
ghost use Rattle.vb_rank.specs.Tables.{binary_digits, block_counts, BeginsBefore, Narrows, Rises};
ghost use Rattle.vb_rank.specs.Tables.{IsChunkFrom, ProbesAtMost};

use crate::block::bits_before;
use crate::level::Level;
use crate::select::{select_by_moves, select_from};
use crate::size::BLOCK_BITS;
use vb_count::Glance;

/// The number of selects that are searched side by side: while one search waits for a count, the
/// others go on. The state of eight searches is 192 bytes, so it fits in the first cache.
pub const LANES: usize = 8;

/// The state of searches side by side: for each the number of counts that are left, the first of
/// these, and the number of bits before its block.
#[derive(Drop)]
struct Searches {
    low: [usize; LANES],
    before: [usize; LANES],
    left: [usize; LANES],
}

/// Does [`find_block`](crate::find_block) for eight selects: returns their blocks, and the number
/// of bits that are `value` before each. Select `k` has its own level, with `sizes[k]` counts, at
/// least 1 and at most `most`. The counts of a level must depend only on the entries of the source,
/// and all levels must report the same number of probes of the source.
///
/// Makes at most eight probes for each binary digit of `most - 1`. The searches go side by side:
/// each makes one probe before any makes its next. A search with one count left makes none.
#[inline(always)]
pub fn find_blocks<S, L: Level<S>>(
    source: &mut S,
    levels: &[L; LANES],
    sizes: [usize; LANES],
    most: usize,
    width: usize,
    ns: &[usize; LANES],
    value: bool,
) -> ([usize; LANES], [usize; LANES])
    requires sizes { (k : ℕ) (d : L) → k < LANES → slice_index sizes k
        ≡ length (L.seen (slice_index_or levels.now k d) source.old).entries }
    requires some { (k : ℕ) → k < LANES → 0 < slice_index sizes k }
    requires most { (k : ℕ) → k < LANES → slice_index sizes k ≤ most }
    requires fits { (j : ℕ) → j < most → width * j < 2 ^ 64 }
    requires held { (l : L) (s t : S) → L.held s ≡ L.held t
        → (L.seen l s).entries ≡ (L.seen l t).entries }
    requires shared { (l m : L) (s : S) → (L.seen l s).probes ≡ (L.seen m s).probes }
    ensures within { (k : ℕ) → k < LANES → slice_index result.0 k < slice_index sizes k }
    ensures low { (k : ℕ) → k < LANES → slice_index result.1 k ≤ slice_index ns.now k }
    ensures block { (k : ℕ) (d : L) → k < LANES
        → Rises width value (L.seen (slice_index_or levels.now k d) source.old).entries
        → BeginsBefore width value (L.seen (slice_index_or levels.now k d) source.old).entries
        (slice_index ns.now k) (slice_index result.0 k) (slice_index result.1 k) }
    ensures same { L.held source.new ≡ L.held source.old }
    ensures probes { (l : L) → ProbesAtMost (LANES * binary_digits (most - 1))
        (L.seen l source.old) (L.seen l source.new) }
{
    let mut lanes = Searches {
        low: [0; LANES],
        before: [0; LANES],
        left: sizes,
    };
    let mut left = most;
    while left > 1 {
        halve_each(source, levels, width, ns, value, &mut lanes);
        left -= left / 2;
    }
    (lanes.low, lanes.before)
}

/// Makes one probe of each search that has more than one count left, and halves the counts left.
///
/// Not inlined: in the loop of its caller its conditional moves would become branches.
#[inline(never)]
fn halve_each<S, L: Level<S>>(
    source: &mut S,
    levels: &[L; LANES],
    width: usize,
    ns: &[usize; LANES],
    value: bool,
    lanes: &mut Searches,
)
    requires each { (k : ℕ) (d : L) → k < LANES → Narrows width value
        (L.seen (slice_index_or levels.now k d) source.old).entries (slice_index ns.now k)
        (slice_index lanes.old.low k) (slice_index lanes.old.before k)
        (slice_index lanes.old.left k) }
    requires long { (k : ℕ) (d : L) → k < LANES
        → length (L.seen (slice_index_or levels.now k d) source.old).entries < 2 ^ 64 }
    requires fits { (k j : ℕ) (d : L) → k < LANES
        → j < length (L.seen (slice_index_or levels.now k d) source.old).entries
        → width * j < 2 ^ 64 }
    requires held { (l : L) (s t : S) → L.held s ≡ L.held t
        → (L.seen l s).entries ≡ (L.seen l t).entries }
    requires shared { (l m : L) (s : S) → (L.seen l s).probes ≡ (L.seen m s).probes }
    ensures each { (k : ℕ) (d : L) → k < LANES → Narrows width value
        (L.seen (slice_index_or levels.now k d) source.old).entries (slice_index ns.now k)
        (slice_index lanes.new.low k) (slice_index lanes.new.before k)
        (slice_index lanes.new.left k) }
    ensures left { (k : ℕ) → k < LANES → slice_index lanes.new.left k
        ≡ slice_index lanes.old.left k - slice_index lanes.old.left k / 2 }
    ensures same { L.held source.new ≡ L.held source.old }
    ensures probes { (l : L) → ProbesAtMost LANES (L.seen l source.old) (L.seen l source.new) }
{
    for k in 0..LANES {
        let half = lanes.left[k] / 2;
        if half > 0 {
            let (low, before) = (lanes.low[k], lanes.before[k]);
            let middle = low + half;
            let here = bits_before(source, &levels[k], width, middle, value);
            // Subtracting `before` here too keeps it in a register.
            let (step, rest) = (here.wrapping_sub(before), ns[k] - before);
            lanes.low[k] = choose(step, rest, middle, low);
            lanes.before[k] = choose(step, rest, here, before);
            lanes.left[k] -= half;
        }
    }
}

/// Returns `upper` if `step` is at most `rest`, else `lower`. Uses arithmetic, since the compiler
/// turns a test into a branch here, which no processor can predict.
#[inline(always)]
fn choose(step: usize, rest: usize, upper: usize, lower: usize) -> usize
    ensures upper { step ≤ rest → result ≡ upper }
    ensures lower { rest < step → result ≡ lower }
{
    let more = upper.wrapping_sub(lower);
    lower.wrapping_add(more.wrapping_mul(usize::from(step <= rest)))
}

/// Does [`select_from`] for eight selects: returns for each the index of the `ns[k]`-th bit of the
/// window that is `value`. Block `blocks[k]` must begin before `len`, and `befores[k]` must be at
/// most `ns[k]`. Makes at most 136 looks.
///
/// If bit `offset` is the first of a byte, it loads 64 bytes of each block, where the bytes have
/// that many, before it searches any block, so that it waits for them together. At any other offset
/// it searches the blocks one after another.
pub fn select_each_from<G: Glance>(
    src: &mut G,
    offset: usize,
    len: usize,
    blocks: &[usize; LANES],
    befores: &[usize; LANES],
    ns: &[usize; LANES],
    value: bool,
) -> [Option<usize>; LANES]
    requires window { InBytes (G.seen src.old).bytes offset len }
    requires begins { (k : ℕ) → k < LANES → BLOCK_BITS * slice_index blocks.now k < len }
    requires low { (k : ℕ) → k < LANES → slice_index befores.now k ≤ slice_index ns.now k }
    ensures place { (t : List ℕ) → t ≡ block_counts (bits (G.seen src.old).bytes offset len)
        → (k : ℕ) (d : Option ℕ) → k < LANES
        → BeginsBefore BLOCK_BITS value t (slice_index ns.now k) (slice_index blocks.now k)
        (slice_index befores.now k)
        → Selects (hits value (bits (G.seen src.old).bytes offset len)) (slice_index ns.now k)
        (slice_index_or result k d) }
    ensures looks { LooksAtMost 136 (G.seen src.old) (G.seen src.new) }
{
    let chunks = chunks_of(src, offset, blocks);
    let mut places = [None; LANES];
    for k in 0..LANES {
        let found = (blocks[k], befores[k]);
        places[k] = select_held(src, &chunks[k], offset, len, found, ns[k], value);
    }
    places
}

/// Returns the chunk of each block; zeros for a block for which [`has_chunk`] is false.
#[inline(always)]
fn chunks_of<G: Glance>(src: &mut G, offset: usize, blocks: &[usize; LANES]) -> [[u8; 64]; LANES]
    requires fits { (k : ℕ) → k < LANES
        → offset + BLOCK_BITS * slice_index blocks.now k < 2 ^ 64 }
    ensures each { (k : ℕ) (d : List ℕ) → k < LANES → IsChunkFrom (G.seen src.old).bytes
        (offset + BLOCK_BITS * slice_index blocks.now k) (slice_index_or result k d) }
    ensures looks { LooksAtMost LANES (G.seen src.old) (G.seen src.new) }
{
    let mut chunks = [[0; 64]; LANES];
    for k in 0..LANES {
        let place = offset + BLOCK_BITS * blocks[k];
        if has_chunk(src.size(), place) {
            chunks[k] = src.chunk(place / 8);
        }
    }
    chunks
}

/// Returns whether bit `place` is the first of a byte, and 64 of `size` bytes begin there.
#[inline(always)]
fn has_chunk(size: usize, place: usize) -> bool
    ensures has { result ≡ true → (place % 8 ≡ 0) × (place / 8 + 64 ≤ size) }
    ensures none { result ≡ false → place % 8 ≡ 0 → size < place / 8 + 64 }
{
    place % 8 == 0 && place / 8 + 64 <= size
}

/// Does [`select_from`], with the chunk of the block already loaded if the block has one.
#[inline(never)]
fn select_held<G: Glance>(
    src: &mut G,
    chunk: &[u8; 64],
    offset: usize,
    len: usize,
    found: (usize, usize),
    n: usize,
    value: bool,
) -> Option<usize>
    requires window { InBytes (G.seen src.old).bytes offset len }
    requires begins { BLOCK_BITS * found.0 < len }
    requires low { found.1 ≤ n }
    requires chunk { IsChunkFrom (G.seen src.old).bytes (offset + BLOCK_BITS * found.0) chunk.now }
    ensures place { (t : List ℕ) → t ≡ block_counts (bits (G.seen src.old).bytes offset len)
        → BeginsBefore BLOCK_BITS value t n found.0 found.1
        → Selects (hits value (bits (G.seen src.old).bytes offset len)) n result }
    ensures looks { LooksAtMost 16 (G.seen src.old) (G.seen src.new) }
{
    let at = BLOCK_BITS * found.0;
    if !has_chunk(src.size(), offset + at) {
        return select_from(src, offset, len, found, n, value);
    }
    let place = select_by_moves(chunk, n - found.1, value)?;
    if place < len - at {
        Some(at + place)
    } else {
        None
    }
}
