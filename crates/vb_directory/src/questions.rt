//! Ranks and selects of a view of bits by its counts, which they read through a source.
ghost use Rattle.std.specs.Prelude.{◌≡◌, ℕ, Option, ◌+◌, ◌<◌, ◌≤◌, length, take, slice_index};
ghost use Rattle.std.specs.Prelude.{slice_index_or};
ghost use Rattle.std.specs.List.{AllZip};
ghost use Rattle.vb_bits.specs.Bits.{count, Selects};
ghost use Rattle.vb_directory.specs.Counts.{AreCounts};
ghost use Rattle.vb_count.specs.Hits.{hits};
ghost use Rattle.vb_view.specs.View.{bits_of};

use crate::counts::Counts;
use crate::groups::{rank_in_groups, select_in_groups};
use crate::select_each::select_each_in_groups;
use crate::size::GROUP_BITS;
use std::alloc::Allocator;
use vb_count::Plain;
use vb_rank::LANES;
use vb_view::BitBufferView;

impl<A: Allocator> Counts<A> {
    /// Returns the number of set bits among the first `i` bits. `i` must be at most the length, and
    /// these counts must be those of `bits`. Reads at most two counts and the bits of one block;
    /// reads no count if `i` is 0 or there are at most 512 bits. Does not allocate.
    #[inline(always)]
    pub fn rank(&self, bits: BitBufferView<'_>, i: usize) -> usize
        requires counts { AreCounts (bits_of bits) self.now.numbers }
        requires within { i ≤ length (bits_of bits) }
        ensures { result ≡ count (take i (bits_of bits.entry)) }
    {
        if i == 0 {
            return 0;
        }
        let src = &mut Plain::new(bits.inner());
        let groups = &mut self.groups();
        rank_in_groups(src, bits.offset(), bits.len(), groups, i)
    }

    /// Returns the index of the `n`-th bit that is `value`, counted from 0; `None` if at most `n`
    /// bits are. These counts must be those of `bits`. Searches the groups for its block, and then
    /// the block: reads at most one count for each binary digit of `blocks + 1`, where `blocks` is
    /// the number of blocks, and the bits of one block. Does not allocate.
    #[inline(always)]
    pub fn select(&self, bits: BitBufferView<'_>, n: usize, value: bool) -> Option<usize>
        requires { AreCounts (bits_of bits) self.now.numbers }
        ensures { Selects (hits value (bits_of bits.entry)) n result }
    {
        if bits.len() == 0 {
            return None;
        }
        let src = &mut Plain::new(bits.inner());
        let groups = &mut self.groups();
        select_in_groups(src, bits.offset(), bits.len(), groups, n, value)
    }

    /// Writes the result of [`select`](Self::select) for `ranks[k]` to `places[k]`, for each `k`.
    /// `places` and `ranks` must have the same length, and these counts must be those of `bits`. If
    /// there is more than one group, searches for eight ranks at once, and for the last ones, fewer
    /// than eight, one by one. Does not allocate.
    #[inline(always)]
    pub fn select_many(
        &self,
        bits: BitBufferView<'_>,
        ranks: &[usize],
        places: &mut [Option<usize>],
        value: bool,
    )
        requires counts { AreCounts (bits_of bits) self.now.numbers }
        requires long { length places.old ≡ length ranks.now }
        ensures { AllZip (Selects (hits value (bits_of bits.entry))) ranks.now places.new }
    {
        let front = select_eights(bits, self, ranks, places, value);
        for k in front..ranks.len() {
            places[k] = self.select(bits, ranks[k], value);
        }
    }
}

/// Writes the first results of [`Counts::select_many`], eight at a time, and returns their number:
/// 0 if there is only one group, else the number of ranks, rounded down to a multiple of eight.
#[inline(always)]
fn select_eights<A: Allocator>(
    bits: BitBufferView<'_>,
    counts: &Counts<A>,
    ranks: &[usize],
    places: &mut [Option<usize>],
    value: bool,
) -> usize
    requires counts { AreCounts (bits_of bits) counts.now.numbers }
    requires long { length places.old ≡ length ranks.now }
    ensures front { result ≤ length ranks.now }
    ensures long { length places.new ≡ length ranks.now }
    ensures each { (k : ℕ) (d : Option ℕ) → k < result → Selects (hits value (bits_of bits.entry))
        (slice_index ranks.now k) (slice_index_or places.new k d) }
{
    if bits.len() <= GROUP_BITS {
        return 0;
    }
    let turns = ranks.len() / LANES;
    for turn in 0..turns {
        let at = LANES * turn;
        let eight = select_eight_of(bits, counts, &eight_from(ranks, at), value);
        put_eight(places, at, &eight);
    }
    LANES * turns
}

/// Does [`Counts::select`] for eight ranks.
#[inline(never)]
fn select_eight_of<A: Allocator>(
    bits: BitBufferView<'_>,
    counts: &Counts<A>,
    ns: &[usize; LANES],
    value: bool,
) -> [Option<usize>; LANES]
    requires counts { AreCounts (bits_of bits) counts.now.numbers }
    requires some { 0 < length (bits_of bits) }
    ensures { (k : ℕ) (d : Option ℕ) → k < LANES → Selects (hits value (bits_of bits.entry))
        (slice_index ns.now k) (slice_index_or result k d) }
{
    let src = &mut Plain::new(bits.inner());
    let groups = &mut counts.groups();
    select_each_in_groups(src, bits.offset(), bits.len(), groups, ns, value)
}

/// Returns the eight ranks from index `at` on.
#[inline(always)]
fn eight_from(ranks: &[usize], at: usize) -> [usize; LANES]
    requires { at + LANES ≤ length ranks.now }
    ensures { (k : ℕ) → k < LANES → slice_index result k ≡ slice_index ranks.now (at + k) }
{
    let mut eight = [0; LANES];
    for k in 0..LANES {
        eight[k] = ranks[at + k];
    }
    eight
}

/// Writes eight items of `places` from index `at` on.
#[inline(always)]
fn put_eight(places: &mut [Option<usize>], at: usize, eight: &[Option<usize>; LANES])
    requires { at + LANES ≤ length places.old }
    ensures long { length places.new ≡ length places.old }
    ensures front { (k : ℕ) (d : Option ℕ) → k < at
        → slice_index_or places.new k d ≡ slice_index_or places.old k d }
    ensures put { (k : ℕ) (d : Option ℕ) → k < LANES
        → slice_index_or places.new (at + k) d ≡ slice_index_or eight.now k d }
{
    for k in 0..LANES {
        places[at + k] = eight[k];
    }
}
