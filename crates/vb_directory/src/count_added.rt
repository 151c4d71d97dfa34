//! Counts of bits that were appended.
ghost use Rattle.std.specs.Prelude.{◌≡◌, ◌≤◌, length, take};
ghost use Rattle.vb_directory.specs.Counts.{AreCounts, numbers_for};
ghost use Rattle.vb_view.specs.View.{bits_of};

use crate::counts::Counts;
use std::alloc::Allocator;
use vb_count::count_ones;
use vb_rank::BLOCK_BITS;
use vb_view::BitBufferView;

impl<A: Allocator> Counts<A> {
    /// Appends the counts of the blocks that begin at or after index `old`. Before the call these
    /// must be the counts of the first `old` bits, with capacity for the counts of all bits; after
    /// it they are the counts of all bits. Counts the appended bits before the last block once.
    /// Does not allocate, and the capacity stays the same.
    pub fn count_added(&mut self, bits: BitBufferView<'_>, old: usize)
        requires within { old ≤ length (bits_of bits) }
        requires counts { AreCounts (take old (bits_of bits)) self.old.numbers }
        requires room { numbers_for (length (bits_of bits)) ≤ self.old.room }
        ensures counts { AreCounts (bits_of bits.entry) self.new.numbers }
        ensures room { self.new.room ≡ self.old.room }
    {
        let first = old.div_ceil(BLOCK_BITS);
        let blocks = bits.len().div_ceil(BLOCK_BITS);
        if first == blocks {
            return;
        }
        let mut ones = self.rank(bits.slice(0..old), old);
        let mut start = old;
        for block in first..blocks {
            let end = BLOCK_BITS * block;
            ones += count_ones(bits.inner(), bits.offset() + start, end - start);
            self.push(block, ones);
            start = end;
        }
    }
}
