// Written in part by tools/write-lists from tools/families/ranked.txt.
//! A shared set with its counts.
ghost use Rattle.std.specs.Prelude.{◌≡◌, ◌<◌, ◌≤◌, ◌==◌, length, take};
ghost use Rattle.std.specs.Prelude.{slice_get, Some, IfOk, IsOkUnless};
ghost use Rattle.std.specs.List.{AllZip};
ghost use Rattle.vb_bits.specs.Bits.{count, complement, Selects, InvertsCount};
ghost use Rattle.vb_count.specs.Hits.{hits};
ghost use Rattle.vb_ranked.specs.Many.{FindsMany};
ghost use Rattle.vb_set.specs.Makes.{Makes};
ghost use Rattle.vb_set.specs.View.{bits_of, offset_of, bytes_of};

use crate::many::compare_len;
use std::alloc::{AllocError, Allocator, Global};
use std::marker::Model;
use vb_directory::Counts;
use vb_set::{BitBuffer, BitBufferView, BufferError, Result};

/// A read-only set of bits whose storage may be shared, with the number of true bits before each
/// block of 512 bits. It returns the same results as a [`Ranked`](crate::Ranked) of the same bits.
/// Its counts have the same layout, and space for these bits only.
///
/// A contract sees the set: its bits, the offset of the first bit, and its bytes.
#[derive(Drop)]
pub struct RankedBuffer<A: Allocator + Clone = Global> {
    set: BitBuffer<A>,
    counts: Counts<A>,
}

impl<A: Allocator + Clone> Model for RankedBuffer<A> {
    ghost use Rattle.vb_directory.specs.Counts.{AreCounts};
    ghost use Rattle.vb_set.specs.SharedSet.{SharedSet};

    ghost Value = { SharedSet };

    ghost view = { λ s. s.set };

    ghost invariant = { λ s. AreCounts s.set.bits s.counts.numbers };
}

impl<A: Allocator + Clone> RankedBuffer<A> {
    /// Builds the counts of a set and returns both. Counts the bits once and does not copy them.
    /// Allocates once for the counts: 8 bytes for up to 512 bits, 2 bytes for each further 512
    /// bits, and 6 bytes more for each further 65,536 bits; does not allocate for a set without
    /// bits. Returns `OutOfMemory` if memory runs out, and drops this owner of the set then.
    pub fn new(alloc: A, set: BitBuffer<A>) -> Result<Self>
        ensures set { IfOk result (λ r. r ≡ set) }
        ensures refused { IsOkUnless result BufferError.OutOfMemory }
    {
        let counts = Counts::of(alloc, set.as_view(), set.len())?;
        Ok(RankedBuffer { set, counts })
    }

    /// Returns another owner of the same bits, which shares their storage, with a copy of the
    /// counts, without counting again. Allocates once with the counts' allocator, the same number
    /// of bytes as [`new`](Self::new); does not allocate for a set without bits. Returns
    /// `OutOfMemory` if memory runs out, if an allocator cannot be cloned, or if the storage
    /// already has the maximum number of owners.
    pub fn clone(&self) -> Result<Self>
        ensures { Makes (λ s. s ≡ self.now) result }
    {
        let set = self.set.clone()?;
        let counts = self.counts.copy(set.len())?;
        Ok(RankedBuffer { set, counts })
    }

    /// Returns the number of bits.
    pub fn len(&self) -> usize
        ensures { result ≡ length self.now.bits }
    {
        self.set.len()
    }

    /// Returns whether the set has no bits.
    pub fn is_empty(&self) -> bool
        ensures { result ≡ (length self.now.bits == 0) }
    {
        self.set.is_empty()
    }

    /// Returns the bit at index `i`, which must be below the length.
    pub fn value(&self, i: usize) -> bool
        requires { i < length self.now.bits }
        ensures { slice_get self.now.bits i ≡ Some result }
    {
        self.set.value(i)
    }

    /// Returns a read-only view of the bits, in constant time.
    pub fn as_view(&self) -> BitBufferView<'_>
        ensures bits { bits_of result ≡ self.now.bits }
        ensures offset { offset_of result ≡ self.now.offset }
        ensures bytes { bytes_of result ≡ self.now.bytes }
    {
        self.set.as_view()
    }

    /// Returns the set without its counts.
    pub fn into_inner(self) -> BitBuffer<A>
        ensures { result ≡ self }
    {
        self.set
    }

    // Written by tools/write-lists from tools/families/ranked.txt.
    /// Returns the number of true bits among the first `i` bits, as `rank_by` does with a table of
    /// the set. `i` must be at most the length. Reads at most two counts and the bits of one block;
    /// no count if `i` is 0 or the set has at most 512 bits.
    pub fn rank(&self, i: usize) -> usize
        requires { i ≤ length self.now.bits }
        ensures { result ≡ count (take i self.now.bits) }
    {
        self.counts.rank(self.as_view(), i)
    }

    /// Returns the index of the `n`-th true bit, counted from 0, or `None` if at most `n` bits are
    /// true. The search halves the groups until one is left, and then the blocks of that group.
    /// Does not allocate. Returns the same as `select_by` with a table of the set.
    pub fn select(&self, n: usize) -> Option<usize>
        ensures place { Selects self.now.bits n result }
        ensures each { InvertsCount self.now.bits n result }
    {
        self.select_value(n, true)
    }

    /// Returns the index of the `n`-th false bit, counted from 0, or `None` if at most `n` bits are
    /// false. It costs as much as [`select`](Self::select).
    pub fn select_unset(&self, n: usize) -> Option<usize>
        ensures place { Selects (complement self.now.bits) n result }
        ensures each { InvertsCount (complement self.now.bits) n result }
    {
        self.select_value(n, false)
    }

    /// Finds the true bits of many ranks: sets `places[k]` to the result of
    /// [`select`](Self::select) for `ranks[k]`. `places` must have the length of `ranks`. Clause
    /// `each` proves that every true bit with `ranks[k]` true bits before it is the result.
    ///
    /// Above 65,536 bits the call runs eight searches side by side, since each search waits for its
    /// reads. So one call with many ranks is faster than one call for each, most of all if the bits
    /// do not fit in the caches. Fewer than eight ranks run one by one. Does not allocate.
    pub fn select_many(&self, ranks: &[usize], places: &mut [Option<usize>])
        requires { length places.old ≡ length ranks.now }
        ensures places { AllZip (Selects self.now.bits) ranks.now places.new }
        ensures each { AllZip (InvertsCount self.now.bits) ranks.now places.new }
    {
        self.counts.select_many(self.as_view(), ranks, places, true);
    }

    /// Finds the false bits of many ranks: sets `places[k]` to the result of
    /// [`select_unset`](Self::select_unset) for `ranks[k]`. `places` must have the length of
    /// `ranks`. It costs as much as [`select_many`](Self::select_many).
    pub fn select_unset_many(&self, ranks: &[usize], places: &mut [Option<usize>])
        requires { length places.old ≡ length ranks.now }
        ensures places { AllZip (Selects (complement self.now.bits)) ranks.now places.new }
        ensures each { AllZip (InvertsCount (complement self.now.bits)) ranks.now places.new }
    {
        self.counts
            .select_many(self.as_view(), ranks, places, false);
    }

    /// Sets `places[k]` to the index of the true bit of rank `ranks[k]`, as
    /// [`select_many`](Self::select_many) does. Returns `LengthMismatch`, with the length of
    /// `ranks` as `left` and the length of `places` as `right`, exactly if they differ; `places` is
    /// unchanged then. Does not allocate.
    pub fn try_select_many(&self, ranks: &[usize], places: &mut [Option<usize>]) -> Result<()>
        ensures { FindsMany self.now.bits ranks.now places.old places.new result }
    {
        compare_len(ranks, places)?;
        self.select_many(ranks, places);
        Ok(())
    }

    /// Sets `places[k]` to the index of the false bit of rank `ranks[k]`, as
    /// [`select_unset_many`](Self::select_unset_many) does. Returns `LengthMismatch`, with the
    /// length of `ranks` as `left` and the length of `places` as `right`, exactly if they differ;
    /// `places` is unchanged then. Does not allocate.
    pub fn try_select_unset_many(&self, ranks: &[usize], places: &mut [Option<usize>]) -> Result<()>
        ensures { FindsMany (complement self.now.bits) ranks.now places.old places.new result }
    {
        compare_len(ranks, places)?;
        self.select_unset_many(ranks, places);
        Ok(())
    }
    // To here.

    /// Returns the index of the `n`-th bit that is `value`.
    fn select_value(&self, n: usize, value: bool) -> Option<usize>
        ensures { Selects (hits value self.now.bits) n result }
    {
        self.counts.select(self.as_view(), n, value)
    }
}

/// Makes another owner, as [`RankedBuffer::clone`] does, for code that uses std's trait.
impl<A: Allocator + Clone> Clone for RankedBuffer<A> {
    ghost use Rattle.std.specs.Prelude.{◌≡◌};

    ghost is_clone = { λ s copy. copy ≡ s };

    fn clone(&self) -> Result<Self, AllocError> {
        RankedBuffer::clone(self).or(Err(AllocError))
    }
}
