// Written in part by tools/write-lists from tools/families/ranked.txt.
//! A set of bits with its counts.
ghost use Rattle.std.specs.Prelude.{◌≡◌, ◌+◌, ◌/◌, ◌%◌, ◌^◌, ◌<◌, ◌≤◌, ◌∷◌, [], length, take, drop};
ghost use Rattle.std.specs.Prelude.{◌==◌, slice_get, slice_set, Some, IfOk, IsOkUnless};
ghost use Rattle.std.specs.List.{AllZip};
ghost use Rattle.vb_bits.specs.Bits.{count, complement, Selects, InvertsCount};
ghost use Rattle.vb_bits.specs.Writes.{Writes};
ghost use Rattle.vb_count.specs.Hits.{hits};
ghost use Rattle.vb_ranked.specs.Many.{FindsMany};
ghost use Rattle.vb_set.specs.Makes.{Makes};
ghost use Rattle.vb_set.specs.OpenSet.{KeepsLayout};
ghost use Rattle.vb_set.specs.SharedSet.{SharesFrom};
ghost use Rattle.vb_set.specs.View.{bits_of, offset_of, bytes_of};

use crate::many::compare_len;
use std::alloc::{AllocError, Allocator, Global};
use std::marker::Model;
use vb_directory::Counts;
use vb_set::{BitBuffer, BitBufferMut, BitBufferView, BufferError, Result};

mod append;

/// A set of bits that one owner edits, with the number of true bits before each block of 512 bits.
/// Every edit keeps the counts exact, so each result is the same as with a table that is built
/// anew.
///
/// The counts are in groups of 128 blocks. A group has one 64-bit count of the true bits before it,
/// and for each of its blocks but the first a 16-bit count from the start of the group. So the
/// counts of up to 512 bits take 8 bytes, and each further 512 bits take 2 bytes more, or 8 bytes
/// if they start a group.
///
/// A contract sees the set: its bits, the offset of the first bit, its bytes, and its capacity.
#[derive(Drop)]
pub struct Ranked<A: Allocator + Clone = Global> {
    set: BitBufferMut<A>,
    counts: Counts<A>,
}

impl<A: Allocator + Clone> Model for Ranked<A> {
    ghost use Rattle.std.specs.Prelude.{◌<◌, ◌≤◌, length};
    ghost use Rattle.vb_directory.specs.Counts.{AreCounts, numbers_for};
    ghost use Rattle.vb_set.specs.OpenSet.{OpenSet};

    ghost Value = { OpenSet };

    ghost view = { λ s. s.set };

    // A set with bits has counts with capacity for all bits that the set can hold.
    ghost invariant = { λ s. record {
      exact : AreCounts s.set.bits s.counts.numbers;
      held : 0 < length s.set.bits → numbers_for s.set.room ≤ s.counts.room;
    } };
}

impl<A: Allocator + Clone> Ranked<A> {
    /// Builds the counts of a set and returns both. Allocates once for the counts; does not
    /// allocate for a set without bits. The counts get space for all bits of the set's
    /// [`capacity`](BitBufferMut::capacity): 8 bytes for up to 512 bits, 2 bytes for each further
    /// 512 bits, and 6 bytes more for each further 65,536 bits. Returns `OutOfMemory` if memory
    /// runs out, and drops the set then.
    ///
    /// ```rust
    /// let set = BitBufferMut::from_indices(alloc, 1000, [7, 700])?;
    /// let mut ranked = Ranked::new(alloc, set)?;
    /// assert_eq!(rt; (ranked.rank(700), ranked.select(1)), (1, Some(700)));
    /// ```
    pub fn new(alloc: A, set: BitBufferMut<A>) -> Result<Self>
        ensures set { IfOk result (λ r. r ≡ set) }
        ensures refused { IsOkUnless result BufferError.OutOfMemory }
    {
        let counts = Counts::of(alloc, set.as_view(), set.capacity())?;
        Ok(Ranked { set, counts })
    }

    /// Returns a copy of the set, with all its bytes, and of its counts, without counting again.
    /// Allocates once for the bytes with the set's allocator, and once for the counts of the copy's
    /// capacity with the counts' allocator; omits the first if there are no bytes, and the second
    /// if there are no bits. Returns `OutOfMemory` if memory runs out.
    pub fn clone(&self) -> Result<Self>
        ensures { Makes (λ s. s ≡ record self.now { room = s.room }) result }
    {
        let set = self.set.clone()?;
        let counts = self.counts.copy(set.capacity())?;
        Ok(Ranked { set, counts })
    }

    /// Returns the number of bits.
    pub fn len(&self) -> usize
        ensures { result ≡ length self.now.bits }
    {
        self.set.len()
    }

    /// Returns whether the set has no bits.
    pub fn is_empty(&self) -> bool
        ensures { result ≡ (length self.now.bits == 0) }
    {
        self.set.is_empty()
    }

    /// Returns the capacity in bits: up to this length an append to a set with bits does not
    /// allocate.
    pub fn capacity(&self) -> usize
        ensures room { result ≡ self.now.room }
        ensures holds_bits { length self.now.bits ≤ result }
    {
        self.set.capacity()
    }

    /// Returns the bit at index `i`, which must be below the length.
    pub fn value(&self, i: usize) -> bool
        requires { i < length self.now.bits }
        ensures { slice_get self.now.bits i ≡ Some result }
    {
        self.set.value(i)
    }

    /// Returns a read-only view of the bits, in constant time. Its bytes begin with the byte of the
    /// first bit.
    pub fn as_view(&self) -> BitBufferView<'_>
        ensures bits { bits_of result ≡ self.now.bits }
        ensures offset { offset_of result ≡ self.now.offset % 8 }
        ensures bytes { bytes_of result ≡ drop (self.now.offset / 8) self.now.bytes }
    {
        self.set.as_view()
    }

    /// Returns the set without its counts.
    pub fn into_inner(self) -> BitBufferMut<A>
        ensures { result ≡ self }
    {
        self.set
    }

    /// Converts the set to one that can be shared, without its counts, in the same storage, as
    /// [`BitBufferMut::freeze`] does. Takes constant time. Allocates the count of owners. Returns
    /// `OutOfMemory` if memory runs out, and drops the set then.
    pub fn freeze(self) -> Result<BitBuffer<A>>
        ensures { Makes (SharesFrom self.offset self.bytes self.bits) result }
    {
        self.into_inner().freeze()
    }

    // Written by tools/write-lists from tools/families/ranked.txt.
    /// Returns the number of true bits among the first `i` bits, as `rank_by` does with a table of
    /// the set. `i` must be at most the length. Reads at most two counts and the bits of one block;
    /// no count if `i` is 0 or the set has at most 512 bits.
    pub fn rank(&self, i: usize) -> usize
        requires { i ≤ length self.now.bits }
        ensures { result ≡ count (take i self.now.bits) }
    {
        self.counts.rank(self.as_view(), i)
    }

    /// Returns the index of the `n`-th true bit, counted from 0, or `None` if at most `n` bits are
    /// true. The search halves the groups until one is left, and then the blocks of that group.
    /// Does not allocate. Returns the same as `select_by` with a table of the set.
    pub fn select(&self, n: usize) -> Option<usize>
        ensures place { Selects self.now.bits n result }
        ensures each { InvertsCount self.now.bits n result }
    {
        self.select_value(n, true)
    }

    /// Returns the index of the `n`-th false bit, counted from 0, or `None` if at most `n` bits are
    /// false. It costs as much as [`select`](Self::select).
    pub fn select_unset(&self, n: usize) -> Option<usize>
        ensures place { Selects (complement self.now.bits) n result }
        ensures each { InvertsCount (complement self.now.bits) n result }
    {
        self.select_value(n, false)
    }

    /// Finds the true bits of many ranks: sets `places[k]` to the result of
    /// [`select`](Self::select) for `ranks[k]`. `places` must have the length of `ranks`. Clause
    /// `each` proves that every true bit with `ranks[k]` true bits before it is the result.
    ///
    /// Above 65,536 bits the call runs eight searches side by side, since each search waits for its
    /// reads. So one call with many ranks is faster than one call for each, most of all if the bits
    /// do not fit in the caches. Fewer than eight ranks run one by one. Does not allocate.
    pub fn select_many(&self, ranks: &[usize], places: &mut [Option<usize>])
        requires { length places.old ≡ length ranks.now }
        ensures places { AllZip (Selects self.now.bits) ranks.now places.new }
        ensures each { AllZip (InvertsCount self.now.bits) ranks.now places.new }
    {
        self.counts.select_many(self.as_view(), ranks, places, true);
    }

    /// Finds the false bits of many ranks: sets `places[k]` to the result of
    /// [`select_unset`](Self::select_unset) for `ranks[k]`. `places` must have the length of
    /// `ranks`. It costs as much as [`select_many`](Self::select_many).
    pub fn select_unset_many(&self, ranks: &[usize], places: &mut [Option<usize>])
        requires { length places.old ≡ length ranks.now }
        ensures places { AllZip (Selects (complement self.now.bits)) ranks.now places.new }
        ensures each { AllZip (InvertsCount (complement self.now.bits)) ranks.now places.new }
    {
        self.counts
            .select_many(self.as_view(), ranks, places, false);
    }

    /// Sets `places[k]` to the index of the true bit of rank `ranks[k]`, as
    /// [`select_many`](Self::select_many) does. Returns `LengthMismatch`, with the length of
    /// `ranks` as `left` and the length of `places` as `right`, exactly if they differ; `places` is
    /// unchanged then. Does not allocate.
    pub fn try_select_many(&self, ranks: &[usize], places: &mut [Option<usize>]) -> Result<()>
        ensures { FindsMany self.now.bits ranks.now places.old places.new result }
    {
        compare_len(ranks, places)?;
        self.select_many(ranks, places);
        Ok(())
    }

    /// Sets `places[k]` to the index of the false bit of rank `ranks[k]`, as
    /// [`select_unset_many`](Self::select_unset_many) does. Returns `LengthMismatch`, with the
    /// length of `ranks` as `left` and the length of `places` as `right`, exactly if they differ;
    /// `places` is unchanged then. Does not allocate.
    pub fn try_select_unset_many(&self, ranks: &[usize], places: &mut [Option<usize>]) -> Result<()>
        ensures { FindsMany (complement self.now.bits) ranks.now places.old places.new result }
    {
        compare_len(ranks, places)?;
        self.select_unset_many(ranks, places);
        Ok(())
    }
    // To here.

    /// Sets the bit at index `i`, which must be below the length, to `v`, and adjusts the counts.
    /// No other bit of the bytes changes. Does not allocate.
    ///
    /// If the bit changes, the counts of the later blocks of its group and the counts before all
    /// later groups change by one: one pass over these.
    ///
    /// ```rust
    /// let set = BitBufferMut::from_indices(alloc, 1000, [7, 700])?;
    /// let mut ranked = Ranked::new(alloc, set)?;
    ///
    /// ranked.set_to(8, true);
    /// assert_eq!(rt; ranked.select(1), Some(8));
    /// ```
    pub fn set_to(&mut self, i: usize, v: bool)
        requires { i < length self.old.bits }
        ensures bits { self.new.bits ≡ slice_set self.old.bits i v }
        ensures bytes { Writes self.old.bytes self.new.bytes (self.old.offset + i) (v ∷ []) }
        ensures keeps { KeepsLayout self.old self.new }
    {
        let was = self.as_view().value(i);
        self.set.set_to(i, v);
        if was != v {
            self.counts.move_behind(i, v);
        }
    }

    /// Returns the index of the `n`-th bit that is `value`. The counts find its block, and the bits
    /// of the block find the bit.
    fn select_value(&self, n: usize, value: bool) -> Option<usize>
        ensures { Selects (hits value self.now.bits) n result }
    {
        self.counts.select(self.as_view(), n, value)
    }
}

/// Makes a copy, as [`Ranked::clone`] does, for code that uses std's trait.
impl<A: Allocator + Clone> Clone for Ranked<A> {
    ghost use Rattle.std.specs.Prelude.{◌≡◌};

    ghost is_clone = { λ s copy. copy ≡ record s { room = copy.room } };

    fn clone(&self) -> Result<Self, AllocError> {
        Ranked::clone(self).or(Err(AllocError))
    }
}
