//! Sets made from the results of a closure, from lists of truth values, and from iterators.
ghost use Rattle.std.specs.Prelude.{◌≡◌, ◌⊎◌, ⊤, false, length, replicate};
ghost use Rattle.std.specs.Prelude.{◌<◌, All, IfOk, IfErr, MatchResult, OnErr};
ghost use Rattle.std.specs.Iterator.{IsFiniteIterable};
ghost use Rattle.vb_bit_buffer.specs.SharedSet.{IsFreshSet};
ghost use Rattle.vb_bit_bytes.specs.AskedOf.{asked_of};
ghost use Rattle.vb_bit_bytes.specs.Given.{GivesPast};
ghost use Rattle.vb_bits.specs.Bits.{at};
ghost use Rattle.vb_mem.specs.Makes.{Makes};
ghost use Rattle.vb_mem.specs.Collected.{OfItems};
ghost use Rattle.vb_pack.specs.Asked.{Answers, CanAsk, span};
ghost use Rattle.vb_bit_bytes.specs.FromIndices.{IndexRefused};
ghost use Rattle.vb_bits.specs.Marks.{with_true};

use super::BitBuffer;
use std::alloc::Allocator;
use vb_core::{BufferError, Result};

#[tactic(auto, using(crate::proofs::SetLemmas::sets))]
impl<A: Allocator + Clone> BitBuffer<A> {
    /// Calls `f` with each index in `0..len`, in order, and returns the results as a set of offset
    /// 0. The caller must prove that `f` may be called with each index, whatever it returned
    /// before. Packs the results 64 at a time as SIMD vectors of bytes, and the rest bit by bit.
    ///
    /// Allocates as few bytes as hold the bits, and the count of owners. Returns `OutOfMemory`,
    /// before it calls `f`, if memory runs out; clause `fresh` proves that this is the only error.
    pub fn collect_bool<F: FnMut(usize) -> bool>(alloc: A, len: usize, f: &mut F) -> Result<Self>
        requires { CanAsk (F.pre) (F.step) f.old (span 0 len) }
        ensures answered { IfOk result (λ s.
            Answers (F.step) f.old (span 0 len) s.bits f.new) }
        ensures len { IfOk result (λ s. length s.bits ≡ len) }
        ensures fresh { Makes (λ s. IsFreshSet s.bits s) result }
        ensures not_asked { OnErr result (f.new ≡ f.old) }
    {
        let bytes = vb_bit_bytes::collect_bool_shared(alloc, len, f)?;
        Ok(BitBuffer::window_of(bytes, len, 0))
    }

    /// Calls `f` with each index in `0..len`, in order, and returns the results as a set of offset
    /// 0. The caller must prove that `f` may be called with each index, whatever it returned
    /// before. Runs the same code as [`collect_bool`](Self::collect_bool): it does not pick a
    /// version at run time.
    ///
    /// Allocates the bytes of the bits and the count of owners. Returns `OutOfMemory`, before it
    /// calls `f`, if memory runs out.
    pub fn collect_bool_multiversioned<F: FnMut(usize) -> bool>(
        alloc: A,
        len: usize,
        f: &mut F,
    ) -> Result<Self>
        requires { CanAsk (F.pre) (F.step) f.old (span 0 len) }
        ensures answered { IfOk result (λ s.
            Answers (F.step) f.old (span 0 len) s.bits f.new) }
        ensures len { IfOk result (λ s. length s.bits ≡ len) }
        ensures fresh { Makes (λ s. IsFreshSet s.bits s) result }
        ensures not_asked { OnErr result (f.new ≡ f.old) }
    {
        BitBuffer::collect_bool(alloc, len, f)
    }

    /// Calls `f` with each index and the bit there, in order and once each, and returns the results
    /// as a set of offset 0. The caller must prove that `f` may be called with each of them. Packs
    /// the results of full words as SIMD vectors of bytes, and the rest bit by bit.
    ///
    /// The new set has its own storage: the call allocates its bytes and the count of owners with
    /// this set's allocator. Returns `OutOfMemory`, before it calls `f`, if memory runs out, or if
    /// this set's storage already has the maximum number of owners.
    pub fn map_cmp<F: FnMut(usize, bool) -> bool>(&self, f: &mut F) -> Result<Self>
        requires { CanAsk (λ p i. F.pre p i (at self.now.bits i))
            (asked_of F.step self.now.bits)
            f.old (span 0 (length self.now.bits)) }
        ensures answered { IfOk result (λ s.
            Answers (asked_of F.step self.now.bits)
            f.old (span 0 (length self.now.bits)) s.bits f.new) }
        ensures len { IfOk result (λ s. length s.bits ≡ length self.now.bits) }
        ensures fresh { Makes (λ s. IsFreshSet s.bits s) result }
        ensures not_asked { OnErr result (f.new ≡ f.old) }
    {
        // `into_bytes` copies, since this set owns the storage too. The copy provides the
        // allocation: `map_bool_shared` overwrites all of its bits.
        let mut bytes = self.clone()?.into_bytes()?;
        bytes.truncate(self.len.div_ceil(8));
        let source = self.buffer.as_slice();
        let answers = vb_bit_bytes::map_bool_shared(bytes, source, self.offset, self.len, f)?;
        Ok(BitBuffer::window_of(answers, self.len, 0))
    }

    /// Returns the truth values of a slice as a set. Allocates the bytes of the bits and the count
    /// of owners. Returns `OutOfMemory` if memory runs out.
    ///
    /// ```rust
    /// let set = BitBuffer::from_bools(alloc, &[false, true, false, false, true, false])?;
    /// assert_eq!(rt; set.count_range(2, 6), 1);
    /// ```
    pub fn from_bools(alloc: A, bools: &[bool]) -> Result<Self>
        ensures { Makes (IsFreshSet bools.now) result }
    {
        let bytes = vb_bit_bytes::from_bools(alloc, bools)?.freeze()?;
        Ok(BitBuffer::window_of(bytes, bools.len(), 0))
    }

    /// Returns the truth values of a vector as a set, and frees the vector, also on error.
    /// Allocates the bytes of the bits and the count of owners. Returns `OutOfMemory` if memory
    /// runs out.
    pub fn from_bool_vec(alloc: A, bools: Vec<bool, A>) -> Result<Self>
        ensures { Makes (IsFreshSet bools.items) result }
    {
        BitBuffer::from_bools(alloc, bools.as_slice())
    }

    /// Returns the items of an iterator, in order, as a set. The caller must prove that the
    /// iterator ends. Does not use the iterator's size hint: it allocates as the items come, and
    /// the count of owners after the last one.
    ///
    /// Returns `TooManyBits`, at the first item that exceeds `usize::MAX` items, or `OutOfMemory`
    /// if memory runs out. Drops the iterator and its items on error.
    pub fn from_iter<I: IntoIterator<Item = bool>>(alloc: A, iter: I) -> Result<Self>
        requires { IsFiniteIterable I.into_iter_gives I.IntoIter.can_next
            I.IntoIter.remaining iter }
        ensures made { IfOk result (λ s. OfItems I.into_iter_gives I.IntoIter.next_gives iter
            (λ items. s.bits ≡ items)) }
        ensures fresh { IfOk result (λ s. IsFreshSet s.bits s) }
        ensures err { MatchResult result (λ _. ⊤) (λ e. (e ≡ BufferError.OutOfMemory)
            ⊎ ((e ≡ BufferError.TooManyBits)
            × GivesPast I.into_iter_gives I.IntoIter.next_gives iter)) }
    {
        let (bytes, len) = vb_bit_bytes::from_iter(alloc, iter)?;
        Ok(BitBuffer::window_of(bytes.freeze()?, len, 0))
    }

    /// Returns a set of `len` bits that is true exactly at the indices that an iterator returns,
    /// for example `[1, 3].into_iter()` or `indices.iter().copied()`. An index may occur more than
    /// once. The caller must prove that the iterator ends.
    ///
    /// Allocates the bytes of the bits and the count of owners, and no list of the indices. Returns
    /// `OutOfMemory`, before it polls the iterator, if memory runs out. Returns `IndexOutOfRange`
    /// with the first index that is not below `len`, and does not poll the iterator again. Drops
    /// the iterator.
    ///
    /// ```rust
    /// let set = BitBuffer::from_indices(alloc, 6, [1, 4])?;
    /// assert_eq!(rt; set.value(4), true);
    /// assert_eq!(rt; set.true_count(), 2);
    /// ```
    pub fn from_indices<I: IntoIterator<Item = usize>>(
        alloc: A,
        len: usize,
        indices: I,
    ) -> Result<Self>
        requires { IsFiniteIterable I.into_iter_gives I.IntoIter.can_next
            I.IntoIter.remaining indices }
        ensures bits { IfOk result (λ s. OfItems I.into_iter_gives I.IntoIter.next_gives indices
            (λ places. All (λ p. p < len) places
            × (s.bits ≡ with_true (replicate len false) places))) }
        ensures len { IfOk result (λ s. length s.bits ≡ len) }
        ensures fresh { IfOk result (λ s. IsFreshSet s.bits s) }
        ensures refused { IfErr result
            (IndexRefused I.into_iter_gives I.IntoIter.next_gives len indices) }
    {
        let bytes = vb_bit_bytes::from_indices_shared(alloc, len, indices)?;
        Ok(BitBuffer::window_of(bytes, len, 0))
    }
}
