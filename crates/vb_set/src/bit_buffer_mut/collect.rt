//! Sets made from the results of a closure, from lists of truth values, and from iterators.
ghost use Rattle.std.specs.Prelude.{◌≡◌, ◌⊎◌, ◌==◌, ⊤, not, false, length, map, replicate};
ghost use Rattle.std.specs.Prelude.{◌<◌, All, IfOk, IfErr, MatchResult, OnErr};
ghost use Rattle.std.specs.Iterator.{IsFiniteIterable};
ghost use Rattle.vb_bit_bytes.specs.Given.{GivesPast};
ghost use Rattle.vb_mem.specs.Makes.{Makes};
ghost use Rattle.vb_mem.specs.Collected.{OfItems};
ghost use Rattle.vb_pack.specs.Asked.{Answers, CanAsk, span};
ghost use Rattle.vb_set.specs.OpenSet.{IsFreshOpenSet};
ghost use Rattle.vb_bit_bytes.specs.FromIndices.{IndexRefused};
ghost use Rattle.vb_bits.specs.Marks.{with_true};

use super::BitBufferMut;
use std::alloc::Allocator;
use vb_core::{BufferError, Result};

#[tactic(auto, using(vb_bit_bytes::proofs::BytesLemmas::edits))]
impl<A: Allocator + Clone> BitBufferMut<A> {
    /// Calls `f` with each index in `0..len`, in order, and returns the results as a set of offset
    /// 0. The caller must prove that `f` may be called with each index, whatever it returned
    /// before. The set has as few bytes as hold the bits, with alignment 1; clause `fresh` proves
    /// this. Packs the results of full words as SIMD vectors of bytes, and the rest bit by bit.
    ///
    /// Allocates the bytes of the bits. Returns `OutOfMemory`, before it calls `f`, if memory runs
    /// out.
    pub fn collect_bool<F: FnMut(usize) -> bool>(alloc: A, len: usize, f: &mut F) -> Result<Self>
        requires { CanAsk (F.pre) (F.step) f.old (span 0 len) }
        ensures answered { IfOk result (λ s.
            Answers (F.step) f.old (span 0 len) s.bits f.new) }
        ensures len { IfOk result (λ s. length s.bits ≡ len) }
        ensures fresh { Makes (λ s. IsFreshOpenSet s.bits s) result }
        ensures not_asked { OnErr result (f.new ≡ f.old) }
    {
        let bytes = vb_bit_bytes::collect_bool(alloc, len, f)?;
        Ok(BitBufferMut::from_buffer(bytes, 0, len))
    }

    /// Calls `f` with each index in `0..len`, in order, and returns the results as a set of offset
    /// 0. The caller must prove that `f` may be called with each index, whatever it returned
    /// before. Runs the same code as [`collect_bool`](Self::collect_bool): it does not pick a
    /// version at run time.
    ///
    /// Allocates the bytes of the bits. Returns `OutOfMemory`, before it calls `f`, if memory runs
    /// out.
    pub fn collect_bool_multiversioned<F: FnMut(usize) -> bool>(
        alloc: A,
        len: usize,
        f: &mut F,
    ) -> Result<Self>
        requires { CanAsk (F.pre) (F.step) f.old (span 0 len) }
        ensures answered { IfOk result (λ s.
            Answers (F.step) f.old (span 0 len) s.bits f.new) }
        ensures len { IfOk result (λ s. length s.bits ≡ len) }
        ensures fresh { Makes (λ s. IsFreshOpenSet s.bits s) result }
        ensures not_asked { OnErr result (f.new ≡ f.old) }
    {
        BitBufferMut::collect_bool(alloc, len, f)
    }

    /// Returns the truth values of a slice as a set. Allocates the bytes of the bits. Returns
    /// `OutOfMemory` if memory runs out.
    pub fn from_bools(alloc: A, bools: &[bool]) -> Result<Self>
        ensures { Makes (IsFreshOpenSet bools.now) result }
    {
        let bytes = vb_bit_bytes::from_bools(alloc, bools)?;
        Ok(BitBufferMut::from_buffer(bytes, 0, bools.len()))
    }

    /// Returns the truth values of a vector as a set, and frees the vector, also on error.
    /// Allocates the bytes of the bits. Returns `OutOfMemory` if memory runs out.
    pub fn from_bool_vec(alloc: A, bools: Vec<bool, A>) -> Result<Self>
        ensures { Makes (IsFreshOpenSet bools.items) result }
    {
        BitBufferMut::from_bools(alloc, bools.as_slice())
    }

    /// Returns a set with one bit for each byte of `truthy`, true if the byte is not 0. Allocates
    /// the bytes of the bits. Returns `OutOfMemory` if memory runs out.
    pub fn from_truthy(alloc: A, truthy: &[u8]) -> Result<Self>
        ensures { Makes (IsFreshOpenSet (map (λ x. not (x == 0)) truthy.now)) result }
    {
        let bytes = vb_bit_bytes::from_truthy(alloc, truthy)?;
        Ok(BitBufferMut::from_buffer(bytes, 0, truthy.len()))
    }

    /// Returns the items of an iterator, in order, as a set. The caller must prove that the
    /// iterator ends. Does not use the iterator's size hint: it allocates as the items come.
    ///
    /// Returns `TooManyBits`, at the first item that exceeds `usize::MAX` items, or `OutOfMemory`
    /// if memory runs out. Drops the iterator and its items on error.
    pub fn from_iter<I: IntoIterator<Item = bool>>(alloc: A, iter: I) -> Result<Self>
        requires { IsFiniteIterable I.into_iter_gives I.IntoIter.can_next
            I.IntoIter.remaining iter }
        ensures made { IfOk result (λ s. OfItems I.into_iter_gives I.IntoIter.next_gives iter
            (λ items. s.bits ≡ items)) }
        ensures fresh { IfOk result (λ s. IsFreshOpenSet s.bits s) }
        ensures err { MatchResult result (λ _. ⊤) (λ e. (e ≡ BufferError.OutOfMemory)
            ⊎ ((e ≡ BufferError.TooManyBits)
            × GivesPast I.into_iter_gives I.IntoIter.next_gives iter)) }
    {
        let (bytes, len) = vb_bit_bytes::from_iter(alloc, iter)?;
        Ok(BitBufferMut::from_buffer(bytes, 0, len))
    }

    /// Returns a set of `len` bits that is true exactly at the indices that an iterator returns,
    /// for example `[1, 3].into_iter()` or `indices.iter().copied()`. An index may occur more than
    /// once. The caller must prove that the iterator ends.
    ///
    /// Allocates the bytes of the bits, and no list of the indices. Returns `OutOfMemory`, before
    /// it polls the iterator, if memory runs out. Returns `IndexOutOfRange` with the first index
    /// that is not below `len`, and does not poll the iterator again. Drops the iterator.
    pub fn from_indices<I: IntoIterator<Item = usize>>(
        alloc: A,
        len: usize,
        indices: I,
    ) -> Result<Self>
        requires { IsFiniteIterable I.into_iter_gives I.IntoIter.can_next
            I.IntoIter.remaining indices }
        ensures bits { IfOk result (λ s. OfItems I.into_iter_gives I.IntoIter.next_gives indices
            (λ places. All (λ p. p < len) places
            × (s.bits ≡ with_true (replicate len false) places))) }
        ensures len { IfOk result (λ s. length s.bits ≡ len) }
        ensures fresh { IfOk result (λ s. IsFreshOpenSet s.bits s) }
        ensures refused { IfErr result
            (IndexRefused I.into_iter_gives I.IntoIter.next_gives len indices) }
    {
        let bytes = vb_bit_bytes::from_indices(alloc, len, indices)?;
        Ok(BitBufferMut::from_buffer(bytes, 0, len))
    }
}
