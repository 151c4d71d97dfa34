//! A set of bits whose storage several owners may share.
ghost use Rattle.std.specs.Prelude.{◌≡◌, ◌+◌, ◌-◌, ◌*◌, ◌/◌, ◌%◌, ◌^◌, ◌<◌, ◌≤◌, ◌==◌, ◌↔◌};
ghost use Rattle.std.specs.Prelude.{ℕ, [], true, false, length, take, drop, replicate, All};
ghost use Rattle.std.specs.Prelude.{slice_get, slice_range, IsTrue, IsSome, IfSome, IfOk};
ghost use Rattle.std.specs.Prelude.{IsOkUnless};
ghost use Rattle.std.specs.Int.{div_ceil};
ghost use Rattle.vb_bit_buffer.specs.SharedSet.{IsFreshSet, SharesFrom};
ghost use Rattle.vb_bits.specs.Bits.{bits, count, complement, places, Selects, InvertsCount};
ghost use Rattle.vb_bits.specs.InBytes.{InBytes};
ghost use Rattle.vb_bits.specs.Nearest.{IsNext, IsPrevious};
ghost use Rattle.vb_bits.specs.Runs.{last_place, runs};
ghost use Rattle.vb_mem.specs.Makes.{Makes};
ghost use Rattle.vb_view.specs.View.{bits_of, offset_of, bytes_of};
ghost use Rattle.vb_view.specs.Windows.{IsWindow};
ghost use Rattle.vb_walk.specs.Cut.{IsCut};

use std::alloc::{Allocator, Global};
use std::marker::Model;
use std::ops::Range;
use vb_bit_bytes::{copy, full, unaligned};
use vb_bits::get_bit;
use vb_core::{BufferError, Result};
use vb_mem::{Buffer, ByteBuffer, ByteBufferMut};
use vb_view::BitBufferView;
use vb_walk::{BitChunks, BitIndexIterator, BitIterator, BitSliceIterator, UnalignedBitChunk};

mod collect;
mod for_each;
mod operator;
mod traits;

/// A set of bits over a byte buffer of alignment 1. Several owners may share the storage.
///
/// A contract sees its bits, the offset of the first bit, which is below 8, and its bytes.
#[derive(Drop)]
pub struct BitBuffer<A: Allocator + Clone = Global> {
    buffer: ByteBuffer<A>,
    offset: usize,
    len: usize,
}

impl<A: Allocator + Clone> Model for BitBuffer<A> {
    ghost use Rattle.std.specs.Prelude.{◌≡◌, ◌+◌, ◌*◌, ◌<◌, ◌≤◌, ◌^◌, length};
    ghost use Rattle.vb_bits.specs.Bits.{bits};
    ghost use Rattle.vb_bit_buffer.specs.SharedSet.{SharedSet};

    ghost Value = { SharedSet };

    ghost view = { λ s. record {
      bits = bits s.buffer.list s.offset s.len;
      offset = s.offset;
      bytes = s.buffer.list;
    } };

    ghost invariant = { λ s. record {
      inside : s.offset + s.len ≤ 8 * length s.buffer.list;
      first_byte : s.offset < 8;
      fits : s.offset + s.len < 2 ^ 64;
      alignment : s.buffer.alignment ≡ 0;
    } };
}

#[tactic(auto, using(crate::proofs::SetLemmas::sets))]
impl<A: Allocator + Clone> BitBuffer<A> {
    /// Returns the first `len` bits of a byte buffer as a set. The bits must be in bounds of the
    /// buffer. The set shares the buffer's storage. Does not allocate.
    pub fn new(buffer: ByteBuffer<A>, len: usize) -> Self
        requires { len ≤ 8 * length buffer.list }
        ensures value { result
            ≡ record { bits = bits buffer.list 0 len; offset = 0; bytes = buffer.list } }
        ensures len { length result.bits ≡ len }
    {
        BitBuffer::new_with_offset(buffer, len, 0)
    }

    /// Returns the `len` bits of a byte buffer from bit `offset` on as a set. The bits must be in
    /// bounds of the buffer, and `offset + len` must fit in `usize`; `window_fits` tests both. The
    /// set shares the buffer's storage, from the byte of the first bit on, unless there are no
    /// bytes from there on. Does not allocate.
    pub fn new_with_offset(buffer: ByteBuffer<A>, len: usize, offset: usize) -> Self
        requires window { InBytes buffer.list offset len }
        ensures bits { result.bits ≡ bits buffer.list offset len }
        ensures len { length result.bits ≡ len }
        ensures offset { result.offset ≡ offset % 8 }
        ensures bytes { result.bytes ≡ drop (offset / 8) buffer.list }
    {
        BitBuffer::window_of(unaligned(buffer), len, offset)
    }

    /// Does the same as [`new_with_offset`](Self::new_with_offset) for a buffer that already has
    /// alignment 1.
    fn window_of(buffer: ByteBuffer<A>, len: usize, offset: usize) -> Self
        requires window { InBytes buffer.list offset len }
        requires alignment { buffer.alignment ≡ 0 }
        ensures bits { result.bits ≡ bits buffer.list offset len }
        ensures len { length result.bits ≡ len }
        ensures offset { result.offset ≡ offset % 8 }
        ensures bytes { result.bytes ≡ drop (offset / 8) buffer.list }
    {
        let mut buffer = buffer;
        buffer.narrow(offset / 8..buffer.len());
        BitBuffer {
            buffer,
            offset: offset % 8,
            len,
        }
    }

    /// Returns a set of `n` bits, all true. Allocates their bytes and the count of owners. Returns
    /// `OutOfMemory` if memory runs out.
    pub fn new_set(alloc: A, n: usize) -> Result<Self>
        ensures { Makes (IsFreshSet (replicate n true)) result }
    {
        BitBuffer::full(alloc, true, n)
    }

    /// Returns a set of `n` bits, all false. Allocates their bytes and the count of owners. Returns
    /// `OutOfMemory` if memory runs out.
    pub fn new_unset(alloc: A, n: usize) -> Result<Self>
        ensures { Makes (IsFreshSet (replicate n false)) result }
    {
        BitBuffer::full(alloc, false, n)
    }

    /// Returns a set of `n` bits, all `v`. Allocates their bytes and the count of owners. Returns
    /// `OutOfMemory` if memory runs out.
    pub fn full(alloc: A, v: bool, n: usize) -> Result<Self>
        ensures { Makes (IsFreshSet (replicate n v)) result }
    {
        let bytes = full(alloc, v, n)?.freeze()?;
        Ok(BitBuffer::window_of(bytes, n, 0))
    }

    /// Returns a set without bits. Does not allocate.
    pub fn empty(alloc: A) -> Self
        ensures { result ≡ record { bits = []; offset = 0; bytes = [] } }
    {
        BitBuffer::new(Buffer::empty(alloc), 0)
    }

    /// Returns another owner of the same bits, which shares the storage, in constant time.
    /// Allocates nothing but what a clone of the allocator needs. Returns `OutOfMemory` if the
    /// allocator cannot be cloned, or if the storage already has the maximum number of owners.
    pub fn clone(&self) -> Result<Self>
        ensures { Makes (λ s. s ≡ self.now) result }
    {
        let buffer = self.buffer.clone()?;
        Ok(BitBuffer {
            buffer,
            offset: self.offset,
            len: self.len,
        })
    }

    /// Returns the bits of `range` as a set that shares the storage, unless it has no bytes, in
    /// constant time. The range must be in order, and its end must be at most the length. The bytes
    /// of the new set are the bytes of this one from the byte of the first bit to the end, and its
    /// offset is below 8.
    /// [`shrink_offset`](Self::shrink_offset) removes the bytes after the last bit.
    ///
    /// Allocates nothing but what a clone of the allocator needs. Returns `OutOfMemory` if the
    /// allocator cannot be cloned, or if the storage already has the maximum number of owners.
    ///
    /// ```rust
    /// let set = BitBuffer::from_bools(alloc, &[false, true, false, false, true, false])?;
    ///
    /// let part = set.slice(1..5)?;
    /// assert_eq!(rt; (part.len(), part.select(1)), (4, Some(3)));
    /// ```
    pub fn slice(&self, range: Range<usize>) -> Result<Self>
        requires order { range.start ≤ range.end }
        requires within { range.end ≤ length self.now.bits }
        ensures shares { Makes (SharesFrom (self.now.offset + range.start) self.now.bytes
            (slice_range self.now.bits range.start range.end)) result }
        ensures len { IfOk result (λ s. length s.bits ≡ range.end - range.start) }
    {
        let buffer = self.buffer.clone()?;
        Ok(BitBuffer::window_of(buffer, range.end - range.start, self.offset + range.start))
    }

    /// Returns the same bits at the same offset, with as few bytes as hold them. Takes constant
    /// time and does not allocate.
    pub fn shrink_offset(self) -> Self
        ensures bits { result.bits ≡ self.bits }
        ensures offset { result.offset ≡ self.offset }
        ensures bytes { result.bytes
            ≡ take (div_ceil (self.offset + length self.bits) 8) self.bytes }
        ensures byte_len { length result.bytes ≡ div_ceil (self.offset + length self.bits) 8 }
    {
        let BitBuffer {
            mut buffer,
            offset,
            len,
        } = self;
        buffer.narrow(0..(offset + len).div_ceil(8));
        BitBuffer {
            buffer,
            offset,
            len,
        }
    }

    /// Returns the same bits at offset 0, with as few bytes as hold them. If the offset is 0
    /// already, the new set shares the storage. Otherwise the call copies the bits, and allocates
    /// the bytes and the count of their owners with the set's allocator. Returns `OutOfMemory` if
    /// memory runs out, or if the storage already has the maximum number of owners.
    pub fn sliced(&self) -> Result<Self>
        ensures { Makes (IsFreshSet self.now.bits) result }
    {
        let same = self.clone()?;
        if self.offset == 0 {
            return Ok(same.shrink_offset());
        }
        // `into_bytes` copies, since this set owns the storage too. The copy provides the
        // allocation: `copy` overwrites all of its bits.
        let mut bytes = same.into_bytes()?;
        copy(&mut bytes, 0, self.buffer.as_slice(), self.offset, self.len);
        bytes.truncate(self.len.div_ceil(8));
        Ok(BitBuffer::window_of(bytes.freeze()?, self.len, 0))
    }

    /// Returns the bytes that hold the bits, and no others, for writing: in their storage if this
    /// set is the only owner, otherwise as a copy. Returns `OutOfMemory` if memory runs out.
    fn into_bytes(self) -> Result<ByteBufferMut<A>>
        ensures window { IfOk result (λ b. IsWindow b.list self.offset self.bits) }
        ensures len { IfOk result (λ b. length b.list
            ≡ div_ceil (self.offset + length self.bits) 8) }
        ensures alignment { IfOk result (λ b. b.alignment ≡ 0) }
        ensures refused { IsOkUnless result BufferError.OutOfMemory }
    {
        self.shrink_offset().buffer.into_mut()
    }

    /// Returns the offset, the length in bits, and the byte buffer of which the bits were a window,
    /// in constant time. Does not allocate. The buffer has alignment 1.
    pub fn into_inner(self) -> (usize, usize, ByteBuffer<A>)
        ensures offset { result.0 ≡ self.offset }
        ensures len { result.1 ≡ length self.bits }
        ensures bytes { result.2.list ≡ self.bytes }
        ensures window { IsWindow result.2.list self.offset self.bits }
        ensures alignment { result.2.alignment ≡ 0 }
    {
        (self.offset, self.len, self.buffer)
    }

    /// Removes all bits and bytes, and sets the offset to 0. Other owners keep their bits.
    pub fn clear(&mut self)
        ensures { self.new ≡ record { bits = []; offset = 0; bytes = [] } }
    {
        self.buffer.clear();
        self.offset = 0;
        self.len = 0;
    }

    /// Returns the number of bits.
    pub fn len(&self) -> usize
        ensures { result ≡ length self.now.bits }
    {
        self.len
    }

    /// Returns whether the set has no bits.
    pub fn is_empty(&self) -> bool
        ensures { result ≡ (length self.now.bits == 0) }
    {
        self.len == 0
    }

    /// Returns the index of the first bit in the bytes, in bits. It is below 8.
    pub fn offset(&self) -> usize
        ensures value { result ≡ self.now.offset }
        ensures below { result < 8 }
    {
        self.offset
    }

    /// Returns the byte buffer of which the bits are a window. It has alignment 1.
    pub fn inner(&self) -> &ByteBuffer<A>
        ensures bytes { result.now.list ≡ self.now.bytes }
        ensures window { IsWindow result.now.list self.now.offset self.now.bits }
        ensures alignment { result.now.alignment ≡ 0 }
    {
        &self.buffer
    }

    /// Returns the bytes of the bits if the offset is 0, otherwise `None`. The bits of the last
    /// byte after the last bit of the set may have any value.
    pub fn byte_aligned_bytes(&self) -> Option<&[u8]>
        ensures aligned { IsSome result ↔ (self.now.offset ≡ 0) }
        ensures bytes { IfSome result (λ bytes. bytes.now
            ≡ take (div_ceil (length self.now.bits) 8) self.now.bytes) }
        ensures window { IfSome result (λ bytes. IsWindow bytes.now 0 self.now.bits) }
    {
        if self.offset != 0 {
            return None;
        }
        Some(&self.buffer.as_slice()[..self.len.div_ceil(8)])
    }

    /// Returns a read-only view of the bits, in constant time.
    pub fn as_view(&self) -> BitBufferView<'_>
        ensures bits { bits_of result ≡ self.now.bits }
        ensures offset { offset_of result ≡ self.now.offset }
        ensures bytes { bytes_of result ≡ self.now.bytes }
    {
        BitBufferView::new_with_offset(self.buffer.as_slice(), self.len, self.offset)
    }

    /// Returns the bit at index `i`, which must be below the length.
    ///
    /// ```rust
    /// let set = BitBuffer::from_indices(alloc, 6, [1, 4])?;
    /// assert_eq!(rt; set.value(4), true);
    /// ```
    pub fn value(&self, i: usize) -> bool
        requires { i < length self.now.bits }
        ensures { slice_get self.now.bits i ≡ Some result }
    {
        get_bit(self.buffer.as_slice(), self.offset + i)
    }

    /// Returns the number of true bits. Reads each byte of the bits once, 64 bytes at a time.
    ///
    /// ```rust
    /// let set = BitBuffer::from_indices(alloc, 6, [1, 4])?;
    ///
    /// assert_eq!(rt; set.true_count(), 2);
    /// ```
    pub fn true_count(&self) -> usize
        ensures { result ≡ count self.now.bits }
    {
        self.as_view().true_count()
    }

    /// Returns the number of false bits, at the cost of [`true_count`](Self::true_count).
    pub fn false_count(&self) -> usize
        ensures { result ≡ count (complement self.now.bits) }
    {
        self.as_view().false_count()
    }

    /// Returns the number of true bits at indices `start..end`. `start` must be at most `end`, and
    /// `end` at most the length. Reads each byte of these bits once, 64 bytes at a time.
    ///
    /// ```rust
    /// let set = BitBuffer::from_bools(alloc, &[false, true, false, false, true, false])?;
    /// assert_eq!(rt; set.count_range(2, 6), 1);
    /// ```
    pub fn count_range(&self, start: usize, end: usize) -> usize
        requires order { start ≤ end }
        requires within { end ≤ length self.now.bits }
        ensures value { result ≡ count (slice_range self.now.bits start end) }
        ensures adds { (b : ℕ) → start ≤ b → b ≤ end → result
            ≡ count (slice_range self.now.bits start b) + count (slice_range self.now.bits b end) }
    {
        self.as_view().slice(start..end).true_count()
    }

    /// Returns the index of the `n`-th true bit, counted from 0, or `None` if at most `n` bits are
    /// true. Counts from the start, 64 bytes at a time, up to the bytes that have the bit; if there
    /// are more than 4,096 bytes, it may also count some after these.
    ///
    /// ```rust
    /// let set = BitBuffer::from_bools(alloc, &[false, true, false, false, true, false])?;
    ///
    /// assert_eq!(rt; (set.select(1), set.select(2)), (Some(4), None));
    /// ```
    pub fn select(&self, n: usize) -> Option<usize>
        ensures place { Selects self.now.bits n result }
        ensures each { InvertsCount self.now.bits n result }
    {
        self.as_view().select(n)
    }

    /// Returns the index of the `n`-th false bit, counted from 0, or `None` if at most `n` bits are
    /// false. It runs at the cost of [`select`](Self::select).
    pub fn select_unset(&self, n: usize) -> Option<usize>
        ensures place { Selects (complement self.now.bits) n result }
        ensures each { InvertsCount (complement self.now.bits) n result }
    {
        self.as_view().select_unset(n)
    }

    /// Returns the index of the last true bit, or `None` if no bit is true. Reads the last word,
    /// and then words before it, eight at once, up to those that have the bit.
    pub fn last_set_index(&self) -> Option<usize>
        ensures { result ≡ last_place self.now.bits }
    {
        self.as_view().last_set_index()
    }

    /// Returns the index of the first true bit at or after `from`, or `None` if there is none;
    /// there is none if `from` is at least the length. Reads up to the words that have the bit: the
    /// first two words a word at a time, then four words at once. To visit all true bits,
    /// [`set_indices`](Self::set_indices) is faster.
    ///
    /// ```rust
    /// let set = BitBuffer::from_bools(alloc, &[false, true, false, false, true, false])?;
    ///
    /// assert_eq!(rt; (set.next_set(2), set.next_set(5)), (Some(4), None));
    /// ```
    pub fn next_set(&self, from: usize) -> Option<usize>
        ensures { IsNext self.now.bits from result }
    {
        self.as_view().next_set(from)
    }

    /// Returns the index of the first false bit at or after `from`, or `None` if there is none;
    /// there is none if `from` is at least the length. Reads as [`next_set`](Self::next_set) does.
    pub fn next_unset(&self, from: usize) -> Option<usize>
        ensures { IsNext (complement self.now.bits) from result }
    {
        self.as_view().next_unset(from)
    }

    /// Returns the index of the last true bit below `before`, or `None` if there is none. `before`
    /// may be greater than the length. Reads as [`last_set_index`](Self::last_set_index) does, from
    /// index `before` back to the start.
    pub fn previous_set(&self, before: usize) -> Option<usize>
        ensures { IsPrevious self.now.bits before result }
    {
        self.as_view().previous_set(before)
    }

    /// Returns the index of the last false bit below `before`, or `None` if there is none. Reads as
    /// [`previous_set`](Self::previous_set) does.
    pub fn previous_unset(&self, before: usize) -> Option<usize>
        ensures { IsPrevious (complement self.now.bits) before result }
    {
        self.as_view().previous_unset(before)
    }

    /// Returns whether any bit is true; false if there are no bits. Reads up to 64 bits as one
    /// word; of more bits the first eight bytes, then the last eight, then the words between, eight
    /// at once, up to those with a true bit.
    pub fn any_set(&self) -> bool
        ensures { IsTrue result ↔ (0 < count self.now.bits) }
    {
        self.as_view().any_set()
    }

    /// Returns whether all bits are true; true if there are no bits. Reads as
    /// [`any_set`](Self::any_set) does, up to the bytes or words with a false bit.
    pub fn all_set(&self) -> bool
        ensures { IsTrue result ↔ (count self.now.bits ≡ length self.now.bits) }
    {
        self.as_view().all_set()
    }

    /// Returns an iterator over the bits, from either end.
    pub fn iter(&self) -> BitIterator<'_>
        ensures value { result ≡ self.now.bits }
        ensures fits { length self.now.bits < 2 ^ 64 }
    {
        self.as_view().iter()
    }

    /// Returns an iterator over the indices of the true bits, in ascending order.
    pub fn set_indices(&self) -> BitIndexIterator<'_>
        ensures value { result ≡ places self.now.bits }
        ensures below { All (λ i. i < length self.now.bits) result }
        ensures count { length result ≡ count self.now.bits }
        ensures few { length result ≤ length self.now.bits }
        ensures fits { length self.now.bits < 2 ^ 64 }
    {
        self.as_view().set_indices()
    }

    /// Returns an iterator over the runs of true bits, from the start to the end of the set. Each
    /// run is the index of its first bit and the index after its last bit.
    pub fn set_slices(&self) -> BitSliceIterator<'_>
        ensures value { result ≡ runs self.now.bits }
        ensures within { All (λ run. (run.0 < run.1) × (run.1 ≤ length self.now.bits)) result }
        ensures few { length result ≤ length self.now.bits }
        ensures fits { length self.now.bits < 2 ^ 64 }
    {
        self.as_view().set_slices()
    }

    /// Returns the bits as words of 64 bits, beginning with the first bit of the set.
    pub fn chunks(&self) -> BitChunks<'_>
        ensures { result ≡ self.now.bits }
    {
        self.as_view().chunks()
    }

    /// Returns the bits as words that begin at whole bytes: eight bytes each, from the byte of the
    /// first bit on. Bits outside the set are 0 in them.
    pub fn unaligned_chunks(&self) -> UnalignedBitChunk<'_>
        ensures { IsCut self.now.offset self.now.bits result }
    {
        self.as_view().unaligned_chunks()
    }
}
