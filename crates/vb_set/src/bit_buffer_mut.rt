//! A set of bits that one owner edits.
ghost use Rattle.std.specs.Prelude.{◌≡◌, ◌+◌, ◌-◌, ◌*◌, ◌/◌, ◌%◌, ◌^◌, ◌<◌, ◌≤◌, ◌==◌, [], ◌∷◌};
ghost use Rattle.std.specs.Prelude.{true, false, length, min, take, drop, replicate};
ghost use Rattle.std.specs.Prelude.{◌↔◌, slice_get, slice_set, OnOk, OnErr, IsSome};
ghost use Rattle.std.specs.Borrow.{sem};
ghost use Rattle.std.specs.Int.{div_ceil};
ghost use Rattle.vb_bit_buffer.specs.SharedSet.{SharesFrom};
ghost use Rattle.vb_bits.specs.Bits.{bits};
ghost use Rattle.vb_bits.specs.Edits.{with_fill};
ghost use Rattle.vb_bits.specs.InBytes.{InBytes};
ghost use Rattle.vb_bits.specs.Writes.{Writes};
ghost use Rattle.vb_mem.specs.Makes.{Makes};
ghost use Rattle.vb_set.specs.Lends.{LendsBytes};
ghost use Rattle.vb_set.specs.OpenSet.{bit_room, HoldsShared, IsEmptySet, IsFreshOpenSet};
ghost use Rattle.vb_set.specs.OpenSet.{KeepsLayout};
ghost use Rattle.vb_view.specs.MutView.{store_of, IsSameReference, ShowsWindow};
ghost use Rattle.vb_view.specs.Relation.{TellsNone};
ghost use Rattle.vb_view.specs.View.{bits_of, offset_of, bytes_of};
ghost use Rattle.vb_view.specs.Windows.{IsWindow};

use std::alloc::{Allocator, Global};
use std::marker::Model;
use vb_bit_buffer::BitBuffer;
use vb_bit_bytes::{fill, full, write_bit};
use vb_bits::{BitOp, get_bit};
use vb_core::Result;
use vb_mem::{BufferMut, ByteBufferMut};
use vb_view::{BitBufferMutView, BitBufferView};

mod append;
mod collect;
mod extend;
mod traits;

/// A set of bits that one owner edits, over a byte buffer that grows.
///
/// A contract sees its bits, the offset of the first bit, its bytes with the exponent of their
/// alignment, and the capacity in bits.
#[derive(Drop)]
pub struct BitBufferMut<A: Allocator + Clone = Global> {
    buffer: ByteBufferMut<A>,
    offset: usize,
    len: usize,
}

impl<A: Allocator + Clone> Model for BitBufferMut<A> {
    ghost use Rattle.std.specs.Prelude.{◌+◌, ◌*◌, ◌<◌, ◌≤◌, ◌^◌, length};
    ghost use Rattle.vb_bits.specs.Bits.{bits};
    ghost use Rattle.vb_set.specs.OpenSet.{OpenSet, bit_room};

    ghost Value = { OpenSet };

    ghost view = { λ s. record {
      bits = bits s.buffer.list s.offset s.len;
      offset = s.offset;
      bytes = s.buffer.list;
      alignment = s.buffer.alignment;
      room = bit_room s.buffer.room s.offset;
    } };

    ghost invariant = { λ s. record {
      inside : s.offset + s.len ≤ 8 * length s.buffer.list;
      fits : s.offset + s.len < 2 ^ 64;
    } };
}

#[tactic(auto, using(vb_bit_bytes::proofs::BytesLemmas::edits))]
impl<A: Allocator + Clone> BitBufferMut<A> {
    /// Returns the `len` bits of a byte buffer from bit `offset` on as a set. The bits must be in
    /// bounds of the buffer, and `offset + len` must fit in `usize`; `window_fits` tests both. Does
    /// not allocate. The set allocates later with the buffer's allocator.
    pub fn from_buffer(buffer: ByteBufferMut<A>, offset: usize, len: usize) -> Self
        requires window { InBytes buffer.list offset len }
        ensures bits { result.bits ≡ bits buffer.list offset len }
        ensures len { length result.bits ≡ len }
        ensures offset { result.offset ≡ offset }
        ensures bytes { result.bytes ≡ buffer.list }
        ensures alignment { result.alignment ≡ buffer.alignment }
        ensures room { result.room ≡ bit_room buffer.room offset }
    {
        BitBufferMut {
            buffer,
            offset,
            len,
        }
    }

    /// Returns a set without bits and with capacity for at least `n` bits. Allocates their bytes.
    /// Returns `OutOfMemory` if memory runs out.
    pub fn with_capacity(alloc: A, n: usize) -> Result<Self>
        ensures { Makes (λ s. IsEmptySet 0 s × (n ≤ s.room)) result }
    {
        let buffer = BufferMut::with_capacity(alloc, n.div_ceil(8))?;
        Ok(BitBufferMut::from_buffer(buffer, 0, 0))
    }

    /// Returns a set of `n` bits, all true. Allocates their bytes. Returns `OutOfMemory` if memory
    /// runs out.
    pub fn new_set(alloc: A, n: usize) -> Result<Self>
        ensures { Makes (IsFreshOpenSet (replicate n true)) result }
    {
        BitBufferMut::full(alloc, true, n)
    }

    /// Returns a set of `n` bits, all false. Allocates their bytes. Returns `OutOfMemory` if memory
    /// runs out.
    ///
    /// ```rust
    /// let mut rows = BitBufferMut::new_unset(alloc, 2)?;
    /// rows.append(true)?;
    /// rows.append_n(false, 3)?;
    /// assert_eq!(rt; (rows.len(), rows.value(2)), (6, true));
    /// ```
    pub fn new_unset(alloc: A, n: usize) -> Result<Self>
        ensures { Makes (IsFreshOpenSet (replicate n false)) result }
    {
        BitBufferMut::full(alloc, false, n)
    }

    /// Returns a set of `n` bits, all `v`. Allocates their bytes. Returns `OutOfMemory` if memory
    /// runs out.
    pub fn full(alloc: A, v: bool, n: usize) -> Result<Self>
        ensures { Makes (IsFreshOpenSet (replicate n v)) result }
    {
        Ok(BitBufferMut::from_buffer(full(alloc, v, n)?, 0, n))
    }

    /// Returns a set without bits. Does not allocate.
    pub fn empty(alloc: A) -> Self
        ensures { IsEmptySet 0 result }
    {
        BitBufferMut::from_buffer(BufferMut::empty(alloc), 0, 0)
    }

    /// Returns a copy of a shared set, with all its bytes. Allocates these bytes with `alloc`.
    /// Returns `OutOfMemory` if memory runs out.
    pub fn copy_from(alloc: A, set: &BitBuffer<A>) -> Result<Self>
        ensures { Makes (HoldsShared set.now) result }
    {
        let buffer = BufferMut::copy_from(alloc, set.inner().as_slice())?;
        Ok(BitBufferMut::from_buffer(buffer, set.offset(), set.len()))
    }

    /// Returns a copy of the set, with all its bytes; its capacity may be another one. Allocates
    /// these bytes with the set's allocator. Returns `OutOfMemory` if memory runs out.
    pub fn clone(&self) -> Result<Self>
        ensures { Makes (λ s. s ≡ record self.now { room = s.room }) result }
    {
        let buffer = self.buffer.clone()?;
        Ok(BitBufferMut::from_buffer(buffer, self.offset, self.len))
    }

    /// Returns the set, with its capacity, and leaves an empty one with the same alignment and
    /// offset 0.
    ///
    /// Returns `OutOfMemory` if the allocator cannot be cloned; the set and its capacity are
    /// unchanged then.
    pub fn take(&mut self) -> Result<Self>
        ensures taken { Makes (λ s. s ≡ self.old) result }
        ensures left { OnOk result (IsEmptySet self.old.alignment self.new) }
        ensures err { OnErr result (self.new ≡ self.old) }
    {
        let buffer = self.buffer.take()?;
        let taken = BitBufferMut::from_buffer(buffer, self.offset, self.len);
        self.offset = 0;
        self.len = 0;
        Ok(taken)
    }

    /// Converts the set to one that can be shared, in the same storage, from the byte of the first
    /// bit on; if there are no bytes from there on, it releases the storage. Takes constant time.
    /// Allocates the count of owners. Returns `OutOfMemory` if memory runs out, and drops the set
    /// then.
    ///
    /// ```rust
    /// let rows = BitBufferMut::new_set(alloc, 4)?;
    /// let shared = rows.freeze()?;
    /// assert_eq!(rt; shared.true_count(), 4);
    /// ```
    pub fn freeze(self) -> Result<BitBuffer<A>>
        ensures { Makes (SharesFrom self.offset self.bytes self.bits) result }
    {
        let offset = self.offset();
        let len = self.len();
        let buffer = self.into_inner().freeze()?;
        Ok(BitBuffer::new_with_offset(buffer, len, offset))
    }

    /// Returns the byte buffer of which the bits were a window, in constant time. Does not
    /// allocate. It does not return the offset and the length; read them before.
    pub fn into_inner(self) -> ByteBufferMut<A>
        ensures bytes { result.list ≡ self.bytes }
        ensures window { IsWindow result.list self.offset self.bits }
        ensures alignment { result.alignment ≡ self.alignment }
        ensures room { self.room ≡ bit_room result.room self.offset }
    {
        self.buffer
    }

    /// Returns the number of bits.
    pub fn len(&self) -> usize
        ensures { result ≡ length self.now.bits }
    {
        self.len
    }

    /// Returns whether the set has no bits.
    pub fn is_empty(&self) -> bool
        ensures { result ≡ (length self.now.bits == 0) }
    {
        self.len == 0
    }

    /// Returns the index of the first bit in the bytes, in bits. It may be 8 or more.
    pub fn offset(&self) -> usize
        ensures { result ≡ self.now.offset }
    {
        self.offset
    }

    /// Returns the capacity in bits: up to this length an append does not allocate.
    pub fn capacity(&self) -> usize
        ensures room { result ≡ self.now.room }
        ensures holds_bits { length self.now.bits ≤ result }
    {
        self.buffer.capacity().saturating_mul(8) - self.offset
    }

    /// Returns the byte buffer of which the bits are a window.
    pub fn inner(&self) -> &ByteBufferMut<A>
        ensures bytes { result.now.list ≡ self.now.bytes }
        ensures window { IsWindow result.now.list self.now.offset self.now.bits }
        ensures alignment { result.now.alignment ≡ self.now.alignment }
        ensures room { self.now.room ≡ bit_room result.now.room self.now.offset }
    {
        &self.buffer
    }

    /// Returns the bytes of which the bits are a window.
    pub fn as_slice(&self) -> &[u8]
        ensures bytes { result.now ≡ self.now.bytes }
        ensures window { IsWindow result.now self.now.offset self.now.bits }
    {
        self.buffer.as_slice()
    }

    /// Lends all bytes for writing, also the bits outside the set. When the loan ends, the set has
    /// the bytes that the slice has then; offset, length, number of bytes, alignment and capacity
    /// do not change.
    pub fn as_mut_slice(&mut self) -> &mut [u8]
        ensures* writes_back { sem 𝓛 (LendsBytes A.row A.Allocator A.Clone self.entry result) }
        ensures bytes { result.now ≡ self.old.bytes }
        ensures window { IsWindow result.now self.old.offset self.old.bits }
    {
        self.buffer.as_mut_slice()
    }

    /// Returns a read-only view of the bits, in constant time. Its bytes begin with the byte of the
    /// first bit.
    pub fn as_view(&self) -> BitBufferView<'_>
        ensures bits { bits_of result ≡ self.now.bits }
        ensures offset { offset_of result ≡ self.now.offset % 8 }
        ensures bytes { bytes_of result ≡ drop (self.now.offset / 8) self.now.bytes }
    {
        BitBufferView::new_with_offset(self.buffer.as_slice(), self.len, self.offset)
    }

    /// Returns a view that writes the bits, in constant time. It borrows the set. When the borrow
    /// ends, the set has the bits and bytes that the view has then. Offset, number of bytes,
    /// alignment, capacity and all bits outside the set do not change.
    ///
    /// Clause `lends`: the view writes to this `&mut` itself, so its bytes are the bytes of the
    /// set; the clauses of [`BitStore`] state the effect of each write. Clause `window`: the bits
    /// of the view are the bits of the set, and the first one is at the set's offset. That offset
    /// may be 8 or more; the view's `offset()` returns it modulo 8.
    pub fn as_mut_view(&mut self) -> BitBufferMutView<&mut BitBufferMut<A>>
        ensures lends { IsSameReference (store_of result) self.entry }
        ensures window { ShowsWindow self.old.offset self.old.bits result }
    {
        let offset = self.offset();
        let len = self.len();
        BitBufferMutView::over(self, offset, len)
    }

    /// Returns the bit at index `i`, which must be below the length.
    pub fn value(&self, i: usize) -> bool
        requires { i < length self.now.bits }
        ensures { slice_get self.now.bits i ≡ Some result }
    {
        get_bit(self.buffer.as_slice(), self.offset + i)
    }

    /// Returns whether no index is true in both sets; true if there are no bits. Reads both by
    /// words from the start, up to the first word with such an index, and does not allocate.
    /// Returns `LengthMismatch` exactly if the lengths differ.
    pub fn is_disjoint(&self, other: &Self) -> Result<bool>
        ensures { TellsNone BitOp.And self.now.bits other.now.bits result }
    {
        self.as_view().is_disjoint(&other.as_view())
    }

    /// Returns whether each index that is true in this set is true in the other one; true if there
    /// are no bits. Reads both by words from the start, up to the first word with an index that is
    /// not, and does not allocate. Returns `LengthMismatch` exactly if the lengths differ.
    pub fn is_subset(&self, other: &Self) -> Result<bool>
        ensures { TellsNone BitOp.AndNot self.now.bits other.now.bits result }
    {
        self.as_view().is_subset(&other.as_view())
    }

    /// Sets the bit at index `i`, which must be below the length, to `v`. No other bit of the bytes
    /// changes.
    pub fn set_to(&mut self, i: usize, v: bool)
        requires { i < length self.old.bits }
        ensures bits { self.new.bits ≡ slice_set self.old.bits i v }
        ensures bytes { Writes self.old.bytes self.new.bytes (self.old.offset + i) (v ∷ []) }
        ensures keeps { KeepsLayout self.old self.new }
    {
        write_bit(&mut self.buffer, self.offset + i, v);
    }

    /// Sets the bit at index `i`, which must be below the length, to true. No other bit of the
    /// bytes changes.
    pub fn set(&mut self, i: usize)
        requires { i < length self.old.bits }
        ensures bits { self.new.bits ≡ slice_set self.old.bits i true }
        ensures bytes { Writes self.old.bytes self.new.bytes (self.old.offset + i) (true ∷ []) }
        ensures keeps { KeepsLayout self.old self.new }
    {
        self.set_to(i, true);
    }

    /// Sets the bit at index `i`, which must be below the length, to false. No other bit of the
    /// bytes changes.
    pub fn unset(&mut self, i: usize)
        requires { i < length self.old.bits }
        ensures bits { self.new.bits ≡ slice_set self.old.bits i false }
        ensures bytes { Writes self.old.bytes self.new.bytes (self.old.offset + i) (false ∷ []) }
        ensures keeps { KeepsLayout self.old self.new }
    {
        self.set_to(i, false);
    }

    /// Sets the bits at indices `start..end` to `v`, whole bytes at a time. `start` must be at most
    /// `end`, and `end` at most the length. No other bit of the bytes changes.
    ///
    /// ```rust
    /// let mut rows = BitBufferMut::new_unset(alloc, 2)?;
    ///
    /// rows.fill_range(0, 2, true);
    /// assert_eq!(rt; rows.value(1), true);
    /// ```
    pub fn fill_range(&mut self, start: usize, end: usize, v: bool)
        requires order { start ≤ end }
        requires within { end ≤ length self.old.bits }
        ensures bits { self.new.bits ≡ with_fill self.old.bits start end v }
        ensures bytes { Writes self.old.bytes self.new.bytes (self.old.offset + start)
            (replicate (end - start) v) }
        ensures keeps { KeepsLayout self.old self.new }
    {
        fill(&mut self.buffer, self.offset + start, self.offset + end, v);
    }

    /// Removes all bits after the first `n`, and the bytes after the last bit. If there are fewer
    /// than `n` bits, the set and its bytes are unchanged. Offset and capacity do not change.
    pub fn truncate(&mut self, n: usize)
        ensures bits { self.new.bits ≡ take n self.old.bits }
        ensures len { length self.new.bits ≡ min n (length self.old.bits) }
        ensures bytes { n ≤ length self.old.bits
            → self.new.bytes ≡ take (div_ceil (self.old.offset + n) 8) self.old.bytes }
        ensures byte_len { n ≤ length self.old.bits
            → length self.new.bytes ≡ div_ceil (self.old.offset + n) 8 }
        ensures keeps { self.new
            ≡ record self.old { bits = self.new.bits; bytes = self.new.bytes } }
        ensures past_end { length self.old.bits < n → self.new ≡ self.old }
    {
        if n <= self.len {
            self.buffer.truncate((self.offset + n).div_ceil(8));
            self.len = n;
        }
    }

    /// Removes the last bit and returns it, in constant time. Keeps the bytes that
    /// [`truncate`](Self::truncate) to the new length keeps: those up to the end of the other bits.
    /// Returns `None` exactly if there are no bits; the set is unchanged then. Offset and capacity
    /// do not change.
    pub fn pop(&mut self) -> Option<bool>
        ensures last { slice_get self.old.bits (length self.old.bits - 1) ≡ result }
        ensures some { IsSome result ↔ (0 < length self.old.bits) }
        ensures bits { self.new.bits ≡ take (length self.old.bits - 1) self.old.bits }
        ensures len { length self.new.bits ≡ length self.old.bits - 1 }
        ensures bytes { 0 < length self.old.bits → self.new.bytes
            ≡ take (div_ceil (self.old.offset + (length self.old.bits - 1)) 8) self.old.bytes }
        ensures keeps { self.new
            ≡ record self.old { bits = self.new.bits; bytes = self.new.bytes } }
        ensures none { length self.old.bits ≡ 0 → self.new ≡ self.old }
    {
        if self.len == 0 {
            return None;
        }
        let last = self.len - 1;
        let bit = self.value(last);
        self.truncate(last);
        Some(bit)
    }

    /// Removes all bits and bytes, and sets the offset to 0. The capacity does not shrink.
    pub fn clear(&mut self)
        ensures left { IsEmptySet self.old.alignment self.new }
        ensures room { self.old.room ≤ self.new.room }
    {
        self.buffer.clear();
        self.offset = 0;
        self.len = 0;
    }
}
