//! A buffer whose alignment is part of its type.
ghost use Rattle.std.specs.Prelude.{◌≡◌, ◌≢◌, ◌%◌, ◌^◌, ◌≤◌, ◌==◌, length};
ghost use Rattle.std.specs.Prelude.{IfOk, IsOkAnd, IsErrOf, IsOkUnless};
ghost use Rattle.std.specs.Slice.Iter.{iter_rest};
ghost use Rattle.vb_core.specs.Alignments.{IsPower};
ghost use Rattle.vb_mem.specs.Makes.{Makes};
ghost use Rattle.vb_mem.specs.SharedBuffer.{IsAlignedTo, Shows, ShowsMade};
ghost use Rattle.vortex_buffer.specs.Fixed.{HasAlignment, OfBytes, ShowsFixed};

use std::alloc::{AllocError, Allocator, Global};
use std::marker::Model;
use vb_core::{Alignment, BufferError, Element};
use vb_mem::{Buffer, Iter, Result};

/// A buffer that is aligned to `N` bytes, and reports `N` bytes or a multiple.
///
/// Contracts see it as its buffer, [`ConstBuffer::inner`]. Equality, order, hash and `Debug` are
/// those of the buffer.
#[derive(Drop)]
pub struct ConstBuffer<T: Element, const N: usize, A: Allocator = Global> {
    buffer: Buffer<T, A>,
}

/// A buffer of bytes that is aligned to `N` bytes.
pub type ConstByteBuffer<const N: usize, A = Global> = ConstBuffer<u8, N, A>;

impl<T: Element, const N: usize, A: Allocator> Model for ConstBuffer<T, N, A> {
    ghost use Rattle.vb_mem.specs.SharedBuffer.{SharedBuffer};
    ghost use Rattle.vortex_buffer.specs.Fixed.{HasAlignment};

    ghost Value = { SharedBuffer T };

    ghost view = { λ fixed. fixed.buffer };

    ghost invariant = { λ fixed. HasAlignment N fixed.buffer };
}

impl<T: Element, const N: usize, A: Allocator> ConstBuffer<T, N, A> {
    /// Returns the alignment of `N` bytes. `N` must be a power of two.
    pub fn alignment() -> Alignment
        requires { IsPower N }
        ensures { 2 ^ result ≡ N }
    {
        Alignment::new(N)
    }

    /// Returns the buffer if its reported alignment is a multiple of `N`. Does not allocate.
    /// Returns `NotPowerOfTwo` exactly if `N` is 0 or not a power of two, and `NotAligned` exactly
    /// if `N` is a power of two that does not divide the reported alignment. Drops the buffer on
    /// error.
    #[tactic(auto, using(crate::proofs::Exponents::is_power))]
    pub fn try_from_buffer(buffer: Buffer<T, A>) -> Result<Self>
        ensures ok { IfOk result (λ fixed. fixed ≡ buffer) }
        ensures aligned { IsPower N → 2 ^ buffer.alignment % N ≡ 0 → result ≡ Ok buffer }
        ensures not_aligned { IsPower N → 2 ^ buffer.alignment % N ≢ 0 →
            IsErrOf result BufferError.NotAligned }
        ensures no_power { ¬ (IsPower N) → IsErrOf result (BufferError.NotPowerOfTwo N) }
    {
        if !N.is_power_of_two() {
            return Err(BufferError::NotPowerOfTwo { value: N });
        }
        if !buffer.alignment().is_aligned_to(Alignment::new(N)) {
            return Err(BufferError::NotAligned);
        }
        Ok(ConstBuffer::of(buffer))
    }

    // Returns a buffer that reports `N` bytes or more.
    pub(crate) fn of(buffer: Buffer<T, A>) -> Self
        requires { OfBytes N (λ exponent. exponent ≤ buffer.alignment) }
        ensures { result ≡ buffer }
    {
        // The contract of `alignment` shows the prover that the buffer has the alignment that it
        // reports.
        let _ = buffer.alignment();
        ConstBuffer { buffer }
    }

    /// Returns the items.
    pub fn as_slice(&self) -> &[T]
        ensures { result.now ≡ self.now.list }
    {
        self.buffer.as_slice()
    }

    /// Returns the number of items.
    pub fn len(&self) -> usize
        ensures { result ≡ length self.now.list }
    {
        self.buffer.len()
    }

    /// Returns whether the buffer has no items.
    pub fn is_empty(&self) -> bool
        ensures { result ≡ (length self.now.list == 0) }
    {
        self.buffer.is_empty()
    }

    /// Returns an iterator over the items, by reference.
    pub fn iter(&self) -> Iter<'_, T>
        ensures { iter_rest result ≡ self.now.list }
    {
        self.buffer.iter()
    }

    /// Returns the buffer.
    pub fn inner(&self) -> &Buffer<T, A>
        ensures value { result.now ≡ self.now }
        ensures aligned { HasAlignment N result.now }
    {
        &self.buffer
    }

    /// Converts this buffer to one without `N` in its type.
    pub fn into_inner(self) -> Buffer<T, A>
        ensures value { result ≡ self }
        ensures aligned { HasAlignment N result }
    {
        self.buffer
    }
}

impl<T: Element, const N: usize, A: Allocator + Clone> ConstBuffer<T, N, A> {
    /// Returns a copy of `items` that is aligned to `N` bytes, reports `N`, and is over-aligned to
    /// 256 bytes. `N` must be a power of two and at least the alignment of an item. Returns
    /// `OutOfMemory` if memory runs out.
    pub fn copy_from(alloc: A, items: &[T]) -> Result<Self>
        requires power { IsPower N }
        requires at_least { T.ALIGN ≤ N }
        ensures { Makes (ShowsFixed items.now N) result }
    {
        let buffer = Buffer::copy_from_aligned(alloc, items, Self::alignment())?;
        Ok(ConstBuffer::of(buffer))
    }

    /// Returns the items of `buffer`, aligned to `N` bytes and reporting `N`. `N` must be a power
    /// of two and at least the alignment of an item. If [`Buffer::is_aligned`] is true for `N`
    /// bytes, the buffer keeps its storage, unless it is empty, and the call does not allocate and
    /// does not fail. Otherwise it copies the items, over-aligned to 256 bytes. Returns
    /// `OutOfMemory` if memory for the copy runs out, and drops the buffer then.
    pub fn align_from(buffer: Buffer<T, A>) -> Result<Self>
        requires power { IsPower N }
        requires at_least { T.ALIGN ≤ N }
        ensures ok { IfOk result (λ fixed. (fixed.list ≡ buffer.list)
            × OfBytes N (λ exponent. fixed.alignment ≡ exponent)) }
        ensures in_place { OfBytes N (λ exponent. IsAlignedTo buffer exponent →
            IsOkAnd result (Shows buffer.list exponent buffer.place buffer.declared)) }
        ensures copied { OfBytes N (λ exponent. ¬ (IsAlignedTo buffer exponent) →
            IfOk result (ShowsMade buffer.list exponent)) }
        ensures refused { IsOkUnless result BufferError.OutOfMemory }
    {
        let buffer = buffer.aligned(Self::alignment())?;
        Ok(ConstBuffer::of(buffer))
    }

    /// Returns another owner of the same items, in constant time. Does not allocate memory for the
    /// storage. Returns `OutOfMemory` if cloning the allocator runs out of memory, or if the
    /// storage already has the maximum number of owners.
    pub fn clone(&self) -> Result<Self>
        ensures { Makes (λ fixed. fixed ≡ self.now) result }
    {
        Ok(ConstBuffer {
            buffer: self.buffer.clone()?,
        })
    }
}

impl<'a, T: Element, const N: usize, A: Allocator> IntoIterator for &'a ConstBuffer<T, N, A> {
    type Item = &'a T;

    type IntoIter = Iter<'a, T>;

    ghost into_iter_gives = { λ fixed it. iter_rest it ≡ fixed.now.list };

    fn into_iter(self) -> Iter<'a, T> {
        self.buffer.iter()
    }
}

impl<T: Element, const N: usize, A: Allocator + Clone> Clone for ConstBuffer<T, N, A> {
    ghost is_clone = { λ fixed copy. copy ≡ fixed };

    /// Does the same as [`ConstBuffer::clone`], for code that is generic over std's `Clone`.
    fn clone(&self) -> std::result::Result<Self, AllocError> {
        ConstBuffer::clone(self).map_err(|_| AllocError)
    }
}
