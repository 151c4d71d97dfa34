//! Constructors from nothing, from equal items, from copies and from iterators.
ghost use Rattle.std.specs.Prelude.{◌≡◌, ◌≢◌, ◌≤◌, ⊤, List, [], length, replicate, IfOk, IsOk, Err};
ghost use Rattle.std.specs.Iterator.{Drains, IsFiniteIterable};
ghost use Rattle.vb_mem.specs.Makes.{Makes};
ghost use Rattle.vb_mem.specs.Collected.{OfItems, OfRun, GivesValues, GivesError, IfItem};
ghost use Rattle.vb_mem.specs.OpenBuffer.{Holds, HoldsMade, preferred_over};

use super::{BufferMut, DEFAULT};
use crate::Result;
use std::alloc::Allocator;
use vb_core::{Alignment, Element, ExtendError, TrustedLen};

impl<T: Element, A: Allocator> BufferMut<T, A> {
    /// Returns an empty buffer with capacity for at least `capacity` items, over-aligned to 256
    /// bytes. Returns `OutOfMemory` if memory runs out.
    pub fn with_capacity(alloc: A, capacity: usize) -> Result<Self>
        ensures { Makes (λ b. HoldsMade [] T.align_exponent b × (capacity ≤ b.room)) result }
    {
        BufferMut::with_capacity_aligned(alloc, capacity, Alignment::of::<T>())
    }

    /// Returns an empty buffer with capacity for at least `capacity` items. It reports `alignment`,
    /// which must be at least the alignment of an item, and is over-aligned to 256 bytes. Returns
    /// `OutOfMemory` if memory runs out.
    pub fn with_capacity_aligned(alloc: A, capacity: usize, alignment: Alignment) -> Result<Self>
        requires { T.align_exponent ≤ alignment }
        ensures { Makes (λ b. HoldsMade [] alignment b × (capacity ≤ b.room)) result }
    {
        BufferMut::with_capacity_preferred_aligned(alloc, capacity, alignment, DEFAULT)
    }

    /// Returns an empty buffer with capacity for at least `capacity` items. It reports `alignment`,
    /// which must be at least the alignment of an item. The storage is declared with `preferred`,
    /// or with `alignment` if that is greater or `preferred` is `None`. Returns `OutOfMemory` if
    /// memory runs out.
    pub fn with_capacity_preferred_aligned(
        alloc: A,
        capacity: usize,
        alignment: Alignment,
        preferred: Option<Alignment>,
    ) -> Result<Self>
        requires { T.align_exponent ≤ alignment }
        ensures { Makes (λ b. Holds [] alignment (preferred_over alignment preferred) b
            × (capacity ≤ b.room)) result }
    {
        let mut buffer = BufferMut::empty_preferred_aligned(alloc, alignment, preferred);
        buffer.reserve(capacity)?;
        Ok(buffer)
    }

    /// Returns `len` zeros, over-aligned to 256 bytes. Returns `OutOfMemory` if memory runs out.
    pub fn zeroed(alloc: A, len: usize) -> Result<Self>
        ensures { Makes (HoldsMade (replicate len T.zero) T.align_exponent) result }
    {
        BufferMut::zeroed_aligned(alloc, len, Alignment::of::<T>())
    }

    /// Returns `len` zeros. The buffer reports `alignment`, which must be at least the alignment of
    /// an item, and is over-aligned to 256 bytes. Returns `OutOfMemory` if memory runs out.
    pub fn zeroed_aligned(alloc: A, len: usize, alignment: Alignment) -> Result<Self>
        requires { T.align_exponent ≤ alignment }
        ensures { Makes (HoldsMade (replicate len T.zero) alignment) result }
    {
        BufferMut::zeroed_preferred_aligned(alloc, len, alignment, DEFAULT)
    }

    /// Returns `len` zeros. The buffer reports `alignment`, which must be at least the alignment of
    /// an item. The storage is declared with `preferred`, or with `alignment` if that is greater or
    /// `preferred` is `None`. Returns `OutOfMemory` if memory runs out.
    pub fn zeroed_preferred_aligned(
        alloc: A,
        len: usize,
        alignment: Alignment,
        preferred: Option<Alignment>,
    ) -> Result<Self>
        requires { T.align_exponent ≤ alignment }
        ensures { Makes (Holds (replicate len T.zero) alignment
            (preferred_over alignment preferred)) result }
    {
        let mut buffer = BufferMut::empty_preferred_aligned(alloc, alignment, preferred);
        buffer.push_n(T::zero(), len)?;
        Ok(buffer)
    }

    /// Returns an empty buffer, over-aligned to 256 bytes. Does not allocate.
    pub fn empty(alloc: A) -> Self
        ensures { HoldsMade [] T.align_exponent result }
    {
        BufferMut::empty_aligned(alloc, Alignment::of::<T>())
    }

    /// Returns an empty buffer that reports `alignment`, which must be at least the alignment of an
    /// item, and is over-aligned to 256 bytes. Does not allocate.
    pub fn empty_aligned(alloc: A, alignment: Alignment) -> Self
        requires { T.align_exponent ≤ alignment }
        ensures { HoldsMade [] alignment result }
    {
        BufferMut::empty_preferred_aligned(alloc, alignment, DEFAULT)
    }

    /// Returns an empty buffer that reports `alignment`, which must be at least the alignment of an
    /// item. The storage is declared with `preferred`, or with `alignment` if that is greater or
    /// `preferred` is `None`. Does not allocate.
    pub fn empty_preferred_aligned(
        alloc: A,
        alignment: Alignment,
        preferred: Option<Alignment>,
    ) -> Self
        requires { T.align_exponent ≤ alignment }
        ensures { Holds [] alignment (preferred_over alignment preferred) result }
    {
        BufferMut::of_vec(Vec::new(alloc), alignment, preferred)
    }

    // Returns the items of a vector. The storage is declared with `preferred`, or with `alignment`
    // if that is greater or `preferred` is `None`.
    pub(crate) fn of_vec(
        items: Vec<T, A>,
        alignment: Alignment,
        preferred: Option<Alignment>,
    ) -> Self
        requires { T.align_exponent ≤ alignment }
        ensures { Holds items.items alignment (preferred_over alignment preferred) result }
    {
        BufferMut {
            items,
            alignment,
            declared: alignment.max(preferred.unwrap_or(Alignment::none())),
        }
    }

    /// Returns `len` copies of `item`, over-aligned to 256 bytes. Returns `OutOfMemory` if memory
    /// runs out.
    pub fn full(alloc: A, item: T, len: usize) -> Result<Self>
        ensures { Makes (HoldsMade (replicate len item) T.align_exponent) result }
    {
        let mut buffer = BufferMut::empty(alloc);
        buffer.push_n(item, len)?;
        Ok(buffer)
    }

    /// Returns a copy of `items`, copied as one block and over-aligned to 256 bytes. Returns
    /// `OutOfMemory` if memory runs out.
    pub fn copy_from(alloc: A, items: &[T]) -> Result<Self>
        ensures { Makes (HoldsMade items.now T.align_exponent) result }
    {
        BufferMut::copy_from_aligned(alloc, items, Alignment::of::<T>())
    }

    /// Returns a copy of `items` that reports `alignment`, which must be at least the alignment of
    /// an item, and is over-aligned to 256 bytes. Returns `OutOfMemory` if memory runs out.
    pub fn copy_from_aligned(alloc: A, items: &[T], alignment: Alignment) -> Result<Self>
        requires { T.align_exponent ≤ alignment }
        ensures { Makes (HoldsMade items.now alignment) result }
    {
        BufferMut::copy_from_preferred_aligned(alloc, items, alignment, DEFAULT)
    }

    /// Returns a copy of `items` that reports `alignment`, which must be at least the alignment of
    /// an item. The storage is declared with `preferred`, or with `alignment` if that is greater or
    /// `preferred` is `None`. Returns `OutOfMemory` if memory runs out.
    pub fn copy_from_preferred_aligned(
        alloc: A,
        items: &[T],
        alignment: Alignment,
        preferred: Option<Alignment>,
    ) -> Result<Self>
        requires { T.align_exponent ≤ alignment }
        ensures { Makes (Holds items.now alignment (preferred_over alignment preferred)) result }
    {
        let mut buffer = BufferMut::empty_preferred_aligned(alloc, alignment, preferred);
        buffer.extend_from_slice(items)?;
        Ok(buffer)
    }

    // Returns a copy of `items` that uses a clone of `alloc`. The clone happens here so that a
    // caller needs no `?` before it drops its own value.
    pub(crate) fn copy_in(alloc: &A, items: &[T], alignment: Alignment) -> Result<Self>
    where
        A: Clone,
        requires { T.align_exponent ≤ alignment }
        ensures { Makes (HoldsMade items.now alignment) result }
    {
        BufferMut::copy_from_aligned(alloc.clone()?, items, alignment)
    }

    /// Returns the items of an iterator, over-aligned to 256 bytes. The caller must prove that the
    /// iterator ends. Returns `OutOfMemory` if memory runs out.
    pub fn from_iter<I: IntoIterator<Item = T>>(alloc: A, iter: I) -> Result<Self>
        requires { IsFiniteIterable I.into_iter_gives I.IntoIter.can_next
            I.IntoIter.remaining iter }
        ensures made { Makes (λ b. OfItems I.into_iter_gives I.IntoIter.next_gives iter
            (λ items. HoldsMade items T.align_exponent b)) result }
        ensures len { IfOk result (λ b. OfRun I.into_iter_gives I.IntoIter.next_gives iter
            (λ n. length b.list ≡ n)) }
    {
        let mut buffer = BufferMut::empty(alloc);
        buffer.extend(iter)?;
        Ok(buffer)
    }

    /// Returns the items of an iterator whose length is known, over-aligned to 256 bytes. The
    /// caller must prove that its `next` may be called. Returns `OutOfMemory`, before it polls the
    /// first item, if memory runs out, but never if the iterator has no items.
    pub fn from_trusted_len_iter<I: TrustedLen<Item = T>>(alloc: A, iter: I) -> Result<Self>
        requires { I.can_next iter }
        ensures made { Makes (λ b. (items : List T) × Drains I.next_gives iter items
            × HoldsMade items T.align_exponent b) result }
        ensures len { IfOk result (λ b. length b.list ≡ I.left iter) }
        ensures none { I.left iter ≡ 0 → IsOk result }
    {
        let mut buffer = BufferMut::empty(alloc);
        buffer.extend_trusted(iter)?;
        Ok(buffer)
    }

    /// Returns the values of an iterator whose length is known, over-aligned to 256 bytes. The
    /// caller must prove that its `next` may be called. Returns `Memory`, before it polls the first
    /// item, if memory runs out, and `Item` with the first error. Does not allocate if the iterator
    /// has no items.
    pub fn try_from_trusted_len_iter<E, I: TrustedLen<Item = Result<T, E>>>(
        alloc: A,
        iter: I,
    ) -> Result<Self, ExtendError<E>>
        requires { I.can_next iter }
        ensures ok { IfOk result (λ b. GivesValues I.next_gives iter
            (λ items. HoldsMade items T.align_exponent b)) }
        ensures len { IfOk result (λ b. length b.list ≡ I.left iter) }
        ensures none { I.left iter ≡ 0 → result ≢ Err ExtendError.Memory }
        ensures item { IfItem result (λ e. GivesError I.next_gives iter e (λ _. ⊤)) }
    {
        let mut buffer = BufferMut::empty(alloc);
        buffer.try_extend_trusted(iter)?;
        Ok(buffer)
    }
}
