//! Constructors from nothing, from equal items, from copies, from iterators and from growing
//! buffers.
ghost use Rattle.std.specs.Prelude.{◌≡◌, ◌≤◌, length, List, [], replicate, IfOk};
ghost use Rattle.std.specs.Iterator.{Drains, IsFiniteIterable};
ghost use Rattle.vb_mem.specs.Makes.{Makes};
ghost use Rattle.vb_mem.specs.Collected.{OfItems, OfRun};
ghost use Rattle.vb_mem.specs.OpenBuffer.{preferred_over};
ghost use Rattle.vb_mem.specs.SharedBuffer.{Shows, ShowsMade};

use super::Buffer;
use crate::Result;
use crate::buffer_mut::BufferMut;
use crate::content::Content;
use std::alloc::Allocator;
use std::rc::Rc;
use vb_core::{Alignment, Element, TrustedLen};

impl<T: Element, A: Allocator> Buffer<T, A> {
    /// Returns a buffer without items and storage that reports the alignment of an item. Does not
    /// allocate.
    pub fn empty(alloc: A) -> Self
        ensures list { result.list ≡ [] }
        ensures alignment { result.alignment ≡ T.align_exponent }
    {
        Buffer::empty_aligned(alloc, Alignment::of::<T>())
    }

    /// Returns a buffer without items and storage that reports `alignment`, which must be at least
    /// the alignment of an item. Does not allocate.
    pub fn empty_aligned(alloc: A, alignment: Alignment) -> Self
        requires { T.align_exponent ≤ alignment }
        ensures list { result.list ≡ [] }
        ensures alignment { result.alignment ≡ alignment }
    {
        Buffer {
            content: Content::Nothing(alignment),
            alloc,
        }
    }
}

impl<T: Element, A: Allocator + Clone> Buffer<T, A> {
    /// Returns a copy of `items`, copied as one block and over-aligned to 256 bytes. Returns
    /// `OutOfMemory` if memory runs out.
    ///
    /// ```rust
    /// let values = Buffer::copy_from(alloc, &[7u32, 0, 9, 4])?;
    ///
    /// let rest = values.slice(2..4)?;
    /// assert_eq!(rt; rest.as_slice(), [9, 4].as_slice());
    /// ```
    pub fn copy_from(alloc: A, items: &[T]) -> Result<Self>
        ensures { Makes (ShowsMade items.now T.align_exponent) result }
    {
        BufferMut::copy_from(alloc, items)?.freeze()
    }

    /// Returns a copy of `items` that reports `alignment`, which must be at least the alignment of
    /// an item, and is over-aligned to 256 bytes. Returns `OutOfMemory` if memory runs out.
    pub fn copy_from_aligned(alloc: A, items: &[T], alignment: Alignment) -> Result<Self>
        requires { T.align_exponent ≤ alignment }
        ensures { Makes (ShowsMade items.now alignment) result }
    {
        BufferMut::copy_from_aligned(alloc, items, alignment)?.freeze()
    }

    /// Returns a copy of `items` that reports `alignment`, which must be at least the alignment of
    /// an item. The storage is declared with `preferred`, or with `alignment` if that is greater or
    /// `preferred` is `None`. Returns `OutOfMemory` if memory runs out.
    pub fn copy_from_preferred_aligned(
        alloc: A,
        items: &[T],
        alignment: Alignment,
        preferred: Option<Alignment>,
    ) -> Result<Self>
        requires { T.align_exponent ≤ alignment }
        ensures { Makes (Shows items.now alignment 0 (preferred_over alignment preferred)) result }
    {
        BufferMut::copy_from_preferred_aligned(alloc, items, alignment, preferred)?.freeze()
    }

    /// Returns `len` zeros, over-aligned to 256 bytes. Returns `OutOfMemory` if memory runs out.
    pub fn zeroed(alloc: A, len: usize) -> Result<Self>
        ensures { Makes (ShowsMade (replicate len T.zero) T.align_exponent) result }
    {
        BufferMut::zeroed(alloc, len)?.freeze()
    }

    /// Returns `len` zeros. The buffer reports `alignment`, which must be at least the alignment of
    /// an item, and is over-aligned to 256 bytes. Returns `OutOfMemory` if memory runs out.
    pub fn zeroed_aligned(alloc: A, len: usize, alignment: Alignment) -> Result<Self>
        requires { T.align_exponent ≤ alignment }
        ensures { Makes (ShowsMade (replicate len T.zero) alignment) result }
    {
        BufferMut::zeroed_aligned(alloc, len, alignment)?.freeze()
    }

    /// Returns `len` zeros. The buffer reports `alignment`, which must be at least the alignment of
    /// an item. The storage is declared with `preferred`, or with `alignment` if that is greater or
    /// `preferred` is `None`. Returns `OutOfMemory` if memory runs out.
    pub fn zeroed_preferred_aligned(
        alloc: A,
        len: usize,
        alignment: Alignment,
        preferred: Option<Alignment>,
    ) -> Result<Self>
        requires { T.align_exponent ≤ alignment }
        ensures { Makes (Shows (replicate len T.zero) alignment 0
            (preferred_over alignment preferred)) result }
    {
        BufferMut::zeroed_preferred_aligned(alloc, len, alignment, preferred)?.freeze()
    }

    /// Returns `len` copies of `item`, over-aligned to 256 bytes. Returns `OutOfMemory` if memory
    /// runs out.
    pub fn full(alloc: A, item: T, len: usize) -> Result<Self>
        ensures { Makes (ShowsMade (replicate len item) T.align_exponent) result }
    {
        BufferMut::full(alloc, item, len)?.freeze()
    }

    /// Returns the items of an iterator, over-aligned to 256 bytes. The caller must prove that the
    /// iterator ends. Returns `OutOfMemory` if memory runs out.
    pub fn from_iter<I: IntoIterator<Item = T>>(alloc: A, iter: I) -> Result<Self>
        requires { IsFiniteIterable I.into_iter_gives I.IntoIter.can_next
            I.IntoIter.remaining iter }
        ensures made { Makes (λ b. OfItems I.into_iter_gives I.IntoIter.next_gives iter
            (λ items. ShowsMade items T.align_exponent b)) result }
        ensures len { IfOk result (λ b. OfRun I.into_iter_gives I.IntoIter.next_gives iter
            (λ n. length b.list ≡ n)) }
    {
        BufferMut::from_iter(alloc, iter)?.freeze()
    }

    /// Returns the items of an iterator whose length is known, over-aligned to 256 bytes. The
    /// caller must prove that its `next` may be called. Returns `OutOfMemory` if memory runs out.
    pub fn from_trusted_len_iter<I: TrustedLen<Item = T>>(alloc: A, iter: I) -> Result<Self>
        requires { I.can_next iter }
        ensures made { Makes (λ b. (items : List T) × Drains I.next_gives iter items
            × ShowsMade items T.align_exponent b) result }
        ensures len { IfOk result (λ b. length b.list ≡ I.left iter) }
    {
        BufferMut::from_trusted_len_iter(alloc, iter)?.freeze()
    }

    /// Returns the items of a vector in the vector's storage. Copies no item. The reported and the
    /// declared alignment are the alignment of an item.
    ///
    /// The buffer uses `alloc` for the block that counts owners, and later for copies of the items.
    /// The storage keeps the vector's allocator, and growth uses that one: the only owner can grow
    /// the storage through [`Buffer::into_mut`]. Returns `OutOfMemory` if memory runs out, and
    /// drops the vector then.
    pub fn from_vec(alloc: A, items: Vec<T, A>) -> Result<Self>
        ensures { Makes (Shows items.items T.align_exponent 0 T.align_exponent) result }
    {
        let growing = BufferMut::of_vec(items, Alignment::of::<T>(), None);
        let content = Content::Stored(Rc::new(alloc.clone()?, growing)?, None);
        Ok(Buffer { content, alloc })
    }

    /// Converts a growing buffer to one that can be shared, as [`BufferMut::freeze`] does. Returns
    /// `OutOfMemory` if memory runs out, and drops the growing buffer then.
    pub fn from_mut(growing: BufferMut<T, A>) -> Result<Self>
        ensures { Makes (Shows growing.list growing.alignment 0 growing.declared) result }
    {
        let alloc = growing.allocator().clone()?;
        let content = Content::Stored(Rc::new(alloc.clone()?, growing)?, None);
        Ok(Buffer { content, alloc })
    }
}
