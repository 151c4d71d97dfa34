//! A buffer that shares its storage with other buffers, and slices of it in constant time.
ghost use Rattle.std.specs.Prelude.{◌≡◌, ◌==◌, ◌↔◌, ◌≤◌, [], length, IsTrue};
ghost use Rattle.vb_mem.specs.Makes.{Makes};
ghost use Rattle.vb_mem.specs.SharedBuffer.{IsAlignedTo, ShowsPart, CanSlice, CanNarrow};

use crate::Result;
use crate::content::Content;
use std::alloc::{Allocator, Global};
use std::marker::Model;
use std::ops::Range;
use vb_core::{Alignment, Element};

mod byte_form;
mod convert;
mod make;

/// A list of items. Several buffers may share one storage, and no buffer sees the writes of another
/// one.
///
/// An alignment is a number that the buffer keeps. It does not describe an address: the buffer
/// allocates memory with the alignment of an item. The storage has a declared alignment. The buffer
/// reports an alignment that is at least the alignment of an item and at most the declared one.
/// Unless the buffer is empty, the byte offset of its first item in the storage is a multiple of
/// the reported alignment.
///
/// A constructor reports its argument `alignment`, which must be at least the alignment of an item.
/// A constructor without this argument reports the alignment of an item, except
/// [`Buffer::from_mut`], which keeps both alignments. "Over-aligned to 256 bytes" means that the
/// storage is declared with 256 bytes, or with the reported alignment if that is greater. Equality,
/// order and hash are those of the list.
#[derive(Drop)]
pub struct Buffer<T: Element, A: Allocator = Global> {
    content: Content<T, A>,
    alloc: A,
}

impl<T: Element, A: Allocator> Model for Buffer<T, A> {
    ghost use Rattle.vb_mem.specs.SharedBuffer.{SharedBuffer};

    ghost Value = { SharedBuffer T };

    ghost use Rattle.vb_mem.specs.Content.{seen, IsSound};

    ghost view = { λ b. seen T.SIZE b.content };

    ghost invariant = { λ b. IsSound T.SIZE T.align_exponent b.content };
}

impl<T: Element, A: Allocator> Buffer<T, A> {
    /// Returns the items.
    pub fn as_slice(&self) -> &[T]
        ensures { result.now ≡ self.now.list }
    {
        match &self.content {
            Content::Nothing(_) => &[],
            Content::Stored(storage, None) => storage.as_ref().as_slice(),
            Content::Stored(storage, Some(window)) => {
                &storage.as_ref().as_slice()[window.start..window.start + window.len]
            }
        }
    }

    /// Returns the number of items.
    pub fn len(&self) -> usize
        ensures { result ≡ length self.now.list }
    {
        match &self.content {
            Content::Nothing(_) => 0,
            Content::Stored(storage, None) => storage.as_ref().len(),
            Content::Stored(_, Some(window)) => window.len,
        }
    }

    /// Returns whether the buffer has no items.
    pub fn is_empty(&self) -> bool
        ensures { result ≡ (length self.now.list == 0) }
    {
        self.len() == 0
    }

    /// Returns the alignment that the buffer reports. It is at least the alignment of an item and
    /// at most the declared alignment, and the buffer is aligned to it.
    pub fn alignment(&self) -> Alignment
        ensures value { result ≡ self.now.alignment }
        ensures at_least { T.align_exponent ≤ result }
        ensures fits { result ≤ self.now.declared }
        ensures aligned { IsAlignedTo self.now result }
    {
        match &self.content {
            Content::Nothing(alignment) => *alignment,
            Content::Stored(storage, None) => storage.as_ref().alignment(),
            Content::Stored(_, Some(window)) => window.alignment,
        }
    }

    /// Returns the declared alignment of the storage. It is at least the reported alignment, also
    /// if the buffer is empty.
    pub fn declared(&self) -> Alignment
        ensures value { result ≡ self.now.declared }
        ensures at_least { self.now.alignment ≤ result }
    {
        match &self.content {
            Content::Nothing(alignment) => *alignment,
            Content::Stored(storage, _) => storage.as_ref().declared(),
        }
    }

    /// Returns the allocator that the buffer uses for copies of its items.
    pub fn allocator(&self) -> &A {
        &self.alloc
    }

    /// Returns whether the buffer is aligned to `alignment`: it is empty, or the byte offset of its
    /// first item in the storage is a multiple of `alignment` and its storage is declared with
    /// `alignment` or a greater one.
    pub fn is_aligned(&self, alignment: Alignment) -> bool
        ensures { IsTrue result ↔ IsAlignedTo self.now alignment }
    {
        self.is_empty()
            || (self.content.is_place_divided(alignment, 0) && alignment <= self.declared())
    }

    /// Removes all items, and releases the buffer's storage. The reported alignment does not
    /// change, and the declared one becomes equal to it. Other buffers keep their items.
    pub fn clear(&mut self)
        ensures list { self.new.list ≡ [] }
        ensures alignment { self.new.alignment ≡ self.old.alignment }
    {
        self.content = Content::Nothing(self.alignment());
    }

    /// Returns whether the caller may call [`Buffer::slice_with_alignment`] with `range` and
    /// `alignment`. Three conditions must hold:
    ///
    /// - `range` is in bounds: `range.start <= range.end <= self.len()`.
    /// - `alignment` is at least the alignment of an item.
    /// - The range is empty; or the byte offset of its first item is a multiple of `alignment`, and
    ///   `alignment` is at most [`Buffer::declared`]. The offset counts from the start of the
    ///   storage, not of this buffer.
    pub fn can_slice(&self, range: Range<usize>, alignment: Alignment) -> bool
        ensures { IsTrue result ↔ CanSlice T.SIZE T.align_exponent self.now range alignment }
    {
        range.start <= range.end
            && range.end <= self.len()
            && Alignment::of::<T>() <= alignment
            && (range.start == range.end
                || (self.content.is_place_divided(alignment, range.start)
                    && alignment <= self.declared()))
    }

    /// Removes all items outside `range`. The reported alignment does not change, and other buffers
    /// keep their items. The call does not allocate and does not move items. If the range is empty,
    /// the buffer releases its storage.
    ///
    /// `range` must be in bounds: `range.start <= range.end <= self.len()`. Unless it is empty,
    /// `range.start` times the size of an item in bytes must be a multiple of
    /// [`Buffer::alignment`]. [`Buffer::can_slice`] with that alignment tests both.
    pub fn narrow(&mut self, range: Range<usize>)
        requires { CanNarrow T.SIZE T.align_exponent self.old range }
        ensures { ShowsPart T.SIZE self.old range self.old.alignment self.new }
    {
        let alignment = self.alignment();
        self.content.narrow(range, alignment);
    }
}

impl<T: Element, A: Allocator + Clone> Buffer<T, A> {
    /// Returns the items of `range` as a buffer that reports the same alignment and shares this
    /// buffer's storage. Copies no item. An empty slice keeps no storage.
    ///
    /// `range` must be in bounds: `range.start <= range.end <= self.len()`. Unless it is empty,
    /// `range.start` times the size of an item in bytes must be a multiple of
    /// [`Buffer::alignment`]. [`Buffer::can_slice`] with that alignment tests both.
    /// [`Buffer::slice_unaligned`] accepts any range that is in bounds.
    ///
    /// Returns `OutOfMemory` if cloning the allocator for the slice runs out of memory, or if the
    /// storage already has the maximum number of owners. This buffer does not change, on success or
    /// on error.
    pub fn slice(&self, range: Range<usize>) -> Result<Self>
        requires { CanNarrow T.SIZE T.align_exponent self.now range }
        ensures { Makes (ShowsPart T.SIZE self.now range self.now.alignment) result }
    {
        let alignment = self.alignment();
        self.slice_with_alignment(range, alignment)
    }

    /// Returns the items of `range` as a buffer that reports `alignment` and shares this buffer's
    /// storage. Copies no item. An empty slice keeps no storage.
    ///
    /// `range` must be in bounds: `range.start <= range.end <= self.len()`. `alignment` must be at
    /// least the alignment of an item. Unless the range is empty, the byte offset of its first item
    /// must be a multiple of `alignment`, and `alignment` must be at most [`Buffer::declared`], the
    /// alignment that the storage was declared with. The offset counts from the start of the
    /// storage, not of this buffer, and the call looks at no address. [`Buffer::can_slice`] tests
    /// all of this. A slice that is not empty has that offset and that declared alignment.
    ///
    /// The slice keeps a clone of this buffer's allocator, to allocate memory when its items are
    /// copied. Returns `OutOfMemory` if that clone runs out of memory, or if the storage already
    /// has the maximum number of owners; an empty range is no exception. This buffer does not
    /// change, on success or on error.
    pub fn slice_with_alignment(&self, range: Range<usize>, alignment: Alignment) -> Result<Self>
        requires { CanSlice T.SIZE T.align_exponent self.now range alignment }
        ensures { Makes (ShowsPart T.SIZE self.now range alignment) result }
    {
        let mut part = self.clone()?;
        part.content.narrow(range, alignment);
        Ok(part)
    }

    /// Returns the items of `range` as a buffer that reports the alignment of an item and shares
    /// this buffer's storage, unless it is empty. `range` must be in bounds. Returns the errors of
    /// [`Buffer::slice`].
    pub fn slice_unaligned(&self, range: Range<usize>) -> Result<Self>
        requires order { range.start ≤ range.end }
        requires within { range.end ≤ length self.now.list }
        ensures { Makes (ShowsPart T.SIZE self.now range T.align_exponent) result }
    {
        // The contract of `alignment` shows the prover that the byte offset is a multiple of an
        // item's alignment.
        let _ = self.alignment();
        self.slice_with_alignment(range, Alignment::of::<T>())
    }
}
