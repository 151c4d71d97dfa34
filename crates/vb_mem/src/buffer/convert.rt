//! More owners of a buffer, other alignments, and conversions to a growing buffer.
ghost use Rattle.std.specs.Prelude.{◌≡◌, ◌≤◌, IfOk, IfErr, IsOk, IsOkAnd, IsErrOf, IsOkUnless};
ghost use Rattle.std.specs.Borrow.{sem};
ghost use Rattle.vb_mem.specs.Makes.{Makes};
ghost use Rattle.vb_mem.specs.OpenBuffer.{Holds};
ghost use Rattle.vb_mem.specs.SharedBuffer.{Shows, ShowsMade, IsAlignedTo, KeepsItems, as_shared};
ghost use Rattle.vb_mem.specs.Loans.{LendsAll};

use super::Buffer;
use crate::Result;
use crate::buffer_mut::BufferMut;
use crate::content::Content;
use std::alloc::{AllocError, Allocator};
use std::mem;
use std::rc::Rc;
use vb_core::{Alignment, BufferError, Element};

impl<T: Element, A: Allocator> Buffer<T, A> {
    /// Returns the same items as a growing buffer if no other buffer shares the storage; otherwise
    /// it returns this buffer as the error. Does not allocate. Takes constant time, unless it has
    /// to move the items to the start of their storage.
    pub fn try_into_mut(self) -> Result<BufferMut<T, A>, Self>
        ensures ok { IfOk result (Holds self.list self.alignment self.declared) }
        ensures err { IfErr result (λ b. b ≡ self) }
    {
        let Buffer { content, alloc } = self;
        match content {
            Content::Nothing(alignment) => {
                Ok(BufferMut::empty_preferred_aligned(alloc, alignment, None))
            }
            Content::Stored(storage, window) => match Rc::try_unwrap(storage) {
                Ok(mut growing) => {
                    if let Some(window) = window {
                        growing.narrow(window);
                    }
                    Ok(growing)
                }
                Err(storage) => {
                    let content = Content::Stored(storage, window);
                    Err(Buffer { content, alloc })
                }
            },
        }
    }

    /// Returns the same buffer with `alignment` as its reported alignment, which must be at least
    /// the alignment of an item. Does not allocate. An empty buffer releases its storage. Returns
    /// `NotAligned` exactly if [`Buffer::is_aligned`] is false for it, and drops the buffer then.
    pub fn ensure_aligned(self, alignment: Alignment) -> Result<Self>
        requires { T.align_exponent ≤ alignment }
        ensures ok { IfOk result (Shows self.list alignment self.place self.declared) }
        ensures aligned { IsAlignedTo self alignment → IsOk result }
        ensures not_aligned { ¬ (IsAlignedTo self alignment) →
            IsErrOf result BufferError.NotAligned }
    {
        if !self.is_aligned(alignment) {
            drop(self);
            return Err(BufferError::NotAligned);
        }
        let mut buffer = self;
        let len = buffer.len();
        buffer.content.narrow(0..len, alignment);
        Ok(buffer)
    }
}

/// Makes another owner, as [`Buffer::clone`] does, for code that uses std's trait.
impl<T: Element, A: Allocator + Clone> Clone for Buffer<T, A> {
    ghost is_clone = { λ b copy. copy ≡ b };

    fn clone(&self) -> Result<Self, AllocError> {
        let alloc = self.alloc.clone()?;
        let content = match &self.content {
            Content::Nothing(alignment) => Content::Nothing(*alignment),
            Content::Stored(storage, window) => Content::Stored(storage.clone()?, *window),
        };
        Ok(Buffer { content, alloc })
    }
}

impl<T: Element, A: Allocator + Clone> Buffer<T, A> {
    /// Returns another owner of the same items, in constant time. Does not allocate memory for the
    /// storage. Returns `OutOfMemory` if cloning the allocator runs out of memory, or if the
    /// storage already has the maximum number of owners.
    pub fn clone(&self) -> Result<Self>
        ensures { Makes (λ b. b ≡ self.now) result }
    {
        Ok(Clone::clone(self)?)
    }

    /// Returns the same items as a growing buffer that reports the same alignment. All other
    /// buffers keep their items.
    ///
    /// If no other buffer shares the storage, the call does not allocate: it moves the items to the
    /// start of the storage, unless they are already there, and drops the items around them. If
    /// another buffer shares the storage, the call copies the items, over-aligned to 256 bytes.
    /// Returns `OutOfMemory` if memory for the copy runs out, and drops this buffer then.
    pub fn into_mut(self) -> Result<BufferMut<T, A>>
        ensures { Makes (λ b. KeepsItems self (as_shared b)) result }
    {
        match self.try_into_mut() {
            Ok(growing) => Ok(growing),
            Err(shared) => {
                let alignment = shared.alignment();
                let copy = BufferMut::copy_in(&shared.alloc, shared.as_slice(), alignment);
                drop(shared);
                copy
            }
        }
    }

    /// Returns the same items with `alignment` as the reported alignment, which must be at least
    /// the alignment of an item. If [`Buffer::is_aligned`] is true for it, the buffer keeps its
    /// storage, unless it is empty, and the call does not allocate and does not fail. Otherwise it
    /// copies the items, over-aligned to 256 bytes. Returns `OutOfMemory` if memory for the copy
    /// runs out, and drops the buffer then.
    pub fn aligned(self, alignment: Alignment) -> Result<Self>
        requires { T.align_exponent ≤ alignment }
        ensures ok { IfOk result (λ b. (b.list ≡ self.list) × (b.alignment ≡ alignment)) }
        ensures in_place { IsAlignedTo self alignment →
            IsOkAnd result (Shows self.list alignment self.place self.declared) }
        ensures copied { ¬ (IsAlignedTo self alignment) →
            IfOk result (ShowsMade self.list alignment) }
        ensures refused { IsOkUnless result BufferError.OutOfMemory }
    {
        if self.is_aligned(alignment) {
            return self.ensure_aligned(alignment);
        }
        let copy = BufferMut::copy_in(&self.alloc, self.as_slice(), alignment);
        drop(self);
        copy?.freeze()
    }

    /// Lends the items as a growing buffer with the same items and reported alignment. The borrower
    /// can write, append and remove items. The reported alignment is the one that
    /// [`Buffer::alignment`] returns. The declared alignment is at least that. It does not change
    /// if the storage does not; a copy is declared with 256 bytes, or with the reported alignment
    /// if that is greater. When the loan ends, this buffer has the items and both alignments that
    /// the growing buffer has then, and its items are at the start of the storage. All other
    /// buffers keep their items.
    ///
    /// If no other buffer shares the storage, the call does not allocate: it moves the items to the
    /// start of the storage, in time linear in their number, or in constant time if they are there,
    /// and drops the items around them. If another buffer does, or if this buffer is empty and has
    /// no storage, the call allocates once for a copy of the items, if there are any, and once for
    /// the count of owners.
    ///
    /// Returns `OutOfMemory` if memory runs out. The buffer is unchanged on error; clause
    /// `writes_back` proves this of the items and the reported alignment. No clause proves that the
    /// call succeeds if the buffer is the only owner.
    pub fn items_mut(&mut self) -> Result<&mut BufferMut<T, A>>
        ensures* writes_back { sem 𝓛 (LendsAll T.row A.row T.Element A.Allocator
            self.entry result) }
        ensures value { Makes (λ growing. KeepsItems self.old (as_shared growing.now)) result }
    {
        if self.content.narrow_lone() {
            return self.content.whole_mut();
        }
        let copy = BufferMut::copy_in(&self.alloc, self.as_slice(), self.alignment())?;
        let storage = Rc::new(self.alloc.clone()?, copy)?;
        drop(mem::replace(&mut self.content, Content::Stored(storage, None)));
        self.content.whole_mut()
    }
}
