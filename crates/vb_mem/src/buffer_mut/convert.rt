//! Conversions from a growing buffer.
ghost use Rattle.std.specs.Prelude.{◌≡◌, ◌<◌, ◌≤◌, ◌⊎◌, ◌*◌, max, [], length};
ghost use Rattle.std.specs.Prelude.{IfOk, OnOk, OnErr, IsOkAnd, IsOkUnless};
ghost use Rattle.vb_core.specs.ByteForm.{byteform};
ghost use Rattle.vb_mem.specs.Makes.{Makes, MakesBytes};
ghost use Rattle.vb_mem.specs.OpenBuffer.{HoldsMade};
ghost use Rattle.vb_mem.specs.SharedBuffer.{Shows};

use super::{BufferMut, DEFAULT};
use crate::Result;
use crate::buffer::Buffer;
use std::alloc::{AllocError, Allocator};
use vb_core::{Alignment, BufferError, Element, bytes_of};

/// Makes a copy, as [`BufferMut::clone`] does, for code that uses std's trait.
impl<T: Element, A: Allocator + Clone> Clone for BufferMut<T, A> {
    ghost is_clone = { λ b copy. HoldsMade b.list b.alignment copy };

    fn clone(&self) -> Result<Self, AllocError> {
        BufferMut::clone(self).or(Err(AllocError))
    }
}

impl<T: Element, A: Allocator + Clone> BufferMut<T, A> {
    /// Returns the buffer, and leaves an empty one that reports the same alignment, over-aligned to
    /// 256 bytes. Returns `OutOfMemory` if cloning the allocator runs out of memory; the buffer is
    /// unchanged on error.
    pub fn take(&mut self) -> Result<Self>
        ensures taken { Makes (λ b. b ≡ self.old) result }
        ensures left { OnOk result (HoldsMade [] self.old.alignment self.new) }
        ensures err { OnErr result (self.new ≡ self.old) }
    {
        let alloc = self.allocator().clone()?;
        let empty = BufferMut::empty_aligned(alloc, self.alignment);
        Ok(std::mem::replace(self, empty))
    }

    /// Returns a copy that reports the same alignment, over-aligned to 256 bytes. Returns
    /// `OutOfMemory` if memory runs out.
    pub fn clone(&self) -> Result<Self>
        ensures { Makes (HoldsMade self.now.list self.now.alignment) result }
    {
        BufferMut::copy_in(self.allocator(), self.as_slice(), self.alignment)
    }

    /// Returns the same items with `alignment` as the reported alignment, which must be at least
    /// the alignment of an item. A buffer that is empty, or whose declared alignment is at least
    /// `alignment`, keeps its storage, and the call does not allocate and does not fail. Otherwise
    /// it copies the items, over-aligned to 256 bytes. Returns `OutOfMemory` if memory for the copy
    /// runs out, and drops the buffer then.
    pub fn aligned(self, alignment: Alignment) -> Result<Self>
        requires { T.align_exponent ≤ alignment }
        ensures ok { IfOk result (λ b. (b.list ≡ self.list) × (b.alignment ≡ alignment)) }
        ensures in_place { (self.list ≡ []) ⊎ (alignment ≤ self.declared) →
            IsOkAnd result (λ b. b ≡ record self {
              alignment = alignment;
              declared = max self.declared alignment;
            }) }
        ensures copied { 0 < length self.list → self.declared < alignment →
            IfOk result (HoldsMade self.list alignment) }
        ensures refused { IsOkUnless result BufferError.OutOfMemory }
    {
        if !self.items.is_empty() && self.declared < alignment {
            let copy = BufferMut::copy_in(self.allocator(), self.as_slice(), alignment);
            drop(self);
            return copy;
        }
        let mut buffer = self;
        buffer.alignment = alignment;
        buffer.declared = buffer.declared.max(alignment);
        Ok(buffer)
    }

    /// Converts the buffer to one that can be shared, in constant time. The new buffer takes over
    /// the storage; the call allocates only for the count of owners. Returns `OutOfMemory` if
    /// memory runs out, and drops the buffer then.
    pub fn freeze(self) -> Result<Buffer<T, A>>
        ensures { Makes (Shows self.list self.alignment 0 self.declared) result }
    {
        Buffer::from_mut(self)
    }

    /// Returns a copy of the items' bytes as a buffer that reports the same alignment, over-aligned
    /// to 256 bytes. Returns the errors of [`Buffer::as_bytes`]. Drops this buffer, also on error.
    pub fn into_byte_buffer(self) -> Result<BufferMut<u8, A>>
        ensures { MakesBytes (length self.list * T.SIZE)
            (HoldsMade (byteform T.form self.list) self.alignment) result }
    {
        let alignment = self.alignment;
        let bytes = bytes_of(self.allocator(), self.as_slice());
        drop(self);
        Ok(BufferMut::of_vec(bytes?, alignment, DEFAULT))
    }
}
