//! Conversions between the items of buffers and their bytes.
ghost use Rattle.std.specs.Prelude.{◌≡◌, ◌*◌, ◌≤◌, length};
ghost use Rattle.vb_core.specs.ByteForm.{byteform};
ghost use Rattle.vb_mem.specs.Makes.{MakesBytes, ReadsBytes};
ghost use Rattle.vb_mem.specs.SharedBuffer.{ShowsMade, ShowsRead};

use super::Buffer;
use crate::Result;
use crate::buffer_mut::{BufferMut, DEFAULT};
use bytes::Bytes;
use std::alloc::Allocator;
use vb_core::{Alignment, Element, bytes_of, items_of};

impl<T: Element, A: Allocator + Clone> Buffer<T, A> {
    /// Returns a copy of the items' bytes as a buffer of alignment 1, over-aligned to 256 bytes.
    /// This buffer does not change. Returns `TooManyBytes` if the number of bytes exceeds
    /// `usize::MAX`. Otherwise it returns `OutOfMemory` if memory runs out.
    pub fn as_bytes(&self) -> Result<Buffer<u8, A>>
        ensures { MakesBytes (length self.now.list * T.SIZE)
            (ShowsMade (byteform T.form self.now.list) 0) result }
    {
        let bytes = bytes_of(&self.alloc, self.as_slice())?;
        BufferMut::of_vec(bytes, Alignment::none(), DEFAULT).freeze()
    }

    /// Returns a copy of the items' bytes as a buffer that reports the same alignment, over-aligned
    /// to 256 bytes. Returns the errors of [`Buffer::as_bytes`]. Drops this buffer, also on error.
    pub fn into_byte_buffer(self) -> Result<Buffer<u8, A>>
        ensures { MakesBytes (length self.list * T.SIZE)
            (ShowsMade (byteform T.form self.list) self.alignment) result }
    {
        let alignment = self.alignment();
        let bytes = bytes_of(&self.alloc, self.as_slice());
        drop(self);
        BufferMut::of_vec(bytes?, alignment, DEFAULT).freeze()
    }

    /// Returns a copy of the items' bytes as `Bytes`. Returns the errors of [`Buffer::as_bytes`].
    /// Drops this buffer, also on error.
    pub fn into_bytes(self) -> Result<Bytes<A>>
        ensures { MakesBytes (length self.list * T.SIZE)
            (λ bytes. bytes ≡ byteform T.form self.list) result }
    {
        let bytes = bytes_of(&self.alloc, self.as_slice());
        drop(self);
        Ok(Bytes::from_vec(bytes?)?)
    }

    /// Reads the items whose bytes are `bytes` into new storage, each once, and over-aligns it to
    /// 256 bytes. The buffer reports `alignment`, which must be at least the alignment of an item,
    /// and keeps `alloc`. Returns `ByteLength`, before it allocates, exactly if the size of an item
    /// does not divide the number of bytes. Otherwise it returns `OutOfMemory` if memory runs out.
    pub fn read_from(alloc: A, bytes: &[u8], alignment: Alignment) -> Result<Self>
        requires { T.align_exponent ≤ alignment }
        ensures { ReadsBytes (length bytes.now) T.SIZE
            (ShowsRead T.SIZE T.form T.is_in_type bytes.now alignment) result }
    {
        let items = items_of(&alloc, bytes)?;
        BufferMut::of_vec(items, alignment, DEFAULT).freeze()
    }

    /// Returns a copy of the items whose bytes are `bytes`. The new buffer reports the alignment of
    /// an item and is over-aligned to 256 bytes. Returns `ByteLength` exactly if the size of an
    /// item does not divide the number of bytes. Otherwise it returns `OutOfMemory` if memory runs
    /// out. Drops `bytes`, also on error.
    pub fn from_byte_buffer(bytes: Buffer<u8, A>) -> Result<Self>
        ensures { ReadsBytes (length bytes.list) T.SIZE
            (ShowsRead T.SIZE T.form T.is_in_type bytes.list T.align_exponent) result }
    {
        Buffer::from_byte_buffer_aligned(bytes, Alignment::of::<T>())
    }

    /// Returns a copy of the items whose bytes are `bytes`. The new buffer reports `alignment`,
    /// which must be at least the alignment of an item, and is over-aligned to 256 bytes. Returns
    /// the errors of [`Buffer::from_byte_buffer`]. Drops `bytes`, also on error.
    pub fn from_byte_buffer_aligned(bytes: Buffer<u8, A>, alignment: Alignment) -> Result<Self>
        requires { T.align_exponent ≤ alignment }
        ensures { ReadsBytes (length bytes.list) T.SIZE
            (ShowsRead T.SIZE T.form T.is_in_type bytes.list alignment) result }
    {
        let items = items_of(&bytes.alloc, bytes.as_slice());
        drop(bytes);
        BufferMut::of_vec(items?, alignment, DEFAULT).freeze()
    }

    /// Returns a copy of the items whose bytes are `bytes`, which may have another allocator. The
    /// new buffer reports the alignment of an item and is over-aligned to 256 bytes. Returns the
    /// errors of [`Buffer::from_byte_buffer`]. Drops `bytes`, also on error.
    pub fn from_bytes<B: Allocator>(alloc: A, bytes: Bytes<B>) -> Result<Self>
        ensures { ReadsBytes (length bytes) T.SIZE
            (ShowsRead T.SIZE T.form T.is_in_type bytes T.align_exponent) result }
    {
        Buffer::from_bytes_aligned(alloc, bytes, Alignment::of::<T>())
    }

    /// Returns a copy of the items whose bytes are `bytes`, which may have another allocator. The
    /// new buffer reports `alignment`, which must be at least the alignment of an item, and is
    /// over-aligned to 256 bytes. Returns the errors of [`Buffer::from_byte_buffer`]. Drops
    /// `bytes`, also on error.
    pub fn from_bytes_aligned<B: Allocator>(
        alloc: A,
        bytes: Bytes<B>,
        alignment: Alignment,
    ) -> Result<Self>
        requires { T.align_exponent ≤ alignment }
        ensures { ReadsBytes (length bytes) T.SIZE
            (ShowsRead T.SIZE T.form T.is_in_type bytes alignment) result }
    {
        let items = Buffer::read_from(alloc, bytes.as_slice(), alignment);
        drop(bytes);
        items
    }
}
