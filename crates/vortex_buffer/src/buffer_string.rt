//! A buffer of text.
ghost use Rattle.std.specs.Prelude.{◌≡◌, ◌==◌, [], length, IsUtf8, IfOk, IfErr, string_bytes, ◌⊎◌};
ghost use Rattle.vb_mem.specs.Makes.{Makes};
ghost use Rattle.vb_mem.specs.SharedBuffer.{Shows, ShowsMade};
ghost use Rattle.vortex_buffer.specs.Text.{IsNoText};

use simdutf8::compat::from_utf8;
use std::alloc::{AllocError, Allocator, Global};
use std::marker::Model;
use vb_core::BufferError;
use vb_mem::{Buffer, ByteBuffer, Result};

/// A buffer of UTF-8 bytes.
///
/// Contracts see it as its buffer, [`BufferString::inner`]. Equality, order and hash are those of
/// the buffer; `Debug` prints the text.
#[derive(Drop)]
pub struct BufferString<A: Allocator = Global> {
    bytes: ByteBuffer<A>,
}

impl<A: Allocator> Model for BufferString<A> {
    ghost use Rattle.std.specs.Prelude.{ℕ, IsUtf8};
    ghost use Rattle.vb_mem.specs.SharedBuffer.{SharedBuffer};

    ghost Value = { SharedBuffer ℕ };

    ghost view = { λ text. text.bytes };

    ghost invariant = { λ text. IsUtf8 text.bytes.list };
}

impl<A: Allocator> BufferString<A> {
    /// Returns the text of `bytes`, without a test. The caller must prove that they are UTF-8.
    pub fn new_unchecked(bytes: ByteBuffer<A>) -> Self
        requires { IsUtf8 bytes.list }
        ensures { result ≡ bytes }
    {
        BufferString { bytes }
    }

    /// Returns an empty text of alignment 1. Does not allocate.
    pub fn empty(alloc: A) -> Self
        ensures list { result.list ≡ [] }
        ensures alignment { result.alignment ≡ 0 }
    {
        BufferString {
            bytes: Buffer::empty(alloc),
        }
    }

    /// Returns the text of `bytes`, in their storage. Does not allocate. Returns `NotUtf8` exactly
    /// if they are not UTF-8, and drops the buffer then.
    pub fn try_from_buffer(bytes: ByteBuffer<A>) -> Result<Self>
        ensures ok { IfOk result (λ text. (text ≡ bytes) × IsUtf8 bytes.list) }
        ensures err { IfErr result (IsNoText bytes.list) }
    {
        text_of(bytes.as_slice())?;
        Ok(BufferString { bytes })
    }

    /// Returns the text.
    pub fn as_str(&self) -> &str
        ensures value { result.now ≡ self.now.list }
        ensures utf8 { IsUtf8 result.now }
    {
        unsafe { std::str::from_utf8_unchecked(self.bytes.as_slice()) }
    }

    /// Returns the number of bytes, as `str::len` does.
    pub fn len(&self) -> usize
        ensures { result ≡ length self.now.list }
    {
        self.bytes.len()
    }

    /// Returns whether the text is empty.
    pub fn is_empty(&self) -> bool
        ensures { result ≡ (length self.now.list == 0) }
    {
        self.bytes.is_empty()
    }

    /// Returns the buffer of the text's bytes.
    pub fn inner(&self) -> &ByteBuffer<A>
        ensures value { result.now ≡ self.now }
        ensures utf8 { IsUtf8 result.now.list }
    {
        &self.bytes
    }

    /// Converts the text to the buffer of its bytes.
    pub fn into_inner(self) -> ByteBuffer<A>
        ensures value { result ≡ self }
        ensures utf8 { IsUtf8 result.list }
    {
        self.bytes
    }
}

impl<A: Allocator + Clone> BufferString<A> {
    /// Returns a copy of a text, of alignment 1 and over-aligned to 256 bytes. Returns
    /// `OutOfMemory` if memory runs out.
    pub fn from_str(alloc: A, text: &str) -> Result<Self>
        ensures { Makes (ShowsMade text.now 0) result }
    {
        let bytes = Buffer::copy_from(alloc, text.as_bytes())?;
        Ok(BufferString { bytes })
    }

    /// Returns the text of a `String`, in its storage. Copies no byte. The reported and the
    /// declared alignment are 1.
    ///
    /// The buffer uses `alloc` for the block that counts owners, and later for copies of the text.
    /// The storage keeps the allocator of `text`, and growth uses that one: the only owner can grow
    /// the storage through [`BufferString::into_inner`] and [`Buffer::into_mut`]. Returns
    /// `OutOfMemory` if memory runs out, and drops the text then.
    pub fn from_string(alloc: A, text: String<A>) -> Result<Self>
        ensures { Makes (Shows (string_bytes text) 0 0 0) result }
    {
        let bytes = Buffer::from_vec(alloc, text.into_bytes())?;
        Ok(BufferString { bytes })
    }

    /// Returns a copy of `bytes` as text, of alignment 1 and over-aligned to 256 bytes. Returns
    /// `NotUtf8`, before it allocates, exactly if they are not UTF-8. Otherwise it returns
    /// `OutOfMemory` if memory runs out.
    pub fn try_from_slice(alloc: A, bytes: &[u8]) -> Result<Self>
        ensures ok { IfOk result (λ text. ShowsMade bytes.now 0 text × IsUtf8 bytes.now) }
        ensures err { IfErr result (λ e. IsNoText bytes.now e
            ⊎ (IsUtf8 bytes.now × (e ≡ BufferError.OutOfMemory))) }
    {
        BufferString::from_str(alloc, text_of(bytes)?)
    }

    /// Returns another owner of the same text, in constant time. Does not allocate memory for the
    /// storage. Returns `OutOfMemory` if cloning the allocator runs out of memory, or if the
    /// storage already has the maximum number of owners.
    pub fn clone(&self) -> Result<Self>
        ensures { Makes (λ text. text ≡ self.now) result }
    {
        Ok(BufferString {
            bytes: self.bytes.clone()?,
        })
    }
}

impl<A: Allocator + Clone> Clone for BufferString<A> {
    ghost is_clone = { λ text copy. copy ≡ text };

    /// Does the same as [`BufferString::clone`], for code that is generic over std's `Clone`.
    fn clone(&self) -> std::result::Result<Self, AllocError> {
        BufferString::clone(self).map_err(|_| AllocError)
    }
}

// Returns the bytes as text if they are UTF-8.
fn text_of(bytes: &[u8]) -> Result<&str>
    ensures ok { IfOk result (λ text. (text.now ≡ bytes.now) × IsUtf8 bytes.now) }
    ensures err { IfErr result (IsNoText bytes.now) }
{
    from_utf8(bytes).map_err(|error| BufferError::NotUtf8 {
        valid_up_to: error.valid_up_to(),
    })
}
