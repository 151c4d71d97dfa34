//! Values by way of their bytes.
ghost use Rattle.std.specs.Prelude.{◌≡◌, ◌*◌, IfOk, length};

use std::alloc::Allocator;
use vortex_buffer::{Buffer, ByteBuffer, Result};

/// Returns the values after writing them as bytes and reading them back. Returns `TooManyBytes` if
/// the number of bytes exceeds `usize::MAX`, and `OutOfMemory` if memory runs out.
pub fn through_bytes<A: Allocator + Clone>(alloc: A, values: &[u32]) -> Result<Buffer<u32, A>>
    ensures { IfOk result (λ b. b.list ≡ values.now) }
{
    let bytes = Buffer::copy_from(alloc, values)?.into_byte_buffer()?;
    Buffer::from_byte_buffer(bytes)
}

/// Returns the bytes of a file as values of four bytes. Returns `ByteLength` if their number is not
/// a multiple of four, and `OutOfMemory` if memory runs out.
pub fn values_of<A: Allocator + Clone>(file: ByteBuffer<A>) -> Result<Buffer<u32, A>>
    ensures { IfOk result (λ b. length b.list * 4 ≡ length file.list) }
{
    Buffer::from_byte_buffer(file)
}
