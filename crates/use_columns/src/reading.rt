//! Names, read from the front of a file.
ghost use Rattle.std.specs.Prelude.{◌≡◌, ◌++◌, IfOk, OnErr};
ghost use Rattle.use_columns.specs.Format.{record_of};

use crate::error::ReadError;
use std::alloc::Allocator;
use vortex_buffer::{AlignedBuf, BufferString};

/// Returns the next name, and advances past it. Returns `CutShort` if the file ends before the name
/// does, or if it can't advance past the name, and `Buffer` if the name isn't UTF-8 or memory runs
/// out. The file is unchanged on error.
pub fn read_name<B: AlignedBuf, A: Allocator + Clone>(
    alloc: A,
    file: &mut B,
) -> Result<BufferString<A>, ReadError>
    ensures ok { IfOk result (λ name. record_of name.list ++ B.unread file.new
        ≡ B.unread file.old) }
    ensures err { OnErr result (file.new ≡ file.old) }
{
    let bytes = file.chunk();
    let Some(first) = bytes.first() else {
        return Err(ReadError::CutShort);
    };
    let end = 1 + usize::from(*first);
    if !file.can_advance(end) {
        return Err(ReadError::CutShort);
    }
    let name = BufferString::try_from_slice(alloc, &bytes[1..end])?;
    file.advance(end);
    Ok(name)
}
