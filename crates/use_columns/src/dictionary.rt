//! A column that is stored as indices into a dictionary.
ghost use Rattle.std.specs.Prelude.{◌≡◌, length, map, slice_index, IfOk, IfErr};
ghost use Rattle.use_columns.specs.Columns.{AreKnown, IsUnknownOrMemory};

use std::alloc::Allocator;
use vortex_buffer::{Buffer, BufferError, BufferMut, Result};

/// Returns the column of the dictionary's values at the codes. Returns `IndexOutOfRange` with the
/// first code that is not an index of the dictionary, or `OutOfMemory` if memory runs out before
/// that.
pub fn decode_dictionary<A: Allocator + Clone>(
    alloc: A,
    dictionary: &[u32],
    codes: &[u8],
) -> Result<Buffer<u32, A>>
    ensures ok { IfOk result (λ column. AreKnown (length dictionary.now) codes.now
        × (column.list ≡ map (slice_index dictionary.now) codes.now)) }
    ensures err { IfErr result (IsUnknownOrMemory (length dictionary.now) codes.now) }
{
    let mut column = BufferMut::with_capacity(alloc, codes.len())?;
    for code in codes {
        let index = usize::from(*code);
        if index >= dictionary.len() {
            let len = dictionary.len();
            return Err(BufferError::IndexOutOfRange { index, len });
        }
        column.push(dictionary[index])?;
    }
    column.freeze()
}
