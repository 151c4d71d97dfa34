//! Appends bytes. If they are at most 64 and there is capacity, the capacity does not change. No
//! contract promises this of the buffer's own call.
ghost use Rattle.std.specs.Prelude.{◌≡◌, ◌+◌, ◌*◌, ◌≤◌, length, OnOk};
ghost use Rattle.std.specs.Int.{w64, to_le_bytes};
ghost use Rattle.vb_bits.specs.Digits.{digits};
ghost use Rattle.vb_bits.specs.Writes.{Writes, extension};
ghost use Rattle.vb_mem.specs.Makes.{NeedsRoom};
ghost use Rattle.vb_mem.specs.OpenBuffer.{Lengthens, HasRoom};

use core::mem::replace_with;
use std::alloc::Allocator;
use vb_core::Result;
use vb_mem::ByteBufferMut;

/// The greatest number of bytes for which a loop is as fast as the buffer's own call.
const SHORT: usize = 64;

/// Appends copies of the bytes of a slice. More than 64 bytes are copied as one block.
///
/// Returns `OutOfMemory` if memory runs out; the bytes and the capacity are unchanged then. If
/// there is capacity, the call does not allocate and succeeds. If there are at most 64 bytes, the
/// capacity does not change either.
pub(crate) fn push_slice<A: Allocator + Clone>(
    bytes: &mut ByteBufferMut<A>,
    added: &[u8],
) -> Result<()>
    ensures ok { OnOk result (Lengthens added.now bytes.old bytes.new) }
    ensures stays { length added.now ≤ 64 → HasRoom bytes.old (length added.now)
        → bytes.new.room ≡ bytes.old.room }
    ensures needs_room { NeedsRoom (length added.now) result bytes.old bytes.new }
{
    if added.len() > SHORT {
        return bytes.extend_from_slice(added);
    }
    bytes.reserve(added.len())?;
    push_slice_unchecked(bytes, added);
    Ok(())
}

/// Appends the 64 digits of a word after whole bytes, as eight bytes. The caller must prove that
/// there is capacity for them. Does not allocate, and the capacity does not change.
pub fn push_word_unchecked<A: Allocator + Clone>(bytes: &mut ByteBufferMut<A>, word: u64)
    requires { HasRoom bytes.old 8 }
    ensures added { Lengthens (to_le_bytes w64 word) bytes.old bytes.new }
    ensures len { length bytes.new.list ≡ length bytes.old.list + 8 }
    ensures bits { Writes (extension bytes.old.list bytes.new.list) bytes.new.list
        (8 * length bytes.old.list) (digits word 0 64) }
    ensures stays { bytes.new.room ≡ bytes.old.room }
{
    push_slice_unchecked(bytes, &word.to_le_bytes());
}

/// Appends copies of the bytes of a slice, for which there must be capacity.
fn push_slice_unchecked<A: Allocator + Clone>(bytes: &mut ByteBufferMut<A>, added: &[u8])
    requires { HasRoom bytes.old (length added.now) }
    ensures added { Lengthens added.now bytes.old bytes.new }
    ensures stays { bytes.new.room ≡ bytes.old.room }
{
    replace_with(bytes, added, with_slice);
}

/// Returns the bytes followed by the bytes of a slice; there must be capacity for them. The buffer
/// is moved in and out, as in `push_bytes`, so that the compiler vectorizes the loop.
fn with_slice<A: Allocator + Clone>(bytes: ByteBufferMut<A>, added: &[u8]) -> (ByteBufferMut<A>, ())
    requires { HasRoom bytes (length added.now) }
    ensures added { Lengthens added.now bytes result.0 }
    ensures stays { result.0.room ≡ bytes.room }
{
    let mut bytes = bytes;
    for k in 0..added.len() {
        bytes.push_unchecked(added[k]);
    }
    (bytes, ())
}
