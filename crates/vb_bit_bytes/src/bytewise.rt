//! Windows combined into new bytes.
ghost use Rattle.std.specs.Prelude.{◌≡◌, ℕ, ◌+◌, ◌*◌, ◌^◌, ◌<◌, ◌≤◌, [], length, IfOk, IsOkUnless};
ghost use Rattle.std.specs.Int.{div_ceil};
ghost use Rattle.vb_bits.specs.Bits.{bits};
ghost use Rattle.vb_bits.specs.InBytes.{InBytes};
ghost use Rattle.vb_bits.specs.Operators.{combined_by, merged_by};
ghost use Rattle.vb_mem.specs.OpenBuffer.{HasRoom};

use crate::edit::combine;
use std::alloc::Allocator;
use vb_bits::{And, AndNot, BitOp, Merge, Or, Xor};
use vb_core::{BufferError, Result};
use vb_mem::ByteBufferMut;

/// Combines `len` bits of `left` from bit `l` on with `len` bits of `right` from bit `r` on, by
/// `op`. Returns the fewest bytes that hold the result from bit `l` on. Writes them to `room`,
/// which the caller must prove to be an empty buffer with capacity for them.
///
/// If `l` equals `r`, one pass combines the bytes one by one. Otherwise the function copies the
/// bytes of `left` and combines them in place. The contract permits one error, `OutOfMemory`, and
/// `room` is dropped then.
pub fn combine_into<A: Allocator + Clone>(
    room: ByteBufferMut<A>,
    left: &[u8],
    l: usize,
    right: &[u8],
    r: usize,
    len: usize,
    op: BitOp,
) -> Result<ByteBufferMut<A>>
    requires empty { room.list ≡ [] }
    requires room { HasRoom room (div_ceil (l + len) 8) }
    requires window { InBytes left.now l len }
    requires right { InBytes right.now r len }
    ensures bits { IfOk result (λ b. bits b.list l len
        ≡ combined_by op (bits left.now l len) (bits right.now r len)) }
    ensures len { IfOk result (λ b. length b.list ≡ div_ceil (l + len) 8) }
    ensures alignment { IfOk result (λ b. b.alignment ≡ room.alignment) }
    ensures refused { IsOkUnless result BufferError.OutOfMemory }
{
    let count = (l + len).div_ceil(8);
    if l == r {
        return Ok(push_combined(room, &left[..count], &right[..count], op));
    }
    let mut bytes = room;
    bytes.extend_from_slice(&left[..count])?;
    combine(&mut bytes, l, right, r, len, op);
    Ok(bytes)
}

/// Combines two byte slices of the same length into an empty buffer that has capacity for the
/// result.
fn push_combined<A: Allocator + Clone>(
    room: ByteBufferMut<A>,
    left: &[u8],
    right: &[u8],
    op: BitOp,
) -> ByteBufferMut<A>
    requires empty { room.list ≡ [] }
    requires room { HasRoom room (length left.now) }
    requires same_len { length right.now ≡ length left.now }
    ensures bits { (o n : ℕ) → o + n ≤ 8 * length left.now → bits result.list o n
        ≡ combined_by op (bits left.now o n) (bits right.now o n) }
    ensures len { length result.list ≡ length left.now }
    ensures alignment { result.alignment ≡ room.alignment }
{
    match op {
        BitOp::And => push_bytes::<And, A>(room, left, right),
        BitOp::Or => push_bytes::<Or, A>(room, left, right),
        BitOp::Xor => push_bytes::<Xor, A>(room, left, right),
        BitOp::AndNot => push_bytes::<AndNot, A>(room, left, right),
    }
}

/// Does the work of [`push_combined`] for one operator.
///
/// The buffer is moved in and out, so that no other code can see it in between: its length stays in
/// a register, and the compiler vectorizes the loop.
fn push_bytes<M: Merge, A: Allocator + Clone>(
    room: ByteBufferMut<A>,
    left: &[u8],
    right: &[u8],
) -> ByteBufferMut<A>
    requires empty { room.list ≡ [] }
    requires room { HasRoom room (length left.now) }
    requires same_len { length right.now ≡ length left.now }
    ensures bits { (o n : ℕ) → o + n ≤ 8 * length left.now → bits result.list o n
        ≡ merged_by (M.bit) (bits left.now o n) (bits right.now o n) }
    ensures len { length result.list ≡ length left.now }
    ensures alignment { result.alignment ≡ room.alignment }
{
    let mut bytes = room;
    for k in 0..left.len() {
        bytes.push_unchecked(M::byte(left[k], right[k]));
    }
    bytes
}
