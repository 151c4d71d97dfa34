//! Capacity, and bits appended at the end.
ghost use Rattle.std.specs.Prelude.{◌≡◌, ◌+◌, ◌*◌, ◌^◌, ◌<◌, ◌≤◌, [], ◌∷◌};
ghost use Rattle.std.specs.Prelude.{length, max, replicate, IsOk, IsOkUnless, OnOk, OnErr};
ghost use Rattle.std.specs.Int.{div_ceil};
ghost use Rattle.vb_bits.specs.Writes.{Writes, extension};

use crate::edit::{fill, write_bit};
use crate::make::byte_of;
use std::alloc::Allocator;
use vb_core::{BufferError, Result};
use vb_mem::ByteBufferMut;

/// Writes `v` to bit `end`, after the bits below `end`, which must be in the bytes. The bit is in
/// one of these bytes or in a new byte. No clause states the other bits of a new byte.
///
/// Returns `OutOfMemory` if memory runs out; the bytes and the capacity are unchanged then. If
/// there is capacity, the call does not allocate, succeeds, and the capacity does not change.
#[tactic(auto, using(crate::proofs::BytesLemmas::edits))]
pub fn push_bit<A: Allocator + Clone>(
    bytes: &mut ByteBufferMut<A>,
    end: usize,
    v: bool,
) -> Result<()>
    requires { end ≤ 8 * length bytes.old.list }
    ensures len { OnOk result (length bytes.new.list
        ≡ max (length bytes.old.list) (div_ceil (end + 1) 8)) }
    ensures bits { OnOk result (Writes (extension bytes.old.list bytes.new.list) bytes.new.list
        end (v ∷ [])) }
    ensures alignment { bytes.new.alignment ≡ bytes.old.alignment }
    ensures room { bytes.old.room ≤ bytes.new.room }
    ensures in_room { end + 1 ≤ 8 * max (length bytes.old.list) bytes.old.room → IsOk result }
    ensures stays { end + 1 ≤ 8 * max (length bytes.old.list) bytes.old.room
        → bytes.new.room ≡ bytes.old.room }
    ensures err { OnErr result (bytes.new ≡ bytes.old) }
    ensures refused { IsOkUnless result BufferError.OutOfMemory }
{
    if end / 8 < bytes.len() {
        write_bit(bytes, end, v);
        return Ok(());
    }
    bytes.push(u8::from(v))?;
    Ok(())
}

/// Does the same as [`push_bit`], but the caller must prove that there is capacity for the bit.
/// There always is if the bit's byte already exists. Does not allocate, and the capacity does not
/// change.
#[tactic(auto, using(crate::proofs::BytesLemmas::edits))]
pub fn push_bit_unchecked<A: Allocator + Clone>(bytes: &mut ByteBufferMut<A>, end: usize, v: bool)
    requires within { end ≤ 8 * length bytes.old.list }
    requires room { end < 8 * bytes.old.room }
    ensures len { length bytes.new.list ≡ max (length bytes.old.list) (div_ceil (end + 1) 8) }
    ensures bits { Writes (extension bytes.old.list bytes.new.list) bytes.new.list end (v ∷ []) }
    ensures alignment { bytes.new.alignment ≡ bytes.old.alignment }
    ensures room { bytes.new.room ≡ bytes.old.room }
{
    if end / 8 < bytes.len() {
        write_bit(bytes, end, v)
    } else {
        bytes.push_unchecked(u8::from(v))
    }
}

/// Writes `n` bits `v` from bit `start` on, after the bits below `start`, which must be in the
/// bytes. Writes whole bytes at a time. `start + n` must fit in `usize`.
///
/// Returns `OutOfMemory` if memory runs out; the bytes and the capacity are unchanged then. If
/// there is capacity, the call does not allocate, succeeds, and the capacity does not change.
#[tactic(auto, using(crate::proofs::BytesLemmas::edits))]
pub fn push_bits<A: Allocator + Clone>(
    bytes: &mut ByteBufferMut<A>,
    start: usize,
    n: usize,
    v: bool,
) -> Result<()>
    requires inside { start ≤ 8 * length bytes.old.list }
    requires fits { start + n < 2 ^ 64 }
    ensures len { OnOk result (length bytes.new.list
        ≡ max (length bytes.old.list) (div_ceil (start + n) 8)) }
    ensures bits { OnOk result (Writes (extension bytes.old.list bytes.new.list) bytes.new.list
        start (replicate n v)) }
    ensures alignment { bytes.new.alignment ≡ bytes.old.alignment }
    ensures room { bytes.old.room ≤ bytes.new.room }
    ensures in_room { start + n ≤ 8 * max (length bytes.old.list) bytes.old.room → IsOk result }
    ensures stays { start + n ≤ 8 * max (length bytes.old.list) bytes.old.room
        → bytes.new.room ≡ bytes.old.room }
    ensures err { OnErr result (bytes.new ≡ bytes.old) }
    ensures refused { IsOkUnless result BufferError.OutOfMemory }
{
    let end = start + n;
    let len = bytes.len();
    let count = end.div_ceil(8);
    if count <= len {
        fill(bytes, start, end, v);
        return Ok(());
    }
    bytes.push_n(byte_of(v), count - len)?;
    fill(bytes, start, len * 8, v);
    Ok(())
}

/// Reserves capacity for `end` bits in total.
///
/// Returns `OutOfMemory` if memory runs out; the capacity is unchanged then. If there is capacity
/// already, the call does not allocate, succeeds, and the capacity does not change.
pub fn reserve_to<A: Allocator + Clone>(bytes: &mut ByteBufferMut<A>, end: usize) -> Result<()>
    ensures keeps { bytes.new ≡ record bytes.old { room = bytes.new.room } }
    ensures grows { bytes.old.room ≤ bytes.new.room }
    ensures room { OnOk result (end ≤ 8 * bytes.new.room) }
    ensures in_room { end ≤ 8 * max (length bytes.old.list) bytes.old.room → IsOk result }
    ensures stays { end ≤ 8 * max (length bytes.old.list) bytes.old.room → bytes.new ≡ bytes.old }
    ensures err { OnErr result (bytes.new ≡ bytes.old) }
    ensures refused { IsOkUnless result BufferError.OutOfMemory }
{
    let count = end.div_ceil(8);
    if bytes.capacity() < count {
        bytes.reserve(count - bytes.len())?;
    }
    Ok(())
}

/// Reserves capacity for `end` bits in total, as [`reserve_to`] does, but no more than that: if the
/// capacity grows, it becomes the fewest bytes that hold `end` bits.
pub fn reserve_exactly_to<A: Allocator + Clone>(
    bytes: &mut ByteBufferMut<A>,
    end: usize,
) -> Result<()>
    ensures keeps { bytes.new ≡ record bytes.old { room = bytes.new.room } }
    ensures grows { bytes.old.room ≤ bytes.new.room }
    ensures room { OnOk result (end ≤ 8 * bytes.new.room) }
    ensures exact { OnOk result (bytes.new.room ≤ max bytes.old.room (div_ceil end 8)) }
    ensures in_room { end ≤ 8 * max (length bytes.old.list) bytes.old.room → IsOk result }
    ensures stays { end ≤ 8 * max (length bytes.old.list) bytes.old.room → bytes.new ≡ bytes.old }
    ensures err { OnErr result (bytes.new ≡ bytes.old) }
    ensures refused { IsOkUnless result BufferError.OutOfMemory }
{
    let count = end.div_ceil(8);
    if bytes.capacity() < count {
        bytes.reserve_exact(count - bytes.len())?;
    }
    Ok(())
}
