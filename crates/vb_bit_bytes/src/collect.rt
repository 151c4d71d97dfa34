//! Bytes made from the results of a closure, and from lists of truth values.
ghost use Rattle.std.specs.Prelude.{◌≡◌, ◌+◌, ◌*◌, ◌^◌, ◌<◌, ◌≤◌, ◌==◌, not, length, map};
ghost use Rattle.std.specs.Prelude.{IfOk, IsOkUnless, OnErr};
ghost use Rattle.std.specs.Int.{div_ceil};
ghost use Rattle.vb_bit_bytes.specs.AskedOf.{asked_of};
ghost use Rattle.vb_bits.specs.Bits.{at, bits};
ghost use Rattle.vb_bits.specs.InBytes.{InBytes};
ghost use Rattle.vb_pack.specs.Asked.{Answers, CanAsk, span};

use crate::make::full;
use std::alloc::Allocator;
use vb_core::{BufferError, Result};
use vb_mem::{ByteBuffer, ByteBufferMut};
use vb_pack::{collect_bool_bytes, map_bool_bytes, pack_bools, pack_truthy};

/// Calls `f` with each index in `0..len`, in order, and returns the fewest bytes that hold the
/// results as their first `len` bits. The caller must prove that `f` may be called with each index,
/// whatever it returned before.
///
/// Allocates these bytes. Returns `OutOfMemory`, before it calls `f`, if memory runs out.
pub fn collect_bool<A: Allocator + Clone, F: FnMut(usize) -> bool>(
    alloc: A,
    len: usize,
    f: &mut F,
) -> Result<ByteBufferMut<A>>
    requires { CanAsk (F.pre) (F.step) f.old (span 0 len) }
    ensures answered { IfOk result (λ b.
        Answers (F.step) f.old (span 0 len) (bits b.list 0 len) f.new) }
    ensures len { IfOk result (λ b. length b.list ≡ div_ceil len 8) }
    ensures alignment { IfOk result (λ b. b.alignment ≡ 0) }
    ensures not_asked { OnErr result (f.new ≡ f.old) }
    ensures refused { IsOkUnless result BufferError.OutOfMemory }
{
    let mut bytes = full(alloc, false, len)?;
    collect_bool_bytes(bytes.as_mut_slice(), len, f);
    Ok(bytes)
}

/// Does the same as [`collect_bool`], but returns bytes that can be shared. It also allocates the
/// count of owners before it calls `f`.
pub fn collect_bool_shared<A: Allocator + Clone, F: FnMut(usize) -> bool>(
    alloc: A,
    len: usize,
    f: &mut F,
) -> Result<ByteBuffer<A>>
    requires { CanAsk (F.pre) (F.step) f.old (span 0 len) }
    ensures answered { IfOk result (λ b.
        Answers (F.step) f.old (span 0 len) (bits b.list 0 len) f.new) }
    ensures len { IfOk result (λ b. length b.list ≡ div_ceil len 8) }
    ensures alignment { IfOk result (λ b. b.alignment ≡ 0) }
    ensures not_asked { OnErr result (f.new ≡ f.old) }
    ensures refused { IsOkUnless result BufferError.OutOfMemory }
{
    let mut bytes = full(alloc, false, len)?.freeze()?;
    collect_bool_bytes(bytes.items_mut()?.as_mut_slice(), len, f);
    Ok(bytes)
}

/// Calls `f` with each index of the window of `len` bits of `src` from bit `offset` on, and with
/// the bit there. Writes the results to the first `len` bits of `bytes`, and returns these as bytes
/// that can be shared. The caller must prove that the window is in bounds of `src`, that `bytes`
/// holds `len` bits, and that `f` may be called with each index.
///
/// Allocates the count of owners. Returns `OutOfMemory`, before it calls `f`, if memory runs out;
/// `bytes` is dropped then.
pub fn map_bool_shared<A: Allocator + Clone, F: FnMut(usize, bool) -> bool>(
    bytes: ByteBufferMut<A>,
    src: &[u8],
    offset: usize,
    len: usize,
    f: &mut F,
) -> Result<ByteBuffer<A>>
    requires room { len ≤ 8 * length bytes.list }
    requires window { InBytes src.now offset len }
    requires callable { CanAsk (λ p i. F.pre p i (at (bits src.now offset len) i))
        (asked_of F.step (bits src.now offset len)) f.old (span 0 len) }
    ensures answered { IfOk result (λ b.
        Answers (asked_of F.step (bits src.now offset len))
        f.old (span 0 len) (bits b.list 0 len) f.new) }
    ensures len { IfOk result (λ b. length b.list ≡ length bytes.list) }
    ensures alignment { IfOk result (λ b. b.alignment ≡ bytes.alignment) }
    ensures not_asked { OnErr result (f.new ≡ f.old) }
    ensures refused { IsOkUnless result BufferError.OutOfMemory }
{
    let mut answers = bytes.freeze()?;
    map_bool_bytes(answers.items_mut()?.as_mut_slice(), src, offset, len, f);
    Ok(answers)
}

/// Returns the fewest bytes that hold `bools` as their first bits. Allocates these bytes. Returns
/// `OutOfMemory` if memory runs out.
pub fn from_bools<A: Allocator + Clone>(alloc: A, bools: &[bool]) -> Result<ByteBufferMut<A>>
    ensures bits { IfOk result (λ b. bits b.list 0 (length bools.now) ≡ bools.now) }
    ensures len { IfOk result (λ b. length b.list ≡ div_ceil (length bools.now) 8) }
    ensures alignment { IfOk result (λ b. b.alignment ≡ 0) }
    ensures refused { IsOkUnless result BufferError.OutOfMemory }
{
    let mut bytes = full(alloc, false, bools.len())?;
    pack_bools(bytes.as_mut_slice(), bools);
    Ok(bytes)
}

/// Returns the fewest bytes that hold one bit for each byte of `truthy`: true if the byte is not 0.
/// Allocates these bytes. Returns `OutOfMemory` if memory runs out.
pub fn from_truthy<A: Allocator + Clone>(alloc: A, truthy: &[u8]) -> Result<ByteBufferMut<A>>
    ensures bits { IfOk result (λ b. bits b.list 0 (length truthy.now)
        ≡ map (λ x. not (x == 0)) truthy.now) }
    ensures len { IfOk result (λ b. length b.list ≡ div_ceil (length truthy.now) 8) }
    ensures alignment { IfOk result (λ b. b.alignment ≡ 0) }
    ensures refused { IsOkUnless result BufferError.OutOfMemory }
{
    let mut bytes = full(alloc, false, truthy.len())?;
    pack_truthy(bytes.as_mut_slice(), truthy);
    Ok(bytes)
}
