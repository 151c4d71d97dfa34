//! Bytes made from equal bits, and bytes with alignment 1.
ghost use Rattle.std.specs.Prelude.{◌≡◌, ℕ, ◌<◌, length, replicate, IfOk, IsOkUnless};
ghost use Rattle.std.specs.Int.{div_ceil};
ghost use Rattle.vb_bits.specs.Bits.{bits};
ghost use Rattle.vb_bits.specs.Digits.{has_bit};

use std::alloc::Allocator;
use vb_core::{Alignment, BufferError, Result};
use vb_mem::{BufferMut, ByteBuffer, ByteBufferMut};

/// Returns the fewest bytes that hold `n` bits, all `v`. Allocates these bytes. Returns
/// `OutOfMemory` if memory runs out.
#[tactic(auto, using(vb_bits::proofs::WindowLemmas::windows))]
pub fn full<A: Allocator + Clone>(alloc: A, v: bool, n: usize) -> Result<ByteBufferMut<A>>
    ensures bits { IfOk result (λ b. bits b.list 0 n ≡ replicate n v) }
    ensures len { IfOk result (λ b. length b.list ≡ div_ceil n 8) }
    ensures alignment { IfOk result (λ b. b.alignment ≡ 0) }
    ensures refused { IsOkUnless result BufferError.OutOfMemory }
{
    BufferMut::full(alloc, byte_of(v), n.div_ceil(8))
}

/// Returns the byte whose bits are all `v`.
#[tactic(auto, using(vb_bits::proofs::WindowLemmas::bytes_of_one))]
pub(crate) fn byte_of(v: bool) -> u8
    ensures { (i : ℕ) → i < 8 → has_bit result i ≡ v }
{
    if v { 0xFF } else { 0 }
}

/// Returns the same bytes with alignment 1. Does not allocate.
pub fn unaligned<A: Allocator + Clone>(bytes: ByteBuffer<A>) -> ByteBuffer<A>
    ensures list { result.list ≡ bytes.list }
    ensures alignment { result.alignment ≡ 0 }
{
    match bytes.ensure_aligned(Alignment::none()) {
        Ok(bytes) => bytes,
        Err(_) => unreachable!(),
    }
}
