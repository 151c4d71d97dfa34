//! Bytes made from indices.
ghost use Rattle.std.specs.Prelude.{◌≡◌, ◌<◌, All, false, length, replicate, IfOk, IfErr};
ghost use Rattle.std.specs.Int.{div_ceil};
ghost use Rattle.std.specs.Iterator.{IsFiniteIterable};
ghost use Rattle.vb_bits.specs.Bits.{bits};
ghost use Rattle.vb_mem.specs.Collected.{OfItems};
ghost use Rattle.vb_bit_bytes.specs.FromIndices.{IndexRefused};
ghost use Rattle.vb_bits.specs.Marks.{with_true};

use crate::make::full;
use std::alloc::Allocator;
use vb_bits::set_bits_at;
use vb_core::{BufferError, Result};
use vb_mem::{ByteBuffer, ByteBufferMut};

/// Returns the fewest bytes that hold `len` bits, which are true exactly at the indices that an
/// iterator returns. An index may occur more than once. The caller must prove that the iterator
/// ends.
///
/// Allocates these bytes, and no list of the indices. Returns `OutOfMemory`, before it polls the
/// iterator, if memory runs out. Returns `IndexOutOfRange` with the first index that is not below
/// `len`, and does not poll the iterator again. The iterator is dropped.
pub fn from_indices<A: Allocator + Clone, I: IntoIterator<Item = usize>>(
    alloc: A,
    len: usize,
    indices: I,
) -> Result<ByteBufferMut<A>>
    requires { IsFiniteIterable I.into_iter_gives I.IntoIter.can_next
        I.IntoIter.remaining indices }
    ensures bits { IfOk result (λ b. OfItems I.into_iter_gives I.IntoIter.next_gives indices
        (λ places. All (λ p. p < len) places
        × (bits b.list 0 len ≡ with_true (replicate len false) places))) }
    ensures len { IfOk result (λ b. length b.list ≡ div_ceil len 8) }
    ensures alignment { IfOk result (λ b. b.alignment ≡ 0) }
    ensures refused { IfErr result
        (IndexRefused I.into_iter_gives I.IntoIter.next_gives len indices) }
{
    let places = indices.into_iter();
    let mut bytes = full(alloc, false, len)?;
    match set_bits_at(bytes.as_mut_slice(), len, places) {
        Ok(()) => Ok(bytes),
        Err(index) => {
            drop(bytes);
            Err(BufferError::IndexOutOfRange { index, len })
        }
    }
}

/// Does the same as [`from_indices`], but returns bytes that can be shared. It also allocates the
/// count of owners before it polls the iterator.
pub fn from_indices_shared<A: Allocator + Clone, I: IntoIterator<Item = usize>>(
    alloc: A,
    len: usize,
    indices: I,
) -> Result<ByteBuffer<A>>
    requires { IsFiniteIterable I.into_iter_gives I.IntoIter.can_next
        I.IntoIter.remaining indices }
    ensures bits { IfOk result (λ b. OfItems I.into_iter_gives I.IntoIter.next_gives indices
        (λ places. All (λ p. p < len) places
        × (bits b.list 0 len ≡ with_true (replicate len false) places))) }
    ensures len { IfOk result (λ b. length b.list ≡ div_ceil len 8) }
    ensures alignment { IfOk result (λ b. b.alignment ≡ 0) }
    ensures refused { IfErr result
        (IndexRefused I.into_iter_gives I.IntoIter.next_gives len indices) }
{
    let places = indices.into_iter();
    let mut bytes = full(alloc, false, len)?.freeze()?;
    match set_bits_at(bytes.items_mut()?.as_mut_slice(), len, places) {
        Ok(()) => Ok(bytes),
        Err(index) => {
            drop(bytes);
            Err(BufferError::IndexOutOfRange { index, len })
        }
    }
}
