//! Sets and buffers gathered at indices.
ghost use Rattle.std.specs.Prelude.{◌≡◌, ℤ, Bool, List, Option, length, map, Result, IfOk, IfErr};
ghost use Rattle.std.specs.Option.{ForSome, option_map};
ghost use Rattle.vb_bit_buffer.specs.SharedSet.{IsFreshSet};
ghost use Rattle.vb_core.specs.declared.error.BufferError.{BufferError};
ghost use Rattle.vb_take.specs.Takes.{IsTaken, TakeRefused};
ghost use Rattle.vb_view.specs.View.{bits_of};

use std::alloc::Allocator;
use vb_bit_buffer::BitBuffer;
use vb_bit_bytes::full;
use vb_core::{BitIndex, BufferError, Element, Result};
use vb_mem::{Buffer, BufferMut};
use vb_take::{take_into, take_values_into};
use vb_view::BitBufferView;

/// Returns the bits of `bits` at the indices, one for each index, as a set of offset 0 in as few
/// bytes as hold them.
///
/// A `validity`, if there is one, must have the length of `indices`. If its bit for an index is
/// false, the new bit is false, and the call ignores the index.
///
/// Returns `TakeOutOfRange` with the first position whose index is not ignored and is negative or
/// not below the length of `bits`, or `OutOfMemory` if memory runs out. Allocates with `alloc`: the
/// bytes before it tests an index, and the count of owners after the last one.
#[tactic(auto, using(vb_bit_bytes::proofs::BytesLemmas::edits))]
pub fn take_bits<A: Allocator + Clone, I: BitIndex>(
    alloc: A,
    bits: BitBufferView<'_>,
    indices: &[I],
    validity: Option<BitBufferView<'_>>,
) -> Result<BitBuffer<A>>
    requires { ForSome validity (λ v. length (bits_of v) ≡ length indices.now) }
    ensures taken { IfOk result (λ s. IsTaken (bits_of bits.entry) (map I.number indices.now)
        (option_map bits_of validity.entry) s.bits) }
    ensures len { IfOk result (λ s. length s.bits ≡ length indices.now) }
    ensures fresh { IfOk result (λ s. IsFreshSet s.bits s) }
    ensures refused { IfErr result (TakeRefused (bits_of bits.entry) (map I.number indices.now)
        (option_map bits_of validity.entry)) }
{
    let mut bytes = full(alloc, false, indices.len())?;
    match take_into(bytes.as_mut_slice(), bits, indices, validity) {
        Ok(()) => Ok(BitBuffer::new(bytes.freeze()?, indices.len())),
        Err(position) => Err(BufferError::TakeOutOfRange { position }),
    }
}

/// Values that can be gathered at indices.
pub trait Take: Sized {
    // the possible results of a call with these indices, and with a truth value for each if there
    // is a validity
    ghost takes: { Self → List ℤ → Option (List Bool) → Result Self BufferError → Type 0 };

    /// Returns the values at the indices, one for each index, in new storage: a buffer with the
    /// alignment that this one reports, or a set of offset 0 in as few bytes as hold its bits.
    ///
    /// A `validity`, if there is one, must have the length of `indices`. If its bit for an index is
    /// false, the new value is 0 or a false bit, and the call ignores the index.
    ///
    /// Returns `TakeOutOfRange` with the first position whose index is not ignored and out of
    /// range, or `OutOfMemory` if memory runs out. Allocates with this buffer's or set's allocator:
    /// once for the new values, if any, before it reads an index, and once for the count of owners
    /// after that.
    ///
    /// ```rust
    /// let values = Buffer::copy_from(alloc, &[7u32, 0, 9, 4])?;
    ///
    /// let taken = values.taken(&[3u32, 0], None)?;
    /// assert_eq!(rt; taken.as_slice(), [4, 7].as_slice());
    /// ```
    fn taken<I: BitIndex>(&self, indices: &[I], validity: Option<BitBufferView<'_>>) -> Result<Self>
        requires { ForSome validity (λ v. length (bits_of v) ≡ length indices.now) }
        ensures { takes self.now (map I.number indices.now) (option_map bits_of validity.entry)
            result };
}

impl<A: Allocator + Clone> Take for BitBuffer<A> {
    ghost use Rattle.vb_gather.specs.TakenBits.{GivesBitsTaken};

    ghost takes = { λ s indices validity result. GivesBitsTaken s.bits indices validity result };

    fn taken<I: BitIndex>(
        &self,
        indices: &[I],
        validity: Option<BitBufferView<'_>>,
    ) -> Result<Self> {
        let alloc = self.inner().allocator().clone()?;
        take_bits(alloc, self.as_view(), indices, validity)
    }
}

impl<T: Element, A: Allocator + Clone> Take for Buffer<T, A> {
    ghost use Rattle.vb_gather.specs.TakenItems.{GivesItemsTaken};

    ghost takes = { λ b indices validity result. GivesItemsTaken T.zero b indices validity result };

    fn taken<I: BitIndex>(
        &self,
        indices: &[I],
        validity: Option<BitBufferView<'_>>,
    ) -> Result<Self> {
        let alloc = self.allocator().clone()?;
        let mut taken = BufferMut::zeroed_aligned(alloc, indices.len(), self.alignment())?;
        match take_values_into(taken.as_mut_slice(), self.as_slice(), indices, validity) {
            Ok(()) => taken.freeze(),
            Err(position) => {
                drop(taken);
                Err(BufferError::TakeOutOfRange { position })
            }
        }
    }
}
