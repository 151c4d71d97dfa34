//! Sets copied from views.
ghost use Rattle.std.specs.Prelude.{ℕ, Bool, List};
ghost use Rattle.vb_bit_buffer.specs.SharedSet.{HoldsAlone};
ghost use Rattle.vb_mem.specs.Makes.{Makes};
ghost use Rattle.vb_view.specs.MutView.{mut_bits_of};
ghost use Rattle.vb_view.specs.View.{bits_of};

use crate::bit_buffer::BitBuffer;
use std::alloc::Allocator;
use vb_core::Result;
use vb_mem::ByteBuffer;
use vb_view::{BitBufferMutView, BitBufferView, BitStore};

/// Bits that can be copied into a new set.
pub trait ToBitBuffer {
    // the bits
    ghost bits: { Self → List Bool };

    // the index of the first bit in its byte
    ghost offset: { Self → ℕ };

    /// Returns a set of the same bits with the same offset, over a copy of as few bytes as hold
    /// them. Allocates these bytes and the count of owners with `alloc`. Returns `OutOfMemory` if
    /// memory runs out.
    fn to_bit_buffer<A: Allocator + Clone>(&self, alloc: A) -> Result<BitBuffer<A>>
        ensures { Makes (HoldsAlone (bits self.now) (offset self.now)) result };
}

#[tactic(auto, using(vb_bit_bytes::proofs::BytesLemmas::edits))]
impl ToBitBuffer for BitBufferView<'_> {
    ghost use Rattle.vb_view.specs.View.{bits_of, offset_of};

    ghost bits = { bits_of };

    ghost offset = { offset_of };

    fn to_bit_buffer<A: Allocator + Clone>(&self, alloc: A) -> Result<BitBuffer<A>> {
        let covered = &self.inner()[..self.meta().byte_len()];
        let bytes = ByteBuffer::copy_from(alloc, covered)?;
        Ok(BitBuffer::new_with_offset(bytes, self.len(), self.offset()))
    }
}

impl<S: BitStore> ToBitBuffer for BitBufferMutView<S> {
    ghost use Rattle.std.specs.Prelude.{◌%◌};
    ghost use Rattle.vb_view.specs.MutView.{mut_bits_of, mut_place_of};

    ghost bits = { mut_bits_of };

    ghost offset = { λ v. mut_place_of v % 8 };

    fn to_bit_buffer<A: Allocator + Clone>(&self, alloc: A) -> Result<BitBuffer<A>> {
        self.as_view().to_bit_buffer(alloc)
    }
}
