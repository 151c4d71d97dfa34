//! Conversion of shared sets to sets for editing.
ghost use Rattle.std.specs.Prelude.{◌≡◌, IfOk, IfErr};
ghost use Rattle.vb_bit_buffer.specs.SharedSet.{SharedSet};
ghost use Rattle.vb_set.specs.OpenSet.{HoldsShared};

use crate::bit_buffer_mut::BitBufferMut;
use std::alloc::Allocator;
use vb_bit_buffer::BitBuffer;

/// Shared sets that can be converted for editing if they have one owner.
pub trait TryIntoMut<A: Allocator + Clone>: Sized {
    // the shared set
    ghost set: { Self → SharedSet };

    /// Returns the same bits, offset and bytes as a set for editing, in the same storage, if no
    /// other owner shares it; otherwise it returns the unchanged set as the error. The set for
    /// editing reports alignment 1. Does not allocate. Tests, and no clause, show that the only
    /// owner gets its set.
    ///
    /// Takes constant time, unless the bytes are not at the start of the storage, for example those
    /// of a slice: the call moves them there.
    fn try_into_mut(self) -> Result<BitBufferMut<A>, Self>
        ensures open { IfOk result (HoldsShared (set self)) }
        ensures shared { IfErr result (λ s. s ≡ self) };
}

#[tactic(auto, using(vb_bit_bytes::proofs::BytesLemmas::edits))]
impl<A: Allocator + Clone> TryIntoMut<A> for BitBuffer<A> {
    ghost set = { λ s. s };

    fn try_into_mut(self) -> Result<BitBufferMut<A>, Self> {
        let (offset, len, bytes) = self.into_inner();
        match bytes.try_into_mut() {
            Ok(bytes) => Ok(BitBufferMut::from_buffer(bytes, offset, len)),
            Err(bytes) => Err(BitBuffer::new_with_offset(bytes, len, offset)),
        }
    }
}
