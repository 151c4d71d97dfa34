//! Bits of a frozen set gathered at indices.
ghost use Rattle.std.specs.Prelude.{◌≡◌, length, IfOk, IfErr, IsTrue};
ghost use Rattle.std.specs.Option.{option_map};
ghost use Rattle.vb_command.specs.Machine.{Outcome, is_as_long, validity_at};
ghost use Rattle.vb_command.specs.Machine as machine;
ghost use Rattle.vb_pool.specs.Answered.{GivesHeld, reply_of};
ghost use Rattle.vb_take.specs.Takes.{IsTaken, TakeRefused};
ghost use Rattle.vb_set.specs.View.{bits_of};

use crate::pool::Pool;
use crate::refused::refusal_of;
use crate::slot::Slot;
use std::alloc::Allocator;
use vb_command::{Answer, Refusal};
use vb_gather::take_bits;
use vb_set::{BitBuffer, BitBufferView, Result};

impl<A: Allocator + Clone> Pool<A> {
    /// Fills slot `t`, which must be empty, with the bits of the frozen set in slot `k` at these
    /// indices. Slot `m`, if there is one, must hold a frozen set with one bit for each index;
    /// where it is false, the index is ignored.
    pub(crate) fn take(
        &mut self,
        alloc: &A,
        k: usize,
        t: usize,
        m: Option<usize>,
        indices: &[i64],
    ) -> Result<Answer<A>, Refusal>
        ensures { Outcome self.old (machine.Take k t m indices.now) (reply_of result) self.new }
    {
        let source = self.frozen_at(k)?.as_view();
        self.need_vacant(t)?;
        let validity = self.validity(m)?;
        if !is_as_long(indices.len(), validity) {
            return Err(Refusal::LengthMismatch);
        }
        let bits = take_at(alloc, source, indices, validity).map_err(refusal_of)?;
        Ok(self.put(t, Slot::Frozen(bits)))
    }

    /// Returns the frozen set in slot `m`, or `None` if `m` is `None`. Returns `BadSlot` if the
    /// slot does not exist or holds none.
    fn validity(&self, m: Option<usize>) -> Result<Option<BitBufferView<'_>>, Refusal>
        ensures { GivesHeld (option_map bits_of) (validity_at self.now m) result }
    {
        match m {
            Some(m) => Ok(Some(self.frozen_at(m)?.as_view())),
            None => Ok(None),
        }
    }
}

/// Returns whether a validity, if there is one, has `n` bits.
fn is_as_long(n: usize, validity: Option<BitBufferView<'_>>) -> bool
    ensures { result ≡ is_as_long n (option_map bits_of validity.entry) }
{
    match validity {
        Some(bits) => bits.len() == n,
        None => true,
    }
}

/// Returns the bits at these indices. Allocates their bytes, then tests the indices, and then
/// allocates the count of owners. Returns `OutOfMemory` if memory runs out, or `TakeOutOfRange`
/// with the first position whose index is out of range and not ignored.
#[tactic(auto, using(crate::proofs::Takes::validities))]
fn take_at<A: Allocator + Clone>(
    alloc: &A,
    bits: BitBufferView<'_>,
    indices: &[i64],
    validity: Option<BitBufferView<'_>>,
) -> Result<BitBuffer<A>>
    requires { IsTrue (is_as_long (length indices.now) (option_map bits_of validity)) }
    ensures taken { IfOk result (λ s. IsTaken (bits_of bits.entry) indices.now
        (option_map bits_of validity.entry) s.bits) }
    ensures refused { IfErr result (TakeRefused (bits_of bits.entry) indices.now
        (option_map bits_of validity.entry)) }
{
    take_bits(alloc.clone()?, bits, indices, validity)
}
