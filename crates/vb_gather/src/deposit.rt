//! Sets of bits scattered to the true indices of a mask.
ghost use Rattle.std.specs.Prelude.{◌≡◌, Bool, List, length, IfOk, IsOkUnless};
ghost use Rattle.vb_bits.specs.Bits.{count};
ghost use Rattle.vb_core.specs.declared.error.BufferError.TheVariants.{OutOfMemory};
ghost use Rattle.vb_gather.specs.Deposited.{DepositsBits};
ghost use Rattle.vb_gather.specs.Filtered.{GivesFiltered};
ghost use Rattle.vb_view.specs.View.{bits_of};

use std::alloc::Allocator;
use vb_bit_buffer::BitBuffer;
use vb_bit_bytes::full;
use vb_core::{BufferError, Result};
use vb_filter::deposit_into;
use vb_view::BitBufferView;

/// Sets whose bits can be scattered to the true indices of a mask: the inverse of
/// [`Filter`](crate::Filter).
pub trait Deposit: Sized {
    // the bits of a set
    ghost bits: { Self → List Bool };

    // the set has the bits of the second list where the mask, the first list, is true, and false
    // elsewhere
    ghost deposits: { List Bool → List Bool → Self → Type 0 };

    /// Returns a set with the length of the mask: the bits of this set, in order, at the indices
    /// where the mask is true, and false elsewhere. It has offset 0 and as few bytes as hold its
    /// bits.
    ///
    /// A call of `filtered` with the same mask on the new set returns the bits of this set. If
    /// `filtered` with that mask made this set, each bit is back at its index.
    ///
    /// Returns `LengthMismatch`, with the length of this set as `left` and the number of true bits
    /// of the mask as `right`, exactly if they differ, before it allocates. Otherwise it returns
    /// `OutOfMemory` if memory runs out. Allocates with this set's allocator: once for the bytes,
    /// if any, and once for the count of owners. The time is linear in the length of the mask.
    fn deposited(&self, mask: BitBufferView<'_>) -> Result<Self>
        ensures { GivesFiltered (length (bits self.now)) (count (bits_of mask.entry))
            (deposits (bits_of mask.entry) (bits self.now)) result };

    /// Returns this set with some of its true bits cleared: bit `k` of `kept` indicates whether the
    /// true bit of rank `k` stays. So a filter of the rows that an earlier filter selected becomes
    /// a filter of all rows.
    ///
    /// It is `deposited` with the roles swapped: it scatters `kept` to the true indices of this
    /// set. Returns `LengthMismatch`, with the number of true bits of this set as `left` and the
    /// length of `kept` as `right`, exactly if they differ. Memory, cost and other errors are those
    /// of `deposited`.
    fn intersect_by_rank(&self, kept: BitBufferView<'_>) -> Result<Self>
        ensures { GivesFiltered (count (bits self.now)) (length (bits_of kept.entry))
            (deposits (bits self.now) (bits_of kept.entry)) result };
}

#[tactic(auto, using(vb_bits::proofs::WindowLemmas::windows))]
impl<A: Allocator + Clone> Deposit for BitBuffer<A> {
    ghost use Rattle.vb_gather.specs.Deposited.{DepositsBits};

    ghost bits = { λ s. s.bits };

    ghost deposits = { λ mask values s. DepositsBits mask values s };

    fn deposited(&self, mask: BitBufferView<'_>) -> Result<Self> {
        let count = mask.true_count();
        if self.len() != count {
            return Err(BufferError::LengthMismatch {
                left: self.len(),
                right: count,
            });
        }
        put_back(self.inner().allocator().clone()?, self.as_view(), mask)
    }

    fn intersect_by_rank(&self, kept: BitBufferView<'_>) -> Result<Self> {
        let count = self.true_count();
        if count != kept.len() {
            return Err(BufferError::LengthMismatch {
                left: count,
                right: kept.len(),
            });
        }
        put_back(self.inner().allocator().clone()?, kept, self.as_view())
    }
}

/// Returns a set with the values at the true indices of the mask, and false elsewhere. Allocates
/// with `alloc`.
fn put_back<A: Allocator + Clone>(
    alloc: A,
    values: BitBufferView<'_>,
    mask: BitBufferView<'_>,
) -> Result<BitBuffer<A>>
    requires { length (bits_of values) ≡ count (bits_of mask) }
    ensures made { IfOk result (DepositsBits (bits_of mask.entry) (bits_of values.entry)) }
    ensures memory { IsOkUnless result OutOfMemory }
{
    let mut bytes = full(alloc, false, mask.len())?;
    deposit_into(bytes.as_mut_slice(), 0, values, mask);
    Ok(BitBuffer::new(bytes.freeze()?, mask.len()))
}
