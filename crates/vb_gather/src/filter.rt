//! Sets and buffers of the values that a mask selects.
ghost use Rattle.std.specs.Prelude.{ℕ, Bool, List, length};
ghost use Rattle.vb_gather.specs.Filtered.{GivesFiltered};
ghost use Rattle.vb_view.specs.View.{bits_of};

use std::alloc::Allocator;
use vb_bit_buffer::BitBuffer;
use vb_core::{BufferError, Element, Result};
use vb_filter::{filter_elements_into, filter_into};
use vb_mem::{Buffer, BufferMut};
use vb_view::BitBufferView;

/// Values from which a mask selects some.
pub trait Filter: Sized {
    // the number of values
    ghost len: { Self → ℕ };

    // the third argument has those values of the first that the second, a mask, selects
    ghost keeps: { Self → List Bool → Self → Type 0 };

    /// Returns a copy of the values whose bit in the mask is true, in order. A buffer has the
    /// alignment that this one reports; its items, if any, are at the start of a storage whose
    /// declared alignment is 256 bytes, or the reported one if that is greater. A set has offset 0
    /// and as few bytes as hold its bits.
    ///
    /// Returns `LengthMismatch`, with the number of values as `left` and the length of the mask as
    /// `right`, exactly if they differ, before it allocates. Otherwise it returns `OutOfMemory` if
    /// memory runs out. Allocates with this buffer's or set's allocator: once for the selected
    /// values, if any, and once for the count of owners.
    ///
    /// The time is linear in the length of the mask and the number of selected values. If 64 bits
    /// of the mask from a multiple of 64 on are all true, the call copies these 64 items of a
    /// buffer as one block.
    ///
    /// ```rust
    /// let values = Buffer::copy_from(alloc, &[7u32, 0, 9, 4])?;
    /// let mask = compared(alloc, values.as_slice(), Comparison::Greater, 4, None)?;
    /// let kept = values.filtered(mask.as_view())?;
    /// assert_eq!(rt; kept.as_slice(), [7, 9].as_slice());
    /// ```
    fn filtered(&self, mask: BitBufferView<'_>) -> Result<Self>
        ensures { GivesFiltered (len self.now) (length (bits_of mask.entry))
            (keeps self.now (bits_of mask.entry)) result };
}

#[tactic(auto, using(vb_bits::proofs::WindowLemmas::windows))]
impl<A: Allocator + Clone> Filter for BitBuffer<A> {
    ghost use Rattle.std.specs.Prelude.{length};
    ghost use Rattle.vb_gather.specs.Filtered.{KeepsBits};

    ghost len = { λ s. length s.bits };

    ghost keeps = { λ s mask k. KeepsBits mask s.bits k };

    fn filtered(&self, mask: BitBufferView<'_>) -> Result<Self> {
        if self.len() != mask.len() {
            return Err(BufferError::LengthMismatch {
                left: self.len(),
                right: mask.len(),
            });
        }
        let count = mask.true_count();
        let byte_len = count.div_ceil(8);
        let mut bytes = BufferMut::with_capacity(self.inner().allocator().clone()?, byte_len)?;
        bytes.push_n_unchecked(0, byte_len);
        filter_into(bytes.as_mut_slice(), self.as_view(), mask);
        Ok(BitBuffer::new(bytes.freeze()?, count))
    }
}

impl<T: Element, A: Allocator + Clone> Filter for Buffer<T, A> {
    ghost use Rattle.std.specs.Prelude.{length};
    ghost use Rattle.vb_bits.specs.Kept.{kept_by};
    ghost use Rattle.vb_mem.specs.SharedBuffer.{ShowsMade};

    ghost len = { λ b. length b.list };

    ghost keeps = { λ b mask k. ShowsMade (kept_by mask b.list) b.alignment k };

    fn filtered(&self, mask: BitBufferView<'_>) -> Result<Self> {
        let items = self.as_slice();
        if items.len() != mask.len() {
            return Err(BufferError::LengthMismatch {
                left: items.len(),
                right: mask.len(),
            });
        }
        let count = mask.true_count();
        let alignment = self.alignment();
        let alloc = self.allocator().clone()?;
        if count == items.len() {
            return Buffer::copy_from_aligned(alloc, items, alignment);
        }
        let mut kept = BufferMut::zeroed_aligned(alloc, count, alignment)?;
        filter_elements_into(kept.as_mut_slice(), items, mask);
        kept.freeze()
    }
}
