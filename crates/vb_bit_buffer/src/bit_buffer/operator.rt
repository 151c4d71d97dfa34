// Written in part by tools/write-lists from tools/families/operators.txt.
//! Sets combined bit by bit, and negated.
//!
//! The result has the offset of the left operand, and only the bytes of its window. If the left
//! operand is passed by value and is the only owner of its storage, the operator moves its bytes to
//! the start of the storage, unless they are there, overwrites them, and allocates only the count
//! of owners. Otherwise it copies the bytes, and allocates these too. Bytes come from the left
//! operand's allocator, and the count of owners from that of their storage. The operators compare
//! the lengths before they allocate.
ghost use Rattle.std.specs.Prelude.{◌≡◌, ◌≢◌, ◌≤◌, [], length, IsOk, IsErrOf};
ghost use Rattle.vb_bits.specs.Bits.{count};
ghost use Rattle.vb_bits.specs.Operators.{combined_by};
ghost use Rattle.vb_mem.specs.Makes.{Makes};
ghost use Rattle.vb_mem.specs.OpenBuffer.{HoldsMade};
ghost use Rattle.vb_bit_buffer.specs.Gives.{GivesCombined, GivesNegated};
ghost use Rattle.vb_view.specs.Relation.{CountsCombined, TellsNone};

use super::BitBuffer;
use std::alloc::Allocator;
use std::ops::{BitAnd, BitOr, BitXor, Not};
use vb_bit_bytes::{combine, combine_into, negate};
use vb_bits::BitOp;
use vb_core::{BufferError, Result};
use vb_mem::{BufferMut, ByteBufferMut};

#[tactic(auto, using(crate::proofs::SetLemmas::sets))]
impl<A: Allocator + Clone> BitBuffer<A> {
    /// Returns the bits that are true in this set and false in `right`, in new storage. Allocates
    /// the bytes of the window and the count of owners with this set's allocator. Returns
    /// `LengthMismatch` exactly if the lengths differ. Otherwise it returns `OutOfMemory` if memory
    /// runs out.
    ///
    /// ```rust
    /// let left = BitBuffer::from_indices(alloc, 6, [1, 4])?;
    /// let right = BitBuffer::from_indices(alloc, 6, [4, 5])?;
    ///
    /// let first = left.bitand_not(&right)?;
    /// assert_eq!(rt; first.select(0), Some(1));
    /// ```
    pub fn bitand_not(&self, right: &Self) -> Result<Self>
        ensures { GivesCombined BitOp.AndNot self.now right.now result }
    {
        self.combine_with(right, BitOp::AndNot)
    }

    /// Returns the bits that are true in this set and false in `right`. Overwrites the storage if
    /// this set is the only owner; otherwise it copies the bytes. Allocates the count of owners,
    /// and such a copy with this set's allocator. Returns `LengthMismatch` exactly if the lengths
    /// differ. Otherwise it returns `OutOfMemory` if memory runs out. Drops this set on error.
    pub fn into_bitand_not(self, right: &Self) -> Result<Self>
        ensures { GivesCombined BitOp.AndNot self right.now result }
    {
        self.into_combined(right, BitOp::AndNot)
    }

    // Written by tools/write-lists from tools/families/operators.txt.
    /// Returns the number of indices at which both sets are true. The lengths must be equal. Reads
    /// both sets by words, and does not allocate.
    pub fn and_count(&self, right: &Self) -> usize
        requires { length right.now.bits ≡ length self.now.bits }
        ensures { result ≡ count (combined_by BitOp.And self.now.bits right.now.bits) }
    {
        self.as_view().and_count(&right.as_view())
    }

    /// Returns the number of indices at which this set, `right` or both are true, at the cost of
    /// [`and_count`](Self::and_count). The lengths must be equal.
    pub fn or_count(&self, right: &Self) -> usize
        requires { length right.now.bits ≡ length self.now.bits }
        ensures { result ≡ count (combined_by BitOp.Or self.now.bits right.now.bits) }
    {
        self.as_view().or_count(&right.as_view())
    }

    /// Returns the number of indices at which the sets differ, at the cost of
    /// [`and_count`](Self::and_count). The lengths must be equal.
    pub fn xor_count(&self, right: &Self) -> usize
        requires { length right.now.bits ≡ length self.now.bits }
        ensures { result ≡ count (combined_by BitOp.Xor self.now.bits right.now.bits) }
    {
        self.as_view().xor_count(&right.as_view())
    }

    /// Returns the number of indices at which this set is true and `right` is false, at the cost of
    /// [`and_count`](Self::and_count). The lengths must be equal.
    pub fn andnot_count(&self, right: &Self) -> usize
        requires { length right.now.bits ≡ length self.now.bits }
        ensures { result ≡ count (combined_by BitOp.AndNot self.now.bits right.now.bits) }
    {
        self.as_view().andnot_count(&right.as_view())
    }

    /// Returns the number of indices at which both sets are true. Returns `LengthMismatch`, with
    /// the length of this set as `left`, exactly if the lengths differ. Does not allocate, and
    /// costs what [`and_count`](Self::and_count) does.
    pub fn try_and_count(&self, right: &Self) -> Result<usize>
        ensures { CountsCombined BitOp.And self.now.bits right.now.bits result }
    {
        self.as_view().try_and_count(&right.as_view())
    }

    /// Returns the number of indices at which this set, `right` or both are true. Returns
    /// `LengthMismatch`, with the length of this set as `left`, exactly if the lengths differ. Does
    /// not allocate, and costs what [`or_count`](Self::or_count) does.
    pub fn try_or_count(&self, right: &Self) -> Result<usize>
        ensures { CountsCombined BitOp.Or self.now.bits right.now.bits result }
    {
        self.as_view().try_or_count(&right.as_view())
    }

    /// Returns the number of indices at which the sets differ. Returns `LengthMismatch`, with the
    /// length of this set as `left`, exactly if the lengths differ. Does not allocate, and costs
    /// what [`xor_count`](Self::xor_count) does.
    pub fn try_xor_count(&self, right: &Self) -> Result<usize>
        ensures { CountsCombined BitOp.Xor self.now.bits right.now.bits result }
    {
        self.as_view().try_xor_count(&right.as_view())
    }

    /// Returns the number of indices at which this set is true and `right` is false. Returns
    /// `LengthMismatch`, with the length of this set as `left`, exactly if the lengths differ. Does
    /// not allocate, and costs what [`andnot_count`](Self::andnot_count) does.
    pub fn try_andnot_count(&self, right: &Self) -> Result<usize>
        ensures { CountsCombined BitOp.AndNot self.now.bits right.now.bits result }
    {
        self.as_view().try_andnot_count(&right.as_view())
    }
    // To here.

    /// Returns whether no index is true in both sets; true if there are no bits. Reads both by
    /// words from the start, up to the first word with such an index, and does not allocate.
    /// Returns `LengthMismatch` exactly if the lengths differ.
    pub fn is_disjoint(&self, right: &Self) -> Result<bool>
        ensures { TellsNone BitOp.And self.now.bits right.now.bits result }
    {
        self.as_view().is_disjoint(&right.as_view())
    }

    /// Returns whether each index that is true in this set is true in `right`; true if there are no
    /// bits. Reads both by words from the start, up to the first word with an index that is not,
    /// and does not allocate. Returns `LengthMismatch` exactly if the lengths differ.
    pub fn is_subset(&self, right: &Self) -> Result<bool>
        ensures { TellsNone BitOp.AndNot self.now.bits right.now.bits result }
    {
        self.as_view().is_subset(&right.as_view())
    }

    /// Returns the bits combined with the bits of another set, in new storage.
    fn combine_with(&self, right: &Self, op: BitOp) -> Result<Self>
        ensures { GivesCombined op self.now right.now result }
    {
        self.compare_len(right)?;
        self.combine_apart(right, op)
    }

    /// Returns the bits combined with the bits of another set, in the same storage if this set is
    /// the only owner.
    fn into_combined(self, right: &Self, op: BitOp) -> Result<Self>
        ensures { GivesCombined op self right.now result }
    {
        if let Err(why) = self.compare_len(right) {
            drop(self);
            return Err(why);
        }
        self.combine(right, op)
    }

    /// Returns `LengthMismatch` if the lengths of the sets differ, otherwise `Ok`.
    fn compare_len(&self, right: &Self) -> Result<()>
        ensures same_len { length self.now.bits ≡ length right.now.bits → IsOk result }
        ensures other_len { length self.now.bits ≢ length right.now.bits → IsErrOf result
            (BufferError.LengthMismatch (length self.now.bits) (length right.now.bits)) }
    {
        if self.len == right.len {
            return Ok(());
        }
        Err(BufferError::LengthMismatch {
            left: self.len,
            right: right.len,
        })
    }

    /// Returns an empty buffer with capacity for `bytes` bytes, from the allocator of the set.
    fn room(&self, bytes: usize) -> Result<ByteBufferMut<A>>
        ensures { Makes (λ b. HoldsMade [] 0 b × (bytes ≤ b.room)) result }
    {
        BufferMut::with_capacity(self.buffer.allocator().clone()?, bytes)
    }

    /// Returns the bits combined with the bits of a set of the same length, in new storage.
    fn combine_apart(&self, right: &Self, op: BitOp) -> Result<Self>
        requires { length self.now.bits ≡ length right.now.bits }
        ensures { GivesCombined op self.now right.now result }
    {
        let (offset, len) = (self.offset, self.len);
        let room = self.room((offset + len).div_ceil(8))?;
        let (left, other) = (self.buffer.as_slice(), right.buffer.as_slice());
        let bytes = combine_into(room, left, offset, other, right.offset, len, op)?;
        let buffer = bytes.freeze()?;
        Ok(BitBuffer {
            buffer,
            offset,
            len,
        })
    }

    /// Returns the bits combined with the bits of a set of the same length, in the same storage if
    /// this set is the only owner.
    fn combine(self, right: &Self, op: BitOp) -> Result<Self>
        requires { length self.bits ≡ length right.now.bits }
        ensures { GivesCombined op self right.now result }
    {
        let (offset, len) = (self.offset, self.len);
        let mut bytes = self.into_bytes()?;
        combine(
            &mut bytes,
            offset,
            right.buffer.as_slice(),
            right.offset,
            len,
            op,
        );
        Ok(BitBuffer::window_of(bytes.freeze()?, len, offset))
    }

    /// Returns the negated bits in new storage.
    fn negate_apart(&self) -> Result<Self>
        ensures { GivesNegated self.now result }
    {
        let (offset, len) = (self.offset, self.len);
        let count = (offset + len).div_ceil(8);
        let mut bytes = self.room(count)?;
        bytes.extend_from_slice(&self.buffer.as_slice()[..count])?;
        negate(&mut bytes, offset, len);
        let buffer = bytes.freeze()?;
        Ok(BitBuffer {
            buffer,
            offset,
            len,
        })
    }

    /// Returns the negated bits, in the same storage if this set is the only owner.
    fn into_negated(self) -> Result<Self>
        ensures { GivesNegated self result }
    {
        let (offset, len) = (self.offset, self.len);
        let mut bytes = self.into_bytes()?;
        negate(&mut bytes, offset, len);
        Ok(BitBuffer::window_of(bytes.freeze()?, len, offset))
    }
}

/// Returns the bits that are true in both sets. Overwrites the left operand's storage if it is the
/// only owner; otherwise it copies the bytes. Allocates such a copy with the left operand's
/// allocator, and the count of owners. Returns `LengthMismatch` exactly if the lengths differ.
/// Otherwise it returns `OutOfMemory` if memory runs out. Drops both sets on error.
impl<A: Allocator + Clone> BitAnd<BitBuffer<A>> for BitBuffer<A> {
    ghost use Rattle.vb_bit_buffer.specs.Gives.{GivesCombined};
    ghost use Rattle.vb_bits.specs.declared.zip.BitOp.TheVariants.{And};

    type Output = Result<BitBuffer<A>>;

    ghost bitand_gives = { GivesCombined And };

    fn bitand(self, rhs: BitBuffer<A>) -> Result<BitBuffer<A>> {
        let set = self.into_combined(&rhs, BitOp::And);
        drop(rhs);
        set
    }
}

/// Returns the bits that are true in both sets. Overwrites the left operand's storage if it is the
/// only owner; otherwise it copies the bytes. Allocates such a copy with the left operand's
/// allocator, and the count of owners. Returns `LengthMismatch` exactly if the lengths differ.
/// Otherwise it returns `OutOfMemory` if memory runs out. Drops the left operand on error.
impl<A: Allocator + Clone> BitAnd<&BitBuffer<A>> for BitBuffer<A> {
    ghost use Rattle.vb_bit_buffer.specs.Gives.{GivesCombined};
    ghost use Rattle.vb_bits.specs.declared.zip.BitOp.TheVariants.{And};

    type Output = Result<BitBuffer<A>>;

    ghost bitand_gives = { λ l r s. GivesCombined And l r.now s };

    fn bitand(self, rhs: &BitBuffer<A>) -> Result<BitBuffer<A>> {
        self.into_combined(rhs, BitOp::And)
    }
}

/// Returns the bits that are true in both sets, in new storage. Allocates its bytes and the count
/// of owners with the left operand's allocator. Returns `LengthMismatch` exactly if the lengths
/// differ. Otherwise it returns `OutOfMemory` if memory runs out. Drops the right operand, also on
/// error.
impl<A: Allocator + Clone> BitAnd<BitBuffer<A>> for &BitBuffer<A> {
    ghost use Rattle.vb_bit_buffer.specs.Gives.{GivesCombined};
    ghost use Rattle.vb_bits.specs.declared.zip.BitOp.TheVariants.{And};

    type Output = Result<BitBuffer<A>>;

    ghost bitand_gives = { λ l r s. GivesCombined And l.now r s };

    fn bitand(self, rhs: BitBuffer<A>) -> Result<BitBuffer<A>> {
        let set = self.combine_with(&rhs, BitOp::And);
        drop(rhs);
        set
    }
}

/// Returns the bits that are true in both sets, in new storage. Allocates its bytes and the count
/// of owners with the left operand's allocator. Returns `LengthMismatch` exactly if the lengths
/// differ. Otherwise it returns `OutOfMemory` if memory runs out.
impl<A: Allocator + Clone> BitAnd<&BitBuffer<A>> for &BitBuffer<A> {
    ghost use Rattle.vb_bit_buffer.specs.Gives.{GivesCombined};
    ghost use Rattle.vb_bits.specs.declared.zip.BitOp.TheVariants.{And};

    type Output = Result<BitBuffer<A>>;

    ghost bitand_gives = { λ l r s. GivesCombined And l.now r.now s };

    fn bitand(self, rhs: &BitBuffer<A>) -> Result<BitBuffer<A>> {
        self.combine_with(rhs, BitOp::And)
    }
}

/// Returns the bits that are true in at least one of the sets. Overwrites the left operand's
/// storage if it is the only owner; otherwise it copies the bytes. Allocates such a copy with the
/// left operand's allocator, and the count of owners. Returns `LengthMismatch` exactly if the
/// lengths differ. Otherwise it returns `OutOfMemory` if memory runs out. Drops both sets on error.
impl<A: Allocator + Clone> BitOr<BitBuffer<A>> for BitBuffer<A> {
    ghost use Rattle.vb_bit_buffer.specs.Gives.{GivesCombined};
    ghost use Rattle.vb_bits.specs.declared.zip.BitOp.TheVariants.{Or};

    type Output = Result<BitBuffer<A>>;

    ghost bitor_gives = { GivesCombined Or };

    fn bitor(self, rhs: BitBuffer<A>) -> Result<BitBuffer<A>> {
        let set = self.into_combined(&rhs, BitOp::Or);
        drop(rhs);
        set
    }
}

/// Returns the bits that are true in at least one of the sets. Overwrites the left operand's
/// storage if it is the only owner; otherwise it copies the bytes. Allocates such a copy with the
/// left operand's allocator, and the count of owners. Returns `LengthMismatch` exactly if the
/// lengths differ. Otherwise it returns `OutOfMemory` if memory runs out. Drops the left operand on
/// error.
impl<A: Allocator + Clone> BitOr<&BitBuffer<A>> for BitBuffer<A> {
    ghost use Rattle.vb_bit_buffer.specs.Gives.{GivesCombined};
    ghost use Rattle.vb_bits.specs.declared.zip.BitOp.TheVariants.{Or};

    type Output = Result<BitBuffer<A>>;

    ghost bitor_gives = { λ l r s. GivesCombined Or l r.now s };

    fn bitor(self, rhs: &BitBuffer<A>) -> Result<BitBuffer<A>> {
        self.into_combined(rhs, BitOp::Or)
    }
}

/// Returns the bits that are true in at least one of the sets, in new storage. Allocates its bytes
/// and the count of owners with the left operand's allocator. Returns `LengthMismatch` exactly if
/// the lengths differ. Otherwise it returns `OutOfMemory` if memory runs out.
impl<A: Allocator + Clone> BitOr<&BitBuffer<A>> for &BitBuffer<A> {
    ghost use Rattle.vb_bit_buffer.specs.Gives.{GivesCombined};
    ghost use Rattle.vb_bits.specs.declared.zip.BitOp.TheVariants.{Or};

    type Output = Result<BitBuffer<A>>;

    ghost bitor_gives = { λ l r s. GivesCombined Or l.now r.now s };

    fn bitor(self, rhs: &BitBuffer<A>) -> Result<BitBuffer<A>> {
        self.combine_with(rhs, BitOp::Or)
    }
}

/// Returns the bits that are true in exactly one of the sets. Overwrites the left operand's storage
/// if it is the only owner; otherwise it copies the bytes. Allocates such a copy with the left
/// operand's allocator, and the count of owners. Returns `LengthMismatch` exactly if the lengths
/// differ. Otherwise it returns `OutOfMemory` if memory runs out. Drops the left operand on error.
impl<A: Allocator + Clone> BitXor<&BitBuffer<A>> for BitBuffer<A> {
    ghost use Rattle.vb_bit_buffer.specs.Gives.{GivesCombined};
    ghost use Rattle.vb_bits.specs.declared.zip.BitOp.TheVariants.{Xor};

    type Output = Result<BitBuffer<A>>;

    ghost bitxor_gives = { λ l r s. GivesCombined Xor l r.now s };

    fn bitxor(self, rhs: &BitBuffer<A>) -> Result<BitBuffer<A>> {
        self.into_combined(rhs, BitOp::Xor)
    }
}

/// Returns the bits that are true in exactly one of the sets, in new storage. Allocates its bytes
/// and the count of owners with the left operand's allocator. Returns `LengthMismatch` exactly if
/// the lengths differ. Otherwise it returns `OutOfMemory` if memory runs out.
impl<A: Allocator + Clone> BitXor<&BitBuffer<A>> for &BitBuffer<A> {
    ghost use Rattle.vb_bit_buffer.specs.Gives.{GivesCombined};
    ghost use Rattle.vb_bits.specs.declared.zip.BitOp.TheVariants.{Xor};

    type Output = Result<BitBuffer<A>>;

    ghost bitxor_gives = { λ l r s. GivesCombined Xor l.now r.now s };

    fn bitxor(self, rhs: &BitBuffer<A>) -> Result<BitBuffer<A>> {
        self.combine_with(rhs, BitOp::Xor)
    }
}

/// Negates each bit. Overwrites the set's storage if it is the only owner; otherwise it copies the
/// bytes. Allocates such a copy with the set's allocator, and the count of owners. Returns
/// `OutOfMemory` if memory runs out, and drops the set then.
impl<A: Allocator + Clone> Not for BitBuffer<A> {
    ghost use Rattle.vb_bit_buffer.specs.Gives.{GivesNegated};

    type Output = Result<BitBuffer<A>>;

    ghost not_gives = { GivesNegated };

    fn not(self) -> Result<BitBuffer<A>> {
        self.into_negated()
    }
}

/// Returns the negated bits in new storage. Allocates its bytes and the count of owners with the
/// set's allocator. Returns `OutOfMemory` if memory runs out.
impl<A: Allocator + Clone> Not for &BitBuffer<A> {
    ghost use Rattle.vb_bit_buffer.specs.Gives.{GivesNegated};

    type Output = Result<BitBuffer<A>>;

    ghost not_gives = { λ s t. GivesNegated s.now t };

    fn not(self) -> Result<BitBuffer<A>> {
        self.negate_apart()
    }
}
