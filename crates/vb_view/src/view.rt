// Written in part by tools/write-lists from tools/families/operators.txt.
//! Bits over borrowed bytes, for reading.
ghost use Rattle.std.specs.Prelude.{◌≡◌, ◌+◌, ◌-◌, ◌*◌, ◌/◌, ◌%◌, ◌^◌, ◌<◌, ◌≤◌, ◌==◌, ◌↔◌};
ghost use Rattle.std.specs.Prelude.{◌≢◌, ℕ, length, drop, slice_get, slice_range, Some, All};
ghost use Rattle.std.specs.Prelude.{IsTrue, IsOk, IsErrOf};
ghost use Rattle.vb_bits.specs.Bits.{bits, count, complement, places, Selects, InvertsCount};
ghost use Rattle.vb_bits.specs.InBytes.{InBytes};
ghost use Rattle.vb_bits.specs.Nearest.{IsNext, IsPrevious};
ghost use Rattle.vb_bits.specs.Operators.{combined_by};
ghost use Rattle.vb_bits.specs.Runs.{runs, last_place};
ghost use Rattle.vb_bits.specs.declared.zip.BitOp.TheVariants.{And, Or, Xor, AndNot};
ghost use Rattle.vb_view.specs.Relation.{CountsCombined, TellsNone};
ghost use Rattle.vb_view.specs.Windows.{IsWindow};
ghost use Rattle.vb_walk.specs.Cut.{IsCut};

use crate::meta::BitBufferMeta;
use std::ops::Range;
use vb_bits::get_bit;
use vb_core::{BufferError, Result};
use vb_count::count_ones;
use vb_pair::{and_count, andnot_count, is_disjoint, is_subset, or_count, xor_count};
use vb_select::{
    all_set, any_set, bit_select, bit_select_unset, last_set_index, next_set, next_unset,
    previous_set, previous_unset,
};
use vb_walk::{BitChunks, BitIndexIterator, BitIterator, BitSliceIterator, UnalignedBitChunk};

/// A list of bits in borrowed bytes. Views can be copied freely.
///
/// Contracts see its bits, its bytes, and the offset of its first bit in them, which is below 8.
#[derive(Clone, Copy)]
pub struct BitBufferView<'a> {
    bytes: &'a [u8],
    offset: usize,
    len: usize,
    ghost first_byte: { offset < 8 },
    ghost inside: { offset + len ≤ 8 * length bytes.now },
    ghost fits: { offset + len < 2 ^ 64 },
}

#[tactic(auto, using(vb_bits::proofs::WindowLemmas::windows))]
impl<'a> BitBufferView<'a> {
    ghost use Rattle.vb_view.specs.View.{bits_of, offset_of, bytes_of};

    /// Returns a view of the first `len` bits of `bytes`, which must have at least `len` bits.
    pub fn new(bytes: &'a [u8], len: usize) -> Self
        requires { len ≤ 8 * length bytes.now }
        ensures bits { bits_of result ≡ bits bytes.now 0 len }
        ensures len { length (bits_of result) ≡ len }
        ensures offset { offset_of result ≡ 0 }
        ensures bytes { bytes_of result ≡ bytes.now }
    {
        BitBufferView::new_with_offset(bytes, len, 0)
    }

    /// Returns a view of the `len` bits from bit `offset` on. They must be in `bytes`, and
    /// `offset + len` must fit in a `usize`. The bytes of the view begin with byte `offset / 8`.
    pub fn new_with_offset(bytes: &'a [u8], len: usize, offset: usize) -> Self
        requires window { InBytes bytes.now offset len }
        ensures bits { bits_of result ≡ bits bytes.now offset len }
        ensures len { length (bits_of result) ≡ len }
        ensures offset { offset_of result ≡ offset % 8 }
        ensures bytes { bytes_of result ≡ drop (offset / 8) bytes.now }
    {
        BitBufferView {
            bytes: &bytes[offset / 8..],
            offset: offset % 8,
            len,
        }
    }

    /// Returns a view of the bits that `meta` describes, which must be in `bytes`.
    pub fn from_meta(bytes: &'a [u8], meta: BitBufferMeta) -> Self
        requires { meta.offset + meta.len ≤ 8 * length bytes.now }
        ensures bits { bits_of result ≡ bits bytes.now meta.offset meta.len }
        ensures len { length (bits_of result) ≡ meta.len }
        ensures offset { offset_of result ≡ meta.offset }
        ensures bytes { bytes_of result ≡ bytes.now }
    {
        BitBufferView {
            bytes,
            offset: meta.offset(),
            len: meta.len(),
        }
    }

    /// Returns the offset of the first bit and the number of bits.
    pub fn meta(&self) -> BitBufferMeta
        ensures offset { result.offset ≡ offset_of self.now }
        ensures len { result.len ≡ length (bits_of self.now) }
    {
        BitBufferMeta::new(self.offset, self.len)
    }

    /// Returns the number of bits.
    pub fn len(&self) -> usize
        ensures { result ≡ length (bits_of self.now) }
    {
        self.len
    }

    /// Returns whether the view has no bits.
    pub fn is_empty(&self) -> bool
        ensures { result ≡ (length (bits_of self.now) == 0) }
    {
        self.len == 0
    }

    /// Returns the offset of the first bit in [`inner`](Self::inner), in bits; it is below 8.
    pub fn offset(&self) -> usize
        ensures value { result ≡ offset_of self.now }
        ensures below { result < 8 }
    {
        self.offset
    }

    /// Returns the bytes. The bits of the view are those from bit [`offset`](Self::offset) on.
    pub fn inner(&self) -> &'a [u8]
        ensures bytes { result.now ≡ bytes_of self.now }
        ensures window { IsWindow result.now (offset_of self.now) (bits_of self.now) }
    {
        self.bytes
    }

    /// Returns the bit at index `i`, which must be below the length.
    pub fn value(&self, i: usize) -> bool
        requires { i < length (bits_of self.now) }
        ensures { slice_get (bits_of self.now) i ≡ Some result }
    {
        get_bit(self.bytes, self.offset + i)
    }

    /// Returns a view of the bits of `range`, which must be in order and end within the length. The
    /// bytes of the new view begin with the byte of its first bit.
    pub fn slice(&self, range: Range<usize>) -> Self
        requires order { range.start ≤ range.end }
        requires within { range.end ≤ length (bits_of self.now) }
        ensures bits { bits_of result ≡ slice_range (bits_of self.now) range.start range.end }
        ensures len { length (bits_of result) ≡ range.end - range.start }
        ensures offset { offset_of result ≡ (offset_of self.now + range.start) % 8 }
        ensures bytes { bytes_of result
            ≡ drop ((offset_of self.now + range.start) / 8) (bytes_of self.now) }
    {
        let len = range.end - range.start;
        BitBufferView::new_with_offset(self.bytes, len, self.offset + range.start)
    }

    /// Returns the bits as words of 64 bits, from the first bit on, and a remainder.
    pub fn chunks(&self) -> BitChunks<'a>
        ensures { result ≡ bits_of self.now }
    {
        BitChunks::new(self.bytes, self.offset, self.len)
    }

    /// Returns the bits as words of eight bytes each, from the byte of the first bit on. Bits
    /// outside the view are 0 in them.
    pub fn unaligned_chunks(&self) -> UnalignedBitChunk<'a>
        ensures { IsCut (offset_of self.now) (bits_of self.now) result }
    {
        UnalignedBitChunk::new(self.bytes, self.offset, self.len)
    }

    /// Returns an iterator over the bits as truth values, from either end.
    pub fn iter(&self) -> BitIterator<'a>
        ensures { result ≡ bits_of self.now }
    {
        BitIterator::new(self.bytes, self.offset, self.len)
    }

    /// Returns an iterator over the indices of the set bits, in ascending order.
    pub fn set_indices(&self) -> BitIndexIterator<'a>
        ensures value { result ≡ places (bits_of self.now) }
        ensures below { All (λ i. i < length (bits_of self.now)) result }
        ensures count { length result ≡ count (bits_of self.now) }
        ensures few { length result ≤ length (bits_of self.now) }
        ensures fits { length (bits_of self.now) < 2 ^ 64 }
    {
        BitIndexIterator::new(self.bytes, self.offset, self.len)
    }

    /// Returns an iterator over the runs of set bits, each as long as possible, from front to end:
    /// the index of the first bit of a run, and the index after its last one.
    pub fn set_slices(&self) -> BitSliceIterator<'a>
        ensures value { result ≡ runs (bits_of self.now) }
        ensures within { All (λ run. (run.0 < run.1) × (run.1 ≤ length (bits_of self.now))) result }
        ensures few { length result ≤ length (bits_of self.now) }
        ensures fits { length (bits_of self.now) < 2 ^ 64 }
    {
        BitSliceIterator::new(self.bytes, self.offset, self.len)
    }

    /// Returns the number of set bits. Reads the bytes once, 64 at a time.
    pub fn true_count(&self) -> usize
        ensures { result ≡ count (bits_of self.now) }
    {
        count_ones(self.bytes, self.offset, self.len)
    }

    /// Returns the number of unset bits. Costs the same as [`true_count`](Self::true_count).
    pub fn false_count(&self) -> usize
        ensures { result ≡ count (complement (bits_of self.now)) }
    {
        self.len() - self.true_count()
    }

    /// Returns the number of set bits from index `start` up to `end`, `end` excluded. `start` must
    /// be at most `end`, and `end` at most the length. Reads the bytes of these bits once, 64 at a
    /// time.
    pub fn count_range(&self, start: usize, end: usize) -> usize
        requires order { start ≤ end }
        requires within { end ≤ length (bits_of self.now) }
        ensures value { result ≡ count (slice_range (bits_of self.now) start end) }
        ensures adds { (b : ℕ) → start ≤ b → b ≤ end → result
            ≡ count (slice_range (bits_of self.now) start b)
            + count (slice_range (bits_of self.now) b end) }
    {
        count_ones(self.bytes, self.offset + start, end - start)
    }

    // Written by tools/write-lists from tools/families/operators.txt.
    /// Returns the number of indices at which both views are true; they must have the same length.
    /// Reads both word by word, and does not allocate.
    pub fn and_count(&self, other: &BitBufferView<'_>) -> usize
        requires { length (bits_of other.now) ≡ length (bits_of self.now) }
        ensures { result ≡ count (combined_by And (bits_of self.now) (bits_of other.now)) }
    {
        and_count(self.bytes, self.offset, other.bytes, other.offset, self.len)
    }

    /// Returns the number of indices at which at least one of the views is true; they must have the
    /// same length. Costs the same as [`and_count`](Self::and_count).
    pub fn or_count(&self, other: &BitBufferView<'_>) -> usize
        requires { length (bits_of other.now) ≡ length (bits_of self.now) }
        ensures { result ≡ count (combined_by Or (bits_of self.now) (bits_of other.now)) }
    {
        or_count(self.bytes, self.offset, other.bytes, other.offset, self.len)
    }

    /// Returns the number of indices at which the views differ; they must have the same length.
    /// Costs the same as [`and_count`](Self::and_count).
    pub fn xor_count(&self, other: &BitBufferView<'_>) -> usize
        requires { length (bits_of other.now) ≡ length (bits_of self.now) }
        ensures { result ≡ count (combined_by Xor (bits_of self.now) (bits_of other.now)) }
    {
        xor_count(self.bytes, self.offset, other.bytes, other.offset, self.len)
    }

    /// Returns the number of indices at which this view is true and the other one false; they must
    /// have the same length. Costs the same as [`and_count`](Self::and_count).
    pub fn andnot_count(&self, other: &BitBufferView<'_>) -> usize
        requires { length (bits_of other.now) ≡ length (bits_of self.now) }
        ensures { result ≡ count (combined_by AndNot (bits_of self.now) (bits_of other.now)) }
    {
        andnot_count(self.bytes, self.offset, other.bytes, other.offset, self.len)
    }

    /// Returns the number of indices at which both views are true. Returns `LengthMismatch`, with
    /// the length of this view as `left`, exactly if the lengths differ. Does not allocate, and
    /// costs the same as [`and_count`](Self::and_count).
    pub fn try_and_count(&self, other: &BitBufferView<'_>) -> Result<usize>
        ensures { CountsCombined And (bits_of self.now) (bits_of other.now) result }
    {
        self.compare_len(other)?;
        Ok(self.and_count(other))
    }

    /// Returns the number of indices at which at least one of the views is true. Returns
    /// `LengthMismatch`, with the length of this view as `left`, exactly if the lengths differ.
    /// Does not allocate, and costs the same as [`or_count`](Self::or_count).
    pub fn try_or_count(&self, other: &BitBufferView<'_>) -> Result<usize>
        ensures { CountsCombined Or (bits_of self.now) (bits_of other.now) result }
    {
        self.compare_len(other)?;
        Ok(self.or_count(other))
    }

    /// Returns the number of indices at which the views differ. Returns `LengthMismatch`, with the
    /// length of this view as `left`, exactly if the lengths differ. Does not allocate, and costs
    /// the same as [`xor_count`](Self::xor_count).
    pub fn try_xor_count(&self, other: &BitBufferView<'_>) -> Result<usize>
        ensures { CountsCombined Xor (bits_of self.now) (bits_of other.now) result }
    {
        self.compare_len(other)?;
        Ok(self.xor_count(other))
    }

    /// Returns the number of indices at which this view is true and the other one false. Returns
    /// `LengthMismatch`, with the length of this view as `left`, exactly if the lengths differ.
    /// Does not allocate, and costs the same as [`andnot_count`](Self::andnot_count).
    pub fn try_andnot_count(&self, other: &BitBufferView<'_>) -> Result<usize>
        ensures { CountsCombined AndNot (bits_of self.now) (bits_of other.now) result }
    {
        self.compare_len(other)?;
        Ok(self.andnot_count(other))
    }
    // To here.

    /// Returns whether no index is true in both views (true for no bits). Returns `LengthMismatch`,
    /// with the length of this view as `left`, exactly if the lengths differ. Reads both word by
    /// word from the front, up to the first word that has such an index. Does not allocate.
    pub fn is_disjoint(&self, other: &BitBufferView<'_>) -> Result<bool>
        ensures { TellsNone And (bits_of self.now) (bits_of other.now) result }
    {
        self.compare_len(other)?;
        Ok(is_disjoint(self.bytes, self.offset, other.bytes, other.offset, self.len))
    }

    /// Returns whether each index that is true in this view is true in the other one (true for no
    /// bits). Returns `LengthMismatch`, with the length of this view as `left`, exactly if the
    /// lengths differ. Reads both word by word from the front, up to the first word with an index
    /// that is true in this view alone. Does not allocate.
    pub fn is_subset(&self, other: &BitBufferView<'_>) -> Result<bool>
        ensures { TellsNone AndNot (bits_of self.now) (bits_of other.now) result }
    {
        self.compare_len(other)?;
        Ok(is_subset(self.bytes, self.offset, other.bytes, other.offset, self.len))
    }

    /// Returns `LengthMismatch`, with the length of this view as `left`, exactly if the lengths
    /// differ.
    fn compare_len(&self, other: &BitBufferView<'_>) -> Result<()>
        ensures same_len { length (bits_of self.now) ≡ length (bits_of other.now) → IsOk result }
        ensures other_len { length (bits_of self.now) ≢ length (bits_of other.now)
            → IsErrOf result (BufferError.LengthMismatch
            (length (bits_of self.now)) (length (bits_of other.now))) }
    {
        if self.len == other.len {
            return Ok(());
        }
        Err(BufferError::LengthMismatch {
            left: self.len,
            right: other.len,
        })
    }

    /// Returns the index of the `n`-th set bit, counted from 0; `None` if at most `n` bits are set.
    /// Counts from the front, 64 bytes at a time, up to the bytes that have it; in a view of more
    /// than 4,096 bytes it may also count bytes after these.
    pub fn select(&self, n: usize) -> Option<usize>
        ensures place { Selects (bits_of self.now) n result }
        ensures each { InvertsCount (bits_of self.now) n result }
    {
        bit_select(self.bytes, self.offset, self.len, n)
    }

    /// Returns the index of the `n`-th unset bit, counted from 0; `None` if at most `n` bits are
    /// unset. Costs the same as [`select`](Self::select).
    pub fn select_unset(&self, n: usize) -> Option<usize>
        ensures place { Selects (complement (bits_of self.now)) n result }
        ensures each { InvertsCount (complement (bits_of self.now)) n result }
    {
        bit_select_unset(self.bytes, self.offset, self.len, n)
    }

    /// Returns the index of the last set bit; `None` if no bit is set. Reads the last word, and
    /// then words before it, eight at once, up to those that have the bit.
    pub fn last_set_index(&self) -> Option<usize>
        ensures { result ≡ last_place (bits_of self.now) }
    {
        last_set_index(self.bytes, self.offset, self.len)
    }

    /// Returns the index of the first set bit at or after index `from`; `None` if there is none, or
    /// if `from` is at least the length. Reads two words one by one, and then four words at a time,
    /// up to those that have it. To visit all set bits, [`set_indices`](Self::set_indices) is
    /// faster.
    pub fn next_set(&self, from: usize) -> Option<usize>
        ensures { IsNext (bits_of self.now) from result }
    {
        next_set(self.bytes, self.offset, self.len, from)
    }

    /// Returns the index of the first unset bit at or after index `from`; `None` if there is none,
    /// or if `from` is at least the length. Reads as [`next_set`](Self::next_set) does.
    pub fn next_unset(&self, from: usize) -> Option<usize>
        ensures { IsNext (complement (bits_of self.now)) from result }
    {
        next_unset(self.bytes, self.offset, self.len, from)
    }

    /// Returns the index of the last set bit before index `before`; `None` if there is none. A
    /// `before` of at least the length searches all bits. Reads as
    /// [`last_set_index`](Self::last_set_index) does, from index `before` to the front.
    pub fn previous_set(&self, before: usize) -> Option<usize>
        ensures { IsPrevious (bits_of self.now) before result }
    {
        previous_set(self.bytes, self.offset, self.len, before)
    }

    /// Returns the index of the last unset bit before index `before`; `None` if there is none. A
    /// `before` of at least the length searches all bits. Reads as
    /// [`previous_set`](Self::previous_set) does.
    pub fn previous_unset(&self, before: usize) -> Option<usize>
        ensures { IsPrevious (complement (bits_of self.now)) before result }
    {
        previous_unset(self.bytes, self.offset, self.len, before)
    }

    /// Returns whether any bit is set (false for no bits). Reads up to 64 bits as one word; of more
    /// bits the first eight bytes, then the last eight, then the words between, eight at once, up
    /// to those with a set bit.
    pub fn any_set(&self) -> bool
        ensures { IsTrue result ↔ (0 < count (bits_of self.now)) }
    {
        any_set(self.bytes, self.offset, self.len)
    }

    /// Returns whether all bits are set (true for no bits). Reads as [`any_set`](Self::any_set)
    /// does, up to the bytes or words with an unset bit.
    pub fn all_set(&self) -> bool
        ensures { IsTrue result ↔ (count (bits_of self.now) ≡ length (bits_of self.now)) }
    {
        all_set(self.bytes, self.offset, self.len)
    }
}

impl<'a> IntoIterator for BitBufferView<'a> {
    ghost use Rattle.std.specs.Prelude.{◌≡◌};
    ghost use Rattle.vb_view.specs.View.{bits_of};

    type Item = bool;

    type IntoIter = BitIterator<'a>;

    ghost into_iter_gives = { λ v it. it ≡ bits_of v };

    fn into_iter(self) -> BitIterator<'a> {
        self.iter()
    }
}
