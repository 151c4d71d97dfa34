// Written in part by tools/write-lists from tools/families/kleene.txt.
//! Three-valued logic on truth values that may be null.
ghost use Rattle.std.specs.Prelude.{◌≡◌, [], ◌∷◌, length};
ghost use Rattle.std.specs.Option.{ForSome, option_map};
ghost use Rattle.std.specs.Int.{div_ceil};
ghost use Rattle.std.specs.Simd.Lanes.{zip2};
ghost use Rattle.vb_bit_buffer.specs.SharedSet.{IsFreshSet};
ghost use Rattle.vb_bits.specs.Bits.{bits};
ghost use Rattle.vb_gather.specs.Columns.{IsColumn};
ghost use Rattle.vb_gather.specs.Kleene.{truths, and_truths, or_truths};
ghost use Rattle.vb_gather.specs.OneLength.{GivesOfLength, length_or};
ghost use Rattle.vb_mem.specs.Makes.{Makes};
ghost use Rattle.vb_view.specs.View.{bits_of};

use crate::lengths::{len_or, other_len};
use std::alloc::Allocator;
use vb_bit_buffer::BitBuffer;
use vb_bit_bytes::full;
use vb_core::{BufferError, Result};
use vb_kleene::{and_kleene_into, or_kleene_into};
use vb_mem::ByteBufferMut;
use vb_view::BitBufferView;

/// Returns `left and right` of truth values that may be null, by Kleene's three-valued logic, as in
/// SQL: false if one of the two is false, even if the other one is null; otherwise null if one is
/// null.
///
/// A validity marks the values that are not null; without one, no value is null. It must have the
/// length of its values, and `right` the length of `left`. The values at nulls do not affect the
/// result.
///
/// Returns two sets of offset 0, in as few bytes as hold them: the first marks the values that are
/// true, the second the values that are not null. At a null the bit of the first is false, so that
/// its true bits are the rows that a `where` of SQL selects. `not` needs no function: negate the
/// values and keep the validity. The negated bits are then true at nulls: for a `where`, combine
/// them with the validity by `and`.
///
/// Returns `OutOfMemory` if memory runs out. Allocates with `alloc`: the bytes of both sets before
/// it reads a bit, and the counts of their owners after the last one. Reads each bit once, four
/// words at a time.
pub fn and_kleene<A: Allocator + Clone>(
    alloc: A,
    left: BitBufferView<'_>,
    left_validity: Option<BitBufferView<'_>>,
    right: BitBufferView<'_>,
    right_validity: Option<BitBufferView<'_>>,
) -> Result<(BitBuffer<A>, BitBuffer<A>)>
    requires right { length (bits_of right) ≡ length (bits_of left) }
    requires left_valid { ForSome left_validity (λ v. length (bits_of v) ≡ length (bits_of left)) }
    requires right_valid { ForSome right_validity (λ v. length (bits_of v)
        ≡ length (bits_of left)) }
    ensures { Makes (λ made. IsColumn (zip2 and_truths
        (truths (bits_of left.entry) (option_map bits_of left_validity.entry))
        (truths (bits_of right.entry) (option_map bits_of right_validity.entry)))
        made.0 made.1) result }
{
    let len = left.len();
    let (mut trues, mut valid) = bytes_of_two(alloc, len)?;
    let (to, known) = (trues.as_mut_slice(), valid.as_mut_slice());
    and_kleene_into(to, 0, known, 0, left, left_validity, right, right_validity);
    two_sets(trues, valid, len)
}

/// Returns `left or right` of truth values that may be null, by three-valued logic: true if one of
/// the two is true, even if the other one is null; otherwise null if one is null. Lengths,
/// validities, the two sets, memory and errors are those of [`and_kleene`].
pub fn or_kleene<A: Allocator + Clone>(
    alloc: A,
    left: BitBufferView<'_>,
    left_validity: Option<BitBufferView<'_>>,
    right: BitBufferView<'_>,
    right_validity: Option<BitBufferView<'_>>,
) -> Result<(BitBuffer<A>, BitBuffer<A>)>
    requires right { length (bits_of right) ≡ length (bits_of left) }
    requires left_valid { ForSome left_validity (λ v. length (bits_of v) ≡ length (bits_of left)) }
    requires right_valid { ForSome right_validity (λ v. length (bits_of v)
        ≡ length (bits_of left)) }
    ensures { Makes (λ made. IsColumn (zip2 or_truths
        (truths (bits_of left.entry) (option_map bits_of left_validity.entry))
        (truths (bits_of right.entry) (option_map bits_of right_validity.entry)))
        made.0 made.1) result }
{
    let len = left.len();
    let (mut trues, mut valid) = bytes_of_two(alloc, len)?;
    let (to, known) = (trues.as_mut_slice(), valid.as_mut_slice());
    or_kleene_into(to, 0, known, 0, left, left_validity, right, right_validity);
    two_sets(trues, valid, len)
}

/// Returns the two sets that [`and_kleene`] returns, for values and validities of any lengths.
/// Returns `LengthMismatch`, with the length of `left` as `left`, exactly if another length differs
/// from it, before it allocates. Its `right` is the first length that differs, in the order
/// `right`, `left_validity`, `right_validity`. Otherwise it returns `OutOfMemory` if memory runs
/// out.
pub fn try_and_kleene<A: Allocator + Clone>(
    alloc: A,
    left: BitBufferView<'_>,
    left_validity: Option<BitBufferView<'_>>,
    right: BitBufferView<'_>,
    right_validity: Option<BitBufferView<'_>>,
) -> Result<(BitBuffer<A>, BitBuffer<A>)>
    ensures { GivesOfLength (length (bits_of left.entry)) (length (bits_of right.entry)
        ∷ length_or (length (bits_of left.entry)) (option_map bits_of left_validity.entry)
        ∷ length_or (length (bits_of left.entry)) (option_map bits_of right_validity.entry) ∷ [])
        (λ made. IsColumn (zip2 and_truths
        (truths (bits_of left.entry) (option_map bits_of left_validity.entry))
        (truths (bits_of right.entry) (option_map bits_of right_validity.entry)))
        made.0 made.1) result }
{
    let len = left.len();
    let validities = (len_or(len, left_validity), len_or(len, right_validity));
    match other_len(len, &[right.len(), validities.0, validities.1]) {
        Some(other) => {
            drop(alloc);
            Err(BufferError::LengthMismatch {
                left: len,
                right: other,
            })
        }
        None => and_kleene(alloc, left, left_validity, right, right_validity),
    }
}

/// Returns the two sets that [`or_kleene`] returns, for values and validities of any lengths.
/// Returns the errors of [`try_and_kleene`].
pub fn try_or_kleene<A: Allocator + Clone>(
    alloc: A,
    left: BitBufferView<'_>,
    left_validity: Option<BitBufferView<'_>>,
    right: BitBufferView<'_>,
    right_validity: Option<BitBufferView<'_>>,
) -> Result<(BitBuffer<A>, BitBuffer<A>)>
    ensures { GivesOfLength (length (bits_of left.entry)) (length (bits_of right.entry)
        ∷ length_or (length (bits_of left.entry)) (option_map bits_of left_validity.entry)
        ∷ length_or (length (bits_of left.entry)) (option_map bits_of right_validity.entry) ∷ [])
        (λ made. IsColumn (zip2 or_truths
        (truths (bits_of left.entry) (option_map bits_of left_validity.entry))
        (truths (bits_of right.entry) (option_map bits_of right_validity.entry)))
        made.0 made.1) result }
{
    let len = left.len();
    let validities = (len_or(len, left_validity), len_or(len, right_validity));
    match other_len(len, &[right.len(), validities.0, validities.1]) {
        Some(other) => {
            drop(alloc);
            Err(BufferError::LengthMismatch {
                left: len,
                right: other,
            })
        }
        None => or_kleene(alloc, left, left_validity, right, right_validity),
    }
}

/// Returns two buffers of as few bytes as hold `len` bits, all false.
fn bytes_of_two<A: Allocator + Clone>(
    alloc: A,
    len: usize,
) -> Result<(ByteBufferMut<A>, ByteBufferMut<A>)>
    ensures { Makes (λ made. (length made.0.list ≡ div_ceil len 8)
        × (length made.1.list ≡ div_ceil len 8)) result }
{
    let first = full(alloc.clone()?, false, len)?;
    match full(alloc, false, len) {
        Ok(second) => Ok((first, second)),
        Err(error) => {
            drop(first);
            Err(error)
        }
    }
}

/// Returns two sets of the first `len` bits of the bytes.
fn two_sets<A: Allocator + Clone>(
    first: ByteBufferMut<A>,
    second: ByteBufferMut<A>,
    len: usize,
) -> Result<(BitBuffer<A>, BitBuffer<A>)>
    requires first { length first.list ≡ div_ceil len 8 }
    requires second { length second.list ≡ div_ceil len 8 }
    ensures { Makes (λ made. IsFreshSet (bits first.list 0 len) made.0
        × IsFreshSet (bits second.list 0 len) made.1) result }
{
    let Ok(first) = first.freeze() else {
        drop(second);
        return Err(BufferError::OutOfMemory);
    };
    match second.freeze() {
        Ok(second) => Ok((BitBuffer::new(first, len), BitBuffer::new(second, len))),
        Err(error) => {
            drop(first);
            Err(error)
        }
    }
}
