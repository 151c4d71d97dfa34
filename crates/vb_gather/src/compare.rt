//! Sets of comparison results.
ghost use Rattle.std.specs.Prelude.{◌≡◌, ◌*◌, ◌≤◌, [], ◌∷◌, length, map};
ghost use Rattle.std.specs.Option.{ForSome, option_map};
ghost use Rattle.std.specs.Simd.Lanes.{zip2};
ghost use Rattle.vb_bit_buffer.specs.SharedSet.{IsFreshSet};
ghost use Rattle.vb_bits.specs.Bits.{bits};
ghost use Rattle.vb_compare.specs.Compares.{compares};
ghost use Rattle.vb_gather.specs.Compared.{HoldsBits, where_valid};
ghost use Rattle.vb_gather.specs.OneLength.{GivesOfLength, length_or};
ghost use Rattle.vb_mem.specs.Makes.{Makes};
ghost use Rattle.vb_view.specs.View.{bits_of};

use crate::lengths::{len_or, other_len};
use std::alloc::Allocator;
use vb_bit_buffer::BitBuffer;
use vb_bit_bytes::full;
use vb_bits::{BitOp, zip_words};
use vb_compare::{CompareLanes, Comparison, compare_into, compare_with_into};
use vb_core::{BufferError, Result};
use vb_view::BitBufferView;

/// Compares each value with `number`, and returns a set with one bit for each value: true if `value
/// op number` holds. The set has offset 0 and as few bytes as hold the bits.
///
/// A `validity`, if there is one, must have the length of `values`. If its bit for a value is
/// false, the value is null, and the bit of the set is false.
///
/// Returns `OutOfMemory` if memory runs out. Allocates with `alloc`: the bytes before the first
/// comparison, and the count of owners after the last one.
///
/// Compares as `compare_into` does, 64 at once if a value has at most 32 bits, else eight. A
/// validity adds one pass over the words of the bits.
///
/// ```rust
/// let values = Buffer::copy_from(alloc, &[7u32, 0, 9, 4])?;
/// let mask = compared(alloc, values.as_slice(), Comparison::Greater, 4, None)?;
/// let kept = values.filtered(mask.as_view())?;
/// assert_eq!(rt; kept.as_slice(), [7, 9].as_slice());
/// ```
#[tactic(auto, using(vb_bit_bytes::proofs::BytesLemmas::edits))]
pub fn compared<T: CompareLanes, A: Allocator + Clone>(
    alloc: A,
    values: &[T],
    op: Comparison,
    number: T,
    validity: Option<BitBufferView<'_>>,
) -> Result<BitBuffer<A>>
    requires { ForSome validity (λ v. length (bits_of v) ≡ length values.now) }
    ensures { Makes (IsFreshSet (where_valid (option_map bits_of validity.entry)
        (map (λ value. compares op (T.number value) (T.number number)) values.now))) result }
{
    let mut bytes = full(alloc, false, values.len())?;
    write_compared(bytes.as_mut_slice(), values, op, number, validity);
    Ok(BitBuffer::new(bytes.freeze()?, values.len()))
}

/// Compares each value with the one at the same index of `others`, and returns a set with one bit
/// for each pair: true if `value op other` holds. `others` must have the length of `values`. The
/// set, the validity, memory and errors are those of [`compared`].
#[tactic(auto, using(vb_bit_bytes::proofs::BytesLemmas::edits))]
pub fn compared_with<T: CompareLanes, A: Allocator + Clone>(
    alloc: A,
    values: &[T],
    op: Comparison,
    others: &[T],
    validity: Option<BitBufferView<'_>>,
) -> Result<BitBuffer<A>>
    requires others { length others.now ≡ length values.now }
    requires validity { ForSome validity (λ v. length (bits_of v) ≡ length values.now) }
    ensures { Makes (IsFreshSet (where_valid (option_map bits_of validity.entry)
        (zip2 (λ left right. compares op (T.number left) (T.number right))
        values.now others.now))) result }
{
    let mut bytes = full(alloc, false, values.len())?;
    write_compared_with(bytes.as_mut_slice(), values, op, others, validity);
    Ok(BitBuffer::new(bytes.freeze()?, values.len()))
}

/// Returns the set that [`compared`] returns, for a validity of any length. Returns
/// `LengthMismatch`, with the number of values as `left` and the length of the validity as `right`,
/// exactly if they differ, before it allocates. Otherwise it returns `OutOfMemory` if memory runs
/// out.
pub fn try_compared<T: CompareLanes, A: Allocator + Clone>(
    alloc: A,
    values: &[T],
    op: Comparison,
    number: T,
    validity: Option<BitBufferView<'_>>,
) -> Result<BitBuffer<A>>
    ensures { GivesOfLength (length values.now)
        (length_or (length values.now) (option_map bits_of validity.entry) ∷ [])
        (IsFreshSet (where_valid (option_map bits_of validity.entry)
        (map (λ value. compares op (T.number value) (T.number number)) values.now))) result }
{
    let left = values.len();
    match other_len(left, &[len_or(left, validity)]) {
        Some(right) => {
            drop(alloc);
            Err(BufferError::LengthMismatch { left, right })
        }
        None => compared(alloc, values, op, number, validity),
    }
}

/// Returns the set that [`compared_with`] returns, for `others` and a validity of any lengths.
/// Returns `LengthMismatch`, with the number of values as `left`, exactly if another length differs
/// from it, before it allocates; `right` is the length of `others` if that differs, else the length
/// of the validity. Otherwise it returns `OutOfMemory` if memory runs out.
pub fn try_compared_with<T: CompareLanes, A: Allocator + Clone>(
    alloc: A,
    values: &[T],
    op: Comparison,
    others: &[T],
    validity: Option<BitBufferView<'_>>,
) -> Result<BitBuffer<A>>
    ensures { GivesOfLength (length values.now) (length others.now
        ∷ length_or (length values.now) (option_map bits_of validity.entry) ∷ [])
        (IsFreshSet (where_valid (option_map bits_of validity.entry)
        (zip2 (λ left right. compares op (T.number left) (T.number right))
        values.now others.now))) result }
{
    let left = values.len();
    match other_len(left, &[others.len(), len_or(left, validity)]) {
        Some(right) => {
            drop(alloc);
            Err(BufferError::LengthMismatch { left, right })
        }
        None => compared_with(alloc, values, op, others, validity),
    }
}

/// Writes the bits of [`compared`] to the first bits of `out`.
fn write_compared<T: CompareLanes>(
    out: &mut [u8],
    values: &[T],
    op: Comparison,
    number: T,
    validity: Option<BitBufferView<'_>>,
)
    requires room { length values.now ≤ 8 * length out.old }
    requires validity { ForSome validity (λ v. length (bits_of v) ≡ length values.now) }
    ensures { HoldsBits (length values.now) (where_valid (option_map bits_of validity.entry)
        (map (λ value. compares op (T.number value) (T.number number)) values.now))
        out.old out.new }
{
    compare_into(out, 0, values, op, number);
    clear_nulls(out, values.len(), validity);
}

/// Writes the bits of [`compared_with`] to the first bits of `out`.
#[tactic(auto, using(vb_compare::proofs::TruthLemmas::length_paired))]
fn write_compared_with<T: CompareLanes>(
    out: &mut [u8],
    values: &[T],
    op: Comparison,
    others: &[T],
    validity: Option<BitBufferView<'_>>,
)
    requires room { length values.now ≤ 8 * length out.old }
    requires others { length others.now ≡ length values.now }
    requires validity { ForSome validity (λ v. length (bits_of v) ≡ length values.now) }
    ensures { HoldsBits (length values.now) (where_valid (option_map bits_of validity.entry)
        (zip2 (λ left right. compares op (T.number left) (T.number right))
        values.now others.now)) out.old out.new }
{
    compare_with_into(out, 0, values, op, others);
    clear_nulls(out, values.len(), validity);
}

/// Sets each of the first `len` bits to false if its bit of the validity is false. A validity must
/// have `len` bits.
fn clear_nulls(out: &mut [u8], len: usize, validity: Option<BitBufferView<'_>>)
    requires room { len ≤ 8 * length out.old }
    requires validity { ForSome validity (λ v. length (bits_of v) ≡ len) }
    ensures { HoldsBits len (where_valid (option_map bits_of validity.entry) (bits out.old 0 len))
        out.old out.new }
{
    if let Some(valid) = validity {
        zip_words(out, 0, valid.inner(), valid.offset(), len, BitOp::And);
    }
}
