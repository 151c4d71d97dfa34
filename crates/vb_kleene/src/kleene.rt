// Written in part by tools/write-lists from tools/families/kleene.txt.
//! `and` and `or` of truth values that may be null, into bits.
ghost use Rattle.std.specs.Prelude.{◌≡◌, true, length, map, is_some};
ghost use Rattle.std.specs.Option.{ForSome, option_map};
ghost use Rattle.std.specs.Simd.Lanes.{zip2};
ghost use Rattle.vb_kleene.specs.InBytes.{InBytes};
ghost use Rattle.vb_kleene.specs.Kleene.{truths, and_truths, or_truths, is_truth};
ghost use Rattle.vb_kleene.specs.View.{bits_of};
ghost use Rattle.vb_kleene.specs.Writes.{Writes};

use crate::column::Column;
use crate::known::write_known;
use crate::write::{write_combined, write_few};
use vb_bits::{And, BitOp, Or};
use vb_view::BitBufferView;

/// Writes `left and right` of truth values that may be null, by three-valued logic (Kleene's, as in
/// SQL): false if one of the two is false, even if the other one is null; else null if one is null;
/// else true. Writes two bits for each pair: whether the result is true, with false at nulls, to
/// `trues` from bit `trues_offset` on; and whether it isn't null, to `valid` from bit
/// `valid_offset` on. No other bit changes.
///
/// A value is null if its bit of the validity is false; without a validity no value is. `right` and
/// both validities must be as long as `left`. Both windows that are written must be in their bytes,
/// and their ends must fit in a `usize`. The bits of `left` and `right` at nulls are ignored.
///
/// Reads the bits once, four words at a time, at any offsets. If a window that is written doesn't
/// begin at a byte boundary, it copies the results in blocks. Without validities it combines only
/// the values, if there are more than 64. Does not allocate.
pub fn and_kleene_into(
    trues: &mut [u8],
    trues_offset: usize,
    valid: &mut [u8],
    valid_offset: usize,
    left: BitBufferView<'_>,
    left_validity: Option<BitBufferView<'_>>,
    right: BitBufferView<'_>,
    right_validity: Option<BitBufferView<'_>>,
)
    requires trues { InBytes trues.old trues_offset (length (bits_of left)) }
    requires valid { InBytes valid.old valid_offset (length (bits_of left)) }
    requires right { length (bits_of right) ≡ length (bits_of left) }
    requires left_valid { ForSome left_validity (λ v. length (bits_of v) ≡ length (bits_of left)) }
    requires right_valid { ForSome right_validity (λ v. length (bits_of v)
        ≡ length (bits_of left)) }
    ensures trues { Writes trues.old trues.new trues_offset
        (map (is_truth true) (zip2 and_truths
        (truths (bits_of left.entry) (option_map bits_of left_validity.entry))
        (truths (bits_of right.entry) (option_map bits_of right_validity.entry)))) }
    ensures valid { Writes valid.old valid.new valid_offset
        (map is_some (zip2 and_truths
        (truths (bits_of left.entry) (option_map bits_of left_validity.entry))
        (truths (bits_of right.entry) (option_map bits_of right_validity.entry)))) }
{
    if left.len() <= 64 {
        write_few::<And, Or>(
            trues,
            trues_offset,
            valid,
            valid_offset,
            left,
            left_validity,
            right,
            right_validity,
        );
        return;
    }
    if left_validity.is_none() && right_validity.is_none() {
        write_known(
            trues,
            trues_offset,
            valid,
            valid_offset,
            left,
            right,
            BitOp::And,
        );
        return;
    }
    let left = Column::new(left, left_validity);
    let right = Column::new(right, right_validity);
    write_combined::<And, Or>(trues, trues_offset, valid, valid_offset, &left, &right);
}

/// Writes `left or right` of truth values that may be null, by three-valued logic: true if one of
/// the two is true, even if the other one is null; else null if one is null; else false. Windows,
/// lengths, validities and nulls are as in [`and_kleene_into`]. Does not allocate.
pub fn or_kleene_into(
    trues: &mut [u8],
    trues_offset: usize,
    valid: &mut [u8],
    valid_offset: usize,
    left: BitBufferView<'_>,
    left_validity: Option<BitBufferView<'_>>,
    right: BitBufferView<'_>,
    right_validity: Option<BitBufferView<'_>>,
)
    requires trues { InBytes trues.old trues_offset (length (bits_of left)) }
    requires valid { InBytes valid.old valid_offset (length (bits_of left)) }
    requires right { length (bits_of right) ≡ length (bits_of left) }
    requires left_valid { ForSome left_validity (λ v. length (bits_of v) ≡ length (bits_of left)) }
    requires right_valid { ForSome right_validity (λ v. length (bits_of v)
        ≡ length (bits_of left)) }
    ensures trues { Writes trues.old trues.new trues_offset
        (map (is_truth true) (zip2 or_truths
        (truths (bits_of left.entry) (option_map bits_of left_validity.entry))
        (truths (bits_of right.entry) (option_map bits_of right_validity.entry)))) }
    ensures valid { Writes valid.old valid.new valid_offset
        (map is_some (zip2 or_truths
        (truths (bits_of left.entry) (option_map bits_of left_validity.entry))
        (truths (bits_of right.entry) (option_map bits_of right_validity.entry)))) }
{
    if left.len() <= 64 {
        write_few::<Or, And>(
            trues,
            trues_offset,
            valid,
            valid_offset,
            left,
            left_validity,
            right,
            right_validity,
        );
        return;
    }
    if left_validity.is_none() && right_validity.is_none() {
        write_known(
            trues,
            trues_offset,
            valid,
            valid_offset,
            left,
            right,
            BitOp::Or,
        );
        return;
    }
    let left = Column::new(left, left_validity);
    let right = Column::new(right, right_validity);
    write_combined::<Or, And>(trues, trues_offset, valid, valid_offset, &left, &right);
}
