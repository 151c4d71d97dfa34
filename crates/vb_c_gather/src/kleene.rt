// Written in part by tools/write-lists from tools/families/kleene.txt.
//! Truth values that may be null, combined by three-valued logic.
ghost use Rattle.std.specs.Prelude.{◌≡◌};
ghost use Rattle.std.specs.Simd.Lanes.{zip2};
ghost use Rattle.vb_bits.specs.InBytes.{InBytes};
ghost use Rattle.vb_c_core.specs.Fits.{DoneIf};
ghost use Rattle.vb_c_gather.specs.Columns.{ColumnFits, WritesColumn, column_at};
ghost use Rattle.vb_kleene.specs.Kleene.{and_truths, or_truths};

use crate::take_bits::valid_part;
use vb_bits::window_fits;
use vb_kleene::{and_kleene_into, or_kleene_into};
use vb_view::BitBufferView;

/// Writes `left and right` of `len` truth values that may be null, by three-valued logic: false if
/// one of the two is false, even if the other one is null; else null if one is null; else true.
/// Writes whether each result is true to the bits of `trues` from bit `t` on, with false at nulls,
/// and whether it isn't null to the bits of `valid` from bit `v` on. Every other bit is unchanged.
///
/// The values are the bits of `left` from bit `l` on and those of `right` from bit `r` on. If
/// `left_all_valid` is false, a value of `left` is null if its bit of `left_validity`, from bit
/// `left_validity_offset` on, is false; else none is, and the validity is ignored. The same holds
/// for `right`.
#[unsafe(no_mangle)]
pub extern "C" fn vb_and_kleene(
    trues: &mut [u8],
    t: usize,
    valid: &mut [u8],
    v: usize,
    left: &[u8],
    l: usize,
    left_all_valid: bool,
    left_validity: &[u8],
    left_validity_offset: usize,
    right: &[u8],
    r: usize,
    right_all_valid: bool,
    right_validity: &[u8],
    right_validity_offset: usize,
    len: usize,
)
    requires trues { InBytes trues.old t len }
    requires valid { InBytes valid.old v len }
    requires left { ColumnFits left.now l
        left_all_valid left_validity.now left_validity_offset len }
    requires right { ColumnFits right.now r
        right_all_valid right_validity.now right_validity_offset len }
    ensures { WritesColumn (zip2 and_truths
        (column_at left.now l left_all_valid left_validity.now left_validity_offset len)
        (column_at right.now r right_all_valid right_validity.now right_validity_offset len))
        trues.old trues.new t valid.old valid.new v }
{
    let left_valid = valid_part(left_all_valid, left_validity, left_validity_offset, len);
    let right_valid = valid_part(right_all_valid, right_validity, right_validity_offset, len);
    let left = BitBufferView::new_with_offset(left, len, l);
    let right = BitBufferView::new_with_offset(right, len, r);
    let trues_end = (t + len).div_ceil(8);
    let valid_end = (v + len).div_ceil(8);
    let trues = &mut trues[t / 8..trues_end];
    let valid = &mut valid[v / 8..valid_end];
    let (t, v) = (t % 8, v % 8);
    and_kleene_into(trues, t, valid, v, left, left_valid, right, right_valid);
}

/// Returns whether all windows are in their bytes; a validity that is ignored need not be. If so,
/// does [`vb_and_kleene`]; else leaves `trues` and `valid` unchanged.
#[unsafe(no_mangle)]
pub extern "C" fn vb_try_and_kleene(
    trues: &mut [u8],
    t: usize,
    valid: &mut [u8],
    v: usize,
    left: &[u8],
    l: usize,
    left_all_valid: bool,
    left_validity: &[u8],
    left_validity_offset: usize,
    right: &[u8],
    r: usize,
    right_all_valid: bool,
    right_validity: &[u8],
    right_validity_offset: usize,
    len: usize,
) -> bool
    ensures { DoneIf (InBytes trues.old t len × InBytes valid.old v len
        × ColumnFits left.now l left_all_valid left_validity.now left_validity_offset len
        × ColumnFits right.now r right_all_valid right_validity.now right_validity_offset len)
        (WritesColumn (zip2 and_truths
        (column_at left.now l left_all_valid left_validity.now left_validity_offset len)
        (column_at right.now r right_all_valid right_validity.now right_validity_offset len))
        trues.old trues.new t valid.old valid.new v)
        ((trues.new ≡ trues.old) × (valid.new ≡ valid.old)) result }
{
    if !window_fits(trues, t, len)
        || !window_fits(valid, v, len)
        || !window_fits(left, l, len)
        || !window_fits(right, r, len)
        || !left_all_valid && !window_fits(left_validity, left_validity_offset, len)
        || !right_all_valid && !window_fits(right_validity, right_validity_offset, len)
    {
        return false;
    }
    vb_and_kleene(
        trues,
        t,
        valid,
        v,
        left,
        l,
        left_all_valid,
        left_validity,
        left_validity_offset,
        right,
        r,
        right_all_valid,
        right_validity,
        right_validity_offset,
        len,
    );
    true
}

/// Writes `left or right` of truth values that may be null, by three-valued logic: true if one of
/// the two is true, even if the other one is null; else null if one is null; else false. All else
/// is as in [`vb_and_kleene`].
#[unsafe(no_mangle)]
pub extern "C" fn vb_or_kleene(
    trues: &mut [u8],
    t: usize,
    valid: &mut [u8],
    v: usize,
    left: &[u8],
    l: usize,
    left_all_valid: bool,
    left_validity: &[u8],
    left_validity_offset: usize,
    right: &[u8],
    r: usize,
    right_all_valid: bool,
    right_validity: &[u8],
    right_validity_offset: usize,
    len: usize,
)
    requires trues { InBytes trues.old t len }
    requires valid { InBytes valid.old v len }
    requires left { ColumnFits left.now l
        left_all_valid left_validity.now left_validity_offset len }
    requires right { ColumnFits right.now r
        right_all_valid right_validity.now right_validity_offset len }
    ensures { WritesColumn (zip2 or_truths
        (column_at left.now l left_all_valid left_validity.now left_validity_offset len)
        (column_at right.now r right_all_valid right_validity.now right_validity_offset len))
        trues.old trues.new t valid.old valid.new v }
{
    let left_valid = valid_part(left_all_valid, left_validity, left_validity_offset, len);
    let right_valid = valid_part(right_all_valid, right_validity, right_validity_offset, len);
    let left = BitBufferView::new_with_offset(left, len, l);
    let right = BitBufferView::new_with_offset(right, len, r);
    let trues_end = (t + len).div_ceil(8);
    let valid_end = (v + len).div_ceil(8);
    let trues = &mut trues[t / 8..trues_end];
    let valid = &mut valid[v / 8..valid_end];
    let (t, v) = (t % 8, v % 8);
    or_kleene_into(trues, t, valid, v, left, left_valid, right, right_valid);
}

/// Returns whether all windows are in their bytes; a validity that is ignored need not be. If so,
/// does [`vb_or_kleene`]; else leaves `trues` and `valid` unchanged.
#[unsafe(no_mangle)]
pub extern "C" fn vb_try_or_kleene(
    trues: &mut [u8],
    t: usize,
    valid: &mut [u8],
    v: usize,
    left: &[u8],
    l: usize,
    left_all_valid: bool,
    left_validity: &[u8],
    left_validity_offset: usize,
    right: &[u8],
    r: usize,
    right_all_valid: bool,
    right_validity: &[u8],
    right_validity_offset: usize,
    len: usize,
) -> bool
    ensures { DoneIf (InBytes trues.old t len × InBytes valid.old v len
        × ColumnFits left.now l left_all_valid left_validity.now left_validity_offset len
        × ColumnFits right.now r right_all_valid right_validity.now right_validity_offset len)
        (WritesColumn (zip2 or_truths
        (column_at left.now l left_all_valid left_validity.now left_validity_offset len)
        (column_at right.now r right_all_valid right_validity.now right_validity_offset len))
        trues.old trues.new t valid.old valid.new v)
        ((trues.new ≡ trues.old) × (valid.new ≡ valid.old)) result }
{
    if !window_fits(trues, t, len)
        || !window_fits(valid, v, len)
        || !window_fits(left, l, len)
        || !window_fits(right, r, len)
        || !left_all_valid && !window_fits(left_validity, left_validity_offset, len)
        || !right_all_valid && !window_fits(right_validity, right_validity_offset, len)
    {
        return false;
    }
    vb_or_kleene(
        trues,
        t,
        valid,
        v,
        left,
        l,
        left_all_valid,
        left_validity,
        left_validity_offset,
        right,
        r,
        right_all_valid,
        right_validity,
        right_validity_offset,
        len,
    );
    true
}
