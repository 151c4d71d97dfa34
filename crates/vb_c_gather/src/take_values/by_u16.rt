// Written by tools/write-lists from tools/families/take_values.txt.
//! Values at indices of 16 bits.
ghost use Rattle.std.specs.Prelude.{◌≡◌, ◌≤◌, length, map, pos};
ghost use Rattle.vb_c_core.specs.Fits.{DoneIf};
ghost use Rattle.vb_c_core.specs.Validity.{HasValidity, validity_of};
ghost use Rattle.vb_c_gather.specs.Taken.{TakesValues};
ghost use Rattle.vb_c_gather.specs.WideLaws.{wide_zero};

use crate::take_values::{take_values, try_take_values};
use crate::wide::Wide;
use vb_c_core::Taken;

/// Takes (gathers) values of one byte each: writes the values at the indices to the front of `out`,
/// which must have one item for each index. Returns the first position that counts and whose index
/// is out of range (not below the number of values), if there is one.
///
/// If `all_valid` is true, each position counts, and the validity is ignored. Else a position
/// counts if its bit of `validity`, from bit `v` on, is true; the others get 0, and their indices
/// are ignored. Items of `out` past the number of indices are unchanged. If a position is returned,
/// the other items of `out` are unspecified.
#[unsafe(no_mangle)]
pub extern "C" fn vb_take_values_u8_u16(
    out: &mut [u8],
    values: &[u8],
    indices: &[u16],
    all_valid: bool,
    validity: &[u8],
    v: usize,
) -> Taken
    requires room { length indices.now ≤ length out.old }
    requires validity { HasValidity all_valid validity.now v (length indices.now) }
    ensures { TakesValues 0 values.now (map pos indices.now)
        (validity_of all_valid validity.now v (length indices.now)) out.old out.new result }
{
    take_values(out, values, indices, all_valid, validity, v)
}

/// Returns whether `out` has an item for each index, and the validity, unless it is ignored, a bit
/// for each. If so, does [`vb_take_values_u8_u16`] and writes its result to `taken`; else leaves
/// `out` and `taken` unchanged.
#[unsafe(no_mangle)]
pub extern "C" fn vb_try_take_values_u8_u16(
    out: &mut [u8],
    values: &[u8],
    indices: &[u16],
    all_valid: bool,
    validity: &[u8],
    v: usize,
    taken: &mut Taken,
) -> bool
    ensures { DoneIf ((length indices.now ≤ length out.old)
        × HasValidity all_valid validity.now v (length indices.now))
        (TakesValues 0 values.now (map pos indices.now)
        (validity_of all_valid validity.now v (length indices.now)) out.old out.new taken.new)
        ((out.new ≡ out.old) × (taken.new ≡ taken.old)) result }
{
    try_take_values(out, values, indices, all_valid, validity, v, taken)
}

/// Takes (gathers) values of two bytes each: writes the values at the indices to the front of
/// `out`, which must have one item for each index. Returns the first position that counts and whose
/// index is out of range (not below the number of values), if there is one.
///
/// If `all_valid` is true, each position counts, and the validity is ignored. Else a position
/// counts if its bit of `validity`, from bit `v` on, is true; the others get 0, and their indices
/// are ignored. Items of `out` past the number of indices are unchanged. If a position is returned,
/// the other items of `out` are unspecified.
#[unsafe(no_mangle)]
pub extern "C" fn vb_take_values_u16_u16(
    out: &mut [u16],
    values: &[u16],
    indices: &[u16],
    all_valid: bool,
    validity: &[u8],
    v: usize,
) -> Taken
    requires room { length indices.now ≤ length out.old }
    requires validity { HasValidity all_valid validity.now v (length indices.now) }
    ensures { TakesValues 0 values.now (map pos indices.now)
        (validity_of all_valid validity.now v (length indices.now)) out.old out.new result }
{
    take_values(out, values, indices, all_valid, validity, v)
}

/// Returns whether `out` has an item for each index, and the validity, unless it is ignored, a bit
/// for each. If so, does [`vb_take_values_u16_u16`] and writes its result to `taken`; else leaves
/// `out` and `taken` unchanged.
#[unsafe(no_mangle)]
pub extern "C" fn vb_try_take_values_u16_u16(
    out: &mut [u16],
    values: &[u16],
    indices: &[u16],
    all_valid: bool,
    validity: &[u8],
    v: usize,
    taken: &mut Taken,
) -> bool
    ensures { DoneIf ((length indices.now ≤ length out.old)
        × HasValidity all_valid validity.now v (length indices.now))
        (TakesValues 0 values.now (map pos indices.now)
        (validity_of all_valid validity.now v (length indices.now)) out.old out.new taken.new)
        ((out.new ≡ out.old) × (taken.new ≡ taken.old)) result }
{
    try_take_values(out, values, indices, all_valid, validity, v, taken)
}

/// Takes (gathers) values of four bytes each: writes the values at the indices to the front of
/// `out`, which must have one item for each index. Returns the first position that counts and whose
/// index is out of range (not below the number of values), if there is one.
///
/// If `all_valid` is true, each position counts, and the validity is ignored. Else a position
/// counts if its bit of `validity`, from bit `v` on, is true; the others get 0, and their indices
/// are ignored. Items of `out` past the number of indices are unchanged. If a position is returned,
/// the other items of `out` are unspecified.
#[unsafe(no_mangle)]
pub extern "C" fn vb_take_values_u32_u16(
    out: &mut [u32],
    values: &[u32],
    indices: &[u16],
    all_valid: bool,
    validity: &[u8],
    v: usize,
) -> Taken
    requires room { length indices.now ≤ length out.old }
    requires validity { HasValidity all_valid validity.now v (length indices.now) }
    ensures { TakesValues 0 values.now (map pos indices.now)
        (validity_of all_valid validity.now v (length indices.now)) out.old out.new result }
{
    take_values(out, values, indices, all_valid, validity, v)
}

/// Returns whether `out` has an item for each index, and the validity, unless it is ignored, a bit
/// for each. If so, does [`vb_take_values_u32_u16`] and writes its result to `taken`; else leaves
/// `out` and `taken` unchanged.
#[unsafe(no_mangle)]
pub extern "C" fn vb_try_take_values_u32_u16(
    out: &mut [u32],
    values: &[u32],
    indices: &[u16],
    all_valid: bool,
    validity: &[u8],
    v: usize,
    taken: &mut Taken,
) -> bool
    ensures { DoneIf ((length indices.now ≤ length out.old)
        × HasValidity all_valid validity.now v (length indices.now))
        (TakesValues 0 values.now (map pos indices.now)
        (validity_of all_valid validity.now v (length indices.now)) out.old out.new taken.new)
        ((out.new ≡ out.old) × (taken.new ≡ taken.old)) result }
{
    try_take_values(out, values, indices, all_valid, validity, v, taken)
}

/// Takes (gathers) values of eight bytes each: writes the values at the indices to the front of
/// `out`, which must have one item for each index. Returns the first position that counts and whose
/// index is out of range (not below the number of values), if there is one.
///
/// If `all_valid` is true, each position counts, and the validity is ignored. Else a position
/// counts if its bit of `validity`, from bit `v` on, is true; the others get 0, and their indices
/// are ignored. Items of `out` past the number of indices are unchanged. If a position is returned,
/// the other items of `out` are unspecified.
#[unsafe(no_mangle)]
pub extern "C" fn vb_take_values_u64_u16(
    out: &mut [u64],
    values: &[u64],
    indices: &[u16],
    all_valid: bool,
    validity: &[u8],
    v: usize,
) -> Taken
    requires room { length indices.now ≤ length out.old }
    requires validity { HasValidity all_valid validity.now v (length indices.now) }
    ensures { TakesValues 0 values.now (map pos indices.now)
        (validity_of all_valid validity.now v (length indices.now)) out.old out.new result }
{
    take_values(out, values, indices, all_valid, validity, v)
}

/// Returns whether `out` has an item for each index, and the validity, unless it is ignored, a bit
/// for each. If so, does [`vb_take_values_u64_u16`] and writes its result to `taken`; else leaves
/// `out` and `taken` unchanged.
#[unsafe(no_mangle)]
pub extern "C" fn vb_try_take_values_u64_u16(
    out: &mut [u64],
    values: &[u64],
    indices: &[u16],
    all_valid: bool,
    validity: &[u8],
    v: usize,
    taken: &mut Taken,
) -> bool
    ensures { DoneIf ((length indices.now ≤ length out.old)
        × HasValidity all_valid validity.now v (length indices.now))
        (TakesValues 0 values.now (map pos indices.now)
        (validity_of all_valid validity.now v (length indices.now)) out.old out.new taken.new)
        ((out.new ≡ out.old) × (taken.new ≡ taken.old)) result }
{
    try_take_values(out, values, indices, all_valid, validity, v, taken)
}

/// Takes (gathers) values of 16 bytes each: writes the values at the indices to the front of `out`,
/// which must have one item for each index. Returns the first position that counts and whose index
/// is out of range (not below the number of values), if there is one.
///
/// If `all_valid` is true, each position counts, and the validity is ignored. Else a position
/// counts if its bit of `validity`, from bit `v` on, is true; the others get 0, and their indices
/// are ignored. Items of `out` past the number of indices are unchanged. If a position is returned,
/// the other items of `out` are unspecified.
#[unsafe(no_mangle)]
pub extern "C" fn vb_take_values_u128_u16(
    out: &mut [Wide],
    values: &[Wide],
    indices: &[u16],
    all_valid: bool,
    validity: &[u8],
    v: usize,
) -> Taken
    requires room { length indices.now ≤ length out.old }
    requires validity { HasValidity all_valid validity.now v (length indices.now) }
    ensures { TakesValues wide_zero values.now (map pos indices.now)
        (validity_of all_valid validity.now v (length indices.now)) out.old out.new result }
{
    take_values(out, values, indices, all_valid, validity, v)
}

/// Returns whether `out` has an item for each index, and the validity, unless it is ignored, a bit
/// for each. If so, does [`vb_take_values_u128_u16`] and writes its result to `taken`; else leaves
/// `out` and `taken` unchanged.
#[unsafe(no_mangle)]
pub extern "C" fn vb_try_take_values_u128_u16(
    out: &mut [Wide],
    values: &[Wide],
    indices: &[u16],
    all_valid: bool,
    validity: &[u8],
    v: usize,
    taken: &mut Taken,
) -> bool
    ensures { DoneIf ((length indices.now ≤ length out.old)
        × HasValidity all_valid validity.now v (length indices.now))
        (TakesValues wide_zero values.now (map pos indices.now)
        (validity_of all_valid validity.now v (length indices.now)) out.old out.new taken.new)
        ((out.new ≡ out.old) × (taken.new ≡ taken.old)) result }
{
    try_take_values(out, values, indices, all_valid, validity, v, taken)
}
