// Written by tools/write-lists from tools/families/groups.txt.
//! Sums of values by group, for codes of 8 bits.
ghost use Rattle.std.specs.Int.{w64, int_wrap};
ghost use Rattle.std.specs.Prelude.{◌≡◌, ◌+ℤ◌, length, pos};
ghost use Rattle.vb_aggregate.specs.Wraps.{wrap_unsigned};
ghost use Rattle.vb_c_aggregate.specs.Grouped.{SumsGroups};
ghost use Rattle.vb_c_core.specs.Fits.{DoneIf};
ghost use Rattle.vb_c_core.specs.Validity.{HasValidity, validity_of};

use crate::grouped::{sum, try_sum};
use vb_c_core::Taken;

/// Adds each selected value, of type `u8`, to `sums[c]`, where `c` is the code of its row. A sum is
/// of type `u64`, and wraps around. Returns the index of the first selected row whose code isn't
/// below the number of sums, if there is one; the sums are then unchanged.
///
/// There must be a value for each code. If `all_selected` is true, each row is selected, and the
/// mask is ignored. Else a row is selected if its bit of `mask`, from bit `m` on, is true; the
/// codes of the others are ignored.
#[unsafe(no_mangle)]
pub extern "C" fn vb_group_sums_u8_u8(
    sums: &mut [u64],
    codes: &[u8],
    values: &[u8],
    all_selected: bool,
    mask: &[u8],
    m: usize,
) -> Taken
    requires same_len { length values.now ≡ length codes.now }
    requires mask { HasValidity all_selected mask.now m (length codes.now) }
    ensures { SumsGroups pos (λ sum value. wrap_unsigned w64 (pos sum +ℤ pos value))
        codes.now values.now
        (validity_of all_selected mask.now m (length codes.now)) sums.old sums.new result }
{
    sum(sums, codes, values, all_selected, mask, m)
}

/// Returns whether there is a value for each code, and the mask, unless it is ignored, has a bit
/// for each. If so, does [`vb_group_sums_u8_u8`] and writes its result to `past`; else leaves
/// `sums` and `past` unchanged.
#[unsafe(no_mangle)]
pub extern "C" fn vb_try_group_sums_u8_u8(
    sums: &mut [u64],
    codes: &[u8],
    values: &[u8],
    all_selected: bool,
    mask: &[u8],
    m: usize,
    past: &mut Taken,
) -> bool
    ensures { DoneIf ((length values.now ≡ length codes.now)
        × HasValidity all_selected mask.now m (length codes.now))
        (SumsGroups pos (λ sum value. wrap_unsigned w64 (pos sum +ℤ pos value)) codes.now values.now
        (validity_of all_selected mask.now m (length codes.now)) sums.old sums.new past.new)
        ((sums.new ≡ sums.old) × (past.new ≡ past.old)) result }
{
    try_sum(sums, codes, values, all_selected, mask, m, past)
}

/// Adds each selected value, of type `u16`, to `sums[c]`, where `c` is the code of its row. A sum
/// is of type `u64`, and wraps around. Returns the index of the first selected row whose code isn't
/// below the number of sums, if there is one; the sums are then unchanged.
///
/// There must be a value for each code. If `all_selected` is true, each row is selected, and the
/// mask is ignored. Else a row is selected if its bit of `mask`, from bit `m` on, is true; the
/// codes of the others are ignored.
#[unsafe(no_mangle)]
pub extern "C" fn vb_group_sums_u16_u8(
    sums: &mut [u64],
    codes: &[u8],
    values: &[u16],
    all_selected: bool,
    mask: &[u8],
    m: usize,
) -> Taken
    requires same_len { length values.now ≡ length codes.now }
    requires mask { HasValidity all_selected mask.now m (length codes.now) }
    ensures { SumsGroups pos (λ sum value. wrap_unsigned w64 (pos sum +ℤ pos value))
        codes.now values.now
        (validity_of all_selected mask.now m (length codes.now)) sums.old sums.new result }
{
    sum(sums, codes, values, all_selected, mask, m)
}

/// Returns whether there is a value for each code, and the mask, unless it is ignored, has a bit
/// for each. If so, does [`vb_group_sums_u16_u8`] and writes its result to `past`; else leaves
/// `sums` and `past` unchanged.
#[unsafe(no_mangle)]
pub extern "C" fn vb_try_group_sums_u16_u8(
    sums: &mut [u64],
    codes: &[u8],
    values: &[u16],
    all_selected: bool,
    mask: &[u8],
    m: usize,
    past: &mut Taken,
) -> bool
    ensures { DoneIf ((length values.now ≡ length codes.now)
        × HasValidity all_selected mask.now m (length codes.now))
        (SumsGroups pos (λ sum value. wrap_unsigned w64 (pos sum +ℤ pos value)) codes.now values.now
        (validity_of all_selected mask.now m (length codes.now)) sums.old sums.new past.new)
        ((sums.new ≡ sums.old) × (past.new ≡ past.old)) result }
{
    try_sum(sums, codes, values, all_selected, mask, m, past)
}

/// Adds each selected value, of type `u32`, to `sums[c]`, where `c` is the code of its row. A sum
/// is of type `u64`, and wraps around. Returns the index of the first selected row whose code isn't
/// below the number of sums, if there is one; the sums are then unchanged.
///
/// There must be a value for each code. If `all_selected` is true, each row is selected, and the
/// mask is ignored. Else a row is selected if its bit of `mask`, from bit `m` on, is true; the
/// codes of the others are ignored.
#[unsafe(no_mangle)]
pub extern "C" fn vb_group_sums_u32_u8(
    sums: &mut [u64],
    codes: &[u8],
    values: &[u32],
    all_selected: bool,
    mask: &[u8],
    m: usize,
) -> Taken
    requires same_len { length values.now ≡ length codes.now }
    requires mask { HasValidity all_selected mask.now m (length codes.now) }
    ensures { SumsGroups pos (λ sum value. wrap_unsigned w64 (pos sum +ℤ pos value))
        codes.now values.now
        (validity_of all_selected mask.now m (length codes.now)) sums.old sums.new result }
{
    sum(sums, codes, values, all_selected, mask, m)
}

/// Returns whether there is a value for each code, and the mask, unless it is ignored, has a bit
/// for each. If so, does [`vb_group_sums_u32_u8`] and writes its result to `past`; else leaves
/// `sums` and `past` unchanged.
#[unsafe(no_mangle)]
pub extern "C" fn vb_try_group_sums_u32_u8(
    sums: &mut [u64],
    codes: &[u8],
    values: &[u32],
    all_selected: bool,
    mask: &[u8],
    m: usize,
    past: &mut Taken,
) -> bool
    ensures { DoneIf ((length values.now ≡ length codes.now)
        × HasValidity all_selected mask.now m (length codes.now))
        (SumsGroups pos (λ sum value. wrap_unsigned w64 (pos sum +ℤ pos value)) codes.now values.now
        (validity_of all_selected mask.now m (length codes.now)) sums.old sums.new past.new)
        ((sums.new ≡ sums.old) × (past.new ≡ past.old)) result }
{
    try_sum(sums, codes, values, all_selected, mask, m, past)
}

/// Adds each selected value, of type `u64`, to `sums[c]`, where `c` is the code of its row. A sum
/// is of type `u64`, and wraps around. Returns the index of the first selected row whose code isn't
/// below the number of sums, if there is one; the sums are then unchanged.
///
/// There must be a value for each code. If `all_selected` is true, each row is selected, and the
/// mask is ignored. Else a row is selected if its bit of `mask`, from bit `m` on, is true; the
/// codes of the others are ignored.
#[unsafe(no_mangle)]
pub extern "C" fn vb_group_sums_u64_u8(
    sums: &mut [u64],
    codes: &[u8],
    values: &[u64],
    all_selected: bool,
    mask: &[u8],
    m: usize,
) -> Taken
    requires same_len { length values.now ≡ length codes.now }
    requires mask { HasValidity all_selected mask.now m (length codes.now) }
    ensures { SumsGroups pos (λ sum value. wrap_unsigned w64 (pos sum +ℤ pos value))
        codes.now values.now
        (validity_of all_selected mask.now m (length codes.now)) sums.old sums.new result }
{
    sum(sums, codes, values, all_selected, mask, m)
}

/// Returns whether there is a value for each code, and the mask, unless it is ignored, has a bit
/// for each. If so, does [`vb_group_sums_u64_u8`] and writes its result to `past`; else leaves
/// `sums` and `past` unchanged.
#[unsafe(no_mangle)]
pub extern "C" fn vb_try_group_sums_u64_u8(
    sums: &mut [u64],
    codes: &[u8],
    values: &[u64],
    all_selected: bool,
    mask: &[u8],
    m: usize,
    past: &mut Taken,
) -> bool
    ensures { DoneIf ((length values.now ≡ length codes.now)
        × HasValidity all_selected mask.now m (length codes.now))
        (SumsGroups pos (λ sum value. wrap_unsigned w64 (pos sum +ℤ pos value)) codes.now values.now
        (validity_of all_selected mask.now m (length codes.now)) sums.old sums.new past.new)
        ((sums.new ≡ sums.old) × (past.new ≡ past.old)) result }
{
    try_sum(sums, codes, values, all_selected, mask, m, past)
}

/// Adds each selected value, of type `i8`, to `sums[c]`, where `c` is the code of its row. A sum is
/// of type `i64`, and wraps around. Returns the index of the first selected row whose code isn't
/// below the number of sums, if there is one; the sums are then unchanged.
///
/// There must be a value for each code. If `all_selected` is true, each row is selected, and the
/// mask is ignored. Else a row is selected if its bit of `mask`, from bit `m` on, is true; the
/// codes of the others are ignored.
#[unsafe(no_mangle)]
pub extern "C" fn vb_group_sums_i8_u8(
    sums: &mut [i64],
    codes: &[u8],
    values: &[i8],
    all_selected: bool,
    mask: &[u8],
    m: usize,
) -> Taken
    requires same_len { length values.now ≡ length codes.now }
    requires mask { HasValidity all_selected mask.now m (length codes.now) }
    ensures { SumsGroups pos (λ sum value. int_wrap w64 (sum +ℤ value))
        codes.now values.now
        (validity_of all_selected mask.now m (length codes.now)) sums.old sums.new result }
{
    sum(sums, codes, values, all_selected, mask, m)
}

/// Returns whether there is a value for each code, and the mask, unless it is ignored, has a bit
/// for each. If so, does [`vb_group_sums_i8_u8`] and writes its result to `past`; else leaves
/// `sums` and `past` unchanged.
#[unsafe(no_mangle)]
pub extern "C" fn vb_try_group_sums_i8_u8(
    sums: &mut [i64],
    codes: &[u8],
    values: &[i8],
    all_selected: bool,
    mask: &[u8],
    m: usize,
    past: &mut Taken,
) -> bool
    ensures { DoneIf ((length values.now ≡ length codes.now)
        × HasValidity all_selected mask.now m (length codes.now))
        (SumsGroups pos (λ sum value. int_wrap w64 (sum +ℤ value)) codes.now values.now
        (validity_of all_selected mask.now m (length codes.now)) sums.old sums.new past.new)
        ((sums.new ≡ sums.old) × (past.new ≡ past.old)) result }
{
    try_sum(sums, codes, values, all_selected, mask, m, past)
}

/// Adds each selected value, of type `i16`, to `sums[c]`, where `c` is the code of its row. A sum
/// is of type `i64`, and wraps around. Returns the index of the first selected row whose code isn't
/// below the number of sums, if there is one; the sums are then unchanged.
///
/// There must be a value for each code. If `all_selected` is true, each row is selected, and the
/// mask is ignored. Else a row is selected if its bit of `mask`, from bit `m` on, is true; the
/// codes of the others are ignored.
#[unsafe(no_mangle)]
pub extern "C" fn vb_group_sums_i16_u8(
    sums: &mut [i64],
    codes: &[u8],
    values: &[i16],
    all_selected: bool,
    mask: &[u8],
    m: usize,
) -> Taken
    requires same_len { length values.now ≡ length codes.now }
    requires mask { HasValidity all_selected mask.now m (length codes.now) }
    ensures { SumsGroups pos (λ sum value. int_wrap w64 (sum +ℤ value))
        codes.now values.now
        (validity_of all_selected mask.now m (length codes.now)) sums.old sums.new result }
{
    sum(sums, codes, values, all_selected, mask, m)
}

/// Returns whether there is a value for each code, and the mask, unless it is ignored, has a bit
/// for each. If so, does [`vb_group_sums_i16_u8`] and writes its result to `past`; else leaves
/// `sums` and `past` unchanged.
#[unsafe(no_mangle)]
pub extern "C" fn vb_try_group_sums_i16_u8(
    sums: &mut [i64],
    codes: &[u8],
    values: &[i16],
    all_selected: bool,
    mask: &[u8],
    m: usize,
    past: &mut Taken,
) -> bool
    ensures { DoneIf ((length values.now ≡ length codes.now)
        × HasValidity all_selected mask.now m (length codes.now))
        (SumsGroups pos (λ sum value. int_wrap w64 (sum +ℤ value)) codes.now values.now
        (validity_of all_selected mask.now m (length codes.now)) sums.old sums.new past.new)
        ((sums.new ≡ sums.old) × (past.new ≡ past.old)) result }
{
    try_sum(sums, codes, values, all_selected, mask, m, past)
}

/// Adds each selected value, of type `i32`, to `sums[c]`, where `c` is the code of its row. A sum
/// is of type `i64`, and wraps around. Returns the index of the first selected row whose code isn't
/// below the number of sums, if there is one; the sums are then unchanged.
///
/// There must be a value for each code. If `all_selected` is true, each row is selected, and the
/// mask is ignored. Else a row is selected if its bit of `mask`, from bit `m` on, is true; the
/// codes of the others are ignored.
#[unsafe(no_mangle)]
pub extern "C" fn vb_group_sums_i32_u8(
    sums: &mut [i64],
    codes: &[u8],
    values: &[i32],
    all_selected: bool,
    mask: &[u8],
    m: usize,
) -> Taken
    requires same_len { length values.now ≡ length codes.now }
    requires mask { HasValidity all_selected mask.now m (length codes.now) }
    ensures { SumsGroups pos (λ sum value. int_wrap w64 (sum +ℤ value))
        codes.now values.now
        (validity_of all_selected mask.now m (length codes.now)) sums.old sums.new result }
{
    sum(sums, codes, values, all_selected, mask, m)
}

/// Returns whether there is a value for each code, and the mask, unless it is ignored, has a bit
/// for each. If so, does [`vb_group_sums_i32_u8`] and writes its result to `past`; else leaves
/// `sums` and `past` unchanged.
#[unsafe(no_mangle)]
pub extern "C" fn vb_try_group_sums_i32_u8(
    sums: &mut [i64],
    codes: &[u8],
    values: &[i32],
    all_selected: bool,
    mask: &[u8],
    m: usize,
    past: &mut Taken,
) -> bool
    ensures { DoneIf ((length values.now ≡ length codes.now)
        × HasValidity all_selected mask.now m (length codes.now))
        (SumsGroups pos (λ sum value. int_wrap w64 (sum +ℤ value)) codes.now values.now
        (validity_of all_selected mask.now m (length codes.now)) sums.old sums.new past.new)
        ((sums.new ≡ sums.old) × (past.new ≡ past.old)) result }
{
    try_sum(sums, codes, values, all_selected, mask, m, past)
}

/// Adds each selected value, of type `i64`, to `sums[c]`, where `c` is the code of its row. A sum
/// is of type `i64`, and wraps around. Returns the index of the first selected row whose code isn't
/// below the number of sums, if there is one; the sums are then unchanged.
///
/// There must be a value for each code. If `all_selected` is true, each row is selected, and the
/// mask is ignored. Else a row is selected if its bit of `mask`, from bit `m` on, is true; the
/// codes of the others are ignored.
#[unsafe(no_mangle)]
pub extern "C" fn vb_group_sums_i64_u8(
    sums: &mut [i64],
    codes: &[u8],
    values: &[i64],
    all_selected: bool,
    mask: &[u8],
    m: usize,
) -> Taken
    requires same_len { length values.now ≡ length codes.now }
    requires mask { HasValidity all_selected mask.now m (length codes.now) }
    ensures { SumsGroups pos (λ sum value. int_wrap w64 (sum +ℤ value))
        codes.now values.now
        (validity_of all_selected mask.now m (length codes.now)) sums.old sums.new result }
{
    sum(sums, codes, values, all_selected, mask, m)
}

/// Returns whether there is a value for each code, and the mask, unless it is ignored, has a bit
/// for each. If so, does [`vb_group_sums_i64_u8`] and writes its result to `past`; else leaves
/// `sums` and `past` unchanged.
#[unsafe(no_mangle)]
pub extern "C" fn vb_try_group_sums_i64_u8(
    sums: &mut [i64],
    codes: &[u8],
    values: &[i64],
    all_selected: bool,
    mask: &[u8],
    m: usize,
    past: &mut Taken,
) -> bool
    ensures { DoneIf ((length values.now ≡ length codes.now)
        × HasValidity all_selected mask.now m (length codes.now))
        (SumsGroups pos (λ sum value. int_wrap w64 (sum +ℤ value)) codes.now values.now
        (validity_of all_selected mask.now m (length codes.now)) sums.old sums.new past.new)
        ((sums.new ≡ sums.old) × (past.new ≡ past.old)) result }
{
    try_sum(sums, codes, values, all_selected, mask, m, past)
}
