// Written by tools/write-lists from tools/families/compare.txt.
//! Signed values compared with others.
ghost use Rattle.std.specs.Prelude.{◌≡◌, length};
ghost use Rattle.std.specs.Simd.Lanes.{zip2};
ghost use Rattle.vb_bits.specs.Writes.{Writes};
ghost use Rattle.vb_c_compare.specs.Codes.{comparison_of, CompareFits};
ghost use Rattle.vb_c_core.specs.Fits.{DoneIf};
ghost use Rattle.vb_compare.specs.Compares.{compares};

use crate::code::{compare_with, fits};

/// Writes to bit `o + k` of `out`, for each `k` below the number of values, whether `values[k]`
/// compares with `others[k]` by `op`. `others` must have the same length as `values`, `op` must be
/// below 6, and these bits must be in `out`; every other one is unchanged.
#[unsafe(no_mangle)]
pub extern "C" fn vb_compare_with_i8(out: &mut [u8], o: usize, values: &[i8], op: u8, others: &[i8])
    requires others { length others.now ≡ length values.now }
    requires window { CompareFits out.old o (length values.now) op }
    ensures { Writes out.old out.new o
        (zip2 (λ left right. compares (comparison_of op) left right) values.now others.now) }
{
    compare_with(out, o, values, op, others);
}

/// Returns whether `others` has the same length as `values`, the window is in the bytes, and `op`
/// is below 6. If so, does [`vb_compare_with_i8`]; else leaves `out` unchanged.
#[unsafe(no_mangle)]
pub extern "C" fn vb_try_compare_with_i8(
    out: &mut [u8],
    o: usize,
    values: &[i8],
    op: u8,
    others: &[i8],
) -> bool
    ensures { DoneIf ((length others.now ≡ length values.now)
        × CompareFits out.old o (length values.now) op)
        (Writes out.old out.new o
        (zip2 (λ left right. compares (comparison_of op) left right) values.now others.now))
        (out.new ≡ out.old) result }
{
    if others.len() != values.len() || !fits(out, o, values.len(), op) {
        return false;
    }
    vb_compare_with_i8(out, o, values, op, others);
    true
}

/// Writes to bit `o + k` of `out`, for each `k` below the number of values, whether `values[k]`
/// compares with `others[k]` by `op`. `others` must have the same length as `values`, `op` must be
/// below 6, and these bits must be in `out`; every other one is unchanged.
#[unsafe(no_mangle)]
pub extern "C" fn vb_compare_with_i16(
    out: &mut [u8],
    o: usize,
    values: &[i16],
    op: u8,
    others: &[i16],
)
    requires others { length others.now ≡ length values.now }
    requires window { CompareFits out.old o (length values.now) op }
    ensures { Writes out.old out.new o
        (zip2 (λ left right. compares (comparison_of op) left right) values.now others.now) }
{
    compare_with(out, o, values, op, others);
}

/// Returns whether `others` has the same length as `values`, the window is in the bytes, and `op`
/// is below 6. If so, does [`vb_compare_with_i16`]; else leaves `out` unchanged.
#[unsafe(no_mangle)]
pub extern "C" fn vb_try_compare_with_i16(
    out: &mut [u8],
    o: usize,
    values: &[i16],
    op: u8,
    others: &[i16],
) -> bool
    ensures { DoneIf ((length others.now ≡ length values.now)
        × CompareFits out.old o (length values.now) op)
        (Writes out.old out.new o
        (zip2 (λ left right. compares (comparison_of op) left right) values.now others.now))
        (out.new ≡ out.old) result }
{
    if others.len() != values.len() || !fits(out, o, values.len(), op) {
        return false;
    }
    vb_compare_with_i16(out, o, values, op, others);
    true
}

/// Writes to bit `o + k` of `out`, for each `k` below the number of values, whether `values[k]`
/// compares with `others[k]` by `op`. `others` must have the same length as `values`, `op` must be
/// below 6, and these bits must be in `out`; every other one is unchanged.
#[unsafe(no_mangle)]
pub extern "C" fn vb_compare_with_i32(
    out: &mut [u8],
    o: usize,
    values: &[i32],
    op: u8,
    others: &[i32],
)
    requires others { length others.now ≡ length values.now }
    requires window { CompareFits out.old o (length values.now) op }
    ensures { Writes out.old out.new o
        (zip2 (λ left right. compares (comparison_of op) left right) values.now others.now) }
{
    compare_with(out, o, values, op, others);
}

/// Returns whether `others` has the same length as `values`, the window is in the bytes, and `op`
/// is below 6. If so, does [`vb_compare_with_i32`]; else leaves `out` unchanged.
#[unsafe(no_mangle)]
pub extern "C" fn vb_try_compare_with_i32(
    out: &mut [u8],
    o: usize,
    values: &[i32],
    op: u8,
    others: &[i32],
) -> bool
    ensures { DoneIf ((length others.now ≡ length values.now)
        × CompareFits out.old o (length values.now) op)
        (Writes out.old out.new o
        (zip2 (λ left right. compares (comparison_of op) left right) values.now others.now))
        (out.new ≡ out.old) result }
{
    if others.len() != values.len() || !fits(out, o, values.len(), op) {
        return false;
    }
    vb_compare_with_i32(out, o, values, op, others);
    true
}

/// Writes to bit `o + k` of `out`, for each `k` below the number of values, whether `values[k]`
/// compares with `others[k]` by `op`. `others` must have the same length as `values`, `op` must be
/// below 6, and these bits must be in `out`; every other one is unchanged.
#[unsafe(no_mangle)]
pub extern "C" fn vb_compare_with_i64(
    out: &mut [u8],
    o: usize,
    values: &[i64],
    op: u8,
    others: &[i64],
)
    requires others { length others.now ≡ length values.now }
    requires window { CompareFits out.old o (length values.now) op }
    ensures { Writes out.old out.new o
        (zip2 (λ left right. compares (comparison_of op) left right) values.now others.now) }
{
    compare_with(out, o, values, op, others);
}

/// Returns whether `others` has the same length as `values`, the window is in the bytes, and `op`
/// is below 6. If so, does [`vb_compare_with_i64`]; else leaves `out` unchanged.
#[unsafe(no_mangle)]
pub extern "C" fn vb_try_compare_with_i64(
    out: &mut [u8],
    o: usize,
    values: &[i64],
    op: u8,
    others: &[i64],
) -> bool
    ensures { DoneIf ((length others.now ≡ length values.now)
        × CompareFits out.old o (length values.now) op)
        (Writes out.old out.new o
        (zip2 (λ left right. compares (comparison_of op) left right) values.now others.now))
        (out.new ≡ out.old) result }
{
    if others.len() != values.len() || !fits(out, o, values.len(), op) {
        return false;
    }
    vb_compare_with_i64(out, o, values, op, others);
    true
}
