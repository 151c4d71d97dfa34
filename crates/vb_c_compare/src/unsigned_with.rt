// Written by tools/write-lists from tools/families/compare.txt.
//! Unsigned values compared with others.
ghost use Rattle.std.specs.Prelude.{◌≡◌, length, pos};
ghost use Rattle.std.specs.Simd.Lanes.{zip2};
ghost use Rattle.vb_bits.specs.Writes.{Writes};
ghost use Rattle.vb_c_compare.specs.Codes.{comparison_of, CompareFits};
ghost use Rattle.vb_c_core.specs.Fits.{DoneIf};
ghost use Rattle.vb_compare.specs.Compares.{compares};

use crate::code::{compare_with, fits};

/// Writes to bit `o + k` of `out`, for each `k` below the number of values, whether `values[k]`
/// compares with `others[k]` by `op`. `others` must have the same length as `values`, `op` must be
/// below 6, and these bits must be in `out`; every other one is unchanged.
#[unsafe(no_mangle)]
pub extern "C" fn vb_compare_with_u8(out: &mut [u8], o: usize, values: &[u8], op: u8, others: &[u8])
    requires others { length others.now ≡ length values.now }
    requires window { CompareFits out.old o (length values.now) op }
    ensures { Writes out.old out.new o
        (zip2 (λ left right. compares (comparison_of op) (pos left) (pos right))
        values.now others.now) }
{
    compare_with(out, o, values, op, others);
}

/// Returns whether `others` has the same length as `values`, the window is in the bytes, and `op`
/// is below 6. If so, does [`vb_compare_with_u8`]; else leaves `out` unchanged.
#[unsafe(no_mangle)]
pub extern "C" fn vb_try_compare_with_u8(
    out: &mut [u8],
    o: usize,
    values: &[u8],
    op: u8,
    others: &[u8],
) -> bool
    ensures { DoneIf ((length others.now ≡ length values.now)
        × CompareFits out.old o (length values.now) op)
        (Writes out.old out.new o
        (zip2 (λ left right. compares (comparison_of op) (pos left) (pos right))
        values.now others.now))
        (out.new ≡ out.old) result }
{
    if others.len() != values.len() || !fits(out, o, values.len(), op) {
        return false;
    }
    vb_compare_with_u8(out, o, values, op, others);
    true
}

/// Writes to bit `o + k` of `out`, for each `k` below the number of values, whether `values[k]`
/// compares with `others[k]` by `op`. `others` must have the same length as `values`, `op` must be
/// below 6, and these bits must be in `out`; every other one is unchanged.
#[unsafe(no_mangle)]
pub extern "C" fn vb_compare_with_u16(
    out: &mut [u8],
    o: usize,
    values: &[u16],
    op: u8,
    others: &[u16],
)
    requires others { length others.now ≡ length values.now }
    requires window { CompareFits out.old o (length values.now) op }
    ensures { Writes out.old out.new o
        (zip2 (λ left right. compares (comparison_of op) (pos left) (pos right))
        values.now others.now) }
{
    compare_with(out, o, values, op, others);
}

/// Returns whether `others` has the same length as `values`, the window is in the bytes, and `op`
/// is below 6. If so, does [`vb_compare_with_u16`]; else leaves `out` unchanged.
#[unsafe(no_mangle)]
pub extern "C" fn vb_try_compare_with_u16(
    out: &mut [u8],
    o: usize,
    values: &[u16],
    op: u8,
    others: &[u16],
) -> bool
    ensures { DoneIf ((length others.now ≡ length values.now)
        × CompareFits out.old o (length values.now) op)
        (Writes out.old out.new o
        (zip2 (λ left right. compares (comparison_of op) (pos left) (pos right))
        values.now others.now))
        (out.new ≡ out.old) result }
{
    if others.len() != values.len() || !fits(out, o, values.len(), op) {
        return false;
    }
    vb_compare_with_u16(out, o, values, op, others);
    true
}

/// Writes to bit `o + k` of `out`, for each `k` below the number of values, whether `values[k]`
/// compares with `others[k]` by `op`. `others` must have the same length as `values`, `op` must be
/// below 6, and these bits must be in `out`; every other one is unchanged.
#[unsafe(no_mangle)]
pub extern "C" fn vb_compare_with_u32(
    out: &mut [u8],
    o: usize,
    values: &[u32],
    op: u8,
    others: &[u32],
)
    requires others { length others.now ≡ length values.now }
    requires window { CompareFits out.old o (length values.now) op }
    ensures { Writes out.old out.new o
        (zip2 (λ left right. compares (comparison_of op) (pos left) (pos right))
        values.now others.now) }
{
    compare_with(out, o, values, op, others);
}

/// Returns whether `others` has the same length as `values`, the window is in the bytes, and `op`
/// is below 6. If so, does [`vb_compare_with_u32`]; else leaves `out` unchanged.
#[unsafe(no_mangle)]
pub extern "C" fn vb_try_compare_with_u32(
    out: &mut [u8],
    o: usize,
    values: &[u32],
    op: u8,
    others: &[u32],
) -> bool
    ensures { DoneIf ((length others.now ≡ length values.now)
        × CompareFits out.old o (length values.now) op)
        (Writes out.old out.new o
        (zip2 (λ left right. compares (comparison_of op) (pos left) (pos right))
        values.now others.now))
        (out.new ≡ out.old) result }
{
    if others.len() != values.len() || !fits(out, o, values.len(), op) {
        return false;
    }
    vb_compare_with_u32(out, o, values, op, others);
    true
}

/// Writes to bit `o + k` of `out`, for each `k` below the number of values, whether `values[k]`
/// compares with `others[k]` by `op`. `others` must have the same length as `values`, `op` must be
/// below 6, and these bits must be in `out`; every other one is unchanged.
#[unsafe(no_mangle)]
pub extern "C" fn vb_compare_with_u64(
    out: &mut [u8],
    o: usize,
    values: &[u64],
    op: u8,
    others: &[u64],
)
    requires others { length others.now ≡ length values.now }
    requires window { CompareFits out.old o (length values.now) op }
    ensures { Writes out.old out.new o
        (zip2 (λ left right. compares (comparison_of op) (pos left) (pos right))
        values.now others.now) }
{
    compare_with(out, o, values, op, others);
}

/// Returns whether `others` has the same length as `values`, the window is in the bytes, and `op`
/// is below 6. If so, does [`vb_compare_with_u64`]; else leaves `out` unchanged.
#[unsafe(no_mangle)]
pub extern "C" fn vb_try_compare_with_u64(
    out: &mut [u8],
    o: usize,
    values: &[u64],
    op: u8,
    others: &[u64],
) -> bool
    ensures { DoneIf ((length others.now ≡ length values.now)
        × CompareFits out.old o (length values.now) op)
        (Writes out.old out.new o
        (zip2 (λ left right. compares (comparison_of op) (pos left) (pos right))
        values.now others.now))
        (out.new ≡ out.old) result }
{
    if others.len() != values.len() || !fits(out, o, values.len(), op) {
        return false;
    }
    vb_compare_with_u64(out, o, values, op, others);
    true
}
