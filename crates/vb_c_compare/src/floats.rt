// Written in part by tools/write-lists from tools/families/compare.txt.
//! Floats compared with a number, and with others.
ghost use Rattle.std.specs.Prelude.{◌≡◌, length, map};
ghost use Rattle.std.specs.Simd.Lanes.{zip2};
ghost use Rattle.vb_bits.specs.Writes.{Writes};
ghost use Rattle.vb_c_compare.specs.Codes.{comparison_of, CompareFits};
ghost use Rattle.vb_c_core.specs.Fits.{DoneIf};
ghost use Rattle.vb_compare.specs.Floats.{compares_floats};

use crate::code::{comparison_of, fits};
use vb_compare::{compare_floats_into, compare_floats_with_into};

/// Writes to bit `o + k` of `out`, for each `k` below the number of values, whether `values[k]`
/// compares with `number` by `op`, as IEEE 754 defines it: with a NaN on either side only "not
/// equal" is true. `op` must be below 6, and these bits must be in `out`; every other one is
/// unchanged.
#[unsafe(no_mangle)]
pub extern "C" fn vb_compare_f32(out: &mut [u8], o: usize, values: &[f32], op: u8, number: f32)
    requires { CompareFits out.old o (length values.now) op }
    ensures { Writes out.old out.new o
        (map (λ value. compares_floats (comparison_of op) value number) values.now) }
{
    let window = &mut out[o / 8..(o + values.len()).div_ceil(8)];
    compare_floats_into(window, o % 8, values, comparison_of(op), number);
}

/// Returns whether the window is in the bytes, and `op` is below 6. If so, does [`vb_compare_f32`];
/// else leaves `out` unchanged.
#[unsafe(no_mangle)]
pub extern "C" fn vb_try_compare_f32(
    out: &mut [u8],
    o: usize,
    values: &[f32],
    op: u8,
    number: f32,
) -> bool
    ensures { DoneIf (CompareFits out.old o (length values.now) op)
        (Writes out.old out.new o
        (map (λ value. compares_floats (comparison_of op) value number) values.now))
        (out.new ≡ out.old) result }
{
    if !fits(out, o, values.len(), op) {
        return false;
    }
    vb_compare_f32(out, o, values, op, number);
    true
}

/// Writes to bit `o + k` of `out`, for each `k` below the number of values, whether `values[k]`
/// compares with `others[k]` by `op`, as in [`vb_compare_f32`]. `others` must have the same length
/// as `values`, `op` must be below 6, and these bits must be in `out`; every other one is
/// unchanged.
#[unsafe(no_mangle)]
pub extern "C" fn vb_compare_with_f32(
    out: &mut [u8],
    o: usize,
    values: &[f32],
    op: u8,
    others: &[f32],
)
    requires others { length others.now ≡ length values.now }
    requires window { CompareFits out.old o (length values.now) op }
    ensures { Writes out.old out.new o
        (zip2 (compares_floats (comparison_of op)) values.now others.now) }
{
    let window = &mut out[o / 8..(o + values.len()).div_ceil(8)];
    compare_floats_with_into(window, o % 8, values, comparison_of(op), others);
}

/// Returns whether `others` has the same length as `values`, the window is in the bytes, and `op`
/// is below 6. If so, does [`vb_compare_with_f32`]; else leaves `out` unchanged.
#[unsafe(no_mangle)]
pub extern "C" fn vb_try_compare_with_f32(
    out: &mut [u8],
    o: usize,
    values: &[f32],
    op: u8,
    others: &[f32],
) -> bool
    ensures { DoneIf ((length others.now ≡ length values.now)
        × CompareFits out.old o (length values.now) op)
        (Writes out.old out.new o
        (zip2 (compares_floats (comparison_of op)) values.now others.now))
        (out.new ≡ out.old) result }
{
    if others.len() != values.len() || !fits(out, o, values.len(), op) {
        return false;
    }
    vb_compare_with_f32(out, o, values, op, others);
    true
}

/// Writes to bit `o + k` of `out`, for each `k` below the number of values, whether `values[k]`
/// compares with `number` by `op`, as IEEE 754 defines it: with a NaN on either side only "not
/// equal" is true. `op` must be below 6, and these bits must be in `out`; every other one is
/// unchanged.
#[unsafe(no_mangle)]
pub extern "C" fn vb_compare_f64(out: &mut [u8], o: usize, values: &[f64], op: u8, number: f64)
    requires { CompareFits out.old o (length values.now) op }
    ensures { Writes out.old out.new o
        (map (λ value. compares_floats (comparison_of op) value number) values.now) }
{
    let window = &mut out[o / 8..(o + values.len()).div_ceil(8)];
    compare_floats_into(window, o % 8, values, comparison_of(op), number);
}

/// Returns whether the window is in the bytes, and `op` is below 6. If so, does [`vb_compare_f64`];
/// else leaves `out` unchanged.
#[unsafe(no_mangle)]
pub extern "C" fn vb_try_compare_f64(
    out: &mut [u8],
    o: usize,
    values: &[f64],
    op: u8,
    number: f64,
) -> bool
    ensures { DoneIf (CompareFits out.old o (length values.now) op)
        (Writes out.old out.new o
        (map (λ value. compares_floats (comparison_of op) value number) values.now))
        (out.new ≡ out.old) result }
{
    if !fits(out, o, values.len(), op) {
        return false;
    }
    vb_compare_f64(out, o, values, op, number);
    true
}

/// Writes to bit `o + k` of `out`, for each `k` below the number of values, whether `values[k]`
/// compares with `others[k]` by `op`, as in [`vb_compare_f64`]. `others` must have the same length
/// as `values`, `op` must be below 6, and these bits must be in `out`; every other one is
/// unchanged.
#[unsafe(no_mangle)]
pub extern "C" fn vb_compare_with_f64(
    out: &mut [u8],
    o: usize,
    values: &[f64],
    op: u8,
    others: &[f64],
)
    requires others { length others.now ≡ length values.now }
    requires window { CompareFits out.old o (length values.now) op }
    ensures { Writes out.old out.new o
        (zip2 (compares_floats (comparison_of op)) values.now others.now) }
{
    let window = &mut out[o / 8..(o + values.len()).div_ceil(8)];
    compare_floats_with_into(window, o % 8, values, comparison_of(op), others);
}

/// Returns whether `others` has the same length as `values`, the window is in the bytes, and `op`
/// is below 6. If so, does [`vb_compare_with_f64`]; else leaves `out` unchanged.
#[unsafe(no_mangle)]
pub extern "C" fn vb_try_compare_with_f64(
    out: &mut [u8],
    o: usize,
    values: &[f64],
    op: u8,
    others: &[f64],
) -> bool
    ensures { DoneIf ((length others.now ≡ length values.now)
        × CompareFits out.old o (length values.now) op)
        (Writes out.old out.new o
        (zip2 (compares_floats (comparison_of op)) values.now others.now))
        (out.new ≡ out.old) result }
{
    if others.len() != values.len() || !fits(out, o, values.len(), op) {
        return false;
    }
    vb_compare_with_f64(out, o, values, op, others);
    true
}
