// Written by tools/write-lists from tools/families/compare.txt.
//! Signed values compared with a number.
ghost use Rattle.std.specs.Prelude.{◌≡◌, length, map};
ghost use Rattle.vb_bits.specs.Writes.{Writes};
ghost use Rattle.vb_c_compare.specs.Codes.{comparison_of, CompareFits};
ghost use Rattle.vb_c_core.specs.Fits.{DoneIf};
ghost use Rattle.vb_compare.specs.Compares.{compares};

use crate::code::{compare, fits};

/// Writes to bit `o + k` of `out`, for each `k` below the number of values, whether `values[k]`
/// compares with `number` by `op`. `op` must be below 6, and these bits must be in `out`; every
/// other one is unchanged.
#[unsafe(no_mangle)]
pub extern "C" fn vb_compare_i8(out: &mut [u8], o: usize, values: &[i8], op: u8, number: i8)
    requires { CompareFits out.old o (length values.now) op }
    ensures { Writes out.old out.new o
        (map (λ value. compares (comparison_of op) value number) values.now) }
{
    compare(out, o, values, op, number);
}

/// Returns whether the window is in the bytes, and `op` is below 6. If so, does [`vb_compare_i8`];
/// else leaves `out` unchanged.
#[unsafe(no_mangle)]
pub extern "C" fn vb_try_compare_i8(
    out: &mut [u8],
    o: usize,
    values: &[i8],
    op: u8,
    number: i8,
) -> bool
    ensures { DoneIf (CompareFits out.old o (length values.now) op)
        (Writes out.old out.new o
        (map (λ value. compares (comparison_of op) value number) values.now))
        (out.new ≡ out.old) result }
{
    if !fits(out, o, values.len(), op) {
        return false;
    }
    vb_compare_i8(out, o, values, op, number);
    true
}

/// Writes to bit `o + k` of `out`, for each `k` below the number of values, whether `values[k]`
/// compares with `number` by `op`. `op` must be below 6, and these bits must be in `out`; every
/// other one is unchanged.
#[unsafe(no_mangle)]
pub extern "C" fn vb_compare_i16(out: &mut [u8], o: usize, values: &[i16], op: u8, number: i16)
    requires { CompareFits out.old o (length values.now) op }
    ensures { Writes out.old out.new o
        (map (λ value. compares (comparison_of op) value number) values.now) }
{
    compare(out, o, values, op, number);
}

/// Returns whether the window is in the bytes, and `op` is below 6. If so, does [`vb_compare_i16`];
/// else leaves `out` unchanged.
#[unsafe(no_mangle)]
pub extern "C" fn vb_try_compare_i16(
    out: &mut [u8],
    o: usize,
    values: &[i16],
    op: u8,
    number: i16,
) -> bool
    ensures { DoneIf (CompareFits out.old o (length values.now) op)
        (Writes out.old out.new o
        (map (λ value. compares (comparison_of op) value number) values.now))
        (out.new ≡ out.old) result }
{
    if !fits(out, o, values.len(), op) {
        return false;
    }
    vb_compare_i16(out, o, values, op, number);
    true
}

/// Writes to bit `o + k` of `out`, for each `k` below the number of values, whether `values[k]`
/// compares with `number` by `op`. `op` must be below 6, and these bits must be in `out`; every
/// other one is unchanged.
#[unsafe(no_mangle)]
pub extern "C" fn vb_compare_i32(out: &mut [u8], o: usize, values: &[i32], op: u8, number: i32)
    requires { CompareFits out.old o (length values.now) op }
    ensures { Writes out.old out.new o
        (map (λ value. compares (comparison_of op) value number) values.now) }
{
    compare(out, o, values, op, number);
}

/// Returns whether the window is in the bytes, and `op` is below 6. If so, does [`vb_compare_i32`];
/// else leaves `out` unchanged.
#[unsafe(no_mangle)]
pub extern "C" fn vb_try_compare_i32(
    out: &mut [u8],
    o: usize,
    values: &[i32],
    op: u8,
    number: i32,
) -> bool
    ensures { DoneIf (CompareFits out.old o (length values.now) op)
        (Writes out.old out.new o
        (map (λ value. compares (comparison_of op) value number) values.now))
        (out.new ≡ out.old) result }
{
    if !fits(out, o, values.len(), op) {
        return false;
    }
    vb_compare_i32(out, o, values, op, number);
    true
}

/// Writes to bit `o + k` of `out`, for each `k` below the number of values, whether `values[k]`
/// compares with `number` by `op`. `op` must be below 6, and these bits must be in `out`; every
/// other one is unchanged.
#[unsafe(no_mangle)]
pub extern "C" fn vb_compare_i64(out: &mut [u8], o: usize, values: &[i64], op: u8, number: i64)
    requires { CompareFits out.old o (length values.now) op }
    ensures { Writes out.old out.new o
        (map (λ value. compares (comparison_of op) value number) values.now) }
{
    compare(out, o, values, op, number);
}

/// Returns whether the window is in the bytes, and `op` is below 6. If so, does [`vb_compare_i64`];
/// else leaves `out` unchanged.
#[unsafe(no_mangle)]
pub extern "C" fn vb_try_compare_i64(
    out: &mut [u8],
    o: usize,
    values: &[i64],
    op: u8,
    number: i64,
) -> bool
    ensures { DoneIf (CompareFits out.old o (length values.now) op)
        (Writes out.old out.new o
        (map (λ value. compares (comparison_of op) value number) values.now))
        (out.new ≡ out.old) result }
{
    if !fits(out, o, values.len(), op) {
        return false;
    }
    vb_compare_i64(out, o, values, op, number);
    true
}
