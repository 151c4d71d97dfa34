// Written by tools/write-lists from tools/families/compare.txt.
//! Unsigned values compared with a number.
ghost use Rattle.std.specs.Prelude.{◌≡◌, length, map, pos};
ghost use Rattle.vb_bits.specs.Writes.{Writes};
ghost use Rattle.vb_c_compare.specs.Codes.{comparison_of, CompareFits};
ghost use Rattle.vb_c_core.specs.Fits.{DoneIf};
ghost use Rattle.vb_compare.specs.Compares.{compares};

use crate::code::{compare, fits};

/// Writes to bit `o + k` of `out`, for each `k` below the number of values, whether `values[k]`
/// compares with `number` by `op`. `op` must be below 6, and these bits must be in `out`; every
/// other one is unchanged.
#[unsafe(no_mangle)]
pub extern "C" fn vb_compare_u8(out: &mut [u8], o: usize, values: &[u8], op: u8, number: u8)
    requires { CompareFits out.old o (length values.now) op }
    ensures { Writes out.old out.new o
        (map (λ value. compares (comparison_of op) (pos value) (pos number)) values.now) }
{
    compare(out, o, values, op, number);
}

/// Returns whether the window is in the bytes, and `op` is below 6. If so, does [`vb_compare_u8`];
/// else leaves `out` unchanged.
#[unsafe(no_mangle)]
pub extern "C" fn vb_try_compare_u8(
    out: &mut [u8],
    o: usize,
    values: &[u8],
    op: u8,
    number: u8,
) -> bool
    ensures { DoneIf (CompareFits out.old o (length values.now) op)
        (Writes out.old out.new o
        (map (λ value. compares (comparison_of op) (pos value) (pos number)) values.now))
        (out.new ≡ out.old) result }
{
    if !fits(out, o, values.len(), op) {
        return false;
    }
    vb_compare_u8(out, o, values, op, number);
    true
}

/// Writes to bit `o + k` of `out`, for each `k` below the number of values, whether `values[k]`
/// compares with `number` by `op`. `op` must be below 6, and these bits must be in `out`; every
/// other one is unchanged.
#[unsafe(no_mangle)]
pub extern "C" fn vb_compare_u16(out: &mut [u8], o: usize, values: &[u16], op: u8, number: u16)
    requires { CompareFits out.old o (length values.now) op }
    ensures { Writes out.old out.new o
        (map (λ value. compares (comparison_of op) (pos value) (pos number)) values.now) }
{
    compare(out, o, values, op, number);
}

/// Returns whether the window is in the bytes, and `op` is below 6. If so, does [`vb_compare_u16`];
/// else leaves `out` unchanged.
#[unsafe(no_mangle)]
pub extern "C" fn vb_try_compare_u16(
    out: &mut [u8],
    o: usize,
    values: &[u16],
    op: u8,
    number: u16,
) -> bool
    ensures { DoneIf (CompareFits out.old o (length values.now) op)
        (Writes out.old out.new o
        (map (λ value. compares (comparison_of op) (pos value) (pos number)) values.now))
        (out.new ≡ out.old) result }
{
    if !fits(out, o, values.len(), op) {
        return false;
    }
    vb_compare_u16(out, o, values, op, number);
    true
}

/// Writes to bit `o + k` of `out`, for each `k` below the number of values, whether `values[k]`
/// compares with `number` by `op`. `op` must be below 6, and these bits must be in `out`; every
/// other one is unchanged.
#[unsafe(no_mangle)]
pub extern "C" fn vb_compare_u32(out: &mut [u8], o: usize, values: &[u32], op: u8, number: u32)
    requires { CompareFits out.old o (length values.now) op }
    ensures { Writes out.old out.new o
        (map (λ value. compares (comparison_of op) (pos value) (pos number)) values.now) }
{
    compare(out, o, values, op, number);
}

/// Returns whether the window is in the bytes, and `op` is below 6. If so, does [`vb_compare_u32`];
/// else leaves `out` unchanged.
#[unsafe(no_mangle)]
pub extern "C" fn vb_try_compare_u32(
    out: &mut [u8],
    o: usize,
    values: &[u32],
    op: u8,
    number: u32,
) -> bool
    ensures { DoneIf (CompareFits out.old o (length values.now) op)
        (Writes out.old out.new o
        (map (λ value. compares (comparison_of op) (pos value) (pos number)) values.now))
        (out.new ≡ out.old) result }
{
    if !fits(out, o, values.len(), op) {
        return false;
    }
    vb_compare_u32(out, o, values, op, number);
    true
}

/// Writes to bit `o + k` of `out`, for each `k` below the number of values, whether `values[k]`
/// compares with `number` by `op`. `op` must be below 6, and these bits must be in `out`; every
/// other one is unchanged.
#[unsafe(no_mangle)]
pub extern "C" fn vb_compare_u64(out: &mut [u8], o: usize, values: &[u64], op: u8, number: u64)
    requires { CompareFits out.old o (length values.now) op }
    ensures { Writes out.old out.new o
        (map (λ value. compares (comparison_of op) (pos value) (pos number)) values.now) }
{
    compare(out, o, values, op, number);
}

/// Returns whether the window is in the bytes, and `op` is below 6. If so, does [`vb_compare_u64`];
/// else leaves `out` unchanged.
#[unsafe(no_mangle)]
pub extern "C" fn vb_try_compare_u64(
    out: &mut [u8],
    o: usize,
    values: &[u64],
    op: u8,
    number: u64,
) -> bool
    ensures { DoneIf (CompareFits out.old o (length values.now) op)
        (Writes out.old out.new o
        (map (λ value. compares (comparison_of op) (pos value) (pos number)) values.now))
        (out.new ≡ out.old) result }
{
    if !fits(out, o, values.len(), op) {
        return false;
    }
    vb_compare_u64(out, o, values, op, number);
    true
}
