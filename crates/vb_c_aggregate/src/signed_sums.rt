// Written by tools/write-lists from tools/families/masked_sums.txt.
//! Sums of signed values.
ghost use Rattle.std.specs.Int.{w8, w16, w32, w64, int_wrap};
ghost use Rattle.std.specs.Prelude.{◌≡◌, length, FitsSigned};
ghost use Rattle.vb_aggregate.specs.Sums.{IsValueOf};
ghost use Rattle.vb_bits.specs.InBytes.{InBytes};
ghost use Rattle.vb_c_aggregate.specs.Optional.{optional_i8, optional_i16};
ghost use Rattle.vb_c_aggregate.specs.Optional.{optional_i32, optional_i64};
ghost use Rattle.vb_c_aggregate.specs.Selected.{sum_of};
ghost use Rattle.vb_c_aggregate.specs.Wide.{signed_number};
ghost use Rattle.vb_c_core.specs.Fits.{DoneIf};

use crate::optional::{OptionalI8, OptionalI16, OptionalI32, OptionalI64};
use crate::selected::{checked_sum, exact_sum, wrapping_sum};
use crate::wide::SignedWide;
use vb_bits::window_fits;

/// Returns the exact sum of the values whose bit of `mask` from bit `m` on is true.
#[unsafe(no_mangle)]
pub extern "C" fn vb_masked_sum_i8(values: &[i8], mask: &[u8], m: usize) -> SignedWide
    requires { InBytes mask.now m (length values.now) }
    ensures { signed_number result ≡ sum_of (λ x. x) values.now mask.now m }
{
    exact_sum(values, mask, m).into()
}

/// Returns whether the mask has a bit for each value. If so, writes the result of
/// [`vb_masked_sum_i8`] to `sum`; else leaves it unchanged.
#[unsafe(no_mangle)]
pub extern "C" fn vb_try_masked_sum_i8(
    values: &[i8],
    mask: &[u8],
    m: usize,
    sum: &mut SignedWide,
) -> bool
    ensures { DoneIf (InBytes mask.now m (length values.now))
        (signed_number sum.new ≡ sum_of (λ x. x) values.now mask.now m)
        (sum.new ≡ sum.old) result }
{
    if !window_fits(mask, m, values.len()) {
        return false;
    }
    *sum = vb_masked_sum_i8(values, mask, m);
    true
}

/// Returns the sum of the values whose bit of `mask` from bit `m` on is true, if it fits in `i8`.
#[unsafe(no_mangle)]
pub extern "C" fn vb_masked_checked_sum_i8(values: &[i8], mask: &[u8], m: usize) -> OptionalI8
    requires { InBytes mask.now m (length values.now) }
    ensures { IsValueOf (FitsSigned w8) (λ x. x) (sum_of (λ x. x) values.now mask.now m)
        (optional_i8 result) }
{
    checked_sum(values, mask, m).into()
}

/// Returns whether the mask has a bit for each value. If so, writes the result of
/// [`vb_masked_checked_sum_i8`] to `sum`; else leaves it unchanged.
#[unsafe(no_mangle)]
pub extern "C" fn vb_try_masked_checked_sum_i8(
    values: &[i8],
    mask: &[u8],
    m: usize,
    sum: &mut OptionalI8,
) -> bool
    ensures { DoneIf (InBytes mask.now m (length values.now))
        (IsValueOf (FitsSigned w8) (λ x. x) (sum_of (λ x. x) values.now mask.now m)
        (optional_i8 sum.new)) (sum.new ≡ sum.old) result }
{
    if !window_fits(mask, m, values.len()) {
        return false;
    }
    *sum = vb_masked_checked_sum_i8(values, mask, m);
    true
}

/// Returns the sum of the values whose bit of `mask` from bit `m` on is true, modulo 2^8.
#[unsafe(no_mangle)]
pub extern "C" fn vb_masked_wrapping_sum_i8(values: &[i8], mask: &[u8], m: usize) -> i8
    requires { InBytes mask.now m (length values.now) }
    ensures { result ≡ int_wrap w8 (sum_of (λ x. x) values.now mask.now m) }
{
    wrapping_sum(values, mask, m)
}

/// Returns whether the mask has a bit for each value. If so, writes the result of
/// [`vb_masked_wrapping_sum_i8`] to `sum`; else leaves it unchanged.
#[unsafe(no_mangle)]
pub extern "C" fn vb_try_masked_wrapping_sum_i8(
    values: &[i8],
    mask: &[u8],
    m: usize,
    sum: &mut i8,
) -> bool
    ensures { DoneIf (InBytes mask.now m (length values.now))
        (sum.new ≡ int_wrap w8 (sum_of (λ x. x) values.now mask.now m)) (sum.new ≡ sum.old) result }
{
    if !window_fits(mask, m, values.len()) {
        return false;
    }
    *sum = vb_masked_wrapping_sum_i8(values, mask, m);
    true
}

/// Returns the exact sum of the values whose bit of `mask` from bit `m` on is true.
#[unsafe(no_mangle)]
pub extern "C" fn vb_masked_sum_i16(values: &[i16], mask: &[u8], m: usize) -> SignedWide
    requires { InBytes mask.now m (length values.now) }
    ensures { signed_number result ≡ sum_of (λ x. x) values.now mask.now m }
{
    exact_sum(values, mask, m).into()
}

/// Returns whether the mask has a bit for each value. If so, writes the result of
/// [`vb_masked_sum_i16`] to `sum`; else leaves it unchanged.
#[unsafe(no_mangle)]
pub extern "C" fn vb_try_masked_sum_i16(
    values: &[i16],
    mask: &[u8],
    m: usize,
    sum: &mut SignedWide,
) -> bool
    ensures { DoneIf (InBytes mask.now m (length values.now))
        (signed_number sum.new ≡ sum_of (λ x. x) values.now mask.now m)
        (sum.new ≡ sum.old) result }
{
    if !window_fits(mask, m, values.len()) {
        return false;
    }
    *sum = vb_masked_sum_i16(values, mask, m);
    true
}

/// Returns the sum of the values whose bit of `mask` from bit `m` on is true, if it fits in `i16`.
#[unsafe(no_mangle)]
pub extern "C" fn vb_masked_checked_sum_i16(values: &[i16], mask: &[u8], m: usize) -> OptionalI16
    requires { InBytes mask.now m (length values.now) }
    ensures { IsValueOf (FitsSigned w16) (λ x. x) (sum_of (λ x. x) values.now mask.now m)
        (optional_i16 result) }
{
    checked_sum(values, mask, m).into()
}

/// Returns whether the mask has a bit for each value. If so, writes the result of
/// [`vb_masked_checked_sum_i16`] to `sum`; else leaves it unchanged.
#[unsafe(no_mangle)]
pub extern "C" fn vb_try_masked_checked_sum_i16(
    values: &[i16],
    mask: &[u8],
    m: usize,
    sum: &mut OptionalI16,
) -> bool
    ensures { DoneIf (InBytes mask.now m (length values.now))
        (IsValueOf (FitsSigned w16) (λ x. x) (sum_of (λ x. x) values.now mask.now m)
        (optional_i16 sum.new)) (sum.new ≡ sum.old) result }
{
    if !window_fits(mask, m, values.len()) {
        return false;
    }
    *sum = vb_masked_checked_sum_i16(values, mask, m);
    true
}

/// Returns the sum of the values whose bit of `mask` from bit `m` on is true, modulo 2^16.
#[unsafe(no_mangle)]
pub extern "C" fn vb_masked_wrapping_sum_i16(values: &[i16], mask: &[u8], m: usize) -> i16
    requires { InBytes mask.now m (length values.now) }
    ensures { result ≡ int_wrap w16 (sum_of (λ x. x) values.now mask.now m) }
{
    wrapping_sum(values, mask, m)
}

/// Returns whether the mask has a bit for each value. If so, writes the result of
/// [`vb_masked_wrapping_sum_i16`] to `sum`; else leaves it unchanged.
#[unsafe(no_mangle)]
pub extern "C" fn vb_try_masked_wrapping_sum_i16(
    values: &[i16],
    mask: &[u8],
    m: usize,
    sum: &mut i16,
) -> bool
    ensures { DoneIf (InBytes mask.now m (length values.now))
        (sum.new ≡ int_wrap w16 (sum_of (λ x. x) values.now mask.now m))
        (sum.new ≡ sum.old) result }
{
    if !window_fits(mask, m, values.len()) {
        return false;
    }
    *sum = vb_masked_wrapping_sum_i16(values, mask, m);
    true
}

/// Returns the exact sum of the values whose bit of `mask` from bit `m` on is true.
#[unsafe(no_mangle)]
pub extern "C" fn vb_masked_sum_i32(values: &[i32], mask: &[u8], m: usize) -> SignedWide
    requires { InBytes mask.now m (length values.now) }
    ensures { signed_number result ≡ sum_of (λ x. x) values.now mask.now m }
{
    exact_sum(values, mask, m).into()
}

/// Returns whether the mask has a bit for each value. If so, writes the result of
/// [`vb_masked_sum_i32`] to `sum`; else leaves it unchanged.
#[unsafe(no_mangle)]
pub extern "C" fn vb_try_masked_sum_i32(
    values: &[i32],
    mask: &[u8],
    m: usize,
    sum: &mut SignedWide,
) -> bool
    ensures { DoneIf (InBytes mask.now m (length values.now))
        (signed_number sum.new ≡ sum_of (λ x. x) values.now mask.now m)
        (sum.new ≡ sum.old) result }
{
    if !window_fits(mask, m, values.len()) {
        return false;
    }
    *sum = vb_masked_sum_i32(values, mask, m);
    true
}

/// Returns the sum of the values whose bit of `mask` from bit `m` on is true, if it fits in `i32`.
#[unsafe(no_mangle)]
pub extern "C" fn vb_masked_checked_sum_i32(values: &[i32], mask: &[u8], m: usize) -> OptionalI32
    requires { InBytes mask.now m (length values.now) }
    ensures { IsValueOf (FitsSigned w32) (λ x. x) (sum_of (λ x. x) values.now mask.now m)
        (optional_i32 result) }
{
    checked_sum(values, mask, m).into()
}

/// Returns whether the mask has a bit for each value. If so, writes the result of
/// [`vb_masked_checked_sum_i32`] to `sum`; else leaves it unchanged.
#[unsafe(no_mangle)]
pub extern "C" fn vb_try_masked_checked_sum_i32(
    values: &[i32],
    mask: &[u8],
    m: usize,
    sum: &mut OptionalI32,
) -> bool
    ensures { DoneIf (InBytes mask.now m (length values.now))
        (IsValueOf (FitsSigned w32) (λ x. x) (sum_of (λ x. x) values.now mask.now m)
        (optional_i32 sum.new)) (sum.new ≡ sum.old) result }
{
    if !window_fits(mask, m, values.len()) {
        return false;
    }
    *sum = vb_masked_checked_sum_i32(values, mask, m);
    true
}

/// Returns the sum of the values whose bit of `mask` from bit `m` on is true, modulo 2^32.
#[unsafe(no_mangle)]
pub extern "C" fn vb_masked_wrapping_sum_i32(values: &[i32], mask: &[u8], m: usize) -> i32
    requires { InBytes mask.now m (length values.now) }
    ensures { result ≡ int_wrap w32 (sum_of (λ x. x) values.now mask.now m) }
{
    wrapping_sum(values, mask, m)
}

/// Returns whether the mask has a bit for each value. If so, writes the result of
/// [`vb_masked_wrapping_sum_i32`] to `sum`; else leaves it unchanged.
#[unsafe(no_mangle)]
pub extern "C" fn vb_try_masked_wrapping_sum_i32(
    values: &[i32],
    mask: &[u8],
    m: usize,
    sum: &mut i32,
) -> bool
    ensures { DoneIf (InBytes mask.now m (length values.now))
        (sum.new ≡ int_wrap w32 (sum_of (λ x. x) values.now mask.now m))
        (sum.new ≡ sum.old) result }
{
    if !window_fits(mask, m, values.len()) {
        return false;
    }
    *sum = vb_masked_wrapping_sum_i32(values, mask, m);
    true
}

/// Returns the exact sum of the values whose bit of `mask` from bit `m` on is true.
#[unsafe(no_mangle)]
pub extern "C" fn vb_masked_sum_i64(values: &[i64], mask: &[u8], m: usize) -> SignedWide
    requires { InBytes mask.now m (length values.now) }
    ensures { signed_number result ≡ sum_of (λ x. x) values.now mask.now m }
{
    exact_sum(values, mask, m).into()
}

/// Returns whether the mask has a bit for each value. If so, writes the result of
/// [`vb_masked_sum_i64`] to `sum`; else leaves it unchanged.
#[unsafe(no_mangle)]
pub extern "C" fn vb_try_masked_sum_i64(
    values: &[i64],
    mask: &[u8],
    m: usize,
    sum: &mut SignedWide,
) -> bool
    ensures { DoneIf (InBytes mask.now m (length values.now))
        (signed_number sum.new ≡ sum_of (λ x. x) values.now mask.now m)
        (sum.new ≡ sum.old) result }
{
    if !window_fits(mask, m, values.len()) {
        return false;
    }
    *sum = vb_masked_sum_i64(values, mask, m);
    true
}

/// Returns the sum of the values whose bit of `mask` from bit `m` on is true, if it fits in `i64`.
#[unsafe(no_mangle)]
pub extern "C" fn vb_masked_checked_sum_i64(values: &[i64], mask: &[u8], m: usize) -> OptionalI64
    requires { InBytes mask.now m (length values.now) }
    ensures { IsValueOf (FitsSigned w64) (λ x. x) (sum_of (λ x. x) values.now mask.now m)
        (optional_i64 result) }
{
    checked_sum(values, mask, m).into()
}

/// Returns whether the mask has a bit for each value. If so, writes the result of
/// [`vb_masked_checked_sum_i64`] to `sum`; else leaves it unchanged.
#[unsafe(no_mangle)]
pub extern "C" fn vb_try_masked_checked_sum_i64(
    values: &[i64],
    mask: &[u8],
    m: usize,
    sum: &mut OptionalI64,
) -> bool
    ensures { DoneIf (InBytes mask.now m (length values.now))
        (IsValueOf (FitsSigned w64) (λ x. x) (sum_of (λ x. x) values.now mask.now m)
        (optional_i64 sum.new)) (sum.new ≡ sum.old) result }
{
    if !window_fits(mask, m, values.len()) {
        return false;
    }
    *sum = vb_masked_checked_sum_i64(values, mask, m);
    true
}

/// Returns the sum of the values whose bit of `mask` from bit `m` on is true, modulo 2^64.
#[unsafe(no_mangle)]
pub extern "C" fn vb_masked_wrapping_sum_i64(values: &[i64], mask: &[u8], m: usize) -> i64
    requires { InBytes mask.now m (length values.now) }
    ensures { result ≡ int_wrap w64 (sum_of (λ x. x) values.now mask.now m) }
{
    wrapping_sum(values, mask, m)
}

/// Returns whether the mask has a bit for each value. If so, writes the result of
/// [`vb_masked_wrapping_sum_i64`] to `sum`; else leaves it unchanged.
#[unsafe(no_mangle)]
pub extern "C" fn vb_try_masked_wrapping_sum_i64(
    values: &[i64],
    mask: &[u8],
    m: usize,
    sum: &mut i64,
) -> bool
    ensures { DoneIf (InBytes mask.now m (length values.now))
        (sum.new ≡ int_wrap w64 (sum_of (λ x. x) values.now mask.now m))
        (sum.new ≡ sum.old) result }
{
    if !window_fits(mask, m, values.len()) {
        return false;
    }
    *sum = vb_masked_wrapping_sum_i64(values, mask, m);
    true
}
