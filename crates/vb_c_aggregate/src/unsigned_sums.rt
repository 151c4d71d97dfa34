// Written by tools/write-lists from tools/families/masked_sums.txt.
//! Sums of unsigned values.
ghost use Rattle.std.specs.Int.{w8, w16, w32, w64};
ghost use Rattle.std.specs.Prelude.{◌≡◌, ◌^◌, ◌<◌, length, pos};
ghost use Rattle.vb_aggregate.specs.Sums.{IsValueOf};
ghost use Rattle.vb_aggregate.specs.Wraps.{wrap_unsigned};
ghost use Rattle.vb_bits.specs.InBytes.{InBytes};
ghost use Rattle.vb_c_aggregate.specs.Optional.{optional_u8, optional_u16};
ghost use Rattle.vb_c_aggregate.specs.Optional.{optional_u32, optional_u64};
ghost use Rattle.vb_c_aggregate.specs.Selected.{sum_of};
ghost use Rattle.vb_c_aggregate.specs.Wide.{unsigned_number};
ghost use Rattle.vb_c_core.specs.Fits.{DoneIf};

use crate::optional::{OptionalU8, OptionalU16, OptionalU32, OptionalU64};
use crate::selected::{checked_sum, exact_sum, wrapping_sum};
use crate::wide::Wide;
use vb_bits::window_fits;

/// Returns the exact sum of the values whose bit of `mask` from bit `m` on is true.
#[unsafe(no_mangle)]
pub extern "C" fn vb_masked_sum_u8(values: &[u8], mask: &[u8], m: usize) -> Wide
    requires { InBytes mask.now m (length values.now) }
    ensures { unsigned_number result ≡ sum_of pos values.now mask.now m }
{
    exact_sum(values, mask, m).into()
}

/// Returns whether the mask has a bit for each value. If so, writes the result of
/// [`vb_masked_sum_u8`] to `sum`; else leaves it unchanged.
#[unsafe(no_mangle)]
pub extern "C" fn vb_try_masked_sum_u8(values: &[u8], mask: &[u8], m: usize, sum: &mut Wide) -> bool
    ensures { DoneIf (InBytes mask.now m (length values.now))
        (unsigned_number sum.new ≡ sum_of pos values.now mask.now m)
        (sum.new ≡ sum.old) result }
{
    if !window_fits(mask, m, values.len()) {
        return false;
    }
    *sum = vb_masked_sum_u8(values, mask, m);
    true
}

/// Returns the sum of the values whose bit of `mask` from bit `m` on is true, if it fits in `u8`.
#[unsafe(no_mangle)]
pub extern "C" fn vb_masked_checked_sum_u8(values: &[u8], mask: &[u8], m: usize) -> OptionalU8
    requires { InBytes mask.now m (length values.now) }
    ensures { IsValueOf (λ x. x < 2 ^ 8) pos (sum_of pos values.now mask.now m)
        (optional_u8 result) }
{
    checked_sum(values, mask, m).into()
}

/// Returns whether the mask has a bit for each value. If so, writes the result of
/// [`vb_masked_checked_sum_u8`] to `sum`; else leaves it unchanged.
#[unsafe(no_mangle)]
pub extern "C" fn vb_try_masked_checked_sum_u8(
    values: &[u8],
    mask: &[u8],
    m: usize,
    sum: &mut OptionalU8,
) -> bool
    ensures { DoneIf (InBytes mask.now m (length values.now))
        (IsValueOf (λ x. x < 2 ^ 8) pos (sum_of pos values.now mask.now m)
        (optional_u8 sum.new)) (sum.new ≡ sum.old) result }
{
    if !window_fits(mask, m, values.len()) {
        return false;
    }
    *sum = vb_masked_checked_sum_u8(values, mask, m);
    true
}

/// Returns the sum of the values whose bit of `mask` from bit `m` on is true, modulo 2^8.
#[unsafe(no_mangle)]
pub extern "C" fn vb_masked_wrapping_sum_u8(values: &[u8], mask: &[u8], m: usize) -> u8
    requires { InBytes mask.now m (length values.now) }
    ensures { result ≡ wrap_unsigned w8 (sum_of pos values.now mask.now m) }
{
    wrapping_sum(values, mask, m)
}

/// Returns whether the mask has a bit for each value. If so, writes the result of
/// [`vb_masked_wrapping_sum_u8`] to `sum`; else leaves it unchanged.
#[unsafe(no_mangle)]
pub extern "C" fn vb_try_masked_wrapping_sum_u8(
    values: &[u8],
    mask: &[u8],
    m: usize,
    sum: &mut u8,
) -> bool
    ensures { DoneIf (InBytes mask.now m (length values.now))
        (sum.new ≡ wrap_unsigned w8 (sum_of pos values.now mask.now m)) (sum.new ≡ sum.old) result }
{
    if !window_fits(mask, m, values.len()) {
        return false;
    }
    *sum = vb_masked_wrapping_sum_u8(values, mask, m);
    true
}

/// Returns the exact sum of the values whose bit of `mask` from bit `m` on is true.
#[unsafe(no_mangle)]
pub extern "C" fn vb_masked_sum_u16(values: &[u16], mask: &[u8], m: usize) -> Wide
    requires { InBytes mask.now m (length values.now) }
    ensures { unsigned_number result ≡ sum_of pos values.now mask.now m }
{
    exact_sum(values, mask, m).into()
}

/// Returns whether the mask has a bit for each value. If so, writes the result of
/// [`vb_masked_sum_u16`] to `sum`; else leaves it unchanged.
#[unsafe(no_mangle)]
pub extern "C" fn vb_try_masked_sum_u16(
    values: &[u16],
    mask: &[u8],
    m: usize,
    sum: &mut Wide,
) -> bool
    ensures { DoneIf (InBytes mask.now m (length values.now))
        (unsigned_number sum.new ≡ sum_of pos values.now mask.now m)
        (sum.new ≡ sum.old) result }
{
    if !window_fits(mask, m, values.len()) {
        return false;
    }
    *sum = vb_masked_sum_u16(values, mask, m);
    true
}

/// Returns the sum of the values whose bit of `mask` from bit `m` on is true, if it fits in `u16`.
#[unsafe(no_mangle)]
pub extern "C" fn vb_masked_checked_sum_u16(values: &[u16], mask: &[u8], m: usize) -> OptionalU16
    requires { InBytes mask.now m (length values.now) }
    ensures { IsValueOf (λ x. x < 2 ^ 16) pos (sum_of pos values.now mask.now m)
        (optional_u16 result) }
{
    checked_sum(values, mask, m).into()
}

/// Returns whether the mask has a bit for each value. If so, writes the result of
/// [`vb_masked_checked_sum_u16`] to `sum`; else leaves it unchanged.
#[unsafe(no_mangle)]
pub extern "C" fn vb_try_masked_checked_sum_u16(
    values: &[u16],
    mask: &[u8],
    m: usize,
    sum: &mut OptionalU16,
) -> bool
    ensures { DoneIf (InBytes mask.now m (length values.now))
        (IsValueOf (λ x. x < 2 ^ 16) pos (sum_of pos values.now mask.now m)
        (optional_u16 sum.new)) (sum.new ≡ sum.old) result }
{
    if !window_fits(mask, m, values.len()) {
        return false;
    }
    *sum = vb_masked_checked_sum_u16(values, mask, m);
    true
}

/// Returns the sum of the values whose bit of `mask` from bit `m` on is true, modulo 2^16.
#[unsafe(no_mangle)]
pub extern "C" fn vb_masked_wrapping_sum_u16(values: &[u16], mask: &[u8], m: usize) -> u16
    requires { InBytes mask.now m (length values.now) }
    ensures { result ≡ wrap_unsigned w16 (sum_of pos values.now mask.now m) }
{
    wrapping_sum(values, mask, m)
}

/// Returns whether the mask has a bit for each value. If so, writes the result of
/// [`vb_masked_wrapping_sum_u16`] to `sum`; else leaves it unchanged.
#[unsafe(no_mangle)]
pub extern "C" fn vb_try_masked_wrapping_sum_u16(
    values: &[u16],
    mask: &[u8],
    m: usize,
    sum: &mut u16,
) -> bool
    ensures { DoneIf (InBytes mask.now m (length values.now))
        (sum.new ≡ wrap_unsigned w16 (sum_of pos values.now mask.now m))
        (sum.new ≡ sum.old) result }
{
    if !window_fits(mask, m, values.len()) {
        return false;
    }
    *sum = vb_masked_wrapping_sum_u16(values, mask, m);
    true
}

/// Returns the exact sum of the values whose bit of `mask` from bit `m` on is true.
#[unsafe(no_mangle)]
pub extern "C" fn vb_masked_sum_u32(values: &[u32], mask: &[u8], m: usize) -> Wide
    requires { InBytes mask.now m (length values.now) }
    ensures { unsigned_number result ≡ sum_of pos values.now mask.now m }
{
    exact_sum(values, mask, m).into()
}

/// Returns whether the mask has a bit for each value. If so, writes the result of
/// [`vb_masked_sum_u32`] to `sum`; else leaves it unchanged.
#[unsafe(no_mangle)]
pub extern "C" fn vb_try_masked_sum_u32(
    values: &[u32],
    mask: &[u8],
    m: usize,
    sum: &mut Wide,
) -> bool
    ensures { DoneIf (InBytes mask.now m (length values.now))
        (unsigned_number sum.new ≡ sum_of pos values.now mask.now m)
        (sum.new ≡ sum.old) result }
{
    if !window_fits(mask, m, values.len()) {
        return false;
    }
    *sum = vb_masked_sum_u32(values, mask, m);
    true
}

/// Returns the sum of the values whose bit of `mask` from bit `m` on is true, if it fits in `u32`.
#[unsafe(no_mangle)]
pub extern "C" fn vb_masked_checked_sum_u32(values: &[u32], mask: &[u8], m: usize) -> OptionalU32
    requires { InBytes mask.now m (length values.now) }
    ensures { IsValueOf (λ x. x < 2 ^ 32) pos (sum_of pos values.now mask.now m)
        (optional_u32 result) }
{
    checked_sum(values, mask, m).into()
}

/// Returns whether the mask has a bit for each value. If so, writes the result of
/// [`vb_masked_checked_sum_u32`] to `sum`; else leaves it unchanged.
#[unsafe(no_mangle)]
pub extern "C" fn vb_try_masked_checked_sum_u32(
    values: &[u32],
    mask: &[u8],
    m: usize,
    sum: &mut OptionalU32,
) -> bool
    ensures { DoneIf (InBytes mask.now m (length values.now))
        (IsValueOf (λ x. x < 2 ^ 32) pos (sum_of pos values.now mask.now m)
        (optional_u32 sum.new)) (sum.new ≡ sum.old) result }
{
    if !window_fits(mask, m, values.len()) {
        return false;
    }
    *sum = vb_masked_checked_sum_u32(values, mask, m);
    true
}

/// Returns the sum of the values whose bit of `mask` from bit `m` on is true, modulo 2^32.
#[unsafe(no_mangle)]
pub extern "C" fn vb_masked_wrapping_sum_u32(values: &[u32], mask: &[u8], m: usize) -> u32
    requires { InBytes mask.now m (length values.now) }
    ensures { result ≡ wrap_unsigned w32 (sum_of pos values.now mask.now m) }
{
    wrapping_sum(values, mask, m)
}

/// Returns whether the mask has a bit for each value. If so, writes the result of
/// [`vb_masked_wrapping_sum_u32`] to `sum`; else leaves it unchanged.
#[unsafe(no_mangle)]
pub extern "C" fn vb_try_masked_wrapping_sum_u32(
    values: &[u32],
    mask: &[u8],
    m: usize,
    sum: &mut u32,
) -> bool
    ensures { DoneIf (InBytes mask.now m (length values.now))
        (sum.new ≡ wrap_unsigned w32 (sum_of pos values.now mask.now m))
        (sum.new ≡ sum.old) result }
{
    if !window_fits(mask, m, values.len()) {
        return false;
    }
    *sum = vb_masked_wrapping_sum_u32(values, mask, m);
    true
}

/// Returns the exact sum of the values whose bit of `mask` from bit `m` on is true.
#[unsafe(no_mangle)]
pub extern "C" fn vb_masked_sum_u64(values: &[u64], mask: &[u8], m: usize) -> Wide
    requires { InBytes mask.now m (length values.now) }
    ensures { unsigned_number result ≡ sum_of pos values.now mask.now m }
{
    exact_sum(values, mask, m).into()
}

/// Returns whether the mask has a bit for each value. If so, writes the result of
/// [`vb_masked_sum_u64`] to `sum`; else leaves it unchanged.
#[unsafe(no_mangle)]
pub extern "C" fn vb_try_masked_sum_u64(
    values: &[u64],
    mask: &[u8],
    m: usize,
    sum: &mut Wide,
) -> bool
    ensures { DoneIf (InBytes mask.now m (length values.now))
        (unsigned_number sum.new ≡ sum_of pos values.now mask.now m)
        (sum.new ≡ sum.old) result }
{
    if !window_fits(mask, m, values.len()) {
        return false;
    }
    *sum = vb_masked_sum_u64(values, mask, m);
    true
}

/// Returns the sum of the values whose bit of `mask` from bit `m` on is true, if it fits in `u64`.
#[unsafe(no_mangle)]
pub extern "C" fn vb_masked_checked_sum_u64(values: &[u64], mask: &[u8], m: usize) -> OptionalU64
    requires { InBytes mask.now m (length values.now) }
    ensures { IsValueOf (λ x. x < 2 ^ 64) pos (sum_of pos values.now mask.now m)
        (optional_u64 result) }
{
    checked_sum(values, mask, m).into()
}

/// Returns whether the mask has a bit for each value. If so, writes the result of
/// [`vb_masked_checked_sum_u64`] to `sum`; else leaves it unchanged.
#[unsafe(no_mangle)]
pub extern "C" fn vb_try_masked_checked_sum_u64(
    values: &[u64],
    mask: &[u8],
    m: usize,
    sum: &mut OptionalU64,
) -> bool
    ensures { DoneIf (InBytes mask.now m (length values.now))
        (IsValueOf (λ x. x < 2 ^ 64) pos (sum_of pos values.now mask.now m)
        (optional_u64 sum.new)) (sum.new ≡ sum.old) result }
{
    if !window_fits(mask, m, values.len()) {
        return false;
    }
    *sum = vb_masked_checked_sum_u64(values, mask, m);
    true
}

/// Returns the sum of the values whose bit of `mask` from bit `m` on is true, modulo 2^64.
#[unsafe(no_mangle)]
pub extern "C" fn vb_masked_wrapping_sum_u64(values: &[u64], mask: &[u8], m: usize) -> u64
    requires { InBytes mask.now m (length values.now) }
    ensures { result ≡ wrap_unsigned w64 (sum_of pos values.now mask.now m) }
{
    wrapping_sum(values, mask, m)
}

/// Returns whether the mask has a bit for each value. If so, writes the result of
/// [`vb_masked_wrapping_sum_u64`] to `sum`; else leaves it unchanged.
#[unsafe(no_mangle)]
pub extern "C" fn vb_try_masked_wrapping_sum_u64(
    values: &[u64],
    mask: &[u8],
    m: usize,
    sum: &mut u64,
) -> bool
    ensures { DoneIf (InBytes mask.now m (length values.now))
        (sum.new ≡ wrap_unsigned w64 (sum_of pos values.now mask.now m))
        (sum.new ≡ sum.old) result }
{
    if !window_fits(mask, m, values.len()) {
        return false;
    }
    *sum = vb_masked_wrapping_sum_u64(values, mask, m);
    true
}
