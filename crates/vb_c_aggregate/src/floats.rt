// Written by tools/write-lists from tools/families/masked_floats.txt.
//! The sum, the least and the greatest of floats.
ghost use Rattle.std.specs.Float.{binary32, binary64};
ghost use Rattle.std.specs.Prelude.{◌≡◌, length};
ghost use Rattle.vb_aggregate.specs.Floats.{upwards, downwards};
ghost use Rattle.vb_bits.specs.InBytes.{InBytes};
ghost use Rattle.vb_c_aggregate.specs.Optional.{optional_f32, optional_f64};
ghost use Rattle.vb_c_aggregate.specs.Selected.{float_sum_of, FirstOf};
ghost use Rattle.vb_c_core.specs.Fits.{DoneIf};

use crate::optional::{OptionalF32, OptionalF64};
use crate::selected::{float_sum, greatest_number, least_number};
use vb_bits::window_fits;

/// Returns the sum of the floats whose bit of `mask` from bit `m` on is true. Starts from 0.0, adds
/// one float after the other, and rounds each sum.
#[unsafe(no_mangle)]
pub extern "C" fn vb_masked_sum_f32(values: &[f32], mask: &[u8], m: usize) -> f32
    requires { InBytes mask.now m (length values.now) }
    ensures { result ≡ float_sum_of binary32 (λ x. x) values.now mask.now m }
{
    float_sum(values, mask, m)
}

/// Returns whether the mask has a bit for each value. If so, writes the result of
/// [`vb_masked_sum_f32`] to `sum`; else leaves it unchanged.
#[unsafe(no_mangle)]
pub extern "C" fn vb_try_masked_sum_f32(
    values: &[f32],
    mask: &[u8],
    m: usize,
    sum: &mut f32,
) -> bool
    ensures { DoneIf (InBytes mask.now m (length values.now))
        (sum.new ≡ float_sum_of binary32 (λ x. x) values.now mask.now m)
        (sum.new ≡ sum.old) result }
{
    if !window_fits(mask, m, values.len()) {
        return false;
    }
    *sum = vb_masked_sum_f32(values, mask, m);
    true
}

/// Returns the least number among the floats whose bit of `mask` from bit `m` on is true, if there
/// is one. Skips NaNs; -0.0 is less than 0.0.
#[unsafe(no_mangle)]
pub extern "C" fn vb_masked_min_f32(values: &[f32], mask: &[u8], m: usize) -> OptionalF32
    requires { InBytes mask.now m (length values.now) }
    ensures { FirstOf upwards (λ x. x) values.now mask.now m (optional_f32 result) }
{
    least_number(values, mask, m).into()
}

/// Returns whether the mask has a bit for each value. If so, writes the result of
/// [`vb_masked_min_f32`] to `least`; else leaves it unchanged.
#[unsafe(no_mangle)]
pub extern "C" fn vb_try_masked_min_f32(
    values: &[f32],
    mask: &[u8],
    m: usize,
    least: &mut OptionalF32,
) -> bool
    ensures { DoneIf (InBytes mask.now m (length values.now))
        (FirstOf upwards (λ x. x) values.now mask.now m (optional_f32 least.new))
        (least.new ≡ least.old) result }
{
    if !window_fits(mask, m, values.len()) {
        return false;
    }
    *least = vb_masked_min_f32(values, mask, m);
    true
}

/// Returns the greatest number among the floats whose bit of `mask` from bit `m` on is true, if
/// there is one. Skips NaNs; -0.0 is less than 0.0.
#[unsafe(no_mangle)]
pub extern "C" fn vb_masked_max_f32(values: &[f32], mask: &[u8], m: usize) -> OptionalF32
    requires { InBytes mask.now m (length values.now) }
    ensures { FirstOf downwards (λ x. x) values.now mask.now m (optional_f32 result) }
{
    greatest_number(values, mask, m).into()
}

/// Returns whether the mask has a bit for each value. If so, writes the result of
/// [`vb_masked_max_f32`] to `greatest`; else leaves it unchanged.
#[unsafe(no_mangle)]
pub extern "C" fn vb_try_masked_max_f32(
    values: &[f32],
    mask: &[u8],
    m: usize,
    greatest: &mut OptionalF32,
) -> bool
    ensures { DoneIf (InBytes mask.now m (length values.now))
        (FirstOf downwards (λ x. x) values.now mask.now m (optional_f32 greatest.new))
        (greatest.new ≡ greatest.old) result }
{
    if !window_fits(mask, m, values.len()) {
        return false;
    }
    *greatest = vb_masked_max_f32(values, mask, m);
    true
}

/// Returns the sum of the floats whose bit of `mask` from bit `m` on is true. Starts from 0.0, adds
/// one float after the other, and rounds each sum.
#[unsafe(no_mangle)]
pub extern "C" fn vb_masked_sum_f64(values: &[f64], mask: &[u8], m: usize) -> f64
    requires { InBytes mask.now m (length values.now) }
    ensures { result ≡ float_sum_of binary64 (λ x. x) values.now mask.now m }
{
    float_sum(values, mask, m)
}

/// Returns whether the mask has a bit for each value. If so, writes the result of
/// [`vb_masked_sum_f64`] to `sum`; else leaves it unchanged.
#[unsafe(no_mangle)]
pub extern "C" fn vb_try_masked_sum_f64(
    values: &[f64],
    mask: &[u8],
    m: usize,
    sum: &mut f64,
) -> bool
    ensures { DoneIf (InBytes mask.now m (length values.now))
        (sum.new ≡ float_sum_of binary64 (λ x. x) values.now mask.now m)
        (sum.new ≡ sum.old) result }
{
    if !window_fits(mask, m, values.len()) {
        return false;
    }
    *sum = vb_masked_sum_f64(values, mask, m);
    true
}

/// Returns the least number among the floats whose bit of `mask` from bit `m` on is true, if there
/// is one. Skips NaNs; -0.0 is less than 0.0.
#[unsafe(no_mangle)]
pub extern "C" fn vb_masked_min_f64(values: &[f64], mask: &[u8], m: usize) -> OptionalF64
    requires { InBytes mask.now m (length values.now) }
    ensures { FirstOf upwards (λ x. x) values.now mask.now m (optional_f64 result) }
{
    least_number(values, mask, m).into()
}

/// Returns whether the mask has a bit for each value. If so, writes the result of
/// [`vb_masked_min_f64`] to `least`; else leaves it unchanged.
#[unsafe(no_mangle)]
pub extern "C" fn vb_try_masked_min_f64(
    values: &[f64],
    mask: &[u8],
    m: usize,
    least: &mut OptionalF64,
) -> bool
    ensures { DoneIf (InBytes mask.now m (length values.now))
        (FirstOf upwards (λ x. x) values.now mask.now m (optional_f64 least.new))
        (least.new ≡ least.old) result }
{
    if !window_fits(mask, m, values.len()) {
        return false;
    }
    *least = vb_masked_min_f64(values, mask, m);
    true
}

/// Returns the greatest number among the floats whose bit of `mask` from bit `m` on is true, if
/// there is one. Skips NaNs; -0.0 is less than 0.0.
#[unsafe(no_mangle)]
pub extern "C" fn vb_masked_max_f64(values: &[f64], mask: &[u8], m: usize) -> OptionalF64
    requires { InBytes mask.now m (length values.now) }
    ensures { FirstOf downwards (λ x. x) values.now mask.now m (optional_f64 result) }
{
    greatest_number(values, mask, m).into()
}

/// Returns whether the mask has a bit for each value. If so, writes the result of
/// [`vb_masked_max_f64`] to `greatest`; else leaves it unchanged.
#[unsafe(no_mangle)]
pub extern "C" fn vb_try_masked_max_f64(
    values: &[f64],
    mask: &[u8],
    m: usize,
    greatest: &mut OptionalF64,
) -> bool
    ensures { DoneIf (InBytes mask.now m (length values.now))
        (FirstOf downwards (λ x. x) values.now mask.now m (optional_f64 greatest.new))
        (greatest.new ≡ greatest.old) result }
{
    if !window_fits(mask, m, values.len()) {
        return false;
    }
    *greatest = vb_masked_max_f64(values, mask, m);
    true
}
