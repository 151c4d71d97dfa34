// Written by tools/write-lists from tools/families/masked_extremes.txt.
//! The least and the greatest of signed values.
ghost use Rattle.std.specs.Prelude.{◌≡◌, length};
ghost use Rattle.vb_bits.specs.InBytes.{InBytes};
ghost use Rattle.vb_c_aggregate.specs.Optional.{optional_i8, optional_i16};
ghost use Rattle.vb_c_aggregate.specs.Optional.{optional_i32, optional_i64};
ghost use Rattle.vb_c_aggregate.specs.Selected.{LeastOf, GreatestOf};
ghost use Rattle.vb_c_core.specs.Fits.{DoneIf};

use crate::optional::{OptionalI8, OptionalI16, OptionalI32, OptionalI64};
use crate::selected::{greatest, least};
use vb_bits::window_fits;

/// Returns the least of the values whose bit of `mask` from bit `m` on is true, if there is one.
#[unsafe(no_mangle)]
pub extern "C" fn vb_masked_min_i8(values: &[i8], mask: &[u8], m: usize) -> OptionalI8
    requires { InBytes mask.now m (length values.now) }
    ensures { LeastOf (λ x. x) values.now mask.now m (optional_i8 result) }
{
    least(values, mask, m).into()
}

/// Returns whether the mask has a bit for each value. If so, writes the result of
/// [`vb_masked_min_i8`] to `least`; else leaves it unchanged.
#[unsafe(no_mangle)]
pub extern "C" fn vb_try_masked_min_i8(
    values: &[i8],
    mask: &[u8],
    m: usize,
    least: &mut OptionalI8,
) -> bool
    ensures { DoneIf (InBytes mask.now m (length values.now))
        (LeastOf (λ x. x) values.now mask.now m (optional_i8 least.new))
        (least.new ≡ least.old) result }
{
    if !window_fits(mask, m, values.len()) {
        return false;
    }
    *least = vb_masked_min_i8(values, mask, m);
    true
}

/// Returns the greatest of the values whose bit of `mask` from bit `m` on is true, if there is one.
#[unsafe(no_mangle)]
pub extern "C" fn vb_masked_max_i8(values: &[i8], mask: &[u8], m: usize) -> OptionalI8
    requires { InBytes mask.now m (length values.now) }
    ensures { GreatestOf (λ x. x) values.now mask.now m (optional_i8 result) }
{
    greatest(values, mask, m).into()
}

/// Returns whether the mask has a bit for each value. If so, writes the result of
/// [`vb_masked_max_i8`] to `greatest`; else leaves it unchanged.
#[unsafe(no_mangle)]
pub extern "C" fn vb_try_masked_max_i8(
    values: &[i8],
    mask: &[u8],
    m: usize,
    greatest: &mut OptionalI8,
) -> bool
    ensures { DoneIf (InBytes mask.now m (length values.now))
        (GreatestOf (λ x. x) values.now mask.now m (optional_i8 greatest.new))
        (greatest.new ≡ greatest.old) result }
{
    if !window_fits(mask, m, values.len()) {
        return false;
    }
    *greatest = vb_masked_max_i8(values, mask, m);
    true
}

/// Returns the least of the values whose bit of `mask` from bit `m` on is true, if there is one.
#[unsafe(no_mangle)]
pub extern "C" fn vb_masked_min_i16(values: &[i16], mask: &[u8], m: usize) -> OptionalI16
    requires { InBytes mask.now m (length values.now) }
    ensures { LeastOf (λ x. x) values.now mask.now m (optional_i16 result) }
{
    least(values, mask, m).into()
}

/// Returns whether the mask has a bit for each value. If so, writes the result of
/// [`vb_masked_min_i16`] to `least`; else leaves it unchanged.
#[unsafe(no_mangle)]
pub extern "C" fn vb_try_masked_min_i16(
    values: &[i16],
    mask: &[u8],
    m: usize,
    least: &mut OptionalI16,
) -> bool
    ensures { DoneIf (InBytes mask.now m (length values.now))
        (LeastOf (λ x. x) values.now mask.now m (optional_i16 least.new))
        (least.new ≡ least.old) result }
{
    if !window_fits(mask, m, values.len()) {
        return false;
    }
    *least = vb_masked_min_i16(values, mask, m);
    true
}

/// Returns the greatest of the values whose bit of `mask` from bit `m` on is true, if there is one.
#[unsafe(no_mangle)]
pub extern "C" fn vb_masked_max_i16(values: &[i16], mask: &[u8], m: usize) -> OptionalI16
    requires { InBytes mask.now m (length values.now) }
    ensures { GreatestOf (λ x. x) values.now mask.now m (optional_i16 result) }
{
    greatest(values, mask, m).into()
}

/// Returns whether the mask has a bit for each value. If so, writes the result of
/// [`vb_masked_max_i16`] to `greatest`; else leaves it unchanged.
#[unsafe(no_mangle)]
pub extern "C" fn vb_try_masked_max_i16(
    values: &[i16],
    mask: &[u8],
    m: usize,
    greatest: &mut OptionalI16,
) -> bool
    ensures { DoneIf (InBytes mask.now m (length values.now))
        (GreatestOf (λ x. x) values.now mask.now m (optional_i16 greatest.new))
        (greatest.new ≡ greatest.old) result }
{
    if !window_fits(mask, m, values.len()) {
        return false;
    }
    *greatest = vb_masked_max_i16(values, mask, m);
    true
}

/// Returns the least of the values whose bit of `mask` from bit `m` on is true, if there is one.
#[unsafe(no_mangle)]
pub extern "C" fn vb_masked_min_i32(values: &[i32], mask: &[u8], m: usize) -> OptionalI32
    requires { InBytes mask.now m (length values.now) }
    ensures { LeastOf (λ x. x) values.now mask.now m (optional_i32 result) }
{
    least(values, mask, m).into()
}

/// Returns whether the mask has a bit for each value. If so, writes the result of
/// [`vb_masked_min_i32`] to `least`; else leaves it unchanged.
#[unsafe(no_mangle)]
pub extern "C" fn vb_try_masked_min_i32(
    values: &[i32],
    mask: &[u8],
    m: usize,
    least: &mut OptionalI32,
) -> bool
    ensures { DoneIf (InBytes mask.now m (length values.now))
        (LeastOf (λ x. x) values.now mask.now m (optional_i32 least.new))
        (least.new ≡ least.old) result }
{
    if !window_fits(mask, m, values.len()) {
        return false;
    }
    *least = vb_masked_min_i32(values, mask, m);
    true
}

/// Returns the greatest of the values whose bit of `mask` from bit `m` on is true, if there is one.
#[unsafe(no_mangle)]
pub extern "C" fn vb_masked_max_i32(values: &[i32], mask: &[u8], m: usize) -> OptionalI32
    requires { InBytes mask.now m (length values.now) }
    ensures { GreatestOf (λ x. x) values.now mask.now m (optional_i32 result) }
{
    greatest(values, mask, m).into()
}

/// Returns whether the mask has a bit for each value. If so, writes the result of
/// [`vb_masked_max_i32`] to `greatest`; else leaves it unchanged.
#[unsafe(no_mangle)]
pub extern "C" fn vb_try_masked_max_i32(
    values: &[i32],
    mask: &[u8],
    m: usize,
    greatest: &mut OptionalI32,
) -> bool
    ensures { DoneIf (InBytes mask.now m (length values.now))
        (GreatestOf (λ x. x) values.now mask.now m (optional_i32 greatest.new))
        (greatest.new ≡ greatest.old) result }
{
    if !window_fits(mask, m, values.len()) {
        return false;
    }
    *greatest = vb_masked_max_i32(values, mask, m);
    true
}

/// Returns the least of the values whose bit of `mask` from bit `m` on is true, if there is one.
#[unsafe(no_mangle)]
pub extern "C" fn vb_masked_min_i64(values: &[i64], mask: &[u8], m: usize) -> OptionalI64
    requires { InBytes mask.now m (length values.now) }
    ensures { LeastOf (λ x. x) values.now mask.now m (optional_i64 result) }
{
    least(values, mask, m).into()
}

/// Returns whether the mask has a bit for each value. If so, writes the result of
/// [`vb_masked_min_i64`] to `least`; else leaves it unchanged.
#[unsafe(no_mangle)]
pub extern "C" fn vb_try_masked_min_i64(
    values: &[i64],
    mask: &[u8],
    m: usize,
    least: &mut OptionalI64,
) -> bool
    ensures { DoneIf (InBytes mask.now m (length values.now))
        (LeastOf (λ x. x) values.now mask.now m (optional_i64 least.new))
        (least.new ≡ least.old) result }
{
    if !window_fits(mask, m, values.len()) {
        return false;
    }
    *least = vb_masked_min_i64(values, mask, m);
    true
}

/// Returns the greatest of the values whose bit of `mask` from bit `m` on is true, if there is one.
#[unsafe(no_mangle)]
pub extern "C" fn vb_masked_max_i64(values: &[i64], mask: &[u8], m: usize) -> OptionalI64
    requires { InBytes mask.now m (length values.now) }
    ensures { GreatestOf (λ x. x) values.now mask.now m (optional_i64 result) }
{
    greatest(values, mask, m).into()
}

/// Returns whether the mask has a bit for each value. If so, writes the result of
/// [`vb_masked_max_i64`] to `greatest`; else leaves it unchanged.
#[unsafe(no_mangle)]
pub extern "C" fn vb_try_masked_max_i64(
    values: &[i64],
    mask: &[u8],
    m: usize,
    greatest: &mut OptionalI64,
) -> bool
    ensures { DoneIf (InBytes mask.now m (length values.now))
        (GreatestOf (λ x. x) values.now mask.now m (optional_i64 greatest.new))
        (greatest.new ≡ greatest.old) result }
{
    if !window_fits(mask, m, values.len()) {
        return false;
    }
    *greatest = vb_masked_max_i64(values, mask, m);
    true
}
