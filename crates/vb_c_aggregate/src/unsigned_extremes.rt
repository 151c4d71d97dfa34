// Written by tools/write-lists from tools/families/masked_extremes.txt.
//! The least and the greatest of unsigned values.
ghost use Rattle.std.specs.Prelude.{◌≡◌, length, pos};
ghost use Rattle.vb_bits.specs.InBytes.{InBytes};
ghost use Rattle.vb_c_aggregate.specs.Optional.{optional_u8, optional_u16};
ghost use Rattle.vb_c_aggregate.specs.Optional.{optional_u32, optional_u64};
ghost use Rattle.vb_c_aggregate.specs.Selected.{LeastOf, GreatestOf};
ghost use Rattle.vb_c_core.specs.Fits.{DoneIf};

use crate::optional::{OptionalU8, OptionalU16, OptionalU32, OptionalU64};
use crate::selected::{greatest, least};
use vb_bits::window_fits;

/// Returns the least of the values whose bit of `mask` from bit `m` on is true, if there is one.
#[unsafe(no_mangle)]
pub extern "C" fn vb_masked_min_u8(values: &[u8], mask: &[u8], m: usize) -> OptionalU8
    requires { InBytes mask.now m (length values.now) }
    ensures { LeastOf pos values.now mask.now m (optional_u8 result) }
{
    least(values, mask, m).into()
}

/// Returns whether the mask has a bit for each value. If so, writes the result of
/// [`vb_masked_min_u8`] to `least`; else leaves it unchanged.
#[unsafe(no_mangle)]
pub extern "C" fn vb_try_masked_min_u8(
    values: &[u8],
    mask: &[u8],
    m: usize,
    least: &mut OptionalU8,
) -> bool
    ensures { DoneIf (InBytes mask.now m (length values.now))
        (LeastOf pos values.now mask.now m (optional_u8 least.new))
        (least.new ≡ least.old) result }
{
    if !window_fits(mask, m, values.len()) {
        return false;
    }
    *least = vb_masked_min_u8(values, mask, m);
    true
}

/// Returns the greatest of the values whose bit of `mask` from bit `m` on is true, if there is one.
#[unsafe(no_mangle)]
pub extern "C" fn vb_masked_max_u8(values: &[u8], mask: &[u8], m: usize) -> OptionalU8
    requires { InBytes mask.now m (length values.now) }
    ensures { GreatestOf pos values.now mask.now m (optional_u8 result) }
{
    greatest(values, mask, m).into()
}

/// Returns whether the mask has a bit for each value. If so, writes the result of
/// [`vb_masked_max_u8`] to `greatest`; else leaves it unchanged.
#[unsafe(no_mangle)]
pub extern "C" fn vb_try_masked_max_u8(
    values: &[u8],
    mask: &[u8],
    m: usize,
    greatest: &mut OptionalU8,
) -> bool
    ensures { DoneIf (InBytes mask.now m (length values.now))
        (GreatestOf pos values.now mask.now m (optional_u8 greatest.new))
        (greatest.new ≡ greatest.old) result }
{
    if !window_fits(mask, m, values.len()) {
        return false;
    }
    *greatest = vb_masked_max_u8(values, mask, m);
    true
}

/// Returns the least of the values whose bit of `mask` from bit `m` on is true, if there is one.
#[unsafe(no_mangle)]
pub extern "C" fn vb_masked_min_u16(values: &[u16], mask: &[u8], m: usize) -> OptionalU16
    requires { InBytes mask.now m (length values.now) }
    ensures { LeastOf pos values.now mask.now m (optional_u16 result) }
{
    least(values, mask, m).into()
}

/// Returns whether the mask has a bit for each value. If so, writes the result of
/// [`vb_masked_min_u16`] to `least`; else leaves it unchanged.
#[unsafe(no_mangle)]
pub extern "C" fn vb_try_masked_min_u16(
    values: &[u16],
    mask: &[u8],
    m: usize,
    least: &mut OptionalU16,
) -> bool
    ensures { DoneIf (InBytes mask.now m (length values.now))
        (LeastOf pos values.now mask.now m (optional_u16 least.new))
        (least.new ≡ least.old) result }
{
    if !window_fits(mask, m, values.len()) {
        return false;
    }
    *least = vb_masked_min_u16(values, mask, m);
    true
}

/// Returns the greatest of the values whose bit of `mask` from bit `m` on is true, if there is one.
#[unsafe(no_mangle)]
pub extern "C" fn vb_masked_max_u16(values: &[u16], mask: &[u8], m: usize) -> OptionalU16
    requires { InBytes mask.now m (length values.now) }
    ensures { GreatestOf pos values.now mask.now m (optional_u16 result) }
{
    greatest(values, mask, m).into()
}

/// Returns whether the mask has a bit for each value. If so, writes the result of
/// [`vb_masked_max_u16`] to `greatest`; else leaves it unchanged.
#[unsafe(no_mangle)]
pub extern "C" fn vb_try_masked_max_u16(
    values: &[u16],
    mask: &[u8],
    m: usize,
    greatest: &mut OptionalU16,
) -> bool
    ensures { DoneIf (InBytes mask.now m (length values.now))
        (GreatestOf pos values.now mask.now m (optional_u16 greatest.new))
        (greatest.new ≡ greatest.old) result }
{
    if !window_fits(mask, m, values.len()) {
        return false;
    }
    *greatest = vb_masked_max_u16(values, mask, m);
    true
}

/// Returns the least of the values whose bit of `mask` from bit `m` on is true, if there is one.
#[unsafe(no_mangle)]
pub extern "C" fn vb_masked_min_u32(values: &[u32], mask: &[u8], m: usize) -> OptionalU32
    requires { InBytes mask.now m (length values.now) }
    ensures { LeastOf pos values.now mask.now m (optional_u32 result) }
{
    least(values, mask, m).into()
}

/// Returns whether the mask has a bit for each value. If so, writes the result of
/// [`vb_masked_min_u32`] to `least`; else leaves it unchanged.
#[unsafe(no_mangle)]
pub extern "C" fn vb_try_masked_min_u32(
    values: &[u32],
    mask: &[u8],
    m: usize,
    least: &mut OptionalU32,
) -> bool
    ensures { DoneIf (InBytes mask.now m (length values.now))
        (LeastOf pos values.now mask.now m (optional_u32 least.new))
        (least.new ≡ least.old) result }
{
    if !window_fits(mask, m, values.len()) {
        return false;
    }
    *least = vb_masked_min_u32(values, mask, m);
    true
}

/// Returns the greatest of the values whose bit of `mask` from bit `m` on is true, if there is one.
#[unsafe(no_mangle)]
pub extern "C" fn vb_masked_max_u32(values: &[u32], mask: &[u8], m: usize) -> OptionalU32
    requires { InBytes mask.now m (length values.now) }
    ensures { GreatestOf pos values.now mask.now m (optional_u32 result) }
{
    greatest(values, mask, m).into()
}

/// Returns whether the mask has a bit for each value. If so, writes the result of
/// [`vb_masked_max_u32`] to `greatest`; else leaves it unchanged.
#[unsafe(no_mangle)]
pub extern "C" fn vb_try_masked_max_u32(
    values: &[u32],
    mask: &[u8],
    m: usize,
    greatest: &mut OptionalU32,
) -> bool
    ensures { DoneIf (InBytes mask.now m (length values.now))
        (GreatestOf pos values.now mask.now m (optional_u32 greatest.new))
        (greatest.new ≡ greatest.old) result }
{
    if !window_fits(mask, m, values.len()) {
        return false;
    }
    *greatest = vb_masked_max_u32(values, mask, m);
    true
}

/// Returns the least of the values whose bit of `mask` from bit `m` on is true, if there is one.
#[unsafe(no_mangle)]
pub extern "C" fn vb_masked_min_u64(values: &[u64], mask: &[u8], m: usize) -> OptionalU64
    requires { InBytes mask.now m (length values.now) }
    ensures { LeastOf pos values.now mask.now m (optional_u64 result) }
{
    least(values, mask, m).into()
}

/// Returns whether the mask has a bit for each value. If so, writes the result of
/// [`vb_masked_min_u64`] to `least`; else leaves it unchanged.
#[unsafe(no_mangle)]
pub extern "C" fn vb_try_masked_min_u64(
    values: &[u64],
    mask: &[u8],
    m: usize,
    least: &mut OptionalU64,
) -> bool
    ensures { DoneIf (InBytes mask.now m (length values.now))
        (LeastOf pos values.now mask.now m (optional_u64 least.new))
        (least.new ≡ least.old) result }
{
    if !window_fits(mask, m, values.len()) {
        return false;
    }
    *least = vb_masked_min_u64(values, mask, m);
    true
}

/// Returns the greatest of the values whose bit of `mask` from bit `m` on is true, if there is one.
#[unsafe(no_mangle)]
pub extern "C" fn vb_masked_max_u64(values: &[u64], mask: &[u8], m: usize) -> OptionalU64
    requires { InBytes mask.now m (length values.now) }
    ensures { GreatestOf pos values.now mask.now m (optional_u64 result) }
{
    greatest(values, mask, m).into()
}

/// Returns whether the mask has a bit for each value. If so, writes the result of
/// [`vb_masked_max_u64`] to `greatest`; else leaves it unchanged.
#[unsafe(no_mangle)]
pub extern "C" fn vb_try_masked_max_u64(
    values: &[u64],
    mask: &[u8],
    m: usize,
    greatest: &mut OptionalU64,
) -> bool
    ensures { DoneIf (InBytes mask.now m (length values.now))
        (GreatestOf pos values.now mask.now m (optional_u64 greatest.new))
        (greatest.new ≡ greatest.old) result }
{
    if !window_fits(mask, m, values.len()) {
        return false;
    }
    *greatest = vb_masked_max_u64(values, mask, m);
    true
}
