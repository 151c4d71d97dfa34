// Written in part by tools/write-lists from tools/families/retain.txt.
//! Values that a mask selects, moved to the front.
ghost use Rattle.std.specs.Prelude.{◌≡◌, length};
ghost use Rattle.vb_bits.specs.Bits.{bits};
ghost use Rattle.vb_bits.specs.InBytes.{InBytes};
ghost use Rattle.vb_c_core.specs.Fits.{DoneIf};
ghost use Rattle.vb_c_gather.specs.Filtered.{Filters};

use crate::wide::Wide;
use vb_bits::window_fits;
use vb_view::BitBufferView;

/// Moves the values that the mask selects to the front of `values`, in order, and returns their
/// number. A value is selected if its bit of `mask`, from bit `m` on, is true. The values after
/// these are unchanged.
#[unsafe(no_mangle)]
pub extern "C" fn vb_retain_values_u8(values: &mut [u8], mask: &[u8], m: usize) -> usize
    requires { InBytes mask.now m (length values.old) }
    ensures { Filters (bits mask.now m (length values.old)) values.old values.old values.new
        result }
{
    retain_values(values, mask, m)
}

/// Returns whether the bytes of the mask have a bit for each value. If so, does
/// [`vb_retain_values_u8`] and writes its result to `written`; else leaves `values` and `written`
/// unchanged.
#[unsafe(no_mangle)]
pub extern "C" fn vb_try_retain_values_u8(
    values: &mut [u8],
    mask: &[u8],
    m: usize,
    written: &mut usize,
) -> bool
    ensures { DoneIf (InBytes mask.now m (length values.old))
        (Filters (bits mask.now m (length values.old)) values.old values.old values.new
        written.new)
        ((values.new ≡ values.old) × (written.new ≡ written.old)) result }
{
    try_retain_values(values, mask, m, written)
}

/// Moves the values that the mask selects to the front of `values`, in order, and returns their
/// number. A value of two bytes is selected if its bit of `mask`, from bit `m` on, is true. The
/// values after these are unchanged.
#[unsafe(no_mangle)]
pub extern "C" fn vb_retain_values_u16(values: &mut [u16], mask: &[u8], m: usize) -> usize
    requires { InBytes mask.now m (length values.old) }
    ensures { Filters (bits mask.now m (length values.old)) values.old values.old values.new
        result }
{
    retain_values(values, mask, m)
}

/// Returns whether the bytes of the mask have a bit for each value. If so, does
/// [`vb_retain_values_u16`] and writes its result to `written`; else leaves `values` and `written`
/// unchanged.
#[unsafe(no_mangle)]
pub extern "C" fn vb_try_retain_values_u16(
    values: &mut [u16],
    mask: &[u8],
    m: usize,
    written: &mut usize,
) -> bool
    ensures { DoneIf (InBytes mask.now m (length values.old))
        (Filters (bits mask.now m (length values.old)) values.old values.old values.new
        written.new)
        ((values.new ≡ values.old) × (written.new ≡ written.old)) result }
{
    try_retain_values(values, mask, m, written)
}

/// Moves the values that the mask selects to the front of `values`, in order, and returns their
/// number. A value of four bytes is selected if its bit of `mask`, from bit `m` on, is true. The
/// values after these are unchanged.
#[unsafe(no_mangle)]
pub extern "C" fn vb_retain_values_u32(values: &mut [u32], mask: &[u8], m: usize) -> usize
    requires { InBytes mask.now m (length values.old) }
    ensures { Filters (bits mask.now m (length values.old)) values.old values.old values.new
        result }
{
    retain_values(values, mask, m)
}

/// Returns whether the bytes of the mask have a bit for each value. If so, does
/// [`vb_retain_values_u32`] and writes its result to `written`; else leaves `values` and `written`
/// unchanged.
#[unsafe(no_mangle)]
pub extern "C" fn vb_try_retain_values_u32(
    values: &mut [u32],
    mask: &[u8],
    m: usize,
    written: &mut usize,
) -> bool
    ensures { DoneIf (InBytes mask.now m (length values.old))
        (Filters (bits mask.now m (length values.old)) values.old values.old values.new
        written.new)
        ((values.new ≡ values.old) × (written.new ≡ written.old)) result }
{
    try_retain_values(values, mask, m, written)
}

/// Moves the values that the mask selects to the front of `values`, in order, and returns their
/// number. A value of eight bytes is selected if its bit of `mask`, from bit `m` on, is true. The
/// values after these are unchanged.
#[unsafe(no_mangle)]
pub extern "C" fn vb_retain_values_u64(values: &mut [u64], mask: &[u8], m: usize) -> usize
    requires { InBytes mask.now m (length values.old) }
    ensures { Filters (bits mask.now m (length values.old)) values.old values.old values.new
        result }
{
    retain_values(values, mask, m)
}

/// Returns whether the bytes of the mask have a bit for each value. If so, does
/// [`vb_retain_values_u64`] and writes its result to `written`; else leaves `values` and `written`
/// unchanged.
#[unsafe(no_mangle)]
pub extern "C" fn vb_try_retain_values_u64(
    values: &mut [u64],
    mask: &[u8],
    m: usize,
    written: &mut usize,
) -> bool
    ensures { DoneIf (InBytes mask.now m (length values.old))
        (Filters (bits mask.now m (length values.old)) values.old values.old values.new
        written.new)
        ((values.new ≡ values.old) × (written.new ≡ written.old)) result }
{
    try_retain_values(values, mask, m, written)
}

/// Moves the values that the mask selects to the front of `values`, in order, and returns their
/// number. A value of 16 bytes is selected if its bit of `mask`, from bit `m` on, is true. The
/// values after these are unchanged.
#[unsafe(no_mangle)]
pub extern "C" fn vb_retain_values_u128(values: &mut [Wide], mask: &[u8], m: usize) -> usize
    requires { InBytes mask.now m (length values.old) }
    ensures { Filters (bits mask.now m (length values.old)) values.old values.old values.new
        result }
{
    retain_values(values, mask, m)
}

/// Returns whether the bytes of the mask have a bit for each value. If so, does
/// [`vb_retain_values_u128`] and writes its result to `written`; else leaves `values` and `written`
/// unchanged.
#[unsafe(no_mangle)]
pub extern "C" fn vb_try_retain_values_u128(
    values: &mut [Wide],
    mask: &[u8],
    m: usize,
    written: &mut usize,
) -> bool
    ensures { DoneIf (InBytes mask.now m (length values.old))
        (Filters (bits mask.now m (length values.old)) values.old values.old values.new
        written.new)
        ((values.new ≡ values.old) × (written.new ≡ written.old)) result }
{
    try_retain_values(values, mask, m, written)
}

/// Moves the values whose bit of `mask`, from bit `m` on, is true, in order, to the front of
/// `values`, and returns their number.
fn retain_values<T: Copy>(values: &mut [T], mask: &[u8], m: usize) -> usize
    requires { InBytes mask.now m (length values.old) }
    ensures { Filters (bits mask.now m (length values.old)) values.old values.old values.new
        result }
{
    let mask = BitBufferView::new_with_offset(mask, values.len(), m);
    vb_filter::retain_values(values, mask)
}

/// Returns whether the bytes of the mask have a bit for each value. If so, does [`retain_values`]
/// and writes its result to `written`; else leaves `values` and `written` unchanged.
fn try_retain_values<T: Copy>(values: &mut [T], mask: &[u8], m: usize, written: &mut usize) -> bool
    ensures { DoneIf (InBytes mask.now m (length values.old))
        (Filters (bits mask.now m (length values.old)) values.old values.old values.new
        written.new)
        ((values.new ≡ values.old) × (written.new ≡ written.old)) result }
{
    if !window_fits(mask, m, values.len()) {
        return false;
    }
    *written = retain_values(values, mask, m);
    true
}
