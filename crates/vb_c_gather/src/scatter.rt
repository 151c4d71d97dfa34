// Written in part by tools/write-lists from tools/families/scatter.txt.
//! Values scattered by a mask.
ghost use Rattle.std.specs.Prelude.{◌≡◌, length};
ghost use Rattle.vb_bits.specs.Bits.{bits};
ghost use Rattle.vb_c_core.specs.Fits.{DoneIf, KeptFits};
ghost use Rattle.vb_c_gather.specs.Scattered.{Scatters};

use crate::wide::Wide;
use vb_bits::window_fits;
use vb_count::count_ones_wide;
use vb_expand::scatter_values_into;
use vb_view::BitBufferView;

/// Scatters the values in order over the items of `out` whose bit of `mask`, from bit `m` on, is
/// true, and returns the number of these items. There must be a value for each of them. The other
/// items of `out` are unchanged.
#[unsafe(no_mangle)]
pub extern "C" fn vb_scatter_values_u8(
    out: &mut [u8],
    values: &[u8],
    mask: &[u8],
    m: usize,
) -> usize
    requires { KeptFits mask.now m (length out.old) (length values.now) }
    ensures { Scatters (bits mask.now m (length out.old)) values.now out.old out.new result }
{
    scatter_values(out, values, mask, m)
}

/// Returns whether the bytes of the mask have a bit for each item of `out`, and there is a value
/// for each item that the mask selects. If so, does [`vb_scatter_values_u8`] and writes its result
/// to `written`; else leaves `out` and `written` unchanged.
#[unsafe(no_mangle)]
pub extern "C" fn vb_try_scatter_values_u8(
    out: &mut [u8],
    values: &[u8],
    mask: &[u8],
    m: usize,
    written: &mut usize,
) -> bool
    ensures { DoneIf (KeptFits mask.now m (length out.old) (length values.now))
        (Scatters (bits mask.now m (length out.old)) values.now out.old out.new written.new)
        ((out.new ≡ out.old) × (written.new ≡ written.old)) result }
{
    try_scatter_values(out, values, mask, m, written)
}

/// Scatters the values, of two bytes each, in order over the items of `out` whose bit of `mask`,
/// from bit `m` on, is true, and returns the number of these items. There must be a value for each
/// of them. The other items of `out` are unchanged.
#[unsafe(no_mangle)]
pub extern "C" fn vb_scatter_values_u16(
    out: &mut [u16],
    values: &[u16],
    mask: &[u8],
    m: usize,
) -> usize
    requires { KeptFits mask.now m (length out.old) (length values.now) }
    ensures { Scatters (bits mask.now m (length out.old)) values.now out.old out.new result }
{
    scatter_values(out, values, mask, m)
}

/// Returns whether the bytes of the mask have a bit for each item of `out`, and there is a value
/// for each item that the mask selects. If so, does [`vb_scatter_values_u16`] and writes its result
/// to `written`; else leaves `out` and `written` unchanged.
#[unsafe(no_mangle)]
pub extern "C" fn vb_try_scatter_values_u16(
    out: &mut [u16],
    values: &[u16],
    mask: &[u8],
    m: usize,
    written: &mut usize,
) -> bool
    ensures { DoneIf (KeptFits mask.now m (length out.old) (length values.now))
        (Scatters (bits mask.now m (length out.old)) values.now out.old out.new written.new)
        ((out.new ≡ out.old) × (written.new ≡ written.old)) result }
{
    try_scatter_values(out, values, mask, m, written)
}

/// Scatters the values, of four bytes each, in order over the items of `out` whose bit of `mask`,
/// from bit `m` on, is true, and returns the number of these items. There must be a value for each
/// of them. The other items of `out` are unchanged.
#[unsafe(no_mangle)]
pub extern "C" fn vb_scatter_values_u32(
    out: &mut [u32],
    values: &[u32],
    mask: &[u8],
    m: usize,
) -> usize
    requires { KeptFits mask.now m (length out.old) (length values.now) }
    ensures { Scatters (bits mask.now m (length out.old)) values.now out.old out.new result }
{
    scatter_values(out, values, mask, m)
}

/// Returns whether the bytes of the mask have a bit for each item of `out`, and there is a value
/// for each item that the mask selects. If so, does [`vb_scatter_values_u32`] and writes its result
/// to `written`; else leaves `out` and `written` unchanged.
#[unsafe(no_mangle)]
pub extern "C" fn vb_try_scatter_values_u32(
    out: &mut [u32],
    values: &[u32],
    mask: &[u8],
    m: usize,
    written: &mut usize,
) -> bool
    ensures { DoneIf (KeptFits mask.now m (length out.old) (length values.now))
        (Scatters (bits mask.now m (length out.old)) values.now out.old out.new written.new)
        ((out.new ≡ out.old) × (written.new ≡ written.old)) result }
{
    try_scatter_values(out, values, mask, m, written)
}

/// Scatters the values, of eight bytes each, in order over the items of `out` whose bit of `mask`,
/// from bit `m` on, is true, and returns the number of these items. There must be a value for each
/// of them. The other items of `out` are unchanged.
#[unsafe(no_mangle)]
pub extern "C" fn vb_scatter_values_u64(
    out: &mut [u64],
    values: &[u64],
    mask: &[u8],
    m: usize,
) -> usize
    requires { KeptFits mask.now m (length out.old) (length values.now) }
    ensures { Scatters (bits mask.now m (length out.old)) values.now out.old out.new result }
{
    scatter_values(out, values, mask, m)
}

/// Returns whether the bytes of the mask have a bit for each item of `out`, and there is a value
/// for each item that the mask selects. If so, does [`vb_scatter_values_u64`] and writes its result
/// to `written`; else leaves `out` and `written` unchanged.
#[unsafe(no_mangle)]
pub extern "C" fn vb_try_scatter_values_u64(
    out: &mut [u64],
    values: &[u64],
    mask: &[u8],
    m: usize,
    written: &mut usize,
) -> bool
    ensures { DoneIf (KeptFits mask.now m (length out.old) (length values.now))
        (Scatters (bits mask.now m (length out.old)) values.now out.old out.new written.new)
        ((out.new ≡ out.old) × (written.new ≡ written.old)) result }
{
    try_scatter_values(out, values, mask, m, written)
}

/// Scatters the values, of 16 bytes each, in order over the items of `out` whose bit of `mask`,
/// from bit `m` on, is true, and returns the number of these items. There must be a value for each
/// of them. The other items of `out` are unchanged.
#[unsafe(no_mangle)]
pub extern "C" fn vb_scatter_values_u128(
    out: &mut [Wide],
    values: &[Wide],
    mask: &[u8],
    m: usize,
) -> usize
    requires { KeptFits mask.now m (length out.old) (length values.now) }
    ensures { Scatters (bits mask.now m (length out.old)) values.now out.old out.new result }
{
    scatter_values(out, values, mask, m)
}

/// Returns whether the bytes of the mask have a bit for each item of `out`, and there is a value
/// for each item that the mask selects. If so, does [`vb_scatter_values_u128`] and writes its
/// result to `written`; else leaves `out` and `written` unchanged.
#[unsafe(no_mangle)]
pub extern "C" fn vb_try_scatter_values_u128(
    out: &mut [Wide],
    values: &[Wide],
    mask: &[u8],
    m: usize,
    written: &mut usize,
) -> bool
    ensures { DoneIf (KeptFits mask.now m (length out.old) (length values.now))
        (Scatters (bits mask.now m (length out.old)) values.now out.old out.new written.new)
        ((out.new ≡ out.old) × (written.new ≡ written.old)) result }
{
    try_scatter_values(out, values, mask, m, written)
}

/// Writes the values over the items of `out` whose bit of `mask`, from bit `m` on, is true. Returns
/// their number.
fn scatter_values<T: Copy>(out: &mut [T], values: &[T], mask: &[u8], m: usize) -> usize
    requires { KeptFits mask.now m (length out.old) (length values.now) }
    ensures { Scatters (bits mask.now m (length out.old)) values.now out.old out.new result }
{
    let mask = BitBufferView::new_with_offset(mask, out.len(), m);
    scatter_values_into(out, values, mask)
}

/// Returns whether the bytes of the mask have a bit for each item of `out`, and there is a value
/// for each item that the mask selects. If so, does [`scatter_values`] and writes its result to
/// `written`; else leaves `out` and `written` unchanged.
fn try_scatter_values<T: Copy>(
    out: &mut [T],
    values: &[T],
    mask: &[u8],
    m: usize,
    written: &mut usize,
) -> bool
    ensures { DoneIf (KeptFits mask.now m (length out.old) (length values.now))
        (Scatters (bits mask.now m (length out.old)) values.now out.old out.new written.new)
        ((out.new ≡ out.old) × (written.new ≡ written.old)) result }
{
    if !window_fits(mask, m, out.len()) || values.len() < count_ones_wide(mask, m, out.len()) {
        return false;
    }
    *written = scatter_values(out, values, mask, m);
    true
}
