//! Bits filled, negated and copied.
ghost use Rattle.std.specs.Prelude.{◌≡◌, replicate};
ghost use Rattle.vb_bits.specs.Bits.{bits, complement};
ghost use Rattle.vb_bits.specs.InBytes.{InBytes};
ghost use Rattle.vb_bits.specs.Writes.{Writes};
ghost use Rattle.vb_c_core.specs.Fits.{DoneIf};
ghost use Rattle.vb_c.specs.Windows.{BothInBytes};

use vb_c_core::{copy_to_window, move_to_window};

/// Sets each of the `len` bits from bit `offset` on to `v`. Every other bit is unchanged.
#[unsafe(no_mangle)]
pub extern "C" fn vb_fill_bits(bytes: &mut [u8], offset: usize, len: usize, v: bool)
    requires window { InBytes bytes.old offset len }
    ensures { Writes bytes.old bytes.new offset (replicate len v) }
{
    if len > 0 {
        let window = &mut bytes[offset / 8..(offset + len).div_ceil(8)];
        vb_bits::fill_bits(window, offset % 8, offset % 8 + len, v);
    }
}

/// Returns whether the window is in the bytes. If so, does [`vb_fill_bits`]; else leaves the bytes
/// unchanged.
#[unsafe(no_mangle)]
pub extern "C" fn vb_try_fill_bits(bytes: &mut [u8], offset: usize, len: usize, v: bool) -> bool
    ensures { DoneIf (InBytes bytes.old offset len)
        (Writes bytes.old bytes.new offset (replicate len v))
        (bytes.new ≡ bytes.old) result }
{
    if !vb_bits::window_fits(bytes, offset, len) {
        return false;
    }
    vb_fill_bits(bytes, offset, len, v);
    true
}

/// Negates each of the `len` bits from bit `offset` on. Every other bit is unchanged.
#[unsafe(no_mangle)]
pub extern "C" fn vb_negate_bits(bytes: &mut [u8], offset: usize, len: usize)
    requires window { InBytes bytes.old offset len }
    ensures { Writes bytes.old bytes.new offset (complement (bits bytes.old offset len)) }
{
    let end = (offset + len).div_ceil(8);
    vb_bits::map_words(&mut bytes[offset / 8..end], offset % 8, len);
}

/// Returns whether the window is in the bytes. If so, does [`vb_negate_bits`]; else leaves the
/// bytes unchanged.
#[unsafe(no_mangle)]
pub extern "C" fn vb_try_negate_bits(bytes: &mut [u8], offset: usize, len: usize) -> bool
    ensures { DoneIf (InBytes bytes.old offset len)
        (Writes bytes.old bytes.new offset (complement (bits bytes.old offset len)))
        (bytes.new ≡ bytes.old) result }
{
    if !vb_bits::window_fits(bytes, offset, len) {
        return false;
    }
    vb_negate_bits(bytes, offset, len);
    true
}

/// Copies the `len` bits of `src` from bit `s` on to the bits of `dst` from bit `d` on. Every other
/// bit of `dst` is unchanged. The bytes of `dst` and `src` must not overlap; [`vb_move_bits`]
/// copies within the same bytes.
#[unsafe(no_mangle)]
pub extern "C" fn vb_copy_bits(dst: &mut [u8], d: usize, src: &[u8], s: usize, len: usize)
    requires { BothInBytes dst.old d src.now s len }
    ensures { Writes dst.old dst.new d (bits src.now s len) }
{
    copy_to_window(dst, d, src, s, len);
}

/// Returns whether both windows are in their bytes. If so, does [`vb_copy_bits`]; else leaves `dst`
/// unchanged.
#[unsafe(no_mangle)]
pub extern "C" fn vb_try_copy_bits(
    dst: &mut [u8],
    d: usize,
    src: &[u8],
    s: usize,
    len: usize,
) -> bool
    ensures { DoneIf (BothInBytes dst.old d src.now s len)
        (Writes dst.old dst.new d (bits src.now s len)) (dst.new ≡ dst.old) result }
{
    if !vb_bits::window_fits(dst, d, len) || !vb_bits::window_fits(src, s, len) {
        return false;
    }
    vb_copy_bits(dst, d, src, s, len);
    true
}

/// Copies the `len` bits from bit `from` on to the bits from bit `offset` on of the same bytes, as
/// if all were read first. Every other bit is unchanged.
#[unsafe(no_mangle)]
pub extern "C" fn vb_move_bits(bytes: &mut [u8], offset: usize, from: usize, len: usize)
    requires { BothInBytes bytes.old offset bytes.old from len }
    ensures { Writes bytes.old bytes.new offset (bits bytes.old from len) }
{
    move_to_window(bytes, offset, from, len);
}

/// Returns whether both windows are in the bytes. If so, does [`vb_move_bits`]; else leaves the
/// bytes unchanged.
#[unsafe(no_mangle)]
pub extern "C" fn vb_try_move_bits(bytes: &mut [u8], offset: usize, from: usize, len: usize) -> bool
    ensures { DoneIf (BothInBytes bytes.old offset bytes.old from len)
        (Writes bytes.old bytes.new offset (bits bytes.old from len))
        (bytes.new ≡ bytes.old) result }
{
    if !vb_bits::window_fits(bytes, offset, len) || !vb_bits::window_fits(bytes, from, len) {
        return false;
    }
    vb_move_bits(bytes, offset, from, len);
    true
}
