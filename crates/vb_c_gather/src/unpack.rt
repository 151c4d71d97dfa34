//! Bits unpacked to bytes.
ghost use Rattle.std.specs.Int.{from_bool};
ghost use Rattle.std.specs.Prelude.{◌≡◌, ◌≤◌, ◌++◌, drop, length, map};
ghost use Rattle.vb_bits.specs.Bits.{bits};
ghost use Rattle.vb_bits.specs.InBytes.{InBytes};
ghost use Rattle.vb_c_core.specs.Fits.{DoneIf};

use vb_bits::window_fits;

/// Writes each of the `len` bits of `bytes` from bit `offset` on as a byte, 1 if it is set and 0
/// else, to the front of `out`, which must have an item for each. The bytes of `out` after them are
/// unchanged.
#[unsafe(no_mangle)]
pub extern "C" fn vb_unpack_bytes(out: &mut [u8], bytes: &[u8], offset: usize, len: usize)
    requires room { len ≤ length out.old }
    requires window { InBytes bytes.now offset len }
    ensures { out.new ≡ map from_bool (bits bytes.now offset len) ++ drop len out.old }
{
    vb_expand::unpack_bytes(out, bytes, offset, len);
}

/// Returns whether the window is in the bytes, and `out` has a byte for each of its bits. If so,
/// does [`vb_unpack_bytes`]; else leaves `out` unchanged.
#[unsafe(no_mangle)]
pub extern "C" fn vb_try_unpack_bytes(
    out: &mut [u8],
    bytes: &[u8],
    offset: usize,
    len: usize,
) -> bool
    ensures { DoneIf ((len ≤ length out.old) × InBytes bytes.now offset len)
        (out.new ≡ map from_bool (bits bytes.now offset len) ++ drop len out.old)
        (out.new ≡ out.old) result }
{
    if out.len() < len || !window_fits(bytes, offset, len) {
        return false;
    }
    vb_unpack_bytes(out, bytes, offset, len);
    true
}
