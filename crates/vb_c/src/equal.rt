//! Equality of windows.
ghost use Rattle.std.specs.Prelude.{◌≡◌, ◌↔◌, IsTrue};
ghost use Rattle.vb_bits.specs.Bits.{bits};
ghost use Rattle.vb_c_core.specs.Fits.{DoneIf};
ghost use Rattle.vb_c.specs.Windows.{BothInBytes};

/// Returns whether the `len` bits of `left` from bit `l` on equal those of `right` from bit `r` on.
/// Reads no block of 512 bytes after the one with the first difference.
#[unsafe(no_mangle)]
pub extern "C" fn vb_equal_bits(left: &[u8], l: usize, right: &[u8], r: usize, len: usize) -> bool
    requires { BothInBytes left.now l right.now r len }
    ensures { IsTrue result ↔ (bits left.now l len ≡ bits right.now r len) }
{
    vb_bits::equal_bits(left, l, right, r, len)
}

/// Returns whether both windows are in their bytes. If so, writes the result of [`vb_equal_bits`]
/// to `equal`; else leaves it unchanged.
#[unsafe(no_mangle)]
pub extern "C" fn vb_try_equal_bits(
    left: &[u8],
    l: usize,
    right: &[u8],
    r: usize,
    len: usize,
    equal: &mut bool,
) -> bool
    ensures { DoneIf (BothInBytes left.now l right.now r len)
        (IsTrue equal.new ↔ (bits left.now l len ≡ bits right.now r len))
        (equal.new ≡ equal.old) result }
{
    if !vb_bits::window_fits(left, l, len) || !vb_bits::window_fits(right, r, len) {
        return false;
    }
    *equal = vb_equal_bits(left, l, right, r, len);
    true
}
