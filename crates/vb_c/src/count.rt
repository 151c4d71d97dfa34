// Written in part by tools/write-lists from tools/families/operators.txt.
//! Counts of set bits, of a window and of two combined windows.
ghost use Rattle.std.specs.Prelude.{◌≡◌};
ghost use Rattle.vb_bits.specs.Bits.{bits, count};
ghost use Rattle.vb_bits.specs.InBytes.{InBytes};
ghost use Rattle.vb_bits.specs.Operators.{combined_by};
ghost use Rattle.vb_bits.specs.declared.zip.BitOp.TheVariants.{And, Or, Xor, AndNot};
ghost use Rattle.vb_c.specs.Windows.{BothInBytes};
ghost use Rattle.vb_c_core.specs.Fits.{DoneIf};

use vb_bits::window_fits;

/// Returns the number of set bits among the `len` bits from bit `offset` on. Reads the window once,
/// 64 bytes at a time.
#[unsafe(no_mangle)]
pub extern "C" fn vb_count_ones(bytes: &[u8], offset: usize, len: usize) -> usize
    requires window { InBytes bytes.now offset len }
    ensures { result ≡ count (bits bytes.now offset len) }
{
    vb_count::count_ones(bytes, offset, len)
}

/// Does [`vb_count_ones`] for vectors of at least 32 bytes: counts long windows with carry-save
/// adders. It is in no header: from x86-64-v3 on, `bindings/build` renames it to `vb_count_ones`.
#[unsafe(no_mangle)]
pub extern "C" fn vb_count_ones_wide(bytes: &[u8], offset: usize, len: usize) -> usize
    requires window { InBytes bytes.now offset len }
    ensures { result ≡ count (bits bytes.now offset len) }
{
    vb_count::count_ones_wide(bytes, offset, len)
}

/// Returns whether the window is in the bytes. If so, writes the result of [`vb_count_ones`] to
/// `ones`; else leaves it unchanged.
#[unsafe(no_mangle)]
pub extern "C" fn vb_try_count_ones(
    bytes: &[u8],
    offset: usize,
    len: usize,
    ones: &mut usize,
) -> bool
    ensures { DoneIf (InBytes bytes.now offset len)
        (ones.new ≡ count (bits bytes.now offset len)) (ones.new ≡ ones.old) result }
{
    if !window_fits(bytes, offset, len) {
        return false;
    }
    *ones = vb_count_ones(bytes, offset, len);
    true
}

/// Does [`vb_try_count_ones`] by [`vb_count_ones_wide`], and is renamed like it.
#[unsafe(no_mangle)]
pub extern "C" fn vb_try_count_ones_wide(
    bytes: &[u8],
    offset: usize,
    len: usize,
    ones: &mut usize,
) -> bool
    ensures { DoneIf (InBytes bytes.now offset len)
        (ones.new ≡ count (bits bytes.now offset len)) (ones.new ≡ ones.old) result }
{
    if !window_fits(bytes, offset, len) {
        return false;
    }
    *ones = vb_count_ones_wide(bytes, offset, len);
    true
}

/// Returns the number of `i` below `len` for which bit `l + i` of `left` and bit `r + i` of `right`
/// are true. Reads each window once, and writes nothing.
#[unsafe(no_mangle)]
pub extern "C" fn vb_and_count(left: &[u8], l: usize, right: &[u8], r: usize, len: usize) -> usize
    requires { BothInBytes left.now l right.now r len }
    ensures { result ≡ count (combined_by And (bits left.now l len) (bits right.now r len)) }
{
    vb_pair::and_count(left, l, right, r, len)
}

/// Returns whether both windows are in their bytes. If so, writes the result of [`vb_and_count`] to
/// `ones`; else leaves it unchanged.
#[unsafe(no_mangle)]
pub extern "C" fn vb_try_and_count(
    left: &[u8],
    l: usize,
    right: &[u8],
    r: usize,
    len: usize,
    ones: &mut usize,
) -> bool
    ensures { DoneIf (BothInBytes left.now l right.now r len)
        (ones.new ≡ count (combined_by And (bits left.now l len) (bits right.now r len)))
        (ones.new ≡ ones.old) result }
{
    if !window_fits(left, l, len) || !window_fits(right, r, len) {
        return false;
    }
    *ones = vb_and_count(left, l, right, r, len);
    true
}

/// Returns the number of `i` below `len` for which bit `l + i` of `left` or bit `r + i` of `right`
/// is true. Reads each window once, and writes nothing.
#[unsafe(no_mangle)]
pub extern "C" fn vb_or_count(left: &[u8], l: usize, right: &[u8], r: usize, len: usize) -> usize
    requires { BothInBytes left.now l right.now r len }
    ensures { result ≡ count (combined_by Or (bits left.now l len) (bits right.now r len)) }
{
    vb_pair::or_count(left, l, right, r, len)
}

/// Returns whether both windows are in their bytes. If so, writes the result of [`vb_or_count`] to
/// `ones`; else leaves it unchanged.
#[unsafe(no_mangle)]
pub extern "C" fn vb_try_or_count(
    left: &[u8],
    l: usize,
    right: &[u8],
    r: usize,
    len: usize,
    ones: &mut usize,
) -> bool
    ensures { DoneIf (BothInBytes left.now l right.now r len)
        (ones.new ≡ count (combined_by Or (bits left.now l len) (bits right.now r len)))
        (ones.new ≡ ones.old) result }
{
    if !window_fits(left, l, len) || !window_fits(right, r, len) {
        return false;
    }
    *ones = vb_or_count(left, l, right, r, len);
    true
}

/// Returns the number of `i` below `len` for which bit `l + i` of `left` differs from bit `r + i`
/// of `right`. Reads each window once, and writes nothing.
#[unsafe(no_mangle)]
pub extern "C" fn vb_xor_count(left: &[u8], l: usize, right: &[u8], r: usize, len: usize) -> usize
    requires { BothInBytes left.now l right.now r len }
    ensures { result ≡ count (combined_by Xor (bits left.now l len) (bits right.now r len)) }
{
    vb_pair::xor_count(left, l, right, r, len)
}

/// Returns whether both windows are in their bytes. If so, writes the result of [`vb_xor_count`] to
/// `ones`; else leaves it unchanged.
#[unsafe(no_mangle)]
pub extern "C" fn vb_try_xor_count(
    left: &[u8],
    l: usize,
    right: &[u8],
    r: usize,
    len: usize,
    ones: &mut usize,
) -> bool
    ensures { DoneIf (BothInBytes left.now l right.now r len)
        (ones.new ≡ count (combined_by Xor (bits left.now l len) (bits right.now r len)))
        (ones.new ≡ ones.old) result }
{
    if !window_fits(left, l, len) || !window_fits(right, r, len) {
        return false;
    }
    *ones = vb_xor_count(left, l, right, r, len);
    true
}

/// Returns the number of `i` below `len` for which bit `l + i` of `left` is true and bit `r + i` of
/// `right` isn't. Reads each window once, and writes nothing.
#[unsafe(no_mangle)]
pub extern "C" fn vb_and_not_count(
    left: &[u8],
    l: usize,
    right: &[u8],
    r: usize,
    len: usize,
) -> usize
    requires { BothInBytes left.now l right.now r len }
    ensures { result ≡ count (combined_by AndNot (bits left.now l len) (bits right.now r len)) }
{
    vb_pair::andnot_count(left, l, right, r, len)
}

/// Returns whether both windows are in their bytes. If so, writes the result of
/// [`vb_and_not_count`] to `ones`; else leaves it unchanged.
#[unsafe(no_mangle)]
pub extern "C" fn vb_try_and_not_count(
    left: &[u8],
    l: usize,
    right: &[u8],
    r: usize,
    len: usize,
    ones: &mut usize,
) -> bool
    ensures { DoneIf (BothInBytes left.now l right.now r len)
        (ones.new ≡ count (combined_by AndNot (bits left.now l len) (bits right.now r len)))
        (ones.new ≡ ones.old) result }
{
    if !window_fits(left, l, len) || !window_fits(right, r, len) {
        return false;
    }
    *ones = vb_and_not_count(left, l, right, r, len);
    true
}
