// Written in part by tools/write-lists from tools/families/operators.txt.
//! Windows combined by an operator, in place and into a third one.
ghost use Rattle.std.specs.Prelude.{◌≡◌};
ghost use Rattle.vb_bits.specs.Bits.{bits};
ghost use Rattle.vb_c.specs.Combined.{Combines};
ghost use Rattle.vb_c_core.specs.Fits.{DoneIf};
ghost use Rattle.vb_c.specs.Windows.{AllInBytes, BothInBytes};

use vb_bits::{BitOp, window_fits, zip_into, zip_words};

/// Sets bit `d + i` of `dst`, for each `i` below `len`, to true if it is true and bit `s + i` of
/// `src` is, else to false. Every other bit of `dst` is unchanged. The bytes of `dst` and `src`
/// must not overlap.
#[unsafe(no_mangle)]
pub extern "C" fn vb_and_bits(dst: &mut [u8], d: usize, src: &[u8], s: usize, len: usize)
    requires { BothInBytes dst.old d src.now s len }
    ensures { Combines BitOp.And dst.old dst.new d (bits dst.old d len) (bits src.now s len) }
{
    combine(dst, d, src, s, len, BitOp::And);
}

/// Sets bit `d + i` of `dst`, for each `i` below `len`, to true if it is true or bit `s + i` of
/// `src` is, else to false. Every other bit of `dst` is unchanged. The bytes of `dst` and `src`
/// must not overlap.
#[unsafe(no_mangle)]
pub extern "C" fn vb_or_bits(dst: &mut [u8], d: usize, src: &[u8], s: usize, len: usize)
    requires { BothInBytes dst.old d src.now s len }
    ensures { Combines BitOp.Or dst.old dst.new d (bits dst.old d len) (bits src.now s len) }
{
    combine(dst, d, src, s, len, BitOp::Or);
}

/// Sets bit `d + i` of `dst`, for each `i` below `len`, to true if it differs from bit `s + i` of
/// `src`, else to false. Every other bit of `dst` is unchanged. The bytes of `dst` and `src` must
/// not overlap.
#[unsafe(no_mangle)]
pub extern "C" fn vb_xor_bits(dst: &mut [u8], d: usize, src: &[u8], s: usize, len: usize)
    requires { BothInBytes dst.old d src.now s len }
    ensures { Combines BitOp.Xor dst.old dst.new d (bits dst.old d len) (bits src.now s len) }
{
    combine(dst, d, src, s, len, BitOp::Xor);
}

/// Sets bit `d + i` of `dst`, for each `i` below `len`, to true if it is true and bit `s + i` of
/// `src` isn't, else to false. Every other bit of `dst` is unchanged. The bytes of `dst` and `src`
/// must not overlap.
#[unsafe(no_mangle)]
pub extern "C" fn vb_and_not_bits(dst: &mut [u8], d: usize, src: &[u8], s: usize, len: usize)
    requires { BothInBytes dst.old d src.now s len }
    ensures { Combines BitOp.AndNot dst.old dst.new d (bits dst.old d len) (bits src.now s len) }
{
    combine(dst, d, src, s, len, BitOp::AndNot);
}

/// Returns whether both windows are in their bytes. If so, does [`vb_and_bits`]; else leaves `dst`
/// unchanged.
#[unsafe(no_mangle)]
pub extern "C" fn vb_try_and_bits(
    dst: &mut [u8],
    d: usize,
    src: &[u8],
    s: usize,
    len: usize,
) -> bool
    ensures { DoneIf (BothInBytes dst.old d src.now s len)
        (Combines BitOp.And dst.old dst.new d (bits dst.old d len) (bits src.now s len))
        (dst.new ≡ dst.old) result }
{
    if !window_fits(dst, d, len) || !window_fits(src, s, len) {
        return false;
    }
    vb_and_bits(dst, d, src, s, len);
    true
}

/// Returns whether both windows are in their bytes. If so, does [`vb_or_bits`]; else leaves `dst`
/// unchanged.
#[unsafe(no_mangle)]
pub extern "C" fn vb_try_or_bits(dst: &mut [u8], d: usize, src: &[u8], s: usize, len: usize) -> bool
    ensures { DoneIf (BothInBytes dst.old d src.now s len)
        (Combines BitOp.Or dst.old dst.new d (bits dst.old d len) (bits src.now s len))
        (dst.new ≡ dst.old) result }
{
    if !window_fits(dst, d, len) || !window_fits(src, s, len) {
        return false;
    }
    vb_or_bits(dst, d, src, s, len);
    true
}

/// Returns whether both windows are in their bytes. If so, does [`vb_xor_bits`]; else leaves `dst`
/// unchanged.
#[unsafe(no_mangle)]
pub extern "C" fn vb_try_xor_bits(
    dst: &mut [u8],
    d: usize,
    src: &[u8],
    s: usize,
    len: usize,
) -> bool
    ensures { DoneIf (BothInBytes dst.old d src.now s len)
        (Combines BitOp.Xor dst.old dst.new d (bits dst.old d len) (bits src.now s len))
        (dst.new ≡ dst.old) result }
{
    if !window_fits(dst, d, len) || !window_fits(src, s, len) {
        return false;
    }
    vb_xor_bits(dst, d, src, s, len);
    true
}

/// Returns whether both windows are in their bytes. If so, does [`vb_and_not_bits`]; else leaves
/// `dst` unchanged.
#[unsafe(no_mangle)]
pub extern "C" fn vb_try_and_not_bits(
    dst: &mut [u8],
    d: usize,
    src: &[u8],
    s: usize,
    len: usize,
) -> bool
    ensures { DoneIf (BothInBytes dst.old d src.now s len)
        (Combines BitOp.AndNot dst.old dst.new d (bits dst.old d len) (bits src.now s len))
        (dst.new ≡ dst.old) result }
{
    if !window_fits(dst, d, len) || !window_fits(src, s, len) {
        return false;
    }
    vb_and_not_bits(dst, d, src, s, len);
    true
}

/// Sets bit `o + i` of `out`, for each index `i` below `len`, to true if bit `l + i` of `left` and
/// bit `r + i` of `right` are true, else to false. Every other bit of `out` is unchanged. `out`
/// must not overlap `left` or `right`.
#[unsafe(no_mangle)]
pub extern "C" fn vb_and_into(
    out: &mut [u8],
    o: usize,
    left: &[u8],
    l: usize,
    right: &[u8],
    r: usize,
    len: usize,
)
    requires { AllInBytes out.old o left.now l right.now r len }
    ensures { Combines BitOp.And out.old out.new o (bits left.now l len) (bits right.now r len) }
{
    combine_within(out, o, left, l, right, r, len, BitOp::And);
}

/// Sets bit `o + i` of `out`, for each index `i` below `len`, to true if bit `l + i` of `left` is
/// true, or bit `r + i` of `right`, or both, else to false. Every other bit of `out` is unchanged.
/// `out` must not overlap `left` or `right`.
#[unsafe(no_mangle)]
pub extern "C" fn vb_or_into(
    out: &mut [u8],
    o: usize,
    left: &[u8],
    l: usize,
    right: &[u8],
    r: usize,
    len: usize,
)
    requires { AllInBytes out.old o left.now l right.now r len }
    ensures { Combines BitOp.Or out.old out.new o (bits left.now l len) (bits right.now r len) }
{
    combine_within(out, o, left, l, right, r, len, BitOp::Or);
}

/// Sets bit `o + i` of `out`, for each index `i` below `len`, to true if bit `l + i` of `left`
/// differs from bit `r + i` of `right`, else to false. Every other bit of `out` is unchanged. `out`
/// must not overlap `left` or `right`.
#[unsafe(no_mangle)]
pub extern "C" fn vb_xor_into(
    out: &mut [u8],
    o: usize,
    left: &[u8],
    l: usize,
    right: &[u8],
    r: usize,
    len: usize,
)
    requires { AllInBytes out.old o left.now l right.now r len }
    ensures { Combines BitOp.Xor out.old out.new o (bits left.now l len) (bits right.now r len) }
{
    combine_within(out, o, left, l, right, r, len, BitOp::Xor);
}

/// Sets bit `o + i` of `out`, for each index `i` below `len`, to true if bit `l + i` of `left` is
/// true and bit `r + i` of `right` isn't, else to false. Every other bit of `out` is unchanged.
/// `out` must not overlap `left` or `right`.
#[unsafe(no_mangle)]
pub extern "C" fn vb_and_not_into(
    out: &mut [u8],
    o: usize,
    left: &[u8],
    l: usize,
    right: &[u8],
    r: usize,
    len: usize,
)
    requires { AllInBytes out.old o left.now l right.now r len }
    ensures { Combines BitOp.AndNot out.old out.new o (bits left.now l len) (bits right.now r len) }
{
    combine_within(out, o, left, l, right, r, len, BitOp::AndNot);
}

/// Returns whether the three windows are in their bytes. If so, does [`vb_and_into`]; else leaves
/// `out` unchanged.
#[unsafe(no_mangle)]
pub extern "C" fn vb_try_and_into(
    out: &mut [u8],
    o: usize,
    left: &[u8],
    l: usize,
    right: &[u8],
    r: usize,
    len: usize,
) -> bool
    ensures { DoneIf (AllInBytes out.old o left.now l right.now r len)
        (Combines BitOp.And out.old out.new o (bits left.now l len) (bits right.now r len))
        (out.new ≡ out.old) result }
{
    if !window_fits(out, o, len) || !window_fits(left, l, len) || !window_fits(right, r, len) {
        return false;
    }
    vb_and_into(out, o, left, l, right, r, len);
    true
}

/// Returns whether the three windows are in their bytes. If so, does [`vb_or_into`]; else leaves
/// `out` unchanged.
#[unsafe(no_mangle)]
pub extern "C" fn vb_try_or_into(
    out: &mut [u8],
    o: usize,
    left: &[u8],
    l: usize,
    right: &[u8],
    r: usize,
    len: usize,
) -> bool
    ensures { DoneIf (AllInBytes out.old o left.now l right.now r len)
        (Combines BitOp.Or out.old out.new o (bits left.now l len) (bits right.now r len))
        (out.new ≡ out.old) result }
{
    if !window_fits(out, o, len) || !window_fits(left, l, len) || !window_fits(right, r, len) {
        return false;
    }
    vb_or_into(out, o, left, l, right, r, len);
    true
}

/// Returns whether the three windows are in their bytes. If so, does [`vb_xor_into`]; else leaves
/// `out` unchanged.
#[unsafe(no_mangle)]
pub extern "C" fn vb_try_xor_into(
    out: &mut [u8],
    o: usize,
    left: &[u8],
    l: usize,
    right: &[u8],
    r: usize,
    len: usize,
) -> bool
    ensures { DoneIf (AllInBytes out.old o left.now l right.now r len)
        (Combines BitOp.Xor out.old out.new o (bits left.now l len) (bits right.now r len))
        (out.new ≡ out.old) result }
{
    if !window_fits(out, o, len) || !window_fits(left, l, len) || !window_fits(right, r, len) {
        return false;
    }
    vb_xor_into(out, o, left, l, right, r, len);
    true
}

/// Returns whether the three windows are in their bytes. If so, does [`vb_and_not_into`]; else
/// leaves `out` unchanged.
#[unsafe(no_mangle)]
pub extern "C" fn vb_try_and_not_into(
    out: &mut [u8],
    o: usize,
    left: &[u8],
    l: usize,
    right: &[u8],
    r: usize,
    len: usize,
) -> bool
    ensures { DoneIf (AllInBytes out.old o left.now l right.now r len)
        (Combines BitOp.AndNot out.old out.new o (bits left.now l len) (bits right.now r len))
        (out.new ≡ out.old) result }
{
    if !window_fits(out, o, len) || !window_fits(left, l, len) || !window_fits(right, r, len) {
        return false;
    }
    vb_and_not_into(out, o, left, l, right, r, len);
    true
}

/// Combines the window of `dst` with that of `src` by `op`. Passes the kernel only the bytes of
/// `dst` that have a bit of the window, so it can store no others.
fn combine(dst: &mut [u8], d: usize, src: &[u8], s: usize, len: usize, op: BitOp)
    requires { BothInBytes dst.old d src.now s len }
    ensures { Combines op dst.old dst.new d (bits dst.old d len) (bits src.now s len) }
{
    let end = (d + len).div_ceil(8);
    zip_words(&mut dst[d / 8..end], d % 8, src, s, len, op);
}

/// Combines the two windows by `op` into that of `out`. Passes the kernel only the bytes of `out`
/// that have a bit of the window, so it can store no others.
fn combine_within(
    out: &mut [u8],
    o: usize,
    left: &[u8],
    l: usize,
    right: &[u8],
    r: usize,
    len: usize,
    op: BitOp,
)
    requires { AllInBytes out.old o left.now l right.now r len }
    ensures { Combines op out.old out.new o (bits left.now l len) (bits right.now r len) }
{
    let end = (o + len).div_ceil(8);
    zip_into(&mut out[o / 8..end], o % 8, left, l, right, r, len, op);
}
