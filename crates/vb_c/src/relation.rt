// Written by tools/write-lists from tools/families/questions.txt.
//! Questions about two windows of one length: whether they have a set bit in common, and others.
ghost use Rattle.std.specs.Prelude.{◌≡◌, ◌↔◌, IsTrue};
ghost use Rattle.vb_bits.specs.Bits.{bits, count};
ghost use Rattle.vb_bits.specs.Operators.{combined_by};
ghost use Rattle.vb_bits.specs.declared.zip.BitOp.TheVariants.{And, AndNot};
ghost use Rattle.vb_c.specs.Windows.{BothInBytes};
ghost use Rattle.vb_c_core.specs.Fits.{DoneIf};

use vb_bits::window_fits;

/// Returns whether no index below `len` has a set bit in both windows: `left` from bit `l` on, and
/// `right` from bit `r` on (true for no bits). Reads up to the first word that has such an index.
#[unsafe(no_mangle)]
pub extern "C" fn vb_is_disjoint(left: &[u8], l: usize, right: &[u8], r: usize, len: usize) -> bool
    requires { BothInBytes left.now l right.now r len }
    ensures { IsTrue result
        ↔ (count (combined_by And (bits left.now l len) (bits right.now r len)) ≡ 0) }
{
    vb_pair::is_disjoint(left, l, right, r, len)
}

/// Returns whether both windows are in their bytes. If so, writes the result of [`vb_is_disjoint`]
/// to `disjoint`; else leaves it unchanged.
#[unsafe(no_mangle)]
pub extern "C" fn vb_try_is_disjoint(
    left: &[u8],
    l: usize,
    right: &[u8],
    r: usize,
    len: usize,
    disjoint: &mut bool,
) -> bool
    ensures { DoneIf (BothInBytes left.now l right.now r len)
        (IsTrue disjoint.new
        ↔ (count (combined_by And (bits left.now l len) (bits right.now r len)) ≡ 0))
        (disjoint.new ≡ disjoint.old) result }
{
    if !window_fits(left, l, len) || !window_fits(right, r, len) {
        return false;
    }
    *disjoint = vb_is_disjoint(left, l, right, r, len);
    true
}

/// Returns whether each index below `len` that has a set bit in `left` from bit `l` on also has one
/// in `right` from bit `r` on (true for no bits). Reads up to the first word that has a bit set in
/// `left` alone.
#[unsafe(no_mangle)]
pub extern "C" fn vb_is_subset(left: &[u8], l: usize, right: &[u8], r: usize, len: usize) -> bool
    requires { BothInBytes left.now l right.now r len }
    ensures { IsTrue result
        ↔ (count (combined_by AndNot (bits left.now l len) (bits right.now r len)) ≡ 0) }
{
    vb_pair::is_subset(left, l, right, r, len)
}

/// Returns whether both windows are in their bytes. If so, writes the result of [`vb_is_subset`] to
/// `subset`; else leaves it unchanged.
#[unsafe(no_mangle)]
pub extern "C" fn vb_try_is_subset(
    left: &[u8],
    l: usize,
    right: &[u8],
    r: usize,
    len: usize,
    subset: &mut bool,
) -> bool
    ensures { DoneIf (BothInBytes left.now l right.now r len)
        (IsTrue subset.new
        ↔ (count (combined_by AndNot (bits left.now l len) (bits right.now r len)) ≡ 0))
        (subset.new ≡ subset.old) result }
{
    if !window_fits(left, l, len) || !window_fits(right, r, len) {
        return false;
    }
    *subset = vb_is_subset(left, l, right, r, len);
    true
}
