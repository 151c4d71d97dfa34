// Written in part by tools/write-lists from tools/families/questions.txt.
//! Tests whether two windows have a common set bit, or the right one has all set bits of the left.
ghost use Rattle.std.specs.Prelude.{◌≡◌, ◌↔◌, ◌+◌, ◌*◌, ◌/◌, ◌^◌, ◌<◌, ◌≤◌, length, IsTrue};
ghost use Rattle.vb_bits.specs.Bits.{bits, count};
ghost use Rattle.vb_bits.specs.InBytes.{InBytes};
ghost use Rattle.vb_bits.specs.Operators.{combined_by, merged_by};
ghost use Rattle.vb_bits.specs.declared.zip.BitOp.TheVariants.{And, AndNot};
ghost use Rattle.vb_count.specs.Looks.{looks, LooksAtMost, StopsAtNext};
ghost use Rattle.vb_pair.specs.Beside.{looks_beside, StopsBeside};
ghost use Rattle.vb_pair.specs.Merged.{merged_ones};

use crate::count_beside::{count_look, next_byte};
use crate::count_merged::{few_ones, merged_word_ones};
use vb_bits::{And as Both, AndNot as LeftAlone, Merge};
use vb_count::{Glance, first_look};

/// Returns whether no bit is set in both windows, which is true for windows of no bits. Bit `i` of
/// the windows is bit `l + i` of `left` and bit `r + i` of `right`.
///
/// The caller must prove that both windows are in bounds and that `l + len` and `r + len` fit in a
/// `usize`; `vb_bits::window_fits` tests both at run time. It processes words of 64 bits from the
/// front, and stops at the first word with a bit that is set in both. Does not allocate.
pub fn is_disjoint(left: &[u8], l: usize, right: &[u8], r: usize, len: usize) -> bool
    requires left { InBytes left.now l len }
    requires right { InBytes right.now r len }
    ensures { IsTrue result ↔
        (count (combined_by And (bits left.now l len) (bits right.now r len)) ≡ 0) }
{
    is_none_merged::<Both>(left, l, right, r, len)
}

/// Returns whether each set bit of the left window is also set in the right one, which is true for
/// windows of no bits. Bit `i` of the windows is bit `l + i` of `left` and bit `r + i` of `right`.
///
/// The caller must prove that both windows are in bounds and that `l + len` and `r + len` fit in a
/// `usize`; `vb_bits::window_fits` tests both at run time. It processes words of 64 bits from the
/// front, and stops at the first word with a bit that is set in the left window only. Does not
/// allocate.
pub fn is_subset(left: &[u8], l: usize, right: &[u8], r: usize, len: usize) -> bool
    requires left { InBytes left.now l len }
    requires right { InBytes right.now r len }
    ensures { IsTrue result ↔
        (count (combined_by AndNot (bits left.now l len) (bits right.now r len)) ≡ 0) }
{
    is_none_merged::<LeftAlone>(left, l, right, r, len)
}

/// [`is_disjoint`] of two counted sources: returns whether no bit is set in both windows.
///
/// If a bit is set in both, the looks at `left` are at most those of `vb_count::count_ones_by` over
/// the bits up to the first such bit, included (clause `stops`), and the looks at `right` at most
/// one more (clause `stops_beside`). If there is none, the looks at `left` are at most those over
/// all bits (clause `looks`), and clause `beside` bounds those at `right`. It looks at each source
/// at most `len / 512 + 16` times, and at most 16 times if `len` is at most 512.
///
/// Does not allocate. The caller must prove that both windows are in bounds of their sources and
/// that `l + len` and `r + len` fit in a `usize`.
pub fn is_disjoint_by<L: Glance, R: Glance>(
    left: &mut L,
    l: usize,
    right: &mut R,
    r: usize,
    len: usize,
) -> bool
    requires left { InBytes (L.seen left.old).bytes l len }
    requires right { InBytes (R.seen right.old).bytes r len }
    ensures value { IsTrue result ↔ (count (combined_by And (bits (L.seen left.old).bytes l len)
        (bits (R.seen right.old).bytes r len)) ≡ 0) }
    ensures looks { LooksAtMost (looks l len) (L.seen left.old) (L.seen left.new) }
    ensures beside { LooksAtMost (looks_beside l r len) (R.seen right.old) (R.seen right.new) }
    ensures stops { StopsAtNext (combined_by And (bits (L.seen left.old).bytes l len)
        (bits (R.seen right.old).bytes r len)) l 0 (L.seen left.old) (L.seen left.new) }
    ensures stops_beside { StopsBeside (combined_by And (bits (L.seen left.old).bytes l len)
        (bits (R.seen right.old).bytes r len)) l (R.seen right.old) (R.seen right.new) }
    ensures most { looks_beside l r len ≤ len / 512 + 16 }
    ensures short { len ≤ 512 → looks_beside l r len ≤ 16 }
{
    is_none_beside::<Both, L, R>(left, l, right, r, len)
}

/// [`is_subset`] of two counted sources: returns whether each set bit of the left window is also
/// set in the right one.
///
/// If a bit is set in the left window only, the looks at `left` are at most those of
/// `vb_count::count_ones_by` over the bits up to the first such bit, included (clause `stops`), and
/// the looks at `right` at most one more (clause `stops_beside`). If there is none, the looks at
/// `left` are at most those over all bits (clause `looks`), and clause `beside` bounds those at
/// `right`. It looks at each source at most `len / 512 + 16` times, and at most 16 times if `len`
/// is at most 512.
///
/// Does not allocate. The caller must prove that both windows are in bounds of their sources and
/// that `l + len` and `r + len` fit in a `usize`.
pub fn is_subset_by<L: Glance, R: Glance>(
    left: &mut L,
    l: usize,
    right: &mut R,
    r: usize,
    len: usize,
) -> bool
    requires left { InBytes (L.seen left.old).bytes l len }
    requires right { InBytes (R.seen right.old).bytes r len }
    ensures value { IsTrue result ↔ (count (combined_by AndNot (bits (L.seen left.old).bytes l len)
        (bits (R.seen right.old).bytes r len)) ≡ 0) }
    ensures looks { LooksAtMost (looks l len) (L.seen left.old) (L.seen left.new) }
    ensures beside { LooksAtMost (looks_beside l r len) (R.seen right.old) (R.seen right.new) }
    ensures stops { StopsAtNext (combined_by AndNot (bits (L.seen left.old).bytes l len)
        (bits (R.seen right.old).bytes r len)) l 0 (L.seen left.old) (L.seen left.new) }
    ensures stops_beside { StopsBeside (combined_by AndNot (bits (L.seen left.old).bytes l len)
        (bits (R.seen right.old).bytes r len)) l (R.seen right.old) (R.seen right.new) }
    ensures most { looks_beside l r len ≤ len / 512 + 16 }
    ensures short { len ≤ 512 → looks_beside l r len ≤ 16 }
{
    is_none_beside::<LeftAlone, L, R>(left, l, right, r, len)
}

/// Returns whether no bit of the combined windows is set.
fn is_none_merged<M: Merge>(left: &[u8], l: usize, right: &[u8], r: usize, len: usize) -> bool
    requires left { InBytes left.now l len }
    requires right { InBytes right.now r len }
    ensures { IsTrue result ↔ (merged_ones (M.bit) left.now l right.now r len ≡ 0) }
{
    for k in 0..len / 64 {
        if merged_word_ones::<M>(left, l + 64 * k, right, r + 64 * k) > 0 {
            return false;
        }
    }
    let done = len / 64 * 64;
    few_ones::<M>(left, l + done, right, r + done, len % 64) == 0
}

/// Returns whether no bit of the combined windows of two sources is set.
fn is_none_beside<M: Merge, L: Glance, R: Glance>(
    left: &mut L,
    l: usize,
    right: &mut R,
    r: usize,
    len: usize,
) -> bool
    requires left { InBytes (L.seen left.old).bytes l len }
    requires right { InBytes (R.seen right.old).bytes r len }
    ensures value { IsTrue result ↔ (merged_ones (M.bit)
        (L.seen left.old).bytes l (R.seen right.old).bytes r len ≡ 0) }
    ensures looks { LooksAtMost (looks l len) (L.seen left.old) (L.seen left.new) }
    ensures beside { LooksAtMost (looks_beside l r len) (R.seen right.old) (R.seen right.new) }
    ensures stops { StopsAtNext (merged_by (M.bit) (bits (L.seen left.old).bytes l len)
        (bits (R.seen right.old).bytes r len)) l 0 (L.seen left.old) (L.seen left.new) }
    ensures stops_beside { StopsBeside (merged_by (M.bit) (bits (L.seen left.old).bytes l len)
        (bits (R.seen right.old).bytes r len)) l (R.seen right.old) (R.seen right.new) }
{
    let held = &mut next_byte(right, r / 8, len.min(r % 8), 0);
    let mut done = 0;
    while done < len {
        let bits = first_look(l + done, len - done);
        if count_look::<M, L, R>(left, l + done, right, r + done, held, bits) > 0 {
            return false;
        }
        done += bits;
    }
    true
}
