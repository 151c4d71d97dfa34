// Written in part by tools/write-lists from tools/families/operators.txt.
//! Counts of two windows that an operator combines.
ghost use Rattle.std.specs.Prelude.{◌≡◌, ◌+◌, ◌/◌, ◌≤◌, min};
ghost use Rattle.vb_bits.specs.Bits.{bits, count};
ghost use Rattle.vb_bits.specs.InBytes.{InBytes};
ghost use Rattle.vb_bits.specs.Operators.{combined_by};
ghost use Rattle.vb_count.specs.Looks.{looks, LooksExactly};
ghost use Rattle.vb_pair.specs.Beside.{looks_beside};
ghost use Rattle.vb_bits.specs.declared.zip.BitOp.TheVariants.{And, Or, Xor, AndNot};

use crate::count_beside::count_beside;
use crate::count_merged::count_merged;
use vb_bits::{And as Both, AndNot as LeftAlone, Or as Either, Xor as OneAlone};
use vb_count::Glance;

/// Returns the number of `i` below `len` for which bit `l + i` of `left` and bit `r + i` of `right`
/// are true.
///
/// It counts the bits that `BitOp::And` sets. The caller must prove that both windows are in bounds
/// and that their ends fit in a `usize`; `vb_bits::window_fits` tests this at run time. It
/// processes words of 64 bits, four at a time past 512 bits, at any two offsets. Does not allocate.
pub fn and_count(left: &[u8], l: usize, right: &[u8], r: usize, len: usize) -> usize
    requires left { InBytes left.now l len }
    requires right { InBytes right.now r len }
    ensures { result ≡ count (combined_by And (bits left.now l len) (bits right.now r len)) }
{
    count_merged::<Both>(left, l, right, r, len)
}

/// Returns the number of `i` below `len` for which bit `l + i` of `left` or bit `r + i` of `right`
/// is true.
///
/// It counts the bits that `BitOp::Or` sets. The caller must prove that both windows are in bounds
/// and that their ends fit in a `usize`; `vb_bits::window_fits` tests this at run time. It
/// processes words of 64 bits, four at a time past 512 bits, at any two offsets. Does not allocate.
pub fn or_count(left: &[u8], l: usize, right: &[u8], r: usize, len: usize) -> usize
    requires left { InBytes left.now l len }
    requires right { InBytes right.now r len }
    ensures { result ≡ count (combined_by Or (bits left.now l len) (bits right.now r len)) }
{
    count_merged::<Either>(left, l, right, r, len)
}

/// Returns the number of `i` below `len` for which bit `l + i` of `left` differs from bit `r + i`
/// of `right`.
///
/// It counts the bits that `BitOp::Xor` sets. The caller must prove that both windows are in bounds
/// and that their ends fit in a `usize`; `vb_bits::window_fits` tests this at run time. It
/// processes words of 64 bits, four at a time past 512 bits, at any two offsets. Does not allocate.
pub fn xor_count(left: &[u8], l: usize, right: &[u8], r: usize, len: usize) -> usize
    requires left { InBytes left.now l len }
    requires right { InBytes right.now r len }
    ensures { result ≡ count (combined_by Xor (bits left.now l len) (bits right.now r len)) }
{
    count_merged::<OneAlone>(left, l, right, r, len)
}

/// Returns the number of `i` below `len` for which bit `l + i` of `left` is true and bit `r + i` of
/// `right` isn't.
///
/// It counts the bits that `BitOp::AndNot` sets. The caller must prove that both windows are in
/// bounds and that their ends fit in a `usize`; `vb_bits::window_fits` tests this at run time. It
/// processes words of 64 bits, four at a time past 512 bits, at any two offsets. Does not allocate.
pub fn andnot_count(left: &[u8], l: usize, right: &[u8], r: usize, len: usize) -> usize
    requires left { InBytes left.now l len }
    requires right { InBytes right.now r len }
    ensures { result ≡ count (combined_by AndNot (bits left.now l len) (bits right.now r len)) }
{
    count_merged::<LeftAlone>(left, l, right, r, len)
}

/// [`and_count`] of two counted sources.
///
/// Returns the number of `i` below `len` for which bit `l + i` of `left` and bit `r + i` of `right`
/// are true.
///
/// It looks at `left` as `vb_count::count_ones_by` does over the same bits: once at a partial first
/// byte, at each 64 whole bytes, at each eight of the remaining bytes, at each byte after these,
/// and at a partial last byte. It looks at `right` at most once more than at `left`; clause
/// `beside` has the exact number. It looks at each source at most `len / 512 + 16` times, and at
/// most 16 times if `len` is at most 512.
///
/// Does not allocate. The caller must prove that both windows are in bounds of their sources and
/// that their ends fit in a `usize`.
pub fn and_count_by<L: Glance, R: Glance>(
    left: &mut L,
    l: usize,
    right: &mut R,
    r: usize,
    len: usize,
) -> usize
    requires left { InBytes (L.seen left.old).bytes l len }
    requires right { InBytes (R.seen right.old).bytes r len }
    ensures value { result ≡ count (combined_by And
        (bits (L.seen left.old).bytes l len) (bits (R.seen right.old).bytes r len)) }
    ensures looks { LooksExactly (looks l len) (L.seen left.old) (L.seen left.new) }
    ensures beside { LooksExactly (looks_beside l r len) (R.seen right.old) (R.seen right.new) }
    ensures one_more { looks_beside l r len ≤ looks l len + min len 1 }
    ensures most { looks_beside l r len ≤ len / 512 + 16 }
    ensures short { len ≤ 512 → looks_beside l r len ≤ 16 }
{
    count_beside::<Both, L, R>(left, l, right, r, len)
}

/// [`or_count`] of two counted sources.
///
/// Returns the number of `i` below `len` for which bit `l + i` of `left` or bit `r + i` of `right`
/// is true.
///
/// It looks at `left` as `vb_count::count_ones_by` does over the same bits: once at a partial first
/// byte, at each 64 whole bytes, at each eight of the remaining bytes, at each byte after these,
/// and at a partial last byte. It looks at `right` at most once more than at `left`; clause
/// `beside` has the exact number. It looks at each source at most `len / 512 + 16` times, and at
/// most 16 times if `len` is at most 512.
///
/// Does not allocate. The caller must prove that both windows are in bounds of their sources and
/// that their ends fit in a `usize`.
pub fn or_count_by<L: Glance, R: Glance>(
    left: &mut L,
    l: usize,
    right: &mut R,
    r: usize,
    len: usize,
) -> usize
    requires left { InBytes (L.seen left.old).bytes l len }
    requires right { InBytes (R.seen right.old).bytes r len }
    ensures value { result ≡ count (combined_by Or
        (bits (L.seen left.old).bytes l len) (bits (R.seen right.old).bytes r len)) }
    ensures looks { LooksExactly (looks l len) (L.seen left.old) (L.seen left.new) }
    ensures beside { LooksExactly (looks_beside l r len) (R.seen right.old) (R.seen right.new) }
    ensures one_more { looks_beside l r len ≤ looks l len + min len 1 }
    ensures most { looks_beside l r len ≤ len / 512 + 16 }
    ensures short { len ≤ 512 → looks_beside l r len ≤ 16 }
{
    count_beside::<Either, L, R>(left, l, right, r, len)
}

/// [`xor_count`] of two counted sources.
///
/// Returns the number of `i` below `len` for which bit `l + i` of `left` differs from bit `r + i`
/// of `right`.
///
/// It looks at `left` as `vb_count::count_ones_by` does over the same bits: once at a partial first
/// byte, at each 64 whole bytes, at each eight of the remaining bytes, at each byte after these,
/// and at a partial last byte. It looks at `right` at most once more than at `left`; clause
/// `beside` has the exact number. It looks at each source at most `len / 512 + 16` times, and at
/// most 16 times if `len` is at most 512.
///
/// Does not allocate. The caller must prove that both windows are in bounds of their sources and
/// that their ends fit in a `usize`.
pub fn xor_count_by<L: Glance, R: Glance>(
    left: &mut L,
    l: usize,
    right: &mut R,
    r: usize,
    len: usize,
) -> usize
    requires left { InBytes (L.seen left.old).bytes l len }
    requires right { InBytes (R.seen right.old).bytes r len }
    ensures value { result ≡ count (combined_by Xor
        (bits (L.seen left.old).bytes l len) (bits (R.seen right.old).bytes r len)) }
    ensures looks { LooksExactly (looks l len) (L.seen left.old) (L.seen left.new) }
    ensures beside { LooksExactly (looks_beside l r len) (R.seen right.old) (R.seen right.new) }
    ensures one_more { looks_beside l r len ≤ looks l len + min len 1 }
    ensures most { looks_beside l r len ≤ len / 512 + 16 }
    ensures short { len ≤ 512 → looks_beside l r len ≤ 16 }
{
    count_beside::<OneAlone, L, R>(left, l, right, r, len)
}

/// [`andnot_count`] of two counted sources.
///
/// Returns the number of `i` below `len` for which bit `l + i` of `left` is true and bit `r + i` of
/// `right` isn't.
///
/// It looks at `left` as `vb_count::count_ones_by` does over the same bits: once at a partial first
/// byte, at each 64 whole bytes, at each eight of the remaining bytes, at each byte after these,
/// and at a partial last byte. It looks at `right` at most once more than at `left`; clause
/// `beside` has the exact number. It looks at each source at most `len / 512 + 16` times, and at
/// most 16 times if `len` is at most 512.
///
/// Does not allocate. The caller must prove that both windows are in bounds of their sources and
/// that their ends fit in a `usize`.
pub fn andnot_count_by<L: Glance, R: Glance>(
    left: &mut L,
    l: usize,
    right: &mut R,
    r: usize,
    len: usize,
) -> usize
    requires left { InBytes (L.seen left.old).bytes l len }
    requires right { InBytes (R.seen right.old).bytes r len }
    ensures value { result ≡ count (combined_by AndNot
        (bits (L.seen left.old).bytes l len) (bits (R.seen right.old).bytes r len)) }
    ensures looks { LooksExactly (looks l len) (L.seen left.old) (L.seen left.new) }
    ensures beside { LooksExactly (looks_beside l r len) (R.seen right.old) (R.seen right.new) }
    ensures one_more { looks_beside l r len ≤ looks l len + min len 1 }
    ensures most { looks_beside l r len ≤ len / 512 + 16 }
    ensures short { len ≤ 512 → looks_beside l r len ≤ 16 }
{
    count_beside::<LeftAlone, L, R>(left, l, right, r, len)
}
