//! Counts the set bits of two combined windows of sources whose reads contracts count.
//!
//! The left window is read as `vb_count::count_ones_by` reads one, and the right one unit by unit
//! alongside. If a unit of the right window starts within a byte, that byte was read before and is
//! held, and the unit is read from the next byte on. Its last byte is then held for the next unit,
//! so no byte is read twice.
ghost use Rattle.std.specs.Prelude.{◌≡◌, ◌+◌, ◌-◌, ◌*◌, ◌/◌, ◌%◌, ◌^◌, ◌<◌, ◌≤◌, [], ◌∷◌, length};
ghost use Rattle.std.specs.Prelude.{min, slice_index};
ghost use Rattle.vb_bits.specs.InBytes.{InBytes};
ghost use Rattle.vb_count.specs.Looks.{looks, LooksExactly, IsLook};
ghost use Rattle.vb_pair.specs.Beside.{IsHeld, looks_beside, part_looks};
ghost use Rattle.vb_pair.specs.Merged.{merged_ones};

use crate::count_merged::{count_short, few_ones};
use vb_bits::Merge;
use vb_count::{Glance, Unit};

/// [`count_merged`](crate::count_merged::count_merged) of two sources.
pub(crate) fn count_beside<M: Merge, L: Glance, R: Glance>(
    left: &mut L,
    l: usize,
    right: &mut R,
    r: usize,
    len: usize,
) -> usize
    requires left { InBytes (L.seen left.old).bytes l len }
    requires right { InBytes (R.seen right.old).bytes r len }
    ensures value { result ≡ merged_ones (M.bit)
        (L.seen left.old).bytes l (R.seen right.old).bytes r len }
    ensures looks { LooksExactly (looks l len) (L.seen left.old) (L.seen left.new) }
    ensures beside { LooksExactly (looks_beside l r len) (R.seen right.old) (R.seen right.new) }
    ensures one_more { looks_beside l r len ≤ looks l len + min len 1 }
    ensures most { looks_beside l r len ≤ len / 512 + 16 }
    ensures short { len ≤ 512 → looks_beside l r len ≤ 16 }
{
    let held = &mut next_byte(right, r / 8, len.min(r % 8), 0);
    let head = (8 - l % 8) % 8;
    if len <= head {
        return count_part::<M, L, R>(left, l, right, r, held, len);
    }
    let first = count_part::<M, L, R>(left, l, right, r, held, head);
    let (at, from) = ((l + head) / 8, r + head);
    let bytes = (len - head) / 8;
    let (chunks, words) = (bytes / 64, bytes % 64 / 8);
    let by_chunks = count_units::<[u8; 64], M, L, R>(left, at, right, from, held, chunks);
    let (at, from) = (at + 64 * chunks, from + 512 * chunks);
    let by_words = count_units::<[u8; 8], M, L, R>(left, at, right, from, held, words);
    let (at, from) = (at + 8 * words, from + 64 * words);
    let by_bytes = count_units::<u8, M, L, R>(left, at, right, from, held, bytes % 8);
    let done = head + 8 * bytes;
    let last = count_part::<M, L, R>(left, l + done, right, r + done, held, len - done);
    first + by_chunks + by_words + by_bytes + last
}

/// Counts `n` units from byte `l` and bit `r` on. Before, the byte of bit `r` is held unless bit
/// `r` is its first bit. Afterwards the same holds for the first bit after the units.
fn count_units<U: Unit, M: Merge, L: Glance, R: Glance>(
    left: &mut L,
    l: usize,
    right: &mut R,
    r: usize,
    held: &mut u8,
    n: usize,
) -> usize
    requires left { InBytes (L.seen left.old).bytes (8 * l) (8 * (U.SIZE * n)) }
    requires right { InBytes (R.seen right.old).bytes r (8 * (U.SIZE * n)) }
    requires held { IsHeld (R.seen right.old).bytes r held.old }
    ensures value { result ≡ merged_ones (M.bit)
        (L.seen left.old).bytes (8 * l) (R.seen right.old).bytes r (8 * (U.SIZE * n)) }
    ensures few { result ≤ 8 * (U.SIZE * n) }
    ensures looks { LooksExactly n (L.seen left.old) (L.seen left.new) }
    ensures beside { LooksExactly n (R.seen right.old) (R.seen right.new) }
    ensures held { IsHeld (R.seen right.old).bytes (r + 8 * (U.SIZE * n)) held.new }
{
    let mut ones = 0;
    for k in 0..n {
        let at = U::SIZE * k;
        ones += count_unit::<U, M, L, R>(left, l + at, right, r + 8 * at, held);
    }
    ones
}

/// Counts the unit at byte `l`, combined with the one at bit `r`.
fn count_unit<U: Unit, M: Merge, L: Glance, R: Glance>(
    left: &mut L,
    l: usize,
    right: &mut R,
    r: usize,
    held: &mut u8,
) -> usize
    requires left { l + U.SIZE ≤ length (L.seen left.old).bytes }
    requires right { r + 8 * U.SIZE ≤ 8 * length (R.seen right.old).bytes }
    requires held { IsHeld (R.seen right.old).bytes r held.old }
    ensures value { result ≡ merged_ones (M.bit)
        (L.seen left.old).bytes (8 * l) (R.seen right.old).bytes r (8 * U.SIZE) }
    ensures few { result ≤ 8 * U.SIZE }
    ensures looks { LooksExactly 1 (L.seen left.old) (L.seen left.new) }
    ensures beside { LooksExactly 1 (R.seen right.old) (R.seen right.new) }
    ensures held { IsHeld (R.seen right.old).bytes (r + 8 * U.SIZE) held.new }
{
    let unit = U::read(left, l);
    let next = U::read(right, r.div_ceil(8));
    let other = next.as_bytes();
    unit_ones::<M>(unit.as_bytes(), 0, held, r % 8, other, 8 * U::SIZE)
}

/// Counts at most eight bits within one byte of `left`.
fn count_part<M: Merge, L: Glance, R: Glance>(
    left: &mut L,
    l: usize,
    right: &mut R,
    r: usize,
    held: &mut u8,
    len: usize,
) -> usize
    requires in_byte { 0 < len → l % 8 + len ≤ 8 }
    requires left { l + len ≤ 8 * length (L.seen left.old).bytes }
    requires right { InBytes (R.seen right.old).bytes r len }
    requires held { 0 < len → IsHeld (R.seen right.old).bytes r held.old }
    ensures value { result ≡ merged_ones (M.bit)
        (L.seen left.old).bytes l (R.seen right.old).bytes r len }
    ensures few { result ≤ len }
    ensures looks { LooksExactly (min len 1) (L.seen left.old) (L.seen left.new) }
    ensures beside { LooksExactly (part_looks r len) (R.seen right.old) (R.seen right.new) }
    ensures held { IsHeld (R.seen right.old).bytes r held.old
        → IsHeld (R.seen right.old).bytes (r + len) held.new }
{
    if len == 0 {
        return 0;
    }
    let unit = [left.byte(l / 8)];
    let past = len.saturating_sub((8 - r % 8) % 8);
    let other = [next_byte(right, r.div_ceil(8), past, *held)];
    unit_ones::<M>(&unit, l % 8, held, r % 8, &other, len)
}

/// Counts the `n` bits from bit `l` and bit `r` on that one look at `left` reads.
pub(crate) fn count_look<M: Merge, L: Glance, R: Glance>(
    left: &mut L,
    l: usize,
    right: &mut R,
    r: usize,
    held: &mut u8,
    n: usize,
) -> usize
    requires look { IsLook l n }
    requires left { l + n ≤ 8 * length (L.seen left.old).bytes }
    requires right { InBytes (R.seen right.old).bytes r n }
    requires held { IsHeld (R.seen right.old).bytes r held.old }
    ensures value { result ≡ merged_ones (M.bit)
        (L.seen left.old).bytes l (R.seen right.old).bytes r n }
    ensures looks { LooksExactly 1 (L.seen left.old) (L.seen left.new) }
    ensures beside { LooksExactly (part_looks r n) (R.seen right.old) (R.seen right.new) }
    ensures held { IsHeld (R.seen right.old).bytes (r + n) held.new }
{
    if n <= 8 {
        count_part::<M, L, R>(left, l, right, r, held, n)
    } else if n == 64 {
        count_unit::<[u8; 8], M, L, R>(left, l / 8, right, r, held)
    } else {
        count_unit::<[u8; 64], M, L, R>(left, l / 8, right, r, held)
    }
}

/// Returns byte `at` if `bits` of it are needed, else `held` without a look.
pub(crate) fn next_byte<G: Glance>(src: &mut G, at: usize, bits: usize, held: u8) -> u8
    requires { 0 < bits → at < length (G.seen src.old).bytes }
    ensures value { 0 < bits → result ≡ slice_index (G.seen src.old).bytes at }
    ensures stays { bits ≡ 0 → result ≡ held }
    ensures looks { LooksExactly (min bits 1) (G.seen src.old) (G.seen src.new) }
{
    if bits == 0 { held } else { src.byte(at) }
}

/// Counts `n` bits of `unit` from bit `from` on, combined with `n` bits of the right window. These
/// start at bit `shift` of the held byte, or at bit 0 of `other` if `shift` is 0, and continue in
/// `other`. Afterwards the last byte of `other` is held.
fn unit_ones<M: Merge>(
    unit: &[u8],
    from: usize,
    held: &mut u8,
    shift: usize,
    other: &[u8],
    n: usize,
) -> usize
    requires in_byte { shift < 8 }
    requires few { length unit.now ≤ 64 }
    requires inside { from + n ≤ 8 * length unit.now }
    requires some { 0 < length other.now }
    requires beside { n - (8 - shift) % 8 ≤ 8 * length other.now }
    ensures value { result ≡ merged_ones (M.bit) unit.now from (held.old ∷ []) shift
        (min n ((8 - shift) % 8))
        + merged_ones (M.bit) unit.now (from + min n ((8 - shift) % 8)) other.now 0
        (n - (8 - shift) % 8) }
    ensures few { result ≤ n }
    ensures last { held.new ≡ slice_index other.now (length other.now - 1) }
{
    let first = n.min((8 - shift) % 8);
    let ones = few_ones::<M>(unit, from, &[*held], shift, first);
    *held = other[other.len() - 1];
    ones + count_short::<M>(unit, from + first, other, 0, n - first)
}
