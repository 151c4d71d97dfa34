//! The elements of a slice that a mask selects, written into another slice, four at once.
ghost use Rattle.std.specs.Int.{w32, to_le_bytes};
ghost use Rattle.std.specs.Prelude.{◌≡◌, ◌+◌, ◌^◌, ◌<◌, ◌≤◌, [], ◌∷◌, ◌++◌, count_ones, length};
ghost use Rattle.std.specs.Prelude.{take, drop};
ghost use Rattle.vb_bits.specs.Bits.{count};
ghost use Rattle.vb_bits.specs.Digits.{digits};
ghost use Rattle.vb_bits.specs.Kept.{kept_by};
ghost use Rattle.vb_filter.specs.Gathered.{PutsAt};
ghost use Rattle.vb_view.specs.View.{bits_of};

use crate::filter_values::{PutWord, filter_words, put_places, put_word};
use std::simd::prelude::*;
use vb_core::Element;
use vb_view::BitBufferView;

/// For each mask of four elements of four bytes, the indices of the selected bytes among the 16,
/// and then zeros.
static KEPT_BYTES: [[u8; 16]; 16] = [
    [0, 0, 0, 0, 0, 0, 0, 0, 0, 0, 0, 0, 0, 0, 0, 0],
    [0, 1, 2, 3, 0, 0, 0, 0, 0, 0, 0, 0, 0, 0, 0, 0],
    [4, 5, 6, 7, 0, 0, 0, 0, 0, 0, 0, 0, 0, 0, 0, 0],
    [0, 1, 2, 3, 4, 5, 6, 7, 0, 0, 0, 0, 0, 0, 0, 0],
    [8, 9, 10, 11, 0, 0, 0, 0, 0, 0, 0, 0, 0, 0, 0, 0],
    [0, 1, 2, 3, 8, 9, 10, 11, 0, 0, 0, 0, 0, 0, 0, 0],
    [4, 5, 6, 7, 8, 9, 10, 11, 0, 0, 0, 0, 0, 0, 0, 0],
    [0, 1, 2, 3, 4, 5, 6, 7, 8, 9, 10, 11, 0, 0, 0, 0],
    [12, 13, 14, 15, 0, 0, 0, 0, 0, 0, 0, 0, 0, 0, 0, 0],
    [0, 1, 2, 3, 12, 13, 14, 15, 0, 0, 0, 0, 0, 0, 0, 0],
    [4, 5, 6, 7, 12, 13, 14, 15, 0, 0, 0, 0, 0, 0, 0, 0],
    [0, 1, 2, 3, 4, 5, 6, 7, 12, 13, 14, 15, 0, 0, 0, 0],
    [8, 9, 10, 11, 12, 13, 14, 15, 0, 0, 0, 0, 0, 0, 0, 0],
    [0, 1, 2, 3, 8, 9, 10, 11, 12, 13, 14, 15, 0, 0, 0, 0],
    [4, 5, 6, 7, 8, 9, 10, 11, 12, 13, 14, 15, 0, 0, 0, 0],
    [0, 1, 2, 3, 4, 5, 6, 7, 8, 9, 10, 11, 12, 13, 14, 15],
];

/// Up to this number of selected elements of 64, one by one is faster than four at once.
const SINGLE_ELEMENTS: usize = 16;

/// Writes the elements whose bit of the mask is true, in order, to the front of `out`, and returns
/// their number. The other items of `out` are unchanged.
///
/// The mask must have one bit for each value, and `out` one item for each set bit of the mask.
/// Processes 64 bits at a time, as [`filter_values_into`](crate::filter_values_into) does. Moves
/// four elements of four bytes at once, by a shuffle of their bytes, if more than 16 of 64 are
/// selected, but not all, and at least four items of `out` follow the written ones: it overwrites
/// the four and restores them. Does not allocate.
pub fn filter_elements_into<T: Element>(
    out: &mut [T],
    values: &[T],
    mask: BitBufferView<'_>,
) -> usize
    requires same_len { length values.now ≡ length (bits_of mask) }
    requires room { count (bits_of mask) ≤ length out.old }
    ensures count { result ≡ count (bits_of mask.entry) }
    ensures kept { out.new ≡ kept_by (bits_of mask.entry) values.now ++ drop result out.old }
{
    filter_words::<T, ByFours>(out, values, mask)
}

/// Four elements of four bytes at once.
struct ByFours;

impl<T: Element> PutWord<T> for ByFours {
    #[inline(always)]
    fn put_word(out: &mut [T], len: usize, values: &[T], keep: u64) -> usize {
        if T::SIZE == 4 && values.len() == 64 {
            put_of_four_bytes(out, len, values, keep)
        } else {
            put_word(out, len, values, keep)
        }
    }
}

/// Does [`put_word`] for 64 elements of four bytes each.
#[inline(always)]
fn put_of_four_bytes<T: Element>(out: &mut [T], len: usize, values: &[T], keep: u64) -> usize
    requires size { T.SIZE ≡ 4 }
    requires long { length values.now ≡ 64 }
    requires room { len + count_ones keep ≤ length out.old }
    ensures count { result ≡ count_ones keep }
    ensures kept { PutsAt len (kept_by (digits keep 0 (length values.now)) values.now)
        out.old out.new }
{
    let count = keep.count_ones() as usize;
    if count <= SINGLE_ELEMENTS {
        put_places(out, len, values, keep);
        count
    } else if count < 64 && count + 4 <= out.len() - len {
        put_fours(out, len, values, keep);
        count
    } else {
        put_word(out, len, values, keep)
    }
}

/// Writes the elements whose bit of `keep` is 1 after the first `len` items of `out`, four at once.
#[inline(always)]
fn put_fours<T: Element>(out: &mut [T], len: usize, values: &[T], keep: u64)
    requires size { T.SIZE ≡ 4 }
    requires long { length values.now ≡ 64 }
    requires room { len + count_ones keep + 4 ≤ length out.old }
    ensures { PutsAt len (kept_by (digits keep 0 64) values.now) out.old out.new }
{
    let end = len + keep.count_ones() as usize;
    let behind = (out[end], out[end + 1], out[end + 2], out[end + 3]);
    put_over(out, len, values, keep);
    write_four(out, end, behind);
}

/// Does [`put_fours`], but may overwrite the four items after the elements.
#[inline(always)]
fn put_over<T: Element>(out: &mut [T], len: usize, values: &[T], keep: u64)
    requires size { T.SIZE ≡ 4 }
    requires long { length values.now ≡ 64 }
    requires room { len + count_ones keep + 4 ≤ length out.old }
    ensures len { length out.new ≡ length out.old }
    ensures front { take (len + count_ones keep) out.new
        ≡ take len out.old ++ kept_by (digits keep 0 64) values.now }
    ensures behind { drop (len + count_ones keep + 4) out.new
        ≡ drop (len + count_ones keep + 4) out.old }
{
    let mut end = len;
    let mut left = keep;
    for k in 0..4 {
        let sixteen = left & 0xffff;
        put_sixteen(out, end, &values[16 * k..16 * k + 16], sixteen);
        end += sixteen.count_ones() as usize;
        left >>= 16;
    }
}

/// Does [`put_over`] for 16 elements.
#[inline(always)]
#[tactic(auto, using(crate::proofs::ElementsLemmas::halves))]
fn put_sixteen<T: Element>(out: &mut [T], len: usize, values: &[T], keep: u64)
    requires size { T.SIZE ≡ 4 }
    requires long { length values.now ≡ 16 }
    requires clear { keep < 2 ^ 16 }
    requires room { len + count_ones keep + 4 ≤ length out.old }
    ensures len { length out.new ≡ length out.old }
    ensures front { take (len + count_ones keep) out.new
        ≡ take len out.old ++ kept_by (digits keep 0 16) values.now }
    ensures behind { drop (len + count_ones keep + 4) out.new
        ≡ drop (len + count_ones keep + 4) out.old }
{
    let low = keep & 0xff;
    put_eight(out, len, &values[0..8], low);
    put_eight(
        out,
        len + low.count_ones() as usize,
        &values[8..16],
        keep >> 8,
    );
}

/// Does [`put_over`] for eight elements.
#[inline(always)]
#[tactic(auto, using(crate::proofs::ElementsLemmas::halves))]
fn put_eight<T: Element>(out: &mut [T], len: usize, values: &[T], keep: u64)
    requires size { T.SIZE ≡ 4 }
    requires long { length values.now ≡ 8 }
    requires clear { keep < 2 ^ 8 }
    requires room { len + count_ones keep + 4 ≤ length out.old }
    ensures len { length out.new ≡ length out.old }
    ensures front { take (len + count_ones keep) out.new
        ≡ take len out.old ++ kept_by (digits keep 0 8) values.now }
    ensures behind { drop (len + count_ones keep + 4) out.new
        ≡ drop (len + count_ones keep + 4) out.old }
{
    let low = keep & 0xf;
    put_four(out, len, &values[0..4], low);
    put_four(
        out,
        len + low.count_ones() as usize,
        &values[4..8],
        keep >> 4,
    );
}

/// Does [`put_over`] for four elements.
#[inline(always)]
fn put_four<T: Element>(out: &mut [T], len: usize, values: &[T], keep: u64)
    requires size { T.SIZE ≡ 4 }
    requires long { length values.now ≡ 4 }
    requires clear { keep < 2 ^ 4 }
    requires room { len + count_ones keep + 4 ≤ length out.old }
    ensures len { length out.new ≡ length out.old }
    ensures front { take (len + count_ones keep) out.new
        ≡ take len out.old ++ kept_by (digits keep 0 4) values.now }
    ensures behind { drop (len + count_ones keep + 4) out.new
        ≡ drop (len + count_ones keep + 4) out.old }
{
    let kept = keep_four((values[0], values[1], values[2], values[3]), keep);
    write_four(out, len, kept);
}

/// Returns the elements whose bit of `keep` is 1, filled up to four with any elements.
#[inline(always)]
fn keep_four<T: Element>(four: (T, T, T, T), keep: u64) -> (T, T, T, T)
    requires size { T.SIZE ≡ 4 }
    requires clear { keep < 2 ^ 4 }
    ensures { take (count_ones keep) (result.0 ∷ result.1 ∷ result.2 ∷ result.3 ∷ [])
        ≡ kept_by (digits keep 0 4) (four.0 ∷ four.1 ∷ four.2 ∷ four.3 ∷ []) }
{
    let row = u8x16::from_array(KEPT_BYTES[keep as usize]);
    let kept = bytes_of_four(four).swizzle_dyn(row).to_array();
    (
        T::get(&kept[0..4]),
        T::get(&kept[4..8]),
        T::get(&kept[8..12]),
        T::get(&kept[12..16]),
    )
}

/// Returns the bytes of four elements, and shows that each of these is in its type.
///
/// It takes them as words: the compiler loads four words as one vector, but not 16 bytes that are
/// written next to each other.
#[inline(always)]
fn bytes_of_four<T: Element>(four: (T, T, T, T)) -> u8x16
    requires size { T.SIZE ≡ 4 }
    ensures bytes { result
        ≡ T.form four.0 ++ (T.form four.1 ++ (T.form four.2 ++ T.form four.3)) }
    ensures first { T.is_in_type four.0 }
    ensures second { T.is_in_type four.1 }
    ensures third { T.is_in_type four.2 }
    ensures fourth { T.is_in_type four.3 }
{
    let words = [
        word_of(four.0),
        word_of(four.1),
        word_of(four.2),
        word_of(four.3),
    ];
    u32x4::from_array(words).to_le_bytes()
}

/// Returns the number that has the bytes of an element, and shows that the element is in its type.
#[inline(always)]
fn word_of<T: Element>(item: T) -> u32
    requires size { T.SIZE ≡ 4 }
    ensures bytes { to_le_bytes w32 result ≡ T.form item }
    ensures fits { result < 2 ^ 32 }
    ensures in_type { T.is_in_type item }
{
    let _known = item.is_value();
    let mut form = [0; 4];
    item.put(&mut form);
    u32::from_le_bytes(form)
}

/// Writes four items after the first `len` items of `out`.
#[inline(always)]
fn write_four<T: Copy>(out: &mut [T], len: usize, four: (T, T, T, T))
    requires { len + 4 ≤ length out.old }
    ensures { out.new ≡ take len out.old
        ++ (four.0 ∷ four.1 ∷ four.2 ∷ four.3 ∷ drop (len + 4) out.old) }
{
    out[len] = four.0;
    out[len + 1] = four.1;
    out[len + 2] = four.2;
    out[len + 3] = four.3;
}
