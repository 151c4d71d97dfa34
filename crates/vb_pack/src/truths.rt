//! Packs slices whose values represent truth values, a word at a time.
ghost use Rattle.std.specs.Prelude.{◌≡◌, ◌-◌, ◌*◌, ◌/◌, ◌^◌, ◌<◌, ◌≤◌, ◌==◌, Bool, not};
ghost use Rattle.std.specs.Prelude.{drop, length, map, take};
ghost use Rattle.vb_pack.specs.Digits.{digits};
ghost use Rattle.vb_pack.specs.WordBits.{filled_to};
ghost use Rattle.vb_pack.specs.Writes.{Writes};

use crate::bytes::write_front;
use crate::pack::pack_lanes;
use std::simd::prelude::*;

/// A value that represents a truth value.
pub(crate) trait Truth: Copy {
    // Whether the value is true.
    ghost truth: { Self → Bool };

    /// Returns whether the value is true.
    fn is_true(self) -> bool
        ensures { result ≡ truth self };

    /// Returns the word whose digits are the truth of 64 values.
    fn word(values: &[Self]) -> u64
        requires { length values.now ≡ 64 }
        ensures { digits result 0 64 ≡ map truth values.now };
}

impl Truth for bool {
    ghost truth = { λ value. value };

    #[inline(always)]
    fn is_true(self) -> bool {
        self
    }

    #[inline(always)]
    fn word(values: &[bool]) -> u64 {
        pack_lanes(values)
    }
}

impl Truth for u8 {
    ghost truth = { λ value. not (value == 0) };

    #[inline(always)]
    fn is_true(self) -> bool {
        self != 0
    }

    #[inline(always)]
    fn word(values: &[u8]) -> u64 {
        u8x64::from_slice(values)
            .simd_ne(u8x64::splat(0))
            .to_bitmask()
    }
}

/// Packs the truth of the values into the first bytes of `bytes`, eight per byte, least significant
/// bit first. Clears the bits after them in the last byte that it writes.
///
/// If there are at least 64 values, it packs all of them by words: the last eight bytes are one
/// word, which may overlap the full words before it.
#[inline(always)]
pub(crate) fn pack_values<T: Truth>(bytes: &mut [u8], values: &[T])
    requires { length values.now ≤ 8 * length bytes.old }
    ensures { Writes bytes.old bytes.new 0 (filled_to 8 (map (T.truth) values.now)) }
{
    let len = values.len();
    if len < 64 {
        write_front(bytes, 0, len.div_ceil(8), few_word(values));
        return;
    }
    pack_words(bytes, values);
    if len % 64 != 0 {
        let last = last_word(values, 64 - (8 - len % 8) % 8);
        write_front(bytes, len.div_ceil(8) - 8, 8, last);
    }
}

/// [`pack_values`] of the full words of 64 values only.
#[inline(always)]
fn pack_words<T: Truth>(bytes: &mut [u8], values: &[T])
    requires { length values.now ≤ 8 * length bytes.old }
    ensures { Writes bytes.old bytes.new 0
        (take (64 * (length values.now / 64)) (map (T.truth) values.now)) }
{
    for k in 0..values.len() / 64 {
        write_front(bytes, 8 * k, 8, T::word(&values[64 * k..64 * k + 64]));
    }
}

/// Returns the word whose `rest` lowest digits are the truth of the last `rest` values. `rest` is 1
/// to 64, and there are at least 64 values.
#[inline(always)]
fn last_word<T: Truth>(values: &[T], rest: usize) -> u64
    requires enough { 64 ≤ length values.now }
    requires some { 0 < rest }
    requires in_word { rest ≤ 64 }
    ensures digits { digits result 0 rest
        ≡ drop (length values.now - rest) (map (T.truth) values.now) }
    ensures clear { result < 2 ^ rest }
{
    T::word(&values[values.len() - 64..]) >> (64 - rest)
}

/// Returns the word whose lowest digits are the truth of fewer than 64 values.
#[inline(always)]
fn few_word<T: Truth>(values: &[T]) -> u64
    requires in_word { length values.now < 64 }
    ensures digits { digits result 0 (length values.now) ≡ map (T.truth) values.now }
    ensures clear { result < 2 ^ length values.now }
{
    let mut packed = 0u64;
    for i in 0..values.len() {
        packed |= u64::from(values[i].is_true()) << i;
    }
    packed
}
