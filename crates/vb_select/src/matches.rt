//! Words with a 1 for each bit that has the sought value.
ghost use Rattle.std.specs.Prelude.{ℕ, ◌≡◌, ◌+◌, ◌-◌, ◌*◌, ◌/◌, ◌%◌, ◌^◌, ◌<◌, ◌≤◌};
ghost use Rattle.std.specs.Prelude.{length, not};
ghost use Rattle.vb_bits.specs.Bits.{bit_of, bits, count};
ghost use Rattle.vb_bits.specs.Digits.{digits};
ghost use Rattle.vb_count.specs.Hits.{hits};
ghost use Rattle.vb_select.specs.Matches.{ShowsBefore};

use vb_bits::{low_digits, read_short, word_at};
use vb_walk::others;

/// Returns the window of `count` bits from bit `at` on, at most 64, as one number, with a 1 for
/// each bit that is `value`. Its digits from `count` on are 0.
#[inline(always)]
pub(crate) fn read_matches(bytes: &[u8], at: usize, count: usize, value: bool) -> u64
    requires in_word { count ≤ 64 }
    requires inside { at + count ≤ 8 * length bytes.now }
    ensures digits { digits result 0 count ≡ hits value (bits bytes.now at count) }
    ensures clear { result < 2 ^ count }
{
    let word = read_short(bytes, at, count);
    if value {
        word
    } else {
        low_digits(!word, count)
    }
}

/// Returns the word that ends with the byte of the last bit before bit `end`, with a 1 for each bit
/// that is `value`, shifted so that this last bit is its highest digit. The bits from `end` on are
/// shifted out.
#[inline(always)]
pub(crate) fn matches_before(bytes: &[u8], end: usize, value: bool) -> u64
    requires eight { 56 < end }
    requires inside { end ≤ 8 * length bytes.now }
    ensures { ShowsBefore value bytes.now end ((8 - end % 8) % 8) result }
{
    others(word_at(bytes, end.div_ceil(8) - 8), !value) << ((8 - end % 8) % 8)
}

/// Returns a word that is 0 exactly if no bit of the `n` words from byte `at` on is `value`: it has
/// a 1 for each digit that is `value` in some word.
#[inline(always)]
pub(crate) fn digits_of_any(bytes: &[u8], at: usize, n: usize, value: bool) -> u64
    requires { at + 8 * n ≤ length bytes.now }
    ensures none { result ≡ 0 → (i : ℕ) → i < 64 * n → bit_of bytes.now (8 * at + i) ≡ not value }
    ensures some { 0 < result → 0 < count (hits value (bits bytes.now (8 * at) (64 * n))) }
{
    let mut digits = 0;
    for k in 0..n {
        digits |= others(word_at(bytes, at + 8 * k), !value);
    }
    digits
}
