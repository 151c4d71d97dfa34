//! The digits of words.
ghost use Rattle.std.specs.Prelude.{◌≡◌, ◌⊎◌, ℕ, ◌+◌, ◌^◌, ◌<◌, ◌≤◌};
ghost use Rattle.vb_bits.specs.Digits.{digits, has_bit};

/// Returns digit `i` of `word`, counted from the lowest one. The caller must prove that `i` is
/// below 64.
#[inline(always)]
pub fn digit(word: u64, i: usize) -> bool
    requires { i < 64 }
    ensures { result ≡ has_bit word i }
{
    (word >> i) & 1 == 1
}

/// Returns the `n` lowest digits of `word`, with zeros above them. The caller must prove that `n`
/// is at most 64.
#[inline(always)]
pub fn low_digits(word: u64, n: usize) -> u64
    requires in_word { n ≤ 64 }
    ensures digits { digits result 0 n ≡ digits word 0 n }
    ensures clear { result < 2 ^ n }
{
    if n == 64 { word } else { word & ((1 << n) - 1) }
}

/// Returns `old` with its `count` digits from digit `from` on replaced by the lowest digits of
/// `word`.
#[inline(always)]
pub(crate) fn with_digits(old: u64, from: usize, count: usize, word: u64) -> u64
    requires some { 0 < count }
    requires in_word { from + count ≤ 64 }
    ensures inside { digits result from count ≡ digits word 0 count }
    ensures others { (i : ℕ) → i < 64 → (i < from) ⊎ (from + count ≤ i)
        → has_bit result i ≡ has_bit old i }
{
    let mask = (u64::MAX >> (64 - count)) << from;
    (old & !mask) | ((word << from) & mask)
}
