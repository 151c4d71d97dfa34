//! Packs the results of a closure into words of 64 digits.
ghost use Rattle.std.specs.Prelude.{◌≡◌, ℕ, ◌+◌, ◌-◌, ◌*◌, ◌/◌, ◌%◌, ◌^◌, ◌<◌, ◌≤◌, ◌⊎◌, false};
ghost use Rattle.std.specs.Prelude.{length};
ghost use Rattle.vb_pack.specs.Asked.{Answers, CanAsk, span};
ghost use Rattle.vb_pack.specs.Digits.{digits};
ghost use Rattle.vb_pack.specs.WordBits.{WritesWords, filled_to, word_bit, word_bits};

use crate::collect::{collect_full, collect_part};
use crate::pack::{Lanes, Multiply, Pack};

/// Calls `f` with each number below `len`, in ascending order, and packs the results into the first
/// words, 64 per word, least significant bit first. Clears the bits after them in the last word
/// that it writes; later words are unchanged. The caller must prove that `words` has at least `len`
/// bits and that `f` can be called with these numbers.
///
/// It packs full words by multiplication, and the rest bit by bit.
pub fn collect_bool_words<F: FnMut(usize) -> bool>(words: &mut [u64], len: usize, f: &mut F)
    requires room { len ≤ 64 * length words.old }
    requires callable { CanAsk (F.pre) (F.step) f.old (span 0 len) }
    ensures answered { Answers (F.step) f.old (span 0 len) (word_bits words.new 0 len) f.new }
    ensures written { WritesWords words.old words.new 0
        (filled_to 64 (word_bits words.new 0 len)) }
{
    collect_words::<Multiply, F>(words, len, f);
}

/// Calls `f` with each number below `len`, in ascending order, and packs the results into the first
/// words, 64 per word, least significant bit first. Clears the bits after them in the last word
/// that it writes; later words are unchanged. The caller must prove that `words` has at least `len`
/// bits and that `f` can be called with these numbers.
///
/// It packs full words by vectors of bytes. Despite the name, it chooses no version at run time: it
/// is compiled for the processor level of the build.
pub fn collect_bool_words_multiversioned<F: FnMut(usize) -> bool>(
    words: &mut [u64],
    len: usize,
    f: &mut F,
)
    requires room { len ≤ 64 * length words.old }
    requires callable { CanAsk (F.pre) (F.step) f.old (span 0 len) }
    ensures answered { Answers (F.step) f.old (span 0 len) (word_bits words.new 0 len) f.new }
    ensures written { WritesWords words.old words.new 0
        (filled_to 64 (word_bits words.new 0 len)) }
{
    collect_words::<Lanes, F>(words, len, f);
}

/// [`collect_bool_words`], with full words packed by `P`.
#[inline(always)]
fn collect_words<P: Pack, F: FnMut(usize) -> bool>(words: &mut [u64], len: usize, f: &mut F)
    requires room { len ≤ 64 * length words.old }
    requires callable { CanAsk (F.pre) (F.step) f.old (span 0 len) }
    ensures answered { Answers (F.step) f.old (span 0 len) (word_bits words.new 0 len) f.new }
    ensures written { WritesWords words.old words.new 0
        (filled_to 64 (word_bits words.new 0 len)) }
{
    let full = len / 64;
    for k in 0..full {
        words[k] = collect_full::<P, F>(64 * k, f);
    }
    let rest = len % 64;
    if rest != 0 {
        words[full] = collect_part(64 * full, rest, f);
    }
}

/// Writes the 64 bits of `word` to the 64 bits of `words` from bit `at` on. Bit `i` of `words` is
/// bit `i % 64` of word `i / 64`, least significant first. No other bit changes.
///
/// The caller must prove that bit `at` is in bounds, that all bits of `words` from bit `at` on are
/// 0, and that the bits of `word` past the last word are 0.
#[inline]
pub fn splice_word_at_bit(words: &mut [u64], at: usize, word: u64)
    requires place { at / 64 < length words.old }
    requires room { (word < 2 ^ (64 - at % 64)) ⊎ (at / 64 + 1 < length words.old) }
    requires clear { (i : ℕ) → at ≤ i → word_bit words.old i ≡ false }
    ensures { WritesWords words.old words.new at (digits word 0 64) }
{
    let first = at / 64;
    let shift = at % 64;
    words[first] |= word << shift;
    if shift != 0 && word >> (64 - shift) != 0 {
        words[first + 1] = word >> (64 - shift);
    }
}

/// Calls `f` with each number below `len`, in ascending order, and writes result `k` to bit
/// `at + k` of `words`. Bit `i` of `words` is bit `i % 64` of word `i / 64`, least significant
/// first. No other bit changes.
///
/// The caller must prove that the `len` bits from bit `at` on are in bounds, that `at + len` fits
/// in a `usize`, that all bits of `words` from bit `at` on are 0, and that `f` can be called with
/// these numbers.
///
/// It packs full words of results by multiplication, and the rest bit by bit.
pub fn pack_bools_into_words<F: FnMut(usize) -> bool>(
    words: &mut [u64],
    at: usize,
    len: usize,
    f: &mut F,
)
    requires room { at + len ≤ 64 * length words.old }
    requires fits { at + len < 2 ^ 64 }
    requires clear { (i : ℕ) → at ≤ i → word_bit words.old i ≡ false }
    requires callable { CanAsk (F.pre) (F.step) f.old (span 0 len) }
    ensures answered { Answers (F.step) f.old (span 0 len) (word_bits words.new at len) f.new }
    ensures written { WritesWords words.old words.new at (word_bits words.new at len) }
{
    let full = len / 64;
    for k in 0..full {
        let word = collect_full::<Multiply, F>(64 * k, f);
        splice_word_at_bit(words, at + 64 * k, word);
    }
    let rest = len % 64;
    if rest != 0 {
        let word = collect_part(64 * full, rest, f);
        splice_word_at_bit(words, at + 64 * full, word);
    }
}
