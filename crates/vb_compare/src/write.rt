//! Truth values written as bits.
ghost use Rattle.std.specs.Prelude.{◌≡◌, ◌+◌, ◌-◌, ◌*◌, ◌^◌, ◌<◌, ◌≤◌, ◌%◌, length, take};
ghost use Rattle.std.specs.Prelude.{drop};
ghost use Rattle.vb_compare.specs.Digits.{digits};
ghost use Rattle.vb_compare.specs.InBytes.{InBytes};
ghost use Rattle.vb_compare.specs.Writes.{Writes};

use crate::few::{eight, last_values, word_from};
use crate::truths::Truths;
use vb_bits::{write_digits, write_in_byte, write_word};

/// Writes the truth values of `source` to the bits of `out` from bit `offset` on. No other bit
/// changes.
///
/// These bits must be in `out`, and `offset` plus the number of truth values must fit in a `usize`.
/// The call is inlined, so that each kind of truth values has its own loops. Does not allocate.
#[inline(always)]
pub fn write_truths<S: Truths>(out: &mut [u8], offset: usize, source: &S)
    requires { InBytes out.old offset (length (S.truths source.now)) }
    ensures { Writes out.old out.new offset (S.truths source.now) }
{
    let len = source.len();
    if len < 64 {
        write_digits(out, offset, len, last_values(source, len));
    } else {
        write_many(out, offset, source);
    }
}

/// Does [`write_truths`] for at least 64: writes those in a partial first byte, then whole words of
/// bytes, and then those left.
#[inline(always)]
fn write_many<S: Truths>(out: &mut [u8], offset: usize, source: &S)
    requires many { 64 ≤ length (S.truths source.now) }
    requires window { InBytes out.old offset (length (S.truths source.now)) }
    ensures { Writes out.old out.new offset (S.truths source.now) }
{
    let len = source.len();
    let head = (8 - offset % 8) % 8;
    write_head(out, offset, source, head);
    write_words(out, offset, source, head, (len - head) / 64);
    write_rest(out, offset, source, (len - head) % 64);
}

/// Does [`write_truths`] for the first `n` truth values. `n` must be below 8, and there must be at
/// least 64 truth values. The bits must be in one byte.
#[inline(always)]
fn write_head<S: Truths>(out: &mut [u8], offset: usize, source: &S, n: usize)
    requires few { n < 8 }
    requires enough { 64 ≤ length (S.truths source.now) }
    requires in_byte { offset % 8 + n ≤ 8 }
    requires window { InBytes out.old offset (length (S.truths source.now)) }
    ensures { Writes out.old out.new offset (take n (S.truths source.now)) }
{
    if n != 0 {
        write_in_byte(out, offset, n, first_digits(source));
    }
}

/// Returns a word whose lowest bits are the first eight truth values, of at least 64.
#[inline(always)]
fn first_digits<S: Truths>(source: &S) -> u64
    requires fits { length (S.truths source.now) < 2 ^ 64 }
    requires enough { 64 ≤ length (S.truths source.now) }
    ensures { digits result 0 8 ≡ take 8 (S.truths source.now) }
{
    if S::IS_WIDE {
        eight(source, 0)
    } else {
        source.word(0)
    }
}

/// Does [`write_truths`] for the `64 * words` truth values from index `from` on. The first of their
/// bits must be the first bit of a byte.
#[inline(always)]
fn write_words<S: Truths>(out: &mut [u8], offset: usize, source: &S, from: usize, words: usize)
    requires whole { (offset + from) % 8 ≡ 0 }
    requires there { from + 64 * words ≤ length (S.truths source.now) }
    requires window { InBytes out.old offset (length (S.truths source.now)) }
    ensures { Writes out.old out.new (offset + from)
        (take (64 * words) (drop from (S.truths source.now))) }
{
    let first = (offset + from) / 8;
    for k in 0..words {
        store_word(out, first + 8 * k, word_from(source, from + 64 * k));
    }
}

/// Does [`write_truths`] for the last `n` truth values. `n` must be below 64, and there must be at
/// least 64 truth values. The first of their bits must be the first bit of a byte.
///
/// Passes only the bytes from that byte on to `write_digits`, so that no byte that was just written
/// is read: a load of such bytes waits for their store.
#[inline(always)]
fn write_rest<S: Truths>(out: &mut [u8], offset: usize, source: &S, n: usize)
    requires few { n < 64 }
    requires enough { 64 ≤ length (S.truths source.now) }
    requires whole { (offset + (length (S.truths source.now) - n)) % 8 ≡ 0 }
    requires window { InBytes out.old offset (length (S.truths source.now)) }
    ensures { Writes out.old out.new (offset + (length (S.truths source.now) - n))
        (drop (length (S.truths source.now) - n) (S.truths source.now)) }
{
    if n != 0 {
        let first = (offset + (source.len() - n)) / 8;
        write_digits(&mut out[first..], 0, n, rest_digits(source, n));
    }
}

/// Returns a word whose lowest bits are the last `n` truth values. `n` must be below 64, and there
/// must be at least 64 truth values.
///
/// Up to two eights are faster than a word of 64; wide values are always computed by eights.
#[inline(always)]
fn rest_digits<S: Truths>(source: &S, n: usize) -> u64
    requires few { n < 64 }
    requires enough { 64 ≤ length (S.truths source.now) }
    ensures { digits result 0 n
        ≡ drop (length (S.truths source.now) - n) (S.truths source.now) }
{
    if S::IS_WIDE || n <= 16 {
        last_values(source, n)
    } else {
        source.word(source.len() - 64) >> (64 - n)
    }
}

/// Writes the bytes of `word` from byte `at` on.
///
/// Not inlined: when the results of a comparison are stored right away, the compiler stores each
/// lane of its vector separately, which is slower at x86-64-v3.
#[inline(never)]
fn store_word(out: &mut [u8], at: usize, word: u64)
    requires { at + 8 ≤ length out.old }
    ensures { Writes out.old out.new (8 * at) (digits word 0 64) }
{
    write_word(out, at, word);
}
