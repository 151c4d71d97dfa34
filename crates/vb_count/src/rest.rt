//! Counts the set bits of fewer than 64 bytes, by words and bytes.
//!
//! No part is a loop: for so few looks the tests of a loop take longer than the counts. Adjacent
//! bytes are combined into one number, which the compiler loads at once.
ghost use Rattle.std.specs.Prelude.{◌≡◌, ◌+◌, ◌-◌, ◌*◌, ◌/◌, ◌%◌, ◌^◌, ◌<◌, ◌≤◌, length, min};
ghost use Rattle.vb_bits.specs.Bits.{bits, count};
ghost use Rattle.vb_bits.specs.InBytes.{InBytes};
ghost use Rattle.vb_count.specs.Looks.{LooksExactly};
ghost use Rattle.vb_count.specs.Looks.{rest_looks};

use crate::glance::Glance;
use crate::word::byte_part;

/// Returns `ones` plus the number of set bits in `len` bits, fewer than 512, from byte `at` on.
#[tactic(auto, using(vb_bits::proofs::BitsLemmas::windows))]
#[inline(always)]
pub(crate) fn add_rest<G: Glance>(src: &mut G, at: usize, len: usize, ones: usize) -> usize
    requires few { len < 512 }
    requires window { InBytes (G.seen src.old).bytes (8 * at) len }
    requires room { ones + len < 2 ^ 64 }
    ensures value { result ≡ ones + count (bits (G.seen src.old).bytes (8 * at) len) }
    ensures looks { LooksExactly (rest_looks len) (G.seen src.old) (G.seen src.new) }
{
    let words = add_words(src, at, len / 64, ones);
    let bytes = add_bytes(src, at + len / 64 * 8, len % 64 / 8, words);
    add_tail(src, at + len / 8, len % 8, bytes)
}

/// Returns `ones` plus the number of set bits in `n` words, at most seven, from byte `at` on.
#[tactic(auto, using(vb_bits::proofs::BitsLemmas::windows))]
fn add_words<G: Glance>(src: &mut G, at: usize, n: usize, ones: usize) -> usize
    requires few { n < 8 }
    requires inside { at + 8 * n ≤ length (G.seen src.old).bytes }
    requires fits { at + 8 * n < 2 ^ 64 }
    requires room { ones + 64 * n < 2 ^ 64 }
    ensures value { result ≡ ones + count (bits (G.seen src.old).bytes (8 * at) (64 * n)) }
    ensures looks { LooksExactly n (G.seen src.old) (G.seen src.new) }
{
    let first = add_pair(src, at, n / 2, 0, ones);
    let second = add_pair(src, at, n / 2, 1, first);
    let pairs = add_pair(src, at, n / 2, 2, second);
    if n % 2 == 0 {
        pairs
    } else {
        pairs + count_word(src, at + 8 * n - 8)
    }
}

/// Returns `ones` plus the number of set bits in pair `k` of the `pairs` pairs of words from byte
/// `at` on, or `ones` if there is no such pair.
///
/// It counts two words at once and no more: the compiler would count four adjacent words as a
/// vector, which takes longer.
fn add_pair<G: Glance>(src: &mut G, at: usize, pairs: usize, k: usize, ones: usize) -> usize
    requires inside { at + 16 * pairs ≤ length (G.seen src.old).bytes }
    requires fits { at + 16 * pairs < 2 ^ 64 }
    requires room { ones + 128 * (pairs - k) < 2 ^ 64 }
    ensures value { result + count (bits (G.seen src.old).bytes (8 * at) (128 * min k pairs))
        ≡ ones + count (bits (G.seen src.old).bytes (8 * at) (128 * min (k + 1) pairs)) }
    ensures few { result ≤ ones + 128 * min (pairs - k) 1 }
    ensures looks { LooksExactly (2 * min (pairs - k) 1) (G.seen src.old) (G.seen src.new) }
{
    if pairs <= k {
        return ones;
    }
    let first = count_word(src, at + 16 * k);
    let second = count_word(src, at + 16 * k + 8);
    ones + (first + second)
}

/// Returns `ones` plus the number of set bits in `n` bytes, at most seven, from byte `at` on.
#[tactic(auto, using(vb_bits::proofs::BitsLemmas::windows))]
fn add_bytes<G: Glance>(src: &mut G, at: usize, n: usize, ones: usize) -> usize
    requires few { n < 8 }
    requires inside { at + n ≤ length (G.seen src.old).bytes }
    requires fits { at + n < 2 ^ 64 }
    requires room { ones + 8 * n < 2 ^ 64 }
    ensures value { result ≡ ones + count (bits (G.seen src.old).bytes (8 * at) (8 * n)) }
    ensures looks { LooksExactly n (G.seen src.old) (G.seen src.new) }
{
    let four = add_four_bytes(src, at, n, ones);
    let six = add_two_bytes(src, at + n / 4 * 4, n % 4, four);
    if n % 2 == 0 {
        six
    } else {
        six + src.byte(at + n - 1).count_ones() as usize
    }
}

/// Returns `ones` plus the number of set bits in the four bytes from `at` on if `n` is at least
/// four, else `ones`.
fn add_four_bytes<G: Glance>(src: &mut G, at: usize, n: usize, ones: usize) -> usize
    requires few { n < 8 }
    requires inside { at + n ≤ length (G.seen src.old).bytes }
    requires fits { at + n < 2 ^ 64 }
    requires room { ones + 8 * n < 2 ^ 64 }
    ensures value { result ≡ ones + count (bits (G.seen src.old).bytes (8 * at) (32 * (n / 4))) }
    ensures looks { LooksExactly (4 * (n / 4)) (G.seen src.old) (G.seen src.new) }
{
    if n < 4 {
        return ones;
    }
    let bytes = [
        src.byte(at),
        src.byte(at + 1),
        src.byte(at + 2),
        src.byte(at + 3),
    ];
    ones + u32::from_le_bytes(bytes).count_ones() as usize
}

/// Returns `ones` plus the number of set bits in the two bytes from `at` on if `n` is at least two,
/// else `ones`.
fn add_two_bytes<G: Glance>(src: &mut G, at: usize, n: usize, ones: usize) -> usize
    requires few { n < 4 }
    requires inside { at + n ≤ length (G.seen src.old).bytes }
    requires fits { at + n < 2 ^ 64 }
    requires room { ones + 8 * n < 2 ^ 64 }
    ensures value { result ≡ ones + count (bits (G.seen src.old).bytes (8 * at) (16 * (n / 2))) }
    ensures looks { LooksExactly (2 * (n / 2)) (G.seen src.old) (G.seen src.new) }
{
    if n < 2 {
        return ones;
    }
    let bytes = [src.byte(at), src.byte(at + 1)];
    ones + u16::from_le_bytes(bytes).count_ones() as usize
}

/// Returns `ones` plus the number of set bits among the first `len` of byte `at`.
fn add_tail<G: Glance>(src: &mut G, at: usize, len: usize, ones: usize) -> usize
    requires few { len < 8 }
    requires inside { 8 * at + len ≤ 8 * length (G.seen src.old).bytes }
    requires room { ones + len < 2 ^ 64 }
    ensures value { result ≡ ones + count (bits (G.seen src.old).bytes (8 * at) len) }
    ensures looks { LooksExactly (min len 1) (G.seen src.old) (G.seen src.new) }
{
    if len == 0 {
        return ones;
    }
    ones + byte_part(src.byte(at), 0, len, true).count_ones() as usize
}

/// Returns the number of set bits in the word at byte `at`.
fn count_word<G: Glance>(src: &mut G, at: usize) -> usize
    requires inside { at + 8 ≤ length (G.seen src.old).bytes }
    ensures value { result ≡ count (bits (G.seen src.old).bytes (8 * at) 64) }
    ensures few { result ≤ 64 }
    ensures looks { LooksExactly 1 (G.seen src.old) (G.seen src.new) }
{
    src.word(at).count_ones() as usize
}
