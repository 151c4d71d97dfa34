//! Calls a closure for each true bit, each false bit or each bit of a set, in ascending order, word
//! by word.
ghost use Rattle.std.specs.Prelude.{◌≡◌, ℕ, ◌+◌, ◌*◌, ◌%◌, ◌^◌, ◌<◌, ◌≤◌, true, length, Ok};
ghost use Rattle.std.specs.Prelude.{MatchResult};
ghost use Rattle.std.specs.List.{FoldsTo};
ghost use Rattle.vb_bit_buffer.specs.Called.{places_of, ones_of};
ghost use Rattle.vb_bit_buffer.specs.Stops.{StopsWith};
ghost use Rattle.vb_bit_bytes.specs.AskedOf.{asked_of};
ghost use Rattle.vb_bits.specs.Bits.{at, bit_of, bits, holes, places};
ghost use Rattle.vb_bits.specs.Digits.{digits, has_bit};
ghost use Rattle.vb_bits.specs.InBytes.{InBytes};
ghost use Rattle.vb_pack.specs.Asked.{CanAsk, span};

use super::BitBuffer;
use std::alloc::Allocator;
use vb_bits::{digit, low_digits, read_bits, read_word};
use vb_walk::{first_other, others};

#[tactic(auto, using(crate::proofs::SetLemmas::sets))]
impl<A: Allocator + Clone> BitBuffer<A> {
    /// Calls `f` with the index of each true bit, in ascending order. The caller must prove that
    /// `f` may be called with each of them. Reads the bits by words, and does not allocate.
    pub fn for_each_set_index<F: FnMut(usize)>(&self, f: &mut F)
        requires { CanAsk (F.pre) (F.step) f.old (places self.now.bits) }
        ensures { FoldsTo (λ p i q. F.step p i tt q) f.old (places self.now.bits) f.new }
    {
        for_each_place(self.buffer.as_slice(), self.offset, self.len, true, f);
    }

    /// Calls `f` with the index of each false bit, in ascending order. The caller must prove that
    /// `f` may be called with each of them. Reads the bits by words, and does not allocate.
    pub fn for_each_unset_index<F: FnMut(usize)>(&self, f: &mut F)
        requires { CanAsk (F.pre) (F.step) f.old (holes self.now.bits) }
        ensures { FoldsTo (λ p i q. F.step p i tt q) f.old (holes self.now.bits) f.new }
    {
        for_each_place(self.buffer.as_slice(), self.offset, self.len, false, f);
    }

    /// Calls `f` with each index and the bit there, in ascending order. The caller must prove that
    /// `f` may be called with each of them. Reads the bits by words, and does not allocate.
    pub fn iter_bits<F: FnMut(usize, bool)>(&self, f: &mut F)
        requires { CanAsk (λ p i. F.pre p i (at self.now.bits i))
            (asked_of F.step self.now.bits)
            f.old (span 0 (length self.now.bits)) }
        ensures { FoldsTo (λ p i q. asked_of F.step self.now.bits p i tt q)
            f.old (span 0 (length self.now.bits)) f.new }
    {
        for_each_bit(self.buffer.as_slice(), self.offset, self.len, f);
    }

    /// Calls `f` with the index of each true bit, in ascending order, until a call returns an
    /// error. Returns that error, and does not call `f` again. The caller must prove that `f` may
    /// be called with each index as long as no call returned an error. Reads the bits by words, and
    /// does not allocate.
    pub fn try_for_each_set_index<E, F: FnMut(usize) -> Result<(), E>>(
        &self,
        f: &mut F,
    ) -> Result<(), E>
        requires { CanAsk (F.pre) (λ p i r q. F.step p i (Ok r) q) f.old (places self.now.bits) }
        ensures { MatchResult result
            (λ _. FoldsTo (λ p i q. F.step p i (Ok tt) q) f.old (places self.now.bits) f.new)
            (λ e. StopsWith (F.step) f.old (places self.now.bits) e f.new) }
    {
        for i in self.set_indices() {
            f(i)?;
        }
        Ok(())
    }
}

/// Calls `f` with each index whose bit is `value`, in the window of `len` bits from `offset` on.
///
/// The first part ends at a byte boundary, so that the words begin with whole bytes.
#[inline(always)]
fn for_each_place<F: FnMut(usize)>(bytes: &[u8], offset: usize, len: usize, value: bool, f: &mut F)
    requires window { InBytes bytes.now offset len }
    requires callable { CanAsk (F.pre) (F.step) f.old (places_of bytes.now offset value 0 len) }
    ensures { FoldsTo (λ p i q. F.step p i tt q) f.old
        (places_of bytes.now offset value 0 len) f.new }
{
    let first = len.min(64 - offset % 8);
    places_in_part(bytes, offset, 0, first, value, f);
    let words = (len - first) / 64;
    places_in_words(bytes, offset, first, words, value, f);
    places_in_part(
        bytes,
        offset,
        first + 64 * words,
        (len - first) % 64,
        value,
        f,
    );
}

/// Calls `f` with each index whose bit is `value`, in the `words` words from index `base` on. Index
/// 0 is bit `offset`. The words begin at a byte boundary, and the loop skips words without such a
/// bit.
#[inline(always)]
fn places_in_words<F: FnMut(usize)>(
    bytes: &[u8],
    offset: usize,
    base: usize,
    words: usize,
    value: bool,
    f: &mut F,
)
    requires window { InBytes bytes.now (offset + base) (64 * words) }
    requires whole { 0 < words → (offset + base) % 8 ≡ 0 }
    requires callable { CanAsk (F.pre) (F.step) f.old
        (places_of bytes.now offset value base (64 * words)) }
    ensures { FoldsTo (λ p i q. F.step p i tt q) f.old
        (places_of bytes.now offset value base (64 * words)) f.new }
{
    let mut at = (offset + base) / 8;
    let end = at + 8 * words;
    while let Some(other) = first_other(bytes, at, end, !value) {
        at = other.behind;
        ones_or_all(others(other.word, !value), 8 * (at - 8) - offset, f);
    }
}

/// Calls `f` with each index whose bit is `value`, among the `len` indices from `base` on. Index 0
/// is bit `offset`, and there are at most 64 indices.
#[inline(always)]
fn places_in_part<F: FnMut(usize)>(
    bytes: &[u8],
    offset: usize,
    base: usize,
    len: usize,
    value: bool,
    f: &mut F,
)
    requires in_word { len ≤ 64 }
    requires window { InBytes bytes.now (offset + base) len }
    requires callable { CanAsk (F.pre) (F.step) f.old
        (places_of bytes.now offset value base len) }
    ensures { FoldsTo (λ p i q. F.step p i tt q) f.old
        (places_of bytes.now offset value base len) f.new }
{
    let word = others(read_bits(bytes, offset + base, len), !value);
    ones(low_digits(word, len), base, f);
}

/// Does the same as [`ones`], but counts through the indices of a word that is all ones, without
/// reading its digits.
#[inline(always)]
fn ones_or_all<F: FnMut(usize)>(word: u64, base: usize, f: &mut F)
    requires fits { (i : ℕ) → has_bit word i ≡ true → base + i < 2 ^ 64 }
    requires callable { CanAsk (F.pre) (F.step) f.old (ones_of word base) }
    ensures { FoldsTo (λ p i q. F.step p i tt q) f.old (ones_of word base) f.new }
{
    if word == u64::MAX {
        all(base, f);
    } else {
        ones(word, base, f);
    }
}

/// Calls `f` with the 64 indices from `base` on.
#[inline(always)]
fn all<F: FnMut(usize)>(base: usize, f: &mut F)
    requires fits { base + 63 < 2 ^ 64 }
    requires callable { CanAsk (F.pre) (F.step) f.old (span base 64) }
    ensures { FoldsTo (λ p i q. F.step p i tt q) f.old (span base 64) f.new }
{
    for i in 0..64 {
        f(base + i);
    }
}

/// Calls `f` with the index of each set bit of a word. The lowest digit has index `base`.
///
/// The loop counts down the number of ones, which is known before the first call. If many bits are
/// set, this is faster than a test after each call whether one is left.
#[inline(always)]
fn ones<F: FnMut(usize)>(word: u64, base: usize, f: &mut F)
    requires fits { (i : ℕ) → has_bit word i ≡ true → base + i < 2 ^ 64 }
    requires callable { CanAsk (F.pre) (F.step) f.old (ones_of word base) }
    ensures { FoldsTo (λ p i q. F.step p i tt q) f.old (ones_of word base) f.new }
{
    let mut left = word;
    for _ in 0..word.count_ones() {
        f(base + left.trailing_zeros() as usize);
        left &= left - 1;
    }
}

/// Calls `f` with each index of the window and the bit there.
#[inline(always)]
fn for_each_bit<F: FnMut(usize, bool)>(bytes: &[u8], offset: usize, len: usize, f: &mut F)
    requires window { InBytes bytes.now offset len }
    requires callable { CanAsk (λ p i. F.pre p i (at (bits bytes.now offset len) i))
        (asked_of F.step (bits bytes.now offset len)) f.old (span 0 len) }
    ensures { FoldsTo (λ p i q. asked_of F.step (bits bytes.now offset len) p i tt q)
        f.old (span 0 len) f.new }
{
    let full = len / 64;
    for k in 0..full {
        bits_in_word(bytes, offset, 64 * k, 64, f);
    }
    bits_in_word(bytes, offset, 64 * full, len % 64, f);
}

/// Calls `f` with each of the `len` indices from `base` on and the bit there. Index 0 is bit
/// `offset`, and there are at most 64 indices.
#[inline(always)]
fn bits_in_word<F: FnMut(usize, bool)>(
    bytes: &[u8],
    offset: usize,
    base: usize,
    len: usize,
    f: &mut F,
)
    requires in_word { len ≤ 64 }
    requires window { InBytes bytes.now (offset + base) len }
    requires callable { CanAsk (λ p i. F.pre p i (bit_of bytes.now (offset + i)))
        (λ p i r q. F.step p i (bit_of bytes.now (offset + i)) r q) f.old (span base len) }
    ensures { FoldsTo (λ p i q. F.step p i (bit_of bytes.now (offset + i)) tt q)
        f.old (span base len) f.new }
{
    let word = read_word(bytes, offset + base, len);
    for i in 0..len {
        f(base + i, digit(word, i));
    }
}
