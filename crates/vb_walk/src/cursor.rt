//! The position of a walk over a window, word by word.
ghost use Rattle.std.specs.Prelude.{◌≡◌, ℕ, ◌+◌, ◌-◌, ◌*◌, ◌%◌, ◌^◌, ◌<◌, ◌≤◌, ◌↔◌, length, IsTrue};
ghost use Rattle.std.specs.Prelude.{false};
ghost use Rattle.vb_bits.specs.Bits.{bit_of, bits};
ghost use Rattle.vb_bits.specs.Digits.{digits};
ghost use Rattle.vb_bits.specs.InBytes.{InBytes};
ghost use Rattle.vb_walk.specs.Walks.{
  bits_ahead,
  stop,
  at_word,
  pending_bit,
  IsAtRest,
  IsCursor,
  IsRefilled,
  IsSkipped,
};

use crate::other_word::{OtherWord, first_other};
use vb_bits::read_bits;

/// The current word of the window of bits from bit `offset` on, and the bits after it.
#[derive(Clone, Copy, Debug)]
pub(crate) struct Cursor {
    /// The first bit of the window. Indices are relative to it.
    pub(crate) offset: usize,
    /// The index of the current word's lowest digit.
    pub(crate) base: usize,
    /// The index after the current word.
    pub(crate) next: usize,
    /// The byte at which the whole words ahead start.
    pub(crate) byte: usize,
    /// The byte after these words.
    pub(crate) end: usize,
    /// The number of bits after the whole words, fewer than 64.
    pub(crate) left: usize,
    /// The current word. The digits already visited are 0.
    pub(crate) word: u64,
}

impl Cursor {
    /// Returns the cursor at the front of the window of `len` bits from bit `offset` on.
    ///
    /// The first word ends where a byte ends, if the window continues after it. So each whole word
    /// starts at a byte boundary.
    #[inline]
    pub(crate) fn new(bytes: &[u8], offset: usize, len: usize) -> Cursor
        requires window { InBytes bytes.now offset len }
        ensures valid { IsCursor bytes.now result }
        ensures base { result.base ≡ 0 }
        ensures stop { stop result ≡ len }
        ensures bits { (i : ℕ) → i < len
            → pending_bit bytes.now result i ≡ bit_of bytes.now (offset + i) }
    {
        let count = len.min(64 - offset % 8);
        let byte = (offset + count) / 8;
        Cursor {
            offset,
            base: 0,
            next: count,
            byte,
            end: byte + (len - count) / 64 * 8,
            left: (len - count) % 64,
            word: read_rest(bytes, offset, count),
        }
    }

    /// Returns whether any bits are left after the current word.
    #[inline(always)]
    pub(crate) fn has_more(self) -> bool
        requires { self.byte ≤ self.end }
        ensures { IsTrue result ↔ (0 < bits_ahead self) }
    {
        self.byte < self.end || self.left > 0
    }

    /// Returns the cursor with `other`, one of the whole words ahead, as its current word.
    #[inline(always)]
    fn at_word(self, other: OtherWord) -> Cursor
        requires ahead { self.offset + 64 ≤ 8 * other.behind }
        requires fits { 8 * other.behind < 2 ^ 64 }
        ensures { result ≡ at_word self other }
    {
        let next = 8 * other.behind - self.offset;
        Cursor {
            base: next - 64,
            next,
            byte: other.behind,
            word: other.word,
            ..self
        }
    }

    /// Returns the cursor with the bits after the whole words as its current word.
    #[inline(always)]
    fn at_rest(self, bytes: &[u8]) -> Cursor
        requires valid { IsCursor bytes.now self }
        requires more { 0 < bits_ahead self }
        ensures { IsAtRest bytes.now self result }
    {
        let base = 8 * self.end - self.offset;
        Cursor {
            base,
            next: base + self.left,
            byte: self.end,
            left: 0,
            word: read_rest(bytes, 8 * self.end, self.left),
            ..self
        }
    }

    /// Returns the cursor at the next word with a digit that isn't `value`, or else at the bits
    /// after the whole words.
    #[inline(always)]
    pub(crate) fn refill(self, bytes: &[u8], value: bool) -> Cursor
        requires valid { IsCursor bytes.now self }
        requires more { 0 < bits_ahead self }
        ensures { IsRefilled bytes.now self value result }
    {
        match first_other(bytes, self.byte, self.end, value) {
            Some(other) => self.at_word(other),
            None => self.at_rest(bytes),
        }
    }

    /// Returns the cursor at a word that isn't 0, if any is left.
    #[inline(always)]
    pub(crate) fn skip_zeros(self, bytes: &[u8]) -> Cursor
        requires { IsCursor bytes.now self }
        ensures { IsSkipped bytes.now self result }
    {
        if self.word != 0 {
            return self;
        }
        match first_other(bytes, self.byte, self.end, false) {
            Some(other) => self.at_word(other),
            None if self.has_more() => self.at_rest(bytes),
            None => self,
        }
    }
}

/// [`read_bits`], not inlined, so that a walk keeps no registers for it.
#[inline(never)]
fn read_rest(bytes: &[u8], at: usize, count: usize) -> u64
    requires in_word { count ≤ 64 }
    requires inside { at + count ≤ 8 * length bytes.now }
    ensures digits { digits result 0 count ≡ bits bytes.now at count }
    ensures clear { result < 2 ^ count }
{
    read_bits(bytes, at, count)
}
