//! Iterates over a window as words of 64 bits from its first bit on.
ghost use Rattle.std.specs.Prelude.{◌≡◌, ◌+◌, ◌*◌, ◌/◌, ◌%◌, ◌^◌, ◌<◌, ◌≤◌, length, Some, IfSome};
ghost use Rattle.std.specs.Iterator.{YieldsFirst, UpTo, at_most, item_count};
ghost use Rattle.std.specs.Iterator.SizeHint.{IsWithinCount};
ghost use Rattle.vb_bits.specs.Bits.{bits};
ghost use Rattle.vb_bits.specs.InBytes.{InBytes};
ghost use Rattle.vb_core.specs.ExactCounts.{list_counts};
ghost use Rattle.vb_walk.specs.Words.{word, full_words, padded_words};

use std::marker::Model;
use vb_bits::{full_word, read_bits};
use vb_core::TrustedLen;

/// The bits of a window as words of 64 bits: word `k` has bit `64 * k` as its lowest digit.
///
/// Contracts see the list of the bits.
#[derive(Clone, Debug, Drop)]
pub struct BitChunks<'a> {
    bytes: &'a [u8],
    offset: usize,
    len: usize,
}

impl<'a> Model for BitChunks<'a> {
    ghost use Rattle.std.specs.Prelude.{List, Bool, length, ◌≤◌, ◌<◌, ◌+◌, ◌*◌, ◌^◌};
    ghost use Rattle.vb_bits.specs.Bits.{bits};

    ghost Value = { List Bool };

    ghost view = { λ s. bits s.bytes.now s.offset s.len };

    ghost invariant = { λ s. record {
      inside : s.offset + s.len ≤ 8 * length s.bytes.now;
      fits : s.offset + s.len < 2 ^ 64;
    } };
}

#[tactic(auto, using(crate::proofs::WordsLemmas::chunks))]
impl<'a> BitChunks<'a> {
    /// Returns the words of the `len` bits from bit `offset` on. The caller must prove that they
    /// are in bounds and that `offset + len` fits in a `usize`.
    pub fn new(bytes: &'a [u8], offset: usize, len: usize) -> Self
        requires window { InBytes bytes.now offset len }
        ensures value { result ≡ bits bytes.now offset len }
        ensures len { length result ≡ len }
    {
        BitChunks { bytes, offset, len }
    }

    /// Returns the number of full words.
    pub fn chunk_len(&self) -> usize
        ensures { result ≡ length self.now / 64 }
    {
        self.len / 64
    }

    /// Returns the number of bits after the full words.
    pub fn remainder_len(&self) -> usize
        ensures { result ≡ length self.now % 64 }
    {
        self.len % 64
    }

    /// Returns the bits after the full words as one number, whose other digits are 0.
    pub fn remainder_bits(&self) -> u64
        ensures { result ≡ word self.now (length self.now / 64) }
    {
        let full = self.len / 64 * 64;
        read_bits(self.bytes, self.offset + full, self.len - full)
    }

    /// Returns an iterator over the full words.
    pub fn iter(&self) -> BitChunkIterator<'a>
        ensures { result ≡ full_words self.now }
    {
        BitChunkIterator::new(self.bytes, self.offset, self.len)
    }

    /// Returns an iterator over the full words, and then always one more word with the remaining
    /// bits.
    pub fn iter_padded(&self) -> PaddedChunkIterator<'a>
        ensures { result ≡ padded_words self.now }
    {
        PaddedChunkIterator {
            chunks: self.iter(),
            remainder: Some(self.remainder_bits()),
        }
    }
}

/// An iterator over the full words of a window. Contracts see the list of the remaining words.
#[derive(Clone, Debug, Drop)]
pub struct BitChunkIterator<'a> {
    bytes: &'a [u8],
    byte: usize,
    shift: usize,
    left: usize,
}

impl<'a> Model for BitChunkIterator<'a> {
    ghost use Rattle.std.specs.Prelude.{List, ℕ, length, ◌≤◌, ◌<◌, ◌+◌, ◌*◌, ◌^◌};
    ghost use Rattle.vb_bits.specs.Bits.{bits};
    ghost use Rattle.vb_walk.specs.Words.{words};

    ghost Value = { List ℕ };

    ghost view = { λ s. words (bits s.bytes.now (8 * s.byte + s.shift) (64 * s.left)) s.left };

    ghost invariant = { λ s. record {
      in_byte : s.shift < 8;
      inside : 8 * s.byte + s.shift + 64 * s.left ≤ 8 * length s.bytes.now;
      fits : 8 * s.byte + s.shift + 64 * s.left < 2 ^ 64;
    } };
}

#[tactic(auto, using(crate::proofs::WordsLemmas::chunks))]
impl<'a> BitChunkIterator<'a> {
    /// Returns an iterator over the full words of the `len` bits from bit `offset` on; it omits the
    /// bits after them, fewer than 64. The caller must prove that the bits are in bounds and that
    /// `offset + len` fits in a `usize`.
    pub fn new(bytes: &'a [u8], offset: usize, len: usize) -> Self
        requires window { InBytes bytes.now offset len }
        ensures { result ≡ full_words (bits bytes.now offset len) }
    {
        BitChunkIterator {
            bytes,
            byte: offset / 8,
            shift: offset % 8,
            left: len / 64,
        }
    }

    /// Returns the number of remaining words.
    pub fn len(&self) -> usize
        ensures value { result ≡ length self.now }
        ensures few { result < 2 ^ 58 }
    {
        self.left
    }
}

#[tactic(auto, using(crate::proofs::WordsLemmas::chunks))]
impl Iterator for BitChunkIterator<'_> {
    type Item = u64;

    ghost next_gives = { YieldsFirst (λ s. s) };

    ghost remaining = { item_count (λ s. s) };

    #[inline(always)]
    fn next(&mut self) -> Option<u64> {
        if self.left == 0 {
            return None;
        }
        let word = full_word(self.bytes, self.byte, self.shift);
        self.byte += 8;
        self.left -= 1;
        Some(word)
    }

    /// Returns the number of remaining words as both bounds.
    fn size_hint(&self) -> (usize, Option<usize>)
        ensures exact { result ≡ (length self.now, Some (length self.now)) }
        ensures lower { IsWithinCount result.0 (at_most (length self.now)) }
        ensures upper { IfSome result.1 (UpTo (at_most (length self.now))) }
    {
        (self.len(), Some(self.len()))
    }
}

impl TrustedLen for BitChunkIterator<'_> {
    ghost left = { length };

    ghost counts = { list_counts (λ x. x) (λ s. s) };

    fn exact_len(&self) -> usize {
        self.len()
    }
}

/// An iterator over the full words of a window, and then one more word with the bits after them.
/// Contracts see the list of the remaining words.
#[derive(Clone, Debug, Drop)]
pub struct PaddedChunkIterator<'a> {
    chunks: BitChunkIterator<'a>,
    remainder: Option<u64>,
}

impl<'a> Model for PaddedChunkIterator<'a> {
    ghost use Rattle.std.specs.Prelude.{List, ℕ, ◌++◌};
    ghost use Rattle.vb_walk.specs.Words.{item_of};

    ghost Value = { List ℕ };

    ghost view = { λ s. s.chunks ++ item_of s.remainder };
}

#[tactic(auto, using(crate::proofs::WordsLemmas::chunks))]
impl PaddedChunkIterator<'_> {
    /// Returns the number of remaining words.
    pub fn len(&self) -> usize
        ensures { result ≡ length self.now }
    {
        match self.remainder {
            Some(_) => self.chunks.len() + 1,
            None => self.chunks.len(),
        }
    }
}

#[tactic(auto, using(crate::proofs::WordsLemmas::chunks))]
impl Iterator for PaddedChunkIterator<'_> {
    type Item = u64;

    ghost next_gives = { YieldsFirst (λ s. s) };

    ghost remaining = { item_count (λ s. s) };

    #[inline(always)]
    fn next(&mut self) -> Option<u64> {
        match self.chunks.next() {
            Some(word) => Some(word),
            None => self.remainder.take(),
        }
    }

    /// Returns the number of remaining words as both bounds.
    fn size_hint(&self) -> (usize, Option<usize>)
        ensures exact { result ≡ (length self.now, Some (length self.now)) }
        ensures lower { IsWithinCount result.0 (at_most (length self.now)) }
        ensures upper { IfSome result.1 (UpTo (at_most (length self.now))) }
    {
        (self.len(), Some(self.len()))
    }
}

impl TrustedLen for PaddedChunkIterator<'_> {
    ghost left = { length };

    ghost counts = { list_counts (λ x. x) (λ s. s) };

    fn exact_len(&self) -> usize {
        self.len()
    }
}
