//! Windows as words that start at whole bytes.
ghost use Rattle.std.specs.Prelude.{◌≡◌, ◌≢◌, ◌+◌, ◌*◌, ◌%◌, ◌^◌, ◌<◌, ◌≤◌, [], ◌++◌, length, map};
ghost use Rattle.std.specs.Prelude.{Some, None, IfSome};
ghost use Rattle.std.specs.Int.{div_ceil};
ghost use Rattle.std.specs.Iterator.{YieldsFirst, UpTo, at_most, item_count};
ghost use Rattle.std.specs.Iterator.SizeHint.{IsWithinCount};
ghost use Rattle.vb_bits.specs.Bits.{bits};
ghost use Rattle.vb_bits.specs.InBytes.{InBytes};
ghost use Rattle.vb_core.specs.ExactCounts.{list_counts};
ghost use Rattle.vb_walk.specs.Cut.{word_of, all_words, cut_words, IsCut};
ghost use Rattle.vb_walk.specs.Words.{words, item_of};

use std::marker::Model;
use std::slice::Iter;
use vb_bits::{read_bits, word_at};
use vb_core::TrustedLen;

/// A window of bits as words that start at whole bytes: the first word is the eight bytes from the
/// byte of the window's first bit on, least significant first, and each next word is the next eight
/// bytes. Bits outside of the window are 0.
///
/// The words between the first and the last one are borrowed from the bytes, not copied.
///
/// Contracts see the words and the paddings.
#[derive(Clone, Debug, Drop)]
pub struct UnalignedBitChunk<'a> {
    lead_padding: usize,
    trailing_padding: usize,
    prefix: Option<u64>,
    chunks: &'a [[u8; 8]],
    suffix: Option<u64>,
}

impl<'a> Model for UnalignedBitChunk<'a> {
    ghost use Rattle.std.specs.Prelude.{map, length, ◌<◌, ◌^◌};
    ghost use Rattle.vb_walk.specs.Cut.{UnalignedWords, word_of};

    ghost Value = { UnalignedWords };

    ghost view = { λ s. record {
      lead_padding = s.lead_padding;
      trailing_padding = s.trailing_padding;
      prefix = s.prefix;
      chunks = map word_of s.chunks.now;
      suffix = s.suffix;
    } };

    ghost invariant = { λ s. length s.chunks.now < 2 ^ 58 };
}

#[tactic(auto, using(crate::proofs::CutLemmas::cuts))]
impl<'a> UnalignedBitChunk<'a> {
    /// Returns the words of the `len` bits from bit `offset` on. The caller must prove that the
    /// bits are in bounds and that `offset + len` fits in a `usize`.
    pub fn new(bytes: &'a [u8], offset: usize, len: usize) -> Self
        requires window { InBytes bytes.now offset len }
        ensures { IsCut (offset % 8) (bits bytes.now offset len) result }
    {
        if len == 0 {
            return UnalignedBitChunk {
                lead_padding: 0,
                trailing_padding: 0,
                prefix: None,
                chunks: &[],
                suffix: None,
            };
        }
        let lead_padding = offset % 8;
        let first = read_bits(bytes, offset, len.min(64 - lead_padding)) << lead_padding;
        let behind = (lead_padding + len).saturating_sub(64);
        let (chunks, suffix) = words_of(bytes, offset / 8 + 8, behind);
        UnalignedBitChunk {
            lead_padding,
            trailing_padding: (64 - (lead_padding + len) % 64) % 64,
            prefix: Some(first),
            chunks,
            suffix,
        }
    }
}

/// Returns the `len` bits from byte `start` on as words, the last one separately. Returns no words
/// if there are no bits.
#[tactic(auto, using(crate::proofs::CutLemmas::cuts))]
fn words_of(bytes: &[u8], start: usize, len: usize) -> (&[[u8; 8]], Option<u64>)
    requires window { 0 < len → InBytes bytes.now (8 * start) len }
    ensures words { 0 < len → map word_of result.0.now ++ item_of result.1
        ≡ words (bits bytes.now (8 * start) len) (div_ceil len 64) }
    ensures some { 0 < len → result.1 ≢ None }
    ensures few { length result.0.now < 2 ^ 58 }
    ensures none { len ≡ 0 → (map word_of result.0.now ≡ []) × (result.1 ≡ None) }
{
    if len == 0 {
        return (&[], None);
    }
    let full = (len - 1) / 64;
    let end = start + 8 * full;
    let (chunks, _) = bytes[start..end].as_chunks::<8>();
    (chunks, Some(read_bits(bytes, 8 * end, len - 64 * full)))
}

impl<'a> UnalignedBitChunk<'a> {
    /// Returns the number of digits of the first word before the bits: the offset modulo 8, or 0 if
    /// there are no bits.
    pub fn lead_padding(&self) -> usize
        ensures { result ≡ self.now.lead_padding }
    {
        self.lead_padding
    }

    /// Returns the number of digits of the last word after the bits.
    pub fn trailing_padding(&self) -> usize
        ensures { result ≡ self.now.trailing_padding }
    {
        self.trailing_padding
    }

    /// Returns the first word, or `None` if there are no bits.
    pub fn prefix(&self) -> Option<u64>
        ensures { result ≡ self.now.prefix }
    {
        self.prefix
    }

    /// Returns the words between the first and the last one, each as its eight bytes.
    pub fn chunks(&self) -> &'a [[u8; 8]]
        ensures { map word_of result.now ≡ self.now.chunks }
    {
        self.chunks
    }

    /// Returns the last word if there are two or more, else `None`.
    pub fn suffix(&self) -> Option<u64>
        ensures { result ≡ self.now.suffix }
    {
        self.suffix
    }

    /// Returns an iterator over all words.
    pub fn iter(&self) -> UnalignedBitChunkIterator<'a>
        ensures { result ≡ all_words self.now }
    {
        UnalignedBitChunkIterator {
            prefix: self.prefix,
            chunks: self.chunks.iter(),
            suffix: self.suffix,
        }
    }
}

/// An iterator over the words of an [`UnalignedBitChunk`]. Contracts see the list of the remaining
/// words.
#[derive(Clone, Debug, Drop)]
pub struct UnalignedBitChunkIterator<'a> {
    prefix: Option<u64>,
    chunks: Iter<'a, [u8; 8]>,
    suffix: Option<u64>,
}

impl<'a> Model for UnalignedBitChunkIterator<'a> {
    ghost use Rattle.std.specs.Prelude.{List, ℕ, map, length, ◌++◌, ◌<◌, ◌^◌};
    ghost use Rattle.std.specs.Slice.Iter.{iter_rest};
    ghost use Rattle.vb_walk.specs.Words.{item_of};
    ghost use Rattle.vb_walk.specs.Cut.{word_of};

    ghost Value = { List ℕ };

    ghost view = { λ s. item_of s.prefix ++ map word_of (iter_rest s.chunks) ++ item_of s.suffix };

    ghost invariant = { λ s. length (iter_rest s.chunks) < 2 ^ 58 };
}

#[tactic(auto, using(crate::proofs::CutLemmas::cuts))]
impl<'a> UnalignedBitChunkIterator<'a> {
    /// Returns an iterator over the words of the `len` bits from bit `offset` on, as in
    /// [`UnalignedBitChunk`]: eight bytes each from the byte of the first bit on, with 0 for the
    /// bits outside of the window. The caller must prove that the bits are in bounds and that
    /// `offset + len` fits in a `usize`.
    pub fn new(bytes: &'a [u8], offset: usize, len: usize) -> Self
        requires window { InBytes bytes.now offset len }
        ensures { result ≡ cut_words (offset % 8) (bits bytes.now offset len) }
    {
        UnalignedBitChunk::new(bytes, offset, len).iter()
    }

    /// Returns the number of remaining words.
    pub fn len(&self) -> usize
        ensures { result ≡ length self.now }
    {
        let ends = usize::from(self.prefix.is_some()) + usize::from(self.suffix.is_some());
        self.chunks.len() + ends
    }
}

#[tactic(auto, using(crate::proofs::CutLemmas::cuts))]
impl Iterator for UnalignedBitChunkIterator<'_> {
    type Item = u64;

    ghost next_gives = { YieldsFirst (λ s. s) };

    ghost remaining = { item_count (λ s. s) };

    #[inline(always)]
    fn next(&mut self) -> Option<u64> {
        if let Some(word) = self.prefix.take() {
            return Some(word);
        }
        match self.chunks.next() {
            Some(chunk) => Some(word_at(chunk, 0)),
            None => self.suffix.take(),
        }
    }

    /// Returns the number of remaining words as both bounds.
    fn size_hint(&self) -> (usize, Option<usize>)
        ensures exact { result ≡ (length self.now, Some (length self.now)) }
        ensures lower { IsWithinCount result.0 (at_most (length self.now)) }
        ensures upper { IfSome result.1 (UpTo (at_most (length self.now))) }
    {
        (self.len(), Some(self.len()))
    }
}

impl TrustedLen for UnalignedBitChunkIterator<'_> {
    ghost left = { length };

    ghost counts = { list_counts (λ x. x) (λ s. s) };

    fn exact_len(&self) -> usize {
        self.len()
    }
}
