//! Iterates over the bits of a window.
ghost use Rattle.std.specs.Prelude.{◌≡◌, ◌+◌, ◌*◌, ◌^◌, ◌<◌, ◌≤◌, length, Some, IfSome};
ghost use Rattle.std.specs.Iterator.{YieldsFirst, YieldsLast, UpTo, at_most, item_count};
ghost use Rattle.std.specs.Iterator.SizeHint.{IsWithinCount};
ghost use Rattle.vb_bits.specs.Bits.{bits};
ghost use Rattle.vb_bits.specs.InBytes.{InBytes};
ghost use Rattle.vb_core.specs.ExactCounts.{list_counts};

use std::marker::Model;
use vb_bits::get_bit;
use vb_core::TrustedLen;

/// An iterator over the bits of a window, as truth values, from either end.
///
/// Contracts see the list of the remaining bits.
#[derive(Clone, Debug, Drop)]
pub struct BitIterator<'a> {
    bytes: &'a [u8],
    start: usize,
    end: usize,
}

impl<'a> Model for BitIterator<'a> {
    ghost use Rattle.std.specs.Prelude.{List, Bool, length, ◌-◌, ◌*◌, ◌^◌, ◌<◌, ◌≤◌};
    ghost use Rattle.vb_bits.specs.Bits.{bits};

    ghost Value = { List Bool };

    ghost view = { λ it. bits it.bytes.now it.start (it.end - it.start) };

    ghost invariant = { λ it. record {
      order : it.start ≤ it.end;
      inside : it.end ≤ 8 * length it.bytes.now;
      fits : it.end < 2 ^ 64;
    } };
}

#[tactic(auto, using(crate::proofs::BitsToCome::bits_to_come))]
impl<'a> BitIterator<'a> {
    /// Returns an iterator over the `len` bits from bit `offset` on. The caller must prove that
    /// they are in bounds and that `offset + len` fits in a `usize`.
    #[inline]
    pub fn new(bytes: &'a [u8], offset: usize, len: usize) -> Self
        requires window { InBytes bytes.now offset len }
        ensures value { result ≡ bits bytes.now offset len }
        ensures len { length result ≡ len }
    {
        BitIterator {
            bytes,
            start: offset,
            end: offset + len,
        }
    }
}

#[tactic(auto, using(crate::proofs::BitsToCome::bits_to_come))]
impl Iterator for BitIterator<'_> {
    type Item = bool;

    ghost next_gives = { YieldsFirst (λ rest. rest) };

    ghost remaining = { item_count (λ rest. rest) };

    #[inline(always)]
    fn next(&mut self) -> Option<bool> {
        if self.start == self.end {
            return None;
        }
        let bit = get_bit(self.bytes, self.start);
        self.start += 1;
        Some(bit)
    }

    /// Returns the number of remaining bits as both bounds.
    fn size_hint(&self) -> (usize, Option<usize>)
        ensures exact { result ≡ (length self.now, Some (length self.now)) }
        ensures lower { IsWithinCount result.0 (at_most (length self.now)) }
        ensures upper { IfSome result.1 (UpTo (at_most (length self.now))) }
    {
        (self.len(), Some(self.len()))
    }
}

#[tactic(auto, using(crate::proofs::BitsToCome::bits_to_come))]
impl DoubleEndedIterator for BitIterator<'_> {
    ghost next_back_gives = { YieldsLast (λ rest. rest) };

    #[inline(always)]
    fn next_back(&mut self) -> Option<bool> {
        if self.start == self.end {
            return None;
        }
        self.end -= 1;
        Some(get_bit(self.bytes, self.end))
    }
}

#[tactic(auto, using(crate::proofs::BitsToCome::bits_to_come))]
impl ExactSizeIterator for BitIterator<'_> {
    /// Returns the number of remaining bits.
    fn len(&self) -> usize
        ensures { result ≡ length self.now }
    {
        self.end - self.start
    }
}

impl TrustedLen for BitIterator<'_> {
    ghost left = { length };

    ghost counts = { list_counts (λ x. x) (λ s. s) };

    fn exact_len(&self) -> usize {
        self.len()
    }
}
