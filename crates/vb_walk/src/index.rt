//! Iterates over the indices of set bits.
ghost use Rattle.std.specs.Prelude.{◌≡◌, length, ℕ, ◌+◌, ◌-◌, ◌*◌, ◌^◌, ◌<◌, ◌≤◌, All};
ghost use Rattle.std.specs.Iterator.{YieldsFirst, item_count};
ghost use Rattle.vb_bits.specs.Bits.{bits, count, places};
ghost use Rattle.vb_bits.specs.InBytes.{InBytes};

use crate::cursor::Cursor;
use std::marker::Model;

/// An iterator over the indices of the set bits of a window, in ascending order.
///
/// Contracts see the list of the remaining indices.
#[derive(Clone, Debug, Drop)]
pub struct BitIndexIterator<'a> {
    bytes: &'a [u8],
    cursor: Cursor,
}

impl<'a> Model for BitIndexIterator<'a> {
    ghost use Rattle.std.specs.Prelude.{List, ℕ};

    ghost Value = { List ℕ };

    ghost use Rattle.vb_walk.specs.Walks.{places_left, IsCursor};

    ghost view = { λ it. places_left it.bytes.now it.cursor };

    ghost invariant = { λ it. IsCursor it.bytes.now it.cursor };
}

impl<'a> BitIndexIterator<'a> {
    /// Returns an iterator over the indices of the set bits, relative to the window of `len` bits
    /// from bit `offset` on. The caller must prove that the window is in bounds and that
    /// `offset + len` fits in a `usize`.
    #[inline]
    pub fn new(bytes: &'a [u8], offset: usize, len: usize) -> Self
        requires window { InBytes bytes.now offset len }
        ensures value { result ≡ places (bits bytes.now offset len) }
        ensures below { All (λ i. i < len) result }
        ensures count { length result ≡ count (bits bytes.now offset len) }
        ensures few { length result ≤ len }
    {
        BitIndexIterator {
            bytes,
            cursor: Cursor::new(bytes, offset, len),
        }
    }
}

impl Iterator for BitIndexIterator<'_> {
    type Item = usize;

    ghost next_gives = { YieldsFirst (λ rest. rest) };

    ghost remaining = { item_count (λ rest. rest) };

    #[inline(always)]
    fn next(&mut self) -> Option<usize> {
        self.cursor = self.cursor.skip_zeros(self.bytes);
        let word = self.cursor.word;
        if word == 0 {
            return None;
        }
        self.cursor.word = word & (word - 1);
        Some(self.cursor.base + word.trailing_zeros() as usize)
    }
}
