//! Counts and selects within the bytes that one look reads.
ghost use Rattle.std.specs.Prelude.{◌≡◌, ◌*◌, ◌<◌, Some};
ghost use Rattle.vb_bits.specs.Bits.{bits, count, Selects};
ghost use Rattle.vb_count.specs.Hits.{hits};

use vb_bits::{select_in_byte, select_in_word, word_at};
use vb_count::{Unit, byte_part, matching_word};

/// A unit that is counted and searched without another look.
///
/// `value` says which bits are meant, the set or the unset ones.
pub(crate) trait Searchable: Unit {
    /// Returns the number of bits that are `value`.
    fn count(self, value: bool) -> usize
        ensures { result ≡ count (hits value (bits (Self.bytes self) 0 (8 * Self.SIZE))) };

    /// Returns the index of the `n`-th bit that is `value`.
    fn select(self, n: usize, value: bool) -> usize
        requires { n < count (hits value (bits (Self.bytes self) 0 (8 * Self.SIZE))) }
        ensures { Selects (hits value (bits (Self.bytes self) 0 (8 * Self.SIZE))) n (Some result) };
}

impl Searchable for u8 {
    fn count(self, value: bool) -> usize {
        byte_part(self, 0, 8, value).count_ones() as usize
    }

    fn select(self, n: usize, value: bool) -> usize {
        select_in_byte(byte_part(self, 0, 8, value), n)
    }
}

impl Searchable for [u8; 8] {
    fn count(self, value: bool) -> usize {
        matching_word(word_at(&self, 0), value).count_ones() as usize
    }

    fn select(self, n: usize, value: bool) -> usize {
        select_in_word(matching_word(word_at(&self, 0), value), n)
    }
}
