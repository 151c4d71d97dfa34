//! Implementations of std's traits: clone, equality, printing and iteration.
ghost use Rattle.std.specs.Prelude.{◌≡◌, ◌↔◌, ◌<◌, [], codes, IsTrue};
ghost use Rattle.std.specs.Bool.{beq};
ghost use Rattle.std.specs.Cmp.{bool_eq_equiv, on_per, on_equiv, partial_equiv_from_equiv};
ghost use Rattle.std.specs.Cmp.Lexicographic.{pointwise, lists_per, lists_equiv};

use super::BitBuffer;
use std::alloc::{AllocError, Allocator};
use std::fmt;
use vb_bit_bytes::write_bits;
use vb_walk::BitIterator;

/// The most bits that `Display` prints.
const DEBUG_BITS: usize = 16;

/// Makes another owner, as [`BitBuffer::clone`] does, for code that uses std's trait.
impl<A: Allocator + Clone> Clone for BitBuffer<A> {
    ghost is_clone = { λ s copy. copy ≡ s };

    fn clone(&self) -> Result<Self, AllocError> {
        BitBuffer::clone(self).or(Err(AllocError))
    }
}

/// Two sets are equal if their lists of bits are.
impl<A: Allocator + Clone> PartialEq for BitBuffer<A> {
    ghost eq = { λ x y. pointwise beq x.bits y.bits };

    ghost laws = { on_per (λ s. s.bits) (lists_per (partial_equiv_from_equiv bool_eq_equiv)) };

    /// Returns whether the lists of bits are equal. Compares them by words. The offsets do not
    /// count.
    fn eq(&self, other: &Self) -> bool
        ensures value { result ≡ pointwise beq self.now.bits other.now.bits }
        ensures exact { IsTrue result ↔ (self.now.bits ≡ other.now.bits) }
    {
        self.as_view() == other.as_view()
    }
}

impl<A: Allocator + Clone> Eq for BitBuffer<A> {
    ghost laws = { on_equiv (λ s. s.bits) (lists_equiv bool_eq_equiv) };
}

/// Prints at most the first 64 bits, for example `BitBuffer(01101)`, and `..` after them if there
/// are more.
impl<A: Allocator + Clone> fmt::Debug for BitBuffer<A> {
    fn fmt<W: fmt::Write>(&self, f: &mut fmt::Formatter<W>) -> fmt::Result {
        let bytes = self.buffer.as_slice();
        write_bits(f, "BitBuffer", bytes, self.offset, self.len)
    }
}

/// Prints the number of bits and at most the first 16 of them on one line, for example `BitBuffer {
/// len: 2, buffer: [true, false] }`.
impl<A: Allocator + Clone> fmt::Display for BitBuffer<A> {
    ghost use Rattle.std.specs.Prelude.{Some};
    ghost use Rattle.vb_bits.specs.Shown.{bits_text};

    ghost output = { λ s. Some (bits_text s.bits) };

    fn fmt<W: fmt::Write>(&self, f: &mut fmt::Formatter<W>) -> fmt::Result {
        let len = self.len();
        write!(f, "BitBuffer {{ len: {len}, buffer: [")?;
        for i in 0..len.min(DEBUG_BITS) {
            let gap = gap_before(i);
            let bit = self.value(i);
            write!(f, "{gap}{bit}")?;
        }
        write!(f, "] }}")
    }
}

/// Returns the separator before item `i`.
fn gap_before(i: usize) -> &'static str
    ensures first { i ≡ 0 → result.now ≡ [] }
    ensures others { 0 < i → result.now ≡ codes ", " }
{
    if i == 0 { "" } else { ", " }
}

impl<'a, A: Allocator + Clone> IntoIterator for &'a BitBuffer<A> {
    ghost use Rattle.std.specs.Prelude.{◌≡◌, ◌<◌, ◌^◌, length};

    type Item = bool;

    type IntoIter = BitIterator<'a>;

    ghost into_iter_gives = { λ s it. (it ≡ s.now.bits) × (length it < 2 ^ 64) };

    fn into_iter(self) -> BitIterator<'a> {
        self.iter()
    }
}
