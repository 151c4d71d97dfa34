//! Implementations of traits: clone, printing, negation and the store of a view.
use super::BitBufferMut;
use std::alloc::{AllocError, Allocator};
use std::fmt;
use std::ops::Not;
use vb_bit_bytes::{negate, write_bits};
use vb_view::BitStore;

/// Makes a copy, as [`BitBufferMut::clone`] does, for code that uses std's trait.
impl<A: Allocator + Clone> Clone for BitBufferMut<A> {
    ghost use Rattle.std.specs.Prelude.{◌≡◌};

    ghost is_clone = { λ s copy. copy ≡ record s { room = copy.room } };

    fn clone(&self) -> Result<Self, AllocError> {
        BitBufferMut::clone(self).or(Err(AllocError))
    }
}

/// Prints at most the first 64 bits, for example `BitBufferMut(01101)`, and `..` after them if
/// there are more.
impl<A: Allocator + Clone> fmt::Debug for BitBufferMut<A> {
    fn fmt<W: fmt::Write>(&self, f: &mut fmt::Formatter<W>) -> fmt::Result {
        write_bits(f, "BitBufferMut", self.as_slice(), self.offset, self.len)
    }
}

/// Negates every bit in place, 32 bytes at a time. Does not allocate, and changes no bit outside
/// the set.
#[tactic(auto, using(vb_bit_bytes::proofs::BytesLemmas::edits))]
impl<A: Allocator + Clone> Not for BitBufferMut<A> {
    ghost use Rattle.std.specs.Prelude.{◌≡◌};
    ghost use Rattle.vb_bits.specs.Bits.{complement};
    ghost use Rattle.vb_bits.specs.Writes.{Writes};
    ghost use Rattle.vb_set.specs.OpenSet.{KeepsLayout};

    type Output = BitBufferMut<A>;

    ghost not_gives = { λ s t. (t.bits ≡ complement s.bits)
        × Writes s.bytes t.bytes s.offset (complement s.bits) × KeepsLayout s t };

    fn not(mut self) -> BitBufferMut<A> {
        negate(&mut self.buffer, self.offset, self.len);
        self
    }
}

/// A view of a set shows all its bits.
impl<'a, A: Allocator + Clone> BitStore for &'a mut BitBufferMut<A> {
    ghost use Rattle.std.specs.Prelude.{ℕ, ◌≡◌, length};
    ghost use Rattle.std.proofs.Props.{props};
    ghost use Rattle.std.proofs.Common.{sym};

    ghost bytes = { λ s. s.now.bytes };

    ghost bits = { λ s _ _. s.now.bits };

    ghost fits = { λ s o n. (o ≡ s.now.offset) × (n ≡ length s.now.bits) };

    ghost fits_prop = { λ s o n. Prim.hlevel props };

    ghost lender = { λ s. s.ghost_name };

    ghost Kept = { ℕ × ℕ × ℕ × ℕ };

    ghost kept = { λ s. (s.now.offset, length s.now.bytes, s.now.alignment, s.now.room) };

    ghost counted = { λ s o n h. sym h.1 };

    fn as_slice(&self, offset: usize, len: usize) -> &[u8] {
        BitBufferMut::as_slice(*self)
    }

    fn set_to(&mut self, offset: usize, len: usize, i: usize, v: bool) {
        BitBufferMut::set_to(*self, i, v);
    }

    fn fill_range(&mut self, offset: usize, len: usize, start: usize, end: usize, v: bool) {
        BitBufferMut::fill_range(*self, start, end, v);
    }
}
