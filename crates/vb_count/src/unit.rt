//! The units that one look reads: a byte, a word of eight bytes or a chunk of 64.
ghost use Rattle.std.specs.Prelude.{◌≡◌, ℕ, ◌+◌, ◌<◌, ◌≤◌, List, [], ◌∷◌, length, slice_range};
ghost use Rattle.vb_count.specs.Looks.{LooksExactly};

use crate::glance::Glance;
use std::slice;

/// Bytes that one look reads.
pub trait Unit: Copy {
    ghost SIZE: { ℕ };

    ghost bytes: { Self → List ℕ };

    /// The number of bytes.
    const SIZE: usize;

    /// Returns the bytes of the source from byte `at` on, by one look. The caller must prove that
    /// they are in bounds.
    fn read<G: Glance>(src: &mut G, at: usize) -> Self
        requires { at + SIZE ≤ length (G.seen src.old).bytes }
        ensures value { bytes result ≡ slice_range (G.seen src.old).bytes at (at + SIZE) }
        ensures look { LooksExactly 1 (G.seen src.old) (G.seen src.new) };

    /// Returns the bytes as a slice.
    fn as_bytes(&self) -> &[u8]
        ensures value { result.now ≡ bytes self.now }
        ensures some { 0 < length result.now }
        ensures few { length result.now ≤ 64 };
}

impl Unit for u8 {
    ghost SIZE = { 1 };

    ghost bytes = { λ byte. byte ∷ [] };

    const SIZE: usize = 1;

    fn read<G: Glance>(src: &mut G, at: usize) -> u8 {
        src.byte(at)
    }

    fn as_bytes(&self) -> &[u8] {
        slice::from_ref(self)
    }
}

impl Unit for [u8; 8] {
    ghost SIZE = { 8 };

    ghost bytes = { λ word. word };

    const SIZE: usize = 8;

    fn read<G: Glance>(src: &mut G, at: usize) -> [u8; 8] {
        src.word(at).to_le_bytes()
    }

    fn as_bytes(&self) -> &[u8] {
        self
    }
}

impl Unit for [u8; 64] {
    ghost SIZE = { 64 };

    ghost bytes = { λ chunk. chunk };

    const SIZE: usize = 64;

    fn read<G: Glance>(src: &mut G, at: usize) -> [u8; 64] {
        src.chunk(at)
    }

    fn as_bytes(&self) -> &[u8] {
        self
    }
}
