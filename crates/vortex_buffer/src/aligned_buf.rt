//! Bytes read from the front.
ghost use Rattle.std.specs.Prelude.{◌≡◌, ◌%◌, ◌^◌, ◌≤◌, ◌↔◌, ℕ, List, length, take, drop};
ghost use Rattle.std.specs.Prelude.{IsTrue, OnOk, OnErr};
ghost use Rattle.vb_core.specs.Alignments.{IsPower};
ghost use Rattle.vb_mem.specs.Makes.{Makes};
ghost use Rattle.vb_mem.specs.SharedBuffer.{ShowsMade, ShowsPart};
ghost use Rattle.vortex_buffer.specs.Fixed.{ShowsFixed};
ghost use Rattle.vortex_buffer.specs.Steps.{AreSteps, rest_of, list_steps, buffer_steps};

use crate::const_buffer::{ConstBuffer, ConstByteBuffer};
use std::alloc::Allocator;
use vb_core::Alignment;
use vb_mem::{Buffer, ByteBuffer, Result};

/// Bytes that a caller reads from the front, and copies from there with an alignment.
pub trait AlignedBuf {
    // The bytes that are left to read.
    ghost unread: { Self → List ℕ };

    // Whether the value can skip this number of bytes, if enough bytes are left.
    ghost is_step: { Self → ℕ → Type 0 };

    // Whether the second value is the first one after it skipped this number of bytes.
    ghost is_past: { Self → ℕ → Self → Type 0 };

    // A value can skip 0 bytes, and consecutive steps are one step of their sum.
    ghost steps: { AreSteps is_step is_past };

    /// Returns the number of bytes that are left.
    fn remaining(&self) -> usize
        ensures { result ≡ length (unread self.now) };

    /// Returns the bytes that are left.
    fn chunk(&self) -> &[u8]
        ensures { result.now ≡ unread self.now };

    /// Returns whether [`AlignedBuf::advance`] may skip `n` bytes: at least `n` are left, and for a
    /// [`ByteBuffer`] `n` is a multiple of its reported alignment.
    fn can_advance(&self, n: usize) -> bool
        ensures { IsTrue result ↔ ((n ≤ length (unread self.now)) × is_step self.now n) };

    /// Skips the next `n` bytes. The caller must prove that [`AlignedBuf::can_advance`] is true for
    /// `n`. Does not allocate. A [`ByteBuffer`] keeps its reported alignment, and keeps its storage
    /// until no byte is left.
    fn advance(&mut self, n: usize)
        requires within { n ≤ length (unread self.old) }
        requires is_step { is_step self.old n }
        ensures rest { unread self.new ≡ drop n (unread self.old) }
        ensures keeps { (m : ℕ) → is_step self.old m → is_step self.new m }
        ensures part { is_past self.old n self.new };

    /// Returns a copy of the next `len` bytes that reports `alignment` and is over-aligned to 256
    /// bytes, and skips the bytes as [`AlignedBuf::advance`] does. The caller must prove that
    /// [`AlignedBuf::can_advance`] is true for `len`. The copy allocates and grows with `alloc`.
    /// Returns `OutOfMemory` if memory runs out, and skips no byte then.
    fn copy_to_aligned<A: Allocator + Clone>(
        &mut self,
        alloc: A,
        len: usize,
        alignment: Alignment,
    ) -> Result<ByteBuffer<A>>
        requires within { len ≤ length (unread self.old) }
        requires is_step { is_step self.old len }
        ensures copy { Makes (ShowsMade (take len (unread self.old)) alignment) result }
        ensures rest { OnOk result (unread self.new ≡ drop len (unread self.old)) }
        ensures keeps { (m : ℕ) → is_step self.old m → is_step self.new m }
        ensures part { OnOk result (is_past self.old len self.new) }
        ensures err { OnErr result (self.new ≡ self.old) }
    {
        let copy = Buffer::copy_from_aligned(alloc, &self.chunk()[..len], alignment)?;
        self.advance(len);
        Ok(copy)
    }
}

impl AlignedBuf for &[u8] {
    ghost unread = { λ bytes. bytes.now };

    ghost is_step = { λ _ _. Unit {0} };

    ghost is_past = { λ bytes n rest. rest.now ≡ drop n bytes.now };

    ghost steps = { list_steps (λ bytes. bytes.now) };

    fn remaining(&self) -> usize {
        self.len()
    }

    fn chunk(&self) -> &[u8] {
        *self
    }

    fn can_advance(&self, n: usize) -> bool {
        n <= self.len()
    }

    fn advance(&mut self, n: usize) {
        let all: &[u8] = *self;
        *self = &all[n..];
    }
}

impl<A: Allocator> AlignedBuf for Buffer<u8, A> {
    ghost unread = { λ bytes. bytes.list };

    ghost is_step = { λ bytes n. n % 2 ^ bytes.alignment ≡ 0 };

    ghost is_past = { λ bytes n rest.
        ShowsPart 1 bytes (rest_of bytes n) bytes.alignment rest };

    ghost steps = { buffer_steps };

    fn remaining(&self) -> usize {
        self.len()
    }

    fn chunk(&self) -> &[u8] {
        self.as_slice()
    }

    fn can_advance(&self, n: usize) -> bool {
        n <= self.len() && self.alignment().is_offset_aligned(n)
    }

    fn advance(&mut self, n: usize) {
        self.narrow(n..self.len());
    }
}

/// Returns a copy of the next `len` bytes, aligned to `N` bytes and over-aligned to 256 bytes, and
/// skips the bytes. `N` must be a power of two. The caller must prove that
/// [`AlignedBuf::can_advance`] is true for `len`. Returns `OutOfMemory` if memory runs out, and
/// skips no byte then.
pub fn copy_to_const_aligned<const N: usize, B: AlignedBuf, A: Allocator + Clone>(
    buf: &mut B,
    alloc: A,
    len: usize,
) -> Result<ConstByteBuffer<N, A>>
    requires power { IsPower N }
    requires within { len ≤ length (B.unread buf.old) }
    requires is_step { B.is_step buf.old len }
    ensures copy { Makes (ShowsFixed (take len (B.unread buf.old)) N) result }
    ensures rest { OnOk result (B.unread buf.new ≡ drop len (B.unread buf.old)) }
    ensures keeps { (m : ℕ) → B.is_step buf.old m → B.is_step buf.new m }
    ensures part { OnOk result (B.is_past buf.old len buf.new) }
    ensures err { OnErr result (buf.new ≡ buf.old) }
{
    let alignment = ConstBuffer::<u8, N, A>::alignment();
    let buffer = buf.copy_to_aligned(alloc, len, alignment)?;
    Ok(ConstBuffer::of(buffer))
}
