//! Sets that commands edit.
ghost use Rattle.std.specs.Prelude.{◌≡◌, ◌+◌, ◌*◌, ◌^◌, ◌<◌, ◌≤◌, [], ◌∷◌, ◌++◌, length, take};
ghost use Rattle.std.specs.Prelude.{replicate, slice_set, false, IsTrue, OnOk, OnErr};
ghost use Rattle.vb_bits.specs.Bits.{bits, complement};
ghost use Rattle.vb_bits.specs.Edits.{with_fill};
ghost use Rattle.vb_bits.specs.InBytes.{InBytes};
ghost use Rattle.vb_command.specs.Machine.{all_below};
ghost use Rattle.vb_pool.specs.OpenBits.{LimitsLength};
ghost use Rattle.vb_set.specs.Makes.{Makes};
ghost use Rattle.vb_bits.specs.Marks.{with_true};

use std::alloc::Allocator;
use std::marker::Model;
use vb_set::{BitBuffer, BitBufferMut, BufferError, ByteBuffer, ByteBufferMut, Result, TryIntoMut};

/// A set that commands edit. Contracts see the list of its bits.
///
/// Its first bit is in the first byte. So a call returns `TooManyBits` only if the new length
/// exceeds `usize::MAX - 7`.
#[derive(Drop)]
pub struct OpenBits<A: Allocator + Clone> {
    set: BitBufferMut<A>,
}

impl<A: Allocator + Clone> Model for OpenBits<A> {
    ghost use Rattle.std.specs.Prelude.{List, Bool, ◌<◌};

    ghost Value = { List Bool };

    ghost view = { λ s. s.set.bits };

    ghost invariant = { λ s. s.set.offset < 8 };
}

impl<A: Allocator + Clone> OpenBits<A> {
    /// Wraps a set.
    fn new(set: BitBufferMut<A>) -> Self
        requires { set.offset < 8 }
        ensures { result ≡ set.bits }
    {
        OpenBits { set }
    }

    /// Returns the window of `len` bits from bit `offset` on of a copy of the bytes. Returns
    /// `OutOfMemory` if memory runs out.
    pub fn copy_window(alloc: &A, bytes: &[u8], offset: usize, len: usize) -> Result<Self>
        requires first_byte { offset < 8 }
        requires window { InBytes bytes.now offset len }
        ensures { Makes (λ s. s ≡ bits bytes.now offset len) result }
    {
        let buffer = ByteBufferMut::copy_from(alloc.clone()?, bytes)?;
        Ok(OpenBits::new(BitBufferMut::from_buffer(buffer, offset, len)))
    }

    /// Returns the window of `len` bits from bit `offset` on of these bytes, in their storage.
    /// Returns `OutOfMemory` if memory runs out, and drops the bytes then.
    pub fn window(alloc: &A, bytes: Vec<u8, A>, offset: usize, len: usize) -> Result<Self>
        requires first_byte { offset < 8 }
        requires window { InBytes bytes.items offset len }
        ensures { Makes (λ s. s ≡ bits bytes.items offset len) result }
    {
        let Ok(alloc) = alloc.clone() else {
            drop(bytes);
            return Err(BufferError::OutOfMemory);
        };
        let buffer = ByteBuffer::from_vec(alloc, bytes)?.into_mut()?;
        Ok(OpenBits::new(BitBufferMut::from_buffer(buffer, offset, len)))
    }

    /// Returns `n` bits, all `v`. Returns `OutOfMemory` if memory runs out.
    pub fn full(alloc: &A, v: bool, n: usize) -> Result<Self>
        ensures { Makes (λ s. s ≡ replicate n v) result }
    {
        BitBufferMut::full(alloc.clone()?, v, n).map(OpenBits::new)
    }

    /// Returns `n` bits, true exactly at these indices. The caller must prove that they are below
    /// `n`. Returns `OutOfMemory` if memory runs out.
    pub fn from_indices(alloc: &A, n: usize, places: &[usize]) -> Result<Self>
        requires { IsTrue (all_below n places.now) }
        ensures { Makes (λ s. s ≡ with_true (replicate n false) places.now) result }
    {
        Ok(OpenBits::new(BitBufferMut::from_indices(alloc.clone()?, n, places.iter().copied())?))
    }

    /// Returns the bits of a shared set, in its storage if it is the only owner, otherwise in a
    /// copy. Returns `OutOfMemory` if memory runs out, and drops the shared set then.
    pub fn thaw(alloc: &A, set: BitBuffer<A>) -> Result<Self>
        ensures { Makes (λ s. s ≡ set.bits) result }
    {
        prove!(set.offset() < 8);
        match set.try_into_mut() {
            Ok(set) => Ok(OpenBits::new(set)),
            Err(set) => {
                let copy = OpenBits::copy_from(alloc, &set);
                drop(set);
                copy
            }
        }
    }

    /// Returns a copy of the bits of a shared set. Returns `OutOfMemory` if memory runs out.
    fn copy_from(alloc: &A, set: &BitBuffer<A>) -> Result<Self>
        ensures { Makes (λ s. s ≡ set.now.bits) result }
    {
        prove!(set.offset() < 8);
        BitBufferMut::copy_from(alloc.clone()?, set).map(OpenBits::new)
    }

    /// Converts the set to one that can be shared, without a copy. Returns `OutOfMemory` if memory
    /// runs out, and drops the open set then.
    pub fn freeze(self) -> Result<BitBuffer<A>>
        ensures { Makes (λ s. s.bits ≡ self) result }
    {
        self.set.freeze()
    }

    /// Returns a copy. Returns `OutOfMemory` if memory runs out.
    pub fn clone(&self) -> Result<Self>
        ensures { Makes (λ s. s ≡ self.now) result }
    {
        self.set.clone().map(OpenBits::new)
    }

    /// Returns the set for reading.
    pub fn as_set(&self) -> &BitBufferMut<A>
        ensures { result.now.bits ≡ self.now }
    {
        &self.set
    }

    /// Returns the number of bits.
    pub fn len(&self) -> usize
        ensures { result ≡ length self.now }
    {
        self.set.len()
    }

    /// Sets bit `i`, which must be below the length, to `v`.
    pub fn set_to(&mut self, i: usize, v: bool)
        requires { i < length self.old }
        ensures { self.new ≡ slice_set self.old i v }
    {
        self.set.set_to(i, v);
    }

    /// Sets bits `start..end`, which must be a range of the set, to `v`.
    pub fn fill_range(&mut self, start: usize, end: usize, v: bool)
        requires order { start ≤ end }
        requires within { end ≤ length self.old }
        ensures { self.new ≡ with_fill self.old start end v }
    {
        self.set.fill_range(start, end, v);
    }

    /// Appends a bit `v`. Returns `OutOfMemory` or `TooManyBits`; the set is unchanged on error.
    pub fn append(&mut self, v: bool) -> Result<()>
        ensures ok { OnOk result (self.new ≡ self.old ++ v ∷ []) }
        ensures err { OnErr result (self.new ≡ self.old) }
        ensures limits { LimitsLength (length self.old + 1) result }
    {
        self.set.append(v)
    }

    /// Appends `n` bits `v`. Returns `OutOfMemory` or `TooManyBits`; the set is unchanged on error.
    pub fn append_n(&mut self, v: bool, n: usize) -> Result<()>
        ensures ok { OnOk result (self.new ≡ self.old ++ replicate n v) }
        ensures err { OnErr result (self.new ≡ self.old) }
        ensures limits { LimitsLength (length self.old + n) result }
    {
        self.set.append_n(v, n)
    }

    /// Appends the bits of a shared set. Returns `OutOfMemory` or `TooManyBits`; the set is
    /// unchanged on error.
    pub fn append_set(&mut self, set: &BitBuffer<A>) -> Result<()>
        ensures ok { OnOk result (self.new ≡ self.old ++ set.now.bits) }
        ensures err { OnErr result (self.new ≡ self.old) }
        ensures limits { LimitsLength (length self.old + length set.now.bits) result }
    {
        self.set.append_buffer(set)
    }

    /// Removes all bits after the first `n`; removes none if there are at most `n`.
    pub fn truncate(&mut self, n: usize)
        ensures { self.new ≡ take n self.old }
    {
        self.set.truncate(n);
    }

    /// Removes all bits.
    pub fn clear(&mut self)
        ensures { self.new ≡ [] }
    {
        self.set.clear();
    }

    /// Negates each bit, in place.
    pub fn negated(self) -> Self
        ensures { result ≡ complement self }
    {
        OpenBits::new(!self.set)
    }
}
