//! Capacity, and bits appended at the end.
ghost use Rattle.std.specs.Prelude.{◌≡◌, ◌+◌, ◌^◌, ◌<◌, ◌≤◌, ◌∷◌, [], length, replicate};
ghost use Rattle.std.specs.Prelude.{IsOk, IsOkUnless, IsErrOf, OnOk, OnErr};
ghost use Rattle.vb_ranked.specs.Counted.{NeedsCountedBits};
ghost use Rattle.vb_set.specs.OpenSet.{AddsBits, KeepsStart};
ghost use Rattle.vb_set.specs.View.{bits_of};

use super::Ranked;
use crate::append_parts::append_parts;
use crate::make_ready::make_ready;
use crate::room::make_room_for;
use std::alloc::Allocator;
use vb_rank::BLOCK_BITS;
use vb_set::{BitBufferView, BufferError, Result};

impl<A: Allocator + Clone> Ranked<A> {
    /// Reserves capacity for `n` more bits, and for the counts of all bits that the set can then
    /// hold.
    ///
    /// Returns `TooManyBits` if offset, length and `n` together exceed `usize::MAX`. Otherwise it
    /// returns `OutOfMemory` if memory runs out. The set and its capacity are unchanged on error.
    /// If the set has bits, and the length plus `n` is at most [`capacity`](Self::capacity), the
    /// call does not allocate, succeeds, and the capacity does not change. If a set without bits
    /// has this capacity, the call may allocate the counts alone. Otherwise it allocates the bytes
    /// of twice the bits (offset plus length), but at least 8 bytes, and more if `n` bits need
    /// them; and the counts for the new capacity, unless there is space for them. No clause states
    /// the capacity of the counts.
    pub fn reserve(&mut self, n: usize) -> Result<()>
        ensures keeps { self.new ≡ record self.old { room = self.new.room } }
        ensures room { OnOk result (length self.old.bits + n ≤ self.new.room) }
        ensures grows { self.old.room ≤ self.new.room }
        ensures stays { length self.old.bits + n ≤ self.old.room → self.new ≡ self.old }
        ensures needs { NeedsCountedBits n result self.old self.new }
    {
        make_room_for(&mut self.set, &mut self.counts, n)?;
        // There is capacity already. This call shows the prover that the indices of the bits fit.
        self.set.reserve(n)
    }

    /// Appends one bit, in amortized constant time. Offset and alignment do not change, and the
    /// capacity never shrinks, on success or on error. The bytes grow only if none has space for
    /// the bit.
    ///
    /// Returns `TooManyBits` if offset and length together are `usize::MAX`. Otherwise it returns
    /// `OutOfMemory` if memory runs out. The set and its capacity are unchanged on error. If the
    /// set has bits, and fewer than its [`capacity`](BitBufferMut::capacity), the call does not
    /// allocate, succeeds, and the capacity does not change. The first bit may allocate the counts
    /// for the set's capacity. If the set is full, the call allocates twice the bytes, but at least
    /// 8, and the counts for the new capacity, unless there is space for them.
    pub fn append(&mut self, v: bool) -> Result<()>
        ensures ok { OnOk result (AddsBits (v ∷ []) self.old self.new) }
        ensures grows { KeepsStart self.old self.new }
        ensures in_room { 0 < length self.old.bits → length self.old.bits + 1 ≤ self.old.room
            → IsOk result }
        ensures stays { length self.old.bits + 1 ≤ self.old.room
            → self.new.room ≡ self.old.room }
        ensures fits { self.old.offset + length self.old.bits + 1 < 2 ^ 64
            → IsOkUnless result BufferError.OutOfMemory }
        ensures too_many { 2 ^ 64 ≤ self.old.offset + length self.old.bits + 1
            → IsErrOf result BufferError.TooManyBits }
        ensures err { OnErr result (self.new ≡ self.old) }
    {
        let ready = self.set.len() % BLOCK_BITS > 0 && self.set.has_room();
        if !ready && !make_ready(&mut self.set, &mut self.counts) {
            return Err(self.why_full());
        }
        self.set.append_unchecked(v);
        Ok(())
    }

    /// Returns the error for a bit that cannot be appended.
    fn why_full(&self) -> BufferError
        ensures fits { self.now.offset + length self.now.bits + 1 < 2 ^ 64
            → result ≡ BufferError.OutOfMemory }
        ensures too_many { 2 ^ 64 ≤ self.now.offset + length self.now.bits + 1
            → result ≡ BufferError.TooManyBits }
    {
        if usize::MAX - self.set.len() <= self.set.offset() {
            BufferError::TooManyBits
        } else {
            BufferError::OutOfMemory
        }
    }

    /// Appends `n` bits, all `v`, whole bytes at a time, and counts them once.
    ///
    /// Returns the errors of [`reserve`](Self::reserve) for `n` bits; the set and its capacity are
    /// unchanged then. If the set has bits, and the length plus `n` is at most
    /// [`capacity`](Self::capacity), the call does not allocate, succeeds, and the capacity does
    /// not change.
    pub fn append_n(&mut self, v: bool, n: usize) -> Result<()>
        ensures ok { OnOk result (AddsBits (replicate n v) self.old self.new) }
        ensures grows { KeepsStart self.old self.new }
        ensures stays { length self.old.bits + n ≤ self.old.room
            → self.new.room ≡ self.old.room }
        ensures needs { NeedsCountedBits n result self.old self.new }
    {
        make_room_for(&mut self.set, &mut self.counts, n)?;
        let len = self.set.len();
        self.set.append_n(v, n)?;
        self.counts.count_added(self.set.as_view(), len);
        Ok(())
    }

    /// Appends the bits of a view by words, and counts them once.
    ///
    /// Returns the errors of [`reserve`](Self::reserve) for the length of the view; the set and its
    /// capacity are unchanged then. If the set has bits, and both lengths together are at most
    /// [`capacity`](Self::capacity), the call does not allocate, succeeds, and the capacity does
    /// not change.
    pub fn append_view(&mut self, bits: BitBufferView<'_>) -> Result<()>
        ensures ok { OnOk result (AddsBits (bits_of bits.entry) self.old self.new) }
        ensures grows { KeepsStart self.old self.new }
        ensures stays { length self.old.bits + length (bits_of bits.entry) ≤ self.old.room
            → self.new.room ≡ self.old.room }
        ensures needs { NeedsCountedBits (length (bits_of bits.entry)) result self.old self.new }
    {
        make_room_for(&mut self.set, &mut self.counts, bits.len())?;
        let len = self.set.len();
        append_parts(&mut self.set, bits)?;
        self.counts.count_added(self.set.as_view(), len);
        Ok(())
    }
}
