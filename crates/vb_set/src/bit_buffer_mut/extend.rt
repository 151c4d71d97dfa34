//! Truth values of slices and iterators appended at the end.
ghost use Rattle.std.specs.Prelude.{◌≡◌, ◌⊎◌, ⊤, ℕ, ◌+◌, ◌-◌, ◌*◌, ◌%◌, ◌^◌, ◌<◌, ◌≤◌, Bool, List};
ghost use Rattle.std.specs.Prelude.{◌↔◌, length, min, take, IsOk, IsTrue, OnOk, OnErr, MatchResult};
ghost use Rattle.std.specs.Iterator.{Drains, ExtendsWithItems, HoldsAlong, IsFiniteIterable};
ghost use Rattle.vb_bit_bytes.specs.Given.{GivesPastBehind};
ghost use Rattle.vb_bits.specs.Digits.{digits};
ghost use Rattle.vb_set.specs.OpenSet.{AddsBits, KeepsStart, NeedsBits};

use super::BitBufferMut;
use std::alloc::Allocator;
use vb_bit_bytes::{next_word, push_word_unchecked};
use vb_core::{BufferError, Result, TrustedLen};
use vb_pack::pack_bools;

/// The number of truth values of a slice that are packed at once.
const PACKED_BITS: usize = 512;

#[tactic(auto, using(vb_bit_bytes::proofs::BytesLemmas::edits))]
impl<A: Allocator + Clone> BitBufferMut<A> {
    /// Appends the truth values of a slice. Packs 512 at a time, as
    /// [`from_bools`](Self::from_bools) packs all.
    ///
    /// Returns `TooManyBits` if the offset and both lengths together exceed `usize::MAX`. Otherwise
    /// it returns `OutOfMemory` if memory runs out. The set and its capacity are unchanged on
    /// error. If both lengths together are at most [`capacity`](Self::capacity), the call does not
    /// allocate, succeeds, and the capacity does not change.
    pub fn append_bools(&mut self, bools: &[bool]) -> Result<()>
        ensures ok { OnOk result (AddsBits bools.now self.old self.new) }
        ensures grows { KeepsStart self.old self.new }
        ensures stays { length self.old.bits + length bools.now ≤ self.old.room
            → self.new.room ≡ self.old.room }
        ensures needs { NeedsBits (length bools.now) result self.old self.new }
    {
        self.reserve(bools.len())?;
        // This shows the prover that the bits are in bounds of the bytes.
        let _bytes = self.as_slice();
        for block in 0..bools.len().div_ceil(PACKED_BITS) {
            let start = PACKED_BITS * block;
            let end = (start + PACKED_BITS).min(bools.len());
            self.append_block(&bools[start..end])?;
        }
        Ok(())
    }

    /// Appends the items of an iterator as bits. The caller must prove that the iterator ends.
    /// Packs the items 64 at a time, and appends each 64 of them at once. Does not use the
    /// iterator's size hint: it allocates as the items come. While they fit in
    /// [`capacity`](Self::capacity), the call does not allocate, and the capacity does not change.
    ///
    /// Returns `TooManyBits` only if the offset, the bits and the items together exceed
    /// `usize::MAX`, and `OutOfMemory` if memory runs out before. On error the set keeps the first
    /// items, up to its capacity. At most 64 more items are lost, and the call does not poll the
    /// items after those.
    pub fn extend<I: IntoIterator<Item = bool>>(&mut self, iter: I) -> Result<()>
        requires { IsFiniteIterable I.into_iter_gives I.IntoIter.can_next
            I.IntoIter.remaining iter }
        ensures adds { ExtendsWithItems I.into_iter_gives I.IntoIter.next_gives
            (λ old items new. AddsBits items old new) iter self.old self.new result }
        ensures grows { KeepsStart self.old self.new }
        ensures in_room { ((it : I.IntoIter) → I.into_iter_gives iter it
            → HoldsAlong I.IntoIter.next_gives it
            (λ items. length self.old.bits + length items ≤ self.old.room))
            → IsOk result × (self.new.room ≡ self.old.room) }
        ensures full { OnErr result (length self.new.bits ≡ self.new.room) }
        ensures err { MatchResult result (λ _. ⊤) (λ e. (e ≡ BufferError.OutOfMemory)
            ⊎ ((e ≡ BufferError.TooManyBits)
            × GivesPastBehind I.into_iter_gives I.IntoIter.next_gives
            (self.old.offset + length self.old.bits) iter)) }
    {
        // This shows the prover that the bits are in bounds of the bytes.
        let _bytes = self.as_slice();
        let mut rest = iter.into_iter();
        loop {
            let (word, count, left) = next_word(rest);
            rest = left;
            self.append_word(word, count)?;
            if count < 64 {
                return Ok(());
            }
        }
    }

    /// Appends the items of an iterator whose length is known as bits: all of them or none. The
    /// caller must prove that its `next` may be called. Returns the errors of
    /// [`append_bools`](Self::append_bools), before it polls the first item.
    pub fn extend_trusted<I: TrustedLen<Item = bool>>(&mut self, iter: I) -> Result<()>
        requires { I.can_next iter }
        ensures ok { OnOk result ((items : List Bool) × Drains I.next_gives iter items
            × AddsBits items self.old self.new) }
        ensures len { OnOk result (length self.new.bits
            ≡ length self.old.bits + I.left iter) }
        ensures grows { KeepsStart self.old self.new }
        ensures stays { length self.old.bits + I.left iter ≤ self.old.room
            → self.new.room ≡ self.old.room }
        ensures needs { NeedsBits (I.left iter) result self.old self.new }
    {
        self.reserve(iter.exact_len())?;
        self.extend(iter)
    }

    /// Does the same as [`append_bools`](Self::append_bools) for at most one block.
    fn append_block(&mut self, bools: &[bool]) -> Result<()>
        requires { length bools.now ≤ PACKED_BITS }
        ensures ok { OnOk result (AddsBits bools.now self.old self.new) }
        ensures grows { KeepsStart self.old self.new }
        ensures stays { length self.old.bits + length bools.now ≤ self.old.room
            → self.new.room ≡ self.old.room }
        ensures needs { NeedsBits (length bools.now) result self.old self.new }
    {
        let mut bytes = [0; PACKED_BITS / 8];
        pack_bools(&mut bytes, bools);
        self.append_bits(&bytes, 0, bools.len())
    }

    /// Appends the `count` lowest digits of a word. On error it appends as many as there is
    /// capacity for.
    pub(crate) fn append_word(&mut self, word: u64, count: usize) -> Result<()>
        requires in_word { count ≤ 64 }
        ensures ok { OnOk result (AddsBits (digits word 0 count) self.old self.new) }
        ensures err { OnErr result ((n : ℕ)
            × AddsBits (take n (digits word 0 count)) self.old self.new) }
        ensures full { OnErr result (length self.new.bits ≡ self.new.room) }
        ensures grows { KeepsStart self.old self.new }
        ensures in_room { length self.old.bits + count ≤ self.old.room
            → IsOk result × (self.new.room ≡ self.old.room) }
        ensures refused { MatchResult result (λ _. ⊤) (λ e. (e ≡ BufferError.OutOfMemory)
            ⊎ ((e ≡ BufferError.TooManyBits)
            × (2 ^ 64 ≤ self.old.offset + length self.old.bits + count))) }
    {
        if count == 64 && self.ends_with_bytes() && self.capacity() - self.len >= 64 {
            self.append_whole_word(word);
            return Ok(());
        }
        let bytes = word.to_le_bytes();
        let answer = self.append_bits(&bytes, 0, count);
        if answer.is_err() {
            self.append_bits(&bytes, 0, self.capacity() - self.len())?;
        }
        answer
    }

    /// Appends the `count` lowest digits of a word; 64 digits as eight whole bytes if the bits end
    /// with the bytes. The caller must prove that there is capacity for them. Does not allocate,
    /// and the capacity does not change.
    pub(crate) fn append_word_unchecked(&mut self, word: u64, count: usize)
        requires in_word { count ≤ 64 }
        requires room { length self.old.bits + count ≤ self.old.room }
        ensures adds { AddsBits (digits word 0 count) self.old self.new }
        ensures grows { KeepsStart self.old self.new }
        ensures stays { self.new.room ≡ self.old.room }
    {
        if count == 64 && self.ends_with_bytes() {
            return self.append_whole_word(word);
        }
        match self.append_bits(&word.to_le_bytes(), 0, count) {
            Ok(()) => (),
            Err(_) => unreachable!(),
        }
    }

    /// Returns whether the last bit is the last one of the bytes.
    fn ends_with_bytes(&self) -> bool
        ensures { IsTrue result
            ↔ (self.now.offset + length self.now.bits ≡ 8 * length self.now.bytes) }
    {
        let end = self.offset + self.len;
        end % 8 == 0 && end / 8 == self.buffer.len()
    }

    /// Appends the 64 digits of a word as eight bytes. The bits must end with the bytes, and there
    /// must be capacity for them.
    fn append_whole_word(&mut self, word: u64)
        requires whole { self.old.offset + length self.old.bits ≡ 8 * length self.old.bytes }
        requires room { length self.old.bits + 64 ≤ self.old.room }
        ensures adds { AddsBits (digits word 0 64) self.old self.new }
        ensures grows { KeepsStart self.old self.new }
        ensures stays { self.new.room ≡ self.old.room }
    {
        push_word_unchecked(&mut self.buffer, word);
        self.len += 64;
    }

    /// Returns the number of bits that can be appended without an allocation, at most up to the
    /// next multiple of 64 bits from the start of the bytes.
    pub(crate) fn room_in_word(&self) -> usize
        ensures room { result ≡ min (64 - (self.now.offset + length self.now.bits) % 64)
            (self.now.room - length self.now.bits) }
        ensures fits { self.now.offset + length self.now.bits + result < 2 ^ 64 }
    {
        let end = self.offset + self.len;
        (64 - end % 64).min(self.capacity() - self.len)
    }
}
