//! Capacity, bits appended at the end, and changes of the length.
ghost use Rattle.std.specs.Prelude.{◌≡◌, ◌+◌, ◌-◌, ◌*◌, ◌^◌, ◌<◌, ◌≤◌, ◌∷◌, ◌++◌, []};
ghost use Rattle.std.specs.Prelude.{◌↔◌, length, max, replicate, take, true, false, IsTrue, OnOk};
ghost use Rattle.std.specs.Int.{div_ceil};
ghost use Rattle.vb_bits.specs.Bits.{bits};
ghost use Rattle.vb_bits.specs.InBytes.{InBytes};
ghost use Rattle.vb_set.specs.Appender.{target_of, HasAdded};
ghost use Rattle.vb_set.specs.OpenSet.{AddsBits, KeepsStart, NeedsBits};
ghost use Rattle.vb_view.specs.MutView.{IsSameReference};
ghost use Rattle.vb_view.specs.View.{bits_of};

use super::BitBufferMut;
use crate::bit_appender::BitAppender;
use std::alloc::Allocator;
use vb_bit_buffer::BitBuffer;
use vb_bit_bytes::{
    push_bit, push_bit_unchecked, push_bits, push_window, reserve_exactly_to, reserve_to, write_bit,
};
use vb_core::{BufferError, Result};
use vb_view::BitBufferView;

#[tactic(auto, using(vb_bit_bytes::proofs::BytesLemmas::edits))]
impl<A: Allocator + Clone> BitBufferMut<A> {
    /// Reserves capacity for `n` more bits.
    ///
    /// Returns `TooManyBits` if offset, length and `n` together exceed `usize::MAX`. Otherwise it
    /// returns `OutOfMemory` if memory runs out. The set and its capacity are unchanged on error.
    /// If [`capacity`](Self::capacity) is large enough already, the call does not allocate,
    /// succeeds, and the capacity does not change.
    pub fn reserve(&mut self, n: usize) -> Result<()>
        ensures keeps { self.new ≡ record self.old { room = self.new.room } }
        ensures room { OnOk result (length self.old.bits + n ≤ self.new.room) }
        ensures grows { self.old.room ≤ self.new.room }
        ensures stays { length self.old.bits + n ≤ self.old.room → self.new ≡ self.old }
        ensures needs { NeedsBits n result self.old self.new }
    {
        let Some(end) = (self.offset + self.len).checked_add(n) else {
            return Err(BufferError::TooManyBits);
        };
        reserve_to(&mut self.buffer, end)
    }

    /// Reserves capacity for `n` more bits, as [`reserve`](Self::reserve) does, but no more than
    /// that: if the capacity grows, it becomes the length plus `n` and at most 7 bits more.
    pub fn reserve_exact(&mut self, n: usize) -> Result<()>
        ensures keeps { self.new ≡ record self.old { room = self.new.room } }
        ensures room { OnOk result (length self.old.bits + n ≤ self.new.room) }
        ensures exact { OnOk result (self.new.room
            ≤ max self.old.room (length self.old.bits + n + 7)) }
        ensures grows { self.old.room ≤ self.new.room }
        ensures stays { length self.old.bits + n ≤ self.old.room → self.new ≡ self.old }
        ensures needs { NeedsBits n result self.old self.new }
    {
        let Some(end) = (self.offset + self.len).checked_add(n) else {
            return Err(BufferError::TooManyBits);
        };
        reserve_exactly_to(&mut self.buffer, end)
    }

    /// Appends one bit, in amortized constant time.
    ///
    /// Returns `TooManyBits` if offset and length together are `usize::MAX`. Otherwise it returns
    /// `OutOfMemory` if memory runs out. The set and its capacity are unchanged on error. If the
    /// length is below [`capacity`](Self::capacity), the call does not allocate, succeeds, and the
    /// capacity does not change.
    pub fn append(&mut self, v: bool) -> Result<()>
        ensures ok { OnOk result (AddsBits (v ∷ []) self.old self.new) }
        ensures grows { KeepsStart self.old self.new }
        ensures stays { length self.old.bits + 1 ≤ self.old.room
            → self.new.room ≡ self.old.room }
        ensures needs { NeedsBits 1 result self.old self.new }
    {
        let end = self.offset + self.len;
        if end == usize::MAX {
            return Err(BufferError::TooManyBits);
        }
        push_bit(&mut self.buffer, end, v)?;
        self.len += 1;
        Ok(())
    }

    /// Appends one bit if it fits in the set's bytes after the last bit, and returns whether it
    /// does. In that case the call does not allocate, cannot fail, and the capacity does not
    /// change.
    ///
    /// Returns `false` if the bytes end with the last bit, or if offset and length together are
    /// `usize::MAX`. The set and its capacity are unchanged then, and [`append`](Self::append) has
    /// to extend the bytes, or fails.
    pub fn append_within_bytes(&mut self, v: bool) -> bool
        ensures within { IsTrue result
            ↔ InBytes self.old.bytes self.old.offset (length self.old.bits + 1) }
        ensures added { result ≡ true → AddsBits (v ∷ []) self.old self.new }
        ensures grows { KeepsStart self.old self.new }
        ensures stays { self.new.room ≡ self.old.room }
        ensures none { result ≡ false → self.new ≡ self.old }
    {
        let end = self.offset + self.len;
        if end == usize::MAX || self.buffer.len() <= end / 8 {
            return false;
        }
        write_bit(&mut self.buffer, end, v);
        self.len += 1;
        true
    }

    /// Returns whether there is capacity for one more bit: whether the length is below
    /// [`capacity`](Self::capacity). In that case the offset plus the length with that bit is below
    /// 2^64.
    pub fn has_room(&self) -> bool
        ensures room { IsTrue result ↔ (length self.now.bits + 1 ≤ self.now.room) }
        ensures fits { result ≡ true → self.now.offset + length self.now.bits + 1 < 2 ^ 64 }
    {
        // Compares bytes, which takes fewer steps than the capacity in bits.
        let end = self.offset + self.len;
        end != usize::MAX && end / 8 < self.buffer.capacity()
    }

    /// Appends one bit. The caller must prove that there is capacity for it:
    /// [`has_room`](Self::has_room) tests it, and [`reserve`](Self::reserve) makes it. Does not
    /// allocate. The capacity, the offset and the alignment do not change. The bytes grow only if
    /// none has space for the bit.
    ///
    /// The call does not test the capacity at run time, since each caller has proved it. A caller
    /// that has more to do than [`append`](Self::append) when the set is full can do that in a
    /// separate function, and then append the bit here, whether the set was full or not.
    pub fn append_unchecked(&mut self, v: bool)
        requires { length self.old.bits + 1 ≤ self.old.room }
        ensures adds { AddsBits (v ∷ []) self.old self.new }
        ensures grows { KeepsStart self.old self.new }
        ensures stays { self.new.room ≡ self.old.room }
    {
        let end = self.offset + self.len;
        push_bit_unchecked(&mut self.buffer, end, v);
        self.len += 1;
    }

    /// Returns an appender, which borrows the set, appends single bits, and writes them by words.
    /// Takes constant time and does not allocate. When the appender is dropped, the set has all
    /// bits that were appended, even if a later append failed.
    ///
    /// ```rust
    /// let mut rows = BitBufferMut::new_set(alloc, 2)?;
    /// let mut appender = rows.appender();
    /// for i in 0..100 {
    ///     appender.append(i % 3 == 0)?;
    /// }
    /// drop(appender);
    /// assert_eq!(rt; (rows.len(), rows.as_view().true_count()), (102, 36));
    /// ```
    #[inline(always)]
    pub fn appender(&mut self) -> BitAppender<'_, A>
        ensures lends { IsSameReference (target_of result) self.entry }
        ensures none { HasAdded self.old [] result }
    {
        BitAppender::new(self)
    }

    /// Appends a true bit: [`append`](Self::append) with `true`.
    pub fn append_true(&mut self) -> Result<()>
        ensures ok { OnOk result (AddsBits (true ∷ []) self.old self.new) }
        ensures grows { KeepsStart self.old self.new }
        ensures stays { length self.old.bits + 1 ≤ self.old.room
            → self.new.room ≡ self.old.room }
        ensures needs { NeedsBits 1 result self.old self.new }
    {
        self.append(true)
    }

    /// Appends a false bit: [`append`](Self::append) with `false`.
    pub fn append_false(&mut self) -> Result<()>
        ensures ok { OnOk result (AddsBits (false ∷ []) self.old self.new) }
        ensures grows { KeepsStart self.old self.new }
        ensures stays { length self.old.bits + 1 ≤ self.old.room
            → self.new.room ≡ self.old.room }
        ensures needs { NeedsBits 1 result self.old self.new }
    {
        self.append(false)
    }

    /// Appends `n` bits, all `v`, whole bytes at a time. If the bytes are too few, the set gets the
    /// fewest bytes that hold all bits, and no other bit of the old bytes changes; clause `ok`
    /// proves this. Offset and alignment do not change, and the capacity never shrinks, on success
    /// or on error; clause `grows` proves this.
    ///
    /// Returns `TooManyBits` if offset, length and `n` together exceed `usize::MAX`. Otherwise it
    /// returns `OutOfMemory` if memory runs out. The set and its capacity are unchanged on error.
    /// If the length plus `n` is at most [`capacity`](Self::capacity), the call does not allocate,
    /// succeeds, and the capacity does not change. Clause `needs` states when the call succeeds,
    /// which errors it returns, and that nothing changes on error.
    ///
    /// ```rust
    /// let mut rows = BitBufferMut::new_unset(alloc, 2)?;
    /// rows.append(true)?;
    /// rows.append_n(false, 3)?;
    /// assert_eq!(rt; (rows.len(), rows.value(2)), (6, true));
    /// ```
    pub fn append_n(&mut self, v: bool, n: usize) -> Result<()>
        ensures ok { OnOk result (AddsBits (replicate n v) self.old self.new) }
        ensures grows { KeepsStart self.old self.new }
        ensures stays { length self.old.bits + n ≤ self.old.room
            → self.new.room ≡ self.old.room }
        ensures needs { NeedsBits n result self.old self.new }
    {
        let end = self.offset + self.len;
        if usize::MAX - end < n {
            return Err(BufferError::TooManyBits);
        }
        push_bits(&mut self.buffer, end, n, v)?;
        self.len += n;
        Ok(())
    }

    /// Changes the length to `n` bits: removes bits as [`truncate`](Self::truncate) does, or
    /// appends `v` as [`append_n`](Self::append_n) does. If `n` is the length, nothing changes.
    /// Offset and alignment do not change, the capacity never shrinks, and no bit below the shorter
    /// of both lengths changes.
    ///
    /// Returns `TooManyBits` if offset and `n` together exceed `usize::MAX`. Otherwise it returns
    /// `OutOfMemory` if memory runs out. The set and its capacity are unchanged on error. If `n` is
    /// at most [`capacity`](Self::capacity), the call does not allocate, succeeds, and the capacity
    /// does not change.
    pub fn resize(&mut self, n: usize, v: bool) -> Result<()>
        ensures ok { OnOk result (self.new.bits
            ≡ take n self.old.bits ++ replicate (n - length self.old.bits) v) }
        ensures len { OnOk result (length self.new.bits ≡ n) }
        ensures cut { n < length self.old.bits
            → self.new.bytes ≡ take (div_ceil (self.old.offset + n) 8) self.old.bytes }
        ensures filled { length self.old.bits ≤ n → OnOk result
            (AddsBits (replicate (n - length self.old.bits) v) self.old self.new) }
        ensures grows { KeepsStart self.old self.new }
        ensures stays { n ≤ self.old.room → self.new.room ≡ self.old.room }
        ensures needs { NeedsBits (n - length self.old.bits) result self.old self.new }
    {
        // This shows the prover that the end of the bits fits in `usize`.
        let _bytes = self.as_slice();
        let len = self.len();
        if n < len {
            self.truncate(n);
            return Ok(());
        }
        self.append_n(v, n - len)
    }

    /// Appends the bits of a shared set: [`append_view`](Self::append_view) of its view.
    pub fn append_buffer(&mut self, set: &BitBuffer<A>) -> Result<()>
        ensures ok { OnOk result (AddsBits set.now.bits self.old self.new) }
        ensures grows { KeepsStart self.old self.new }
        ensures stays { length set.now.bits ≤ 512
            → length self.old.bits + length set.now.bits ≤ self.old.room
            → self.new.room ≡ self.old.room }
        ensures needs { NeedsBits (length set.now.bits) result self.old self.new }
    {
        self.append_view(set.as_view())
    }

    /// Appends the bits of a view by words. They overwrite what the bytes had after the last bit.
    /// The offset and the alignment do not change, and the capacity does not shrink.
    ///
    /// Returns `TooManyBits` if the offset and both lengths together exceed `usize::MAX`. Otherwise
    /// it returns `OutOfMemory` if memory runs out. The set and its capacity are unchanged on
    /// error. If both lengths together are at most [`capacity`](Self::capacity), the call does not
    /// allocate and succeeds. Clause `stays` proves that the capacity does not change then, but
    /// only for a view of at most 512 bits.
    pub fn append_view(&mut self, bits: BitBufferView<'_>) -> Result<()>
        ensures ok { OnOk result (AddsBits (bits_of bits.entry) self.old self.new) }
        ensures grows { KeepsStart self.old self.new }
        ensures stays { length (bits_of bits.entry) ≤ 512
            → length self.old.bits + length (bits_of bits.entry) ≤ self.old.room
            → self.new.room ≡ self.old.room }
        ensures needs { NeedsBits (length (bits_of bits.entry)) result self.old self.new }
    {
        self.append_bits(bits.inner(), bits.offset(), bits.len())
    }

    /// Appends the `len` bits of `bytes` from bit `offset` on. The bits must be in bounds of
    /// `bytes`, and `offset + len` must fit in `usize`; `window_fits` tests both. Errors, memory
    /// and cost are those of [`append_view`](Self::append_view).
    pub fn append_bits(&mut self, bytes: &[u8], offset: usize, len: usize) -> Result<()>
        requires window { InBytes bytes.now offset len }
        ensures ok { OnOk result (AddsBits (bits bytes.now offset len) self.old self.new) }
        ensures grows { KeepsStart self.old self.new }
        ensures stays { len ≤ 512 → length self.old.bits + len ≤ self.old.room
            → self.new.room ≡ self.old.room }
        ensures needs { NeedsBits len result self.old self.new }
    {
        let end = self.offset + self.len;
        if usize::MAX - end < len {
            return Err(BufferError::TooManyBits);
        }
        push_window(&mut self.buffer, end, bytes, offset, len)?;
        self.len += len;
        Ok(())
    }
}
