//! Single bits appended by words.
ghost use Rattle.std.specs.Prelude.{◌≡◌, ◌+◌, ◌^◌, ◌<◌, ◌≤◌, [], ◌∷◌, ◌++◌};
ghost use Rattle.std.specs.Prelude.{length, IsOk, IsOkUnless, IsErrOf, OnOk, OnErr};
ghost use Rattle.vb_view.specs.MutView.{IsSameReference};

use crate::bit_buffer_mut::BitBufferMut;
use std::alloc::{Allocator, Global};
use vb_core::{BufferError, Result};

/// Appends single bits to a set, which it borrows, and writes them by words: the last bits, up to
/// 64, are pending until it is dropped. So most appends need no memory access.
///
/// It reserves capacity before bits are pending. So dropping it, which writes them to the set,
/// can't fail: the set then has all bits that were appended, also those before an error.
pub struct BitAppender<'a, A: Allocator + Clone = Global> {
    set: &'a mut BitBufferMut<A>,
    // The pending bits, lowest first, and their number.
    word: u64,
    count: usize,
    // How many bits may be pending: there is capacity for them.
    limit: usize,
    ghost in_word: { limit ≤ 64 },
    ghost within: { count ≤ limit },
    ghost clear: { word < 2 ^ count },
}

#[tactic(auto, using(crate::proofs::AppenderLemmas::appends))]
impl<'a, A: Allocator + Clone> BitAppender<'a, A> {
    ghost use Rattle.vb_set.specs.Appender.{target_of, set_of, pending_of, IsReady};
    ghost use Rattle.vb_set.specs.Appender.{HasAdded, SinceAdded};
    ghost use Rattle.vb_set.specs.OpenSet.{AddsBits, KeepsStart, NeedsBits};

    /// Returns an appender to the set, without pending bits.
    #[inline(always)]
    pub(crate) fn new(set: &'a mut BitBufferMut<A>) -> Self
        ensures lends { IsSameReference (target_of result) set.entry }
        ensures none { HasAdded set.old [] result }
    {
        // This shows the prover that the bits are in bounds of the bytes and within the capacity.
        let (_bytes, _room) = (set.as_slice(), set.capacity());
        BitAppender {
            set,
            word: 0,
            count: 0,
            limit: 0,
        }
    }

    /// Appends one bit, in amortized constant time.
    ///
    /// Returns `TooManyBits` if offset and length, with the pending bits, together are
    /// `usize::MAX`. Otherwise it returns `OutOfMemory` if memory runs out. Nothing changes on
    /// error: the bits that were appended before stay. Within the capacity that the set had, the
    /// call does not allocate, succeeds, and the capacity does not change.
    #[inline(always)]
    pub fn append(&mut self, v: bool) -> Result<()>
        ensures same_reference { (target_of self.new).ghost_name
            ≡ (target_of self.old).ghost_name }
        ensures ok { SinceAdded self.old (λ start added.
            OnOk result (HasAdded start (added ++ v ∷ []) self.new)) }
        ensures err { SinceAdded self.old (λ start added.
            OnErr result (HasAdded start added self.new)) }
        ensures in_room { SinceAdded self.old (λ start added.
            length start.bits + length added + 1 ≤ start.room → IsOk result) }
        ensures fits { SinceAdded self.old (λ start added.
            start.offset + length start.bits + length added + 1 < 2 ^ 64
            → IsOkUnless result BufferError.OutOfMemory) }
        ensures too_many { SinceAdded self.old (λ start added.
            2 ^ 64 ≤ start.offset + length start.bits + length added + 1
            → IsErrOf result BufferError.TooManyBits) }
    {
        if self.count < self.limit {
            self.push(v);
            return Ok(());
        }
        self.start_word()?;
        self.push(v);
        Ok(())
    }

    /// Writes the pending bits, and reserves capacity for at least one more bit.
    #[inline(always)]
    fn start_word(&mut self) -> Result<()>
        ensures same_reference { (target_of self.new).ghost_name
            ≡ (target_of self.old).ghost_name }
        ensures ok { OnOk result
            (AddsBits (pending_of self.old) (set_of self.old) (set_of self.new)) }
        ensures grows { KeepsStart (set_of self.old) (set_of self.new) }
        ensures pending { OnOk result (pending_of self.new ≡ []) }
        ensures more { OnOk result (self.new.count < self.new.limit) }
        ensures ready { OnOk result (IsReady self.new) }
        ensures stays { length (set_of self.old).bits + (length (pending_of self.old) + 1)
            ≤ (set_of self.old).room → (set_of self.new).room ≡ (set_of self.old).room }
        ensures needs { NeedsBits (length (pending_of self.old) + 1) result
            (set_of self.old) (set_of self.new) }
        ensures err { OnErr result (pending_of self.new ≡ pending_of self.old) }
        ensures limit { OnErr result (self.new.limit ≡ self.old.limit) }
    {
        self.set.reserve(self.count + 1)?;
        self.set.append_word_unchecked(self.word, self.count);
        self.word = 0;
        self.count = 0;
        self.limit = self.set.room_in_word();
        Ok(())
    }

    /// Makes a bit pending.
    #[inline(always)]
    fn push(&mut self, v: bool)
        requires { self.old.count < self.old.limit }
        ensures set { target_of self.new ≡ target_of self.old }
        ensures limit { self.new.limit ≡ self.old.limit }
        ensures pending { pending_of self.new ≡ pending_of self.old ++ v ∷ [] }
    {
        self.word |= u64::from(v) << self.count;
        self.count += 1;
    }
}

/// Writes the pending bits to the set. There is capacity for them.
impl<'a, A: Allocator + Clone> Drop for BitAppender<'a, A> {
    ghost use Rattle.std.specs.Prelude.{◌≡◌, ◌+◌, ◌≤◌, length};
    ghost use Rattle.vb_set.specs.Appender.{SinceAdded};
    ghost use Rattle.vb_set.specs.OpenSet.{AddsBits, KeepsStart};

    #[inline(always)]
    fn drop(self)
        ensures adds { SinceAdded self.entry (λ start added.
            AddsBits added start self.exit.0.now) }
        ensures grows { SinceAdded self.entry (λ start _. KeepsStart start self.exit.0.now) }
        ensures stays { SinceAdded self.entry (λ start added.
            length start.bits + length added ≤ start.room
            → self.exit.0.now.room ≡ start.room) }
    {
        let BitAppender {
            set,
            word,
            count,
            limit: _,
        } = self;
        let _ = set.append_word(word, count);
    }
}
