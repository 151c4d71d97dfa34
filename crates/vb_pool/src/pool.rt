//! The slots, and the access of commands to them.
ghost use Rattle.std.specs.Prelude.{◌≡◌, true, false, length, slice_get, slice_set, MatchResult};
ghost use Rattle.std.specs.Prelude.{IfErr, OnOk};
ghost use Rattle.std.specs.Borrow.{LendsIf, sem};
ghost use Rattle.std.specs.Option.{option_copied, option_copied_mut};
ghost use Rattle.vb_command.specs.Machine.{Empty as Vacant, Open as OpenList, Done, empty_slots};
ghost use Rattle.vb_command.specs.Machine.{list_at, open_at, frozen_at, kept_at, vacant_at};
ghost use Rattle.vb_command.specs.Views.{reply};
ghost use Rattle.vb_pool.specs.Answered.{GivesHeld};
ghost use Rattle.vb_pool.specs.Slot.{content};
ghost use Rattle.vb_pool.specs.contracts.pool.Pool.{the_row};
ghost use Rattle.vb_pool.specs.contracts.open_bits.OpenBits.{the_row as open_row};
ghost use Rattle.vb_set.specs.View.{bits_of};

use crate::open_bits::OpenBits;
use crate::sixteen::Sixteen;
use crate::slot::Slot;
use std::alloc::{Allocator, Global};
use std::fmt;
use std::marker::Model;
use vb_command::{Answer, Refusal};
use vb_set::{BitBuffer, BitBufferView};

/// Sixteen slots for sets of bits, numbered from 0. Contracts see the list of their contents.
///
/// A set keeps the allocator that it was made with: a clone of the one passed to [`Pool::serve`],
/// the one of the bytes of an `import` passed by value, or the one of the set it was made from (for
/// an operator the left one).
#[derive(Drop)]
pub struct Pool<A: Allocator + Clone = Global> {
    slots: Sixteen<Slot<A>>,
}

impl<A: Allocator + Clone> Model for Pool<A> {
    ghost use Rattle.std.specs.Prelude.{List, map};
    ghost use Rattle.vb_command.specs.Machine.{Slot as Content};
    ghost use Rattle.vb_pool.specs.Slot.{content};

    ghost Value = { List Content };

    ghost view = { λ p. map content p.slots };
}

impl<A: Allocator + Clone> Pool<A> {
    /// Returns a pool of empty slots. Does not allocate.
    #[tactic(auto, unfolding(vb_command::specs::Machine::empty_slots))]
    pub fn new() -> Self
        ensures { result ≡ empty_slots }
    {
        Pool {
            slots: Sixteen::empty(),
        }
    }

    /// Returns the number of slots.
    pub(crate) fn slot_count(&self) -> usize
        ensures number { result ≡ 16 }
        ensures list { length self.now ≡ 16 }
    {
        self.slots.len()
    }

    /// Returns the bits of the set in slot `k`, open or frozen. Returns `BadSlot` if the slot does
    /// not exist or holds none.
    pub(crate) fn set_at(&self, k: usize) -> Result<BitBufferView<'_>, Refusal>
        ensures { GivesHeld bits_of (list_at self.now k) result }
    {
        match self.slots.get(k) {
            Some(Slot::Open(set)) => Ok(set.as_set().as_view()),
            Some(Slot::Frozen(set)) => Ok(set.as_view()),
            _ => Err(Refusal::BadSlot),
        }
    }

    /// Lends the open set in slot `k` for edits, if the slot exists and holds one.
    pub(crate) fn open_mut(&mut self, k: usize) -> Option<&mut OpenBits<A>>
        ensures* writes_back { sem 𝓛 (LendsIf
            (the_row A.row A.Allocator A.Clone) (open_row A.row A.Allocator A.Clone)
            self.entry result (λ l. slice_set self.old k (OpenList l)) self.old) }
        ensures value { option_copied_mut result ≡ open_at self.old k }
    {
        self.slots.get_mut(k)?.open_mut()
    }

    /// Returns the frozen set in slot `k`. Returns `BadSlot` if the slot does not exist or holds
    /// none.
    pub(crate) fn frozen_at(&self, k: usize) -> Result<&BitBuffer<A>, Refusal>
        ensures { GivesHeld (λ set. set.now.bits) (frozen_at self.now k) result }
    {
        match self.slots.get(k) {
            Some(Slot::Frozen(set)) => Ok(set),
            _ => Err(Refusal::BadSlot),
        }
    }

    /// Returns slot `k`. Returns `BadSlot` if it does not exist or is empty.
    pub(crate) fn kept_at(&self, k: usize) -> Result<&Slot<A>, Refusal>
        ensures { GivesHeld (λ slot. content slot.now) (kept_at self.now k) result }
    {
        match self.slots.get(k) {
            None | Some(Slot::Empty) => Err(Refusal::BadSlot),
            Some(slot) => Ok(slot),
        }
    }

    /// Takes the open set out of slot `k` and leaves the slot empty. Returns `BadSlot` if the slot
    /// does not exist or holds none; nothing changes then.
    #[tactic(auto, using(crate::proofs::Slots::slots))]
    pub(crate) fn take_open(&mut self, k: usize) -> Result<OpenBits<A>, Refusal>
        ensures taken { GivesHeld (λ set. set) (open_at self.old k) result }
        ensures left { MatchResult result
            (λ _. self.new ≡ slice_set self.old k Vacant)
            (λ _. self.new ≡ self.old) }
    {
        let slot = self.slots.get_mut(k).ok_or(Refusal::BadSlot)?;
        slot.take_open().ok_or(Refusal::BadSlot)
    }

    /// Takes the frozen set out of slot `k` and leaves the slot empty. Returns `BadSlot` if the
    /// slot does not exist or holds none; nothing changes then.
    #[tactic(auto, using(crate::proofs::Slots::slots))]
    pub(crate) fn take_frozen(&mut self, k: usize) -> Result<BitBuffer<A>, Refusal>
        ensures taken { GivesHeld (λ set. set.bits) (frozen_at self.old k) result }
        ensures left { MatchResult result
            (λ _. self.new ≡ slice_set self.old k Vacant)
            (λ _. self.new ≡ self.old) }
    {
        let slot = self.slots.get_mut(k).ok_or(Refusal::BadSlot)?;
        slot.take_frozen().ok_or(Refusal::BadSlot)
    }

    /// Returns whether slot `k` exists and is empty.
    pub(crate) fn is_vacant(&self, k: usize) -> bool
        ensures { result ≡ vacant_at self.now k }
    {
        matches!(self.slots.get(k), Some(Slot::Empty))
    }

    /// Returns `BadSlot` if slot `k` does not exist or is not empty.
    pub(crate) fn need_vacant(&self, k: usize) -> Result<(), Refusal>
        ensures ok { OnOk result (vacant_at self.now k ≡ true) }
        ensures err { IfErr result (λ why.
            (why ≡ Refusal.BadSlot) × (vacant_at self.now k ≡ false)) }
    {
        if self.is_vacant(k) {
            Ok(())
        } else {
            Err(Refusal::BadSlot)
        }
    }

    /// Fills slot `k`, drops its old content, and returns `Done`.
    #[tactic(auto, using(crate::proofs::Slots::slots))]
    pub(crate) fn put(&mut self, k: usize, slot: Slot<A>) -> Answer<A>
        ensures slots { self.new ≡ slice_set self.old k (content slot) }
        ensures done { reply result ≡ Done }
    {
        drop(self.slots.replace(k, slot));
        Answer::Done
    }
}

/// Prints the slots that hold a set, each with its first bits. The text may change.
impl<A: Allocator + Clone> fmt::Debug for Pool<A> {
    fn fmt<W: fmt::Write>(&self, f: &mut fmt::Formatter<W>) -> fmt::Result {
        write!(f, "Pool")?;
        for k in 0..self.slot_count() {
            if let Ok(bits) = self.set_at(k) {
                write!(f, " {k}: {bits:?}")?;
            }
        }
        Ok(())
    }
}
