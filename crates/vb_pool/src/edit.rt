//! Edits of the open set in a slot.
ghost use Rattle.vb_command.specs.Machine.{Step, Outcome};
ghost use Rattle.vb_command.specs.Machine as machine;
ghost use Rattle.vb_pool.specs.Answered.{reply_of};

use crate::pool::Pool;
use crate::range::is_range;
use crate::refused::refusal_of;
use crate::slot::Slot;
use std::alloc::Allocator;
use vb_command::{Answer, Refusal};

#[tactic(auto, using(crate::proofs::Slots::slots))]
impl<A: Allocator + Clone> Pool<A> {
    /// Sets bit `i` to `v`.
    pub(crate) fn set(&mut self, k: usize, i: usize, v: bool) -> Result<Answer<A>, Refusal>
        ensures { Step self.old (machine.Set k i v) (reply_of result) self.new }
    {
        let set = self.open_mut(k).ok_or(Refusal::BadSlot)?;
        if i >= set.len() {
            return Err(Refusal::OutOfRange);
        }
        set.set_to(i, v);
        Ok(Answer::Done)
    }

    /// Appends a bit `v`.
    pub(crate) fn append(&mut self, k: usize, v: bool) -> Result<Answer<A>, Refusal>
        ensures { Outcome self.old (machine.Append k v) (reply_of result) self.new }
    {
        let set = self.open_mut(k).ok_or(Refusal::BadSlot)?;
        set.append(v).map_err(refusal_of)?;
        Ok(Answer::Done)
    }

    /// Appends `n` bits `v`.
    pub(crate) fn append_n(&mut self, k: usize, v: bool, n: usize) -> Result<Answer<A>, Refusal>
        ensures { Outcome self.old (machine.Appendn k v n) (reply_of result) self.new }
    {
        let set = self.open_mut(k).ok_or(Refusal::BadSlot)?;
        set.append_n(v, n).map_err(refusal_of)?;
        Ok(Answer::Done)
    }

    /// Appends the bits of the frozen set in slot `j`.
    #[tactic(auto, using(crate::proofs::Slots::taken))]
    pub(crate) fn append_set(&mut self, k: usize, j: usize) -> Result<Answer<A>, Refusal>
        ensures { Outcome self.old (machine.Appendset k j) (reply_of result) self.new }
    {
        self.frozen_at(j)?;
        let mut set = self.take_open(k)?;
        // Slot `j` still holds its frozen set: slot `k` held an open one, so it is another slot.
        let Ok(more) = self.frozen_at(j) else {
            drop(set);
            return Err(Refusal::BadSlot);
        };
        let added = set.append_set(more);
        drop(self.put(k, Slot::Open(set)));
        added.map_err(refusal_of)?;
        Ok(Answer::Done)
    }

    /// Sets bits `a..b` to `v`.
    pub(crate) fn fill(
        &mut self,
        k: usize,
        a: usize,
        b: usize,
        v: bool,
    ) -> Result<Answer<A>, Refusal>
        ensures { Step self.old (machine.Fill k a b v) (reply_of result) self.new }
    {
        let set = self.open_mut(k).ok_or(Refusal::BadSlot)?;
        if !is_range(a, b, set.len()) {
            return Err(Refusal::OutOfRange);
        }
        set.fill_range(a, b, v);
        Ok(Answer::Done)
    }

    /// Removes all bits after the first `n`; removes none if there are at most `n`.
    pub(crate) fn truncate(&mut self, k: usize, n: usize) -> Result<Answer<A>, Refusal>
        ensures { Step self.old (machine.Truncate k n) (reply_of result) self.new }
    {
        self.open_mut(k).ok_or(Refusal::BadSlot)?.truncate(n);
        Ok(Answer::Done)
    }

    /// Removes all bits.
    pub(crate) fn clear(&mut self, k: usize) -> Result<Answer<A>, Refusal>
        ensures { Step self.old (machine.Clear k) (reply_of result) self.new }
    {
        self.open_mut(k).ok_or(Refusal::BadSlot)?.clear();
        Ok(Answer::Done)
    }

    /// Negates every bit, in place.
    pub(crate) fn negate(&mut self, k: usize) -> Result<Answer<A>, Refusal>
        ensures { Step self.old (machine.Flip k) (reply_of result) self.new }
    {
        let set = self.take_open(k)?;
        Ok(self.put(k, Slot::Open(set.negated())))
    }
}
