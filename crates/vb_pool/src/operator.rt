//! Frozen sets combined or negated. With `own` the left slot releases its set: if memory runs out,
//! it is empty afterwards.
ghost use Rattle.std.specs.Prelude.{◌≡◌, true, false, IsSome, IfErr, OnOk};
ghost use Rattle.vb_set.specs.Gives.{GivesCombined};
ghost use Rattle.vb_command.specs.Machine.{Outcome, frozen_at, after_release, vacant_at};
ghost use Rattle.vb_command.specs.Machine as machine;
ghost use Rattle.vb_pool.specs.Answered.{GivesHeld, reply_of};

use crate::pool::Pool;
use crate::refused::refusal_of;
use crate::slot::Slot;
use std::alloc::Allocator;
use vb_command::{Answer, Mode, Refusal};
use vb_set::{BitBuffer, BitOp, Result};

#[tactic(auto, using(crate::proofs::Slots::slots))]
impl<A: Allocator + Clone> Pool<A> {
    /// Combines the bits of the frozen sets in slots `l` and `r`, which must have the same length,
    /// and fills slot `t` with the result. With `ref` the result has new storage. With `own` it has
    /// the left set's storage if no other slot shares it.
    pub(crate) fn combine(
        &mut self,
        op: BitOp,
        mode: Mode,
        l: usize,
        r: usize,
        t: usize,
    ) -> Result<Answer<A>, Refusal>
        ensures { Outcome self.old (machine.Combine op mode l r t) (reply_of result) self.new }
    {
        let len = self.frozen_at(l)?.len();
        let right_len = self.frozen_beside(mode, l, r)?.len();
        self.need_vacant_beside(mode, l, t)?;
        if len != right_len {
            return Err(Refusal::LengthMismatch);
        }
        let set = match mode {
            Mode::Ref => combine_sets(self.frozen_at(l)?, self.frozen_at(r)?, op),
            Mode::Own => {
                let left = self.take_frozen(l)?;
                let Ok(right) = self.frozen_at(r) else {
                    drop(left);
                    return Err(Refusal::BadSlot);
                };
                combine_into_left(left, right, op)
            }
        };
        Ok(self.put(t, Slot::Frozen(set.map_err(refusal_of)?)))
    }

    /// Negates the bits of the frozen set in slot `l`, and fills slot `t` with the result. With
    /// `ref` the result has new storage. With `own` it has the set's storage if no other slot
    /// shares it.
    pub(crate) fn not(&mut self, mode: Mode, l: usize, t: usize) -> Result<Answer<A>, Refusal>
        ensures { Outcome self.old (machine.Not mode l t) (reply_of result) self.new }
    {
        self.frozen_at(l)?;
        self.need_vacant_beside(mode, l, t)?;
        let set = match mode {
            Mode::Ref => !self.frozen_at(l)?,
            Mode::Own => !self.take_frozen(l)?,
        };
        Ok(self.put(t, Slot::Frozen(set.map_err(refusal_of)?)))
    }

    /// Returns the frozen set in slot `r`. Returns `BadSlot` if the slot does not exist or holds
    /// none, and with `own` also if it is slot `l`, which releases its set.
    #[tactic(auto, using(crate::proofs::Slots::given))]
    fn frozen_beside(&self, mode: Mode, l: usize, r: usize) -> Result<&BitBuffer<A>, Refusal>
        ensures { GivesHeld (λ set. set.now.bits)
            (frozen_at (after_release mode l self.now) r) result }
    {
        match mode {
            Mode::Own if l == r => Err(Refusal::BadSlot),
            _ => self.frozen_at(r),
        }
    }

    /// Returns `BadSlot` if slot `t` does not exist or is not empty. With `own` it may be slot `l`,
    /// which releases its set.
    #[tactic(auto, using(crate::proofs::Slots::given))]
    fn need_vacant_beside(&self, mode: Mode, l: usize, t: usize) -> Result<(), Refusal>
        requires { IsSome (frozen_at self.now l) }
        ensures ok { OnOk result (vacant_at (after_release mode l self.now) t ≡ true) }
        ensures err { IfErr result (λ why.
            (why ≡ Refusal.BadSlot) × (vacant_at (after_release mode l self.now) t ≡ false)) }
    {
        match mode {
            Mode::Own if l == t => Ok(()),
            _ => self.need_vacant(t),
        }
    }
}

/// Returns two sets combined, in new storage. Returns `OutOfMemory` if memory runs out, and
/// `LengthMismatch` if the lengths differ.
fn combine_sets<A: Allocator + Clone>(
    left: &BitBuffer<A>,
    right: &BitBuffer<A>,
    op: BitOp,
) -> Result<BitBuffer<A>>
    ensures { GivesCombined op left.now right.now result }
{
    match op {
        BitOp::And => left & right,
        BitOp::Or => left | right,
        BitOp::Xor => left ^ right,
        BitOp::AndNot => left.bitand_not(right),
    }
}

/// Returns two sets combined, in the left set's storage if it is the only owner. Returns
/// `OutOfMemory` if memory runs out, and `LengthMismatch` if the lengths differ; the left set is
/// dropped then.
fn combine_into_left<A: Allocator + Clone>(
    left: BitBuffer<A>,
    right: &BitBuffer<A>,
    op: BitOp,
) -> Result<BitBuffer<A>>
    ensures { GivesCombined op left right.now result }
{
    match op {
        BitOp::And => left & right,
        BitOp::Or => left | right,
        BitOp::Xor => left ^ right,
        BitOp::AndNot => left.into_bitand_not(right),
    }
}
