//! Conversions between open and frozen sets. The slot releases its set: if memory runs out, it is
//! empty afterwards.
ghost use Rattle.vb_command.specs.Machine.{Outcome};
ghost use Rattle.vb_command.specs.Machine as machine;
ghost use Rattle.vb_pool.specs.Answered.{reply_of};

use crate::open_bits::OpenBits;
use crate::pool::Pool;
use crate::refused::refusal_of;
use crate::slot::Slot;
use std::alloc::Allocator;
use vb_command::{Answer, Refusal};

#[tactic(auto, using(crate::proofs::Slots::slots))]
impl<A: Allocator + Clone> Pool<A> {
    /// Converts the open set to a frozen one, without a copy.
    pub(crate) fn freeze(&mut self, k: usize) -> Result<Answer<A>, Refusal>
        ensures { Outcome self.old (machine.Freeze k) (reply_of result) self.new }
    {
        let set = self.take_open(k)?.freeze().map_err(refusal_of)?;
        Ok(self.put(k, Slot::Frozen(set)))
    }

    /// Converts the frozen set to an open one, without a copy if no other slot shares its storage.
    pub(crate) fn thaw(&mut self, alloc: &A, k: usize) -> Result<Answer<A>, Refusal>
        ensures { Outcome self.old (machine.Thaw k) (reply_of result) self.new }
    {
        let set = OpenBits::thaw(alloc, self.take_frozen(k)?).map_err(refusal_of)?;
        Ok(self.put(k, Slot::Open(set)))
    }
}
