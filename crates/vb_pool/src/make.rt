//! Commands that fill and empty slots.
ghost use Rattle.std.specs.Prelude.{◌≡◌};
ghost use Rattle.vb_command.specs.Machine.{Step, Outcome, all_below};
ghost use Rattle.vb_command.specs.Machine as machine;
ghost use Rattle.vb_pool.specs.Answered.{reply_of};

use crate::open_bits::OpenBits;
use crate::pool::Pool;
use crate::range::is_range;
use crate::refused::refusal_of;
use crate::slot::Slot;
use std::alloc::Allocator;
use vb_command::{Answer, Refusal};

#[tactic(auto, using(crate::proofs::Slots::slots))]
impl<A: Allocator + Clone> Pool<A> {
    /// Fills slot `k`, which must be empty, with an open set of `n` bits `v`.
    pub(crate) fn full(
        &mut self,
        alloc: &A,
        k: usize,
        v: bool,
        n: usize,
    ) -> Result<Answer<A>, Refusal>
        ensures { Outcome self.old (machine.Full k v n) (reply_of result) self.new }
    {
        self.need_vacant(k)?;
        let set = OpenBits::full(alloc, v, n).map_err(refusal_of)?;
        Ok(self.put(k, Slot::Open(set)))
    }

    /// Fills slot `k`, which must be empty, with an open set of `n` bits that is true exactly at
    /// these indices, which must be below `n`.
    pub(crate) fn indices(
        &mut self,
        alloc: &A,
        k: usize,
        n: usize,
        places: &[usize],
    ) -> Result<Answer<A>, Refusal>
        ensures { Outcome self.old (machine.Indices k n places.now) (reply_of result) self.new }
    {
        self.need_vacant(k)?;
        if !all_below(n, places) {
            return Err(Refusal::OutOfRange);
        }
        let set = OpenBits::from_indices(alloc, n, places).map_err(refusal_of)?;
        Ok(self.put(k, Slot::Open(set)))
    }

    /// Fills slot `t`, which must be empty, with a copy of the set in slot `k`, open or frozen as
    /// that set is. Copies the bits of an open set; a frozen set shares its storage.
    pub(crate) fn clone(&mut self, k: usize, t: usize) -> Result<Answer<A>, Refusal>
        ensures { Outcome self.old (machine.Clone k t) (reply_of result) self.new }
    {
        let slot = self.kept_at(k)?;
        self.need_vacant(t)?;
        let copy = slot.clone().map_err(refusal_of)?;
        Ok(self.put(t, copy))
    }

    /// Fills slot `t`, which must be empty, with bits `a..b` of the frozen set in slot `k`. They
    /// share the storage.
    pub(crate) fn slice(
        &mut self,
        k: usize,
        a: usize,
        b: usize,
        t: usize,
    ) -> Result<Answer<A>, Refusal>
        ensures { Outcome self.old (machine.Slice k a b t) (reply_of result) self.new }
    {
        let set = self.frozen_at(k)?;
        self.need_vacant(t)?;
        if !is_range(a, b, set.len()) {
            return Err(Refusal::OutOfRange);
        }
        let part = set.slice(a..b).map_err(refusal_of)?;
        Ok(self.put(t, Slot::Frozen(part)))
    }

    /// Fills slot `t`, which must be empty, with the bits of the frozen set in slot `k`, in as few
    /// bytes as hold them.
    pub(crate) fn sliced(&mut self, k: usize, t: usize) -> Result<Answer<A>, Refusal>
        ensures { Outcome self.old (machine.Sliced k t) (reply_of result) self.new }
    {
        let set = self.frozen_at(k)?;
        self.need_vacant(t)?;
        let same = set.sliced().map_err(refusal_of)?;
        Ok(self.put(t, Slot::Frozen(same)))
    }

    /// Empties slot `k`, which must hold a set.
    pub(crate) fn drop(&mut self, k: usize) -> Result<Answer<A>, Refusal>
        ensures { Step self.old (machine.Drop k) (reply_of result) self.new }
    {
        self.kept_at(k)?;
        Ok(self.put(k, Slot::Empty))
    }
}

/// Returns whether each of the numbers is below `n`.
fn all_below(n: usize, numbers: &[usize]) -> bool
    ensures { result ≡ all_below n numbers.now }
{
    numbers.iter().all(|number| *number < n)
}
