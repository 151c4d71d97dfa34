//! Sets made from the bytes of a command.
ghost use Rattle.std.specs.Prelude.{◌≡◌, true, IfErr, OnOk};
ghost use Rattle.vb_command.specs.Machine.{Outcome, Step, Refused, fits, vacant_at};
ghost use Rattle.vb_command.specs.Machine as machine;
ghost use Rattle.vb_pool.specs.Answered.{reply_of};

use crate::open_bits::OpenBits;
use crate::pool::Pool;
use crate::refused::refusal_of;
use crate::slot::Slot;
use std::alloc::Allocator;
use vb_command::{Answer, Refusal};
use vb_set::window_fits;

impl<A: Allocator + Clone> Pool<A> {
    /// Fills slot `k`, which must be empty, with an open set over a copy of the bytes.
    pub(crate) fn import(
        &mut self,
        alloc: &A,
        k: usize,
        offset: usize,
        len: usize,
        bytes: &[u8],
    ) -> Result<Answer<A>, Refusal>
        ensures { Outcome self.old (machine.Import k offset len bytes.now)
            (reply_of result) self.new }
    {
        self.can_import(k, offset, len, bytes)?;
        let set = OpenBits::copy_window(alloc, bytes, offset, len).map_err(refusal_of)?;
        Ok(self.put(k, Slot::Open(set)))
    }

    /// Fills slot `k`, which must be empty, with an open set over these bytes, without a copy.
    pub(crate) fn import_owned(
        &mut self,
        alloc: &A,
        k: usize,
        offset: usize,
        len: usize,
        bytes: Vec<u8, A>,
    ) -> Result<Answer<A>, Refusal>
        ensures { Outcome self.old (machine.Import k offset len bytes.items)
            (reply_of result) self.new }
    {
        if let Err(why) = self.can_import(k, offset, len, &bytes) {
            drop(bytes);
            return Err(why);
        }
        let set = OpenBits::window(alloc, bytes, offset, len).map_err(refusal_of)?;
        Ok(self.put(k, Slot::Open(set)))
    }

    /// Returns whether slot `k` can hold this window of the bytes, apart from memory: `Ok`, or the
    /// refusal.
    fn can_import(&self, k: usize, offset: usize, len: usize, bytes: &[u8]) -> Result<(), Refusal>
        ensures vacant { OnOk result (vacant_at self.now k ≡ true) }
        ensures fits { OnOk result (fits offset len bytes.now ≡ true) }
        ensures err { IfErr result (λ why.
            Step self.now (machine.Import k offset len bytes.now) (Refused why) self.now) }
    {
        if !self.is_vacant(k) {
            return Err(Refusal::BadSlot);
        }
        if offset >= 8 || !window_fits(bytes, offset, len) {
            return Err(Refusal::BadWindow);
        }
        Ok(())
    }
}
