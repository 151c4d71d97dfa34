//! The state of a session.
ghost use Rattle.std.specs.Prelude.{◌≡◌, ◌<◌, ◌≤◌, ◌-◌, ◌^◌, length, take, option_map};
ghost use Rattle.std.specs.Prelude.{IfErr, IfOk, OnErr, OnOk};
ghost use Rattle.vb_command.specs.Machine.{empty_slots};
ghost use Rattle.vb_command.specs.Reading.{reading};
ghost use Rattle.vb_command.specs.Views.{reply};
ghost use Rattle.vb_script.specs.Session.{IsUnread, RepliesTo};

use crate::error::DriveError;
use std::alloc::Allocator;
use vb_command::{Answer, Unread, command_within};
use vb_pool::Pool;

/// The slots of a session, and the allocator for their sets.
#[derive(Drop)]
pub(crate) struct Session<A: Allocator + Clone> {
    alloc: A,
    pub(crate) pool: Pool<A>,
}

impl<A: Allocator + Clone> Session<A> {
    /// Returns a session with empty slots. Does not allocate.
    pub(crate) fn new(alloc: A) -> Self
        ensures { result.pool ≡ empty_slots }
    {
        Session {
            alloc,
            pool: Pool::new(),
        }
    }

    /// Parses the line with this number, runs its command and returns its answer; a line without a
    /// command has no answer. The line is the first `len` of the bytes, without its line feed.
    ///
    /// Returns `Unreadable` if the line cannot be parsed or its number is 18446744073709551615, and
    /// `Memory` if memory runs out while it parses the line. Nothing changes on error.
    #[inline(always)]
    pub(crate) fn answer(
        &mut self,
        bytes: &[u8],
        len: usize,
        number: u64,
    ) -> Result<Option<Answer<A>>, DriveError>
        requires { len ≤ length bytes.now }
        ensures ok { IfOk result (λ answer. RepliesTo (reading (take len bytes.now))
            self.old.pool (option_map reply answer) self.new.pool) }
        ensures numbered { OnOk result (number < 2 ^ 64 - 1) }
        ensures same { OnErr result (self.new.pool ≡ self.old.pool) }
        ensures err { IfErr result (IsUnread (take len bytes.now) number) }
    {
        let unreadable = DriveError::Unreadable { line: number };
        if number == u64::MAX {
            return Err(unreadable);
        }
        match command_within(&self.alloc, bytes, len) {
            Ok(Some(command)) => Ok(Some(self.pool.serve_owned(&self.alloc, command))),
            Ok(None) => Ok(None),
            Err(Unread::Unreadable) => Err(unreadable),
            Err(Unread::Memory) => Err(DriveError::Memory),
        }
    }
}
