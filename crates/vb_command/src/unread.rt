//! The reasons why the command of a line cannot be returned.
ghost use Rattle.std.specs.Prelude.{◌≡◌};
ghost use Rattle.vb_command.specs.declared.unread.Unread.TheVariants.{Memory};

use std::alloc::{AllocError, AllocFailed};

/// The reason why the command of a line cannot be returned.
#[derive(Clone, Copy, Debug, PartialEq, Eq)]
pub enum Unread {
    /// Memory ran out for the line's bytes or numbers.
    Memory,
    /// The line cannot be parsed.
    Unreadable,
}

impl From<AllocError> for Unread {
    ghost from_gives = { λ _ unread. unread ≡ Memory };

    fn from(_error: AllocError) -> Unread {
        Unread::Memory
    }
}

impl<T: Drop> From<AllocFailed<T>> for Unread {
    ghost from_gives = { λ _ unread. unread ≡ Memory };

    fn from(_failed: AllocFailed<T>) -> Unread {
        Unread::Memory
    }
}
