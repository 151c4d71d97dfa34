//! Fields of a line.
ghost use Rattle.vb_command.specs.Reading.{Tells};

use crate::unread::Unread;

/// The value of one word of a line.
pub(crate) trait Field: Copy {
    ghost use Rattle.std.specs.Prelude.{ℕ, List, Option};

    /// The field that a word writes, if it writes one.
    ghost written: { List ℕ → Option Self };

    /// Returns the field that the word writes.
    fn read(word: &str) -> Result<Self, Unread>
        ensures { Tells (λ field. field) result (written word.now) };
}
