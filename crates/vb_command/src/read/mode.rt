//! Modes written as a word.
use crate::mode::Mode;
use crate::read::field::Field;
use crate::unread::Unread;

/// `ref` or `own`.
impl Field for Mode {
    ghost use Rattle.vb_command.specs.Words.{mode};

    ghost written = { mode };

    fn read(word: &str) -> Result<Mode, Unread> {
        match word {
            "ref" => Ok(Mode::Ref),
            "own" => Ok(Mode::Own),
            _ => Err(Unread::Unreadable),
        }
    }
}
