//! Truth values written as a binary digit.
use crate::read::field::Field;
use crate::unread::Unread;

/// `0` or `1`.
impl Field for bool {
    ghost use Rattle.vb_command.specs.Words.{truth};

    ghost written = { truth };

    fn read(word: &str) -> Result<bool, Unread> {
        match word {
            "0" => Ok(false),
            "1" => Ok(true),
            _ => Err(Unread::Unreadable),
        }
    }
}
