//! Numbers written in decimal.
ghost use Rattle.std.specs.Prelude.{◌<◌, ◌≤◌, length};
ghost use Rattle.vb_command.specs.Reading.{Tells};
ghost use Rattle.vb_command.specs.Words.{number};

use crate::read::field::Field;
use crate::unread::Unread;

/// The greatest number of digits that needs no test for overflow.
const FEW: usize = 19;

/// Unlike `parse`, it does not accept a `+`.
#[tactic(auto, using(crate::proofs::NumberWords::numbers))]
impl Field for usize {
    ghost use Rattle.vb_command.specs.Words.{number};

    ghost written = { number };

    /// Most slots have one digit, and are read without a call.
    #[inline(always)]
    fn read(word: &str) -> Result<usize, Unread> {
        if word.len() == 1 {
            return few_digits(word.as_bytes());
        }
        digits(word)
    }
}

/// Returns the number that a word writes.
#[inline(never)]
#[tactic(auto, using(crate::proofs::NumberWords::numbers))]
fn digits(word: &str) -> Result<usize, Unread>
    ensures { Tells (λ n. n) result (number word.now) }
{
    if !word.is_empty() && word.len() <= FEW {
        return few_digits(word.as_bytes());
    }
    if word.starts_with('+') {
        return Err(Unread::Unreadable);
    }
    word.parse().map_err(|_| Unread::Unreadable)
}

/// Returns the number of a word with so few digits that it fits.
#[inline(always)]
#[tactic(auto, using(crate::proofs::NumberWords::few))]
fn few_digits(bytes: &[u8]) -> Result<usize, Unread>
    requires some { 0 < length bytes.now }
    requires few { length bytes.now ≤ FEW }
    ensures { Tells (λ n. n) result (number bytes.now) }
{
    let mut n = 0;
    for byte in bytes {
        if !byte.is_ascii_digit() {
            return Err(Unread::Unreadable);
        }
        n = 10 * n + (*byte - b'0') as usize;
    }
    Ok(n)
}

/// A number, or `-` for none.
impl Field for Option<usize> {
    ghost use Rattle.vb_command.specs.Words.{optional_number};

    ghost written = { optional_number };

    fn read(word: &str) -> Result<Option<usize>, Unread> {
        if word == "-" {
            return Ok(None);
        }
        Ok(Some(usize::read(word)?))
    }
}

/// A number, or a `-` and a number. Without a `-` it is parsed like a `usize`. Unlike `parse`, it
/// does not accept a `+`.
#[tactic(auto, using(crate::proofs::NumberWords::numbers))]
impl Field for i64 {
    ghost use Rattle.vb_command.specs.Listed.{index};

    ghost written = { index };

    fn read(word: &str) -> Result<i64, Unread> {
        if !word.starts_with('-') {
            let n = usize::read(word)?;
            return i64::try_from(n).map_err(|_| Unread::Unreadable);
        }
        word.parse().map_err(|_| Unread::Unreadable)
    }
}
