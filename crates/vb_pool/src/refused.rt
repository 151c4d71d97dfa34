//! Errors of sets as refusals of commands.
ghost use Rattle.std.specs.Prelude.{◌≡◌, ℕ};
ghost use Rattle.vb_pool.specs.Answered.{IsOfSet};

use vb_command::Refusal;
use vb_set::BufferError;

/// Returns the refusal of a command for an error of a set. Except for the indices of `take`,
/// commands test windows, ranges, indices and lengths first, so the calls that make or change sets
/// then return only these three errors.
pub(crate) fn refusal_of(error: BufferError) -> Refusal
    requires { IsOfSet error }
    ensures bits { error ≡ BufferError.TooManyBits → result ≡ Refusal.TooManyBits }
    ensures position { (p : ℕ) → error ≡ BufferError.TakeOutOfRange p
        → result ≡ Refusal.TakeOutOfRange p }
    ensures memory { error ≡ BufferError.OutOfMemory → result ≡ Refusal.OutOfMemory }
{
    match error {
        BufferError::TakeOutOfRange { position } => Refusal::TakeOutOfRange(position),
        BufferError::TooManyBits => Refusal::TooManyBits,
        BufferError::OutOfMemory => Refusal::OutOfMemory,
        _ => unreachable!(),
    }
}
