//! The indices of many ranks in one call.
ghost use Rattle.std.specs.Prelude.{◌≡◌, ◌≢◌, length, IsOk, IsErrOf};

use vb_set::{BufferError, Result};

/// Returns `LengthMismatch` if the number of ranks and the number of indices differ, otherwise
/// `Ok`.
pub(crate) fn compare_len(ranks: &[usize], places: &[Option<usize>]) -> Result<()>
    ensures same_len { length ranks.now ≡ length places.now → IsOk result }
    ensures other_len { length ranks.now ≢ length places.now → IsErrOf result
        (BufferError.LengthMismatch (length ranks.now) (length places.now)) }
{
    if ranks.len() == places.len() {
        return Ok(());
    }
    Err(BufferError::LengthMismatch {
        left: ranks.len(),
        right: places.len(),
    })
}
