//! Sets over a page of bytes. Successive calls have sets that begin at different bits, so that the
//! compiler can't merge the calls.
ghost use Rattle.std.specs.Prelude.{◌≡◌, length, IfOk};

use crate::input::Case;
use anyhow::{Result, bail};
use vb_bits::window_fits;
use vb_mem::ByteBuffer;
use vb_set::BitBuffer;

/// Returns the bits of the page from bit `turn % 8` on, which share its storage. Returns an error
/// if they are too few.
pub fn set_of(page: &ByteBuffer, case: Case, turn: usize) -> Result<BitBuffer>
    ensures { IfOk result (λ set. length set.bits ≡ case.size) }
{
    let offset = turn % 8;
    if !window_fits(page.as_slice(), offset, case.size) {
        bail!("too few bytes");
    }
    Ok(BitBuffer::new_with_offset(page.clone()?, case.size, offset))
}
