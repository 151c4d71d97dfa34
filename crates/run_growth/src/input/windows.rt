//! Windows of bytes. Successive calls have windows that begin at different bits, so that the
//! compiler can't merge the calls.
ghost use Rattle.std.specs.Prelude.{◌≡◌, length, IfOk};
ghost use Rattle.vb_view.specs.View.{bits_of};

use anyhow::{Result, bail};
use vb_bits::window_fits;
use vb_view::BitBufferView;

/// Returns the `len` bits of the bytes from bit `turn % 8` on. Returns an error if they are too
/// few.
pub fn window(bytes: &[u8], len: usize, turn: usize) -> Result<BitBufferView<'_>>
    ensures { IfOk result (λ view. length (bits_of view) ≡ len) }
{
    let offset = turn % 8;
    if !window_fits(bytes, offset, len) {
        bail!("too few bytes");
    }
    Ok(BitBufferView::new_with_offset(bytes, len, offset))
}
