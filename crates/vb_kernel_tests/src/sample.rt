//! Bytes and windows to test with.
ghost use Rattle.std.specs.Prelude.{◌≡◌, length};
ghost use Rattle.vb_view.specs.View.{bits_of};

use crate::compared::holds;
use std::process::Abort;
use vb_bits::window_fits;
use vb_view::BitBufferView;

/// Fills the bytes without a pattern, by a linear congruence.
pub(crate) fn mix(bytes: &mut [u8]) {
    let mut state = 0x2545_F491_4F6C_DD1Du64;
    for byte in bytes.iter_mut() {
        state = state
            .wrapping_mul(6_364_136_223_846_793_005)
            .wrapping_add(1_442_695_040_888_963_407);
        *byte = (state >> 56) as u8;
    }
}

/// Sets stretches of `len` bytes to 0 and to 0xFF in turn. Leaves `len` bytes unchanged after each
/// stretch. Does nothing if `len` is 0.
pub(crate) fn stretch(bytes: &mut [u8], len: usize) {
    for (i, byte) in bytes.iter_mut().enumerate() {
        match i.checked_div(len).unwrap_or(1) % 4 {
            0 => *byte = 0,
            2 => *byte = u8::MAX,
            _ => {},
        }
    }
}

/// A window of the bytes. It has to fit in them.
pub(crate) fn view<'a>(
    rt: &impl Abort,
    bytes: &'a [u8],
    offset: usize,
    len: usize,
) -> BitBufferView<'a>
    ensures { length (bits_of result) ≡ len }
{
    holds(rt, window_fits(bytes, offset, len));
    BitBufferView::new_with_offset(bytes, len, offset)
}
