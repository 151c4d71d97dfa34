//! Windows of bits.
ghost use Rattle.std.specs.Prelude.{◌↔◌, IsTrue};
ghost use Rattle.vb_bits.specs.InBytes.{InBytes};

/// Returns whether the `len` bits from bit `offset` on are in bounds of `bytes`, and `offset + len`
/// fits in a `usize`.
///
/// A window of no bits may start right after the last bit, but no further.
pub fn window_fits(bytes: &[u8], offset: usize, len: usize) -> bool
    ensures { IsTrue result ↔ InBytes bytes.now offset len }
{
    match offset.checked_add(len) {
        Some(end) => end.div_ceil(8) <= bytes.len(),
        None => false,
    }
}
