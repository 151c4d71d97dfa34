//! Single bits.
ghost use Rattle.std.specs.Prelude.{◌≡◌, ◌/◌, ◌<◌, true, false, [], ◌∷◌, length};
ghost use Rattle.vb_bits.specs.Bits.{bit_of};
ghost use Rattle.vb_bits.specs.Writes.{Writes};

/// Returns bit `i`. The caller must prove that its byte is in bounds.
pub fn get_bit(buf: &[u8], i: usize) -> bool
    requires { i / 8 < length buf.now }
    ensures { result ≡ bit_of buf.now i }
{
    (buf[i / 8] >> (i % 8)) & 1 == 1
}

/// Returns bit `i`. The caller must prove that its byte is in bounds.
///
/// This is [`get_bit`] under the name of the unchecked form. Neither call tests `i` at run time.
pub fn get_bit_unchecked(buf: &[u8], i: usize) -> bool
    requires { i / 8 < length buf.now }
    ensures { result ≡ bit_of buf.now i }
{
    get_bit(buf, i)
}

/// Sets bit `i` and leaves every other bit unchanged. The caller must prove that its byte is in
/// bounds.
pub fn set_bit_unchecked(buf: &mut [u8], i: usize)
    requires { i / 8 < length buf.old }
    ensures { Writes buf.old buf.new i (true ∷ []) }
{
    buf[i / 8] |= 1 << (i % 8);
}

/// Clears bit `i` and leaves every other bit unchanged. The caller must prove that its byte is in
/// bounds.
pub fn unset_bit_unchecked(buf: &mut [u8], i: usize)
    requires { i / 8 < length buf.old }
    ensures { Writes buf.old buf.new i (false ∷ []) }
{
    buf[i / 8] &= !(1 << (i % 8));
}

/// Sets bit `i` to `v`, without a branch on `v`, and leaves every other bit unchanged. The caller
/// must prove that its byte is in bounds.
pub fn set_bit_to(buf: &mut [u8], i: usize, v: bool)
    requires { i / 8 < length buf.old }
    ensures { Writes buf.old buf.new i (v ∷ []) }
{
    let others = buf[i / 8] & !(1 << (i % 8));
    // The rotation moves the digit to the same index as a shift, in fewer instructions.
    buf[i / 8] = others | u8::from(v).rotate_left((i % 8) as u32);
}
