//! One bit.
ghost use Rattle.std.specs.Prelude.{◌≡◌, ◌*◌, ◌/◌, ◌<◌, length};
ghost use Rattle.vb_bits.specs.Bits.{bit_of};
ghost use Rattle.vb_c_core.specs.Fits.{DoneIf};

/// Returns bit `offset`, which must be in the bytes.
#[unsafe(no_mangle)]
pub extern "C" fn vb_get_bit(bytes: &[u8], offset: usize) -> bool
    requires { offset / 8 < length bytes.now }
    ensures { result ≡ bit_of bytes.now offset }
{
    vb_bits::get_bit(bytes, offset)
}

/// Returns whether bit `offset` is in the bytes. If so, writes the bit to `bit`; else leaves it
/// unchanged.
#[unsafe(no_mangle)]
pub extern "C" fn vb_try_get_bit(bytes: &[u8], offset: usize, bit: &mut bool) -> bool
    ensures { DoneIf (offset < 8 * length bytes.now) (bit.new ≡ bit_of bytes.now offset)
        (bit.new ≡ bit.old) result }
{
    if offset / 8 >= bytes.len() {
        return false;
    }
    *bit = vb_get_bit(bytes, offset);
    true
}
