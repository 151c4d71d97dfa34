//! Debug text of sets.
ghost use Rattle.std.specs.Prelude.{◌+◌, ◌*◌, ◌^◌, ◌<◌, ◌≤◌, length};
ghost use Rattle.vb_bits.specs.InBytes.{InBytes};

use std::fmt;
use vb_bits::get_bit;

/// The number of bits in the text.
const SHOWN: usize = 64;

/// Writes a type's name and the first 64 bits of a window as digits, for example
/// `BitBuffer(01101)`. Writes `..` after the digits if there are more bits.
pub fn write_bits<W: fmt::Write>(
    f: &mut fmt::Formatter<W>,
    name: &str,
    bytes: &[u8],
    offset: usize,
    len: usize,
) -> fmt::Result
    requires window { InBytes bytes.now offset len }
{
    write!(f, "{name}(")?;
    for i in 0..len.min(SHOWN) {
        let digit = if get_bit(bytes, offset + i) { "1" } else { "0" };
        write!(f, "{digit}")?;
    }
    let end = if len > SHOWN { "..)" } else { ")" };
    write!(f, "{end}")
}
