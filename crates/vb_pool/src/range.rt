//! Ranges of bits in commands.
ghost use Rattle.std.specs.Prelude.{◌≡◌, ◌&&◌, nat_le};

/// Returns whether `a..b` is a range of `len` bits.
pub(crate) fn is_range(a: usize, b: usize, len: usize) -> bool
    ensures { result ≡ (nat_le a b && nat_le b len) }
{
    a <= b && b <= len
}
