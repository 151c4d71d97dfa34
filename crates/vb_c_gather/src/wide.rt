//! Values of 16 bytes.
ghost use Rattle.vb_c_gather.specs.WideLaws.{IsWide, wide_bytes, wide_of, wide_laws, wide_zero};

use vb_core::Element;

/// A value of 16 bytes, as C passes it.
#[repr(C)]
#[derive(Clone, Copy)]
pub struct Wide {
    /// The first eight bytes, as a little-endian number.
    pub low: u64,
    /// The last eight bytes, as a little-endian number.
    pub high: u64,
}

impl Element for Wide {
    const SIZE: usize = 16;

    const ALIGN: usize = 8;

    ghost SIZE = { 16 };

    ghost ALIGN = { 8 };

    ghost align_exponent = { 3 };

    ghost is_in_type = { IsWide };

    ghost form = { wide_bytes };

    ghost value_of = { wide_of };

    ghost zero = { wide_zero };

    ghost lawful = { wide_laws };

    fn zero() -> Wide {
        Wide { low: 0, high: 0 }
    }

    fn put(self, out: &mut [u8]) {
        out[..8].copy_from_slice(&u64::to_le_bytes(self.low));
        out[8..].copy_from_slice(&u64::to_le_bytes(self.high));
    }

    fn get(bytes: &[u8]) -> Wide {
        Wide {
            low: u64::get(&bytes[..8]),
            high: u64::get(&bytes[8..]),
        }
    }

    fn is_value(self) -> bool {
        true
    }
}
