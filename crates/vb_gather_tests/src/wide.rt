//! An element of 128 KiB. 64 of them fill a usual stack of 8 MiB.
ghost use Rattle.std.specs.Prelude.{◌≡◌, IsTrue};
ghost use Rattle.vb_core.specs.Elements.{AreBytes};
ghost use Rattle.vb_gather_tests.specs.WideLaws.{IsWide, wide_bytes, wide_of, wide_laws, wide_zero};

use vb_core::Element;

/// An element of 128 KiB.
#[derive(Clone, Copy)]
pub struct Wide {
    /// Its bytes.
    pub bytes: [u8; 131_072],
}

impl Wide {
    /// All bytes are `byte`.
    pub fn of(byte: u8) -> Wide {
        Wide {
            bytes: [byte; 131_072],
        }
    }

    /// Its first and its last byte.
    pub fn ends(&self) -> (u8, u8) {
        (self.bytes[0], self.bytes[131_071])
    }
}

impl Element for Wide {
    const SIZE: usize = 131_072;

    const ALIGN: usize = 1;

    ghost SIZE = { 131072 };

    ghost ALIGN = { 1 };

    ghost align_exponent = { 0 };

    ghost is_in_type = { IsWide };

    ghost form = { wide_bytes };

    ghost value_of = { wide_of };

    ghost zero = { wide_zero };

    ghost lawful = { wide_laws };

    fn zero() -> Wide {
        Wide::get(&[0; 131_072])
    }

    fn put(self, out: &mut [u8]) {
        out.copy_from_slice(&self.bytes);
    }

    fn get(bytes: &[u8]) -> Wide {
        let mut form = [0; 131_072];
        form.copy_from_slice(bytes);
        Wide { bytes: form }
    }

    fn is_value(self) -> bool {
        are_bytes(&self.bytes)
    }
}

/// Always true. Proofs know that the bytes of a slice are below 256, but not those of an array.
fn are_bytes(bytes: &[u8]) -> bool
    ensures holds { IsTrue result }
    ensures all { AreBytes bytes.now }
{
    true
}
