//! Elements of buffers: whole numbers and their bytes.
ghost use Rattle.std.specs.Prelude.{◌≡◌, ℕ, List, length, IsTrue};
ghost use Rattle.vb_core.specs.Elements.{IsElement};

mod signed;
mod unsigned;

/// An item of a buffer. `SIZE` bytes represent a value and determine it.
///
/// The twelve whole-number types are elements. Their bytes are in little-endian order, the least
/// significant one first, with two's complement for the signed types.
pub trait Element: Copy {
    /// The size of an element in bytes; not 0.
    const SIZE: usize;

    ghost SIZE: { ℕ };

    /// The alignment of an element in bytes: a power of two that divides `SIZE`.
    const ALIGN: usize;

    ghost ALIGN: { ℕ };

    // `ALIGN` is 2 to this power.
    ghost align_exponent: { ℕ };

    // Holds for the values of the type; for `u8`, these are 0 to 255.
    ghost is_in_type: { Self → Type 0 };

    // The bytes that represent a value.
    ghost form: { Self → List ℕ };

    // The value that bytes represent.
    ghost value_of: { List ℕ → Self };

    // The value that `zero` returns.
    ghost zero: { Self };

    /// Returns the value of fresh items, which is 0.
    fn zero() -> Self
        ensures value { result ≡ zero }
        ensures in_type { is_in_type result };

    /// Writes the bytes of the element over `out`. The caller must prove that `out` has `SIZE`
    /// bytes.
    fn put(self, out: &mut [u8])
        requires { length out.old ≡ SIZE }
        ensures { out.new ≡ form self };

    /// Returns the element that `bytes` represent. The caller must prove that there are `SIZE`
    /// bytes.
    fn get(bytes: &[u8]) -> Self
        requires { length bytes.now ≡ SIZE }
        ensures value { result ≡ value_of bytes.now }
        ensures in_type { is_in_type result };

    /// Returns true. Callers use this call to prove that a value is one of its type.
    fn is_value(self) -> bool
        ensures holds { IsTrue result }
        ensures in_type { is_in_type self };

    // Values and bytes determine each other.
    ghost lawful: { IsElement SIZE ALIGN align_exponent is_in_type form value_of };
}
