//! Alignments in bytes.
ghost use Rattle.std.specs.Prelude.{◌≡◌, ◌^◌, ◌<◌, ◌≤◌, ◌%◌, ◌↔◌, IsTrue, Some};
ghost use Rattle.std.specs.Prelude.{IfOk, IfErr, IsErrOf, IsOkAnd};
ghost use Rattle.std.specs.Fmt.{decimal};
ghost use Rattle.vb_core.specs.Alignments.{IsPower};

use crate::Result;
use crate::element::Element;
use crate::error::BufferError;
use std::fmt;
use std::marker::Model;

/// A number of bytes that is a power of two, from 1 to `2^63`.
///
/// A buffer's alignment divides the byte offset of its first item from the start of the storage. It
/// says nothing about the address of that item.
///
/// Contracts represent an alignment by its exponent. Equality, order and hash use the exponent. No
/// method allocates.
#[derive(Clone, Copy, Debug, PartialEq, Eq, PartialOrd, Ord, Hash)]
pub struct Alignment {
    exponent: u8,
}

impl Model for Alignment {
    ghost use Rattle.std.specs.Prelude.{ℕ, ◌<◌};

    ghost Value = { ℕ };

    ghost view = { λ alignment. alignment.exponent };

    ghost invariant = { λ alignment. alignment.exponent < 64 };

    ghost inverse = { λ exponent. record { exponent = exponent } };
}

impl Alignment {
    /// 256 bytes. Constructors declare new storage with this alignment, unless the caller requests
    /// a greater one or passes `preferred`. It says nothing about addresses.
    pub const DEFAULT_ALIGNMENT: Alignment = Alignment { exponent: 8 };

    /// 256 bytes, the alignment of copies from a device to the host.
    pub const HOST_COPY: Alignment = Alignment { exponent: 8 };

    /// The greatest alignment that untrusted input may request: 65536 bytes, the largest common
    /// page size.
    pub const MAX_UNTRUSTED: Alignment = Alignment { exponent: 16 };

    /// The greatest alignment: `2^63` bytes.
    pub const MAX: Alignment = Alignment { exponent: 63 };

    /// Returns the alignment of `align` bytes. The caller must prove that `align` is a power of
    /// two; a literal needs no proof. [`Alignment::try_from_u32`] tests a number at run time.
    pub fn new(align: usize) -> Alignment
        requires { IsPower align }
        ensures { 2 ^ result ≡ align }
    {
        Alignment {
            exponent: align.ilog2() as u8,
        }
    }

    /// Returns the alignment of 1 byte. Every offset has it.
    pub fn none() -> Alignment
        ensures { result ≡ 0 }
    {
        Alignment { exponent: 0 }
    }

    /// Returns the alignment of elements of type `T`, which is `T::ALIGN` bytes.
    pub fn of<T: Element>() -> Alignment
        ensures exponent { result ≡ T.align_exponent }
        ensures bytes { 2 ^ result ≡ T.ALIGN }
    {
        Alignment::new(T::ALIGN)
    }

    /// Returns the alignment of `2^exponent` bytes. The caller must prove that `exponent` is below
    /// 64.
    pub fn from_exponent(exponent: u8) -> Alignment
        requires { exponent < 64 }
        ensures { result ≡ exponent }
    {
        Alignment { exponent }
    }

    /// Returns the alignment of `2^exponent` bytes, or the error `ExponentTooLarge` exactly if
    /// `exponent` is 64 or more.
    pub fn try_from_exponent(exponent: u8) -> Result<Self>
        ensures fits { exponent < 64 → result ≡ Ok exponent }
        ensures too_large { 64 ≤ exponent → IsErrOf result (BufferError.ExponentTooLarge exponent) }
        ensures ok { IfOk result (λ alignment. (exponent < 64) × (alignment ≡ exponent)) }
        ensures err { IfErr result (λ e. (64 ≤ exponent)
            × (e ≡ BufferError.ExponentTooLarge exponent)) }
    {
        if exponent >= 64 {
            return Err(BufferError::ExponentTooLarge { exponent });
        }
        Ok(Alignment::from_exponent(exponent))
    }

    /// Returns the alignment of `2^exponent` bytes for an exponent from untrusted input, which may
    /// request at most `MAX_UNTRUSTED`.
    ///
    /// Returns `ExponentTooLarge` exactly if `exponent` is 64 or more, and `Untrusted` exactly if
    /// it is 17 to 63.
    pub fn try_from_untrusted_exponent(exponent: u8) -> Result<Self>
        ensures fits { exponent ≤ 16 → result ≡ Ok exponent }
        ensures untrusted { 16 < exponent → exponent < 64 →
            IsErrOf result (BufferError.Untrusted exponent) }
        ensures too_large { 64 ≤ exponent → IsErrOf result (BufferError.ExponentTooLarge exponent) }
        ensures ok { IfOk result (λ alignment. (exponent ≤ 16) × (alignment ≡ exponent)) }
        ensures err { IfErr result (λ e. (16 < exponent)
            × (exponent < 64 → e ≡ BufferError.Untrusted exponent)
            × (64 ≤ exponent → e ≡ BufferError.ExponentTooLarge exponent)) }
    {
        let alignment = Alignment::try_from_exponent(exponent)?;
        if alignment > Alignment::MAX_UNTRUSTED {
            return Err(BufferError::Untrusted { exponent });
        }
        Ok(alignment)
    }

    /// Returns the alignment of `align` bytes. Returns `AlignmentZero` exactly if `align` is 0, and
    /// `NotPowerOfTwo` exactly if it is any other number that isn't a power of two.
    pub fn try_from_u32(align: u32) -> Result<Self>
        ensures power { IsPower align → IsOkAnd result (λ alignment. 2 ^ alignment ≡ align) }
        ensures zero { align ≡ 0 → IsErrOf result BufferError.AlignmentZero }
        ensures no_power { 0 < align → ¬ IsPower align →
            IsErrOf result (BufferError.NotPowerOfTwo align) }
        ensures ok { IfOk result (λ alignment. 2 ^ alignment ≡ align) }
        ensures err { IfErr result (λ _. ¬ IsPower align) }
    {
        let value = align as usize;
        if value == 0 {
            return Err(BufferError::AlignmentZero);
        }
        if !value.is_power_of_two() {
            return Err(BufferError::NotPowerOfTwo { value });
        }
        Ok(Alignment::new(value))
    }

    /// Returns the alignment in bytes, or the error `PastU32` exactly if the exponent is 32 or
    /// more.
    pub fn to_u32(self) -> Result<u32>
        ensures fits { self < 32 → result ≡ Ok (2 ^ self) }
        ensures past { 32 ≤ self → IsErrOf result (BufferError.PastU32 self) }
        ensures ok { IfOk result (λ bytes. (self < 32) × (bytes ≡ 2 ^ self)) }
        ensures err { IfErr result (λ e. (32 ≤ self) × (e ≡ BufferError.PastU32 self)) }
    {
        if self.exponent >= 32 {
            return Err(BufferError::PastU32 {
                exponent: self.exponent,
            });
        }
        Ok(1 << self.exponent)
    }

    /// Returns the exponent, from 0 to 63. The alignment in bytes is 2 to this power.
    pub fn exponent(self) -> u8
        ensures value { result ≡ self }
        ensures in_range { result < 64 }
    {
        self.exponent
    }

    /// Returns the alignment in bytes.
    pub fn as_usize(self) -> usize
        ensures value { result ≡ 2 ^ self }
        ensures in_range { self < 64 }
    {
        1 << self.exponent
    }

    /// Returns whether `other` divides this alignment, so that every offset with this alignment
    /// also has `other`.
    pub fn is_aligned_to(self, other: Alignment) -> bool
        ensures exponents { IsTrue result ↔ (other ≤ self) }
        ensures divides { IsTrue result ↔ (2 ^ self % 2 ^ other ≡ 0) }
    {
        other.exponent <= self.exponent
    }

    /// Returns whether the alignment divides `offset`, a number of bytes.
    pub fn is_offset_aligned(self, offset: usize) -> bool
        ensures divides { IsTrue result ↔ (offset % 2 ^ self ≡ 0) }
        ensures in_range { self < 64 }
    {
        offset % self.as_usize() == 0
    }
}

impl From<Alignment> for usize {
    ghost from_gives = { λ alignment bytes. bytes ≡ 2 ^ alignment };

    fn from(alignment: Alignment) -> usize {
        alignment.as_usize()
    }
}

/// Writes the alignment in bytes, in decimal.
impl fmt::Display for Alignment {
    ghost output = { λ alignment. Some (decimal (2 ^ alignment)) };

    fn fmt<W: fmt::Write>(&self, f: &mut fmt::Formatter<W>) -> fmt::Result {
        let bytes = self.as_usize();
        write!(f, "{bytes}")
    }
}
