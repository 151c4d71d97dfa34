//! Errors of calls on buffers and sets of bits.
ghost use Rattle.std.specs.Prelude.{◌≡◌};

use std::alloc::{AllocError, AllocFailed};
use thiserror::Error;

/// The reason why a call failed. Each call's contract states which of these errors it returns and,
/// except for `OutOfMemory`, when.
#[derive(Clone, Copy, Debug, PartialEq, Eq, Hash, Error)]
pub enum BufferError {
    /// An allocation or a clone of an allocator failed, the requested capacity is more than
    /// `isize::MAX` bytes, a length exceeds `usize::MAX`, or a storage already has the maximum
    /// number of owners.
    #[error("out of memory")]
    OutOfMemory,
    /// The number of bytes passed as an alignment is 0.
    #[error("alignment is zero")]
    AlignmentZero,
    /// The number of bytes passed as an alignment isn't a power of two.
    #[error("alignment {value} is no power of two")]
    NotPowerOfTwo {
        /// The number.
        value: usize,
    },
    /// The exponent of an alignment is 64 or more, so the alignment doesn't fit in a `usize`.
    #[error("alignment exponent {exponent} is too large")]
    ExponentTooLarge {
        /// The exponent.
        exponent: u8,
    },
    /// The exponent of an alignment is 17 to 63 and comes from untrusted input.
    #[error("untrusted alignment exponent {exponent} is above 16")]
    Untrusted {
        /// The exponent.
        exponent: u8,
    },
    /// The exponent of the alignment is 32 or more, so the alignment doesn't fit in a `u32`.
    #[error("alignment exponent {exponent} does not fit 32 bits")]
    PastU32 {
        /// The exponent.
        exponent: u8,
    },
    /// The buffer doesn't have the requested alignment.
    #[error("buffer has not the requested alignment")]
    NotAligned,
    /// The number of bytes to read as items isn't a multiple of the item size.
    #[error("byte length {len} is no multiple of {size}")]
    ByteLength {
        /// The number of bytes.
        len: usize,
        /// The number of bytes per item.
        size: usize,
    },
    /// An index isn't below the length. If several aren't, the error reports the first one.
    #[error("index {index} is not below {len}")]
    IndexOutOfRange {
        /// The index.
        index: usize,
        /// The length.
        len: usize,
    },
    /// An index at which to take bits or values is out of range. If several are, the error reports
    /// the first one.
    #[error("index at position {position} is out of range")]
    TakeOutOfRange {
        /// The position of the index among the indices.
        position: usize,
    },
    /// Two operands differ in length.
    #[error("lengths {left} and {right} differ")]
    LengthMismatch {
        /// The length of the left operand.
        left: usize,
        /// The length of the right operand.
        right: usize,
    },
    /// The bytes aren't UTF-8.
    #[error("invalid UTF-8 after {valid_up_to} bytes")]
    NotUtf8 {
        /// The length in bytes of the longest UTF-8 prefix.
        valid_up_to: usize,
    },
    /// The bit offset plus the length in bits exceeds `usize::MAX`.
    #[error("too many bits")]
    TooManyBits,
    /// The number of items times the item size in bytes exceeds `usize::MAX`.
    #[error("too many bytes")]
    TooManyBytes,
}

impl From<AllocError> for BufferError {
    ghost use Rattle.vb_core.specs.declared.error.BufferError.TheVariants.{OutOfMemory};

    ghost from_gives = { λ _ e. e ≡ OutOfMemory };

    fn from(_error: AllocError) -> BufferError {
        BufferError::OutOfMemory
    }
}

/// Drops the value that could not be stored.
impl<T: Drop> From<AllocFailed<T>> for BufferError {
    ghost use Rattle.vb_core.specs.declared.error.BufferError.TheVariants.{OutOfMemory};

    ghost from_gives = { λ _ e. e ≡ OutOfMemory };

    fn from(failed: AllocFailed<T>) -> BufferError {
        BufferError::from(AllocError::from(failed))
    }
}

/// The reason why a call that takes items from an iterator of `Result`s stopped.
#[derive(Debug, PartialEq, Eq, Drop)]
pub enum ExtendError<E> {
    /// The allocation for the items failed.
    Memory,
    /// The iterator returned this error as an item.
    Item(E),
}
