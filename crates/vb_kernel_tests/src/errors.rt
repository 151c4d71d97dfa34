//! What refusals say.
use crate::compared::{equal, shows};
use std::alloc::{AllocError, AllocFailed};
use vb_core::BufferError;

/// The fourteen refusals, each with its text.
const TEXTS: &[(BufferError, &str)] = &[
    (BufferError::OutOfMemory, "out of memory"),
    (BufferError::AlignmentZero, "alignment is zero"),
    (
        BufferError::NotPowerOfTwo { value: 12 },
        "alignment 12 is no power of two",
    ),
    (
        BufferError::ExponentTooLarge { exponent: 64 },
        "alignment exponent 64 is too large",
    ),
    (
        BufferError::Untrusted { exponent: 17 },
        "untrusted alignment exponent 17 is above 16",
    ),
    (
        BufferError::PastU32 { exponent: 32 },
        "alignment exponent 32 does not fit 32 bits",
    ),
    (
        BufferError::NotAligned,
        "buffer has not the requested alignment",
    ),
    (
        BufferError::ByteLength { len: 7, size: 4 },
        "byte length 7 is no multiple of 4",
    ),
    (
        BufferError::IndexOutOfRange { index: 5, len: 4 },
        "index 5 is not below 4",
    ),
    (
        BufferError::TakeOutOfRange { position: 3 },
        "index at position 3 is out of range",
    ),
    (
        BufferError::LengthMismatch { left: 5, right: 6 },
        "lengths 5 and 6 differ",
    ),
    (
        BufferError::NotUtf8 { valid_up_to: 1 },
        "invalid UTF-8 after 1 bytes",
    ),
    (BufferError::TooManyBits, "too many bits"),
    (BufferError::TooManyBytes, "too many bytes"),
];

#[test]
fn each_refusal_has_its_text(rt: HostRuntime) {
    for (error, text) in TEXTS {
        shows(&rt, rt.alloc(), error, text);
    }
}

#[test]
fn refused_memory_becomes_out_of_memory(rt: HostRuntime) {
    equal(&rt, BufferError::from(AllocError), BufferError::OutOfMemory);
    let failed = AllocFailed { value: 7u8 };
    equal(&rt, BufferError::from(failed), BufferError::OutOfMemory);
}
