//! Alignments: worked values, and the numbers that are refused.
use crate::compared::{equal, shows};
use vb_core::{Alignment, BufferError, Result};

#[test]
fn an_alignment_is_its_exponent(rt: HostRuntime) {
    equal(&rt, Alignment::new(1024).exponent(), 10);
    equal(&rt, Alignment::none().as_usize(), 1);
    equal(&rt, Alignment::from_exponent(63), Alignment::MAX);
    equal(&rt, Alignment::MAX.as_usize(), 9223372036854775808);
    equal(&rt, usize::from(Alignment::DEFAULT_ALIGNMENT), 256);
    equal(&rt, usize::from(Alignment::HOST_COPY), 256);
    equal(&rt, usize::from(Alignment::MAX_UNTRUSTED), 65536);
    equal(&rt, Alignment::none() < Alignment::of::<u16>(), true);
    equal(&rt, Alignment::of::<u128>().as_usize(), 16);
}

/// Exponents, each with the results of two calls, the second one for untrusted input.
const EXPONENTS: &[(u8, Result<u8>, Result<u8>)] = &[
    (16, Ok(16), Ok(16)),
    (17, Ok(17), Err(BufferError::Untrusted { exponent: 17 })),
    (63, Ok(63), Err(BufferError::Untrusted { exponent: 63 })),
    (64, TOO_LARGE, TOO_LARGE),
];

const TOO_LARGE: Result<u8> = Err(BufferError::ExponentTooLarge { exponent: 64 });

#[test]
fn exponents_are_accepted_or_refused(rt: HostRuntime) {
    for (exponent, any, untrusted) in EXPONENTS {
        let given = Alignment::try_from_exponent(*exponent);
        equal(&rt, given.map(Alignment::exponent), *any);
        let given = Alignment::try_from_untrusted_exponent(*exponent);
        equal(&rt, given.map(Alignment::exponent), *untrusted);
    }
}

#[test]
fn numbers_of_32_bits_go_both_ways(rt: HostRuntime) {
    let untrusted = Alignment::try_from_u32(65536);
    equal(&rt, untrusted, Ok(Alignment::MAX_UNTRUSTED));
    equal(
        &rt,
        Alignment::try_from_u32(0),
        Err(BufferError::AlignmentZero),
    );
    equal(
        &rt,
        Alignment::try_from_u32(96),
        Err(BufferError::NotPowerOfTwo { value: 96 }),
    );
    equal(&rt, Alignment::from_exponent(31).to_u32(), Ok(2147483648));
    equal(
        &rt,
        Alignment::from_exponent(32).to_u32(),
        Err(BufferError::PastU32 { exponent: 32 }),
    );
}

#[test]
fn alignments_divide(rt: HostRuntime) {
    let (eight, sixteen) = (Alignment::of::<u64>(), Alignment::of::<i128>());
    equal(&rt, sixteen.is_aligned_to(eight), true);
    equal(&rt, eight.is_aligned_to(sixteen), false);
    equal(&rt, sixteen.is_offset_aligned(48), true);
    equal(&rt, sixteen.is_offset_aligned(40), false);
    equal(&rt, Alignment::MAX.is_offset_aligned(0), true);
}

#[test]
fn an_alignment_is_shown_in_decimal(rt: HostRuntime) {
    shows(&rt, rt.alloc(), &Alignment::MAX_UNTRUSTED, "65536");
    shows(&rt, rt.alloc(), &Alignment::none(), "1");
}
