//! Worked rows: what is taken.
use crate::compared::answers;
use crate::made::{bits, taken};
use std::alloc::Allocator;
use vb_set::{BitBuffer, BitBufferView, BufferError, Result};

/// Indices of a type.
enum Indices {
    U8(&'static [u8]),
    I16(&'static [i16]),
    U32(&'static [u32]),
    I64(&'static [i64]),
    U128(&'static [u128]),
}

impl Indices {
    fn take<A: Allocator + Clone>(
        &self,
        alloc: A,
        bits: BitBufferView<'_>,
        validity: Option<BitBufferView<'_>>,
    ) -> Result<BitBuffer<A>> {
        match self {
            Indices::U8(indices) => taken(alloc, bits, indices, validity),
            Indices::I16(indices) => taken(alloc, bits, indices, validity),
            Indices::U32(indices) => taken(alloc, bits, indices, validity),
            Indices::I64(indices) => taken(alloc, bits, indices, validity),
            Indices::U128(indices) => taken(alloc, bits, indices, validity),
        }
    }
}

const AT_0: Result<&str> = Err(BufferError::TakeOutOfRange { position: 0 });

const AT_2: Result<&str> = Err(BufferError::TakeOutOfRange { position: 2 });

/// The bits that are taken from, the indices, and the result.
const TAKEN: &[(&str, Indices, Result<&str>)] = &[
    ("1111", Indices::U8(&[9]), AT_0),
    ("0101", Indices::I64(&[3, 0, -1]), AT_2),
    ("", Indices::U8(&[0]), AT_0),
    ("", Indices::U8(&[]), Ok("")),
];

/// The same with a validity.
const TAKEN_VALID: &[(&str, Indices, &str, &str)] = &[
    ("1", Indices::I16(&[0, -1]), "10", "10"),
    ("0101", Indices::I64(&[3, 0, -1]), "110", "100"),
    ("", Indices::U32(&[7]), "0", "0"),
];

#[test]
fn bits_are_taken_or_refused(rt: HostRuntime) {
    for (from, indices, wanted) in TAKEN {
        let set = bits(&rt, rt.alloc(), from);
        answers(&rt, indices.take(rt.alloc(), set.as_view(), None), *wanted);
        drop(set);
    }
}

#[test]
fn null_positions_become_false(rt: HostRuntime) {
    for (from, indices, validity, wanted) in TAKEN_VALID {
        let set = bits(&rt, rt.alloc(), from);
        let validity = bits(&rt, rt.alloc(), validity);
        let made = indices.take(rt.alloc(), set.as_view(), Some(validity.as_view()));
        answers(&rt, made, Ok(*wanted));
        drop((set, validity));
    }
}

/// Indices out of range for 40,000 true bits.
const PAST: &[Indices] = &[
    Indices::I16(&[-1]),
    Indices::I64(&[i64::MIN]),
    Indices::U32(&[40000]),
    Indices::U128(&[18446744073709551616]),
];

#[test]
fn true_bits_are_no_leave_to_pass_bounds(rt: HostRuntime) {
    let set = BitBuffer::new_set(rt.alloc(), 40_000).expect(&rt, "a set");
    for indices in PAST {
        answers(&rt, indices.take(rt.alloc(), set.as_view(), None), AT_0);
    }
    drop(set);
}

#[test]
#[tactic(auto, using(vb_pack::proofs::AnswersLemmas::CanAsk_always))]
fn one_false_bit_among_ten_thousand(rt: HostRuntime) {
    let made = BitBuffer::collect_bool(rt.alloc(), 10_000, &mut |i| i != 37);
    let set = made.expect(&rt, "a set");
    let made = Indices::U32(&[36, 37, 38]).take(rt.alloc(), set.as_view(), None);
    answers(&rt, made, Ok("101"));
    drop(set);
}
