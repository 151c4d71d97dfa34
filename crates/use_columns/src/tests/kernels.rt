//! Known results, with ample memory and with each allocation failing in turn.
use crate::tests::equal;
use crate::{
    count_metered, count_words, greater, halved, rest_halved, select_narrow, through_bytes,
    values_of,
};
use std::alloc::{Allocator, Global};
use std::process::Abort;
use vb_testing::Refusing;
use vortex_buffer::{Buffer, BufferError, Result, trusted_len};

type Heap<'a> = &'a Refusing<Global>;

/// One chunk of 64 bytes and one byte after it.
#[test]
fn what_is_read_is_metered(rt: HostRuntime) {
    let ones = [0xFFu8; 65];
    equal(&rt, count_metered(&ones, 0, 513), (513, 65));
    equal(&rt, count_metered(&ones, 0, 520), (520, 65));
    equal(&rt, count_metered(&ones, 7, 1), (1, 1));
    equal(&rt, count_metered(&[0b0111_0110], 0, 7), (5, 1));
    equal(&rt, count_metered(&[], 0, 0), (0, 0));
}

/// A window of a word and bits within a byte after it, one of a whole word, one within a byte, and
/// one of no bits.
#[test]
fn words_are_counted_to_the_end_of_their_window(rt: HostRuntime) {
    let bytes = [0b0011_0101u8; 9];
    equal(&rt, count_words(&bytes, 3, 66), 33);
    equal(&rt, count_words(&bytes, 8, 64), 32);
    equal(&rt, count_words(&bytes, 1, 6), 3);
    equal(&rt, count_words(&[], 0, 0), 0);
}

#[test]
fn a_directory_of_narrow_counts_answers(rt: HostRuntime) {
    let ones = [0xFFu8; 128];
    equal(&rt, select_narrow(&ones, 1024, &[0, 512], 0), Some(0));
    equal(&rt, select_narrow(&ones, 1024, &[0, 512], 700), Some(700));
    equal(&rt, select_narrow(&ones, 1024, &[0, 512], 1024), None);
    equal(&rt, select_narrow(&[0b0001_0100], 8, &[0], 1), Some(4));
    equal(&rt, select_narrow(&[], 0, &[], 0), None);
}

/// A call that makes a column.
enum Call {
    Halved,
    RestHalved(usize),
    Greater,
    ThroughBytes,
    ValuesOf,
}

impl Call {
    fn make<'a>(&self, heap: Heap<'a>) -> Result<Buffer<u32, Heap<'a>>> {
        let values = [7, 0, u32::MAX];
        match self {
            Call::Halved => halved(heap, &values),
            Call::RestHalved(n) => rest_halved(heap, &values, *n),
            Call::Greater => greater(heap, &values, &[8, 0, 1]),
            Call::ThroughBytes => through_bytes(heap, &values),
            Call::ValuesOf => values_of(Buffer::copy_from(heap, &[1, 2, 0, 0, 255, 0, 0, 1])?),
        }
    }
}

/// The calls, their columns, and the number of allocations of each.
const ROWS: &[(Call, &[u32], u64)] = &[
    (Call::Halved, &[3, 0, 2_147_483_647], 2),
    (Call::RestHalved(0), &[3, 0, 2_147_483_647], 2),
    (Call::RestHalved(2), &[2_147_483_647], 2),
    (Call::Greater, &[8, 0, u32::MAX], 2),
    (Call::ThroughBytes, &[7, 0, u32::MAX], 6),
    (Call::ValuesOf, &[513, 16_777_471], 4),
];

/// Asserts that the column has these values.
fn shows<A: Allocator>(
    rt: &impl Abort,
    made: Result<Buffer<u32, A>>,
    wanted: &[u32],
) -> Result<()> {
    let column = made?;
    assert_eq!(rt; column.as_slice(), wanted);
    drop(column);
    Ok(())
}

#[test]
fn columns_are_made_or_refused(rt: HostRuntime) {
    let heap = Refusing::new(rt.alloc(), 0);
    for (call, wanted, requests) in ROWS {
        for _ in heap.in_turn() {
            let answer = shows(&rt, call.make(&heap), wanted);
            let refused = Err(BufferError::OutOfMemory);
            equal(&rt, answer, heap.wanted(Ok(()), refused));
        }
        equal(&rt, (heap.has_refused(), heap.asked()), (false, *requests));
    }
    let none = rest_halved(rt.alloc(), &[7, 0, 1], 4);
    equal(&rt, shows(&rt, none, &[]), Ok(()));
}

/// The proof cites the lemma that a range knows how many numbers it has.
#[test]
#[tactic(auto, using(vortex_buffer::proofs::Hints::unsigned_range_counts))]
fn numbers_of_a_range_are_mapped(rt: HostRuntime) {
    let halves = trusted_len((0..5u32).map(|number| number / 2), 5);
    let column = Buffer::from_trusted_len_iter(rt.alloc(), halves);
    equal(&rt, shows(&rt, column, &[0, 0, 1, 1, 2]), Ok(()));
}
