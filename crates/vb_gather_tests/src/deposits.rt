//! Sets of bits that are deposited where a mask is true.
use crate::bits::{bits, kept_bits};
use crate::compared::equal;
use crate::masks::{ROWS, Row, mask};
use std::alloc::{Allocator, Global};
use std::process::Abort;
use vb_bit_buffer::BitBuffer;
use vb_core::{BufferError, Result};
use vb_gather::Deposit;
use vb_testing::{Handle, Refusing};

/// Which of the two calls deposits the bits.
#[derive(Clone, Copy)]
enum Call {
    Deposited,
    IntersectByRank,
}

impl Call {
    fn of<A: Allocator + Clone>(
        self,
        values: &BitBuffer<A>,
        mask: &BitBuffer<A>,
    ) -> Result<BitBuffer<A>> {
        match self {
            Call::Deposited => values.deposited(mask.as_view()),
            Call::IntersectByRank => mask.intersect_by_rank(values.as_view()),
        }
    }
}

/// Filters the bits of a row by its mask, and deposits the result by that mask.
fn put_back<A: Allocator + Clone>(alloc: A, row: &Row, call: Call) -> Result<BitBuffer<A>> {
    let values = kept_bits(alloc.clone()?, row)?;
    let mask = match mask(alloc, row) {
        Ok(mask) => mask,
        Err(error) => {
            drop(values);
            return Err(error);
        }
    };
    let made = call.of(&values, &mask);
    drop((values, mask));
    made
}

/// Whether these are the bits of a row where its mask is true, and false elsewhere.
fn are_plain<A: Allocator + Clone>(made: Result<BitBuffer<A>>, row: &Row) -> Result<bool> {
    let given = made?;
    let bits = bits(row);
    let places = 0..row.0;
    let answer = given
        .iter()
        .eq(places.map(|place| row.has(place) && bits.has(place)));
    drop(given);
    Ok(answer)
}

#[test]
fn bits_go_back_to_their_places_or_are_refused(rt: HostRuntime) {
    let heap = Refusing::new(rt.alloc(), 0);
    let refused = Err(BufferError::OutOfMemory);
    for row in ROWS {
        for _ in heap.in_turn() {
            let made = put_back(Handle { inner: &heap }, row, Call::Deposited);
            equal(&rt, are_plain(made, row), heap.wanted(Ok(true), refused));
        }
        let requests = row.requests([23, 26, 27, 32, 38]);
        equal(&rt, heap.has_ended(requests), true);
    }
}

#[test]
fn a_mask_of_kept_rows_becomes_one_of_all_or_is_refused(rt: HostRuntime) {
    let heap = Refusing::new(rt.alloc(), 0);
    let refused = Err(BufferError::OutOfMemory);
    for row in ROWS {
        for _ in heap.in_turn() {
            let made = put_back(Handle { inner: &heap }, row, Call::IntersectByRank);
            equal(&rt, are_plain(made, row), heap.wanted(Ok(true), refused));
        }
        let requests = row.requests([23, 26, 27, 32, 38]);
        equal(&rt, heap.has_ended(requests), true);
    }
}

/// A mask with four true bits.
const PLACES: [bool; 6] = [true, false, true, true, false, true];

/// Five bits for a mask of four true bits are an error, and nothing is allocated. Four bits make a
/// set by one request for its bytes and one for its owners.
fn ask_four_of_six(rt: &impl Abort, heap: &Refusing<Global>, call: Call, refused: BufferError) {
    let mask = BitBuffer::from_bools(heap, &PLACES).expect(rt, "memory");
    let five = BitBuffer::new_set(heap, 5).expect(rt, "memory");
    let four = BitBuffer::new_set(heap, 4).expect(rt, "memory");
    heap.refuse(0);
    let answer = call.of(&five, &mask).err();
    equal(rt, (answer, heap.asked()), (Some(refused), 0));
    let made = call.of(&four, &mask).expect(rt, "memory");
    equal(rt, heap.asked(), 2);
    equal(
        rt,
        (made.true_count(), made.len(), made.offset()),
        (4, 6, 0),
    );
    drop((mask, five, four, made));
}

#[test]
fn more_bits_than_places_are_refused_before_memory(rt: HostRuntime) {
    let heap = Refusing::new(rt.alloc(), 0);
    let five_of_four = BufferError::LengthMismatch { left: 5, right: 4 };
    let four_of_five = BufferError::LengthMismatch { left: 4, right: 5 };
    ask_four_of_six(&rt, &heap, Call::Deposited, five_of_four);
    ask_four_of_six(&rt, &heap, Call::IntersectByRank, four_of_five);
}
