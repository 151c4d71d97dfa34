//! Takes at blocks of 64 indices, compared with a plain loop. Clauses prove the results; these
//! tests cover the vector instructions that the compiler generates.
use crate::compared::{answers, equal, holds};
use crate::made::taken;
use std::alloc::{Allocator, Global};
use std::process::Abort;
use vb_bits::get_bit;
use vb_set::{BitBuffer, BitBufferMut, BitBufferView, BitIndex, BufferError};
use vb_take::take_into_at;

/// Bits without a pattern.
fn scattered<A: Allocator + Clone>(rt: &impl Abort, alloc: A, len: usize) -> BitBuffer<A> {
    let mut set = BitBufferMut::empty(alloc);
    let mut state = 1u32;
    for _ in 0..len {
        state = state.wrapping_mul(1_664_525).wrapping_add(1_013_904_223);
        set.append(state >> 31 == 1).expect(rt, "room");
    }
    set.freeze().expect(rt, "memory")
}

/// The bit at an index; false if there is no index.
fn bit_at(bits: BitBufferView<'_>, place: Option<usize>) -> bool {
    match place {
        Some(place) => place < bits.len() && bits.value(place),
        None => false,
    }
}

/// Whether the position counts.
fn counts(validity: Option<BitBufferView<'_>>, position: usize) -> bool {
    match validity {
        Some(validity) => bit_at(validity, Some(position)),
        None => true,
    }
}

/// Takes at the indices, and compares each result with the bit at its index, or with false at a
/// null position.
fn beside_a_loop<I: BitIndex>(
    rt: &impl Abort,
    alloc: Global,
    bits: BitBufferView<'_>,
    indices: &[I],
    validity: Option<BitBufferView<'_>>,
) {
    let made = taken(alloc, bits, indices, validity).expect(rt, "a set");
    equal(rt, made.len(), indices.len());
    for i in 0..made.len().min(indices.len()) {
        let wanted = counts(validity, i) && bit_at(bits, indices[i].place());
        equal(rt, made.value(i), wanted);
    }
    drop(made);
}

fn first<T>(items: &[T], count: usize) -> &[T] {
    &items[..count.min(items.len())]
}

/// Takes from 5000 bits at these indices, without a validity and with one.
fn in_blocks<I: BitIndex>(rt: &impl Abort, alloc: Global, indices: &[I]) {
    let set = scattered(rt, alloc, 5000);
    let validity = scattered(rt, alloc, indices.len());
    beside_a_loop(rt, alloc, set.as_view(), indices, None);
    beside_a_loop(rt, alloc, set.as_view(), indices, Some(validity.as_view()));
    drop((set, validity));
}

/// How many indices there are.
const COUNTS: [usize; 7] = [0, 1, 63, 64, 65, 130, 200];

#[test]
fn blocks_take_what_a_loop_takes(rt: HostRuntime) {
    let (mut narrow, mut signed) = ([0u32; 200], [0i64; 200]);
    for k in 0..200u32 {
        narrow[k as usize] = k * 997 % 5000;
        signed[k as usize] = i64::from(k * 131 % 5000);
    }
    for count in COUNTS {
        in_blocks(&rt, rt.alloc(), first(&narrow, count));
        in_blocks(&rt, rt.alloc(), first(&signed, count));
    }
}

/// Null positions whose indices are out of range.
#[test]
fn null_positions_are_not_looked_at(rt: HostRuntime) {
    let set = scattered(&rt, rt.alloc(), 300);
    let validity = scattered(&rt, rt.alloc(), 200);
    let mut indices = [-7i32; 200];
    for i in 0..200 {
        if bit_at(validity.as_view(), Some(i)) {
            indices[i] = 299;
        }
    }
    beside_a_loop(
        &rt,
        rt.alloc(),
        set.as_view(),
        &indices,
        Some(validity.as_view()),
    );
    drop((set, validity));
}

/// Two positions of 132 whose indices are bad, in a block or behind the last one.
const BAD: [(usize, usize); 5] = [(0, 1), (63, 64), (70, 75), (129, 130), (131, 131)];

#[test]
fn the_first_bad_position_is_named(rt: HostRuntime) {
    let set = scattered(&rt, rt.alloc(), 300);
    for (position, later) in BAD {
        let mut indices = [5u64; 132];
        holds(&rt, position < 132);
        holds(&rt, later < 132);
        indices[position] = 300;
        indices[later] = 300;
        let made = taken(rt.alloc(), set.as_view(), &indices, None);
        answers(&rt, made, Err(BufferError::TakeOutOfRange { position }));
    }
    drop(set);
}

/// Two words and the start of a third, from each of the first nine bits on; the other bits stay.
#[test]
fn takes_write_from_any_bit_on(rt: HostRuntime) {
    const OLD: [u8; 19] = [0xA5; 19];
    let set = scattered(&rt, rt.alloc(), 300);
    let mut indices = [0u16; 130];
    for k in 0..130u16 {
        indices[k as usize] = 2 * k;
    }
    for o in 0..9 {
        let mut out = OLD;
        let done = take_into_at(&mut out, o, set.as_view(), &indices, None);
        holds(&rt, done.is_ok());
        for i in 0..152 {
            let wanted = if i < o || o + 130 <= i {
                get_bit(&OLD, i)
            } else {
                bit_at(set.as_view(), Some(2 * (i - o)))
            };
            equal(&rt, get_bit(&out, i), wanted);
        }
    }
    drop(set);
}
