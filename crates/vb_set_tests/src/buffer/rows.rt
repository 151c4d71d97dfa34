//! Worked rows: results of operators, copies, and the printed form.
use crate::buffer::calls::One;
use crate::buffer::compared::{equal, shows_list};
use crate::buffer::made::{part, window};
use std::alloc::{Allocator, Global};
use std::process::Abort;
use vb_bit_buffer::BitBuffer;
use vb_core::Result;
use vb_mem::ByteBuffer;

/// Both sets that were made have the same five true bits, and so has their `and`.
fn both_are_ones<A: Allocator + Clone>(
    rt: &impl Abort,
    left: Result<BitBuffer<A>>,
    right: Result<BitBuffer<A>>,
) {
    let (left, right) = (left.expect(rt, "a set"), right.expect(rt, "a set"));
    equal(rt, left == right, true);
    let both = (left & right).expect(rt, "a set");
    equal(rt, both.true_count(), 5);
    shows_list(rt, Ok(both), &[true; 5]);
}

#[test]
fn bits_at_unequal_offsets_are_combined(rt: HostRuntime) {
    let left = window(ByteBuffer::full(rt.alloc(), 0xF8, 1), 3, 5);
    let right = window(ByteBuffer::full(rt.alloc(), 0x1F, 1), 0, 5);
    both_are_ones(&rt, left, right);
}

/// The bits from bit 8 on of a set of true bits, negated, are `len` false bits.
fn none_is_left<A: Allocator + Clone>(rt: &impl Abort, made: Result<BitBuffer<A>>, len: usize) {
    let all = made.expect(rt, "a set");
    let negated = One::Not.make(part(&all, 8, 137)).expect(rt, "a set");
    equal(rt, (negated.len(), negated.true_count()), (len, 0));
    drop((all, negated));
}

#[test]
fn no_bit_is_left_of_all_true_ones(rt: HostRuntime) {
    none_is_left(&rt, BitBuffer::new_set(rt.alloc(), 137), 129);
}

/// The offset of a set, and how many bytes it has.
fn place<A: Allocator + Clone>(set: &BitBuffer<A>) -> (usize, usize) {
    (set.offset(), set.inner().len())
}

fn bytes_are_left_out<A: Allocator + Clone>(rt: &impl Abort, made: Result<BitBuffer<A>>) {
    let set = made.expect(rt, "a set");
    equal(rt, place(&set), (3, 8));
    let front = set.sliced().expect(rt, "a set");
    equal(rt, place(&front), (0, 2));
    let kept = set.shrink_offset();
    equal(rt, place(&kept), (3, 2));
    equal(rt, kept == front, true);
    drop((front, kept));
}

#[test]
fn bytes_past_the_window_are_left_out(rt: HostRuntime) {
    let made = window(ByteBuffer::full(rt.alloc(), 0xFF, 9), 11, 13);
    bytes_are_left_out(&rt, made);
}

/// The set that was made is printed so.
fn prints(rt: &impl Abort, alloc: Global, made: Result<BitBuffer>, wanted: &str) {
    let set = made.expect(rt, "a set");
    let text = format!(in alloc; "{set}").expect(rt, "memory");
    drop(set);
    equal(rt, text.as_str(), wanted);
    drop(text);
}

/// The value of all bytes and their number, the window's offset and length, and its text.
const PRINTED: &[(u8, usize, usize, usize, &str)] = &[
    (0x00, 0, 0, 0, "BitBuffer { len: 0, buffer: [] }"),
    (0x40, 1, 6, 2, "BitBuffer { len: 2, buffer: [true, false] }"),
    (
        0x0F,
        9,
        2,
        70,
        "BitBuffer { len: 70, buffer: [true, true, false, false, false, false, true, true, true, \
         true, false, false, false, false, true, true] }",
    ),
];

#[test]
fn at_most_sixteen_bits_are_printed(rt: HostRuntime) {
    for (byte, count, offset, len, wanted) in PRINTED {
        let set = window(ByteBuffer::full(rt.alloc(), *byte, *count), *offset, *len);
        prints(&rt, rt.alloc(), set, wanted);
    }
}
