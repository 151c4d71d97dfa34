//! Growth at the end, and what is kept.
use crate::compared::{counts, equal, shows};
use std::alloc::Allocator;
use std::process::Abort;
use vb_core::{Alignment, BufferError, ExtendError, Result, trusted_len};
use vb_mem::BufferMut;
use vb_testing::Refusing;

fn push_many<A: Allocator>(rt: &impl Abort, mut buffer: BufferMut<usize, A>) {
    for item in 0..10_000 {
        buffer.push(item).expect(rt, "room");
    }
    equal(rt, buffer.alignment().as_usize(), 4096);
    counts(rt, buffer.as_slice(), 10_000);
    drop(buffer);
}

#[test]
fn many_pushes_keep_list_and_alignment(rt: HostRuntime) {
    let wide = Alignment::from_exponent(12);
    push_many(&rt, BufferMut::empty_aligned(rt.alloc(), wide));
}

fn add_items<A: Allocator>(rt: &impl Abort, mut buffer: BufferMut<u32, A>) {
    buffer.push_n(0, 100).expect(rt, "room");
    equal(rt, buffer.as_slice(), &[0; 100]);
    buffer.truncate(1);
    buffer.push(1).expect(rt, "room");
    buffer.extend_from_slice(&[2, 3]).expect(rt, "room");
    buffer.extend(4..6u32).expect(rt, "room");
    buffer.extend_trusted(6..8u32).expect(rt, "room");
    equal(rt, buffer.as_slice(), &[0, 1, 2, 3, 4, 5, 6, 7]);
    drop(buffer);
}

#[test]
fn items_are_added_at_the_end(rt: HostRuntime) {
    add_items(&rt, BufferMut::empty(rt.alloc()));
}

fn fill_room<A: Allocator>(rt: &impl Abort, made: Result<BufferMut<u32, A>>) {
    let mut buffer = made.expect(rt, "room");
    buffer.reserve(3).expect(rt, "room");
    buffer.push_unchecked(2);
    buffer.push_n_unchecked(3, 2);
    buffer.truncate(9);
    // A capacity beyond the address space.
    let refused = Err(BufferError::OutOfMemory);
    equal(rt, buffer.reserve(usize::MAX), refused);
    equal(rt, buffer.push_n(0, usize::MAX / 4), refused);
    equal(rt, buffer.as_slice(), &[1, 2, 3, 3]);
    buffer.clear();
    let room = (buffer.is_empty(), buffer.capacity() >= 4);
    equal(rt, room, (true, true));
    drop(buffer);
}

#[test]
fn room_is_filled_or_refused(rt: HostRuntime) {
    fill_room(&rt, BufferMut::copy_from(rt.alloc(), &[1]));
}

/// Cuts a buffer, fills it within its capacity, and pops its items.
fn resize_and_pop<A: Allocator>(rt: &impl Abort, made: Result<BufferMut<u32, A>>) {
    let mut buffer = made.expect(rt, "room");
    let room = buffer.capacity();
    buffer.resize(1, 7).expect(rt, "room");
    equal(rt, buffer.as_slice(), &[1]);
    buffer.resize(3, 7).expect(rt, "room");
    let refused = Err(BufferError::OutOfMemory);
    equal(rt, buffer.resize(usize::MAX / 4, 0), refused);
    equal(rt, buffer.as_slice(), &[1, 7, 7]);
    equal(rt, (buffer.pop(), buffer.pop()), (Some(7), Some(7)));
    equal(rt, (buffer.pop(), buffer.pop()), (Some(1), None));
    equal(rt, (buffer.len(), buffer.capacity()), (0, room));
    drop(buffer);
}

#[test]
fn a_buffer_is_cut_filled_and_emptied(rt: HostRuntime) {
    resize_and_pop(&rt, BufferMut::copy_from(rt.alloc(), &[1, 2, 3]));
}

/// Two values, with an error between them.
const VALUES: &[Result<u32, &str>] = &[Ok(20), Err("bad"), Ok(30)];

fn extend_to_an_error<A: Allocator>(rt: &impl Abort, made: Result<BufferMut<u32, A>>) {
    let mut buffer = made.expect(rt, "room");
    let stopped = buffer.try_extend_trusted(trusted_len(VALUES.iter().copied(), 3));
    equal(rt, stopped == Err(ExtendError::Item("bad")), true);
    equal(rt, buffer.as_slice(), &[0, 10, 20]);
    drop(buffer);
}

#[test]
fn values_before_an_error_stay(rt: HostRuntime) {
    extend_to_an_error(&rt, BufferMut::copy_from(rt.alloc(), &[0, 10]));
}

/// What was made has the numbers below `n` in order.
fn has_counted<A: Allocator>(rt: &impl Abort, made: Result<BufferMut<usize, A>>, n: usize) {
    let buffer = made.expect(rt, "room");
    counts(rt, buffer.as_slice(), n);
    drop(buffer);
}

/// Whether a number is below `N`: so `take_while` ends `0..` after `N` numbers.
fn is_below<const N: usize>(number: &usize) -> bool {
    *number < N
}

#[test]
fn no_size_hint_is_relied_on(rt: HostRuntime) {
    let bounded = (0..usize::MAX).take_while(is_below::<3>);
    equal(&rt, bounded.size_hint(), (0, Some(usize::MAX)));
    has_counted(&rt, BufferMut::from_iter(rt.alloc(), bounded), 3);
    let unbounded = (0..).take_while(is_below::<1000>);
    equal(&rt, unbounded.size_hint(), (0, None));
    has_counted(&rt, BufferMut::from_iter(rt.alloc(), unbounded), 1000);
}

fn take_and_freeze<A: Allocator + Clone>(rt: &impl Abort, made: Result<BufferMut<u32, A>>) {
    let mut buffer = made.expect(rt, "room");
    let taken = buffer.take().expect(rt, "a buffer");
    let answer = shows(rt, taken.freeze(), &[1, 2], (512, 512));
    equal(rt, answer, Ok(()));
    let answer = shows(rt, buffer.freeze(), &[], (512, 512));
    equal(rt, answer, Ok(()));
}

#[test]
fn what_is_taken_leaves_an_empty_buffer(rt: HostRuntime) {
    let wide = Alignment::from_exponent(9);
    take_and_freeze(&rt, BufferMut::copy_from_aligned(rt.alloc(), &[1, 2], wide));
}

#[test]
fn a_refused_hint_is_no_refusal(rt: HostRuntime) {
    let heap = Refusing::new(rt.alloc(), 1);
    let made = BufferMut::from_iter(&heap, 0..100usize);
    equal(&rt, heap.has_refused(), true);
    has_counted(&rt, made, 100);
}
