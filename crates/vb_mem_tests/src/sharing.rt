//! Owners of the same items: none sees what another one writes.
use crate::compared::{counts, equal};
use std::alloc::Allocator;
use std::process::Abort;
use vb_core::Result;
use vb_mem::{Buffer, BufferMut};

/// Writes 42 over the first item.
fn open_and_write<A: Allocator + Clone>(
    rt: &impl Abort,
    made: Result<Buffer<u32, A>>,
) -> BufferMut<u32, A> {
    let mut copy = made.expect(rt, "a clone").into_mut().expect(rt, "a copy");
    if let Some(first) = copy.as_mut_slice().first_mut() {
        *first = 42;
    }
    copy
}

fn clone_is_apart<A: Allocator + Clone>(rt: &impl Abort, made: Result<BufferMut<u32, A>>) {
    let original = made.expect(rt, "a buffer").freeze().expect(rt, "a buffer");
    let copy = open_and_write(rt, original.clone());
    equal(rt, original.as_slice(), &[1, 2, 3]);
    equal(rt, copy.as_slice(), &[42, 2, 3]);
    drop((original, copy));
}

#[test]
fn a_clone_made_mutable_leaves_the_original(rt: HostRuntime) {
    clone_is_apart(&rt, BufferMut::copy_from(rt.alloc(), &[1, 2, 3]));
}

/// Opens a slice of 32 of the numbers below a hundred, those from 64 on, and lets it grow.
fn opened_part_grows<A: Allocator + Clone>(rt: &impl Abort, alloc: A) {
    let whole = Buffer::from_trusted_len_iter(alloc, 0..100usize).expect(rt, "a buffer");
    part_grows(rt, whole.slice(64..96));
    counts(rt, whole.as_slice(), 100);
    drop(whole);
}

fn part_grows<A: Allocator + Clone>(rt: &impl Abort, made: Result<Buffer<usize, A>>) {
    let mut part = made.expect(rt, "a part").into_mut().expect(rt, "a copy");
    part.push(42).expect(rt, "room");
    let ends = (
        part.as_slice().first().copied(),
        part.as_slice().last().copied(),
    );
    equal(rt, (part.len(), ends), (33, (Some(64), Some(42))));
    drop(part);
}

#[test]
fn a_part_made_mutable_grows(rt: HostRuntime) {
    opened_part_grows(&rt, rt.alloc());
}

/// Writes sevens over the items.
pub fn fill_items<A: Allocator + Clone>(rt: &impl Abort, buffer: &mut Buffer<u32, A>) {
    let items = buffer.items_mut().expect(rt, "items");
    items.as_mut_slice().fill(7);
}

/// Adds 8.
fn push_item<A: Allocator + Clone>(rt: &impl Abort, buffer: &mut Buffer<u32, A>) {
    let items = buffer.items_mut().expect(rt, "items");
    items.push(8).expect(rt, "room");
}

fn written_for_one<A: Allocator + Clone>(rt: &impl Abort, made: Result<Buffer<u32, A>>) {
    let mut buffer = made.expect(rt, "a buffer");
    let twin = buffer.clone().expect(rt, "a clone");
    fill_items(rt, &mut buffer);
    equal(rt, buffer.as_slice(), &[7, 7, 7]);
    equal(rt, twin.as_slice(), &[1, 2, 3]);
    push_item(rt, &mut buffer);
    equal(rt, buffer.as_slice(), &[7, 7, 7, 8]);
    drop((buffer, twin));
}

#[test]
fn items_are_written_for_one_owner(rt: HostRuntime) {
    written_for_one(&rt, Buffer::copy_from(rt.alloc(), &[1, 2, 3]));
}

/// Tries to open a buffer. The result, open or the same buffer, has its items.
fn open_or_same<A: Allocator>(rt: &impl Abort, buffer: Buffer<u32, A>, items: &[u32]) {
    match buffer.try_into_mut() {
        Ok(open) => {
            equal(rt, open.as_slice(), items);
            drop(open);
        }
        Err(same) => {
            equal(rt, same.as_slice(), items);
            drop(same);
        }
    }
}

#[test]
fn a_buffer_is_opened_or_given_back(rt: HostRuntime) {
    let buffer = Buffer::copy_from(rt.alloc(), &[1u32, 2, 3]).expect(&rt, "a buffer");
    let part = buffer.slice_unaligned(1..3).expect(&rt, "a part");
    open_or_same(&rt, part, &[2, 3]);
    open_or_same(&rt, buffer, &[1, 2, 3]);
}

fn narrowed_and_cleared<A: Allocator + Clone>(rt: &impl Abort, made: Result<Buffer<u32, A>>) {
    let mut buffer = made.expect(rt, "a buffer");
    let twin = buffer.clone().expect(rt, "a clone");
    if buffer.can_slice(1..3, buffer.alignment()) {
        buffer.narrow(1..3);
    }
    equal(rt, buffer.as_slice(), &[2, 3]);
    buffer.clear();
    equal(rt, (buffer.len(), buffer.alignment().as_usize()), (0, 4));
    equal(rt, twin.as_slice(), &[1, 2, 3]);
    drop((buffer, twin));
}

#[test]
fn a_buffer_is_narrowed_and_cleared(rt: HostRuntime) {
    narrowed_and_cleared(&rt, Buffer::copy_from(rt.alloc(), &[1, 2, 3]));
}
