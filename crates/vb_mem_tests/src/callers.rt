//! Calls as a new user writes them, proved with no hint.
ghost use Rattle.std.specs.Prelude.{◌≡◌, IfOk, length};

use crate::compared::equal;
use std::alloc::Allocator;
use std::fmt::Debug;
use std::process::Abort;
use vb_core::{Alignment, Result};
use vb_mem::{Buffer, BufferMut, ByteBuffer};

#[test]
fn a_literal_power_of_two_is_an_alignment(rt: HostRuntime) {
    equal(&rt, Alignment::new(64).exponent(), 6);
    equal(&rt, Alignment::new(1).exponent(), 0);
    equal(&rt, Alignment::new(1 << 63), Alignment::MAX);
}

#[test]
fn numbers_of_a_range_are_as_many_as_it_has(rt: HostRuntime) {
    let hundred = Buffer::from_trusted_len_iter(rt.alloc(), 0..100u32).expect(&rt, "numbers");
    let part = hundred.slice(64..96).expect(&rt, "a part");
    equal(&rt, part.len(), 32);
    equal(&rt, part.as_slice().first().copied(), Some(64));
    drop((hundred, part));
}

/// The first two items, or None if there are fewer.
fn first_two<A: Allocator + Clone>(values: &Buffer<u32, A>) -> Result<Option<Buffer<u32, A>>> {
    if values.len() >= 2 {
        return Ok(Some(values.slice(0..2)?));
    }
    Ok(None)
}

#[test]
fn a_front_is_sliced_after_a_look_at_the_length(rt: HostRuntime) {
    let values = Buffer::copy_from(rt.alloc(), &[1u32, 2, 3]).expect(&rt, "values");
    let front = first_two(&values)
        .expect(&rt, "memory")
        .expect(&rt, "two items");
    equal(&rt, front.len(), 2);
    let mut part = values.slice(1..3).expect(&rt, "a part");
    if part.len() >= 1 {
        part.narrow(0..1);
    }
    equal(&rt, part.as_slice().first().copied(), Some(2));
    drop((values, front, part));
}

/// A value is printed so.
fn prints<A: Allocator>(rt: &impl Abort, alloc: A, value: &impl Debug, wanted: &str) {
    let text = format!(in alloc; "{:?}", value).expect(rt, "a text");
    equal(rt, text.as_str(), wanted);
    drop(text);
}

#[test]
fn a_buffer_is_printed_as_its_items(rt: HostRuntime) {
    let bytes: ByteBuffer<_> = Buffer::copy_from(rt.alloc(), &[1u8, 2, 3]).expect(&rt, "bytes");
    prints(&rt, rt.alloc(), &bytes, "[1, 2, 3]");
    let items = bytes.into_iter();
    let wanted = "OwnedItems { owner: [1, 2, 3], start: 0, end: 3 }";
    prints(&rt, rt.alloc(), &items, wanted);
    drop(items);
}

#[test]
fn a_copy_is_equal_in_other_storage(rt: HostRuntime) {
    let bytes: ByteBuffer<_> = Buffer::copy_from(rt.alloc(), &[1u8, 2, 3]).expect(&rt, "bytes");
    let twin = bytes.clone().expect(&rt, "bytes");
    equal(&rt, bytes == twin, true);
    drop(twin);
    let growing = bytes.try_into_mut().ok().expect(&rt, "no other owner");
    let copy = BufferMut::copy_from(rt.alloc(), &[1u8, 2, 3]).expect(&rt, "bytes");
    equal(&rt, (growing.len(), growing == copy), (3, true));
    drop((growing, copy));
}
