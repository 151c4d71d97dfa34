//! What `items_mut` and `into_mut` leave of the declared alignment.
use crate::compared::equal;
use crate::places::part;
use std::alloc::Allocator;
use std::process::Abort;
use vb_core::{Alignment, Result};
use vb_mem::Buffer;

/// Four numbers, whose storage has a declared alignment of 1024 bytes.
fn declared_1024<A: Allocator + Clone>(alloc: A) -> Result<Buffer<u32, A>> {
    let (four, wide) = (Alignment::of::<u32>(), Alignment::from_exponent(10));
    Buffer::copy_from_preferred_aligned(alloc, &[1u32, 2, 3, 4], four, Some(wide))
}

/// Writes sevens over the items.
fn fill_items<A: Allocator + Clone>(rt: &impl Abort, buffer: &mut Buffer<u32, A>) {
    let items = buffer.items_mut().expect(rt, "items");
    items.as_mut_slice().fill(7);
}

/// The buffer has the declared alignment `shared`, and `opened` once it is opened.
fn opens_declared<A: Allocator + Clone>(
    rt: &impl Abort,
    buffer: Buffer<u32, A>,
    (shared, opened): (usize, usize),
) {
    equal(rt, buffer.declared().as_usize(), shared);
    let open = buffer.into_mut().expect(rt, "a buffer");
    equal(rt, open.declared().as_usize(), opened);
    drop(open);
}

/// A buffer without other owners has these items, and its storage stays declared with 1024 bytes
/// when they are written and when it is opened.
fn keeps_declared<A: Allocator + Clone>(
    rt: &impl Abort,
    mut buffer: Buffer<u32, A>,
    items: &[u32],
) {
    equal(rt, buffer.as_slice(), items);
    fill_items(rt, &mut buffer);
    opens_declared(rt, buffer, (1024, 1024));
}

fn lone_owner<A: Allocator + Clone>(rt: &impl Abort, made: Result<Buffer<u32, A>>) {
    let whole = made.expect(rt, "a buffer");
    keeps_declared(rt, whole, &[1, 2, 3, 4]);
}

fn lone_part<A: Allocator + Clone>(rt: &impl Abort, made: Result<Buffer<u32, A>>) {
    let whole = made.expect(rt, "a buffer");
    equal(rt, whole.len(), 4);
    let part = part(rt, &whole, 1..3);
    drop(whole);
    keeps_declared(rt, part, &[2, 3]);
}

#[test]
fn a_lone_owner_keeps_the_declared_alignment(rt: HostRuntime) {
    lone_owner(&rt, declared_1024(rt.alloc()));
    lone_part(&rt, declared_1024(rt.alloc()));
}

/// A buffer with other owners is copied if it is written or opened. The copy is declared with 256
/// bytes, and the other owners keep 1024.
fn copies_are_declared_256<A: Allocator + Clone>(rt: &impl Abort, made: Result<Buffer<u32, A>>) {
    let mut buffer = made.expect(rt, "a buffer");
    let twin = buffer.clone().expect(rt, "a clone");
    fill_items(rt, &mut buffer);
    equal(rt, buffer.declared().as_usize(), 256);
    drop(buffer);
    let third = twin.clone().expect(rt, "a clone");
    opens_declared(rt, twin, (1024, 256));
    opens_declared(rt, third, (1024, 1024));
}

#[test]
fn a_copy_has_its_own_declared_alignment(rt: HostRuntime) {
    copies_are_declared_256(&rt, declared_1024(rt.alloc()));
}
