//! Iterators over items, and comparisons by them.
use crate::compared::equal;
use std::alloc::Allocator;
use std::cmp::Ordering;
use std::hash::{DefaultHasher, Hash, Hasher};
use std::process::Abort;
use vb_core::{Alignment, Result, TrustedLen};
use vb_mem::{Buffer, BufferIterator, BufferMut, Iter};

/// `n` items are left.
fn has_left<I: TrustedLen + ExactSizeIterator>(rt: &impl Abort, items: &I, n: usize) {
    equal(rt, (items.len(), items.exact_len()), (n, n));
    equal(rt, items.size_hint(), (n, Some(n)));
}

/// Lends 10, 20 and 30.
fn lends_in_turn(rt: &impl Abort, mut items: Iter<'_, u32>) {
    equal(rt, items.next().copied(), Some(10));
    has_left(rt, &items, 2);
    equal(rt, items.nth(1).copied(), Some(30));
    equal(rt, items.next().copied(), None);
}

/// Gives 10, and then two items are left.
fn gives_the_first<A: Allocator>(
    rt: &impl Abort,
    mut items: BufferIterator<u32, A>,
) -> BufferIterator<u32, A> {
    equal(rt, items.next(), Some(10));
    has_left(rt, &items, 2);
    items
}

/// Gives 10, 20 and 30 from either end, and then no more.
fn gives_from_both_ends<A: Allocator>(rt: &impl Abort, mut items: BufferIterator<u32, A>) {
    equal(rt, items.next_back(), Some(30));
    has_left(rt, &items, 2);
    equal(rt, items.next(), Some(10));
    equal(rt, items.next_back(), Some(20));
    equal(rt, items.next_back(), None);
    equal(rt, items.next(), None);
    drop(items);
}

/// A `for` loop visits 10, 20 and 30.
fn is_gone_over<A: Allocator>(rt: &impl Abort, buffer: &Buffer<u32, A>) {
    let mut wanted = 10;
    for item in buffer {
        equal(rt, *item, wanted);
        wanted = wanted.wrapping_add(10);
    }
    equal(rt, wanted, 40);
}

/// A `for` loop over a growing buffer visits 10, 20 and 30.
fn is_gone_over_open<A: Allocator>(rt: &impl Abort, buffer: &BufferMut<u32, A>) {
    let mut wanted = 10;
    for item in buffer {
        equal(rt, *item, wanted);
        wanted = wanted.wrapping_add(10);
    }
    equal(rt, wanted, 40);
}

/// Iterators give 10, 20 and 30: first references, then the items.
fn gives_in_turn<A: Allocator + Clone>(rt: &impl Abort, made: Result<Buffer<u32, A>>, alloc: A) {
    let buffer = made.expect(rt, "a buffer");
    lends_in_turn(rt, buffer.iter());
    let ends = (buffer.iter().last().copied(), buffer.iter().count());
    equal(rt, ends, (Some(30), 3));
    is_gone_over(rt, &buffer);
    gives_from_both_ends(rt, copied(rt, &buffer).into_iter());
    let rest = gives_the_first(rt, buffer.into_iter());
    let rest = Buffer::from_trusted_len_iter(alloc, rest).expect(rt, "a buffer");
    equal(rt, rest.as_slice(), &[20, 30]);
    drop(rest);
}

#[test]
fn items_are_given_in_turn(rt: HostRuntime) {
    let made = Buffer::copy_from(rt.alloc(), &[10, 20, 30]);
    gives_in_turn(&rt, made, rt.alloc());
    let open = BufferMut::copy_from(rt.alloc(), &[10, 20, 30]).expect(&rt, "a buffer");
    is_gone_over_open(&rt, &open);
    is_gone_over_open(&rt, &copied(&rt, &open));
    drop(open);
}

/// A copy by std's trait.
fn copied<T: Clone>(rt: &impl Abort, value: &T) -> T {
    value.clone().expect(rt, "a copy")
}

/// How two buffers compare.
fn compares<A: Allocator>(
    rt: &impl Abort,
    one: &Buffer<u32, A>,
    two: Result<Buffer<u32, A>>,
    ordering: Ordering,
) {
    let two = two.expect(rt, "a buffer");
    equal(rt, *one == two, ordering == Ordering::Equal);
    let given = (one.cmp(&two), one.partial_cmp(&two));
    equal(rt, given, (ordering, Some(ordering)));
    drop(two);
}

#[test]
fn buffers_compare_by_their_items(rt: HostRuntime) {
    let wide = Alignment::from_exponent(9);
    let low = Buffer::copy_from(rt.alloc(), &[1u32, 2]).expect(&rt, "a buffer");
    let same = Buffer::copy_from_aligned(rt.alloc(), &[1u32, 2], wide);
    compares(&rt, &low, same, Ordering::Equal);
    let high = Buffer::copy_from(rt.alloc(), &[1u32, 3]);
    compares(&rt, &low, high, Ordering::Less);
    drop(low);
}

/// Two growing buffers are equal or not, as `wanted` says.
fn are_equal<A: Allocator>(
    rt: &impl Abort,
    one: &BufferMut<u32, A>,
    two: Result<BufferMut<u32, A>>,
    wanted: bool,
) {
    let two = two.expect(rt, "a buffer");
    equal(rt, *one == two, wanted);
    drop(two);
}

#[test]
fn growing_buffers_compare_by_their_items(rt: HostRuntime) {
    let low = BufferMut::copy_from(rt.alloc(), &[1u32, 2]).expect(&rt, "a buffer");
    let wide = Alignment::from_exponent(9);
    let same = low.clone().expect(&rt, "a buffer").aligned(wide);
    are_equal(&rt, &low, same, true);
    let high = BufferMut::copy_from(rt.alloc(), &[1u32, 3]);
    are_equal(&rt, &low, high, false);
    drop(low);
}

/// The buffer that was made has the hash of the items 1 and 2.
fn hashes_as_items<A: Allocator>(rt: &impl Abort, made: Result<Buffer<u32, A>>) {
    let buffer = made.expect(rt, "a buffer");
    let (mut of_buffer, mut of_items) = (DefaultHasher::new(), DefaultHasher::new());
    buffer.hash(&mut of_buffer);
    drop(buffer);
    [1u32, 2].as_slice().hash(&mut of_items);
    equal(rt, of_buffer.finish(), of_items.finish());
}

#[test]
fn a_buffer_hashes_as_its_items(rt: HostRuntime) {
    hashes_as_items(&rt, Buffer::copy_from(rt.alloc(), &[1, 2]));
}
