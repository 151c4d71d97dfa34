//! Equality, order, hash and text of `ConstBuffer` and `BufferString`: those of their inner
//! buffers.
use crate::compared::equal;
use std::alloc::{Allocator, Global};
use std::cmp::Ordering;
use std::fmt::Debug;
use std::hash::{DefaultHasher, Hash, Hasher};
use std::process::Abort;
use vortex_buffer::{Alignment, Buffer, BufferString, ConstBuffer, Result};

type Fixed = ConstBuffer<u32, 64, Global>;

fn hash_of<T: Hash>(value: &T) -> u64 {
    let mut state = DefaultHasher::new();
    value.hash(&mut state);
    state.finish()
}

/// Asserts the order of two values, and that their hashes are equal exactly if the values are.
fn compare<T: PartialOrd + Hash>(rt: &impl Abort, one: &T, two: &T, order: Ordering) {
    let is_equal = order == Ordering::Equal;
    equal(rt, one.partial_cmp(two), Some(order));
    let equals = (one == two, hash_of(one) == hash_of(two));
    equal(rt, equals, (is_equal, is_equal));
}

/// The items, aligned to 2^`exponent` bytes. [`Fixed`] requires at least 64.
fn fixed(alloc: Global, items: &[u32], exponent: u8) -> Result<Fixed> {
    let alignment = Alignment::try_from_exponent(exponent.max(2))?;
    ConstBuffer::try_from_buffer(Buffer::copy_from_aligned(alloc, items, alignment)?)
}

fn compare_fixed(rt: &impl Abort, one: Result<Fixed>, two: Result<Fixed>, order: Ordering) {
    let (one, two) = (one.expect(rt, "memory"), two.expect(rt, "memory"));
    compare(rt, &one, &two, order);
    compare(rt, one.inner(), two.inner(), order);
    equal(rt, hash_of(&one), hash_of(one.inner()));
    drop((one, two));
}

/// Two lists of items, and the order of the first to the second.
const LISTS: &[(&[u32], &[u32], Ordering)] = &[
    (&[], &[], Ordering::Equal),
    (&[], &[0], Ordering::Less),
    (&[1, 2], &[1, 2], Ordering::Equal),
    (&[1, 3], &[1, 2, 9], Ordering::Greater),
    (&[1, 2], &[1, 2, 0], Ordering::Less),
    (&[256], &[1], Ordering::Greater),
];

/// The second buffer reports another alignment, which doesn't count.
#[test]
fn fixed_buffers_compare_by_their_items(rt: HostRuntime) {
    for (left, right, order) in LISTS {
        let (one, two) = (fixed(rt.alloc(), left, 6), fixed(rt.alloc(), right, 9));
        compare_fixed(&rt, one, two, *order);
    }
}

fn compare_texts<A: Allocator>(
    rt: &impl Abort,
    one: Result<BufferString<A>>,
    two: Result<BufferString<A>>,
    order: Ordering,
) {
    let (one, two) = (one.expect(rt, "memory"), two.expect(rt, "memory"));
    compare(rt, &one, &two, order);
    compare(rt, one.inner(), two.inner(), order);
    let orders = (one.cmp(&two), one.inner().cmp(two.inner()));
    equal(rt, orders, (order, order));
    drop((one, two));
}

/// Two texts, and the order of the first to the second.
const TEXTS: &[(&str, &str, Ordering)] = &[
    ("", "", Ordering::Equal),
    ("", "a", Ordering::Less),
    ("hello", "hello", Ordering::Equal),
    ("hello", "hell", Ordering::Greater),
    ("b", "aa", Ordering::Greater),
    ("z", "é", Ordering::Less),
];

#[test]
fn texts_compare_by_their_bytes(rt: HostRuntime) {
    for (left, right, order) in TEXTS {
        let one = BufferString::from_str(rt.alloc(), left);
        compare_texts(&rt, one, BufferString::from_str(rt.alloc(), right), *order);
    }
}

/// A body that hashes a text as a `str` fails here.
#[test]
fn a_text_hashes_as_its_buffer(rt: HostRuntime) {
    let text = BufferString::from_str(rt.alloc(), "hello").expect(&rt, "memory");
    let hash = hash_of(&text);
    let others = (hash_of(text.inner()), hash_of(&b"hello".as_slice()));
    equal(&rt, others, (hash, hash));
    equal(&rt, hash == hash_of(&text.as_str()), false);
    drop(text);
}

/// Std's copy, by code that knows no more than the bound.
fn copied<T: Clone + Drop>(rt: &impl Abort, made: Result<T>) -> T {
    let value = made.expect(rt, "memory");
    let copy = value.clone().expect(rt, "an owner");
    drop(value);
    copy
}

fn prints<T: Debug>(rt: &impl Abort, alloc: Global, value: &T, wanted: &str) {
    let text = format!(in alloc; "{:?}", value).expect(rt, "a text");
    equal(rt, text.as_str(), wanted);
    drop(text);
}

#[test]
fn buffers_are_printed_and_copied_by_std(rt: HostRuntime) {
    let text = copied(&rt, BufferString::from_str(rt.alloc(), "a \"b\""));
    prints(&rt, rt.alloc(), &text, "\"a \\\"b\\\"\"");
    let items = copied(&rt, fixed(rt.alloc(), &[1, 2, 3], 6));
    prints(&rt, rt.alloc(), &items, "[1, 2, 3]");
    equal(&rt, items.inner().alignment().as_usize(), 64);
    drop((text, items));
}
