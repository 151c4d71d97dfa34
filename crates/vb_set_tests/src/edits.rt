//! Edits of sets, compared with the same edits of plain lists.
use crate::compared::{equal, holds, same};
use crate::made::window;
use std::alloc::Allocator;
use std::process::Abort;
use vb_set::{BitBufferMut, Result};

/// The offsets and the lengths at which each edit is tried.
pub(crate) const OFFSETS: [usize; 5] = [0, 3, 5, 7, 13];

pub(crate) const LENGTHS: [usize; 9] = [0, 1, 7, 8, 63, 64, 65, 129, 200];

/// The value of every byte of the sets, outside of the window too.
const PATTERN: u8 = 0b1011_0010;

/// The bits of a window of such bytes.
fn list_of<A: Allocator>(rt: &impl Abort, alloc: A, offset: usize, len: usize) -> Vec<bool, A> {
    let mut bits = Vec::new(alloc);
    for i in 0..len {
        let digit = offset.wrapping_add(i) % 8;
        bits.push((PATTERN >> digit) & 1 == 1).expect(rt, "memory");
    }
    bits
}

/// Writes one bit in the middle, and the bits of a part.
fn write<A: Allocator + Clone>(set: &mut BitBufferMut<A>, list: &mut [bool], v: bool) {
    let len = set.len().min(list.len());
    if len > 0 {
        set.set_to(len / 2, v);
        list[len / 2] = v;
    }
    let (a, b) = (len / 3, len - len / 4);
    if a <= b {
        set.fill_range(a, b, !v);
        list[a..b].fill(!v);
    }
}

/// Adds bits at the end: one, many others, and one.
fn lengthen<A: Allocator + Clone>(
    rt: &impl Abort,
    set: &mut BitBufferMut<A>,
    list: &mut Vec<bool, A>,
    v: bool,
) {
    set.append(v).expect(rt, "room");
    set.append_n(!v, 70).expect(rt, "room");
    set.append(v).expect(rt, "room");
    for i in 0..72usize {
        let is_end = i == 0 || i == 71;
        list.push(is_end == v).expect(rt, "room");
    }
    same(rt, set, list);
}

/// Truncates to a length, or fills up to it.
fn resize<A: Allocator + Clone>(
    rt: &impl Abort,
    set: &mut BitBufferMut<A>,
    list: &mut Vec<bool, A>,
    (n, v): (usize, bool),
) {
    set.resize(n, v).expect(rt, "room");
    list.resize(n, v).expect(rt, "room");
    same(rt, set, list);
}

/// Takes more bits away than a byte has.
fn shorten<A: Allocator + Clone>(
    rt: &impl Abort,
    set: &mut BitBufferMut<A>,
    list: &mut Vec<bool, A>,
) {
    for _ in 0..11 {
        equal(rt, set.pop(), list.pop());
    }
    same(rt, set, list);
}

/// Adds bits `v` as long as they fit in the bytes.
fn fill_bytes<A: Allocator + Clone>(
    rt: &impl Abort,
    set: &mut BitBufferMut<A>,
    list: &mut Vec<bool, A>,
    v: bool,
) {
    let end = set.offset().saturating_add(set.len());
    let places = set.as_slice().len().saturating_mul(8).saturating_sub(end);
    for _ in 0..places {
        equal(rt, set.append_within_bytes(v), true);
        list.push(v).expect(rt, "room");
    }
    equal(rt, set.append_within_bytes(v), false);
    same(rt, set, list);
}

/// Adds bits `v` up to the capacity, which stays the same.
fn fill_room<A: Allocator + Clone>(
    rt: &impl Abort,
    set: &mut BitBufferMut<A>,
    list: &mut Vec<bool, A>,
    v: bool,
) {
    let room = set.capacity();
    for _ in list.len()..room {
        holds(rt, set.has_room());
        set.append_unchecked(v);
        list.push(v).expect(rt, "room");
    }
    equal(rt, set.has_room(), false);
    equal(rt, set.capacity(), room);
    same(rt, set, list);
}

/// Makes the edits, some with bits `v` and some with the opposite ones.
fn edited_is_plain<A: Allocator + Clone>(
    rt: &impl Abort,
    set: &mut BitBufferMut<A>,
    list: &mut Vec<bool, A>,
    v: bool,
) {
    write(set, list, v);
    same(rt, set, list);
    lengthen(rt, set, list, v);
    // Keeps half of the bits. Those that are cut off are stale bits after the end.
    let n = list.len() / 2;
    set.truncate(n);
    list.truncate(n);
    same(rt, set, list);
    fill_bytes(rt, set, list, v);
    fill_room(rt, set, list, !v);
    lengthen(rt, set, list, !v);
    let n = list.len();
    resize(rt, set, list, (n / 3, v));
    resize(rt, set, list, (n, v));
    shorten(rt, set, list);
}

/// Negates the set and the list, and compares them.
fn negated_is_plain<A: Allocator + Clone>(
    rt: &impl Abort,
    set: BitBufferMut<A>,
    list: &mut [bool],
) -> BitBufferMut<A> {
    let set = !set;
    for bit in list.iter_mut() {
        *bit = !*bit;
    }
    same(rt, &set, list);
    set
}

/// Clears the set, and adds bits again.
fn cleared_is_plain<A: Allocator + Clone>(rt: &impl Abort, set: &mut BitBufferMut<A>) {
    set.clear();
    same(rt, set, &[]);
    set.append_n(true, 9).expect(rt, "room");
    same(rt, set, &[true; 9]);
}

/// Every edit of the set, each compared with that of the list.
fn edits_are_plain<A: Allocator + Clone>(
    rt: &impl Abort,
    made: Result<BitBufferMut<A>>,
    list: &mut Vec<bool, A>,
) {
    let mut set = made.expect(rt, "a set");
    edited_is_plain(rt, &mut set, list, true);
    edited_is_plain(rt, &mut set, list, false);
    let mut set = negated_is_plain(rt, set, list);
    cleared_is_plain(rt, &mut set);
    drop(set);
}

#[test]
fn edits_are_those_of_a_list(rt: HostRuntime) {
    for offset in OFFSETS {
        for len in LENGTHS {
            let mut list = list_of(&rt, rt.alloc(), offset, len);
            let set = window(rt.alloc(), (PATTERN, 30), offset, len);
            edits_are_plain(&rt, set, &mut list);
            drop(list);
        }
    }
}
