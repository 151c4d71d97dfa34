//! Worked rows: what edits return and leave.
use crate::changes::{is_left, layout};
use crate::compared::{equal, holds, same};
use crate::made::window;
use std::alloc::{Allocator, Global};
use std::process::Abort;
use vb_set::{BitBufferMut, BufferError, Result};
use vb_testing::{Handle, Refusing};

/// An edit of a set.
enum Edit {
    Append(bool),
    AppendN(bool, usize),
    Truncate(usize),
}

impl Edit {
    fn make<A: Allocator + Clone>(&self, set: &mut BitBufferMut<A>) -> Result<()> {
        match self {
            Edit::Append(v) => set.append(*v),
            Edit::AppendN(v, n) => set.append_n(*v, *n),
            Edit::Truncate(n) => {
                set.truncate(*n);
                Ok(())
            }
        }
    }
}

/// How many true bits are edited, the edits, what the last one returns, and the bits after it.
const EDITED: &[(usize, &[Edit], Result<()>, &[bool])] = &[
    (
        4,
        &[Edit::Append(false)],
        Ok(()),
        &[true, true, true, true, false],
    ),
    (
        1,
        &[Edit::AppendN(true, usize::MAX)],
        Err(BufferError::TooManyBits),
        &[true],
    ),
    (
        5,
        &[Edit::Truncate(2), Edit::AppendN(false, 3)],
        Ok(()),
        &[true, true, false, false, false],
    ),
];

/// Makes the edits of a row. Returns what the last one does.
fn make_all<A: Allocator + Clone>(set: &mut BitBufferMut<A>, edits: &[Edit]) -> Result<()> {
    let mut answer = Ok(());
    for edit in edits {
        answer = edit.make(set);
    }
    answer
}

/// The edits of a row return this, and leave these bits.
fn is_edited<A: Allocator + Clone>(
    rt: &impl Abort,
    made: Result<BitBufferMut<A>>,
    edits: &[Edit],
    (last, bits): (Result<()>, &[bool]),
) {
    let mut set = made.expect(rt, "a set");
    equal(rt, make_all(&mut set, edits), last);
    same(rt, &set, bits);
    drop(set);
}

#[test]
fn edits_answer_and_leave_bits(rt: HostRuntime) {
    for (len, edits, last, bits) in EDITED {
        let set = window(rt.alloc(), (0xFF, 1), 0, *len);
        is_edited(&rt, set, edits, (*last, bits));
    }
}

/// Adds a false bit to true bits.
fn ends_false<A: Allocator + Clone>(rt: &impl Abort, made: Result<BitBufferMut<A>>) {
    let mut set = made.expect(rt, "a set");
    set.append(false).expect(rt, "room");
    holds(rt, set.len() == 5);
    equal(rt, set.value(3), true);
    equal(rt, set.value(4), false);
    drop(set);
}

#[test]
fn a_false_bit_behind_four_true_ones(rt: HostRuntime) {
    ends_false(&rt, window(rt.alloc(), (0xFF, 1), 0, 4));
}

/// The offset of a set, its length, and how many bytes it has.
fn open_place<A: Allocator + Clone>(set: &BitBufferMut<A>) -> (usize, usize, usize) {
    (set.offset(), set.len(), set.inner().len())
}

/// Appends bits to one bit at offset 13. The new length would be a `usize`, but not the sum of it
/// and the offset.
fn is_left_as_one<A: Allocator + Clone>(rt: &impl Abort, made: Result<BitBufferMut<A>>) {
    let mut set = made.expect(rt, "a set");
    let before = layout(&set);
    let answer = set.append_n(true, 18446744073709551602);
    equal(rt, answer, Err(BufferError::TooManyBits));
    let answer = set.resize(18446744073709551603, true);
    equal(rt, answer, Err(BufferError::TooManyBits));
    equal(rt, open_place(&set), (13, 1, 2));
    is_left(rt, &set, before);
    drop(set);
}

#[test]
fn append_n_past_usize_by_the_offset(rt: HostRuntime) {
    is_left_as_one(&rt, window(rt.alloc(), (0xFF, 2), 13, 1));
}

/// Shortens a set and fills it up to its capacity. The capacity stays the same, and nothing is
/// allocated.
fn is_resized<A: Allocator + Clone>(
    rt: &impl Abort,
    heap: &Refusing<Global>,
    made: Result<BitBufferMut<A>>,
) {
    let mut set = made.expect(rt, "a set");
    let room = set.capacity();
    heap.refuse(1);
    equal(rt, set.resize(2, false), Ok(()));
    equal(rt, set.resize(room, false), Ok(()));
    equal(rt, (set.len(), set.capacity()), (room, room));
    equal(rt, set.as_view().true_count(), 2);
    equal(rt, heap.asked(), 0);
    drop(set);
}

#[test]
fn resize_within_the_room_asks_for_nothing(rt: HostRuntime) {
    let heap = Refusing::new(rt.alloc(), 0);
    is_resized(
        &rt,
        &heap,
        window(Handle { inner: &heap }, (0xFF, 30), 13, 200),
    );
}

/// Pops the only bit of a set. The next `pop` returns None.
fn is_emptied<A: Allocator + Clone>(rt: &impl Abort, made: Result<BitBufferMut<A>>) {
    let mut set = made.expect(rt, "a set");
    equal(rt, (set.pop(), set.pop()), (Some(true), None));
    equal(rt, open_place(&set), (13, 0, 2));
    drop(set);
}

#[test]
fn pop_takes_the_last_bit_or_none(rt: HostRuntime) {
    is_emptied(&rt, window(rt.alloc(), (0xFF, 4), 13, 1));
}

/// Truncates a set at offset 13 to four bits, and then clears it.
fn are_cut_off<A: Allocator + Clone>(rt: &impl Abort, made: Result<BitBufferMut<A>>) {
    let mut set = made.expect(rt, "a set");
    set.truncate(4);
    equal(rt, open_place(&set), (13, 4, 3));
    set.clear();
    equal(rt, open_place(&set), (0, 0, 0));
    drop(set);
}

#[test]
fn truncate_leaves_bytes_and_clear_none(rt: HostRuntime) {
    are_cut_off(&rt, window(rt.alloc(), (0xFF, 4), 13, 10));
}
