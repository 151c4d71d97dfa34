//! Edits that allocate: what a refused request leaves, and that no edit fails while there is
//! memory.
use crate::compared::equal;
use crate::made::window;
use std::alloc::{Allocator, Global};
use std::process::Abort;
use vb_core::trusted_len;
use vb_set::{BitBufferMut, BitBufferView, BufferError, Result};
use vb_testing::{Handle, Refusing};

/// An edit that allocates if no capacity is left.
enum Edit {
    Append,
    AppendTrue,
    AppendFalse,
    AppendN,
    Resize,
    AppendView,
    AppendBits,
    AppendBools,
    Extend,
    ExtendTrusted,
    Reserve,
    ReserveExact,
}

impl Edit {
    fn make<A: Allocator + Clone>(&self, set: &mut BitBufferMut<A>) -> Result<()> {
        match self {
            Edit::Append => set.append(false),
            Edit::AppendTrue => set.append_true(),
            Edit::AppendFalse => set.append_false(),
            Edit::AppendN => set.append_n(false, 100),
            Edit::Resize => set.resize(set.len().saturating_add(100), false),
            Edit::AppendView => set.append_view(BitBufferView::new(&[0; 13], 100)),
            Edit::AppendBits => set.append_bits(&[0xFF; 13], 3, 100),
            Edit::AppendBools => set.append_bools(&[true; 100]),
            Edit::Extend => set.extend([false; 50].into_iter()),
            Edit::ExtendTrusted => set.extend_trusted(trusted_len([true; 100].into_iter(), 100)),
            Edit::Reserve => {
                set.reserve(100)?;
                set.append_n(true, 100)
            }
            Edit::ReserveExact => {
                set.reserve_exact(100)?;
                set.append_n(true, 100)
            }
        }
    }
}

/// The edits, and the numbers of true and of false bits that each adds.
const EDITS: &[(Edit, (usize, usize))] = &[
    (Edit::Append, (0, 1)),
    (Edit::AppendTrue, (1, 0)),
    (Edit::AppendFalse, (0, 1)),
    (Edit::AppendN, (0, 100)),
    (Edit::Resize, (0, 100)),
    (Edit::AppendView, (0, 100)),
    (Edit::AppendBits, (100, 0)),
    (Edit::AppendBools, (100, 0)),
    (Edit::Extend, (0, 50)),
    (Edit::ExtendTrusted, (100, 0)),
    (Edit::Reserve, (100, 0)),
];

/// The offset of a set, its length, its capacity, and the number of its bytes.
pub(crate) type Layout = (usize, usize, usize, usize);

pub(crate) fn layout<A: Allocator + Clone>(set: &BitBufferMut<A>) -> Layout {
    let bytes = set.as_slice().len();
    (set.offset(), set.len(), set.capacity(), bytes)
}

/// The set is laid out so, and all bits of its bytes are true.
pub(crate) fn is_left<A: Allocator + Clone>(
    rt: &impl Abort,
    set: &BitBufferMut<A>,
    before: Layout,
) {
    equal(rt, layout(set), before);
    for byte in set.as_slice() {
        equal(rt, *byte, 0xFF);
    }
    equal(rt, set.as_view().true_count(), set.len());
}

/// The set has `len` true bits, and then the true bits or the false bits that were added.
fn is_longer<A: Allocator + Clone>(
    rt: &impl Abort,
    set: &BitBufferMut<A>,
    len: usize,
    (trues, falses): (usize, usize),
) {
    let view = set.as_view();
    equal(rt, view.true_count(), len.saturating_add(trues));
    equal(rt, view.false_count(), falses);
    let first_false = if falses > 0 { Some(len) } else { None };
    equal(rt, view.select_unset(0), first_false);
}

/// Edits a set of true bits that is full. A refusal leaves the set and its capacity.
fn is_longer_or_left<A: Allocator + Clone>(
    rt: &impl Abort,
    set: &mut BitBufferMut<A>,
    edit: &Edit,
    added: (usize, usize),
) -> Result<()> {
    let before = layout(set);
    is_left(rt, set, before);
    let answer = edit.make(set);
    if answer.is_err() {
        is_left(rt, set, before);
    } else {
        is_longer(rt, set, before.1, added);
    }
    answer
}

/// Fills a set with true bits up to its capacity, and then makes the edit.
fn edit_ones<A: Allocator + Clone>(
    rt: &impl Abort,
    made: Result<BitBufferMut<A>>,
    call: &Edit,
    added: (usize, usize),
) -> Result<()> {
    let mut set = made?;
    let filled = set.append_n(true, set.capacity() - set.len());
    equal(rt, filled, Ok(()));
    let answer = is_longer_or_left(rt, &mut set, call, added);
    drop(set);
    answer
}

fn is_refused_or_made(
    rt: &impl Abort,
    heap: &Refusing<Global>,
    call: &Edit,
    added: (usize, usize),
) {
    for _ in heap.in_turn() {
        let made = window(Handle { inner: heap }, (0xFF, 3), 11, 9);
        let answer = edit_ones(rt, made, call, added);
        let wanted = heap.wanted(Ok(()), Err(BufferError::OutOfMemory));
        equal(rt, answer, wanted);
    }
    // One request for the first bits, and one of the edit.
    equal(rt, heap.has_refused(), false);
    equal(rt, heap.asked(), 2);
}

#[test]
fn a_refused_edit_leaves_the_set(rt: HostRuntime) {
    let heap = Refusing::new(rt.alloc(), 0);
    for (edit, added) in EDITS {
        is_refused_or_made(&rt, &heap, edit, *added);
    }
    is_refused_or_made(&rt, &heap, &Edit::ReserveExact, (100, 0));
}

/// The offset of a set that was made, its length, and how many of its bits are true.
fn place_of<A: Allocator + Clone>(made: Result<BitBufferMut<A>>) -> Result<(usize, usize, usize)> {
    let set = made?;
    let place = (set.offset(), set.len(), set.as_view().true_count());
    drop(set);
    Ok(place)
}

/// Takes a set. A refusal leaves the set and its capacity.
fn take<A: Allocator + Clone>(
    rt: &impl Abort,
    made: Result<BitBufferMut<A>>,
) -> Result<(usize, usize, usize)> {
    let mut set = made?;
    let before = layout(&set);
    let answer = place_of(set.take());
    if answer.is_ok() {
        equal(rt, set.is_empty(), true);
        equal(rt, set.offset(), 0);
    } else {
        is_left(rt, &set, before);
    }
    drop(set);
    answer
}

#[test]
fn a_refused_take_leaves_the_set(rt: HostRuntime) {
    let heap = Refusing::new(rt.alloc(), 0);
    for _ in heap.in_turn() {
        let answer = take(&rt, window(Handle { inner: &heap }, (0xFF, 3), 11, 9));
        let wanted = heap.wanted(Ok((11, 9, 9)), Err(BufferError::OutOfMemory));
        equal(&rt, answer, wanted);
    }
    equal(&rt, heap.has_refused(), false);
    equal(&rt, heap.asked(), 2);
}

/// Makes an edit again and again.
fn grow<A: Allocator + Clone>(rt: &impl Abort, set: &mut BitBufferMut<A>, edit: &Edit) {
    for _ in 0..5000 {
        edit.make(set).expect(rt, "room");
    }
}

/// Grows an empty set.
fn is_grown<A: Allocator + Clone>(
    rt: &impl Abort,
    alloc: A,
    edit: &Edit,
    (trues, falses): (usize, usize),
) {
    let mut set = BitBufferMut::empty(alloc);
    grow(rt, &mut set, edit);
    equal(rt, set.as_view().true_count(), trues.saturating_mul(5000));
    equal(rt, set.as_view().false_count(), falses.saturating_mul(5000));
    drop(set);
}

/// A body that gives up once the set has grown to some length fails here, and so does one that
/// allocates at each call, or allocates more and more.
#[test]
fn growth_goes_on_while_there_is_memory(rt: HostRuntime) {
    let heap = Refusing::new(rt.alloc(), 0);
    for (edit, added) in EDITS {
        heap.refuse(0);
        is_grown(&rt, &heap, edit, *added);
        equal(&rt, heap.asked() <= 20, true);
        equal(&rt, heap.asked_bytes() <= 4 * 62_500, true);
    }
}
