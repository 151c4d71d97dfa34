//! Worked rows: sets that are frozen, edited through views, and copied from views.
use crate::compared::{equal, holds, shows};
use crate::made::window;
use crate::makers::frozen;
use std::alloc::Allocator;
use std::process::Abort;
use vb_set::{BitBuffer, BitBufferMut, BitBufferView, Result, ToBitBuffer};

/// The offset of a shared set, how many bytes it has, and how many true bits.
fn frozen_place<A: Allocator + Clone>(
    rt: &impl Abort,
    made: Result<BitBufferMut<A>>,
) -> (usize, usize, usize) {
    let set = frozen(made).expect(rt, "a set");
    let place = (set.offset(), set.inner().len(), set.true_count());
    drop(set);
    place
}

#[test]
fn freeze_leaves_out_whole_bytes(rt: HostRuntime) {
    let set = window(rt.alloc(), (0xFF, 4), 13, 10);
    equal(&rt, frozen_place(&rt, set), (5, 3, 10));
}

/// Edits sixteen false bits.
fn edited_by_view<A: Allocator + Clone>(
    rt: &impl Abort,
    made: Result<BitBufferMut<A>>,
) -> Result<BitBuffer<A>> {
    let mut set = made.expect(rt, "a set");
    let mut view = set.as_mut_view();
    holds(rt, view.len() == 16);
    view.set(0);
    view.set(15);
    view.set_to(7, true);
    view.fill_range(2, 5, true);
    equal(rt, view.true_count(), 6);
    view.unset(0);
    set.freeze()
}

#[test]
fn a_set_is_edited_through_a_view(rt: HostRuntime) {
    let set = edited_by_view(&rt, BitBufferMut::new_unset(rt.alloc(), 16));
    shows_ends(&rt, &set);
    equal(&rt, shows(&rt, set, "0011100100000001"), Ok(()));
}

fn shows_ends<A: Allocator + Clone>(rt: &impl Abort, made: &Result<BitBuffer<A>>) {
    if let Ok(set) = made {
        equal(rt, set.true_count(), 5);
        equal(rt, set.last_set_index(), Some(15));
        equal(rt, set.iter().next(), Some(false));
    }
}

/// The offset and the length of a view, and how many bytes it has.
fn place(view: BitBufferView<'_>) -> (usize, usize, usize) {
    (view.offset(), view.len(), view.inner().len())
}

/// The set that was made has the bits of the view, and no more bytes than these need.
fn is_copy<A: Allocator + Clone>(
    rt: &impl Abort,
    view: BitBufferView<'_>,
    made: Result<BitBuffer<A>>,
) {
    let copy = made.expect(rt, "a set");
    equal(rt, copy.len(), 10);
    equal(rt, copy.true_count(), 0);
    let bytes = copy.offset().saturating_add(10).div_ceil(8);
    equal(rt, copy.inner().len(), bytes);
    equal(rt, copy.as_view() == view, true);
    drop(copy);
}

/// A view of the set that was made, and a copy of that.
fn view_is_copied<A: Allocator + Clone>(rt: &impl Abort, alloc: A, made: Result<BitBufferMut<A>>) {
    let set = made.expect(rt, "a set");
    equal(rt, place(set.as_view()), (5, 10, 3));
    is_copy(rt, set.as_view(), set.as_view().to_bit_buffer(alloc));
    drop(set);
}

#[test]
fn a_view_of_a_set_begins_with_its_first_byte(rt: HostRuntime) {
    view_is_copied(&rt, rt.alloc(), window(rt.alloc(), (0, 4), 13, 10));
}
