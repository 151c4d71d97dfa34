//! Calls on elements of 128 KiB: none of them keeps 64 elements on the stack. A usual stack of 8
//! MiB is too small for so many.
use crate::compared::{equal, holds};
use crate::wide::Wide;
use std::alloc::{Allocator, Global};
use std::process::Abort;
use vb_bit_buffer::BitBuffer;
use vb_core::{Element, Result};
use vb_filter::{filter_elements_into, retain_values};
use vb_gather::{Filter, Take};
use vb_mem::{Buffer, BufferMut};
use vb_take::take_values_into;

/// How many elements there are: some behind two blocks of 64.
const MANY: usize = 130;

/// The byte of the element at an index.
fn byte_at(place: usize) -> u8 {
    (place % 65) as u8
}

/// Half of the elements, which are added one by one.
fn half<A: Allocator>(alloc: A) -> Result<BufferMut<Wide, A>> {
    let mut made = BufferMut::empty(alloc);
    for byte in 0..65u8 {
        made.push(Wide::of(byte))?;
    }
    Ok(made)
}

/// All elements: the first half, and then the same bytes again, added as a slice.
fn elements(rt: &impl Abort, alloc: Global) -> Buffer<Wide, Global> {
    let first = half(alloc).expect(rt, "memory");
    let mut all = half(alloc).expect(rt, "memory");
    all.extend_from_slice(first.as_slice()).expect(rt, "memory");
    all.push_n(Wide::of(200), 3).expect(rt, "memory");
    drop((all.pop(), first));
    all.truncate(MANY);
    all.freeze().expect(rt, "memory")
}

/// The element at an index has this byte.
fn has(rt: &impl Abort, items: &[Wide], place: usize, byte: u8) {
    let ends = match items.get(place) {
        Some(wide) => Some(wide.ends()),
        None => None,
    };
    equal(rt, ends, Some((byte, byte)));
}

/// Which elements a mask keeps.
#[derive(Clone, Copy)]
enum Kept {
    OneIn(usize),
    AllButOneIn(usize),
}

impl Kept {
    fn has(self, place: usize) -> bool {
        match self {
            Kept::OneIn(n) => n > 0 && place % n == 0,
            Kept::AllButOneIn(n) => n > 0 && place % n > 0,
        }
    }

    fn mask(self, alloc: Global) -> Result<BitBuffer<Global>> {
        BitBuffer::from_iter(alloc, (0..MANY).map(|place| self.has(place)))
    }
}

/// Masks that keep all, few, and some elements of a block.
const MASKS: [Kept; 4] = [
    Kept::OneIn(1),
    Kept::OneIn(40),
    Kept::OneIn(2),
    Kept::AllButOneIn(64),
];

/// The first items are those that a mask keeps. Returns their number.
fn are_kept(rt: &impl Abort, items: &[Wide], mask: Kept) -> usize {
    let mut kept = 0usize;
    for place in 0..MANY {
        if mask.has(place) {
            has(rt, items, kept, byte_at(place));
            kept = kept.saturating_add(1);
        }
    }
    kept
}

#[test]
fn a_filter_keeps_no_block_of_elements(rt: HostRuntime) {
    let values = elements(&rt, rt.alloc());
    let mut out = BufferMut::zeroed(rt.alloc(), MANY).expect(&rt, "memory");
    for each in MASKS {
        let mask = each.mask(rt.alloc()).expect(&rt, "memory");
        let kept = values.filtered(mask.as_view()).expect(&rt, "memory");
        let count = are_kept(&rt, kept.as_slice(), each);
        equal(&rt, (kept.len(), mask.true_count()), (count, count));
        holds(&rt, mask.len() == values.len());
        holds(&rt, out.len() == values.len());
        holds(&rt, mask.true_count() <= out.len());
        let written = filter_elements_into(out.as_mut_slice(), values.as_slice(), mask.as_view());
        equal(
            &rt,
            (written, are_kept(&rt, out.as_slice(), each)),
            (count, count),
        );
        out.as_mut_slice().copy_from_slice(values.as_slice());
        let moved = retain_values(out.as_mut_slice(), mask.as_view());
        equal(
            &rt,
            (moved, are_kept(&rt, out.as_slice(), each)),
            (count, count),
        );
        drop((mask, kept));
    }
    drop((values, out));
}

/// The items are those at every third index. If there is a mask, they are 0 where it is false.
fn are_taken(rt: &impl Abort, items: &[Wide], mask: Option<Kept>) {
    for place in 0..MANY {
        let is_valid = match mask {
            Some(kept) => kept.has(place),
            None => true,
        };
        let byte = if is_valid {
            byte_at(3 * place % MANY)
        } else {
            0
        };
        has(rt, items, place, byte);
    }
}

#[test]
fn a_take_keeps_no_block_of_elements(rt: HostRuntime) {
    let values = elements(&rt, rt.alloc());
    let mut indices = [0u32; MANY];
    for k in 0..MANY {
        indices[k] = (3 * k % MANY) as u32;
    }
    let taken = values.taken(&indices, None).expect(&rt, "memory");
    are_taken(&rt, taken.as_slice(), None);
    drop(taken);
    let mut out = BufferMut::zeroed(rt.alloc(), MANY).expect(&rt, "memory");
    for each in MASKS {
        let mask = each.mask(rt.alloc()).expect(&rt, "memory");
        holds(&rt, mask.len() == indices.len());
        let taken = values.taken(&indices, Some(mask.as_view()));
        let taken = taken.expect(&rt, "memory");
        are_taken(&rt, taken.as_slice(), Some(each));
        holds(&rt, indices.len() <= out.len());
        let view = Some(mask.as_view());
        let answer = take_values_into(out.as_mut_slice(), values.as_slice(), &indices, view);
        equal(&rt, answer, Ok(()));
        are_taken(&rt, out.as_slice(), Some(each));
        drop((mask, taken));
    }
    drop((values, out));
}

/// The items are all elements.
fn are_elements(rt: &impl Abort, items: &[Wide]) {
    equal(rt, items.len(), MANY);
    for place in 0..MANY {
        has(rt, items, place, byte_at(place));
    }
}

#[test]
fn an_extend_keeps_no_block_of_elements(rt: HostRuntime) {
    let values = elements(&rt, rt.alloc());
    let mut made = BufferMut::empty(rt.alloc());
    let items = values.as_slice().iter().copied();
    made.extend(items).expect(&rt, "memory");
    are_elements(&rt, made.as_slice());
    drop((values, made));
}
