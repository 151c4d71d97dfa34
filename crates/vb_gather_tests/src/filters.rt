//! Calls of [`Filter`], whatever it is that is filtered.
use crate::compared::equal;
use crate::masks::{Row, mask};
use std::alloc::{Allocator, Global};
use std::process::Abort;
use vb_bit_buffer::BitBuffer;
use vb_core::{BufferError, Result};
use vb_gather::Filter;
use vb_mem::Buffer;
use vb_testing::Refusing;
use vb_view::BitBufferView;

fn kept<F: Filter, A: Allocator + Clone>(values: &F, mask: Result<BitBuffer<A>>) -> Result<F> {
    let mask = mask?;
    let kept = values.filtered(mask.as_view());
    drop(mask);
    kept
}

/// The values that the mask of a row selects.
pub(crate) fn filtered<F: Filter + Drop, A: Allocator + Clone>(
    alloc: A,
    values: Result<F>,
    row: &Row,
) -> Result<F> {
    let values = values?;
    let kept = kept(&values, mask(alloc, row));
    drop(values);
    kept
}

/// The values that a mask keeps. The call makes one request for them, and one for their owners.
pub(crate) fn filtered_by_two<F: Filter>(
    rt: &impl Abort,
    heap: &Refusing<Global>,
    values: &F,
    mask: BitBufferView<'_>,
) -> F {
    heap.refuse(0);
    let kept = values.filtered(mask).expect(rt, "memory");
    equal(rt, heap.asked(), 2);
    kept
}

/// `len` values, which aren't four, are refused for a mask of four bits, and no memory is
/// requested.
fn refuse_four_bits<F: Filter + Drop>(
    rt: &impl Abort,
    heap: &Refusing<Global>,
    values: Result<F>,
    len: usize,
) {
    let values = values.expect(rt, "memory");
    let mask = BitBuffer::new_set(heap, 4).expect(rt, "memory");
    heap.refuse(0);
    let refused = values.filtered(mask.as_view()).err();
    let lengths = BufferError::LengthMismatch {
        left: len,
        right: 4,
    };
    equal(rt, (refused, heap.asked()), (Some(lengths), 0));
    drop((values, mask));
}

#[test]
fn a_mask_of_another_length_is_refused_before_memory(rt: HostRuntime) {
    let heap = Refusing::new(rt.alloc(), 0);
    refuse_four_bits(&rt, &heap, BitBuffer::new_set(&heap, 5), 5);
    refuse_four_bits(&rt, &heap, Buffer::copy_from(&heap, &[7u8, 8, 9]), 3);
}
