//! Metadata, and views.
use crate::compared::equal;
use crate::sample::view;
use std::alloc::Allocator;
use std::fmt::Debug;
use std::process::Abort;
use vb_view::{BitBufferMeta, BitBufferMutView, BitBufferView};

#[test]
fn metadata_begins_in_its_first_byte(rt: HostRuntime) {
    let rt = &rt;
    let (byte, part) = BitBufferMeta::new(5, 20).slice(7..17);
    equal(rt, byte, 1);
    equal(rt, part.offset(), 4);
    equal(rt, part.len(), 10);
    equal(rt, part.byte_len(), 2);
    equal(rt, part.is_empty(), false);
    let (byte, meta) = BitBufferMeta::from_raw_offset(13, 10);
    equal(rt, byte, 1);
    equal(rt, meta.offset(), 5);
    equal(rt, meta.len(), 10);
    equal(rt, meta, BitBufferMeta::new(5, 10));
    let most = BitBufferMeta::new(7, usize::MAX - 7);
    equal(rt, most.byte_len(), 2305843009213693952);
}

/// The view has these bits, `1` for a true one, and no others.
fn shows(rt: &impl Abort, view: &BitBufferView<'_>, bits: &str) {
    let digits = bits.as_bytes();
    equal(rt, view.len(), digits.len());
    for i in 0..view.len().min(digits.len()) {
        equal(rt, view.value(i), digits[i] == b'1');
    }
}

const BYTES: &[u8] = &[0x49, 0x92, 0x04];

#[test]
fn a_slice_of_a_view_counts_from_its_own_start(rt: HostRuntime) {
    let rt = &rt;
    let part = &view(rt, BYTES, 0, 20).slice(5..17);
    equal(rt, part.offset(), 5);
    equal(rt, part.inner().len(), 3);
    shows(rt, part, "010010010010");
    equal(rt, part.true_count(), 4);
    equal(rt, part.false_count(), 8);
    equal(rt, part.select(3), Some(10));
    equal(rt, part.select(4), None);
    equal(rt, part.select_unset(7), Some(11));
}

#[test]
fn a_range_of_a_view_counts_from_its_own_start(rt: HostRuntime) {
    let rt = &rt;
    let part = &view(rt, BYTES, 5, 12);
    equal(rt, part.count_range(1, 5), 2);
    equal(rt, part.count_range(5, 10), 1);
    equal(rt, part.count_range(4, 4), 0);
}

#[test]
fn bits_beside_views_are_not_compared(rt: HostRuntime) {
    let rt = &rt;
    let part = &view(rt, BYTES, 5, 12);
    equal(rt, *part == view(rt, &[0xAA, 0xA4, 0xA4], 8, 0), false);
    equal(rt, *part == view(rt, &[0x92, 0xF4], 0, 12), true);
    equal(rt, *part == view(rt, &[0x92, 0x00], 0, 12), false);
}

/// A window that begins after the first byte, and a view made again from its bytes and metadata.
#[test]
fn a_view_begins_with_the_byte_of_its_first_bit(rt: HostRuntime) {
    let rt = &rt;
    let far = &view(rt, BYTES, 13, 10);
    equal(rt, far.offset(), 5);
    equal(rt, far.len(), 10);
    equal(rt, far.inner().len(), 2);
    let again = BitBufferView::from_meta(far.inner(), far.meta());
    equal(rt, *far == again, true);
}

#[test]
fn a_view_of_no_bytes_has_no_bits(rt: HostRuntime) {
    let rt = &rt;
    let none = &BitBufferView::new(&[], 0);
    equal(rt, none.is_empty(), true);
    equal(rt, none.true_count(), 0);
    equal(rt, none.select(0), None);
    equal(rt, none.set_slices().next(), None);
}

#[test]
fn the_last_true_bit_of_a_view_is_found(rt: HostRuntime) {
    let rt = &rt;
    let few = &BitBufferView::new(&[0x76], 8);
    equal(rt, few.last_set_index(), Some(6));
    equal(rt, few.true_count(), 5);
}

#[test]
fn bytes_are_edited_through_a_view(rt: HostRuntime) {
    let rt = &rt;
    let mut bytes = [0u8, 0, 0xFF, 0xFF];
    let half = &mut BitBufferMutView::new_with_offset(&mut bytes, 10, 13);
    equal(rt, half.offset(), 5);
    equal(rt, half.len(), 10);
    equal(rt, half.is_empty(), false);
    equal(rt, half.as_slice().len(), 3);
    half.fill_range(0, 5, true);
    half.set_to(2, false);
    half.unset(9);
    half.set(8);
    equal(rt, half.true_count(), 8);
    equal(rt, half.false_count(), 2);
    equal(rt, half.value(2), false);
    equal(rt, half.value(9), false);
    equal(rt, bytes, [0, 0x60, 0xBF, 0xFF]);
}

/// The value is printed so.
fn prints<A: Allocator>(rt: &impl Abort, alloc: A, value: &impl Debug, wanted: &str) {
    let text = format!(in alloc; "{value:?}").expect(rt, "a text");
    equal(rt, text.as_str(), wanted);
    drop(text);
}

/// The bits of the window from the front, and no others.
#[test]
fn views_are_printed(rt: HostRuntime) {
    let rt = &rt;
    let mut bytes = [0x49, 0xFF];
    let bits = &view(rt, &bytes, 3, 5);
    prints(rt, rt.alloc(), bits, "BitBufferView(10010)");
    let bits = &BitBufferMutView::new_with_offset(&mut bytes, 5, 3);
    prints(rt, rt.alloc(), bits, "BitBufferMutView(10010)");
}

#[test]
fn the_first_64_bits_are_printed(rt: HostRuntime) {
    let rt = &rt;
    let long = &BitBufferView::new(&[0xFF; 9], 65);
    let wanted =
        "BitBufferView(1111111111111111111111111111111111111111111111111111111111111111..)";
    prints(rt, rt.alloc(), long, wanted);
}
