//! Bits deposited by windows of masks, compared with a plain loop: at every offset of the three
//! windows in their bytes.
use crate::compared::{equal_lists, holds};
use crate::masks::Kept;
use std::alloc::Global;
use std::process::Abort;
use vb_bits::window_fits;
use vb_filter::deposit_into;
use vb_view::BitBufferView;

/// Masks that cover each path of the code for one word of a mask.
const MASKS: &[Kept] = &[
    Kept::OneIn(1),
    Kept::OneIn(5000),
    Kept::OneIn(2),
    Kept::OneIn(5),
    Kept::OneIn(9),
    Kept::OneIn(70),
    Kept::AllButOneIn(3),
    Kept::AllButOneIn(70),
    Kept::Runs(13, 17),
    Kept::Runs(40, 64),
    Kept::Runs(100, 130),
];

/// The bits at which the windows begin, and the length of the mask.
#[derive(Clone, Copy)]
struct Windows {
    out: usize,
    values: usize,
    mask: usize,
    len: usize,
}

/// The bytes of the three windows.
#[derive(Drop)]
struct Bytes {
    out: Vec<u8>,
    values: Vec<u8>,
    mask: Vec<u8>,
}

impl Bytes {
    /// `count` bytes of each. Values repeat after seven bits, so that a shift by up to six bits
    /// shows.
    fn new(rt: &impl Abort, alloc: Global, count: usize, mask: Kept) -> Bytes {
        Bytes {
            out: bytes_of(rt, alloc, count, Kept::AllButOneIn(3)),
            values: bytes_of(rt, alloc, count, Kept::Runs(3, 7)),
            mask: bytes_of(rt, alloc, count, mask),
        }
    }
}

/// `count` bytes; a bit is true if `kept` has its index.
pub(crate) fn bytes_of(rt: &impl Abort, alloc: Global, count: usize, kept: Kept) -> Vec<u8> {
    let mut made = Vec::new(alloc);
    for at in 0..count {
        made.push(byte(kept, at)).expect(rt, "memory");
    }
    made
}

fn byte(kept: Kept, at: usize) -> u8 {
    let mut byte = 0;
    for digit in 0..8 {
        byte |= u8::from(kept.has(at.saturating_mul(8).saturating_add(digit))) << digit;
    }
    byte
}

/// The plain loop: a bit of `out` after the other.
fn deposit_by_bits(
    out: &mut [u8],
    offset: usize,
    values: BitBufferView<'_>,
    mask: BitBufferView<'_>,
) {
    let mut values = values.iter();
    for place in 0..mask.len() {
        let bit = mask.value(place) && values.next() == Some(true);
        set(out, offset.saturating_add(place), bit);
    }
}

pub(crate) fn set(bytes: &mut [u8], bit: usize, value: bool) {
    if let Some(byte) = bytes.get_mut(bit / 8) {
        let digit = 1 << (bit % 8);
        *byte = if value { *byte | digit } else { *byte & !digit };
    }
}

/// A deposit leaves in all bytes what the loop leaves.
fn deposits_as_a_loop(rt: &impl Abort, alloc: Global, bytes: &Bytes, at: Windows) {
    let (values, places) = (bytes.values.as_slice(), bytes.mask.as_slice());
    holds(rt, window_fits(places, at.mask, at.len));
    let mask = BitBufferView::new_with_offset(places, at.len, at.mask);
    let count = mask.true_count();
    holds(rt, window_fits(values, at.values, count));
    let values = BitBufferView::new_with_offset(values, count, at.values);
    let mut out = copied(rt, alloc, bytes.out.as_slice());
    let mut wanted = copied(rt, alloc, bytes.out.as_slice());
    holds(rt, window_fits(out.as_slice(), at.out, at.len));
    deposit_into(out.as_mut_slice(), at.out, values, mask);
    deposit_by_bits(wanted.as_mut_slice(), at.out, values, mask);
    equal_lists(rt, out.as_slice(), wanted.as_slice());
    drop((out, wanted));
}

pub(crate) fn copied(rt: &impl Abort, alloc: Global, bytes: &[u8]) -> Vec<u8> {
    let mut made = Vec::new(alloc);
    made.extend_from_slice(bytes).expect(rt, "memory");
    made
}

/// All windows that begin with one of the first 16 bits, at lengths up to 200.
fn deposit_at_all(rt: &impl Abort, alloc: Global, kept: Kept) {
    let bytes = Bytes::new(rt, alloc, 32, kept);
    for n in 0..4096 {
        let at = Windows {
            out: n % 16,
            values: n / 16 % 16,
            mask: n / 256,
            len: 7 * n % 201,
        };
        deposits_as_a_loop(rt, alloc, &bytes, at);
    }
    drop(bytes);
}

/// Windows of many words.
fn deposit_long(rt: &impl Abort, alloc: Global, kept: Kept) {
    let bytes = Bytes::new(rt, alloc, 1300, kept);
    for offset in 0..8 {
        let at = Windows {
            out: offset,
            values: 5,
            mask: 3,
            len: 10_300 + offset,
        };
        deposits_as_a_loop(rt, alloc, &bytes, at);
    }
    drop(bytes);
}

#[test]
fn bits_are_put_where_a_plain_loop_puts_them(rt: HostRuntime) {
    for kept in MASKS {
        deposit_at_all(&rt, rt.alloc(), *kept);
        deposit_long(&rt, rt.alloc(), *kept);
    }
}
