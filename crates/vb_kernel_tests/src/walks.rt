//! Walks over windows: worked rows, and each walk compared with the bits of a view.
use crate::compared::{equal, equal_at, gives};
use std::process::Abort;
use vb_core::TrustedLen;
use vb_view::BitBufferView;
use vb_walk::{BitIndexIterator, BitIterator, BitSliceIterator};

/// The bits are those of the view, and so is the number of set bits.
pub(crate) fn bits_are_plain(rt: &impl Abort, view: &BitBufferView<'_>, mut bits: BitIterator<'_>) {
    let window = view.meta();
    let mut ones = 0usize;
    for i in 0..view.len() {
        let bit = view.value(i);
        ones = ones.saturating_add(usize::from(bit));
        equal_at(rt, bits.next(), Some(bit), (i, window));
    }
    equal(rt, bits.next(), None);
    equal(rt, bits.next(), None);
    equal_at(rt, view.true_count(), ones, window);
}

/// Bits from both ends in turn, and the number of those that are left.
pub(crate) fn ends_are_plain(rt: &impl Abort, view: &BitBufferView<'_>, mut bits: BitIterator<'_>) {
    let window = view.meta();
    let len = view.len();
    for i in 0..len {
        equal(rt, bits.len(), len - i);
        equal(rt, bits.exact_len(), len - i);
        let (given, place) = if i % 2 == 0 {
            (bits.next(), i / 2)
        } else {
            (bits.next_back(), len - 1 - i / 2)
        };
        equal_at(rt, given, Some(view.value(place)), (i, window));
    }
    equal(rt, bits.len(), 0);
    equal(rt, bits.next(), None);
    equal(rt, bits.next_back(), None);
}

/// The indices are those of the view's true bits. Returns the last one.
pub(crate) fn places_are_plain(
    rt: &impl Abort,
    view: &BitBufferView<'_>,
    mut places: BitIndexIterator<'_>,
) -> Option<usize> {
    let window = view.meta();
    let mut last = None;
    let mut place = places.next();
    for i in 0..view.len() {
        if view.value(i) {
            equal_at(rt, place, Some(i), window);
            last = place;
            place = places.next();
        }
    }
    equal_at(rt, place, None, window);
    equal(rt, places.next(), None);
    last
}

/// The runs are those of the view's true bits, each as long as can be.
pub(crate) fn runs_are_plain(
    rt: &impl Abort,
    view: &BitBufferView<'_>,
    mut runs: BitSliceIterator<'_>,
) {
    let window = view.meta();
    let len = view.len();
    let (mut start, mut run) = (0, runs.next());
    for i in 0..=len {
        let bit = i < len && view.value(i);
        if !bit && start < i {
            equal_at(rt, run, Some((start, i)), window);
            run = runs.next();
        }
        if !bit {
            start = i.saturating_add(1);
        }
    }
    equal_at(rt, run, None, window);
    equal(rt, runs.next(), None);
}

/// A byte whose runs are known.
#[test]
fn walks_end_with_the_window(rt: HostRuntime) {
    let rt = &rt;
    gives(rt, BitIndexIterator::new(&[0x76], 0, 7), &[1, 2, 4, 5, 6]);
    gives(rt, BitSliceIterator::new(&[0x76], 0, 7), &[(1, 3), (4, 7)]);
    gives(rt, BitSliceIterator::new(&[0xFF; 17], 0, 130), &[(0, 130)]);
    gives(rt, BitSliceIterator::new(&[], 0, 0), &[]);
}
