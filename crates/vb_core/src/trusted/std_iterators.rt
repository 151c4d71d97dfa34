// Written in part by tools/write-lists from tools/families/elements.txt.
//! Slice iterators and ranges of whole numbers know their number of items.
ghost use Rattle.std.specs.Prelude.{◌≡◌, ◌-◌, length};
ghost use Rattle.std.specs.Int.{int_gap};
ghost use Rattle.std.specs.Slice.Iter.{iter_rest};
ghost use Rattle.vb_core.specs.ExactCounts.{unsigned_range_counts, signed_range_counts};
ghost use Rattle.vb_core.specs.ExactCounts.{slice_iter_counts};

use crate::trusted::TrustedLen;
use std::ops::Range;
use std::slice::Iter;

impl<'a, T> TrustedLen for Iter<'a, T> {
    ghost left = { λ s. length (iter_rest s) };

    ghost counts = { slice_iter_counts };

    fn exact_len(&self) -> usize {
        self.len()
    }
}

/// Returns the number of values in `start..end`.
fn unsigned_len(start: u64, end: u64) -> usize
    ensures { result ≡ end - start }
{
    end.saturating_sub(start) as usize
}

/// Returns the number of values in `start..end`. Even the longest range fits in a `usize`.
fn signed_len(start: i64, end: i64) -> usize
    ensures { result ≡ int_gap start end }
{
    if start < end {
        end.abs_diff(start) as usize
    } else {
        0
    }
}

impl TrustedLen for Range<u8> {
    ghost left = { λ s. s.end - s.start };

    ghost counts = { unsigned_range_counts };

    fn exact_len(&self) -> usize {
        unsigned_len(self.start.into(), self.end.into())
    }
}

impl TrustedLen for Range<u16> {
    ghost left = { λ s. s.end - s.start };

    ghost counts = { unsigned_range_counts };

    fn exact_len(&self) -> usize {
        unsigned_len(self.start.into(), self.end.into())
    }
}

impl TrustedLen for Range<u32> {
    ghost left = { λ s. s.end - s.start };

    ghost counts = { unsigned_range_counts };

    fn exact_len(&self) -> usize {
        unsigned_len(self.start.into(), self.end.into())
    }
}

impl TrustedLen for Range<u64> {
    ghost left = { λ s. s.end - s.start };

    ghost counts = { unsigned_range_counts };

    fn exact_len(&self) -> usize {
        unsigned_len(self.start, self.end)
    }
}

impl TrustedLen for Range<usize> {
    ghost left = { λ s. s.end - s.start };

    ghost counts = { unsigned_range_counts };

    fn exact_len(&self) -> usize {
        unsigned_len(self.start as u64, self.end as u64)
    }
}

impl TrustedLen for Range<i8> {
    ghost left = { λ s. int_gap s.start s.end };

    ghost counts = { signed_range_counts };

    fn exact_len(&self) -> usize {
        signed_len(self.start.into(), self.end.into())
    }
}

impl TrustedLen for Range<i16> {
    ghost left = { λ s. int_gap s.start s.end };

    ghost counts = { signed_range_counts };

    fn exact_len(&self) -> usize {
        signed_len(self.start.into(), self.end.into())
    }
}

impl TrustedLen for Range<i32> {
    ghost left = { λ s. int_gap s.start s.end };

    ghost counts = { signed_range_counts };

    fn exact_len(&self) -> usize {
        signed_len(self.start.into(), self.end.into())
    }
}

impl TrustedLen for Range<i64> {
    ghost left = { λ s. int_gap s.start s.end };

    ghost counts = { signed_range_counts };

    fn exact_len(&self) -> usize {
        signed_len(self.start, self.end)
    }
}
