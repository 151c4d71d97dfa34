//! Truth values that may be null, read a word at a time.
ghost use Rattle.std.specs.Prelude.{◌≡◌, ◌+◌, ◌*◌, ◌<◌, ◌≤◌, true, false, length, map};
ghost use Rattle.std.specs.Prelude.{slice_range};
ghost use Rattle.std.specs.Option.{ForSome};
ghost use Rattle.vb_kleene.specs.Digits.{digits, lane_bits};
ghost use Rattle.vb_kleene.specs.Kleene.{is_truth};
ghost use Rattle.vb_kleene.specs.View.{bits_of};

use std::simd::prelude::*;
use vb_bits::{And, AndNot, Merge, shifted_words, words_at};
use vb_view::{BitBufferView, view_word};

/// Truth values that may be null: bits, and their validity. Without a validity all are valid.
#[derive(Clone, Copy)]
pub(crate) struct Column<'a> {
    values: BitBufferView<'a>,
    validity: Option<BitBufferView<'a>>,
    ghost one_each: { ForSome validity (λ v. length (bits_of v) ≡ length (bits_of values)) },
}

impl<'a> Column<'a> {
    ghost use Rattle.vb_kleene.specs.Combined.{column};

    pub(crate) fn new(values: BitBufferView<'a>, validity: Option<BitBufferView<'a>>) -> Self
        requires { ForSome validity (λ v. length (bits_of v) ≡ length (bits_of values)) }
        ensures values { result.values ≡ values.entry }
        ensures validity { result.validity ≡ validity.entry }
    {
        Column { values, validity }
    }

    /// Returns the number of truth values.
    pub(crate) fn len(&self) -> usize
        ensures { result ≡ length (bits_of self.now.values) }
    {
        self.values.len()
    }

    /// Returns which of the 256 truth values from index `256 * k` on are true, and which are false.
    #[inline(always)]
    pub(crate) fn block(&self, k: usize) -> (u64x4, u64x4)
        requires { 256 * k + 256 ≤ length (bits_of self.now.values) }
        ensures trues_len { length result.0 ≡ 4 }
        ensures falses_len { length result.1 ≡ 4 }
        ensures trues { lane_bits result.0 ≡ slice_range (map (is_truth true) (column self.now))
            (256 * k) (256 * k + 256) }
        ensures falses { lane_bits result.1 ≡ slice_range (map (is_truth false) (column self.now))
            (256 * k) (256 * k + 256) }
    {
        let values = block_of(self.values, k);
        match self.validity {
            Some(validity) => {
                let valid = block_of(validity, k);
                (And::words(valid, values), AndNot::words(valid, values))
            }
            None => (values, values ^ u64x4::splat(u64::MAX)),
        }
    }

    /// Returns which of the `n` truth values from index `at` on are true, and which are false, as
    /// the lowest bits of two words.
    #[inline(always)]
    pub(crate) fn word(&self, at: usize, n: usize) -> (u64, u64)
        requires few { n ≤ 64 }
        requires inside { at + n ≤ length (bits_of self.now.values) }
        ensures trues { digits result.0 0 n ≡ slice_range (map (is_truth true) (column self.now))
            at (at + n) }
        ensures falses { digits result.1 0 n ≡ slice_range (map (is_truth false) (column self.now))
            at (at + n) }
    {
        let values = view_word(self.values, at, n);
        match self.validity {
            Some(validity) => {
                let valid = view_word(validity, at, n);
                (And::word(valid, values), AndNot::word(valid, values))
            }
            None => (values, !values),
        }
    }
}

/// Returns the 256 bits from index `256 * k` on as four words.
#[inline(always)]
#[tactic(auto, using(vb_bits::proofs::WindowLemmas::windows))]
fn block_of(view: BitBufferView<'_>, k: usize) -> u64x4
    requires { 256 * k + 256 ≤ length (bits_of view) }
    ensures len { length result ≡ 4 }
    ensures digits { lane_bits result ≡ slice_range (bits_of view.entry) (256 * k) (256 * k + 256) }
{
    let shift = view.offset();
    if shift == 0 {
        words_at(view.inner(), 32 * k)
    } else {
        shifted_words(view.inner(), 32 * k, shift)
    }
}
